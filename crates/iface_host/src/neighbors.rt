//! The neighbours of a host.
ghost use Rattle.std.specs.Prelude.{◌≡◌};
ghost use Rattle.std.specs.Option.{option_and_then};
ghost use Rattle.iface_host.specs.Neighbors.{IsNeighborAt, known_as};

use crate::host::IfaceHost;
use iface_tables::neighbor::Neighbor;
use ip_wire::{EthernetAddress, HardwareAddress, IpAddress};
use net_base::time::Instant;

/// A neighbour as it is told.
#[derive(Clone, Copy, Debug, PartialEq, Eq)]
pub struct Known {
    /// Its address.
    pub address: IpAddress,
    /// Its address on Ethernet.
    pub hardware: EthernetAddress,
    /// The moment from which that is no longer known.
    pub until: Instant,
}

impl IfaceHost {
    /// The neighbour at a place of their list, if there is one: at most as many stand there as there is room for, by rising
    /// expiry, those whose expiry has passed too. On a medium without hardware addresses there is none.
    pub fn neighbor_at(&self, index: usize) -> Option<Known>
        ensures { IsNeighborAt index result self.now }
    {
        known_from(self.interface.neighbors().nth_by_expiry(index))
    }
}

/// A neighbour as it is told, if it has an address on Ethernet.
fn known_from(found: Option<(IpAddress, Neighbor)>) -> Option<Known>
    ensures { result ≡ option_and_then known_as found }
{
    let (address, neighbor) = found?;
    match neighbor.hardware_addr {
        HardwareAddress::Ethernet(hardware) => Some(Known {
            address,
            hardware,
            until: neighbor.expires_at,
        }),
        HardwareAddress::Ip => None,
    }
}
