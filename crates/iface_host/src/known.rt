//! Whom the interface of a host knows, for the schedule of its sockets.
ghost use Rattle.std.specs.Prelude.{◌≡◌};
ghost use Rattle.iface_host.specs.Known.{knows_at};

use egress_schedule::Neighbors;
use iface_tables::route::{best_is_found, router_is_one};
use interface::Interface;
use ip_wire::IpAddress;

/// The neighbours that an interface knows.
#[derive(Drop)]
pub(crate) struct KnownTo<'r> {
    pub(crate) interface: &'r Interface,
}

impl<'r> Neighbors for KnownTo<'r> {
    ghost use Rattle.iface_host.specs.Known.{knows_at};

    ghost knows = { λ n a. knows_at n.interface.now a };

    fn is_known(&self, address: &IpAddress) -> bool {
        is_known_to(self.interface, address)
    }
}

/// Whether a packet for an address waits for nobody, by what an interface knows: the next hop is a known neighbour, or there
/// is none to be asked for.
fn is_known_to(interface: &Interface, address: &IpAddress) -> bool
    ensures { result ≡ knows_at interface.now address.now }
{
    if !address.is_unicast() {
        return !address.is_unspecified();
    }
    // The next hop is one alone.
    router_is_one();
    best_is_found();
    interface.has_neighbor(address)
}
