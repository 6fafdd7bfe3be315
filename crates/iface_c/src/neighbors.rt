//! The neighbours of a host.
ghost use Rattle.std.specs.Prelude.{◌≡◌, ◌≢◌};
ghost use Rattle.iface_c.specs.Calls.{Did};
ghost use Rattle.iface_c.specs.Handle.{host_in};
ghost use Rattle.iface_c.specs.Neighbors.{IsCodeFor, ShowsNeighbor};

use crate::addresses::IfaceAddress;
use crate::handle::Iface;
use crate::status::{NO_HOST, NOT_THERE, OK};
use std::alloc::Global;

/// Writes the neighbour at a place of their list.
#[unsafe(no_mangle)]
pub extern "C" fn iface_neighbor_at(
    handle: &mut Iface,
    alloc: Global,
    place: u32,
    address: &mut IfaceAddress,
    hardware_address: &mut [u8; 6],
    until: &mut i64,
) -> u32
    ensures done { Did result (λ old new.
        ShowsNeighbor place address.new hardware_address.new until.new old new) handle.old handle.new }
    ensures code { IsCodeFor result place (host_in handle.old) }
    ensures kept { result ≢ 0 → (address.new ≡ address.old) × (hardware_address.new ≡ hardware_address.old)
        × (until.new ≡ until.old) }
{
    let Some(host) = handle.take(alloc) else {
        return NO_HOST;
    };
    let found = host.neighbor_at(place as usize);
    handle.put(host);
    match found {
        Some(known) => {
            *address = IfaceAddress::of(&known.address);
            let octets = known.hardware.0;
            *hardware_address = octets;
            *until = known.until.total_micros();
            OK
        }
        None => NOT_THERE,
    }
}
