//! Keeps neighbours that packets are received from (RFC 1122 2.3.2.1).
ghost use Rattle.std.specs.Prelude.{◌≡◌};
ghost use Rattle.fragmentation.specs.Slots.{Slots};
ghost use Rattle.host_machine.specs.Context.Host.{SocketSet};
ghost use Rattle.host_machine.specs.Discovery.Renewal.{sender_renewed};
ghost use Rattle.iface_context.specs.Stands.{host_in};

use iface_context::Context;
use iface_context::neighbors::renew_neighbor;
use ip_wire::{HardwareAddress, IpRepr};

/// Keeps the sender of a packet for another 60 s, if it is known at this hardware address and the packet's destination
/// is unicast.
#[inline(always)]
pub fn renew_sender(context: &mut Context, source: HardwareAddress, header: &IpRepr)
    ensures { (slots : Slots) (sockets : SocketSet) →
        host_in context.new slots sockets ≡ sender_renewed source header.now (host_in context.old slots sockets) }
{
    if context.is_unicast(&header.dst_addr()) {
        renew_neighbor(context, header.src_addr(), source);
    }
}
