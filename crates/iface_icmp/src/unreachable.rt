//! Port unreachable errors, by the family of the packet (RFC 1122 3.2.2.1, RFC 4443 3.1).
ghost use Rattle.std.specs.Prelude.{◌≡◌, []};
ghost use Rattle.ip_wire.specs.IpPacket.{TellsLength};
ghost use Rattle.host_machine.specs.Context.Host.{no_sockets};
ghost use Rattle.host_machine.specs.Receive.Response.{Responds};
ghost use Rattle.host_machine.specs.Icmp.Unreachable.{port_unreachable};
ghost use Rattle.iface_context.specs.Refines.{RefinesBuilding};
ghost use Rattle.iface_context.specs.Stands.{host_of};

use crate::{icmpv4, icmpv6};
use control_wire::icmpv4::Icmpv4DstUnreachable;
use iface_context::Context;
use ip_wire::IpRepr;
use ip_wire::emit::FrameBuffer;

/// Builds the error in reply to a datagram for a port without a listening socket, in an empty buffer. None is built if
/// a raw socket accepted the packet.
#[inline(always)]
pub fn send_port_unreachable(
    context: &mut Context,
    header: &IpRepr,
    payload: &[u8],
    handled_by_raw_socket: bool,
    out: &mut FrameBuffer,
)
    requires empty { out.old ≡ [] }
    requires quotable { TellsLength header.now }
    ensures { RefinesBuilding out.new (Responds (port_unreachable handled_by_raw_socket
        (host_of context.old no_sockets).ip_addrs header.now payload.now)) context.old context.new }
{
    match header {
        IpRepr::Ipv4(header) => {
            let reason = Icmpv4DstUnreachable::PortUnreachable;
            icmpv4::icmpv4_unreachable(
                context,
                reason,
                header,
                payload,
                handled_by_raw_socket,
                out,
            );
        }
        IpRepr::Ipv6(header) => icmpv6::icmpv6_unreachable(
            context,
            header,
            payload,
            handled_by_raw_socket,
            out,
        ),
    }
}
