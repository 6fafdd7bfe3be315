//! How an interface processes UDP datagrams: they are delivered, or refused (RFC 768, RFC 1122 4.1.3.1).
ghost use Rattle.std.specs.Prelude.{◌≡◌, []};
ghost use Rattle.ip_wire.specs.IpPacket.{TellsLength};
ghost use Rattle.host_machine.specs.Sockets.Udp.{ProcessesUdp};
ghost use Rattle.host_machine.specs.Context.Host.{no_sockets};
ghost use Rattle.host_machine.specs.Receive.Response.{Responds};
ghost use Rattle.host_machine.specs.Icmp.Unreachable.{port_unreachable};
ghost use Rattle.iface_context.specs.Stands.{host_of};
ghost use Rattle.iface_context.specs.Refines.{RefinesBuilding, RefinesReplying};

use iface_context::Context;
use iface_icmp::unreachable::send_port_unreachable;
use iface_sockets::udp::deliver;
use ip_wire::emit::FrameBuffer;
use ip_wire::{IpRepr, UdpRepr};
use socket_set::SocketSet;

/// Processes the payload of a packet with this header as a UDP datagram (RFC 768). The first socket that accepts it
/// gets its payload, with its sender, or drops it for lack of room; no other socket changes. If no socket accepts it,
/// an error is sent in reply, unless a raw socket accepted the packet. A malformed datagram is dropped. The error is
/// built in an empty buffer.
#[inline(always)]
pub fn process_udp(
    context: &mut Context,
    sockets: &mut SocketSet<'_>,
    header: &IpRepr,
    octets: &[u8],
    handled_by_raw_socket: bool,
    out: &mut FrameBuffer,
)
    requires empty { out.old ≡ [] }
    requires quotable { TellsLength header.now }
    ensures { RefinesReplying out.new (λ H. ProcessesUdp handled_by_raw_socket header.now H octets.now)
        (host_of context.old sockets.old) (host_of context.new sockets.new) }
{
    let checked = context.capabilities().checksum.udp.rx();
    let source = header.src_addr();
    let destination = header.dst_addr();
    let Some((ports, payload)) = UdpRepr::parse(octets, &source, &destination, checked) else {
        return;
    };
    if !deliver(context, sockets, header, &ports, payload) {
        refuse_by_copy(context, header, octets, handled_by_raw_socket, out);
    }
}

/// Builds the error in reply to a datagram that no socket accepts, with a copy of the packet's header, so that none is
/// stored for a datagram that is delivered.
#[inline(always)]
fn refuse_by_copy(
    context: &mut Context,
    header: &IpRepr,
    octets: &[u8],
    handled_by_raw_socket: bool,
    out: &mut FrameBuffer,
)
    requires empty { out.old ≡ [] }
    requires quotable { TellsLength header.now }
    ensures { RefinesBuilding out.new (Responds (port_unreachable handled_by_raw_socket
        (host_of context.old no_sockets).ip_addrs header.now octets.now)) context.old context.new }
{
    let refused = *header;
    send_port_unreachable(context, &refused, octets, handled_by_raw_socket, out);
}
