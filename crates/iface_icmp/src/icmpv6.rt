//! How an interface processes ICMPv6 messages, and which it sends in reply (RFC 4443).
ghost use Rattle.std.specs.Prelude.{◌≡◌, ◌<◌, [], Some};
ghost use Rattle.host_machine.specs.Packet.Packet.{IsWritablePayload};
ghost use Rattle.ip_address.specs.Ipv6.{is_unicast};
ghost use Rattle.host_machine.specs.Context.Host.{no_sockets};
ghost use Rattle.host_machine.specs.Icmp.Icmpv6 as spec;
ghost use Rattle.host_machine.specs.Receive.Response.{Responds};
ghost use Rattle.iface_context.specs.Refines.{RefinesBuilding};
ghost use Rattle.iface_context.specs.Stands.{host_of};
ghost use Rattle.iface_icmp.specs.Back.{payload_back};

use control_wire::{Icmpv6DstUnreachable, Icmpv6ParamProblem, Icmpv6Repr};
use iface_context::packet::icmp_reply_payload_len;
use iface_context::payload::UnreachableV6;
use iface_context::{Context, IpPayload, Packet, PacketV6, Payload};
use iface_send::dispatch::dispatch;
use ip_wire::emit::FrameBuffer;
use ip_wire::ipv6_packet::HEADER_LEN;
use ip_wire::{Ipv6Address, Ipv6Repr};

/// The length of a packet that every link carries, in octets (RFC 8200 5).
const IPV6_MIN_MTU: usize = 1280;

/// Builds the error in reply to a datagram for a port without a listening socket, in an empty buffer. None is built if
/// a raw socket accepted the packet.
#[inline(never)]
pub(crate) fn icmpv6_unreachable(
    context: &mut Context,
    header: &Ipv6Repr,
    payload: &[u8],
    handled_by_raw_socket: bool,
    out: &mut FrameBuffer,
)
    requires { out.old ≡ [] }
    ensures { RefinesBuilding out.new (Responds (spec.port_unreachable handled_by_raw_socket
        (host_of context.old no_sockets).ip_addrs header.now payload.now)) context.old context.new }
{
    if handled_by_raw_socket {
        return;
    }
    let error = UnreachableV6 {
        reason: Icmpv6DstUnreachable::PortUnreachable,
        header: *header,
        octets: quotation_of(payload),
    };
    send_icmpv6_reply(context, header, error, out);
}

/// Builds the parameter problem in reply to a packet with an unrecognized next header or option, in an empty buffer.
/// The pointer is 40, the octet after the packet's header (RFC 4443 3.4). The error quotes the packet's header and at
/// most 1,192 octets of the given payload.
pub fn parameter_problem(
    context: &mut Context,
    reason: Icmpv6ParamProblem,
    header: &Ipv6Repr,
    payload: &[u8],
    out: &mut FrameBuffer,
)
    requires { out.old ≡ [] }
    ensures { RefinesBuilding out.new
        (Responds (Some (spec.problem (host_of context.old no_sockets).ip_addrs reason header.now payload.now)))
        context.old context.new }
{
    let message = Icmpv6Repr::ParamProblem {
        reason,
        pointer: 40,
        header: *header,
    };
    send_message(context, header, message, quotation_of(payload), out);
}

/// The part of a payload that an error quotes.
fn quotation_of(payload: &[u8]) -> &[u8]
    ensures { result.now ≡ spec.quotation_of payload.now }
{
    &payload[..icmp_reply_payload_len(payload.len(), IPV6_MIN_MTU, HEADER_LEN)]
}

/// Builds a message in reply to a packet, with hop limit 64.
#[inline(never)]
pub fn send_message(
    context: &mut Context,
    header: &Ipv6Repr,
    message: Icmpv6Repr,
    octets: &[u8],
    out: &mut FrameBuffer,
)
    requires { out.old ≡ [] }
    ensures { RefinesBuilding out.new
        (Responds (Some (spec.message_back (host_of context.old no_sockets).ip_addrs header.now message octets.now)))
        context.old context.new }
{
    let packet = Packet::Ipv6(PacketV6 {
        src_addr: reply_source(context, header),
        dst_addr: header.src_addr,
        hop_limit: 64,
        payload: IpPayload::Icmpv6(message, octets),
    });
    let _ = dispatch(context, &packet, out);
}

/// Builds a payload of one kind in reply to a packet, with hop limit 64.
#[inline(always)]
pub fn send_icmpv6_reply<P: Payload>(
    context: &mut Context,
    header: &Ipv6Repr,
    payload: P,
    out: &mut FrameBuffer,
)
    requires empty { out.old ≡ [] }
    requires writable { IsWritablePayload (P.carried payload) }
    ensures { RefinesBuilding out.new
        (Responds (Some (payload_back (host_of context.old no_sockets).ip_addrs header.now (P.carried payload))))
        context.old context.new }
{
    let packet = PacketV6 {
        src_addr: reply_source(context, header),
        dst_addr: header.src_addr,
        hop_limit: 64,
        payload,
    };
    let _ = dispatch(context, &packet, out);
}

/// The source address of a message in reply to a packet: the packet's destination if that is unicast, otherwise the
/// source address for its sender (RFC 4443 2.2).
fn reply_source(context: &Context, header: &Ipv6Repr) -> Ipv6Address
    ensures { result ≡ spec.reply_source (host_of context.now no_sockets).ip_addrs header.now }
{
    if header.dst_addr.is_unicast() {
        return header.dst_addr;
    }
    context.get_source_address_ipv6(&header.src_addr)
}
