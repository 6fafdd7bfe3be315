//! How an interface processes ICMPv4 messages, and which it sends in reply (RFC 792, RFC 1122 3.2.2).
ghost use Rattle.std.specs.Prelude.{◌≡◌, ◌+◌, ◌<◌, ◌^◌, [], length};
ghost use Rattle.control_wire.specs.Icmpv4.{IsIcmpv4, QuotesPacket, icmpv4_in};
ghost use Rattle.host_machine.specs.Context.Host.{no_sockets};
ghost use Rattle.host_machine.specs.Icmp.Icmpv4 as spec;
ghost use Rattle.host_machine.specs.Packet.Packet as value;
ghost use Rattle.host_machine.specs.Receive.Response.{Responds};
ghost use Rattle.iface_context.specs.Refines.{RefinesBuilding, RefinesReplying};
ghost use Rattle.iface_context.specs.Stands.{host_of};

use crate::delivery::deliver;
use control_wire::IcmpRepr;
use control_wire::icmpv4::{EchoRequest, Icmpv4DstUnreachable, Icmpv4Repr};
use iface_context::packet::icmp_reply_payload_len;
use iface_context::payload::{EchoReplyV4, Unreachable};
use iface_context::{Context, IpPayload, PacketV4, Payload};
use iface_send::dispatch::dispatch;
use ip_wire::emit::FrameBuffer;
use ip_wire::ipv4_packet::HEADER_LEN;
use ip_wire::{IpAddress, Ipv4Address, Ipv4Repr};
use socket_set::SocketSet;

/// The length of a packet that every host accepts, in octets (RFC 791 3.1).
const IPV4_MIN_MTU: usize = 576;

/// Processes the payload of a packet with this header as an ICMPv4 message (RFC 792). The payload must have fewer than
/// 65,536 octets. Each ICMP socket that accepts the message gets it whole. For an echo request, the reply with its
/// identifier, sequence number and data is built in an empty buffer. No other message is answered.
pub fn process_icmpv4(
    context: &mut Context,
    sockets: &mut SocketSet<'_>,
    header: &Ipv4Repr,
    octets: &[u8],
    out: &mut FrameBuffer,
)
    requires empty { out.old ≡ [] }
    requires short { length octets.now < 2 ^ 16 }
    ensures { RefinesReplying out.new (λ H. spec.ProcessesIcmpv4 header.now H octets.now)
        (host_of context.old sockets.old) (host_of context.new sockets.new) }
{
    let checked = context.capabilities().checksum.icmpv4.rx();
    let Some((message, contents)) = Icmpv4Repr::parse(octets, checked) else {
        return;
    };
    let remote = IpAddress::Ipv4(header.src_addr);
    let heard = IcmpRepr::Ipv4(message);
    deliver(sockets, remote, &heard, contents, octets);
    answer(context, header, &message, contents, octets, checked, out);
}

/// Builds the reply to a message, given with all its octets: to an echo request, and to nothing else. If the request's
/// checksum was verified, the reply's is derived from it.
#[inline(always)]
fn answer(
    context: &mut Context,
    header: &Ipv4Repr,
    message: &Icmpv4Repr,
    contents: &[u8],
    octets: &[u8],
    checked: bool,
    out: &mut FrameBuffer,
)
    requires empty { out.old ≡ [] }
    requires short { length octets.now < 2 ^ 16 }
    requires read { IsIcmpv4 checked octets.now × ((message.now, contents.now) ≡ icmpv4_in octets.now) }
    ensures { RefinesBuilding out.new
        (Responds (spec.answer_to (host_of context.old no_sockets).ip_addrs header.now message.now contents.now))
        context.old context.new }
{
    let Icmpv4Repr::EchoRequest { ident, seq_no } = message else {
        return;
    };
    let reply = Icmpv4Repr::EchoReply {
        ident: *ident,
        seq_no: *seq_no,
    };
    if checked {
        let request = EchoRequest { octets };
        send_icmpv4_reply(context, header, reply, EchoReplyV4 { request }, out);
    } else {
        let payload = IpPayload::Icmpv4(reply, contents);
        send_icmpv4_reply(context, header, reply, payload, out);
    }
}

/// Builds an ICMPv4 error in reply to a packet, in an empty buffer. It quotes the packet's header and at most 528
/// octets of its payload, so that it is at most 576 octets long (RFC 1122 3.2.2). None is built if a raw socket
/// accepted the packet.
#[inline(never)]
pub fn icmpv4_unreachable(
    context: &mut Context,
    reason: Icmpv4DstUnreachable,
    header: &Ipv4Repr,
    payload: &[u8],
    handled_by_raw_socket: bool,
    out: &mut FrameBuffer,
)
    requires empty { out.old ≡ [] }
    requires quotable { 20 + header.now.payload_len < 2 ^ 16 }
    ensures { RefinesBuilding out.new (Responds (spec.unreachable handled_by_raw_socket
        (host_of context.old no_sockets).ip_addrs reason header.now payload.now)) context.old context.new }
{
    if handled_by_raw_socket {
        return;
    }
    let message = Icmpv4Repr::DstUnreachable {
        reason,
        header: *header,
    };
    let error = Unreachable {
        reason,
        header: *header,
        octets: quotation_of(payload),
    };
    send_icmpv4_reply(context, header, message, error, out);
}

/// The part of a payload that an error quotes.
fn quotation_of(payload: &[u8]) -> &[u8]
    ensures { result.now ≡ spec.quotation_of payload.now }
{
    &payload[..icmp_reply_payload_len(payload.len(), IPV4_MIN_MTU, HEADER_LEN)]
}

/// Builds a message in reply to a packet, with hop limit 64, if it may be sent.
#[inline(always)]
fn send_icmpv4_reply<P: Payload>(
    context: &mut Context,
    header: &Ipv4Repr,
    message: Icmpv4Repr,
    payload: P,
    out: &mut FrameBuffer,
)
    requires empty { out.old ≡ [] }
    requires quoted { QuotesPacket message }
    requires carried { P.carried payload ≡ value.Icmpv4 message (P.after payload) }
    ensures { RefinesBuilding out.new
        (Responds (spec.icmpv4_reply (host_of context.old no_sockets).ip_addrs header.now message (P.after payload)))
        context.old context.new }
{
    let Some(src_addr) = reply_source(context, header, &message) else {
        return;
    };
    let packet = PacketV4 {
        src_addr,
        dst_addr: header.src_addr,
        hop_limit: 64,
        payload,
    };
    let _ = dispatch(context, &packet, out);
}

/// The source address of a message in reply to a packet: the packet's destination if that is unicast; for a broadcast
/// the first IPv4 address of the interface, where the message may answer one. `None` if the message may not be sent, as
/// to an address that isn't unicast (RFC 1122 3.2.2, 3.2.2.6).
#[inline(always)]
fn reply_source(context: &Context, header: &Ipv4Repr, message: &Icmpv4Repr) -> Option<Ipv4Address>
    ensures { result ≡ spec.reply_source (host_of context.now no_sockets).ip_addrs header.now message.now }
{
    if !context.is_unicast_v4(&header.src_addr) {
        return None;
    }
    if context.is_unicast_v4(&header.dst_addr) {
        return Some(header.dst_addr);
    }
    if context.is_broadcast_v4(&header.dst_addr) && may_answer_broadcast(message) {
        return context.ipv4_addr();
    }
    None
}

/// Whether a message may answer a broadcast: only an echo reply may.
fn may_answer_broadcast(message: &Icmpv4Repr) -> bool
    ensures { result ≡ spec.may_answer_broadcast message.now }
{
    matches!(message, Icmpv4Repr::EchoReply { .. })
}
