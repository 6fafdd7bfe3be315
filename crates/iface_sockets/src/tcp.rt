//! TCP: how a segment is delivered to a socket or answered by a reset, and what TCP sockets send (RFC 9293 3.5.2).
ghost use Rattle.std.specs.Prelude.{◌≡◌, ◌<◌, ◌≤◌, ◌^◌, ℕ, [], Some, true, false, length, slice_get, slice_set, IfSome};
ghost use Rattle.std.specs.Option.{option_map};
ghost use Rattle.socket_set.specs.SocketSet.{socket_at, with_places};
ghost use Rattle.host_machine.specs.Sockets.Delivery.{NoneAccepts};
ghost use Rattle.host_machine.specs.Context.Host.{Storage, Socket};
ghost use Rattle.host_machine.specs.Receive.Response.{Responds};
ghost use Rattle.host_machine.specs.Sockets.Tcp as spec;
ghost use Rattle.host_machine.specs.Sockets.Offers as egress;
ghost use Rattle.iface_context.specs.Refines.{RefinesReplying, RefinesBuilding, RefinesTelling};
ghost use Rattle.iface_sockets.specs.Segment.{IsTaken};
ghost use Rattle.iface_context.specs.Stands.{host_of};
ghost use Rattle.ip_wire.specs.Octets.{u16_at};
ghost use Rattle.ip_wire.specs.declared.ip_packet.IpRepr.{IpRepr};
ghost use Rattle.ip_wire.specs.declared.tcp.TcpRepr.{TcpRepr};
ghost use Rattle.sockets.specs.Kinds as kinds;
ghost use Rattle.sockets.specs.Tcp as tcp;
ghost use Rattle.host_machine.specs.Packet.Packet.{IsWritable};
ghost use Rattle.iface_context.specs.Details.PacketValues as value_of;
ghost use Rattle.iface_sockets.specs.Turns.{HasTurn};

use crate::offers::{outcome, packet_between, send_if};
use host_machine::Turn;
use iface_context::payload::Segment;
use iface_context::{Context, IpPayload, Packet, PacketV4, PacketV6};
use iface_send::dispatch::dispatch;
use ip_wire::emit::FrameBuffer;
use ip_wire::octets::u16_at;
use ip_wire::{IpRepr, TcpControl, TcpRepr};
use net_base::phy::Device;
use socket_set::{SocketSet, by_index};
use sockets::tcp::rst_reply;
use sockets::{IpEndpoint, SocketContext, tcp};

/// Processes the payload of a packet with this header as a TCP segment of fewer than 65,536 octets. The first socket
/// that accepts it gets it, or drops it for lack of room, and may answer; no other socket changes. A segment that no
/// socket accepts is answered by a reset, unless it is a reset itself or a raw socket accepted the packet. It is
/// dropped if it is malformed or if its source or destination is unspecified. The answer is built in an empty buffer.
pub fn process_tcp(
    context: &mut Context,
    sockets: &mut SocketSet<'_>,
    header: &IpRepr,
    octets: &[u8],
    handled_by_raw_socket: bool,
    out: &mut FrameBuffer,
)
    requires empty { out.old ≡ [] }
    requires short { length octets.now < 2 ^ 16 }
    ensures { RefinesReplying out.new (λ H. spec.ProcessesTcp handled_by_raw_socket header.now H octets.now)
        (host_of context.old sockets.old) (host_of context.new sockets.new) }
{
    if is_between_unspecified(header) {
        return;
    }
    if handled_by_raw_socket && is_for_nobody(sockets, octets) {
        return;
    }
    let checked = context.capabilities().checksum.tcp.rx();
    let source = header.src_addr();
    let destination = header.dst_addr();
    let Some((repr, payload)) = TcpRepr::parse(octets, &source, &destination, checked) else {
        return;
    };
    let (taken, answer) = deliver(sockets, header, &repr, payload);
    if taken {
        answer_by_copy(context, header, &answer, out);
        return;
    }
    refuse(context, header, &repr, payload, handled_by_raw_socket, out);
}

/// Whether no TCP socket is at the port to which a segment goes. Octets too short for one may be for somebody.
#[inline(always)]
fn is_for_nobody(sockets: &SocketSet<'_>, octets: &[u8]) -> bool
    ensures { result ≡ true → (header : IpRepr) (repr : TcpRepr) → repr.dst_port ≡ u16_at octets.now 2 →
        NoneAccepts (spec.accepts header repr) sockets.now.places }
{
    if octets.len() < 4 {
        return false;
    }
    let port = Some(u16_at(octets, 2));
    let mut index = by_index::next_at(sockets, 0, port);
    while index < by_index::places(sockets) {
        if is_tcp_at(sockets, index) {
            return false;
        }
        index = by_index::next_at(sockets, index + 1, port);
    }
    true
}

/// Whether a TCP socket is at an index. Another one accepts no segment.
#[inline(always)]
fn is_tcp_at(sockets: &SocketSet<'_>, index: usize) -> bool
    ensures { result ≡ false → (header : IpRepr) (repr : TcpRepr) → spec.accepts header repr (socket_at sockets.now index) ≡ false }
{
    match by_index::kind::<tcp::Socket<'_>, _>(sockets, index) {
        Some(_socket) => true,
        None => false,
    }
}

/// Builds a packet as [`send_tcp_reply`] does, with a copy of the segment's header, so that no other segment stores one
/// for that call.
#[inline(always)]
fn answer_by_copy(
    context: &mut Context,
    header: &IpRepr,
    answer: &Option<TcpRepr>,
    out: &mut FrameBuffer,
)
    requires { out.old ≡ [] }
    ensures { RefinesBuilding out.new
        (Responds (option_map (spec.segment_back header.now) answer.now)) context.old context.new }
{
    send_tcp_reply(context, header, *answer, out);
}

/// Builds the reset that answers a segment which no socket accepts, if one does.
#[inline(always)]
fn refuse(
    context: &mut Context,
    header: &IpRepr,
    repr: &TcpRepr,
    payload: &[u8],
    handled_by_raw_socket: bool,
    out: &mut FrameBuffer,
)
    requires empty { out.old ≡ [] }
    requires short { length payload.now < 2 ^ 16 }
    ensures { RefinesBuilding out.new (Responds (option_map (spec.segment_back header.now)
        (spec.reset_for handled_by_raw_socket repr.now payload.now))) context.old context.new }
{
    let reset = reset_for(repr, payload, handled_by_raw_socket);
    send_tcp_reply(context, header, reset, out);
}

/// Whether the source or the destination of a packet is unspecified.
fn is_between_unspecified(header: &IpRepr) -> bool
    ensures { result ≡ spec.is_between_unspecified header.now }
{
    header.src_addr().is_unspecified() || header.dst_addr().is_unspecified()
}

/// The reset that answers a segment which no socket accepts.
fn reset_for(repr: &TcpRepr, payload: &[u8], handled_by_raw_socket: bool) -> Option<TcpRepr>
    requires { length payload.now < 2 ^ 16 }
    ensures { result ≡ spec.reset_for handled_by_raw_socket repr.now payload.now }
{
    if handled_by_raw_socket {
        return None;
    }
    match repr.control {
        TcpControl::Rst => None,
        _ => Some(rst_reply(repr, payload.len())),
    }
}

/// Builds a packet with a segment without payload, if there is one, as the reply to a packet.
#[inline(never)]
fn send_tcp_reply(
    context: &mut Context,
    header: &IpRepr,
    repr: Option<TcpRepr>,
    out: &mut FrameBuffer,
)
    requires { out.old ≡ [] }
    ensures { RefinesBuilding out.new
        (Responds (option_map (spec.segment_back header.now) repr)) context.old context.new }
{
    let Some(repr) = repr else {
        return;
    };
    let payload = Segment {
        header: repr,
        octets: &[],
    };
    match header {
        IpRepr::Ipv4(header) => {
            let packet = PacketV4::back(header, payload);
            let _ = dispatch(context, &packet, out);
        }
        IpRepr::Ipv6(header) => {
            let packet = PacketV6::back(header, payload);
            let _ = dispatch(context, &packet, out);
        }
    }
}

/// Delivers a segment to the first socket that accepts it. Returns whether there was one, and its answer.
fn deliver(
    sockets: &mut SocketSet<'_>,
    header: &IpRepr,
    repr: &TcpRepr,
    payload: &[u8],
) -> (bool, Option<TcpRepr>)
    requires { length payload.now < 2 ^ 16 }
    ensures taken { result.0 ≡ true →
        IsTaken header.now repr.now payload.now sockets.old.places sockets.new.places result.1 }
    ensures nobody { result.0 ≡ false → NoneAccepts (spec.accepts header.now repr.now) sockets.old.places }
    ensures kept { result.0 ≡ false → sockets.new ≡ sockets.old }
    ensures waits { sockets.new ≡ with_places sockets.old sockets.new.places }
{
    let index = find_socket(sockets, header, repr);
    if index >= by_index::places(sockets) {
        return (false, None);
    }
    deliver_at(sockets, index, header, repr, payload)
}

/// The index of the first socket that accepts a segment, or the number of indices if there is none.
#[inline(always)]
fn find_socket(sockets: &SocketSet<'_>, header: &IpRepr, repr: &TcpRepr) -> usize
    ensures none_before { (k : ℕ) (other : Storage) → k < result → slice_get sockets.now.places k ≡ Some other →
        spec.accepts header.now repr.now other ≡ false }
    ensures found { result < length sockets.now.places →
        spec.accepts header.now repr.now (socket_at sockets.now result) ≡ true }
    ensures within { result ≤ length sockets.now.places }
{
    let port = Some(repr.dst_port);
    let mut index = by_index::next_at(sockets, 0, port);
    while index < by_index::places(sockets) {
        if accepts_at(sockets, index, header, repr) {
            return index;
        }
        index = by_index::next_at(sockets, index + 1, port);
    }
    index
}

/// Whether the socket at an index accepts a segment.
#[inline(always)]
fn accepts_at(sockets: &SocketSet<'_>, index: usize, header: &IpRepr, repr: &TcpRepr) -> bool
    ensures { result ≡ spec.accepts header.now repr.now (socket_at sockets.now index) }
{
    let Some(socket) = by_index::kind::<tcp::Socket<'_>, _>(sockets, index) else {
        return false;
    };
    let source = IpEndpoint {
        addr: header.src_addr(),
        port: repr.src_port,
    };
    let destination = IpEndpoint {
        addr: header.dst_addr(),
        port: repr.dst_port,
    };
    socket.accepts(&source, &destination)
}

/// Delivers a segment to the socket at an index, which accepts it. Returns its answer, or `false` and no answer if
/// there is no such index.
fn deliver_at(
    sockets: &mut SocketSet<'_>,
    index: usize,
    header: &IpRepr,
    repr: &TcpRepr,
    payload: &[u8],
) -> (bool, Option<TcpRepr>)
    requires short { length payload.now < 2 ^ 16 }
    requires found { index < length sockets.old.places →
        spec.accepts header.now repr.now (socket_at sockets.old index) ≡ true }
    ensures accepted { result.0 ≡ spec.accepts header.now repr.now (socket_at sockets.old index) }
    ensures delivered { result.0 ≡ true → sockets.new.places ≡ slice_set sockets.old.places index
        (spec.storage_after_delivery header.now repr.now payload.now (socket_at sockets.old index)) }
    ensures replied { result.0 ≡ true →
        result.1 ≡ spec.socket_reply repr.now payload.now (socket_at sockets.old index) }
    ensures kept { result.0 ≡ false → sockets.new ≡ sockets.old }
    ensures waits { sockets.new ≡ with_places sockets.old sockets.new.places }
{
    let Some(socket) = by_index::kind_mut::<tcp::Socket<'_>, _>(sockets, index) else {
        return (false, None);
    };
    (true, socket.process(header.src_addr(), repr, payload))
}

/// Gives a TCP socket its turn: dispatches the segment it offers, if the device grants a transmit token, and reports
/// the outcome to the socket.
#[inline(never)]
pub(crate) fn give_tcp_turn<D: Device>(
    socket: &mut tcp::Socket<'_>,
    context: &mut Context,
    device: &mut D,
    out: &mut FrameBuffer,
) -> Turn
    ensures { RefinesTelling D.tells device.old device.new
        (HasTurn (kinds.up_tcp socket.old) result (kinds.up_tcp socket.new) context.old) context.new }
{
    let Some(segment) = socket.offer(context) else {
        return Turn::Idle;
    };
    let turn = send_if(context, device, out, tcp_packet(&segment));
    if let Some(gone) = outcome(turn) {
        socket.told(gone);
    }
    turn
}

/// The packet of a TCP socket's segment; `None` if the families of its addresses differ.
fn tcp_packet<'p>(segment: &tcp::Packet<'p>) -> Option<Packet<'p>>
    ensures value { option_map value_of.packet result ≡ egress.packet_of (kinds.TcpOffer (tcp.value_of segment.now)) }
    ensures writable { IfSome result (λ p. IsWritable (value_of.packet p)) }
{
    let payload = IpPayload::Tcp(segment.repr, segment.payload);
    packet_between(
        &segment.src_addr,
        &segment.dst_addr,
        segment.hop_limit,
        payload,
    )
}
