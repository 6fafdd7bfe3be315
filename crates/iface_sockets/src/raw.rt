//! Raw sockets: which packets they receive, and what they send.
ghost use Rattle.std.specs.Prelude.{◌≡◌, length, ◌<◌, Some};
ghost use Rattle.ip_wire.specs.IpPacket.{TellsLength};
ghost use Rattle.socket_set.specs.SocketSet.{socket_at, with_place};
ghost use Rattle.host_machine.specs.Sockets.Delivery.{some_accepts, to_this};
ghost use Rattle.host_machine.specs.Sockets.Raw.{storage_after_delivery, host_after_raw_delivery, is_taken, takes};
ghost use Rattle.iface_context.specs.Stands.{host_of};
ghost use Rattle.sockets.specs.Kinds as kinds;
ghost use Rattle.sockets.specs.Raw as raw;
ghost use Rattle.host_machine.specs.Context.Host.{Socket};
ghost use Rattle.host_machine.specs.Sockets.Offers as egress;
ghost use Rattle.host_machine.specs.Packet.Packet.{IsWritable};
ghost use Rattle.iface_context.specs.Details.PacketValues as value_of;
ghost use Rattle.iface_context.specs.Refines.{RefinesTelling};
ghost use Rattle.iface_sockets.specs.Turns.{HasTurn};

use crate::offers::{outcome, send};
use host_machine::Turn;
use iface_context::{Context, IpPayload, Packet};
use ip_wire::IpRepr;
use ip_wire::emit::FrameBuffer;
use net_base::phy::Device;
use socket_set::{SocketSet, by_index};
use sockets::{SocketContext, raw};

/// Delivers a packet, with its header as it is emitted, to each raw socket that accepts it. Returns whether there was
/// one.
#[inline(always)]
pub fn deliver(
    context: &Context,
    sockets: &mut SocketSet<'_>,
    header: &IpRepr,
    payload: &[u8],
) -> bool
    requires { TellsLength header.now }
    ensures taken { result ≡ is_taken header.now (host_of context.now sockets.old) }
    ensures heard { host_of context.now sockets.new
        ≡ host_after_raw_delivery header.now payload.now (host_of context.now sockets.old) }
{
    if !by_index::may_have_portless(sockets) {
        return false;
    }
    deliver_by_copy(context, sockets, header, payload)
}

/// Delivers a packet as [`deliver`] does, with a copy of its header, so that a header isn't stored where there are no
/// raw sockets.
#[inline(always)]
fn deliver_by_copy(
    context: &Context,
    sockets: &mut SocketSet<'_>,
    header: &IpRepr,
    payload: &[u8],
) -> bool
    requires { TellsLength header.now }
    ensures taken { result ≡ is_taken header.now (host_of context.now sockets.old) }
    ensures heard { host_of context.now sockets.new
        ≡ host_after_raw_delivery header.now payload.now (host_of context.now sockets.old) }
{
    let taken = *header;
    deliver_to_accepting(context, sockets, &taken, payload)
}

/// Delivers a packet as [`deliver`] does, where there may be raw sockets.
#[inline(never)]
fn deliver_to_accepting(
    context: &Context,
    sockets: &mut SocketSet<'_>,
    header: &IpRepr,
    payload: &[u8],
) -> bool
    requires { TellsLength header.now }
    ensures taken { result ≡ is_taken header.now (host_of context.now sockets.old) }
    ensures heard { host_of context.now sockets.new
        ≡ host_after_raw_delivery header.now payload.now (host_of context.now sockets.old) }
{
    if !is_accepted(sockets, header) {
        return false;
    }
    deliver_to_each(context, sockets, header, payload)
}

/// Whether some raw socket accepts a packet with this header.
fn is_accepted(sockets: &SocketSet<'_>, header: &IpRepr) -> bool
    ensures { result ≡ some_accepts (takes header.now) sockets.now.places }
{
    let mut index = by_index::next_at(sockets, 0, None);
    while index < by_index::places(sockets) {
        if accepts_at(sockets, index, header) {
            return true;
        }
        index = by_index::next_at(sockets, index + 1, None);
    }
    false
}

/// Whether the socket at an index is a raw socket that accepts a packet with this header.
#[inline(always)]
fn accepts_at(sockets: &SocketSet<'_>, index: usize, header: &IpRepr) -> bool
    ensures { result ≡ takes header.now (socket_at sockets.now index) }
{
    match by_index::kind::<raw::Socket<'_>, _>(sockets, index) {
        Some(socket) => socket.accepts(header.version(), header.next_header()),
        None => false,
    }
}

/// Delivers a packet as [`deliver`] does, where some socket may accept it.
fn deliver_to_each(
    context: &Context,
    sockets: &mut SocketSet<'_>,
    header: &IpRepr,
    payload: &[u8],
) -> bool
    requires { TellsLength header.now }
    ensures taken { result ≡ is_taken header.now (host_of context.now sockets.old) }
    ensures heard { host_of context.now sockets.new
        ≡ host_after_raw_delivery header.now payload.now (host_of context.now sockets.old) }
{
    let summed = context.capabilities().checksum.ipv4.tx();
    let mut taken = false;
    let mut index = by_index::next_at(sockets, 0, None);
    while index < by_index::places(sockets) {
        taken |= deliver_at(sockets, index, header, payload, summed);
        index = by_index::next_at(sockets, index + 1, None);
    }
    taken
}

/// Delivers a packet to the socket at an index, if it accepts it. Returns whether it does.
fn deliver_at(
    sockets: &mut SocketSet<'_>,
    index: usize,
    header: &IpRepr,
    payload: &[u8],
    summed: bool,
) -> bool
    requires { TellsLength header.now }
    ensures taken { result ≡ takes header.now (socket_at sockets.old index) }
    ensures heard { sockets.new ≡ with_place sockets.old index (to_this (takes header.now)
        (storage_after_delivery summed header.now payload.now) (socket_at sockets.old index)) }
    ensures len { length sockets.new.places ≡ length sockets.old.places }
{
    let Some(socket) = by_index::kind_mut::<raw::Socket<'_>, _>(sockets, index) else {
        return false;
    };
    if !socket.accepts(header.version(), header.next_header()) {
        return false;
    }
    socket.process(header, payload, summed);
    true
}

/// Gives a raw socket its turn: dispatches the packet it offers, if the device grants a transmit token, and reports the
/// outcome to the socket.
#[inline(never)]
pub(crate) fn give_raw_turn<D: Device>(
    socket: &mut raw::Socket<'_>,
    context: &mut Context,
    device: &mut D,
    out: &mut FrameBuffer,
) -> Turn
    ensures { RefinesTelling D.tells device.old device.new
        (HasTurn (kinds.up_raw socket.old) result (kinds.up_raw socket.new) context.old) context.new }
{
    let Some(packet) = socket.offer() else {
        return Turn::Idle;
    };
    let turn = send(context, device, out, &raw_packet(&packet));
    if let Some(gone) = outcome(turn) {
        socket.told(gone);
    }
    turn
}

/// The packet of a raw socket, with its IP header written anew.
fn raw_packet<'p>(packet: &raw::Packet<'p>) -> Packet<'p>
    ensures value { Some (value_of.packet result) ≡ egress.packet_of (kinds.RawOffer (raw.value_of packet.now)) }
    ensures writable { IsWritable (value_of.packet result) }
{
    let payload = IpPayload::Raw(packet.header.next_header(), packet.payload);
    Packet::new(packet.header, payload)
}
