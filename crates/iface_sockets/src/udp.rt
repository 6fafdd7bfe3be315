//! UDP: how a datagram is delivered to a socket, and what UDP sockets send (RFC 768).
ghost use Rattle.std.specs.Prelude.{◌≡◌, ◌<◌, ◌≤◌, ℕ, Some, true, false, length, slice_get, slice_set};
ghost use Rattle.socket_set.specs.SocketSet.{socket_at, with_places};
ghost use Rattle.host_machine.specs.Sockets.Delivery.{DeliversFirst, NoneAccepts};
ghost use Rattle.host_machine.specs.Sockets.Udp.{accepts, storage_after_delivery};
ghost use Rattle.host_machine.specs.Context.Host.{Storage, no_sockets, Socket};
ghost use Rattle.iface_context.specs.Stands.{host_of};
ghost use Rattle.iface_context.specs.Refines.{RefinesTelling};
ghost use Rattle.sockets.specs.Kinds as kinds;
ghost use Rattle.sockets.specs.Udp as udp;
ghost use Rattle.host_machine.specs.Sockets.Offers as egress;
ghost use Rattle.iface_context.specs.Details.PacketValues as value_of;
ghost use Rattle.iface_sockets.specs.Turns.{HasTurn, OfferHasTurn};

use crate::offers::{outcome, send};
use host_machine::Turn;
use iface_context::payload::Datagram;
use iface_context::{Context, Packet, PacketV4, PacketV6};
use ip_wire::emit::FrameBuffer;
use ip_wire::{IpAddress, IpRepr, UdpRepr};
use net_base::phy::Device;
use socket_set::{SocketSet, by_index};
use sockets::{IpEndpoint, udp};

/// Delivers a datagram to the first socket that accepts it. Returns whether there was one. If it is the only socket, or
/// the first, no loop is needed.
#[inline(always)]
pub fn deliver(
    context: &Context,
    sockets: &mut SocketSet<'_>,
    header: &IpRepr,
    ports: &UdpRepr,
    payload: &[u8],
) -> bool
    ensures delivered { result ≡ true →
        DeliversFirst (accepts (host_of context.now no_sockets).ip_addrs header.now ports.now)
        (storage_after_delivery header.now ports.now payload.now) sockets.old.places sockets.new.places }
    ensures nobody { result ≡ false →
        NoneAccepts (accepts (host_of context.now no_sockets).ip_addrs header.now ports.now) sockets.old.places }
    ensures kept { result ≡ false → sockets.new ≡ sockets.old }
    ensures waits { sockets.new ≡ with_places sockets.old sockets.new.places }
{
    if accepts_at(context, sockets, 0, header, ports) {
        return deliver_at(context, sockets, 0, header, ports, payload);
    }
    if by_index::places(sockets) <= 1 {
        return false;
    }
    deliver_by_copy(context, sockets, header, ports, payload)
}

/// Delivers a datagram as [`deliver_among_several`] does, with copies of its headers, so that none is stored for the
/// first socket.
#[inline(always)]
fn deliver_by_copy(
    context: &Context,
    sockets: &mut SocketSet<'_>,
    header: &IpRepr,
    ports: &UdpRepr,
    payload: &[u8],
) -> bool
    ensures delivered { result ≡ true →
        DeliversFirst (accepts (host_of context.now no_sockets).ip_addrs header.now ports.now)
        (storage_after_delivery header.now ports.now payload.now) sockets.old.places sockets.new.places }
    ensures nobody { result ≡ false →
        NoneAccepts (accepts (host_of context.now no_sockets).ip_addrs header.now ports.now) sockets.old.places }
    ensures kept { result ≡ false → sockets.new ≡ sockets.old }
    ensures waits { sockets.new ≡ with_places sockets.old sockets.new.places }
{
    let (sought, wanted) = (*header, *ports);
    deliver_among_several(context, sockets, &sought, &wanted, payload)
}

/// Delivers a datagram as [`deliver`] does, where there may be several sockets.
#[inline(never)]
fn deliver_among_several(
    context: &Context,
    sockets: &mut SocketSet<'_>,
    header: &IpRepr,
    ports: &UdpRepr,
    payload: &[u8],
) -> bool
    ensures delivered { result ≡ true →
        DeliversFirst (accepts (host_of context.now no_sockets).ip_addrs header.now ports.now)
        (storage_after_delivery header.now ports.now payload.now) sockets.old.places sockets.new.places }
    ensures nobody { result ≡ false →
        NoneAccepts (accepts (host_of context.now no_sockets).ip_addrs header.now ports.now) sockets.old.places }
    ensures kept { result ≡ false → sockets.new ≡ sockets.old }
    ensures waits { sockets.new ≡ with_places sockets.old sockets.new.places }
{
    let index = find_among_several(context, sockets, header, ports);
    deliver_at(context, sockets, index, header, ports, payload)
}

/// The index of the first socket that accepts a datagram, or the number of indices if there is none.
#[inline(always)]
fn find_among_several(
    context: &Context,
    sockets: &SocketSet<'_>,
    header: &IpRepr,
    ports: &UdpRepr,
) -> usize
    ensures none_before { (k : ℕ) (other : Storage) → k < result → slice_get sockets.now.places k ≡ Some other →
        accepts (host_of context.now no_sockets).ip_addrs header.now ports.now other ≡ false }
    ensures found { result < length sockets.now.places →
        accepts (host_of context.now no_sockets).ip_addrs header.now ports.now (socket_at sockets.now result) ≡ true }
    ensures within { result ≤ length sockets.now.places }
{
    let port = Some(ports.dst_port);
    let mut index = by_index::next_at(sockets, 0, port);
    while index < by_index::places(sockets) {
        if accepts_at(context, sockets, index, header, ports) {
            return index;
        }
        index = by_index::next_at(sockets, index + 1, port);
    }
    index
}

/// Whether the socket at an index accepts a datagram.
#[inline(always)]
fn accepts_at(
    context: &Context,
    sockets: &SocketSet<'_>,
    index: usize,
    header: &IpRepr,
    ports: &UdpRepr,
) -> bool
    ensures { result
        ≡ accepts (host_of context.now no_sockets).ip_addrs header.now ports.now (socket_at sockets.now index) }
{
    match by_index::kind::<udp::Socket<'_>, _>(sockets, index) {
        Some(socket) => socket.accepts(context, &header.dst_addr(), ports.dst_port),
        None => false,
    }
}

/// Delivers a datagram to the socket at an index, which accepts it. Returns `false` if there is no such index.
#[inline(always)]
fn deliver_at(
    context: &Context,
    sockets: &mut SocketSet<'_>,
    index: usize,
    header: &IpRepr,
    ports: &UdpRepr,
    payload: &[u8],
) -> bool
    requires found { index < length sockets.old.places →
        accepts (host_of context.now no_sockets).ip_addrs header.now ports.now (socket_at sockets.old index) ≡ true }
    ensures accepted { result
        ≡ accepts (host_of context.now no_sockets).ip_addrs header.now ports.now (socket_at sockets.old index) }
    ensures delivered { result ≡ true → sockets.new.places ≡ slice_set sockets.old.places index
        (storage_after_delivery header.now ports.now payload.now (socket_at sockets.old index)) }
    ensures kept { result ≡ false → sockets.new ≡ sockets.old }
    ensures waits { sockets.new ≡ with_places sockets.old sockets.new.places }
{
    let remote = IpEndpoint {
        addr: header.src_addr(),
        port: ports.src_port,
    };
    by_index::process_udp(sockets, index, remote, payload)
}

/// Gives a UDP socket its turn: dispatches the datagram it offers, if the device grants a transmit token, and reports
/// the outcome to the socket.
pub(crate) fn give_udp_turn<D: Device>(
    socket: &mut udp::Socket<'_>,
    context: &mut Context,
    device: &mut D,
    out: &mut FrameBuffer,
) -> Turn
    ensures { RefinesTelling D.tells device.old device.new
        (HasTurn (kinds.up_udp socket.old) result (kinds.up_udp socket.new) context.old) context.new }
{
    let Some(datagram) = socket.offer(context) else {
        return Turn::Idle;
    };
    let turn = send_datagram(context, device, out, &datagram);
    if let Some(gone) = outcome(turn) {
        socket.told(gone);
    }
    turn
}

/// Sends a UDP socket's datagram in a packet of its addresses' family.
fn send_datagram<D: Device>(
    context: &mut Context,
    device: &mut D,
    out: &mut FrameBuffer,
    datagram: &udp::Packet<'_>,
) -> Turn
    ensures { RefinesTelling D.tells device.old device.new
        (OfferHasTurn (egress.packet_of (kinds.UdpOffer (udp.value_of datagram.now))) result context.old) context.new }
{
    let hop_limit = datagram.hop_limit;
    let payload = Datagram {
        header: UdpRepr {
            src_port: datagram.src.port,
            dst_port: datagram.dst.port,
        },
        octets: datagram.payload,
    };
    match (&datagram.src.addr, &datagram.dst.addr) {
        (IpAddress::Ipv4(src_addr), IpAddress::Ipv4(dst_addr)) => {
            let packet = PacketV4 {
                src_addr: *src_addr,
                dst_addr: *dst_addr,
                hop_limit,
                payload,
            };
            send(context, device, out, &packet)
        }
        (IpAddress::Ipv6(src_addr), IpAddress::Ipv6(dst_addr)) => {
            let packet = PacketV6 {
                src_addr: *src_addr,
                dst_addr: *dst_addr,
                hop_limit,
                payload,
            };
            send(context, device, out, &packet)
        }
        _ => Turn::Idle,
    }
}
