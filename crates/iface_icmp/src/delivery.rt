//! Delivery to ICMP sockets: the messages that are for them, of either family.
ghost use Rattle.std.specs.Prelude.{◌≡◌, length};
ghost use Rattle.socket_set.specs.SocketSet.{socket_at, with_place, with_places};
ghost use Rattle.host_machine.specs.Sockets.Delivery.{some_accepts, to_each, to_this};
ghost use Rattle.host_machine.specs.Icmp.Delivery.{accepts, storage_after_delivery};

use control_wire::IcmpRepr;
use ip_wire::IpAddress;
use socket_set::{SocketSet, by_index};
use sockets::icmp;

/// Delivers a whole message, with its sender, to each ICMP socket that accepts it. `contents` is the message's data,
/// and `octets` the whole message.
#[inline(always)]
pub fn deliver(
    sockets: &mut SocketSet<'_>,
    remote: IpAddress,
    message: &IcmpRepr,
    contents: &[u8],
    octets: &[u8],
)
    ensures { sockets.new ≡ with_places sockets.old
        (to_each (accepts message.now contents.now) (storage_after_delivery remote octets.now) sockets.old.places) }
{
    if !by_index::may_have_portless(sockets) {
        return;
    }
    deliver_by_copy(sockets, remote, message, contents, octets);
}

/// Delivers a message as [`deliver`] does, with a copy of its values, so that a message isn't stored where there are no
/// ICMP sockets.
#[inline(always)]
fn deliver_by_copy(
    sockets: &mut SocketSet<'_>,
    remote: IpAddress,
    message: &IcmpRepr,
    contents: &[u8],
    octets: &[u8],
)
    ensures { sockets.new ≡ with_places sockets.old
        (to_each (accepts message.now contents.now) (storage_after_delivery remote octets.now) sockets.old.places) }
{
    let heard = *message;
    deliver_to_accepting(sockets, remote, &heard, contents, octets);
}

/// Delivers a message as [`deliver`] does, where there may be ICMP sockets.
#[inline(never)]
fn deliver_to_accepting(
    sockets: &mut SocketSet<'_>,
    remote: IpAddress,
    message: &IcmpRepr,
    contents: &[u8],
    octets: &[u8],
)
    ensures { sockets.new ≡ with_places sockets.old
        (to_each (accepts message.now contents.now) (storage_after_delivery remote octets.now) sockets.old.places) }
{
    if is_accepted(sockets, message, contents) {
        deliver_to_each(sockets, remote, message, contents, octets);
    }
}

/// Whether some ICMP socket accepts a message.
fn is_accepted(sockets: &SocketSet<'_>, message: &IcmpRepr, contents: &[u8]) -> bool
    ensures { result ≡ some_accepts (accepts message.now contents.now) sockets.now.places }
{
    let mut index = by_index::next_at(sockets, 0, None);
    while index < by_index::places(sockets) {
        if accepts_at(sockets, index, message, contents) {
            return true;
        }
        index = by_index::next_at(sockets, index + 1, None);
    }
    false
}

/// Whether the socket at an index is an ICMP socket that accepts a message.
#[inline(always)]
fn accepts_at(sockets: &SocketSet<'_>, index: usize, message: &IcmpRepr, contents: &[u8]) -> bool
    ensures { result ≡ accepts message.now contents.now (socket_at sockets.now index) }
{
    match by_index::kind::<icmp::Socket<'_>, _>(sockets, index) {
        Some(socket) => socket.accepts(message, contents),
        None => false,
    }
}

/// Delivers a message as [`deliver`] does, where some socket may accept it.
fn deliver_to_each(
    sockets: &mut SocketSet<'_>,
    remote: IpAddress,
    message: &IcmpRepr,
    contents: &[u8],
    octets: &[u8],
)
    ensures { sockets.new ≡ with_places sockets.old
        (to_each (accepts message.now contents.now) (storage_after_delivery remote octets.now) sockets.old.places) }
{
    let mut index = by_index::next_at(sockets, 0, None);
    while index < by_index::places(sockets) {
        deliver_at(sockets, index, remote, message, contents, octets);
        index = by_index::next_at(sockets, index + 1, None);
    }
}

/// Delivers a message to the socket at an index, if it accepts it.
fn deliver_at(
    sockets: &mut SocketSet<'_>,
    index: usize,
    remote: IpAddress,
    message: &IcmpRepr,
    contents: &[u8],
    octets: &[u8],
)
    ensures heard { sockets.new ≡ with_place sockets.old index (to_this (accepts message.now contents.now)
        (storage_after_delivery remote octets.now) (socket_at sockets.old index)) }
    ensures len { length sockets.new.places ≡ length sockets.old.places }
{
    let Some(socket) = by_index::kind_mut::<icmp::Socket<'_>, _>(sockets, index) else {
        return;
    };
    if socket.accepts(message, contents) {
        socket.process(remote, octets);
    }
}
