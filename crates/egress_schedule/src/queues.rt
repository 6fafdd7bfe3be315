//! What a socket has to send: how many packets, and how long the first one is.
ghost use Rattle.std.specs.Prelude.{◌≡◌, ◌≤◌, Some};
ghost use Rattle.sockets.specs.Queue.{first_of};
ghost use Rattle.egress_schedule.specs.Queues as spec;
ghost use Rattle.egress_schedule.specs.Queues.{len_behind};

use sockets::Queue;
use sockets::socket::SocketOf;

/// The length of the first packet that a socket has to send, over IPv4; 0 where it has none.
pub(crate) fn first_len<L: Drop>(socket: &SocketOf<L>) -> usize
    ensures { result ≡ spec.first_len socket.now }
{
    match socket {
        SocketOf::Raw(raw) => len_behind(0, raw.tx()),
        SocketOf::Icmp(icmp) => len_behind(20, icmp.tx()),
        SocketOf::Udp(udp) => len_behind(28, udp.tx()),
        SocketOf::Tcp(tcp) => len_behind(40, tcp.tx()),
    }
}

/// The octets of a queue's first packet after so many of headers, at most 40; 0 if there is none.
fn len_behind<M: Drop>(headers: usize, queue: &Queue<M>) -> usize
    requires { headers ≤ 40 }
    ensures { result ≡ len_behind headers (first_of queue.now.packets) }
{
    match queue.front() {
        None => 0,
        Some((_, octets)) => headers + octets.len(),
    }
}

/// How many packets a socket has to send.
pub(crate) fn count_to_send<L: Drop>(socket: &SocketOf<L>) -> usize
    ensures { result ≡ spec.count_to_send socket.now }
{
    match socket {
        SocketOf::Raw(raw) => raw.tx().len(),
        SocketOf::Icmp(icmp) => icmp.tx().len(),
        SocketOf::Udp(udp) => udp.tx().len(),
        SocketOf::Tcp(tcp) => tcp.tx().len(),
    }
}

/// Whether a socket has something to send.
pub(crate) fn has_packets<L: Drop>(socket: &SocketOf<L>) -> bool
    ensures { result ≡ spec.has_packets (Some socket.now) }
{
    0 < count_to_send(socket)
}

/// Whether others wait behind the first packet that a socket has to send.
pub(crate) fn has_others<L: Drop>(socket: &SocketOf<L>) -> bool
    ensures { result ≡ spec.has_others (Some socket.now) }
{
    1 < count_to_send(socket)
}

/// Whether the queue of what a socket has to send has no room for another packet as long as its first.
pub(crate) fn is_crowded<L: Drop>(socket: &SocketOf<L>) -> bool
    ensures { result ≡ spec.is_crowded (Some socket.now) }
{
    match socket {
        SocketOf::Raw(raw) => lacks_room(raw.tx()),
        SocketOf::Icmp(icmp) => lacks_room(icmp.tx()),
        SocketOf::Udp(udp) => lacks_room(udp.tx()),
        SocketOf::Tcp(tcp) => lacks_room(tcp.tx()),
    }
}

/// Whether a queue has no room for another packet as long as its first.
fn lacks_room<M: Drop>(queue: &Queue<M>) -> bool
    ensures { result ≡ spec.lacks_room queue.now (first_of queue.now.packets) }
{
    match queue.front() {
        None => false,
        Some((_, octets)) => !queue.has_room(octets.len()),
    }
}
