//! What waits in the queues of sockets.
ghost use Rattle.std.specs.Prelude.{◌≡◌};
ghost use Rattle.std.specs.Option.{option_and_then, option_copied};
ghost use Rattle.iface_host.specs.Names.{handle_named};
ghost use Rattle.iface_host.specs.Queues.{fill_of, fills_at, first_len};
ghost use Rattle.socket_set.specs.SocketSet.{socket_at};

use crate::host::IfaceHost;
use socket_set::by_index;
use sockets::{Queue, SocketOf};

/// What waits in a queue, and what it holds at most.
#[derive(Clone, Copy, Debug, PartialEq, Eq)]
pub struct Fill {
    /// How many packets wait.
    pub packets: usize,
    /// How many octets they have together.
    pub octets: usize,
    /// How many packets it holds at most.
    pub most_packets: usize,
    /// How many octets they have together at most.
    pub most_octets: usize,
    /// How many octets the first packet has, 0 where none waits.
    pub first: usize,
}

impl IfaceHost {
    /// What waits in the two queues of a socket, of whatever kind: what was received, and what is to be sent. `None` if
    /// the number names none.
    pub fn queues(&self, number: u32) -> Option<(Fill, Fill)>
        ensures { result ≡ fills_at self.now number }
    {
        match self.socket_named(number)? {
            SocketOf::Raw(socket) => Some((waiting_in(socket.rx()), waiting_in(socket.tx()))),
            SocketOf::Icmp(socket) => Some((waiting_in(socket.rx()), waiting_in(socket.tx()))),
            SocketOf::Udp(socket) => Some((waiting_in(socket.rx()), waiting_in(socket.tx()))),
            SocketOf::Tcp(socket) => Some((waiting_in(socket.rx()), waiting_in(socket.tx()))),
        }
    }

    /// The socket that a number names, of whatever kind, if it names one.
    pub(crate) fn socket_named(&self, number: u32) -> Option<&SocketOf<&'static ()>>
        ensures { option_copied result
            ≡ option_and_then (socket_at self.now.sockets) (handle_named self.now.names number) }
    {
        let handle = self.names.get(number)?;
        by_index::socket(&self.sockets, by_index::index_of(handle))
    }
}

/// What waits in a queue.
fn waiting_in<M: Drop>(queue: &Queue<M>) -> Fill
    ensures { result ≡ fill_of queue.now }
{
    Fill {
        packets: queue.len(),
        octets: queue.payload_len(),
        most_packets: queue.packet_capacity(),
        most_octets: queue.payload_capacity(),
        first: first_len(queue),
    }
}

/// How many octets the first packet has, 0 where none waits.
fn first_len<M: Drop>(queue: &Queue<M>) -> usize
    ensures { result ≡ first_len queue.now }
{
    match queue.front() {
        Some((_, octets)) => octets.len(),
        None => 0,
    }
}
