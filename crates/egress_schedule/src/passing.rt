//! Packets to neighbours that are known, which pass those that wait.
ghost use Rattle.std.specs.Prelude.{◌≡◌, Some, false, length};
ghost use Rattle.sockets.specs.Kinds.{destinations};
ghost use Rattle.socket_set.specs.SocketSet.{socket_at, wait_of};
ghost use Rattle.egress_schedule.specs.Passing as spec;
ghost use Rattle.egress_schedule.specs.Passing.{after_bringing_at, after_passing_at, before_first, goes_first, if_brought, is_for};
ghost use Rattle.egress_schedule.specs.Passing.{may_pass, with_front_of, with_pass};
ghost use Rattle.egress_schedule.specs.Plan.{each_of, planned};
ghost use Rattle.sockets.specs.Source.{is_same};

use crate::asides::NOBODY;
use crate::queues::count_to_send;
use crate::schedule::Schedule;
use crate::watch::Waiting;
use ip_wire::IpAddress;
use net_base::time::Instant;
use socket_set::{SocketSetOf, by_index};
use sockets::socket::SocketOf;

/// The neighbours of an interface, as far as a schedule has to know them.
pub trait Neighbors {
    ghost use Rattle.std.specs.Prelude.{Bool};
    ghost use Rattle.ip_address.specs.declared.ip.IpAddress.{IpAddress};

    /// Whether the next hop to an address is known, so that a packet for it waits for nobody.
    ghost knows: { Self → IpAddress → Bool };

    /// Whether the next hop to an address is known, so that a packet for it waits for nobody.
    fn is_known(&self, address: &IpAddress) -> bool
        ensures { result ≡ knows self.now address.now };
}

/// Nobody is known, so no packet passes another.
#[derive(Clone, Copy, Debug, PartialEq, Eq)]
pub struct NoneIsKnown;

impl Neighbors for NoneIsKnown {
    ghost knows = { λ none address. false };

    fn is_known(&self, _address: &IpAddress) -> bool {
        false
    }
}

impl Schedule {
    /// Lets each socket that waits have the first packet that may go before the others: one for a neighbour that is known; where its
    /// wait is over, one for the neighbour that it waits for.
    #[inline(never)]
    pub(crate) fn bring_all<L: Drop, N: Neighbors>(
        &self,
        now: Instant,
        neighbors: &N,
        sockets: &mut SocketSetOf<L>,
    )
        ensures { planned self.now sockets.new
            ≡ each_of (after_bringing_at (N.knows neighbors.now) now) (length self.now.watches) (planned self.now sockets.old) }
    {
        for index in 0..self.watches.len() {
            self.bring_at(index, now, neighbors, sockets);
        }
    }

    /// Lets the socket at an index have the packet before the others that may go, if it waits.
    fn bring_at<L: Drop, N: Neighbors>(
        &self,
        index: usize,
        now: Instant,
        neighbors: &N,
        sockets: &mut SocketSetOf<L>,
    )
        ensures { planned self.now sockets.new
            ≡ after_bringing_at (N.knows neighbors.now) now index (planned self.now sockets.old) }
    {
        if let Some(waiting) = self.waiting_at(sockets, index) {
            bring_front(index, now, &waiting, neighbors, sockets);
        }
    }

    /// Lets the sockets be asked whose first packet is for a neighbour that is known, although they wait.
    #[inline(never)]
    pub(crate) fn pass_all<L: Drop, N: Neighbors>(
        &mut self,
        now: Instant,
        neighbors: &N,
        sockets: &mut SocketSetOf<L>,
    )
        ensures { planned self.new sockets.new
            ≡ each_of (after_passing_at (N.knows neighbors.now) now) (length self.old.watches) (planned self.old sockets.old) }
    {
        for index in 0..self.watches.len() {
            self.pass_at(index, now, neighbors, sockets);
        }
    }

    /// Lets the socket at an index be asked, if its first packet passes.
    fn pass_at<L: Drop, N: Neighbors>(
        &mut self,
        index: usize,
        now: Instant,
        neighbors: &N,
        sockets: &mut SocketSetOf<L>,
    )
        ensures { planned self.new sockets.new
            ≡ after_passing_at (N.knows neighbors.now) now index (planned self.old sockets.old) }
    {
        if passes_at(index, now, neighbors, sockets) {
            self.set_aside_wait(index, Some(by_index::wait(sockets, index)));
            by_index::set_wait(sockets, index, None);
        }
    }
}

/// Whether the socket at an index may be asked although it waits.
fn passes_at<L: Drop, N: Neighbors>(
    index: usize,
    now: Instant,
    neighbors: &N,
    sockets: &SocketSetOf<L>,
) -> bool
    ensures { result ≡ may_pass (N.knows neighbors.now) now (socket_at sockets.now index) (wait_of sockets.now index) }
{
    match by_index::wait(sockets, index) {
        None => false,
        Some((neighbor, until)) => {
            neighbor != NOBODY
                && until > now
                && !neighbors.is_known(&neighbor)
                && is_first_known(index, neighbors, sockets)
        }
    }
}

/// Whether the first packet of the socket at an index is for a neighbour that is known.
fn is_first_known<L: Drop, N: Neighbors>(
    index: usize,
    neighbors: &N,
    sockets: &SocketSetOf<L>,
) -> bool
    ensures { result ≡ spec.is_first_for (N.knows neighbors.now) (socket_at sockets.now index) }
{
    match by_index::socket(sockets, index) {
        None => false,
        Some(socket) => is_known(neighbors, socket.destination_at(0)),
    }
}

/// Whether a destination, if there is one, is known.
fn is_known<N: Neighbors>(neighbors: &N, destination: Option<IpAddress>) -> bool
    ensures { result ≡ is_for (N.knows neighbors.now) destination }
{
    match destination {
        None => false,
        Some(address) => neighbors.is_known(&address),
    }
}

/// Brings the packet before the others that may go, of the socket at an index, which waits.
fn bring_front<L: Drop, N: Neighbors>(
    index: usize,
    now: Instant,
    waiting: &Waiting,
    neighbors: &N,
    sockets: &mut SocketSetOf<L>,
)
    ensures { sockets.new ≡ with_front_of (goes_first (N.knows neighbors.now) now waiting.now) index sockets.old
        (socket_at sockets.old index) }
{
    if let Some(socket) = by_index::socket_mut(sockets, index) {
        let first = first_of_next(socket, now, waiting, neighbors);
        socket.bring_forward(first);
    }
}

/// How many packets a socket that waits has to send before the one that may go; how many it has, where none may.
fn first_of_next<L: Drop, N: Neighbors>(
    socket: &SocketOf<L>,
    now: Instant,
    waiting: &Waiting,
    neighbors: &N,
) -> usize
    ensures { result ≡ before_first (goes_first (N.knows neighbors.now) now waiting.now) (destinations socket.now) }
{
    if waiting.is_over(now) {
        first_for(socket, &waiting.neighbor)
    } else {
        first_known(socket, neighbors)
    }
}

/// How many packets a socket has to send before the first one for an address; how many it has, where none is for it.
pub(crate) fn first_for<L: Drop>(socket: &SocketOf<L>, address: &IpAddress) -> usize
    ensures { result ≡ before_first (is_same address.now) (destinations socket.now) }
{
    let count = count_to_send(socket);
    for index in 0..count {
        if is_address(address, socket.destination_at(index)) {
            return index;
        }
    }
    count
}

/// How many packets a socket has to send before the first one for a neighbour that is known; how many it has, where none is.
fn first_known<L: Drop, N: Neighbors>(socket: &SocketOf<L>, neighbors: &N) -> usize
    ensures { result ≡ before_first (N.knows neighbors.now) (destinations socket.now) }
{
    let count = count_to_send(socket);
    for index in 0..count {
        if is_known(neighbors, socket.destination_at(index)) {
            return index;
        }
    }
    count
}

/// Whether a destination, if there is one, is this address.
fn is_address(address: &IpAddress, destination: Option<IpAddress>) -> bool
    ensures { result ≡ is_for (is_same address.now) destination }
{
    match destination {
        None => false,
        Some(destination) => *address == destination,
    }
}
