//! Turns among sockets that wait for neighbours.
ghost use Rattle.std.specs.Prelude.{◌≡◌, ◌-◌, length};
ghost use Rattle.net_base.specs.Time.{IsMoment};
ghost use Rattle.egress_schedule.specs.Patience.{turn_if};
ghost use Rattle.egress_schedule.specs.Plan.{each_of, first_from, planned, turn_after};
ghost use Rattle.egress_schedule.specs.Queues.{has_packets};
ghost use Rattle.egress_schedule.specs.Turns as spec;
ghost use Rattle.egress_schedule.specs.Turns.{after_hold_at, asks_at, comes_before, next_to_ask, plan_asked, with_wait_longer};
ghost use Rattle.socket_set.specs.SocketSet.{socket_at};

use crate::queues::has_packets;
use crate::schedule::Schedule;
use crate::watch::Waiting;
use ip_wire::IpAddress;
use net_base::time::Instant;
use socket_set::{Meta, SocketSetOf, by_index};

impl Schedule {
    /// Lets the sockets before the one whose turn it is to ask for its neighbour wait a second more; those of them that don't
    /// wait aren't asked in this round.
    #[inline(never)]
    pub(crate) fn take_turns<L: Drop>(&mut self, now: Instant, sockets: &mut SocketSetOf<L>)
        requires { IsMoment now }
        ensures { planned self.new sockets.new ≡ spec.after_taking_turns now (planned self.old sockets.old) }
    {
        // In most rounds no wait is over.
        if !self.has_over(now) {
            return;
        }
        let next = self.next_to_ask(now, sockets);
        let turn = turn_after(self.watches.len(), self.discovery_turn, next);
        self.hold_all(next, now, sockets);
        self.ask(next, now);
        self.discovery_turn = turn;
    }

    /// Writes down that the socket at an index asks, if there is one.
    fn ask(&mut self, next: usize, now: Instant)
        ensures { self.new ≡ plan_asked now next self.old }
    {
        if next < self.watches.len() {
            let asked = waiting_asked(now, self.noted_wait(next));
            self.set_waiting(next, asked);
            self.asked = Some(now);
        }
    }

    /// Lets the sockets that aren't to ask, as it isn't their turn or their packets are given up, wait a second more.
    fn hold_all<L: Drop>(&mut self, next: usize, now: Instant, sockets: &mut SocketSetOf<L>)
        requires { IsMoment now }
        ensures { planned self.new sockets.new
            ≡ each_of (after_hold_at now next) (length self.old.watches) (planned self.old sockets.old) }
    {
        for index in 0..self.watches.len() {
            self.hold_at(index, next, now, sockets);
        }
    }

    /// The index of the socket whose turn it is to ask; their number, where none asks.
    fn next_to_ask<L: Drop>(&self, now: Instant, sockets: &SocketSetOf<L>) -> usize
        ensures { result ≡ next_to_ask now (planned self.now sockets.now) }
    {
        let next = self.first_to_ask(self.discovery_turn, now, sockets);
        if next < self.watches.len() {
            next
        } else {
            self.first_to_ask(0, now, sockets)
        }
    }

    /// The first index from one on whose socket asks for its neighbour again; the index after all, where none does.
    fn first_to_ask<L: Drop>(&self, from: usize, now: Instant, sockets: &SocketSetOf<L>) -> usize
        ensures { result
            ≡ first_from (asks_at now (planned self.now sockets.now)) from (length self.now.watches - from) }
    {
        let count = self.watches.len();
        for index in from..count {
            if self.asks_at(index, now, sockets) {
                return index;
            }
        }
        from.max(count)
    }

    /// Whether the socket at an index asks for its neighbour again.
    fn asks_at<L: Drop>(&self, index: usize, now: Instant, sockets: &SocketSetOf<L>) -> bool
        ensures { result ≡ asks_at now (planned self.now sockets.now) index }
    {
        match self.waiting_at(sockets, index) {
            None => false,
            Some(waiting) => {
                // Most waits aren't over, so it isn't read why a packet would have to go.
                if !waiting.is_over(now) {
                    return false;
                }
                let must_go = self.must_go(index, now, &waiting, sockets);
                waiting.asks_again(self.patience, now, must_go)
            }
        }
    }

    /// The socket at an index waits a second more, if its wait is over and it isn't to ask. If it doesn't wait, it isn't asked
    /// in this round where it would ask before the one whose turn it is.
    fn hold_at<L: Drop>(
        &mut self,
        index: usize,
        next: usize,
        now: Instant,
        sockets: &mut SocketSetOf<L>,
    )
        requires { IsMoment now }
        ensures { planned self.new sockets.new ≡ after_hold_at now next index (planned self.old sockets.old) }
    {
        let Some(waiting) = self.waiting_at(sockets, index) else {
            if self.comes_before(index, next, now, sockets) {
                self.set_wait_aside(index, now, sockets);
            }
            return;
        };
        if !waiting.is_over(now) {
            return;
        }
        let must_go = self.must_go(index, now, &waiting, sockets);
        if waiting.is_held(self.patience, now, must_go, index < next) {
            self.wait_longer(index, now, waiting, sockets);
        }
    }

    /// Whether the socket at an index, which doesn't wait, has something to send, and would be asked before the one whose
    /// turn it is, if there is one.
    fn comes_before<L: Drop>(
        &self,
        index: usize,
        next: usize,
        now: Instant,
        sockets: &SocketSetOf<L>,
    ) -> bool
        ensures { result ≡ comes_before now next index (planned self.now sockets.now) }
    {
        is_free(now, by_index::wait(sockets, index))
            && index < next
            && next < self.watches.len()
            && has_packets_at(index, sockets)
    }

    /// The socket at an index waits a second more, unless its neighbour is known.
    fn wait_longer<L: Drop>(
        &mut self,
        index: usize,
        now: Instant,
        waiting: Waiting,
        sockets: &mut SocketSetOf<L>,
    )
        requires { IsMoment now }
        ensures { planned self.new sockets.new ≡ with_wait_longer now index waiting (planned self.old sockets.old) }
    {
        let longer = Waiting {
            until: now + Meta::DISCOVERY_SILENT_TIME,
            ..waiting
        };
        self.set_waiting(index, Some(longer));
        by_index::neighbor_missing(sockets, index, now, waiting.neighbor);
    }
}

/// Whether the socket at an index has something to send.
fn has_packets_at<L: Drop>(index: usize, sockets: &SocketSetOf<L>) -> bool
    ensures { result ≡ has_packets (socket_at sockets.now index) }
{
    match by_index::socket(sockets, index) {
        None => false,
        Some(socket) => has_packets(socket),
    }
}

/// Whether a socket of this wait may be asked, whomever it waits for.
fn is_free(now: Instant, wait: Option<(IpAddress, Instant)>) -> bool
    ensures { result ≡ spec.is_free now wait }
{
    match wait {
        None => true,
        Some((_, until)) => until <= now,
    }
}

/// A wait whose neighbour is asked for.
fn waiting_asked(now: Instant, waiting: Option<Waiting>) -> Option<Waiting>
    ensures { result ≡ spec.waiting_asked now waiting }
{
    match waiting {
        None => None,
        Some(waiting) => Some(Waiting {
            asked: first_asked(now, waiting.asked),
            ..waiting
        }),
    }
}

/// When the neighbour of a wait was first asked for.
fn first_asked(now: Instant, asked: Option<Instant>) -> Option<Instant>
    ensures { result ≡ spec.first_asked now asked }
{
    match asked {
        None => Some(now),
        Some(asked) => Some(asked),
    }
}

/// The turn, of so many, after the one at an index asked; where it doesn't ask, the turn stays.
pub(crate) fn turn_if(asks: bool, count: usize, turn: usize, index: usize) -> usize
    ensures { result ≡ turn_if asks count turn index }
{
    if asks {
        turn_after(count, turn, index)
    } else {
        turn
    }
}

/// The turn after the one of so many that had it; where none had it, it stays.
pub(crate) fn turn_after(count: usize, turn: usize, had: usize) -> usize
    ensures { result ≡ turn_after count turn had }
{
    if had < count { had + 1 } else { turn }
}
