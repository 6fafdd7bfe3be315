//! Rounds that change nothing of the sockets that wait, as most do.
ghost use Rattle.std.specs.Prelude.{◌≡◌, ◌<◌, ℕ, true, false, not, is_some, IfSome, length};
ghost use Rattle.egress_schedule.specs.Patience.{after_look, is_given_up, must_go};
ghost use Rattle.egress_schedule.specs.Plan.{planned};
ghost use Rattle.egress_schedule.specs.Rounds.{with_waits_ended};
ghost use Rattle.egress_schedule.specs.Details.Settled.{ends_at, is_settled, is_quiet, is_some_over, waits_at};

use crate::schedule::Schedule;
use crate::watch::{Waiting, Watch, is_given_up, is_second_over};
use ip_wire::IpAddress;
use net_base::time::Instant;
use socket_set::{SocketSetOf, by_index};

impl Schedule {
    /// Whether it is written down of some socket that it waits, and that this is over.
    pub(crate) fn has_over(&self, now: Instant) -> bool
        ensures { result ≡ false → (i : ℕ) → i < length self.now.watches → ends_at now self.now.watches i ≡ false }
    {
        for index in 0..self.watches.len() {
            if self.ends_at(index, now) {
                return true;
            }
        }
        false
    }

    /// Whether it is written down of the socket at an index that it waits, and that this is over.
    fn ends_at(&self, index: usize, now: Instant) -> bool
        ensures { result ≡ ends_at now self.now.watches index }
    {
        match self.watches.get(index) {
            Some(watch) => is_some_over(now, &watch.waiting),
            None => false,
        }
    }

    /// Whether the end of a round changes nothing, where some socket waits.
    pub(crate) fn stays_as_it_is<L: Drop>(&self, now: Instant, sockets: &SocketSetOf<L>) -> bool
        requires { self.now.is_waiting ≡ true }
        ensures { result ≡ true
            → with_waits_ended now (after_look now (planned self.now sockets.now)) ≡ planned self.now sockets.now }
    {
        match self.some_end() {
            None => false,
            Some(end) => end > now && self.are_settled(now, end, sockets),
        }
    }

    /// Until when the first socket waits that does, by what is written down.
    fn some_end(&self) -> Option<Instant>
        ensures { IfSome result (λ end. (i : ℕ) × (waits_at self.now.watches i ≡ true)) }
    {
        for index in 0..self.watches.len() {
            if let Some(end) = self.end_at(index) {
                return Some(end);
            }
        }
        None
    }

    /// Until when the socket at an index waits, by what is written down.
    fn end_at(&self, index: usize) -> Option<Instant>
        ensures { is_some result ≡ waits_at self.now.watches index }
    {
        match self.watches.get(index) {
            Some(watch) => end_of(&watch.waiting),
            None => None,
        }
    }

    /// Whether each socket doesn't wait, or waits until an instant, as it is written down, and keeps its packet.
    fn are_settled<L: Drop>(&self, now: Instant, end: Instant, sockets: &SocketSetOf<L>) -> bool
        ensures { result ≡ true → (i : ℕ) → i < length self.now.watches →
            is_settled now end (planned self.now sockets.now) i ≡ true }
    {
        for index in 0..self.watches.len() {
            if !self.is_settled_at(index, now, end, sockets) {
                return false;
            }
        }
        true
    }

    /// Whether the socket at an index doesn't wait, or waits until an instant, as it is written down, and keeps its packet.
    fn is_settled_at<L: Drop>(
        &self,
        index: usize,
        now: Instant,
        end: Instant,
        sockets: &SocketSetOf<L>,
    ) -> bool
        ensures { result ≡ is_settled now end (planned self.now sockets.now) index }
    {
        let Some(watch) = self.watches.get(index) else {
            return !by_index::is_waiting(sockets, index);
        };
        match &watch.waiting {
            None => watch.unreachable.is_none() && !by_index::is_waiting(sockets, index),
            Some(waiting) => {
                waiting.until == end
                    && by_index::is_wait_at(sockets, index, &waiting.neighbor, end)
                    && (self.is_quiet(now, watch, waiting)
                        || self.keeps_packet(index, now, watch.unreachable, waiting, sockets))
            }
        }
    }

    /// Whether a socket keeps its first packet, which waits, whatever is queued behind it: it gave none up, and the request
    /// for its neighbour, and its wait, haven't lasted long enough.
    #[inline(always)]
    fn is_quiet(&self, now: Instant, watch: &Watch, waiting: &Waiting) -> bool
        ensures { result ≡ is_quiet self.now.patience now watch.now waiting.now }
    {
        watch.unreachable.is_none()
            && watch.dropped.is_none()
            && !is_second_over(now, waiting.asked)
            && !waiting.is_at_end(self.patience, now, false)
    }

    /// Whether the socket at an index keeps its first packet, which waits.
    #[inline(never)]
    fn keeps_packet<L: Drop>(
        &self,
        index: usize,
        now: Instant,
        unreachable: Option<IpAddress>,
        waiting: &Waiting,
        sockets: &SocketSetOf<L>,
    ) -> bool
        ensures { result ≡ not (is_given_up self.now.patience now (must_go now index (planned self.now sockets.now) waiting.now)
            unreachable waiting.now) }
    {
        let must_go = self.must_go(index, now, waiting, sockets);
        !is_given_up(self.patience, now, must_go, unreachable, waiting)
    }
}

/// Whether a wait, if there is one, is over.
fn is_some_over(now: Instant, waiting: &Option<Waiting>) -> bool
    ensures { result ≡ is_some_over now waiting.now }
{
    match waiting {
        None => false,
        Some(waiting) => waiting.is_over(now),
    }
}

/// When a wait ends, if there is one.
fn end_of(waiting: &Option<Waiting>) -> Option<Instant>
    ensures { is_some result ≡ is_some waiting.now }
{
    match waiting {
        None => None,
        Some(waiting) => Some(waiting.until),
    }
}
