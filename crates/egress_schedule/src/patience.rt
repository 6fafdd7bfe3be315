//! Giving up a neighbour that doesn't answer.
ghost use Rattle.std.specs.Prelude.{◌≡◌, ◌&&◌, ◌||◌, false, get_or, length, Some};
ghost use Rattle.egress_schedule.specs.Plan.{each_of, idle, planned, with_watch};
ghost use Rattle.egress_schedule.specs.Patience as spec;
ghost use Rattle.egress_schedule.specs.Patience.{IsUnnoted, NoneIsNoted, after_alignment_at, after_giving_up};
ghost use Rattle.egress_schedule.specs.Patience.{after_look_at, after_patience_at, earliest_end};
ghost use Rattle.egress_schedule.specs.Patience.{earliest_with, must_go, plan_after_look, unreachable_after};
ghost use Rattle.egress_schedule.specs.Patience.{watch_after_giving_up, without_first};
ghost use Rattle.egress_schedule.specs.Queues.{has_others, is_crowded};
ghost use Rattle.socket_set.specs.SocketSet.{socket_at};

use crate::passing::first_for;
use crate::queues::{has_others, is_crowded};
use crate::schedule::Schedule;
use crate::turns::turn_if;
use crate::watch::{
    Waiting, if_asked, is_given_up, is_new, is_recent, is_second_over, may_ask, waiting_after,
};
use ip_wire::IpAddress;
use net_base::time::Instant;
use socket_set::{SocketSetOf, by_index};

impl Schedule {
    /// Writes down which sockets wait after a round.
    pub(crate) fn look<L: Drop>(&mut self, now: Instant, sockets: &SocketSetOf<L>)
        ensures { planned self.new sockets.now ≡ spec.after_look now (planned self.old sockets.now) }
    {
        self.is_waiting = false;
        if self.may_have_notes {
            self.look_at_all(now, sockets);
        } else {
            self.look_at_busy(now, sockets);
        }
    }

    /// Writes down which sockets wait.
    #[inline(never)]
    fn look_at_all<L: Drop>(&mut self, now: Instant, sockets: &SocketSetOf<L>)
        ensures { planned self.new sockets.now
            ≡ each_of (after_look_at now) (length self.old.watches) (planned self.old sockets.now) }
    {
        let mut has_notes = false;
        for index in 0..self.watches.len() {
            self.look_at(index, now, sockets);
            has_notes |= self.is_noted(index);
        }
        self.may_have_notes = has_notes;
    }

    /// The same where nothing is written down of any socket: none waits but those that may be busy.
    #[inline(always)]
    fn look_at_busy<L: Drop>(&mut self, now: Instant, sockets: &SocketSetOf<L>)
        requires { NoneIsNoted self.old.watches }
        ensures { planned self.new sockets.now
            ≡ each_of (after_look_at now) (length self.old.watches) (planned self.old sockets.now) }
    {
        let count = self.watches.len().min(by_index::places(sockets));
        let mut index = by_index::next_busy(sockets, 0);
        while index < count {
            self.look_at(index, now, sockets);
            index = by_index::next_busy(sockets, index + 1);
        }
    }

    /// Writes down whether the socket at an index waits.
    fn look_at<L: Drop>(&mut self, index: usize, now: Instant, sockets: &SocketSetOf<L>)
        ensures { planned self.new sockets.now ≡ after_look_at now index (planned self.old sockets.now) }
    {
        let wait = by_index::wait(sockets, index);
        // Nothing is written, where nothing changes.
        if wait.is_some() || self.is_noted(index) {
            self.write_down(index, now, wait);
        }
    }

    /// Whether it is written down of the socket at an index that it waits, or whom it just gave up.
    fn is_noted(&self, index: usize) -> bool
        ensures { result ≡ false → IsUnnoted (get_or self.now.watches index idle) }
    {
        match self.watches.get(index) {
            Some(watch) => watch.is_noted(),
            None => false,
        }
    }

    /// Writes down whether the socket at an index waits, whose wait is this.
    fn write_down(&mut self, index: usize, now: Instant, wait: Option<(IpAddress, Instant)>)
        ensures { self.new ≡ plan_after_look now index wait self.old }
    {
        let before = self.noted_wait(index);
        let waiting = waiting_after(now, self.asked, wait, before);
        let asks = is_new(&waiting, &before) && may_ask(now, self.asked);
        self.note_wait(index, waiting);
        self.asked = if_asked(asks, now, self.asked);
        self.discovery_turn = turn_if(asks, self.watches.len(), self.discovery_turn, index);
        self.is_waiting |= waiting.is_some();
    }

    /// Writes down for whom the socket at an index waits after a round. Of one that doesn't wait it isn't kept whom it just
    /// gave up.
    fn note_wait(&mut self, index: usize, waiting: Option<Waiting>)
        ensures { let watch = get_or self.old.watches index idle in
            self.new ≡ with_watch index
            (record watch { waiting = waiting; unreachable = unreachable_after waiting watch.unreachable }) self.old }
    {
        self.set_waiting(index, waiting);
        self.keep_unreachable(index, &waiting);
    }

    /// Keeps whom the socket at an index just gave up only if it waits.
    fn keep_unreachable(&mut self, index: usize, waiting: &Option<Waiting>)
        ensures { let watch = get_or self.old.watches index idle in
            self.new ≡ with_watch index
            (record watch { unreachable = unreachable_after waiting.now watch.unreachable }) self.old }
    {
        if waiting.is_none() {
            self.set_unreachable(index, None);
        }
    }

    /// Lets all sockets that wait ask again at one instant, the earliest.
    #[inline(never)]
    pub(crate) fn align<L: Drop>(&mut self, sockets: &mut SocketSetOf<L>)
        ensures { planned self.new sockets.new ≡ spec.after_alignment (planned self.old sockets.old) }
    {
        let Some(end) = self.earliest_end() else {
            return;
        };
        for index in 0..self.watches.len() {
            self.align_at(index, end, sockets);
        }
    }

    /// The earliest end of a wait, if some socket waits.
    fn earliest_end(&self) -> Option<Instant>
        ensures { result ≡ earliest_end (length self.now.watches) self.now.watches }
    {
        let mut end = None;
        for index in 0..self.watches.len() {
            end = earlier_end(self.noted_wait(index), end);
        }
        end
    }

    /// Lets the socket at an index ask again at an instant, if it waits.
    fn align_at<L: Drop>(&mut self, index: usize, end: Instant, sockets: &mut SocketSetOf<L>)
        ensures { planned self.new sockets.new ≡ after_alignment_at end index (planned self.old sockets.old) }
    {
        let waiting = self.noted_wait(index);
        if let Some(waiting) = waiting {
            let aligned = Waiting {
                until: end,
                ..waiting
            };
            self.set_waiting(index, Some(aligned));
            by_index::set_wait(sockets, index, Some((waiting.neighbor, end)));
        }
    }

    /// Each socket whose wait has lasted long enough, or whose neighbour was just given up, gives up its first packet.
    #[inline(never)]
    pub(crate) fn give_up<L: Drop>(&mut self, now: Instant, sockets: &mut SocketSetOf<L>)
        ensures { planned self.new sockets.new ≡ spec.after_patience now (planned self.old sockets.old) }
    {
        for index in 0..self.watches.len() {
            self.give_up_at(index, now, sockets);
        }
    }

    /// The socket at an index gives up its first packet, if its wait has lasted long enough or its neighbour was just given
    /// up.
    fn give_up_at<L: Drop>(&mut self, index: usize, now: Instant, sockets: &mut SocketSetOf<L>)
        ensures { planned self.new sockets.new ≡ after_patience_at now index (planned self.old sockets.old) }
    {
        let Some(waiting) = self.waiting_at(sockets, index) else {
            return;
        };
        let unreachable = self.watch(index).unreachable;
        let must_go = self.must_go(index, now, &waiting, sockets);
        if is_given_up(self.patience, now, must_go, unreachable, &waiting) {
            self.drop_first(index, now, waiting.neighbor, sockets);
        }
    }

    /// Whether the first packet of the socket at an index has to make room for those that wait behind it: the request for
    /// its neighbour wasn't answered for a second; or the queue has no room for more, and the socket just gave one up.
    #[inline(always)]
    pub(crate) fn must_go<L: Drop>(
        &self,
        index: usize,
        now: Instant,
        waiting: &Waiting,
        sockets: &SocketSetOf<L>,
    ) -> bool
        ensures { result ≡ must_go now index (planned self.now sockets.now) waiting.now }
    {
        let is_unanswered = is_second_over(now, waiting.asked);
        let is_recent = is_recent(now, self.watch(index).dropped);
        // Most packets needn't go, whatever is queued.
        if !is_unanswered && !is_recent {
            return false;
        }
        must_go_now(index, is_unanswered, is_recent, sockets)
    }

    /// Gives up the first packet of the socket at an index.
    fn drop_first<L: Drop>(
        &mut self,
        index: usize,
        now: Instant,
        neighbor: IpAddress,
        sockets: &mut SocketSetOf<L>,
    )
        ensures { planned self.new sockets.new ≡ after_giving_up now index neighbor (planned self.old sockets.old) }
    {
        self.note_drop(index, now, neighbor);
        self.given_up = self.given_up.saturating_add(1);
        drop_packet(index, &neighbor, sockets);
        by_index::set_wait(sockets, index, None);
    }

    /// Writes down that the socket at an index gives up its first packet.
    fn note_drop(&mut self, index: usize, now: Instant, neighbor: IpAddress)
        ensures { self.new
            ≡ with_watch index (watch_after_giving_up now neighbor (get_or self.old.watches index idle)) self.old }
    {
        self.set_waiting(index, None);
        self.set_unreachable(index, Some(neighbor));
        self.set_given_up(index, now, neighbor);
    }

    /// Writes down of which packet the socket at an index is told that it was given up, and when.
    fn set_given_up(&mut self, index: usize, now: Instant, neighbor: IpAddress)
        ensures { self.new ≡ with_watch index
            (record (get_or self.old.watches index idle) { given_up = Some neighbor; dropped = Some now }) self.old }
    {
        if let Some(watch) = self.watches.get_mut(index) {
            watch.given_up = Some(neighbor);
            watch.dropped = Some(now);
        }
    }
}

/// Whether the first packet of the socket at an index has to make room, where the request for its neighbour wasn't
/// answered for a second, or the socket just gave one up.
#[inline(never)]
fn must_go_now<L: Drop>(
    index: usize,
    is_unanswered: bool,
    is_recent: bool,
    sockets: &SocketSetOf<L>,
) -> bool
    ensures { let socket = socket_at sockets.now index in
        result ≡ has_others socket && (is_unanswered || is_crowded socket && is_recent) }
{
    match by_index::socket(sockets, index) {
        None => false,
        Some(socket) => has_others(socket) && (is_unanswered || is_crowded(socket) && is_recent),
    }
}

/// The earliest end of a wait with that of another socket, if that waits.
fn earlier_end(waiting: Option<Waiting>, end: Option<Instant>) -> Option<Instant>
    ensures { result ≡ earliest_with waiting end }
{
    match waiting {
        None => end,
        Some(waiting) => Some(earlier_of(end, waiting.until)),
    }
}

/// The earlier of two instants, if there are two.
fn earlier_of(other: Option<Instant>, at: Instant) -> Instant
    ensures { result ≡ spec.earlier_of other at }
{
    match other {
        None => at,
        Some(other) => { if other <= at { other } else { at } }
    }
}

/// Drops the first packet for a neighbour that the socket at an index has to send, if there is a socket; its first packet, if
/// none is for the neighbour.
fn drop_packet<L: Drop>(index: usize, neighbor: &IpAddress, sockets: &mut SocketSetOf<L>)
    ensures { sockets.new ≡ without_first index neighbor.now sockets.old (socket_at sockets.old index) }
{
    if let Some(socket) = by_index::socket_mut(sockets, index) {
        let first = first_for(socket, neighbor);
        socket.bring_forward(first);
        socket.told(true);
    }
}
