//! What is acknowledged (RFC 9293 3.10.7.4, fifth check; RFC 5961 5; RFC 6298 5; RFC 5681 2).
ghost use Rattle.std.specs.Prelude.{◌≡◌, ◌+◌, ◌*◌, ◌≤◌, ◌<◌, ◌^◌, ◌==◌, [], None, if◌then◌else◌};
ghost use Rattle.tcp_machine.specs.Instants as instants;
ghost use Rattle.tcp_machine.specs.Acknowledgements as acknowledgements;
ghost use Rattle.tcp_machine.specs.Segments as segments;
ghost use Rattle.tcp_connection.specs.Segments.{segment_of, piece_of};
ghost use Rattle.tcp_connection.specs.Details.Parts.{tells_nothing, after_old_position, after_position_of, with_opening_from, with_waiting_from};

use crate::connection::Connection;
use crate::instants::{later, since_first};
use crate::segment::Segment;
use crate::states::after_end_acknowledged;
use tcp_machine::estimator::Estimator;
use tcp_machine::timers::{Measured, Pending, Timers};

/// What is known of the round trip, once a position is acknowledged.
pub(crate) fn after_measured(
    shortest: u64,
    now: u64,
    position: u64,
    measured: Option<Measured>,
    estimator: &Estimator,
) -> Estimator
    ensures { result ≡ acknowledgements.after_measured shortest now position measured estimator.now }
{
    match measured {
        Some(segment) if segment.position <= position => {
            estimator.after_sample(shortest, now.saturating_sub(segment.sent_at))
        }
        _ => *estimator,
    }
}

/// The segment that is measured on, once a position is acknowledged.
fn still_measured(position: u64, measured: Option<Measured>) -> Option<Measured>
    ensures { result ≡ acknowledgements.still_measured position measured }
{
    match measured {
        Some(segment) if segment.position <= position => None,
        other => other,
    }
}

/// The timers once a position is acknowledged, where all before `top` was sent: they are off if it is all, and begin anew
/// otherwise (RFC 6298 5.2, 5.3).
fn timers_after_progress(now: u64, timeout: u64, position: u64, top: u64, timers: &Timers) -> Timers
    ensures { result ≡ record timers.now {
      resend_at = (if position == top then None else Some (instants.later now timeout));
      tries = 0;
      measured = acknowledgements.still_measured position timers.now.measured;
      waiting_since = (if position == top then None else Some now);
    } }
{
    let is_all = position == top;
    Timers {
        resend_at: if is_all {
            None
        } else {
            Some(later(now, timeout))
        },
        tries: 0,
        measured: still_measured(position, timers.measured),
        waiting_since: if is_all { None } else { Some(now) },
        ..*timers
    }
}

/// A window that is scaled by so many bits.
#[tactic(auto, using(crate::proofs::WindowLemmas::scaled_bounded))]
fn scaled(window: u16, scale: u8) -> u64
    requires { scale ≤ 14 }
    ensures value { result ≡ window * 2 ^ scale }
    ensures bounded { result < 2 ^ 30 }
{
    u64::from(window) * (1 << scale)
}

impl Connection {
    /// The window that a segment tells, in octets (RFC 7323 2.3).
    pub(crate) fn window_in(&self, segment: &Segment) -> u64
        ensures value { result ≡ segments.window_in self.now (segment_of segment.now []) }
        ensures bounded { result < 2 ^ 30 }
    {
        scaled(segment.window, self.transmission.scale())
    }

    /// What is acknowledged up to a position, in a segment that carries a piece, is taken as acknowledged; then its window,
    /// and then the state, if the own end is acknowledged.
    pub(crate) fn take_acknowledgement(
        &mut self,
        now: u64,
        position: u64,
        segment: &Segment,
        start: u64,
        octets: &[u8],
    )
        requires { position ≤ self.old.transmission.sender.top }
        ensures value { self.new ≡ acknowledgements.after_acknowledgement now position
            (segment_of segment.now octets.now) (piece_of start segment.now octets.now) self.old }
        ensures kept { self.new.reception ≡ self.old.reception }
    {
        let was_waited_for = self.transmission.is_waited_for();
        let was_closed = self.is_window_closed();
        self.take_position_and_window(now, position, segment, start, octets);
        self.take_blocks(segment);
        self.wait(now, was_waited_for);
        self.take_opening(now, was_closed);
        self.take_own_end();
    }

    /// The position, and then the window, if the segment isn't older than what was acknowledged already.
    fn take_position_and_window(
        &mut self,
        now: u64,
        position: u64,
        segment: &Segment,
        start: u64,
        octets: &[u8],
    )
        requires { position ≤ self.old.transmission.sender.top }
        ensures value { self.new ≡ acknowledgements.after_told position (segment_of segment.now octets.now)
            (piece_of start segment.now octets.now) self.old (acknowledgements.after_acked now position
            (segment_of segment.now octets.now) (piece_of start segment.now octets.now) self.old) }
        ensures kept { self.new.reception ≡ self.old.reception }
    {
        let una = self.transmission.una();
        let _top = self.transmission.top();
        let window = self.window_in(segment);
        self.take_position(now, position, window, octets.len(), segment.fin);
        if una <= position {
            self.transmission.take_window(start, position, window);
        }
    }

    /// What was sent, and what the peer's window has room for, waits to be acknowledged: since before, if it was so; or nothing
    /// does any more.
    fn wait(&mut self, now: u64, was_waited_for: bool)
        ensures value { self.new ≡ with_waiting_from now was_waited_for self.old }
        ensures kept { self.new.reception ≡ self.old.reception }
    {
        self.timers.waiting_since = if !self.transmission.is_waited_for() {
            None
        } else if was_waited_for {
            since_first(now, self.timers.waiting_since)
        } else {
            Some(now)
        };
    }

    /// The window, which was closed, may be open: what waits goes now, and has the time-out that was measured.
    fn take_opening(&mut self, now: u64, was_closed: bool)
        ensures value { self.new ≡ with_opening_from now was_closed self.old }
        ensures kept { self.new.reception ≡ self.old.reception }
    {
        if !was_closed || self.is_window_closed() {
            return;
        }
        self.estimator = self
            .estimator
            .without_doubling(self.settings.shortest_timeout);
        if self.timers.resend_at.is_some() {
            self.timers.resend_at = Some(later(now, self.estimator.timeout));
        }
    }

    /// Whether the peer's window is closed.
    fn is_window_closed(&self) -> bool
        ensures { result ≡ acknowledgements.is_closed_window self.now.transmission }
    {
        self.transmission.told_edge() <= self.transmission.una()
    }

    /// The state moves on if the own end is acknowledged.
    fn take_own_end(&mut self)
        ensures value { self.new ≡ acknowledgements.after_end self.old }
        ensures kept { self.new.reception ≡ self.old.reception }
    {
        if self.transmission.is_end_acknowledged() {
            self.state = after_end_acknowledged(self.state);
        }
    }

    /// A position is acknowledged that is believed, by a segment with so many octets and maybe the end.
    fn take_position(&mut self, now: u64, position: u64, window: u64, len: usize, ends: bool)
        requires position { position ≤ self.old.transmission.sender.top }
        requires window { window < 2 ^ 30 }
        ensures value { self.new ≡ after_position_of now position window len ends self.old }
        ensures kept { self.new.reception ≡ self.old.reception }
    {
        if self.transmission.una() < position {
            self.take_progress(now, position, window);
        } else {
            self.take_old_position(position, window, len == 0 && !ends);
        }
    }

    /// Octets that were sent are acknowledged up to a position.
    fn take_progress(&mut self, now: u64, position: u64, window: u64)
        requires new { self.old.transmission.sender.una < position }
        requires sent { position ≤ self.old.transmission.sender.top }
        requires window { window < 2 ^ 30 }
        ensures value { self.new ≡ acknowledgements.after_progress now position window self.old }
        ensures kept { self.new.reception ≡ self.old.reception }
    {
        let mss = self.transmission.mss();
        let acknowledged = position - self.transmission.una();
        let nxt = self.transmission.nxt().max(position);
        let top = self.transmission.top();
        self.estimator = after_measured(
            self.settings.shortest_timeout,
            now,
            position,
            self.timers.measured,
            &self.estimator,
        );
        self.timers = timers_after_progress(
            now,
            self.estimator.timeout,
            position,
            top,
            &self.timers,
        );
        if self.congestion.shows_a_loss(position) && self.transmission.resent() <= position {
            self.pending = Pending::Resend;
        }
        let by_blocks = self.reception.sack_permitted();
        self.congestion = self
            .congestion
            .after_progress(by_blocks, mss, acknowledged, position, nxt - position);
        self.transmission.acknowledge(position, window);
        self.transmission.go_back(nxt);
        self.transmission.learn_path(position);
        self.transmission.acknowledge_told(position);
    }

    /// A segment acknowledges what is acknowledged already; it may be empty, with neither octets nor the end.
    fn take_old_position(&mut self, position: u64, window: u64, is_empty: bool)
        requires old { position ≤ self.old.transmission.sender.una }
        requires window { window < 2 ^ 30 }
        ensures value { self.new ≡ after_old_position position window is_empty self.old }
        ensures kept { self.new.reception ≡ self.old.reception }
    {
        if self.reception.sack_permitted() || !self.is_duplicate(position, window, is_empty) {
            self.transmission.acknowledge(position, window);
            return;
        }
        let mss = self.transmission.mss();
        let flight = self.transmission.flight();
        let top = self.transmission.top();
        if self.congestion.is_third(position) {
            self.pending = Pending::Resend;
        }
        self.congestion = self.congestion.after_duplicate(mss, position, flight, top);
    }

    /// Whether a segment tells nothing new (RFC 5681 2).
    fn is_duplicate(&self, position: u64, window: u64, is_empty: bool) -> bool
        requires old { position ≤ self.now.transmission.sender.una }
        requires window { window < 2 ^ 30 }
        ensures { result ≡ tells_nothing position window is_empty self.now.transmission }
    {
        let una = self.transmission.una();
        self.transmission.is_waited_for()
            && is_empty
            && position == una
            && position + window == self.transmission.told_edge()
    }
}
