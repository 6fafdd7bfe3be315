//! A segment arrives (RFC 9293 3.10.7).
ghost use Rattle.std.specs.Prelude.{◌≡◌, ◌<◌, ◌^◌, [], length, Some, IfSome, true, false};
ghost use Rattle.std.specs.Option.{option_map};
ghost use Rattle.tcp_machine.specs.Receiving as receiving;
ghost use Rattle.tcp_machine.specs.Segments as segments;
ghost use Rattle.tcp_machine.specs.Arrivals as arrivals;
ghost use Rattle.tcp_machine.specs.Opening as opening;
ghost use Rattle.tcp_machine.specs.Opening.{Arrives, MayLeave};
ghost use Rattle.tcp_machine.specs.Acknowledgements.{is_believed};
ghost use Rattle.tcp_connection.specs.Segments.{segment_of, piece_of};
ghost use Rattle.tcp_connection.specs.Details.Parts.{after_ack_of_syn};

use crate::acknowledgements::after_measured;
use crate::connection::Connection;
use crate::segment::Segment;
use crate::states::{is_syn_received, is_time_wait};
use tcp_machine::positions::{number_at, position_near};
use tcp_machine::state::State;
use tcp_machine::timers::{Ending, Owed, Pending, Timers};

/// The time-out once the own SYN is acknowledged, if it ran out before, in microseconds (RFC 6298 5.7).
const TIMEOUT_AFTER_SYN: u64 = 3_000_000;

/// Whether a segment begins before a position; one older than position 0 does.
fn is_before(start: Option<u64>, position: u64) -> bool
    ensures { result ≡ arrivals.is_before start position }
{
    match start {
        None => true,
        Some(start) => start < position,
    }
}

/// Whether a segment takes positions of the stream.
fn has_text(segment: &Segment, octets: &[u8]) -> bool
    ensures { result ≡ arrivals.has_text (piece_of 0 segment.now octets.now) }
{
    !octets.is_empty() || segment.fin
}

impl Connection {
    /// A segment arrives (RFC 9293 3.10.7.3, 3.10.7.4). `default` is the MSS of a peer that doesn't tell it, and `link` the
    /// most octets of a segment that the link carries. In CLOSED and LISTEN nothing changes: there the host answers.
    pub fn receive(&mut self, now: u64, default: u16, link: u16, segment: &Segment, octets: &[u8])
        requires { length octets.now < 2 ^ 32 }
        ensures { Arrives default link now (segment_of segment.now octets.now) self.old self.new }
    {
        let _is_kept = self.take_segment(now, default, link, segment, octets);
    }

    /// The same; returns whether the octets were taken.
    fn take_segment(
        &mut self,
        now: u64,
        default: u16,
        link: u16,
        segment: &Segment,
        octets: &[u8],
    ) -> bool
        requires { length octets.now < 2 ^ 32 }
        ensures value { self.new ≡ opening.after_arrival default link now result (segment_of segment.now octets.now) self.old }
        ensures left { result ≡ false → MayLeave (segments.acceptable_piece self.old (segment_of segment.now octets.now))
            self.old.reception.receiver }
    {
        match self.state {
            State::Closed | State::Listen => true,
            State::SynSent => {
                self.take_in_syn_sent(now, default, link, segment);
                true
            }
            State::SynReceived
            | State::Established
            | State::FinWait1
            | State::FinWait2
            | State::CloseWait
            | State::Closing
            | State::LastAck
            | State::TimeWait => self.take_in_order(now, segment, octets),
        }
    }

    /// A segment arrives whose peer's initial number is known. The checks come in their order, but SYN is asked for first,
    /// since a challenge answers it whatever its number is.
    fn take_in_order(&mut self, now: u64, segment: &Segment, octets: &[u8]) -> bool
        requires { length octets.now < 2 ^ 32 }
        ensures value { self.new ≡ arrivals.after_segment_arrives now result (segment_of segment.now octets.now) self.old }
        ensures left { result ≡ false → MayLeave (segments.acceptable_piece self.old (segment_of segment.now octets.now))
            self.old.reception.receiver }
    {
        if segment.syn && !segment.rst {
            self.take_syn_again(segment);
            return true;
        }
        match self.acceptable_start(segment, octets) {
            None => {
                self.refuse(now, segment, octets);
                true
            }
            Some(start) if segment.rst => {
                self.take_reset(start);
                true
            }
            Some(start) => {
                self.hear(now);
                self.take_ack_field(now, segment, start, octets)
            }
        }
    }

    /// The position at which a segment begins, if it is acceptable (first check).
    fn acceptable_start(&self, segment: &Segment, octets: &[u8]) -> Option<u64>
        requires { length octets.now < 2 ^ 32 }
        ensures piece { segments.acceptable_piece self.now (segment_of segment.now octets.now)
            ≡ option_map (λ p. piece_of p segment.now octets.now) result }
        ensures bounded { IfSome result (λ p. p < 2 ^ 63) }
    {
        let next = self.reception.next();
        match position_near(self.remote, next, segment.number) {
            None => None,
            Some(start) => {
                if self.reception.is_acceptable(start, octets, segment.fin) {
                    Some(start)
                } else {
                    None
                }
            }
        }
    }

    /// A segment isn't acceptable (first check).
    fn refuse(&mut self, now: u64, segment: &Segment, octets: &[u8])
        ensures { self.new ≡ arrivals.after_unacceptable now (segment_of segment.now octets.now) self.old }
    {
        if segment.rst || !self.is_answered(segment, octets) {
            return;
        }
        self.add_pending(Pending::Challenge);
        if segment.fin && is_time_wait(self.state) {
            self.begin_time_wait(now);
        }
    }

    /// Whether a segment that isn't taken is answered: octets and the end are, and an empty one that asks.
    fn is_answered(&self, segment: &Segment, octets: &[u8]) -> bool
        ensures { result ≡ arrivals.is_answered (segment_of segment.now octets.now) self.now }
    {
        !octets.is_empty() || segment.fin || self.is_asked(segment)
    }

    /// Whether an empty segment asks whether this side is still there (RFC 9293 3.8.4).
    fn is_asked(&self, segment: &Segment) -> bool
        ensures { result ≡ arrivals.asks (segment_of segment.now []) self.now }
    {
        let Some(number) = segment.ack else {
            return false;
        };
        let start = position_near(self.remote, self.reception.next(), segment.number);
        let position = position_near(self.local, self.transmission.una(), number);
        is_before(start, self.reception.expected()) && self.transmission.is_of_sent(position)
    }

    /// A reset arrives at a position (second check; RFC 5961 3.2). In TIME-WAIT it is left (RFC 1337).
    fn take_reset(&mut self, start: u64)
        ensures { self.new ≡ arrivals.after_reset (record { start = start; octets = []; ends = false }) self.old }
    {
        if is_time_wait(self.state) {
            return;
        }
        if start != self.reception.expected() {
            if self.reception.is_in_window(start) {
                self.add_pending(Pending::Challenge);
            }
        } else if self.is_active && is_syn_received(self.state) {
            self.end(Some(Ending::Refused));
        } else {
            self.end(Some(Ending::ByPeer));
        }
    }

    /// A SYN arrives once more (fourth check; RFC 5961 4.2).
    fn take_syn_again(&mut self, segment: &Segment)
        ensures { self.new ≡ arrivals.after_syn_once_more (segment_of segment.now []) self.old }
    {
        let is_own_acknowledged = segment.ack == Some(number_at(self.local, 1))
            && segment.number == self.remote
            && is_syn_received(self.state);
        let is_again = segment.number == self.remote
            && segment.ack.is_none()
            && is_syn_received(self.state);
        if is_own_acknowledged {
            self.establish();
            self.reception.set_owed(Owed::AtOnce);
        } else if is_again {
            self.add_pending(Pending::SynAgain);
        } else {
            self.add_pending(Pending::Challenge);
        }
    }

    /// Something arrived.
    pub(crate) fn hear(&mut self, now: u64)
        ensures { self.new ≡ arrivals.heard now self.old }
    {
        self.timers.heard_at = now;
        self.timers.probes = 0;
        self.timers.idle_since = now;
    }

    /// The own SYN is acknowledged.
    pub(crate) fn establish(&mut self)
        ensures { self.new ≡ arrivals.established self.old }
    {
        self.state = match self.transmission.stop() {
            None => State::Established,
            Some(_) => State::FinWait1,
        };
        let nxt = self.transmission.nxt();
        let _una = self.transmission.una();
        self.transmission.go_back(nxt.max(1));
        self.estimator = after_measured(
            self.settings.shortest_timeout,
            self.timers.heard_at,
            1,
            self.timers.measured,
            &self.estimator,
        );
        if self.timers.tries != 0 {
            self.estimator.timeout = TIMEOUT_AFTER_SYN;
        }
        self.timers = Timers {
            resend_at: None,
            tries: 0,
            measured: None,
            waiting_since: None,
            ..self.timers
        };
    }

    /// The acknowledgement that a segment has (fifth check), and then its octets.
    fn take_ack_field(&mut self, now: u64, segment: &Segment, start: u64, octets: &[u8]) -> bool
        requires start { start < 2 ^ 63 }
        requires octets { length octets.now < 2 ^ 32 }
        ensures value { self.new ≡ arrivals.after_ack_field now result segment.now.ack (segment_of segment.now octets.now)
            (piece_of start segment.now octets.now) self.old }
        ensures left { result ≡ false → receiving.next self.old.reception.receiver < start }
    {
        let Some(number) = segment.ack else {
            return true;
        };
        if is_syn_received(self.state) {
            self.take_ack_of_syn(now, number, segment, start, octets)
        } else {
            let position = position_near(self.local, self.transmission.una(), number);
            self.take_if_believed(now, position, segment, start, octets)
        }
    }

    /// The acknowledgement that a segment has in SYN-RECEIVED: it has to be that of the own SYN, or is answered by a reset.
    fn take_ack_of_syn(
        &mut self,
        now: u64,
        number: u32,
        segment: &Segment,
        start: u64,
        octets: &[u8],
    ) -> bool
        requires start { start < 2 ^ 63 }
        requires octets { length octets.now < 2 ^ 32 }
        ensures value { self.new ≡ after_ack_of_syn now result number (segment_of segment.now octets.now)
            (piece_of start segment.now octets.now) self.old }
        ensures left { result ≡ false → receiving.next self.old.reception.receiver < start }
    {
        if number == number_at(self.local, 1) {
            self.establish();
            self.take_if_believed(now, Some(1), segment, start, octets)
        } else {
            self.add_pending(Pending::Reset(number));
            true
        }
    }

    /// An acknowledgement of a position, if it is believed, and then the octets.
    fn take_if_believed(
        &mut self,
        now: u64,
        position: Option<u64>,
        segment: &Segment,
        start: u64,
        octets: &[u8],
    ) -> bool
        requires start { start < 2 ^ 63 }
        requires octets { length octets.now < 2 ^ 32 }
        ensures value { self.new ≡ arrivals.after_position_acknowledged now result position (segment_of segment.now octets.now)
            (piece_of start segment.now octets.now) self.old }
        ensures left { result ≡ false → receiving.next self.old.reception.receiver < start }
    {
        match position {
            Some(position) if self.transmission.is_believed(position) => {
                self.take_believed(now, position, segment, start, octets)
            }
            _ => {
                self.leave(segment, octets);
                true
            }
        }
    }

    /// An acknowledgement isn't believed: octets or the end with it are answered.
    fn leave(&mut self, segment: &Segment, octets: &[u8])
        ensures { self.new ≡ arrivals.after_unbelieved (piece_of 0 segment.now octets.now) self.old }
    {
        if has_text(segment, octets) {
            self.add_pending(Pending::Challenge);
        }
    }

    /// An acknowledgement that is believed, and then the octets.
    fn take_believed(
        &mut self,
        now: u64,
        position: u64,
        segment: &Segment,
        start: u64,
        octets: &[u8],
    ) -> bool
        requires believed { is_believed position self.old.transmission ≡ true }
        requires start { start < 2 ^ 63 }
        requires octets { length octets.now < 2 ^ 32 }
        ensures value { self.new ≡ arrivals.after_position_acknowledged now result (Some position)
            (segment_of segment.now octets.now) (piece_of start segment.now octets.now) self.old }
        ensures left { result ≡ false → receiving.next self.old.reception.receiver < start }
    {
        let before = self.state;
        self.take_acknowledgement(now, position, segment, start, octets);
        self.enter(now, before);
        self.end_if_closed();
        self.take_text(now, segment, start, octets)
    }
}
