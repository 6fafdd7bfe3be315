//! Octets and the peer's end (RFC 9293 3.10.7.4, seventh and eighth check), and TIME-WAIT (3.4.2).
ghost use Rattle.std.specs.Prelude.{◌≡◌, ◌<◌, ◌^◌, length, false};
ghost use Rattle.tcp_machine.specs.Receiving as receiving;
ghost use Rattle.tcp_machine.specs.Arrivals as arrivals;
ghost use Rattle.tcp_connection.specs.Segments.{piece_of};

use crate::connection::Connection;
use crate::endings::no_timers;
use crate::instants::later;
use crate::segment::Segment;
use crate::states::{after_peers_end, is_closed, is_time_wait, takes_octets};
use tcp_machine::state::State;
use tcp_machine::timers::{Owed, Timers};

impl Connection {
    /// A segment's octets and end are taken from a position on. Returns whether they were; they are left if they begin beyond
    /// a gap and would be the fourth part of the stream of which something lies beyond one. They are answered all the same.
    pub(crate) fn take_text(
        &mut self,
        now: u64,
        segment: &Segment,
        start: u64,
        octets: &[u8],
    ) -> bool
        requires start { start < 2 ^ 63 }
        requires octets { length octets.now < 2 ^ 32 }
        ensures value { self.new ≡ arrivals.after_text now result (piece_of start segment.now octets.now) self.old }
        ensures left { result ≡ false → receiving.next self.old.reception.receiver < start }
    {
        let is_kept = self.take_octets(now, segment, start, octets);
        self.take_fin(now);
        is_kept
    }

    /// The octets and the end of a segment, without what follows from the end.
    fn take_octets(&mut self, now: u64, segment: &Segment, start: u64, octets: &[u8]) -> bool
        requires start { start < 2 ^ 63 }
        requires octets { length octets.now < 2 ^ 32 }
        ensures value { self.new ≡ arrivals.after_octets_of now result (piece_of start segment.now octets.now) self.old }
        ensures left { result ≡ false → receiving.next self.old.reception.receiver < start }
    {
        let has_text = !octets.is_empty() || segment.fin;
        if !(takes_octets(self.state) && has_text) {
            return true;
        }
        let is_kept = self
            .reception
            .take(now, &self.settings, start, octets, segment.fin);
        if !is_kept {
            self.reception.set_owed(Owed::AtOnce);
        }
        is_kept
    }

    /// The state moves on if all up to the peer's end has arrived.
    fn take_fin(&mut self, now: u64)
        ensures { self.new ≡ arrivals.after_fin now self.old }
    {
        if takes_octets(self.state) && self.reception.has_ended() {
            let before = self.state;
            self.reception.set_owed(Owed::AtOnce);
            self.state = after_peers_end(before);
            self.enter(now, before);
        }
    }

    /// TIME-WAIT begins, if it is the state and wasn't before.
    pub(crate) fn enter(&mut self, now: u64, before: State)
        ensures value { self.new ≡ arrivals.after_entering now before self.old }
        ensures kept { self.new.reception ≡ self.old.reception }
    {
        if is_time_wait(self.state) && !is_time_wait(before) {
            self.begin_time_wait(now);
        }
    }

    /// TIME-WAIT begins, or begins anew.
    pub(crate) fn begin_time_wait(&mut self, now: u64)
        ensures value { self.new ≡ arrivals.with_time_wait now self.old }
        ensures kept { self.new.reception ≡ self.old.reception }
    {
        let end = later(now, self.settings.time_wait);
        self.timers = Timers {
            ends_at: Some(end),
            ..no_timers(&self.timers)
        };
    }

    /// In LAST-ACK the acknowledgement of the own end ends the connection.
    pub(crate) fn end_if_closed(&mut self)
        ensures value { self.new ≡ arrivals.after_last self.old }
        ensures kept { self.new.reception.receiver ≡ self.old.reception.receiver }
    {
        if is_closed(self.state) {
            self.end(None);
        }
    }
}
