//! What a host asks of a connection, and what a program chooses.
ghost use Rattle.std.specs.Prelude.{◌≡◌, length};
ghost use Rattle.tcp_machine.specs.Calls as calls;
ghost use Rattle.tcp_connection.specs.Asked as asked;

use crate::connection::Connection;
use crate::states::{may_write, takes_octets};
use tcp_machine::state::State;
use tcp_machine::timers::Ending;

impl Connection {
    /// The state of RFC 9293 3.3.2.
    pub fn state(&self) -> State
        ensures { result ≡ self.now.state }
    {
        self.state
    }

    /// Why the connection ended before both sides had closed, if it did.
    pub fn ending(&self) -> Option<Ending>
        ensures { result ≡ self.now.ending }
    {
        self.ending
    }

    /// When something arrived last, in microseconds; when the connection began, if nothing has.
    pub fn heard_at(&self) -> u64
        ensures { result ≡ self.now.timers.heard_at }
    {
        self.timers.heard_at
    }

    /// Whether the program may write: it hasn't closed, and the connection isn't gone.
    pub fn may_send(&self) -> bool
        ensures { result ≡ asked.may_send self.now }
    {
        may_write(self.state) && self.transmission.stop().is_none()
    }

    /// Whether a write would take an octet.
    pub fn can_send(&self) -> bool
        ensures { result ≡ asked.can_send self.now }
    {
        self.may_send() && self.transmission.room_to_write() > 0
    }

    /// How many octets a write takes, if it has as many.
    pub fn send_room(&self) -> usize
        ensures { result ≡ asked.send_room self.now }
    {
        if self.may_send() {
            self.transmission.room_to_write()
        } else {
            0
        }
    }

    /// Whether there is an octet to be read, or one may still come.
    pub fn may_recv(&self) -> bool
        ensures { result ≡ asked.may_recv self.now }
    {
        takes_octets(self.state) || self.can_recv()
    }

    /// Whether there is an octet to be read.
    pub fn can_recv(&self) -> bool
        ensures { result ≡ asked.can_recv self.now }
    {
        !self.reception.readable().is_empty()
    }

    /// The window scale that the own SYN offers, if it offers one: a SYN that answers one does only if that did (RFC 7323 2.2).
    /// Where neither side scales its windows it needn't.
    pub fn offered_scale(&self) -> Option<u8>
        ensures { result ≡ asked.offered_scale self.now }
    {
        let is_first = matches!(self.state, State::SynSent);
        if is_first || self.transmission.scale() > 0 || self.reception.scale() > 0 {
            Some(self.settings.own_scale)
        } else {
            None
        }
    }

    /// How many octets are written and not acknowledged.
    pub fn send_queue(&self) -> usize
        ensures { result ≡ length self.now.transmission.sender.ring }
    {
        self.transmission.held()
    }

    /// How many octets can be read.
    pub fn recv_queue(&self) -> usize
        ensures { result ≡ length (calls.readable self.now) }
    {
        self.reception.readable().len()
    }

    /// Short segments wait while something is unacknowledged, or don't (RFC 9293 3.7.4).
    pub fn set_nagle_enabled(&mut self, enabled: bool)
        ensures { self.new ≡ record self.old { settings = record self.old.settings { nagle = enabled } } }
    {
        self.settings.nagle = enabled;
    }

    /// How long an acknowledgement of octets in order may wait, in microseconds (RFC 9293 3.8.6.3).
    pub fn set_ack_delay(&mut self, delay: u64)
        ensures { self.new ≡ record self.old { settings = record self.old.settings { ack_delay = delay } } }
    {
        self.settings.ack_delay = delay;
    }

    /// How long nothing arrives before the peer is probed, in microseconds (RFC 9293 3.8.4). With `None` it never is.
    pub fn set_keep_alive(&mut self, interval: Option<u64>)
        ensures { self.new ≡ record self.old { settings = record self.old.settings { keep_alive = interval } } }
    {
        self.settings.keep_alive = interval;
    }

    /// How long what was sent may stay unacknowledged, in microseconds (RFC 9293 3.8.3). With `None` the number of tries
    /// decides.
    pub fn set_timeout(&mut self, timeout: Option<u64>)
        ensures { self.new ≡ record self.old { settings = record self.old.settings { timeout = timeout } } }
    {
        self.settings.timeout = timeout;
    }
}
