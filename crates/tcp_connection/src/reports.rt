//! What others say of a connection's packets, by messages of ICMP (RFC 9293 3.9.2.2, RFC 5927).
ghost use Rattle.std.specs.Prelude.{◌≡◌};
ghost use Rattle.tcp_machine.specs.Reports as reports;
ghost use Rattle.tcp_connection.specs.Asked as asked;

use crate::connection::Connection;
use crate::states::{is_opening, sends_octets};
use tcp_machine::positions::position_near;
use tcp_machine::timers::{Ending, Timers};

impl Connection {
    /// A router dropped a segment for its length, and says that one may have `size` octets (RFC 1191, RFC 8201). Where that is less
    /// than before, all that isn't acknowledged is to be sent again; else nothing changes. No path is believed to carry less than
    /// the MSS of a peer that tells none (RFC 9293 3.7.1).
    pub fn shorten_segments(&mut self, size: u16)
        ensures { self.new ≡ reports.after_too_long size self.old }
    {
        if sends_octets(self.state) && self.transmission.is_longer_than(size) {
            self.transmission.tell_path(size);
            self.timers = Timers {
                measured: None,
                ..self.timers
            };
        }
    }

    /// The peer can't be reached: a connection that is being opened ends (RFC 9293 3.9.2.2); another one lives on.
    pub fn end_unreachable(&mut self)
        ensures { self.new ≡ reports.after_unreachable self.old }
    {
        if is_opening(self.state) {
            self.give_up(Ending::Unreachable);
        }
    }

    /// Whether a segment with a number was sent and isn't acknowledged, as far as it can be known (RFC 5927 4.1): of a connection
    /// that is being opened the SYN alone.
    pub fn is_unacknowledged(&self, number: u32) -> bool
        ensures { result ≡ asked.is_unacknowledged number self.now }
    {
        if is_opening(self.state) {
            return number == self.local;
        }
        let una = self.transmission.una();
        match position_near(self.local, una, number) {
            None => false,
            Some(position) => una <= position && position < self.transmission.top(),
        }
    }
}
