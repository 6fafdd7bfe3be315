//! What a program does with a connection (RFC 9293 3.10.2 to 3.10.5).
ghost use Rattle.std.specs.Prelude.{◌≡◌, ◌++◌, length, drop};
ghost use Rattle.tcp_machine.specs.Calls as calls;

use crate::connection::Connection;
use crate::states::{after_program_closes, closes_at_once, is_closed};
use tcp_machine::timers::Ending;

/// Positions end here.
const LAST_POSITION: u64 = 1 << 62;

impl Connection {
    /// Queues the first octets, as many as there is room for, and returns their number (RFC 9293 3.10.2). It is 0, and
    /// nothing changes, once the program closed or the connection is gone.
    pub fn write(&mut self, octets: &[u8]) -> usize
        ensures taken { result ≡ calls.taken (length octets.now) self.old }
        ensures written { self.new ≡ calls.after_writing octets.now self.old }
    {
        if !self.may_send() {
            return 0;
        }
        let count = octets.len().min(self.transmission.room_to_write());
        self.transmission.write(&octets[..count]);
        count
    }

    /// The octets in order that aren't read.
    pub fn peek(&self) -> &[u8]
        ensures { result.now ≡ calls.readable self.now }
    {
        self.reception.readable()
    }

    /// Takes the first octets in order, `count` at most, without copying them, and returns their number (RFC 9293 3.10.3).
    /// It is 0, and nothing changes, if there is none.
    pub fn consume(&mut self, count: usize) -> usize
        ensures count { result ≡ calls.readable_count count self.old }
        ensures consumed { self.new ≡ calls.after_reading count self.old }
    {
        let left = LAST_POSITION - self.reception.base();
        let len = self.reception.readable().len();
        let taken = count.min(len.min(left as usize));
        self.reception.consume(taken);
        taken
    }

    /// Copies the first octets in order to the front of `out`, as many as it has room for, and returns their number
    /// (RFC 9293 3.10.3). It is 0, and nothing changes, if there is none.
    pub fn read(&mut self, out: &mut [u8]) -> usize
        ensures count { result ≡ calls.readable_count (length out.old) self.old }
        ensures octets { out.new ≡ calls.read_of (length out.old) self.old ++ drop result out.old }
        ensures read { self.new ≡ calls.after_reading (length out.old) self.old }
    {
        let left = LAST_POSITION - self.reception.base();
        let readable = self.reception.readable();
        let count = out.len().min(readable.len().min(left as usize));
        out[..count].copy_from_slice(&readable[..count]);
        self.reception.consume(count);
        count
    }

    /// The program closes: the end follows what was written (RFC 9293 3.10.4). In SYN-SENT the connection is gone at once;
    /// once closed nothing changes.
    pub fn close(&mut self)
        ensures { self.new ≡ calls.after_closing self.old }
    {
        if closes_at_once(self.state) {
            self.end(None);
        } else if self.transmission.stop().is_none() {
            self.transmission.close();
            self.state = after_program_closes(self.state);
        }
    }

    /// The program aborts: the connection is gone, and a peer that knows of it gets a reset (RFC 9293 3.10.5).
    pub fn abort(&mut self)
        ensures { self.new ≡ calls.after_abort self.old }
    {
        if !is_closed(self.state) {
            self.give_up(Ending::Aborted);
        }
    }
}
