//! How a connection ends, and what is sent once whatever the windows are.
ghost use Rattle.std.specs.Prelude.{◌≡◌, ◌<◌};
ghost use Rattle.tcp_machine.specs.Arrivals as arrivals;
ghost use Rattle.tcp_machine.specs.Acknowledgements as acknowledgements;

use crate::connection::Connection;
use crate::states::{is_syn_received, is_synchronized};
use tcp_machine::positions::number_at;
use tcp_machine::state::State;
use tcp_machine::timers::{Ending, Owed, Pending, Timers};

/// No timer runs.
pub(crate) fn no_timers(timers: &Timers) -> Timers
    ensures { result ≡ arrivals.no_timers timers.now }
{
    Timers {
        resend_at: None,
        measured: None,
        waiting_since: None,
        ends_at: None,
        ..*timers
    }
}

/// What tells more has a higher rank.
fn rank(pending: Pending) -> u8
    ensures { result ≡ acknowledgements.rank pending }
{
    match pending {
        Pending::Empty => 0,
        Pending::Challenge => 1,
        Pending::SynAgain => 2,
        Pending::KeepAlive => 3,
        Pending::Probe => 4,
        Pending::Resend => 5,
        Pending::Reset(_) => 6,
    }
}

impl Connection {
    /// The connection is no more, and nothing is sent by itself.
    pub(crate) fn end(&mut self, why: Option<Ending>)
        ensures { self.new ≡ arrivals.ended why self.old }
    {
        self.reception.set_owed(Owed::Nothing);
        self.state = State::Closed;
        self.ending = why;
        self.timers = no_timers(&self.timers);
        self.pending = Pending::Empty;
    }

    /// The connection is given up or aborted: a peer that knows of it gets a reset (RFC 9293 3.10.5).
    pub(crate) fn give_up(&mut self, why: Ending)
        ensures { self.new ≡ arrivals.aborted why self.old }
    {
        let is_known = is_synchronized(self.state) || is_syn_received(self.state);
        let number = number_at(self.local, self.transmission.empty_position());
        self.end(Some(why));
        if is_known {
            self.pending = Pending::Reset(number);
        }
    }

    /// A segment is to be sent once; the one that tells more stays.
    pub(crate) fn add_pending(&mut self, pending: Pending)
        ensures { self.new ≡ acknowledgements.with_pending pending self.old }
    {
        if rank(self.pending) < rank(pending) {
            self.pending = pending;
        }
    }
}
