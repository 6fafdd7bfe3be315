//! What a connection does by itself (RFC 6298 5; RFC 9293 3.4.2, 3.8.3, 3.8.4, 3.8.6.1).
ghost use Rattle.std.specs.Prelude.{◌≡◌, ◌+◌, min};
ghost use Rattle.tcp_machine.specs.Connection.{most_tries};
ghost use Rattle.tcp_machine.specs.Due as due;
ghost use Rattle.tcp_machine.specs.Timers as timers;

use crate::connection::Connection;
use crate::instants::{has_passed, later};
use crate::states::{is_opening, is_synchronized, is_time_wait, sends_octets};
use tcp_machine::timers::{Ending, Pending, Timers};

/// How often a segment is sent again before the connection is given up, where no time-out is set.
const MOST_TRIES: u64 = 12;

/// How many probes stay unanswered before a peer that is kept alive is given up.
const MOST_PROBES: u64 = 9;

/// One more, up to the most tries.
fn one_more(count: u64) -> u64
    ensures { result ≡ min most_tries (count + 1) }
{
    count.saturating_add(1).min(MOST_TRIES)
}

impl Connection {
    /// What happens by itself up to an instant: the timers that have ended (RFC 9293 3.10.8; RFC 6298 5).
    pub fn expire(&mut self, now: u64)
        ensures { self.new ≡ timers.after_timers now self.old }
    {
        self.expire_time_wait(now);
        self.expire_user_timeout(now);
        self.expire_resend_timer(now);
        self.expire_keep_alive(now);
        self.start_probe_timer(now);
        self.restart_window(now);
    }

    /// TIME-WAIT ends.
    fn expire_time_wait(&mut self, now: u64)
        ensures { self.new ≡ timers.after_time_wait now self.old }
    {
        if has_passed(self.timers.ends_at, now) {
            self.end(None);
        }
    }

    /// The program's time-out ends (RFC 9293 3.8.3).
    fn expire_user_timeout(&mut self, now: u64)
        ensures { self.new ≡ timers.after_user_timeout now self.old }
    {
        if has_passed(self.gives_up_at(), now) {
            self.give_up(Ending::TimedOut);
        }
    }

    /// When it ends, if there is one, and the peer lets something wait.
    pub(crate) fn gives_up_at(&self) -> Option<u64>
        ensures { result ≡ timers.gives_up_at self.now }
    {
        match (self.settings.timeout, self.timers.waiting_since) {
            (Some(timeout), Some(since)) => Some(later(since, timeout)),
            _ => None,
        }
    }

    /// What isn't acknowledged is sent again, or the peer is probed, or the connection is given up.
    fn expire_resend_timer(&mut self, now: u64)
        ensures { self.new ≡ timers.after_resend_timer now self.old }
    {
        if !has_passed(self.timers.resend_at, now) {
            return;
        }
        if self.is_held_back() && !is_opening(self.state) {
            self.expire_probe_timer(now);
        } else if self.is_given_up() {
            self.give_up(Ending::TimedOut);
        } else {
            self.lose_all();
        }
    }

    /// Whether what was sent was sent again too often, where the program set no time-out.
    fn is_given_up(&self) -> bool
        ensures { result ≡ timers.is_given_up self.now }
    {
        self.settings.timeout.is_none() && MOST_TRIES <= self.timers.tries
    }

    /// All from the first unacknowledged position on is sent again (RFC 6298 5.4 to 5.6).
    fn lose_all(&mut self)
        ensures { self.new ≡ timers.after_loss_of_all self.old }
    {
        let una = self.transmission.una();
        self.transmission.forget_told();
        if self.is_shortened() {
            self.transmission.shorten();
        }
        let mss = self.transmission.mss();
        let flight = self.transmission.flight();
        let top = self.transmission.top();
        let is_first = self.timers.tries == 0;
        self.congestion = if is_opening(self.state) {
            self.congestion.after_lost_syn(mss)
        } else {
            self.congestion.after_timeout(is_first, mss, flight, top)
        };
        self.estimator = self.estimator.after_timeout();
        self.transmission
            .go_back(if is_opening(self.state) { 0 } else { una });
        self.timers = Timers {
            resend_at: None,
            tries: one_more(self.timers.tries),
            measured: None,
            ..self.timers
        };
    }

    /// Whether segments are shortened, since the path may be a black hole for longer ones (RFC 4821 7.7).
    fn is_shortened(&self) -> bool
        ensures { result ≡ timers.is_shortened self.now }
    {
        !is_opening(self.state) && self.transmission.is_black_hole(self.timers.tries)
    }

    /// The peer is probed, or given up if it hasn't answered too often (RFC 9293 3.8.6.1).
    fn expire_probe_timer(&mut self, now: u64)
        ensures { self.new ≡ timers.after_probe_time now self.old }
    {
        if self.is_unheard() {
            self.give_up(Ending::TimedOut);
            return;
        }
        self.estimator = self.estimator.after_timeout();
        self.timers.resend_at = None;
        self.timers.probes = one_more(self.timers.probes);
        self.add_pending(Pending::Probe);
    }

    /// Whether it hasn't answered so many probes, where the program set no time-out.
    fn is_unheard(&self) -> bool
        ensures { result ≡ timers.is_unheard self.now }
    {
        self.settings.timeout.is_none() && MOST_TRIES <= self.timers.probes
    }

    /// A silent peer is asked whether it is still there, or given up after nine such questions (RFC 9293 3.8.4).
    fn expire_keep_alive(&mut self, now: u64)
        ensures { self.new ≡ timers.after_keep_alive now self.old }
    {
        if !has_passed(self.keep_alive_at(), now) {
            return;
        }
        if MOST_PROBES <= self.timers.probes {
            self.give_up(Ending::TimedOut);
            return;
        }
        self.timers.probes = one_more(self.timers.probes);
        self.timers.idle_since = now;
        self.add_pending(Pending::KeepAlive);
    }

    /// When a silent peer is asked next whether it is still there. While something is unacknowledged it isn't asked.
    pub(crate) fn keep_alive_at(&self) -> Option<u64>
        ensures { result ≡ timers.keep_alive_at self.now }
    {
        if !self.is_kept_alive() {
            return None;
        }
        match self.settings.keep_alive {
            None => None,
            Some(interval) => Some(later(self.timers.idle_since, interval)),
        }
    }

    /// Whether the connection stands, and all that was sent is acknowledged.
    fn is_kept_alive(&self) -> bool
        ensures { result ≡ timers.is_kept_alive self.now }
    {
        is_synchronized(self.state)
            && !is_time_wait(self.state)
            && self.transmission.top() <= self.transmission.una()
    }

    /// Nothing was sent for a time-out, and all is acknowledged: less may be on its way at once (RFC 5681 4.1).
    fn restart_window(&mut self, now: u64)
        ensures { self.new ≡ timers.with_restart_window now self.old }
    {
        if self.is_unpaced(now) {
            self.congestion.restart(self.transmission.mss());
        }
    }

    /// Whether all is acknowledged, and nothing was sent for a time-out.
    fn is_unpaced(&self, now: u64) -> bool
        ensures { result ≡ timers.is_unpaced now self.now }
    {
        self.transmission.top() <= self.transmission.una()
            && later(self.timers.sent_at, self.estimator.timeout) <= now
    }

    /// The timer runs while all that waits is held back, too.
    fn start_probe_timer(&mut self, now: u64)
        ensures { self.new ≡ timers.with_probe_timer now self.old }
    {
        if self.lacks_timer() {
            self.timers.resend_at = Some(later(now, self.estimator.timeout));
        }
    }

    /// Whether all that waits is held back, and no timer runs.
    pub(crate) fn lacks_timer(&self) -> bool
        ensures { result ≡ due.lacks_timer self.now }
    {
        self.timers.resend_at.is_none() && sends_octets(self.state) && self.is_held_back()
    }

    /// Whether nothing is on its way, and what waits isn't sent now: the peer's window has no room for it, or for less than
    /// is worth sending (RFC 9293 3.8.6.2.1).
    fn is_held_back(&self) -> bool
        ensures { result ≡ timers.is_held_back self.now }
    {
        let part = self.next_part();
        let is_worth_sending = self.is_worth_sending(&part);
        self.transmission.flight() == 0 && self.transmission.has_unsent() && !is_worth_sending
    }
}
