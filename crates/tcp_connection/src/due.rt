//! When something is due.
ghost use Rattle.std.specs.Prelude.{◌≡◌, is_some};
ghost use Rattle.tcp_machine.specs.Due as due;
ghost use Rattle.tcp_machine.specs.Outgoing as outgoing;

use crate::connection::Connection;
use crate::instants::{least, owed_at};

impl Connection {
    /// When something is due: `now`, if a segment is to be sent or a timer to be begun; otherwise when the first timer ends.
    /// None, if nothing is due by itself.
    pub fn due_at(&self, now: u64) -> Option<u64>
        ensures { result ≡ due.due_at now self.now }
    {
        if self.has_action(now) || self.lacks_timer() {
            return Some(now);
        }
        self.timer_at()
    }

    /// Whether something is sent now.
    fn has_action(&self, now: u64) -> bool
        ensures { result ≡ is_some (outgoing.action now self.now) }
    {
        self.next_action(now).is_some()
    }

    /// When the first timer ends.
    fn timer_at(&self) -> Option<u64>
        ensures { result ≡ due.timer_at self.now }
    {
        let own = least(self.timers.resend_at, self.timers.ends_at);
        least(
            own,
            least(
                least(self.gives_up_at(), self.keep_alive_at()),
                owed_at(self.reception.owed()),
            ),
        )
    }
}
