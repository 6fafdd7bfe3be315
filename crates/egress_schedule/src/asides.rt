//! Sockets that aren't asked in a round.
ghost use Rattle.std.specs.Prelude.{◌≡◌, length};
ghost use Rattle.net_base.specs.Time.{IsMoment};
ghost use Rattle.egress_schedule.specs.Asides as spec;
ghost use Rattle.egress_schedule.specs.Asides.{after_putting_back_at, with_wait_aside};
ghost use Rattle.egress_schedule.specs.Plan.{planned};

use crate::schedule::Schedule;
use crate::watch::Waiting;
use ip_wire::{IpAddress, Ipv4Address};
use net_base::time::Instant;
use socket_set::{Meta, SocketSetOf, by_index};

/// Nobody has this address, so who waits for it isn't asked before the end of the wait.
pub(crate) const NOBODY: IpAddress = IpAddress::Ipv4(Ipv4Address { bits: 0 });

impl Schedule {
    /// Sets the own wait of the socket at an index aside, so that it isn't asked in this round. If that is over, it lasts a
    /// second longer.
    pub(crate) fn set_wait_aside<L: Drop>(
        &mut self,
        index: usize,
        now: Instant,
        sockets: &mut SocketSetOf<L>,
    )
        requires { IsMoment now }
        ensures { planned self.new sockets.new ≡ with_wait_aside now index (planned self.old sockets.old) }
    {
        let waiting = waiting_unasked(now, self.noted_wait(index));
        let own = own_wait(&waiting, by_index::wait(sockets, index));
        self.set_waiting(index, waiting);
        self.set_aside_wait(index, Some(own));
        by_index::neighbor_missing(sockets, index, now, NOBODY);
    }

    /// Gives the sockets that weren't to be asked their own waits again.
    #[inline(never)]
    pub(crate) fn put_all_back<L: Drop>(&mut self, sockets: &mut SocketSetOf<L>)
        ensures { planned self.new sockets.new ≡ spec.after_putting_all_back (planned self.old sockets.old) }
    {
        for index in 0..self.watches.len() {
            self.put_back_at(index, sockets);
        }
    }

    /// Gives the socket at an index its own wait again, if that was set aside.
    fn put_back_at<L: Drop>(&mut self, index: usize, sockets: &mut SocketSetOf<L>)
        ensures { planned self.new sockets.new ≡ after_putting_back_at index (planned self.old sockets.old) }
    {
        let own_wait = self.watch(index).set_aside;
        if let Some(wait) = own_wait {
            self.set_aside_wait(index, None);
            by_index::set_wait(sockets, index, wait);
        }
    }
}

/// For whom a socket waits that isn't asked in a round.
fn waiting_unasked(now: Instant, waiting: Option<Waiting>) -> Option<Waiting>
    requires { IsMoment now }
    ensures { result ≡ spec.waiting_unasked now waiting }
{
    match waiting {
        None => None,
        Some(waiting) => Some(Waiting {
            until: until_unasked(now, &waiting),
            ..waiting
        }),
    }
}

/// When a socket asks again that isn't asked in a round: a second later, if its wait is over.
fn until_unasked(now: Instant, waiting: &Waiting) -> Instant
    requires { IsMoment now }
    ensures { result ≡ spec.until_unasked now waiting.now }
{
    if waiting.is_over(now) {
        now + Meta::DISCOVERY_SILENT_TIME
    } else {
        waiting.until
    }
}

/// The own wait of a socket, for whom it waits, and its wait as it stands.
fn own_wait(
    waiting: &Option<Waiting>,
    wait: Option<(IpAddress, Instant)>,
) -> Option<(IpAddress, Instant)>
    ensures { result ≡ spec.own_wait waiting.now wait }
{
    match waiting {
        None => wait,
        Some(waiting) => match wait {
            None => None,
            Some(_) => Some((waiting.neighbor, waiting.until)),
        },
    }
}
