//! How much may be on its way (RFC 3042, RFC 3465, RFC 5681, RFC 6582, RFC 6675, RFC 6928).
ghost use Rattle.std.specs.Prelude.{◌≡◌, ◌≤◌};
ghost use Rattle.tcp_machine.specs.Congestion as spec;

use crate::estimator::plus_at_most;

/// The largest congestion window, in octets. A window of RFC 7323 has less.
const LARGEST: u64 = 1 << 30;

/// What congestion control keeps of a connection. Sizes are in octets.
#[derive(Clone, Copy, Debug, PartialEq, Eq)]
pub struct Congestion {
    /// cwnd (RFC 5681 2).
    pub window: u64,
    /// ssthresh (RFC 5681 2).
    pub threshold: u64,
    /// The octets that were acknowledged since the window grew last, from the threshold on (bytes_acked, RFC 3465 2.1).
    pub credit: u64,
    /// How many acknowledgements in a row told nothing new, up to 3.
    pub duplicates: u64,
    /// The position after all that had been sent when a loss was noticed last (`recover`, RFC 6582 3.2).
    pub recover: u64,
    /// Whether segments up to there are being recovered.
    pub is_recovering: bool,
}

impl Congestion {
    /// At first ten segments may be on their way (RFC 6928 2).
    pub fn new(mss: u16) -> Congestion
        ensures { result ≡ spec.new_congestion mss }
    {
        Congestion {
            window: initial_window(mss),
            threshold: LARGEST,
            credit: 0,
            duplicates: 0,
            recover: 0,
            is_recovering: false,
        }
    }

    /// After a handshake in which the own SYN was sent again so often: one segment at first, if it was (RFC 5681 3.1; RFC 6928 2).
    pub fn first(tries: u64, mss: u16) -> Congestion
        ensures { result ≡ spec.first_congestion tries mss }
    {
        let first = Congestion::new(mss);
        if tries == 0 {
            first
        } else {
            first.after_lost_syn(mss)
        }
    }

    /// What is kept after the own SYN stayed unacknowledged: the threshold, as no octet was lost.
    pub fn after_lost_syn(&self, mss: u16) -> Congestion
        ensures { result ≡ spec.after_lost_syn mss self.now }
    {
        Congestion {
            window: u64::from(mss),
            ..*self
        }
    }

    /// Nothing was sent for a time-out: the window is that of a new connection at most (RFC 5681 4.1).
    pub fn restart(&mut self, mss: u16)
        ensures { self.new ≡ record self.old { window = spec.restart_window mss self.old.window } }
    {
        self.window = self.window.min(initial_window(mss));
    }

    /// How many octets beyond the window may be on their way: a segment more for each of the first two acknowledgements that
    /// tell nothing new (RFC 3042 2).
    #[inline(always)]
    pub fn beyond_window(&self, mss: u16) -> u64
        ensures value { result ≡ spec.beyond_window mss self.now }
        ensures few { result ≤ 131070 }
    {
        if self.is_recovering {
            0
        } else {
            self.duplicates.min(2) * u64::from(mss)
        }
    }

    /// What is kept after `acknowledged` octets more were acknowledged, up to a position, with `flight` octets on their way
    /// then (RFC 5681 3.1; RFC 6582 3.2, step 3).
    pub fn after_acknowledged(
        &self,
        mss: u16,
        acknowledged: u64,
        position: u64,
        flight: u64,
    ) -> Congestion
        ensures { result ≡ spec.after_acknowledged mss acknowledged position flight self.now }
    {
        if !self.is_recovering {
            self.grown(mss, acknowledged, position)
        } else if self.recover <= position {
            self.recovered(mss, flight)
        } else {
            self.partly_recovered(mss, acknowledged)
        }
    }

    /// The same where the peer may tell blocks: in a recovery that these guide nothing changes before its end (RFC 6675 5).
    pub fn after_progress(
        &self,
        by_blocks: bool,
        mss: u16,
        acknowledged: u64,
        position: u64,
        flight: u64,
    ) -> Congestion
        ensures { result ≡ spec.after_progress by_blocks mss acknowledged position flight self.now }
    {
        if by_blocks && self.shows_a_loss(position) {
            *self
        } else {
            self.after_acknowledged(mss, acknowledged, position, flight)
        }
    }

    /// Whether an acknowledgement of this position, which tells something new, also tells of the next lost segment
    /// (RFC 6582 3.2, step 3).
    pub fn shows_a_loss(&self, position: u64) -> bool
        ensures { result ≡ spec.shows_a_loss position self.now }
    {
        self.is_recovering && position < self.recover
    }

    /// Whether the next acknowledgement of this position, which tells nothing new, is taken for a loss: it is the third in a
    /// row (RFC 5681 3.2; RFC 6582 3.2, step 2).
    pub fn is_third(&self, position: u64) -> bool
        ensures { result ≡ spec.is_third position self.now }
    {
        !self.is_recovering && self.duplicates == 2 && self.recover < position
    }

    /// What is kept after an acknowledgement of this position that told nothing new, with `flight` octets on their way, and
    /// all before `top` sent (RFC 5681 3.2).
    pub fn after_duplicate(&self, mss: u16, position: u64, flight: u64, top: u64) -> Congestion
        ensures { result ≡ spec.after_duplicate mss position flight top self.now }
    {
        if self.is_third(position) {
            return after_loss(mss, flight.min(self.window), top);
        }
        if self.is_recovering {
            return Congestion {
                window: plus_at_most(LARGEST, self.window, u64::from(mss)),
                ..*self
            };
        }
        Congestion {
            duplicates: plus_at_most(3, self.duplicates, 1),
            ..*self
        }
    }

    /// What is kept once blocks show a loss, with `flight` octets on their way, and all before `top` sent: half of that is the
    /// window of the recovery (RFC 6675 5, step (4.2)).
    pub fn after_loss_told(mss: u16, flight: u64, top: u64) -> Congestion
        ensures { result ≡ spec.after_loss_told mss flight top }
    {
        Congestion {
            window: half_of(mss, flight),
            ..after_loss(mss, flight, top)
        }
    }

    /// What is kept after blocks told more: outside of a recovery it counts as a duplicate (RFC 6675 2).
    pub fn after_more_told(&self) -> Congestion
        ensures { result ≡ spec.after_more_told self.now }
    {
        if self.is_recovering {
            *self
        } else {
            Congestion {
                duplicates: plus_at_most(3, self.duplicates, 1),
                ..*self
            }
        }
    }

    /// What is kept after the time ran out, with `flight` octets on their way, and all before `top` sent. The threshold
    /// stays unless it ran out for the first time (RFC 5681 3.1; RFC 6582 3.2, step 4).
    pub fn after_timeout(&self, is_first: bool, mss: u16, flight: u64, top: u64) -> Congestion
        ensures { result ≡ spec.after_timeout is_first mss flight top self.now }
    {
        Congestion {
            window: u64::from(mss),
            threshold: if is_first {
                half_of(mss, flight)
            } else {
                self.threshold
            },
            credit: 0,
            duplicates: 0,
            recover: top,
            is_recovering: false,
        }
    }

    /// Slow start, and congestion avoidance from the threshold on.
    fn grown(&self, mss: u16, acknowledged: u64, position: u64) -> Congestion
        ensures { result ≡ spec.grown mss acknowledged position self.now }
    {
        if self.window < self.threshold {
            self.started(mss, acknowledged, position)
        } else {
            self.avoided(mss, acknowledged)
        }
    }

    /// Slow start: the window grows by what was acknowledged, up to the threshold (RFC 5681 3.1; RFC 3465 2.3).
    fn started(&self, mss: u16, acknowledged: u64, position: u64) -> Congestion
        ensures { result ≡ spec.started mss acknowledged position self.now }
    {
        let growth = if position < self.recover {
            acknowledged.min(2 * u64::from(mss))
        } else {
            acknowledged
        };
        Congestion {
            window: plus_at_most(self.threshold.min(LARGEST), self.window, growth),
            duplicates: 0,
            ..*self
        }
    }

    /// Congestion avoidance: the window grows by a segment once a whole one was acknowledged (RFC 3465 2.1).
    fn avoided(&self, mss: u16, acknowledged: u64) -> Congestion
        ensures { result ≡ spec.avoided mss acknowledged self.now }
    {
        let credit = plus_at_most(LARGEST, self.credit, acknowledged);
        if credit < self.window {
            return Congestion {
                credit,
                duplicates: 0,
                ..*self
            };
        }
        Congestion {
            window: plus_at_most(LARGEST, self.window, u64::from(mss)),
            credit: credit - self.window,
            duplicates: 0,
            ..*self
        }
    }

    /// The end of recovery.
    fn recovered(&self, mss: u16, flight: u64) -> Congestion
        ensures { result ≡ spec.recovered mss flight self.now }
    {
        let mss = u64::from(mss);
        Congestion {
            window: plus_at_most(self.threshold, flight.max(mss), mss),
            duplicates: 0,
            is_recovering: false,
            ..*self
        }
    }

    /// Recovery goes on after a part of it was acknowledged.
    fn partly_recovered(&self, mss: u16, acknowledged: u64) -> Congestion
        ensures { result ≡ spec.partly_recovered mss acknowledged self.now }
    {
        let mss = u64::from(mss);
        let back = if mss <= acknowledged { mss } else { 0 };
        let left = self.window.saturating_sub(acknowledged);
        Congestion {
            window: plus_at_most(LARGEST, left, back).max(mss),
            ..*self
        }
    }
}

/// How much may be on its way at first (RFC 6928 2).
fn initial_window(mss: u16) -> u64
    ensures { result ≡ spec.initial_window mss }
{
    let mss = u64::from(mss);
    (10 * mss).min((2 * mss).max(14_600))
}

/// Half of what is on its way, two segments at least (RFC 5681 3.1, equation 4).
fn half_of(mss: u16, flight: u64) -> u64
    ensures { result ≡ spec.half_of mss flight }
{
    (flight / 2).max(2 * u64::from(mss))
}

/// What is kept once a loss is noticed (RFC 5681 3.2, steps 2 and 3; RFC 6582 3.2, step 2).
fn after_loss(mss: u16, flight: u64, top: u64) -> Congestion
    ensures { result ≡ spec.after_loss mss flight top }
{
    let half = half_of(mss, flight);
    Congestion {
        window: plus_at_most(LARGEST, half, 3 * u64::from(mss)),
        threshold: half,
        credit: 0,
        duplicates: 3,
        recover: top,
        is_recovering: true,
    }
}
