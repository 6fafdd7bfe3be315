//! What the link does with copies of frames, drawn from a seed.

use net_base::rand::Rand;
use simulation_script::script::Treatment;

/// How a copy of a frame comes to a host.
#[derive(Clone, Copy, PartialEq, Eq, PartialOrd, Ord)]
pub struct Passage {
    /// The number of the host.
    pub to: usize,
    /// The number of the bit that is changed on the way, if one is.
    pub changed: Option<u64>,
    /// Whether the copy is a second one.
    pub is_second: bool,
}

/// A copy that arrives, and how long it takes, in microseconds.
#[derive(Clone, Copy)]
pub struct Arrival {
    /// How long it takes.
    pub delay: u64,
    /// How it comes.
    pub passage: Passage,
}

/// What becomes of a copy of a frame.
#[derive(Clone, Copy)]
pub struct Fate {
    /// Its arrival; `None` if it is lost.
    pub first: Option<Arrival>,
    /// That of a second one, if it is repeated.
    pub second: Option<Arrival>,
}

impl Fate {
    /// It is lost.
    pub const LOST: Fate = Fate {
        first: None,
        second: None,
    };

    /// How many copies arrive.
    pub fn count(&self) -> usize {
        match (self.first, self.second) {
            (None, None) => 0,
            (Some(_), Some(_)) => 2,
            _ => 1,
        }
    }
}

/// The link.
#[derive(Drop)]
pub struct Link {
    rand: Rand,
}

impl Link {
    /// A link with this seed.
    pub fn new(seed: u64) -> Link {
        Link {
            rand: Rand::new(seed),
        }
    }

    /// Draws what becomes of a copy of a frame of so many octets on its way to a host.
    pub fn draw(&mut self, treatment: &Treatment, to: usize, len: usize) -> Fate {
        if self.happens(treatment.loss) {
            return Fate::LOST;
        }
        let delay = self.delay(treatment);
        let is_repeated = self.happens(treatment.repeat);
        let second_delay = if is_repeated {
            self.delay(treatment)
        } else {
            0
        };
        let first = self.arrival(treatment, to, len, delay, false);
        let second = if is_repeated {
            Some(self.arrival(treatment, to, len, second_delay, true))
        } else {
            None
        };
        Fate {
            first: Some(first),
            second,
        }
    }

    /// The arrival of a copy. Whether a bit is changed, and which, is drawn.
    fn arrival(
        &mut self,
        treatment: &Treatment,
        to: usize,
        len: usize,
        delay: u64,
        is_second: bool,
    ) -> Arrival {
        let changed = if self.happens(treatment.change) {
            let bits = (len as u64).saturating_mul(8);
            Some(self.up_to(bits.saturating_sub(1)))
        } else {
            None
        };
        Arrival {
            delay,
            passage: Passage {
                to,
                changed,
                is_second,
            },
        }
    }

    /// Draws whether something happens that has this chance per mille. What can't happen draws nothing.
    fn happens(&mut self, chance: u64) -> bool {
        chance != 0 && self.up_to(999) < chance
    }

    /// Draws a delay.
    fn delay(&mut self, treatment: &Treatment) -> u64 {
        let span = treatment.most.saturating_sub(treatment.least);
        let mut delay = treatment.least.saturating_add(self.up_to(span));
        if self.happens(treatment.reorder) {
            delay = delay.saturating_add(self.up_to(treatment.hold));
        }
        delay
    }

    /// Draws a number from 0 to `most`. From 0 alone it draws nothing.
    pub fn up_to(&mut self, most: u64) -> u64 {
        if most == 0 {
            return 0;
        }
        let high = u64::from(self.rand.rand_u32());
        let low = u64::from(self.rand.rand_u32());
        ((high << 32) | low) % most.saturating_add(1).max(1)
    }
}
