//! Random words, for values that need not be secret: the first identification and delays.
ghost use Rattle.std.specs.Prelude.{◌≡◌, ◌/◌, ◌^◌};
ghost use Rattle.net_base.specs.Rand.{next};

use std::marker::Model;

/// A source of random words; in contracts it is its state.
#[derive(Clone, Copy, Debug, PartialEq, Eq)]
pub struct Rand {
    state: u64,
}

impl Model for Rand {
    ghost use Rattle.std.specs.Prelude.{ℕ};

    ghost Value = { ℕ };

    ghost view = { λ r. r.state };

    ghost inverse = { λ s. record { state = s } };
}

impl Rand {
    /// A source that starts from a seed.
    pub const fn new(seed: u64) -> Rand
        ensures { result ≡ seed }
    {
        Rand { state: seed }
    }

    /// Draws the next 32-bit word: the top bits of the state after one step.
    pub fn rand_u32(&mut self) -> u32
        ensures state { self.new ≡ next self.old }
        ensures word { result ≡ next self.old / 2 ^ 32 }
    {
        self.step();
        (self.state >> 32) as u32
    }

    /// Draws the next 16-bit word: the top bits of the state after one step.
    pub fn rand_u16(&mut self) -> u16
        ensures state { self.new ≡ next self.old }
        ensures word { result ≡ next self.old / 2 ^ 48 }
    {
        self.step();
        (self.state >> 48) as u16
    }

    // One step of the generator.
    fn step(&mut self)
        ensures { self.new ≡ next self.old }
    {
        self.state = self
            .state
            .wrapping_mul(6_364_136_223_846_793_005)
            .wrapping_add(1_442_695_040_888_963_407);
    }
}
