//! Moments and spans of time, in whole microseconds.
//!
//! An [`Instant`] is a signed number of microseconds since an origin of the caller's choice, a [`Duration`] an unsigned
//! number. In contracts both are their numbers.
ghost use Rattle.std.specs.Prelude.{◌≡◌, ◌*◌, ◌<◌, ◌^◌, min, ℤ, pos, neg_ℤ, ◌*ℤ◌, ◌<ℤ◌, ◌≤ℤ◌};
ghost use Rattle.net_base.specs.Time.{IsMoment};

use std::fmt;
use std::marker::Model;
use std::ops::{Add, Sub};

/// A span of time, in microseconds.
#[derive(Clone, Copy, Debug, PartialEq, Eq, PartialOrd, Ord)]
pub struct Duration {
    /// The number of microseconds.
    pub micros: u64,
}

impl Model for Duration {
    ghost use Rattle.std.specs.Prelude.{ℕ};

    ghost Value = { ℕ };

    ghost view = { λ a. a.micros };

    ghost inverse = { λ d. record { micros = d } };
}

impl Duration {
    /// The empty span.
    pub const ZERO: Duration = Duration { micros: 0 };

    /// A span of this many microseconds.
    pub const fn from_micros(micros: u64) -> Duration
        ensures { result ≡ micros }
    {
        Duration { micros }
    }

    /// A span of this many milliseconds. It must be shorter than 2^64 microseconds.
    pub const fn from_millis(millis: u64) -> Duration
        requires { millis * 1000 < 2 ^ 64 }
        ensures { result ≡ millis * 1000 }
    {
        Duration::from_micros(millis * 1000)
    }

    /// A span of this many seconds. It must be shorter than 2^64 microseconds.
    pub const fn from_secs(secs: u64) -> Duration
        requires { secs * 1000000 < 2 ^ 64 }
        ensures { result ≡ secs * 1000000 }
    {
        Duration::from_micros(secs * 1_000_000)
    }

    /// The number of microseconds of the span.
    pub const fn total_micros(&self) -> u64
        ensures { result ≡ self.now }
    {
        self.micros
    }
}

impl Default for Duration {
    fn default() -> Duration
        ensures { result ≡ 0 }
    {
        Duration::ZERO
    }
}

/// The sum of two spans. It must be shorter than 2^64 microseconds.
impl Add<Duration> for Duration {
    type Output = Duration;

    ghost use Rattle.std.specs.Prelude.{◌≡◌, ◌+◌, ◌<◌, ◌^◌};

    ghost can_add = { λ a b. a + b < 2 ^ 64 };

    ghost add_gives = { λ a b r. r ≡ a + b };

    fn add(self, by: Duration) -> Duration {
        Duration {
            micros: self.micros + by.micros,
        }
    }
}

/// The difference of two spans. The second must not be longer than the first.
impl Sub<Duration> for Duration {
    type Output = Duration;

    ghost use Rattle.std.specs.Prelude.{◌≡◌, ◌-◌, ◌≤◌};

    ghost can_sub = { λ a b. b ≤ a };

    ghost sub_gives = { λ a b r. r ≡ a - b };

    fn sub(self, by: Duration) -> Duration {
        Duration {
            micros: self.micros - by.micros,
        }
    }
}

impl fmt::Display for Duration {
    /// The seconds with three decimals, truncated: 1.500s.
    fn fmt<W: fmt::Write>(&self, f: &mut fmt::Formatter<W>) -> fmt::Result {
        let (secs, millis) = (self.micros / 1_000_000, self.micros / 1000 % 1000);
        write!(f, "{secs}.{millis:03}s")
    }
}

/// A moment, in microseconds since an origin of the caller's choice.
#[derive(Clone, Copy, Debug, PartialEq, Eq, PartialOrd, Ord)]
pub struct Instant {
    /// The number of microseconds.
    pub micros: i64,
}

impl Model for Instant {
    ghost use Rattle.std.specs.Prelude.{ℤ};

    ghost Value = { ℤ };

    ghost view = { λ a. a.micros };

    ghost inverse = { λ d. record { micros = d } };
}

impl Instant {
    /// The origin.
    pub const ZERO: Instant = Instant { micros: 0 };

    /// The moment this many microseconds after the origin.
    pub const fn from_micros(micros: i64) -> Instant
        ensures { result ≡ micros }
    {
        Instant { micros }
    }

    /// The moment this many milliseconds after the origin, or before it if negative. It must be at least -2^63
    /// microseconds and before 2^63.
    pub const fn from_millis(millis: i64) -> Instant
        requires low { neg_ℤ (pos (2 ^ 63)) ≤ℤ (millis *ℤ pos 1000) }
        requires high { (millis *ℤ pos 1000) <ℤ pos (2 ^ 63) }
        ensures { result ≡ millis *ℤ pos 1000 }
    {
        Instant::from_micros(millis * 1000)
    }

    /// The moment this many seconds after the origin, or before it if negative. It must be at least -2^63 microseconds
    /// and before 2^63.
    pub const fn from_secs(secs: i64) -> Instant
        requires low { neg_ℤ (pos (2 ^ 63)) ≤ℤ (secs *ℤ pos 1000000) }
        requires high { (secs *ℤ pos 1000000) <ℤ pos (2 ^ 63) }
        ensures { result ≡ secs *ℤ pos 1000000 }
    {
        Instant::from_micros(secs * 1_000_000)
    }

    /// The moment this many microseconds after the origin, clamped to 2^62, the last moment that calls take. So a clock
    /// that counts from the origin can be passed on: `Instant::from_micros_clamped(start.elapsed().as_micros())`.
    pub const fn from_micros_clamped(micros: u128) -> Instant
        ensures value { result ≡ pos (min micros (2 ^ 62)) }
        ensures moment { IsMoment result }
    {
        if micros < 1 << 62 {
            Instant::from_micros(micros as i64)
        } else {
            Instant::from_micros(1 << 62)
        }
    }

    /// The number of microseconds since the origin.
    pub const fn total_micros(&self) -> i64
        ensures { result ≡ self.now }
    {
        self.micros
    }
}

impl Default for Instant {
    fn default() -> Instant
        ensures { result ≡ pos 0 }
    {
        Instant::ZERO
    }
}

/// The moment a span after another. It must be before 2^63 microseconds.
impl Add<Duration> for Instant {
    type Output = Instant;

    ghost use Rattle.std.specs.Prelude.{◌≡◌, pos, ◌+ℤ◌, ◌<ℤ◌, ◌^◌};

    ghost can_add = { λ t d. (t +ℤ pos d) <ℤ pos (2 ^ 63) };

    ghost add_gives = { λ t d r. r ≡ t +ℤ pos d };

    fn add(self, by: Duration) -> Instant {
        Instant {
            micros: (i128::from(self.micros) + i128::from(by.micros)) as i64,
        }
    }
}

/// The span since another moment, which must not be the later of the two.
impl Sub<Instant> for Instant {
    type Output = Duration;

    ghost use Rattle.std.specs.Prelude.{◌≡◌, pos, ◌+ℤ◌, ◌≤ℤ◌};

    ghost can_sub = { λ t s. s ≤ℤ t };

    ghost sub_gives = { λ t s r. s +ℤ pos r ≡ t };

    fn sub(self, since: Instant) -> Duration {
        Duration {
            micros: self.micros.abs_diff(since.micros),
        }
    }
}

impl fmt::Display for Instant {
    /// The seconds since the origin with three decimals, truncated: 1.500s. A moment before the origin has a sign:
    /// -0.250s.
    fn fmt<W: fmt::Write>(&self, f: &mut fmt::Formatter<W>) -> fmt::Result {
        let sign = if self.micros < 0 { "-" } else { "" };
        let distance = Duration::from_micros(self.micros.unsigned_abs());
        write!(f, "{sign}{distance}")
    }
}
