//! How long an acknowledgement is waited for (RFC 6298).
ghost use Rattle.std.specs.Prelude.{◌≡◌, ◌+◌, ◌/◌, min};
ghost use Rattle.tcp_machine.specs.Estimator as spec;

/// The longest retransmission time-out, in microseconds (RFC 6298 2.5).
const LONGEST_TIMEOUT: u64 = 60_000_000;

/// The retransmission time-out before the first measurement, in microseconds (RFC 6298 2.1).
pub const FIRST_TIMEOUT: u64 = 1_000_000;

/// The granularity G of the clock, in microseconds (RFC 6298 2).
const GRANULARITY: u64 = 1_000;

/// SRTT and RTTVAR, in microseconds (RFC 6298 2).
#[derive(Clone, Copy, Debug, PartialEq, Eq)]
pub struct RoundTrip {
    pub smoothed: u64,
    pub variation: u64,
}

/// What is known of the round trip, and the retransmission time-out.
#[derive(Clone, Copy, Debug, PartialEq, Eq)]
pub struct Estimator {
    /// SRTT and RTTVAR, or `None` before the first measurement.
    pub round_trip: Option<RoundTrip>,
    /// RTO, in microseconds, as often doubled as it ran out.
    pub timeout: u64,
}

impl Estimator {
    /// Before any measurement the time-out is 1 s (RFC 6298 2.1).
    pub const fn new() -> Estimator
        ensures { result ≡ spec.new_estimator }
    {
        Estimator {
            round_trip: None,
            timeout: FIRST_TIMEOUT,
        }
    }

    /// The estimator after a segment that was sent once was acknowledged after `sample` microseconds (RFC 6298 2.2, 2.3).
    /// The time-out is from `shortest` to 60 s.
    pub fn after_sample(&self, shortest: u64, sample: u64) -> Estimator
        ensures { result ≡ spec.after_sample shortest sample self.now }
    {
        let round_trip = measured(sample, self.round_trip);
        Estimator {
            round_trip: Some(round_trip),
            timeout: timeout_for(shortest, &round_trip),
        }
    }

    /// The estimator after the time ran out: the time-out is doubled, up to 60 s (RFC 6298 5.5).
    pub fn after_timeout(&self) -> Estimator
        ensures { result ≡ spec.after_timeout self.now }
    {
        Estimator {
            round_trip: self.round_trip,
            timeout: plus_at_most(LONGEST_TIMEOUT, self.timeout, self.timeout),
        }
    }

    /// The estimator with the time-out as it was measured last, whatever it was doubled since; before any measurement it stays.
    pub fn without_doubling(&self, shortest: u64) -> Estimator
        ensures { result ≡ spec.without_doubling shortest self.now }
    {
        Estimator {
            round_trip: self.round_trip,
            timeout: match &self.round_trip {
                None => self.timeout,
                Some(round_trip) => timeout_for(shortest, round_trip),
            },
        }
    }
}

/// SRTT and RTTVAR after a measurement.
fn measured(sample: u64, round_trip: Option<RoundTrip>) -> RoundTrip
    ensures { result ≡ spec.after_measurement sample round_trip }
{
    match round_trip {
        None => RoundTrip {
            smoothed: sample,
            variation: sample / 2,
        },
        Some(old) => RoundTrip {
            smoothed: ((7 * u128::from(old.smoothed) + u128::from(sample)) / 8) as u64,
            variation: ((3 * u128::from(old.variation) + u128::from(old.smoothed.abs_diff(sample)))
                / 4) as u64,
        },
    }
}

/// The time-out for SRTT and RTTVAR.
fn timeout_for(shortest: u64, round_trip: &RoundTrip) -> u64
    ensures { result ≡ spec.timeout_for shortest round_trip.now }
{
    let margin = (4 * u128::from(round_trip.variation)).max(u128::from(GRANULARITY));
    let timeout = u128::from(round_trip.smoothed) + margin;
    timeout
        .max(u128::from(shortest))
        .min(u128::from(LONGEST_TIMEOUT)) as u64
}

/// A sum, or a limit if it is more.
pub(crate) fn plus_at_most(limit: u64, a: u64, b: u64) -> u64
    ensures { result ≡ min limit (a + b) }
{
    match a.checked_add(b) {
        Some(sum) => sum.min(limit),
        None => limit,
    }
}
