//! A limit of how much is sent in a time, as challenge acknowledgements (RFC 5961 7) and ICMPv6 errors (RFC 4443 2.4 f)
//! have one: a token bucket.
ghost use Rattle.std.specs.Prelude.{◌≡◌};
ghost use Rattle.net_base.specs.Bucket as spec;
ghost use Rattle.net_base.specs.Bucket.{AfterRest, FewAreTaken};

/// A bucket of tokens. A token comes each interval, as long as fewer are there than the depth.
///
/// In contracts it is its interval and its depth, and the instant from which on it is full if no token is taken.
#[derive(Clone, Copy, Debug, PartialEq, Eq)]
pub struct Bucket {
    /// The time in which a token comes, in microseconds.
    pub interval: u32,
    /// How many tokens it has at most.
    pub depth: u32,
    /// The instant from which on it is full, in microseconds.
    pub full_at: u128,
}

impl Bucket {
    /// A full bucket.
    pub const fn new(interval: u32, depth: u32) -> Bucket
        ensures { result ≡ record { interval = interval; depth = depth; full_at = 0 } }
    {
        Bucket {
            interval,
            depth,
            full_at: 0,
        }
    }

    /// Takes a token at an instant, in microseconds, and returns whether one was there. If none was, nothing changes.
    pub fn take(&mut self, now: u64) -> bool
        ensures taken { result ≡ spec.has_token now self.old }
        ensures bucket { self.new ≡ spec.after_take now self.old }
    {
        let missing = self.full_at.saturating_sub(u128::from(now));
        let interval = u128::from(self.interval);
        let is_there = missing.saturating_add(interval) <= u128::from(self.depth) * interval;
        if is_there {
            self.full_at = self.full_at.max(u128::from(now)) + interval;
        }
        is_there
    }
}

/// Of the instants from a first one to a last one, in whatever order they come, so many get a token at most: as many as the
/// bucket is deep, and one for each interval between the two.
pub fn few_are_taken()
    ensures { FewAreTaken }
{}

/// After a rest a full bucket's tokens are there, all at once.
pub fn after_rest()
    ensures { AfterRest }
{}
