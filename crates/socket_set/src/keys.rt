//! Keys of the indices of a set, by which a walk for a port finds the sockets that it has to look at.
ghost use Rattle.std.specs.Prelude.{◌≡◌, ◌<◌, ◌≤◌, ◌+◌, ◌-◌, ℕ, true, false, slice_set};
ghost use Rattle.socket_set.specs.Details.Keys as spec;
ghost use Rattle.socket_set.specs.Details.Keys.{is_candidate, key_at};

use std::marker::Model;

/// How many indices have a key: the first ones. Nothing is known of those after them.
pub(crate) const KEYED_PLACES: usize = 1_024;

/// The key of an index of which nothing is known.
pub(crate) const UNKNOWN: u16 = 0;

/// The key of sockets whose kind has no ports, and of those that are bound to none.
pub(crate) const WITHOUT_PORT: u16 = u16::MAX;

/// The key of indices without a socket. Any but 0 would be right; hardly anybody listens at port 1.
pub(crate) const NOBODY: u16 = 1;

// How many keys are compared at once.
const ROUND: usize = 8;

/// A key for each index.
///
/// In contracts it is the list of them.
#[derive(Drop)]
pub(crate) struct Keys {
    keys: [u16; KEYED_PLACES],
}

impl Model for Keys {
    ghost use Rattle.std.specs.Prelude.{ℕ, List};

    ghost Value = { List ℕ };

    ghost view = { λ k. k.keys };
}

impl Keys {
    /// Nothing is known of any index.
    #[inline(always)]
    pub(crate) const fn unknown() -> Keys
        ensures { (i : ℕ) → key_at result i ≡ 0 }
    {
        Keys {
            keys: [UNKNOWN; KEYED_PLACES],
        }
    }

    /// Sets the key of an index, if it is one that has a key.
    #[inline(always)]
    pub(crate) fn set(&mut self, index: usize, key: u16)
        ensures { self.new ≡ slice_set self.old index key }
    {
        if index < KEYED_PLACES {
            self.keys[index] = key;
        }
    }

    /// Returns the first index from one on and before an end of which nothing is known, or that has this key; the
    /// end, where there is none.
    #[inline(always)]
    pub(crate) fn next(&self, from: usize, end: usize, key: u16) -> usize
        ensures within { result ≤ end }
        ensures after { from ≤ end → from ≤ result }
        ensures candidate { result < end → is_candidate self.now key result ≡ true }
        ensures passed { (i : ℕ) → from ≤ i → i < result → is_candidate self.now key i ≡ false }
    {
        if from >= end {
            return end;
        }
        if self.is_candidate(from, key) {
            return from;
        }
        let next = from + 1;
        if next >= end {
            return end;
        }
        self.search(next, end, key)
    }

    // The same, for several places.
    #[inline(never)]
    fn search(&self, from: usize, end: usize, key: u16) -> usize
        requires { from ≤ end }
        ensures within { result ≤ end }
        ensures after { from ≤ result }
        ensures candidate { result < end → is_candidate self.now key result ≡ true }
        ensures passed { (i : ℕ) → from ≤ i → i < result → is_candidate self.now key i ≡ false }
    {
        for index in self.pass_rounds(from, end, key)..end {
            if self.is_candidate(index, key) {
                return index;
            }
        }
        end
    }

    // Passes over rounds of places without a candidate. Answers where it stopped.
    #[inline(always)]
    fn pass_rounds(&self, from: usize, end: usize, key: u16) -> usize
        ensures after { from ≤ result }
        ensures passed { (i : ℕ) → from ≤ i → i < result → is_candidate self.now key i ≡ false }
    {
        let mut index = from;
        while index < end && index <= KEYED_PLACES - ROUND && !self.has_candidate(index, key) {
            index += ROUND;
        }
        index
    }

    // Whether a round of places from an index on has a candidate. The least of all keys, and of their differences from
    // the wanted one, is 0 then: a step each, for all of them.
    #[inline(always)]
    fn has_candidate(&self, from: usize, key: u16) -> bool
        requires { from + 8 ≤ 1024 }
        ensures { result ≡ false → (i : ℕ) → from ≤ i → i < from + 8 → is_candidate self.now key i ≡ false }
    {
        let mut least = u16::MAX;
        for at in 0..ROUND {
            let this = self.keys[from + at];
            least = least.min(this).min(this.wrapping_sub(key));
        }
        least == 0
    }

    // Whether nothing is known of a place, or it has this key.
    #[inline(always)]
    fn is_candidate(&self, index: usize, key: u16) -> bool
        ensures { result ≡ is_candidate self.now key index }
    {
        match self.keys.get(index) {
            Some(this) => *this == UNKNOWN || *this == key,
            None => true,
        }
    }
}

/// The key of sockets whose own port is this, or that have none.
#[inline(always)]
pub(crate) fn key_of(port: Option<u16>) -> u16
    ensures { result ≡ spec.key_of port }
{
    match port {
        None | Some(0) => WITHOUT_PORT,
        Some(port) => port,
    }
}
