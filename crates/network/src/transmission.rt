//! What hosts have sent.
ghost use Rattle.std.specs.Prelude.{◌<◌, ◌+◌, ◌^◌};
ghost use Rattle.std.specs.VecDeque.{deque_len};

use std::alloc::{AllocError, Global};
use std::collections::VecDeque;

/// The frames that a host sent in one call, in order.
#[derive(Drop)]
pub struct Transmission {
    /// The number of the host, from 0.
    pub from: usize,
    /// The frames, of at most 1,514 octets each.
    pub frames: Vec<Vec<u8>>,
}

/// Transmissions, numbered in order from 0. The first ones may be forgotten.
#[derive(Drop)]
pub struct Kept {
    /// How many were forgotten.
    pub(crate) forgotten: usize,
    /// The others, in order.
    pub(crate) transmissions: VecDeque<Transmission>,
    ghost numbered: { forgotten + deque_len transmissions < 2 ^ 64 },
}

impl Kept {
    ghost use Rattle.std.specs.Prelude.{◌≡◌, ◌∷◌, ◌≤◌, [], drop, length, map, min, Some, None, OnOk, MatchOption};
    ghost use Rattle.std.specs.VecDeque.{deque_capacity};
    ghost use Rattle.network.specs.Kept.{frame_of, kept_at, sent_of, wire_of, wire_with};

    /// Nothing was sent. It allocates nothing.
    pub fn new(alloc: Global) -> Kept
        ensures forgotten { result.forgotten ≡ 0 }
        ensures wire { wire_of result ≡ [] }
    {
        Kept {
            forgotten: 0,
            transmissions: VecDeque::new(alloc),
        }
    }

    /// The number of the next transmission.
    pub fn next_number(&self) -> usize
        ensures { result ≡ self.now.forgotten + length (wire_of self.now) }
    {
        self.forgotten + self.transmissions.len()
    }

    /// A transmission by its number. `None` if there is none yet, or if it was forgotten.
    pub fn transmission(&self, number: usize) -> Option<&Transmission>
        ensures { MatchOption result (kept_at self.now.forgotten (wire_of self.now) number ≡ None)
            (λ t. kept_at self.now.forgotten (wire_of self.now) number ≡ Some (sent_of t.now)) }
    {
        if number < self.forgotten {
            return None;
        }
        self.transmissions.get(number - self.forgotten)
    }

    /// A frame by the number of its transmission and its own number there, from 0. `None` if there is none.
    pub fn frame(&self, number: usize, k: usize) -> Option<&[u8]>
        ensures { MatchOption result (frame_of (kept_at self.now.forgotten (wire_of self.now) number) k ≡ None)
            (λ frame. frame_of (kept_at self.now.forgotten (wire_of self.now) number) k ≡ Some frame.now) }
    {
        let frame = self.transmission(number)?.frames.get(k)?;
        Some(frame.as_slice())
    }

    /// Reserves room for one more transmission. Fails if memory for it is refused, or if no number is left for it.
    pub(crate) fn reserve(&mut self) -> Result<(), AllocError>
        ensures forgotten { self.new.forgotten ≡ self.old.forgotten }
        ensures same { self.new.transmissions.items ≡ self.old.transmissions.items }
        ensures room { OnOk result (deque_len self.new.transmissions < deque_capacity self.new.transmissions) }
        ensures number { OnOk result (self.new.forgotten + deque_len self.new.transmissions + 1 < 2 ^ 64) }
    {
        if self.transmissions.len() >= usize::MAX - self.forgotten {
            return Err(AllocError);
        }
        self.transmissions.reserve(1)
    }

    /// Keeps what a host sent, unless it is nothing.
    pub(crate) fn keep(&mut self, from: usize, frames: Vec<Vec<u8>>)
        requires room { deque_len self.old.transmissions < deque_capacity self.old.transmissions }
        requires number { self.old.forgotten + deque_len self.old.transmissions + 1 < 2 ^ 64 }
        ensures forgotten { self.new.forgotten ≡ self.old.forgotten }
        ensures kept { wire_of self.new ≡ wire_with from (map (λ v. v.items) frames.items) (wire_of self.old) }
    {
        if !frames.is_empty() {
            self.transmissions
                .push_back_reserved(Transmission { from, frames });
        }
    }

    /// Forgets the first `count` transmissions, or all if they are fewer. Those that stay keep their numbers. It
    /// allocates nothing.
    pub(crate) fn forget(&mut self, count: usize)
        ensures forgotten { self.new.forgotten ≡ self.old.forgotten + min count (length (wire_of self.old)) }
        ensures rest { wire_of self.new ≡ drop (min count (length (wire_of self.old))) (wire_of self.old) }
    {
        let count = count.min(self.transmissions.len());
        for _ in 0..count {
            self.transmissions.pop_front();
        }
        self.forgotten += count;
    }
}
