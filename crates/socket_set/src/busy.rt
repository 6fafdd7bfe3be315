//! Marks of the indices of a set whose sockets may be busy, so that a walk over the busy ones skips 64 others at
//! once.
ghost use Rattle.std.specs.Prelude.{◌≡◌, ◌≢◌, ◌<◌, ◌≤◌, ◌*◌, ◌↔◌, ℕ, min};
ghost use Rattle.socket_set.specs.Details.Busy.{IsClear};

use std::marker::Model;

/// How many indices have a mark: the first ones. Those after them always count as busy.
pub(crate) const MARKED_PLACES: usize = 1_024;

// How many places share a word.
const WORD_PLACES: usize = 64;

// How many words there are.
const WORDS: usize = 16;

/// A mark for each index, set where its socket may be busy.
///
/// In contracts it is the words of the marks.
#[derive(Drop)]
pub(crate) struct BusyMarks {
    words: [u64; WORDS],
}

impl Model for BusyMarks {
    ghost use Rattle.std.specs.Prelude.{ℕ, List};

    ghost Value = { List ℕ };

    ghost view = { λ m. m.words };
}

impl BusyMarks {
    /// The socket at every index may be busy.
    pub(crate) fn all() -> BusyMarks
        ensures { (i : ℕ) → IsClear result i → ⊥ }
    {
        BusyMarks {
            words: [u64::MAX; WORDS],
        }
    }

    /// Sets the mark of an index: its socket may be busy. The others keep their marks.
    #[inline(always)]
    pub(crate) fn set(&mut self, index: usize)
        ensures marked { IsClear self.new index → ⊥ }
        ensures others { (i : ℕ) → i ≢ index → IsClear self.new i ↔ IsClear self.old i }
    {
        if index < MARKED_PLACES {
            self.words[index / WORD_PLACES] |= 1 << (index % WORD_PLACES);
        }
    }

    /// Clears the mark of an index, if it has one. The others keep theirs.
    #[inline(always)]
    pub(crate) fn clear(&mut self, index: usize)
        ensures cleared { index < 1024 → IsClear self.new index }
        ensures others { (i : ℕ) → i ≢ index → IsClear self.new i ↔ IsClear self.old i }
    {
        if index < MARKED_PLACES {
            self.words[index / WORD_PLACES] &= !(1 << (index % WORD_PLACES));
        }
    }

    /// Returns the first index from one on and before an end whose socket may be busy; the end, where there is none.
    #[inline(always)]
    pub(crate) fn next(&self, from: usize, end: usize) -> usize
        ensures within { result ≤ end }
        ensures after { from ≤ end → from ≤ result }
        ensures busy { result < end → IsClear self.now result → ⊥ }
        ensures passed { (i : ℕ) → from ≤ i → i < result → IsClear self.now i }
    {
        if from >= MARKED_PLACES {
            return from.min(end);
        }
        let word = self.words[from / WORD_PLACES] >> (from % WORD_PLACES);
        if word != 0 {
            return end.min(from + word.trailing_zeros() as usize);
        }
        self.next_word(from / WORD_PLACES + 1, end)
    }

    // The first place from a word on and before an end that may be busy; the end, where there is none.
    fn next_word(&self, from: usize, end: usize) -> usize
        requires { from ≤ 16 }
        ensures within { result ≤ end }
        ensures after { min end (64 * from) ≤ result }
        ensures busy { result < end → IsClear self.now result → ⊥ }
        ensures passed { (i : ℕ) → 64 * from ≤ i → i < result → IsClear self.now i }
    {
        for at in from..WORDS.min(end / WORD_PLACES + 1) {
            let word = self.words[at];
            if word != 0 {
                return end.min(WORD_PLACES * at + word.trailing_zeros() as usize);
            }
        }
        MARKED_PLACES.min(end)
    }
}
