//! How many copies of each kept transmission are still to arrive.

use anyhow::Result;
use std::alloc::Global;
use std::collections::VecDeque;

/// The numbers of copies, from the first transmission that is kept on.
#[derive(Drop)]
pub struct Pending {
    first: usize,
    counts: VecDeque<usize>,
}

impl Pending {
    /// No transmission is kept, and the next has number 0.
    pub fn new(alloc: Global) -> Pending {
        Pending {
            first: 0,
            counts: VecDeque::new(alloc),
        }
    }

    /// So many copies of the next transmission are to arrive.
    pub fn add(&mut self, copies: usize) -> Result<()> {
        self.counts.push_back(copies)?;
        Ok(())
    }

    /// One copy of a transmission has arrived.
    pub fn arrived(&mut self, number: usize) {
        if let Some(count) = self.counts.get_mut(number.saturating_sub(self.first)) {
            *count = count.saturating_sub(1);
        }
    }

    /// Drops the first transmissions of which no copy is to arrive, and returns how many they were.
    pub fn take_done(&mut self) -> usize {
        let mut done = 0_usize;
        for _ in 0..self.counts.len() {
            if self.counts.front().copied() != Some(0) {
                break;
            }
            self.counts.pop_front();
            done = done.saturating_add(1);
        }
        self.first = self.first.saturating_add(done);
        done
    }
}
