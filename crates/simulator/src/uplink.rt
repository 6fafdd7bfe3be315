//! How frames leave a host, one after another.

use anyhow::Result;
use simulation_script::script::Rate;
use std::alloc::Global;
use std::collections::VecDeque;

/// What leaves a host at a rate.
#[derive(Drop)]
pub struct Uplink {
    // When each frame that is leaving or waits will have left, the first one first.
    left_at: VecDeque<u64>,
}

impl Uplink {
    /// Nothing is leaving.
    pub fn new(alloc: Global) -> Uplink {
        Uplink {
            left_at: VecDeque::new(alloc),
        }
    }

    /// A frame of so many octets is sent at a time. Returns how long it takes to leave, in microseconds; `None` if it is
    /// dropped, as more frames wait than may.
    pub fn send(&mut self, rate: &Rate, now: u64, len: usize) -> Result<Option<u64>> {
        self.forget(now);
        if self.left_at.len() as u64 > rate.frames {
            return Ok(None);
        }
        let start = match self.left_at.back() {
            Some(time) => now.max(*time),
            None => now,
        };
        let bits = (len as u64).saturating_mul(8);
        let time = start.saturating_add(bits.saturating_mul(1_000) / rate.kilobits.max(1));
        self.left_at.push_back(time)?;
        Ok(Some(time.saturating_sub(now)))
    }

    /// Forgets the frames that have left.
    fn forget(&mut self, now: u64) {
        for _ in 0..self.left_at.len() {
            match self.left_at.front() {
                Some(time) if *time <= now => {}
                _ => break,
            }
            self.left_at.pop_front();
        }
    }
}
