//! Lines of input.

use anyhow::{Context, Result, bail};
use std::alloc::Global;

/// What a line tells: that it is this moment, in microseconds, and maybe a frame that comes then.
#[derive(Drop)]
pub struct Line {
    pub micros: u64,
    pub frame: Option<Vec<u8>>,
}

impl Line {
    /// Reads `MOMENT` or `MOMENT FRAME`. Fails if the moment is no number below 2^64, if the frame isn't in hexadecimal, if
    /// there is a third word, or if the memory is refused.
    pub fn read(alloc: Global, text: &str) -> Result<Line> {
        let mut words = text.split_whitespace();
        let micros = words.next().context("a moment is missing")?.parse::<u64>()?;
        let frame = match words.next() {
            Some(word) => Some(hex::decode(alloc, word)?),
            None => None,
        };
        if words.next().is_some() {
            bail!("a line has a moment and at most one frame");
        }
        Ok(Line { micros, frame })
    }
}
