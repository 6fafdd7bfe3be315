//! How much a host is to hold.
ghost use Rattle.std.specs.Prelude.{◌≤◌, ◌^◌, IfOk};

use anyhow::{Result, bail};
use std::env::{self, Env};

/// How many connections a host may have at once, and how many octets each may hold, each way.
#[derive(Clone, Copy, Debug)]
pub struct Limits {
    pub places: usize,
    pub room: usize,
    ghost some: { 1 ≤ places },
    ghost few: { places ≤ 2 ^ 30 },
    ghost short: { room ≤ 2 ^ 30 },
}

impl Limits {
    /// What the words after the program's name say: `PLACES`, from 1 to 65,536, and `OCTETS`, from 1,024 to 1,048,576.
    /// Without them it is 512 connections, each with 65,535 octets each way.
    pub fn of_arguments<R: Env + AllocGlobal>(rt: &R) -> Result<Limits> {
        let mut words = env::args(rt)?.skip(1);
        let places = match words.next() {
            Some(word) => number(word.as_str(), 1, 65_536)?,
            None => 512,
        };
        let room = match words.next() {
            Some(word) => number(word.as_str(), 1_024, 1_048_576)?,
            None => 65_535,
        };
        Ok(Limits { places, room })
    }
}

/// A word as a number between two others.
fn number(word: &str, least: usize, most: usize) -> Result<usize>
    ensures least { IfOk result (λ n. least ≤ n) }
    ensures most { IfOk result (λ n. n ≤ most) }
{
    match word.parse::<usize>() {
        Ok(number) if least <= number && number <= most => Ok(number),
        _ => bail!("{word} is no number from {least} to {most}"),
    }
}
