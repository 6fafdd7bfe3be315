//! What the peer's selective acknowledgements told (RFC 2018 5; RFC 6675 3, 4).
ghost use Rattle.std.specs.Prelude.{◌≡◌, ◌≤◌, []};
ghost use Rattle.tcp_machine.specs.Scoreboard as spec;

use net_base::assembler::{Assembler, Range};
use std::marker::Model;

/// Octets are counted up to here: a window of RFC 7323 has less.
const MOST_COUNTED: u64 = 1 << 30;

/// The ranges of positions that arrived at the peer, in order and apart, four at most. Where a block was told, the first has
/// all before the first unacknowledged position; where none is, there is no range, and nothing costs anything.
///
/// In contracts it is the list of these ranges.
#[derive(Drop)]
pub struct Scoreboard {
    told: Assembler,
}

impl Model for Scoreboard {
    ghost use Rattle.std.specs.Prelude.{List};
    ghost use Rattle.net_base.specs.declared.assembler.Range.{Range};

    ghost Value = { List Range };

    ghost view = { λ s. s.told };
}

impl Scoreboard {
    /// Nothing is told.
    pub fn new() -> Scoreboard
        ensures { result ≡ [] }
    {
        Scoreboard {
            told: Assembler::new(),
        }
    }

    /// What was told is forgotten (RFC 2018 8).
    pub fn forget(&mut self)
        ensures { self.new ≡ [] }
    {
        self.told.clear();
    }

    /// Whether nothing is told.
    #[inline(always)]
    pub fn is_empty(&self) -> bool
        ensures { result ≡ spec.is_empty self.now }
    {
        self.told.ranges().is_empty()
    }

    /// All before a position is acknowledged.
    pub fn acknowledge(&mut self, position: u64)
        ensures { self.new ≡ spec.after_acknowledged position self.old }
    {
        if self.told.ranges().is_empty() {
            return;
        }
        self.put(0, position);
        if self.told.ranges().len() < 2 {
            self.told.clear();
        }
    }

    /// A block is told, by its two positions. It counts where it lies between the first unacknowledged position and the one
    /// after all that was sent, and finds room; else nothing is told by it.
    pub fn tell(&mut self, una: u64, top: u64, left: Option<u64>, right: Option<u64>)
        ensures { self.new ≡ spec.after_block una top left right self.old }
    {
        if let (Some(left), Some(right)) = (left, right) {
            if una < left && left < right && right <= top {
                self.put(0, una);
                self.put(left, right);
            }
        }
    }

    // Positions arrived, unless that needs a fifth range.
    fn put(&mut self, start: u64, end: u64)
        requires { start ≤ end }
        ensures { self.new ≡ spec.with_arrived start end self.old }
    {
        let _ = self.told.add(start as usize, (end - start) as usize);
    }

    /// How many octets are told between two positions, counted up to 2^30.
    pub fn told_between(&self, from: u64, to: u64) -> u64
        ensures value { result ≡ spec.told_between from to self.now }
        ensures few { result ≤ 1073741824 }
    {
        told_between(from, to, self.told.ranges())
    }

    /// Whether a position that isn't told is lost (RFC 6675 4, IsLost).
    pub fn is_lost(&self, mss: u16, position: u64) -> bool
        ensures { result ≡ spec.is_lost mss position self.now }
    {
        show_lost(mss, above(position, self.told.ranges()))
    }

    /// The first position from one on that isn't told.
    pub fn hole_from(&self, position: u64) -> u64
        ensures { result ≡ spec.hole_from position self.now }
    {
        hole_from(position, self.told.ranges())
    }

    /// Where a hole ends: the first position above it that is told, or `otherwise` where none is.
    pub fn end_of_hole(&self, position: u64, otherwise: u64) -> u64
        ensures { result ≡ spec.start_of otherwise (spec.above position self.now) }
    {
        let above = above(position, self.told.ranges());
        if above.is_empty() {
            otherwise
        } else {
            above[0].start as u64
        }
    }

    /// How many octets from a position on are lost, counted up to 2^30.
    pub fn lost_from(&self, mss: u16, position: u64) -> u64
        ensures value { result ≡ spec.lost_from mss position self.now }
        ensures few { result ≤ 1073741824 }
    {
        lost_from(mss, position, self.told.ranges())
    }
}

// A sum, counted up to 2^30.
fn counted(a: u64, b: u64) -> u64
    ensures { result ≡ spec.counted a b }
{
    a.saturating_add(b).min(MOST_COUNTED)
}

// The octets of ranges.
#[tactic(auto, using(crate::proofs::ScoreboardLemmas::octets_alone))]
fn octets_in(ranges: &[Range]) -> u64
    ensures value { result ≡ spec.octets_in ranges.now }
    ensures few { result ≤ 1073741824 }
{
    let mut total = 0;
    for range in ranges {
        total = counted(total, (range.end as u64).saturating_sub(range.start as u64));
    }
    total
}

// The octets of ranges between two positions.
#[tactic(auto, using(crate::proofs::ScoreboardLemmas::told_alone))]
fn told_between(from: u64, to: u64, ranges: &[Range]) -> u64
    ensures value { result ≡ spec.told_between from to ranges.now }
    ensures few { result ≤ 1073741824 }
{
    let mut total = 0;
    for range in ranges {
        let end = (range.end as u64).min(to);
        total = counted(total, end.saturating_sub((range.start as u64).max(from)));
    }
    total
}

// The ranges above a position.
fn above(position: u64, ranges: &[Range]) -> &[Range]
    ensures { result.now ≡ spec.above position ranges.now }
{
    for (i, range) in ranges.iter().enumerate() {
        if position < range.start as u64 {
            return &ranges[i..];
        }
    }
    &[]
}

// Whether these ranges say that what lies below them is lost.
fn show_lost(mss: u16, ranges: &[Range]) -> bool
    ensures { result ≡ spec.show_lost mss ranges.now }
{
    3 <= ranges.len() || 2 * u64::from(mss) < octets_in(ranges)
}

// The first position from one on that isn't in ranges.
fn hole_from(position: u64, ranges: &[Range]) -> u64
    ensures { result ≡ spec.hole_from position ranges.now }
{
    for range in ranges {
        if range.start as u64 <= position && position < range.end as u64 {
            return range.end as u64;
        }
    }
    position
}

// The octets from a position on that are lost, by these ranges.
#[tactic(auto, using(crate::proofs::ScoreboardLemmas::lost_alone))]
fn lost_from(mss: u16, position: u64, ranges: &[Range]) -> u64
    ensures value { result ≡ spec.lost_from mss position ranges.now }
    ensures few { result ≤ 1073741824 }
{
    let mut total = 0;
    for (i, range) in ranges.iter().enumerate() {
        total = counted(
            total,
            lost_before(mss, position, range.end as u64, &ranges[i + 1..]),
        );
    }
    total
}

// The octets of the hole after `end`, and from a position on, if those above it say that it is lost.
fn lost_before(mss: u16, position: u64, end: u64, above: &[Range]) -> u64
    ensures { result ≡ spec.lost_below mss position end above.now }
{
    if above.is_empty() || !show_lost(mss, above) {
        return 0;
    }
    (above[0].start as u64).saturating_sub(position.max(end))
}
