//! Sets of covered offsets, such as those of the octets received of a datagram (RFC 791 3.2).
ghost use Rattle.std.specs.Prelude.{◌≡◌, ◌↔◌, ◌≤◌, ◌<◌, ◌+◌, ℕ, ◌^◌, [], ◌∷◌, ◌++◌, IsTrue};
ghost use Rattle.std.specs.Prelude.{false, true, IsOk, IsErr, IfOk, OnOk, OnErr, length, List};
ghost use Rattle.std.specs.Prelude.{insert, remove, slice_index_or};
ghost use Rattle.net_base.specs.Details.RangesLaws.{FifthTouchesNone};
ghost use Rattle.net_base.specs.Ranges.{add_range, front, AreSeparate, range_union};
ghost use Rattle.net_base.specs.Ranges.{places_before, IsMet, IsApart, IsUnion};

use arrayvec::ArrayVec;
use std::marker::Model;
use thiserror::Error;

/// The maximum number of separate ranges in an [`Assembler`].
pub const ASSEMBLER_MAX_SEGMENT_COUNT: usize = 4;

/// The set would need a fifth range.
#[derive(Clone, Copy, Debug, PartialEq, Eq, Error)]
#[error("TooManyHolesError")]
pub struct TooManyHolesError;

/// The offsets from `start` up to, but not including, `end`.
#[derive(Clone, Copy, Debug, PartialEq, Eq)]
pub struct Range {
    pub start: usize,
    pub end: usize,
}

impl Default for Range {
    fn default() -> Range
        ensures { result ≡ record { start = 0; end = 0 } }
    {
        Range { start: 0, end: 0 }
    }
}

/// A set of covered offsets that consists of at most four separate ranges.
///
/// In contracts it is the list of these ranges in order. None is empty, and between two of them there is an offset that
/// is not covered.
#[derive(Drop)]
pub struct Assembler {
    ranges: ArrayVec<Range, ASSEMBLER_MAX_SEGMENT_COUNT>,
}

impl Model for Assembler {
    ghost use Rattle.std.specs.Prelude.{List, length, ◌≤◌};
    ghost use Rattle.net_base.specs.declared.assembler.Range.{Range};
    ghost use Rattle.net_base.specs.Ranges.{AreSeparate};

    ghost Value = { List Range };

    ghost view = { λ a. a.ranges.items };

    ghost invariant = { λ a. AreSeparate 0 a.ranges.items × (length a.ranges.items ≤ 4) };
}

impl Assembler {
    /// The empty set.
    pub fn new() -> Assembler
        ensures { result ≡ [] }
    {
        Assembler {
            ranges: ArrayVec::new(),
        }
    }

    /// Uncovers all offsets.
    pub fn clear(&mut self)
        ensures { self.new ≡ [] }
    {
        // Mostly there is one range, and then no call is needed to blank it.
        if self.ranges.len() == 1 {
            self.ranges.pop();
        } else {
            self.ranges.clear();
        }
    }

    /// The ranges, in order.
    pub fn ranges(&self) -> &[Range]
        ensures value { result.now ≡ self.now }
        ensures few { length result.now ≤ 4 }
    {
        self.ranges.as_slice()
    }

    /// The number of offsets covered from 0 on, up to the first that isn't.
    pub fn peek_front(&self) -> usize
        ensures { result ≡ front self.now }
    {
        if !self.ranges.is_empty() && self.ranges[0].start == 0 {
            self.ranges[0].end
        } else {
            0
        }
    }

    /// Covers `len` offsets from `offset` on. Their end must be below 2^64.
    ///
    /// Fails if there are four ranges and this one neither overlaps nor touches any of them; then nothing changes. A
    /// `len` of 0 never fails, and changes nothing.
    pub fn add(&mut self, offset: usize, len: usize) -> Result<(), TooManyHolesError>
        requires { offset + len < 2 ^ 64 }
        ensures refused { IsErr result ↔ (4 < length (add_range offset (offset + len) self.old)) }
        ensures ok { OnOk result (self.new ≡ add_range offset (offset + len) self.old) }
        ensures err { OnErr result (self.new ≡ self.old) }
        ensures few { length self.old ≤ 4 }
        ensures added { IsUnion self.old (add_range offset (offset + len) self.old) offset (offset + len) }
    {
        let _ = &self.ranges;
        if len == 0 {
            return Ok(());
        }
        include(&mut self.ranges, offset, offset + len)
    }
}

// Adds a range that is not empty to separate ranges.
#[inline(always)]
fn include(
    ranges: &mut ArrayVec<Range, ASSEMBLER_MAX_SEGMENT_COUNT>,
    start: usize,
    end: usize,
) -> Result<(), TooManyHolesError>
    requires order { start < end }
    requires separate { AreSeparate 0 ranges.old.items }
    requires few { length ranges.old.items ≤ 4 }
    ensures refused { IsErr result ↔ (4 < length (add_range start end ranges.old.items)) }
    ensures ok { OnOk result (ranges.new.items ≡ add_range start end ranges.old.items) }
    ensures err { OnErr result (ranges.new ≡ ranges.old) }
{
    if is_appended(ranges, start, end) {
        return Ok(());
    }
    put_range(ranges, start, end)
}

// Adds a range that is not empty, if there is none yet, or only one that ends where it starts. Returns whether it did.
#[inline(always)]
fn is_appended(
    ranges: &mut ArrayVec<Range, ASSEMBLER_MAX_SEGMENT_COUNT>,
    start: usize,
    end: usize,
) -> bool
    requires order { start < end }
    requires separate { AreSeparate 0 ranges.old.items }
    ensures added { result ≡ true → ranges.new.items ≡ add_range start end ranges.old.items }
    ensures few { result ≡ true → length ranges.new.items ≤ 4 }
    ensures kept { result ≡ false → ranges.new ≡ ranges.old }
{
    if ranges.is_empty() {
        ranges.push(Range { start, end });
        return true;
    }
    let is_next = ranges.len() == 1 && ranges.as_slice()[0].end == start;
    if is_next {
        ranges.as_mut_slice()[0].end = end;
    }
    is_next
}

// Adds a range that is not empty to separate ranges, whatever ranges they are.
#[inline(never)]
fn put_range(
    ranges: &mut ArrayVec<Range, ASSEMBLER_MAX_SEGMENT_COUNT>,
    start: usize,
    end: usize,
) -> Result<(), TooManyHolesError>
    requires order { start < end }
    requires few { length ranges.old.items ≤ 4 }
    ensures refused { IsErr result ↔ (4 < length (add_range start end ranges.old.items)) }
    ensures ok { OnOk result (ranges.new.items ≡ add_range start end ranges.old.items) }
    ensures err { OnErr result (ranges.new ≡ ranges.old) }
{
    let first = places_before(ranges.as_slice(), start);
    if !is_met(ranges.as_slice(), first, end) {
        if ranges.is_full() {
            return Err(TooManyHolesError);
        }
        insert_at(ranges, first, Range { start, end });
        return Ok(());
    }
    let met = remove_at(ranges, first);
    let mut merged = range_union(Range { start, end }, met);
    while is_met(ranges.as_slice(), first, merged.end) {
        let met = remove_at(ranges, first);
        merged = range_union(merged, met);
    }
    insert_at(ranges, first, merged);
    Ok(())
}

// Inserts a range at an index. It moves those from there on one by one, since a rotation would need a long buffer.
fn insert_at(ranges: &mut ArrayVec<Range, ASSEMBLER_MAX_SEGMENT_COUNT>, index: usize, range: Range)
    requires in_bounds { index ≤ length ranges.old.items }
    requires room { length ranges.old.items < 4 }
    ensures items { ranges.new.items ≡ insert ranges.old.items index range }
{
    let len = ranges.len();
    ranges.push(range);
    let items = ranges.as_mut_slice();
    items.copy_within(index..len, index + 1);
    items[index] = range;
}

// Removes the range at an index, and returns it.
fn remove_at(ranges: &mut ArrayVec<Range, ASSEMBLER_MAX_SEGMENT_COUNT>, index: usize) -> Range
    requires { index < length ranges.old.items }
    ensures value { result ≡ slice_index_or ranges.old.items index result }
    ensures items { ranges.new.items ≡ remove ranges.old.items index }
{
    let len = ranges.len();
    let items = ranges.as_mut_slice();
    let range = items[index];
    items.copy_within(index + 1..len, index);
    let _ = ranges.pop();
    range
}

// Whether a range that ends at `end` meets the one at index `i`.
fn is_met(ranges: &[Range], i: usize, end: usize) -> bool
    requires { i ≤ length ranges.now }
    ensures met { IsTrue result → IsMet ranges.now i end }
    ensures apart { result ≡ false → IsApart ranges.now i end }
{
    i < ranges.len() && ranges[i].start <= end
}

// The smallest range that contains both.
fn range_union(a: Range, b: Range) -> Range
    ensures { result ≡ range_union a b }
{
    Range {
        start: a.start.min(b.start),
        end: a.end.max(b.end),
    }
}

// How many ranges end before `start` without touching it.
fn places_before(ranges: &[Range], start: usize) -> usize
    ensures value { result ≡ places_before start ranges.now }
    ensures within { result ≤ length ranges.now }
{
    for (i, range) in ranges.iter().enumerate() {
        if start <= range.end {
            return i;
        }
    }
    ranges.len()
}

/// Of ranges that aren't empty, [`Assembler::add`] refuses exactly those that neither overlap nor touch any of four
/// that are there.
pub fn refused_touches_none()
    ensures { FifthTouchesNone }
{}
