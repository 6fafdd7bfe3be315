//! What has arrived of a direction and isn't read (RFC 9293 3.4, 3.10.7.4).
ghost use Rattle.std.specs.Prelude.{◌≡◌, ◌≤◌, ◌<◌, ◌+◌, ◌-◌, ◌^◌, ◌++◌, ℕ, length, take, drop, slice_index, vec_len, IfOk, true, false};
ghost use Rattle.tcp_machine.specs.Receiving.{filled, stop_from, in_order, next, edge, expected, open_receiver, with_piece, after_read, is_acceptable};
ghost use Rattle.tcp_machine.specs.Arrivals.{has_gap, has_ended};
ghost use Rattle.tcp_machine.specs.Sack as sack;
ghost use Rattle.tcp_connection.specs.Details.Arrived.{syn, with_octets};
ghost use Rattle.tcp_connection.specs.Blocks as blocks;

use net_base::assembler::{Assembler, Range, refused_touches_none};
use std::alloc::{AllocError, Global};
use std::marker::Model;
use tcp_machine::ring::rings_stand;

/// Positions end here.
const LAST_POSITION: u64 = 1 << 62;

/// What has arrived of the peer's stream and isn't read, in order and beyond gaps, and its end.
///
/// The memory is twice the room, and is taken once. Octets lie where they are read; the unread ones move to the front only
/// if the memory after them doesn't suffice, so at most once for as many octets read as there is room.
///
/// In contracts it is the machine's receiver.
#[derive(Drop)]
pub struct ReceiveBuffer {
    // The first position that isn't read.
    base: u64,
    items: Vec<u8>,
    // The first octet that isn't read is at `start`.
    start: usize,
    room: usize,
    // The positions that have arrived, SYN and those that were read among them.
    arrived: Assembler,
    // The position after the last one of them.
    furthest: u64,
    stop: Option<u64>,
}

impl Model for ReceiveBuffer {
    ghost use Rattle.std.specs.Prelude.{◌≡◌, ◌+◌, ◌≤◌, ◌^◌, length};
    ghost use Rattle.tcp_machine.specs.Receiving as receiving;
    ghost use Rattle.tcp_connection.specs.Details.Arrived.{IsArrived, IsFurthest, receiver_of};

    ghost Value = { receiving.Receiver };

    ghost view = { λ r. receiver_of r.base r.items.items r.start r.room r.arrived r.stop };

    ghost invariant = { λ r. IsArrived r.base r.room r.arrived × (r.start ≤ r.room) × (length r.items.items ≡ r.room + r.room)
        × (r.room ≤ 2 ^ 30) × (r.base ≤ 2 ^ 62) × IsFurthest r.furthest r.arrived };
}

impl ReceiveBuffer {
    /// With room for so many octets, at most 2^30. It fails exactly if the memory is refused.
    #[tactic(auto, using(crate::proofs::ArrivedLemmas::syn_arrived, crate::proofs::ArrivedLemmas::opened_is, crate::proofs::GapLemmas::syn_furthest))]
    pub fn new(alloc: Global, room: usize) -> Result<ReceiveBuffer, AllocError>
        requires { room ≤ 2 ^ 30 }
        ensures { IfOk result (λ r. r ≡ open_receiver room) }
    {
        Ok(ReceiveBuffer {
            base: 1,
            items: vec![in alloc; 0; 2 * room]?,
            start: 0,
            room,
            arrived: only_syn(),
            furthest: 1,
            stop: None,
        })
    }

    /// As at first once more, with the same room. It takes no memory.
    #[tactic(auto, using(crate::proofs::ArrivedLemmas::syn_arrived, crate::proofs::GapLemmas::syn_furthest))]
    pub fn clear(&mut self)
        ensures { self.new ≡ open_receiver (length self.old.cells) }
    {
        self.base = 1;
        self.start = 0;
        self.arrived = only_syn();
        self.furthest = 1;
        self.stop = None;
    }

    /// The first position that isn't read.
    pub fn base(&self) -> u64
        ensures value { result ≡ self.now.base }
        ensures bounded { result ≤ 2 ^ 62 }
    {
        self.base
    }

    /// The first position that has no octet (RCV.NXT, as long as the end isn't reached).
    #[tactic(auto, using(crate::proofs::ArrivedLemmas::next_is))]
    pub fn next(&self) -> u64
        ensures value { result ≡ next self.now }
        ensures within { result ≤ edge self.now }
    {
        rings_stand();
        self.arrived.peek_front() as u64
    }

    /// The octets in order that aren't read.
    #[tactic(auto, using(crate::proofs::ArrivedLemmas::readable_of, crate::proofs::ArrivedLemmas::front_within))]
    pub fn readable(&self) -> &[u8]
        ensures { result.now ≡ in_order self.now.cells }
    {
        rings_stand();
        let len = (self.arrived.peek_front() as u64 - self.base) as usize;
        &self.items[self.start..self.start + len]
    }

    /// The first position beyond the room.
    #[tactic(auto, using(crate::proofs::ArrivedLemmas::edge_of))]
    pub fn edge(&self) -> u64
        ensures value { result ≡ edge self.now }
        ensures bounded { result ≤ 2 ^ 62 + 2 ^ 30 }
    {
        self.base + self.room as u64
    }

    /// The octets for which there is room.
    #[tactic(auto, using(crate::proofs::ArrivedLemmas::room_of))]
    pub fn room(&self) -> usize
        ensures value { result ≡ length self.now.cells }
        ensures bounded { result ≤ 2 ^ 30 }
    {
        self.room
    }

    /// The position of the end, once it arrived.
    pub fn stop(&self) -> Option<u64>
        ensures { result ≡ self.now.stop }
    {
        self.stop
    }

    /// The position that an acknowledgement tells (RCV.NXT).
    pub fn expected(&self) -> u64
        ensures value { result ≡ expected self.now }
        ensures bounded { result ≤ 2 ^ 62 + 2 ^ 30 + 1 }
    {
        let next = self.next();
        let _edge = self.edge();
        next + u64::from(self.stop() == Some(next))
    }

    /// Whether all up to the peer's end has arrived.
    pub fn has_ended(&self) -> bool
        ensures { result ≡ has_ended self.now }
    {
        self.stop() == Some(self.next())
    }

    /// Whether octets beyond a gap are held.
    pub fn has_gap(&self) -> bool
        ensures { result ≡ has_gap self.now }
    {
        rings_stand();
        (self.arrived.peek_front() as u64) < self.furthest
    }

    /// The parts beyond a gap, as a selective acknowledgement tells them (RFC 2018 4): first the one that contains a position, if
    /// one does, and then the others from the furthest one back. There are three at most.
    pub fn blocks(&self, latest: u64) -> [Option<Range>; 3]
        ensures { blocks.blocks_in result ≡ sack.blocks_of latest self.now }
    {
        rings_stand();
        let expected = self.expected();
        let ranges = self.arrived.ranges();
        let first = part_beyond(expected, ranges, 1);
        let second = part_beyond(expected, ranges, 2);
        let third = part_beyond(expected, ranges, 3);
        newest_first(latest, third, second, first)
    }

    /// A piece arrives: its octets that aren't in order yet and have room are kept, and its end, if that lies within the room.
    /// Returns whether it was taken. It is left, and nothing changes, if it begins beyond a gap and would be the fourth
    /// part of the stream of which something lies beyond one.
    pub fn take(&mut self, start: u64, octets: &[u8], ends: bool) -> bool
        requires start { start < 2 ^ 63 }
        requires octets { length octets.now < 2 ^ 32 }
        ensures taken { result ≡ true →
            self.new ≡ with_piece (record { start = start; octets = octets.now; ends = ends }) self.old }
        ensures left { result ≡ false → self.new ≡ self.old }
        ensures beyond { result ≡ false → next self.old < start }
    {
        let edge = self.edge();
        let after = start + octets.len() as u64;
        if !self.take_octets(start, octets) {
            return false;
        }
        self.take_end(after, ends && after <= edge);
        true
    }

    // The end arrives at a position, or doesn't; the first one counts.
    fn take_end(&mut self, after: u64, arrives: bool)
        ensures { self.new ≡ record self.old { stop = stop_from self.old.stop arrives after } }
    {
        match self.stop {
            Some(_) => {}
            None => self.stop = if arrives { Some(after) } else { None },
        }
    }

    // The same of the octets alone.
    fn take_octets(&mut self, start: u64, octets: &[u8]) -> bool
        requires start { start < 2 ^ 63 }
        requires octets { length octets.now < 2 ^ 32 }
        ensures taken { result ≡ true → self.new ≡ with_octets start octets.now self.old }
        ensures left { result ≡ false → self.new ≡ self.old }
        ensures beyond { result ≡ false → next self.old < start }
    {
        let next = self.next();
        let first = start.max(next);
        let skip = (first - start).min(octets.len() as u64) as usize;
        let room = self.edge().saturating_sub(first);
        let fit = room.min((octets.len() - skip) as u64) as usize;
        fit == 0 || self.keep(first, &octets[skip..skip + fit])
    }

    // Keeps octets from a position on that isn't in order yet, and for which there is room.
    fn keep(&mut self, first: u64, octets: &[u8]) -> bool
        requires some { 0 < length octets.now }
        requires new { next self.old ≤ first }
        requires room { first + length octets.now ≤ edge self.old }
        ensures kept { result ≡ true →
            self.new ≡ record self.old { cells = filled (first - self.old.base) octets.now self.old.cells } }
        ensures left { result ≡ false → self.new ≡ self.old }
        ensures beyond { result ≡ false → next self.old < first }
    {
        rings_stand();
        refused_touches_none();
        if self.arrived.add(first as usize, octets.len()).is_err() {
            return false;
        }
        let furthest = self.furthest;
        self.furthest = furthest.max(first + octets.len() as u64);
        let at = self.start + (first - self.base) as usize;
        write(&mut self.items, at, octets);
        true
    }

    /// The program takes the first octets that are in order. There must be so many.
    #[tactic(auto, using(crate::proofs::BufferLemmas::still_arrived))]
    pub fn consume(&mut self, count: usize)
        requires readable { count ≤ length (in_order self.old.cells) }
        requires bounded { self.old.base + count ≤ 2 ^ 62 }
        ensures { self.new ≡ after_read count self.old }
    {
        rings_stand();
        self.base += count as u64;
        self.start += count;
        if self.start > self.room {
            let held = self.furthest.saturating_sub(self.base) as usize;
            move_to_front(&mut self.items, self.start, held);
            self.start = 0;
        }
    }
}

// The positions that have arrived with SYN: its own, alone.
fn only_syn() -> Assembler
    ensures { result ≡ syn }
{
    let mut arrived = Assembler::new();
    let _ = arrived.add(0, 1);
    arrived
}

// The part at an index, if it begins beyond a position.
fn part_beyond(expected: u64, ranges: &[Range], index: usize) -> Option<Range>
    ensures { result ≡ blocks.part_beyond expected ranges.now index }
{
    if index < ranges.len() && expected < ranges[index].start as u64 {
        Some(ranges[index])
    } else {
        None
    }
}

// Three parts, the one that contains a position first.
fn newest_first(
    latest: u64,
    third: Option<Range>,
    second: Option<Range>,
    first: Option<Range>,
) -> [Option<Range>; 3]
    ensures { result ≡ blocks.newest_first latest third second first }
{
    if contains(&third, latest) {
        [third, second, first]
    } else if contains(&second, latest) {
        [second, third, first]
    } else if contains(&first, latest) {
        [first, third, second]
    } else {
        [third, second, first]
    }
}

// Whether there is a part, and it contains a position.
fn contains(part: &Option<Range>, position: u64) -> bool
    ensures { result ≡ blocks.is_in part.now position }
{
    match part {
        None => false,
        Some(part) => part.start as u64 <= position && position < part.end as u64,
    }
}

// Writes octets from a place on.
fn write(items: &mut Vec<u8>, at: usize, octets: &[u8])
    requires { at + length octets.now ≤ length items.old.items }
    ensures { items.new.items ≡ take at items.old.items ++ (octets.now ++ drop (at + length octets.now) items.old.items) }
{
    items[at..at + octets.len()].copy_from_slice(octets);
}

// Moves so many items from a place on to the front.
fn move_to_front(items: &mut Vec<u8>, from: usize, count: usize)
    requires { from + count ≤ vec_len items.old }
    ensures len { length items.new.items ≡ length items.old.items }
    ensures moved { (k : ℕ) → k < count → slice_index items.new.items k ≡ slice_index items.old.items (from + k) }
{
    items.copy_within(from..from + count, 0);
}
