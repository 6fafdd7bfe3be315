//! A buffer of octets in order, with capacity reserved once.
ghost use Rattle.std.specs.Prelude.{◌≡◌, ◌+◌, ◌-◌, ◌≤◌, [], ◌++◌, length, take, drop, vec_len, vec_capacity, IfOk};
ghost use Rattle.sockets.specs.Queue.{octets_forward};

use std::alloc::{AllocError, Global};
use std::marker::Model;

/// Octets in order, with the first ones in one slice. In contracts they are the list of the octets and the limit.
///
/// The capacity is twice the limit, and never changes. Octets are appended after the present ones. The present ones
/// move to the front only if the capacity after them doesn't suffice, so at most once for `limit` octets appended.
#[derive(Drop)]
pub struct Octets {
    items: Vec<u8>,
    // The octets are at `start` up to `end`.
    start: usize,
    end: usize,
    limit: usize,
}

impl Model for Octets {
    ghost use Rattle.std.specs.Prelude.{◌≡◌, ◌+◌, ◌≤◌, drop, take, vec_len, vec_capacity};
    ghost use Rattle.sockets.specs.Queue.{Held};

    ghost Value = { Held };

    ghost view = { λ o. record { octets = drop o.start (take o.end o.items.items); limit = o.limit } };

    ghost invariant = { λ o. (o.start ≤ o.end) × (o.end ≤ o.start + o.limit) × (o.end ≤ vec_len o.items)
        × (vec_len o.items ≡ o.limit + o.limit) × (vec_capacity o.items ≡ o.limit + o.limit) };
}

impl Octets {
    /// Creates an empty buffer for `limit` octets. It reserves twice as many, and fails exactly if that memory is
    /// refused or its size exceeds `usize`.
    pub fn new(alloc: Global, limit: usize) -> Result<Octets, AllocError>
        ensures { IfOk result (λ o. o ≡ record { octets = []; limit = limit }) }
    {
        let Some(places) = limit.checked_mul(2) else {
            return Err(AllocError);
        };
        Ok(Octets {
            items: zeros(alloc, places)?,
            start: 0,
            end: 0,
            limit,
        })
    }

    /// The maximum number of octets, including those present.
    pub fn limit(&self) -> usize
        ensures { result ≡ self.now.limit }
    {
        self.limit
    }

    /// How many more octets fit.
    pub fn room(&self) -> usize
        ensures { result + length self.now.octets ≡ self.now.limit }
    {
        self.limit - (self.end - self.start)
    }

    /// Appends octets, which must fit. It allocates nothing.
    #[inline(always)]
    #[tactic(auto, using(crate::proofs::OctetsLemmas::appended))]
    pub fn append(&mut self, octets: &[u8])
        requires { length self.old.octets + length octets.now ≤ self.old.limit }
        ensures { self.new ≡ record self.old { octets = self.old.octets ++ octets.now } }
    {
        if octets.len() > self.items.len() - self.end {
            move_to_front(&mut self.items, self.start, self.end);
            self.end -= self.start;
            self.start = 0;
        }
        write_at(&mut self.items, self.end, octets);
        self.end += octets.len();
    }

    /// Appends octets in two parts, one after the other, which must fit. It allocates nothing.
    #[inline(always)]
    pub fn append_parts(&mut self, front: &[u8], back: &[u8])
        requires { length self.old.octets + (length front.now + length back.now) ≤ self.old.limit }
        ensures { self.new ≡ record self.old { octets = self.old.octets ++ (front.now ++ back.now) } }
    {
        self.append(front);
        self.append(back);
    }

    /// The first `count` octets. There must be so many.
    #[tactic(auto, using(crate::proofs::OctetsLemmas::first_of_part))]
    pub fn first(&self, count: usize) -> &[u8]
        requires { count ≤ length self.now.octets }
        ensures value { result.now ≡ take count self.now.octets }
        ensures len { length result.now ≤ self.now.limit }
    {
        &self.items[self.start..self.start + count]
    }

    /// `count` octets behind the first `offset`. There must be so many.
    pub fn part(&self, offset: usize, count: usize) -> &[u8]
        requires { offset + count ≤ length self.now.octets }
        ensures { result.now ≡ take count (drop offset self.now.octets) }
    {
        let from = self.start + offset;
        &self.items[from..from + count]
    }

    /// Brings `count` octets behind the first `offset` to the front. There must be so many.
    pub fn bring_forward(&mut self, offset: usize, count: usize)
        requires { offset + count ≤ length self.old.octets }
        ensures { self.new ≡ record self.old { octets = octets_forward offset count self.old.octets } }
    {
        rotate_within(&mut self.items, self.start, offset + count, count);
    }

    /// Drops the first `count` octets. There must be so many.
    pub fn skip(&mut self, count: usize)
        requires { count ≤ length self.old.octets }
        ensures { self.new ≡ record self.old { octets = drop count self.old.octets } }
    {
        self.start += count;
        if self.start == self.end {
            self.start = 0;
            self.end = 0;
        }
    }
}

// `count` zeros, with no more capacity than that.
fn zeros(alloc: Global, count: usize) -> Result<Vec<u8>, AllocError>
    ensures len { IfOk result (λ v. vec_len v ≡ count) }
    ensures capacity { IfOk result (λ v. vec_capacity v ≡ count) }
{
    let mut items = Vec::with_capacity(alloc, count)?;
    for _ in 0..count {
        items.push_reserved(0);
    }
    Ok(items)
}

// Writes octets from an offset on.
#[inline(always)]
fn write_at(items: &mut Vec<u8>, at: usize, octets: &[u8])
    requires { at + length octets.now ≤ vec_len items.old }
    ensures items { take (at + length octets.now) items.new.items ≡ take at items.old.items ++ octets.now }
    ensures len { vec_len items.new ≡ vec_len items.old }
    ensures capacity { vec_capacity items.new ≡ vec_capacity items.old }
{
    items[at..at + octets.len()].copy_from_slice(octets);
}

// Brings the last `count` of `len` items from an offset on before the others of these.
fn rotate_within(items: &mut Vec<u8>, at: usize, len: usize, count: usize)
    requires bound { at + len ≤ vec_len items.old }
    requires part { count ≤ len }
    ensures items { items.new.items ≡ take at items.old.items
        ++ (octets_forward (len - count) count (take len (drop at items.old.items)) ++ drop (at + len) items.old.items) }
    ensures len { vec_len items.new ≡ vec_len items.old }
    ensures capacity { vec_capacity items.new ≡ vec_capacity items.old }
{
    items[at..at + len].rotate_right(count);
}

// Moves the items between two offsets to the front.
#[tactic(auto, using(crate::proofs::OctetsLemmas::moved_to_front))]
fn move_to_front(items: &mut Vec<u8>, start: usize, end: usize)
    requires order { start ≤ end }
    requires bound { end ≤ vec_len items.old }
    ensures items { take (end - start) items.new.items ≡ drop start (take end items.old.items) }
    ensures len { vec_len items.new ≡ vec_len items.old }
    ensures capacity { vec_capacity items.new ≡ vec_capacity items.old }
{
    items.copy_within(start..end, 0);
}
