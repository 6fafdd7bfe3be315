//! Queues of packets.
ghost use Rattle.std.specs.Prelude.{◌≡◌, ◌==◌, ◌+◌, ◌≤◌, ◌<◌, ◌↔◌, [], ◌∷◌, ◌++◌};
ghost use Rattle.std.specs.Prelude.{length, take, drop, slice_get, IfSome, IfOk, IsOk, OnOk, OnErr};
ghost use Rattle.std.specs.VecDeque.{deque_len, deque_capacity};
ghost use Rattle.sockets.specs.Queue.{brought_forward, octets_in, first_of, is_room};

use crate::octets::Octets;
use std::alloc::{AllocError, Global};
use std::collections::VecDeque;
use std::marker::Model;
use thiserror::Error;

/// The entry of a packet in a queue.
#[derive(Drop)]
pub struct Entry<M> {
    pub(crate) meta: M,
    // The packet's length in octets.
    pub(crate) len: usize,
}

/// There is no room for the packet, or for its octets.
#[derive(Clone, Copy, Debug, PartialEq, Eq, Error)]
#[error("Full")]
pub struct Full;

/// The memory could not be reserved.
#[derive(Clone, Copy, Debug, PartialEq, Eq, Error)]
#[error("NoMemory")]
pub struct NoMemory;

impl From<AllocError> for NoMemory {
    fn from(_: AllocError) -> NoMemory {
        NoMemory
    }
}

/// Packets in order, each with its octets and its metadata, with capacity reserved once.
///
/// In contracts a queue is the list of its packets, the maximum number of packets, and the maximum number of octets.
#[derive(Drop)]
pub struct Queue<M> {
    entries: VecDeque<Entry<M>>,
    most: usize,
    octets: Octets,
}

impl<M> Model for Queue<M> {
    ghost use Rattle.std.specs.Prelude.{◌≡◌, ◌≤◌, length};
    ghost use Rattle.std.specs.VecDeque.{deque_len, deque_capacity};
    ghost use Rattle.sockets.specs.Queue.{Queued, cut, total};

    ghost Value = { Queued M };

    ghost view = { λ q. record {
      packets = cut q.entries.items q.octets.octets;
      most = q.most;
      limit = q.octets.limit;
    } };

    ghost invariant = { λ q. (total q.entries.items ≡ length q.octets.octets) × (deque_len q.entries ≤ q.most)
        × (deque_capacity q.entries ≡ q.most) };
}

impl<M: Drop> Queue<M> {
    ghost use Rattle.std.specs.Option.{option_map};

    /// Creates an empty queue for this many packets, with this many octets in total. It reserves twice the octets, and
    /// fails with `NoMemory` exactly if that memory is refused. No other call allocates.
    pub fn new(alloc: Global, packets: usize, octets: usize) -> Result<Queue<M>, NoMemory>
        ensures { IfOk result (λ q. q ≡ record { packets = []; most = packets; limit = octets }) }
    {
        Ok(Queue {
            entries: VecDeque::with_capacity(alloc, packets)?,
            most: packets,
            octets: Octets::new(alloc, octets)?,
        })
    }

    /// Appends a packet. Fails with `Full` exactly if the maximum number of packets is reached, or fewer octets are
    /// free than it has; then the queue stays unchanged.
    #[inline(always)]
    pub fn push(&mut self, meta: M, octets: &[u8]) -> Result<(), Full>
        ensures ok { OnOk result
            (self.new ≡ record self.old { packets = self.old.packets ++ (meta, octets.now) ∷ [] }) }
        ensures fits { IsOk result ↔ ((length self.old.packets < self.old.most)
            × (octets_in self.old.packets + length octets.now ≤ self.old.limit)) }
        ensures full { OnErr result (self.new ≡ self.old) }
    {
        self.push_parts(meta, octets, &[])
    }

    /// Appends a packet in two parts, one after the other. Fails as [`push`](Queue::push) does.
    #[inline(always)]
    #[tactic(auto, using(crate::proofs::QueueLemmas::cut_append_parts, crate::proofs::QueueLemmas::total_append, crate::proofs::QueueLemmas::length_cut, crate::proofs::QueueLemmas::octets_in_cut))]
    pub fn push_parts(&mut self, meta: M, front: &[u8], back: &[u8]) -> Result<(), Full>
        ensures ok { OnOk result
            (self.new ≡ record self.old { packets = self.old.packets ++ (meta, front.now ++ back.now) ∷ [] }) }
        ensures fits { IsOk result ↔ ((length self.old.packets < self.old.most)
            × (octets_in self.old.packets + (length front.now + length back.now) ≤ self.old.limit)) }
        ensures full { OnErr result (self.new ≡ self.old) }
    {
        let len = front.len() + back.len();
        if self.entries.len() >= self.most || self.octets.room() < len {
            return Err(Full);
        }
        self.entries.push_back_reserved(Entry { meta, len });
        self.octets.append_parts(front, back);
        Ok(())
    }

    /// The number of packets in the queue.
    #[tactic(auto, using(crate::proofs::QueueLemmas::length_cut))]
    pub fn len(&self) -> usize
        ensures { result ≡ length self.now.packets }
    {
        self.entries.len()
    }

    /// How many octets the packets in the queue have together.
    #[tactic(auto, using(crate::proofs::QueueLemmas::octets_in_cut))]
    pub fn payload_len(&self) -> usize
        ensures { result ≡ octets_in self.now.packets }
    {
        self.octets.limit() - self.octets.room()
    }

    /// Whether the queue is empty.
    pub fn is_empty(&self) -> bool
        ensures { result ≡ (length self.now.packets == 0) }
    {
        self.len() == 0
    }

    /// Whether a packet of `len` octets fits now.
    #[tactic(auto, using(crate::proofs::QueueLemmas::octets_in_cut))]
    pub fn has_room(&self, len: usize) -> bool
        ensures { result ≡ is_room self.now len }
    {
        self.len() < self.most && len <= self.octets.room()
    }

    /// The maximum number of packets, including those in the queue.
    pub fn packet_capacity(&self) -> usize
        ensures { result ≡ self.now.most }
    {
        self.most
    }

    /// The maximum number of octets, including those of the packets in the queue.
    pub fn payload_capacity(&self) -> usize
        ensures { result ≡ self.now.limit }
    {
        self.octets.limit()
    }

    /// The first packet, if any: its metadata and its octets, at most [`payload_capacity`](Queue::payload_capacity).
    #[inline(always)]
    #[tactic(auto, using(crate::proofs::QueueLemmas::first_cut))]
    pub fn front(&self) -> Option<(&M, &[u8])>
        ensures value { option_map (λ p. (p.0.now, p.1.now)) result ≡ first_of self.now.packets }
        ensures len { IfSome result (λ p. length p.1.now ≤ self.now.limit) }
    {
        match self.entries.front() {
            Some(entry) => Some((&entry.meta, self.octets.first(entry.len))),
            None => None,
        }
    }

    /// The packet at an index, from the first on, if there is one: its metadata and its octets.
    pub fn get(&self, index: usize) -> Option<(&M, &[u8])>
        ensures { option_map (λ p. (p.0.now, p.1.now)) result ≡ slice_get self.now.packets index }
    {
        let offset = self.octets_before(index);
        match self.entries.get(index) {
            Some(entry) => Some((&entry.meta, self.octets.part(offset, entry.len))),
            None => None,
        }
    }

    /// The metadata of the packet at an index, from the first on, if there is one.
    pub fn meta_at(&self, index: usize) -> Option<&M>
        ensures { option_map (λ m. m.now) result ≡ option_map (λ p. p.0) (slice_get self.now.packets index) }
    {
        match self.entries.get(index) {
            Some(entry) => Some(&entry.meta),
            None => None,
        }
    }

    /// Brings the packet at an index to the front; the others keep their order. Where there is none, nothing changes.
    pub fn bring_forward(&mut self, index: usize)
        ensures { self.new ≡ record self.old { packets = brought_forward index self.old.packets } }
    {
        let offset = self.octets_before(index);
        if let Some(entry) = self.entries.remove(index) {
            self.octets.bring_forward(offset, entry.len);
            self.entries.push_front_reserved(entry);
        }
    }

    /// How many octets the packets before an index have together.
    fn octets_before(&self, index: usize) -> usize
        ensures { result ≡ octets_in (take index self.now.packets) }
    {
        // They are at most all of them.
        let _all = self.payload_len();
        let mut octets = 0;
        for at in 0..index.min(self.entries.len()) {
            octets += self.entries[at].len;
        }
        octets
    }

    /// Drops the first packet, if any.
    pub fn pop(&mut self)
        ensures { self.new ≡ record self.old { packets = drop 1 self.old.packets } }
    {
        if let Some(entry) = self.entries.pop_front() {
            self.octets.skip(entry.len);
        }
    }
}
