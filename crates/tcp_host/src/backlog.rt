//! The half-open connections of a listener: a new SYN takes the place of the oldest one (RFC 4987 3.2).
ghost use Rattle.std.specs.Prelude.{◌≡◌, ◌≤◌, [], IfOk, IfSome, None, length};
ghost use Rattle.tcp_host.specs.Backlog as spec;

use std::alloc::{AllocError, Global};
use std::marker::Model;

/// The places of the half-open connections of a listener, at most so many.
///
/// In contracts it is the list of these places, the oldest first, and how many there may be. It takes memory when it is
/// made, and never later.
#[derive(Drop)]
pub struct Backlog {
    places: Vec<usize>,
    most: usize,
}

impl Model for Backlog {
    ghost use Rattle.std.specs.Prelude.{◌≤◌, length, vec_capacity, vec_len};
    ghost use Rattle.tcp_host.specs.Backlog as spec;

    ghost Value = { spec.Waiting };

    ghost view = { λ b. record { places = b.places.items; most = b.most } };

    ghost invariant = { λ b. (vec_len b.places ≤ b.most) × (b.most ≤ vec_capacity b.places) };
}

impl Backlog {
    /// None is half-open, and at most `most` may be. It fails exactly if the memory is refused.
    pub fn new(alloc: Global, most: usize) -> Result<Backlog, AllocError>
        ensures { IfOk result (λ b. b ≡ record { places = []; most = most }) }
    {
        Ok(Backlog {
            places: Vec::with_capacity(alloc, most)?,
            most,
        })
    }

    /// One more is half-open. If there are as many as there may be, the oldest one leaves, and its place is returned.
    pub fn add(&mut self, place: usize) -> Option<usize>
        requires { 1 ≤ self.old.most }
        ensures evicted { result ≡ spec.evicted self.old }
        ensures added { self.new ≡ spec.after_adding place self.old }
    {
        let oldest = if self.places.len() < self.most {
            None
        } else {
            Some(self.places.remove(0))
        };
        self.places.push_reserved(place);
        oldest
    }

    /// How many are half-open.
    pub fn len(&self) -> usize
        ensures { result ≡ length self.now.places }
    {
        self.places.len()
    }

    /// The place of the oldest one.
    pub fn oldest(&self) -> Option<usize>
        ensures { result ≡ spec.first_of self.now.places }
    {
        self.places.first().copied()
    }

    /// The oldest one is half-open no more, and its place is returned.
    pub fn evict(&mut self) -> Option<usize>
        ensures first { result ≡ spec.first_of self.old.places }
        ensures evicted { self.new ≡ spec.after_evicting self.old }
    {
        if self.places.is_empty() {
            return None;
        }
        let oldest = self.places.remove(0);
        Some(oldest)
    }

    /// A place is half-open no more. Nothing changes if it isn't half-open.
    #[tactic(auto, using(crate::proofs::BacklogLemmas::removed, crate::proofs::BacklogLemmas::nowhere))]
    pub fn remove(&mut self, place: usize)
        ensures { self.new ≡ spec.after_removing place self.old }
    {
        if let Some(index) = index_of(&self.places, place) {
            self.places.remove(index);
        }
    }
}

// The first index at which a place stands.
pub(crate) fn index_of(places: &[usize], place: usize) -> Option<usize>
    ensures some { IfSome result (λ i. spec.IsFirst place i places.now) }
    ensures none { result ≡ None → spec.IsNowhere place places.now }
{
    for i in 0..places.len() {
        if places[i] == place {
            return Some(i);
        }
    }
    None
}
