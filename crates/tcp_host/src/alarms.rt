//! The least of many instants, without a walk over all.
ghost use Rattle.std.specs.Prelude.{◌≡◌, ◌≤◌, ◌<◌, ◌+◌, ◌^◌, ◌/◌, ℕ, length, slice_index, slice_set, drop, replicate, IfOk, IfSome, None, min};
ghost use Rattle.tcp_host.specs.Alarms as spec;

use std::alloc::{AllocError, Global};
use std::marker::Model;

/// The instant of a place at which nothing is due.
pub const NEVER: u64 = u64::MAX;

/// An instant for each of many places, and the least of them: setting one and finding one that is due take as many steps as
/// the number of places has bits, and the least is at hand.
///
/// In contracts it is the list of the instants. It takes memory when it is made, and never later.
#[derive(Drop)]
pub struct Alarms {
    // The instants are the second half; before them each node is the lesser of the two at twice its place.
    nodes: Vec<u64>,
    places: usize,
}

impl Model for Alarms {
    ghost use Rattle.std.specs.Prelude.{ℕ, List, length, ◌≤◌, ◌≡◌, ◌+◌, ◌^◌, drop};
    ghost use Rattle.tcp_host.specs.Alarms.{IsTournament};

    ghost Value = { List ℕ };

    ghost view = { λ a. drop a.places a.nodes.items };

    ghost invariant = { λ a. (length a.nodes.items ≡ a.places + a.places) × (1 ≤ a.places) × (a.places ≤ 2 ^ 32)
        × IsTournament a.places a.nodes.items };
}

impl Alarms {
    /// Nothing is due at so many places, at least one and at most 2^32. It fails exactly if the memory is refused.
    #[tactic(auto, using(crate::proofs::AlarmLemmas::all_same))]
    pub fn new(alloc: Global, places: usize) -> Result<Alarms, AllocError>
        requires some { 1 ≤ places }
        requires few { places ≤ 2 ^ 32 }
        ensures { IfOk result (λ a. a ≡ replicate places NEVER) }
    {
        Ok(Alarms {
            nodes: vec![in alloc; NEVER; 2 * places]?,
            places,
        })
    }

    /// The same instant at so many places, at least one and at most 2^32. It fails exactly if the memory is refused.
    #[tactic(auto, using(crate::proofs::AlarmLemmas::all_same))]
    pub fn filled(alloc: Global, places: usize, instant: u64) -> Result<Alarms, AllocError>
        requires some { 1 ≤ places }
        requires few { places ≤ 2 ^ 32 }
        ensures { IfOk result (λ a. a ≡ replicate places instant) }
    {
        Ok(Alarms {
            nodes: vec![in alloc; instant; 2 * places]?,
            places,
        })
    }

    /// The least instant.
    #[tactic(auto, using(crate::proofs::AlarmLemmas::least_is))]
    pub fn least(&self) -> u64
        ensures { spec.IsLeast self.now result }
    {
        self.nodes[1]
    }

    /// How many places there are.
    pub fn places(&self) -> usize
        ensures { result ≡ length self.now }
    {
        self.places
    }

    /// The instant of a place.
    pub fn get(&self, place: usize) -> u64
        requires { place < length self.now }
        ensures { result ≡ slice_index self.now place }
    {
        self.nodes[self.places + place]
    }

    /// A place with the least instant.
    pub fn first(&self) -> usize
        ensures within { result < length self.now }
        ensures least { spec.IsLeast self.now (slice_index self.now result) }
    {
        leaf_below(&self.nodes, self.places) - self.places
    }

    /// Sets the instant of a place.
    pub fn set(&mut self, place: usize, instant: u64)
        requires { place < length self.old }
        ensures { self.new ≡ slice_set self.old place instant }
    {
        let node = self.places + place;
        self.nodes[node] = instant;
        settle(&mut self.nodes, self.places, node);
    }
}

// The node in the second half that has the least instant.
fn leaf_below(nodes: &[u64], places: usize) -> usize
    requires len { length nodes.now ≡ places + places }
    requires some { 1 ≤ places }
    requires few { places ≤ 2 ^ 32 }
    requires lesser { spec.IsTournament places nodes.now }
    ensures from { places ≤ result }
    ensures within { result < places + places }
    ensures least { slice_index nodes.now result ≡ slice_index nodes.now 1 }
{
    let mut node = 1;
    while node < places {
        node = lesser_child(nodes, node);
    }
    node
}

// Which of the two nodes below one has the lesser instant.
fn lesser_child(nodes: &[u64], node: usize) -> usize
    requires some { 1 ≤ node }
    requires few { node ≤ 2 ^ 32 }
    requires within { node + node + 1 < length nodes.now }
    ensures { spec.IsLesserChild node nodes.now result }
{
    let left = 2 * node;
    if nodes[left] <= nodes[left + 1] {
        left
    } else {
        left + 1
    }
}

// The nodes over one whose instant was set become the lesser of the two below them.
fn settle(nodes: &mut [u64], places: usize, set: usize)
    requires len { length nodes.old ≡ places + places }
    requires some { 1 ≤ places }
    requires few { places ≤ 2 ^ 32 }
    requires from { 1 ≤ set }
    requires within { set < places + places }
    requires others { spec.IsTournamentBut places (set / 2) nodes.old }
    ensures settled { spec.IsTournament places nodes.new }
    ensures kept { drop places nodes.new ≡ drop places nodes.old }
{
    let mut node = set;
    while node > 1 {
        node /= 2;
        let least = nodes[2 * node].min(nodes[2 * node + 1]);
        nodes[node] = least;
    }
}
