//! Connections found by their ends, in a time that doesn't grow with their number.
ghost use Rattle.std.specs.Prelude.{◌≡◌, ◌≤◌, ◌<◌, ◌+◌, ◌^◌, ℕ, true, false, length, get_or, replicate, slice_set, Some, None, IfOk, IfSome, IsNone};
ghost use Rattle.std.specs.List.{count_by};
ghost use Rattle.tcp_host.specs.Table as spec;
ghost use Rattle.tcp_host.specs.Details.Cells as row;
ghost use Rattle.tcp_host.specs.Homes.{home};

use crate::iss::Endpoints;
use crate::sip_hash::{SipKey, home};
use std::alloc::{AllocError, Global};
use std::marker::Model;

/// The ends of the connection at each place, and which place has given ends.
///
/// Ends are found by SipHash with a secret key, so that who doesn't know the key can't choose ends that are slow to find. A
/// search looks at no more cells in a row than lie between a home and the last place that was put there because those before
/// it were taken. With two homes or more for each place, that is one or two, and rarely a dozen.
///
/// In contracts it is the list of the ends, by places. It takes memory when it is made, and never later.
#[derive(Drop)]
pub struct Table {
    ends: Vec<Option<Endpoints>>,
    cells: Vec<u32>,
    reaches: Vec<u32>,
    key: SipKey,
}

impl Model for Table {
    ghost use Rattle.std.specs.Prelude.{List, Option};
    ghost use Rattle.tcp_host.specs.declared.iss.Endpoints.{Endpoints};
    ghost use Rattle.tcp_host.specs.Details.Cells.{Stands};

    ghost Value = { List (Option Endpoints) };

    ghost view = { λ t. t.ends.items };

    ghost invariant = { λ t. Stands t.key t.ends.items t.cells.items t.reaches.items };
}

impl Table {
    /// No place has ends: there are `places` of them, at most 2^30. It fails exactly if the memory is refused.
    pub fn new(alloc: Global, key: SipKey, places: usize) -> Result<Table, AllocError>
        requires { places ≤ 2 ^ 30 }
        ensures { IfOk result (λ t. t ≡ replicate places None) }
    {
        let homes = 2 * places + 1;
        Ok(Table {
            ends: vec![in alloc; None; places]?,
            cells: vec![in alloc; 0; homes + places]?,
            reaches: vec![in alloc; 0; homes]?,
            key,
        })
    }

    /// How many places there are.
    pub fn places(&self) -> usize
        ensures { result ≡ length self.now }
    {
        self.ends.len()
    }

    /// The ends at a place, if it has any.
    pub fn get(&self, place: usize) -> Option<Endpoints>
        requires { place < length self.now }
        ensures { result ≡ spec.ends_at self.now place }
    {
        self.ends[place]
    }

    /// The place that has these ends. None, exactly if no place has them.
    pub fn find(&self, endpoints: &Endpoints) -> Option<usize>
        ensures some { IfSome result (spec.IsPlaceOf endpoints.now self.now) }
        ensures none { IsNone result → spec.IsNowhere endpoints.now self.now }
        ensures distinct { spec.AreDistinct self.now }
    {
        let first = home(&self.key, self.reaches.len(), endpoints);
        let reach = self.reaches[first] as usize;
        search(&self.ends, &self.cells, first, reach, endpoints)
    }

    /// The same, where a place is looked at first: mostly a segment is for the connection that got the one before.
    pub fn find_beginning_at(&self, place: usize, endpoints: &Endpoints) -> Option<usize>
        ensures some { IfSome result (spec.IsPlaceOf endpoints.now self.now) }
        ensures none { IsNone result → spec.IsNowhere endpoints.now self.now }
        ensures distinct { spec.AreDistinct self.now }
    {
        if place < self.ends.len() && self.ends[place] == Some(*endpoints) {
            return Some(place);
        }
        self.find(endpoints)
    }

    /// A place gets ends. Nothing changes, and it returns false, exactly if some place has them.
    pub fn insert(&mut self, place: usize, endpoints: &Endpoints) -> bool
        requires within { place < length self.old }
        requires free { spec.ends_at self.old place ≡ None }
        ensures refused { result ≡ false → self.new ≡ self.old }
        ensures taken { result ≡ false → (p : ℕ) × spec.IsPlaceOf endpoints.now self.old p }
        ensures inserted { result ≡ true → self.new ≡ slice_set self.old place (Some endpoints.now) }
        ensures free { result ≡ true → spec.IsNowhere endpoints.now self.old }
    {
        if self.find(endpoints).is_some() {
            return false;
        }
        let first = home(&self.key, self.reaches.len(), endpoints);
        let offset = free_offset(&self.cells, first);
        self.cells[first + offset] = place as u32 + 1;
        let reach = self.reaches[first];
        self.reaches[first] = reach.max(offset as u32 + 1);
        self.ends[place] = Some(*endpoints);
        true
    }

    /// A place has no ends any more.
    pub fn remove(&mut self, place: usize)
        requires { place < length self.old }
        ensures { self.new ≡ slice_set self.old place None }
    {
        let ends = self.ends[place];
        let Some(endpoints) = ends else {
            return;
        };
        let first = home(&self.key, self.reaches.len(), &endpoints);
        let reach = self.reaches[first] as usize;
        let offset = offset_of(&self.cells, first, reach, place as u32 + 1);
        self.cells[first + offset] = 0;
        self.reaches[first] = needed(&self.cells, first, reach) as u32;
        self.ends[place] = None;
    }
}

// The place with these ends, of those that the cells from a home on have.
fn search(
    ends: &[Option<Endpoints>],
    cells: &[u32],
    first: usize,
    reach: usize,
    endpoints: &Endpoints,
) -> Option<usize>
    requires within { first + reach ≤ length cells.now }
    requires places { (c : ℕ) → get_or cells.now c 0 ≤ length ends.now }
    ensures some { IfSome result (spec.IsPlaceOf endpoints.now ends.now) }
    ensures none { IsNone result → (k p : ℕ) → k < reach → get_or cells.now (first + k) 0 ≡ p + 1 → spec.ends_at ends.now p ≡ Some endpoints.now → ⊥ }
{
    for offset in 0..reach {
        let cell = cells[first + offset] as usize;
        if cell != 0 && ends[cell - 1] == Some(*endpoints) {
            return Some(cell - 1);
        }
    }
    None
}

// How far from a home the first empty cell is.
fn free_offset(cells: &[u32], first: usize) -> usize
    requires { first + count_by row.is_used cells.now < length cells.now }
    ensures within { first + result < length cells.now }
    ensures empty { get_or cells.now (first + result) 0 ≡ 0 }
{
    for offset in 0..cells.len() - first {
        if cells[first + offset] == 0 {
            return offset;
        }
    }
    0
}

// How far from a home the cell with a value is, that is there.
fn offset_of(cells: &[u32], first: usize, reach: usize, cell: u32) -> usize
    requires within { first + reach ≤ length cells.now }
    requires there { (k : ℕ) × (k < reach) × (get_or cells.now (first + k) 0 ≡ cell) }
    ensures near { result < reach }
    ensures at { get_or cells.now (first + result) 0 ≡ cell }
{
    for offset in 0..reach {
        if cells[first + offset] == cell {
            return offset;
        }
    }
    0
}

// How far a search from a home still has to go, where the cells after that are empty.
fn needed(cells: &[u32], first: usize, reach: usize) -> usize
    requires { first + reach ≤ length cells.now }
    ensures less { result ≤ reach }
    ensures empty { (k : ℕ) → result ≤ k → k < reach → get_or cells.now (first + k) 0 ≡ 0 }
{
    let mut left = reach;
    while left > 0 && cells[first + left - 1] == 0 {
        left -= 1;
    }
    left
}
