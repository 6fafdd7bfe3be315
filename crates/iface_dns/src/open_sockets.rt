//! Which sockets of the host queries have.
ghost use Rattle.std.specs.Prelude.{◌≡◌, IfOk, replicate, slice_set, slice_index_or, length, None};

use std::alloc::{AllocError, Global};
use std::marker::Model;

/// The number of a socket for each place of a query, if it has one. How many places there are never changes.
///
/// In contracts it is the list of these numbers.
#[derive(Drop)]
pub struct OpenSockets {
    numbers: Vec<Option<u32>>,
}

impl Model for OpenSockets {
    ghost use Rattle.std.specs.Prelude.{ℕ, List, Option};

    ghost Value = { List (Option ℕ) };

    ghost view = { λ s. s.numbers.items };
}

impl OpenSockets {
    /// So many places, none of which has a socket. It fails exactly if memory is refused.
    pub fn new(alloc: Global, places: usize) -> Result<OpenSockets, AllocError>
        ensures { IfOk result (λ sockets. sockets ≡ replicate places None) }
    {
        Ok(OpenSockets {
            numbers: Vec::from_elem(alloc, None, places)?,
        })
    }

    /// The number of the socket of a place, if it has one.
    pub fn get(&self, place: usize) -> Option<u32>
        ensures { result ≡ slice_index_or self.now place None }
    {
        match self.numbers.get(place) {
            Some(number) => *number,
            None => None,
        }
    }

    /// Gives a place, if it is there, a socket or none.
    pub fn set(&mut self, place: usize, number: Option<u32>)
        ensures { self.new ≡ slice_set self.old place number }
    {
        if place < self.numbers.len() {
            self.numbers[place] = number;
        }
    }

    /// How many places there are.
    pub fn places(&self) -> usize
        ensures { result ≡ length self.now }
    {
        self.numbers.len()
    }
}
