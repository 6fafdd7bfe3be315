//! The numbers by which sockets are named.
ghost use Rattle.std.specs.Prelude.{◌≡◌, ◌<◌, Some, None, IfOk, IfSome, length, replicate, slice_set};
ghost use Rattle.std.specs.List.{count_by};
ghost use Rattle.std.specs.Option.{is_none};
ghost use Rattle.iface_host.specs.Names.{first_unused, handle_named};

use socket_set::SocketHandle;
use std::alloc::{AllocError, Global};
use std::marker::Model;

/// A table of names. Its length never changes.
///
/// In contracts it is the list of the handles of the sockets that its numbers name, from 0 on.
#[derive(Drop)]
pub struct Names {
    handles: Vec<Option<SocketHandle>>,
}

impl Model for Names {
    ghost use Rattle.std.specs.Prelude.{ℕ, List, Option};

    ghost Value = { List (Option ℕ) };

    ghost view = { λ n. n.handles.items };
}

impl Names {
    /// A table of so many numbers, which name nothing.
    pub fn new(alloc: Global, count: usize) -> Result<Names, AllocError>
        ensures { IfOk result (λ names. names ≡ replicate count None) }
    {
        Ok(Names {
            handles: Vec::from_elem(alloc, None, count)?,
        })
    }

    /// What a number names, if it names something.
    pub fn get(&self, number: u32) -> Option<SocketHandle>
        ensures { result ≡ handle_named self.now number }
    {
        match self.handles.get(number as usize) {
            Some(handle) => *handle,
            None => None,
        }
    }

    /// The least number that names nothing, if there is one.
    pub fn unused(&self) -> Option<usize>
        ensures value { result ≡ first_unused self.now }
        ensures within { IfSome result (λ n. n < length self.now) }
    {
        self.handles.iter().position(|handle| handle.is_none())
    }

    /// How many numbers there are.
    pub fn len(&self) -> usize
        ensures { result ≡ length self.now }
    {
        self.handles.len()
    }

    /// How many numbers name nothing.
    pub fn count_unused(&self) -> usize
        ensures { result ≡ count_by is_none self.now }
    {
        self.handles
            .iter()
            .filter(|handle| handle.is_none())
            .count()
    }

    /// Lets a number name something, or nothing.
    pub fn set(&mut self, number: usize, handle: Option<SocketHandle>)
        requires { number < length self.old }
        ensures { self.new ≡ slice_set self.old number handle }
    {
        self.handles[number] = handle;
    }
}
