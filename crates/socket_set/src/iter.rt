//! The sockets of a set, one after another.
ghost use Rattle.std.specs.Iterator.{YieldsFirst, YieldsFirstBy, item_count};

use crate::socket_set::{SocketHandle, SocketStorageOf};
use sockets::socket::SocketOf;
use std::marker::Model;

/// The sockets of a set with their handles, by rising index. In contracts it is the list of those still to come.
#[derive(Drop)]
pub struct IterOf<'s, L> {
    pub(crate) places: &'s [SocketStorageOf<L>],
    // The index of the first of `places`.
    pub(crate) next: usize,
}

/// The sockets of a set with their handles, by rising index.
pub type Iter<'s, 'a> = IterOf<'s, &'a ()>;

impl<'s, L> Model for IterOf<'s, L> {
    ghost use Rattle.std.specs.Prelude.{ℕ, ◌+◌, ◌<◌, ◌^◌, List, length, map};
    ghost use Rattle.sockets.specs.declared.socket.SocketOf.{SocketOf};
    ghost use Rattle.socket_set.specs.SocketSet.{pairs_from};

    ghost Value = { List (ℕ × SocketOf L) };

    ghost view = { λ it. pairs_from it.next (map (λ p. p.socket) it.places.now) };

    ghost invariant = { λ it. it.next + length it.places.now < 2 ^ 64 };
}

impl<'s, L> Iterator for IterOf<'s, L> {
    type Item = (SocketHandle, &'s SocketOf<L>);

    ghost next_gives = { YieldsFirstBy (λ item. (item.0, item.1.now)) (λ rest. rest) };

    ghost remaining = { item_count (λ rest. rest) };

    fn next(&mut self) -> Option<(SocketHandle, &'s SocketOf<L>)> {
        while let Some((place, rest)) = self.places.split_first() {
            let index = self.next;
            self.places = rest;
            self.next += 1;
            if let Some(socket) = place.socket() {
                return Some((SocketHandle::from_index(index), socket));
            }
        }
        None
    }
}

/// The handles of a set's sockets, by rising index. In contracts it is the list of those still to come.
#[derive(Drop)]
pub struct HandlesOf<'s, L> {
    pub(crate) iter: IterOf<'s, L>,
}

/// The handles of a set's sockets, by rising index.
pub type Handles<'s, 'a> = HandlesOf<'s, &'a ()>;

impl<'s, L> Model for HandlesOf<'s, L> {
    ghost use Rattle.std.specs.Prelude.{ℕ, List, map};

    ghost Value = { List ℕ };

    ghost view = { λ it. map (λ p. p.0) it.iter };
}

impl<'s, L> Iterator for HandlesOf<'s, L> {
    type Item = SocketHandle;

    ghost next_gives = { YieldsFirst (λ rest. rest) };

    ghost remaining = { item_count (λ rest. rest) };

    fn next(&mut self) -> Option<SocketHandle> {
        match self.iter.next() {
            Some((handle, _)) => Some(handle),
            None => None,
        }
    }
}
