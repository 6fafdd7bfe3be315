//! A table's entries: in the table itself, or in storage that was handed over.
ghost use Rattle.std.specs.Prelude.{◌≡◌, ◌<◌, ◌≤◌, [], ◌∷◌, ◌++◌, length, slice_get, vec_capacity, Some};
ghost use Rattle.std.specs.List.{remove};

use arrayvec::ArrayVec;
use std::marker::Model;

// Where entries lie.
#[derive(Drop)]
pub(crate) enum Place<T, const N: usize> {
    Own(ArrayVec<T, N>),
    Lent(Vec<T>),
}

/// Entries: up to `N` in the value itself, or as many as storage has room for that was handed over.
///
/// In contracts it is the list of its entries, and how many there is room for.
#[derive(Drop)]
pub struct Store<T, const N: usize> {
    place: Place<T, N>,
}

impl<T, const N: usize> Place<T, N> {
    ghost use Rattle.std.specs.Borrow.{sem};
    ghost use Rattle.iface_tables.specs.Details.Place.{stored_at};
    ghost use Rattle.iface_tables.specs.Details.PlaceLends.{place_lends_slice};

    // The entries, for writing.
    #[inline(always)]
    pub(crate) fn as_mut_slice(&mut self) -> &mut [T]
        ensures* writes_back { sem 𝓛 (place_lends_slice T.row N.row self.entry result) }
        ensures value { result.now ≡ (stored_at self.old).items }
    {
        match self {
            Place::Own(own) => own.as_mut_slice(),
            Place::Lent(lent) => lent.as_mut_slice(),
        }
    }
}

impl<T, const N: usize> Model for Store<T, N> {
    ghost use Rattle.iface_tables.specs.Store.{Stored, stored_code};
    ghost use Rattle.iface_tables.specs.Details.Place.{stored_at};

    ghost Value = { Stored T };

    ghost coded = { stored_code T.code };

    ghost view = { λ s. stored_at s.place };
}

impl<T: Default + Drop, const N: usize> Store<T, N> {
    /// No entries, with room for `N`. It takes no memory.
    pub fn new() -> Store<T, N>
        ensures { result ≡ record { items = []; room = N } }
    {
        Store {
            place: Place::Own(ArrayVec::new()),
        }
    }

    /// Takes all entries out. The room stays.
    pub fn clear(&mut self)
        ensures { self.new ≡ record self.old { items = [] } }
    {
        match &mut self.place {
            Place::Own(own) => own.clear(),
            Place::Lent(lent) => lent.clear(),
        }
    }

    /// Takes the entry at an index out. The others keep their order.
    pub fn remove(&mut self, index: usize) -> T
        requires { index < length self.old.items }
        ensures value { Some result ≡ slice_get self.old.items index }
        ensures items { self.new.items ≡ remove self.old.items index }
        ensures room { self.new.room ≡ self.old.room }
    {
        match &mut self.place {
            Place::Own(own) => own.remove(index),
            Place::Lent(lent) => lent.remove(index),
        }
    }
}

impl<T: Drop, const N: usize> Store<T, N> {
    ghost use Rattle.std.specs.Borrow.{sem};
    ghost use Rattle.iface_tables.specs.Details.StoreLends.{lends_slice};

    /// No entries, with room for as many as a vector has capacity for. Entries that it has are dropped.
    pub fn over(mut storage: Vec<T>) -> Store<T, N>
        ensures { result ≡ record { items = []; room = vec_capacity storage } }
    {
        storage.clear();
        Store {
            place: Place::Lent(storage),
        }
    }

    /// Whether the entries are in storage that was handed over.
    #[inline(always)]
    pub fn is_lent(&self) -> bool {
        matches!(&self.place, Place::Lent(_))
    }

    /// How many entries there are.
    #[inline(always)]
    pub fn len(&self) -> usize
        ensures value { result ≡ length self.now.items }
        ensures fits { result ≤ self.now.room }
    {
        match &self.place {
            Place::Own(own) => own.len(),
            Place::Lent(lent) => lent.len(),
        }
    }

    /// How many there is room for.
    #[inline(always)]
    pub fn room(&self) -> usize
        ensures { result ≡ self.now.room }
    {
        match &self.place {
            Place::Own(_) => N,
            Place::Lent(lent) => lent.capacity(),
        }
    }

    /// The entries.
    #[inline(always)]
    pub fn as_slice(&self) -> &[T]
        ensures { result.now ≡ self.now.items }
    {
        match &self.place {
            Place::Own(own) => own.as_slice(),
            Place::Lent(lent) => lent.as_slice(),
        }
    }

    /// The entries, for writing.
    #[inline(always)]
    pub fn as_mut_slice(&mut self) -> &mut [T]
        ensures* writes_back { sem 𝓛 (lends_slice T.row N.row self.entry result) }
        ensures value { result.now ≡ self.old.items }
    {
        self.place.as_mut_slice()
    }

    /// Appends an entry. There must be room.
    pub fn push(&mut self, entry: T)
        requires { length self.old.items < self.old.room }
        ensures items { self.new.items ≡ self.old.items ++ entry ∷ [] }
        ensures room { self.new.room ≡ self.old.room }
    {
        match &mut self.place {
            Place::Own(own) => own.push(entry),
            Place::Lent(lent) => lent.push_reserved(entry),
        }
    }
}
