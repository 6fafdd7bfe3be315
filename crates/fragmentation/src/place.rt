//! Where the slots of a set are.
ghost use Rattle.std.specs.Prelude.{◌≡◌, ◌↔◌, ◌≤◌, IsErr, IfOk, map as each, length, min, slice_index_or, vec_capacity};
ghost use Rattle.std.specs.Borrow.{sem};
ghost use Rattle.fragmentation.specs.Details.Holders.{holder_at, released_at, taken_of};
ghost use Rattle.fragmentation.specs.Assembly.{live_at, keys_of, slot_for, taken, AreApart, AreFree, AllSound};
ghost use Rattle.fragmentation.specs.Slots.{slot_room_over};

use crate::holder::Holder;
use crate::lent_slots::LentSlots;
use crate::own_slots::OwnSlots;
use crate::reassembly::{AssemblerFullError, PacketAssembler};
use net_base::time::Instant;

/// The slots of a set: in the set itself, or in storage that was handed over.
#[derive(Drop)]
pub(crate) enum Place<K> {
    Own(OwnSlots<K>),
    Lent(LentSlots<K>),
}

impl<K: Eq + Copy> Place<K> {
    ghost use Rattle.fragmentation.specs.Details.Place.{slots_at};
    ghost use Rattle.fragmentation.specs.Details.PlaceLending.{lends_place};

    // The slot of a key, as `PacketAssemblerSet::get` says.
    pub(crate) fn get(
        &mut self,
        key: &K,
        end: Instant,
    ) -> Result<&mut PacketAssembler<K>, AssemblerFullError>
        ensures* lends { sem 𝓛 (lends_place K.row self.entry (slot_for K.eq key.now (slots_at self.old)) result) }
        ensures value { IfOk result (λ r. r.now ≡ taken key.now end
            (slice_index_or (slots_at self.old) (slot_for K.eq key.now (slots_at self.old)) r.now)) }
        ensures refused { IsErr result ↔ (slot_for K.eq key.now (slots_at self.old) ≡ length (slots_at self.old)) }
        ensures within { slot_for K.eq key.now (slots_at self.old) ≤ length (slots_at self.old) }
    {
        match self {
            Place::Own(own) => own.get(key, end),
            Place::Lent(lent) => lent.get(key, end),
        }
    }
}

impl<K: Drop> Place<K> {
    ghost use Rattle.fragmentation.specs.Details.Place.{slots_at};

    // From now on they are free slots in storage, or two of its own if that has no capacity for any. Each is written where
    // it stays, since a place returned by value takes stack for two sets of slots.
    pub(crate) fn set_storage(&mut self, keys: Vec<Option<K>>, slots: Vec<PacketAssembler<K>>)
        ensures room { length (slots_at self.new) ≡ slot_room_over (min (vec_capacity keys) (vec_capacity slots)) }
        ensures free { AreFree (slots_at self.new) }
    {
        if keys.capacity().min(slots.capacity()) == 0 {
            *self = Place::Own(OwnSlots::new());
            return;
        }
        *self = Place::Lent(LentSlots::over(keys, slots));
    }

    // Frees the slots whose expiry is before a moment.
    #[inline(always)]
    pub(crate) fn remove_expired(&mut self, timestamp: Instant)
        ensures { slots_at self.new ≡ each (live_at timestamp) (slots_at self.old) }
    {
        match self {
            Place::Own(own) => own.remove_expired(timestamp),
            Place::Lent(lent) => lent.remove_expired(timestamp),
        }
    }
}

impl<K: Copy> Place<K> {
    ghost use Rattle.fragmentation.specs.Details.Place.{slots_at};

    // How many slots there are.
    pub(crate) fn room(&self) -> usize
        ensures { result ≡ length (slots_at self.now) }
    {
        match self {
            Place::Own(own) => own.room(),
            Place::Lent(lent) => lent.room(),
        }
    }

    // How many slots are taken.
    pub(crate) fn taken(&self) -> usize
        ensures taken { result ≡ taken_of (slots_at self.now) }
        ensures few { result ≤ length (slots_at self.now) }
    {
        match self {
            Place::Own(own) => own.taken(),
            Place::Lent(lent) => lent.taken(),
        }
    }

    // Who holds the slot at an index.
    pub(crate) fn holder(&self, index: usize) -> Option<Holder<K>>
        ensures { result ≡ holder_at index (slots_at self.now) }
    {
        match self {
            Place::Own(own) => own.holder(index),
            Place::Lent(lent) => lent.holder(index),
        }
    }

    // Frees the slot at an index.
    pub(crate) fn release(&mut self, index: usize)
        ensures { slots_at self.new ≡ released_at index (slots_at self.old) }
    {
        match self {
            Place::Own(own) => own.release(index),
            Place::Lent(lent) => lent.release(index),
        }
    }
}

impl<K> Place<K> {
    ghost use Rattle.fragmentation.specs.Details.Place.{slots_at};

    // A lemma: what holds of slots by their type.
    pub(crate) fn are_kept(&self)
        ensures apart { AreApart (keys_of (slots_at self.now)) }
        ensures sound { AllSound (slots_at self.now) }
    {
        match self {
            Place::Own(own) => own.are_kept(),
            Place::Lent(lent) => lent.are_kept(),
        }
    }
}
