//! Slots in the value itself.
ghost use Rattle.std.specs.Prelude.{◌≡◌, ◌↔◌, ◌≤◌, List, IsErr, IfOk, map as each, length, slice_index_or};
ghost use Rattle.std.specs.Borrow.{sem};
ghost use Rattle.fragmentation.specs.Details.Holders.{holder_at, released_at, taken_of};
ghost use Rattle.fragmentation.specs.Assembly.{live_at, keys_of, slot_for, taken, AreApart, AreFree, AllSound};

use crate::holder::Holder;
use crate::reassembly::{
    AssemblerFullError, PacketAssembler, REASSEMBLY_BUFFER_COUNT, are_sound, drop_expired_of_two,
    holder_among, release_among, take_of_two, taken_among,
};
use arrayvec::ArrayVec;
use net_base::time::Instant;
use std::marker::Model;

/// Two slots, and the keys of those that are taken.
#[derive(Drop)]
pub(crate) struct OwnSlots<K> {
    keys: ArrayVec<Option<K>, REASSEMBLY_BUFFER_COUNT>,
    assemblers: ArrayVec<PacketAssembler<K>, REASSEMBLY_BUFFER_COUNT>,
}

impl<K> Model for OwnSlots<K> {
    ghost use Rattle.std.specs.Prelude.{List};
    ghost use Rattle.fragmentation.specs.Assembly.{Assembly, with_keys, AreTwo};

    ghost Value = { List (Assembly K) };

    ghost view = { λ a. with_keys a.keys.items a.assemblers.items };

    ghost invariant = { λ a. AreTwo a.keys.items a.assemblers.items };
}

impl<K: Eq + Copy> OwnSlots<K> {
    ghost use Rattle.fragmentation.specs.Details.PlaceLending.{own_lends_place};

    // The slot of a key, as `PacketAssemblerSet::get` says.
    pub(crate) fn get(
        &mut self,
        key: &K,
        end: Instant,
    ) -> Result<&mut PacketAssembler<K>, AssemblerFullError>
        ensures* lends { sem 𝓛 (own_lends_place K.row self.entry (slot_for K.eq key.now self.old) result) }
        ensures value { IfOk result
            (λ r. r.now ≡ taken key.now end (slice_index_or self.old (slot_for K.eq key.now self.old) r.now)) }
        ensures refused { IsErr result ↔ (slot_for K.eq key.now self.old ≡ length self.old) }
        ensures within { slot_for K.eq key.now self.old ≤ length self.old }
    {
        let slot = take_of_two(
            self.keys.as_mut_slice(),
            self.assemblers.as_mut_slice(),
            key,
            end,
        );
        match self.assemblers.get_mut(slot) {
            Some(assembler) => Ok(assembler),
            None => Err(AssemblerFullError),
        }
    }
}

impl<K: Drop> OwnSlots<K> {
    // Two free slots.
    pub(crate) fn new() -> OwnSlots<K>
        ensures two { length result ≡ 2 }
        ensures free { AreFree result }
    {
        let mut keys = ArrayVec::new();
        keys.push(None);
        keys.push(None);
        let mut assemblers = ArrayVec::new();
        assemblers.push(PacketAssembler::new());
        assemblers.push(PacketAssembler::new());
        OwnSlots { keys, assemblers }
    }

    // Frees the slots whose expiry is before a moment.
    #[inline(always)]
    pub(crate) fn remove_expired(&mut self, timestamp: Instant)
        ensures { self.new ≡ each (live_at timestamp) self.old }
    {
        drop_expired_of_two(
            self.keys.as_slice(),
            self.assemblers.as_mut_slice(),
            timestamp,
        );
    }
}

impl<K: Copy> OwnSlots<K> {
    // How many slots there are.
    pub(crate) fn room(&self) -> usize
        ensures { result ≡ length self.now }
    {
        self.keys.len()
    }

    // How many slots are taken.
    pub(crate) fn taken(&self) -> usize
        ensures taken { result ≡ taken_of self.now }
        ensures few { result ≤ length self.now }
    {
        taken_among(self.keys.as_slice(), self.assemblers.as_slice())
    }

    // Who holds the slot at an index.
    pub(crate) fn holder(&self, index: usize) -> Option<Holder<K>>
        ensures { result ≡ holder_at index self.now }
    {
        holder_among(self.keys.as_slice(), self.assemblers.as_slice(), index)
    }

    // Frees the slot at an index.
    pub(crate) fn release(&mut self, index: usize)
        ensures { self.new ≡ released_at index self.old }
    {
        release_among(
            self.keys.as_mut_slice(),
            self.assemblers.as_mut_slice(),
            index,
        );
    }
}

impl<K> OwnSlots<K> {
    // A lemma: what holds of slots by their type.
    pub(crate) fn are_kept(&self)
        ensures apart { AreApart (keys_of self.now) }
        ensures sound { AllSound self.now }
    {
        are_sound(self.assemblers.as_slice());
    }
}
