//! Slots in storage that was handed over.
ghost use Rattle.std.specs.Prelude.{◌≡◌, ◌↔◌, ◌≤◌, List, IsErr, IfOk, map as each, length, min, slice_index_or, vec_capacity};
ghost use Rattle.std.specs.Borrow.{sem};
ghost use Rattle.fragmentation.specs.Details.Holders.{holder_at, released_at, taken_of};
ghost use Rattle.fragmentation.specs.Assembly.{live_at, keys_of, slot_for, taken, AreApart, AreFree, AllSound};

use crate::holder::Holder;
use crate::reassembly::{
    AssemblerFullError, PacketAssembler, are_none, are_sound, drop_expired, forget_free,
    holder_among, release_among, take, taken_among,
};
use net_base::time::Instant;
use std::marker::Model;

/// Slots, and the keys of those that are taken. While they are idle, none has a key, so that a sweep needs no look at
/// them.
#[derive(Drop)]
pub(crate) struct LentSlots<K> {
    keys: Vec<Option<K>>,
    assemblers: Vec<PacketAssembler<K>>,
    is_idle: bool,
}

impl<K> Model for LentSlots<K> {
    ghost use Rattle.std.specs.Prelude.{List};
    ghost use Rattle.fragmentation.specs.Assembly.{Assembly, with_keys, AreLent};

    ghost Value = { List (Assembly K) };

    ghost view = { λ a. with_keys a.keys.items a.assemblers.items };

    ghost invariant = { λ a. AreLent a.is_idle a.keys.items a.assemblers.items };
}

impl<K: Eq + Copy> LentSlots<K> {
    ghost use Rattle.fragmentation.specs.Details.PlaceLending.{lent_lends_place};

    // The slot of a key, as `PacketAssemblerSet::get` says.
    pub(crate) fn get(
        &mut self,
        key: &K,
        end: Instant,
    ) -> Result<&mut PacketAssembler<K>, AssemblerFullError>
        ensures* lends { sem 𝓛 (lent_lends_place K.row self.entry (slot_for K.eq key.now self.old) result) }
        ensures value { IfOk result
            (λ r. r.now ≡ taken key.now end (slice_index_or self.old (slot_for K.eq key.now self.old) r.now)) }
        ensures refused { IsErr result ↔ (slot_for K.eq key.now self.old ≡ length self.old) }
        ensures within { slot_for K.eq key.now self.old ≤ length self.old }
    {
        self.is_idle = false;
        let slot = take(
            self.keys.as_mut_slice(),
            self.assemblers.as_mut_slice(),
            key,
            end,
        );
        match self.assemblers.get_mut(slot) {
            Some(assembler) => Ok(assembler),
            None => Err(AssemblerFullError),
        }
    }
}

impl<K: Drop> LentSlots<K> {
    // As many free slots as each vector has capacity for.
    pub(crate) fn over(
        mut keys: Vec<Option<K>>,
        mut assemblers: Vec<PacketAssembler<K>>,
    ) -> LentSlots<K>
        ensures room { length result ≡ min (vec_capacity keys) (vec_capacity assemblers) }
        ensures free { AreFree result }
    {
        keys.clear();
        assemblers.clear();
        let room = keys.capacity().min(assemblers.capacity());
        while assemblers.len() < room {
            keys.push_reserved(None);
            assemblers.push_reserved(PacketAssembler::new());
        }
        LentSlots {
            keys,
            assemblers,
            is_idle: true,
        }
    }

    // Frees the slots whose expiry is before a moment.
    #[inline(always)]
    pub(crate) fn remove_expired(&mut self, timestamp: Instant)
        ensures { self.new ≡ each (live_at timestamp) self.old }
    {
        if self.is_idle {
            return;
        }
        self.sweep(timestamp);
    }

    // Frees the slots whose expiry is before a moment. Marked as cold, so that a set with slots of its own, or with idle
    // ones, keeps registers free for it only there.
    #[inline(never)]
    #[cold]
    fn sweep(&mut self, timestamp: Instant)
        ensures { self.new ≡ each (live_at timestamp) self.old }
    {
        drop_expired(
            self.keys.as_slice(),
            self.assemblers.as_mut_slice(),
            timestamp,
        );
        forget_free(self.keys.as_mut_slice(), self.assemblers.as_slice());
        self.is_idle = are_none(self.keys.as_slice());
    }
}

impl<K: Copy> LentSlots<K> {
    // How many slots there are.
    pub(crate) fn room(&self) -> usize
        ensures { result ≡ length self.now }
    {
        self.keys.len()
    }

    // How many slots are taken.
    pub(crate) fn taken(&self) -> usize
        ensures taken { result ≡ taken_of self.now }
        ensures few { result ≤ length self.now }
    {
        if self.is_idle {
            return 0;
        }
        taken_among(self.keys.as_slice(), self.assemblers.as_slice())
    }

    // Who holds the slot at an index.
    pub(crate) fn holder(&self, index: usize) -> Option<Holder<K>>
        ensures { result ≡ holder_at index self.now }
    {
        holder_among(self.keys.as_slice(), self.assemblers.as_slice(), index)
    }

    // Frees the slot at an index.
    pub(crate) fn release(&mut self, index: usize)
        ensures { self.new ≡ released_at index self.old }
    {
        release_among(
            self.keys.as_mut_slice(),
            self.assemblers.as_mut_slice(),
            index,
        );
    }
}

impl<K> LentSlots<K> {
    // A lemma: what holds of slots by their type.
    pub(crate) fn are_kept(&self)
        ensures apart { AreApart (keys_of self.now) }
        ensures sound { AllSound self.now }
    {
        are_sound(self.assemblers.as_slice());
    }
}
