//! Reassembly of datagrams from their fragments (RFC 791 3.2, RFC 815).
//!
//! A [`PacketAssembler`] is a slot for one datagram, and a [`PacketAssemblerSet`] has some of them, two or as many as
//! storage was handed over for, each for the datagram of one key. Where fragments overlap, the one received last counts.
ghost use Rattle.std.specs.Prelude.{◌≡◌, List, ℤ, ◌↔◌, ◌≤◌, ◌<◌, ◌+◌, ◌-◌, ℕ, Bool, nat_le, nat_lt, not, ◌&&◌};
ghost use Rattle.std.specs.Prelude.{IsTrue, is_none, is_some, IsSome, false, true, IsOk, IsErr, slice_index, slice_index_or};
ghost use Rattle.std.specs.Prelude.{if◌then◌else◌, IfOk, OnOk, OnErr, IfSome, map as each, length, None, Some};
ghost use Rattle.std.specs.Prelude.{min, vec_capacity};
ghost use Rattle.std.specs.Borrow.{sem};
ghost use Rattle.fragmentation.specs.Assembly as spec;
ghost use Rattle.fragmentation.specs.Assembly.{octets_after_write, index_of_key, free_slot, has_key};
ghost use Rattle.fragmentation.specs.Assembly.{live_at, with_key, with_keys, keys_of, taken_at, are_none, AllSound, AreKept};
ghost use Rattle.fragmentation.specs.Details.Holders.{holder_at, holder_of, released_at, taken_of};
ghost use Rattle.fragmentation.specs.Stands.{fragment};
ghost use Rattle.fragmentation.specs.Details.Reassembled.{RestsReassembled};

use crate::holder::Holder;
use crate::key::FragKey;
use crate::lent_slots::LentSlots;
use crate::own_slots::OwnSlots;
use crate::place::Place;
use net_base::assembler::Assembler;
use net_base::time::Instant;
use std::marker::Model;
use thiserror::Error;

/// The maximum length of a reassembled payload, in octets.
pub const REASSEMBLY_BUFFER_SIZE: usize = 4096;

/// How many datagrams are reassembled at a time, where no storage is handed over.
pub const REASSEMBLY_BUFFER_COUNT: usize = 2;

/// There is no free slot for a datagram.
#[derive(Clone, Copy, Debug, PartialEq, Eq, Error)]
#[error("AssemblerFullError")]
pub struct AssemblerFullError;

/// The octets end after the 4,096th, or another total length is set.
#[derive(Clone, Copy, Debug, PartialEq, Eq, Error)]
#[error("AssemblerError")]
pub struct AssemblerError;

/// A slot for one datagram of at most 4,096 octets.
///
/// In contracts it is its key (none if it is free), its expiry, the total length once that is set, the offsets received
/// as a list of ranges, and the octets.
#[derive(Drop)]
pub struct PacketAssembler<K> {
    buffer: [u8; REASSEMBLY_BUFFER_SIZE],
    assembler: Assembler,
    total_size: Option<usize>,
    key: Option<K>,
    expires_at: Instant,
}

impl<K> Model for PacketAssembler<K> {
    ghost use Rattle.fragmentation.specs.Assembly.{Assembly, AreSound};

    ghost Value = { Assembly K };

    ghost view = { λ a. record {
      key = a.key;
      expires_at = a.expires_at;
      total = a.total_size;
      ranges = a.assembler;
      octets = a.buffer;
    } };

    ghost invariant = { λ a. AreSound a.assembler };
}

impl<K> PacketAssembler<K> {
    ghost use Rattle.fragmentation.specs.Assembly.{IsFree, IsSound};

    /// Creates a free slot.
    pub fn new() -> PacketAssembler<K>
        ensures { IsFree result }
    {
        PacketAssembler {
            buffer: [0; REASSEMBLY_BUFFER_SIZE],
            assembler: Assembler::new(),
            total_size: None,
            key: None,
            expires_at: Instant::ZERO,
        }
    }

    /// When its fragments expire.
    pub fn expires_at(&self) -> Instant
        ensures { result ≡ self.now.expires_at }
    {
        self.expires_at
    }

    fn is_free(&self) -> bool
        ensures { result ≡ is_none self.now.key }
    {
        self.key.is_none()
    }

    // A lemma: what holds of a slot by its type.
    fn is_sound(&self)
        ensures { IsSound self.now }
    {
        has_its_octets(&self.buffer);
    }
}

impl<K> Default for PacketAssembler<K> {
    ghost use Rattle.fragmentation.specs.Assembly.{IsFree};

    /// Creates a free slot.
    fn default() -> PacketAssembler<K>
        ensures { IsFree result }
    {
        Self::new()
    }
}

impl<K: Drop> PacketAssembler<K> {
    ghost use Rattle.fragmentation.specs.Assembly.{is_complete, slot_after_free, is_refused, with_octets};
    ghost use Rattle.fragmentation.specs.Fragments.{Got, Fragment, is_fit, with_one, IsWhole, IsRebuilt};
    ghost use Rattle.fragmentation.specs.Stands.{fragment, Gathers, with_kept, with_total};
    ghost use Rattle.fragmentation.specs.Details.Lending.{Frees};

    /// Sets the datagram's total length, in octets.
    ///
    /// Fails if another total length is set, or it is over 4,096; then nothing changes.
    pub fn set_total_size(&mut self, size: usize) -> Result<(), AssemblerError>
        ensures refused { IsErr result ↔ IsTrue (is_refused self.old.total size) }
        ensures ok { OnOk result (self.new ≡ record self.old { total = Some size }) }
        ensures err { OnErr result (self.new ≡ self.old) }
        ensures gathers { OnOk result ((g : Got) → Gathers self.old g → Gathers self.new (with_total g size)) }
    {
        if let Some(total) = self.total_size {
            if total != size {
                return Err(AssemblerError);
            }
        }
        if size > REASSEMBLY_BUFFER_SIZE {
            return Err(AssemblerError);
        }
        self.total_size = Some(size);
        Ok(())
    }

    /// Writes octets at an offset of the datagram, over any that were received there before.
    ///
    /// Fails if they end after the 4,096th octet; then nothing changes. Nothing changes either if they would make a
    /// fifth separate range, but that is `Ok`.
    pub fn add(&mut self, octets: &[u8], offset: usize) -> Result<(), AssemblerError>
        ensures refused { IsErr result ↔ (4096 < offset + length octets.now) }
        ensures ok { OnOk result (self.new ≡ with_octets offset octets.now self.old) }
        ensures err { OnErr result (self.new ≡ self.old) }
        ensures gathers { OnOk result ((g : Got) (last : Bool) →
            Gathers self.old g → Gathers self.new (with_kept g (fragment offset octets.now last))) }
    {
        if ends_beyond(octets, offset) {
            return Err(AssemblerError);
        }
        if self.assembler.add(offset, octets.len()).is_ok() {
            write(&mut self.buffer, offset, octets);
        }
        Ok(())
    }

    /// Whether the total length is set, each octet below it was received, and the octet after it wasn't.
    pub fn is_complete(&self) -> bool
        ensures value { result ≡ is_complete self.now }
        ensures whole { (g : Got) → Gathers self.now g → IsTrue result ↔ ((n : ℕ) × IsWhole g n) }
    {
        match self.total_size {
            Some(total) => total == self.assembler.peek_front(),
            None => false,
        }
    }

    /// The octets of the datagram if it is complete, otherwise `None`. A completed slot is freed, and ready for another
    /// datagram.
    pub fn assemble(&mut self) -> Option<&[u8]>
        ensures* frees { sem 𝓛 (Frees K.row self.entry result) }
        ensures found { (g : Got) → Gathers self.old g → IsSome result ↔ ((n : ℕ) × IsWhole g n) }
        ensures rebuilt { IfSome result (λ s. (g : Got) → Gathers self.old g → IsRebuilt g s.now) }
        ensures only { IfSome result (λ s. (g : Got) (xs : List ℕ) → Gathers self.old g → IsRebuilt g xs → xs ≡ s.now) }
        ensures complete { IsSome result ↔ IsTrue (is_complete self.old) }
        ensures short { IfSome result (λ s. length s.now ≤ 4096) }
    {
        if !self.is_complete() {
            return None;
        }
        let len = self.assembler.peek_front();
        self.reset();
        Some(&self.buffer[..len])
    }

    // Adds a fragment, and returns whether it is fit.
    fn accept(&mut self, octets: &[u8], offset: usize, is_last: bool) -> bool
        ensures fit { result ≡ is_fit self.old.total (fragment offset octets.now is_last) }
        ensures unfit { result ≡ false → self.new ≡ self.old }
        ensures key { self.new.key ≡ self.old.key }
        ensures end { self.new.expires_at ≡ self.old.expires_at }
        ensures gathers { (g : Got) →
            Gathers self.old g → Gathers self.new (with_one g (fragment offset octets.now is_last)) }
    {
        if ends_beyond(octets, offset) {
            return false;
        }
        if is_last && self.set_total_size(offset + octets.len()).is_err() {
            return false;
        }
        self.add(octets, offset).is_ok()
    }

    fn reset(&mut self)
        ensures { self.new ≡ slot_after_free self.old }
    {
        self.assembler.clear();
        self.total_size = None;
        self.key = None;
        self.expires_at = Instant::ZERO;
    }

    // Frees the slot if its expiry is before a moment.
    #[inline(always)]
    fn leave_at(&mut self, timestamp: Instant)
        ensures { self.new ≡ live_at timestamp self.old }
    {
        if self.key.is_some() && self.expires_at < timestamp {
            self.reset();
        }
    }
}

impl<K: Copy> PacketAssembler<K> {
    ghost use Rattle.fragmentation.specs.Assembly.{with_key};

    // Whether it is taken, if this is its key.
    #[inline(always)]
    fn is_taken(&self, key: &Option<K>) -> bool
        ensures { result ≡ is_some (holder_of (with_key key.now self.now)) }
    {
        key.is_some() && self.key.is_some()
    }

    // Who holds the slot, if it is taken and this is its key.
    fn holder(&self, key: Option<K>) -> Option<Holder<K>>
        ensures { result ≡ holder_of (with_key key self.now) }
    {
        if self.is_free() {
            return None;
        }
        match key {
            None => None,
            Some(key) => Some(Holder {
                key,
                expires_at: self.expires_at,
            }),
        }
    }

    // If the slot is taken, it gets this key, or is freed without one. Returns its key.
    fn keep_key(&mut self, key: Option<K>) -> Option<K>
        ensures kept { self.new ≡ with_key key self.old }
        ensures value { result ≡ self.new.key }
    {
        if self.key.is_some() {
            self.key = key;
        }
        self.key
    }
}

impl<K: Eq> PacketAssembler<K> {
    ghost use Rattle.fragmentation.specs.Assembly.{has_key, taken};

    // Takes the slot for the key, if it is free, and returns its key.
    fn take_for(&mut self, key: &K, end: Instant) -> Option<K>
    where
        K: Copy,
        ensures taken { self.new ≡ taken key.now end self.old }
        ensures value { result ≡ self.new.key }
    {
        if self.key.is_none() {
            self.reset();
            self.key = Some(*key);
            self.expires_at = end;
        }
        self.key
    }

    fn is_for(&self, key: &K) -> bool
        ensures { result ≡ has_key K.eq key.now self.now.key }
    {
        is_key(&self.key, key)
    }
}

// A lemma: a buffer has as many octets as its type says.
fn has_its_octets(buffer: &[u8; REASSEMBLY_BUFFER_SIZE])
    ensures { length buffer.now ≡ 4096 }
{}

// Whether octets from an offset on end beyond the buffer.
fn ends_beyond(octets: &[u8], offset: usize) -> bool
    ensures { result ≡ nat_lt 4096 (offset + length octets.now) }
{
    match offset.checked_add(octets.len()) {
        Some(end) => end > REASSEMBLY_BUFFER_SIZE,
        None => true,
    }
}

// Writes octets from an offset on.
fn write(buffer: &mut [u8], offset: usize, octets: &[u8])
    requires { offset + length octets.now ≤ length buffer.old }
    ensures { buffer.new ≡ octets_after_write buffer.old offset octets.now }
{
    buffer[offset..offset + octets.len()].copy_from_slice(octets);
}

/// Slots for datagrams, each for the fragments of one key, and no two for the same key. There are two in the set itself;
/// where storage is handed over, those in it serve in their place.
///
/// In contracts it is the list of the slots. Since the set keeps the keys itself, a slot that was borrowed keeps the
/// key for which it was borrowed, or is free, whatever was written to it.
#[derive(Drop)]
pub struct PacketAssemblerSet<K> {
    place: Place<K>,
}

impl<K> Model for PacketAssemblerSet<K> {
    ghost use Rattle.std.specs.Prelude.{List};
    ghost use Rattle.fragmentation.specs.Assembly.{Assembly};
    ghost use Rattle.fragmentation.specs.Details.Place.{slots_at};

    ghost Value = { List (Assembly K) };

    ghost view = { λ s. slots_at s.place };
}

impl<K: Eq + Copy> PacketAssemblerSet<K> {
    ghost use Rattle.fragmentation.specs.Assembly.{slot_for, taken};
    ghost use Rattle.fragmentation.specs.Details.Lending.{LendsPlace};

    /// The slot of a key, whose expiry stays the same. If the key has none, a free slot is taken for it, with the
    /// expiry `end`.
    ///
    /// Fails if the key has no slot and none is free; then nothing changes.
    pub fn get(
        &mut self,
        key: &K,
        end: Instant,
    ) -> Result<&mut PacketAssembler<K>, AssemblerFullError>
        ensures* lends { sem 𝓛 (LendsPlace K.row self.entry (slot_for K.eq key.now self.old) result) }
        ensures value { IfOk result
            (λ r. r.now ≡ taken key.now end (slice_index_or self.old (slot_for K.eq key.now self.old) r.now)) }
        ensures refused { IsErr result ↔ (slot_for K.eq key.now self.old ≡ length self.old) }
        ensures within { slot_for K.eq key.now self.old ≤ length self.old }
    {
        self.place.get(key, end)
    }
}

impl<K: Drop> PacketAssemblerSet<K> {
    ghost use Rattle.fragmentation.specs.declared.key.FragKey.{FragKey};
    ghost use Rattle.fragmentation.specs.Slots as slots;
    ghost use Rattle.fragmentation.specs.Slots.{Slots, free_slots, slot_room_over};
    ghost use Rattle.fragmentation.specs.Assembly.{AreFree};
    ghost use Rattle.fragmentation.specs.Stands.{StandForSlotsOf};

    /// Creates two free slots.
    pub fn new() -> PacketAssemblerSet<K>
        ensures two { length result ≡ 2 }
        ensures free { AreFree result }
        ensures stands { (key_of : K → FragKey) → StandForSlotsOf key_of result (free_slots 2) }
    {
        PacketAssemblerSet {
            place: Place::Own(OwnSlots::new()),
        }
    }

    /// From now on the slots are those in storage that is handed over, as many as each vector has capacity for, or the
    /// two in the set itself if one of them has none. All are free. What is in the vectors is dropped, and so is what the
    /// slots had so far.
    pub fn set_storage(&mut self, keys: Vec<Option<K>>, slots: Vec<PacketAssembler<K>>)
        ensures room { length self.new ≡ slot_room_over (min (vec_capacity keys) (vec_capacity slots)) }
        ensures free { AreFree self.new }
        ensures stands { (key_of : K → FragKey) →
            StandForSlotsOf key_of self.new (free_slots (slot_room_over (min (vec_capacity keys) (vec_capacity slots)))) }
    {
        self.place.set_storage(keys, slots);
    }

    /// Frees the slots whose expiry is before a moment.
    #[inline(always)]
    pub fn remove_expired(&mut self, timestamp: Instant)
        ensures places { self.new ≡ each (live_at timestamp) self.old }
        ensures stands { (key_of : K → FragKey) (m : Slots) →
            StandForSlotsOf key_of self.old m → StandForSlotsOf key_of self.new (slots.live_at timestamp m) }
    {
        self.place.remove_expired(timestamp);
    }
}

impl<K: Copy> PacketAssemblerSet<K> {
    /// How many slots there are.
    pub fn room(&self) -> usize
        ensures { result ≡ length self.now }
    {
        self.place.room()
    }

    /// How many slots are taken.
    pub fn taken(&self) -> usize
        ensures taken { result ≡ taken_of self.now }
        ensures few { result ≤ length self.now }
    {
        self.place.taken()
    }

    /// Who holds the slot at an index. `None` if it is free, or there is none.
    pub fn holder(&self, index: usize) -> Option<Holder<K>>
        ensures { result ≡ holder_at index self.now }
    {
        self.place.holder(index)
    }
}

impl<K> PacketAssemblerSet<K> {
    ghost use Rattle.fragmentation.specs.Assembly.{AreApart};

    /// A lemma for proofs about a set, of whatever keys: no key has two of its slots. It does nothing.
    pub fn no_key_has_two_slots(&self)
        ensures { AreApart (keys_of self.now) }
    {
        self.place.are_kept();
    }
}

impl PacketAssemblerSet<FragKey> {
    ghost use Rattle.std.specs.FinMap as map;
    ghost use Rattle.fragmentation.specs.Slots.{Slot, Slots, slot_of, without_slot};
    ghost use Rattle.fragmentation.specs.Stands.{StandForSlots};

    /// Frees the slot at an index, if it is taken. Otherwise nothing changes.
    pub fn release(&mut self, index: usize)
        ensures places { self.new ≡ released_at index self.old }
        ensures stands { IfSome (holder_at index self.old) (λ holder. (m : Slots) →
            StandForSlots self.old m → StandForSlots self.new (without_slot m holder.key)) }
    {
        self.place.release(index);
    }

    /// A lemma for proofs about a set: who holds a slot has one among the slots of the host machine that it stands for, which
    /// ends when his fragments expire. It does nothing.
    pub fn holds_slots(&self)
        ensures { (i : ℕ) → IfSome (holder_at i self.now) (λ holder. (m : Slots) → StandForSlots self.now m →
            IfSome (slot_of m holder.key) (λ slot. slot.ends ≡ holder.expires_at)) }
    {}

    /// A lemma for proofs about a set: there are slots of the host machine that it stands for, no two of its slots for
    /// the slot of one key. It does nothing.
    pub fn stands_for_slots(&self)
        ensures { (slots : Slots) × StandForSlots self.now slots }
    {
        self.place.are_kept();
    }
}

/// Adds a fragment to the datagram of a key: `payload` from the octet `offset` on, the last one or not. A key without a
/// slot takes a free one, with the expiry `end`; if none is free, the fragment is dropped (RFC 791 3.2).
///
/// Returns the datagram's octets if the fragment completes it; its slot is then free. A fragment that ends after the
/// 4,096th octet, or is the last one while another total length is set, changes nothing in the slot, and completes
/// nothing.
pub fn reassemble<'s>(
    slots: &'s mut PacketAssemblerSet<FragKey>,
    key: &FragKey,
    end: Instant,
    payload: &[u8],
    offset: usize,
    is_last: bool,
) -> Option<&'s [u8]>
    ensures* rests { sem 𝓛 (RestsReassembled slots.entry end key.now (fragment offset payload.now is_last) result) }
    ensures short { IfSome result (λ octets. length octets.now ≤ 4096) }
{
    match slots.get(key, end) {
        Ok(assembler) => {
            if !assembler.accept(payload, offset, is_last) {
                return None;
            }
            assembler.assemble()
        }
        Err(_) => None,
    }
}

// Frees the slots whose expiry is before a moment.
#[inline(always)]
pub(crate) fn drop_expired<K: Drop>(
    keys: &[Option<K>],
    assemblers: &mut [PacketAssembler<K>],
    timestamp: Instant,
)
    requires as_many { length keys.now ≡ length assemblers.old }
    ensures left { with_keys keys.now assemblers.new ≡ each (live_at timestamp) (with_keys keys.now assemblers.old) }
    ensures places { length assemblers.new ≡ length assemblers.old }
{
    for (i, key) in keys.iter().enumerate() {
        if key.is_some() {
            assemblers[i].leave_at(timestamp);
        }
    }
}

// The same of two slots.
#[inline(always)]
pub(crate) fn drop_expired_of_two<K: Drop>(
    keys: &[Option<K>],
    assemblers: &mut [PacketAssembler<K>],
    timestamp: Instant,
)
    requires keys { length keys.now ≡ 2 }
    requires places { length assemblers.old ≡ 2 }
    ensures left { with_keys keys.now assemblers.new ≡ each (live_at timestamp) (with_keys keys.now assemblers.old) }
    ensures places { length assemblers.new ≡ length assemblers.old }
{
    if keys[0].is_some() {
        assemblers[0].leave_at(timestamp);
    }
    if keys[1].is_some() {
        assemblers[1].leave_at(timestamp);
    }
}

// Forgets the keys of free slots.
pub(crate) fn forget_free<K: Drop>(keys: &mut [Option<K>], assemblers: &[PacketAssembler<K>])
    requires as_many { length keys.old ≡ length assemblers.now }
    ensures { keys.new ≡ keys_of (with_keys keys.old assemblers.now) }
{
    for i in 0..keys.len() {
        forget_if_free(&mut keys[i], &assemblers[i]);
    }
}

// Forgets a slot's key, if it has one and is free.
fn forget_if_free<K: Drop>(key: &mut Option<K>, assembler: &PacketAssembler<K>)
    ensures { key.new ≡ (with_key key.old assembler.now).key }
{
    if key.is_some() && assembler.is_free() {
        *key = None;
    }
}

// Who holds the slot at an index.
pub(crate) fn holder_among<K: Copy>(
    keys: &[Option<K>],
    assemblers: &[PacketAssembler<K>],
    index: usize,
) -> Option<Holder<K>>
    requires as_many { length keys.now ≡ length assemblers.now }
    ensures { result ≡ holder_at index (with_keys keys.now assemblers.now) }
{
    if index < keys.len() {
        assemblers[index].holder(keys[index])
    } else {
        None
    }
}

// How many slots are taken.
pub(crate) fn taken_among<K: Copy>(keys: &[Option<K>], assemblers: &[PacketAssembler<K>]) -> usize
    requires as_many { length keys.now ≡ length assemblers.now }
    ensures taken { result ≡ taken_of (with_keys keys.now assemblers.now) }
    ensures few { result ≤ length (with_keys keys.now assemblers.now) }
{
    let mut count = 0;
    for i in 0..keys.len() {
        if assemblers[i].is_taken(&keys[i]) {
            count += 1;
        }
    }
    count
}

// Frees the slot at an index.
pub(crate) fn release_among<K: Drop>(
    keys: &mut [Option<K>],
    assemblers: &mut [PacketAssembler<K>],
    index: usize,
)
    requires as_many { length keys.old ≡ length assemblers.old }
    ensures left { with_keys keys.new assemblers.new ≡ released_at index (with_keys keys.old assemblers.old) }
    ensures kept { AreKept keys.old assemblers.old → AreKept keys.new assemblers.new }
    ensures none { are_none keys.old ≡ true → are_none keys.new ≡ true }
    ensures keys { length keys.new ≡ length keys.old }
    ensures places { length assemblers.new ≡ length assemblers.old }
{
    if index < keys.len() {
        keys[index] = None;
        assemblers[index].reset();
    }
}

// Whether no key is set.
pub(crate) fn are_none<K>(keys: &[Option<K>]) -> bool
    ensures { result ≡ spec.are_none keys.now }
{
    for key in keys {
        if key.is_some() {
            return false;
        }
    }
    true
}

// A lemma: what holds of slots by their type.
pub(crate) fn are_sound<K>(assemblers: &[PacketAssembler<K>])
    ensures { AllSound assemblers.now }
{
    for assembler in assemblers {
        assembler.is_sound();
    }
}

// Takes a free slot for the key, if it has none, and returns the index of the slot that serves it. The keys are those
// of the slots then.
pub(crate) fn take<K: Eq + Copy>(
    keys: &mut [Option<K>],
    assemblers: &mut [PacketAssembler<K>],
    key: &K,
    end: Instant,
) -> usize
    requires as_many { length keys.old ≡ length assemblers.old }
    ensures slot { result ≡ spec.slot_for K.eq key.now (with_keys keys.old assemblers.old) }
    ensures taken { assemblers.new ≡ taken_at (spec.slot_for K.eq key.now (with_keys keys.old assemblers.old))
        key.now end (with_keys keys.old assemblers.old) }
    ensures keys { keys.new ≡ keys_of assemblers.new }
{
    keep_keys(keys, assemblers);
    take_among(keys, assemblers, key, end)
}

// The same of two slots.
pub(crate) fn take_of_two<K: Eq + Copy>(
    keys: &mut [Option<K>],
    assemblers: &mut [PacketAssembler<K>],
    key: &K,
    end: Instant,
) -> usize
    requires keys { length keys.old ≡ 2 }
    requires places { length assemblers.old ≡ 2 }
    ensures slot { result ≡ spec.slot_for K.eq key.now (with_keys keys.old assemblers.old) }
    ensures taken { assemblers.new ≡ taken_at (spec.slot_for K.eq key.now (with_keys keys.old assemblers.old))
        key.now end (with_keys keys.old assemblers.old) }
    ensures keys { keys.new ≡ keys_of assemblers.new }
{
    if is_first_for(keys, assemblers, key) {
        return 0;
    }
    keep_two_keys(keys, assemblers);
    take_among(keys, assemblers, key, end)
}

// Takes a free slot for the key, if it has none, where the keys are those of the slots.
#[inline(always)]
fn take_among<K: Eq + Copy>(
    keys: &mut [Option<K>],
    assemblers: &mut [PacketAssembler<K>],
    key: &K,
    end: Instant,
) -> usize
    requires keys { keys.old ≡ keys_of assemblers.old }
    ensures slot { result ≡ spec.slot_for K.eq key.now assemblers.old }
    ensures taken { assemblers.new ≡ taken_at (spec.slot_for K.eq key.now assemblers.old) key.now end assemblers.old }
    ensures keys { keys.new ≡ keys_of assemblers.new }
{
    let slot = slot_for(assemblers, key);
    if slot < assemblers.len() {
        keys[slot] = assemblers[slot].take_for(key, end);
    }
    slot
}

// Whether the first of two slots has the key, and the second one is free. Then each gets its key among these, and the
// free one none.
#[inline(always)]
fn is_first_for<K: Eq + Copy>(
    keys: &mut [Option<K>],
    assemblers: &mut [PacketAssembler<K>],
    key: &K,
) -> bool
    requires keys { length keys.old ≡ 2 }
    requires places { length assemblers.old ≡ 2 }
    ensures slot { result ≡ true → spec.slot_for K.eq key.now (with_keys keys.old assemblers.old) ≡ 0 }
    ensures taken { result ≡ true → (end : ℤ) →
        assemblers.new ≡ taken_at 0 key.now end (with_keys keys.old assemblers.old) }
    ensures keys { result ≡ true → keys.new ≡ keys_of assemblers.new }
    ensures kept { result ≡ false → (keys.new ≡ keys.old) × (assemblers.new ≡ assemblers.old) }
{
    if !is_alone_for(&keys[0], &assemblers[0], &assemblers[1], key) {
        return false;
    }
    keys[0] = assemblers[0].keep_key(keys[0]);
    forget(&mut keys[1]);
    true
}

// Forgets a key, if there is one. None is written only then: it takes as much as a key.
#[inline(always)]
fn forget<K: Copy>(key: &mut Option<K>)
    ensures { key.new ≡ None }
{
    if key.is_some() {
        *key = None;
    }
}

// Whether a key is the one given for the first of two slots, which is taken, and the second one is free.
#[inline(always)]
fn is_alone_for<K: Eq>(
    of_first: &Option<K>,
    first: &PacketAssembler<K>,
    second: &PacketAssembler<K>,
    key: &K,
) -> bool
    ensures { result ≡ has_key K.eq key.now of_first.now && (not (is_none first.now.key) && is_none second.now.key) }
{
    is_key(of_first, key) && !first.is_free() && second.is_free()
}

// Whether a slot's key, if it has one, is this one.
#[inline(always)]
fn is_key<K: Eq>(of_slot: &Option<K>, key: &K) -> bool
    ensures { result ≡ has_key K.eq key.now of_slot.now }
{
    match of_slot {
        Some(k) => *k == *key,
        None => false,
    }
}

// Each taken slot gets its key among these, and each free one has none from now on.
fn keep_keys<K: Copy>(keys: &mut [Option<K>], assemblers: &mut [PacketAssembler<K>])
    requires { length keys.old ≡ length assemblers.old }
    ensures places { assemblers.new ≡ with_keys keys.old assemblers.old }
    ensures keys { keys.new ≡ keys_of assemblers.new }
{
    for i in 0..keys.len() {
        keys[i] = assemblers[i].keep_key(keys[i]);
    }
}

// The same of two slots.
fn keep_two_keys<K: Copy>(keys: &mut [Option<K>], assemblers: &mut [PacketAssembler<K>])
    requires keys { length keys.old ≡ 2 }
    requires places { length assemblers.old ≡ 2 }
    ensures places { assemblers.new ≡ with_keys keys.old assemblers.old }
    ensures keys { keys.new ≡ keys_of assemblers.new }
{
    keys[0] = assemblers[0].keep_key(keys[0]);
    keys[1] = assemblers[1].keep_key(keys[1]);
}

// The index of the slot of the key, otherwise of the first free one, otherwise the length.
fn slot_for<K: Eq>(assemblers: &[PacketAssembler<K>], key: &K) -> usize
    ensures { result ≡ spec.slot_for K.eq key.now assemblers.now }
{
    let slot = index_of_key(assemblers, key);
    if slot == assemblers.len() {
        free_slot(assemblers)
    } else {
        slot
    }
}

// The index of the slot of the key, or the length.
fn index_of_key<K: Eq>(assemblers: &[PacketAssembler<K>], key: &K) -> usize
    ensures { result ≡ spec.index_of_key K.eq key.now assemblers.now }
{
    for (i, assembler) in assemblers.iter().enumerate() {
        if assembler.is_for(key) {
            return i;
        }
    }
    assemblers.len()
}

// The index of the first free slot, or the length.
fn free_slot<K>(assemblers: &[PacketAssembler<K>]) -> usize
    ensures { result ≡ spec.free_slot assemblers.now }
{
    for (i, assembler) in assemblers.iter().enumerate() {
        if assembler.is_free() {
            return i;
        }
    }
    assemblers.len()
}
