//! Room for datagrams in fragments: which of them gives way to another one.
ghost use Rattle.std.specs.Prelude.{◌≡◌, ◌≤◌, ◌<◌, ◌+◌, ◌^◌, ℕ, List, Some};
ghost use Rattle.net_base.specs.Time.{IsMoment};
ghost use Rattle.iface_receive.specs.FragmentKey.{CarriesFragment};
ghost use Rattle.iface_host.specs.FragmentLaws.{KnownFindRoom, StrangersHoldHalf, YoungStay};
ghost use Rattle.iface_host.specs.Fragments as spec;
ghost use Rattle.iface_host.specs.Fragments.{MakesRoom, tally_of};
ghost use Rattle.iface_host.specs.Guarded.{is_ordinary_to};
ghost use Rattle.iface_host.specs.Properties.{machine_of};

use crate::host::IfaceHost;
use guard::guard::is_known;
use interface::FragKey;
use ip_wire::{IpAddress, Ipv4Address};
use net_base::time::{Duration, Instant};

/// How long what is in a slot is kept from others, in microseconds: half a second.
const KEPT: u64 = 500_000;

/// How long fragments wait at most, in microseconds: a day.
const LONGEST_WAIT: u64 = 86_400_000_000;

/// Where another datagram in fragments goes.
#[derive(Clone, Copy, Debug, PartialEq, Eq)]
pub enum Place {
    /// There is a free slot.
    Free,
    /// In place of what is in this slot.
    InPlaceOf(usize),
    /// No slot is there for it.
    Nowhere,
    /// No slot is there for it, as half of them are kept for others.
    Refused,
}

/// What is counted of the slots in which datagrams are reassembled.
#[derive(Clone, Copy, Debug, PartialEq, Eq)]
pub struct Tally {
    /// How many are held by neighbours who are known.
    pub known: usize,
    /// How many are held by strangers.
    pub strangers: usize,
    /// The one of a known neighbour that ends first.
    pub first_known: Option<usize>,
    /// The one of a stranger that does.
    pub first_stranger: Option<usize>,
}

impl Tally {
    /// Nothing was counted.
    const NONE: Tally = Tally {
        known: 0,
        strangers: 0,
        first_known: None,
        first_stranger: None,
    };
}

impl IfaceHost {
    /// Makes room for a frame's fragment that came at a moment, if it has one. Answers whether the host may see the frame: it may not,
    /// where it is a stranger's, and strangers hold half of the slots since less than half a second. Then that is counted.
    #[inline(always)]
    pub(crate) fn makes_room(&mut self, now: Instant, frame: &[u8]) -> bool
        requires { IsMoment now }
        ensures room { MakesRoom now frame.now result self.old self.new }
        ensures ordinary { is_ordinary_to frame.now self.new ≡ is_ordinary_to frame.now self.old }
    {
        match self.interface.fragment_key(frame) {
            None => true,
            Some(key) => self.makes_room_for(now, &key),
        }
    }

    /// The same for a fragment of the datagram of a key.
    #[inline(never)]
    fn makes_room_for(&mut self, now: Instant, key: &FragKey) -> bool
        requires { IsMoment now }
        ensures room { (frame : List ℕ) → CarriesFragment key.now (machine_of self.old) frame → MakesRoom now frame result self.old self.new }
        ensures ordinary { (frame : List ℕ) → is_ordinary_to frame self.new ≡ is_ordinary_to frame self.old }
    {
        if self.has_few() {
            return true;
        }
        if self.serves(key) {
            return true;
        }
        match self.place_for(now, key) {
            Place::Free => true,
            Place::Nowhere => true,
            Place::InPlaceOf(index) => {
                self.interface.release_fragments(index);
                true
            }
            Place::Refused => {
                self.watch.refuse_fragment();
                false
            }
        }
    }

    /// Whether fewer than half of the slots are taken.
    fn has_few(&self) -> bool
        ensures { result ≡ spec.has_few self.now }
    {
        let taken = self.interface.fragments_taken();
        taken < self.interface.fragment_room() - taken
    }

    /// Whether a slot is held under a key.
    fn serves(&self, key: &FragKey) -> bool
        ensures { result ≡ spec.is_served key.now self.now }
    {
        let mut served = false;
        for index in 0..self.interface.fragment_room() {
            served = served || self.holds_key(index, key);
        }
        served
    }

    /// Whether the slot at an index is held under a key.
    fn holds_key(&self, index: usize, key: &FragKey) -> bool
        ensures { result ≡ spec.holds_key key.now self.now index }
    {
        match self.interface.fragment_holder(index) {
            None => false,
            Some(holder) => holder.key == *key,
        }
    }

    /// Where another datagram goes, of which a fragment came at a moment.
    fn place_for(&self, now: Instant, key: &FragKey) -> Place
        requires { IsMoment now }
        ensures { result ≡ spec.place_for now self.now key.now }
    {
        let room = self.interface.fragment_room();
        let tally = self.tally(now, room);
        if self.counts_as_known(now, key.src_addr) {
            self.place_of_known(now, room, tally)
        } else {
            self.place_of_stranger(now, room, tally)
        }
    }

    /// Where one of somebody known goes.
    fn place_of_known(&self, now: Instant, room: usize, tally: Tally) -> Place
        requires moment { IsMoment now }
        requires few { tally.known ≤ room }
        ensures { result ≡ spec.place_of_known now self.now room tally }
    {
        let others = room - tally.known;
        if tally.strangers < others {
            Place::Free
        } else if tally.known < others {
            in_place(tally.first_stranger)
        } else {
            self.in_place_of_old(now, tally)
        }
    }

    /// Where one of a stranger goes.
    fn place_of_stranger(&self, now: Instant, room: usize, tally: Tally) -> Place
        requires moment { IsMoment now }
        requires few { tally.strangers ≤ room }
        ensures { result ≡ spec.place_of_stranger now self.now room tally }
    {
        let others = room - tally.strangers;
        if tally.strangers >= others {
            self.if_old(now, tally.first_stranger, Place::Refused)
        } else if tally.known < others {
            Place::Free
        } else {
            self.in_place_of_old(now, tally)
        }
    }

    /// In place of an old one: of a stranger's, if there is one.
    fn in_place_of_old(&self, now: Instant, tally: Tally) -> Place
        requires { IsMoment now }
        ensures { result ≡ spec.in_place_of_old now self.now tally }
    {
        let otherwise = self.if_old(now, tally.first_known, Place::Nowhere);
        self.if_old(now, tally.first_stranger, otherwise)
    }

    /// In place of what is in a slot, if that has waited for half a second; otherwise as told.
    fn if_old(&self, now: Instant, index: Option<usize>, otherwise: Place) -> Place
        requires { IsMoment now }
        ensures { result ≡ spec.if_old now self.now index otherwise }
    {
        match index {
            Some(index) if self.is_old(now, index) => Place::InPlaceOf(index),
            _ => otherwise,
        }
    }

    /// Whether what is in a slot has waited for half a second.
    fn is_old(&self, now: Instant, index: usize) -> bool
        requires { IsMoment now }
        ensures { result ≡ spec.is_old now self.now index }
    {
        let timeout = self.reassembly_timeout().total_micros();
        let left = timeout.min(LONGEST_WAIT).saturating_sub(KEPT);
        self.end_of(index) <= now + Duration::from_micros(left)
    }

    /// What is counted of so many slots at a moment.
    fn tally(&self, now: Instant, room: usize) -> Tally
        ensures tally { result ≡ tally_of now self.now room }
        ensures known { result.known ≤ room }
        ensures strangers { result.strangers ≤ room }
    {
        let mut tally = Tally::NONE;
        for index in 0..room {
            tally = self.with_slot(now, index, tally);
        }
        tally
    }

    /// What is counted with one slot more.
    fn with_slot(&self, now: Instant, index: usize, tally: Tally) -> Tally
        requires below { index + 1 < 2 ^ 64 }
        requires counted { tally ≡ tally_of now self.now index }
        requires known { tally.known ≤ index }
        requires strangers { tally.strangers ≤ index }
        ensures tally { result ≡ tally_of now self.now (index + 1) }
        ensures known { result.known ≤ index + 1 }
        ensures strangers { result.strangers ≤ index + 1 }
    {
        let Some(holder) = self.interface.fragment_holder(index) else {
            return tally;
        };
        if self.counts_as_known(now, holder.key.src_addr) {
            Tally {
                known: tally.known + 1,
                first_known: Some(self.sooner(tally.first_known, index)),
                ..tally
            }
        } else {
            Tally {
                strangers: tally.strangers + 1,
                first_stranger: Some(self.sooner(tally.first_stranger, index)),
                ..tally
            }
        }
    }

    /// Of two slots the one that ends first, and the first of them where they end at once.
    fn sooner(&self, first: Option<usize>, index: usize) -> usize
        ensures { Some result ≡ spec.sooner self.now first index }
    {
        match first {
            None => index,
            Some(first) => {
                if self.end_of(index) < self.end_of(first) {
                    index
                } else {
                    first
                }
            }
        }
    }

    /// When what is in a slot ends.
    fn end_of(&self, index: usize) -> Instant
        ensures { result ≡ spec.end_of self.now index }
    {
        match self.interface.fragment_holder(index) {
            None => Instant::ZERO,
            Some(holder) => holder.expires_at,
        }
    }

    /// Whether who sends from an address counts as known at a moment: he is, or no slots are kept for known neighbours.
    fn counts_as_known(&self, now: Instant, address: Ipv4Address) -> bool
        ensures { result ≡ spec.counts_as_known now self.now address }
    {
        if !self.watch.is_on || !self.watch.guard.keeps_slots {
            return true;
        }
        is_known(self.interface.neighbors(), &IpAddress::Ipv4(address), now)
    }
}

/// In place of what is in a slot, if one is told.
fn in_place(index: Option<usize>) -> Place
    ensures { result ≡ spec.in_place index }
{
    match index {
        None => Place::Nowhere,
        Some(index) => Place::InPlaceOf(index),
    }
}

/// A lemma: what is promised of the slots for fragments. What is in a slot for less than half a second stays, unless a stranger sent it
/// and strangers hold more than half of them; known neighbours find room while they hold fewer than half; and strangers are let in while
/// they do, or in place of a stranger's that has waited for half a second. It does nothing.
pub fn slots_are_shared()
    ensures young { YoungStay }
    ensures known { KnownFindRoom }
    ensures strangers { StrangersHoldHalf }
{}
