//! The neighbour cache (RFC 826, RFC 4861): the hardware address of each known IP address, and the moment until which
//! no discovery is sent.
ghost use Rattle.std.specs.Prelude.{◌≡◌, ◌<◌, ◌≤◌, [], IfSome, true, pos, length};
ghost use Rattle.std.specs.Prelude.{slice_get, slice_set, vec_capacity};
ghost use Rattle.std.specs.FinMap as map;
ghost use Rattle.std.specs.FinMap.{find};
ghost use Rattle.std.specs.Ordering.{eq_by_cmp};
ghost use Rattle.net_base.specs.Time.{IsMoment, silence_from};
ghost use Rattle.ip_address.specs.Ip as ip;
ghost use Rattle.ip_address.specs.Ip.{address_cmp};
ghost use Rattle.net_base.specs.declared.phy.Medium.{Medium};
ghost use Rattle.ip_address.specs.Hardware as hardware;
ghost use Rattle.ip_address.specs.Hardware.{medium_of};
ghost use Rattle.iface_tables.specs.Entries as entry;
ghost use Rattle.iface_tables.specs.Entries.{AreKeysDistinct};
ghost use Rattle.iface_tables.specs.Neighbor as spec;
ghost use Rattle.iface_tables.specs.Neighbor.{AreFrom, AreOf, AreUpTo, Fills, HasPlace, IsEarliest, IsEndAt, IsKeptIn};
ghost use Rattle.iface_tables.specs.Neighbor.{IsNthByEnd, Puts, sorted};
ghost use Rattle.iface_tables.specs.Neighbor.{after_renewal, renewed_at, renewed_from, after_limit, limited_at, limited_from};
ghost use Rattle.iface_tables.specs.Neighbor.{answer_of, expiry_from, first_neighbors, room_over};

use crate::store::Store;
use ip_wire::{HardwareAddress, IpAddress};
use net_base::time::{Duration, Instant};
use std::marker::Model;

/// The number of neighbours that a cache keeps without storage.
pub const IFACE_NEIGHBOR_CACHE_COUNT: usize = 4;

/// A neighbour: its hardware address, and the moment from which that is no longer known.
#[derive(Clone, Copy, Debug, PartialEq, Eq)]
pub struct Neighbor {
    pub hardware_addr: HardwareAddress,
    pub expires_at: Instant,
}

impl Neighbor {
    /// The moment from which its hardware address is no longer known.
    pub const fn expires_at(&self) -> Instant
        ensures { result ≡ self.now.expires_at }
    {
        self.expires_at
    }
}

impl Default for Neighbor {
    fn default() -> Neighbor
        ensures { result ≡ record { hardware_addr = HardwareAddress.Ip; expires_at = pos 0 } }
    {
        Neighbor {
            hardware_addr: HardwareAddress::Ip,
            expires_at: Instant::ZERO,
        }
    }
}

/// Guesses at where a few neighbours are in storage, so that these are found at once. Storage for hints is handed over
/// beside that for neighbours, by [`Cache::set_storage`].
#[derive(Clone, Copy, Debug, PartialEq, Eq)]
pub struct Hints {
    // By what was found last.
    indices: [u16; 4],
}

impl Default for Hints {
    fn default() -> Hints {
        Hints { indices: [0; 4] }
    }
}

/// The answer of a lookup.
#[derive(Clone, Copy, Debug, PartialEq, Eq)]
pub enum Answer {
    /// The neighbour's hardware address.
    Found(HardwareAddress),
    /// The neighbour is unknown; a discovery may be sent.
    NotFound,
    /// The neighbour is unknown, and a discovery was sent less than a second ago.
    RateLimited,
}

impl Answer {
    /// Whether the answer is `Found`.
    pub const fn found(&self) -> bool
        ensures { result ≡ spec.is_found self.now }
    {
        match self {
            Answer::Found(_) => true,
            Answer::NotFound | Answer::RateLimited => false,
        }
    }
}

// Entries, as many as there is room for.
type Entries = Store<(IpAddress, Neighbor), IFACE_NEIGHBOR_CACHE_COUNT>;

// Hints, by a hash of the address. They may be wrong: what is at the index tells.
type HintTable = Store<Hints, 0>;

/// A cache of neighbours, as many as it has room for, with one silence for all discoveries. It takes no memory: it has
/// room for four in itself, or for more in storage that its maker hands over.
///
/// With as many hints as neighbours one that is known is found at once, also among thousands. Other lookups go over all:
/// those of unknown neighbours, and of one that has lost its hint, since more than four share a hash, or since its index
/// is above 65,535, until it is renewed. So who can choose addresses of one hash makes lookups as slow as without hints.
///
/// In contracts it is the number of neighbours that it has room for, a finite map from addresses to neighbours, and the
/// moment until which no discovery is sent.
#[derive(Drop)]
pub struct Cache {
    // In any order.
    entries: Entries,
    hints: HintTable,
    silent_until: Instant,
}

impl Model for Cache {
    ghost use Rattle.std.specs.FinMap as map;
    ghost use Rattle.iface_tables.specs.Neighbor.{IsKeptIn, Neighbors, neighbors_code};

    ghost Value = { Neighbors };

    ghost coded = { neighbors_code };

    ghost view = { λ c. record { room = c.entries.room; known = map.from_entries c.entries.items; silent_until = c.silent_until } };

    ghost invariant = { λ c. IsKeptIn c.entries };
}

impl Cache {
    /// How long after a discovery no other one is sent.
    pub const SILENT_TIME: Duration = Duration { micros: 1_000_000 };

    /// How long a neighbour is known.
    pub const ENTRY_LIFETIME: Duration = Duration { micros: 60_000_000 };

    /// An empty cache for four neighbours that isn't silent.
    pub fn new() -> Cache
        ensures value { result ≡ first_neighbors 4 }
        ensures of { (m : Medium) → AreOf m result }
    {
        Cache {
            entries: Store::new(),
            hints: Store::new(),
            silent_until: Instant::ZERO,
        }
    }

    /// An empty cache that isn't silent, for as many neighbours as the storage has capacity for, or for four if it has
    /// none; it uses as many hints as there is capacity for. Entries in the storage are dropped.
    pub fn with_storage(storage: Vec<(IpAddress, Neighbor)>, hints: Vec<Hints>) -> Cache
        ensures value { result ≡ first_neighbors (room_over (vec_capacity storage)) }
        ensures of { (m : Medium) → AreOf m result }
    {
        let mut cache = Cache::new();
        cache.set_storage(storage, hints);
        cache
    }

    /// Forgets all neighbours. From now on there is room for as many as the storage has capacity for, or for four if it
    /// has none, and as many hints are used as there is capacity for: as many as neighbours make lookups fast, without
    /// any each lookup goes over all. Entries in the storage are dropped. The silence stays unchanged.
    pub fn set_storage(&mut self, storage: Vec<(IpAddress, Neighbor)>, hints: Vec<Hints>)
        ensures value { self.new ≡ record self.old { room = room_over (vec_capacity storage); known = map.empty } }
        ensures of { (m : Medium) → AreOf m self.new }
    {
        self.entries = entries_over(storage);
        self.hints = hints_over(hints);
    }

    /// Stores a neighbour's hardware address for 60 s. If the neighbour is new and there is no room, one with the
    /// earliest expiry is removed. Both addresses must be unicast.
    pub fn fill(
        &mut self,
        protocol_addr: IpAddress,
        hardware_addr: HardwareAddress,
        timestamp: Instant,
    )
        requires protocol { ip.is_unicast protocol_addr ≡ true }
        requires link { hardware.is_unicast hardware_addr ≡ true }
        requires moment { IsMoment timestamp }
        ensures fills { Fills self.old self.new protocol_addr
            (record { hardware_addr = hardware_addr; expires_at = expiry_from timestamp }) }
        ensures of { AreOf (medium_of hardware_addr) self.old → AreOf (medium_of hardware_addr) self.new }
    {
        let expires_at = timestamp + Cache::ENTRY_LIFETIME;
        self.fill_with_expiration(protocol_addr, hardware_addr, expires_at);
    }

    /// Stores a neighbour's hardware address until an expiry, which may be any instant. If the neighbour is new and
    /// there is no room, one with the earliest expiry is removed. Both addresses must be unicast.
    pub fn fill_with_expiration(
        &mut self,
        protocol_addr: IpAddress,
        hardware_addr: HardwareAddress,
        expires_at: Instant,
    )
        requires protocol { ip.is_unicast protocol_addr ≡ true }
        requires link { hardware.is_unicast hardware_addr ≡ true }
        ensures fills { Fills self.old self.new protocol_addr
            (record { hardware_addr = hardware_addr; expires_at = expires_at }) }
        ensures of { AreOf (medium_of hardware_addr) self.old → AreOf (medium_of hardware_addr) self.new }
    {
        // It has as many octets as the addresses of its medium.
        let _ = hardware_addr.medium();
        let neighbor = Neighbor {
            hardware_addr,
            expires_at,
        };
        put_in(&mut self.entries, &mut self.hints, protocol_addr, neighbor);
    }

    /// Extends a neighbour's entry to 60 s from `timestamp`, if it has this hardware address. Otherwise nothing
    /// changes.
    #[inline(always)]
    #[tactic(auto, using(crate::proofs::NeighborLemmas::known_at))]
    pub fn reset_expiry_if_existing(
        &mut self,
        protocol_addr: IpAddress,
        hardware_addr: HardwareAddress,
        timestamp: Instant,
    )
        requires moment { IsMoment timestamp }
        ensures value { self.new ≡ after_renewal self.old protocol_addr hardware_addr (expiry_from timestamp) }
        ensures of { (m : Medium) → AreOf m self.old → AreOf m self.new }
    {
        let expires_at = timestamp + Cache::ENTRY_LIFETIME;
        renew_in(
            &mut self.entries,
            &mut self.hints,
            &protocol_addr,
            &hardware_addr,
            expires_at,
        );
    }

    /// Lets a neighbour's entry expire at an instant, if it would expire later. Otherwise nothing changes.
    #[tactic(auto, using(crate::proofs::NeighborLemmas::known_at))]
    pub fn limit_expiry(&mut self, protocol_addr: IpAddress, expires_at: Instant)
        ensures value { self.new ≡ after_limit self.old protocol_addr expires_at }
        ensures of { (m : Medium) → AreOf m self.old → AreOf m self.new }
    {
        limit_in(
            &mut self.entries,
            &mut self.hints,
            &protocol_addr,
            expires_at,
        );
    }

    /// Sets the moment until which no discovery is sent.
    pub fn set_silence(&mut self, until: Instant)
        ensures { self.new ≡ record self.old { silent_until = until } }
    {
        self.silent_until = until;
    }

    /// The moment until which no discovery is sent.
    pub fn silent_until(&self) -> Instant
        ensures { result ≡ self.now.silent_until }
    {
        self.silent_until
    }

    /// The neighbour that is stored at an address, expired ones too, if there is one.
    #[inline(always)]
    #[tactic(auto, using(crate::proofs::NeighborLemmas::known_at))]
    pub fn get(&self, protocol_addr: &IpAddress) -> Option<Neighbor>
        ensures { result ≡ map.get self.now.known protocol_addr.now }
    {
        find_in(&self.entries, &self.hints, protocol_addr)
    }

    /// How many neighbours there is room for.
    pub fn room(&self) -> usize
        ensures { result ≡ self.now.room }
    {
        self.entries.room()
    }

    /// How many of the neighbours that are stored expire after an instant. It goes over all.
    pub fn count_after(&self, instant: Instant) -> usize
        ensures { result ≡ spec.count_after instant self.now.known }
    {
        count_after(self.entries.as_slice(), instant)
    }

    /// Looks up the hardware address of a neighbour, which is known until its expiry. The address must be unicast.
    #[inline(always)]
    #[tactic(auto, using(crate::proofs::NeighborLemmas::known_at))]
    pub fn lookup(&self, protocol_addr: &IpAddress, timestamp: Instant) -> Answer
        requires { ip.is_unicast protocol_addr.now ≡ true }
        ensures { result ≡ answer_of self.now protocol_addr.now timestamp }
    {
        match find_in(&self.entries, &self.hints, protocol_addr) {
            Some(neighbor) if timestamp < neighbor.expires_at => {
                Answer::Found(neighbor.hardware_addr)
            }
            _ if timestamp < self.silent_until => Answer::RateLimited,
            _ => Answer::NotFound,
        }
    }

    /// The neighbour at an index of all that are stored, expired ones too, by rising expiry, if there is one. Those of equal
    /// expiry are in any order, which stays while nothing is stored. It goes over all some thirty times.
    pub fn nth_by_expiry(&self, index: usize) -> Option<(IpAddress, Neighbor)>
        ensures { IsNthByEnd self.now.known index result }
    {
        nth_in(self.entries.as_slice(), index)
    }

    /// Begins a silence of 1 s, in which lookups of all unknown neighbours return `RateLimited`.
    pub fn limit_rate(&mut self, timestamp: Instant)
        requires moment { IsMoment timestamp }
        ensures { self.new ≡ record self.old { silent_until = silence_from timestamp } }
    {
        self.silent_until = timestamp + Cache::SILENT_TIME;
    }

    /// Forgets all neighbours. The silence stays unchanged.
    pub fn flush(&mut self)
        ensures value { self.new ≡ record self.old { known = map.empty } }
        ensures of { (m : Medium) → AreOf m self.new }
    {
        self.entries.clear();
    }
}

// No entries: in storage or, if that has no capacity, in the cache itself.
fn entries_over(storage: Vec<(IpAddress, Neighbor)>) -> Entries
    ensures { result ≡ record { items = []; room = room_over (vec_capacity storage) } }
{
    if storage.capacity() == 0 {
        return Store::new();
    }
    Store::over(storage)
}

// As many hints as storage has capacity for.
fn hints_over(storage: Vec<Hints>) -> HintTable {
    let mut hints = Store::over(storage);
    while hints.len() < hints.room() {
        hints.push(Hints::default());
    }
    hints
}

// Whether two addresses are equal, by family and number. Written so, it takes fewer instructions than `==`.
#[inline(always)]
fn is_at(a: &IpAddress, b: &IpAddress) -> bool
    ensures { result ≡ eq_by_cmp address_cmp a.now b.now }
{
    match (a, b) {
        (IpAddress::Ipv4(x), IpAddress::Ipv4(y)) => x.bits == y.bits,
        (IpAddress::Ipv6(x), IpAddress::Ipv6(y)) => x.bits == y.bits,
        _ => false,
    }
}

// The place of an address's hints among so many, by the upper half of its product with the golden ratio.
fn place_of(address: &IpAddress, count: usize) -> usize {
    let folded = match address {
        IpAddress::Ipv4(v4) => u64::from(v4.bits),
        IpAddress::Ipv6(v6) => {
            (v6.bits / 0x1_0000_0000_0000_0000) as u64 ^ (v6.bits % 0x1_0000_0000_0000_0000) as u64
        }
    };
    let hash = folded.wrapping_mul(0x9e37_79b9_7f4a_7c15) / 0x1_0000_0000;
    (hash.wrapping_mul(count as u64) / 0x1_0000_0000) as usize
}

// The index of an address, if a hint of it is right.
#[inline(always)]
fn hinted(entries: &[(IpAddress, Neighbor)], hints: &[Hints], address: &IpAddress) -> Option<usize>
    requires { AreKeysDistinct address_cmp entries.now }
    ensures { IfSome result (λ i. (i < length entries.now) × (i ≡ entry.index_of address_cmp address.now entries.now)) }
{
    let hints = hints.get(place_of(address, hints.len()))?;
    for hint in &hints.indices {
        let index = usize::from(*hint);
        if index < entries.len() && is_at(address, &entries[index].0) {
            return Some(index);
        }
    }
    None
}

// Writes down the index of an address as the first of its hints, in place of the last.
#[inline(never)]
fn write_hint(hints: &mut HintTable, address: &IpAddress, index: usize) {
    let Ok(index) = u16::try_from(index) else {
        return;
    };
    let place = place_of(address, hints.len());
    if let Some(hints) = hints.as_mut_slice().get_mut(place) {
        let [first, second, third, _] = hints.indices;
        hints.indices = [index, first, second, third];
    }
}

// The neighbour at an address, if any.
#[inline(always)]
fn find_in(entries: &Entries, hints: &HintTable, address: &IpAddress) -> Option<Neighbor>
    requires { AreKeysDistinct address_cmp entries.now.items }
    ensures { result ≡ find address_cmp address.now entries.now.items }
{
    find_among(candidates(entries, hints, address), address)
}

// Entries among which an address has to be looked for: all in the cache itself, or in storage those from its own on.
#[inline(always)]
fn candidates<'a>(
    entries: &'a Entries,
    hints: &HintTable,
    address: &IpAddress,
) -> &'a [(IpAddress, Neighbor)]
    requires { AreKeysDistinct address_cmp entries.now.items }
    ensures { find address_cmp address.now result.now ≡ find address_cmp address.now entries.now.items }
{
    if entries.is_lent() {
        let address = *address;
        return from_own(entries.as_slice(), hints.as_slice(), &address);
    }
    entries.as_slice()
}

// The entries from that of an address on, found by its hints or, if none is right, by going over all.
#[inline(never)]
fn from_own<'a>(
    entries: &'a [(IpAddress, Neighbor)],
    hints: &[Hints],
    address: &IpAddress,
) -> &'a [(IpAddress, Neighbor)]
    requires { AreKeysDistinct address_cmp entries.now }
    ensures { find address_cmp address.now result.now ≡ find address_cmp address.now entries.now }
{
    if let Some(index) = hinted(entries, hints, address) {
        return &entries[index..];
    }
    from_own_among(entries, address)
}

// The same by going over all.
#[inline(never)]
fn from_own_among<'a>(
    entries: &'a [(IpAddress, Neighbor)],
    address: &IpAddress,
) -> &'a [(IpAddress, Neighbor)]
    ensures { find address_cmp address.now result.now ≡ find address_cmp address.now entries.now }
{
    let address = *address;
    &entries[index_of(entries, &address)..]
}

// The neighbour at an address among entries, by going over them.
#[inline(always)]
fn find_among(entries: &[(IpAddress, Neighbor)], address: &IpAddress) -> Option<Neighbor>
    ensures { result ≡ find address_cmp address.now entries.now }
{
    for e in entries {
        if is_at(address, &e.0) {
            return Some(e.1);
        }
    }
    None
}

// The index of an address, or the length, with a hint of it afterwards.
#[inline(always)]
fn index_hinting(entries: &Entries, hints: &mut HintTable, address: &IpAddress) -> usize
    requires { AreKeysDistinct address_cmp entries.now.items }
    ensures { result ≡ entry.index_of address_cmp address.now entries.now.items }
{
    if entries.is_lent() {
        let address = *address;
        return index_leaving_hint(entries.as_slice(), hints, &address);
    }
    index_of(entries.as_slice(), address)
}

// The same in storage. Marked as cold, so that the table in the cache itself keeps registers free for it only there.
#[inline(never)]
#[cold]
fn index_leaving_hint(
    entries: &[(IpAddress, Neighbor)],
    hints: &mut HintTable,
    address: &IpAddress,
) -> usize
    requires { AreKeysDistinct address_cmp entries.now }
    ensures { result ≡ entry.index_of address_cmp address.now entries.now }
{
    if let Some(index) = hinted(entries, hints.as_slice(), address) {
        return index;
    }
    index_to_hint(entries, hints, address)
}

// The index of an address by going over all, and a hint of it.
#[inline(never)]
fn index_to_hint(
    entries: &[(IpAddress, Neighbor)],
    hints: &mut HintTable,
    address: &IpAddress,
) -> usize
    ensures { result ≡ entry.index_of address_cmp address.now entries.now }
{
    let address = *address;
    let index = index_of(entries, &address);
    if index < entries.len() {
        write_hint(hints, &address, index);
    }
    index
}

// The same, without a hint and without a call.
#[inline(always)]
fn index_of(entries: &[(IpAddress, Neighbor)], address: &IpAddress) -> usize
    ensures value { result ≡ entry.index_of address_cmp address.now entries.now }
    ensures within { result ≤ length entries.now }
{
    for (i, e) in entries.iter().enumerate() {
        if is_at(address, &e.0) {
            return i;
        }
    }
    entries.len()
}

// The index of an entry with the earliest expiry: of several the last, so those that were learnt before others stay.
fn earliest(entries: &[(IpAddress, Neighbor)]) -> usize
    requires { 0 < length entries.now }
    ensures { IsEarliest entries.now result }
{
    let mut least = 0;
    for i in 0..entries.len() {
        if entries[i].1.expires_at <= entries[least].1.expires_at {
            least = i;
        }
    }
    least
}

// The index for a neighbour: that of its address, or one after all, or in a full table that of an entry with the
// earliest expiry, which makes room.
fn index_for(
    entries: &mut Entries,
    hints: &mut HintTable,
    address: &IpAddress,
    neighbor: &Neighbor,
) -> usize
    requires { IsKeptIn entries.old }
    ensures place { HasPlace entries.old.room entries.old.items entries.new.items address.now result }
    ensures room { entries.new.room ≡ entries.old.room }
{
    let place = index_hinting(entries, hints, address);
    let len = entries.len();
    if place < len {
        return place;
    }
    if len >= entries.room() {
        let place = earliest(entries.as_slice());
        write_hint(hints, address, place);
        return place;
    }
    entries.push((*address, *neighbor));
    write_hint(hints, address, place);
    place
}

// Stores a neighbour at its address. In a full table an entry with the earliest expiry makes room.
fn put_in(entries: &mut Entries, hints: &mut HintTable, address: IpAddress, neighbor: Neighbor)
    requires { IsKeptIn entries.old }
    ensures kept { IsKeptIn entries.new }
    ensures room { entries.new.room ≡ entries.old.room }
    ensures puts { Puts entries.old.room (map.from_entries entries.old.items) (map.from_entries entries.new.items) address neighbor }
{
    let place = index_for(entries, hints, &address, &neighbor);
    put_at(entries.as_mut_slice(), place, address, neighbor);
}

// Replaces the entry at an index.
fn put_at(
    entries: &mut [(IpAddress, Neighbor)],
    place: usize,
    address: IpAddress,
    neighbor: Neighbor,
)
    requires { place < length entries.old }
    ensures { entries.new ≡ slice_set entries.old place (address, neighbor) }
{
    entries[place] = (address, neighbor);
}

// Changes the expiry of the entry at an address, if it has this hardware address.
#[inline(always)]
fn renew_in(
    entries: &mut Entries,
    hints: &mut HintTable,
    address: &IpAddress,
    hardware_addr: &HardwareAddress,
    expires_at: Instant,
)
    requires { IsKeptIn entries.old }
    ensures kept { IsKeptIn entries.new }
    ensures room { entries.new.room ≡ entries.old.room }
    ensures renews { map.from_entries entries.new.items ≡ renewed_from (find address_cmp address.now entries.old.items)
        (map.from_entries entries.old.items) address.now hardware_addr.now expires_at }
{
    let place = index_hinting(entries, hints, address);
    renew(entries.as_mut_slice(), place, hardware_addr, expires_at);
}

// Changes the expiry of the entry at an index, if there is one that has this hardware address.
#[inline(always)]
fn renew(
    entries: &mut [(IpAddress, Neighbor)],
    place: usize,
    hardware_addr: &HardwareAddress,
    expires_at: Instant,
)
    ensures { entries.new ≡ renewed_at (slice_get entries.old place) entries.old place hardware_addr.now expires_at }
{
    if place >= entries.len() {
        return;
    }
    if entries[place].1.hardware_addr != *hardware_addr {
        return;
    }
    entries[place].1.expires_at = expires_at;
}

// Lets the entry at an address expire at an instant, if it would expire later.
fn limit_in(entries: &mut Entries, hints: &mut HintTable, address: &IpAddress, expires_at: Instant)
    requires { IsKeptIn entries.old }
    ensures kept { IsKeptIn entries.new }
    ensures room { entries.new.room ≡ entries.old.room }
    ensures limits { map.from_entries entries.new.items ≡ limited_from (find address_cmp address.now entries.old.items)
        (map.from_entries entries.old.items) address.now expires_at }
{
    let place = index_hinting(entries, hints, address);
    limit(entries.as_mut_slice(), place, expires_at);
}

// Lets the entry at an index, if there is one, expire at an instant, if it would expire later.
fn limit(entries: &mut [(IpAddress, Neighbor)], place: usize, expires_at: Instant)
    ensures { entries.new ≡ limited_at (slice_get entries.old place) entries.old place expires_at }
{
    if place >= entries.len() {
        return;
    }
    if entries[place].1.expires_at <= expires_at {
        return;
    }
    entries[place].1.expires_at = expires_at;
}

// The entry at an index of the list by rising expiry, if there is one.
fn nth_in(entries: &[(IpAddress, Neighbor)], index: usize) -> Option<(IpAddress, Neighbor)>
    ensures { result ≡ slice_get (sorted entries.now) index }
{
    if index >= entries.len() {
        return None;
    }
    let end = end_at(entries, index);
    let before = count_before(entries, end);
    expiring_at(entries, end, index - before)
}

// Its expiry, found by halves: an instant up to which so many and one more expire, and none before it does so.
fn end_at(entries: &[(IpAddress, Neighbor)], index: usize) -> Instant
    requires { index < length entries.now }
    ensures { IsEndAt entries.now index result }
{
    let mut low = first_end(entries);
    let mut width = (last_end(entries) - low).total_micros();
    while width > 0 {
        let half = width / 2;
        let next = low + Duration::from_micros(half + 1);
        if count_before(entries, next) > index {
            width = half;
        } else {
            low = next;
            width = width - half - 1;
        }
    }
    low
}

// The earliest expiry.
fn first_end(entries: &[(IpAddress, Neighbor)]) -> Instant
    requires { 0 < length entries.now }
    ensures { AreFrom result entries.now }
{
    entries[earliest(entries)].1.expires_at
}

// The latest expiry.
fn last_end(entries: &[(IpAddress, Neighbor)]) -> Instant
    requires { 0 < length entries.now }
    ensures { AreUpTo result entries.now }
{
    let mut end = entries[0].1.expires_at;
    for e in entries {
        if end < e.1.expires_at {
            end = e.1.expires_at;
        }
    }
    end
}

// How many expire before an instant.
fn count_before(entries: &[(IpAddress, Neighbor)], end: Instant) -> usize
    ensures { result ≡ spec.count_before end entries.now }
{
    let mut count = 0;
    for e in entries {
        if e.1.expires_at < end {
            count += 1;
        }
    }
    count
}

// How many expire after an instant.
fn count_after(entries: &[(IpAddress, Neighbor)], instant: Instant) -> usize
    ensures { result ≡ spec.count_later instant entries.now }
{
    let mut count = 0;
    for e in entries {
        if instant < e.1.expires_at {
            count += 1;
        }
    }
    count
}

// Of those that expire at an instant the one after so many others.
fn expiring_at(
    entries: &[(IpAddress, Neighbor)],
    end: Instant,
    others: usize,
) -> Option<(IpAddress, Neighbor)>
    ensures { result ≡ spec.expiring_at end others entries.now }
{
    let mut left = others;
    for e in entries {
        if e.1.expires_at == end {
            if left == 0 {
                return Some(*e);
            }
            left -= 1;
        }
    }
    None
}
