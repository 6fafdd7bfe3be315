//! The cache of neighbours.
use iface_tables::neighbor::{Answer, Cache};
use ip_wire::{EthernetAddress, HardwareAddress, IpAddress, Ipv4Address, Ipv6Address};
use net_base::time::Instant;
use std::alloc::{AllocError, Global};

/// 10.0.0.1 to 10.0.0.4, and fe80::5.
const FIRST: IpAddress = IpAddress::Ipv4(Ipv4Address { bits: 0x0a00_0001 });

const SECOND: IpAddress = IpAddress::Ipv4(Ipv4Address { bits: 0x0a00_0002 });

const THIRD: IpAddress = IpAddress::Ipv4(Ipv4Address { bits: 0x0a00_0003 });

const FOURTH: IpAddress = IpAddress::Ipv4(Ipv4Address { bits: 0x0a00_0004 });

const FIFTH: IpAddress = IpAddress::Ipv6(Ipv6Address {
    bits: 0xfe80_0000_0000_0000_0000_0000_0000_0005,
});

const LINK_A: HardwareAddress = HardwareAddress::Ethernet(EthernetAddress([0, 0, 0, 0, 0, 1]));

const LINK_B: HardwareAddress = HardwareAddress::Ethernet(EthernetAddress([0, 0, 0, 0, 0, 2]));

fn is_known_until_its_end(cache: &mut Cache) -> bool {
    let was_unknown = cache.lookup(&FIRST, Instant::ZERO) == Answer::NotFound;
    cache.fill(FIRST, LINK_A, Instant::ZERO);
    was_unknown
        && cache.lookup(&FIRST, Instant::ZERO) == Answer::Found(LINK_A)
        && cache.lookup(&FIRST, Instant::from_secs(120)) == Answer::NotFound
}

#[test]
fn a_neighbor_is_known_until_its_end(rt: HostRuntime) {
    assert!(rt; is_known_until_its_end(&mut Cache::new()));
}

fn is_replaced(cache: &mut Cache) -> bool {
    cache.fill(FIRST, LINK_A, Instant::ZERO);
    cache.fill(FIRST, LINK_B, Instant::ZERO);
    cache.lookup(&FIRST, Instant::ZERO) == Answer::Found(LINK_B)
        && cache.nth_by_expiry(0).is_some()
        && cache.nth_by_expiry(1).is_none()
}

#[test]
fn a_neighbor_is_replaced(rt: HostRuntime) {
    assert!(rt; is_replaced(&mut Cache::new()));
}

/// What a cache answers at a second, of the five neighbours.
fn answers(cache: &Cache) -> [Answer; 5] {
    let second = Instant::from_secs(1);
    [
        cache.lookup(&FIRST, second),
        cache.lookup(&SECOND, second),
        cache.lookup(&THIRD, second),
        cache.lookup(&FOURTH, second),
        cache.lookup(&FIFTH, second),
    ]
}

/// Learns four neighbours, of whom the second one ends first.
fn learn_four(cache: &mut Cache) {
    cache.fill(FIRST, LINK_A, Instant::from_millis(100));
    cache.fill(SECOND, LINK_A, Instant::from_millis(50));
    cache.fill(THIRD, LINK_A, Instant::from_millis(200));
    cache.fill(FOURTH, LINK_A, Instant::from_millis(250));
}

/// The second one, or the first one, isn't known.
const WITHOUT_SECOND: [Answer; 5] = [
    Answer::Found(LINK_A),
    Answer::NotFound,
    Answer::Found(LINK_A),
    Answer::Found(LINK_A),
    Answer::Found(LINK_B),
];

const WITHOUT_FIRST: [Answer; 5] = [
    Answer::NotFound,
    Answer::Found(LINK_A),
    Answer::Found(LINK_A),
    Answer::Found(LINK_A),
    Answer::Found(LINK_B),
];

fn makes_room(cache: &mut Cache) -> bool {
    learn_four(cache);
    cache.fill(FIFTH, LINK_B, Instant::from_millis(300));
    answers(cache) == WITHOUT_SECOND
}

#[test]
fn one_of_least_end_makes_room(rt: HostRuntime) {
    assert!(rt; makes_room(&mut Cache::new()));
}

/// A tenth of a second, and two seconds.
const SOON: Instant = Instant { micros: 100_000 };

const LATER: Instant = Instant { micros: 2_000_000 };

fn is_silent_to_all(cache: &mut Cache) -> bool {
    cache.fill(FIRST, LINK_A, Instant::ZERO);
    let was_unknown = cache.lookup(&SECOND, Instant::ZERO) == Answer::NotFound;
    cache.limit_rate(Instant::ZERO);
    was_unknown
        && cache.lookup(&FIRST, SOON) == Answer::Found(LINK_A)
        && cache.lookup(&SECOND, SOON) == Answer::RateLimited
        && cache.lookup(&FIFTH, SOON) == Answer::RateLimited
}

fn stays_silent_behind_a_flush(cache: &mut Cache) -> bool {
    cache.flush();
    cache.lookup(&FIRST, SOON) == Answer::RateLimited
        && cache.lookup(&SECOND, LATER) == Answer::NotFound
        && !cache.lookup(&FIRST, LATER).found()
}

#[test]
fn a_silence_is_for_all_and_outlasts_a_flush(rt: HostRuntime) {
    let mut cache = Cache::new();
    assert!(rt; is_silent_to_all(&mut cache) && stays_silent_behind_a_flush(&mut cache));
}

/// Whether a cache has these neighbours alone, in order: each address, and when it ends.
fn has(cache: &Cache, wanted: &[(IpAddress, Instant)]) -> bool {
    for (i, wanted) in wanted.iter().enumerate() {
        match cache.nth_by_expiry(i) {
            Some(stored) if stored.0 == wanted.0 && stored.1.expires_at() == wanted.1 => {}
            _ => return false,
        }
    }
    cache.nth_by_expiry(wanted.len()).is_none()
}

/// The neighbours by their ends, once the second one was renewed and the fifth one took the place of the first one.
const RENEWED: [(IpAddress, Instant); 4] = [
    (THIRD, Instant { micros: 60_200_000 }),
    (FOURTH, Instant { micros: 60_250_000 }),
    (SECOND, Instant { micros: 60_300_000 }),
    (FIFTH, Instant { micros: 60_400_000 }),
];

/// The same once the first one took the place of the third one.
const LEARNT_AGAIN: [(IpAddress, Instant); 4] = [
    (FIRST, Instant { micros: 60_010_000 }),
    (FOURTH, Instant { micros: 60_250_000 }),
    (SECOND, Instant { micros: 60_300_000 }),
    (FIFTH, Instant { micros: 60_400_000 }),
];

fn stand_by_their_ends(cache: &mut Cache) -> bool {
    learn_four(cache);
    cache.reset_expiry_if_existing(SECOND, LINK_A, Instant::from_millis(300));
    cache.fill(FIFTH, LINK_B, Instant::from_millis(400));
    answers(cache) == WITHOUT_FIRST && has(cache, &RENEWED)
}

fn is_learnt_again(cache: &mut Cache) -> bool {
    let second = Instant::from_secs(1);
    cache.fill(FIRST, LINK_B, Instant::from_millis(10));
    cache.lookup(&THIRD, second) == Answer::NotFound
        && cache.lookup(&FIRST, second) == Answer::Found(LINK_B)
        && cache.lookup(&FIRST, Instant::from_millis(60_010)) == Answer::NotFound
        && has(cache, &LEARNT_AGAIN)
}

#[test]
fn neighbors_stand_by_their_ends(rt: HostRuntime) {
    let mut cache = Cache::new();
    assert!(rt; stand_by_their_ends(&mut cache) && is_learnt_again(&mut cache));
}

/// A cache that has learnt five neighbours, one after the other.
fn with_five(mut cache: Cache) -> Cache {
    cache.fill(FIRST, LINK_A, Instant::from_millis(100));
    cache.fill(SECOND, LINK_A, Instant::from_millis(150));
    cache.fill(THIRD, LINK_A, Instant::from_millis(200));
    cache.fill(FOURTH, LINK_A, Instant::from_millis(250));
    cache.fill(FIFTH, LINK_B, Instant::from_millis(300));
    cache
}

/// Those five by their ends.
const FIVE: [(IpAddress, Instant); 5] = [
    (FIRST, Instant { micros: 60_100_000 }),
    (SECOND, Instant { micros: 60_150_000 }),
    (THIRD, Instant { micros: 60_200_000 }),
    (FOURTH, Instant { micros: 60_250_000 }),
    (FIFTH, Instant { micros: 60_300_000 }),
];

/// Whether a cache over storage for so many neighbours, and for so many hints, knows those of the five from this one on.
fn knows_from(alloc: Global, neighbors: usize, hints: usize, first: usize) -> bool {
    match (with_room(alloc, neighbors, hints), FIVE.get(first..)) {
        (Ok(cache), Some(last)) => has(&with_five(cache), last),
        _ => false,
    }
}

/// No storage leaves the room of the cache itself.
#[test]
fn storage_has_room_for_as_many_as_its_capacity(rt: HostRuntime) {
    let alloc = rt.alloc();
    let is_right = knows_from(alloc, 5, 5, 0)
        && knows_from(alloc, 1, 0, 4)
        && knows_from(alloc, 0, 0, 1);
    assert!(rt; is_right);
}

/// Whether a cache that is silent forgets all but that in other storage, and knows two then.
fn is_changed(alloc: Global) -> Result<bool, AllocError> {
    let two = Vec::with_capacity(alloc, 2)?;
    let hints = Vec::with_capacity(alloc, 2)?;
    let mut cache = with_five(Cache::new());
    cache.limit_rate(Instant::ZERO);
    cache.set_storage(two, hints);
    let is_empty = has(&cache, &[]) && cache.lookup(&FIRST, SOON) == Answer::RateLimited;
    let mut cache = with_five(cache);
    cache.flush();
    let five = &FIVE[..];
    Ok(is_empty && has(&with_five(cache), &five[3..]))
}

#[test]
fn storage_is_changed_without_a_trace_but_the_silence(rt: HostRuntime) {
    assert!(rt; is_changed(rt.alloc()) == Ok(true));
}

/// 10.1.0.0 and those after it.
fn address(number: u16) -> IpAddress {
    IpAddress::Ipv4(Ipv4Address {
        bits: 0x0a01_0000 + u32::from(number),
    })
}

/// A cache with so much room for neighbours and for hints.
fn with_room(alloc: Global, neighbors: usize, hints: usize) -> Result<Cache, AllocError> {
    let storage = Vec::with_capacity(alloc, neighbors)?;
    Ok(Cache::with_storage(storage, Vec::with_capacity(alloc, hints)?))
}

/// Learns these addresses, each a millisecond after the one before.
fn learn(cache: &mut Cache, numbers: &[u16], first: i64) {
    for (i, number) in numbers.iter().enumerate() {
        let learnt = address(*number);
        if learnt.is_unicast() && first >= 0 && first < 1000 && i < 1000 {
            cache.fill(learnt, LINK_A, Instant::from_millis(first + i as i64));
        }
    }
}

/// Whether a cache knows all of these addresses after a minute, or none of them.
fn knows(cache: &Cache, numbers: &[u16], all: bool) -> bool {
    let minute = Instant::from_secs(60);
    for number in numbers {
        let asked = address(*number);
        if !asked.is_unicast() || cache.lookup(&asked, minute).found() != all {
            return false;
        }
    }
    true
}

/// The numbers below 200.
fn numbers(alloc: Global) -> Result<Vec<u16>, AllocError> {
    let mut numbers = Vec::with_capacity(alloc, 200)?;
    for number in 0..200u16 {
        numbers.push(number)?;
    }
    Ok(numbers)
}

/// Whether a cache with room for 64 knows the last 64 of 200 that it learns, and forgets all when it is flushed.
fn knows_the_last(alloc: Global, hints: usize) -> Result<bool, AllocError> {
    let numbers = numbers(alloc)?;
    let Some((old, last)) = numbers.as_slice().split_at_checked(136) else {
        return Ok(false);
    };
    let mut cache = with_room(alloc, 64, hints)?;
    learn(&mut cache, numbers.as_slice(), 1);
    let is_right = knows(&cache, old, false) && knows(&cache, last, true);
    cache.flush();
    let forgets = knows(&cache, numbers.as_slice(), false);
    learn(&mut cache, old, 1);
    Ok(is_right && forgets && knows(&cache, last, false) && knows(&cache, &old[72..], true))
}

/// Without hints, with those of one place for all, of a few, and of as many as neighbours.
const HINTS: [usize; 4] = [0, 1, 7, 64];

fn knows_the_last_always(alloc: Global) -> bool {
    for hints in &HINTS {
        if knows_the_last(alloc, *hints) != Ok(true) {
            return false;
        }
    }
    true
}

#[test]
fn neighbors_are_found_with_however_many_hints(rt: HostRuntime) {
    assert!(rt; knows_the_last_always(rt.alloc()));
}

/// Renews these addresses, each a millisecond after the one before.
fn renew(cache: &mut Cache, numbers: &[u16], first: i64) {
    for (i, number) in numbers.iter().enumerate() {
        if first >= 0 && first < 1000 && i < 1000 {
            let moment = Instant::from_millis(first + i as i64);
            cache.reset_expiry_if_existing(address(*number), LINK_A, moment);
        }
    }
}

/// Whether those that aren't renewed make room, in the order in which they were learnt, and then the others, in the order
/// in which they were renewed.
fn makes_room_by_turns(alloc: Global, hints: usize) -> Result<bool, AllocError> {
    let mut cache = with_room(alloc, 8, hints)?;
    learn(&mut cache, &[0, 1, 2, 3, 4, 5, 6, 7], 1);
    renew(&mut cache, &[3, 1, 0, 2], 100);
    let order = [4, 5, 6, 7, 3, 1, 0, 2];
    let mut is_right = knows(&cache, &order, true);
    for i in 0..8 {
        learn(&mut cache, &[20 + i as u16], 200 + i as i64);
        is_right &= knows(&cache, &order[..i + 1], false) && knows(&cache, &order[i + 1..], true);
    }
    Ok(is_right && knows(&cache, &[20, 21, 22, 23, 24, 25, 26, 27], true))
}

/// Without hints, with those of one place for all, and of as many as neighbours.
const FEW_HINTS: [usize; 3] = [0, 1, 8];

fn makes_room_by_turns_always(alloc: Global) -> bool {
    for hints in &FEW_HINTS {
        if makes_room_by_turns(alloc, *hints) != Ok(true) {
            return false;
        }
    }
    true
}

#[test]
fn renewals_by_turns_choose_who_makes_room(rt: HostRuntime) {
    assert!(rt; makes_room_by_turns_always(rt.alloc()));
}

/// The ends of all moments, and those about the origin.
const LEAST: Instant = Instant { micros: i64::MIN };

const BEFORE: Instant = Instant { micros: -1 };

const BEHIND: Instant = Instant { micros: 1 };

const MOST: Instant = Instant { micros: i64::MAX };

const OF_ALL_ENDS: [(IpAddress, Instant); 5] = [
    (FIFTH, LEAST),
    (THIRD, BEFORE),
    (SECOND, Instant::ZERO),
    (FOURTH, BEHIND),
    (FIRST, MOST),
];

fn are_told_in_order(cache: &mut Cache) -> bool {
    cache.fill_with_expiration(FIRST, LINK_A, MOST);
    cache.fill_with_expiration(SECOND, LINK_A, Instant::ZERO);
    cache.fill_with_expiration(THIRD, LINK_A, BEFORE);
    cache.fill_with_expiration(FOURTH, LINK_A, BEHIND);
    cache.fill_with_expiration(FIFTH, LINK_B, LEAST);
    has(cache, &OF_ALL_ENDS)
}

#[test]
fn neighbors_of_all_ends_are_told_in_order(rt: HostRuntime) {
    let mut cache = with_room(rt.alloc(), 6, 6).expect(&rt, "room");
    assert!(rt; are_told_in_order(&mut cache));
}
