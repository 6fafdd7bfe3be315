//! Fragments that are put together.
use fragmentation::reassembly::{AssemblerError, AssemblerFullError};
use fragmentation::{FragKey, PacketAssembler, PacketAssemblerSet, reassemble};
use ip_wire::Ipv4Address;
use net_base::time::Instant;
use std::test::Fail;

const MINUTE: Instant = Instant { micros: 60_000_000 };

/// The key of fragments from 10.0.0.1 to 10.0.0.2.
const fn key(identification: u16) -> FragKey {
    FragKey {
        identification,
        src_addr: Ipv4Address { bits: 0x0a00_0001 },
        dst_addr: Ipv4Address { bits: 0x0a00_0002 },
        protocol: 17,
    }
}

/// Assembles the datagram, and says whether it is these octets. The place is free then.
fn assembles<K: Drop>(assembler: &mut PacketAssembler<K>, octets: &[u8]) -> bool {
    let was_complete = assembler.is_complete();
    let is_right = assembler.assemble() == Some(octets);
    was_complete && is_right && !assembler.is_complete()
}

fn lays_over(assembler: &mut PacketAssembler<u8>) -> bool {
    assembler.set_total_size(5) == Ok(())
        && assembler.add(b"Rust", 0) == Ok(())
        && assembler.add(b"Rust", 1) == Ok(())
        && assembles(assembler, b"RRust")
}

#[test]
fn the_last_octets_count(rt: HostRuntime) {
    assert!(rt; lays_over(&mut PacketAssembler::new()));
}

const HELLO: &[u8] = b"Hello ";

const WORLD: &[u8] = b"World!";

/// Whether two parts, each at its place, make the whole.
fn joins(
    assembler: &mut PacketAssembler<u8>,
    first: (&[u8], usize),
    second: (&[u8], usize),
) -> bool {
    assembler.set_total_size(12) == Ok(())
        && assembler.add(first.0, first.1) == Ok(())
        && assembler.assemble().is_none()
        && assembler.add(second.0, second.1) == Ok(())
        && assembles(assembler, b"Hello World!")
}

fn joins_in_any_order(assembler: &mut PacketAssembler<u8>) -> bool {
    joins(assembler, (HELLO, 0), (WORLD, 6)) && joins(assembler, (WORLD, 6), (HELLO, 0))
}

#[test]
fn parts_come_in_any_order(rt: HostRuntime) {
    assert!(rt; joins_in_any_order(&mut PacketAssembler::new()));
}

fn is_never_complete(assembler: &mut PacketAssembler<u8>) -> bool {
    assembler.set_total_size(8) == Ok(())
        && assembler.add(&[0; 12], 0) == Ok(())
        && assembler.assemble().is_none()
        && assembler.add(&[0; 8], 0) == Ok(())
        && assembler.assemble().is_none()
}

#[test]
fn octets_beyond_the_total_are_never_complete(rt: HostRuntime) {
    assert!(rt; is_never_complete(&mut PacketAssembler::new()));
}

/// Takes eight octets at each of these places.
fn takes_at(assembler: &mut PacketAssembler<u8>, offsets: &[usize]) -> bool {
    for offset in offsets {
        if assembler.add(&[1; 8], *offset) != Ok(()) {
            return false;
        }
    }
    true
}

fn leaves_a_fifth_range_out(assembler: &mut PacketAssembler<u8>) -> bool {
    takes_at(assembler, &[8, 24, 40, 56])
        && assembler.set_total_size(80) == Ok(())
        && assembler.add(&[2; 8], 72) == Ok(())
        && assembler.set_total_size(88) == Err(AssemblerError)
        && assembler.add(&[3; 72], 0) == Ok(())
        && assembler.assemble().is_none()
        && assembler.add(&[3; 80], 0) == Ok(())
        && assembles(assembler, &[3; 80])
}

#[test]
fn a_fifth_range_is_left_out(rt: HostRuntime) {
    assert!(rt; leaves_a_fifth_range_out(&mut PacketAssembler::new()));
}

/// Of 80 octets, 5 in each of the first 64 and 4 in the others.
fn joined() -> [u8; 80] {
    let mut octets = [4; 80];
    octets[..64].copy_from_slice(&[5; 64]);
    octets
}

fn takes_what_touches(assembler: &mut PacketAssembler<u8>) -> bool {
    takes_at(assembler, &[8, 24, 40, 56, 72])
        && assembler.add(&[4; 16], 64) == Ok(())
        && assembler.set_total_size(80) == Ok(())
        && assembler.add(&[5; 64], 0) == Ok(())
        && assembles(assembler, &joined())
}

#[test]
fn a_range_that_touches_is_taken(rt: HostRuntime) {
    assert!(rt; takes_what_touches(&mut PacketAssembler::new()));
}

/// Whether the place of a key, got for a minute, ends then.
fn ends_at(set: &mut PacketAssemblerSet<u8>, key: u8, end: Instant) -> bool {
    match set.get(&key, MINUTE) {
        Ok(assembler) => assembler.expires_at() == end,
        Err(_error) => false,
    }
}

#[test]
fn a_place_stays_of_its_key(rt: HostRuntime) {
    let mut set: PacketAssemblerSet<u8> = PacketAssemblerSet::new();
    let mut other: PacketAssemblerSet<u8> = PacketAssemblerSet::new();
    if let Ok(here) = set.get(&1, MINUTE)
        && let Ok(there) = other.get(&2, Instant::ZERO)
    {
        std::mem::swap(here, there);
    }
    assert!(rt; ends_at(&mut set, 2, MINUTE) && ends_at(&mut set, 1, Instant::ZERO));
}

/// Takes these octets at a place of a key's datagram of two octets, and says whether that is whole then.
fn gathers(
    set: &mut PacketAssemblerSet<u8>,
    key: u8,
    octets: &[u8],
    offset: usize,
    want: Option<&[u8]>,
) -> bool {
    match set.get(&key, MINUTE) {
        Ok(assembler) => assembler.add(octets, offset) == Ok(()) && assembler.assemble() == want,
        Err(_error) => false,
    }
}

#[test]
fn a_place_that_is_got_again_has_its_octets(rt: HostRuntime) {
    let mut set: PacketAssemblerSet<u8> = PacketAssemblerSet::new();
    let has_total = match set.get(&2, MINUTE) {
        Ok(assembler) => assembler.set_total_size(2) == Ok(()),
        Err(_error) => false,
    };
    let is_part = gathers(&mut set, 2, &[0], 0, None);
    let is_whole = gathers(&mut set, 2, &[1], 1, Some(&[0, 1]));
    assert!(rt; has_total && is_part && is_whole);
}

#[test]
fn pairs_and_keys_of_fragments_have_places(rt: HostRuntime) {
    let mut pairs: PacketAssemblerSet<(u16, u8)> = PacketAssemblerSet::new();
    let mut keys: PacketAssemblerSet<FragKey> = PacketAssemblerSet::new();
    for (k, fits) in [(0, true), (1, true), (4, false), (0, true)] {
        let is_right = pairs.get(&(k, 1), Instant::ZERO).is_ok() == fits
            && keys.get(&key(k), Instant::ZERO).is_ok() == fits;
        assert!(rt; is_right);
    }
    assert!(rt; pairs.get(&(0, 2), Instant::ZERO).is_err());
}

/// Whether keys have places in a set, or have none, one after the other.
fn have_places(set: &mut PacketAssemblerSet<u8>, keys: &[(u8, bool)]) -> bool {
    for (key, fits) in keys {
        if set.get(key, MINUTE).is_ok() != *fits {
            return false;
        }
    }
    true
}

#[test]
fn storage_has_a_place_for_each_of_its_slots(rt: HostRuntime) -> Result<(), Fail> {
    let keys = Vec::with_capacity(rt.alloc(), 5)?;
    let slots = Vec::with_capacity(rt.alloc(), 3)?;
    let mut set: PacketAssemblerSet<u8> = PacketAssemblerSet::new();
    set.set_storage(keys, slots);
    let are_there = have_places(
        &mut set,
        &[(0, true), (1, true), (2, true), (3, false), (1, true)],
    );
    set.remove_expired(Instant { micros: 60_000_001 });
    assert!(rt; are_there && set.get(&3, MINUTE).is_ok());
    Ok(())
}

#[test]
fn storage_without_capacity_leaves_two_slots(rt: HostRuntime) -> Result<(), Fail> {
    let keys = Vec::new(rt.alloc());
    let slots = Vec::with_capacity(rt.alloc(), 3)?;
    let mut set: PacketAssemblerSet<u8> = PacketAssemblerSet::new();
    set.set_storage(keys, slots);
    assert!(rt; have_places(&mut set, &[(0, true), (1, true), (2, false)]));
    Ok(())
}

/// Whether the only slot serves a key alone, once the one before has expired.
fn serves(set: &mut PacketAssemblerSet<u8>, key: u8) -> bool {
    set.remove_expired(Instant { micros: 60_000_001 });
    set.remove_expired(Instant { micros: 60_000_001 });
    let is_served = set.get(&key, MINUTE).is_ok();
    set.remove_expired(MINUTE);
    is_served && set.get(&0, MINUTE).is_err()
}

#[test]
fn a_slot_of_storage_serves_one_key_after_another(rt: HostRuntime) -> Result<(), Fail> {
    let keys = Vec::with_capacity(rt.alloc(), 1)?;
    let slots = Vec::with_capacity(rt.alloc(), 1)?;
    let mut set: PacketAssemblerSet<u8> = PacketAssemblerSet::new();
    set.set_storage(keys, slots);
    assert!(rt; serves(&mut set, 1) && serves(&mut set, 2) && serves(&mut set, 3));
    Ok(())
}

/// Whether a datagram of a key is complete as soon as it has a total of none.
fn is_complete_without_octets(set: &mut PacketAssemblerSet<u8>, key: u8) -> bool {
    match set.get(&key, Instant::ZERO) {
        Ok(assembler) => {
            assembler.assemble().is_none()
                && assembler.set_total_size(0) == Ok(())
                && assembles(assembler, b"")
        }
        Err(_error) => false,
    }
}

#[test]
fn a_total_of_none_is_complete(rt: HostRuntime) {
    let mut set: PacketAssemblerSet<u8> = PacketAssemblerSet::new();
    let are_complete = is_complete_without_octets(&mut set, 0)
        && is_complete_without_octets(&mut set, 0)
        && is_complete_without_octets(&mut set, 1)
        && is_complete_without_octets(&mut set, 2);
    assert!(rt; are_complete);
}

/// A fragment of the datagram of a key: its octets, where they stand, whether it is the last one, and
/// what is lent when it has come.
type Taken = (u16, &'static [u8], usize, bool, Option<&'static [u8]>);

/// Whether the fragments are taken so, one after the other.
fn are_taken(fragments: &[Taken]) -> bool {
    let mut set: PacketAssemblerSet<FragKey> = PacketAssemblerSet::new();
    for (number, octets, offset, is_last, want) in fragments {
        let lent = reassemble(&mut set, &key(*number), MINUTE, octets, *offset, *is_last);
        if lent != *want {
            return false;
        }
    }
    true
}

#[test]
fn fragments_are_put_together_by_their_key(rt: HostRuntime) {
    assert!(rt;
        are_taken(&[
            (1, b"01234567", 0, false, None),
            (2, b"cdef", 8, true, None),
            (3, b"x", 0, true, None),
            (1, b"89", 8, true, Some(b"0123456789")),
            (3, b"x", 0, true, Some(b"x")),
            (2, b"456789ab", 0, false, Some(b"456789abcdef")),
        ])
    );
}

#[test]
fn another_end_is_not_taken(rt: HostRuntime) {
    assert!(rt;
        are_taken(&[
            (1, b"ab", 8, true, None),
            (1, b"cdefghijklm", 0, true, None),
            (1, b"01234567", 0, false, Some(b"01234567ab")),
        ])
    );
}

#[test]
fn errors_print_their_names(rt: HostRuntime) -> Result<(), Fail> {
    let text = match format!(in rt.alloc(); "{} {}", AssemblerError, AssemblerFullError) {
        Ok(text) => text,
        Err(_) => format!(in rt.alloc(); "{} {}", AssemblerError, AssemblerFullError)?,
    };
    assert_eq!(rt; text.as_str(), "AssemblerError AssemblerFullError");
    Ok(())
}
