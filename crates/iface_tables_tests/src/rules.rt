//! Own addresses that are defended.
use crate::frames::{HARDWARE, Kind, OWN, at, hardware, octets_of};
use guard::{Watch, announcement};
use ip_wire::{EthernetAddress, Ipv4Address};

/// When an own address is claimed, in milliseconds, how often it may be defended, in microseconds, and whether an
/// announcement is owed then.
const CLAIMS: [(u32, u64, bool); 6] = [
    (1_000, 0, false),
    (1_001, 10_000_000, true),
    (2_000, 10_000_000, false),
    (11_000, 10_000_000, false),
    (11_001, 10_000_000, true),
    (11_002, 10_000_000, false),
];

/// Whether a claim of an own address passes at this many milliseconds.
fn is_claim_admitted(watch: &mut Watch, millis: u32) -> bool {
    let claim = octets_of(&(Kind::Arp(1), &[]));
    watch.admits(at(millis), claim.as_slice(), hardware(), &OWN)
}

/// The place of the first claim that is answered otherwise.
fn first_other_claim(watch: &mut Watch) -> Option<usize> {
    for (place, (millis, interval, owed)) in CLAIMS.iter().enumerate() {
        watch.defence.interval = *interval;
        if is_claim_admitted(watch, *millis)
            || watch.announcement_due(hardware()).is_some() != *owed
        {
            return Some(place);
        }
    }
    None
}

// A guard that defends its address each ten seconds answers these of the claims; if it is off, none.
#[test]
fn a_claim_is_answered_in_ten_seconds(rt: HostRuntime) {
    assert!(rt; first_other_claim(&mut Watch::new()).is_none());
}

/// An announcement is a broadcast ARP request from the address and for it (RFC 5227 1.1, 2.3).
const ANNOUNCEMENT: [u8; 42] = [
    0xff, 0xff, 0xff, 0xff, 0xff, 0xff, 2, 0, 0, 0, 0, 1, 0x08, 0x06, 0, 1, 0x08, 0, 6, 4, 0, 1, 2,
    0, 0, 0, 0, 1, 192, 168, 1, 1, 0, 0, 0, 0, 0, 0, 192, 168, 1, 1,
];

#[test]
fn an_announcement_is_a_request_for_itself(rt: HostRuntime) {
    let frame = announcement(EthernetAddress(HARDWARE), Ipv4Address { bits: 0xc0a8_0101 });
    assert!(rt; frame == ANNOUNCEMENT);
}
