//! What a guard lets through of strangers, of claims of own addresses, and of what only looks ordinary.
use crate::frames::{Change, Frame, HARDWARE, Kind, OWN, at, hardware, octets_of};
use guard::guard::{Guard, Reason};
use guard::watch::{Conflict, Watch};
use ip_wire::{EthernetAddress, IpAddress, Ipv4Address};
use net_base::bucket::Bucket;
use net_base::time::Instant;

/// A frame, and why it is dropped.
type Row = (Frame, Option<Reason>);

/// What becomes of a frame.
fn judged(guard: &Guard, frame: &Frame) -> Option<Reason> {
    let octets = octets_of(frame);
    guard.judge(octets.as_slice(), hardware(), &OWN)
}

/// Judges frames one after the other, and gives the place of the first row that says otherwise.
fn first_wrong(guard: &Guard, rows: &[Row]) -> Option<usize> {
    for (place, (frame, reason)) in rows.iter().enumerate() {
        if judged(guard, frame) != *reason {
            return Some(place);
        }
    }
    None
}

/// The same for a guard by the usual rules.
fn first_wrong_usually(rows: &[Row]) -> Option<usize> {
    first_wrong(&Guard::new(), rows)
}

/// Strangers' ARP packets for the host and for others pass (RFC 826), and so do their neighbour messages, pings, datagrams,
/// segments, queries and advertisements (RFC 4861 4.1 to 4.4, RFC 2236 2, RFC 3810 5.1).
const OF_STRANGERS: [Row; 10] = [
    ((Kind::Arp(10), &[]), None),
    ((Kind::Arp(10), &[Change::Octets(41, &[9])]), None),
    ((Kind::Icmpv6(135, 13, 1), &[]), None),
    ((Kind::BehindOptions(136, 15, 15), &[]), None),
    ((Kind::Ipv4(1, 1, 77, 8), &[]), None),
    ((Kind::Ipv4(17, 1, 77, 0x27), &[]), None),
    ((Kind::Ipv4(6, 1, 77, 0x27), &[]), None),
    ((Kind::Ipv4(2, 1, 2, 0x11), &[]), None),
    ((Kind::BehindOptions(130, 9, 0), &[]), None),
    ((Kind::Icmpv6(134, 5, 0), &[]), None),
];

#[test]
fn strangers_pass(rt: HostRuntime) {
    assert!(rt; first_wrong_usually(&OF_STRANGERS).is_none());
}

/// Nobody claims an address of the host.
const CLAIMS: [Row; 4] = [
    ((Kind::Arp(1), &[]), Some(Reason::OwnAddress)),
    ((Kind::Icmpv6(136, 9, 1), &[]), Some(Reason::OwnAddress)),
    ((Kind::Icmpv6(135, 1, 7), &[]), Some(Reason::OwnAddress)),
    ((Kind::Ipv4(17, 1, 1, 0), &[]), Some(Reason::OwnSource)),
];

/// Who has no address yet isn't told from others (RFC 5227 2.1).
const PROBE: [Row; 1] = [((Kind::Arp(0), &[Change::Octets(28, &[0, 0, 0])]), None)];

#[test]
fn own_addresses_are_claimed_by_nobody(rt: HostRuntime) {
    let are_claimed = first_wrong_usually(&CLAIMS).is_none();
    assert!(rt; are_claimed && first_wrong_usually(&PROBE).is_none());
}

/// From the own hardware address, and telling it.
const FROM_OWN: Change = Change::Octets(6, &HARDWARE);

const TELLING_OWN: Change = Change::Octets(22, &HARDWARE);

const FROM_NINTH: Change = Change::Octets(6, &[2, 0, 0, 0, 0, 9]);

/// What comes from the own hardware address and tells that one is no conflict: an ARP packet by the source of the frame and
/// by that in the packet (RFC 826), so what the host sends may come back to it.
const OWN_ARP: [Row; 3] = [
    ((Kind::Arp(1), &[FROM_OWN]), Some(Reason::OwnAddress)),
    ((Kind::Arp(1), &[FROM_OWN, TELLING_OWN]), None),
    (
        (Kind::Arp(1), &[FROM_OWN, TELLING_OWN, FROM_NINTH]),
        Some(Reason::OwnAddress),
    ),
];

#[test]
fn own_arp_comes_back(rt: HostRuntime) {
    assert!(rt; first_wrong_usually(&OWN_ARP).is_none());
}

const OWN_OPTION: Change = Change::Octets(80, &HARDWARE);

/// A neighbour message has no option, or just one, with that address (RFC 4861 4.6.1).
const OWN_MESSAGES: [Row; 4] = [
    (
        (Kind::Icmpv6(136, 1, 1), &[FROM_OWN]),
        Some(Reason::OwnAddress),
    ),
    (
        (Kind::Icmpv6(136, 1, 1), &[FROM_OWN, Change::Len(78)]),
        None,
    ),
    ((Kind::Icmpv6(136, 1, 1), &[FROM_OWN, OWN_OPTION]), None),
    (
        (
            Kind::Icmpv6(136, 1, 1),
            &[FROM_OWN, OWN_OPTION, Change::Len(94)],
        ),
        Some(Reason::OwnAddress),
    ),
];

#[test]
fn own_messages_come_back(rt: HostRuntime) {
    assert!(rt; first_wrong_usually(&OWN_MESSAGES).is_none());
}

/// A datagram from an own address to itself, from port 7 to port 7.
const TO_ITSELF: Change = Change::Octets(34, &[0, 7, 0, 7]);

/// A packet from an own address comes back from the own hardware address, also to a small service; but not from another one.
const OWN_PACKETS: [Row; 3] = [
    (
        (Kind::Ipv4(17, 1, 1, 0), &[TO_ITSELF]),
        Some(Reason::OwnSource),
    ),
    ((Kind::Ipv4(17, 1, 1, 0), &[TO_ITSELF, FROM_OWN]), None),
    (
        (
            Kind::Ipv4(17, 1, 1, 0),
            &[TO_ITSELF, FROM_OWN, Change::Octets(29, &[9])],
        ),
        Some(Reason::Loop),
    ),
];

/// What becomes of an own packet where there are no hardware addresses.
fn judged_without_hardware(guard: &Guard) -> Option<Reason> {
    let octets = octets_of(&(Kind::Ipv4(17, 1, 1, 0), &[TO_ITSELF, FROM_OWN]));
    guard.judge(octets.as_slice(), None, &OWN)
}

#[test]
fn own_packets_come_back(rt: HostRuntime) {
    let guard = Guard::new();
    let is_stolen = judged_without_hardware(&guard) == Some(Reason::OwnSource);
    assert!(rt; is_stolen && first_wrong(&guard, &OWN_PACKETS).is_none());
}

/// The second neighbour tells its own hardware address, and not that of the ninth.
const SECOND_ITSELF: Frame = (Kind::Arp(2), &[Change::Octets(22, &[2, 0, 0, 0, 0, 2])]);

/// Of a pinned neighbour messages pass that tell its hardware address, and no others; of others they pass.
const PINNED: [Row; 3] = [
    ((Kind::Arp(2), &[]), Some(Reason::Pinned)),
    ((Kind::Arp(3), &[]), None),
    (SECOND_ITSELF, None),
];

const MOVED: [Row; 2] = [
    (SECOND_ITSELF, Some(Reason::Pinned)),
    ((Kind::Arp(2), &[]), None),
];

const UNPINNED: [Row; 1] = [(SECOND_ITSELF, None)];

fn are_pinned_and_moved(guard: &mut Guard) -> bool {
    let address = IpAddress::Ipv4(Ipv4Address { bits: 0xc0a8_0102 });
    guard.pins.pin(address, EthernetAddress([2, 0, 0, 0, 0, 2]))
        && first_wrong(guard, &PINNED).is_none()
        && guard.pins.pin(address, EthernetAddress([2, 0, 0, 0, 0, 9]))
        && first_wrong(guard, &MOVED).is_none()
        && guard.pins.unpin(address)
        && !guard.pins.unpin(address)
        && first_wrong(guard, &UNPINNED).is_none()
}

#[test]
fn pinned_neighbors_stay(rt: HostRuntime) {
    assert!(rt; are_pinned_and_moved(&mut Guard::new()));
}

/// Whether the neighbour of a number can be pinned.
fn is_pinned(guard: &mut Guard, bits: u32) -> bool {
    let address = IpAddress::Ipv4(Ipv4Address { bits });
    guard.pins.pin(address, EthernetAddress([2, 0, 0, 0, 0, 2]))
}

fn are_eight_pinned(guard: &mut Guard) -> bool {
    for bits in 1..9 {
        if !is_pinned(guard, bits) {
            return false;
        }
    }
    true
}

// Eight neighbours are pinned at most.
#[test]
fn eight_are_pinned(rt: HostRuntime) {
    let mut guard = Guard::new();
    let third = IpAddress::Ipv4(Ipv4Address { bits: 3 });
    let is_full = are_eight_pinned(&mut guard)
        && !is_pinned(&mut guard, 9)
        && is_pinned(&mut guard, 8);
    assert!(rt; is_full && guard.pins.unpin(third) && is_pinned(&mut guard, 9));
}

/// Datagrams from the ports of echo, daytime, quote and chargen (RFC 862, 867, 865, 864) to one below 1,024 are dropped, but
/// not those of other ports, and no fragment by what it has in the place of ports.
const LOOPS: [Row; 15] = [
    ((Kind::Ports(7, 0x0007), &[]), Some(Reason::Loop)),
    ((Kind::Ports(7, 0x03ff), &[]), Some(Reason::Loop)),
    ((Kind::Ports(7, 0x0400), &[]), None),
    ((Kind::Ports(13, 0x0007), &[]), Some(Reason::Loop)),
    ((Kind::Ports(13, 0x03ff), &[]), Some(Reason::Loop)),
    ((Kind::Ports(13, 0x0400), &[]), None),
    ((Kind::Ports(17, 0x0007), &[]), Some(Reason::Loop)),
    ((Kind::Ports(17, 0x03ff), &[]), Some(Reason::Loop)),
    ((Kind::Ports(17, 0x0400), &[]), None),
    ((Kind::Ports(19, 0x0007), &[]), Some(Reason::Loop)),
    ((Kind::Ports(19, 0x03ff), &[]), Some(Reason::Loop)),
    ((Kind::Ports(19, 0x0400), &[]), None),
    ((Kind::Ports(9, 7), &[]), None),
    ((Kind::Ports(0x0107, 7), &[]), None),
    ((Kind::Ports(7, 7), &[Change::Octets(21, &[1])]), None),
];

const LOOPS_IF_TOLD: [Row; 1] = [((Kind::Ports(7, 7), &[]), None)];

#[test]
fn loops_are_dropped(rt: HostRuntime) {
    let mut guard = Guard::new();
    let are_dropped = first_wrong(&guard, &LOOPS).is_none();
    guard.drops_loops = false;
    assert!(rt; are_dropped && first_wrong(&guard, &LOOPS_IF_TOLD).is_none());
}

/// The first fragment of a packet, by the flag MF (RFC 791 3.1), and one of IPv6, by next header 44 (RFC 8200 4.5).
const FIRST_FRAGMENT: Frame = (Kind::Ports(9, 9), &[Change::Octets(20, &[0x20])]);

const FRAGMENT_OF_IPV6: Frame = (Kind::Icmpv6(1, 9, 9), &[Change::Octets(20, &[44])]);

/// Fragments pass, unless they are to be dropped.
const FRAGMENTS: [Row; 2] = [(FIRST_FRAGMENT, None), (FRAGMENT_OF_IPV6, None)];

/// An offset makes a fragment, and DF doesn't.
const FRAGMENTS_IF_TOLD: [Row; 4] = [
    (FIRST_FRAGMENT, Some(Reason::Fragment)),
    (
        (Kind::Ports(9, 9), &[Change::Octets(20, &[0x1f, 0xff])]),
        Some(Reason::Fragment),
    ),
    (FRAGMENT_OF_IPV6, Some(Reason::Fragment)),
    ((Kind::Ports(9, 9), &[Change::Octets(20, &[0x40])]), None),
];

#[test]
fn fragments_are_dropped_if_told(rt: HostRuntime) {
    let mut guard = Guard::new();
    let pass = first_wrong(&guard, &FRAGMENTS).is_none();
    guard.drops_fragments = true;
    assert!(rt; pass && first_wrong(&guard, &FRAGMENTS_IF_TOLD).is_none());
}

/// Whether a frame passes a guard on its post, at this many milliseconds.
fn admits(watch: &mut Watch, millis: u32, frame: &Frame) -> bool {
    let octets = octets_of(frame);
    watch.admits(at(millis), octets.as_slice(), hardware(), &OWN)
}

/// A frame at this many milliseconds, and whether it passes.
const ADMITTED: [(u32, Frame, bool); 4] = [
    (1000, (Kind::Arp(1), &[]), false),
    (2000, (Kind::Arp(1), &[Change::Octets(11, &[66])]), false),
    (1000, (Kind::Ports(7, 7), &[]), false),
    (1000, (Kind::Arp(2), &[]), true),
];

const CONFLICT: Conflict = Conflict {
    hardware: EthernetAddress([2, 0, 0, 0, 0, 66]),
    at: Instant { micros: 2_000_000 },
};

/// Whether a guard on its post counts what it drops by the reason, and tells who claimed an own address.
fn are_drops_counted(watch: &mut Watch) -> bool {
    for (millis, frame, passes) in &ADMITTED {
        if admits(watch, *millis, frame) != *passes {
            return false;
        }
    }
    let counts = watch.counts;
    watch.conflict == Some(CONFLICT)
        && [counts.own_address, counts.loops, counts.own_source] == [2, 1, 0]
}

#[test]
fn drops_are_counted(rt: HostRuntime) {
    assert!(rt; are_drops_counted(&mut Watch::new()));
}

/// Whether what the host answers at a second, as so many octets, goes.
fn goes(watch: &mut Watch, first: u8) -> bool {
    let octets = octets_of(&(Kind::Ipv4(1, 1, 1, first), &[]));
    watch.lets_go(at(1000), octets.as_slice(), 54, false)
}

/// What the host answers is counted, too; where the guard is off, all goes and nothing is counted.
fn are_answers_counted(watch: &mut Watch) -> bool {
    for _ in 0..12 {
        let _ = goes(watch, 3);
    }
    let is_reply_sent = goes(watch, 0);
    watch.is_on = false;
    is_reply_sent
        && admits(watch, 1000, &(Kind::Arp(1), &[]))
        && goes(watch, 3)
        && [watch.counts.error, watch.counts.own_address] == [2, 0]
}

/// Echo requests of either family, and fragments of ICMP, share their rate; other frames take nothing of it, nor do replies and errors.
const ECHOES: [(u32, Frame, bool); 10] = [
    (1000, (Kind::Ipv4(1, 9, 1, 8), &[]), true),
    (1000, (Kind::Ipv4(1, 9, 1, 0), &[]), true),
    (1000, (Kind::Ipv4(1, 9, 1, 3), &[]), true),
    (
        1000,
        (Kind::Ports(9, 9), &[Change::Octets(20, &[0x20])]),
        true,
    ),
    (1000, (Kind::Icmpv6(128, 9, 0), &[]), true),
    (
        1000,
        (Kind::Ipv4(1, 9, 1, 0), &[Change::Octets(20, &[0x20])]),
        false,
    ),
    (1000, (Kind::Ipv4(1, 9, 1, 8), &[]), false),
    (1000, (Kind::Ports(9, 9), &[]), true),
    (1010, (Kind::Ipv4(1, 9, 1, 8), &[]), true),
    (1010, (Kind::Icmpv6(128, 9, 0), &[]), false),
];

/// Whether a guard with a rate of echo requests, two at once, lets these pass, and counts those that it drops.
fn are_echoes_bounded(watch: &mut Watch) -> bool {
    watch.guard.echo_requests = Bucket::new(10_000, 2);
    for (millis, frame, passes) in &ECHOES {
        if admits(watch, *millis, frame) != *passes {
            return false;
        }
    }
    watch.counts.echo_request == 3
}

/// Whether forty requests at once pass.
fn forty_pass(watch: &mut Watch) -> bool {
    for _ in 0..40 {
        if !admits(watch, 1000, &(Kind::Ipv4(1, 9, 1, 8), &[])) {
            return false;
        }
    }
    true
}

#[test]
fn echo_requests_are_bounded(rt: HostRuntime) {
    assert!(rt; forty_pass(&mut Watch::new()) && are_echoes_bounded(&mut Watch::new()));
}

#[test]
fn answers_are_counted(rt: HostRuntime) {
    assert!(rt; are_answers_counted(&mut Watch::new()));
}

/// What is short, and what is neither ARP nor IP, passes.
const OTHER_FRAMES: [Row; 3] = [
    ((Kind::Arp(1), &[Change::Octets(12, &[0x88])]), None),
    ((Kind::Arp(1), &[Change::Len(41)]), None),
    ((Kind::Arp(1), &[Change::Len(0)]), None),
];

#[test]
fn other_frames_pass(rt: HostRuntime) {
    assert!(rt; first_wrong_usually(&OTHER_FRAMES).is_none());
}
