use crate::cases::{assert_each, changed};
use control_wire::icmpv6::Icmpv6Repr;
use control_wire::ndisc_option::{NdiscOptionType, parse_lladdr};
use ip_address::{EthernetAddress, IpAddress, Ipv6Address};

/// fe80::1.
const FIRST: IpAddress = IpAddress::Ipv6(Ipv6Address {
    bits: 0xfe80_0000_0000_0000_0000_0000_0000_0001,
});

/// fe80::2.
const SECOND: IpAddress = IpAddress::Ipv6(Ipv6Address {
    bits: 0xfe80_0000_0000_0000_0000_0000_0000_0002,
});

/// An advertisement from fe80::1 to fe80::2.
const ADVERTISEMENT: [u8; 32] = [
    0x88, 0x00, 0x38, 0x1c, 0x40, 0x00, 0x00, 0x00, 0xfe, 0x80, 0x00, 0x00, 0x00, 0x00, 0x00, 0x00,
    0x00, 0x00, 0x00, 0x00, 0x00, 0x00, 0x00, 0x01, 0x02, 0x01, 0x02, 0x00, 0x00, 0x00, 0x00, 0x01,
];

/// A place in the advertisement, another octet there, and whether that is a message with its checksum tested, and
/// untested.
type Change = (usize, u8, bool, bool);

const CHANGES: [Change; 10] = [
    (0, 0x88, true, true),
    (2, 0x39, false, true),
    (1, 0x01, false, false),
    (0, 0x8a, false, false),
    (0, 0x05, false, false),
    (0, 0x01, false, false),
    (25, 0x00, false, false),
    (25, 0x02, false, false),
    (7, 0x01, false, true),
    (24, 0x0e, false, true),
];

/// Whether octets are a message from fe80::1 to fe80::2.
fn is_message(octets: &[u8], is_tested: bool) -> bool {
    Icmpv6Repr::parse(octets, &FIRST, &SECOND, is_tested).is_some()
}

fn is_taken(case: &Change) -> bool {
    let (place, octet, tested, untested) = case;
    let octets = changed(&ADVERTISEMENT, *place, *octet);
    is_message(&octets, true) == *tested && is_message(&octets, false) == *untested
}

#[test]
fn what_is_no_message(rt: HostRuntime) {
    assert_each(&rt, &CHANGES, is_taken);
}

// A packet carries 65,535 octets at most.
#[test]
fn what_no_packet_carries(rt: HostRuntime) {
    let mut octets = [0; 65_536];
    octets[0] = 128;
    assert!(rt; is_message(&octets[..65_535], false) && !is_message(&octets, false));
}

/// From where to where the advertisement goes, how many of its octets are there, and whether that is a message.
type Delivery = (IpAddress, IpAddress, usize, bool);

const DELIVERIES: [Delivery; 4] = [
    (FIRST, SECOND, 32, true),
    (SECOND, SECOND, 32, false),
    (FIRST, FIRST, 32, false),
    (FIRST, SECOND, 24, false),
];

fn is_delivered(case: &Delivery) -> bool {
    let (src, dst, len, is_message) = case;
    match ADVERTISEMENT.get(..*len) {
        Some(octets) => Icmpv6Repr::parse(octets, src, dst, true).is_some() == *is_message,
        None => false,
    }
}

/// How many of the advertisement's octets are there, and whether that is a message with its checksum untested.
const LENGTHS: [(usize, bool); 5] = [(7, false), (8, false), (23, false), (24, true), (31, false)];

fn is_long_enough(case: &(usize, bool)) -> bool {
    match ADVERTISEMENT.get(..case.0) {
        Some(octets) => is_message(octets, false) == case.1,
        None => false,
    }
}

#[test]
fn a_wrong_pseudo_header_or_length(rt: HostRuntime) {
    assert_each(&rt, &DELIVERIES, is_delivered);
    assert_each(&rt, &LENGTHS, is_long_enough);
}

const OWN: EthernetAddress = EthernetAddress([0x02, 0, 0, 0, 0, 0x01]);

/// Options, and the address that they tell, if they are well-formed.
type Options = (&'static [u8], Option<Option<EthernetAddress>>);

const OPTIONS: [Options; 15] = [
    (&[], Some(None)),
    (&[1, 1, 2, 0, 0, 0, 0, 1], Some(Some(OWN))),
    // no length, another length, and one that runs out
    (&[1, 0, 2, 0, 0, 0, 0, 1], None),
    (&[14, 0, 2, 0, 0, 0, 0, 1], None),
    (&[1, 2, 2, 0, 0, 0, 0, 1, 0, 0, 0, 0, 0, 0, 0, 0], None),
    (&[1, 1, 2, 0, 0, 0, 0], None),
    (&[1], None),
    // an option of another type
    (
        &[14, 1, 9, 9, 9, 9, 9, 9, 1, 1, 2, 0, 0, 0, 0, 1],
        Some(Some(OWN)),
    ),
    (&[14, 2, 9, 9, 9, 9, 9, 9], None),
    (&[2, 1, 2, 0, 0, 0, 0, 1], Some(None)),
    // the last of a type, and what stands behind it
    (
        &[1, 1, 2, 0, 0, 0, 0, 9, 1, 1, 2, 0, 0, 0, 0, 1],
        Some(Some(OWN)),
    ),
    (
        &[1, 1, 2, 0, 0, 0, 0, 1, 2, 1, 2, 0, 0, 0, 0, 9],
        Some(Some(OWN)),
    ),
    (&[1, 1, 2, 0, 0, 0, 0, 1, 3, 1, 0, 0, 0, 0, 0, 0], None),
    (&[1, 1, 2, 0, 0, 0, 0, 1, 14], None),
    // a prefix
    (
        &[
            3, 4, 0, 0, 0, 0, 0, 0, 0, 0, 0, 0, 0, 0, 0, 0, 0, 0, 0, 0, 0, 0, 0, 0, 0, 0, 0, 0, 0,
            0, 0, 0,
        ],
        Some(None),
    ),
];

fn is_told(case: &Options) -> bool {
    parse_lladdr(case.0, NdiscOptionType::SourceLinkLayerAddr) == case.1
}

#[test]
fn options(rt: HostRuntime) {
    assert_each(&rt, &OPTIONS, is_told);
}
