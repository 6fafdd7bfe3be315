use crate::cases::{assert_each, changed, none_below};
use ip_address::{IpAddress, Ipv4Address, Ipv6Address};
use ip_wire::emit::FrameBuffer;
use tcp_wire::{SackRange, TcpControl, TcpOptions, TcpRepr, TcpSeqNumber, TcpTimestamp};

/// The addresses of the host that sent the segments below, 192.168.69.100 and fd00::64.
const LINUX: IpAddress = IpAddress::Ipv4(Ipv4Address { bits: 0xc0a8_4564 });

const LINUX_V6: IpAddress = IpAddress::Ipv6(Ipv6Address {
    bits: 0xfd00_0000_0000_0000_0000_0000_0000_0064,
});

/// The addresses of its peer.
const PEER: IpAddress = IpAddress::Ipv4(Ipv4Address { bits: 0xc0a8_4501 });

const PEER_V6: IpAddress = IpAddress::Ipv6(Ipv6Address {
    bits: 0xfd00_0000_0000_0000_0000_0000_0000_0001,
});

// Segments of Linux 6.18, as it sent them over a TUN device to a peer whose octets came out of order: those named PLAIN
// with the system's timestamps off.
const SYN: [u8; 40] = [
    0x9c, 0x41, 0x00, 0x50, 0x8d, 0x6d, 0xfe, 0xf4, 0x00, 0x00, 0x00, 0x00, 0xa0, 0x02, 0xfa, 0xf0,
    0x4c, 0x73, 0x00, 0x00, 0x02, 0x04, 0x05, 0xb4, 0x04, 0x02, 0x08, 0x0a, 0xbf, 0x22, 0x0c, 0xcc,
    0x00, 0x00, 0x00, 0x00, 0x01, 0x03, 0x03, 0x0a,
];

const SYN_PLAIN: [u8; 32] = [
    0x9c, 0x40, 0x00, 0x50, 0xf5, 0xa5, 0x7b, 0xb2, 0x00, 0x00, 0x00, 0x00, 0x80, 0x02, 0xfa, 0xf0,
    0x5a, 0x7e, 0x00, 0x00, 0x02, 0x04, 0x05, 0xb4, 0x01, 0x01, 0x04, 0x02, 0x01, 0x03, 0x03, 0x0a,
];

const ACK_PLAIN: [u8; 20] = [
    0x9c, 0x40, 0x00, 0x50, 0xf5, 0xa5, 0x7b, 0xb3, 0x10, 0x00, 0x00, 0x01, 0x50, 0x10, 0x00, 0x3f,
    0x85, 0xf4, 0x00, 0x00,
];

const ONE: [u8; 44] = [
    0x9c, 0x41, 0x00, 0x50, 0x8d, 0x6d, 0xfe, 0xf5, 0x10, 0x00, 0x00, 0x01, 0xb0, 0x10, 0x00, 0x3f,
    0x09, 0xed, 0x00, 0x00, 0x01, 0x01, 0x08, 0x0a, 0xbf, 0x22, 0x0c, 0xcd, 0x00, 0x00, 0x03, 0xe8,
    0x01, 0x01, 0x05, 0x0a, 0x10, 0x00, 0x00, 0xc9, 0x10, 0x00, 0x01, 0x2d,
];

const TWO_PLAIN: [u8; 40] = [
    0x9c, 0x40, 0x00, 0x50, 0xf5, 0xa5, 0x7b, 0xb3, 0x10, 0x00, 0x00, 0x01, 0xa0, 0x10, 0x00, 0x3f,
    0xea, 0x50, 0x00, 0x00, 0x01, 0x01, 0x05, 0x12, 0x10, 0x00, 0x01, 0x91, 0x10, 0x00, 0x01, 0xf5,
    0x10, 0x00, 0x00, 0xc9, 0x10, 0x00, 0x01, 0x2d,
];

const THREE: [u8; 60] = [
    0x9c, 0x41, 0x00, 0x50, 0x8d, 0x6d, 0xfe, 0xf5, 0x10, 0x00, 0x00, 0x01, 0xf0, 0x10, 0x00, 0x3f,
    0x7c, 0x80, 0x00, 0x00, 0x01, 0x01, 0x08, 0x0a, 0xbf, 0x22, 0x0c, 0xcd, 0x00, 0x00, 0x03, 0xe8,
    0x01, 0x01, 0x05, 0x1a, 0x10, 0x00, 0x03, 0x21, 0x10, 0x00, 0x03, 0x85, 0x10, 0x00, 0x02, 0x59,
    0x10, 0x00, 0x02, 0xbd, 0x10, 0x00, 0x01, 0x91, 0x10, 0x00, 0x01, 0xf5,
];

const FOUR_PLAIN: [u8; 56] = [
    0x9c, 0x40, 0x00, 0x50, 0xf5, 0xa5, 0x7b, 0xb3, 0x10, 0x00, 0x00, 0x01, 0xe0, 0x10, 0x00, 0x3f,
    0x5e, 0x74, 0x00, 0x00, 0x01, 0x01, 0x05, 0x22, 0x10, 0x00, 0x03, 0x21, 0x10, 0x00, 0x03, 0x85,
    0x10, 0x00, 0x02, 0x59, 0x10, 0x00, 0x02, 0xbd, 0x10, 0x00, 0x01, 0x91, 0x10, 0x00, 0x01, 0xf5,
    0x10, 0x00, 0x00, 0xc9, 0x10, 0x00, 0x01, 0x2d,
];

const SYN_V6: [u8; 40] = [
    0xa0, 0x29, 0x00, 0x50, 0x69, 0xb7, 0x93, 0xc6, 0x00, 0x00, 0x00, 0x00, 0xa0, 0x02, 0xfd, 0x20,
    0xa0, 0xca, 0x00, 0x00, 0x02, 0x04, 0x05, 0xa0, 0x04, 0x02, 0x08, 0x0a, 0xa7, 0x02, 0x6a, 0xc5,
    0x00, 0x00, 0x00, 0x00, 0x01, 0x03, 0x03, 0x0a,
];

const DATA_V6: [u8; 62] = [
    0xa0, 0x29, 0x00, 0x50, 0x69, 0xb7, 0x93, 0xc7, 0x10, 0x00, 0x00, 0x01, 0xf0, 0x18, 0x00, 0x40,
    0x65, 0xce, 0x00, 0x00, 0x01, 0x01, 0x08, 0x0a, 0xa7, 0x02, 0x6a, 0xc7, 0x00, 0x00, 0x03, 0xe8,
    0x01, 0x01, 0x05, 0x1a, 0x10, 0x00, 0x03, 0xe9, 0x10, 0x00, 0x04, 0x4d, 0x10, 0x00, 0x03, 0x21,
    0x10, 0x00, 0x03, 0x85, 0x10, 0x00, 0x02, 0x59, 0x10, 0x00, 0x02, 0xbd, 0x68, 0x69,
];

/// Blocks, named by the ends of their left edges.
const FROM_C9: Option<SackRange> = Some(SackRange {
    left: TcpSeqNumber { bits: 0x1000_00c9 },
    right: TcpSeqNumber { bits: 0x1000_012d },
});

const FROM_191: Option<SackRange> = Some(SackRange {
    left: TcpSeqNumber { bits: 0x1000_0191 },
    right: TcpSeqNumber { bits: 0x1000_01f5 },
});

const FROM_259: Option<SackRange> = Some(SackRange {
    left: TcpSeqNumber { bits: 0x1000_0259 },
    right: TcpSeqNumber { bits: 0x1000_02bd },
});

const FROM_321: Option<SackRange> = Some(SackRange {
    left: TcpSeqNumber { bits: 0x1000_0321 },
    right: TcpSeqNumber { bits: 0x1000_0385 },
});

const FROM_3E9: Option<SackRange> = Some(SackRange {
    left: TcpSeqNumber { bits: 0x1000_03e9 },
    right: TcpSeqNumber { bits: 0x1000_044d },
});

const NO_RANGES: [Option<SackRange>; 4] = [None, None, None, None];

/// The timestamps of SYN, of the segments behind it, of SYN_V6, and of DATA_V6.
const AT_SYN: Option<TcpTimestamp> = Some(TcpTimestamp {
    value: 0xbf22_0ccc,
    echo: 0,
});

const BEHIND_SYN: Option<TcpTimestamp> = Some(TcpTimestamp {
    value: 0xbf22_0ccd,
    echo: 1000,
});

const AT_SYN_V6: Option<TcpTimestamp> = Some(TcpTimestamp {
    value: 0xa702_6ac5,
    echo: 0,
});

const AT_DATA_V6: Option<TcpTimestamp> = Some(TcpTimestamp {
    value: 0xa702_6ac7,
    echo: 1000,
});

/// The values that the SYNs have in common.
const SYN_REPR: TcpRepr = TcpRepr {
    src_port: 0x9c40,
    dst_port: 80,
    control: TcpControl::Syn,
    seq_number: TcpSeqNumber { bits: 0xf5a5_7bb2 },
    ack_number: None,
    window_len: 64240,
    options: SYN_OPTIONS,
};

const SYN_OPTIONS: TcpOptions = TcpOptions {
    max_seg_size: Some(1460),
    window_scale: Some(10),
    sack_permitted: true,
    sack_ranges: NO_RANGES,
    timestamp: None,
};

/// The values that the segments without SYN have in common.
const ACK_REPR: TcpRepr = TcpRepr {
    src_port: 0x9c40,
    dst_port: 80,
    control: TcpControl::None,
    seq_number: TcpSeqNumber { bits: 0xf5a5_7bb3 },
    ack_number: Some(TcpSeqNumber { bits: 0x1000_0001 }),
    window_len: 63,
    options: NO_OPTIONS,
};

const NO_OPTIONS: TcpOptions = TcpOptions {
    max_seg_size: None,
    window_scale: None,
    sack_permitted: false,
    sack_ranges: NO_RANGES,
    timestamp: None,
};

/// ONE, but for its blocks.
const ONE_REPR: TcpRepr = TcpRepr {
    src_port: 0x9c41,
    seq_number: TcpSeqNumber { bits: 0x8d6d_fef5 },
    ..ACK_REPR
};

/// A segment's octets, its addresses, its values, and its payload.
type Case = (&'static [u8], IpAddress, IpAddress, TcpRepr, &'static [u8]);

const SEGMENTS: [Case; 8] = [
    (
        &SYN,
        LINUX,
        PEER,
        TcpRepr {
            src_port: 0x9c41,
            seq_number: TcpSeqNumber { bits: 0x8d6d_fef4 },
            options: TcpOptions {
                timestamp: AT_SYN,
                ..SYN_OPTIONS
            },
            ..SYN_REPR
        },
        &[],
    ),
    (&SYN_PLAIN, LINUX, PEER, SYN_REPR, &[]),
    (&ACK_PLAIN, LINUX, PEER, ACK_REPR, &[]),
    (
        &ONE,
        LINUX,
        PEER,
        TcpRepr {
            options: TcpOptions {
                timestamp: BEHIND_SYN,
                sack_ranges: [FROM_C9, None, None, None],
                ..NO_OPTIONS
            },
            ..ONE_REPR
        },
        &[],
    ),
    (
        &TWO_PLAIN,
        LINUX,
        PEER,
        TcpRepr {
            options: TcpOptions {
                sack_ranges: [FROM_191, FROM_C9, None, None],
                ..NO_OPTIONS
            },
            ..ACK_REPR
        },
        &[],
    ),
    (
        &FOUR_PLAIN,
        LINUX,
        PEER,
        TcpRepr {
            options: TcpOptions {
                sack_ranges: [FROM_321, FROM_259, FROM_191, FROM_C9],
                ..NO_OPTIONS
            },
            ..ACK_REPR
        },
        &[],
    ),
    (
        &SYN_V6,
        LINUX_V6,
        PEER_V6,
        TcpRepr {
            src_port: 0xa029,
            seq_number: TcpSeqNumber { bits: 0x69b7_93c6 },
            window_len: 64800,
            options: TcpOptions {
                max_seg_size: Some(1440),
                timestamp: AT_SYN_V6,
                ..SYN_OPTIONS
            },
            ..SYN_REPR
        },
        &[],
    ),
    // data with three blocks
    (
        &DATA_V6,
        LINUX_V6,
        PEER_V6,
        TcpRepr {
            src_port: 0xa029,
            control: TcpControl::Psh,
            seq_number: TcpSeqNumber { bits: 0x69b7_93c7 },
            window_len: 64,
            options: TcpOptions {
                timestamp: AT_DATA_V6,
                sack_ranges: [FROM_3E9, FROM_321, FROM_259, None],
                ..NO_OPTIONS
            },
            ..ACK_REPR
        },
        b"hi",
    ),
];

/// Whether a segment is emitted so, with its checksum.
fn is_emitted(
    repr: &TcpRepr,
    src: &IpAddress,
    dst: &IpAddress,
    payload: &[u8],
    octets: &[u8],
) -> bool {
    let mut out = FrameBuffer::new();
    if repr.header_len() + payload.len() != octets.len() || octets.len() > 1514 {
        return false;
    }
    repr.emit(src, dst, payload, true, &mut out);
    out.as_slice() == octets
}

fn is_parsed_and_emitted(case: &Case) -> bool {
    let (octets, src, dst, repr, payload) = case;
    TcpRepr::parse(octets, src, dst, true) == Some((*repr, *payload))
        && is_emitted(repr, src, dst, payload, octets)
}

#[test]
fn segments_of_linux(rt: HostRuntime) {
    assert_each(&rt, &SEGMENTS, is_parsed_and_emitted);
}

/// THREE with a fourth block.
const FOUR_REPR: TcpRepr = TcpRepr {
    options: TcpOptions {
        timestamp: BEHIND_SYN,
        sack_ranges: [FROM_321, FROM_259, FROM_191, FROM_C9],
        ..NO_OPTIONS
    },
    ..ONE_REPR
};

#[test]
fn of_four_blocks_three_fit_beside_timestamps(rt: HostRuntime) {
    assert!(rt; is_emitted(&FOUR_REPR, &LINUX, &PEER, &[], &THREE));
}

fn is_segment(octets: &[u8]) -> bool {
    TcpRepr::parse(octets, &LINUX, &PEER, true).is_some()
}

/// Whether octets are a segment with its checksum untested.
fn is_unchecked_segment(octets: &[u8]) -> bool {
    TcpRepr::parse(octets, &LINUX, &PEER, false).is_some()
}

/// A place in the segment with one block, another octet there, and whether that is a segment with its checksum untested.
const CHANGES: [(usize, u8, bool); 7] = [
    (16, 0x08, true),
    (31, 0xe9, true),
    (43, 0x2e, true),
    // the header's length: four words, twelve words
    (12, 0x40, false),
    (12, 0xc0, false),
    // FIN with SYN, SYN with RST
    (13, 0x13, false),
    (13, 0x16, false),
];

fn is_refused(case: &(usize, u8, bool)) -> bool {
    let octets = changed(&ONE, case.0, case.1);
    !is_segment(&octets) && is_unchecked_segment(&octets) == case.2
}

/// Whether a port of 0 at a place of the segment is refused.
fn is_no_port(place: &usize) -> bool {
    let octets = changed(&ONE, *place, 0);
    !is_unchecked_segment(&changed(&octets, place.wrapping_add(1), 0))
}

#[test]
fn what_is_no_segment(rt: HostRuntime) {
    assert!(&rt; none_below(44, &ONE, is_segment));
    assert_each(&rt, &CHANGES, is_refused);
    assert_each(&rt, &[0, 2], is_no_port);
}
