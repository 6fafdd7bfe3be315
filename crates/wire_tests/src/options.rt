use crate::cases::assert_each;
use tcp_wire::{SackRange, TcpOptions, TcpSeqNumber, TcpTimestamp};

const NONE: TcpOptions = TcpOptions {
    max_seg_size: None,
    window_scale: None,
    sack_permitted: false,
    sack_ranges: [None, None, None, None],
    timestamp: None,
};

/// The values of a SYN: those of the options 1500, 12, permitted, 5,000,000 and 7,000,000.
const ALL: TcpOptions = TcpOptions {
    max_seg_size: Some(1500),
    window_scale: Some(12),
    sack_permitted: true,
    sack_ranges: [None, None, None, None],
    timestamp: Some(TcpTimestamp {
        value: 5_000_000,
        echo: 7_000_000,
    }),
};

/// A maximum segment size of 1,500 alone.
const SIZE: TcpOptions = TcpOptions {
    max_seg_size: Some(1500),
    ..NONE
};

const FROM_500: Option<SackRange> = Some(SackRange {
    left: TcpSeqNumber { bits: 500 },
    right: TcpSeqNumber { bits: 1500 },
});

const FROM_875: Option<SackRange> = Some(SackRange {
    left: TcpSeqNumber { bits: 875 },
    right: TcpSeqNumber { bits: 1225 },
});

const FROM_1500: Option<SackRange> = Some(SackRange {
    left: TcpSeqNumber { bits: 1500 },
    right: TcpSeqNumber { bits: 2500 },
});

const FROM_875000: Option<SackRange> = Some(SackRange {
    left: TcpSeqNumber { bits: 875_000 },
    right: TcpSeqNumber { bits: 1_225_000 },
});

const FROM_1500000: Option<SackRange> = Some(SackRange {
    left: TcpSeqNumber { bits: 1_500_000 },
    right: TcpSeqNumber { bits: 2_500_000 },
});

const FROM_876543210: Option<SackRange> = Some(SackRange {
    left: TcpSeqNumber { bits: 876_543_210 },
    right: TcpSeqNumber { bits: 876_654_320 },
});

/// The octets of options, and their values.
type Options = (&'static [u8], TcpOptions);

const OPTIONS: [Options; 20] = [
    // each alone (RFC 9293 3.2, RFC 7323 2.2 and 3.2, RFC 2018 2 and 3), and in several orders
    (&[], NONE),
    (&[2, 4, 0x05, 0xdc], SIZE),
    (
        &[3, 3, 12],
        TcpOptions {
            window_scale: Some(12),
            ..NONE
        },
    ),
    (
        &[5, 10, 0x00, 0x00, 0x01, 0xf4, 0x00, 0x00, 0x05, 0xdc],
        TcpOptions {
            sack_ranges: [FROM_500, None, None, None],
            ..NONE
        },
    ),
    (
        &[
            5, 18, 0x00, 0x00, 0x03, 0x6b, 0x00, 0x00, 0x04, 0xc9, 0x00, 0x00, 0x05, 0xdc, 0x00,
            0x00, 0x09, 0xc4,
        ],
        TcpOptions {
            sack_ranges: [FROM_875, FROM_1500, None, None],
            ..NONE
        },
    ),
    (
        &[
            5, 26, 0x00, 0x0d, 0x59, 0xf8, 0x00, 0x12, 0xb1, 0x28, 0x00, 0x16, 0xe3, 0x60, 0x00,
            0x26, 0x25, 0xa0, 0x34, 0x3e, 0xfc, 0xea, 0x34, 0x40, 0xae, 0xf0,
        ],
        TcpOptions {
            sack_ranges: [FROM_875000, FROM_1500000, FROM_876543210, None],
            ..NONE
        },
    ),
    (&[12, 5, 1, 2, 3], NONE),
    (
        &[
            2, 4, 0x05, 0xdc, 3, 3, 12, 4, 2, 8, 10, 0x00, 0x4c, 0x4b, 0x40, 0x00, 0x6a, 0xcf, 0xc0,
        ],
        ALL,
    ),
    (
        &[
            3, 3, 12, 4, 2, 8, 10, 0x00, 0x4c, 0x4b, 0x40, 0x00, 0x6a, 0xcf, 0xc0, 2, 4, 0x05,
            0xdc, 0,
        ],
        ALL,
    ),
    (
        &[
            4, 2, 8, 10, 0x00, 0x4c, 0x4b, 0x40, 0x00, 0x6a, 0xcf, 0xc0, 2, 4, 0x05, 0xdc, 1, 3, 3,
            12,
        ],
        ALL,
    ),
    (
        &[
            8, 10, 0x00, 0x4c, 0x4b, 0x40, 0x00, 0x6a, 0xcf, 0xc0, 1, 1, 4, 2, 3, 3, 12, 2, 4,
            0x05, 0xdc,
        ],
        ALL,
    ),
    (
        &[
            1, 8, 10, 0x00, 0x4c, 0x4b, 0x40, 0x00, 0x6a, 0xcf, 0xc0, 3, 3, 12, 2, 4, 0x05, 0xdc,
            12, 2, 4, 2, 1,
        ],
        ALL,
    ),
    // an unknown option is skipped, and the last of a kind counts
    (&[12, 5, 1, 2, 3, 2, 4, 0x05, 0xdc], SIZE),
    (&[2, 4, 0x02, 0x18, 2, 4, 0x05, 0xdc], SIZE),
    (
        &[
            5, 10, 0, 0, 0, 1, 0, 0, 0, 2, 5, 10, 0x00, 0x00, 0x01, 0xf4, 0x00, 0x00, 0x05, 0xdc,
        ],
        TcpOptions {
            sack_ranges: [FROM_500, None, None, None],
            ..NONE
        },
    ),
    // RFC 7323 2.3: 14 at most
    (
        &[3, 3, 0],
        TcpOptions {
            window_scale: Some(0),
            ..NONE
        },
    ),
    (
        &[3, 3, 13],
        TcpOptions {
            window_scale: Some(13),
            ..NONE
        },
    ),
    (
        &[3, 3, 14],
        TcpOptions {
            window_scale: Some(14),
            ..NONE
        },
    ),
    (
        &[3, 3, 15],
        TcpOptions {
            window_scale: Some(14),
            ..NONE
        },
    ),
    (
        &[3, 3, 255],
        TcpOptions {
            window_scale: Some(14),
            ..NONE
        },
    ),
];

fn is_parsed(case: &Options) -> bool {
    TcpOptions::parse(case.0) == case.1
}

#[test]
fn options(rt: HostRuntime) {
    assert_each(&rt, &OPTIONS, is_parsed);
    assert!(rt; TcpOptions::new() == NONE);
}

/// Lists that end behind a maximum segment size of 1,500.
const LISTS: [&[u8]; 20] = [
    &[2, 4, 0x05, 0xdc],
    // the end of the list
    &[2, 4, 0x05, 0xdc, 0],
    &[2, 4, 0x05, 0xdc, 0, 4, 2],
    // cut off: no length, fewer octets than the length says; a length below 2; known kinds
    &[2, 4, 0x05, 0xdc, 12],
    &[2, 4, 0x05, 0xdc, 12, 5, 1, 2],
    &[2, 4, 0x05, 0xdc, 12, 1],
    &[2, 4, 0x05, 0xdc, 2, 2],
    &[2, 4, 0x05, 0xdc, 3, 2],
    // a length of 0, also of an unknown kind
    &[2, 4, 0x05, 0xdc, 12, 0, 4, 2],
    &[2, 4, 0x05, 0xdc, 4, 0, 4, 2],
    // beyond the header
    &[2, 4, 0x05, 0xdc, 4],
    &[2, 4, 0x05, 0xdc, 8, 10, 0, 0, 0, 1, 0, 0, 0],
    &[
        2, 4, 0x05, 0xdc, 5, 18, 0, 0, 0, 1, 0, 0, 0, 2, 0, 0, 0, 3, 0, 0, 0,
    ],
    // another length than the kind has
    &[2, 4, 0x05, 0xdc, 2, 5, 1, 2, 3, 4, 2],
    &[2, 4, 0x05, 0xdc, 3, 4, 1, 2, 4, 2],
    &[2, 4, 0x05, 0xdc, 4, 3, 0, 4, 2],
    &[2, 4, 0x05, 0xdc, 5, 2, 4, 2],
    &[2, 4, 0x05, 0xdc, 5, 11, 0, 0, 0, 1, 0, 0, 0, 2, 0, 4, 2],
    &[2, 4, 0x05, 0xdc, 8, 9, 0, 0, 0, 1, 0, 0, 0, 4, 2],
    &[2, 4, 0x05, 0xdc, 8, 11, 0, 0, 0, 1, 0, 0, 0, 2, 0, 4, 2],
];

fn is_size(octets: &&[u8]) -> bool {
    TcpOptions::parse(octets) == SIZE
}

#[test]
fn a_list_ends_at_what_is_malformed(rt: HostRuntime) {
    assert_each(&rt, &LISTS, is_size);
}
