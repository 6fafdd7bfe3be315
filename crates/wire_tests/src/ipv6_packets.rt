use crate::cases::assert_each;
use ip_address::{IpProtocol, Ipv6Address};
use ip_wire::Ipv6Repr;
use ip_wire::emit::FrameBuffer;

/// fe80::1.
const OWN: Ipv6Address = Ipv6Address {
    bits: 0xfe80_0000_0000_0000_0000_0000_0000_0001,
};

/// A header's octets, and its values.
type Case = ([u8; 40], Ipv6Repr);

const HEADERS: [Case; 2] = [
    // of a neighbour solicitation, from fe80::1 to ff02::1:ff00:2
    (
        [
            0x60, 0x00, 0x00, 0x00, 0x00, 0x20, 0x3a, 0xff, 0xfe, 0x80, 0x00, 0x00, 0x00, 0x00,
            0x00, 0x00, 0x00, 0x00, 0x00, 0x00, 0x00, 0x00, 0x00, 0x01, 0xff, 0x02, 0x00, 0x00,
            0x00, 0x00, 0x00, 0x00, 0x00, 0x00, 0x00, 0x01, 0xff, 0x00, 0x00, 0x02,
        ],
        Ipv6Repr {
            src_addr: OWN,
            dst_addr: Ipv6Address {
                bits: 0xff02_0000_0000_0000_0000_0001_ff00_0002,
            },
            next_header: IpProtocol::Icmpv6,
            payload_len: 32,
            hop_limit: 255,
        },
    ),
    // of a group report, from fe80::1 to ff02::16
    (
        [
            0x60, 0x00, 0x00, 0x00, 0x00, 0x24, 0x00, 0x01, 0xfe, 0x80, 0x00, 0x00, 0x00, 0x00,
            0x00, 0x00, 0x00, 0x00, 0x00, 0x00, 0x00, 0x00, 0x00, 0x01, 0xff, 0x02, 0x00, 0x00,
            0x00, 0x00, 0x00, 0x00, 0x00, 0x00, 0x00, 0x00, 0x00, 0x00, 0x00, 0x16,
        ],
        Ipv6Repr {
            src_addr: OWN,
            dst_addr: Ipv6Address {
                bits: 0xff02_0000_0000_0000_0000_0000_0000_0016,
            },
            next_header: IpProtocol::HopByHop,
            payload_len: 36,
            hop_limit: 1,
        },
    ),
];

fn is_read_and_emitted(case: &Case) -> bool {
    let (octets, repr) = case;
    let mut out = FrameBuffer::new();
    repr.emit(&mut out);
    Ipv6Repr::parse_quoted(octets) == Some((*repr, [].as_slice()))
        && out.as_slice() == octets.as_slice()
}

#[test]
fn headers_are_read_and_emitted(rt: HostRuntime) {
    assert_each(&rt, &HEADERS, is_read_and_emitted);
}

/// A header's first octet, the low octet of its length field, how many octets are there, at most 48, and the length of the
/// payload, if that is a packet.
type Length = (u8, u8, usize, Option<usize>);

const LENGTHS: [Length; 10] = [
    (0x60, 0, 39, None),
    (0x60, 0, 40, Some(0)),
    (0x60, 1, 40, None),
    (0x60, 1, 41, Some(1)),
    (0x60, 1, 48, Some(1)),
    (0x60, 8, 48, Some(8)),
    (0x60, 9, 48, None),
    (0x6f, 0, 40, Some(0)),
    (0x40, 0, 40, None),
    (0x70, 0, 40, None),
];

/// The length of a packet's payload.
fn payload_len(first: u8, length: u8, input: usize) -> Option<usize> {
    let mut octets = [0; 48];
    octets[0] = first;
    octets[5] = length;
    let (_, payload) = Ipv6Repr::parse(octets.get(..input)?)?;
    Some(payload.len())
}

fn is_so_long(case: &Length) -> bool {
    payload_len(case.0, case.1, case.2) == case.3
}

#[test]
fn payloads_end_at_the_length_field(rt: HostRuntime) {
    assert_each(&rt, &LENGTHS, is_so_long);
}
