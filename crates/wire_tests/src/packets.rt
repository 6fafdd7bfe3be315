use crate::cases::{assert_each, changed, none_below};
use ip_wire::checksum::{checksum, part_sum, sum_with};
use ip_wire::emit::FrameBuffer;
use ip_wire::pseudo::pseudo_sum;
use ip_wire::{
    IpAddress, IpProtocol, IpVersion, Ipv4Address, Ipv4Fragment, Ipv4Repr, Ipv6Address, TcpControl,
    TcpRepr, TcpSeqNumber, UdpRepr,
};

const OWN: Ipv4Address = Ipv4Address { bits: 0xc0a8_4501 };

const OTHER: Ipv4Address = Ipv4Address { bits: 0xc0a8_4564 };

const OWN_IP: IpAddress = IpAddress::Ipv4(OWN);

const OTHER_IP: IpAddress = IpAddress::Ipv4(OTHER);

/// An echo request's header, from 192.168.69.100 to 192.168.69.1.
const ECHO_HEADER: [u8; 20] = [
    0x45, 0x00, 0x00, 0x20, 0x00, 0x00, 0x40, 0x00, 0x40, 0x01, 0x2f, 0x27, 0xc0, 0xa8, 0x45, 0x64,
    0xc0, 0xa8, 0x45, 0x01,
];

/// The echo request's header, twelve octets of payload, and six of padding.
const PADDED_PACKET: [u8; 38] = [
    0x45, 0x00, 0x00, 0x20, 0x00, 0x00, 0x40, 0x00, 0x40, 0x01, 0x2f, 0x27, 0xc0, 0xa8, 0x45, 0x64,
    0xc0, 0xa8, 0x45, 0x01, 0xaa, 0xaa, 0xaa, 0xaa, 0xaa, 0xaa, 0xaa, 0xaa, 0xaa, 0xaa, 0xaa, 0xaa,
    0xaa, 0xaa, 0xaa, 0xaa, 0xaa, 0xaa,
];

/// A neighbour solicitation from fe80::1 to ff02::1:ff00:2.
const SOLICITATION: [u8; 32] = [
    0x87, 0x00, 0x7a, 0x97, 0x00, 0x00, 0x00, 0x00, 0xfe, 0x80, 0x00, 0x00, 0x00, 0x00, 0x00, 0x00,
    0x00, 0x00, 0x00, 0x00, 0x00, 0x00, 0x00, 0x02, 0x01, 0x01, 0x02, 0x00, 0x00, 0x00, 0x00, 0x01,
];

/// The example of RFC 1071, section 3.
const EXAMPLE: [u8; 8] = [0x00, 0x01, 0xf2, 0x03, 0xf4, 0xf5, 0xf6, 0xf7];

/// A sum, some octets, and their sum with it.
type Sum = (u16, &'static [u8], u16);

const SUMS: [Sum; 6] = [
    (0, &EXAMPLE, 0xddf2),
    (0, &[0x00, 0x01, 0xf2, 0x03, 0xf4, 0xf5, 0xf6], 0xdcfb),
    (0, &[], 0),
    (0, &[0x12], 0x1200),
    (0xffff, &[0x00, 0x01], 0x0001),
    (0, &ECHO_HEADER, 0xffff),
];

fn is_sum(case: &Sum) -> bool {
    case.1.len() <= 20 && sum_with(case.0.into(), case.1) == case.2
}

/// Whether the example is summed so in two parts, and its checksum is made of its sum.
fn is_summed_in_parts() -> bool {
    sum_with(part_sum(&EXAMPLE[..2]), &EXAMPLE[2..]) == 0xddf2
        && sum_with(part_sum(&EXAMPLE[..4]) + part_sum(&EXAMPLE[4..]), &[]) == 0xddf2
        && checksum(&EXAMPLE) == 0x220d
}

#[test]
fn checksums(rt: HostRuntime) {
    assert_each(&rt, &SUMS, is_sum);
    assert!(rt; is_summed_in_parts());
}

#[test]
fn a_pseudo_header_of_ipv6(rt: HostRuntime) {
    let src = IpAddress::Ipv6(Ipv6Address {
        bits: 0xfe80_0000_0000_0000_0000_0000_0000_0001,
    });
    let dst = IpAddress::Ipv6(Ipv6Address {
        bits: 0xff02_0000_0000_0000_0000_0001_ff00_0002,
    });
    let is_right = sum_with(pseudo_sum(&src, &dst, 58, 32), &SOLICITATION) == 0xffff
        && src.version() == IpVersion::Ipv6
        && OWN_IP.version() == IpVersion::Ipv4;
    assert!(rt; is_right);
}

/// The values of the echo request's header.
const ECHO_REPR: Ipv4Repr = Ipv4Repr {
    src_addr: OTHER,
    dst_addr: OWN,
    next_header: IpProtocol::Icmp,
    payload_len: 12,
    hop_limit: 64,
};

/// The octets of a header.
fn header_of(repr: &Ipv4Repr, fragment: &Ipv4Fragment) -> FrameBuffer {
    let mut out = FrameBuffer::new();
    if repr.payload_len <= 1480 && fragment.offset < 8192 {
        repr.emit(fragment, true, &mut out);
    }
    out
}

/// Whether a packet is read as one with this header.
fn is_read(packet: &[u8], repr: &Ipv4Repr, fragment: &Ipv4Fragment) -> bool {
    match Ipv4Repr::parse(packet, true) {
        Some((read, part, payload)) => {
            read == *repr && part == *fragment && payload.len() == usize::from(repr.payload_len)
        }
        None => false,
    }
}

fn is_echo_request() -> bool {
    header_of(&ECHO_REPR, &Ipv4Fragment::WHOLE).as_slice() == ECHO_HEADER.as_slice()
        && is_read(&PADDED_PACKET, &ECHO_REPR, &Ipv4Fragment::WHOLE)
        && !Ipv4Fragment::WHOLE.is_fragment()
        && Ipv4Fragment::default() == Ipv4Fragment::WHOLE
}

#[test]
fn a_packet(rt: HostRuntime) {
    assert!(rt; is_echo_request());
}

fn is_packet(octets: &[u8]) -> bool {
    Ipv4Repr::parse(octets, true).is_some()
}

/// A place in the packet, another octet there, and whether that is a packet with its checksum untested.
const OTHER_PACKETS: [(usize, u8, bool); 6] = [
    (8, 63, true),
    (0, 0x65, false),
    (0, 0x44, false),
    (0, 0x49, false),
    (3, 19, false),
    (3, 39, false),
];

fn is_no_packet(case: &(usize, u8, bool)) -> bool {
    let other = changed(&PADDED_PACKET, case.0, case.1);
    !is_packet(&other) && Ipv4Repr::parse(&other, false).is_some() == case.2
}

#[test]
fn what_is_no_packet(rt: HostRuntime) {
    assert!(&rt; none_below(32, &PADDED_PACKET, is_packet));
    assert_each(&rt, &OTHER_PACKETS, is_no_packet);
}

/// The packet with a header of 32 octets, of which twelve are options.
const WITH_OPTIONS: [u8; 38] = [
    0x48, 0x00, 0x00, 0x20, 0x00, 0x00, 0x40, 0x00, 0x40, 0x01, 0x2f, 0x27, 0xc0, 0xa8, 0x45, 0x64,
    0xc0, 0xa8, 0x45, 0x01, 0x01, 0x01, 0x01, 0x01, 0x01, 0x01, 0x01, 0x01, 0x01, 0x01, 0x01, 0x01,
    0x01, 0x01, 0x01, 0x01, 0x01, 0x01,
];

fn has_empty_payload(packet: &[u8]) -> bool {
    match Ipv4Repr::parse(packet, false) {
        Some((read, _, payload)) => read.payload_len == 0 && payload.len() == 0,
        None => false,
    }
}

#[test]
fn options_are_skipped(rt: HostRuntime) {
    assert!(rt; has_empty_payload(&WITH_OPTIONS));
}

/// The two fragments of a datagram: a header's octets, and its values.
type Fragment = ([u8; 20], Ipv4Repr, Ipv4Fragment);

const FRAGMENTS: [Fragment; 2] = [
    (
        [
            0x45, 0x00, 0x02, 0x3c, 0x00, 0x07, 0x20, 0x00, 0x40, 0x11, 0x4c, 0xf4, 0xc0, 0xa8,
            0x45, 0x01, 0xc0, 0xa8, 0x45, 0x64,
        ],
        Ipv4Repr {
            src_addr: OWN,
            dst_addr: OTHER,
            next_header: IpProtocol::Udp,
            payload_len: 552,
            hop_limit: 64,
        },
        Ipv4Fragment {
            identification: 7,
            dont_fragment: false,
            more_fragments: true,
            offset: 0,
        },
    ),
    (
        [
            0x45, 0x00, 0x01, 0xdc, 0x00, 0x07, 0x00, 0x45, 0x40, 0x11, 0x6d, 0x0f, 0xc0, 0xa8,
            0x45, 0x01, 0xc0, 0xa8, 0x45, 0x64,
        ],
        Ipv4Repr {
            src_addr: OWN,
            dst_addr: OTHER,
            next_header: IpProtocol::Udp,
            payload_len: 456,
            hop_limit: 64,
        },
        Ipv4Fragment {
            identification: 7,
            dont_fragment: false,
            more_fragments: false,
            offset: 69,
        },
    ),
];

/// A header before octets of 0, so that the packet has 572.
fn padded(header: &[u8; 20]) -> [u8; 572] {
    let mut packet = [0; 572];
    packet[..20].copy_from_slice(header);
    packet
}

fn is_fragment(case: &Fragment) -> bool {
    let (octets, repr, fragment) = case;
    header_of(repr, fragment).as_slice() == octets.as_slice()
        && is_read(&padded(octets), repr, fragment)
        && fragment.is_fragment()
}

#[test]
fn fragments(rt: HostRuntime) {
    assert_each(&rt, &FRAGMENTS, is_fragment);
}

/// The header of the first fragment, with a checksum that is wrong, and eight octets behind it.
const QUOTATION: [u8; 28] = [
    0x45, 0x00, 0x02, 0x3c, 0x00, 0x07, 0x20, 0x00, 0x40, 0x11, 0x00, 0xf4, 0xc0, 0xa8, 0x45, 0x01,
    0xc0, 0xa8, 0x45, 0x64, 0xaa, 0xaa, 0xaa, 0xaa, 0xaa, 0xaa, 0xaa, 0xaa,
];

/// The same with a length field of 8.
const SHORT_QUOTATION: [u8; 28] = [
    0x45, 0x00, 0x00, 0x08, 0x00, 0x07, 0x20, 0x00, 0x40, 0x11, 0x00, 0xf4, 0xc0, 0xa8, 0x45, 0x01,
    0xc0, 0xa8, 0x45, 0x64, 0xaa, 0xaa, 0xaa, 0xaa, 0xaa, 0xaa, 0xaa, 0xaa,
];

/// Whether a packet is quoted whose payload had so many octets, of which eight are there.
fn is_quoted(octets: &[u8], payload_len: u16) -> bool {
    match Ipv4Repr::parse_quoted(octets) {
        Some((repr, data)) => {
            repr.payload_len == payload_len
                && repr.next_header == IpProtocol::Udp
                && data.len() == 8
        }
        None => false,
    }
}

fn is_quotation(octets: &[u8]) -> bool {
    Ipv4Repr::parse_quoted(octets).is_some()
}

/// Other first octets of a header.
const OTHER_VERSIONS: [u8; 3] = [0x44, 0x48, 0x65];

fn is_no_quotation(first: &u8) -> bool {
    !is_quotation(&changed(&SHORT_QUOTATION, 0, *first))
}

#[test]
fn a_quotation(rt: HostRuntime) {
    let is_right = is_quoted(&QUOTATION, 552)
        && is_quoted(&SHORT_QUOTATION, 0)
        && none_below(20, &SHORT_QUOTATION, is_quotation);
    assert!(&rt; is_right);
    assert_each(&rt, &OTHER_VERSIONS, is_no_quotation);
}

const DATAGRAM_REPR: UdpRepr = UdpRepr {
    src_port: 5000,
    dst_port: 6969,
};

/// `hi` for port 6969, from 192.168.69.100 to 192.168.69.1.
const DATAGRAM: [u8; 10] = [0x13, 0x88, 0x1b, 0x39, 0x00, 0x0a, 0x5c, 0xf9, 0x68, 0x69];

/// The datagram, and padding.
const PADDED_DATAGRAM: [u8; 18] = [
    0x13, 0x88, 0x1b, 0x39, 0x00, 0x0a, 0x5c, 0xf9, 0x68, 0x69, 0, 0, 0, 0, 0, 0, 0, 0,
];

/// The same without a checksum.
const WITHOUT_CHECKSUM: [u8; 18] = [
    0x13, 0x88, 0x1b, 0x39, 0x00, 0x0a, 0x00, 0x00, 0x68, 0x69, 0, 0, 0, 0, 0, 0, 0, 0,
];

/// The octets of a datagram with two octets of payload.
fn datagram_of(payload: &[u8; 2], is_summed: bool) -> FrameBuffer {
    let mut out = FrameBuffer::new();
    DATAGRAM_REPR.emit(&OTHER_IP, &OWN_IP, payload, is_summed, &mut out);
    out
}

fn is_datagram(octets: &[u8], is_summed: bool) -> bool {
    UdpRepr::parse(octets, &OTHER_IP, &OWN_IP, is_summed).is_some()
}

/// Whether octets are a datagram between hosts with the same address.
fn is_datagram_at(octets: &[u8], address: &IpAddress, is_summed: bool) -> bool {
    UdpRepr::parse(octets, address, address, is_summed).is_some()
}

const LOCALHOST: IpAddress = IpAddress::Ipv6(Ipv6Address { bits: 1 });

fn is_datagram_read() -> bool {
    UdpRepr::parse(&PADDED_DATAGRAM, &OTHER_IP, &OWN_IP, true)
        == Some((DATAGRAM_REPR, b"hi".as_slice()))
}

#[test]
fn a_datagram(rt: HostRuntime) {
    let is_emitted = datagram_of(b"hi", true).as_slice() == DATAGRAM.as_slice()
        && datagram_of(b"hi", false).as_slice() == &WITHOUT_CHECKSUM[..10];
    let is_optional = is_datagram(&WITHOUT_CHECKSUM, true)
        && !is_datagram_at(&WITHOUT_CHECKSUM, &LOCALHOST, true);
    assert!(rt; is_emitted && is_datagram_read() && is_optional);
}

/// A place in the datagram, and two other octets there: port 0, a length of 7, one past the input.
const OTHER_DATAGRAMS: [(usize, u8, u8); 3] = [(2, 0, 0), (4, 0, 7), (4, 0, 19)];

fn is_no_datagram(case: &(usize, u8, u8)) -> bool {
    let (place, first, second) = case;
    let other = changed(&PADDED_DATAGRAM, *place, *first);
    !is_datagram(&changed(&other, place.saturating_add(1), *second), false)
}

fn is_summed_datagram(octets: &[u8]) -> bool {
    is_datagram(octets, true)
}

/// Whether the datagram is none at another address, by its checksum alone, and none that is cut short.
fn is_datagram_alone() -> bool {
    none_below(10, &PADDED_DATAGRAM, is_summed_datagram)
        && !is_datagram_at(&PADDED_DATAGRAM, &OTHER_IP, true)
        && is_datagram_at(&PADDED_DATAGRAM, &OTHER_IP, false)
}

#[test]
fn what_is_no_datagram(rt: HostRuntime) {
    assert!(&rt; is_datagram_alone());
    assert_each(&rt, &OTHER_DATAGRAMS, is_no_datagram);
}

#[test]
fn a_checksum_of_0_goes_as_ones(rt: HostRuntime) {
    // 5cf9 for a payload of 6869 makes c562 for one of 0, which leaves 0 for one of c562
    let checksum = [0xff, 0xff];
    assert!(rt; datagram_of(&[0xc5, 0x62], true).as_slice().get(6..8) == Some(checksum.as_slice()));
}

/// A reset from 192.168.69.1 to 192.168.69.100.
const RESET: [u8; 20] = [
    0x00, 0x50, 0x13, 0x88, 0x00, 0x00, 0x00, 0x00, 0x00, 0x00, 0x01, 0x01, 0x50, 0x14, 0x00, 0x00,
    0x8f, 0x41, 0x00, 0x00,
];

const RESET_REPR: TcpRepr = TcpRepr {
    src_port: 80,
    dst_port: 5000,
    control: TcpControl::Rst,
    seq_number: TcpSeqNumber { bits: 0 },
    ack_number: Some(TcpSeqNumber { bits: 257 }),
    window_len: 0,
};

/// `abc` without a checksum, from octet 16 of the segment on.
const DATA: [u8; 7] = [0, 0, 0, 0, 0x61, 0x62, 0x63];

const DATA_REPR: TcpRepr = TcpRepr {
    src_port: 80,
    dst_port: 5000,
    control: TcpControl::Psh,
    seq_number: TcpSeqNumber { bits: 0xffff_ffff },
    ack_number: None,
    window_len: 4096,
};

/// The octets of a segment.
fn segment_of(repr: &TcpRepr, payload: &[u8], is_summed: bool) -> FrameBuffer {
    let mut out = FrameBuffer::new();
    if payload.len() <= 1000 {
        repr.emit(&OWN_IP, &OTHER_IP, payload, is_summed, &mut out);
    }
    out
}

/// Whether octets are read as this segment.
fn is_segment_of(octets: &[u8], is_summed: bool, repr: &TcpRepr, payload: &[u8]) -> bool {
    TcpRepr::parse(octets, &OWN_IP, &OTHER_IP, is_summed) == Some((*repr, payload))
}

fn is_segment_to(octets: &[u8], dst: &IpAddress, is_summed: bool) -> bool {
    TcpRepr::parse(octets, &OWN_IP, dst, is_summed).is_some()
}

fn is_reset() -> bool {
    segment_of(&RESET_REPR, &[], true).as_slice() == RESET.as_slice()
        && is_segment_of(&RESET, true, &RESET_REPR, &[])
        && !is_segment_to(&RESET, &OWN_IP, true)
        && is_segment_to(&RESET, &OWN_IP, false)
}

#[test]
fn a_segment(rt: HostRuntime) {
    assert!(rt; is_reset());
}

/// Whether octets are a segment, with its checksum untested.
fn is_segment(octets: &[u8]) -> bool {
    is_segment_to(octets, &OTHER_IP, false)
}

/// A place in the reset, and another octet there: no source port, a header of 16 octets, one of 24.
const OTHER_SEGMENTS: [(usize, u8); 3] = [(1, 0), (12, 0x40), (12, 0x60)];

fn is_no_segment(case: &(usize, u8)) -> bool {
    !is_segment(&changed(&RESET, case.0, case.1))
}

#[test]
fn what_is_no_segment(rt: HostRuntime) {
    assert!(&rt; none_below(20, &RESET, is_segment));
    assert_each(&rt, &OTHER_SEGMENTS, is_no_segment);
}

// A packet carries 65,535 octets at most.
#[test]
fn what_no_packet_carries(rt: HostRuntime) {
    let mut octets = [0; 65_536];
    octets[..20].copy_from_slice(&RESET[..20]);
    assert!(rt; is_segment(&octets[..65_535]) && !is_segment(&octets));
}

/// The flags of a segment, what they mean, if they may stand together, and whether it acknowledges.
type Flags = (u8, Option<(TcpControl, bool)>);

const FLAGS: [Flags; 11] = [
    (0x00, Some((TcpControl::None, false))),
    (0x10, Some((TcpControl::None, true))),
    (0x18, Some((TcpControl::Psh, true))),
    (0x02, Some((TcpControl::Syn, false))),
    (0x0a, Some((TcpControl::Syn, false))),
    (0x19, Some((TcpControl::Fin, true))),
    (0x04, Some((TcpControl::Rst, false))),
    (0x03, None),
    (0x06, None),
    (0x05, None),
    (0x07, None),
];

/// What a segment's flags mean, and whether it acknowledges.
fn control_of(octets: &[u8]) -> Option<(TcpControl, bool)> {
    let (repr, _) = TcpRepr::parse(octets, &OWN_IP, &OTHER_IP, false)?;
    Some((repr.control, repr.ack_number.is_some()))
}

fn are_read(case: &Flags) -> bool {
    control_of(&changed(&RESET, 13, case.0)) == case.1
}

#[test]
fn flags_of_segments(rt: HostRuntime) {
    assert_each(&rt, &FLAGS, are_read);
}

#[test]
fn data_of_segments(rt: HostRuntime) {
    let out = segment_of(&DATA_REPR, b"abc", false);
    let is_right = out.as_slice().get(16..) == Some(DATA.as_slice())
        && is_segment_of(out.as_slice(), false, &DATA_REPR, b"abc");
    assert!(rt; is_right);
}

#[test]
fn a_buffer_is_filled_and_begun_anew(rt: HostRuntime) {
    let mut out = FrameBuffer::new();
    let was_empty = out.is_empty();
    out.append(&[1, 2, 3]);
    out.append(&[]);
    out.append(&[4]);
    let is_filled = out.as_slice() == [1, 2, 3, 4].as_slice() && out.len() == 4;
    out.clear();
    let is_begun_anew = out.is_empty();
    out.append(&[0xaa; 1514]);
    let is_full = out.len() == 1514;
    out.append(&[]);
    let stays_full = out.as_slice() == [0xaa; 1514].as_slice();
    assert!(rt; was_empty && is_filled && is_begun_anew && is_full && stays_full);
}
