use crate::cases::{assert_each, changed, none_below};
use control_wire::{Icmpv4DstUnreachable, Icmpv4Repr};
use ip_wire::emit::FrameBuffer;
use ip_wire::ipv4_packet::Ipv4Repr;
use ip_wire::{IpProtocol, Ipv4Address};

/// An echo request with identifier 0x1234, number 1 and data `abcd`.
const REQUEST: [u8; 12] = [
    0x08, 0x00, 0x21, 0x04, 0x12, 0x34, 0x00, 0x01, 0x61, 0x62, 0x63, 0x64,
];

/// Its reply.
const REPLY: [u8; 12] = [
    0x00, 0x00, 0x29, 0x04, 0x12, 0x34, 0x00, 0x01, 0x61, 0x62, 0x63, 0x64,
];

/// `hi` from 192.168.69.100, port 5000, to 192.168.69.1, port 6969.
const DATAGRAM: [u8; 10] = [0x13, 0x88, 0x1b, 0x39, 0x00, 0x0a, 0x5c, 0xf9, 0x68, 0x69];

/// The first eight octets of it.
const QUOTED: [u8; 8] = [0x13, 0x88, 0x1b, 0x39, 0x00, 0x0a, 0x5c, 0xf9];

/// A port unreachable that quotes all of it: eight octets, the quoted header, the datagram.
const PORT_UNREACHABLE: [u8; 38] = [
    0x03, 0x03, 0x08, 0xcf, 0x00, 0x00, 0x00, 0x00, 0x45, 0x00, 0x00, 0x1e, 0x00, 0x00, 0x40, 0x00,
    0x40, 0x11, 0x2f, 0x19, 0xc0, 0xa8, 0x45, 0x64, 0xc0, 0xa8, 0x45, 0x01, 0x13, 0x88, 0x1b, 0x39,
    0x00, 0x0a, 0x5c, 0xf9, 0x68, 0x69,
];

/// Time exceeded in transit (RFC 792): type 11, code 0, checksum, four octets of 0, the header and
/// the first eight octets of the datagram.
const TIME_EXCEEDED: [u8; 36] = [
    0x0b, 0x00, 0x69, 0x3b, 0x00, 0x00, 0x00, 0x00, 0x45, 0x00, 0x00, 0x1e, 0x00, 0x00, 0x40, 0x00,
    0x01, 0x11, 0x6e, 0x19, 0xc0, 0xa8, 0x45, 0x64, 0xc0, 0xa8, 0x45, 0x01, 0x13, 0x88, 0x1b, 0x39,
    0x00, 0x0a, 0x5c, 0xf9,
];

/// The same with 0 for the quoted header's checksum.
const UNSUMMED_QUOTATION: [u8; 36] = [
    0x0b, 0x00, 0xd7, 0x54, 0x00, 0x00, 0x00, 0x00, 0x45, 0x00, 0x00, 0x1e, 0x00, 0x00, 0x40, 0x00,
    0x01, 0x11, 0x00, 0x00, 0xc0, 0xa8, 0x45, 0x64, 0xc0, 0xa8, 0x45, 0x01, 0x13, 0x88, 0x1b, 0x39,
    0x00, 0x0a, 0x5c, 0xf9,
];

const REQUEST_REPR: Icmpv4Repr = Icmpv4Repr::EchoRequest {
    ident: 0x1234,
    seq_no: 1,
};

const REPLY_REPR: Icmpv4Repr = Icmpv4Repr::EchoReply {
    ident: 0x1234,
    seq_no: 1,
};

const PORT_UNREACHABLE_REPR: Icmpv4Repr = Icmpv4Repr::DstUnreachable {
    reason: Icmpv4DstUnreachable::PortUnreachable,
    header: Ipv4Repr {
        src_addr: Ipv4Address { bits: 0xc0a8_4564 },
        dst_addr: Ipv4Address { bits: 0xc0a8_4501 },
        next_header: IpProtocol::Udp,
        payload_len: 10,
        hop_limit: 64,
    },
};

const TIME_EXCEEDED_REPR: Icmpv4Repr = Icmpv4Repr::TimeExceeded {
    code: 0,
    header: Ipv4Repr {
        src_addr: Ipv4Address { bits: 0xc0a8_4564 },
        dst_addr: Ipv4Address { bits: 0xc0a8_4501 },
        next_header: IpProtocol::Udp,
        payload_len: 10,
        hop_limit: 1,
    },
};

/// A message, its payload, whether the header that it quotes is summed, and its octets.
type Case = (Icmpv4Repr, &'static [u8], bool, &'static [u8]);

const MESSAGES: [Case; 5] = [
    (REQUEST_REPR, b"abcd", true, &REQUEST),
    (REPLY_REPR, b"abcd", true, &REPLY),
    (PORT_UNREACHABLE_REPR, &DATAGRAM, true, &PORT_UNREACHABLE),
    (TIME_EXCEEDED_REPR, &QUOTED, true, &TIME_EXCEEDED),
    (TIME_EXCEEDED_REPR, &QUOTED, false, &UNSUMMED_QUOTATION),
];

/// The octets of a message.
fn emitted(
    message: &Icmpv4Repr,
    payload: &[u8],
    is_summed: bool,
    is_quotation_summed: bool,
) -> FrameBuffer {
    let mut out = FrameBuffer::new();
    if payload.len() > 10 {
        return out;
    }
    match message {
        Icmpv4Repr::EchoRequest { .. } | Icmpv4Repr::EchoReply { .. } => {
            message.emit(payload, is_summed, is_quotation_summed, &mut out);
        }
        Icmpv4Repr::DstUnreachable { header, .. } | Icmpv4Repr::TimeExceeded { header, .. } => {
            if header.payload_len <= 10 {
                message.emit(payload, is_summed, is_quotation_summed, &mut out);
            }
        }
    }
    out
}

fn is_read_and_written(case: &Case) -> bool {
    let (message, payload, is_quotation_summed, octets) = case;
    Icmpv4Repr::parse(octets, true) == Some((*message, *payload))
        && emitted(message, payload, true, *is_quotation_summed).as_slice() == *octets
}

fn is_written_unsummed() -> bool {
    emitted(&REPLY_REPR, b"abcd", false, true)
        .as_slice()
        .starts_with(&[0, 0, 0, 0])
}

#[test]
fn messages_are_read_and_written(rt: HostRuntime) {
    assert_each(&rt, &MESSAGES, is_read_and_written);
    assert!(rt; is_written_unsummed());
}

fn is_message(octets: &[u8]) -> bool {
    Icmpv4Repr::parse(octets, false).is_some()
}

/// A place in the request, another octet there, and whether that is a message with its checksum untested: a wrong checksum,
/// a code, another type, and an error that quotes nothing.
const CHANGES: [(usize, u8, bool); 4] = [
    (11, 0x65, true),
    (1, 1, false),
    (0, 13, false),
    (0, 3, false),
];

fn is_refused(case: &(usize, u8, bool)) -> bool {
    let octets = changed(&REQUEST, case.0, case.1);
    Icmpv4Repr::parse(&octets, true).is_none() && is_message(&octets) == case.2
}

#[test]
fn what_is_no_message(rt: HostRuntime) {
    assert!(&rt; none_below(8, &REQUEST, is_message));
    assert_each(&rt, &CHANGES, is_refused);
}

// A packet carries 65,535 octets at most.
#[test]
fn what_no_packet_carries(rt: HostRuntime) {
    let mut octets = [0; 65_536];
    octets[0] = 8;
    assert!(rt; is_message(&octets[..65_535]) && !is_message(&octets));
}
