use crate::cases::assert_each;
use arrayvec::ArrayVec;
use ip_address::IpProtocol;
use ip_wire::emit::FrameBuffer;
use ip_wire::{Ipv6HopByHopRepr, Ipv6OptionFailureType, Ipv6OptionRepr};

const PAD1: Ipv6OptionRepr = Ipv6OptionRepr::Pad1;

/// A header, what it is to be read as: its options, and how many octets stand behind it.
type Case = (&'static [u8], Option<(&'static [Ipv6OptionRepr], usize)>);

const HEADERS: [Case; 11] = [
    // of a group report: a router alert, padding, and the report's first octets
    (
        &[0x3a, 0x00, 0x05, 0x02, 0x00, 0x00, 0x01, 0x00, 0x8f, 0x00],
        Some((
            &[Ipv6OptionRepr::RouterAlert(0), Ipv6OptionRepr::PadN(0)],
            2,
        )),
    ),
    (&[], None),
    (&[0x3a, 0x00, 0x01, 0x03, 0x00, 0x00, 0x00], None),
    // the second eight octets belong to the header
    (
        &[0x3a, 0x01, 0x01, 0x0c, 0, 0, 0, 0, 0, 0, 0, 0, 0, 0, 0, 0],
        Some((&[Ipv6OptionRepr::PadN(12)], 0)),
    ),
    (
        &[0x3a, 0x01, 0x01, 0x0b, 0, 0, 0, 0, 0, 0, 0, 0, 0, 0, 0],
        None,
    ),
    // the fifth option runs out
    (
        &[0x3a, 0x00, 0x00, 0x00, 0x00, 0x00, 0x01, 0x09],
        Some((&[PAD1, PAD1, PAD1, PAD1], 0)),
    ),
    // the fourth runs out by one octet, and doesn't
    (
        &[0x3a, 0x00, 0x00, 0x00, 0x00, 0x01, 0x02, 0x00, 0x00],
        None,
    ),
    (
        &[0x3a, 0x00, 0x00, 0x00, 0x00, 0x01, 0x01, 0x00, 0x00],
        Some((&[PAD1, PAD1, PAD1, Ipv6OptionRepr::PadN(1)], 1)),
    ),
    // the last has no length
    (&[0x3a, 0x00, 0x01, 0x03, 0x00, 0x00, 0x00, 0x01], None),
    // a router alert of three octets is none
    (
        &[0x3a, 0x00, 0x05, 0x03, 0x00, 0x00, 0x00, 0x00],
        Some((
            &[
                Ipv6OptionRepr::Unknown {
                    option_type: 5,
                    length: 3,
                },
                PAD1,
            ],
            0,
        )),
    ),
    (
        &[0x3a, 0x00, 0x05, 0x02, 0x12, 0x34, 0xc0, 0x00],
        Some((
            &[
                Ipv6OptionRepr::RouterAlert(0x1234),
                Ipv6OptionRepr::Unknown {
                    option_type: 0xc0,
                    length: 0,
                },
            ],
            0,
        )),
    ),
];

fn is_read(case: &Case) -> bool {
    match (Ipv6HopByHopRepr::parse(case.0), case.1) {
        (Some((header, rest)), Some((options, behind))) => {
            header.next_header == IpProtocol::Icmpv6
                && header.options.as_slice() == options
                && rest.len() == behind
        }
        (None, None) => true,
        _ => false,
    }
}

#[test]
fn the_first_four_options_are_read(rt: HostRuntime) {
    assert_each(&rt, &HEADERS, is_read);
}

/// The types of two options, and what they are to be failed by.
type Failure = (u8, u8, Ipv6OptionFailureType);

const FAILURES: [Failure; 8] = [
    (0x01, 0x01, Ipv6OptionFailureType::Skip),
    (0x05, 0x3e, Ipv6OptionFailureType::Skip),
    (0x3f, 0x40, Ipv6OptionFailureType::Discard),
    (0x7f, 0xc0, Ipv6OptionFailureType::Discard),
    (0x3e, 0x80, Ipv6OptionFailureType::DiscardSendAll),
    (0xbf, 0x40, Ipv6OptionFailureType::DiscardSendAll),
    (0xc0, 0x80, Ipv6OptionFailureType::DiscardSendUnicast),
    (0x01, 0xff, Ipv6OptionFailureType::DiscardSendUnicast),
];

fn failure_type_of(first: u8, second: u8) -> Option<Ipv6OptionFailureType> {
    let octets = [0x11, 0x00, first, 0x00, second, 0x00, 0x01, 0x00];
    let (header, _) = Ipv6HopByHopRepr::parse(&octets)?;
    Some(header.failure_type())
}

fn is_decided(case: &Failure) -> bool {
    failure_type_of(case.0, case.1) == Some(case.2)
}

#[test]
fn the_first_option_that_is_not_skipped_decides(rt: HostRuntime) {
    assert_each(&rt, &FAILURES, is_decided);
}

/// The octets of a header before a control message.
fn emitted(options: &[Ipv6OptionRepr]) -> FrameBuffer {
    let mut out = FrameBuffer::new();
    let mut header = Ipv6HopByHopRepr {
        next_header: IpProtocol::Icmpv6,
        options: ArrayVec::new(),
    };
    let _ = header.options.try_extend_from_slice(options);
    let len = header.header_len();
    if len % 8 == 0 && len <= 1514 {
        header.emit(&mut out);
    }
    out
}

/// Options, and the octets of a header with them.
type Emitted = (&'static [Ipv6OptionRepr], &'static [u8]);

const EMITTED: [Emitted; 3] = [
    (
        &[Ipv6OptionRepr::RouterAlert(0), Ipv6OptionRepr::PadN(0)],
        &[0x3a, 0x00, 0x05, 0x02, 0x00, 0x00, 0x01, 0x00],
    ),
    (
        &[PAD1, Ipv6OptionRepr::RouterAlert(0x1234), PAD1],
        &[0x3a, 0x00, 0x00, 0x05, 0x02, 0x12, 0x34, 0x00],
    ),
    (
        &[Ipv6OptionRepr::PadN(12)],
        &[0x3a, 0x01, 0x01, 0x0c, 0, 0, 0, 0, 0, 0, 0, 0, 0, 0, 0, 0],
    ),
];

fn is_emitted(case: &Emitted) -> bool {
    emitted(case.0).as_slice() == case.1
}

#[test]
fn headers_are_emitted(rt: HostRuntime) {
    assert_each(&rt, &EMITTED, is_emitted);
}
