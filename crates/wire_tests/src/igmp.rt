use crate::cases::assert_each;
use control_wire::igmp::{max_resp_time, query_version};
use control_wire::{IgmpRepr, IgmpVersion};
use ip_address::Ipv4Address;

/// 239.1.2.3.
const GROUP: Ipv4Address = Ipv4Address { bits: 0xef01_0203 };

/// A message's octets, and its values.
type Case = ([u8; 8], IgmpRepr);

const MESSAGES: [Case; 4] = [
    (
        [0x11, 0x64, 0xee, 0x9b, 0x00, 0x00, 0x00, 0x00],
        IgmpRepr::MembershipQuery {
            max_resp_code: 100,
            group_addr: Ipv4Address { bits: 0 },
        },
    ),
    (
        [0x12, 0x00, 0xfc, 0xfa, 0xef, 0x01, 0x02, 0x03],
        IgmpRepr::MembershipReport {
            group_addr: GROUP,
            version: IgmpVersion::Version1,
        },
    ),
    (
        [0x16, 0x00, 0xf8, 0xfa, 0xef, 0x01, 0x02, 0x03],
        IgmpRepr::MembershipReport {
            group_addr: GROUP,
            version: IgmpVersion::Version2,
        },
    ),
    (
        [0x17, 0x00, 0xf7, 0xfa, 0xef, 0x01, 0x02, 0x03],
        IgmpRepr::LeaveGroup { group_addr: GROUP },
    ),
];

fn is_read_and_written(case: &Case) -> bool {
    let (octets, message) = case;
    IgmpRepr::parse(octets) == Some(*message) && message.octets() == *octets
}

#[test]
fn messages_are_read_and_written(rt: HostRuntime) {
    assert_each(&rt, &MESSAGES, is_read_and_written);
}

/// Octets, and whether they are a message.
const OCTETS: [(&[u8], bool); 10] = [
    (&[0x16, 0x00, 0xf8, 0xfa, 0xef, 0x01, 0x02, 0x03], true),
    (&[0x16, 0x00, 0xf8, 0xfa, 0xef, 0x01, 0x02], false),
    // something behind it, a code, another checksum
    (
        &[0x16, 0x00, 0xf8, 0xfa, 0xef, 0x01, 0x02, 0x03, 0x99],
        true,
    ),
    (&[0x16, 0x64, 0xf8, 0x96, 0xef, 0x01, 0x02, 0x03], true),
    (&[0x16, 0x00, 0x00, 0x00, 0xef, 0x01, 0x02, 0x03], true),
    // other types
    (&[0x13, 0x00, 0xf8, 0xfa, 0xef, 0x01, 0x02, 0x03], false),
    (&[0x22, 0x00, 0xf8, 0xfa, 0xef, 0x01, 0x02, 0x03], false),
    // the addresses about those of groups, and one that is nearly 0.0.0.0
    (&[0x16, 0x00, 0xf8, 0xfa, 0xdf, 0xff, 0xff, 0xff], false),
    (&[0x16, 0x00, 0xf8, 0xfa, 0xf0, 0x00, 0x00, 0x00], false),
    (&[0x16, 0x00, 0xf8, 0xfa, 0x00, 0x00, 0x00, 0x01], false),
];

fn is_taken(case: &(&[u8], bool)) -> bool {
    IgmpRepr::parse(case.0).is_some() == case.1
}

#[test]
fn what_is_a_message(rt: HostRuntime) {
    assert_each(&rt, &OCTETS, is_taken);
}

/// A code, its version, and its time in tenths of a second.
type Code = (u8, IgmpVersion, u32);

const CODES: [Code; 8] = [
    (0, IgmpVersion::Version1, 0),
    (1, IgmpVersion::Version2, 1),
    (100, IgmpVersion::Version2, 100),
    (127, IgmpVersion::Version2, 127),
    (128, IgmpVersion::Version2, 128),
    (143, IgmpVersion::Version2, 248),
    (144, IgmpVersion::Version2, 256),
    (255, IgmpVersion::Version2, 31_744),
];

fn is_told(case: &Code) -> bool {
    let (code, version, tenths) = case;
    query_version(*code) == *version
        && max_resp_time(*code).total_micros() == u64::from(*tenths) * 100_000
}

#[test]
fn codes(rt: HostRuntime) {
    assert_each(&rt, &CODES, is_told);
}
