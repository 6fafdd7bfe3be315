use crate::cases::assert_each;
use control_wire::{MldAddressRecordRepr, MldRecordType, MldRepr};
use ip_address::Ipv6Address;

/// ff02::1:ff00:1.
const GROUP: Ipv6Address = Ipv6Address {
    bits: 0xff02_0000_0000_0000_0000_0001_ff00_0001,
};

/// A query of GROUP with code 0x2710 and one source, fe80::1, behind checksum 0.
const QUERY: [u8; 44] = [
    0x82, 0x00, 0x00, 0x00, 0x27, 0x10, 0x00, 0x00, 0xff, 0x02, 0x00, 0x00, 0x00, 0x00, 0x00, 0x00,
    0x00, 0x00, 0x00, 0x01, 0xff, 0x00, 0x00, 0x01, 0x0a, 0x7d, 0x00, 0x01, 0xfe, 0x80, 0x00, 0x00,
    0x00, 0x00, 0x00, 0x00, 0x00, 0x00, 0x00, 0x00, 0x00, 0x00, 0x00, 0x01,
];

/// A report of one record, of which here only the first four octets are, behind checksum 0.
const REPORT: [u8; 12] = [
    0x8f, 0x00, 0x00, 0x00, 0x00, 0x00, 0x00, 0x01, 0x04, 0x00, 0x00, 0x00,
];

const QUERY_REPR: MldRepr = MldRepr::Query {
    max_resp_code: 0x2710,
    mcast_addr: GROUP,
};

const REPORT_REPR: MldRepr = MldRepr::Report {
    nr_mcast_addr_rcrds: 1,
};

/// Whether the first octets of a message are read as this one, before the others.
fn is_read(octets: &[u8], len: usize, message: MldRepr) -> bool {
    MldRepr::parse(octets) == Some((message, octets.get(len..).unwrap_or(&[])))
}

fn is_no_message(octets: &[u8]) -> bool {
    MldRepr::parse(octets).is_none()
}

fn are_queries_read() -> bool {
    is_read(&QUERY, 28, QUERY_REPR)
        && is_read(&QUERY[..28], 28, QUERY_REPR)
        && is_no_message(&QUERY[..27])
}

fn are_reports_read() -> bool {
    is_read(&REPORT, 8, REPORT_REPR)
        && is_read(&REPORT[..8], 8, REPORT_REPR)
        && is_no_message(&REPORT[..7])
        // another code, and version 1's report
        && is_no_message(&[0x8f, 0x01, 0x00, 0x00, 0x00, 0x00, 0x00, 0x01])
        && is_no_message(&[0x83, 0x00, 0x00, 0x00, 0x00, 0x00, 0x00, 0x01])
}

#[test]
fn messages_are_read(rt: HostRuntime) {
    assert!(rt; are_queries_read() && are_reports_read());
}

/// A message, its type and length, and its octets behind the checksum, in two parts.
type Written = (MldRepr, u8, usize, [u8; 4], Option<[u8; 20]>);

const WRITTEN: [Written; 2] = [
    (
        QUERY_REPR,
        130,
        28,
        [0x27, 0x10, 0, 0],
        Some([
            0xff, 0x02, 0, 0, 0, 0, 0, 0, 0, 0, 0, 0x01, 0xff, 0, 0, 0x01, 0, 0, 0, 0,
        ]),
    ),
    (
        MldRepr::Report {
            nr_mcast_addr_rcrds: 0x0102,
        },
        143,
        8,
        [0, 0, 0x01, 0x02],
        None,
    ),
];

fn is_written(case: &Written) -> bool {
    let (message, message_type, len, rest, body) = case;
    message.message_type() == *message_type
        && message.message_len() == *len
        && message.rest_of() == *rest
        && message.body_octets() == *body
}

#[test]
fn messages_are_written(rt: HostRuntime) {
    assert_each(&rt, &WRITTEN, is_written);
}

/// The type of a record, and its number.
const RECORDS: [(MldRecordType, u8); 3] = [
    (MldRecordType::ModeIsExclude, 2),
    (MldRecordType::ChangeToInclude, 3),
    (MldRecordType::ChangeToExclude, 4),
];

fn is_record(case: &(MldRecordType, u8)) -> bool {
    let (record_type, number) = case;
    let record = MldAddressRecordRepr {
        record_type: *record_type,
        mcast_addr: GROUP,
    };
    record.octets()
        == [
            *number, 0, 0, 0, 0xff, 0x02, 0, 0, 0, 0, 0, 0, 0, 0, 0, 0x01, 0xff, 0, 0, 0x01,
        ]
}

#[test]
fn address_records(rt: HostRuntime) {
    assert_each(&rt, &RECORDS, is_record);
}
