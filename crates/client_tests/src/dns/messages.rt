use crate::cases::{assert_each, changed};
use crate::dns::octets::{A_ANSWER, A_QUERY, AAAA_ANSWER, AAAA_QUERY, ALIAS_ANSWER};
use dns_client::message::emit_query;
use dns_client::{DnsData, DnsHeader, DnsQuestion, DnsRecord, DnsType};
use ip_address::{Ipv4Address, Ipv6Address};
use ip_wire::emit::FrameBuffer;

/// www.example.com.
const WWW: &[u8] = b"\x03www\x07example\x03com\x00";

/// A query's number, its type, and its octets.
type Query = (u16, DnsType, [u8; 33]);

const QUERIES: [Query; 2] = [
    (0x1234, DnsType::A, A_QUERY),
    (0x1235, DnsType::Aaaa, AAAA_QUERY),
];

fn is_emitted(query: &Query) -> bool {
    let (number, query_type, octets) = query;
    let mut out = FrameBuffer::new();
    emit_query(*number, WWW, *query_type, &mut out);
    out.as_slice() == octets.as_slice()
}

#[test]
fn queries(rt: HostRuntime) {
    assert_each(&rt, &QUERIES, is_emitted);
}

const QUERY_HEADER: DnsHeader = DnsHeader {
    transaction_id: 0x1234,
    is_response: false,
    opcode: 0,
    is_truncated: false,
    response_code: 0,
    question_count: 1,
    answer_count: 0,
};

/// The octets of a message, and its header.
type Header = (&'static [u8], Option<DnsHeader>);

const HEADERS: [Header; 3] = [
    (&A_QUERY, Some(QUERY_HEADER)),
    (
        &A_ANSWER,
        Some(DnsHeader {
            is_response: true,
            answer_count: 1,
            ..QUERY_HEADER
        }),
    ),
    // each bit alone: OPCODE 15, TC, RCODE 15
    (
        &[0, 0, 0x7a, 0x8f, 0, 0, 0, 0, 0, 0, 0, 0],
        Some(DnsHeader {
            transaction_id: 0,
            is_response: false,
            opcode: 15,
            is_truncated: true,
            response_code: 15,
            question_count: 0,
            answer_count: 0,
        }),
    ),
];

fn is_header(case: &Header) -> bool {
    DnsHeader::parse(case.0) == case.1
}

#[test]
fn headers(rt: HostRuntime) {
    assert_each(&rt, &HEADERS, is_header);
    assert!(rt; DnsHeader::parse(&A_QUERY[..11]).is_none());
}

const QUESTION: DnsQuestion = DnsQuestion {
    question_type: 28,
    class: 1,
    end: 33,
};

fn are_questions() -> bool {
    DnsQuestion::parse(&AAAA_QUERY, 12) == Some(QUESTION)
        && DnsQuestion::parse(&AAAA_QUERY[..32], 12).is_none()
}

#[test]
fn questions(rt: HostRuntime) {
    assert!(rt; are_questions());
}

/// What a record has, of a time to live of 0, and where it ends.
fn read(octets: &[u8], at: usize) -> Option<(DnsData, usize)> {
    let record = DnsRecord::parse(octets, at)?;
    if record.time_to_live != 0 {
        return None;
    }
    Some((record.data, record.end))
}

/// 192.0.2.7 and 2001:db8::7.
const ADDRESS: DnsData = DnsData::A(Ipv4Address { bits: 0xc000_0207 });

const IPV6_ADDRESS: DnsData = DnsData::Aaaa(Ipv6Address {
    bits: 0x2001_0db8_0000_0000_0000_0000_0000_0007,
});

/// The octets of a message, how many of them are there, where a record begins, what it has, and where it ends.
type Record = (&'static [u8], usize, usize, Option<(DnsData, usize)>);

const RECORDS: [Record; 6] = [
    (&A_ANSWER, 49, 33, Some((ADDRESS, 49))),
    (&AAAA_ANSWER, 61, 33, Some((IPV6_ADDRESS, 61))),
    // the data of the second one are where the first one's data point to
    (&ALIAS_ANSWER, 111, 35, Some((DnsData::Cname(47), 66))),
    (&ALIAS_ANSWER, 111, 66, Some((DnsData::Cname(78), 95))),
    // cut off
    (&A_ANSWER, 48, 33, None),
    (&A_ANSWER, 44, 33, None),
];

fn is_read(case: &Record) -> bool {
    let (octets, len, at, record) = case;
    match octets.get(..*len) {
        Some(octets) => read(octets, *at) == *record,
        None => false,
    }
}

#[test]
fn records(rt: HostRuntime) {
    assert_each(&rt, &RECORDS, is_read);
}

/// A place in an answer, another octet there, and what its record has: an address of three octets, another class, and
/// another type.
type Change = (usize, u8, Option<DnsData>);

const CHANGES: [Change; 3] = [
    (44, 3, None),
    (38, 3, Some(DnsData::Other)),
    (36, 16, Some(DnsData::Other)),
];

/// What the record at a place has.
fn data_at(octets: &[u8], at: usize) -> Option<DnsData> {
    Some(DnsRecord::parse(octets, at)?.data)
}

fn is_read_changed(case: &Change) -> bool {
    data_at(&changed(&A_ANSWER, case.0, case.1), 33) == case.2
}

#[test]
fn changed_records(rt: HostRuntime) {
    assert_each(&rt, &CHANGES, is_read_changed);
    // a name that isn't all of the data
    assert!(rt; data_at(&changed(&ALIAS_ANSWER, 46, 0x12), 35).is_none());
}
