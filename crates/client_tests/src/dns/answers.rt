use crate::cases::{assert_each, changed};
use crate::dns::octets::{A_ANSWER, AAAA_ANSWER, ALIAS_ANSWER, CASE_ANSWER, NO_NAME, TWO_ANSWER};
use dns_client::{DnsFailure, DnsQuery, DnsResult, DnsType};
use ip_address::{IpAddress, Ipv4Address, Ipv6Address};

const SERVERS: [IpAddress; 2] = [
    IpAddress::Ipv4(Ipv4Address { bits: 0x7f00_0001 }),
    IpAddress::Ipv4(Ipv4Address { bits: 0x7f00_0002 }),
];

const WWW: &[u8] = b"\x03www\x07example\x03com\x00";

/// A query with a number, from port 49153, that the first server was asked.
fn asked(query_type: DnsType, number: u16) -> DnsQuery {
    let mut query = DnsQuery::new(0, query_type, 0x1_0000 + u32::from(number), 0);
    query.next_server(0, 2);
    query
}

/// What an answer of the first server makes of a query of a name.
fn result(name: &[u8], query_type: DnsType, number: u16, octets: &[u8]) -> DnsResult {
    let mut query = asked(query_type, number);
    query.receive(name, &SERVERS, SERVERS[0], 53, 49_153, octets);
    query.result
}

/// 192.0.2.1, 192.0.2.2, 192.0.2.7 and 2001:db8::7.
const FIRST: Option<IpAddress> = Some(IpAddress::Ipv4(Ipv4Address { bits: 0xc000_0201 }));

const SECOND: Option<IpAddress> = Some(IpAddress::Ipv4(Ipv4Address { bits: 0xc000_0202 }));

const SEVENTH: Option<IpAddress> = Some(IpAddress::Ipv4(Ipv4Address { bits: 0xc000_0207 }));

const IPV6_SEVENTH: Option<IpAddress> = Some(IpAddress::Ipv6(Ipv6Address {
    bits: 0x2001_0db8_0000_0000_0000_0000_0000_0007,
}));

const FOUR: &[u8] = b"\x04four\x07example\x03com\x00";

const ALIAS: &[u8] = b"\x05alias\x07example\x03com\x00";

/// A query's name, type and number, its answer, and the addresses that it has.
type Answer = (
    &'static [u8],
    DnsType,
    u16,
    &'static [u8],
    [Option<IpAddress>; 4],
);

const ANSWERS: [Answer; 5] = [
    (
        WWW,
        DnsType::A,
        0x1234,
        &A_ANSWER,
        [SEVENTH, None, None, None],
    ),
    (
        WWW,
        DnsType::Aaaa,
        0x1235,
        &AAAA_ANSWER,
        [IPV6_SEVENTH, None, None, None],
    ),
    (
        WWW,
        DnsType::A,
        0x1238,
        &CASE_ANSWER,
        [SEVENTH, None, None, None],
    ),
    (
        FOUR,
        DnsType::A,
        0x1239,
        &TWO_ANSWER,
        [FIRST, SECOND, None, None],
    ),
    (
        ALIAS,
        DnsType::A,
        0x1236,
        &ALIAS_ANSWER,
        [SEVENTH, None, None, None],
    ),
];

fn is_found(case: &Answer) -> bool {
    let (name, query_type, number, octets, addresses) = case;
    result(name, *query_type, *number, octets) == DnsResult::Addresses(*addresses)
}

#[test]
fn addresses(rt: HostRuntime) {
    assert_each(&rt, &ANSWERS, is_found);
}

/// The address of example.com alone.
fn has_no_address() -> bool {
    let octets = changed(&A_ANSWER, 34, 16);
    result(WWW, DnsType::A, 0x1234, &octets) == DnsResult::Failed(DnsFailure::NoAddress)
}

/// How many octets of an answer that was cut (TC) are there, another octet in its record's name, and what becomes of the query:
/// it has the address, there is none, and the record isn't whole.
type Cut = (usize, u8, DnsResult);

const CUTS: [Cut; 3] = [
    (
        49,
        12,
        DnsResult::TruncatedAddresses([SEVENTH, None, None, None]),
    ),
    (49, 16, DnsResult::Failed(DnsFailure::Truncated)),
    (48, 12, DnsResult::Failed(DnsFailure::Truncated)),
];

fn is_cut(case: &Cut) -> bool {
    let (len, name, end) = case;
    let octets = changed(&changed(&A_ANSWER, 2, 0x87), 34, *name);
    match octets.get(..*len) {
        Some(octets) => result(WWW, DnsType::A, 0x1234, octets) == *end,
        None => false,
    }
}

#[test]
fn answers_that_were_cut(rt: HostRuntime) {
    assert_each(&rt, &CUTS, is_cut);
}

/// FORMERR without a question.
const NO_QUESTION: [u8; 12] = [0x12, 0x34, 0x81, 0x81, 0, 0, 0, 0, 0, 0, 0, 0];

/// What a server says of a query.
fn says(query: &mut DnsQuery, server: usize, octets: &[u8]) {
    if let Some(server) = SERVERS.get(server) {
        query.receive(WWW, &SERVERS, *server, 53, 49_153, octets);
    }
}

/// RFC 1034 5.3.3: a server that refuses isn't waited for, and the query fails with the last one.
fn moves_on(octets: &[u8]) -> bool {
    let mut query = asked(DnsType::A, 0x1234);
    says(&mut query, 0, octets);
    let waits = query.result == DnsResult::Pending && query.poll_at(2) == Some(0);
    let next = query.next_server(1, 2);
    says(&mut query, 1, octets);
    waits && next == Some(1) && query.result == DnsResult::Failed(DnsFailure::ServerFailure)
}

/// RCODE 1, 2, 4 and 5: FORMERR, SERVFAIL, NOTIMP and REFUSED.
const REFUSALS: [u8; 4] = [0x81, 0x82, 0x84, 0x85];

fn moves_on_by(code: &u8) -> bool {
    moves_on(&changed(&A_ANSWER, 3, *code))
}

#[test]
fn refusals(rt: HostRuntime) {
    assert!(&rt; moves_on(&NO_QUESTION));
    assert_each(&rt, &REFUSALS, moves_on_by);
}

/// The second server refuses, and the first one was silent: that is asked again two seconds after the second was.
fn goes_round(query: &mut DnsQuery) -> bool {
    let second = query.next_server(2_000_000, 2);
    says(query, 1, &NO_QUESTION);
    second == Some(1)
        && query.result == DnsResult::Pending
        && query.poll_at(2) == Some(4_000_000)
        && query.next_server(3_999_999, 2).is_none()
        && query.next_server(4_000_000, 2) == Some(0)
}

/// A server that can't be reached isn't waited for; what another one is counts for nothing.
fn is_unreached() -> bool {
    let before = asked(DnsType::A, 0x1234);
    let mut query = before;
    query.server_failed(&SERVERS, SERVERS[1]);
    let is_same = query == before;
    query.server_failed(&SERVERS, SERVERS[0]);
    is_same && query.result == DnsResult::Pending && query.next_server(1, 2) == Some(1)
}

#[test]
fn a_server_out_of_reach(rt: HostRuntime) {
    assert!(rt; is_unreached());
}

/// A refusal of a server that wasn't asked, of another number, and no error without a question.
fn is_no_refusal() -> bool {
    let before = asked(DnsType::A, 0x1234);
    let mut query = before;
    says(&mut query, 1, &NO_QUESTION);
    says(&mut query, 0, &changed(&NO_QUESTION, 1, 0x35));
    says(&mut query, 0, &changed(&NO_QUESTION, 3, 0x80));
    query == before
}

#[test]
fn refusals_of_some(rt: HostRuntime) {
    assert!(rt; is_no_refusal() && goes_round(&mut asked(DnsType::A, 0x1234)));
}

fn is_no_name() -> bool {
    let none = b"\x04none\x07example\x03com\x00";
    result(none, DnsType::A, 0x1237, &NO_NAME) == DnsResult::Failed(DnsFailure::NoSuchName)
}

#[test]
fn failures(rt: HostRuntime) {
    assert!(rt; is_no_name() && has_no_address());
}

/// A query's name, the number of a server, the ports from which and to which its answer goes, and how many octets of that
/// are there.
type Forged = (&'static [u8], usize, u16, u16, usize);

/// RFC 5452: another server, other ports, another question, and records that aren't whole.
const FORGED: [Forged; 5] = [
    (WWW, 1, 53, 49_153, 49),
    (WWW, 0, 5353, 49_153, 49),
    (WWW, 0, 53, 49_154, 49),
    (b"\x03www\x07example\x03net\x00", 0, 53, 49_153, 49),
    (WWW, 0, 53, 49_153, 48),
];

/// Whether a query stays as it was at such an answer.
fn is_forged(case: &Forged) -> bool {
    let (name, server, from, to, len) = case;
    let before = asked(DnsType::A, 0x1234);
    let mut query = before;
    match (SERVERS.get(*server), A_ANSWER.get(..*len)) {
        (Some(server), Some(octets)) => {
            query.receive(name, &SERVERS, *server, *from, *to, octets);
            query == before
        }
        _ => false,
    }
}

/// A place in the answer, and another octet there: another number, no answer, another question.
const CHANGES: [(usize, u8); 7] = [
    (1, 0x35),
    (2, 0x05),
    (2, 0x8d),
    (5, 2),
    (30, 28),
    (32, 3),
    (13, b'x'),
];

fn is_forged_within(case: &(usize, u8)) -> bool {
    let before = asked(DnsType::A, 0x1234);
    let mut query = before;
    let forged = changed(&A_ANSWER, case.0, case.1);
    query.receive(WWW, &SERVERS, SERVERS[0], 53, 49_153, &forged);
    query == before
}

#[test]
fn forged_answers(rt: HostRuntime) {
    assert_each(&rt, &FORGED, is_forged);
    assert_each(&rt, &CHANGES, is_forged_within);
}

/// What the answer, of this server, makes of a query.
fn result_of(query: &mut DnsQuery, server: IpAddress) -> DnsResult {
    query.receive(WWW, &SERVERS, server, 53, 49_153, &A_ANSWER);
    query.result
}

/// An answer of a server that was given up, the answer of the next one, and one to a query that nobody was asked yet.
fn are_of_the_last_server() -> bool {
    let mut query = asked(DnsType::A, 0x1234);
    query.next_server(10_000_000, 2);
    let mut silent = DnsQuery::new(0, DnsType::A, 0x1_1234, 0);
    let found = DnsResult::Addresses([SEVENTH, None, None, None]);
    result_of(&mut query, SERVERS[0]) == DnsResult::Pending
        && result_of(&mut query, SERVERS[1]) == found
        && result_of(&mut silent, SERVERS[0]) == DnsResult::Pending
}

#[test]
fn answers_of_other_servers(rt: HostRuntime) {
    assert!(rt; are_of_the_last_server());
}
