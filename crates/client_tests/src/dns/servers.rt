use crate::cases::assert_each;
use dns_client::{DnsFailure, DnsQuery, DnsResult, DnsType};

const SECOND: u64 = 1_000_000;

/// What a query of two servers does at each of some tenths of seconds.
fn asked(query: &mut DnsQuery, tenths: &[u64; 9]) -> [Option<usize>; 9] {
    let mut out = [None; 9];
    for (index, at) in tenths.iter().enumerate() {
        if index < 9 && *at < 10_000 {
            out[index] = query.next_server(*at * (SECOND / 10), 2);
        }
    }
    out
}

const FIRST: Option<usize> = Some(0);

const SECOND_ONE: Option<usize> = Some(1);

/// The servers that are asked in the first ten seconds, and in the ten after them.
const AT_FIRST: [Option<usize>; 9] = [
    FIRST, None, SECOND_ONE, None, FIRST, None, SECOND_ONE, None, FIRST,
];

const LATER: [Option<usize>; 9] = [None, None, SECOND_ONE, None, None, None, None, None, None];

/// RFC 1035 4.2.1: one server is tried behind the other, after two seconds, and again after three, and after five.
fn are_asked_in_turn(query: &mut DnsQuery) -> bool {
    query.poll_at(2) == Some(0)
        && asked(query, &[0, 19, 20, 39, 40, 69, 70, 99, 100]) == AT_FIRST
        && query.poll_at(2) == Some(15 * SECOND)
        && asked(query, &[101, 149, 150, 151, 170, 180, 199, 200, 201]) == LATER
        && query.poll_at(2).is_none()
        && query.result == DnsResult::Failed(DnsFailure::TimedOut)
}

#[test]
fn lost_answers(rt: HostRuntime) {
    assert!(rt; are_asked_in_turn(&mut DnsQuery::new(0, DnsType::A, 0x1_1234, 0)));
}

/// The servers that are asked by an owner that comes late: each has its time from then on.
const LATE: [Option<usize>; 9] = [
    FIRST, None, None, SECOND_ONE, None, FIRST, None, SECOND_ONE, None,
];

fn are_asked_late(query: &mut DnsQuery) -> bool {
    asked(query, &[98, 99, 117, 118, 137, 138, 167, 168, 169]) == LATE
}

/// The servers that are asked if the second one is to be asked first, and if one is that isn't there.
const FROM_THE_SECOND: [Option<usize>; 9] = [
    SECOND_ONE, FIRST, SECOND_ONE, FIRST, None, None, None, None, None,
];

const FROM_THE_FIRST: [Option<usize>; 9] = [
    FIRST, SECOND_ONE, FIRST, SECOND_ONE, None, None, None, None, None,
];

/// Whether a query that is to ask this server first asks these.
fn begins_with(first: usize, servers: &[Option<usize>; 9]) -> bool {
    let mut query = DnsQuery::new(0, DnsType::A, 0x1_1234, first);
    asked(&mut query, &[0, 20, 40, 70, 71, 72, 73, 74, 75]) == *servers
}

#[test]
fn another_first(rt: HostRuntime) {
    assert!(rt; begins_with(1, &FROM_THE_SECOND) && begins_with(2, &FROM_THE_FIRST));
}

/// Without a server a query fails at once.
fn fails_alone(query: &mut DnsQuery) -> bool {
    query.next_server(5, 0).is_none() && query.result == DnsResult::Failed(DnsFailure::TimedOut)
}

#[test]
fn a_late_owner(rt: HostRuntime) {
    let is_late = are_asked_late(&mut DnsQuery::new(0, DnsType::A, 0x1_1234, 0));
    assert!(rt; is_late && fails_alone(&mut DnsQuery::new(5, DnsType::A, 0x1_1234, 0)));
}

/// A random number, and the number and the port that a query makes of it.
const NUMBERS: [(u32, u16, u16); 2] = [(0x1_1234, 0x1234, 49_153), (0xffff_ffff, 0xffff, 65_535)];

fn is_numbered(case: &(u32, u16, u16)) -> bool {
    let query = DnsQuery::new(0, DnsType::A, case.0, 0);
    query.transaction_id == case.1 && query.source_port == case.2
}

#[test]
fn numbers_and_ports(rt: HostRuntime) {
    assert_each(&rt, &NUMBERS, is_numbered);
}
