use crate::dns::octets::{A_ANSWER, NO_NAME};
use dns_client::dns_resolver::{NoSuchQuery, QueryHandle, Resolver, StartQueryError};
use dns_client::{DnsFailure, DnsResult, DnsType};
use ip_address::{IpAddress, Ipv4Address};
use ip_wire::emit::FrameBuffer;
use tcp_host::sip_hash::SipKey;

const SERVERS: [IpAddress; 1] = [IpAddress::Ipv4(Ipv4Address { bits: 0x7f00_0001 })];

const WWW: &[u8] = b"\x03www\x07example\x03com\x00";

const NONE: &[u8] = b"\x04none\x07example\x03com\x00";

/// The key of SipHash's own test vectors.
const KEY: SipKey = SipKey {
    k0: 0x0706_0504_0302_0100,
    k1: 0x0f0e_0d0c_0b0a_0908,
};

/// Starts a query of a name's address; a handle of no place if it is refused.
fn start(resolver: &mut Resolver, name: &[u8]) -> QueryHandle {
    match resolver.start_query(0, name, DnsType::A) {
        Ok(handle) => handle,
        Err(_) => QueryHandle { place: usize::MAX },
    }
}

/// The port from which a query goes to the first server then, if it does.
fn port_of(
    resolver: &mut Resolver,
    handle: QueryHandle,
    now: u64,
    out: &mut FrameBuffer,
) -> Option<u16> {
    match resolver.next_message(handle, now, out) {
        Ok(Some(message)) if message.server == SERVERS[0] => Some(message.source_port),
        _ => None,
    }
}

/// An answer of the first server comes for a query. Whether there is that query.
fn hears(resolver: &mut Resolver, handle: QueryHandle, port: Option<u16>, octets: &[u8]) -> bool {
    let port = port.unwrap_or(0);
    resolver
        .receive(handle, SERVERS[0], 53, port, octets)
        .is_ok()
}

/// Whether a query has come to this.
fn has_come_to(resolver: &Resolver, handle: QueryHandle, end: DnsResult) -> bool {
    resolver.result(handle) == Ok(end)
}

const FOUND: DnsResult = DnsResult::Addresses([
    Some(IpAddress::Ipv4(Ipv4Address { bits: 0xc000_0207 })),
    None,
    None,
    None,
]);

/// A query that was sent, and from which port.
type Sent = (QueryHandle, Option<u16>);

/// Sends a query now, and gives the answer its number.
fn sent(resolver: &mut Resolver, handle: QueryHandle, answer: &mut [u8]) -> Sent {
    let mut out = FrameBuffer::new();
    let port = port_of(resolver, handle, 0, &mut out);
    copy_number(&out, answer);
    (handle, port)
}

/// Whether an answer to the other query's port, or the other query's one, counts for nothing.
fn is_nothing(resolver: &mut Resolver, www: Sent, none: Sent, answer: &[u8], other: &[u8]) -> bool {
    hears(resolver, www.0, none.1, answer)
        && hears(resolver, www.0, www.1, other)
        && has_come_to(resolver, www.0, DnsResult::Pending)
}

/// Whether the answer to one query leaves the other as it was.
fn are_answered(
    resolver: &mut Resolver,
    www: Sent,
    none: Sent,
    answer: &[u8],
    failure: &[u8],
) -> bool {
    hears(resolver, none.0, none.1, failure)
        && has_come_to(resolver, none.0, DnsResult::Failed(DnsFailure::NoSuchName))
        && has_come_to(resolver, www.0, DnsResult::Pending)
        && resolver.poll_at() == Some(2_000_000)
        && hears(resolver, www.0, www.1, answer)
        && has_come_to(resolver, www.0, FOUND)
        && resolver.poll_at().is_none()
}

/// Two queries at once, each with its own number and port.
fn are_apart(resolver: &mut Resolver) -> bool {
    let (www, none) = (start(resolver, WWW), start(resolver, NONE));
    let third = resolver.start_query(0, WWW, DnsType::A);
    let is_full = third == Err(StartQueryError::NoFreePlace) && resolver.poll_at() == Some(0);
    let (mut answer, mut failure) = (A_ANSWER, NO_NAME);
    let www = sent(resolver, www, &mut answer);
    let none = sent(resolver, none, &mut failure);
    let are_apart = www.1.is_some()
        && none.1.is_some()
        && www.1 != none.1
        && answer[..2] != failure[..2];
    is_full
        && are_apart
        && is_nothing(resolver, www, none, &answer, &failure)
        && are_answered(resolver, www, none, &answer, &failure)
}

#[test]
fn two_at_once(rt: HostRuntime) {
    let mut resolver = Resolver::new(rt.alloc(), &SERVERS, 2, KEY).expect(&rt, "memory");
    assert!(rt; are_apart(&mut resolver));
}

/// Whether a handle names no query, for any call.
fn is_no_query(resolver: &mut Resolver, handle: QueryHandle) -> bool {
    let mut out = FrameBuffer::new();
    resolver.result(handle) == Err(NoSuchQuery)
        && resolver.cancel(handle) == Err(NoSuchQuery)
        && !hears(resolver, handle, Some(1), &A_ANSWER)
        && resolver.next_message(handle, 0, &mut out).is_err()
}

/// Handles that name no query, and a name that is none.
fn are_no_queries(resolver: &mut Resolver) -> bool {
    is_no_query(resolver, QueryHandle { place: 0 })
        && is_no_query(resolver, QueryHandle { place: 1 })
        && resolver.start_query(0, b"\x03www", DnsType::A) == Err(StartQueryError::InvalidName)
        && resolver.poll_at().is_none()
}

/// Whether a query is cancelled, and its place is used again by one with another port.
fn is_used_again(resolver: &mut Resolver, out: &mut FrameBuffer) -> bool {
    let handle = start(resolver, WWW);
    let first = port_of(resolver, handle, 0, out);
    let is_cancelled = resolver.cancel(handle) == Ok(())
        && resolver.result(handle) == Err(NoSuchQuery);
    let again = start(resolver, WWW);
    let second = port_of(resolver, again, 0, out);
    is_cancelled && again == handle && first.is_some() && second.is_some() && first != second
}

/// Whether the query at the first place has failed after ten seconds without an answer.
fn times_out(resolver: &mut Resolver, out: &mut FrameBuffer) -> bool {
    let first = QueryHandle { place: 0 };
    resolver.next_message(first, 10_000_000, out) == Ok(None)
        && has_come_to(resolver, first, DnsResult::Failed(DnsFailure::TimedOut))
}

#[test]
fn handles(rt: HostRuntime) {
    let mut resolver = Resolver::new(rt.alloc(), &SERVERS, 1, KEY).expect(&rt, "memory");
    let mut out = FrameBuffer::new();
    let is_right = are_no_queries(&mut resolver)
        && is_used_again(&mut resolver, &mut out)
        && times_out(&mut resolver, &mut out);
    assert!(rt; is_right);
}

/// Gives an answer the number of a query.
fn copy_number(query: &FrameBuffer, answer: &mut [u8]) {
    if query.len() > 2 && answer.len() > 2 {
        answer[0] = query.as_slice()[0];
        answer[1] = query.as_slice()[1];
    }
}

const TWO_SERVERS: [IpAddress; 2] = [
    IpAddress::Ipv4(Ipv4Address { bits: 0x0a00_0001 }),
    IpAddress::Ipv4(Ipv4Address { bits: 0x0a00_0002 }),
];

/// The server that a query asks then.
fn asks(
    resolver: &mut Resolver,
    handle: QueryHandle,
    now: u64,
    out: &mut FrameBuffer,
) -> Option<IpAddress> {
    match resolver.next_message(handle, now, out) {
        Ok(Some(message)) => Some(message.server),
        _ => None,
    }
}

/// The first server is dead: the second one answers, two seconds later.
fn is_answered_late(resolver: &mut Resolver, out: &mut FrameBuffer) -> bool {
    let handle = start(resolver, WWW);
    let first = asks(resolver, handle, 0, out);
    let second = asks(resolver, handle, 2_000_000, out);
    let mut answer = A_ANSWER;
    copy_number(out, &mut answer);
    let port = port_at(resolver, handle);
    let is_there = resolver
        .receive(handle, TWO_SERVERS[1], 53, port, &answer)
        .is_ok();
    first == Some(TWO_SERVERS[0])
        && second == Some(TWO_SERVERS[1])
        && is_there
        && has_come_to(resolver, handle, FOUND)
}

/// The port of a query.
fn port_at(resolver: &Resolver, handle: QueryHandle) -> u16 {
    match resolver.query(handle) {
        Some(named) => named.query().source_port,
        None => 0,
    }
}

/// Whether the next query asks this server first.
fn asks_first(resolver: &mut Resolver, server: IpAddress, out: &mut FrameBuffer) -> bool {
    let handle = start(resolver, WWW);
    let first = asks(resolver, handle, 3_000_000, out);
    resolver.cancel(handle) == Ok(()) && first == Some(server)
}

#[test]
fn who_answered_last(rt: HostRuntime) {
    let alloc = rt.alloc();
    let mut resolver = Resolver::new(alloc, &TWO_SERVERS, 2, KEY).expect(&rt, "memory");
    let mut out = FrameBuffer::new();
    let is_second = is_answered_late(&mut resolver, &mut out)
        && asks_first(&mut resolver, TWO_SERVERS[1], &mut out);
    let is_set = resolver.set_servers(alloc, &TWO_SERVERS).is_ok();
    let is_first = asks_first(&mut resolver, TWO_SERVERS[0], &mut out);
    assert!(rt; is_second && is_set && is_first);
}
