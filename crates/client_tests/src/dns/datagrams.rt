use crate::dns::octets::A_ANSWER;
use dns_client::dns_resolver::{QueryHandle, Resolver};
use dns_client::{DnsResult, DnsType, port_of, receive, send};
use ip_address::{IpAddress, Ipv4Address};
use ip_wire::emit::FrameBuffer;
use sockets::{IpEndpoint, Queue, udp};
use tcp_host::sip_hash::SipKey;

const SERVERS: [IpAddress; 1] = [IpAddress::Ipv4(Ipv4Address { bits: 0x7f00_0001 })];

const WWW: &[u8] = b"\x03www\x07example\x03com\x00";

const KEY: SipKey = SipKey {
    k0: 0x0706_0504_0302_0100,
    k1: 0x0f0e_0d0c_0b0a_0908,
};

const FOUND: DnsResult = DnsResult::Addresses([
    Some(IpAddress::Ipv4(Ipv4Address { bits: 0xc000_0207 })),
    None,
    None,
    None,
]);

/// Whether a query is queued, and its answer received; one from another port counts for nothing.
fn is_asked_and_answered(
    resolver: &mut Resolver,
    handle: QueryHandle,
    port: u16,
    socket: &mut udp::Socket<'_>,
) -> bool {
    let mut out = FrameBuffer::new();
    let is_sent = sends(resolver, handle, port, &mut out, socket);
    let mut answer = A_ANSWER;
    if out.len() > 2 {
        answer[0] = out.as_slice()[0];
        answer[1] = out.as_slice()[1];
    }
    hear(socket, 5353, &answer);
    hear(socket, 53, &answer);
    is_sent
        && receive(resolver, handle, socket)
        && resolver.result(handle) == Ok(DnsResult::Pending)
        && receive(resolver, handle, socket)
        && !receive(resolver, handle, socket)
        && resolver.result(handle) == Ok(FOUND)
}

#[test]
fn asked_and_answered(rt: HostRuntime) {
    let mut resolver = Resolver::new(rt.alloc(), &SERVERS, 1, KEY).expect(&rt, "memory");
    let none = port_of(&resolver, QueryHandle { place: 0 });
    let started = resolver.start_query(0, WWW, DnsType::A);
    let handle = started.expect(&rt, "a place");
    let port = port_of(&resolver, handle).unwrap_or(0);
    let rx = Queue::new(rt.alloc(), 2, 512).expect(&rt, "room");
    let tx = Queue::new(rt.alloc(), 1, 512).expect(&rt, "room");
    let mut socket = udp::Socket::new(port.into(), rx, tx);
    let is_right = is_asked_and_answered(&mut resolver, handle, port, &mut socket);
    assert!(rt; none.is_none() && is_right);
}

/// Whether a query goes from its port into a socket with room for one datagram, and a second one doesn't.
fn sends(
    resolver: &mut Resolver,
    handle: QueryHandle,
    port: u16,
    out: &mut FrameBuffer,
    socket: &mut udp::Socket<'_>,
) -> bool {
    let Ok(Some(message)) = resolver.next_message(handle, 0, out) else {
        return false;
    };
    let is_sent = send(&message, out.as_slice(), socket).is_ok();
    let is_queued = socket.tx().len() == 1;
    let is_full = send(&message, out.as_slice(), socket).is_err();
    message.source_port == port && is_sent && is_queued && is_full
}

/// An answer comes from the server, from this port.
fn hear(socket: &mut udp::Socket<'_>, port: u16, answer: &[u8]) {
    let server = IpEndpoint {
        addr: SERVERS[0],
        port,
    };
    socket.process(server, answer);
}
