//! What queries make of the datagrams that came to their sockets.
ghost use Rattle.std.specs.Prelude.{◌≡◌, length, Some};
ghost use Rattle.dns_client.specs.Details.Datagrams.{after_receiving};
ghost use Rattle.iface_dns.specs.Hear as spec;

use crate::dns::Dns;
use dns_client::dns_resolver::{QueryHandle, Resolver};
use dns_client::port_of;
use iface_host::IfaceHost;
use ip_wire::IpAddress;
use sockets::IpEndpoint;

/// The most octets that wait at a query's socket: as many as two messages of the greatest length have (RFC 1035 4.2.1).
pub const RECEIVED_LEN: usize = 1024;

impl Dns {
    /// Hands the datagrams that wait at the socket of a query to the queries of its port, and drops them.
    pub(crate) fn hear(&mut self, host: &mut IfaceHost, place: usize)
        ensures { spec.HearsAt place self.old self.new host.old host.new }
    {
        let Some(number) = self.sockets.get(place) else {
            return;
        };
        let Some(port) = port_of(&self.resolver, QueryHandle { place }) else {
            return;
        };
        let count = waiting_at(host, number);
        hear_all(&mut self.resolver, host, number, port, count);
    }

    /// Tells the queries that a server can't be reached, as its port is closed, or its neighbour absent: each that waits for an
    /// answer of it asks the next one at the next poll, as where it refuses.
    pub fn server_failed(&mut self, server: IpAddress)
        ensures { self.new ≡ spec.after_failing server self.old }
    {
        tell_each(&mut self.resolver, server);
    }
}

/// Tells each query that a server can't be reached, one after another.
fn tell_each(resolver: &mut Resolver, server: IpAddress)
    ensures { resolver.new ≡ spec.failed server (length resolver.old.places) 0 resolver.old }
{
    let places = resolver.places();
    for place in 0..places {
        resolver.server_failed(QueryHandle { place }, server);
    }
}

/// How many packets wait at a socket; none, if there is none.
fn waiting_at(host: &IfaceHost, number: u32) -> usize
    ensures { result ≡ spec.waiting_at host.now number }
{
    match host.queues(number) {
        Some((received, _)) => received.packets,
        None => 0,
    }
}

/// Hands the first so many datagrams of a socket of a port to queries, one after another, and drops them.
fn hear_all(resolver: &mut Resolver, host: &mut IfaceHost, number: u32, port: u16, count: usize)
    ensures { spec.HearsAll number port count resolver.old resolver.new host.old host.new }
{
    for _ in 0..count {
        hear_first(resolver, host, number, port);
    }
}

/// Hands the first datagram of a socket of a port to queries, and drops it, if it isn't longer than answers are.
#[inline(never)]
fn hear_first(resolver: &mut Resolver, host: &mut IfaceHost, number: u32, port: u16)
    ensures { spec.Hears number port resolver.old resolver.new host.old host.new }
{
    let mut octets = [0u8; RECEIVED_LEN];
    if let Ok((from, len)) = host.receive_udp(number, &mut octets) {
        hand_to_each(resolver, from, port, &octets[..len]);
    }
}

/// Hands a datagram that came to a port to each query, one after another. Two may have drawn the same port, and then one of
/// their sockets gets what comes for both.
fn hand_to_each(resolver: &mut Resolver, from: IpEndpoint, port: u16, octets: &[u8])
    ensures { resolver.new ≡ spec.handed from port octets.now (length resolver.old.places) 0 resolver.old }
{
    let count = resolver.places();
    for place in 0..count {
        hand(resolver, place, from, port, octets);
    }
}

/// Hands a datagram that came to a port to the query of a place, if there is one.
fn hand(resolver: &mut Resolver, place: usize, from: IpEndpoint, port: u16, octets: &[u8])
    ensures { resolver.new ≡ after_receiving (Some (from, octets.now)) place port resolver.old }
{
    let _ = resolver.receive(QueryHandle { place }, from.addr, from.port, port, octets);
}
