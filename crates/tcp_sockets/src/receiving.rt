//! A packet arrives at a raw socket of a host of connections.
ghost use Rattle.std.specs.Prelude.{◌≡◌, ◌<◌, ◌^◌, length};
ghost use Rattle.sockets.specs.Queue.{first_of};
ghost use Rattle.sockets.specs.Raw as raw_spec;
ghost use Rattle.tcp_sockets.specs.Arrivals as arrivals;
ghost use Rattle.tcp_sockets.specs.Receiving as spec;

use crate::arrivals::{Arrival, arrival_in};
use ip_wire::{IpCidr, IpVersion};
use sockets::raw;
use tcp_host::host::TcpHost;
use tcp_host::iss::Endpoints;
use tcp_host::resets::Reply;

/// What answers a segment that belongs to no connection, between the ends of that.
#[derive(Clone, Copy, Debug)]
pub struct Answer {
    pub endpoints: Endpoints,
    pub reply: Reply,
}

/// Hands the first packet of a raw socket to a host of connections with these addresses, and drops it. A packet counts only
/// if [`arrival_in`] finds a segment in it, whose checksum is verified if `checked`; any other one changes nothing at the
/// host. Returns the answer that is owed, if one is.
pub fn receive<L: Drop>(
    now: u64,
    own: &[IpCidr],
    checked: bool,
    host: &mut TcpHost,
    socket: &mut raw::SocketOf<L>,
) -> Option<Answer>
    ensures host { spec.ReceivesFirst now checked own.now socket.old.version (first_of socket.old.rx.packets) host.old result host.new }
    ensures socket { socket.new ≡ raw_spec.socket_after_done socket.old }
{
    let answer = receive_first(now, own, checked, host, socket);
    socket.done();
    answer
}

// Hands the first packet of a socket to a host.
fn receive_first<L: Drop>(
    now: u64,
    own: &[IpCidr],
    checked: bool,
    host: &mut TcpHost,
    socket: &raw::SocketOf<L>,
) -> Option<Answer>
    ensures { spec.ReceivesFirst now checked own.now socket.now.version (first_of socket.now.rx.packets) host.old result host.new }
{
    match socket.recv() {
        None => None,
        Some((_, octets)) => receive_packet(now, own, checked, socket.version(), octets, host),
    }
}

// Hands a packet of a version of IP to a host.
fn receive_packet(
    now: u64,
    own: &[IpCidr],
    checked: bool,
    version: IpVersion,
    octets: &[u8],
    host: &mut TcpHost,
) -> Option<Answer>
    ensures { spec.ReceivesSent now checked own.now (raw_spec.packet_in version octets.now) host.old result host.new }
{
    match arrival_in(octets, version, own, checked) {
        None => None,
        Some(arrival) => receive_arrival(now, &arrival, host),
    }
}

// Hands a segment to a host.
fn receive_arrival(now: u64, arrival: &Arrival<'_>, host: &mut TcpHost) -> Option<Answer>
    requires { length arrival.now.octets.now < 2 ^ 32 }
    ensures { spec.ReceivesArrival now (arrivals.value_of arrival.now) host.old result host.new }
{
    let endpoints = arrival.endpoints;
    match host.receive_segment(now, &endpoints, &arrival.segment, arrival.octets) {
        Some(reply) => Some(Answer { endpoints, reply }),
        None => None,
    }
}
