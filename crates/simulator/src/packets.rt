//! Raw sockets, and the packets that they send.

use anyhow::Result;
use ip_wire::{IpProtocol, IpVersion};
use socket_set::{SocketHandle, SocketSet};
use sockets::{Queue, raw};
use std::alloc::Global;

/// The maximum number of packets in a queue of a socket.
pub const QUEUE_PACKETS: usize = 8;

/// The maximum number of octets in a queue of a socket.
pub const QUEUE_OCTETS: usize = 8192;

/// Adds a raw socket of a version and a protocol.
pub fn add_raw<'s>(
    alloc: Global,
    sockets: &mut SocketSet<'s>,
    version: IpVersion,
    protocol: IpProtocol,
) -> Result<SocketHandle> {
    let rx = Queue::new(alloc, QUEUE_PACKETS, QUEUE_OCTETS)?;
    let tx = Queue::new(alloc, QUEUE_PACKETS, QUEUE_OCTETS)?;
    let raw: raw::Socket<'s> = raw::SocketOf::new(version, protocol, rx, tx);
    Ok(sockets.add(raw)?)
}

/// Queues an IP packet, and returns whether its socket had room.
pub fn queue_packet(sockets: &mut SocketSet<'_>, handle: SocketHandle, octets: &[u8]) -> bool {
    match sockets.get_mut::<raw::Socket<'_>>(handle) {
        Some(socket) => socket.send((), octets).is_ok(),
        None => false,
    }
}

/// Whether a raw socket for a packet may send UDP: it is for UDP, or for packets with hop-by-hop options.
pub fn may_be_udp(packet: &[u8]) -> bool {
    matches!(protocol_of(packet), 0 | 17)
}

/// The number of the protocol of a packet.
fn protocol_of(packet: &[u8]) -> u8 {
    if is_ipv6(packet) {
        octet(packet, 6)
    } else {
        octet(packet, 9)
    }
}

/// Whether a packet's version is 6.
fn is_ipv6(packet: &[u8]) -> bool {
    octet(packet, 0) >> 4 == 6
}

/// The version and the protocol of a packet.
pub fn kind_of(packet: &[u8]) -> (IpVersion, IpProtocol) {
    let version = if is_ipv6(packet) {
        IpVersion::Ipv6
    } else {
        IpVersion::Ipv4
    };
    (version, IpProtocol::from_number(protocol_of(packet)))
}

/// An octet of a packet; 0 after its end.
fn octet(packet: &[u8], place: usize) -> u8 {
    packet.get(place).copied().unwrap_or(0)
}
