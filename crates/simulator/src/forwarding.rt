//! Which packets a router forwards (RFC 1812 5.2, RFC 8200 3).
ghost use Rattle.std.specs.Prelude.{◌≡◌, ◌≤◌, ◌<◌, ◌↔◌, true, false};

use anyhow::Result;
use ip_wire::{
    EthernetProtocol, EthernetRepr, HardwareAddress, IpAddress, IpCidr, Ipv4Address, Ipv4Fragment,
    Ipv4Repr, Ipv6Address, Ipv6Repr,
};
use std::alloc::Global;

/// What becomes of a frame that comes to a router.
#[derive(Clone, Copy, Debug, PartialEq, Eq)]
pub enum Verdict {
    /// It has no packet for others.
    Stays,
    /// Its packet is dropped, as its hop limit is used up (RFC 1812 5.3.1, RFC 8200 3).
    Expires,
    /// Its packet is dropped, as it is a fragment of IPv4: a raw socket sends whole packets alone.
    IsFragment,
    /// Its packet goes on.
    GoesOn,
}

/// What a router reads of a packet.
#[derive(Clone, Copy)]
struct Transit {
    source: IpAddress,
    destination: IpAddress,
    hop_limit: u8,
    is_fragment: bool,
}

/// What becomes of a frame that comes to a host of a router, with this Ethernet address. The addresses of the host and
/// of the router's other one are given.
pub fn verdict_on(
    frame: &[u8],
    hardware_addr: Option<HardwareAddress>,
    own: &[IpCidr],
    others: &[IpCidr],
) -> Verdict {
    match transit_in(frame, hardware_addr) {
        Some(transit) if is_for_others(&transit, own, others) => verdict_of(&transit),
        _ => Verdict::Stays,
    }
}

/// What becomes of a packet for others.
fn verdict_of(transit: &Transit) -> Verdict
    ensures expires { result ≡ Verdict.Expires ↔ (transit.now.hop_limit ≤ 1) }
    ensures goes_on { result ≡ Verdict.GoesOn ↔ ((1 < transit.now.hop_limit) × (transit.now.is_fragment ≡ false)) }
{
    if transit.hop_limit <= 1 {
        Verdict::Expires
    } else if transit.is_fragment {
        Verdict::IsFragment
    } else {
        Verdict::GoesOn
    }
}

/// The packet of a frame to an Ethernet address, if its header is right.
fn transit_in(frame: &[u8], hardware_addr: Option<HardwareAddress>) -> Option<Transit> {
    let (header, packet) = EthernetRepr::parse(frame)?;
    if hardware_addr != Some(HardwareAddress::Ethernet(header.dst_addr)) {
        return None;
    }
    match header.ethertype {
        EthernetProtocol::Ipv4 => ipv4_transit_in(packet),
        EthernetProtocol::Ipv6 => ipv6_transit_in(packet),
        _ => None,
    }
}

/// A packet of IPv4, whose header's checksum is verified (RFC 1812 5.2.2).
fn ipv4_transit_in(packet: &[u8]) -> Option<Transit> {
    let (header, fragment, _) = Ipv4Repr::parse(packet, true)?;
    Some(Transit {
        source: IpAddress::Ipv4(header.src_addr),
        destination: IpAddress::Ipv4(header.dst_addr),
        hop_limit: header.hop_limit,
        is_fragment: is_part(&fragment),
    })
}

/// Whether a packet is a part of one (RFC 791 3.2).
fn is_part(fragment: &Ipv4Fragment) -> bool {
    fragment.more_fragments || fragment.offset != 0
}

/// A packet of IPv6. Its fragments go on as any other packet does (RFC 8200 4.5).
fn ipv6_transit_in(packet: &[u8]) -> Option<Transit> {
    let (header, _) = Ipv6Repr::parse(packet)?;
    Some(Transit {
        source: IpAddress::Ipv6(header.src_addr),
        destination: IpAddress::Ipv6(header.dst_addr),
        hop_limit: header.hop_limit,
        is_fragment: false,
    })
}

/// Whether a packet is for others than a router's two hosts, and may be forwarded.
fn is_for_others(transit: &Transit, own: &[IpCidr], others: &[IpCidr]) -> bool {
    let destination = &transit.destination;
    may_cross(&transit.source)
        && may_cross(destination)
        && !is_among(destination, own)
        && !is_among(destination, others)
}

/// Whether packets from or to an address are forwarded: it is one host's, and neither of one link nor of one node alone
/// (RFC 1812 5.3.7, RFC 3927 2.7, RFC 4291 2.5.2, 2.5.3, 2.5.6).
fn may_cross(address: &IpAddress) -> bool {
    address.is_unicast()
        && match address {
            IpAddress::Ipv4(address) => may_cross_ipv4(address),
            IpAddress::Ipv6(address) => may_cross_ipv6(address),
        }
}

/// Whether an address of IPv4 is neither in 127.0.0.0/8 nor in 169.254.0.0/16.
fn may_cross_ipv4(address: &Ipv4Address) -> bool {
    address.bits >> 24 != 127 && address.bits >> 16 != 0xa9fe
}

/// Whether an address of IPv6 is neither link-local nor the loopback address.
fn may_cross_ipv6(address: &Ipv6Address) -> bool {
    !address.is_link_local() && !address.is_loopback()
}

/// Whether an address is a host's own, or the broadcast address of a network of its (RFC 2644 2).
fn is_among(address: &IpAddress, own: &[IpCidr]) -> bool {
    for cidr in own {
        if cidr.address() == *address || is_broadcast_of(cidr, address) {
            return true;
        }
    }
    false
}

/// Whether an address is the broadcast address of a network.
fn is_broadcast_of(network: &IpCidr, address: &IpAddress) -> bool {
    match (network, address) {
        (IpCidr::Ipv4(network), IpAddress::Ipv4(address)) => {
            network.broadcast() == Some(*address)
        }
        _ => false,
    }
}

/// The packet of a frame, with a hop limit that is less by one.
pub fn packet_to_forward(alloc: Global, frame: &[u8]) -> Result<Vec<u8>> {
    let mut octets = Vec::from_slice(alloc, frame.get(14..).unwrap_or(&[]))?;
    let place = place_of_hop_limit(&octets);
    if let Some(hop_limit) = octets.get_mut(place) {
        *hop_limit = hop_limit.saturating_sub(1);
    }
    Ok(octets)
}

/// The place of the hop limit in a packet (RFC 791 3.1, RFC 8200 3).
fn place_of_hop_limit(packet: &[u8]) -> usize {
    match packet.first() {
        Some(first) if *first >> 4 == 6 => 7,
        _ => 8,
    }
}
