//! What a router advertises (RFC 4861 4.2, 4.6.2).

use anyhow::{Result, bail};
use bitflags::Flags;
use control_wire::{
    Icmpv6Repr, NdiscPrefixInfoFlags, NdiscPrefixInformation, NdiscRouterFlags, RouterRepr,
};
use ip_wire::emit::FrameBuffer;
use ip_wire::{
    EthernetAddress, EthernetProtocol, EthernetRepr, IpAddress, IpCidr, IpProtocol, Ipv6Address,
    Ipv6Repr,
};
use simulation_script::script::{Router, Script};
use std::alloc::Global;

/// Where frames for the group of all nodes go (RFC 2464 7).
const ALL_NODES_ETHERNET: EthernetAddress = EthernetAddress([0x33, 0x33, 0, 0, 0, 1]);

/// The hop limit that hosts are told to use.
const HOP_LIMIT: u8 = 64;

/// The frame in which a router advertises its prefix. Fails if its host has no link-local address.
pub fn frame_of(alloc: Global, script: &Script, router: &Router) -> Result<Vec<u8>> {
    let Some(line) = script.hosts.get(router.host) else {
        bail!("no host");
    };
    match link_local_in(line.addresses.as_slice()) {
        Some(source) => octets_of(alloc, router, line.hardware_addr, source),
        None => bail!("{}: a router has a link-local address", line.name),
    }
}

/// The octets of the frame, which comes from these addresses.
fn octets_of(
    alloc: Global,
    router: &Router,
    hardware_addr: EthernetAddress,
    source: Ipv6Address,
) -> Result<Vec<u8>> {
    let message = Icmpv6Repr::Router(message_of(router, hardware_addr));
    let mut packet = FrameBuffer::new();
    let destination = IpAddress::Ipv6(Ipv6Address::LINK_LOCAL_ALL_NODES);
    message.emit(
        &IpAddress::Ipv6(source),
        &destination,
        &[],
        true,
        &mut packet,
    );
    let mut frame = FrameBuffer::new();
    let link = EthernetRepr {
        src_addr: hardware_addr,
        dst_addr: ALL_NODES_ETHERNET,
        ethertype: EthernetProtocol::Ipv6,
    };
    link.emit(&mut frame);
    header_of(source, packet.len()).emit(&mut frame);
    let mut octets = Vec::new(alloc);
    octets.extend_from_slice(frame.as_slice())?;
    octets.extend_from_slice(packet.as_slice())?;
    Ok(octets)
}

/// The first link-local address of a list.
fn link_local_in(addresses: &[IpCidr]) -> Option<Ipv6Address> {
    for address in addresses.iter() {
        if let IpCidr::Ipv6(address) = address {
            if address.address.is_link_local() {
                return Some(address.address);
            }
        }
    }
    None
}

/// The header of the packet, whose payload has so many octets. Its hop limit is 255 (RFC 4861 4.2).
fn header_of(source: Ipv6Address, payload_len: usize) -> Ipv6Repr {
    Ipv6Repr {
        src_addr: source,
        dst_addr: Ipv6Address::LINK_LOCAL_ALL_NODES,
        next_header: IpProtocol::from_number(58),
        payload_len: u16::try_from(payload_len).unwrap_or(0),
        hop_limit: 255,
    }
}

/// The advertisement: hosts may form addresses of the prefix, which is on the link.
fn message_of(router: &Router, hardware_addr: EthernetAddress) -> RouterRepr {
    let lifetime = u32::from(router.lifetime);
    RouterRepr::RouterAdvert {
        hop_limit: HOP_LIMIT,
        flags: NdiscRouterFlags::from_bits_retain(0),
        router_lifetime: router.lifetime,
        lladdr: Some(hardware_addr),
        prefix_info: Some(NdiscPrefixInformation {
            prefix_len: router.prefix.prefix_len,
            flags: NdiscPrefixInfoFlags::ON_LINK | NdiscPrefixInfoFlags::ADDRCONF,
            valid_lifetime: lifetime,
            preferred_lifetime: lifetime,
            prefix: router.prefix.address,
        }),
    }
}
