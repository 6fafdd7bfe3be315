//! What a gateway reads off a packet of IPv4, and does to one.
ghost use Rattle.std.specs.Prelude.{◌≡◌, ◌≤◌, ◌<◌, IfOk, length};
ghost use Rattle.gateway.specs.Transit as spec;

use anyhow::Result;
use ip_wire::checksum::checksum;
use ip_wire::octets::u16_at;
use ip_wire::{IpProtocol, Ipv4Address, Ipv4Cidr, Ipv4Fragment, Ipv4Repr};
use std::alloc::Global;

/// The length of a header without options, in octets.
const HEADER_LEN: usize = 20;

/// A packet that came.
#[derive(Clone, Copy)]
pub struct Packet<'p> {
    pub repr: Ipv4Repr,
    pub fragment: Ipv4Fragment,
    pub payload: &'p [u8],
    /// All its octets, from its header to the end of its payload.
    pub octets: &'p [u8],
    pub ghost header: { 20 ≤ spec.header_len octets.now },
    pub ghost whole: { spec.header_len octets.now ≤ length octets.now },
}

impl<'p> Packet<'p> {
    /// The packet that octets begin with. `None` exactly if its header isn't whole and right (RFC 1812 5.2.2), as
    /// [`Ipv4Repr::parse`] says.
    pub fn read(octets: &'p [u8]) -> Option<Packet<'p>> {
        let (repr, fragment, payload) = Ipv4Repr::parse(octets, true)?;
        let len = usize::from(u16_at(octets, 2));
        Some(Packet {
            repr,
            fragment,
            payload,
            octets: &octets[..len],
        })
    }

    /// Whether its options name hosts to go by: loosely 131, strictly 137 (RFC 791 3.1).
    pub fn has_source_route(&self) -> bool {
        let header_len = usize::from(self.octets[0] % 16) * 4;
        has_route_option(&self.octets[HEADER_LEN..header_len])
    }

    /// Whether an error may be sent about it: none is about an error of ICMP, nor about a fragment but the first (RFC 1812
    /// 4.3.2.7).
    pub fn may_be_told(&self) -> bool {
        if self.fragment.offset != 0 {
            return false;
        }
        match (self.repr.next_header, self.payload.first()) {
            (IpProtocol::Icmp, Some(3 | 4 | 5 | 11 | 12) | None) => false,
            _ => true,
        }
    }

    /// Its octets with a hop limit that is less by one, and the header's checksum of that. All others are as they came.
    pub fn lowered(&self, alloc: Global) -> Result<Vec<u8>>
        ensures { IfOk result (λ octets. octets.items ≡ spec.lowered self.now.octets.now) }
    {
        let mut octets = Vec::from_slice(alloc, self.octets)?;
        lower_hop_limit(&mut octets);
        Ok(octets)
    }
}

/// Whether there is a source route among options.
fn has_route_option(options: &[u8]) -> bool {
    let mut rest = options;
    for _ in 0..options.len() {
        let len = match rest.first() {
            Some(131 | 137) => return true,
            Some(0) | None => return false,
            Some(1) => 1,
            Some(_) => usize::from(*rest.get(1).unwrap_or(&0)),
        };
        rest = rest.get(len..).unwrap_or(&[]);
    }
    false
}

/// Lowers the hop limit of a packet, and writes the header's checksum anew.
fn lower_hop_limit(packet: &mut [u8])
    requires header { 20 ≤ spec.header_len packet.old }
    requires whole { spec.header_len packet.old ≤ length packet.old }
    ensures { packet.new ≡ spec.lowered packet.old }
{
    let header_len = usize::from(packet[0] % 16) * 4;
    packet[8] = packet[8].saturating_sub(1);
    packet[10] = 0;
    packet[11] = 0;
    let sum = checksum(&packet[..header_len]);
    packet[10] = (sum / 256) as u8;
    packet[11] = (sum % 256) as u8;
}

/// Whether an address may be an end of a packet that is forwarded: of one host, and not of one link alone (RFC 1812 4.2.2.11,
/// 5.3.7; RFC 3927 7).
pub fn is_forwardable(address: Ipv4Address) -> bool {
    let [first, second, _, _] = address.octets();
    first != 0 && first != 127 && first < 224 && !(first == 169 && second == 254)
}

/// Whether an address of a network is the network's own, or its broadcast address (RFC 1812 4.2.3.1, 5.3.5). With a prefix of 31
/// or 32 bits there is neither (RFC 3021).
pub fn is_end_of(network: &Ipv4Cidr, address: Ipv4Address) -> bool {
    if network.prefix_len > 30 {
        return false;
    }
    let mask = 0xffff_ffff_u32 >> network.prefix_len;
    let host = address.bits & mask;
    host == 0 || host == mask
}
