//! IPv6 packets (RFC 8200).
ghost use Rattle.std.specs.Prelude.{◌≡◌, ◌+◌, ◌≤◌, ◌++◌, length};
ghost use Rattle.std.specs.Int.{w64, to_be_bytes};
ghost use Rattle.std.specs.Option.{SomeIff, option_map};
ghost use Rattle.ip_wire.specs.Ipv6Packet as spec;

use crate::emit::FrameBuffer;
use crate::octets::u16_at;
use ip_address::{IpProtocol, Ipv6Address};

/// The length of a header, in octets.
pub const HEADER_LEN: usize = 40;

/// The address in sixteen octets at an offset.
#[inline(always)]
#[tactic(auto, unfolding(crate::specs::Ipv6Packet::address_at))]
pub fn address_at(octets: &[u8], at: usize) -> Ipv6Address
    requires { at + 16 ≤ length octets.now }
    ensures { result ≡ spec.address_at octets.now at }
{
    let mut address = [0; 16];
    address.copy_from_slice(&octets[at..at + 16]);
    Ipv6Address {
        bits: u128::from_be_bytes(address),
    }
}

/// The sixteen octets of an address, by its halves: each of them is byte-swapped as a whole.
#[inline(always)]
#[tactic(auto, using(crate::proofs::Halves::halves), unfolding(crate::specs::Ipv6Packet::address_text))]
pub fn address_octets(address: &Ipv6Address) -> [u8; 16]
    ensures { result ≡ spec.address_text address.now }
{
    let high = (address.bits / (1 << 64)) as u64;
    let low = (address.bits % (1 << 64)) as u64;
    let mut octets = [0; 16];
    octets[..8].copy_from_slice(&octets_of(high));
    octets[8..].copy_from_slice(&octets_of(low));
    octets
}

/// The eight octets of a number, which is byte-swapped as a whole.
#[inline(always)]
#[tactic(auto, using(crate::proofs::Halves::swapped))]
fn octets_of(number: u64) -> [u8; 8]
    ensures { result ≡ to_be_bytes w64 number }
{
    number.swap_bytes().to_le_bytes()
}

/// The values of a packet's header, except its traffic class and its flow label.
#[derive(Clone, Copy, Debug, PartialEq, Eq)]
pub struct Ipv6Repr {
    pub src_addr: Ipv6Address,
    pub dst_addr: Ipv6Address,
    /// The protocol of the payload, or the extension header that it begins with.
    pub next_header: IpProtocol,
    /// The payload length in octets, including extension headers.
    pub payload_len: u16,
    pub hop_limit: u8,
}

impl Ipv6Repr {
    /// Parses the packet that the octets begin with into its header and its payload, which ends at the length field
    /// (RFC 8200 3). Traffic class and flow label are ignored.
    ///
    /// `None` exactly if there are fewer than 40 octets, the version isn't 6, or the length field exceeds them.
    #[inline(always)]
    pub fn parse(packet: &[u8]) -> Option<(Ipv6Repr, &[u8])>
        ensures { SomeIff (option_map spec.parts result) (spec.IsIpv6 packet.now) (spec.ipv6_in packet.now) }
    {
        if packet.len() < HEADER_LEN || packet[0] / 16 != 6 {
            return None;
        }
        let end = HEADER_LEN + usize::from(u16_at(packet, 4));
        if packet.len() < end {
            return None;
        }
        Some((header_of(packet), &packet[HEADER_LEN..end]))
    }

    /// Parses a header that is quoted in a message. Returns it and all octets after it.
    ///
    /// `None` exactly if there are fewer than 40 octets or the version isn't 6. The length field isn't tested.
    pub fn parse_quoted(octets: &[u8]) -> Option<(Ipv6Repr, &[u8])>
        ensures { SomeIff (option_map spec.quoted_parts result) (spec.IsQuoted octets.now) (spec.quoted_in octets.now) }
    {
        if octets.len() < HEADER_LEN || octets[0] / 16 != 6 {
            return None;
        }
        Some((header_of(octets), &octets[HEADER_LEN..]))
    }

    /// The header's 40 octets. Traffic class and flow label are 0.
    #[inline(always)]
    #[tactic(auto, unfolding(crate::specs::Ipv6Packet::header_text, crate::specs::Ipv6Packet::address_text))]
    pub fn octets(&self) -> [u8; HEADER_LEN]
        ensures { result ≡ spec.header_text self.now }
    {
        let mut octets = [0; HEADER_LEN];
        octets[0] = 0x60;
        octets[4..6].copy_from_slice(&self.payload_len.to_be_bytes());
        octets[6] = self.next_header.number();
        octets[7] = self.hop_limit;
        octets[8..24].copy_from_slice(&address_octets(&self.src_addr));
        octets[24..].copy_from_slice(&address_octets(&self.dst_addr));
        octets
    }

    /// Appends the header, whose octets [`Ipv6Repr::octets`] returns.
    #[inline(always)]
    pub fn emit(&self, out: &mut FrameBuffer)
        requires { length out.old + 40 ≤ 1514 }
        ensures items { out.new ≡ out.old ++ spec.header_text self.now }
        ensures len { length out.new ≡ length out.old + 40 }
    {
        out.append(&self.octets());
    }
}

/// The values of a header.
#[inline(always)]
fn header_of(octets: &[u8]) -> Ipv6Repr
    requires { 40 ≤ length octets.now }
    ensures { result ≡ spec.header_in octets.now }
{
    Ipv6Repr {
        src_addr: address_at(octets, 8),
        dst_addr: address_at(octets, 24),
        next_header: IpProtocol::from_number(octets[6]),
        payload_len: u16_at(octets, 4),
        hop_limit: octets[7],
    }
}

/// A packet that is emitted is parsed back, whatever follows it.
pub fn read_again()
    ensures { spec.ReadAgain }
{}

/// A header that is quoted is parsed back, whatever follows it.
pub fn quoted_again()
    ensures { spec.QuotedAgain }
{}
