//! IPv4 packets (RFC 791).
ghost use Rattle.std.specs.Prelude.{◌≡◌, ◌+◌, ◌<◌, ◌≤◌, ◌^◌, ◌++◌, length};
ghost use Rattle.std.specs.Option.{SomeIff, option_map};
ghost use Rattle.ip_wire.specs.Checksum.{folded_sum, word_sum};
ghost use Rattle.ip_wire.specs.Ipv4Packet as spec;

use crate::checksum::{fold, sum_with};
use crate::emit::FrameBuffer;
use crate::octets::{u16_at, u32_at};
use ip_address::{IpProtocol, Ipv4Address};

/// The length of a header without options, in octets.
pub const HEADER_LEN: usize = 20;

/// The values of a packet's header, except those of fragmentation.
#[derive(Clone, Copy, Debug, PartialEq, Eq)]
pub struct Ipv4Repr {
    pub src_addr: Ipv4Address,
    pub dst_addr: Ipv4Address,
    pub next_header: IpProtocol,
    /// The payload length, in octets.
    pub payload_len: u16,
    pub hop_limit: u8,
}

/// The fragmentation fields of a packet's header.
#[derive(Clone, Copy, Debug, PartialEq, Eq)]
pub struct Ipv4Fragment {
    /// The identification that the fragments of one packet share.
    pub identification: u16,
    /// Whether fragmentation is forbidden.
    pub dont_fragment: bool,
    /// Whether more fragments follow.
    pub more_fragments: bool,
    /// The offset in the packet's payload, in units of eight octets: below 8,192.
    pub offset: u16,
}

impl Ipv4Fragment {
    /// A whole packet, which must not be fragmented.
    pub const WHOLE: Ipv4Fragment = Ipv4Fragment {
        identification: 0,
        dont_fragment: true,
        more_fragments: false,
        offset: 0,
    };

    /// Whether it is a fragment of a packet, not the whole packet.
    pub const fn is_fragment(&self) -> bool
        ensures { result ≡ spec.is_fragment self.now }
    {
        self.more_fragments || self.offset != 0
    }

    /// Flags and offset, in one word.
    #[inline(always)]
    const fn word(&self) -> u16
        requires { self.now.offset < 0x2000 }
        ensures value { result ≡ spec.fragment_word self.now }
        ensures small { result < 2 ^ 16 }
    {
        let dont_fragment = if self.dont_fragment { 0x4000 } else { 0 };
        let more_fragments = if self.more_fragments { 0x2000 } else { 0 };
        dont_fragment + more_fragments + self.offset
    }
}

impl Default for Ipv4Fragment {
    fn default() -> Ipv4Fragment
        ensures { result ≡ spec.whole }
    {
        Ipv4Fragment::WHOLE
    }
}

impl Ipv4Repr {
    /// Parses the packet that the octets begin with into its header, its fragmentation fields, and its payload, which
    /// ends at the total length. Options are skipped.
    ///
    /// `None` exactly in these cases:
    ///
    /// - there are fewer than 20 octets, or the version isn't 4;
    /// - the header is shorter than 20 octets or longer than the total length;
    /// - the total length exceeds the octets;
    /// - with `checked`, the header's checksum is wrong.
    #[inline(always)]
    pub fn parse(packet: &[u8], checked: bool) -> Option<(Ipv4Repr, Ipv4Fragment, &[u8])>
        ensures { SomeIff (option_map spec.parts result) (spec.IsIpv4 checked packet.now) (spec.ipv4_in packet.now) }
    {
        if packet.len() < HEADER_LEN || packet[0] / 16 != 4 {
            return None;
        }
        let header_len = usize::from(packet[0] % 16) * 4;
        let total_len = usize::from(u16_at(packet, 2));
        if header_len < HEADER_LEN || total_len < header_len || packet.len() < total_len {
            return None;
        }
        if checked && sum_with(0, &packet[..header_len]) != 0xffff {
            return None;
        }
        Some((
            header_of(packet),
            fragment_of(packet),
            &packet[header_len..total_len],
        ))
    }

    /// Parses a header that is quoted in a message. Returns it and all octets after it. Its payload length is the total
    /// length less the header, or 0 if that is negative.
    ///
    /// `None` exactly if there are fewer than 20 octets, the version isn't 4, or the header is shorter than 20 octets
    /// or longer than the octets are. Neither its checksum nor its total length is verified.
    pub fn parse_quoted(octets: &[u8]) -> Option<(Ipv4Repr, &[u8])>
        ensures { SomeIff (option_map spec.quoted_parts result) (spec.IsQuoted octets.now) (spec.quoted_in octets.now) }
    {
        if octets.len() < HEADER_LEN || octets[0] / 16 != 4 {
            return None;
        }
        let header_len = usize::from(octets[0] % 16) * 4;
        if header_len < HEADER_LEN || octets.len() < header_len {
            return None;
        }
        Some((header_of(octets), &octets[header_len..]))
    }

    /// The header's 20 octets, for the given fragment. Its checksum is 0 unless `summed`. The packet must have at most
    /// 65,535 octets.
    #[inline(always)]
    pub fn octets(&self, fragment: &Ipv4Fragment, summed: bool) -> [u8; HEADER_LEN]
        requires payload_len { 20 + self.now.payload_len < 2 ^ 16 }
        requires offset { fragment.now.offset < 0x2000 }
        ensures { result ≡ spec.header_text summed self.now fragment.now }
    {
        let sum = if summed {
            0xffff - header_sum(self, fragment)
        } else {
            0
        };
        header_with(sum, self, fragment)
    }

    /// Appends the header, whose octets [`Ipv4Repr::octets`] returns.
    #[inline(always)]
    pub fn emit(&self, fragment: &Ipv4Fragment, summed: bool, out: &mut FrameBuffer)
        requires payload_len { 20 + self.now.payload_len < 2 ^ 16 }
        requires offset { fragment.now.offset < 0x2000 }
        requires room { length out.old + 20 ≤ 1514 }
        ensures items { out.new ≡ out.old ++ spec.header_text summed self.now fragment.now }
        ensures len { length out.new ≡ length out.old + 20 }
    {
        out.append(&self.octets(fragment, summed));
    }
}

/// The values of a header.
#[inline(always)]
fn header_of(octets: &[u8]) -> Ipv4Repr
    requires { 20 ≤ length octets.now }
    ensures { result ≡ spec.header_in octets.now }
{
    let header_len = u16::from(octets[0] % 16) * 4;
    Ipv4Repr {
        src_addr: Ipv4Address {
            bits: u32_at(octets, 12),
        },
        dst_addr: Ipv4Address {
            bits: u32_at(octets, 16),
        },
        next_header: IpProtocol::from_number(octets[9]),
        payload_len: u16_at(octets, 2).saturating_sub(header_len),
        hop_limit: octets[8],
    }
}

/// The fragmentation fields of a header.
#[inline(always)]
fn fragment_of(octets: &[u8]) -> Ipv4Fragment
    requires { 20 ≤ length octets.now }
    ensures { result ≡ spec.fragment_in octets.now }
{
    let word = u16_at(octets, 6);
    Ipv4Fragment {
        identification: u16_at(octets, 4),
        dont_fragment: word / 0x4000 % 2 == 1,
        more_fragments: word / 0x2000 % 2 == 1,
        offset: word % 0x2000,
    }
}

/// The folded sum of the words of a header with checksum 0, from its values.
#[inline(always)]
fn header_sum(repr: &Ipv4Repr, fragment: &Ipv4Fragment) -> u16
    requires payload_len { 20 + repr.now.payload_len < 2 ^ 16 }
    requires offset { fragment.now.offset < 0x2000 }
    ensures { result ≡ folded_sum (word_sum (spec.header_with 0 repr.now fragment.now)) }
{
    let addresses = u64::from(repr.src_addr.bits) + u64::from(repr.dst_addr.bits);
    let lengths = 0x4500 + u64::from(20 + repr.payload_len);
    let fragments = two_words(fragment.identification, fragment.word());
    let protocol = u64::from(repr.hop_limit) * 0x100 + u64::from(repr.next_header.number());
    fold(addresses + lengths + fragments + protocol)
}

/// The sum of two words.
#[inline(always)]
fn two_words(first: u16, second: u16) -> u64
    ensures value { result ≡ first + second }
    ensures small { (first < 2 ^ 16) × (second < 2 ^ 16) }
{
    u64::from(first) + u64::from(second)
}

/// A header with the given checksum.
#[inline(always)]
#[tactic(auto, unfolding(crate::specs::Ipv4Packet::header_with, crate::specs::Ipv4Packet::front, crate::specs::Ipv4Packet::back))]
fn header_with(sum: u16, repr: &Ipv4Repr, fragment: &Ipv4Fragment) -> [u8; HEADER_LEN]
    requires payload_len { 20 + repr.now.payload_len < 2 ^ 16 }
    requires offset { fragment.now.offset < 0x2000 }
    ensures { result ≡ spec.header_with sum repr.now fragment.now }
{
    let [l0, l1] = (20 + repr.payload_len).to_be_bytes();
    let [i0, i1] = fragment.identification.to_be_bytes();
    let [f0, f1] = fragment.word().to_be_bytes();
    let [c0, c1] = sum.to_be_bytes();
    let [s0, s1, s2, s3] = repr.src_addr.octets();
    let [d0, d1, d2, d3] = repr.dst_addr.octets();
    let hop_limit = repr.hop_limit;
    let protocol = repr.next_header.number();
    [
        0x45, 0, l0, l1, i0, i1, f0, f1, hop_limit, protocol, c0, c1, s0, s1, s2, s3, d0, d1, d2,
        d3,
    ]
}

/// A packet that is emitted is parsed back, whatever follows it.
pub fn read_again()
    ensures { spec.ReadAgain }
{}
