//! UDP datagrams (RFC 768).
ghost use Rattle.std.specs.Prelude.{◌≡◌, ◌==◌, ◌+◌, ◌<◌, ◌≤◌, ◌^◌, ◌++◌, length, true};
ghost use Rattle.std.specs.Option.{SomeIff, option_map};
ghost use Rattle.ip_wire.specs.Checksum.{folded_sum, word_sum};
ghost use Rattle.ip_wire.specs.Pseudo.{pseudo};
ghost use Rattle.ip_wire.specs.Udp as spec;

use crate::checksum::{long_sum_with, sum_with};
use crate::emit::FrameBuffer;
use crate::octets::u16_at;
use crate::pseudo::pseudo_sum;
use ip_address::IpAddress;

/// The length of a header, in octets.
pub const HEADER_LEN: usize = 8;

/// The values of a datagram's header.
#[derive(Clone, Copy, Debug, PartialEq, Eq)]
pub struct UdpRepr {
    pub src_port: u16,
    pub dst_port: u16,
}

impl UdpRepr {
    /// Parses the datagram that the octets begin with into its header and its payload, which ends at the datagram's
    /// length. `src` and `dst` are the packet's addresses.
    ///
    /// `None` exactly in these cases:
    ///
    /// - there are fewer than 8 octets;
    /// - the datagram's length is below 8 or exceeds the octets;
    /// - the destination port is 0;
    /// - with `checked`, its checksum is wrong; a checksum of 0 over IPv4 isn't verified.
    #[inline(always)]
    pub fn parse<'a>(
        packet: &'a [u8],
        src: &IpAddress,
        dst: &IpAddress,
        checked: bool,
    ) -> Option<(UdpRepr, &'a [u8])>
        ensures { SomeIff (option_map spec.parts result)
            (spec.IsUdp checked src.now dst.now packet.now) (spec.udp_in packet.now) }
    {
        if packet.len() < HEADER_LEN {
            return None;
        }
        let len = usize::from(u16_at(packet, 4));
        let dst_port = u16_at(packet, 2);
        if len < HEADER_LEN || packet.len() < len || dst_port == 0 {
            return None;
        }
        if checked && !is_unsummed(packet, dst) && !sums_up(&packet[..len], src, dst) {
            return None;
        }
        let repr = UdpRepr {
            src_port: u16_at(packet, 0),
            dst_port,
        };
        Some((repr, &packet[HEADER_LEN..len]))
    }

    /// Appends a datagram: the header of 8 octets, and the payload. `src` and `dst` are the packet's addresses. The
    /// checksum is 0 unless `summed`, and then never 0. The datagram must have at most 65,535 octets.
    pub fn emit(
        &self,
        src: &IpAddress,
        dst: &IpAddress,
        payload: &[u8],
        summed: bool,
        out: &mut FrameBuffer,
    )
        requires fits { 8 + length payload.now < 2 ^ 16 }
        requires room { length out.old + 8 + length payload.now ≤ 1514 }
        ensures items { out.new ≡ out.old ++ spec.text summed src.now dst.now self.now payload.now }
        ensures len { length out.new ≡ length out.old + 8 + length payload.now }
    {
        self.emit_header(src, dst, payload, summed, out);
        out.append(payload);
    }

    /// Appends the header of a datagram with this payload, as [`UdpRepr::emit`] does, without the payload.
    #[inline(always)]
    #[tactic(auto, unfolding(crate::specs::Udp::header_with))]
    pub fn emit_header(
        &self,
        src: &IpAddress,
        dst: &IpAddress,
        payload: &[u8],
        summed: bool,
        out: &mut FrameBuffer,
    )
        requires fits { 8 + length payload.now < 2 ^ 16 }
        requires room { length out.old + 8 ≤ 1514 }
        ensures items { out.new ++ payload.now ≡ out.old ++ spec.text summed src.now dst.now self.now payload.now }
        ensures len { length out.new ≡ length out.old + 8 }
    {
        let sum = if summed {
            sum_for(self, src, dst, payload)
        } else {
            0
        };
        out.append(&self.src_port.to_be_bytes());
        out.append(&self.dst_port.to_be_bytes());
        out.append(&(8 + payload.len() as u16).to_be_bytes());
        out.append(&sum.to_be_bytes());
    }
}

/// Whether a datagram has no checksum.
#[inline(always)]
fn is_unsummed(packet: &[u8], dst: &IpAddress) -> bool
    requires { 8 ≤ length packet.now }
    ensures { result ≡ spec.is_unsummed dst.now packet.now }
{
    match dst {
        IpAddress::Ipv4(_) => u16_at(packet, 6) == 0,
        IpAddress::Ipv6(_) => false,
    }
}

/// Whether the sum of a datagram and its pseudo-header is all ones.
#[inline(always)]
#[tactic(auto, using(crate::proofs::TransportSums::before))]
fn sums_up(datagram: &[u8], src: &IpAddress, dst: &IpAddress) -> bool
    requires { length datagram.now < 2 ^ 16 }
    ensures { result
        ≡ (folded_sum (word_sum (pseudo src.now dst.now 17 (length datagram.now) ++ datagram.now)) == 65535) }
{
    let start = pseudo_sum(src, dst, 17, datagram.len() as u16);
    sum_with(start, datagram) == 0xffff
}

/// The checksum of a datagram.
#[inline(always)]
#[tactic(auto, using(crate::proofs::TransportSums::datagrams))]
fn sum_for(repr: &UdpRepr, src: &IpAddress, dst: &IpAddress, payload: &[u8]) -> u16
    requires { 8 + length payload.now < 2 ^ 16 }
    ensures { result ≡ spec.sum_of true src.now dst.now repr.now payload.now }
{
    let len = payload.len() as u16;
    let ports = u64::from(repr.src_port) + u64::from(repr.dst_port);
    let start = pseudo_sum(src, dst, 17, 8 + len) + ports + u64::from(8 + len);
    let sum = 0xffff - long_sum_with(start, payload);
    if sum == 0 { 0xffff } else { sum }
}

/// A datagram that is emitted with its checksum is parsed back, whatever follows it.
pub fn read_again()
    ensures { spec.ReadAgain }
{}
