//! TCP segments (RFC 9293).
ghost use Rattle.std.specs.Prelude.{◌≡◌, ◌==◌, ◌+◌, ◌<◌, ◌≤◌, ◌^◌, ◌++◌, length, slice_index, true};
ghost use Rattle.std.specs.Option.{SomeIff, option_map};
ghost use Rattle.ip_wire.specs.Checksum.{folded_sum, word_sum};
ghost use Rattle.ip_wire.specs.Pseudo.{pseudo};
ghost use Rattle.ip_wire.specs.Tcp as spec;

use crate::checksum::{part_sum, sum_with};
use crate::emit::FrameBuffer;
use crate::octets::{u16_at, u32_at};
use crate::pseudo::pseudo_sum;
use ip_address::IpAddress;
use std::fmt;

/// The length of a header without options, in octets.
pub const HEADER_LEN: usize = 20;

/// The meaning of a segment's flags, except ACK.
#[derive(Clone, Copy, Debug, PartialEq, Eq)]
pub enum TcpControl {
    None,
    Psh,
    Syn,
    Fin,
    Rst,
}

impl TcpControl {
    /// The meaning of flags, or `None` if two of FIN, SYN and RST are set.
    #[inline(always)]
    #[tactic(auto, unfolding(crate::specs::Tcp::control_of))]
    const fn from_flags(flags: u8) -> Option<TcpControl>
        ensures { SomeIff result (spec.IsControl flags) (spec.control_of flags) }
    {
        match flags % 8 {
            0 if flags / 8 % 2 == 1 => Some(TcpControl::Psh),
            0 => Some(TcpControl::None),
            1 => Some(TcpControl::Fin),
            2 => Some(TcpControl::Syn),
            4 => Some(TcpControl::Rst),
            _ => None,
        }
    }

    /// The flags of this meaning.
    #[inline(always)]
    const fn flags(self) -> u8
        ensures value { result ≡ spec.flags_of self }
        ensures small { result < 16 }
    {
        match self {
            TcpControl::None => 0,
            TcpControl::Fin => 0x01,
            TcpControl::Syn => 0x02,
            TcpControl::Rst => 0x04,
            TcpControl::Psh => 0x08,
        }
    }
}

/// The number of an octet in a stream, modulo 2^32.
#[derive(Clone, Copy, Debug, PartialEq, Eq)]
pub struct TcpSeqNumber {
    pub bits: u32,
}

impl From<u32> for TcpSeqNumber {
    ghost use Rattle.std.specs.Prelude.{◌≡◌};

    ghost from_gives = { λ bits r. r ≡ record { bits = bits } };

    fn from(bits: u32) -> TcpSeqNumber {
        TcpSeqNumber { bits }
    }
}

impl fmt::Display for TcpSeqNumber {
    /// The number in decimal.
    fn fmt<W: fmt::Write>(&self, f: &mut fmt::Formatter<W>) -> fmt::Result {
        write!(f, "{}", self.bits)
    }
}

/// The values of a segment's header.
#[derive(Clone, Copy, Debug, PartialEq, Eq)]
pub struct TcpRepr {
    pub src_port: u16,
    pub dst_port: u16,
    pub control: TcpControl,
    pub seq_number: TcpSeqNumber,
    /// If the segment acknowledges something, the number of the next octet expected.
    pub ack_number: Option<TcpSeqNumber>,
    /// The window as in the header, not scaled.
    pub window_len: u16,
}

impl TcpRepr {
    /// Parses a segment into its header and its payload. Options are skipped. `src` and `dst` are the packet's
    /// addresses.
    ///
    /// `None` exactly in these cases:
    ///
    /// - there are fewer than 20 octets, or more than the 65,535 that a packet can carry;
    /// - the header is shorter than 20 octets or longer than the octets are;
    /// - a port is 0, or two of FIN, SYN and RST are set;
    /// - with `checked`, the checksum is wrong.
    pub fn parse<'a>(
        packet: &'a [u8],
        src: &IpAddress,
        dst: &IpAddress,
        checked: bool,
    ) -> Option<(TcpRepr, &'a [u8])>
        ensures { SomeIff (option_map spec.parts result)
            ((length packet.now < 2 ^ 16) × spec.IsTcp checked src.now dst.now packet.now) (spec.tcp_in packet.now) }
    {
        if packet.len() < HEADER_LEN || packet.len() > 0xffff {
            return None;
        }
        let header_len = usize::from(packet[12] / 16) * 4;
        if header_len < HEADER_LEN || packet.len() < header_len {
            return None;
        }
        if u16_at(packet, 0) == 0 || u16_at(packet, 2) == 0 {
            return None;
        }
        let control = TcpControl::from_flags(packet[13])?;
        if checked && !sums_up(packet, src, dst) {
            return None;
        }
        Some((header_of(packet, control), &packet[header_len..]))
    }

    /// Appends a segment: the header of 20 octets, and the payload. `src` and `dst` are the packet's addresses. The
    /// checksum is 0 unless `summed`. The segment must have at most 65,535 octets.
    pub fn emit(
        &self,
        src: &IpAddress,
        dst: &IpAddress,
        payload: &[u8],
        summed: bool,
        out: &mut FrameBuffer,
    )
        requires fits { 20 + length payload.now < 2 ^ 16 }
        requires room { length out.old + 20 + length payload.now ≤ 1514 }
        ensures items { out.new ≡ out.old ++ spec.text summed src.now dst.now self.now payload.now }
        ensures len { length out.new ≡ length out.old + 20 + length payload.now }
    {
        self.emit_header(src, dst, payload, summed, out);
        out.append(payload);
    }

    /// Appends the header of a segment with this payload, as [`TcpRepr::emit`] does, without the payload.
    #[inline(always)]
    pub fn emit_header(
        &self,
        src: &IpAddress,
        dst: &IpAddress,
        payload: &[u8],
        summed: bool,
        out: &mut FrameBuffer,
    )
        requires fits { 20 + length payload.now < 2 ^ 16 }
        requires room { length out.old + 20 ≤ 1514 }
        ensures items { out.new ++ payload.now ≡ out.old ++ spec.text summed src.now dst.now self.now payload.now }
        ensures len { length out.new ≡ length out.old + 20 }
    {
        let sum = if summed {
            sum_for(self, src, dst, payload)
        } else {
            0
        };
        out.append(&header_with(sum, self));
    }
}

/// The values of a header whose flags have this meaning.
#[inline(always)]
fn header_of(packet: &[u8], control: TcpControl) -> TcpRepr
    requires whole { 20 ≤ length packet.now }
    requires control { control ≡ spec.control_of (slice_index packet.now 13) }
    ensures { result ≡ spec.header_in packet.now }
{
    TcpRepr {
        src_port: u16_at(packet, 0),
        dst_port: u16_at(packet, 2),
        control,
        seq_number: TcpSeqNumber {
            bits: u32_at(packet, 4),
        },
        ack_number: ack_number_of(packet),
        window_len: u16_at(packet, 14),
    }
}

/// The acknowledgement number of a header, if it has one.
#[inline(always)]
fn ack_number_of(packet: &[u8]) -> Option<TcpSeqNumber>
    requires { 20 ≤ length packet.now }
    ensures { result ≡ (spec.header_in packet.now).ack_number }
{
    if packet[13] / 16 % 2 == 1 {
        Some(TcpSeqNumber {
            bits: u32_at(packet, 8),
        })
    } else {
        None
    }
}

/// Whether the sum of a segment and its pseudo-header is all ones.
#[tactic(auto, using(crate::proofs::TransportSums::before))]
fn sums_up(segment: &[u8], src: &IpAddress, dst: &IpAddress) -> bool
    requires { length segment.now < 2 ^ 16 }
    ensures { result ≡ (folded_sum (word_sum (pseudo src.now dst.now 6 (length segment.now) ++ segment.now)) == 65535) }
{
    let start = pseudo_sum(src, dst, 6, segment.len() as u16);
    sum_with(start, segment) == 0xffff
}

/// The ACK flag and the acknowledgement number; both 0 if there is none.
#[inline(always)]
const fn ack_of(ack_number: Option<TcpSeqNumber>) -> (u8, u32)
    ensures flag { result.0 ≡ spec.ack_flag ack_number }
    ensures bits { result.1 ≡ spec.ack_bits ack_number }
    ensures small { result.0 ≤ 16 }
{
    match ack_number {
        Some(number) => (0x10, number.bits),
        None => (0, 0),
    }
}

/// A header with the given checksum.
#[inline(always)]
#[tactic(auto, unfolding(crate::specs::Tcp::header_with))]
fn header_with(sum: u16, repr: &TcpRepr) -> [u8; HEADER_LEN]
    ensures { result ≡ spec.header_with sum repr.now }
{
    let (ack, ack_bits) = ack_of(repr.ack_number);
    let flags = repr.control.flags() + ack;
    let [s0, s1] = repr.src_port.to_be_bytes();
    let [d0, d1] = repr.dst_port.to_be_bytes();
    let [q0, q1, q2, q3] = repr.seq_number.bits.to_be_bytes();
    let [a0, a1, a2, a3] = ack_bits.to_be_bytes();
    let [w0, w1] = repr.window_len.to_be_bytes();
    let [c0, c1] = sum.to_be_bytes();
    [
        s0, s1, d0, d1, q0, q1, q2, q3, a0, a1, a2, a3, 0x50, flags, w0, w1, c0, c1, 0, 0,
    ]
}

/// The checksum of a segment.
#[inline(always)]
#[tactic(auto, using(crate::proofs::TransportSums::segments))]
fn sum_for(repr: &TcpRepr, src: &IpAddress, dst: &IpAddress, payload: &[u8]) -> u16
    requires { 20 + length payload.now < 2 ^ 16 }
    ensures { result ≡ spec.sum_of true src.now dst.now repr.now payload.now }
{
    let len = 20 + payload.len() as u16;
    let start = pseudo_sum(src, dst, 6, len) + part_sum(&header_with(0, repr));
    0xffff - sum_with(start, payload)
}

/// A segment that is emitted with its checksum is parsed back.
pub fn read_again()
    ensures { spec.ReadAgain }
{}
