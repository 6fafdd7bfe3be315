//! TCP segments with their options (RFC 9293 3.1).
ghost use Rattle.std.specs.Prelude.{◌≡◌, ◌+◌, ◌%◌, ◌<◌, ◌≤◌, ◌^◌, ◌++◌, length, true};
ghost use Rattle.std.specs.Option.{SomeIff, option_map};
ghost use Rattle.ip_wire.specs.Tcp.{IsTcp, ack_bits, ack_flag, flags_of};
ghost use Rattle.tcp_wire.specs.Options.{options_text};
ghost use Rattle.tcp_wire.specs.Tcp as spec;

use crate::options::TcpOptions;
use ip_address::IpAddress;
use ip_wire::checksum::{part_sum, sum_with};
use ip_wire::emit::FrameBuffer;
use ip_wire::pseudo::pseudo_sum;
pub use ip_wire::tcp::HEADER_LEN;
use ip_wire::{TcpControl, TcpSeqNumber, tcp};

/// The values of a segment's header with its options.
#[derive(Clone, Copy, Debug, PartialEq, Eq)]
pub struct TcpRepr {
    pub src_port: u16,
    pub dst_port: u16,
    pub control: TcpControl,
    pub seq_number: TcpSeqNumber,
    /// If the segment acknowledges something, the number of the next octet expected.
    pub ack_number: Option<TcpSeqNumber>,
    /// The window as in the header, not scaled.
    pub window_len: u16,
    pub options: TcpOptions,
}

impl TcpRepr {
    /// Parses a segment into its header with options, and its payload. `src` and `dst` are the packet's addresses.
    /// Options are parsed by [`TcpOptions::parse`], and are never a reason to fail.
    ///
    /// `None` exactly in these cases, as for [`ip_wire::TcpRepr::parse`]:
    ///
    /// - there are fewer than 20 octets, or more than the 65,535 that a packet can carry;
    /// - the header is shorter than 20 octets or longer than the octets are;
    /// - a port is 0, or two of FIN, SYN and RST are set;
    /// - with `checked`, the checksum is wrong.
    pub fn parse<'a>(
        packet: &'a [u8],
        src: &IpAddress,
        dst: &IpAddress,
        checked: bool,
    ) -> Option<(TcpRepr, &'a [u8])>
        ensures { SomeIff (option_map spec.parts result)
            ((length packet.now < 2 ^ 16) × IsTcp checked src.now dst.now packet.now) (spec.tcp_in packet.now) }
    {
        let (words, payload) = tcp::TcpRepr::parse(packet, src, dst, checked)?;
        let options = TcpOptions::parse(&packet[HEADER_LEN..packet.len() - payload.len()]);
        Some((with_options(&words, options), payload))
    }

    /// The length of the header with its options, in octets: from 20 to 60, a multiple of four.
    pub fn header_len(&self) -> usize
        ensures value { result ≡ spec.text_len self.now }
        ensures least { 20 ≤ result }
        ensures most { result ≤ 60 }
        ensures words { result % 4 ≡ 0 }
    {
        HEADER_LEN + self.options.len()
    }

    /// Appends a segment: the header with its options, and the payload. `src` and `dst` are the packet's addresses. The
    /// checksum is 0 unless `summed`. The segment must have at most 65,535 octets.
    ///
    /// Of the SACK ranges the first ones are sent, as many as fit behind the other options: four without them, three
    /// beside timestamps (RFC 2018 3).
    pub fn emit(
        &self,
        src: &IpAddress,
        dst: &IpAddress,
        payload: &[u8],
        summed: bool,
        out: &mut FrameBuffer,
    )
        requires fits { spec.text_len self.now + length payload.now < 2 ^ 16 }
        requires room { length out.old + spec.text_len self.now + length payload.now ≤ 1514 }
        ensures items { out.new ≡ out.old ++ spec.text summed src.now dst.now self.now payload.now }
        ensures len { length out.new ≡ length out.old + spec.text_len self.now + length payload.now }
    {
        self.emit_header(src, dst, payload, summed, out);
        out.append(payload);
    }

    /// Appends the header of a segment with this payload, as [`TcpRepr::emit`] does, without the payload.
    pub fn emit_header(
        &self,
        src: &IpAddress,
        dst: &IpAddress,
        payload: &[u8],
        summed: bool,
        out: &mut FrameBuffer,
    )
        requires fits { spec.text_len self.now + length payload.now < 2 ^ 16 }
        requires room { length out.old + spec.text_len self.now ≤ 1514 }
        ensures items { out.new ++ payload.now ≡ out.old ++ spec.text summed src.now dst.now self.now payload.now }
        ensures len { length out.new ≡ length out.old + spec.text_len self.now }
    {
        let options = self.options.text();
        let sum = if summed {
            sum_for(self, options.as_slice(), src, dst, payload)
        } else {
            0
        };
        out.append(&words_with(sum, self, options.len()));
        out.append(options.as_slice());
    }
}

/// The values of the first five words, with options.
#[inline(always)]
const fn with_options(words: &tcp::TcpRepr, options: TcpOptions) -> TcpRepr
    ensures { result ≡ spec.with_options words.now options }
{
    TcpRepr {
        src_port: words.src_port,
        dst_port: words.dst_port,
        control: words.control,
        seq_number: words.seq_number,
        ack_number: words.ack_number,
        window_len: words.window_len,
        options,
    }
}

/// The flags of a meaning.
#[inline(always)]
const fn flags_of(control: TcpControl) -> u8
    ensures value { result ≡ flags_of control }
    ensures small { result < 16 }
{
    match control {
        TcpControl::None => 0,
        TcpControl::Fin => 0x01,
        TcpControl::Syn => 0x02,
        TcpControl::Rst => 0x04,
        TcpControl::Psh => 0x08,
    }
}

/// The ACK flag and the acknowledgement number; both 0 if there is none.
#[inline(always)]
const fn ack_of(ack_number: Option<TcpSeqNumber>) -> (u8, u32)
    ensures flag { result.0 ≡ ack_flag ack_number }
    ensures bits { result.1 ≡ ack_bits ack_number }
    ensures small { result.0 ≤ 16 }
{
    match ack_number {
        Some(number) => (0x10, number.bits),
        None => (0, 0),
    }
}

/// The first five words with the given checksum, before options of this length.
#[inline(always)]
#[tactic(auto, unfolding(crate::specs::Tcp::words_text))]
fn words_with(sum: u16, repr: &TcpRepr, options_len: usize) -> [u8; HEADER_LEN]
    requires len { options_len ≡ length (options_text repr.now.options) }
    requires fits { options_len ≤ 40 }
    ensures { result ≡ spec.words_text sum repr.now }
{
    let (ack, ack_bits) = ack_of(repr.ack_number);
    let flags = flags_of(repr.control) + ack;
    let offset = (HEADER_LEN + options_len) as u8 / 4 * 16;
    let [s0, s1] = repr.src_port.to_be_bytes();
    let [d0, d1] = repr.dst_port.to_be_bytes();
    let [q0, q1, q2, q3] = repr.seq_number.bits.to_be_bytes();
    let [a0, a1, a2, a3] = ack_bits.to_be_bytes();
    let [w0, w1] = repr.window_len.to_be_bytes();
    let [c0, c1] = sum.to_be_bytes();
    [
        s0, s1, d0, d1, q0, q1, q2, q3, a0, a1, a2, a3, offset, flags, w0, w1, c0, c1, 0, 0,
    ]
}

/// The checksum of a segment whose options have this text.
fn sum_for(repr: &TcpRepr, options: &[u8], src: &IpAddress, dst: &IpAddress, payload: &[u8]) -> u16
    requires options { options.now ≡ options_text repr.now.options }
    requires most { length options.now ≤ 40 }
    requires fits { 20 + length options.now + length payload.now < 2 ^ 16 }
    ensures { result ≡ spec.sum_of true src.now dst.now repr.now payload.now }
{
    let len = (HEADER_LEN + options.len() + payload.len()) as u16;
    let words = words_with(0, repr, options.len());
    let start = pseudo_sum(src, dst, 6, len) + part_sum(&words) + part_sum(options);
    0xffff - sum_with(start, payload)
}

/// A segment that is emitted with its checksum is parsed back.
pub fn read_again()
    ensures { spec.ReadAgain }
{}
