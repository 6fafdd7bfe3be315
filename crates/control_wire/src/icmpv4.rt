//! ICMP for IPv4 (RFC 792): echo messages, and errors with their quotations.
ghost use Rattle.std.specs.Prelude.{◌≡◌, ◌+◌, ◌%◌, ◌<◌, ◌≤◌, ◌^◌, ◌++◌, drop, length, true, if◌then◌else◌};
ghost use Rattle.std.specs.Option.{SomeIff, option_map};
ghost use Rattle.std.specs.Cmp.Rules.{comparing};
ghost use Rattle.std.proofs.Common.{rules};
ghost use Rattle.ip_wire.specs.Checksum.{checksum_of};
ghost use Rattle.ip_wire.specs.Octets.{u16_at};
ghost use Rattle.control_wire.specs.Icmpv4.{IsEchoRequest};
ghost use Rattle.control_wire.specs.Icmpv4 as spec;

use ip_wire::checksum::{long_sum_with, part_sum};
use ip_wire::emit::FrameBuffer;
use ip_wire::ipv4_packet::{Ipv4Fragment, Ipv4Repr};
use ip_wire::octets::u16_at;

/// The length of a message's header, in octets.
pub const HEADER_LEN: usize = 8;

/// Why a destination is unreachable. Reasons are equal if their codes are, so that
/// [`Icmpv4DstUnreachable::Unknown`] of 3 is [`Icmpv4DstUnreachable::PortUnreachable`].
#[derive(Clone, Copy, Debug)]
pub enum Icmpv4DstUnreachable {
    /// The destination doesn't support the protocol.
    ProtoUnreachable,
    /// No socket listens at the port.
    PortUnreachable,
    /// Another reason, by its code.
    Unknown(u8),
}

impl Icmpv4DstUnreachable {
    /// The reason of a code.
    pub const fn from_number(code: u8) -> Icmpv4DstUnreachable
        ensures { result ≡ spec.reason_of code }
    {
        match code {
            2 => Icmpv4DstUnreachable::ProtoUnreachable,
            3 => Icmpv4DstUnreachable::PortUnreachable,
            other => Icmpv4DstUnreachable::Unknown(other),
        }
    }

    /// The code of a reason.
    #[inline(always)]
    pub const fn number(self) -> u8
        ensures { result ≡ spec.code_of self }
    {
        match self {
            Icmpv4DstUnreachable::ProtoUnreachable => 2,
            Icmpv4DstUnreachable::PortUnreachable => 3,
            Icmpv4DstUnreachable::Unknown(other) => other,
        }
    }
}

/// Equal exactly if the codes are.
impl PartialEq for Icmpv4DstUnreachable {
    ghost eq = { spec.is_same };

    ghost laws = { Prim.search (comparing, rules) };

    fn eq(&self, other: &Icmpv4DstUnreachable) -> bool {
        self.number() == other.number()
    }
}

impl Eq for Icmpv4DstUnreachable {
    ghost laws = { Prim.search (comparing, rules) };
}

/// The values of a message without its data: the data of an echo message, or the octets that an error quotes after the
/// packet's header.
#[derive(Clone, Copy, Debug, PartialEq, Eq)]
pub enum Icmpv4Repr {
    EchoRequest {
        ident: u16,
        seq_no: u16,
    },
    EchoReply {
        ident: u16,
        seq_no: u16,
    },
    DstUnreachable {
        reason: Icmpv4DstUnreachable,
        /// The header of the packet that couldn't be delivered.
        header: Ipv4Repr,
    },
    TimeExceeded {
        /// 0 in transit, 1 in reassembly.
        code: u8,
        /// The header of the packet whose time was exceeded.
        header: Ipv4Repr,
    },
}

impl Icmpv4Repr {
    /// Parses octets as a message. Returns it and its data.
    ///
    /// `None` exactly in these cases:
    ///
    /// - there are fewer than 8 octets, or more than the 65,535 that a packet can carry;
    /// - they are an echo message with a code other than 0, an error that quotes no IPv4 header, or a message of
    ///   another type;
    /// - with `checked`, the checksum over all of them is wrong.
    #[inline(always)]
    pub fn parse(octets: &[u8], checked: bool) -> Option<(Icmpv4Repr, &[u8])>
        ensures { SomeIff (option_map spec.parts result)
            ((length octets.now < 2 ^ 16) × spec.IsIcmpv4 checked octets.now) (spec.icmpv4_in octets.now) }
    {
        if octets.len() < HEADER_LEN || octets.len() > 0xffff {
            return None;
        }
        if checked && long_sum_with(0, octets) != 0xffff {
            return None;
        }
        parse_body(octets)
    }

    /// Appends the message with its data of fewer than 65,536 octets. Its checksum is 0 unless `summed`. A quoted
    /// header must be that of a packet of at most 65,535 octets. It is written anew, as that of a whole packet, with
    /// checksum 0 unless `quoted_summed`.
    pub fn emit(&self, payload: &[u8], summed: bool, quoted_summed: bool, out: &mut FrameBuffer)
        requires quoted { spec.QuotesPacket self.now }
        requires short { length payload.now < 2 ^ 16 }
        requires room { length out.old + spec.header_len self.now + length payload.now ≤ 1514 }
        ensures items { out.new ≡ out.old ++ spec.text summed quoted_summed self.now payload.now }
        ensures len { length out.new ≡ length out.old + spec.header_len self.now + length payload.now }
    {
        self.emit_header(payload, summed, quoted_summed, out);
        out.append(payload);
    }

    /// Appends the message up to its data, as [`Icmpv4Repr::emit`] does, without the data.
    #[inline(always)]
    pub fn emit_header(
        &self,
        payload: &[u8],
        summed: bool,
        quoted_summed: bool,
        out: &mut FrameBuffer,
    )
        requires quoted { spec.QuotesPacket self.now }
        requires short { length payload.now < 2 ^ 16 }
        requires room { length out.old + spec.header_len self.now ≤ 1514 }
        ensures items { out.new ++ payload.now ≡ out.old ++ spec.text summed quoted_summed self.now payload.now }
        ensures len { length out.new ≡ length out.old + spec.header_len self.now }
    {
        match self {
            Icmpv4Repr::EchoRequest { .. } | Icmpv4Repr::EchoReply { .. } => {
                emit_parts(self, &[], payload, summed, out);
            }
            Icmpv4Repr::DstUnreachable { header, .. } | Icmpv4Repr::TimeExceeded { header, .. } => {
                let quoted = header.octets(&Ipv4Fragment::WHOLE, quoted_summed);
                emit_parts(self, &quoted, payload, summed, out);
            }
        }
    }

    /// The length of the message without its data, in octets.
    #[inline(always)]
    pub const fn header_len(&self) -> usize
        ensures { result ≡ spec.header_len self.now }
    {
        match self {
            Icmpv4Repr::EchoRequest { .. } | Icmpv4Repr::EchoReply { .. } => HEADER_LEN,
            Icmpv4Repr::DstUnreachable { .. } | Icmpv4Repr::TimeExceeded { .. } => 28,
        }
    }
}

/// An echo request whose checksum was verified, so that the reply's can be derived from it.
#[derive(Clone, Copy)]
pub struct EchoRequest<'p> {
    /// All octets of the message, fewer than 65,536.
    pub octets: &'p [u8],
    pub ghost sound: { IsEchoRequest octets.now },
    pub ghost short: { length octets.now < 2 ^ 16 },
}

impl EchoRequest<'_> {
    /// The data, which is also the reply's.
    #[inline(always)]
    pub fn payload(&self) -> &[u8]
        ensures { result.now ≡ drop 8 self.now.octets.now }
    {
        &self.octets[HEADER_LEN..]
    }

    /// Appends the reply up to its data, with the request's identifier and sequence number. Its checksum, 0 unless
    /// `summed`, is that of the whole, and is derived from the request's (RFC 1624).
    #[inline(always)]
    pub fn emit_reply_header(&self, summed: bool, out: &mut FrameBuffer)
        requires room { length out.old + 8 ≤ 1514 }
        ensures items { out.new ++ drop 8 self.now.octets.now
            ≡ out.old ++ spec.text summed true (spec.echo_reply_to self.now.octets.now) (drop 8 self.now.octets.now) }
        ensures len { length out.new ≡ length out.old + 8 }
    {
        let request = self.octets;
        let reply = Icmpv4Repr::EchoReply {
            ident: u16_at(request, 4),
            seq_no: u16_at(request, 6),
        };
        let sum = if summed {
            reply_sum(request, &reply)
        } else {
            0
        };
        out.append(&head_with(sum, &reply));
    }
}

/// The checksum of the reply to an echo request: the request's with the word of the type taken out (RFC 1624). If that
/// leaves 0, which stands for two sums, the reply is summed anew.
#[inline(always)]
fn reply_sum(request: &[u8], reply: &Icmpv4Repr) -> u16
    requires request { spec.IsEchoRequest request.now }
    requires short { length request.now < 2 ^ 16 }
    requires reply { reply.now ≡ spec.echo_reply_to request.now }
    requires ident { u16_at request.now 4 < 2 ^ 16 }
    requires seq_no { u16_at request.now 6 < 2 ^ 16 }
    ensures { result ≡ spec.sum_of true true reply.now (drop 8 request.now) }
{
    let sum = (u32::from(u16_at(request, 2)) + 0x0800) % 0xffff;
    if sum == 0 {
        return sum_for(&head_with(0, reply), &[], &request[HEADER_LEN..]);
    }
    sum as u16
}

/// A message that is emitted is parsed back.
pub fn read_again()
    ensures { spec.ReadAgain }
{}

/// The first eight octets of a message, with the given checksum.
#[inline(always)]
#[tactic(auto, unfolding(crate::specs::Icmpv4::head_with))]
fn head_with(sum: u16, repr: &Icmpv4Repr) -> [u8; HEADER_LEN]
    ensures { result ≡ spec.head_with sum repr.now }
{
    let [c0, c1] = sum.to_be_bytes();
    match repr {
        Icmpv4Repr::EchoRequest { ident, seq_no } => {
            let [i0, i1] = ident.to_be_bytes();
            let [s0, s1] = seq_no.to_be_bytes();
            [8, 0, c0, c1, i0, i1, s0, s1]
        }
        Icmpv4Repr::EchoReply { ident, seq_no } => {
            let [i0, i1] = ident.to_be_bytes();
            let [s0, s1] = seq_no.to_be_bytes();
            [0, 0, c0, c1, i0, i1, s0, s1]
        }
        Icmpv4Repr::DstUnreachable { reason, .. } => [3, reason.number(), c0, c1, 0, 0, 0, 0],
        Icmpv4Repr::TimeExceeded { code, .. } => [11, *code, c0, c1, 0, 0, 0, 0],
    }
}

/// Appends a message up to its data: its first eight octets, and the header that it quotes.
#[inline(always)]
fn emit_parts(
    message: &Icmpv4Repr,
    quoted: &[u8],
    payload: &[u8],
    summed: bool,
    out: &mut FrameBuffer,
)
    requires quoted_even { length quoted.now % 2 ≡ 0 }
    requires quoted_short { length quoted.now < 2 ^ 16 }
    requires short { length payload.now < 2 ^ 16 }
    requires room { length out.old + 8 + length quoted.now ≤ 1514 }
    ensures items { out.new ++ payload.now ≡ out.old ++ spec.head_with
        (if summed then checksum_of (spec.head_with 0 message.now ++ quoted.now ++ payload.now) else 0)
        message.now
        ++ quoted.now ++ payload.now }
    ensures len { length out.new ≡ length out.old + 8 + length quoted.now }
{
    let sum = if summed {
        sum_for(&head_with(0, message), quoted, payload)
    } else {
        0
    };
    out.append(&head_with(sum, message));
    out.append(quoted);
}

/// The checksum of a message with these parts.
#[inline(always)]
fn sum_for(head: &[u8], quoted: &[u8], payload: &[u8]) -> u16
    requires head_even { length head.now % 2 ≡ 0 }
    requires quoted_even { length quoted.now % 2 ≡ 0 }
    requires head_short { length head.now < 2 ^ 16 }
    requires quoted_short { length quoted.now < 2 ^ 16 }
    requires payload_short { length payload.now < 2 ^ 16 }
    ensures { result ≡ checksum_of (head.now ++ quoted.now ++ payload.now) }
{
    0xffff - long_sum_with(part_sum(head) + part_sum(quoted), payload)
}

/// Parses a message by its type. Returns it and its data.
#[inline(always)]
fn parse_body(octets: &[u8]) -> Option<(Icmpv4Repr, &[u8])>
    requires { 8 ≤ length octets.now }
    ensures { SomeIff (option_map spec.parts result) (spec.IsBody octets.now) (spec.icmpv4_in octets.now) }
{
    let ident = u16_at(octets, 4);
    let seq_no = u16_at(octets, 6);
    match (octets[0], octets[1]) {
        (8, 0) => Some((Icmpv4Repr::EchoRequest { ident, seq_no }, &octets[8..])),
        (0, 0) => Some((Icmpv4Repr::EchoReply { ident, seq_no }, &octets[8..])),
        (3, code) => {
            let (header, data) = Ipv4Repr::parse_quoted(&octets[8..])?;
            let reason = Icmpv4DstUnreachable::from_number(code);
            Some((Icmpv4Repr::DstUnreachable { reason, header }, data))
        }
        (11, code) => {
            let (header, data) = Ipv4Repr::parse_quoted(&octets[8..])?;
            Some((Icmpv4Repr::TimeExceeded { code, header }, data))
        }
        _ => None,
    }
}
