//! ICMPv6 (RFC 4443): echo messages, errors with their quotations, and the messages of neighbour discovery, router
//! discovery and MLD.
ghost use Rattle.std.specs.Prelude.{◌≡◌, ◌==◌, ◌+◌, ◌%◌, ◌<◌, ◌≤◌, ◌^◌, ◌++◌, ℕ, length, true, false};
ghost use Rattle.std.specs.Option.{SomeIff, option_map};
ghost use Rattle.std.specs.Cmp.Rules.{comparing};
ghost use Rattle.std.proofs.Common.{rules};
ghost use Rattle.ip_wire.specs.Checksum.{folded_sum, word_sum};
ghost use Rattle.control_wire.specs.Icmpv6 as spec;

use crate::mld::MldRepr;
use crate::ndisc::NdiscRepr;
use crate::router::RouterRepr;
use ip_address::IpAddress;
use ip_wire::checksum::{long_sum_with, part_sum, sum_with};
use ip_wire::emit::FrameBuffer;
use ip_wire::ipv6_packet::Ipv6Repr;
use ip_wire::octets::{u16_at, u32_at};
use ip_wire::pseudo::pseudo_sum;

/// The length of a message's header, in octets.
pub const HEADER_LEN: usize = 8;

/// Why a destination is unreachable. Reasons are equal if their codes are, so that
/// [`Icmpv6DstUnreachable::Unknown`] of 4 is [`Icmpv6DstUnreachable::PortUnreachable`].
#[derive(Clone, Copy, Debug)]
pub enum Icmpv6DstUnreachable {
    /// No socket listens at the port.
    PortUnreachable,
    /// Another reason, by its code.
    Unknown(u8),
}

impl Icmpv6DstUnreachable {
    /// The reason of a code (RFC 4443 3.1).
    pub const fn from_number(code: u8) -> Icmpv6DstUnreachable
        ensures { result ≡ spec.unreachable_of code }
    {
        match code {
            4 => Icmpv6DstUnreachable::PortUnreachable,
            other => Icmpv6DstUnreachable::Unknown(other),
        }
    }

    /// The code of a reason.
    #[inline(always)]
    pub const fn number(self) -> u8
        ensures { result ≡ spec.unreachable_code self }
    {
        match self {
            Icmpv6DstUnreachable::PortUnreachable => 4,
            Icmpv6DstUnreachable::Unknown(other) => other,
        }
    }
}

/// Equal exactly if the codes are.
impl PartialEq for Icmpv6DstUnreachable {
    ghost eq = { spec.is_same_unreachable };

    ghost laws = { Prim.search (comparing, rules) };

    fn eq(&self, other: &Icmpv6DstUnreachable) -> bool {
        self.number() == other.number()
    }
}

impl Eq for Icmpv6DstUnreachable {
    ghost laws = { Prim.search (comparing, rules) };
}

/// The kind of a parameter problem. Kinds are equal if their codes are, so that [`Icmpv6ParamProblem::Unknown`] of 1 is
/// [`Icmpv6ParamProblem::UnrecognizedNxtHdr`].
#[derive(Clone, Copy, Debug)]
pub enum Icmpv6ParamProblem {
    /// The next header is unrecognized.
    UnrecognizedNxtHdr,
    /// The option is unrecognized.
    UnrecognizedOption,
    /// Another problem, by its code.
    Unknown(u8),
}

impl Icmpv6ParamProblem {
    /// The problem of a code (RFC 4443 3.4).
    pub const fn from_number(code: u8) -> Icmpv6ParamProblem
        ensures { result ≡ spec.problem_of code }
    {
        match code {
            1 => Icmpv6ParamProblem::UnrecognizedNxtHdr,
            2 => Icmpv6ParamProblem::UnrecognizedOption,
            other => Icmpv6ParamProblem::Unknown(other),
        }
    }

    /// The code of a problem.
    #[inline(always)]
    pub const fn number(self) -> u8
        ensures { result ≡ spec.problem_code self }
    {
        match self {
            Icmpv6ParamProblem::UnrecognizedNxtHdr => 1,
            Icmpv6ParamProblem::UnrecognizedOption => 2,
            Icmpv6ParamProblem::Unknown(other) => other,
        }
    }
}

/// Equal exactly if the codes are.
impl PartialEq for Icmpv6ParamProblem {
    ghost eq = { spec.is_same_problem };

    ghost laws = { Prim.search (comparing, rules) };

    fn eq(&self, other: &Icmpv6ParamProblem) -> bool {
        self.number() == other.number()
    }
}

impl Eq for Icmpv6ParamProblem {
    ghost laws = { Prim.search (comparing, rules) };
}

/// The values of a message without its data: the data of an echo message, or the octets that an error quotes after the
/// packet's header. A message of neighbour or router discovery has no data.
#[derive(Clone, Copy, Debug, PartialEq, Eq)]
pub enum Icmpv6Repr {
    EchoRequest {
        ident: u16,
        seq_no: u16,
    },
    EchoReply {
        ident: u16,
        seq_no: u16,
    },
    DstUnreachable {
        reason: Icmpv6DstUnreachable,
        /// The header of the packet that couldn't be delivered.
        header: Ipv6Repr,
    },
    PktTooBig {
        /// The MTU of the next link, in octets.
        mtu: u32,
        /// The header of the packet that exceeded it.
        header: Ipv6Repr,
    },
    TimeExceeded {
        /// 0 in transit, 1 in reassembly.
        code: u8,
        /// The header of the packet whose time was exceeded.
        header: Ipv6Repr,
    },
    ParamProblem {
        reason: Icmpv6ParamProblem,
        /// The offset of the problem in the packet, in octets.
        pointer: u32,
        /// The header of the packet with the problem.
        header: Ipv6Repr,
    },
    /// A neighbour solicitation or advertisement (RFC 4861).
    Ndisc(NdiscRepr),
    /// A router solicitation or advertisement (RFC 4861).
    Router(RouterRepr),
    /// An MLD query or report (RFC 3810).
    Mld(MldRepr),
}

impl Icmpv6Repr {
    /// Parses octets as a message. Returns it and its data. `src` and `dst` are the packet's addresses.
    ///
    /// `None` exactly in these cases:
    ///
    /// - there are fewer than 8 octets, or more than the 65,535 that a packet can carry;
    /// - they are a message other than an error with a code other than 0, an error that quotes no IPv6 header, or a
    ///   message of another type;
    /// - they are a message of neighbour or router discovery that is cut off or has invalid options (RFC 4861 6.1,
    ///   7.1);
    /// - with `checked`, the checksum over the pseudo-header and all of them is wrong (RFC 4443 2.3).
    #[inline(always)]
    pub fn parse<'a>(
        octets: &'a [u8],
        src: &IpAddress,
        dst: &IpAddress,
        checked: bool,
    ) -> Option<(Icmpv6Repr, &'a [u8])>
        ensures { SomeIff (option_map spec.parts result) ((length octets.now < 2 ^ 16)
            × spec.IsIcmpv6 checked src.now dst.now octets.now) (spec.icmpv6_in octets.now) }
    {
        if octets.len() > 0xffff || !is_sound(octets, src, dst, checked) {
            return None;
        }
        parse_sound(octets)
    }

    /// Appends the message with its data; one of neighbour or router discovery must have none. The message must have at
    /// most 65,535 octets. `src` and `dst` are the packet's addresses. Its checksum is 0 unless `summed`. A quoted
    /// header is written anew.
    pub fn emit(
        &self,
        src: &IpAddress,
        dst: &IpAddress,
        payload: &[u8],
        summed: bool,
        out: &mut FrameBuffer,
    )
        requires fits { spec.header_len self.now + length payload.now < 2 ^ 16 }
        requires room { length out.old + spec.header_len self.now + length payload.now ≤ 1514 }
        ensures items { out.new ≡ out.old ++ spec.text summed src.now dst.now self.now payload.now }
        ensures len { length out.new ≡ length out.old + spec.header_len self.now + length payload.now }
    {
        self.emit_header(src, dst, payload, summed, out);
        out.append(payload);
    }

    /// Appends the message up to its data, as [`Icmpv6Repr::emit`] does, without the data.
    #[inline(always)]
    pub fn emit_header(
        &self,
        src: &IpAddress,
        dst: &IpAddress,
        payload: &[u8],
        summed: bool,
        out: &mut FrameBuffer,
    )
        requires fits { spec.header_len self.now + length payload.now < 2 ^ 16 }
        requires room { length out.old + spec.header_len self.now ≤ 1514 }
        ensures items { out.new ++ payload.now ≡ out.old ++ spec.text summed src.now dst.now self.now payload.now }
        ensures len { length out.new ≡ length out.old + spec.header_len self.now }
    {
        match self {
            Icmpv6Repr::EchoRequest { .. } | Icmpv6Repr::EchoReply { .. } => {
                emit_parts_by_call(self, &[], &[], payload, src, dst, summed, out);
            }
            Icmpv6Repr::DstUnreachable { header, .. }
            | Icmpv6Repr::PktTooBig { header, .. }
            | Icmpv6Repr::TimeExceeded { header, .. }
            | Icmpv6Repr::ParamProblem { header, .. } => {
                emit_parts_by_call(self, &header.octets(), &[], payload, src, dst, summed, out);
            }
            Icmpv6Repr::Ndisc(message) => {
                let target = message.target_octets();
                match message.option_octets() {
                    Some(option) => {
                        emit_parts_by_call(self, &target, &option, payload, src, dst, summed, out);
                    }
                    None => emit_parts_by_call(self, &target, &[], payload, src, dst, summed, out),
                }
            }
            Icmpv6Repr::Router(message) => {
                let body = message.body_octets();
                emit_parts_by_call(self, body.as_slice(), &[], payload, src, dst, summed, out);
            }
            Icmpv6Repr::Mld(message) => match message.body_octets() {
                Some(body) => emit_parts_by_call(self, &body, &[], payload, src, dst, summed, out),
                None => emit_parts_by_call(self, &[], &[], payload, src, dst, summed, out),
            },
        }
    }

    /// The length of the message without its data, in octets.
    #[inline(always)]
    pub const fn header_len(&self) -> usize
        ensures value { result ≡ spec.header_len self.now }
        ensures small { result ≤ 56 }
    {
        match self {
            Icmpv6Repr::EchoRequest { .. } | Icmpv6Repr::EchoReply { .. } => HEADER_LEN,
            Icmpv6Repr::DstUnreachable { .. }
            | Icmpv6Repr::PktTooBig { .. }
            | Icmpv6Repr::TimeExceeded { .. }
            | Icmpv6Repr::ParamProblem { .. } => 48,
            Icmpv6Repr::Ndisc(message) => message.message_len(),
            Icmpv6Repr::Router(message) => message.message_len(),
            Icmpv6Repr::Mld(message) => message.message_len(),
        }
    }
}

/// Whether octets may be a message between two addresses: there are as many as a header has and, if `checked`, the
/// checksum over the pseudo-header and all of them is right (RFC 4443 2.3). There must be fewer than 65,536 octets.
#[inline(always)]
pub fn is_sound(octets: &[u8], src: &IpAddress, dst: &IpAddress, checked: bool) -> bool
    requires { length octets.now < 2 ^ 16 }
    ensures sound { result ≡ true → spec.IsSound checked src.now dst.now octets.now }
    ensures unsound { result ≡ false → spec.IsSound checked src.now dst.now octets.now → ⊥ }
{
    octets.len() >= HEADER_LEN && (!checked || sums_up(octets, src, dst))
}

/// Whether the sum of a message and its pseudo-header is all ones.
#[tactic(auto, using(crate::proofs::Icmpv6Sums::before))]
fn sums_up(octets: &[u8], src: &IpAddress, dst: &IpAddress) -> bool
    requires { length octets.now < 2 ^ 16 }
    ensures { result
        ≡ (folded_sum (word_sum (spec.pseudo_header src.now dst.now (length octets.now) ++ octets.now)) == 65535) }
{
    let start = pseudo_header_sum(src, dst, octets.len() as u16);
    long_sum_with(start, octets) == 0xffff
}

/// A number that folds as the sum of the words of a pseudo-header does, in any sum, for a message of `len` octets.
#[inline(always)]
pub(crate) fn pseudo_header_sum(src: &IpAddress, dst: &IpAddress, len: u16) -> u64
    ensures folds { (sum : ℕ) →
        folded_sum (sum + result) ≡ folded_sum (sum + word_sum (spec.pseudo_header src.now dst.now len)) }
    ensures small { result < 2 ^ 40 }
{
    pseudo_sum(src, dst, 58, len)
}

/// The first eight octets of a message, with the given checksum.
#[inline(always)]
#[tactic(auto, unfolding(crate::specs::Icmpv6::head_with))]
pub(crate) fn head_with(sum: u16, repr: &Icmpv6Repr) -> [u8; HEADER_LEN]
    ensures { result ≡ spec.head_with sum repr.now }
{
    let [c0, c1] = sum.to_be_bytes();
    match repr {
        Icmpv6Repr::EchoRequest { ident, seq_no } => {
            let [i0, i1] = ident.to_be_bytes();
            let [s0, s1] = seq_no.to_be_bytes();
            [128, 0, c0, c1, i0, i1, s0, s1]
        }
        Icmpv6Repr::EchoReply { ident, seq_no } => {
            let [i0, i1] = ident.to_be_bytes();
            let [s0, s1] = seq_no.to_be_bytes();
            [129, 0, c0, c1, i0, i1, s0, s1]
        }
        Icmpv6Repr::DstUnreachable { reason, .. } => [1, reason.number(), c0, c1, 0, 0, 0, 0],
        Icmpv6Repr::PktTooBig { mtu, .. } => {
            let [m0, m1, m2, m3] = mtu.to_be_bytes();
            [2, 0, c0, c1, m0, m1, m2, m3]
        }
        Icmpv6Repr::TimeExceeded { code, .. } => [3, *code, c0, c1, 0, 0, 0, 0],
        Icmpv6Repr::ParamProblem {
            reason,
            pointer,
            ..
        } => {
            let [p0, p1, p2, p3] = pointer.to_be_bytes();
            [4, reason.number(), c0, c1, p0, p1, p2, p3]
        }
        Icmpv6Repr::Ndisc(message) => {
            let flags = message.flag_octet();
            [message.message_type(), 0, c0, c1, flags, 0, 0, 0]
        }
        Icmpv6Repr::Router(message) => {
            let [r0, r1, r2, r3] = message.rest_of();
            [message.message_type(), 0, c0, c1, r0, r1, r2, r3]
        }
        Icmpv6Repr::Mld(message) => {
            let [r0, r1, r2, r3] = message.rest_of();
            [message.message_type(), 0, c0, c1, r0, r1, r2, r3]
        }
    }
}

/// Appends a message up to its data, as [`Icmpv6Repr::emit_header`] does. Its body, after the first eight octets, is
/// given in two parts of even length. Where the kind of a message is known, this is compiled for that kind alone.
#[inline(always)]
pub fn emit_parts(
    message: &Icmpv6Repr,
    first: &[u8],
    second: &[u8],
    payload: &[u8],
    src: &IpAddress,
    dst: &IpAddress,
    summed: bool,
    out: &mut FrameBuffer,
)
    requires body { first.now ++ second.now ≡ spec.body message.now }
    requires body_len { 8 + length first.now + length second.now ≡ spec.header_len message.now }
    requires first_even { length first.now % 2 ≡ 0 }
    requires second_even { length second.now % 2 ≡ 0 }
    requires fits { spec.header_len message.now + length payload.now < 2 ^ 16 }
    requires room { length out.old + spec.header_len message.now ≤ 1514 }
    ensures items { out.new ++ payload.now ≡ out.old ++ spec.text summed src.now dst.now message.now payload.now }
    ensures len { length out.new ≡ length out.old + spec.header_len message.now }
{
    let sum = if summed {
        sum_of(message, first, second, payload, src, dst)
    } else {
        0
    };
    out.append(&head_with(sum, message));
    out.append(first);
    out.append(second);
}

/// Appends a message as [`emit_parts`] does, by a call: for a message of any kind.
#[inline(never)]
fn emit_parts_by_call(
    message: &Icmpv6Repr,
    first: &[u8],
    second: &[u8],
    payload: &[u8],
    src: &IpAddress,
    dst: &IpAddress,
    summed: bool,
    out: &mut FrameBuffer,
)
    requires body { first.now ++ second.now ≡ spec.body message.now }
    requires body_len { 8 + length first.now + length second.now ≡ spec.header_len message.now }
    requires first_even { length first.now % 2 ≡ 0 }
    requires second_even { length second.now % 2 ≡ 0 }
    requires fits { spec.header_len message.now + length payload.now < 2 ^ 16 }
    requires room { length out.old + spec.header_len message.now ≤ 1514 }
    ensures items { out.new ++ payload.now ≡ out.old ++ spec.text summed src.now dst.now message.now payload.now }
    ensures len { length out.new ≡ length out.old + spec.header_len message.now }
{
    emit_parts(message, first, second, payload, src, dst, summed, out);
}

/// The checksum of a message whose body has these two parts.
#[inline(always)]
fn sum_of(
    message: &Icmpv6Repr,
    first: &[u8],
    second: &[u8],
    payload: &[u8],
    src: &IpAddress,
    dst: &IpAddress,
) -> u16
    requires body { first.now ++ second.now ≡ spec.body message.now }
    requires body_len { 8 + length first.now + length second.now ≡ spec.header_len message.now }
    requires first_even { length first.now % 2 ≡ 0 }
    requires second_even { length second.now % 2 ≡ 0 }
    requires fits { spec.header_len message.now + length payload.now < 2 ^ 16 }
    ensures { result ≡ spec.sum_of true src.now dst.now message.now payload.now }
{
    let len = (message.header_len() + payload.len()) as u16;
    let start = pseudo_header_sum(src, dst, len);
    let head = part_sum(&head_with(0, message));
    let body = part_sum(first) + part_sum(second);
    0xffff - sum_with(start + head + body, payload)
}

/// Parses octets that are [sound](is_sound) as a message, by its type. Returns it and its data. `None` exactly if
/// [`Icmpv6Repr::parse`] returns none for them.
#[inline(always)]
pub fn parse_sound(octets: &[u8]) -> Option<(Icmpv6Repr, &[u8])>
    requires { 8 ≤ length octets.now }
    ensures { SomeIff (option_map spec.parts result) (spec.IsBody octets.now) (spec.icmpv6_in octets.now) }
{
    let ident = u16_at(octets, 4);
    let seq_no = u16_at(octets, 6);
    match (octets[0], octets[1]) {
        (128, 0) => Some((Icmpv6Repr::EchoRequest { ident, seq_no }, &octets[8..])),
        (129, 0) => Some((Icmpv6Repr::EchoReply { ident, seq_no }, &octets[8..])),
        (1..=4, _) => parse_error(octets),
        (135 | 136, _) => {
            let message = NdiscRepr::parse(octets)?;
            Some((Icmpv6Repr::Ndisc(message), &octets[octets.len()..]))
        }
        (133 | 134, _) => {
            let message = RouterRepr::parse(octets)?;
            Some((Icmpv6Repr::Router(message), &octets[octets.len()..]))
        }
        (130 | 143, _) => {
            let (message, data) = MldRepr::parse(octets)?;
            Some((Icmpv6Repr::Mld(message), data))
        }
        _ => None,
    }
}

/// Parses an error by its type. Returns it and its data.
#[inline(always)]
fn parse_error(octets: &[u8]) -> Option<(Icmpv6Repr, &[u8])>
    requires long { 8 ≤ length octets.now }
    ensures { SomeIff (option_map spec.parts result) (spec.IsError octets.now) (spec.error_in octets.now) }
{
    let (header, data) = Ipv6Repr::parse_quoted(&octets[8..])?;
    let code = octets[1];
    let repr = match octets[0] {
        1 => Icmpv6Repr::DstUnreachable {
            reason: Icmpv6DstUnreachable::from_number(code),
            header,
        },
        2 => Icmpv6Repr::PktTooBig {
            mtu: u32_at(octets, 4),
            header,
        },
        3 => Icmpv6Repr::TimeExceeded { code, header },
        4 => Icmpv6Repr::ParamProblem {
            reason: Icmpv6ParamProblem::from_number(code),
            pointer: u32_at(octets, 4),
            header,
        },
        _ => return None,
    };
    Some((repr, data))
}

/// A message that is emitted is parsed back.
pub fn read_again()
    ensures { spec.ReadAgain }
{}
