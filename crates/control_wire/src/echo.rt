//! ICMPv6 echo requests whose checksum was verified: the checksums of their replies are derived from it.
ghost use Rattle.std.specs.Prelude.{◌≡◌, ◌+◌, ◌≤◌, ◌<◌, ◌%◌, ◌^◌, ◌++◌, drop, length, true};
ghost use Rattle.ip_wire.specs.Checksum.{word_sum};
ghost use Rattle.ip_wire.specs.Octets.{u16_at};
ghost use Rattle.control_wire.specs.Icmpv6.{IsEchoRequest, echo_reply_to};
ghost use Rattle.control_wire.specs.Icmpv6 as spec;

use crate::icmpv6::{HEADER_LEN, Icmpv6Repr, head_with, pseudo_header_sum};
use ip_address::IpAddress;
use ip_wire::checksum::fold;
use ip_wire::emit::FrameBuffer;
use ip_wire::octets::u16_at;

/// An echo request whose checksum was verified, so that the reply's can be derived from it, wherever the reply is sent.
#[derive(Clone, Copy)]
pub struct EchoRequest<'p> {
    /// All octets of the message.
    pub octets: &'p [u8],
    /// A number congruent modulo 65,535 to the sum of the words after the checksum.
    pub rest: u16,
    pub ghost whole_header: { 8 ≤ length octets.now },
    pub ghost short: { length octets.now < 2 ^ 16 },
    pub ghost leaves: { rest % 65535 ≡ word_sum (drop 4 octets.now) % 65535 },
}

impl<'p> EchoRequest<'p> {
    /// The echo request in these octets, received between these addresses.
    #[inline(always)]
    pub fn new(octets: &'p [u8], src: &IpAddress, dst: &IpAddress) -> EchoRequest<'p>
        requires request { IsEchoRequest src.now dst.now octets.now }
        requires short { length octets.now < 2 ^ 16 }
        ensures { result.octets.now ≡ octets.now }
    {
        let start = pseudo_header_sum(src, dst, octets.len() as u16);
        let sum = u16_at(octets, 2);
        let rest = 0xffff - fold(start + 0x8000 + u64::from(sum));
        EchoRequest { octets, rest }
    }
}

impl EchoRequest<'_> {
    /// The data, which is also the reply's.
    #[inline(always)]
    pub fn payload(&self) -> &[u8]
        ensures { result.now ≡ drop 8 self.now.octets.now }
    {
        &self.octets[HEADER_LEN..]
    }

    /// Appends the reply up to its data: the request's identifier and sequence number. `src` and `dst` are the
    /// addresses of the packet that carries it. The checksum, 0 unless `summed`, is derived from the request's.
    #[inline(always)]
    pub fn emit_reply_header(
        &self,
        src: &IpAddress,
        dst: &IpAddress,
        summed: bool,
        out: &mut FrameBuffer,
    )
        requires room { length out.old + 8 ≤ 1514 }
        ensures items { out.new ++ drop 8 self.now.octets.now ≡ out.old
            ++ spec.text summed src.now dst.now (echo_reply_to self.now.octets.now) (drop 8 self.now.octets.now) }
        ensures len { length out.new ≡ length out.old + 8 }
    {
        let reply = Icmpv6Repr::EchoReply {
            ident: u16_at(self.octets, 4),
            seq_no: u16_at(self.octets, 6),
        };
        let sum = if summed { reply_sum(self, src, dst) } else { 0 };
        out.append(&head_with(sum, &reply));
    }
}

/// The checksum of the reply, which differs from the request in the word of the type.
#[inline(always)]
fn reply_sum(request: &EchoRequest<'_>, src: &IpAddress, dst: &IpAddress) -> u16
    requires whole_header { 8 ≤ length request.now.octets.now }
    requires leaves { request.now.rest % 65535 ≡ word_sum (drop 4 request.now.octets.now) % 65535 }
    requires ident { u16_at request.now.octets.now 4 < 2 ^ 16 }
    requires seq_no { u16_at request.now.octets.now 6 < 2 ^ 16 }
    ensures { result
        ≡ spec.sum_of true src.now dst.now (echo_reply_to request.now.octets.now) (drop 8 request.now.octets.now) }
{
    let start = pseudo_header_sum(src, dst, request.octets.len() as u16);
    0xffff - fold(start + 0x8100 + u64::from(request.rest))
}
