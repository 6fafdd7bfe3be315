//! Ethernet II frames: destination, source, type, payload.
ghost use Rattle.std.specs.Prelude.{◌≡◌, ◌+◌, ◌≤◌, ◌++◌, length};
ghost use Rattle.std.specs.Option.{SomeIff, option_map};
ghost use Rattle.std.specs.Cmp.Rules.{comparing};
ghost use Rattle.std.proofs.Common.{rules};
ghost use Rattle.ip_wire.specs.Ethernet as spec;

use crate::emit::FrameBuffer;
use crate::octets::u16_at;
use ip_address::EthernetAddress;

/// The length of a frame's header, in octets.
pub const HEADER_LEN: usize = 14;

/// The address in six octets at an offset.
#[inline(always)]
pub(crate) fn address_at(octets: &[u8], at: usize) -> EthernetAddress
    requires { at + 6 ≤ length octets.now }
    ensures { result ≡ spec.address_at octets.now at }
{
    let mut address = [0; 6];
    address.copy_from_slice(&octets[at..at + 6]);
    EthernetAddress(address)
}

/// The type of a frame's payload. Types are equal if their numbers are, so that [`EthernetProtocol::Unknown`] of 0x0800
/// is [`EthernetProtocol::Ipv4`].
#[derive(Clone, Copy, Debug)]
pub enum EthernetProtocol {
    Ipv4,
    Arp,
    Ipv6,
    /// Another type, by its number.
    Unknown(u16),
}

impl EthernetProtocol {
    /// The protocol of a type number.
    #[inline(always)]
    pub const fn from_number(number: u16) -> EthernetProtocol
        ensures { result ≡ spec.protocol_of number }
    {
        match number {
            0x0800 => EthernetProtocol::Ipv4,
            0x0806 => EthernetProtocol::Arp,
            0x86dd => EthernetProtocol::Ipv6,
            other => EthernetProtocol::Unknown(other),
        }
    }

    /// The type number of a protocol.
    #[inline(always)]
    pub const fn number(self) -> u16
        ensures { result ≡ spec.number_of self }
    {
        match self {
            EthernetProtocol::Ipv4 => 0x0800,
            EthernetProtocol::Arp => 0x0806,
            EthernetProtocol::Ipv6 => 0x86dd,
            EthernetProtocol::Unknown(other) => other,
        }
    }
}

/// Equal exactly if the type numbers are.
impl PartialEq for EthernetProtocol {
    ghost eq = { spec.is_same };

    ghost laws = { Prim.search (comparing, rules) };

    fn eq(&self, other: &EthernetProtocol) -> bool {
        self.number() == other.number()
    }
}

impl Eq for EthernetProtocol {
    ghost laws = { Prim.search (comparing, rules) };
}

/// The values of a frame's header.
#[derive(Clone, Copy, Debug, PartialEq, Eq)]
pub struct EthernetRepr {
    pub src_addr: EthernetAddress,
    pub dst_addr: EthernetAddress,
    pub ethertype: EthernetProtocol,
}

impl EthernetRepr {
    /// Parses a frame into its header and its payload. `None` exactly if the frame is shorter than its header of 14
    /// octets.
    pub fn parse(frame: &[u8]) -> Option<(EthernetRepr, &[u8])>
        ensures { SomeIff (option_map spec.parts result) (14 ≤ length frame.now) (spec.ethernet_in frame.now) }
    {
        if frame.len() < HEADER_LEN {
            return None;
        }
        let repr = EthernetRepr {
            src_addr: address_at(frame, 6),
            dst_addr: address_at(frame, 0),
            ethertype: EthernetProtocol::from_number(u16_at(frame, 12)),
        };
        Some((repr, &frame[HEADER_LEN..]))
    }

    /// Appends the header, of 14 octets.
    #[inline(always)]
    pub fn emit(&self, out: &mut FrameBuffer)
        requires { length out.old + 14 ≤ 1514 }
        ensures items { out.new ≡ out.old ++ spec.header_text self.now }
        ensures len { length out.new ≡ length out.old + 14 }
    {
        out.append(&self.dst_addr.0);
        out.append(&self.src_addr.0);
        out.append(&self.ethertype.number().to_be_bytes());
    }
}

/// A header that is emitted is parsed back, whatever follows it.
pub fn read_again()
    ensures { spec.ReadAgain }
{}

/// A frame that is parsed is emitted again: its header, then its payload.
pub fn written_again()
    ensures { spec.WrittenAgain }
{}
