//! The neighbour messages: solicitation and advertisement (RFC 4861 4.3, 4.4).
ghost use Rattle.std.specs.Prelude.{⊤, ◌≡◌, ◌+◌, ◌≤◌, [], ◌∷◌, length, codes};
ghost use Rattle.std.specs.Option.{SomeIff};
ghost use Rattle.ip_wire.specs.Ipv6Packet.{address_text};
ghost use Rattle.control_wire.specs.Ndisc as spec;

use crate::ndisc_option::{NdiscOptionType, lladdr_option, parse_lladdr};
use bitflags::{Flag, Flags, bitflag_items};
use ip_address::{EthernetAddress, Ipv6Address};
use ip_wire::ipv6_packet::{address_at, address_octets};

/// The flags of a neighbour advertisement.
#[derive(Clone, Copy, Debug, PartialEq, Eq)]
pub struct NdiscNeighborFlags(u8);

bitflag_items! {
    impl NdiscNeighborFlags: u8 {
        /// The sender is a router.
        const ROUTER = 0x80;
        /// The advertisement answers a solicitation.
        const SOLICITED = 0x40;
        /// The link-layer address overrides a known one.
        const OVERRIDE = 0x20;
    }
}

impl Flags for NdiscNeighborFlags {
    type Bits = u8;

    ghost exact = { ⊤ };

    ghost table = { (codes "ROUTER", 0x80) ∷ (codes "SOLICITED", 0x40) ∷ (codes "OVERRIDE", 0x20) ∷ [] };

    ghost set_of = { λ flags. flags.0 };

    fn flags<'a>() -> &'a [Flag<NdiscNeighborFlags>] {
        NdiscNeighborFlags::FLAGS
    }

    fn bits(&self) -> u8 {
        self.0
    }

    fn from_bits_retain(bits: u8) -> NdiscNeighborFlags {
        NdiscNeighborFlags(bits)
    }
}

/// The values of a neighbour message.
#[derive(Clone, Copy, Debug, PartialEq, Eq)]
pub enum NdiscRepr {
    NeighborSolicit {
        /// The address whose link-layer address is asked for.
        target_addr: Ipv6Address,
        /// The sender's link-layer address.
        lladdr: Option<EthernetAddress>,
    },
    NeighborAdvert {
        flags: NdiscNeighborFlags,
        /// The address whose link-layer address is advertised.
        target_addr: Ipv6Address,
        /// The target's link-layer address.
        lladdr: Option<EthernetAddress>,
    },
}

impl NdiscRepr {
    /// Parses the octets of an ICMPv6 message as a neighbour message. Its checksum isn't verified.
    ///
    /// `None` exactly if there are fewer than 24 octets, if they are neither a solicitation nor an advertisement, if
    /// the code isn't 0, or if what follows the target isn't options ([`parse_lladdr`]). Bits of an advertisement that
    /// aren't flags are ignored.
    pub fn parse(message: &[u8]) -> Option<NdiscRepr>
        ensures { SomeIff result (spec.IsNdisc message.now) (spec.ndisc_in message.now) }
    {
        if message.len() < 24 || message[1] != 0 {
            return None;
        }
        let target_addr = address_at(message, 8);
        match message[0] {
            135 => {
                let lladdr = parse_lladdr(&message[24..], NdiscOptionType::SourceLinkLayerAddr)?;
                Some(NdiscRepr::NeighborSolicit {
                    target_addr,
                    lladdr,
                })
            }
            136 => {
                let flags = flags_of(message[4]);
                let lladdr = parse_lladdr(&message[24..], NdiscOptionType::TargetLinkLayerAddr)?;
                Some(NdiscRepr::NeighborAdvert {
                    flags,
                    target_addr,
                    lladdr,
                })
            }
            _ => None,
        }
    }

    /// The type of the message.
    #[inline(always)]
    pub(crate) const fn message_type(&self) -> u8
        ensures { result ≡ spec.type_of self.now }
    {
        match self {
            NdiscRepr::NeighborSolicit { .. } => 135,
            NdiscRepr::NeighborAdvert { .. } => 136,
        }
    }

    /// The length of the message, in octets.
    #[inline(always)]
    pub(crate) const fn message_len(&self) -> usize
        ensures value { result ≡ spec.message_len self.now }
        ensures small { result ≤ 32 }
    {
        match self {
            NdiscRepr::NeighborSolicit { lladdr: None, .. }
            | NdiscRepr::NeighborAdvert { lladdr: None, .. } => 24,
            NdiscRepr::NeighborSolicit { .. } | NdiscRepr::NeighborAdvert { .. } => 32,
        }
    }

    /// The octet after the checksum: the flags of an advertisement, otherwise 0.
    #[inline(always)]
    pub(crate) fn flag_octet(&self) -> u8
        ensures { result ≡ spec.flag_octet self.now }
    {
        match self {
            NdiscRepr::NeighborSolicit { .. } => 0,
            NdiscRepr::NeighborAdvert { flags, .. } => flags.bits() & 0xe0,
        }
    }

    /// The sixteen octets of the target's address.
    #[inline(always)]
    pub(crate) fn target_octets(&self) -> [u8; 16]
        ensures { result ≡ address_text (spec.target_of self.now) }
    {
        match self {
            NdiscRepr::NeighborSolicit { target_addr, .. }
            | NdiscRepr::NeighborAdvert { target_addr, .. } => address_octets(target_addr),
        }
    }

    /// The eight octets of the option with the link-layer address, if there is one.
    #[inline(always)]
    pub(crate) fn option_octets(&self) -> Option<[u8; 8]>
        ensures value { spec.option_octets result ≡ spec.option_text self.now }
        ensures len { 24 + length (spec.option_octets result) ≡ spec.message_len self.now }
    {
        match self {
            NdiscRepr::NeighborSolicit {
                lladdr: Some(address),
                ..
            } => Some(lladdr_option(NdiscOptionType::SourceLinkLayerAddr, address)),
            NdiscRepr::NeighborAdvert {
                lladdr: Some(address),
                ..
            } => Some(lladdr_option(NdiscOptionType::TargetLinkLayerAddr, address)),
            NdiscRepr::NeighborSolicit { lladdr: None, .. }
            | NdiscRepr::NeighborAdvert { lladdr: None, .. } => None,
        }
    }
}

/// The flags in an octet, without its other bits.
#[inline(always)]
#[tactic(auto, unfolding(bitflags::specs::Sets::known_from))]
fn flags_of(octet: u8) -> NdiscNeighborFlags
    ensures { result.0 ≡ spec.flags_of octet }
{
    NdiscNeighborFlags::from_bits_truncate(octet)
}

/// The link-layer address of a message, if there is one, has six octets.
pub fn link_layer_addrs_are_six()
    ensures { spec.LinkLayerAddrsAreSix }
{}
