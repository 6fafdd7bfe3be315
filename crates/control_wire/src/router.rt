//! Router discovery messages: router solicitation and advertisement (RFC 4861 4.1, 4.2).
ghost use Rattle.std.specs.Prelude.{⊤, ◌≡◌, ◌+◌, ◌%◌, ◌≤◌, [], ◌∷◌, ◌++◌, length, slice_index, codes};
ghost use Rattle.std.specs.Option.{SomeIff};
ghost use Rattle.control_wire.specs.Ndisc.{lladdr_option};
ghost use Rattle.control_wire.specs.PrefixInformation as prefixes;
ghost use Rattle.control_wire.specs.Router as spec;

use crate::ndisc_option::{NdiscOptionType, lladdr_option, parse_lladdr};
use crate::prefix_information::{NdiscPrefixInformation, parse_prefix, prefix_option};
use arrayvec::ArrayVec;
use bitflags::{Flag, Flags, bitflag_items};
use ip_address::EthernetAddress;
use ip_wire::octets::u16_at;

/// The maximum number of octets after the first eight of a message.
const BODY_LEN: usize = 48;

/// What hosts may get by DHCPv6.
#[derive(Clone, Copy, Debug, PartialEq, Eq)]
pub struct NdiscRouterFlags(u8);

bitflag_items! {
    impl NdiscRouterFlags: u8 {
        /// Addresses.
        const MANAGED = 0x80;
        /// Other configuration.
        const OTHER = 0x40;
    }
}

impl Flags for NdiscRouterFlags {
    type Bits = u8;

    ghost exact = { ⊤ };

    ghost table = { (codes "MANAGED", 0x80) ∷ (codes "OTHER", 0x40) ∷ [] };

    ghost set_of = { λ flags. flags.0 };

    fn flags<'a>() -> &'a [Flag<NdiscRouterFlags>] {
        NdiscRouterFlags::FLAGS
    }

    fn bits(&self) -> u8 {
        self.0
    }

    fn from_bits_retain(bits: u8) -> NdiscRouterFlags {
        NdiscRouterFlags(bits)
    }
}

/// The values of a router discovery message.
#[derive(Clone, Copy, Debug, PartialEq, Eq)]
pub enum RouterRepr {
    RouterSolicit {
        /// The sender's link-layer address.
        lladdr: Option<EthernetAddress>,
    },
    RouterAdvert {
        /// The hop limit that hosts should use; 0 if the router doesn't specify it.
        hop_limit: u8,
        flags: NdiscRouterFlags,
        /// The router's lifetime as a default router, in seconds; 0 withdraws it.
        router_lifetime: u16,
        /// The router's link-layer address.
        lladdr: Option<EthernetAddress>,
        /// A prefix of the link.
        prefix_info: Option<NdiscPrefixInformation>,
    },
}

impl RouterRepr {
    /// Parses the octets of an ICMPv6 message as a router discovery message. Its checksum isn't verified.
    ///
    /// `None` exactly if they are neither a solicitation, of at least 8 octets, nor an advertisement, of at least 16,
    /// if the code isn't 0, or if what follows isn't options ([`parse_lladdr`]). An advertisement's reachable time and
    /// retransmission timer are ignored, and so are bits that aren't flags.
    pub fn parse(message: &[u8]) -> Option<RouterRepr>
        ensures { SomeIff result (spec.IsRouter message.now) (spec.router_in message.now) }
    {
        if message.len() < 8 || message[1] != 0 {
            return None;
        }
        match message[0] {
            133 => {
                let lladdr = parse_lladdr(&message[8..], NdiscOptionType::SourceLinkLayerAddr)?;
                Some(RouterRepr::RouterSolicit { lladdr })
            }
            134 => parse_advert(message),
            _ => None,
        }
    }

    /// The type of the message.
    pub(crate) const fn message_type(&self) -> u8
        ensures { result ≡ spec.type_of self.now }
    {
        match self {
            RouterRepr::RouterSolicit { .. } => 133,
            RouterRepr::RouterAdvert { .. } => 134,
        }
    }

    /// The length of the message, in octets.
    pub(crate) const fn message_len(&self) -> usize
        ensures value { result ≡ spec.message_len self.now }
        ensures small { result ≤ 56 }
    {
        match self {
            RouterRepr::RouterSolicit { lladdr } => 8 + lladdr_len(lladdr),
            RouterRepr::RouterAdvert {
                lladdr,
                prefix_info,
                ..
            } => 16 + lladdr_len(lladdr) + prefix_len(prefix_info),
        }
    }

    /// The four octets after the checksum.
    pub(crate) fn rest_of(&self) -> [u8; 4]
        ensures { result ≡ spec.rest_of self.now }
    {
        match self {
            RouterRepr::RouterSolicit { .. } => [0; 4],
            RouterRepr::RouterAdvert {
                hop_limit,
                flags,
                router_lifetime,
                ..
            } => {
                let [l0, l1] = router_lifetime.to_be_bytes();
                [*hop_limit, flags.bits() & 0xc0, l0, l1]
            }
        }
    }

    /// The octets after the first eight. The two times of an advertisement are unspecified.
    pub(crate) fn body_octets(&self) -> ArrayVec<u8, BODY_LEN>
        ensures value { result.items ≡ spec.body self.now }
        ensures len { 8 + length result.items ≡ spec.message_len self.now }
        ensures even { length result.items % 2 ≡ 0 }
    {
        let mut body = ArrayVec::new();
        match self {
            RouterRepr::RouterSolicit { lladdr } => append_lladdr(&mut body, lladdr),
            RouterRepr::RouterAdvert {
                lladdr,
                prefix_info,
                ..
            } => {
                let _ = body.try_extend_from_slice(&[0; 8]);
                append_lladdr(&mut body, lladdr);
                append_prefix(&mut body, prefix_info);
            }
        }
        body
    }
}

/// Parses an advertisement, if the octets are one.
fn parse_advert(message: &[u8]) -> Option<RouterRepr>
    requires kind { slice_index message.now 0 ≡ 134 }
    requires code { slice_index message.now 1 ≡ 0 }
    ensures { SomeIff result (spec.IsAdvertisement message.now) (spec.advert_in message.now) }
{
    if message.len() < 16 {
        return None;
    }
    let options = &message[16..];
    let lladdr = parse_lladdr(options, NdiscOptionType::SourceLinkLayerAddr)?;
    let prefix_info = parse_prefix(options)?;
    Some(RouterRepr::RouterAdvert {
        hop_limit: message[4],
        flags: flags_of(message[5]),
        router_lifetime: u16_at(message, 6),
        lladdr,
        prefix_info,
    })
}

/// Appends the option with the sender's link-layer address, if there is one.
fn append_lladdr(body: &mut ArrayVec<u8, BODY_LEN>, lladdr: &Option<EthernetAddress>)
    requires { length body.old.items ≤ 8 }
    ensures items { body.new.items ≡ body.old.items ++ lladdr_option 1 lladdr.now }
    ensures len { length body.new.items ≡ length body.old.items + spec.lladdr_len lladdr.now }
{
    if let Some(address) = lladdr {
        let option = lladdr_option(NdiscOptionType::SourceLinkLayerAddr, address);
        let _ = body.try_extend_from_slice(&option);
    }
}

/// Appends the option with a prefix, if there is one.
fn append_prefix(body: &mut ArrayVec<u8, BODY_LEN>, prefix: &Option<NdiscPrefixInformation>)
    requires { length body.old.items ≤ 16 }
    ensures items { body.new.items ≡ body.old.items ++ prefixes.prefix_option prefix.now }
    ensures len { length body.new.items ≡ length body.old.items + prefixes.prefix_len prefix.now }
{
    if let Some(prefix) = prefix {
        let _ = body.try_extend_from_slice(&prefix_option(prefix));
    }
}

/// The length of the option with a link-layer address; 0 if there is none.
const fn lladdr_len(lladdr: &Option<EthernetAddress>) -> usize
    ensures { result ≡ spec.lladdr_len lladdr.now }
{
    match lladdr {
        Some(_) => 8,
        None => 0,
    }
}

/// The length of the option with a prefix; 0 if there is none.
const fn prefix_len(prefix: &Option<NdiscPrefixInformation>) -> usize
    ensures { result ≡ prefixes.prefix_len prefix.now }
{
    match prefix {
        Some(_) => 32,
        None => 0,
    }
}

/// The flags in an octet, without its other bits.
#[inline(always)]
#[tactic(auto, unfolding(bitflags::specs::Sets::known_from))]
fn flags_of(octet: u8) -> NdiscRouterFlags
    ensures { result.0 ≡ spec.flags_of octet }
{
    NdiscRouterFlags::from_bits_truncate(octet)
}
