//! The Prefix Information option of router advertisements (RFC 4861 4.6.2).
ghost use Rattle.std.specs.Prelude.{⊤, ◌≡◌, ◌≤◌, [], ◌∷◌, length, codes};
ghost use Rattle.std.specs.Option.{SomeIff};
ghost use Rattle.control_wire.specs.NdiscOption.{AreOptions};
ghost use Rattle.control_wire.specs.PrefixInformation as spec;

use crate::ndisc_option::after_option;
use bitflags::{Flag, Flags, bitflag_items};
use ip_address::Ipv6Address;
use ip_wire::ipv6_packet::address_at;
use ip_wire::octets::u32_at;

/// The flags of a prefix.
#[derive(Clone, Copy, Debug, PartialEq, Eq)]
pub struct NdiscPrefixInfoFlags(u8);

bitflag_items! {
    impl NdiscPrefixInfoFlags: u8 {
        /// The addresses of the prefix are on the link.
        const ON_LINK = 0x80;
        /// Hosts may form addresses from the prefix.
        const ADDRCONF = 0x40;
    }
}

impl Flags for NdiscPrefixInfoFlags {
    type Bits = u8;

    ghost exact = { ⊤ };

    ghost table = { (codes "ON_LINK", 0x80) ∷ (codes "ADDRCONF", 0x40) ∷ [] };

    ghost set_of = { λ flags. flags.0 };

    fn flags<'a>() -> &'a [Flag<NdiscPrefixInfoFlags>] {
        NdiscPrefixInfoFlags::FLAGS
    }

    fn bits(&self) -> u8 {
        self.0
    }

    fn from_bits_retain(bits: u8) -> NdiscPrefixInfoFlags {
        NdiscPrefixInfoFlags(bits)
    }
}

/// A prefix, with its flags and its lifetimes.
#[derive(Clone, Copy, Debug, PartialEq, Eq)]
pub struct NdiscPrefixInformation {
    /// The prefix length in bits, as received: it may be above 128.
    pub prefix_len: u8,
    pub flags: NdiscPrefixInfoFlags,
    /// The valid lifetime, in seconds. Zero withdraws the prefix.
    pub valid_lifetime: u32,
    /// The preferred lifetime, in seconds.
    pub preferred_lifetime: u32,
    pub prefix: Ipv6Address,
}

impl NdiscPrefixInformation {
    /// Whether the preferred lifetime is at most the valid lifetime (RFC 4862 5.5.3).
    pub fn is_valid_prefix_info(&self) -> bool
        ensures { result ≡ spec.is_valid_prefix_info self.now }
    {
        self.preferred_lifetime <= self.valid_lifetime
    }
}

/// The prefix in the last option that carries one, if there is such an option. The octets are all options of a message.
///
/// `None` exactly if [`parse_lladdr`](crate::ndisc_option::parse_lladdr) returns it for them.
pub fn parse_prefix(octets: &[u8]) -> Option<Option<NdiscPrefixInformation>>
    ensures { SomeIff result (AreOptions octets.now) (spec.prefix_in octets.now) }
{
    let mut rest = octets;
    let mut found = None;
    while !rest.is_empty() {
        let after = after_option(rest)?;
        if rest[0] == 3 {
            found = Some(prefix_at(rest));
        }
        rest = after;
    }
    Some(found)
}

/// The prefix in the option that the octets begin with.
#[inline(always)]
fn prefix_at(octets: &[u8]) -> NdiscPrefixInformation
    requires { 32 ≤ length octets.now }
    ensures { result ≡ spec.prefix_at octets.now }
{
    NdiscPrefixInformation {
        prefix_len: octets[2],
        flags: flags_of(octets[3]),
        valid_lifetime: u32_at(octets, 4),
        preferred_lifetime: u32_at(octets, 8),
        prefix: address_at(octets, 16),
    }
}

/// The 32 octets of an option with a prefix.
#[tactic(auto, unfolding(crate::specs::PrefixInformation::prefix_text, ip_wire::specs::Ipv6Packet::address_text))]
pub fn prefix_option(prefix: &NdiscPrefixInformation) -> [u8; 32]
    ensures { result ≡ spec.prefix_text prefix.now }
{
    let mut octets = [0; 32];
    octets[0] = 3;
    octets[1] = 4;
    octets[2] = prefix.prefix_len;
    octets[3] = prefix.flags.bits() & 0xc0;
    octets[4..8].copy_from_slice(&prefix.valid_lifetime.to_be_bytes());
    octets[8..12].copy_from_slice(&prefix.preferred_lifetime.to_be_bytes());
    octets[16..].copy_from_slice(&prefix.prefix.bits.to_be_bytes());
    octets
}

/// The flags in an octet, without its other bits.
#[inline(always)]
#[tactic(auto, unfolding(bitflags::specs::Sets::known_from))]
fn flags_of(octet: u8) -> NdiscPrefixInfoFlags
    ensures { result.0 ≡ spec.flags_of octet }
{
    NdiscPrefixInfoFlags::from_bits_truncate(octet)
}
