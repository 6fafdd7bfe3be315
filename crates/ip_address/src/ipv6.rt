//! IPv6 addresses (RFC 4291).
ghost use Rattle.std.specs.Prelude.{◌≡◌, ◌+◌, ◌*◌, ◌^◌, ◌≤◌, IfSome, IfNone};
ghost use Rattle.std.specs.Int.{w128, to_be_bytes};
ghost use Rattle.ip_address.specs.Ipv6 as spec;
ghost use Rattle.ip_address.specs.Details.Ipv6Text as text;
ghost use Rattle.ip_address.specs.Details.Ipv6Text.{HasNoRun, IsShortened};
ghost use Rattle.ip_address.specs.Prefixes.{common_bits};

use crate::ipv4::Ipv4Address;
use std::fmt;

/// An IPv6 address, as the big-endian number of its sixteen octets.
#[derive(Clone, Copy, Debug, PartialEq, Eq, PartialOrd, Ord, Hash)]
pub struct Ipv6Address {
    /// The number.
    pub bits: u128,
}

impl Ipv6Address {
    /// The unspecified address, ::.
    pub const UNSPECIFIED: Ipv6Address = Ipv6Address { bits: 0 };

    /// The loopback address, ::1.
    pub const LOCALHOST: Ipv6Address = Ipv6Address { bits: 1 };

    /// The all-nodes group of a link, ff02::1 (RFC 4291 2.7.1).
    pub const LINK_LOCAL_ALL_NODES: Ipv6Address = Ipv6Address {
        bits: 0xff02_0000_0000_0000_0000_0000_0000_0001,
    };

    /// The all-routers group of a link, ff02::2 (RFC 4291 2.7.1).
    pub const LINK_LOCAL_ALL_ROUTERS: Ipv6Address = Ipv6Address {
        bits: 0xff02_0000_0000_0000_0000_0000_0000_0002,
    };

    /// The group of a link's MLDv2 routers, ff02::16 (RFC 3810 5.2.14).
    pub const LINK_LOCAL_ALL_MLDV2_ROUTERS: Ipv6Address = Ipv6Address {
        bits: 0xff02_0000_0000_0000_0000_0000_0000_0016,
    };

    /// The address of eight groups of 16 bits, as it is written: `Ipv6Address::new(0xfe80, 0, 0, 0, 0, 0, 0, 1)`
    /// is fe80::1.
    #[allow(clippy::too_many_arguments)]
    pub const fn new(a: u16, b: u16, c: u16, d: u16, e: u16, f: u16, g: u16, h: u16) -> Ipv6Address
        ensures { result ≡ spec.address_of a b c d e f g h }
    {
        Ipv6Address {
            bits: (four_groups(a, b, c, d) as u128) * (1 << 64) + four_groups(e, f, g, h) as u128,
        }
    }

    /// Its sixteen octets, the first one first.
    pub const fn octets(self) -> [u8; 16]
        ensures { result ≡ to_be_bytes w128 self.bits }
    {
        self.bits.to_be_bytes()
    }

    /// Whether the address is ::.
    pub const fn is_unspecified(&self) -> bool
        ensures { result ≡ spec.is_unspecified self.now }
    {
        self.bits == 0
    }

    /// Whether the address is the loopback address, ::1.
    pub const fn is_loopback(&self) -> bool
        ensures { result ≡ spec.is_loopback self.now }
    {
        self.bits == Ipv6Address::LOCALHOST.bits
    }

    /// Whether the address is multicast: in ff00::/8.
    pub const fn is_multicast(&self) -> bool
        ensures { result ≡ spec.is_multicast self.now }
    {
        self.bits >> 120 == 255
    }

    /// Whether the address is link-local: in fe80::/10.
    pub const fn is_link_local(&self) -> bool
        ensures { result ≡ spec.is_link_local self.now }
    {
        self.bits >> 118 == 0x3fa
    }

    /// Whether the address is unicast: neither multicast nor ::.
    pub const fn is_unicast(&self) -> bool
        ensures { result ≡ spec.is_unicast self.now }
    {
        !(self.is_multicast() || self.is_unspecified())
    }

    /// The solicited-node group of the address, in which its host is asked for its hardware address: ff02::1:ff00:0
    /// with the last 24 bits of the address (RFC 4291 2.7.1).
    pub fn solicited_node(&self) -> Ipv6Address
        ensures { result ≡ spec.solicited_node self.now }
    {
        Ipv6Address {
            bits: 0xff02_0000_0000_0000_0000_0001_ff00_0000 + self.bits % 0x100_0000,
        }
    }

    /// The scope of the address: for multicast the low four bits of its second octet, 2 for ::1 and for link-local
    /// addresses, otherwise 14 (RFC 6724 3.1).
    pub fn scope(&self) -> u8
        ensures { result ≡ spec.scope_of self.now }
    {
        if self.is_multicast() {
            (self.bits >> 112 & 15) as u8
        } else if self.is_loopback() || self.is_link_local() {
            2
        } else {
            14
        }
    }

    /// The number of leading bits that two addresses share, at most `most` of the 128.
    #[tactic(auto, using(crate::proofs::CommonBits::common))]
    pub fn common_prefix_len(&self, other: &Ipv6Address, most: u8) -> u8
        requires { most ≤ 128 }
        ensures { result ≡ common_bits 128 self.now.bits other.now.bits most }
    {
        ((self.bits ^ other.bits).leading_zeros() as u8).min(most)
    }
}

impl Default for Ipv6Address {
    fn default() -> Ipv6Address
        ensures { result ≡ record { bits = 0 } }
    {
        Ipv6Address::UNSPECIFIED
    }
}

// The number of four groups of 16 bits, the first one highest.
const fn four_groups(a: u16, b: u16, c: u16, d: u16) -> u64
    ensures { result ≡ a * 2 ^ 48 + b * 2 ^ 32 + c * 2 ^ 16 + d }
{
    (a as u64) * (1 << 48) + (b as u64) * (1 << 32) + (c as u64) * (1 << 16) + d as u64
}

// The eight groups of 16 bits, the first one first.
fn groups_of(address: &Ipv6Address) -> [u16; 8]
    ensures { result ≡ text.groups_of address.now }
{
    let bits = address.bits;
    [
        (bits >> 112) as u16,
        (bits >> 96 & 0xffff) as u16,
        (bits >> 80 & 0xffff) as u16,
        (bits >> 64 & 0xffff) as u16,
        (bits >> 48 & 0xffff) as u16,
        (bits >> 32 & 0xffff) as u16,
        (bits >> 16 & 0xffff) as u16,
        (bits & 0xffff) as u16,
    ]
}

// The longest run of two groups or more that are 0, the first one of several: where it starts, and its number of
// groups (RFC 5952 4.2).
fn longest_run(groups: &[u16; 8]) -> Option<(usize, usize)>
    ensures run { IfSome result (λ run. IsShortened groups.now run.0 run.1) }
    ensures none { IfNone result (HasNoRun groups.now) }
{
    let (mut start, mut len) = (0, 0);
    let mut from = 0;
    for i in 0..8 {
        if groups[i] != 0 {
            from = i + 1;
        } else if len + from <= i {
            (start, len) = (from, i + 1 - from);
        }
    }
    let is_run = len >= 2;
    if is_run { Some((start, len)) } else { None }
}

// Writes groups in hexadecimal, with colons between them.
fn write_groups<W: fmt::Write>(f: &mut fmt::Formatter<W>, groups: &[u16]) -> fmt::Result {
    for (i, group) in groups.iter().enumerate() {
        if i > 0 {
            f.write_str(":")?;
        }
        write!(f, "{group:x}")?;
    }
    Ok(())
}

impl fmt::Display for Ipv6Address {
    /// The form of RFC 5952: groups in lower case without leading zeros, with the longest run of at least two groups
    /// that are 0 as two colons. The last 32 bits of ::ffff:0:0/96 are written as an IPv4 address.
    fn fmt<W: fmt::Write>(&self, f: &mut fmt::Formatter<W>) -> fmt::Result {
        if self.bits >> 32 == 0xffff {
            let bits = (self.bits & 0xffff_ffff) as u32;
            return write!(f, "::ffff:{}", Ipv4Address { bits });
        }
        let groups = groups_of(self);
        let Some((start, len)) = longest_run(&groups) else {
            return write_groups(f, &groups);
        };
        write_groups(f, &groups[..start])?;
        f.write_str("::")?;
        write_groups(f, &groups[start + len..])
    }
}
