//! IPv4 addresses (RFC 791, RFC 1122).
ghost use Rattle.std.specs.Prelude.{◌≡◌, ◌≤◌};
ghost use Rattle.std.specs.Int.{w32, to_be_bytes};
ghost use Rattle.ip_address.specs.Ipv4 as spec;
ghost use Rattle.ip_address.specs.Prefixes.{common_bits};

use std::fmt;

/// An IPv4 address, as the big-endian number of its four octets.
#[derive(Clone, Copy, Debug, PartialEq, Eq, PartialOrd, Ord, Hash)]
pub struct Ipv4Address {
    /// The number.
    pub bits: u32,
}

impl Ipv4Address {
    /// The unspecified address, 0.0.0.0.
    pub const UNSPECIFIED: Ipv4Address = Ipv4Address { bits: 0 };

    /// The limited broadcast address, 255.255.255.255.
    pub const BROADCAST: Ipv4Address = Ipv4Address { bits: 0xffff_ffff };

    /// The all-systems group of a link, 224.0.0.1 (RFC 1112 4).
    pub const MULTICAST_ALL_SYSTEMS: Ipv4Address = Ipv4Address { bits: 0xe000_0001 };

    /// The all-routers group of a link, 224.0.0.2 (RFC 2236 9).
    pub const MULTICAST_ALL_ROUTERS: Ipv4Address = Ipv4Address { bits: 0xe000_0002 };

    /// The address with these four octets.
    pub const fn new(a: u8, b: u8, c: u8, d: u8) -> Ipv4Address
        ensures { result ≡ spec.address_of a b c d }
    {
        Ipv4Address {
            bits: u32::from_be_bytes([a, b, c, d]),
        }
    }

    /// Its four octets, the first one first.
    pub const fn octets(self) -> [u8; 4]
        ensures { result ≡ to_be_bytes w32 self.bits }
    {
        self.bits.to_be_bytes()
    }

    /// Whether the address is 0.0.0.0.
    pub const fn is_unspecified(&self) -> bool
        ensures { result ≡ spec.is_unspecified self.now }
    {
        self.bits == 0
    }

    /// Whether the address is 255.255.255.255.
    pub const fn is_broadcast(&self) -> bool
        ensures { result ≡ spec.is_broadcast self.now }
    {
        self.bits == Ipv4Address::BROADCAST.bits
    }

    /// Whether the address is multicast: in 224.0.0.0/4.
    pub const fn is_multicast(&self) -> bool
        ensures { result ≡ spec.is_multicast self.now }
    {
        self.bits >> 28 == 14
    }

    /// Whether the address is unicast: not multicast, not 255.255.255.255, not 0.0.0.0.
    pub const fn is_unicast(&self) -> bool
        ensures { result ≡ spec.is_unicast self.now }
    {
        !(self.is_broadcast() || self.is_multicast() || self.is_unspecified())
    }

    /// The number of leading bits that two addresses share, at most `most` of the 32.
    #[tactic(auto, using(crate::proofs::CommonBits::common))]
    pub fn common_prefix_len(&self, other: &Ipv4Address, most: u8) -> u8
        requires { most ≤ 32 }
        ensures { result ≡ common_bits 32 self.now.bits other.now.bits most }
    {
        ((self.bits ^ other.bits).leading_zeros() as u8).min(most)
    }
}

impl Default for Ipv4Address {
    fn default() -> Ipv4Address
        ensures { result ≡ record { bits = 0 } }
    {
        Ipv4Address::UNSPECIFIED
    }
}

impl fmt::Display for Ipv4Address {
    /// Its four octets in decimal, with dots between them: 192.168.69.1.
    fn fmt<W: fmt::Write>(&self, f: &mut fmt::Formatter<W>) -> fmt::Result {
        let [a, b, c, d] = self.octets();
        write!(f, "{a}.{b}.{c}.{d}")
    }
}
