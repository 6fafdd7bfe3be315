//! IP networks: an address and the length of its prefix (RFC 4632, RFC 4291 2.3).
ghost use Rattle.std.specs.Prelude.{◌≡◌, ◌≤◌};
ghost use Rattle.ip_address.specs.Prefixes.{agrees, AgreesByBits};

use crate::ip::IpAddress;
use crate::ipv4::Ipv4Address;
use crate::ipv6::Ipv6Address;
use std::fmt;

/// An IPv4 network, given by one of its addresses and the length of the prefix that all its addresses share.
#[derive(Clone, Copy, Debug, PartialEq, Eq)]
pub struct Ipv4Cidr {
    pub address: Ipv4Address,
    /// The prefix length in bits, at most 32.
    pub prefix_len: u8,
    pub ghost in_range: { prefix_len ≤ 32 },
}

impl Ipv4Cidr {
    ghost use Rattle.std.specs.Prelude.{◌≡◌, ◌≤◌};
    ghost use Rattle.ip_address.specs.Cidr.{contains4, broadcast_of};

    /// The network of an address, with a prefix of at most 32 bits.
    pub fn new(address: Ipv4Address, prefix_len: u8) -> Ipv4Cidr
        requires { prefix_len ≤ 32 }
        ensures address { result.address ≡ address }
        ensures prefix_len { result.prefix_len ≡ prefix_len }
    {
        Ipv4Cidr {
            address,
            prefix_len,
        }
    }

    /// Whether an address is in the network: the bits of the prefix agree.
    pub fn contains_addr(&self, address: &Ipv4Address) -> bool
        ensures { result ≡ contains4 self.now address.now }
    {
        agrees32(self.address.bits, address.bits, self.prefix_len)
    }

    /// The broadcast address of the network, its last one. `None` exactly for a prefix of 31 or 32 bits, since such a
    /// network has no address to spare (RFC 3021).
    #[tactic(auto, using(crate::proofs::LastAddress::last_address))]
    pub fn broadcast(&self) -> Option<Ipv4Address>
        ensures { result ≡ broadcast_of self.now }
    {
        if self.prefix_len >= 31 {
            return None;
        }
        Some(Ipv4Address {
            bits: self.address.bits | (u32::MAX >> self.prefix_len),
        })
    }
}

impl Default for Ipv4Cidr {
    ghost use Rattle.std.specs.Prelude.{◌≡◌};

    fn default() -> Ipv4Cidr
        ensures address { result.address ≡ record { bits = 0 } }
        ensures prefix_len { result.prefix_len ≡ 0 }
    {
        Ipv4Cidr::new(Ipv4Address::UNSPECIFIED, 0)
    }
}

/// An IPv6 network, given by one of its addresses and the length of the prefix that all its addresses share.
#[derive(Clone, Copy, Debug, PartialEq, Eq)]
pub struct Ipv6Cidr {
    pub address: Ipv6Address,
    /// The prefix length in bits, at most 128.
    pub prefix_len: u8,
    pub ghost in_range: { prefix_len ≤ 128 },
}

impl Ipv6Cidr {
    ghost use Rattle.std.specs.Prelude.{◌≡◌, ◌≤◌};
    ghost use Rattle.ip_address.specs.Cidr.{contains6};

    /// The network of an address, with a prefix of at most 128 bits.
    pub fn new(address: Ipv6Address, prefix_len: u8) -> Ipv6Cidr
        requires { prefix_len ≤ 128 }
        ensures address { result.address ≡ address }
        ensures prefix_len { result.prefix_len ≡ prefix_len }
    {
        Ipv6Cidr {
            address,
            prefix_len,
        }
    }

    /// Whether an address is in the network: the bits of the prefix agree.
    pub fn contains_addr(&self, address: &Ipv6Address) -> bool
        ensures { result ≡ contains6 self.now address.now }
    {
        agrees128(self.address.bits, address.bits, self.prefix_len)
    }
}

/// A network of either family.
#[derive(Clone, Copy, Debug, PartialEq, Eq)]
pub enum IpCidr {
    Ipv4(Ipv4Cidr),
    Ipv6(Ipv6Cidr),
}

impl IpCidr {
    ghost use Rattle.std.specs.Prelude.{◌≡◌};
    ghost use Rattle.ip_address.specs.Cidr.{address_of, contains, prefix_len_of};

    /// The address that was given for the network.
    pub const fn address(&self) -> IpAddress
        ensures { result ≡ address_of self.now }
    {
        match self {
            IpCidr::Ipv4(cidr) => IpAddress::Ipv4(cidr.address),
            IpCidr::Ipv6(cidr) => IpAddress::Ipv6(cidr.address),
        }
    }

    /// The length of its prefix, in bits: at most 32, or 128 for IPv6.
    pub const fn prefix_len(&self) -> u8
        ensures { result ≡ prefix_len_of self.now }
    {
        match self {
            IpCidr::Ipv4(cidr) => cidr.prefix_len,
            IpCidr::Ipv6(cidr) => cidr.prefix_len,
        }
    }

    /// Whether an address is of the network's family and in the network.
    pub fn contains_addr(&self, address: &IpAddress) -> bool
        ensures { result ≡ contains self.now address.now }
    {
        match (self, address) {
            (IpCidr::Ipv4(cidr), IpAddress::Ipv4(address)) => cidr.contains_addr(address),
            (IpCidr::Ipv6(cidr), IpAddress::Ipv6(address)) => cidr.contains_addr(address),
            _ => false,
        }
    }
}

impl Default for IpCidr {
    ghost use Rattle.std.specs.Prelude.{◌≡◌, true};
    ghost use Rattle.ip_address.specs.Cidr.{is_whole_ipv4};

    /// The network of all IPv4 addresses, 0.0.0.0/0.
    fn default() -> IpCidr
        ensures { is_whole_ipv4 result ≡ true }
    {
        IpCidr::Ipv4(Ipv4Cidr::default())
    }
}

impl From<Ipv4Cidr> for IpCidr {
    ghost use Rattle.std.specs.Prelude.{◌≡◌};
    ghost use Rattle.ip_address.specs.declared.cidr.IpCidr.TheVariants.{Ipv4};

    ghost from_gives = { λ cidr r. r ≡ Ipv4 cidr };

    fn from(cidr: Ipv4Cidr) -> IpCidr {
        IpCidr::Ipv4(cidr)
    }
}

impl From<Ipv6Cidr> for IpCidr {
    ghost use Rattle.std.specs.Prelude.{◌≡◌};
    ghost use Rattle.ip_address.specs.declared.cidr.IpCidr.TheVariants.{Ipv6};

    ghost from_gives = { λ cidr r. r ≡ Ipv6 cidr };

    fn from(cidr: Ipv6Cidr) -> IpCidr {
        IpCidr::Ipv6(cidr)
    }
}

impl fmt::Display for Ipv4Cidr {
    /// The address, a slash and the prefix length: 192.168.69.1/24.
    fn fmt<W: fmt::Write>(&self, f: &mut fmt::Formatter<W>) -> fmt::Result {
        write!(f, "{}/{}", self.address, self.prefix_len)
    }
}

impl fmt::Display for Ipv6Cidr {
    /// The address, a slash and the prefix length: fe80::1/64.
    fn fmt<W: fmt::Write>(&self, f: &mut fmt::Formatter<W>) -> fmt::Result {
        write!(f, "{}/{}", self.address, self.prefix_len)
    }
}

impl fmt::Display for IpCidr {
    /// The network, displayed as its family is.
    fn fmt<W: fmt::Write>(&self, f: &mut fmt::Formatter<W>) -> fmt::Result {
        match self {
            IpCidr::Ipv4(cidr) => write!(f, "{cidr}"),
            IpCidr::Ipv6(cidr) => write!(f, "{cidr}"),
        }
    }
}

// Whether the first bits of two 32-bit numbers agree.
fn agrees32(a: u32, b: u32, prefix_len: u8) -> bool
    requires { prefix_len ≤ 32 }
    ensures { result ≡ agrees 32 prefix_len a b }
{
    prefix_len == 0 || a >> (32 - prefix_len) == b >> (32 - prefix_len)
}

// Whether the first bits of two 128-bit numbers agree.
fn agrees128(a: u128, b: u128, prefix_len: u8) -> bool
    requires { prefix_len ≤ 128 }
    ensures { result ≡ agrees 128 prefix_len a b }
{
    prefix_len == 0 || a >> (128 - prefix_len) == b >> (128 - prefix_len)
}

/// The first bits of two numbers agree, as `contains_addr` tests by their quotients, exactly if their lists of bits
/// begin alike.
pub fn agrees_by_bits()
    ensures { AgreesByBits }
{}
