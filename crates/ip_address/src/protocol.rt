//! The protocols over IP, by their numbers, and the versions of IP.
ghost use Rattle.std.specs.Prelude.{◌≡◌};
ghost use Rattle.std.specs.Cmp.Rules.{comparing};
ghost use Rattle.std.proofs.Common.{rules};
ghost use Rattle.ip_address.specs.Protocol as spec;

use crate::ip::IpAddress;
use std::fmt;

/// The protocol of a packet's payload. Protocols are equal if their numbers are, so that [`IpProtocol::Unknown`] of 17
/// is [`IpProtocol::Udp`].
#[derive(Clone, Copy, Debug)]
pub enum IpProtocol {
    /// The IPv6 hop-by-hop options.
    HopByHop,
    Icmp,
    Igmp,
    Tcp,
    Udp,
    Icmpv6,
    /// Another protocol, by its number.
    Unknown(u8),
}

impl IpProtocol {
    /// The protocol of a number.
    #[inline(always)]
    pub const fn from_number(number: u8) -> IpProtocol
        ensures { result ≡ spec.protocol_of number }
    {
        match number {
            0 => IpProtocol::HopByHop,
            1 => IpProtocol::Icmp,
            2 => IpProtocol::Igmp,
            6 => IpProtocol::Tcp,
            17 => IpProtocol::Udp,
            58 => IpProtocol::Icmpv6,
            other => IpProtocol::Unknown(other),
        }
    }

    /// The number of a protocol.
    pub const fn number(self) -> u8
        ensures { result ≡ spec.number_of self }
    {
        match self {
            IpProtocol::HopByHop => 0,
            IpProtocol::Icmp => 1,
            IpProtocol::Igmp => 2,
            IpProtocol::Tcp => 6,
            IpProtocol::Udp => 17,
            IpProtocol::Icmpv6 => 58,
            IpProtocol::Unknown(other) => other,
        }
    }
}

/// Equal exactly if the numbers are.
impl PartialEq for IpProtocol {
    ghost eq = { spec.is_same };

    ghost laws = { Prim.search (comparing, rules) };

    fn eq(&self, other: &IpProtocol) -> bool {
        self.number() == other.number()
    }
}

impl Eq for IpProtocol {
    ghost laws = { Prim.search (comparing, rules) };
}

impl fmt::Display for IpProtocol {
    /// Its name, or its number in hexadecimal if it has none here: UDP, 0x2e.
    fn fmt<W: fmt::Write>(&self, f: &mut fmt::Formatter<W>) -> fmt::Result {
        match self {
            IpProtocol::HopByHop => f.write_str("Hop-by-Hop"),
            IpProtocol::Icmp => f.write_str("ICMP"),
            IpProtocol::Igmp => f.write_str("IGMP"),
            IpProtocol::Tcp => f.write_str("TCP"),
            IpProtocol::Udp => f.write_str("UDP"),
            IpProtocol::Icmpv6 => f.write_str("ICMPv6"),
            IpProtocol::Unknown(number) => write!(f, "0x{number:02x}"),
        }
    }
}

/// A version of IP.
#[derive(Clone, Copy, Debug, PartialEq, Eq)]
pub enum IpVersion {
    Ipv4,
    Ipv6,
}

impl fmt::Display for IpVersion {
    /// Its name: IPv4, IPv6.
    fn fmt<W: fmt::Write>(&self, f: &mut fmt::Formatter<W>) -> fmt::Result {
        match self {
            IpVersion::Ipv4 => f.write_str("IPv4"),
            IpVersion::Ipv6 => f.write_str("IPv6"),
        }
    }
}

impl IpAddress {
    /// The version of IP with such addresses.
    pub const fn version(&self) -> IpVersion
        ensures { result ≡ spec.version_of self.now }
    {
        match self {
            IpAddress::Ipv4(_) => IpVersion::Ipv4,
            IpAddress::Ipv6(_) => IpVersion::Ipv6,
        }
    }
}
