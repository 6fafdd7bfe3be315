//! IP addresses of either family.
ghost use Rattle.std.specs.Prelude.{◌≡◌};
ghost use Rattle.ip_address.specs.Ip as spec;

use crate::ipv4::Ipv4Address;
use crate::ipv6::Ipv6Address;
use std::fmt;

/// An IP address.
#[derive(Clone, Copy, Debug, PartialEq, Eq, PartialOrd, Ord, Hash)]
pub enum IpAddress {
    Ipv4(Ipv4Address),
    Ipv6(Ipv6Address),
}

impl IpAddress {
    /// Whether the address is 0.0.0.0 or ::.
    pub const fn is_unspecified(&self) -> bool
        ensures { result ≡ spec.is_unspecified self.now }
    {
        match self {
            IpAddress::Ipv4(address) => address.is_unspecified(),
            IpAddress::Ipv6(address) => address.is_unspecified(),
        }
    }

    /// Whether the address is 255.255.255.255.
    pub const fn is_broadcast(&self) -> bool
        ensures { result ≡ spec.is_broadcast self.now }
    {
        match self {
            IpAddress::Ipv4(address) => address.is_broadcast(),
            IpAddress::Ipv6(_) => false,
        }
    }

    /// Whether the address is multicast.
    pub const fn is_multicast(&self) -> bool
        ensures { result ≡ spec.is_multicast self.now }
    {
        match self {
            IpAddress::Ipv4(address) => address.is_multicast(),
            IpAddress::Ipv6(address) => address.is_multicast(),
        }
    }

    /// Whether the address is unicast: neither multicast, broadcast nor unspecified.
    pub const fn is_unicast(&self) -> bool
        ensures { result ≡ spec.is_unicast self.now }
    {
        match self {
            IpAddress::Ipv4(address) => address.is_unicast(),
            IpAddress::Ipv6(address) => address.is_unicast(),
        }
    }
}

impl Default for IpAddress {
    fn default() -> IpAddress
        ensures { result ≡ spec.unspecified_address }
    {
        IpAddress::Ipv4(Ipv4Address::UNSPECIFIED)
    }
}

impl From<Ipv4Address> for IpAddress {
    ghost use Rattle.std.specs.Prelude.{◌≡◌};
    ghost use Rattle.ip_address.specs.declared.ip.IpAddress.TheVariants.{Ipv4};

    ghost from_gives = { λ address r. r ≡ Ipv4 address };

    fn from(address: Ipv4Address) -> IpAddress {
        IpAddress::Ipv4(address)
    }
}

impl From<Ipv6Address> for IpAddress {
    ghost use Rattle.std.specs.Prelude.{◌≡◌};
    ghost use Rattle.ip_address.specs.declared.ip.IpAddress.TheVariants.{Ipv6};

    ghost from_gives = { λ address r. r ≡ Ipv6 address };

    fn from(address: Ipv6Address) -> IpAddress {
        IpAddress::Ipv6(address)
    }
}

impl fmt::Display for IpAddress {
    /// The address, displayed as its family is.
    fn fmt<W: fmt::Write>(&self, f: &mut fmt::Formatter<W>) -> fmt::Result {
        match self {
            IpAddress::Ipv4(address) => write!(f, "{address}"),
            IpAddress::Ipv6(address) => write!(f, "{address}"),
        }
    }
}
