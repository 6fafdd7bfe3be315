//! Hardware addresses.
ghost use Rattle.std.specs.Prelude.{◌≡◌, length};
ghost use Rattle.net_base.specs.declared.phy.Medium.TheVariants as medium;
ghost use Rattle.ip_address.specs.Hardware as spec;

use crate::ethernet_address::EthernetAddress;
use net_base::phy::Medium;
use std::fmt;

/// The hardware address of an interface.
#[derive(Clone, Copy, Debug, PartialEq, Eq)]
pub enum HardwareAddress {
    /// The medium has no hardware addresses.
    Ip,
    Ethernet(EthernetAddress),
}

// The medium that has addresses of six octets.
#[inline(always)]
const fn medium_with(octets: &[u8; 6]) -> Medium
    ensures medium { result ≡ medium.Ethernet }
    ensures six { length octets.now ≡ 6 }
{
    Medium::Ethernet
}

impl HardwareAddress {
    /// The medium of this kind of address.
    pub const fn medium(&self) -> Medium
        ensures value { result ≡ spec.medium_of self.now }
        ensures of { spec.IsOf result self.now }
    {
        match self {
            HardwareAddress::Ip => Medium::Ip,
            HardwareAddress::Ethernet(address) => medium_with(&address.0),
        }
    }

    /// Whether the address is unicast. On a medium without hardware addresses it always is.
    pub fn is_unicast(&self) -> bool
        ensures { result ≡ spec.is_unicast self.now }
    {
        match self {
            HardwareAddress::Ip => true,
            HardwareAddress::Ethernet(address) => address.is_unicast(),
        }
    }
}

impl Default for HardwareAddress {
    fn default() -> HardwareAddress
        ensures { result ≡ HardwareAddress.Ip }
    {
        HardwareAddress::Ip
    }
}

impl From<EthernetAddress> for HardwareAddress {
    ghost use Rattle.std.specs.Prelude.{◌≡◌};
    ghost use Rattle.ip_address.specs.declared.hardware.HardwareAddress.TheVariants.{Ethernet};

    ghost from_gives = { λ address r. r ≡ Ethernet address };

    fn from(address: EthernetAddress) -> HardwareAddress {
        HardwareAddress::Ethernet(address)
    }
}

impl fmt::Display for HardwareAddress {
    /// The Ethernet address, if it has one.
    fn fmt<W: fmt::Write>(&self, f: &mut fmt::Formatter<W>) -> fmt::Result {
        match self {
            HardwareAddress::Ip => write!(f, "no hardware addr"),
            HardwareAddress::Ethernet(address) => write!(f, "{address}"),
        }
    }
}
