//! Ethernet addresses (IEEE 802.3).
ghost use Rattle.std.specs.Prelude.{◌≡◌};
ghost use Rattle.std.specs.Cmp.Rules.{comparing};
ghost use Rattle.std.specs.Str.{bytes_eq};
ghost use Rattle.std.proofs.Common.{rules};
ghost use Rattle.ip_address.specs.EthernetAddress as spec;

use std::fmt;

/// The address of an Ethernet interface: six octets.
#[derive(Clone, Copy, Debug, PartialOrd, Ord, Hash)]
pub struct EthernetAddress(pub [u8; 6]);

// Whether all octets are equal. They are compared as two numbers, of four octets and of two.
#[inline(always)]
const fn are_same(a: &[u8; 6], b: &[u8; 6]) -> bool
    ensures { result ≡ bytes_eq a.now b.now }
{
    let [a0, a1, a2, a3, a4, a5] = *a;
    let [b0, b1, b2, b3, b4, b5] = *b;
    u32::from_le_bytes([a0, a1, a2, a3]) == u32::from_le_bytes([b0, b1, b2, b3])
        && u16::from_le_bytes([a4, a5]) == u16::from_le_bytes([b4, b5])
}

impl EthernetAddress {
    /// The broadcast address.
    pub const BROADCAST: EthernetAddress = EthernetAddress([0xff, 0xff, 0xff, 0xff, 0xff, 0xff]);

    /// Whether the address is broadcast: all ones.
    #[inline(always)]
    pub fn is_broadcast(&self) -> bool
        ensures { result ≡ spec.is_broadcast self.now }
    {
        are_same(&self.0, &EthernetAddress::BROADCAST.0)
    }

    /// Whether the address is multicast (lowest bit of the first octet set). Broadcast is included.
    #[inline(always)]
    pub const fn is_multicast(&self) -> bool
        ensures { result ≡ spec.is_multicast self.now }
    {
        self.0[0] % 2 == 1
    }

    /// Whether the address is unicast: neither multicast nor broadcast.
    pub fn is_unicast(&self) -> bool
        ensures { result ≡ spec.is_unicast self.now }
    {
        !(self.is_broadcast() || self.is_multicast())
    }
}

/// Equal exactly if all octets are.
impl PartialEq for EthernetAddress {
    ghost eq = { spec.is_same };

    ghost laws = { Prim.search (comparing, rules) };

    #[inline(always)]
    fn eq(&self, other: &EthernetAddress) -> bool {
        are_same(&self.0, &other.0)
    }
}

impl Eq for EthernetAddress {
    ghost laws = { Prim.search (comparing, rules) };
}

impl fmt::Display for EthernetAddress {
    /// Its six octets in hexadecimal, with dashes between them: 02-00-00-00-00-01.
    fn fmt<W: fmt::Write>(&self, f: &mut fmt::Formatter<W>) -> fmt::Result {
        let [a0, a1, a2, a3, a4, a5] = self.0;
        write!(f, "{a0:02x}-{a1:02x}-{a2:02x}-{a3:02x}-{a4:02x}-{a5:02x}")
    }
}
