//! ICMP messages of either family.
ghost use Rattle.std.specs.Prelude.{◌≡◌};
ghost use Rattle.control_wire.specs.Details.Icmp as spec;

use crate::Icmpv6Repr;
use crate::icmpv4::Icmpv4Repr;
use ip_address::IpVersion;

/// The values of a message, of either family.
#[derive(Clone, Copy, Debug, PartialEq, Eq)]
pub enum IcmpRepr {
    Ipv4(Icmpv4Repr),
    Ipv6(Icmpv6Repr),
}

impl IcmpRepr {
    /// The IP version that carries the message.
    pub const fn version(&self) -> IpVersion
        ensures { result ≡ spec.version_of self.now }
    {
        match self {
            IcmpRepr::Ipv4(_) => IpVersion::Ipv4,
            IcmpRepr::Ipv6(_) => IpVersion::Ipv6,
        }
    }
}
