//! IP packets of either family, by the values of their headers.
ghost use Rattle.std.specs.Prelude.{◌≡◌};
ghost use Rattle.ip_wire.specs.IpPacket as spec;

use crate::Ipv6Repr;
use crate::ipv4_packet::Ipv4Repr;
use ip_address::{IpAddress, IpProtocol, IpVersion};

/// The values of a packet's header, of either family.
#[derive(Clone, Copy, Debug, PartialEq, Eq)]
pub enum IpRepr {
    Ipv4(Ipv4Repr),
    Ipv6(Ipv6Repr),
}

impl IpRepr {
    /// The version of IP.
    #[inline(always)]
    pub const fn version(&self) -> IpVersion
        ensures { result ≡ spec.version_of self.now }
    {
        match self {
            IpRepr::Ipv4(_) => IpVersion::Ipv4,
            IpRepr::Ipv6(_) => IpVersion::Ipv6,
        }
    }

    /// The source address.
    #[inline(always)]
    pub const fn src_addr(&self) -> IpAddress
        ensures { result ≡ spec.src_addr self.now }
    {
        match self {
            IpRepr::Ipv4(header) => IpAddress::Ipv4(header.src_addr),
            IpRepr::Ipv6(header) => IpAddress::Ipv6(header.src_addr),
        }
    }

    /// The destination address.
    #[inline(always)]
    pub const fn dst_addr(&self) -> IpAddress
        ensures { result ≡ spec.dst_addr self.now }
    {
        match self {
            IpRepr::Ipv4(header) => IpAddress::Ipv4(header.dst_addr),
            IpRepr::Ipv6(header) => IpAddress::Ipv6(header.dst_addr),
        }
    }

    /// The protocol of the payload.
    #[inline(always)]
    pub const fn next_header(&self) -> IpProtocol
        ensures { result ≡ spec.next_header self.now }
    {
        match self {
            IpRepr::Ipv4(header) => header.next_header,
            IpRepr::Ipv6(header) => header.next_header,
        }
    }

    /// The length of the payload, in octets.
    #[inline(always)]
    pub const fn payload_len(&self) -> u16
        ensures { result ≡ spec.payload_len self.now }
    {
        match self {
            IpRepr::Ipv4(header) => header.payload_len,
            IpRepr::Ipv6(header) => header.payload_len,
        }
    }

    /// How many more routers may forward the packet.
    #[inline(always)]
    pub const fn hop_limit(&self) -> u8
        ensures { result ≡ spec.hop_limit self.now }
    {
        match self {
            IpRepr::Ipv4(header) => header.hop_limit,
            IpRepr::Ipv6(header) => header.hop_limit,
        }
    }

    /// The length of the header as it is emitted, in octets: 20, or 40 for IPv6.
    #[inline(always)]
    pub const fn header_len(&self) -> usize
        ensures { result ≡ spec.header_len self.now }
    {
        match self {
            IpRepr::Ipv4(_) => 20,
            IpRepr::Ipv6(_) => 40,
        }
    }
}
