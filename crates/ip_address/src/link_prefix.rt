//! The address that an interface forms from a prefix of its link (RFC 4862 5.5.3).
ghost use Rattle.std.specs.Prelude.{◌≡◌, ◌<◌, ◌^◌};
ghost use Rattle.std.specs.Int.{from_be_bytes, w64};
ghost use Rattle.ip_address.specs.LinkPrefix as spec;

use crate::cidr::Ipv6Cidr;
use crate::ethernet_address::EthernetAddress;
use crate::hardware::HardwareAddress;
use crate::ipv6::Ipv6Address;

impl Ipv6Cidr {
    /// The address of an interface in a network of its link: the network's first 64 bits, followed by the interface
    /// identifier that the hardware address makes (RFC 2464 4). `None` exactly if the network's prefix isn't 64 bits
    /// long, or the medium has no hardware addresses.
    pub fn from_link_prefix(
        link_prefix: &Ipv6Cidr,
        hardware_addr: HardwareAddress,
    ) -> Option<Ipv6Cidr>
        ensures { result ≡ spec.from_link_prefix link_prefix.now hardware_addr }
    {
        match hardware_addr {
            HardwareAddress::Ethernet(address) if link_prefix.prefix_len == 64 => {
                Some(cidr_with_identifier(link_prefix, &address))
            }
            _ => None,
        }
    }
}

// The first 64 bits of a network, followed by an interface identifier.
fn cidr_with_identifier(link_prefix: &Ipv6Cidr, address: &EthernetAddress) -> Ipv6Cidr
    ensures { result ≡ spec.cidr_with_identifier link_prefix.now address.now }
{
    let prefix = link_prefix.address.bits / (1 << 64) * (1 << 64);
    Ipv6Cidr {
        address: Ipv6Address {
            bits: prefix + u128::from(identifier(address)),
        },
        prefix_len: 64,
    }
}

// The interface identifier from an Ethernet address.
#[tactic(auto, unfolding(crate::specs::LinkPrefix::identifier))]
fn identifier(address: &EthernetAddress) -> u64
    ensures { result ≡ from_be_bytes w64 (spec.identifier address.now) }
{
    let [a, b, c, d, e, f] = address.0;
    u64::from_be_bytes([a ^ 2, b, c, 0xff, 0xfe, d, e, f])
}
