//! What the list of an interface's addresses says of another address.
ghost use Rattle.std.specs.Prelude.{◌≡◌};
ghost use Rattle.std.specs.List.{list_any};
ghost use Rattle.host_machine.specs.Context.Host.{is_assigned};
ghost use Rattle.host_machine.specs.Context.Addresses as addresses;

use ip_wire::{IpAddress, IpCidr, Ipv4Address, Ipv6Address};

/// Whether an address is ::1.
pub fn is_loopback(address: &IpAddress) -> bool
    ensures { result ≡ addresses.is_loopback address.now }
{
    match address {
        IpAddress::Ipv4(_) => false,
        IpAddress::Ipv6(address) => address.is_loopback(),
    }
}

/// Whether an address is the solicited-node group of an address of the list other than ::1.
pub fn has_solicited_node(own: &[IpCidr], address: &Ipv6Address) -> bool
    ensures { result ≡ addresses.has_solicited_node own.now address.now }
{
    own.iter().any(|cidr| is_asked_by(cidr, address))
}

/// Whether an address is the solicited-node group of another address, which is not ::1.
#[inline(always)]
fn is_asked_by(cidr: &IpCidr, address: &Ipv6Address) -> bool
    ensures { result ≡ addresses.is_asked_by address.now cidr.now }
{
    match cidr {
        IpCidr::Ipv4(_) => false,
        IpCidr::Ipv6(cidr) => {
            !cidr.address.is_loopback() && cidr.address.solicited_node().bits == address.bits
        }
    }
}

/// Whether an address is in a list.
#[inline(always)]
pub fn is_assigned(own: &[IpCidr], address: &IpAddress) -> bool
    ensures { result ≡ is_assigned own.now address.now }
{
    own.iter().any(|cidr| cidr.address() == *address)
}

/// Whether an address is the broadcast address of a network in a list.
pub fn ends_a_network(own: &[IpCidr], address: &Ipv4Address) -> bool
    ensures { result ≡ list_any (λ c. addresses.is_broadcast_of c address.now) own.now }
{
    own.iter().any(|cidr| is_broadcast_of(cidr, address))
}

/// Whether an address is the broadcast address of a network.
#[inline(always)]
fn is_broadcast_of(cidr: &IpCidr, address: &Ipv4Address) -> bool
    ensures { result ≡ addresses.is_broadcast_of cidr.now address.now }
{
    match cidr {
        IpCidr::Ipv4(cidr) => match cidr.broadcast() {
            Some(broadcast) => broadcast.bits == address.bits,
            None => false,
        },
        IpCidr::Ipv6(_) => false,
    }
}

/// The first IPv4 address of a list.
pub fn ipv4_addr(own: &[IpCidr]) -> Option<Ipv4Address>
    ensures { result ≡ addresses.ipv4_addr own.now }
{
    for cidr in own {
        if let IpCidr::Ipv4(cidr) = cidr {
            return Some(cidr.address);
        }
    }
    None
}

/// The first link-local address of a list.
pub fn link_local_addr(own: &[IpCidr]) -> Option<Ipv6Address>
    ensures { result ≡ addresses.link_local_addr own.now }
{
    for cidr in own {
        if let IpCidr::Ipv6(cidr) = cidr {
            if cidr.address.is_link_local() {
                return Some(cidr.address);
            }
        }
    }
    None
}

/// The first IPv4 address of a list whose network contains another.
pub fn on_link_addr(own: &[IpCidr], address: &Ipv4Address) -> Option<Ipv4Address>
    ensures { result ≡ addresses.on_link_addr own.now address.now }
{
    for cidr in own {
        if let IpCidr::Ipv4(cidr) = cidr {
            if cidr.contains_addr(address) {
                return Some(cidr.address);
            }
        }
    }
    None
}
