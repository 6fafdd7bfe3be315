//! Addresses, networks, routes and groups.
ghost use Rattle.std.specs.Prelude.{◌≡◌};
ghost use Rattle.iface_c.specs.Addresses.{address_in, cidr_in, end_in, listen_end_in};
ghost use Rattle.iface_c.specs.Addresses.{network_of, address_for_c, specified, written_end};

use ip_wire::{IpAddress, IpCidr, Ipv4Address, Ipv4Cidr, Ipv6Address, Ipv6Cidr};
use sockets::{IpEndpoint, IpListenEndpoint};

/// An address of either version of IP.
#[repr(C)]
#[derive(Drop)]
pub struct IfaceAddress {
    /// 4 or 6.
    pub version: u8,
    /// Its octets in the order of the network: the first 4, or all 16.
    pub octets: [u8; 16],
}

/// One end: an address and a port of it.
#[repr(C)]
#[derive(Drop)]
pub struct IfaceEndpoint {
    /// The address.
    pub address: IfaceAddress,
    /// The port.
    pub port: u16,
}

impl IfaceAddress {
    /// The address, if its version is 4 or 6.
    pub fn ip(&self) -> Option<IpAddress>
        ensures { result ≡ address_in self.now }
    {
        if self.version == 4 {
            let [a, b, c, d, ..] = self.octets;
            return Some(IpAddress::Ipv4(Ipv4Address::new(a, b, c, d)));
        }
        if self.version == 6 {
            let bits = u128::from_be_bytes(self.octets);
            return Some(IpAddress::Ipv6(Ipv6Address { bits }));
        }
        None
    }

    /// The address with a prefix of so many bits, if it has so many.
    pub fn cidr(&self, prefix_len: u8) -> Option<IpCidr>
        ensures { result ≡ cidr_in self.now prefix_len }
    {
        network_of(self.ip()?, prefix_len)
    }

    /// An address as C reads it.
    pub fn of(address: &IpAddress) -> IfaceAddress
        ensures { result ≡ address_for_c address.now }
    {
        match address {
            IpAddress::Ipv4(address) => {
                let [a, b, c, d] = address.octets();
                IfaceAddress {
                    version: 4,
                    octets: [a, b, c, d, 0, 0, 0, 0, 0, 0, 0, 0, 0, 0, 0, 0],
                }
            }
            IpAddress::Ipv6(address) => IfaceAddress {
                version: 6,
                octets: address.bits.to_be_bytes(),
            },
        }
    }
}

impl IfaceEndpoint {
    /// The end, if the version of its address is 4 or 6.
    pub fn end(&self) -> Option<IpEndpoint>
        ensures { result ≡ end_in self.now }
    {
        Some(IpEndpoint {
            addr: self.address.ip()?,
            port: self.port,
        })
    }

    /// An end as C reads it.
    pub fn of(end: &IpEndpoint) -> IfaceEndpoint
        ensures { result ≡ written_end end.now }
    {
        IfaceEndpoint {
            address: IfaceAddress::of(&end.addr),
            port: end.port,
        }
    }

    /// The end at which a socket listens: at any address, if the version is 0 or the address unspecified.
    pub fn listen_end(&self) -> Option<IpListenEndpoint>
        ensures { result ≡ listen_end_in self.now }
    {
        let addr = if self.address.version == 0 {
            None
        } else {
            specified(self.address.ip()?)
        };
        Some(IpListenEndpoint {
            addr,
            port: self.port,
        })
    }
}

/// The address, unless it is unspecified: 0.0.0.0 or ::.
fn specified(address: IpAddress) -> Option<IpAddress>
    ensures { result ≡ specified address }
{
    if address.is_unspecified() {
        None
    } else {
        Some(address)
    }
}

/// The network of an address and a prefix of so many bits, if the address has so many.
fn network_of(address: IpAddress, prefix_len: u8) -> Option<IpCidr>
    ensures { result ≡ network_of address prefix_len }
{
    match address {
        IpAddress::Ipv4(address) => {
            if prefix_len > 32 {
                return None;
            }
            Some(IpCidr::Ipv4(Ipv4Cidr {
                address,
                prefix_len,
            }))
        }
        IpAddress::Ipv6(address) => {
            if prefix_len > 128 {
                return None;
            }
            Some(IpCidr::Ipv6(Ipv6Cidr {
                address,
                prefix_len,
            }))
        }
    }
}
