//! All own addresses at once, and the link-local address of a hardware address.
ghost use Rattle.std.specs.Prelude.{◌≡◌, ◌≢◌, ◌≤◌, IsSomeAnd, length};
ghost use Rattle.std.specs.Option.{option_map};
ghost use Rattle.iface_c.specs.Calls.{Ruled};
ghost use Rattle.iface_c.specs.Handle.{host_in};
ghost use Rattle.iface_c.specs.Lists.{ShowsLinkLocal, cidrs_in, code_for_list, link_local_refusal};
ghost use Rattle.iface_c.specs.Properties.{ethernet_of};
ghost use Rattle.iface_c.specs.Status.{code_if};
ghost use Rattle.iface_host.specs.Calls.{SetsAddresses};
ghost use Rattle.iface_host.specs.Stands.{Follows};

use crate::addresses::IfaceAddress;
use crate::handle::Iface;
use crate::status::{BAD_ARGUMENT, NO_HOST, NOT_UNICAST, OK, TABLE_FULL, code};
use arrayvec::ArrayVec;
use ip_wire::{EthernetAddress, HardwareAddress, IpAddress, IpCidr, Ipv6Address, Ipv6Cidr};
use std::alloc::Global;

/// The most addresses that a host can have.
const MOST_ADDRESSES: usize = 16;

/// An own address with its network.
#[repr(C)]
#[derive(Drop)]
pub struct IfaceCidr {
    /// The address.
    pub address: IfaceAddress,
    /// How many bits of it are the network's.
    pub prefix_len: u8,
}

/// Makes a list the own addresses of a host.
#[unsafe(no_mangle)]
pub extern "C" fn iface_set_addresses(
    handle: &mut Iface,
    alloc: Global,
    addresses: &[IfaceCidr],
) -> u32
    ensures done { Ruled result (λ old new. IsSomeAnd (cidrs_in addresses.now)
        (λ list. Follows (SetsAddresses list) old new)) handle.old handle.new }
    ensures code { result ≡ code_for_list addresses.now (host_in handle.old) }
{
    if addresses.len() > MOST_ADDRESSES {
        return TABLE_FULL;
    }
    let Some(list) = networks(addresses) else {
        return BAD_ARGUMENT;
    };
    let Some(mut host) = handle.take(alloc) else {
        return NO_HOST;
    };
    let done = host.set_addresses(list.as_slice());
    handle.put(host);
    match done {
        Ok(()) => OK,
        Err(refusal) => code(refusal),
    }
}

/// Writes the link-local address of a hardware address.
#[unsafe(no_mangle)]
pub extern "C" fn iface_link_local(hardware_address: &[u8; 6], address: &mut IfaceAddress) -> u32
    ensures done { result ≡ 0 → ShowsLinkLocal (ethernet_of hardware_address.now) address.new }
    ensures code { result ≡ code_if (link_local_refusal (ethernet_of hardware_address.now)) }
    ensures kept { result ≢ 0 → address.new ≡ address.old }
{
    let hardware = EthernetAddress(*hardware_address);
    if !hardware.is_unicast() {
        return NOT_UNICAST;
    }
    match Ipv6Cidr::from_link_prefix(&LINK_LOCAL, HardwareAddress::Ethernet(hardware)) {
        Some(cidr) => {
            *address = IfaceAddress::of(&IpAddress::Ipv6(cidr.address));
            OK
        }
        None => NOT_UNICAST,
    }
}

/// The network of link-local addresses, fe80::/64 (RFC 4291 2.5.6).
const LINK_LOCAL: Ipv6Cidr = Ipv6Cidr {
    address: Ipv6Address {
        bits: 0xfe80 << 112,
    },
    prefix_len: 64,
};

/// The networks of a list of at most sixteen, if each is one.
fn networks(list: &[IfaceCidr]) -> Option<ArrayVec<IpCidr, MOST_ADDRESSES>>
    requires { length list.now ≤ MOST_ADDRESSES }
    ensures { option_map (λ networks. networks.items) result ≡ cidrs_in list.now }
{
    let mut networks: ArrayVec<IpCidr, MOST_ADDRESSES> = ArrayVec::new();
    for one in list {
        networks.push(one.address.cidr(one.prefix_len)?);
    }
    Some(networks)
}
