//! Where packets for an address go: the next hop, and whether its hardware address is known (RFC 1122 3.3.1).
ghost use Rattle.std.specs.Prelude.{◌≡◌, true, false, None, IfSome};
ghost use Rattle.ip_address.specs.Ip.{is_unicast, is_unspecified};
ghost use Rattle.fragmentation.specs.Slots.{Slots};
ghost use Rattle.host_machine.specs.Context.Host.{SocketSet, in_same_network, no_sockets};
ghost use Rattle.host_machine.specs.Send.Hops as spec;
ghost use Rattle.iface_context.specs.Stands.{host_in, host_of};

use iface_context::context::Context;
use iface_context::neighbors::lookup;
use ip_wire::{EthernetAddress, IpAddress, Ipv4Address, Ipv6Address};
use sockets::SocketContext;

/// Whether the next hop to an address is a neighbour with a known hardware address, so that a packet needs no
/// discovery. An address that isn't unicast has no next hop.
pub fn has_neighbor(context: &Context, address: &IpAddress) -> bool
    ensures { (slots : Slots) (sockets : SocketSet) →
        spec.HasNeighbor (host_in context.now slots sockets) address.now result }
{
    if !address.is_unicast() {
        return false;
    }
    match next_hop(context, address) {
        Some(hop) => lookup(context, &hop).found(),
        None => false,
    }
}

/// The next hop to a unicast address: the address itself if it is in a network of the interface, otherwise the gateway
/// of the best route, if that is unicast.
#[inline(always)]
pub fn next_hop(context: &Context, address: &IpAddress) -> Option<IpAddress>
    requires { is_unicast address.now ≡ true }
    ensures hop { (slots : Slots) (sockets : SocketSet) →
        spec.IsNextHop (host_in context.now slots sockets) address.now result }
    ensures unicast { IfSome result (λ hop. is_unicast hop ≡ true) }
{
    if context.in_same_network(address) {
        return Some(*address);
    }
    next_hop_by_route(context, address)
}

/// The gateway of the best route to an address that is in no network of the interface, if that is unicast. The address
/// is copied, so that one in a network isn't stored for the lookup.
#[inline(always)]
fn next_hop_by_route(context: &Context, address: &IpAddress) -> Option<IpAddress>
    requires unicast { is_unicast address.now ≡ true }
    requires far { in_same_network (host_of context.now no_sockets).ip_addrs address.now ≡ false }
    ensures hop { (slots : Slots) (sockets : SocketSet) →
        spec.IsNextHop (host_in context.now slots sockets) address.now result }
    ensures unicast { IfSome result (λ hop. is_unicast hop ≡ true) }
{
    let far = *address;
    let router = context.routes().lookup(&far, context.now())?;
    if router.is_unicast() {
        Some(router)
    } else {
        None
    }
}
/// The hardware address for a multicast or broadcast destination: the broadcast address, or that of the group.
#[inline(always)]
pub fn multicast_hardware_addr(context: &Context, dst_addr: &IpAddress) -> Option<EthernetAddress>
    ensures value { result ≡ spec.multicast_hardware_addr (host_of context.now no_sockets).ip_addrs dst_addr.now }
    ensures else_one { result ≡ None → is_unspecified dst_addr.now ≡ false → is_unicast dst_addr.now ≡ true }
{
    match dst_addr {
        IpAddress::Ipv4(address) => {
            if context.is_broadcast_v4(address) {
                Some(EthernetAddress::BROADCAST)
            } else if address.is_multicast() {
                Some(group_address_v4(address))
            } else {
                None
            }
        }
        IpAddress::Ipv6(address) => {
            if address.is_multicast() {
                Some(group_address_v6(address))
            } else {
                None
            }
        }
    }
}

/// The hardware address of an IPv4 group: 01:00:5e and the group's low 23 bits (RFC 1112 6.4).
fn group_address_v4(group: &Ipv4Address) -> EthernetAddress
    ensures { result ≡ spec.group_address_v4 group.now }
{
    let bits = group.bits;
    EthernetAddress([
        0x01,
        0x00,
        0x5e,
        (bits / 0x1_0000 % 0x80) as u8,
        (bits / 0x100 % 0x100) as u8,
        (bits % 0x100) as u8,
    ])
}

/// The hardware address of an IPv6 group: 33:33 and the group's last four octets (RFC 2464 7).
pub(crate) fn group_address_v6(group: &Ipv6Address) -> EthernetAddress
    ensures { result ≡ spec.group_address_v6 group.now }
{
    let bits = group.bits;
    EthernetAddress([
        0x33,
        0x33,
        (bits / 0x100_0000 % 0x100) as u8,
        (bits / 0x1_0000 % 0x100) as u8,
        (bits / 0x100 % 0x100) as u8,
        (bits % 0x100) as u8,
    ])
}
