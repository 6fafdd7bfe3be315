//! What an interface knows, besides its buffers.
ghost use Rattle.std.specs.Prelude.{◌≡◌, ◌≤◌, ◌+◌, length};
ghost use Rattle.std.specs.List.{AllByRecursion};
ghost use Rattle.net_base.specs.Time.{IsMoment};
ghost use Rattle.net_base.specs.Checksum.{ip_mtu_of};
ghost use Rattle.ip_address.specs.Hardware.{IsOf, IsOf-prop, medium_of};
ghost use Rattle.iface_tables.specs.Neighbor.{AreOf, AreOf-prop};
ghost use Rattle.host_machine.specs.Context.Host.{is_assigned, no_sockets};
ghost use Rattle.host_machine.specs.Context.Addresses as addresses;
ghost use Rattle.host_machine.specs.Context.Real.{IsPart, are_parts-prop};

use crate::addresses::{
    ends_a_network, has_solicited_node, ipv4_addr, is_assigned, is_loopback, link_local_addr,
    on_link_addr,
};
use crate::membership::Membership;
use arrayvec::ArrayVec;
use fragmentation::Fragmenter;
use iface_tables::Slaac;
use iface_tables::neighbor::Cache;
use iface_tables::route::Routes;
use iface_tables::sync::MAX_ADDR_COUNT;
use ip_address::address_selection::{get_source_address_ipv6, ipv6_addr};
use ip_wire::{HardwareAddress, IpAddress, IpCidr, Ipv4Address, Ipv6Address};
use net_base::phy::{ChecksumCapabilities, DeviceCapabilities};
use net_base::rand::Rand;
use net_base::time::{Duration, Instant};
use sockets::SocketContext;

/// The maximum number of addresses of a list that the crate `interface` hands to a function, smoltcp's.
pub const IFACE_MAX_ADDR_COUNT: usize = 4;

/// The state of an interface besides its buffers: device capabilities, addresses, routes, neighbours, groups, what
/// routers advertised, the moment, and the pending fragments of a packet.
#[derive(Drop)]
pub struct Context {
    pub(crate) capabilities: DeviceCapabilities,
    pub(crate) hardware_addr: HardwareAddress,
    pub(crate) moment: Instant,
    pub(crate) ip_addrs: ArrayVec<IpCidr, MAX_ADDR_COUNT>,
    pub(crate) addr_room: usize,
    pub(crate) any_ip: bool,
    pub(crate) routes: Routes,
    pub(crate) neighbor_cache: Cache,
    pub(crate) ipv4_id: u16,
    pub(crate) reassembly_timeout: Duration,
    pub(crate) fragmenter: Fragmenter,
    pub(crate) multicast: Membership,
    pub(crate) slaac_enabled: bool,
    pub(crate) slaac: Slaac,
    pub(crate) slaac_updated_at: Instant,
    pub(crate) rand: Rand,
    pub ghost few_addrs: { addr_room ≤ 16 },
    pub ghost four_addrs: { 4 ≤ addr_room },
    pub ghost room_for_addrs: { length ip_addrs.items ≤ addr_room },
    pub ghost timely: { IsMoment moment },
    pub ghost short: { capabilities.max_transmission_unit ≤ 1514 },
    pub ghost long: { 576 ≤ ip_mtu_of capabilities },
    pub ghost within_a_day: { reassembly_timeout ≤ 86400000000 },
    pub ghost cut_to_fit: { 20 + fragmenter.size ≤ ip_mtu_of capabilities },
    pub ghost of_medium: { medium_of hardware_addr ≡ capabilities.medium },
    pub ghost own: { IsOf capabilities.medium hardware_addr } by { IsOf-prop capabilities.medium hardware_addr },
    pub ghost neighbors: { AreOf capabilities.medium
        neighbor_cache } by { AreOf-prop capabilities.medium neighbor_cache },
    pub ghost pending: { AllByRecursion (IsPart capabilities.medium)
        fragmenter.pieces } by { are_parts-prop capabilities.medium fragmenter.pieces },
}

impl Context {
    ghost use Rattle.std.specs.Prelude.{◌≡◌, ◌≤◌, ◌||◌, [], not, length};
    ghost use Rattle.fragmentation.specs.Details.Pending.{is_nil};
    ghost use Rattle.host_machine.specs.Context.Host as host;
    ghost use Rattle.iface_context.specs.Stands.{host_of};

    /// The capabilities of the device when the interface was created.
    #[inline(always)]
    pub fn capabilities(&self) -> DeviceCapabilities
        ensures { result ≡ (host_of self.now no_sockets).capabilities }
    {
        self.capabilities
    }

    /// The capabilities of the device when the interface was created, without a copy.
    #[inline(always)]
    pub fn lent_capabilities(&self) -> &DeviceCapabilities
        ensures { result.now ≡ (host_of self.now no_sockets).capabilities }
    {
        &self.capabilities
    }

    /// The hardware address of the interface.
    #[inline(always)]
    pub fn hardware_addr(&self) -> HardwareAddress
        ensures { result ≡ (host_of self.now no_sockets).hardware_addr }
    {
        self.hardware_addr
    }

    /// The addresses assigned to the interface, each with its prefix length, in the order given.
    #[inline(always)]
    pub fn ip_addrs(&self) -> &[IpCidr]
        ensures value { result.now ≡ (host_of self.now no_sockets).ip_addrs }
        ensures fits { length result.now ≤ (host_of self.now no_sockets).addr_room }
    {
        self.ip_addrs.as_slice()
    }

    /// For how many addresses there is room.
    #[inline(always)]
    pub fn addr_room(&self) -> usize
        ensures value { result ≡ (host_of self.now no_sockets).addr_room }
        ensures fits { result ≤ 16 }
    {
        self.addr_room
    }

    /// Whether the interface accepts addresses that are routed to it as its own (AnyIP).
    #[inline(always)]
    pub fn any_ip(&self) -> bool
        ensures { result ≡ (host_of self.now no_sockets).any_ip }
    {
        self.any_ip
    }

    /// The reassembly timeout of slots that are taken from now on.
    #[inline(always)]
    pub fn reassembly_timeout(&self) -> Duration
        ensures value { result ≡ (host_of self.now no_sockets).reassembly_timeout }
        ensures within_a_day { result ≤ 86400000000 }
    {
        self.reassembly_timeout
    }

    /// Which checksums the device leaves to the stack to compute and verify.
    #[inline(always)]
    pub fn checksum_caps(&self) -> ChecksumCapabilities
        ensures { result ≡ (host_of self.now no_sockets).capabilities.checksum }
    {
        self.capabilities.checksum
    }

    /// The greatest length of an IP packet that the device takes, in octets.
    #[inline(always)]
    pub fn ip_mtu(&self) -> usize
        ensures { result ≡ ip_mtu_of (host_of self.now no_sockets).capabilities }
    {
        self.capabilities.ip_mtu()
    }

    /// Whether fragments of a packet are waiting to be sent.
    #[inline(always)]
    pub fn has_pending_fragment(&self) -> bool
        ensures { result ≡ not (is_nil (host_of self.now no_sockets).left) }
    {
        !self.fragmenter.is_empty()
    }

    /// The routes.
    #[inline(always)]
    pub fn routes(&self) -> &Routes
        ensures items { result.now.items ≡ (host_of self.now no_sockets).routes }
        ensures room { result.now.room ≡ (host_of self.now no_sockets).route_room }
    {
        &self.routes
    }

    /// The neighbours.
    #[inline(always)]
    pub fn neighbors(&self) -> &Cache
        ensures { result.now ≡ (host_of self.now no_sockets).neighbors }
    {
        &self.neighbor_cache
    }

    /// Whether an address is one of the interface's own: assigned to it or, with AnyIP, unicast with an assigned
    /// address as the gateway of its best route.
    #[inline(always)]
    pub fn has_ip_addr(&self, address: &IpAddress) -> bool
        ensures { result ≡ host.has_ip_addr (host_of self.now no_sockets) address.now }
    {
        is_assigned(self.ip_addrs.as_slice(), address)
            || self.any_ip && self.is_routed_here_by_copy(address)
    }

    // A copy of the address is made where this is asked, so that no other packet stores one.
    #[inline(always)]
    fn is_routed_here_by_copy(&self, address: &IpAddress) -> bool
        ensures { result ≡ host.is_routed_here (host_of self.now no_sockets) address.now }
    {
        self.is_routed_here(*address)
    }

    /// Whether an address is unicast and the gateway of its best route is an address assigned to the interface (AnyIP).
    #[inline(never)]
    fn is_routed_here(&self, address: IpAddress) -> bool
        ensures { result ≡ host.is_routed_here (host_of self.now no_sockets) address }
    {
        if !address.is_unicast() {
            return false;
        }
        match self.routes.lookup(&address, self.moment) {
            Some(router) => is_assigned(self.ip_addrs.as_slice(), &router),
            None => false,
        }
    }

    /// Whether an address is assigned to the interface.
    pub fn is_assigned(&self, address: &IpAddress) -> bool
        ensures { result ≡ host.is_assigned (host_of self.now no_sockets).ip_addrs address.now }
    {
        is_assigned(self.ip_addrs.as_slice(), address)
    }

    /// Whether an address is in the network of one of the interface's addresses.
    pub fn in_same_network(&self, address: &IpAddress) -> bool
        ensures { result ≡ host.in_same_network (host_of self.now no_sockets).ip_addrs address.now }
    {
        self.ip_addrs.iter().any(|cidr| cidr.contains_addr(address))
    }

    /// Whether the interface is a member of a multicast group. It is always a member of all-hosts (224.0.0.1, RFC
    /// 1112), of all-nodes (ff02::1, RFC 4291 2.8), and of the solicited-node groups of its addresses other than ::1.
    /// Besides, it is a member of the groups that it joined and hasn't left since.
    pub fn has_multicast_group(&self, address: &IpAddress) -> bool
        ensures { result ≡ addresses.has_multicast_group (host_of self.now no_sockets) address.now }
    {
        let is_member_always = match address {
            IpAddress::Ipv4(address) => address.bits == Ipv4Address::MULTICAST_ALL_SYSTEMS.bits,
            IpAddress::Ipv6(address) => {
                address.bits == Ipv6Address::LINK_LOCAL_ALL_NODES.bits
                    || self.has_solicited_node(address)
            }
        };
        is_member_always || self.multicast.groups.is_member(address)
    }

    /// Whether an address is the solicited-node group of one of the interface's addresses other than ::1 (RFC 4291
    /// 2.7.1).
    pub fn has_solicited_node(&self, address: &Ipv6Address) -> bool
        ensures { result ≡ addresses.has_solicited_node (host_of self.now no_sockets).ip_addrs address.now }
    {
        has_solicited_node(self.ip_addrs.as_slice(), address)
    }

    /// Whether a packet to this address is for the interface: one of its own addresses, one of its groups, a broadcast
    /// address, or ::1.
    #[inline(always)]
    pub fn is_for_host(&self, address: &IpAddress) -> bool
        ensures { result ≡ addresses.is_for_host (host_of self.now no_sockets) address.now }
    {
        self.has_ip_addr(address) || self.is_for_group_or_itself_by_copy(address)
    }

    // A copy of the address is made where this is asked, so that no other packet stores one.
    #[inline(always)]
    fn is_for_group_or_itself_by_copy(&self, address: &IpAddress) -> bool
        ensures { result ≡ (addresses.has_multicast_group (host_of self.now no_sockets) address.now
            || addresses.is_broadcast (host_of self.now no_sockets).ip_addrs address.now
            || addresses.is_loopback address.now) }
    {
        self.is_for_group_or_itself(*address)
    }

    /// Whether an address is one of the interface's groups, a broadcast address, or ::1.
    #[inline(never)]
    fn is_for_group_or_itself(&self, address: IpAddress) -> bool
        ensures { result ≡ (addresses.has_multicast_group (host_of self.now no_sockets) address
            || addresses.is_broadcast (host_of self.now no_sockets).ip_addrs address || addresses.is_loopback address) }
    {
        self.has_multicast_group(&address) || self.is_broadcast(&address) || is_loopback(&address)
    }

    /// Whether an address is the limited broadcast address, or the broadcast address of one of the interface's networks
    /// (RFC 922). Such an address ends in two ones at least, so most addresses are ruled out by that test.
    #[inline(always)]
    #[tactic(auto, using(crate::proofs::Broadcasts::broadcasts))]
    pub fn is_broadcast_v4(&self, address: &Ipv4Address) -> bool
        ensures { result ≡ addresses.is_broadcast_v4 (host_of self.now no_sockets).ip_addrs address.now }
    {
        if address.bits % 4 != 3 {
            return false;
        }
        address.is_broadcast() || ends_a_network(self.ip_addrs.as_slice(), address)
    }

    /// Whether an IPv4 address is unicast, as far as the interface can know.
    #[inline(always)]
    pub fn is_unicast_v4(&self, address: &Ipv4Address) -> bool
        ensures { result ≡ addresses.is_unicast_v4 (host_of self.now no_sockets).ip_addrs address.now }
    {
        address.is_unicast() && !self.is_broadcast_v4(address)
    }

    /// Whether an address of either family is unicast, as far as the interface can know.
    #[inline(always)]
    pub fn is_unicast(&self, address: &IpAddress) -> bool
        ensures { result ≡ addresses.is_unicast (host_of self.now no_sockets).ip_addrs address.now }
    {
        match address {
            IpAddress::Ipv4(address) => self.is_unicast_v4(address),
            IpAddress::Ipv6(address) => address.is_unicast(),
        }
    }

    /// The first IPv4 address of the interface, if any.
    pub fn ipv4_addr(&self) -> Option<Ipv4Address>
        ensures { result ≡ addresses.ipv4_addr (host_of self.now no_sockets).ip_addrs }
    {
        ipv4_addr(self.ip_addrs.as_slice())
    }

    /// The first link-local address of the interface, if any (RFC 4291 2.5.6).
    pub fn link_local_addr(&self) -> Option<Ipv6Address>
        ensures { result ≡ addresses.link_local_addr (host_of self.now no_sockets).ip_addrs }
    {
        link_local_addr(self.ip_addrs.as_slice())
    }

    /// The source address for an IPv4 destination: the first address of the interface whose network contains the
    /// destination, otherwise the first IPv4 address.
    pub fn get_source_address_ipv4(&self, dst_addr: &Ipv4Address) -> Option<Ipv4Address>
        ensures { result ≡ addresses.source_v4 (host_of self.now no_sockets).ip_addrs dst_addr.now }
    {
        match on_link_addr(self.ip_addrs.as_slice(), dst_addr) {
            Some(near) => Some(near),
            None => self.ipv4_addr(),
        }
    }
}

impl Context {
    ghost use Rattle.std.specs.Prelude.{◌≡◌};
    ghost use Rattle.ip_address.specs.AddressSelection.Ipv6 as selection;
    ghost use Rattle.iface_context.specs.Stands.{host_of};

    /// The first IPv6 address of the interface, if any.
    pub fn ipv6_addr(&self) -> Option<Ipv6Address>
        ensures { result ≡ selection.ipv6_addr (host_of self.now no_sockets).ip_addrs }
    {
        ipv6_addr(self.ip_addrs.as_slice())
    }

    /// The source address for an IPv6 destination (RFC 6724 5), chosen from the interface's addresses by
    /// [`get_source_address_ipv6`].
    pub fn get_source_address_ipv6(&self, dst_addr: &Ipv6Address) -> Ipv6Address
        ensures { result ≡ selection.source_v6 (host_of self.now no_sockets).ip_addrs dst_addr.now }
    {
        get_source_address_ipv6(self.ip_addrs.as_slice(), dst_addr)
    }
}

impl Context {
    ghost use Rattle.std.specs.Prelude.{◌≡◌, ◌/◌, ◌^◌};
    ghost use Rattle.net_base.specs.Rand.{next};
    ghost use Rattle.host_machine.specs.Context.Host.{SocketSet};
    ghost use Rattle.iface_context.specs.Stands.{host_of};

    /// Draws the next random 16-bit word, for values that need not be secret.
    pub fn rand_u16(&mut self) -> u16
        ensures word { result ≡ next (host_of self.old no_sockets).random / 2 ^ 48 }
        ensures drawn { (sockets : SocketSet) → host_of self.new sockets
            ≡ record (host_of self.old sockets) { random = next (host_of self.old no_sockets).random } }
    {
        self.rand.rand_u16()
    }

    /// Draws the next random 32-bit word, for values that need not be secret.
    pub fn rand_u32(&mut self) -> u32
        ensures word { result ≡ next (host_of self.old no_sockets).random / 2 ^ 32 }
        ensures drawn { (sockets : SocketSet) → host_of self.new sockets
            ≡ record (host_of self.old sockets) { random = next (host_of self.old no_sockets).random } }
    {
        self.rand.rand_u32()
    }
}

impl SocketContext for Context {
    ghost use Rattle.host_machine.specs.Context.Addresses as addresses;

    ghost moment = { λ c. c.moment };

    ghost source_for = { λ c. addresses.source_for c.ip_addrs.items };

    ghost is_broadcast_in = { λ c. addresses.is_broadcast c.ip_addrs.items };

    fn now(&self) -> Instant {
        self.moment
    }

    fn get_source_address(&self, dst_addr: &IpAddress) -> Option<IpAddress> {
        match dst_addr {
            IpAddress::Ipv4(dst_addr) => match self.get_source_address_ipv4(dst_addr) {
                Some(source) => Some(IpAddress::Ipv4(source)),
                None => None,
            },
            IpAddress::Ipv6(dst_addr) => {
                Some(IpAddress::Ipv6(self.get_source_address_ipv6(dst_addr)))
            }
        }
    }

    fn is_broadcast(&self, address: &IpAddress) -> bool {
        match address {
            IpAddress::Ipv4(address) => self.is_broadcast_v4(address),
            IpAddress::Ipv6(_) => false,
        }
    }
}
