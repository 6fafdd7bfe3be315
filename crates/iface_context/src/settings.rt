//! The settings that calls of an interface change in its context.
ghost use Rattle.std.specs.Prelude.{◌≡◌, ◌≤◌, List, [], false, length, pos, vec_capacity};
ghost use Rattle.net_base.specs.Time.{IsMoment};
ghost use Rattle.net_base.specs.Checksum.{ip_mtu_of};
ghost use Rattle.ip_address.specs.Hardware.{IsOf, medium_of};
ghost use Rattle.host_machine.specs.Context.Host.{SocketSet, at, no_sockets, with_neighbor_room, with_route_room};
ghost use Rattle.host_machine.specs.Context.Settings.{after_address_change, with_capacities};
ghost use Rattle.iface_tables.specs.declared.report.IgmpReportState.TheVariants as igmp;
ghost use Rattle.iface_tables.specs.declared.report.MldReportState.TheVariants as mld;
ghost use Rattle.iface_tables.specs.Neighbor.{first_neighbors, room_over};
ghost use Rattle.iface_tables.specs.Route.{route_room_over};
ghost use Rattle.fragmentation.specs.Slots.{free_slots};
ghost use Rattle.iface_tables.specs.Slaac.{initial_state};
ghost use Rattle.iface_context.specs.Stands.{host_of, with_routes};
ghost use Rattle.std.specs.Borrow.{sem, Lends};
ghost use Rattle.iface_tables.specs.contracts.route.Routes.{the_row as routes_row};
ghost use Rattle.iface_context.specs.contracts.context.Context.{the_row as context_row};

use crate::context::Context;
use crate::membership::{Membership, update_solicited_node_groups};
use arrayvec::ArrayVec;
use fragmentation::Fragmenter;
use host_machine::Capacities;
use iface_tables::neighbor::{Cache, Hints, Neighbor};
use iface_tables::route::{Route, Routes};
use iface_tables::route_trie::RouteNode;
use iface_tables::sync::MAX_ADDR_COUNT;
use iface_tables::{MAX_GROUP_COUNT, Slaac};
use ip_wire::{HardwareAddress, IpAddress, IpCidr};
use net_base::phy::DeviceCapabilities;
use net_base::rand::Rand;
use net_base::time::{Duration, Instant};

/// The context of a new interface over a device with these capabilities: no address, route, neighbour or group, and
/// nothing learnt from routers. `iface_tables` says whether it takes addresses from routers.
pub fn new(
    capabilities: DeviceCapabilities,
    hardware_addr: HardwareAddress,
    ipv4_id: u16,
    rand: Rand,
    slaac: bool,
    now: Instant,
) -> Context
    requires timely { IsMoment now }
    requires short { capabilities.max_transmission_unit ≤ 1514 }
    requires long { 576 ≤ ip_mtu_of capabilities }
    requires of_medium { medium_of hardware_addr ≡ capabilities.medium }
    requires own { IsOf capabilities.medium hardware_addr }
    ensures { (sockets : SocketSet) → host_of result sockets ≡ record {
      capabilities = capabilities;
      hardware_addr = hardware_addr;
      moment = now;
      ip_addrs = [];
      addr_room = 4;
      any_ip = false;
      routes = [];
      route_room = 4;
      neighbors = first_neighbors 4;
      ipv4_id = ipv4_id;
      reassembly_timeout = 60000000;
      slots = free_slots 2;
      left = [];
      groups = [];
      group_room = 8;
      igmp_report = igmp.Inactive;
      mld_report = mld.Inactive;
      slaac_enabled = slaac;
      slaac = initial_state;
      slaac_updated_at = pos 0;
      random = rand;
      sockets = sockets;
    } }
{
    Context {
        capabilities,
        hardware_addr,
        moment: now,
        ip_addrs: ArrayVec::new(),
        addr_room: 4,
        any_ip: false,
        routes: Routes::new(),
        neighbor_cache: Cache::new(),
        ipv4_id,
        reassembly_timeout: Duration::from_secs(60),
        fragmenter: Fragmenter::new(),
        multicast: Membership::new(),
        slaac_enabled: slaac,
        slaac: Slaac::new(),
        slaac_updated_at: Instant::ZERO,
        rand,
    }
}

/// Sets the moment.
pub fn set_moment(context: &mut Context, now: Instant)
    requires { IsMoment now }
    ensures { (sockets : SocketSet) → host_of context.new sockets ≡ at (host_of context.old sockets) now }
{
    context.moment = now;
}

/// Replaces the addresses, of which there are no more than there is room for, forgets all neighbours, and leaves and
/// joins solicited-node groups to match the addresses.
pub fn set_ip_addrs(context: &mut Context, list: &[IpCidr])
    requires { length list.now ≤ (host_of context.old no_sockets).addr_room }
    ensures { (sockets : SocketSet) →
        host_of context.new sockets ≡ after_address_change (host_of context.old sockets) list.now }
{
    context.ip_addrs.clear();
    let _ = context.ip_addrs.try_extend_from_slice(list);
    follow_addrs(context);
}

/// Forgets all neighbours, and leaves and joins solicited-node groups to match the addresses, which have changed.
pub(crate) fn follow_addrs(context: &mut Context)
    ensures { (sockets : SocketSet) → host_of context.new sockets
        ≡ after_address_change (host_of context.old sockets) (host_of context.old no_sockets).ip_addrs }
{
    context.neighbor_cache.flush();
    update_solicited_node_groups(
        &context.hardware_addr,
        context.ip_addrs.as_slice(),
        context.multicast.room,
        &mut context.multicast.groups,
    );
}

/// Forgets all neighbours, and keeps them from now on in this storage: as many as it has capacity for. Without capacity
/// there is room for four. As many hints make lookups fast.
pub fn set_neighbor_storage(
    context: &mut Context,
    storage: Vec<(IpAddress, Neighbor)>,
    hints: Vec<Hints>,
)
    ensures { (sockets : SocketSet) → host_of context.new sockets
        ≡ with_neighbor_room (host_of context.old sockets) (room_over (vec_capacity storage)) }
{
    context.neighbor_cache.set_storage(storage, hints);
}

/// Forgets all routes. From now on there is room for as many as both vectors have capacity for, as
/// [`Routes::set_storage`] says.
pub fn set_route_storage(context: &mut Context, routes: Vec<Route>, nodes: Vec<RouteNode>)
    ensures { (sockets : SocketSet) → host_of context.new sockets ≡ with_route_room (host_of context.old sockets)
        (route_room_over (vec_capacity routes) (vec_capacity nodes)) }
{
    context.routes.set_storage(routes, nodes);
}

/// Sets for how many addresses, groups, prefixes and routers there is room. What the interface has stays.
pub fn set_capacities(context: &mut Context, capacities: Capacities)
    ensures { (sockets : SocketSet) →
        host_of context.new sockets ≡ with_capacities (host_of context.old sockets) capacities }
{
    let asked = capacities.addresses.min(MAX_ADDR_COUNT).max(4);
    context.addr_room = asked.max(context.ip_addrs.len());
    context.multicast.room = capacities.groups.min(MAX_GROUP_COUNT);
    context
        .slaac
        .set_room(capacities.prefixes, capacities.routers);
}

/// Turns AnyIP on or off: whether addresses that are routed to the interface count as its own.
pub fn set_any_ip(context: &mut Context, any_ip: bool)
    ensures { (sockets : SocketSet) →
        host_of context.new sockets ≡ record (host_of context.old sockets) { any_ip = any_ip } }
{
    context.any_ip = any_ip;
}

/// Sets the reassembly timeout of slots that are taken from now on, at most a day.
pub fn set_reassembly_timeout(context: &mut Context, timeout: Duration)
    requires { timeout ≤ 86400000000 }
    ensures { (sockets : SocketSet) →
        host_of context.new sockets ≡ record (host_of context.old sockets) { reassembly_timeout = timeout } }
{
    context.reassembly_timeout = timeout;
}

/// Sets the hardware address, which must be of the interface's medium.
pub fn set_hardware_addr(context: &mut Context, hardware_addr: HardwareAddress)
    requires of_medium { medium_of hardware_addr ≡ (host_of context.old no_sockets).capabilities.medium }
    requires own { IsOf (host_of context.old no_sockets).capabilities.medium hardware_addr }
    ensures { (sockets : SocketSet) →
        host_of context.new sockets ≡ record (host_of context.old sockets) { hardware_addr = hardware_addr } }
{
    context.hardware_addr = hardware_addr;
}

/// Mutable access to the routes.
pub fn routes_mut(context: &mut Context) -> &mut Routes
    ensures* lends { sem 𝓛 (Lends context_row routes_row context.entry result (λ w. with_routes context.old w)) }
    ensures items { result.now.items ≡ (host_of context.old no_sockets).routes }
    ensures room { result.now.room ≡ (host_of context.old no_sockets).route_room }
{
    &mut context.routes
}
