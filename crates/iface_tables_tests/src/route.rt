//! The table of routes.
ghost use Rattle.std.specs.Prelude.{◌≡◌, ◌≤◌, true};
ghost use Rattle.ip_address.specs.Ip.{is_unicast};

use arrayvec::ArrayVec;
use iface_tables::route::{Route, RouteTableFull, Routes};
use ip_wire::{IpAddress, IpCidr, Ipv4Address, Ipv4Cidr, Ipv6Address, Ipv6Cidr};
use net_base::time::Instant;
use std::alloc::{AllocError, Global};
use std::test::Fail;

/// 10.0.0.1.
const NEAR: IpAddress = IpAddress::Ipv4(Ipv4Address { bits: 0x0a00_0001 });

/// 10.1.2.3.
const DISTANT: IpAddress = IpAddress::Ipv4(Ipv4Address { bits: 0x0a01_0203 });

const NETWORK: Ipv4Address = Ipv4Address { bits: 0x0a00_0000 };

const PART: Ipv4Address = Ipv4Address { bits: 0x0a01_0000 };

/// An address of 192.168.69.0/24.
fn router(host: u8) -> Ipv4Address {
    Ipv4Address {
        bits: 0xc0a8_4500 + u32::from(host),
    }
}

/// fe80:0:0:SUBNET::HOST.
fn address6(subnet: u16, host: u16) -> Ipv6Address {
    Ipv6Address {
        bits: 0xfe80_0000_0000_0000_0000_0000_0000_0000
            + u128::from(subnet) * 0x1_0000_0000_0000_0000
            + u128::from(host),
    }
}

fn route(
    address: Ipv4Address,
    prefix_len: u8,
    via: Ipv4Address,
    expires_at: Option<Instant>,
) -> Route
    requires { prefix_len ≤ 32 }
{
    Route {
        cidr: IpCidr::Ipv4(Ipv4Cidr::new(address, prefix_len)),
        via_router: IpAddress::Ipv4(via),
        preferred_until: None,
        expires_at,
    }
}

fn route6(address: Ipv6Address, via: Ipv6Address, expires_at: Option<Instant>) -> Route {
    Route {
        cidr: IpCidr::Ipv6(Ipv6Cidr::new(address, 64)),
        via_router: IpAddress::Ipv6(via),
        preferred_until: None,
        expires_at,
    }
}

/// Puts a route behind all others, if there is room.
fn append(routes: &mut Routes, route: Route) {
    routes.update(|mut list| {
        let _ = put(&mut list, route);
        list
    });
}

/// Gives the route back where there is no room.
fn put(list: &mut ArrayVec<Route, 4>, route: Route) -> Option<Route> {
    if list.is_full() {
        return Some(route);
    }
    list.push(route);
    None
}

/// Routes to 10.0.0.0/8, and two to 10.1.0.0/16, of which one lasts ten seconds and the other nine.
fn append_nested(routes: &mut Routes) {
    append(routes, route(NETWORK, 8, router(2), None));
    append(
        routes,
        route(PART, 16, router(3), Some(Instant::from_secs(10))),
    );
    append(
        routes,
        route(PART, 16, router(4), Some(Instant::from_secs(9))),
    );
}

/// The router by which 10.1.2.3 is reached at so many microseconds.
fn via_at(routes: &Routes, micros: u32) -> Option<IpAddress> {
    routes.lookup(&DISTANT, Instant::from_micros(i64::from(micros)))
}

fn finds_the_longest(routes: &mut Routes) -> bool {
    append_nested(routes);
    via_at(routes, 9_000_000) == Some(IpAddress::Ipv4(router(4)))
        && via_at(routes, 10_000_000) == Some(IpAddress::Ipv4(router(3)))
        && via_at(routes, 10_000_001) == Some(IpAddress::Ipv4(router(2)))
}

#[test]
fn the_longest_live_prefix_is_taken(rt: HostRuntime) {
    assert!(rt; finds_the_longest(&mut Routes::new()));
}

/// Whether a lookup finds this router, and reads so many nodes.
fn finds(
    routes: &Routes,
    address: &IpAddress,
    timestamp: Instant,
    router: Option<IpAddress>,
    nodes: usize,
) -> bool
    requires { is_unicast address.now ≡ true }
{
    let (found, steps) = routes.lookup_steps(address, timestamp);
    found == router && steps.get() == nodes
}

/// Whether 10.1.2.3 is found behind this router at so many microseconds, by reading 17 nodes.
fn finds_at(routes: &Routes, micros: u32, host: u8) -> bool {
    let now = Instant::from_micros(i64::from(micros));
    finds(
        routes,
        &DISTANT,
        now,
        Some(IpAddress::Ipv4(router(host))),
        17,
    )
}

/// 11.0.0.1, and fe80::1.
const OUTSIDE: IpAddress = IpAddress::Ipv4(Ipv4Address { bits: 0x0b00_0001 });

const LINK_LOCAL: IpAddress = IpAddress::Ipv6(Ipv6Address {
    bits: 0xfe80_0000_0000_0000_0000_0000_0000_0001,
});

fn reads_nodes_in_common(routes: &mut Routes) -> bool {
    append_nested(routes);
    finds_at(routes, 9_000_000, 4)
        && finds_at(routes, 10_000_000, 3)
        && finds_at(routes, 10_000_001, 2)
        && finds(routes, &OUTSIDE, Instant::ZERO, None, 8)
        && finds(routes, &LINK_LOCAL, Instant::ZERO, None, 1)
}

#[test]
fn a_lookup_reads_a_node_for_each_bit_in_common(rt: HostRuntime) {
    assert!(rt; reads_nodes_in_common(&mut Routes::new()));
}

/// 2001::1, 4001::1, 8001::1 and c001::1, which differ in their first two bits.
const HOST_A: Ipv6Address = Ipv6Address {
    bits: 0x2001_0000_0000_0000_0000_0000_0000_0001,
};

const HOST_B: Ipv6Address = Ipv6Address {
    bits: 0x4001_0000_0000_0000_0000_0000_0000_0001,
};

const HOST_C: Ipv6Address = Ipv6Address {
    bits: 0x8001_0000_0000_0000_0000_0000_0000_0001,
};

const HOST_D: Ipv6Address = Ipv6Address {
    bits: 0xc001_0000_0000_0000_0000_0000_0000_0001,
};

/// The route to a host of its own.
fn host_route(address: Ipv6Address, via: Ipv6Address) -> Route {
    Route {
        cidr: IpCidr::Ipv6(Ipv6Cidr::new(address, 128)),
        via_router: IpAddress::Ipv6(via),
        preferred_until: None,
        expires_at: None,
    }
}

/// Whether a host is found behind this router.
fn finds_host(routes: &Routes, address: &IpAddress, host: u16) -> bool
    requires { is_unicast address.now ≡ true }
{
    let via = Some(IpAddress::Ipv6(address6(0, host)));
    finds(routes, address, Instant::ZERO, via, 129)
}

fn has_place_for_four(routes: &mut Routes) -> bool {
    append(routes, host_route(HOST_A, address6(0, 1)));
    append(routes, host_route(HOST_B, address6(0, 2)));
    append(routes, host_route(HOST_C, address6(0, 3)));
    append(routes, host_route(HOST_D, address6(0, 4)));
    routes.as_slice().len() == 4
        && finds_host(routes, &IpAddress::Ipv6(HOST_A), 1)
        && finds_host(routes, &IpAddress::Ipv6(HOST_B), 2)
        && finds_host(routes, &IpAddress::Ipv6(HOST_C), 3)
        && finds_host(routes, &IpAddress::Ipv6(HOST_D), 4)
}

#[test]
fn four_hosts_have_place(rt: HostRuntime) {
    assert!(rt; has_place_for_four(&mut Routes::new()));
}

const BROADCAST: Ipv4Address = Ipv4Address { bits: 0xffff_ffff };

fn finds_broadcast(routes: &mut Routes) -> bool {
    append(routes, route(NETWORK, 8, router(2), None));
    append(routes, route(PART, 16, BROADCAST, None));
    via_at(routes, 0) == Some(IpAddress::Ipv4(BROADCAST))
}

#[test]
fn a_router_need_not_be_unicast(rt: HostRuntime) {
    assert!(rt; finds_broadcast(&mut Routes::new()));
}

/// fe80:0:0:3364::1 and fe80:0:0:3364::15.
const OTHER_IPV6: IpAddress = IpAddress::Ipv6(Ipv6Address {
    bits: 0xfe80_0000_0000_3364_0000_0000_0000_0001,
});

const FAR_IPV6: IpAddress = IpAddress::Ipv6(Ipv6Address {
    bits: 0xfe80_0000_0000_3364_0000_0000_0000_0015,
});

fn finds_near_ones(routes: &mut Routes) -> bool {
    append(routes, route6(address6(2, 0), address6(2, 1), None));
    routes.lookup(&BESIDE_IPV6, Instant::ZERO) == Some(IpAddress::Ipv6(address6(2, 1)))
        && routes.lookup(&OTHER_IPV6, Instant::ZERO) == None
}

fn finds_far_ones(routes: &mut Routes) -> bool {
    let end = Instant::from_millis(10);
    append(
        routes,
        route6(address6(0x3364, 0), address6(0x3364, 1), Some(end)),
    );
    routes.lookup(&FAR_IPV6, end) == Some(IpAddress::Ipv6(address6(0x3364, 1)))
        && routes.lookup(&FAR_IPV6, Instant::from_millis(11)) == None
}

#[test]
fn routes_of_ipv6_are_taken(rt: HostRuntime) {
    let mut routes = Routes::new();
    assert!(rt; finds_near_ones(&mut routes) && finds_far_ones(&mut routes));
}

fn is_full_of_four(routes: &mut Routes) -> bool {
    for host in 1..5 {
        append(routes, route(PART, 16, router(host), None));
    }
    routes.add_default_ipv4_route(router(9)) == Err(RouteTableFull)
        && routes.add_default_ipv6_route(address6(0, 9)) == Err(RouteTableFull)
        && routes.as_slice().len() == 4
}

/// Leaves the first three routes.
fn truncate(routes: &mut Routes) {
    routes.update(|mut list| {
        list.truncate(3);
        list
    });
}

fn replaces_the_default(routes: &mut Routes) -> bool {
    let old = Some(Route::new_ipv4_gateway(router(9)));
    routes.add_default_ipv4_route(router(9)) == Ok(None)
        && routes.get_default_ipv4_route() == old
        && routes.add_default_ipv4_route(router(8)) == Ok(old)
        && routes.lookup(&NEAR, Instant::ZERO) == Some(IpAddress::Ipv4(router(8)))
        && routes.as_slice().len() == 4
}

#[test]
fn a_default_route_takes_the_place_of_the_old_one(rt: HostRuntime) {
    let mut routes = Routes::new();
    let is_full = is_full_of_four(&mut routes);
    truncate(&mut routes);
    assert!(rt; is_full && replaces_the_default(&mut routes));
}

/// Adds a default route of IPv6, another route, and a default route of IPv4.
fn adds_three(routes: &mut Routes) -> bool {
    let is_added = routes.add_default_ipv6_route(address6(0, 1)) == Ok(None);
    append(routes, route(PART, 16, router(3), None));
    is_added && routes.add_default_ipv4_route(router(1)) == Ok(None)
}

/// The default route of IPv6, and that of IPv4.
fn first_route() -> Route {
    Route::new_ipv6_gateway(address6(0, 1))
}

fn last_route() -> Route {
    Route::new_ipv4_gateway(router(1))
}

fn are_three(routes: &Routes) -> bool {
    let three = [
        first_route(),
        route(PART, 16, router(3), None),
        last_route(),
    ];
    routes.as_slice() == three.as_slice() && routes.get_default_ipv6_route() == Some(first_route())
}

fn goes_first(routes: &mut Routes) -> bool {
    let two = [route(PART, 16, router(3), None), last_route()];
    routes.remove_default_ipv6_route() == Some(first_route())
        && routes.remove_default_ipv6_route() == None
        && routes.as_slice() == two.as_slice()
}

fn goes_last(routes: &mut Routes) -> bool {
    let one = [route(PART, 16, router(3), None)];
    routes.remove_default_ipv4_route() == Some(last_route())
        && routes.get_default_ipv4_route() == None
        && routes.as_slice() == one.as_slice()
}

/// Whether the three routes are there, and the others stay in order when the default routes are removed.
fn stay_in_order(routes: &mut Routes) -> bool {
    are_three(routes) && goes_first(routes) && goes_last(routes)
}

#[test]
fn a_default_route_leaves_the_others_in_order(rt: HostRuntime) {
    let mut routes = Routes::new();
    let is_added = adds_three(&mut routes);
    assert!(rt; is_added && stay_in_order(&mut routes));
}

/// A table over storage for so many routes and so many nodes.
fn over(alloc: Global, routes: usize, nodes: usize) -> Result<Routes, AllocError> {
    let mut table = Routes::new();
    let storage = Vec::with_capacity(alloc, routes)?;
    table.set_storage(storage, Vec::with_capacity(alloc, nodes)?);
    Ok(table)
}

/// 10.1.2.0, 10.1.9.9, and fe80:0:0:2::d.
const SMALL_PART: Ipv4Address = Ipv4Address { bits: 0x0a01_0200 };

const BESIDE: IpAddress = IpAddress::Ipv4(Ipv4Address { bits: 0x0a01_0909 });

const BESIDE_IPV6: IpAddress = IpAddress::Ipv6(Ipv6Address {
    bits: 0xfe80_0000_0000_0002_0000_0000_0000_000d,
});

const HOST: Ipv4Address = Ipv4Address { bits: 0x0a01_0203 };

/// Eight routes, of which two each are to one network, and one lasts ten seconds.
fn eight_routes() -> [Route; 8] {
    [
        route(NETWORK, 8, router(1), None),
        route(PART, 16, router(2), None),
        route(SMALL_PART, 24, router(3), None),
        route(HOST, 32, router(4), Some(Instant::from_secs(10))),
        route(PART, 16, router(5), None),
        route(NETWORK, 8, router(6), None),
        route6(address6(2, 0), address6(2, 1), None),
        Route::new_ipv4_gateway(router(8)),
    ]
}

/// Whether lookups among the eight find the longest prefix, and of equal ones the last.
fn finds_the_best_of_eight(routes: &Routes) -> bool {
    let via = |host| Some(IpAddress::Ipv4(router(host)));
    let (end, later) = (Instant::from_secs(10), Instant::from_secs(11));
    finds(routes, &DISTANT, end, via(4), 33)
        && finds(routes, &DISTANT, later, via(3), 33)
        && finds(routes, &BESIDE, end, via(5), 21)
        && finds(routes, &NEAR, end, via(6), 16)
        && finds(routes, &OUTSIDE, end, via(8), 8)
        && routes.lookup(&BESIDE_IPV6, end) == Some(IpAddress::Ipv6(address6(2, 1)))
}

fn takes_eight(routes: &mut Routes) -> bool {
    let mut are_pushed = routes.room() == 8;
    for route in &eight_routes() {
        are_pushed &= routes.push(*route) == Ok(());
    }
    are_pushed && finds_the_best_of_eight(routes)
}

fn refuses_a_ninth(routes: &mut Routes) -> bool {
    routes.push(route(PART, 32, router(9), None)) == Err(RouteTableFull)
        && routes.add_default_ipv6_route(address6(0, 9)) == Err(RouteTableFull)
        && routes.as_slice() == eight_routes().as_slice()
        && finds_the_best_of_eight(routes)
}

fn replaces_the_eighth(routes: &mut Routes) -> bool {
    let old = Some(Route::new_ipv4_gateway(router(8)));
    routes.add_default_ipv4_route(router(9)) == Ok(old) && routes.as_slice().len() == 8
}

#[test]
fn storage_has_room_for_eight(rt: HostRuntime) {
    let mut routes = over(rt.alloc(), 8, 1026).expect(&rt, "room");
    let is_right = takes_eight(&mut routes)
        && refuses_a_ninth(&mut routes)
        && replaces_the_eighth(&mut routes);
    assert!(rt; is_right);
}

/// Capacity for routes and for nodes, and the room.
const ROOMS: [(usize, usize, usize); 7] = [
    (8, 1025, 7),
    (5, 4098, 5),
    (40, 10_000, 32),
    (1, 130, 1),
    (8, 129, 4),
    (0, 4098, 4),
    (8, 0, 4),
];

/// Whether a table over storage has this room, and no routes.
fn has_room(alloc: Global, routes: usize, nodes: usize, room: usize) -> bool {
    match over(alloc, routes, nodes) {
        Ok(table) => table.room() == room && table.as_slice().len() == 0,
        Err(_) => false,
    }
}

fn have_room(alloc: Global) -> bool {
    for (routes, nodes, room) in &ROOMS {
        if !has_room(alloc, *routes, *nodes, *room) {
            return false;
        }
    }
    true
}

#[test]
fn the_lesser_capacity_counts(rt: HostRuntime) {
    assert!(rt; have_room(rt.alloc()));
}

/// Whether 10.1.9.9 is found behind the second router, by reading 21 nodes.
fn finds_beside(routes: &Routes) -> bool {
    let via = Some(IpAddress::Ipv4(router(2)));
    finds(routes, &BESIDE, Instant::ZERO, via, 21)
}

fn is_empty_of_four(routes: &Routes) -> bool {
    routes.as_slice().len() == 0
        && routes.room() == 4
        && finds(routes, &DISTANT, Instant::ZERO, None, 1)
}

fn takes_four_of(routes: &mut Routes, eight: &[Route; 8]) -> bool {
    routes.set(eight.as_slice()) == Err(RouteTableFull)
        && routes.as_slice().len() == 0
        && routes.set(&eight[..4]) == Ok(())
        && routes.push(eight[4]) == Err(RouteTableFull)
        && routes.as_slice() == &eight[..4]
        && finds_beside(routes)
}

#[test]
fn storage_for_none_is_that_of_the_table(rt: HostRuntime) {
    let mut routes = over(rt.alloc(), 8, 1026).expect(&rt, "room");
    let eight = eight_routes();
    let is_set = routes.set(eight.as_slice()) == Ok(());
    routes.set_storage(Vec::new(rt.alloc()), Vec::new(rt.alloc()));
    assert!(rt; is_set && is_empty_of_four(&routes) && takes_four_of(&mut routes, &eight));
}

/// Whether a table of the eight has the others in order once the fifth is removed, and when none is.
fn removes_the_fifth(routes: &mut Routes, eight: &[Route; 8]) -> bool {
    let left = [
        eight[0], eight[1], eight[2], eight[3], eight[5], eight[6], eight[7],
    ];
    routes.set(eight.as_slice()) == Ok(())
        && routes.remove(4) == Some(eight[4])
        && routes.as_slice() == left.as_slice()
        && routes.remove(7) == None
        && routes.as_slice() == left.as_slice()
        && finds_beside(routes)
}

#[test]
fn a_removed_route_leaves_the_others_in_order(rt: HostRuntime) {
    let mut routes = over(rt.alloc(), 8, 1026).expect(&rt, "room");
    assert!(rt; removes_the_fifth(&mut routes, &eight_routes()));
}

fn sees_four_of_eight(routes: &mut Routes, eight: &[Route; 8]) -> bool {
    let is_set = routes.set(eight.as_slice()) == Ok(());
    truncate(routes);
    is_set && routes.as_slice() == &eight[..3] && routes.room() == 8
}

/// Also where there is room for one alone.
fn sees_four_of_one(routes: &mut Routes, eight: &[Route; 8]) -> bool {
    let is_one = routes.push(eight[0]) == Ok(()) && routes.push(eight[1]) == Err(RouteTableFull);
    append(routes, eight[1]);
    is_one && routes.as_slice() == &eight[..2] && routes.push(eight[2]) == Err(RouteTableFull)
}

#[test]
fn an_update_sees_the_first_four(rt: HostRuntime) {
    let eight = eight_routes();
    let mut routes = over(rt.alloc(), 8, 1026).expect(&rt, "room");
    let are_three = sees_four_of_eight(&mut routes, &eight);
    let mut routes = over(rt.alloc(), 1, 130).expect(&rt, "room");
    assert!(rt; are_three && sees_four_of_one(&mut routes, &eight));
}

#[test]
fn printed_routes(rt: HostRuntime) -> Result<(), Fail> {
    let first = Route::new_ipv4_gateway(router(100));
    let second = Route::new_ipv6_gateway(address6(0, 1));
    let text = format!(in rt.alloc(); "{first}, {second}, {RouteTableFull}")?;
    assert_eq!(rt;
        text.as_str(),
        "0.0.0.0/0 via 192.168.69.100, ::/0 via fe80::1, Route table full"
    );
    Ok(())
}
