//! How addresses and routes of an interface follow the prefixes and routers learnt (RFC 4862 5.5.3, RFC 4861 6.3.4).
ghost use Rattle.std.specs.Prelude.{◌≡◌, ◌≤◌, ◌&&◌, length, not, filter, slice_get};
ghost use Rattle.std.specs.List.{list_any};
ghost use Rattle.iface_tables.specs.declared.route.Route.{Route as StoredRoute};
ghost use Rattle.ip_address.specs.LinkPrefix as made;
ghost use Rattle.iface_tables.specs.Slaac.{is_prefix_valid, is_route_valid};
ghost use Rattle.iface_tables.specs.Sync as spec;

use crate::route as table;
use crate::slaac::{Prefix, Route};
use arrayvec::ArrayVec;
use ip_address::{HardwareAddress, IpAddress, IpCidr, Ipv6Cidr};
use net_base::time::Instant;

/// The maximum number of addresses of an interface.
pub const MAX_ADDR_COUNT: usize = 16;

/// Brings the addresses of an interface in line with the known prefixes, where there is room for so many, at most sixteen.
/// The address formed from each valid prefix is appended in order, if it is unicast, isn't there yet and there is room.
/// Those of expired prefixes are removed. Addresses with different prefix lengths are different.
pub fn sync_addrs(
    own: &mut ArrayVec<IpCidr, MAX_ADDR_COUNT>,
    room: usize,
    hardware_addr: &HardwareAddress,
    prefixes: &[Prefix],
    now: Instant,
)
    requires room { room ≤ MAX_ADDR_COUNT }
    requires few { length own.old.items ≤ room }
    ensures list { own.new.items ≡ spec.synced_addrs room hardware_addr.now now prefixes.now own.old.items }
    ensures fits { length own.new.items ≤ room }
{
    add_addrs(own, room, hardware_addr, prefixes, now);
    remove_ended_addrs(own, hardware_addr, prefixes, now);
}

/// Brings the routes of an interface in line with the known routers. Those of expired routers are removed. That via each
/// valid router is appended in order, if it isn't there yet and there is room. Such a route has no expiry of its own.
pub fn sync_routes(stored: &mut table::Routes, routes: &[Route], now: Instant)
    ensures { stored.new ≡ record stored.old {
      items = spec.synced_routes stored.old.room now routes.now stored.old.items;
    } }
{
    remove_ended(stored, routes, now);
    add_routes(stored, routes, now);
}

// Adds the address formed from each valid prefix.
fn add_addrs(
    own: &mut ArrayVec<IpCidr, MAX_ADDR_COUNT>,
    room: usize,
    hardware_addr: &HardwareAddress,
    prefixes: &[Prefix],
    now: Instant,
)
    requires room { room ≤ MAX_ADDR_COUNT }
    requires few { length own.old.items ≤ room }
    ensures list { own.new.items ≡ spec.with_addrs room hardware_addr.now now prefixes.now own.old.items }
    ensures fits { length own.new.items ≤ room }
{
    for prefix in prefixes {
        if prefix.info.is_valid(now) {
            add_addr(
                own,
                room,
                Ipv6Cidr::from_link_prefix(&prefix.cidr, *hardware_addr),
            );
        }
    }
}

// Adds an address, if it is unicast, isn't there and there is room.
fn add_addr(own: &mut ArrayVec<IpCidr, MAX_ADDR_COUNT>, room: usize, address: Option<Ipv6Cidr>)
    requires room { room ≤ MAX_ADDR_COUNT }
    requires few { length own.old.items ≤ room }
    ensures list { own.new.items ≡ spec.with_addr room address own.old.items }
    ensures fits { length own.new.items ≤ room }
{
    if let Some(cidr) = address {
        if cidr.address.is_unicast() && !has_cidr(own.as_slice(), &cidr) && own.len() < room {
            own.push(IpCidr::Ipv6(cidr));
        }
    }
}

// Whether a network is in a list, by address and length.
fn has_cidr(own: &[IpCidr], cidr: &Ipv6Cidr) -> bool
    ensures { result ≡ list_any (spec.is_cidr cidr.now) own.now }
{
    own.iter().any(|other| is_cidr(other, cidr))
}

// Whether a network equals this IPv6 one, by address and length.
fn is_cidr(other: &IpCidr, cidr: &Ipv6Cidr) -> bool
    ensures { result ≡ spec.is_cidr cidr.now other.now }
{
    match other {
        IpCidr::Ipv4(_) => false,
        IpCidr::Ipv6(other) => other == cidr,
    }
}

// Removes the addresses formed from prefixes that have expired.
fn remove_ended_addrs(
    own: &mut ArrayVec<IpCidr, MAX_ADDR_COUNT>,
    hardware_addr: &HardwareAddress,
    prefixes: &[Prefix],
    now: Instant,
)
    ensures list { own.new.items ≡ filter (λ c. not (spec.has_ended hardware_addr.now now prefixes.now c)) own.old.items }
    ensures fits { length own.new.items ≤ length own.old.items }
{
    own.retain(|cidr| !has_ended(cidr, hardware_addr, prefixes, now));
}

// Whether an address is one formed from a prefix that has expired.
fn has_ended(
    cidr: &IpCidr,
    hardware_addr: &HardwareAddress,
    prefixes: &[Prefix],
    now: Instant,
) -> bool
    ensures { result ≡ spec.has_ended hardware_addr.now now prefixes.now cidr.now }
{
    match cidr {
        IpCidr::Ipv4(_) => false,
        IpCidr::Ipv6(cidr) => is_of_ended(cidr, hardware_addr, prefixes, now),
    }
}

// Whether an IPv6 address is one formed from a prefix that has expired.
fn is_of_ended(
    cidr: &Ipv6Cidr,
    hardware_addr: &HardwareAddress,
    prefixes: &[Prefix],
    now: Instant,
) -> bool
    ensures { result ≡ list_any (λ p. not (is_prefix_valid now p)
        && spec.is_made (made.from_link_prefix p.cidr hardware_addr.now) cidr.now) prefixes.now }
{
    for prefix in prefixes {
        if !prefix.info.is_valid(now)
            && is_made(
                Ipv6Cidr::from_link_prefix(&prefix.cidr, *hardware_addr),
                cidr,
            )
        {
            return true;
        }
    }
    false
}

// Whether an address is the one that was formed.
fn is_made(made: Option<Ipv6Cidr>, cidr: &Ipv6Cidr) -> bool
    ensures { result ≡ spec.is_made made cidr.now }
{
    match made {
        Some(made) => made == *cidr,
        None => false,
    }
}

// Removes the stored routes of expired routers, the last one first.
fn remove_ended(stored: &mut table::Routes, routes: &[Route], now: Instant)
    ensures { stored.new ≡ record stored.old {
      items = filter (λ (s : StoredRoute). not (spec.is_ended_route now routes.now s)) stored.old.items;
    } }
{
    let len = stored.as_slice().len();
    for passed in 0..len {
        remove_if_ended(stored, len - 1 - passed, routes, now);
    }
}

// Removes the stored route at an index, if it is that of an expired router.
fn remove_if_ended(stored: &mut table::Routes, index: usize, routes: &[Route], now: Instant)
    ensures { stored.new ≡ record stored.old {
      items = spec.without_ended_at now routes.now stored.old.items index;
    } }
{
    if is_ended_at(stored.as_slice(), index, routes, now) {
        let _ = stored.remove(index);
    }
}

// Whether there is a stored route at an index, and it is that of an expired router.
fn is_ended_at(stored: &[table::Route], index: usize, routes: &[Route], now: Instant) -> bool
    ensures { result ≡ spec.is_ended_at now routes.now (slice_get stored.now index) }
{
    match stored.get(index) {
        Some(route) => is_ended_route(route, routes, now),
        None => false,
    }
}

// Whether a stored route is one that has expired.
fn is_ended_route(stored: &table::Route, routes: &[Route], now: Instant) -> bool
    ensures { result ≡ spec.is_ended_route now routes.now stored.now }
{
    for route in routes {
        if !route.is_valid(now) && is_route(route, stored) {
            return true;
        }
    }
    false
}

// Whether a stored route is to the same network via the same router.
fn is_route(route: &Route, stored: &table::Route) -> bool
    ensures { result ≡ spec.is_route route.now stored.now }
{
    match (&stored.cidr, &stored.via_router) {
        (IpCidr::Ipv6(cidr), IpAddress::Ipv6(router)) => route.same_route(cidr, router),
        _ => false,
    }
}

// Adds the route via each valid router.
fn add_routes(stored: &mut table::Routes, routes: &[Route], now: Instant)
    ensures { stored.new ≡ record stored.old {
      items = spec.with_routes stored.old.room now routes.now stored.old.items;
    } }
{
    for route in routes {
        if route.is_valid(now) {
            add_route(stored, route);
        }
    }
}

// Adds a route, if it isn't there and there is room.
fn add_route(stored: &mut table::Routes, route: &Route)
    ensures { stored.new ≡ record stored.old { items = spec.with_route stored.old.room route.now stored.old.items } }
{
    if has_route(stored.as_slice(), route) {
        return;
    }
    let _ = stored.push(table::Route {
        cidr: IpCidr::Ipv6(route.cidr),
        via_router: IpAddress::Ipv6(route.via_router),
        preferred_until: None,
        expires_at: None,
    });
}

// Whether a route to the same network via the same router is stored.
fn has_route(stored: &[table::Route], route: &Route) -> bool
    ensures { result ≡ list_any (spec.is_route route.now) stored.now }
{
    stored.iter().any(|other| is_route(route, other))
}
