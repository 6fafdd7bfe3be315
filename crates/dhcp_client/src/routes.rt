//! Routes that a server tells (RFC 3442).
ghost use Rattle.std.specs.Prelude.{◌≡◌, ◌≤◌, ◌<◌, ◌+◌, ◌++◌, IsTrue, length};
ghost use Rattle.std.specs.Option.{SomeIff};
ghost use Rattle.dhcp_client.specs.Details.Routes as spec;

use crate::addresses::is_other;
use arrayvec::ArrayVec;
use ip_address::Ipv4Address;
use ip_wire::octets::u32_at;

/// A route to a network by a router.
#[derive(Clone, Copy, Debug, PartialEq, Eq)]
pub struct DhcpRoute {
    pub network: Ipv4Address,
    /// How many bits of the address are the network's: 1 to 32.
    pub prefix_len: u8,
    pub router: Ipv4Address,
}

impl Default for DhcpRoute {
    fn default() -> DhcpRoute {
        DhcpRoute {
            network: Ipv4Address::UNSPECIFIED,
            prefix_len: 0,
            router: Ipv4Address::UNSPECIFIED,
        }
    }
}

/// At most eight routes.
pub type DhcpRoutes = ArrayVec<DhcpRoute, 8>;

/// The length of the route that the octets begin with. `None` if none begins there.
#[inline(always)]
fn route_len(octets: &[u8]) -> Option<usize>
    ensures { SomeIff result (IsTrue (spec.begins_route octets.now)) (spec.route_len octets.now) }
{
    let width = usize::from(*octets.first()?);
    let len = 5 + (width + 7) / 8;
    if width > 32 || octets.len() < len {
        return None;
    }
    Some(len)
}

/// The route that the octets begin with.
fn route_in(octets: &[u8]) -> DhcpRoute
    requires { IsTrue (spec.begins_route octets.now) }
    ensures { result ≡ spec.route_in octets.now }
{
    let prefix_len = octets[0];
    let significant = (usize::from(prefix_len) + 7) / 8;
    DhcpRoute {
        network: Ipv4Address::new(
            network_octet(octets, significant, 0),
            network_octet(octets, significant, 1),
            network_octet(octets, significant, 2),
            network_octet(octets, significant, 3),
        ),
        prefix_len,
        router: Ipv4Address {
            bits: u32_at(octets, 1 + significant),
        },
    }
}

/// An octet of a route's network, of which so many are there.
#[inline(always)]
fn network_octet(octets: &[u8], significant: usize, i: usize) -> u8
    requires significant { significant ≡ spec.significant octets.now }
    requires there { significant < length octets.now }
    ensures { result ≡ spec.network_octet octets.now i }
{
    if i < significant { octets[i + 1] } else { 0 }
}

/// Whether the octets are routes, up to the last one, and at least one.
pub(crate) fn are_routes(octets: &[u8]) -> bool
    ensures { result ≡ spec.are_routes octets.now }
{
    !octets.is_empty() && are_whole(octets)
}

/// Whether the octets are routes, up to the last one.
fn are_whole(octets: &[u8]) -> bool
    ensures { result ≡ spec.are_whole 0 octets.now }
{
    let mut rest = octets;
    while let Some(len) = route_len(rest) {
        rest = &rest[len..];
    }
    rest.is_empty()
}

/// The router of the first default route.
pub(crate) fn default_router_in(octets: &[u8]) -> Option<Ipv4Address>
    ensures { result ≡ spec.default_in octets.now }
{
    let mut rest = octets;
    while let Some(len) = route_len(rest) {
        let route = route_in(rest);
        if route.prefix_len == 0 {
            return Some(route.router);
        }
        rest = &rest[len..];
    }
    None
}

/// The first eight routes that a host with an address can use, but for default routes; none if one is malformed.
pub(crate) fn routes_of(octets: &[u8], own: &Ipv4Address) -> DhcpRoutes
    ensures { result.items ≡ spec.routes_in own.now octets.now }
{
    let mut routes = DhcpRoutes::new();
    if are_routes(octets) {
        collect(octets, own, &mut routes);
    }
    routes
}

/// Appends the routes that a host with an address can use, as far as there is room.
fn collect(octets: &[u8], own: &Ipv4Address, routes: &mut DhcpRoutes)
    requires { length routes.old.items ≤ 8 }
    ensures items { routes.new.items ≡ spec.in_eight (routes.old.items ++ spec.usable own.now (spec.routes_after 0 octets.now)) }
    ensures len { length routes.new.items ≤ 8 }
{
    let mut rest = octets;
    while let Some(len) = route_len(rest) {
        push_if(route_in(rest), own, routes);
        rest = &rest[len..];
    }
}

/// Appends a route, if a host with an address can use it and there is room.
fn push_if(route: DhcpRoute, own: &Ipv4Address, routes: &mut DhcpRoutes)
    requires { length routes.old.items ≤ 8 }
    ensures items { routes.new.items ≡ spec.in_eight (routes.old.items ++ spec.one_if (spec.is_usable own.now route) route) }
    ensures len { length routes.new.items ≤ 8 }
{
    if routes.is_full() {
        return;
    }
    if is_usable(&route, own) {
        routes.push(route);
    }
}

/// Whether a host with an address can use a route, and it is no default route.
fn is_usable(route: &DhcpRoute, own: &Ipv4Address) -> bool
    ensures { result ≡ spec.is_usable own.now route.now }
{
    route.prefix_len > 0 && is_other(own, &route.router)
}
