//! The routes of a host.
ghost use Rattle.std.specs.Prelude.{◌≡◌, ◌++◌, ◌∷◌, [], ◌≤◌, ◌↔◌, IfOk, IsErr, OnOk, OnErr, length, slice_get};
ghost use Rattle.std.specs.Result.{result_err};
ghost use Rattle.host_machine.specs.Context.Host.{SocketSet, in_same_network, no_sockets};
ghost use Rattle.iface_tables.specs.Route.{ipv4_gateway, ipv6_gateway, is_ipv4_gateway, is_live};
ghost use Rattle.iface_tables.specs.Route.{is_ipv6_gateway, old_or_full, with_default};
ghost use Rattle.interface.specs.Stands.{Becomes, host_with};
ghost use Rattle.std.specs.List.{position_or_len, remove};
ghost use Rattle.iface_host.specs.Calls.{addresses_of, has_route, is_routed, is_to, is_via, is_way, AddsRoute, RemovesRoute, RemovesRouteBy, SetsDefault, routes_of};
ghost use Rattle.iface_host.specs.Stands.{Follows, Stays};
ghost use Rattle.iface_host.specs.TableRefusals.{default_route_refusal, end_refusal};
ghost use Rattle.iface_host.specs.TableRefusals.{route_refusal, route_removal_refusal, way_removal_refusal};

use crate::addresses::is_same_cidr;
use crate::frames::moment;
use crate::host::IfaceHost;
use crate::refusal::Refusal;
use iface_tables::route::{Route, RouteTableFull};
use interface::Interface;
use ip_wire::{IpAddress, IpCidr, Ipv4Address, Ipv4Cidr, Ipv6Address};
use net_base::time::Instant;

impl IfaceHost {
    /// Puts a default route by a gateway after all other routes, in place of the first of the gateway's family.
    /// `TableFull` if there is no room for another route and none is such.
    pub fn set_default_route(&mut self, gateway: IpAddress) -> Result<(), Refusal>
        ensures set { OnOk result (Follows (SetsDefault gateway) self.old self.new) }
        ensures why { result_err result ≡ default_route_refusal self.old gateway }
        ensures refused { OnErr result (Stays self.old self.new) }
    {
        match gateway {
            IpAddress::Ipv4(gateway) => match add_default_ipv4_route(&mut self.interface, gateway) {
                Ok(_) => Ok(()),
                Err(_) => Err(Refusal::TableFull),
            },
            IpAddress::Ipv6(gateway) => match add_default_ipv6_route(&mut self.interface, gateway) {
                Ok(_) => Ok(()),
                Err(_) => Err(Refusal::TableFull),
            },
        }
    }

    /// The route at a place of their list, if there is one: those from routers and those whose end has passed stand there
    /// too.
    pub fn route_at(&self, index: usize) -> Option<Route>
        ensures { result ≡ slice_get (routes_of self.now) index }
    {
        route_in(self.interface.routes().as_slice(), index)
    }

    /// Whether a network of the host, or a route that hasn't ended at a moment, has an address (RFC 1122 3.3.1).
    pub fn has_route(&self, address: &IpAddress, now: Instant) -> bool
        ensures { result ≡ has_route now self.now address.now }
    {
        self.is_near(address) || self.is_routed(address, now)
    }

    /// Whether a network of the host has an address.
    fn is_near(&self, address: &IpAddress) -> bool
        ensures { result ≡ in_same_network (addresses_of self.now) address.now }
    {
        is_on_link(self.interface.ip_addrs(), address)
    }

    /// Whether a route that hasn't ended at a moment has an address.
    fn is_routed(&self, address: &IpAddress, now: Instant) -> bool
        ensures { result ≡ is_routed now (routes_of self.now) address.now }
    {
        is_routed(self.interface.routes().as_slice(), address, now)
    }

    /// Puts a route to a network by a router after all others. It is used up to an end in microseconds, that moment
    /// included, or for good. `BadMoment` if the end is out of range, else `TableFull` if there is no room for another.
    pub fn add_route(
        &mut self,
        cidr: IpCidr,
        via_router: IpAddress,
        end: Option<i64>,
    ) -> Result<(), Refusal>
        ensures added { OnOk result (Follows (AddsRoute cidr via_router end) self.old self.new) }
        ensures why { result_err result ≡ route_refusal self.old end }
        ensures refused { OnErr result (Stays self.old self.new) }
    {
        let expires_at = moment_of_end(end)?;
        let route = Route {
            cidr,
            via_router,
            preferred_until: None,
            expires_at,
        };
        match push_route(&mut self.interface, route) {
            Ok(()) => Ok(()),
            Err(_) => Err(Refusal::TableFull),
        }
    }

    /// Takes out the first route to a network. `NotThere` if there is none.
    pub fn remove_route(&mut self, cidr: IpCidr) -> Result<(), Refusal>
        ensures removed { OnOk result (Follows (RemovesRoute cidr) self.old self.new) }
        ensures why { result_err result ≡ route_removal_refusal self.old cidr }
        ensures refused { OnErr result (Stays self.old self.new) }
    {
        let routes = self.interface.routes().as_slice();
        let index = index_of(routes, &cidr);
        if index >= routes.len() {
            return Err(Refusal::NotThere);
        }
        take_route(&mut self.interface, index);
        Ok(())
    }

    /// Takes out the first route to a network of IPv4 by a router. `NotThere` if there is none.
    pub fn remove_route_by(&mut self, network: Ipv4Cidr, router: Ipv4Address) -> Result<(), Refusal>
        ensures removed { OnOk result (Follows (RemovesRouteBy network router) self.old self.new) }
        ensures why { result_err result ≡ way_removal_refusal self.old network router }
        ensures refused { OnErr result (Stays self.old self.new) }
    {
        let routes = self.interface.routes().as_slice();
        let index = index_of_way(routes, &network, &router);
        if index >= routes.len() {
            return Err(Refusal::NotThere);
        }
        take_route(&mut self.interface, index);
        Ok(())
    }
}

/// Where the first route to a network by a router stands, or the length.
fn index_of_way(list: &[Route], network: &Ipv4Cidr, router: &Ipv4Address) -> usize
    ensures { result ≡ position_or_len (is_way network.now router.now) list.now }
{
    for (i, route) in list.iter().enumerate() {
        if is_way(network, router, route) {
            return i;
        }
    }
    list.len()
}

/// Whether a route is to a network by a router.
fn is_way(network: &Ipv4Cidr, router: &Ipv4Address, route: &Route) -> bool
    ensures { result ≡ is_way network.now router.now route.now }
{
    is_same_cidr(&IpCidr::Ipv4(*network), &route.cidr) && is_via(router, &route.via_router)
}

/// Whether an address is that of a router.
fn is_via(router: &Ipv4Address, address: &IpAddress) -> bool
    ensures { result ≡ is_via router.now address.now }
{
    match address {
        IpAddress::Ipv4(address) => address.bits == router.bits,
        IpAddress::Ipv6(_) => false,
    }
}

/// Whether one of these networks has an address.
fn is_on_link(networks: &[IpCidr], address: &IpAddress) -> bool
    ensures { result ≡ in_same_network networks.now address.now }
{
    networks
        .iter()
        .any(|network| network.contains_addr(address))
}

/// Whether one of these routes has an address, and hasn't ended at a moment.
fn is_routed(routes: &[Route], address: &IpAddress, now: Instant) -> bool
    ensures { result ≡ is_routed now routes.now address.now }
{
    routes.iter().any(|route| route.cidr.contains_addr(address) && is_live(route, now))
}

/// Whether a route hasn't ended at a moment; its end is included.
fn is_live(route: &Route, now: Instant) -> bool
    ensures { result ≡ is_live route.now now }
{
    match route.expires_at {
        Some(end) => now <= end,
        None => true,
    }
}

/// The moment of an end, if there is one. `BadMoment` if it is out of range.
fn moment_of_end(end: Option<i64>) -> Result<Option<Instant>, Refusal>
    ensures why { result_err result ≡ end_refusal end }
    ensures moment { IfOk result (λ moment. moment ≡ end) }
{
    match end {
        Some(micros) => Ok(Some(moment(micros)?)),
        None => Ok(None),
    }
}

/// The route at a place, if there is one.
fn route_in(list: &[Route], index: usize) -> Option<Route>
    ensures { result ≡ slice_get list.now index }
{
    list.get(index).copied()
}

/// Where the first route to a network stands, or the length.
fn index_of(list: &[Route], cidr: &IpCidr) -> usize
    ensures { result ≡ position_or_len (is_to cidr.now) list.now }
{
    for (i, route) in list.iter().enumerate() {
        if is_same_cidr(cidr, &route.cidr) {
            return i;
        }
    }
    list.len()
}

/// Puts a route after all others of an interface, if there is room for it.
fn push_route(interface: &mut Interface, route: Route) -> Result<(), RouteTableFull>
    ensures refused { IsErr result ↔ ((host_with interface.old no_sockets).route_room
        ≤ length (host_with interface.old no_sockets).routes) }
    ensures pushed { OnOk result (Becomes interface.old interface.new
        (λ H. record H { routes = H.routes ++ route ∷ [] })) }
    ensures kept { OnErr result (interface.new ≡ interface.old) }
{
    interface.routes_mut().push(route)
}

/// Takes the route at an index out of an interface's, if there is one.
fn take_route(interface: &mut Interface, index: usize)
    ensures { Becomes interface.old interface.new (λ H. record H { routes = remove H.routes index }) }
{
    let _ = interface.routes_mut().remove(index);
}

/// Puts a default route of IPv4 after all others, in place of the first one.
fn add_default_ipv4_route(
    interface: &mut Interface,
    gateway: Ipv4Address,
) -> Result<Option<Route>, RouteTableFull>
    ensures answer { (sockets : SocketSet) →
        result ≡ old_or_full (host_with interface.old sockets).route_room is_ipv4_gateway
        (host_with interface.old sockets).routes }
    ensures table { Becomes interface.old interface.new
        (λ H. record H { routes = with_default H.route_room is_ipv4_gateway H.routes (ipv4_gateway gateway) }) }
{
    interface.routes_mut().add_default_ipv4_route(gateway)
}

/// The same for IPv6.
fn add_default_ipv6_route(
    interface: &mut Interface,
    gateway: Ipv6Address,
) -> Result<Option<Route>, RouteTableFull>
    ensures answer { (sockets : SocketSet) →
        result ≡ old_or_full (host_with interface.old sockets).route_room is_ipv6_gateway
        (host_with interface.old sockets).routes }
    ensures table { Becomes interface.old interface.new
        (λ H. record H { routes = with_default H.route_room is_ipv6_gateway H.routes (ipv6_gateway gateway) }) }
{
    interface.routes_mut().add_default_ipv6_route(gateway)
}
