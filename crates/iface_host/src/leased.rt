//! What a server leases to a host: an own address of IPv4, and the router by which all else goes.
ghost use Rattle.std.specs.Prelude.{◌≡◌, ◌≤◌, is_none, IfSome, OnOk, OnErr, length};
ghost use Rattle.std.specs.List.{position_or_len};
ghost use Rattle.std.specs.Result.{result_err};
ghost use Rattle.host_machine.specs.Context.Host.{no_sockets};
ghost use Rattle.interface.specs.Stands.{Becomes, HostRefines, host_with};
ghost use Rattle.iface_host.specs.Leased as spec;
ghost use Rattle.iface_host.specs.Leased.{PutsLeased, ReplacesLeased};
ghost use Rattle.iface_host.specs.Stands.{Follows, Stays};

use crate::addresses::{MOST_ADDRESSES, copied, index_of, put_addresses};
use crate::host::IfaceHost;
use crate::refusal::Refusal;
use arrayvec::ArrayVec;
use host_machine::AddrError;
use iface_tables::route::{Route, Routes};
use interface::Interface;
use ip_wire::{IpAddress, IpCidr, Ipv4Address, Ipv4Cidr};

/// What is leased to a host.
#[derive(Clone, Copy, Debug, PartialEq, Eq)]
pub struct Leased {
    /// An own address of IPv4, with its network.
    pub network: Ipv4Cidr,
    /// The router by which packets to other networks go, if there is one.
    pub router: Option<Ipv4Address>,
}

impl IfaceHost {
    /// Replaces what was leased by what is leased now, in one step, and forgets all neighbours. The first own address with the
    /// old network is taken out, and the new one comes after the others; likewise the first default route by the old router,
    /// and one by the new router. `TableFull` if there is no room for so many addresses or routes, else `NotUnicast` if one of
    /// the addresses is neither unicast nor unspecified.
    pub fn replace_leased(
        &mut self,
        old: &Option<Leased>,
        new: &Option<Leased>,
    ) -> Result<(), Refusal>
        ensures replaced { OnOk result (Follows (ReplacesLeased old.now new.now) self.old self.new) }
        ensures why { result_err result ≡ spec.leased_refusal self.old old.now new.now }
        ensures refused { OnErr result (Stays self.old self.new) }
    {
        let room = self.interface.addr_room();
        let Some(addresses) = addresses_with(self.interface.ip_addrs(), room, old, new) else {
            return Err(Refusal::TableFull);
        };
        let routes = self.interface.routes();
        if count_with(routes.as_slice(), old, new) > routes.room() {
            return Err(Refusal::TableFull);
        }
        self.interface.stands_for_a_host();
        match put_leased(&mut self.interface, addresses.as_slice(), old, new) {
            Ok(()) => Ok(()),
            Err(_) => Err(Refusal::NotUnicast),
        }
    }
}

/// The own addresses with the new network in place of the old one. `None` if there is no room for so many.
fn addresses_with(
    own: &[IpCidr],
    room: usize,
    old: &Option<Leased>,
    new: &Option<Leased>,
) -> Option<ArrayVec<IpCidr, MOST_ADDRESSES>>
    requires few { length own.now ≤ room }
    requires most { room ≤ MOST_ADDRESSES }
    ensures list { IfSome result (λ list. list.items ≡ spec.addresses_with old.now new.now own.now) }
    ensures full { is_none result ≡ spec.are_many_addresses room old.now new.now own.now }
{
    let mut list = copied(own, room);
    if let Some(old) = old {
        take_network(&mut list, &IpCidr::Ipv4(old.network));
    }
    if let Some(new) = new {
        if list.len() >= room {
            return None;
        }
        list.push(IpCidr::Ipv4(new.network));
    }
    Some(list)
}

/// Takes the first address with a network out of a list, if there is one.
fn take_network(list: &mut ArrayVec<IpCidr, MOST_ADDRESSES>, network: &IpCidr)
    ensures { list.new.items ≡ spec.without_network network.now list.old.items }
{
    let index = index_of(list.as_slice(), network);
    if index < list.len() {
        let _ = list.remove(index);
    }
}

/// How many routes there are with one by the new router in place of that by the old one.
fn count_with(routes: &[Route], old: &Option<Leased>, new: &Option<Leased>) -> usize
    requires { length routes.now ≤ 32 }
    ensures { result ≡ length (spec.routes_with old.now new.now routes.now) }
{
    let kept = match router_of(old) {
        Some(router) => count_without(routes, &router),
        None => routes.len(),
    };
    match router_of(new) {
        Some(_) => kept + 1,
        None => kept,
    }
}

/// How many routes there are without the first default route by a router, if there is one.
fn count_without(routes: &[Route], router: &Ipv4Address) -> usize
    ensures count { result ≡ length (spec.without_router router.now routes.now) }
    ensures most { result ≤ length routes.now }
{
    if index_of_router(routes, router) < routes.len() {
        routes.len() - 1
    } else {
        routes.len()
    }
}

/// The router of what is leased, if there is one.
fn router_of(leased: &Option<Leased>) -> Option<Ipv4Address>
    ensures { result ≡ spec.router_of leased.now }
{
    match leased {
        Some(leased) => leased.router,
        None => None,
    }
}

/// Puts the route by the new router in place of that by the old one. There must be room for it.
fn replace_router(routes: &mut Routes, old: &Option<Leased>, new: &Option<Leased>)
    requires { length (spec.routes_with old.now new.now routes.old.items) ≤ routes.old.room }
    ensures { routes.new ≡ record routes.old { items = spec.routes_with old.now new.now routes.old.items } }
{
    if let Some(router) = router_of(old) {
        take_route_by(routes, &router);
    }
    if let Some(router) = router_of(new) {
        let _ = routes.push(Route::new_ipv4_gateway(router));
    }
}

/// Takes the first default route by a router out, if there is one.
fn take_route_by(routes: &mut Routes, router: &Ipv4Address)
    ensures { routes.new ≡ record routes.old { items = spec.without_router router.now routes.old.items } }
{
    let index = index_of_router(routes.as_slice(), router);
    let _ = routes.remove(index);
}

/// Where the first default route by a router stands, or the length.
fn index_of_router(routes: &[Route], router: &Ipv4Address) -> usize
    ensures { result ≡ position_or_len (spec.is_by router.now) routes.now }
{
    for (i, route) in routes.iter().enumerate() {
        if is_by(router, route) {
            return i;
        }
    }
    routes.len()
}

/// Whether a route is the default route of IPv4 by a router.
fn is_by(router: &Ipv4Address, route: &Route) -> bool
    ensures { result ≡ spec.is_by router.now route.now }
{
    match (route.cidr, route.via_router) {
        (IpCidr::Ipv4(cidr), IpAddress::Ipv4(via)) => {
            cidr.address.bits == 0 && cidr.prefix_len == 0 && via.bits == router.bits
        }
        _ => false,
    }
}

/// Puts the route by the new router of an interface in place of that by the old one. There must be room for it.
fn put_router(interface: &mut Interface, old: &Option<Leased>, new: &Option<Leased>)
    requires { length (spec.routes_with old.now new.now (host_with interface.old no_sockets).routes)
        ≤ (host_with interface.old no_sockets).route_room }
    ensures { Becomes interface.old interface.new
        (λ H. record H { routes = spec.routes_with old.now new.now H.routes }) }
{
    replace_router(interface.routes_mut(), old, new);
}

/// Replaces the addresses of an interface by these, and the route by the old router by one by the new one. There must be
/// room for both.
fn put_leased(
    interface: &mut Interface,
    addresses: &[IpCidr],
    old: &Option<Leased>,
    new: &Option<Leased>,
) -> Result<(), AddrError>
    requires addresses { length addresses.now ≤ (host_with interface.old no_sockets).addr_room }
    requires routes { length (spec.routes_with old.now new.now (host_with interface.old no_sockets).routes)
        ≤ (host_with interface.old no_sockets).route_room }
    ensures { HostRefines interface.old interface.new (PutsLeased addresses.now old.now new.now result) }
{
    match put_addresses(interface, addresses) {
        Ok(()) => {
            put_router(interface, old, new);
            Ok(())
        }
        Err(error) => Err(error),
    }
}
