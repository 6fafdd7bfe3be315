//! Routes: the gateway by which a packet leaves its network (RFC 1122 3.3.1, RFC 4632 5.1).
ghost use Rattle.std.specs.Prelude.{◌≡◌, ◌↔◌, ℕ, ℤ, ◌+◌, ◌≤◌, ◌<◌, ◌*◌, ◌&&◌, max, Bool, true, [], ◌∷◌, ◌++◌, length, slice_get};
ghost use Rattle.std.specs.Prelude.{option_map, vec_capacity, IfNone, IsErr, OnErr, OnOk, OnSome};
ghost use Rattle.std.specs.List.{position_or_len, remove};
ghost use Rattle.ip_address.specs.Ip as ip;
ghost use Rattle.iface_tables.specs.declared.route.Route.{Route};
ghost use Rattle.iface_tables.specs.Route as spec;
ghost use Rattle.iface_tables.specs.Route.{AllLiveUntil, AreLive, BestIsFound, FirstFourAreAll, IsBest, IsRouter, Replaces, RouterIsOne};
ghost use Rattle.iface_tables.specs.Route.{Storage, cidrs, first, first_four, is_live, old_or_full, route_room_over};
ghost use Rattle.iface_tables.specs.Route.{route_at, router_of, with_default, without_first};
ghost use Rattle.iface_tables.specs.RouteTrie.{IsLongest};

use crate::route_nodes::RouteNodes;
use crate::route_trie::{RouteNode, Steps, best_place};
use crate::store::Store;
use arrayvec::ArrayVec;
use ip_wire::{IpAddress, IpCidr, Ipv4Address, Ipv4Cidr, Ipv6Address, Ipv6Cidr};
use net_base::time::Instant;
use std::fmt;
use std::marker::Model;
use thiserror::Error;

/// The number of routes that a table has room for without storage.
pub const IFACE_MAX_ROUTE_COUNT: usize = 4;

/// The most routes that a table has room for, with however much storage.
pub const IFACE_ROUTE_COUNT_LIMIT: usize = 32;

// The mask of all indices.
const ALL_PLACES: u32 = 0xffff_ffff;

/// The table has no room, and holds no route to replace.
#[derive(Clone, Copy, Debug, PartialEq, Eq, Error)]
#[error("Route table full")]
pub struct RouteTableFull;

/// A network that is reached via a gateway.
#[derive(Clone, Copy, Debug, PartialEq, Eq)]
pub struct Route {
    pub cidr: IpCidr,
    pub via_router: IpAddress,
    /// Until when it is preferred; `None` means forever. A lookup ignores it.
    pub preferred_until: Option<Instant>,
    /// Until when it may be used, that moment included; `None` means forever.
    pub expires_at: Option<Instant>,
}

impl Route {
    /// The IPv4 default route, 0.0.0.0/0, without expiry.
    pub fn new_ipv4_gateway(gateway: Ipv4Address) -> Route
        ensures { result ≡ spec.ipv4_gateway gateway }
    {
        Route {
            cidr: IpCidr::Ipv4(Ipv4Cidr {
                address: Ipv4Address::UNSPECIFIED,
                prefix_len: 0,
            }),
            via_router: IpAddress::Ipv4(gateway),
            preferred_until: None,
            expires_at: None,
        }
    }

    /// The IPv6 default route, ::/0, without expiry.
    pub fn new_ipv6_gateway(gateway: Ipv6Address) -> Route
        ensures { result ≡ spec.ipv6_gateway gateway }
    {
        Route {
            cidr: IpCidr::Ipv6(Ipv6Cidr {
                address: Ipv6Address::UNSPECIFIED,
                prefix_len: 0,
            }),
            via_router: IpAddress::Ipv6(gateway),
            preferred_until: None,
            expires_at: None,
        }
    }

    /// Whether the route is an IPv4 default route: exactly if it is for 0.0.0.0/0.
    pub fn is_ipv4_gateway(&self) -> bool
        ensures { result ≡ spec.is_ipv4_gateway self.now }
    {
        match self.cidr {
            IpCidr::Ipv4(cidr) => cidr.address.bits == 0 && cidr.prefix_len == 0,
            IpCidr::Ipv6(_) => false,
        }
    }

    /// Whether the route is an IPv6 default route: exactly if it is for ::/0.
    pub fn is_ipv6_gateway(&self) -> bool
        ensures { result ≡ spec.is_ipv6_gateway self.now }
    {
        match self.cidr {
            IpCidr::Ipv4(_) => false,
            IpCidr::Ipv6(cidr) => cidr.address.bits == 0 && cidr.prefix_len == 0,
        }
    }

    // Whether the route has not expired at a moment.
    #[inline(always)]
    fn is_live(&self, timestamp: Instant) -> bool
        ensures { result ≡ is_live self.now timestamp }
    {
        is_until(self.expires_at, timestamp)
    }
}

impl fmt::Display for Route {
    /// The network and the gateway: 0.0.0.0/0 via 192.168.69.100.
    fn fmt<W: fmt::Write>(&self, f: &mut fmt::Formatter<W>) -> fmt::Result {
        write!(f, "{} via {}", self.cidr, self.via_router)
    }
}

impl Default for Route {
    fn default() -> Route
        ensures { result ≡ spec.ipv4_gateway (record { bits = 0 }) }
    {
        Route::new_ipv4_gateway(Ipv4Address::UNSPECIFIED)
    }
}

// Routes, as many as there is room for.
type Entries = Store<Route, IFACE_MAX_ROUTE_COUNT>;

/// A table of routes, as many as it has room for. It takes no memory: it has room for four in itself, or for more, up to
/// 32, in storage that its maker hands over.
///
/// In contracts it is their list, in the order in which they are stored, and how many there is room for.
#[derive(Drop)]
pub struct Routes {
    storage: Entries,
    // Those of the trie of their prefixes, in the same order.
    nodes: RouteNodes,
    // How many there is room for, in the storage and in the nodes.
    room: usize,
    // The first end of a route: until then none has expired. `None` means that none has an end.
    first_end: Option<Instant>,
}

impl Model for Routes {
    ghost use Rattle.iface_tables.specs.Store.{Stored, stored_code};
    ghost use Rattle.iface_tables.specs.declared.route.Route.{Route};

    ghost Value = { Stored Route };

    ghost view = { λ r. record { items = r.storage.items; room = r.room } };

    ghost use Rattle.iface_tables.specs.Route.{AreKept};
    ghost use Rattle.iface_tables.specs.Details.RouteNodes.{nodes_at};

    ghost invariant = { λ r. AreKept (nodes_at r.nodes) r.storage r.room r.first_end };
}

impl Routes {
    /// An empty table for four routes.
    pub fn new() -> Routes
        ensures { result ≡ record { items = []; room = IFACE_MAX_ROUTE_COUNT } }
    {
        Routes {
            storage: Store::new(),
            nodes: RouteNodes::new(),
            room: IFACE_MAX_ROUTE_COUNT,
            first_end: None,
        }
    }

    /// Forgets all routes. From now on there is room for as many as both vectors have capacity for, and for 32 at most, or
    /// for four if there is none: a route takes one place of the first and 128 nodes of the second, and two more nodes are
    /// for the roots of the trie. Up to four are kept in the table itself. What the vectors hold is dropped.
    pub fn set_storage(&mut self, routes: Vec<Route>, nodes: Vec<RouteNode>)
        ensures { self.new ≡ record { items = []; room = route_room_over (vec_capacity routes) (vec_capacity nodes) } }
    {
        let room = room_over(routes.capacity(), nodes.capacity());
        self.storage = entries_over(routes, room);
        self.nodes.set_storage(nodes, room);
        self.room = room;
        self.first_end = None;
    }

    /// The routes, in the order in which they are stored.
    pub fn as_slice(&self) -> &[Route]
        ensures value { result.now ≡ self.now.items }
        ensures fits { length result.now ≤ IFACE_ROUTE_COUNT_LIMIT }
    {
        self.storage.as_slice()
    }

    /// How many routes there is room for.
    pub fn room(&self) -> usize
        ensures value { result ≡ self.now.room }
        ensures most { result ≤ IFACE_ROUTE_COUNT_LIMIT }
    {
        self.room
    }

    /// Replaces all routes by what a function makes of the first four, also where that are more than there is room for.
    /// The room stays.
    pub fn update<F>(&mut self, f: F)
    where
        F: FnOnce(ArrayVec<Route, IFACE_MAX_ROUTE_COUNT>) -> ArrayVec<Route, IFACE_MAX_ROUTE_COUNT>,
        requires { (routes : Storage) → routes.items ≡ first_four self.old.items → F.pre f routes }
        ensures { (old : Storage) × (new : Storage) × (old.items ≡ first_four self.old.items)
            × F.post f old new × (self.new ≡ record self.old { items = new.items }) }
    {
        let old = first_four(self.storage.as_slice());
        let new = f(old);
        store_all(&mut self.storage, new.as_slice());
        self.nodes.build(self.storage.as_slice());
        self.first_end = first_end(self.storage.as_slice());
    }

    /// Adds a route after all others. Fails exactly if there is no room; then nothing changes.
    pub fn push(&mut self, route: Route) -> Result<(), RouteTableFull>
        ensures refused { IsErr result ↔ (self.old.room ≤ length self.old.items) }
        ensures pushed { OnOk result (self.new ≡ record self.old { items = self.old.items ++ route ∷ [] }) }
        ensures kept { OnErr result (self.new ≡ self.old) }
    {
        if self.storage.len() >= self.room {
            return Err(RouteTableFull);
        }
        self.storage.push(route);
        self.nodes.build(self.storage.as_slice());
        self.first_end = first_end(self.storage.as_slice());
        Ok(())
    }

    /// Removes the route at an index and returns it. The others keep their order. `None` exactly if there is none; then
    /// nothing changes.
    #[tactic(auto, using(crate::proofs::RouteLemmas::remove_past))]
    pub fn remove(&mut self, index: usize) -> Option<Route>
        ensures answer { result ≡ slice_get self.old.items index }
        ensures table { self.new ≡ record self.old { items = remove self.old.items index } }
        ensures kept { IfNone result (self.new ≡ self.old) }
    {
        if index >= self.storage.len() {
            return None;
        }
        let route = self.storage.remove(index);
        self.nodes.build(self.storage.as_slice());
        self.first_end = first_end(self.storage.as_slice());
        Some(route)
    }

    /// Replaces all routes by these. Fails exactly if there is no room for so many; then nothing changes.
    pub fn set(&mut self, routes: &[Route]) -> Result<(), RouteTableFull>
        ensures refused { IsErr result ↔ (self.old.room < length routes.now) }
        ensures replaced { OnOk result (self.new ≡ record self.old { items = routes.now }) }
        ensures kept { OnErr result (self.new ≡ self.old) }
    {
        if routes.len() > self.room {
            return Err(RouteTableFull);
        }
        store_all(&mut self.storage, routes);
        self.nodes.build(routes);
        self.first_end = first_end(routes);
        Ok(())
    }

    /// Removes the first IPv4 default route, if any, adds a new one after all other routes, and returns the removed
    /// one. Fails with `RouteTableFull` exactly if the table is full and holds no IPv4 default route; then nothing
    /// changes.
    pub fn add_default_ipv4_route(
        &mut self,
        gateway: Ipv4Address,
    ) -> Result<Option<Route>, RouteTableFull>
        ensures answer { result ≡ old_or_full self.old.room spec.is_ipv4_gateway self.old.items }
        ensures table { self.new ≡ record self.old {
          items = with_default self.old.room spec.is_ipv4_gateway self.old.items (spec.ipv4_gateway gateway);
        } }
    {
        let place = default_ipv4_index(self.storage.as_slice());
        let route = Route::new_ipv4_gateway(gateway);
        let answer = replace(&mut self.storage, self.room, place, route);
        self.nodes.build(self.storage.as_slice());
        self.first_end = first_end(self.storage.as_slice());
        answer
    }

    /// Removes the first IPv6 default route, if any, adds a new one after all other routes, and returns the removed
    /// one. Fails with `RouteTableFull` exactly if the table is full and holds no IPv6 default route; then nothing
    /// changes.
    pub fn add_default_ipv6_route(
        &mut self,
        gateway: Ipv6Address,
    ) -> Result<Option<Route>, RouteTableFull>
        ensures answer { result ≡ old_or_full self.old.room spec.is_ipv6_gateway self.old.items }
        ensures table { self.new ≡ record self.old {
          items = with_default self.old.room spec.is_ipv6_gateway self.old.items (spec.ipv6_gateway gateway);
        } }
    {
        let place = default_ipv6_index(self.storage.as_slice());
        let route = Route::new_ipv6_gateway(gateway);
        let answer = replace(&mut self.storage, self.room, place, route);
        self.nodes.build(self.storage.as_slice());
        self.first_end = first_end(self.storage.as_slice());
        answer
    }

    /// The first IPv4 default route, if any.
    #[tactic(auto, using(crate::proofs::RouteLemmas::first_is))]
    pub fn get_default_ipv4_route(&self) -> Option<Route>
        ensures { result ≡ first spec.is_ipv4_gateway self.now.items }
    {
        let place = default_ipv4_index(self.storage.as_slice());
        route_at(self.storage.as_slice(), place)
    }

    /// The first IPv6 default route, if any.
    #[tactic(auto, using(crate::proofs::RouteLemmas::first_is))]
    pub fn get_default_ipv6_route(&self) -> Option<Route>
        ensures { result ≡ first spec.is_ipv6_gateway self.now.items }
    {
        let place = default_ipv6_index(self.storage.as_slice());
        route_at(self.storage.as_slice(), place)
    }

    /// Removes the first IPv4 default route and returns it, if any. The others keep their order.
    #[tactic(auto, using(crate::proofs::RouteLemmas::first_is))]
    pub fn remove_default_ipv4_route(&mut self) -> Option<Route>
        ensures answer { result ≡ first spec.is_ipv4_gateway self.old.items }
        ensures table { self.new ≡ record self.old { items = without_first spec.is_ipv4_gateway self.old.items } }
    {
        let place = default_ipv4_index(self.storage.as_slice());
        let answer = take_out(&mut self.storage, place);
        self.nodes.build(self.storage.as_slice());
        self.first_end = first_end(self.storage.as_slice());
        answer
    }

    /// Removes the first IPv6 default route and returns it, if any. The others keep their order.
    #[tactic(auto, using(crate::proofs::RouteLemmas::first_is))]
    pub fn remove_default_ipv6_route(&mut self) -> Option<Route>
        ensures answer { result ≡ first spec.is_ipv6_gateway self.old.items }
        ensures table { self.new ≡ record self.old { items = without_first spec.is_ipv6_gateway self.old.items } }
    {
        let place = default_ipv6_index(self.storage.as_slice());
        let answer = take_out(&mut self.storage, place);
        self.nodes.build(self.storage.as_slice());
        self.first_end = first_end(self.storage.as_slice());
        answer
    }

    /// The gateway for a unicast address at a moment. Among the routes that contain the address and haven't expired, it
    /// is that of the longest prefix, and of equal ones the last stored. `None` exactly if there is no such route.
    pub fn lookup(&self, address: &IpAddress, timestamp: Instant) -> Option<IpAddress>
        requires { ip.is_unicast address.now ≡ true }
        ensures { IsRouter self.now.items address.now timestamp result }
    {
        let (route, _) = self.best_route(address, timestamp);
        Some(route?.via_router)
    }

    /// What [`Routes::lookup`] returns, and how many nodes of the trie were read for it. That is 1 and the number of
    /// leading bits that the address shares with a route of its family, up to the route's prefix length, for the route
    /// with which it shares most. So it is at most 33 for IPv4, and 129 for IPv6. The address must be unicast.
    pub fn lookup_steps(
        &self,
        address: &IpAddress,
        timestamp: Instant,
    ) -> (Option<IpAddress>, Steps)
        requires { ip.is_unicast address.now ≡ true }
        ensures router { IsRouter self.now.items address.now timestamp result.0 }
        ensures count { (n : ℕ) × IsLongest (cidrs self.now.items) address.now n × (result.1 ≡ 1 + n) }
    {
        let (route, steps) = self.best_route(address, timestamp);
        (router_of(route), steps)
    }

    // The best route, and how many nodes of the trie were read for it.
    #[inline(always)]
    fn best_route(&self, address: &IpAddress, timestamp: Instant) -> (Option<&Route>, Steps)
        ensures best { IsBest self.now.items address.now timestamp (option_map (λ r. r.now) result.0) }
        ensures count { (n : ℕ) × IsLongest (cidrs self.now.items) address.now n × (result.1 ≡ 1 + n) }
    {
        let routes = self.storage.as_slice();
        let live = live_mask(routes, self.first_end, timestamp);
        let (place, steps) = best_place(self.nodes.as_slice(), address, live);
        (route_of(routes, place), steps)
    }
}

// How many routes there is room for over storage of these capacities.
fn room_over(routes: usize, nodes: usize) -> usize
    ensures value { result ≡ route_room_over routes nodes }
    ensures most { result ≤ IFACE_ROUTE_COUNT_LIMIT }
    ensures routes { IFACE_MAX_ROUTE_COUNT < result → result ≤ routes }
    ensures nodes { IFACE_MAX_ROUTE_COUNT < result → 2 + 128 * result ≤ nodes }
{
    let by_nodes = nodes.saturating_sub(2) / 128;
    let room = routes.min(by_nodes).min(IFACE_ROUTE_COUNT_LIMIT);
    if room == 0 {
        IFACE_MAX_ROUTE_COUNT
    } else {
        room
    }
}

// No routes: in storage or, if so many have room there, in the table itself.
fn entries_over(storage: Vec<Route>, room: usize) -> Entries
    requires { IFACE_MAX_ROUTE_COUNT < room → room ≤ vec_capacity storage }
    ensures items { result.items ≡ [] }
    ensures fits { room ≤ result.room }
    ensures four { IFACE_MAX_ROUTE_COUNT ≤ result.room }
{
    if room <= IFACE_MAX_ROUTE_COUNT {
        return Store::new();
    }
    Store::over(storage)
}

// The first four of these routes.
fn first_four(routes: &[Route]) -> ArrayVec<Route, IFACE_MAX_ROUTE_COUNT>
    ensures { result.items ≡ first_four routes.now }
{
    let mut first = ArrayVec::new();
    for route in routes {
        if first.is_full() {
            return first;
        }
        first.push(*route);
    }
    first
}

// Stores these routes in place of all others.
fn store_all(storage: &mut Entries, routes: &[Route])
    requires { length routes.now ≤ storage.old.room }
    ensures { storage.new ≡ record storage.old { items = routes.now } }
{
    storage.clear();
    for route in routes {
        storage.push(*route);
    }
}

// Whether a lifetime has not ended at a moment.
#[inline(always)]
fn is_until(end: Option<Instant>, timestamp: Instant) -> bool
    ensures { result ≡ spec.is_until end timestamp }
{
    match end {
        Some(end) => timestamp <= end,
        None => true,
    }
}

// The first of two ends.
fn earlier(a: Option<Instant>, b: Option<Instant>) -> Option<Instant>
    ensures { (t : ℤ) → spec.is_until result t ≡ (spec.is_until a t && spec.is_until b t) }
{
    match (a, b) {
        (Some(one), Some(other)) => Some(if one <= other { one } else { other }),
        (Some(_), None) => a,
        (None, _) => b,
    }
}

// The first end of a route, if one has an end.
fn first_end(routes: &[Route]) -> Option<Instant>
    ensures { AllLiveUntil routes.now result }
{
    let mut first = None;
    for route in routes {
        first = earlier(first, route.expires_at);
    }
    first
}

// The routes that have not expired at a moment, as a mask of their indices.
#[inline(always)]
fn live_mask(routes: &[Route], first_end: Option<Instant>, timestamp: Instant) -> u32
    requires few { length routes.now ≤ IFACE_ROUTE_COUNT_LIMIT }
    requires end { AllLiveUntil routes.now first_end }
    ensures { AreLive routes.now timestamp result }
{
    if is_until(first_end, timestamp) {
        return ALL_PLACES;
    }
    live_routes_mask(routes, timestamp)
}

// The same, by a look at each route.
fn live_routes_mask(routes: &[Route], timestamp: Instant) -> u32
    requires { length routes.now ≤ IFACE_ROUTE_COUNT_LIMIT }
    ensures { AreLive routes.now timestamp result }
{
    let mut live = 0;
    for (place, route) in routes.iter().enumerate() {
        if route.is_live(timestamp) {
            live |= 1 << place;
        }
    }
    live
}

// The route at an index, if there is one.
#[inline(always)]
fn route_of(routes: &[Route], place: Option<usize>) -> Option<&Route>
    ensures { option_map (λ r. r.now) result ≡ route_at routes.now place }
{
    match place {
        Some(place) => routes.get(place),
        None => None,
    }
}

// The gateway of a route, if there is one.
#[inline(always)]
fn router_of(route: Option<&Route>) -> Option<IpAddress>
    ensures { result ≡ router_of (option_map (λ r. r.now) route.entry) }
{
    Some(route?.via_router)
}

// The index of the first IPv4 default route, or the length.
fn default_ipv4_index(routes: &[Route]) -> usize
    ensures { result ≡ position_or_len spec.is_ipv4_gateway routes.now }
{
    for (i, route) in routes.iter().enumerate() {
        if route.is_ipv4_gateway() {
            return i;
        }
    }
    routes.len()
}

// The index of the first IPv6 default route, or the length.
fn default_ipv6_index(routes: &[Route]) -> usize
    ensures { result ≡ position_or_len spec.is_ipv6_gateway routes.now }
{
    for (i, route) in routes.iter().enumerate() {
        if route.is_ipv6_gateway() {
            return i;
        }
    }
    routes.len()
}

// The route at an index, if there is one.
fn route_at(routes: &[Route], place: usize) -> Option<Route>
    ensures { result ≡ slice_get routes.now place }
{
    routes.get(place).copied()
}

// Removes the route at an index, if there is one.
#[tactic(auto, using(crate::proofs::RouteLemmas::remove_past))]
fn take_out(routes: &mut Entries, place: usize) -> Option<Route>
    ensures answer { result ≡ slice_get routes.old.items place }
    ensures rest { routes.new.items ≡ remove routes.old.items place }
    ensures room { routes.new.room ≡ routes.old.room }
    ensures fits { length routes.old.items ≤ routes.old.room }
    ensures fewer { length routes.new.items ≤ length routes.old.items }
    ensures one { OnSome result (length routes.new.items < length routes.old.items) }
{
    if place >= routes.len() {
        return None;
    }
    Some(routes.remove(place))
}

// Appends a route, and removes the one at an index. Where there is none, there must be room.
fn replace(
    routes: &mut Entries,
    room: usize,
    place: usize,
    route: Route,
) -> Result<Option<Route>, RouteTableFull>
    requires { room ≤ routes.old.room }
    ensures replaces { (is_kind : Route → Bool) → place ≡ position_or_len is_kind routes.old.items →
        Replaces room is_kind routes.old.items route result routes.new.items }
    ensures few { length routes.new.items ≤ max room (length routes.old.items) }
    ensures room { routes.new.room ≡ routes.old.room }
{
    if let Some(old) = take_out(routes, place) {
        routes.push(route);
        return Ok(Some(old));
    }
    if routes.len() >= room {
        return Err(RouteTableFull);
    }
    routes.push(route);
    Ok(None)
}

/// The best route is unique in its gateway: what [`Routes::lookup`] returns is the only gateway that a packet may take.
pub fn router_is_one()
    ensures { RouterIsOne }
{}

/// [`Routes::update`] gives all routes to its function where there are at most four.
pub fn first_four_are_all()
    ensures { FirstFourAreAll }
{}

/// The best route is found from the end of the list. Of a route that matches and the best of those after it, it is the
/// more specific one; of equally specific ones, the latter.
pub fn best_is_found()
    ensures { BestIsFound }
{}
