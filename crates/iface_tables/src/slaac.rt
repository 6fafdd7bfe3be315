//! What a host learns from router advertisements (RFC 4861 6.3.4, RFC 4862 5.5.3), until when that is valid, and when
//! the host solicits routers (RFC 4861 6.3.7).
ghost use Rattle.std.specs.Prelude.{◌≡◌, ◌+◌, ◌<◌, ◌≤◌, ◌||◌, Bool, pos, true, false, not, length};
ghost use Rattle.std.specs.List.{list_any, filter};
ghost use Rattle.net_base.specs.Instants.{earliest_of};
ghost use Rattle.net_base.specs.Time.{IsMoment};
ghost use Rattle.iface_tables.specs.Slaac as spec;
ghost use Rattle.iface_tables.specs.Slaac.{is_before, is_prefix_valid, is_route_valid};
ghost use Rattle.iface_tables.specs.Slaac.{knows_prefix, knows_router, advertised_prefix};
ghost use Rattle.iface_tables.specs.Slaac.{prefix_ends, route_ends, IsLifetime, default_route, whole, with_prefix};
ghost use Rattle.iface_tables.specs.Slaac.{prefixes_after_withdrawal, prefixes_after, is_prefix_news, routers_after};
ghost use Rattle.iface_tables.specs.Slaac.{is_router_news, with_router, with_end, prefix_index, router_index};
ghost use Rattle.iface_tables.specs.Slaac.{slaac_after_message, slaac_after_update, initial_state, info_from, info_withdrawn};

use arrayvec::ArrayVec;
use bitflags::Flags;
use control_wire::{NdiscPrefixInfoFlags, NdiscPrefixInformation};
use ip_address::{Ipv6Address, Ipv6Cidr};
use net_base::instants::earlier_of;
use net_base::time::{Duration, Instant};
use std::marker::Model;

/// How many prefixes are kept at most, unless it is told otherwise.
pub const IFACE_MAX_PREFIX_COUNT: usize = 2;

/// How many routers are kept at most, unless it is told otherwise.
pub const IFACE_MAX_ROUTE_COUNT: usize = 4;

/// The maximum number of prefixes that there can be room for.
pub const MAX_PREFIX_COUNT: usize = 8;

/// The maximum number of routers that there can be room for.
pub const MAX_ROUTER_COUNT: usize = 8;

/// The maximum number of router solicitations sent (RFC 4861 10).
pub const MAX_RTR_SOLICITATIONS: u8 = 3;

/// The time between two router solicitations: 4 s (RFC 4861 10).
pub const RTR_SOLICITATION_INTERVAL: Duration = Duration { micros: 4_000_000 };

/// The phase of router discovery.
#[derive(Clone, Copy, Debug, PartialEq, Eq)]
pub enum Phase {
    /// No solicitation was sent yet.
    Start,
    /// A solicitation was sent, and no advertisement received since.
    Discovering,
    /// An advertisement was received after a solicitation.
    Maintaining,
    /// All solicitations were sent, and none was answered.
    None,
}

/// The lifetimes of a prefix, as instants.
#[derive(Clone, Copy, Debug, PartialEq, Eq)]
pub struct PrefixInfo {
    /// From then on its addresses aren't used for new communication.
    pub preferred_until: Instant,
    /// From then on its addresses aren't used at all.
    pub valid_until: Instant,
}

impl PrefixInfo {
    /// The instants at which the lifetimes of a prefix end that is advertised now.
    pub fn from_prefix(prefix: &NdiscPrefixInformation, now: Instant) -> PrefixInfo
        requires moment { IsMoment now }
        ensures { result ≡ info_from prefix.now now }
    {
        PrefixInfo {
            preferred_until: now + Duration::from_secs(u64::from(prefix.preferred_lifetime)),
            valid_until: now + Duration::from_secs(u64::from(prefix.valid_lifetime)),
        }
    }

    // The lifetimes of a prefix that is withdrawn.
    fn withdrawn() -> PrefixInfo
        ensures { result ≡ info_withdrawn }
    {
        PrefixInfo {
            preferred_until: Instant::ZERO,
            valid_until: Instant::ZERO,
        }
    }

    /// Whether the prefix is valid: its valid lifetime has not ended.
    pub fn is_valid(&self, now: Instant) -> bool
        ensures { result ≡ is_before now self.now.valid_until }
    {
        now < self.valid_until
    }
}

/// A prefix from which the host forms addresses, and its lifetimes.
#[derive(Clone, Copy, Debug, PartialEq, Eq)]
pub struct Prefix {
    /// The prefix as it was received, with its length.
    pub cidr: Ipv6Cidr,
    pub info: PrefixInfo,
}

impl Default for Prefix {
    fn default() -> Prefix
        ensures { result ≡ record { cidr = whole; info = info_withdrawn } }
    {
        Prefix {
            cidr: whole(),
            info: PrefixInfo::withdrawn(),
        }
    }
}

/// A route via a router that advertised itself.
#[derive(Clone, Copy, Debug, PartialEq, Eq)]
pub struct Route {
    /// The network of the route: ::/0.
    pub cidr: Ipv6Cidr,
    /// The router, by the source of its advertisement.
    pub via_router: Ipv6Address,
    /// From then on the route isn't used.
    pub valid_until: Instant,
}

impl Route {
    // The default route via a router, until the end of its lifetime.
    fn by_default(via_router: Ipv6Address, valid_until: Instant) -> Route
        ensures { result ≡ default_route via_router valid_until }
    {
        Route {
            cidr: whole(),
            via_router,
            valid_until,
        }
    }

    /// Whether this is the route to a network via a router.
    pub fn same_route(&self, cidr: &Ipv6Cidr, via_router: &Ipv6Address) -> bool
        ensures { result ≡ spec.is_same_route cidr.now via_router.now self.now }
    {
        self.cidr == *cidr && self.via_router == *via_router
    }

    // Whether it is the default route via a router.
    fn is_by(&self, via_router: &Ipv6Address) -> bool
        ensures { result ≡ spec.is_same_route whole via_router.now self.now }
    {
        self.same_route(&whole(), via_router)
    }

    /// Whether the route is valid: its lifetime has not ended.
    pub fn is_valid(&self, now: Instant) -> bool
        ensures { result ≡ is_route_valid now self.now }
    {
        now < self.valid_until
    }
}

impl Default for Route {
    fn default() -> Route
        ensures { result ≡ default_route (record { bits = 0 }) (pos 0) }
    {
        Route::by_default(Ipv6Address::UNSPECIFIED, Instant::ZERO)
    }
}

/// What was learnt from router advertisements: prefixes and routers with their lifetimes, as many as there is room for,
/// and the phase of router discovery.
///
/// In contracts it is the record of these.
#[derive(Drop)]
pub struct Slaac {
    prefix: ArrayVec<Prefix, MAX_PREFIX_COUNT>,
    prefix_room: usize,
    routes: ArrayVec<Route, MAX_ROUTER_COUNT>,
    router_room: usize,
    phase: Phase,
    sync_required: bool,
    retry_rs_at: Instant,
    num_solicitations: u8,
    pub ghost few_prefixes: { prefix_room ≤ 8 },
    pub ghost few_routers: { router_room ≤ 8 },
}

impl Model for Slaac {
    ghost use Rattle.iface_tables.specs.Slaac.{SlaacState};

    ghost Value = { SlaacState };

    ghost view = { λ s. record {
      prefixes = s.prefix.items;
      prefix_room = s.prefix_room;
      routers = s.routes.items;
      router_room = s.router_room;
      phase = s.phase;
      retry_at = s.retry_rs_at;
      left = s.num_solicitations;
      changed = s.sync_required;
    } };
}

impl Slaac {
    /// The initial state: there is room for two prefixes and four routers, nothing is known, and three solicitations may
    /// be sent, the first from moment 0 on.
    pub fn new() -> Slaac
        ensures { result ≡ initial_state }
    {
        Slaac {
            prefix: ArrayVec::new(),
            prefix_room: IFACE_MAX_PREFIX_COUNT,
            routes: ArrayVec::new(),
            router_room: IFACE_MAX_ROUTE_COUNT,
            phase: Phase::Start,
            sync_required: false,
            retry_rs_at: Instant::ZERO,
            num_solicitations: MAX_RTR_SOLICITATIONS,
        }
    }

    /// Sets for how many prefixes and routers there is room, at most eight of each. What is known stays: as long as more
    /// than so many are known, none is added.
    pub fn set_room(&mut self, prefixes: usize, routers: usize)
        ensures { self.new ≡ spec.with_room self.old prefixes routers }
    {
        self.prefix_room = prefixes.min(MAX_PREFIX_COUNT);
        self.router_room = routers.min(MAX_ROUTER_COUNT);
    }

    /// Whether what is known changed since the last [`Slaac::update_slaac_state`]: a prefix was added, a new router was
    /// advertised, or one of them was withdrawn. A renewal is no change, and neither is an expiry.
    pub fn has_ra_update(&self) -> bool
        ensures { result ≡ self.now.changed }
    {
        self.sync_required
    }

    /// Sets whether what is known counts as changed. Where it doesn't, addresses and routes are synchronized no sooner than
    /// something expires.
    pub fn set_ra_update(&mut self, changed: bool)
        ensures { self.new ≡ record self.old { changed = changed } }
    {
        self.sync_required = changed;
    }

    /// The known prefixes, including expired ones.
    pub fn prefix(&self) -> &[Prefix]
        ensures value { result.now ≡ self.now.prefixes }
        ensures fits { length result.now ≤ MAX_PREFIX_COUNT }
    {
        self.prefix.as_slice()
    }

    /// The known routes, including expired ones, in the order in which they were learnt.
    pub fn routes(&self) -> &[Route]
        ensures value { result.now ≡ self.now.routers }
        ensures fits { length result.now ≤ MAX_ROUTER_COUNT }
    {
        self.routes.as_slice()
    }

    /// The phase of router discovery.
    pub fn phase(&self) -> Phase
        ensures { result ≡ self.now.phase }
    {
        self.phase
    }

    /// How many solicitations may still be sent.
    pub fn num_solicitations(&self) -> u8
        ensures { result ≡ self.now.left }
    {
        self.num_solicitations
    }

    /// Processes a router advertisement: the router that sent it, its lifetime as a default router, and a prefix, if it
    /// carries one. The lifetime must be below 2^32 s.
    pub fn process_advertisement(
        &mut self,
        source: &Ipv6Address,
        router_lifetime: Duration,
        prefix: Option<NdiscPrefixInformation>,
        now: Instant,
    )
        requires router { IsLifetime router_lifetime }
        requires moment { IsMoment now }
        ensures { self.new ≡ slaac_after_message self.old source.now router_lifetime prefix now }
    {
        let is_prefix_news = process_prefix(&mut self.prefix, self.prefix_room, prefix, now);
        let is_router_news = process_router(
            &mut self.routes,
            self.router_room,
            source,
            router_lifetime,
            now,
        );
        self.sync_required = self.sync_required || is_prefix_news || is_router_news;
        self.phase = phase_after_answer(self.phase);
    }

    /// Whether addresses and routes have to be synchronized with what is known: that changed, or some of it has
    /// expired.
    pub fn sync_required(&self, now: Instant) -> bool
        ensures { result ≡ spec.sync_required self.now now }
    {
        self.sync_required
            || has_ended_prefix(self.prefix.as_slice(), now)
            || has_ended_route(self.routes.as_slice(), now)
    }

    /// Ends a sync of addresses and routes: forgets what has expired.
    pub fn update_slaac_state(&mut self, now: Instant)
        ensures { self.new ≡ slaac_after_update self.old now }
    {
        self.prefix = valid_prefixes(self.prefix.as_slice(), now);
        self.routes = valid_routes(self.routes.as_slice(), now);
        self.sync_required = false;
    }

    // Whether router discovery goes on, and the time of the next solicitation has come.
    fn is_its_time(&self, now: Instant) -> bool
        ensures { result ≡ spec.is_its_time self.now now }
    {
        is_searching(self.phase) && self.retry_rs_at <= now
    }

    /// Whether a router solicitation has to be sent.
    pub fn rs_required(&self, now: Instant) -> bool
        ensures { result ≡ spec.rs_required self.now now }
    {
        self.is_its_time(now) && self.num_solicitations > 0
    }

    /// Records that a router solicitation was sent: one less is left, and the next may be sent 4 s later. Nothing
    /// changes if it wasn't due yet; if none was left, discovery ends.
    pub fn rs_sent(&mut self, now: Instant)
        requires moment { IsMoment now }
        ensures { self.new ≡ spec.rs_sent self.old now }
    {
        if !self.is_its_time(now) {
            return;
        }
        if self.num_solicitations == 0 {
            self.phase = Phase::None;
            return;
        }
        self.num_solicitations -= 1;
        self.phase = Phase::Discovering;
        self.retry_rs_at = now + RTR_SOLICITATION_INTERVAL;
    }

    /// When there is work next: the earliest of the time of the next solicitation, if one may be sent, and of the
    /// expiries after now. `None` exactly if there is none of these.
    pub fn poll_at(&self, now: Instant) -> Option<Instant>
        ensures { result ≡ spec.poll_at self.now now }
    {
        earlier_of(self.retry_at(), self.end_at(now))
    }

    /// The earliest expiry after now of what is known, if any.
    pub fn end_at(&self, now: Instant) -> Option<Instant>
        ensures { result ≡ spec.end_at self.now now }
    {
        let prefix_end = least_prefix_end(self.prefix.as_slice(), now);
        let route_end = least_route_end(self.routes.as_slice(), now);
        earlier_of(prefix_end, route_end)
    }

    /// When the next solicitation may be sent, if one may. The moment may have passed.
    pub fn retry_at(&self) -> Option<Instant>
        ensures { result ≡ spec.retry_at self.now }
    {
        if is_searching(self.phase) && self.num_solicitations > 0 {
            return Some(self.retry_rs_at);
        }
        None
    }
}

// ::/0.
fn whole() -> Ipv6Cidr
    ensures { result ≡ whole }
{
    Ipv6Cidr {
        address: Ipv6Address::UNSPECIFIED,
        prefix_len: 0,
    }
}

// Whether router discovery goes on.
fn is_searching(phase: Phase) -> bool
    ensures { result ≡ spec.is_searching phase }
{
    match phase {
        Phase::Start | Phase::Discovering => true,
        Phase::Maintaining | Phase::None => false,
    }
}

// The phase of router discovery after an advertisement.
fn phase_after_answer(phase: Phase) -> Phase
    ensures { result ≡ spec.phase_after_answer phase }
{
    match phase {
        Phase::Start => Phase::Start,
        Phase::Discovering | Phase::Maintaining => Phase::Maintaining,
        Phase::None => Phase::None,
    }
}

// The network of an address and a length, if the length is at most 128.
fn cidr_from(address: Ipv6Address, prefix_len: u8) -> Option<Ipv6Cidr>
    ensures { result ≡ spec.cidr_from address prefix_len }
{
    if prefix_len > 128 {
        return None;
    }
    Some(Ipv6Cidr {
        address,
        prefix_len,
    })
}

// The prefix that is learnt, if any.
fn advertised_prefix(prefix: &NdiscPrefixInformation) -> Option<Ipv6Cidr>
    ensures { result ≡ advertised_prefix prefix.now }
{
    if !prefix.is_valid_prefix_info() || !prefix.flags.contains(NdiscPrefixInfoFlags::ADDRCONF) {
        return None;
    }
    if prefix.valid_lifetime > 0 && prefix.prefix.is_link_local() {
        return None;
    }
    cidr_from(prefix.prefix, prefix.prefix_len)
}

// The index of a prefix, or the length.
fn prefix_index(prefixes: &[Prefix], cidr: &Ipv6Cidr) -> usize
    ensures { result ≡ prefix_index prefixes.now cidr.now }
{
    for (i, prefix) in prefixes.iter().enumerate() {
        if prefix.cidr == *cidr {
            return i;
        }
    }
    prefixes.len()
}

// The index of the default route via a router, or the length.
fn router_index(routes: &[Route], router: &Ipv6Address) -> usize
    ensures { result ≡ router_index routes.now router.now }
{
    for (i, route) in routes.iter().enumerate() {
        if route.is_by(router) {
            return i;
        }
    }
    routes.len()
}

// Sets the lifetimes of a valid prefix. Returns whether it is new and had room.
fn add_prefix(
    prefixes: &mut ArrayVec<Prefix, MAX_PREFIX_COUNT>,
    room: usize,
    cidr: Ipv6Cidr,
    info: PrefixInfo,
) -> bool
    requires { room ≤ MAX_PREFIX_COUNT }
    ensures prefixes { prefixes.new.items ≡ with_prefix room prefixes.old.items cidr info }
    ensures news { result ≡ not (knows_prefix prefixes.old.items cidr || spec.is_prefix_full room prefixes.old.items) }
{
    let index = prefix_index(prefixes.as_slice(), &cidr);
    if let Some(known) = prefixes.get_mut(index) {
        *known = Prefix { cidr, info };
        return false;
    }
    if prefixes.len() >= room {
        return false;
    }
    prefixes.push(Prefix { cidr, info });
    true
}

// Withdraws a prefix. Returns whether it was known.
fn expire_prefix(prefixes: &mut ArrayVec<Prefix, MAX_PREFIX_COUNT>, cidr: Ipv6Cidr) -> bool
    ensures prefixes { prefixes.new.items ≡ prefixes_after_withdrawal prefixes.old.items cidr }
    ensures news { result ≡ knows_prefix prefixes.old.items cidr }
{
    let index = prefix_index(prefixes.as_slice(), &cidr);
    if let Some(known) = prefixes.get_mut(index) {
        *known = Prefix {
            cidr,
            info: PrefixInfo::withdrawn(),
        };
        return true;
    }
    false
}

// Processes the prefix of an advertisement, if any. Returns whether that is news.
fn process_prefix(
    prefixes: &mut ArrayVec<Prefix, MAX_PREFIX_COUNT>,
    room: usize,
    prefix: Option<NdiscPrefixInformation>,
    now: Instant,
) -> bool
    requires room { room ≤ MAX_PREFIX_COUNT }
    requires moment { IsMoment now }
    ensures prefixes { prefixes.new.items ≡ prefixes_after prefix room prefixes.old.items now }
    ensures news { result ≡ is_prefix_news prefix room prefixes.old.items }
{
    let Some(prefix) = prefix else {
        return false;
    };
    let Some(cidr) = advertised_prefix(&prefix) else {
        return false;
    };
    if prefix.valid_lifetime > 0 {
        return add_prefix(prefixes, room, cidr, PrefixInfo::from_prefix(&prefix, now));
    }
    expire_prefix(prefixes, cidr)
}

// Sets the lifetime of a valid router. Returns whether it is new, whether there is room for it or not.
fn add_route(
    routes: &mut ArrayVec<Route, MAX_ROUTER_COUNT>,
    room: usize,
    router: &Ipv6Address,
    valid_until: Instant,
) -> bool
    requires { room ≤ MAX_ROUTER_COUNT }
    ensures routes { routes.new.items ≡ with_router room routes.old.items router.now valid_until }
    ensures news { result ≡ not (knows_router routes.old.items router.now) }
{
    let index = router_index(routes.as_slice(), router);
    if let Some(known) = routes.get_mut(index) {
        *known = Route::by_default(*router, valid_until);
        return false;
    }
    if routes.len() < room {
        routes.push(Route::by_default(*router, valid_until));
    }
    true
}

// Withdraws a router. Returns whether it was known.
fn expire_route(routes: &mut ArrayVec<Route, MAX_ROUTER_COUNT>, router: &Ipv6Address) -> bool
    ensures routes { routes.new.items ≡ spec.without_router routes.old.items router.now }
    ensures news { result ≡ knows_router routes.old.items router.now }
{
    let index = router_index(routes.as_slice(), router);
    if let Some(known) = routes.get_mut(index) {
        *known = Route::by_default(*router, Instant::ZERO);
        return true;
    }
    false
}

// Processes the router of an advertisement. Returns whether that is news.
fn process_router(
    routes: &mut ArrayVec<Route, MAX_ROUTER_COUNT>,
    room: usize,
    router: &Ipv6Address,
    lifetime: Duration,
    now: Instant,
) -> bool
    requires room { room ≤ MAX_ROUTER_COUNT }
    requires lifetime { IsLifetime lifetime }
    requires moment { IsMoment now }
    ensures routes { routes.new.items ≡ routers_after room routes.old.items router.now lifetime now }
    ensures news { result ≡ is_router_news routes.old.items router.now lifetime }
{
    if lifetime > Duration::ZERO {
        return add_route(routes, room, router, now + lifetime);
    }
    expire_route(routes, router)
}

// Whether a prefix has expired.
fn has_ended_prefix(prefixes: &[Prefix], now: Instant) -> bool
    ensures { result ≡ list_any (λ p. not (is_prefix_valid now p)) prefixes.now }
{
    for prefix in prefixes {
        if !prefix.info.is_valid(now) {
            return true;
        }
    }
    false
}

// Whether a route has expired.
fn has_ended_route(routes: &[Route], now: Instant) -> bool
    ensures { result ≡ list_any (λ r. not (is_route_valid now r)) routes.now }
{
    for route in routes {
        if !route.is_valid(now) {
            return true;
        }
    }
    false
}

// The prefixes that are valid. If the first of two is removed, the second moves up.
fn valid_prefixes(prefixes: &[Prefix], now: Instant) -> ArrayVec<Prefix, MAX_PREFIX_COUNT>
    requires { length prefixes.now ≤ MAX_PREFIX_COUNT }
    ensures { result.items ≡ filter (is_prefix_valid now) prefixes.now }
{
    let mut valid = ArrayVec::new();
    for prefix in prefixes {
        if prefix.info.is_valid(now) {
            valid.push(*prefix);
        }
    }
    valid
}

// The routes that are valid, in their order.
fn valid_routes(routes: &[Route], now: Instant) -> ArrayVec<Route, MAX_ROUTER_COUNT>
    requires { length routes.now ≤ MAX_ROUTER_COUNT }
    ensures { result.items ≡ filter (is_route_valid now) routes.now }
{
    let mut valid = ArrayVec::new();
    for route in routes {
        if route.is_valid(now) {
            valid.push(*route);
        }
    }
    valid
}

// The earliest expiry after now of a prefix, if any.
fn least_prefix_end(prefixes: &[Prefix], now: Instant) -> Option<Instant>
    ensures { result ≡ earliest_of (prefix_ends prefixes.now now) }
{
    let mut least = None;
    for prefix in prefixes {
        if prefix.info.is_valid(now) {
            least = earlier_of(least, Some(prefix.info.valid_until));
        }
    }
    least
}

// The earliest expiry after now of a route, if any.
fn least_route_end(routes: &[Route], now: Instant) -> Option<Instant>
    ensures { result ≡ earliest_of (route_ends routes.now now) }
{
    let mut least = None;
    for route in routes {
        if route.is_valid(now) {
            least = earlier_of(least, Some(route.valid_until));
        }
    }
    least
}
