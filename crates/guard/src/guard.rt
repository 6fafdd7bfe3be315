//! Which frames a host gets to see.
ghost use Rattle.std.specs.Prelude.{◌≡◌, None};
ghost use Rattle.std.specs.FinMap as map;
ghost use Rattle.iface_tables.specs.Neighbor.{is_later};
ghost use Rattle.net_base.specs.Time.{IsMoment};
ghost use Rattle.ip_address.specs.Cidr.{address_of};
ghost use Rattle.sockets.specs.Source.{is_same};
ghost use Rattle.guard.specs.Guard as spec;
ghost use Rattle.guard.specs.Kind as kind;

use crate::claim::{comes_back, is_from_host};
use crate::kind::{Kind, Sort, asked_in, is_echo, kind_of, sort_of_ipv4, sort_of_ipv6};
use crate::pins::Pins;
use iface_tables::neighbor::Cache;
use ip_address::{HardwareAddress, IpAddress, IpCidr, Ipv6Address};
use ip_wire::ipv6_packet::address_at;
use ip_wire::octets::{u16_at, u32_at};
use net_base::bucket::Bucket;
use net_base::time::Instant;

/// How far ahead an instant may be, in microseconds, before the clock counts as gone back: a minute.
const AHEAD: u64 = 60_000_000;

/// How long an answer to a request for a hardware address is expected, in microseconds.
pub(crate) const ANSWER_TIME: u64 = 3_000_000;

/// Why a frame is dropped.
#[derive(Clone, Copy, Debug, PartialEq, Eq)]
pub enum Reason {
    /// An ARP packet or a neighbour message claims an address of the host for another hardware address (RFC 5227 2.4, RFC 4862
    /// 5.4.4).
    OwnAddress,
    /// An IP packet from another hardware address has an address of the host as its source.
    OwnSource,
    /// An ARP packet or a neighbour message tells another hardware address of a pinned neighbour.
    Pinned,
    /// A fragment of an IP packet.
    Fragment,
    /// A datagram of UDP from port 7, 13, 17 or 19 to a port below 1,024.
    Loop,
    /// An echo request, or a fragment of ICMP, beyond the rate of these.
    EchoRequest,
}

/// A request for a hardware address that the host sent.
#[derive(Clone, Copy, Debug, PartialEq, Eq)]
pub struct Asked {
    /// For whom it asked.
    pub address: IpAddress,
    /// When, in microseconds.
    pub at: u64,
    /// Whether it was sent in response to a frame.
    pub in_response: bool,
}

/// A guard: its rules, the neighbours that are pinned, and for whom the host asked last.
#[derive(Clone, Copy, Debug, PartialEq, Eq)]
pub struct Guard {
    /// Whether what claims an own address for another hardware address is dropped, or is sent from one by another.
    pub keeps_own_addresses: bool,
    /// Whether fragments are dropped.
    pub drops_fragments: bool,
    /// Whether datagrams are dropped that could go to and fro for ever.
    pub drops_loops: bool,
    /// The rate of echo requests (RFC 792, RFC 4443 4.1) and of fragments of ICMP that the host gets to see; an interval of 0 bounds
    /// nothing.
    pub echo_requests: Bucket,
    /// How long a neighbour is known that isn't confirmed, in microseconds; 0: as long as any other.
    pub strangers_stay: u32,
    /// Whether sockets that wait for a neighbour and frames take turns in asking for one.
    pub takes_turns: bool,
    /// Whether an answer to a query that waits stays where a later query would only put it off.
    pub keeps_reports: bool,
    /// Whether an advertisement of which nothing is learnt leaves the neighbours.
    pub keeps_neighbors: bool,
    /// Whether half of the slots for fragments are kept for neighbours that are known.
    pub keeps_slots: bool,
    /// The neighbours whose hardware address the program says.
    pub pins: Pins,
    /// The last request for a hardware address.
    pub asked: Option<Asked>,
}

impl Guard {
    /// A guard that keeps own addresses, and drops loops, not fragments. Echo requests have no rate. A neighbour that isn't confirmed is
    /// known for twenty seconds; sockets and frames take turns; answers that wait stay; and so do neighbours, where nothing is learnt of
    /// a router. Half of the slots for fragments are kept for known neighbours.
    pub const fn new() -> Guard
        ensures { result ≡ spec.new_guard }
    {
        Guard {
            keeps_own_addresses: true,
            drops_fragments: false,
            drops_loops: true,
            echo_requests: Bucket::new(0, 0),
            strangers_stay: 20_000_000,
            takes_turns: true,
            keeps_reports: true,
            keeps_neighbors: true,
            keeps_slots: true,
            pins: Pins::new(),
            asked: None,
        }
    }

    /// Judges a frame for a host with this hardware address (`None` on a medium without) and these addresses. Returns why the host may
    /// not see it; `None` if it may.
    #[inline(never)]
    pub fn judge(
        &self,
        frame: &[u8],
        hardware: Option<HardwareAddress>,
        own: &[IpCidr],
    ) -> Option<Reason>
        ensures { result ≡ spec.reason_of frame.now hardware own.now self.now }
    {
        match kind_of(frame) {
            Kind::Arp { sender } => {
                self.refusal_of_claim(is_own(own, &sender), &sender, hardware, frame)
            }
            Kind::Neighbor { sender, target } => {
                let claimed = is_own(own, &sender) || is_one_own(own, target);
                self.refusal_of_claim(claimed, &sender, hardware, frame)
            }
            Kind::Packet { sender, sort } => {
                self.refusal_of_packet(&sender, sort, hardware, frame, own)
            }
            Kind::Other => None,
        }
    }

    /// Takes a token for a frame that has an echo request, or a fragment of ICMP. Returns why the host may not see it, if there was no
    /// token. Other frames take none.
    pub(crate) fn take_echo(&mut self, now: Instant, frame: &[u8]) -> Option<Reason>
        ensures reason { result ≡ spec.refusal_of_echo now frame.now self.old }
        ensures guard { self.new ≡ spec.after_echo now frame.now self.old }
    {
        if self.echo_requests.interval == 0 || !is_echo(frame) {
            return None;
        }
        take(&mut self.echo_requests, now, Reason::EchoRequest)
    }

    /// Notes a frame that the host sends at an instant, in response to another one or not: if it asks for a hardware address, the
    /// answer is expected for three seconds.
    pub fn note_sent(&mut self, now: Instant, frame: &[u8], in_response: bool)
        ensures { self.new ≡ spec.after_asking now (kind.asked_in frame.now) in_response self.old }
    {
        if let Some(address) = asked_in(frame) {
            self.asked = Some(Asked {
                address,
                at: micros(now),
                in_response,
            });
        }
    }

    /// Whether frames ask for nobody at an instant, where a socket waits for its neighbour: the last request was in response to a
    /// frame, at most three seconds ago, and who was asked for isn't among the neighbours.
    pub fn is_turn_of_sockets(&self, now: Instant, neighbors: &Cache) -> bool
        ensures { result ≡ spec.is_turn_of_sockets now neighbors.now self.now }
    {
        match self.asked {
            None => false,
            Some(asked) => {
                self.takes_turns
                    && asked.in_response
                    && asked.is_recent(now)
                    && !is_known(neighbors, &asked.address, now)
            }
        }
    }

    /// Whether the host asked for somebody last, and not long ago.
    pub(crate) fn asked_for(&self, now: Instant, sender: &IpAddress) -> bool
        ensures { result ≡ spec.was_asked now sender.now self.now.asked }
    {
        match self.asked {
            None => false,
            Some(asked) => asked.address == *sender && asked.is_recent(now),
        }
    }

    /// Why a message is dropped by what it claims.
    fn refusal_of_claim(
        &self,
        claimed: bool,
        sender: &IpAddress,
        hardware: Option<HardwareAddress>,
        frame: &[u8],
    ) -> Option<Reason>
        ensures { result ≡ spec.refusal_of_claim claimed sender.now hardware frame.now self.now }
    {
        if self.keeps_own_addresses && claimed && !is_from_host(hardware, frame) {
            return Some(Reason::OwnAddress);
        }
        if self.pins.forbids(sender, frame) {
            return Some(Reason::Pinned);
        }
        None
    }

    /// Why a packet is dropped by its source, or by what it is.
    fn refusal_of_packet(
        &self,
        sender: &IpAddress,
        sort: Sort,
        hardware: Option<HardwareAddress>,
        frame: &[u8],
        own: &[IpCidr],
    ) -> Option<Reason>
        ensures { result ≡ spec.refusal_of_packet sender.now sort hardware frame.now own.now self.now }
    {
        let is_own = is_own(own, sender);
        let returned = is_own && comes_back(hardware, frame);
        if self.keeps_own_addresses && is_own && !returned {
            return Some(Reason::OwnSource);
        }
        self.refusal_of(returned, sort)
    }

    /// Why a packet is dropped by what it is, from whomever it comes. What the host itself sent may come back.
    fn refusal_of(&self, returned: bool, sort: Sort) -> Option<Reason>
        ensures { result ≡ spec.refusal_of returned sort self.now }
    {
        match sort {
            Sort::Fragment if self.drops_fragments => Some(Reason::Fragment),
            Sort::Loop if self.drops_loops && !returned => Some(Reason::Loop),
            _ => None,
        }
    }
}

impl Asked {
    ghost use Rattle.std.specs.Prelude.{◌≡◌};
    ghost use Rattle.guard.specs.Guard as spec;

    /// Whether the request was sent at most three seconds ago. One that is ahead by more than a minute wasn't.
    fn is_recent(&self, now: Instant) -> bool
        ensures { result ≡ spec.is_recent now self.now }
    {
        let now = micros(now);
        now <= self.at.saturating_add(ANSWER_TIME) && !is_ahead(now, self.at)
    }
}

/// Whether an address is known at an instant.
pub fn is_known(neighbors: &Cache, address: &IpAddress, now: Instant) -> bool
    ensures { result ≡ is_later now (map.get neighbors.now.known address.now) }
{
    match neighbors.get(address) {
        None => false,
        Some(neighbor) => now < neighbor.expires_at,
    }
}

/// The microseconds of an instant; 0 before the origin.
pub(crate) fn micros(now: Instant) -> u64
    ensures { result ≡ spec.micros now }
{
    let micros = now.total_micros();
    if micros < 0 { 0 } else { micros as u64 }
}

/// Whether an instant is ahead by more than a minute, so that the clock has gone back since.
pub(crate) fn is_ahead(now: u64, instant: u64) -> bool
    ensures { result ≡ spec.is_ahead now instant }
{
    now.saturating_add(AHEAD) < instant
}

/// Fills a bucket that an empty one would be behind by more than a minute: the clock has gone back since a token was taken.
fn keep_to_clock(bucket: &mut Bucket, now: u64)
    ensures { bucket.new ≡ spec.at_clock now bucket.old }
{
    let empty = u128::from(now) + u128::from(bucket.depth) * u128::from(bucket.interval);
    if empty + u128::from(AHEAD) < bucket.full_at {
        bucket.full_at = u128::from(now);
    }
}

/// Whether a token is there at an instant. An interval of 0 bounds nothing. Mostly the bucket is full.
#[inline(always)]
#[tactic(auto, using(crate::proofs::RateLemmas::full_has_room))]
pub(crate) fn has_room(bucket: &Bucket, now: Instant) -> bool
    ensures { result ≡ spec.has_room (spec.micros now) bucket.now }
{
    bucket.depth != 0 && bucket.full_at <= u128::from(micros(now)) || has_some(bucket, now)
}

/// Likewise, of a bucket that may not be full.
#[inline(never)]
fn has_some(bucket: &Bucket, now: Instant) -> bool
    ensures { result ≡ spec.has_room (spec.micros now) bucket.now }
{
    let mut bucket = *bucket;
    take(&mut bucket, now, ()).is_none()
}

/// Takes a token, if there is one; otherwise returns the reason. An interval of 0 bounds nothing.
pub(crate) fn take<R: Copy + Drop>(bucket: &mut Bucket, now: Instant, reason: R) -> Option<R>
    ensures reason { result ≡ spec.reason_unless (spec.has_room (spec.micros now) bucket.old) reason }
    ensures bucket { bucket.new ≡ spec.after_passing (spec.micros now) bucket.old }
{
    if bucket.interval == 0 {
        return None;
    }
    let now = micros(now);
    keep_to_clock(bucket, now);
    if bucket.take(now) { None } else { Some(reason) }
}

/// Whether nothing is asked of a frame but its source and its protocol: a datagram of UDP or a segment of TCP, from another address
/// than those of the host.
#[inline(always)]
pub fn is_ordinary(frame: &[u8], own: &[IpCidr]) -> bool
    ensures { result ≡ spec.is_ordinary frame.now own.now }
{
    if frame.len() < 42 {
        return false;
    }
    match u16_at(frame, 12) {
        0x0800 => is_transport(sort_of_ipv4(frame)) && !is_own_ipv4(own, u32_at(frame, 26)),
        0x86dd => is_transport(sort_of_ipv6(frame)) && !is_own_ipv6(own, address_at(frame, 22)),
        _ => false,
    }
}

/// Whether a packet has a datagram of UDP or a segment of TCP, that is no fragment, and doesn't go to and fro.
#[inline(always)]
fn is_transport(sort: Sort) -> bool
    ensures { result ≡ spec.is_ordinary_sort sort }
{
    match sort {
        Sort::Transport => true,
        Sort::Fragment | Sort::Loop | Sort::Plain => false,
    }
}

/// Whether two addresses are equal, by family and number. Written so, it takes fewer instructions than `==`.
#[inline(always)]
fn is_same(a: &IpAddress, b: &IpAddress) -> bool
    ensures { result ≡ is_same a.now b.now }
{
    match (a, b) {
        (IpAddress::Ipv4(a), IpAddress::Ipv4(b)) => a.bits == b.bits,
        (IpAddress::Ipv6(a), IpAddress::Ipv6(b)) => a.bits == b.bits,
        _ => false,
    }
}

/// Whether an address is one of the host's.
#[inline(always)]
fn is_own(own: &[IpCidr], address: &IpAddress) -> bool
    ensures { result ≡ spec.is_own own.now address.now }
{
    own.iter().any(|cidr| is_same(&cidr.address(), address))
}

/// Whether an IPv4 address is one of the host's. For this family alone it takes fewer instructions than [`is_own`].
#[inline(always)]
fn is_own_ipv4(own: &[IpCidr], bits: u32) -> bool
    ensures { result ≡ spec.is_own own.now (IpAddress.Ipv4 (record { bits = bits })) }
{
    own.iter().any(|cidr| has_ipv4(cidr, bits))
}

/// Likewise of an IPv6 address.
#[inline(always)]
fn is_own_ipv6(own: &[IpCidr], address: Ipv6Address) -> bool
    ensures { result ≡ spec.is_own own.now (IpAddress.Ipv6 address) }
{
    own.iter().any(|cidr| has_ipv6(cidr, address))
}

/// Whether an address of the host's is this IPv4 address.
#[inline(always)]
fn has_ipv4(cidr: &IpCidr, bits: u32) -> bool
    ensures { result ≡ is_same (address_of cidr.now) (IpAddress.Ipv4 (record { bits = bits })) }
{
    match cidr {
        IpCidr::Ipv4(cidr) => cidr.address.bits == bits,
        IpCidr::Ipv6(_) => false,
    }
}

/// Whether an address of the host's is this IPv6 address.
#[inline(always)]
fn has_ipv6(cidr: &IpCidr, address: Ipv6Address) -> bool
    ensures { result ≡ is_same (address_of cidr.now) (IpAddress.Ipv6 address) }
{
    match cidr {
        IpCidr::Ipv4(_) => false,
        IpCidr::Ipv6(cidr) => cidr.address.bits == address.bits,
    }
}

/// Whether an address, if there is one, is one of the host's.
fn is_one_own(own: &[IpCidr], address: Option<IpAddress>) -> bool
    ensures { result ≡ spec.is_one_own own.now address }
{
    match address {
        None => false,
        Some(address) => is_own(own, &address),
    }
}

/// Whether an address is in a network of the host's.
pub(crate) fn is_near(own: &[IpCidr], address: &IpAddress) -> bool
    ensures { result ≡ spec.is_near own.now address.now }
{
    own.iter().any(|cidr| cidr.contains_addr(address))
}
