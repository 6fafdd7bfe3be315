//! How long a neighbour is known that a host doesn't know well: strangers displace strangers alone.
//!
//! A neighbour is *confirmed* if its entry expires later than a stranger's would that comes now. What a frame tells of anybody
//! else is known for the shorter time, and so is evicted before all that are confirmed. Packets confirm a neighbour, and so does
//! its answer to the host's own request, while fewer than half of the entries are confirmed.
ghost use Rattle.std.specs.Prelude.{◌≡◌, ◌≤◌, length};
ghost use Rattle.net_base.specs.Time.{IsMoment};
ghost use Rattle.guard.specs.Strangers as spec;

use crate::claim::hardware_at;
use crate::guard::{Guard, is_near};
use crate::kind::{Kind, Sort, ipv4_at, kind_of};
use iface_tables::neighbor::{Cache, Neighbor};
use ip_address::{EthernetAddress, HardwareAddress, IpAddress, IpCidr};
use ip_wire::ipv6_packet::address_at;
use ip_wire::octets::u16_at;
use net_base::time::{Duration, Instant};

/// When the entry of a neighbour expires at the latest, after a host took a frame.
#[derive(Clone, Copy, Debug, PartialEq, Eq)]
pub struct Limit {
    /// The address of the neighbour.
    pub address: IpAddress,
    /// When its entry expires at the latest.
    pub expires_at: Instant,
    /// The hardware address with which it stays as it is.
    pub unless: Option<HardwareAddress>,
}

impl Limit {
    ghost use Rattle.std.specs.Prelude.{◌≡◌, not};
    ghost use Rattle.std.specs.FinMap as map;
    ghost use Rattle.guard.specs.Strangers as spec;

    /// Whether the address has no entry with the hardware address with which it stays as it is.
    pub fn is_for_other(&self, neighbors: &Cache) -> bool
        ensures { result ≡ not (spec.has_address (map.get neighbors.now.known self.now.address) self.now.unless) }
    {
        match (neighbors.get(&self.address), self.unless) {
            (Some(neighbor), Some(hardware)) => neighbor.hardware_addr != hardware,
            _ => true,
        }
    }
}

impl Guard {
    ghost use Rattle.std.specs.Prelude.{◌≡◌, true};
    ghost use Rattle.net_base.specs.Time.{IsMoment};
    ghost use Rattle.guard.specs.Guard.{is_ordinary};
    ghost use Rattle.guard.specs.Strangers as spec;

    /// The limit that a frame brings to its sender's entry, if it brings one, for a host with these addresses that has these neighbours
    /// before it takes the frame at a moment.
    pub fn limit_for(
        &self,
        now: Instant,
        frame: &[u8],
        own: &[IpCidr],
        neighbors: &Cache,
    ) -> Option<Limit>
        requires { IsMoment now }
        ensures { result ≡ spec.limit_for now frame.now own.now neighbors.now self.now }
    {
        if self.strangers_stay == 0 {
            return None;
        }
        let kind = kind_of(frame);
        let address = sender_of(kind)?;
        if !may_have_entry(own, &address) {
            return None;
        }
        match neighbors.get(&address) {
            None => self.limit_of_new(now, kind, address, neighbors),
            Some(neighbor) if self.end_of_stay(now) < neighbor.expires_at => {
                self.limit_of_confirmed(now, kind, address, &neighbor)
            }
            Some(_) => self.limit_of_stranger(now, kind, address, neighbors),
        }
    }

    /// Likewise of a frame that is ordinary ([`is_ordinary`](crate::guard::is_ordinary)): mostly it brings none.
    #[inline(always)]
    pub fn limit_of_ordinary(
        &self,
        now: Instant,
        frame: &[u8],
        own: &[IpCidr],
        neighbors: &Cache,
    ) -> Option<Limit>
        requires moment { IsMoment now }
        requires ordinary { is_ordinary frame.now own.now ≡ true }
        ensures { result ≡ spec.limit_for now frame.now own.now neighbors.now self.now }
    {
        match neighbors.get(&packet_sender(frame)) {
            None => None,
            Some(neighbor) if self.end_of_stay(now) < neighbor.expires_at => None,
            Some(_) => self.limit_for(now, frame, own, neighbors),
        }
    }

    /// Whether a frame comes from a neighbour that is confirmed, and from its hardware address.
    pub fn comes_from_known(&self, now: Instant, frame: &[u8], neighbors: &Cache) -> bool
        requires { IsMoment now }
        ensures { result ≡ spec.comes_from_known now frame.now neighbors.now self.now }
    {
        match sender_of(kind_of(frame)) {
            None => false,
            Some(address) => {
                let hardware = hardware_at(frame, 6);
                self.is_confirmed_at(now, &hardware, &neighbors.get(&address))
            }
        }
    }

    /// Whether a neighbour is confirmed, and has this hardware address.
    fn is_confirmed_at(
        &self,
        now: Instant,
        hardware: &EthernetAddress,
        neighbor: &Option<Neighbor>,
    ) -> bool
        requires { IsMoment now }
        ensures { result ≡ spec.is_confirmed_at now hardware.now neighbor.now self.now }
    {
        match neighbor {
            None => false,
            Some(neighbor) => {
                self.end_of_stay(now) < neighbor.expires_at
                    && neighbor.hardware_addr == HardwareAddress::Ethernet(*hardware)
            }
        }
    }

    /// The limit of somebody who isn't stored.
    fn limit_of_new(
        &self,
        now: Instant,
        kind: Kind,
        address: IpAddress,
        neighbors: &Cache,
    ) -> Option<Limit>
        requires { IsMoment now }
        ensures { result ≡ spec.limit_of_new now kind address neighbors.now self.now }
    {
        if teaches_nobody(kind)
            || self.asked_for(now, &address) && self.leaves_half(now, neighbors)
        {
            None
        } else {
            Some(self.limit_at(now, address, None))
        }
    }

    /// The limit of somebody who is confirmed.
    fn limit_of_confirmed(
        &self,
        now: Instant,
        kind: Kind,
        address: IpAddress,
        neighbor: &Neighbor,
    ) -> Option<Limit>
        requires { IsMoment now }
        ensures { result ≡ spec.limit_of_confirmed now kind address neighbor.now self.now }
    {
        if is_packet(kind) {
            None
        } else {
            Some(self.limit_at(now, address, Some(neighbor.hardware_addr)))
        }
    }

    /// The limit of somebody who is stored and isn't confirmed.
    fn limit_of_stranger(
        &self,
        now: Instant,
        kind: Kind,
        address: IpAddress,
        neighbors: &Cache,
    ) -> Option<Limit>
        requires { IsMoment now }
        ensures { result ≡ spec.limit_of_stranger now kind address neighbors.now self.now }
    {
        if (is_packet(kind) || self.asked_for(now, &address)) && self.leaves_half(now, neighbors) {
            None
        } else {
            Some(self.limit_at(now, address, None))
        }
    }

    /// The limit of an address at a moment.
    fn limit_at(&self, now: Instant, address: IpAddress, unless: Option<HardwareAddress>) -> Limit
        requires { IsMoment now }
        ensures { result ≡ spec.limit_at now address unless self.now }
    {
        Limit {
            address,
            expires_at: self.end_of_stay(now),
            unless,
        }
    }

    /// Until when a stranger is known that comes at a moment.
    fn end_of_stay(&self, now: Instant) -> Instant
        requires { IsMoment now }
        ensures { result ≡ spec.end_of_stay now self.now }
    {
        now + Duration::from_micros(u64::from(self.strangers_stay))
    }

    /// Whether fewer than half of the entries are confirmed.
    fn leaves_half(&self, now: Instant, neighbors: &Cache) -> bool
        requires { IsMoment now }
        ensures { result ≡ spec.leaves_half now neighbors.now self.now }
    {
        2 * (self.confirmed(now, neighbors) as u128) < neighbors.room() as u128
    }

    /// How many entries are confirmed.
    fn confirmed(&self, now: Instant, neighbors: &Cache) -> usize
        requires { IsMoment now }
        ensures { result ≡ spec.confirmed now neighbors.now self.now }
    {
        neighbors.count_after(self.end_of_stay(now))
    }
}

/// The source of a frame that has an IP packet.
#[inline(always)]
fn packet_sender(frame: &[u8]) -> IpAddress
    requires { 42 ≤ length frame.now }
    ensures { result ≡ spec.packet_sender frame.now }
{
    if u16_at(frame, 12) == 0x0800 {
        ipv4_at(frame, 26)
    } else {
        IpAddress::Ipv6(address_at(frame, 22))
    }
}

/// Who sends a frame of a kind.
fn sender_of(kind: Kind) -> Option<IpAddress>
    ensures { result ≡ spec.sender_of kind }
{
    match kind {
        Kind::Arp { sender } | Kind::Neighbor { sender, .. } | Kind::Packet { sender, .. } => {
            Some(sender)
        }
        Kind::Other => None,
    }
}

/// Whether it is an IP packet that is no neighbour message.
fn is_packet(kind: Kind) -> bool
    ensures { result ≡ spec.is_packet kind }
{
    matches!(kind, Kind::Packet { .. })
}

/// Whether nobody is learnt from a frame of a kind.
fn teaches_nobody(kind: Kind) -> bool
    ensures { result ≡ spec.teaches_nobody kind }
{
    match kind {
        Kind::Arp { .. } | Kind::Neighbor { .. } => false,
        Kind::Packet { sort, .. } => match sort {
            Sort::Fragment | Sort::Loop | Sort::Transport => true,
            Sort::Plain => false,
        },
        Kind::Other => true,
    }
}

/// Whether an address may have an entry: one of IPv4 has one only in a network of the host's.
fn may_have_entry(own: &[IpCidr], address: &IpAddress) -> bool
    ensures { result ≡ spec.may_have_entry own.now address.now }
{
    match address {
        IpAddress::Ipv4(_) => is_near(own, address),
        IpAddress::Ipv6(_) => true,
    }
}
