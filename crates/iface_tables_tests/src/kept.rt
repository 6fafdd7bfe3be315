//! What a guard leaves of what a frame changed: how long a stranger is known, whose turn it is to ask, and which answers stay.
use crate::frames::{Change, Frame, Kind, OWN, at, known, octets_of};
use control_wire::IgmpVersion;
use guard::guard::Guard;
use guard::reports::{kept, kept_mld};
use guard::strangers::Limit;
use iface_tables::neighbor::Cache;
use iface_tables::{IgmpReportState, MldReportState};
use ip_wire::{EthernetAddress, HardwareAddress, IpAddress, Ipv4Address, Ipv6Address};
use net_base::time::{Duration, Instant};

/// 192.168.1.`last`.
fn host_at(last: u8) -> IpAddress {
    IpAddress::Ipv4(Ipv4Address {
        bits: 0xc0a8_0100 + u32::from(last),
    })
}

/// So many seconds behind the origin.
fn second(seconds: u8) -> Instant {
    at(1_000 * u32::from(seconds))
}

fn ethernet(last: u8) -> HardwareAddress {
    HardwareAddress::Ethernet(EthernetAddress([2, 0, 0, 0, 0, last]))
}

/// Stores 192.168.1.2 for a minute from an instant in milliseconds on.
fn learn_second(cache: &mut Cache, millis: u32) {
    let address = IpAddress::Ipv4(Ipv4Address { bits: 0xc0a8_0102 });
    let hardware = HardwareAddress::Ethernet(EthernetAddress([2, 0, 0, 0, 0, 2]));
    cache.fill(address, hardware, at(millis));
}

/// And 192.168.1.3.
fn learn_third(cache: &mut Cache, millis: u32) {
    let address = IpAddress::Ipv4(Ipv4Address { bits: 0xc0a8_0103 });
    let hardware = HardwareAddress::Ethernet(EthernetAddress([2, 0, 0, 0, 0, 3]));
    cache.fill(address, hardware, at(millis));
}

/// And 192.168.1.4.
fn learn_fourth(cache: &mut Cache, millis: u32) {
    let address = IpAddress::Ipv4(Ipv4Address { bits: 0xc0a8_0104 });
    let hardware = HardwareAddress::Ethernet(EthernetAddress([2, 0, 0, 0, 0, 4]));
    cache.fill(address, hardware, at(millis));
}

/// A cache with room for four that knows so many neighbours, three at most, from an instant in milliseconds on.
fn knows(count: u8, millis: u32) -> Cache {
    let mut cache = Cache::new();
    if count > 0 {
        learn_second(&mut cache, millis);
    }
    if count > 1 {
        learn_third(&mut cache, millis);
    }
    if count > 2 {
        learn_fourth(&mut cache, millis);
    }
    cache
}

fn limit_by(guard: &Guard, millis: u32, frame: &Frame, neighbors: &Cache) -> Option<Limit> {
    let octets = octets_of(frame);
    guard.limit_for(at(millis), octets.as_slice(), &OWN, neighbors)
}

/// The limit of twenty seconds after so many milliseconds, for 192.168.1.`last`.
fn limit(millis: u32, last: u8, unless: Option<HardwareAddress>) -> Option<Limit> {
    Some(Limit {
        address: host_at(last),
        expires_at: at(millis.saturating_add(20_000)),
        unless,
    })
}

// A stranger who asks by ARP is known for twenty seconds, and one who sends a datagram alone isn't learnt.
#[test]
fn strangers_stay_for_twenty_seconds(rt: HostRuntime) {
    let (guard, none) = (Guard::new(), Cache::new());
    let asks = limit_by(&guard, 1_000, &(Kind::Arp(10), &[]), &none);
    let speaks = limit_by(&guard, 1_000, &(Kind::Ipv4(17, 1, 10, 0x27), &[]), &none);
    assert!(rt; asks == limit(1_000, 10, None) && speaks.is_none());
}

// Where strangers stay as long as any other, nobody is limited.
#[test]
fn no_stay_is_no_limit(rt: HostRuntime) {
    let mut guard = Guard::new();
    guard.strangers_stay = 0;
    assert!(rt; limit_by(&guard, 1_000, &(Kind::Arp(10), &[]), &Cache::new()).is_none());
}

// Of somebody who is confirmed an ARP packet changes nothing, if it tells the same hardware address; a packet isn't limited.
#[test]
fn who_is_confirmed_stays(rt: HostRuntime) {
    let (guard, one) = (Guard::new(), known());
    let asks = limit_by(&guard, 39_999, &(Kind::Arp(2), &[]), &one);
    let pings = limit_by(&guard, 39_999, &(Kind::Ipv4(1, 1, 2, 8), &[]), &one);
    let later = limit_by(&guard, 40_000, &(Kind::Arp(2), &[]), &one);
    assert!(rt;
        asks == limit(39_999, 2, Some(ethernet(2)))
            && pings.is_none()
            && later == limit(40_000, 2, None)
    );
}

/// 192.168.1.9 in the place of the first neighbour, for ten more seconds at one second: not confirmed.
fn with_ninth(mut cache: Cache) -> Cache {
    let address = IpAddress::Ipv4(Ipv4Address { bits: 0xc0a8_0109 });
    let hardware = HardwareAddress::Ethernet(EthernetAddress([2, 0, 0, 0, 0, 9]));
    cache.fill_with_expiration(address, hardware, at(11_000));
    cache
}

// A packet confirms a neighbour while fewer than half of four entries are confirmed.
#[test]
fn packets_confirm_below_half(rt: HostRuntime) {
    let guard = Guard::new();
    let ping: Frame = (Kind::Ipv4(1, 1, 9, 8), &[]);
    let one = limit_by(&guard, 1_000, &ping, &with_ninth(knows(1, 1_000)));
    let two = limit_by(&guard, 1_000, &ping, &with_ninth(knows(2, 1_000)));
    assert!(rt; one.is_none() && two == limit(1_000, 9, None));
}

/// A guard whose host asked for 192.168.1.30 at a second.
fn having_asked() -> Guard {
    let mut guard = Guard::new();
    let request = octets_of(&(Kind::RequestFor(30), &[]));
    guard.note_sent(at(1_000), request.as_slice(), false);
    guard
}

// An answer confirms who was asked for, for three seconds, while fewer than half of four entries are confirmed.
#[test]
fn answers_confirm_below_half(rt: HostRuntime) {
    let guard = having_asked();
    let answer: Frame = (Kind::Arp(30), &[]);
    let in_time = limit_by(&guard, 4_000, &answer, &knows(1, 1_000));
    let full = limit_by(&guard, 4_000, &answer, &knows(2, 1_000));
    let late = limit_by(&guard, 4_001, &answer, &knows(1, 1_000));
    assert!(rt;
        in_time.is_none() && full == limit(4_000, 30, None) && late == limit(4_001, 30, None)
    );
}

/// Whether it is the turn of sockets at this many milliseconds, where nobody is known.
fn is_turn(guard: &Guard, millis: u32) -> bool {
    guard.is_turn_of_sockets(at(millis), &Cache::new())
}

/// A solicitation is a request, an ARP reply isn't.
fn asks_after(guard: &mut Guard, frame: &Frame, in_response: bool) -> bool {
    guard.note_sent(at(1_000), octets_of(frame).as_slice(), in_response);
    is_turn(guard, 1_000)
}

// After a request in response to a frame it is the turn of sockets, for three seconds; after one of a socket it isn't.
#[test]
fn sockets_have_their_turn(rt: HostRuntime) {
    let mut guard = Guard::new();
    let request: Frame = (Kind::RequestFor(30), &[]);
    let reply: Frame = (Kind::RequestFor(30), &[Change::Octets(21, &[2])]);
    let none = is_turn(&guard, 1_000);
    let replied = asks_after(&mut guard, &reply, true);
    let responded = asks_after(&mut guard, &request, true);
    let in_time = is_turn(&guard, 4_000) && !is_turn(&guard, 4_001);
    let solicited = asks_after(&mut guard, &(Kind::Icmpv6(135, 1, 33), &[]), false);
    guard.takes_turns = false;
    let off = asks_after(&mut guard, &request, true);
    assert!(rt; !none && !replied && responded && in_time && !solicited && !off);
}

// Who answered takes no turn from other frames: 192.168.1.2 is known until a minute after the origin.
#[test]
fn an_answer_ends_the_turn(rt: HostRuntime) {
    let mut guard = Guard::new();
    guard.note_sent(
        at(59_000),
        octets_of(&(Kind::RequestFor(2), &[])).as_slice(),
        true,
    );
    let (known, late) = (known(), at(60_000));
    let answered = guard.is_turn_of_sockets(at(59_999), &known);
    assert!(rt; !answered && guard.is_turn_of_sockets(late, &known));
}

/// The answer to a general query of IGMP: a report after so many seconds, and the next one as long after it.
fn general(seconds: u8) -> IgmpReportState {
    IgmpReportState::ToGeneralQuery {
        version: IgmpVersion::Version2,
        timeout: second(seconds),
        interval: Duration::from_millis(1_000 * u64::from(seconds)),
        next_index: 0,
    }
}

/// The same behind its first report.
fn general_begun(seconds: u8) -> IgmpReportState {
    match general(seconds) {
        IgmpReportState::ToGeneralQuery {
            version,
            timeout,
            interval,
            ..
        } => IgmpReportState::ToGeneralQuery {
            version,
            timeout,
            interval,
            next_index: 1,
        },
        other => other,
    }
}

/// That about one group, 239.1.1.`last`.
fn about(seconds: u8, last: u8) -> IgmpReportState {
    IgmpReportState::ToSpecificQuery {
        version: IgmpVersion::Version2,
        timeout: second(seconds),
        group: Ipv4Address {
            bits: 0xef01_0100 + u32::from(last),
        },
    }
}

fn due_at(report: IgmpReportState) -> Option<Instant> {
    match report {
        IgmpReportState::Inactive => None,
        IgmpReportState::ToGeneralQuery { timeout, .. }
        | IgmpReportState::ToSpecificQuery { timeout, .. } => Some(timeout),
    }
}

/// When what waits after a frame is due, in seconds, by what waited before and what the host would have.
fn kept_until(before: IgmpReportState, after: IgmpReportState, seconds: u8) -> bool {
    due_at(kept(before, after)) == Some(second(seconds))
}

// A running timer is only made earlier (RFC 2236 3), by a query about the same.
#[test]
fn answers_are_not_put_off(rt: HostRuntime) {
    let later = kept_until(general(5), general(8), 5) && kept_until(about(5, 1), about(8, 1), 5);
    let sooner = kept_until(general(8), general(5), 5) && kept_until(about(8, 1), about(5, 1), 5);
    let other = kept_until(about(5, 1), about(8, 2), 8) && kept_until(about(5, 1), general(8), 8);
    let first = kept_until(IgmpReportState::Inactive, general(8), 8)
        && kept_until(general_begun(5), general(8), 8);
    assert!(rt; later && sooner && other && first);
}

// A query about 224.0.0.1 takes nobody's place, as no host reports that group (RFC 2236 6).
#[test]
fn all_systems_take_no_place(rt: HostRuntime) {
    let idle = IgmpReportState::ToSpecificQuery {
        version: IgmpVersion::Version2,
        timeout: at(1_000),
        group: Ipv4Address { bits: 0xe000_0001 },
    };
    let none = due_at(kept(IgmpReportState::Inactive, idle)).is_none();
    assert!(rt; none && kept_until(general(5), idle, 5));
}

fn mld_due_at(report: MldReportState) -> Option<Instant> {
    match report {
        MldReportState::Inactive => None,
        MldReportState::ToGeneralQuery { timeout }
        | MldReportState::ToSpecificQuery { timeout, .. } => Some(timeout),
    }
}

fn mld_general(seconds: u8) -> MldReportState {
    MldReportState::ToGeneralQuery {
        timeout: second(seconds),
    }
}

fn mld_about(seconds: u8, bits: u128) -> MldReportState {
    MldReportState::ToSpecificQuery {
        group: Ipv6Address { bits },
        timeout: second(seconds),
    }
}

fn mld_kept_until(before: MldReportState, after: MldReportState, seconds: u8) -> bool {
    mld_due_at(kept_mld(before, after)) == Some(second(seconds))
}

/// ff0e::9 and ff02::1.
const GROUP: u128 = 0xff0e_0000_0000_0000_0000_0000_0000_0009;

const ALL_NODES: u128 = 0xff02_0000_0000_0000_0000_0000_0000_0001;

// Over IPv6 a report has all groups, so one that is due no later answers each query (RFC 3810 6.2).
#[test]
fn reports_of_mld_stay(rt: HostRuntime) {
    let later = mld_kept_until(mld_general(5), mld_general(8), 5)
        && mld_kept_until(mld_general(5), mld_about(8, GROUP), 5);
    let sooner = mld_kept_until(mld_general(8), mld_about(5, GROUP), 5);
    let other = mld_kept_until(mld_about(5, GROUP), mld_general(8), 8);
    let idle = mld_kept_until(mld_general(5), mld_about(1, ALL_NODES), 5);
    assert!(rt; later && sooner && other && idle);
}
