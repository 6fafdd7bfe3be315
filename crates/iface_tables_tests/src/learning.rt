//! What is learnt from routers, and when they are asked.
ghost use Rattle.net_base.specs.Time.{IsMoment};

use control_wire::{NdiscPrefixInfoFlags, NdiscPrefixInformation};
use iface_tables::{Phase, Slaac};
use ip_address::Ipv6Address;
use net_base::time::{Duration, Instant};

/// fe80::1 and fe80::2.
const ROUTER: Ipv6Address = Ipv6Address {
    bits: 0xfe80_0000_0000_0000_0000_0000_0000_0001,
};

const OTHER: Ipv6Address = Ipv6Address {
    bits: 0xfe80_0000_0000_0000_0000_0000_0000_0002,
};

/// A prefix of which addresses may be made, 2001:db8:N::/64.
fn prefix(n: u8, valid_lifetime: u32, preferred_lifetime: u32) -> Option<NdiscPrefixInformation> {
    Some(NdiscPrefixInformation {
        prefix_len: 64,
        flags: NdiscPrefixInfoFlags::ADDRCONF,
        valid_lifetime,
        preferred_lifetime,
        prefix: Ipv6Address {
            bits: 0x2001_0db8_0000_0000_0000_0000_0000_0000 + u128::from(n) * (1 << 80),
        },
    })
}

const SECOND: Duration = Duration { micros: 1_000_000 };

const START: Instant = Instant { micros: 1_000 };

const LATER: Instant = Instant {
    micros: 300_000_000,
};

const TEN_MINUTES: Duration = Duration {
    micros: 600_000_000,
};

/// Learnt at 300 s, for which it was asked: a router for 600 s and a prefix for 700 s.
fn advised() -> Slaac {
    let mut slaac = Slaac::new();
    slaac.process_advertisement(&ROUTER, TEN_MINUTES, prefix(0, 700, 300), START);
    slaac.rs_sent(LATER);
    slaac.process_advertisement(&ROUTER, TEN_MINUTES, prefix(0, 700, 300), LATER);
    slaac
}

fn is_required_at_once(slaac: &mut Slaac) -> bool {
    let was_required = slaac.rs_required(START);
    slaac.rs_sent(START);
    was_required
        && slaac.num_solicitations() == 2
        && !slaac.rs_required(START)
        && slaac.poll_at(START) == Some(Instant::from_millis(4001))
        && !slaac.rs_required(Instant::from_millis(4000))
        && slaac.rs_required(Instant::from_millis(4001))
}

#[test]
fn a_solicitation_is_required_at_once(rt: HostRuntime) {
    assert!(rt; is_required_at_once(&mut Slaac::new()));
}

/// Whether one is required at this moment. It is sent.
fn is_sent(slaac: &mut Slaac, now: Instant) -> bool
    requires { IsMoment now }
{
    let was_required = slaac.rs_required(now);
    slaac.rs_sent(now);
    was_required
}

fn are_all_sent(slaac: &mut Slaac) -> bool {
    let then = Instant::from_secs(12);
    let were_all = is_sent(slaac, Instant::ZERO)
        && is_sent(slaac, Instant::from_secs(4))
        && is_sent(slaac, Instant::from_secs(8))
        && slaac.num_solicitations() == 0
        && slaac.phase() == Phase::Discovering
        && !slaac.rs_required(then)
        && slaac.poll_at(then) == None;
    slaac.rs_sent(then);
    were_all && slaac.phase() == Phase::None
}

#[test]
fn three_solicitations_are_all(rt: HostRuntime) {
    assert!(rt; are_all_sent(&mut Slaac::new()));
}

/// The router advertises itself and 2001:db8::/64 for so many seconds, for ten minutes.
fn advertise(slaac: &mut Slaac, seconds: (u32, u32), now: Instant)
    requires { IsMoment now }
{
    slaac.process_advertisement(&ROUTER, TEN_MINUTES, prefix(0, seconds.0, seconds.1), now);
}

fn ends_the_search(slaac: &mut Slaac) -> bool {
    advertise(slaac, (700, 300), START);
    let first = slaac.phase();
    slaac.rs_sent(LATER);
    let second = slaac.phase();
    advertise(slaac, (700, 300), LATER);
    first == Phase::Start
        && second == Phase::Discovering
        && slaac.phase() == Phase::Maintaining
        && slaac.poll_at(LATER) == Some(Instant::from_secs(900))
}

#[test]
fn an_advertisement_ends_the_search(rt: HostRuntime) {
    assert!(rt; ends_the_search(&mut Slaac::new()));
}

fn forgets_the_prefix(slaac: &mut Slaac) -> bool {
    advertise(slaac, (0, 0), LATER);
    let is_news = slaac.has_ra_update();
    slaac.update_slaac_state(LATER);
    is_news && slaac.prefix().len() == 0 && slaac.routes().len() == 1 && !slaac.has_ra_update()
}

#[test]
fn a_withdrawn_prefix_is_forgotten(rt: HostRuntime) {
    assert!(rt; forgets_the_prefix(&mut advised()));
}

/// When the router's time ends, and when the prefix's does.
const ROUTER_END: Instant = Instant {
    micros: 900_000_000,
};

const PREFIX_END: Instant = Instant {
    micros: 1_000_000_000,
};

fn is_required_at_its_end(slaac: &mut Slaac) -> bool {
    let was_required = slaac.sync_required(LATER);
    slaac.update_slaac_state(LATER);
    was_required
        && !slaac.sync_required(Instant::from_micros(899_999_999))
        && slaac.sync_required(ROUTER_END)
        && !slaac.has_ra_update()
}

fn has_ended(slaac: &mut Slaac) -> bool {
    slaac.update_slaac_state(ROUTER_END);
    slaac.routes().len() == 0
        && slaac.prefix().len() == 1
        && slaac.poll_at(ROUTER_END) == Some(PREFIX_END)
        && slaac.poll_at(PREFIX_END) == None
}

#[test]
fn what_has_ended_requires_a_sync(rt: HostRuntime) {
    let mut slaac = advised();
    assert!(rt; is_required_at_its_end(&mut slaac) && has_ended(&mut slaac));
}

fn is_renewed(slaac: &mut Slaac) -> bool {
    slaac.update_slaac_state(LATER);
    let again = LATER + SECOND;
    advertise(slaac, (50, 50), again);
    !slaac.has_ra_update() && slaac.poll_at(again) == Some(Instant::from_secs(351))
}

#[test]
fn a_renewal_is_no_change(rt: HostRuntime) {
    assert!(rt; is_renewed(&mut advised()));
}

/// Whether a router that isn't known is news.
fn is_news(slaac: &mut Slaac, n: u8) -> bool {
    slaac.update_slaac_state(START);
    slaac.process_advertisement(&router(n), TEN_MINUTES, None, START);
    slaac.has_ra_update()
}

fn keeps_two_and_four(slaac: &mut Slaac) -> bool {
    for n in 0..3 {
        slaac.process_advertisement(&ROUTER, TEN_MINUTES, prefix(n, 700, 300), START);
    }
    slaac.prefix().len() == 2
        && is_news(slaac, 2)
        && is_news(slaac, 3)
        && is_news(slaac, 4)
        && is_news(slaac, 5)
        && slaac.routes().len() == 4
}

#[test]
fn two_prefixes_and_four_routers_are_kept(rt: HostRuntime) {
    assert!(rt; keeps_two_and_four(&mut Slaac::new()));
}

/// Whether it is news that a router gives up.
fn is_given_up(slaac: &mut Slaac, router: &Ipv6Address) -> bool {
    slaac.process_advertisement(router, Duration::ZERO, None, LATER);
    slaac.has_ra_update()
}

fn gives_up(slaac: &mut Slaac) -> bool {
    slaac.update_slaac_state(LATER);
    let is_news = !is_given_up(slaac, &OTHER) && is_given_up(slaac, &ROUTER);
    slaac.update_slaac_state(LATER);
    is_news && slaac.routes().len() == 0
}

#[test]
fn a_router_gives_up(rt: HostRuntime) {
    assert!(rt; gives_up(&mut advised()));
}

/// A router of its own for each number below 256.
fn router(n: u8) -> Ipv6Address {
    Ipv6Address {
        bits: OTHER.bits + u128::from(n),
    }
}

/// What is known after advertisements of as many prefixes and routers, where there is room for so many.
fn known_of(count: u8, prefixes: usize, routers: usize) -> (usize, usize) {
    let mut slaac = Slaac::new();
    slaac.set_room(prefixes, routers);
    for n in 0..count {
        slaac.process_advertisement(&router(n), TEN_MINUTES, prefix(n, 600, 600), Instant::ZERO);
    }
    (slaac.prefix().len(), slaac.routes().len())
}

/// Room for prefixes and routers, and how many are known of ten.
const ROOMS: [(usize, usize, (usize, usize)); 4] = [
    (2, 4, (2, 4)),
    (0, 1, (0, 1)),
    (8, 8, (8, 8)),
    (9, 100, (8, 8)),
];

fn are_kept() -> bool {
    for (prefixes, routers, known) in &ROOMS {
        if known_of(10, *prefixes, *routers) != *known {
            return false;
        }
    }
    true
}

#[test]
fn as_many_are_kept_as_there_is_room_for(rt: HostRuntime) {
    assert!(rt; are_kept());
}

/// Whether what is known stays where there is no room any more.
fn stays(slaac: &mut Slaac) -> bool {
    slaac.process_advertisement(&router(0), TEN_MINUTES, prefix(0, 600, 600), Instant::ZERO);
    slaac.set_room(0, 0);
    slaac.process_advertisement(&router(1), TEN_MINUTES, prefix(1, 600, 600), Instant::ZERO);
    slaac.prefix().len() == 1 && slaac.routes().len() == 1
}

/// Whether it is withdrawn, as ever.
fn is_withdrawn(slaac: &mut Slaac) -> bool {
    slaac.process_advertisement(&router(0), Duration::ZERO, prefix(0, 0, 0), Instant::ZERO);
    slaac.update_slaac_state(Instant::ZERO);
    slaac.prefix().is_empty() && slaac.routes().is_empty()
}

#[test]
fn what_is_known_stays_with_less_room(rt: HostRuntime) {
    let mut slaac = Slaac::new();
    assert!(rt; stays(&mut slaac) && is_withdrawn(&mut slaac));
}

const GOOD: NdiscPrefixInformation = NdiscPrefixInformation {
    prefix_len: 64,
    flags: NdiscPrefixInfoFlags::ADDRCONF,
    valid_lifetime: 700,
    preferred_lifetime: 300,
    prefix: Ipv6Address {
        bits: 0x2001_0db8_0000_0000_0000_0000_0000_0000,
    },
};

/// A link-local one, one that is too long, one of which no addresses are made, and one that is preferred for longer than it
/// is valid.
const BAD: [NdiscPrefixInformation; 4] = [
    NdiscPrefixInformation {
        prefix: ROUTER,
        ..GOOD
    },
    NdiscPrefixInformation {
        prefix_len: 129,
        ..GOOD
    },
    NdiscPrefixInformation {
        flags: NdiscPrefixInfoFlags::ON_LINK,
        ..GOOD
    },
    NdiscPrefixInformation {
        preferred_lifetime: 701,
        ..GOOD
    },
];

const LONGEST: NdiscPrefixInformation = NdiscPrefixInformation {
    prefix_len: 128,
    preferred_lifetime: 700,
    ..GOOD
};

/// How many prefixes are known once this one was advertised.
fn known_with(slaac: &mut Slaac, prefix: &NdiscPrefixInformation) -> usize {
    slaac.process_advertisement(&ROUTER, Duration::ZERO, Some(*prefix), START);
    slaac.prefix().len()
}

fn good_ones_count(slaac: &mut Slaac) -> bool {
    for bad in &BAD {
        if known_with(slaac, bad) != 0 || slaac.has_ra_update() {
            return false;
        }
    }
    known_with(slaac, &LONGEST) == 1
}

#[test]
fn not_each_prefix_counts(rt: HostRuntime) {
    assert!(rt; good_ones_count(&mut Slaac::new()));
}
