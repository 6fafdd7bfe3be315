//! Addresses and routes in line with what was learnt from routers.
use arrayvec::ArrayVec;
use control_wire::{NdiscPrefixInfoFlags, NdiscPrefixInformation};
use iface_tables::Slaac;
use iface_tables::route::{Route as Stored, Routes};
use iface_tables::sync::{MAX_ADDR_COUNT, sync_addrs, sync_routes};
use ip_address::{
    EthernetAddress, HardwareAddress, IpCidr, Ipv4Address, Ipv4Cidr, Ipv6Address, Ipv6Cidr,
};
use net_base::time::{Duration, Instant};

const HARDWARE: HardwareAddress = HardwareAddress::Ethernet(EthernetAddress([2, 0, 0, 0, 0, 1]));

/// fe80::2.
const ROUTER: Ipv6Address = Ipv6Address {
    bits: 0xfe80_0000_0000_0000_0000_0000_0000_0002,
};

const END: Instant = Instant {
    micros: 600_000_000,
};

/// 192.168.69.N/24.
fn v4(n: u8) -> IpCidr {
    IpCidr::Ipv4(Ipv4Cidr {
        address: Ipv4Address::new(192, 168, 69, n),
        prefix_len: 24,
    })
}

/// The default route of IPv4 by 192.168.69.2.
fn gateway() -> Stored {
    Stored::new_ipv4_gateway(Ipv4Address::new(192, 168, 69, 2))
}

/// A router and 2001:db8::/64 for 600 s.
fn advised() -> Slaac {
    let mut slaac = Slaac::new();
    let prefix = NdiscPrefixInformation {
        prefix_len: 64,
        flags: NdiscPrefixInfoFlags::ADDRCONF,
        valid_lifetime: 600,
        preferred_lifetime: 600,
        prefix: NETWORK,
    };
    let lifetime = Duration::from_secs(600);
    slaac.process_advertisement(&ROUTER, lifetime, Some(prefix), Instant::ZERO);
    slaac
}

/// A prefix and its length, a hardware address, and the address that is made of them.
type Made = (Ipv6Cidr, HardwareAddress, Option<Ipv6Cidr>);

const OTHER_HARDWARE: HardwareAddress = HardwareAddress::Ethernet(EthernetAddress([
    0x34, 0x56, 0x78, 0x9a, 0xbc, 0xde,
]));

const NETWORK: Ipv6Address = Ipv6Address {
    bits: 0x2001_0db8_0000_0000_0000_0000_0000_0000,
};

const WHOLE: Ipv6Cidr = Ipv6Cidr {
    address: NETWORK,
    prefix_len: 64,
};

const MADE: Ipv6Cidr = Ipv6Cidr {
    address: Ipv6Address {
        bits: 0x2001_0db8_0000_0000_0000_00ff_fe00_0001,
    },
    prefix_len: 64,
};

const MADE_OF: [Made; 6] = [
    (WHOLE, HARDWARE, Some(MADE)),
    (
        Ipv6Cidr {
            address: Ipv6Address {
                bits: 0x2001_0db8_0000_0000_0000_0000_0000_0009,
            },
            prefix_len: 64,
        },
        HARDWARE,
        Some(MADE),
    ),
    (
        Ipv6Cidr {
            address: NETWORK,
            prefix_len: 63,
        },
        HARDWARE,
        None,
    ),
    (
        Ipv6Cidr {
            address: NETWORK,
            prefix_len: 65,
        },
        HARDWARE,
        None,
    ),
    (WHOLE, HardwareAddress::Ip, None),
    (
        WHOLE,
        OTHER_HARDWARE,
        Some(Ipv6Cidr {
            address: Ipv6Address {
                bits: 0x2001_0db8_0000_0000_3656_78ff_fe9a_bcde,
            },
            prefix_len: 64,
        }),
    ),
];

fn are_made() -> bool {
    for (prefix, hardware, address) in &MADE_OF {
        if Ipv6Cidr::from_link_prefix(prefix, *hardware) != *address {
            return false;
        }
    }
    true
}

#[test]
fn an_address_is_made_of_64_bits(rt: HostRuntime) {
    assert!(rt; are_made());
}

/// These addresses in line with the prefixes, where there is room for so many.
fn synced_addrs(
    room: usize,
    own: &[IpCidr],
    slaac: &Slaac,
    now: Instant,
) -> ArrayVec<IpCidr, MAX_ADDR_COUNT> {
    let mut list = ArrayVec::new();
    if own.len() <= room && room <= MAX_ADDR_COUNT {
        let _ = list.try_extend_from_slice(own);
        sync_addrs(&mut list, room, &HARDWARE, slaac.prefix(), now);
    }
    list
}

/// Whether addresses come to be these, and stay so.
fn stay_as(own: &[IpCidr], addresses: &[IpCidr], slaac: &Slaac) -> bool {
    let one = synced_addrs(4, own, slaac, Instant::ZERO);
    let again = synced_addrs(4, one.as_slice(), slaac, Instant::ZERO);
    one.as_slice() == addresses && again.as_slice() == addresses
}

/// The address with another length, which is another address.
const MADE_ALONE: IpCidr = IpCidr::Ipv6(Ipv6Cidr {
    address: Ipv6Address {
        bits: 0x2001_0db8_0000_0000_0000_00ff_fe00_0001,
    },
    prefix_len: 128,
});

fn is_added_once(slaac: &Slaac) -> bool {
    let both = [MADE_ALONE, IpCidr::Ipv6(MADE)];
    // When it ends the one with its length goes.
    let left = synced_addrs(4, &both, slaac, END);
    stay_as(&[v4(1)], &[v4(1), IpCidr::Ipv6(MADE)], slaac)
        && stay_as(&[MADE_ALONE], &both, slaac)
        && left.as_slice() == [MADE_ALONE].as_slice()
}

#[test]
fn an_address_is_added_once(rt: HostRuntime) {
    assert!(rt; is_added_once(&advised()));
}

fn is_kept_out(own: &[IpCidr; 4], slaac: &Slaac) -> bool {
    let list = synced_addrs(4, own, slaac, Instant::ZERO);
    let with_room = synced_addrs(5, own, slaac, Instant::ZERO);
    list.as_slice() == own.as_slice()
        && with_room.len() == 5
        && with_room.as_slice().get(4) == Some(&IpCidr::Ipv6(MADE))
}

#[test]
fn a_full_list_keeps_it_out(rt: HostRuntime) {
    assert!(rt; is_kept_out(&[v4(1), v4(2), v4(3), v4(4)], &advised()));
}

/// Whether routes are these once they are in line with the routers.
fn are_synced(routes: &mut Routes, slaac: &Slaac, now: Instant, wanted: &[Stored]) -> bool {
    sync_routes(routes, slaac.routes(), now);
    routes.as_slice() == wanted
}

fn have_no_end(routes: &mut Routes, slaac: &Slaac) -> bool {
    let both = [gateway(), Stored::new_ipv6_gateway(ROUTER)];
    let _ = routes.push(gateway());
    are_synced(routes, slaac, Instant::ZERO, &both)
        && are_synced(routes, slaac, Instant::ZERO, &both)
        && are_synced(routes, slaac, END, &[gateway()])
}

#[test]
fn routes_have_no_end_of_their_own(rt: HostRuntime) {
    assert!(rt; have_no_end(&mut Routes::new(), &advised()));
}

fn is_full(routes: &mut Routes, slaac: &Slaac) -> bool {
    let gateway = |n| Stored::new_ipv4_gateway(Ipv4Address::new(10, 0, 0, n));
    let stored = [gateway(1), gateway(2), gateway(3), gateway(4)];
    routes.set(&stored).is_ok() && are_synced(routes, slaac, Instant::ZERO, &stored)
}

#[test]
fn a_full_table_keeps_a_route_out(rt: HostRuntime) {
    assert!(rt; is_full(&mut Routes::new(), &advised()));
}

#[test]
fn routes_that_end_go_wherever_they_stand(rt: HostRuntime) {
    let slaac = advised();
    let by_router = Stored::new_ipv6_gateway(ROUTER);
    let other = Stored::new_ipv4_gateway(Ipv4Address::new(10, 0, 0, 1));
    let mut routes = Routes::new();
    let is_set = routes
        .set(&[by_router, gateway(), by_router, other])
        .is_ok();
    sync_routes(&mut routes, slaac.routes(), END);
    assert!(rt; is_set && routes.as_slice() == [gateway(), other].as_slice());
}
