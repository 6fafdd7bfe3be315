use crate::cases::assert_each;
use ip_address::{
    EthernetAddress, HardwareAddress, IpAddress, IpCidr, IpProtocol, IpVersion, Ipv4Address,
    Ipv4Cidr, Ipv6Address, Ipv6Cidr,
};
use net_base::phy::Medium;
use std::alloc::Global;
use std::fmt::Display;

/// The first octet of an address, the other three, and whether it is multicast, and unicast.
type Class = (u8, u8, bool, bool);

const CLASSES: [Class; 8] = [
    (0, 0, false, false),
    (0, 1, false, true),
    (223, 255, false, true),
    (224, 0, true, false),
    (239, 255, true, false),
    (240, 0, false, true),
    (255, 254, false, true),
    (255, 255, false, false),
];

fn is_of_class(case: &Class) -> bool {
    let (first, others, multicast, unicast) = case;
    let address = IpAddress::Ipv4(Ipv4Address::new(*first, *others, *others, *others));
    address.is_multicast() == *multicast && address.is_unicast() == *unicast
}

fn are_broadcast_and_unspecified() -> bool {
    IpAddress::Ipv4(Ipv4Address::new(255, 255, 255, 255)).is_broadcast()
        && !IpAddress::Ipv4(Ipv4Address::new(192, 168, 69, 255)).is_broadcast()
        && IpAddress::default().is_unspecified()
}

#[test]
fn classes_of_addresses(rt: HostRuntime) {
    assert_each(&rt, &CLASSES, is_of_class);
    assert!(rt; are_broadcast_and_unspecified());
}

/// A hardware address, and whether it is broadcast, and multicast.
type HardwareClass = (EthernetAddress, bool, bool);

const HARDWARE_CLASSES: [HardwareClass; 4] = [
    (
        EthernetAddress([0xff, 0xff, 0xff, 0xff, 0xff, 0xff]),
        true,
        true,
    ),
    (
        EthernetAddress([0x01, 0x00, 0x5e, 0x00, 0x00, 0x01]),
        false,
        true,
    ),
    (
        EthernetAddress([0x02, 0x00, 0x00, 0x00, 0x00, 0x01]),
        false,
        false,
    ),
    (
        EthernetAddress([0x00, 0xff, 0xff, 0xff, 0xff, 0xff]),
        false,
        false,
    ),
];

fn is_of_hardware_class(case: &HardwareClass) -> bool {
    let (address, broadcast, multicast) = case;
    address.is_broadcast() == *broadcast
        && address.is_multicast() == *multicast
        && HardwareAddress::Ethernet(*address).is_unicast() != *multicast
}

const OWN: EthernetAddress = EthernetAddress([0x02, 0, 0, 0, 0, 0x01]);

fn are_of_ethernet() -> bool {
    HardwareAddress::Ethernet(OWN).medium() == Medium::Ethernet
        && HardwareAddress::from(OWN) == HardwareAddress::Ethernet(OWN)
        && HardwareAddress::default().is_unicast()
}

#[test]
fn classes_of_hardware_addresses(rt: HostRuntime) {
    assert_each(&rt, &HARDWARE_CLASSES, is_of_hardware_class);
    assert!(rt; are_of_ethernet());
}

/// An address, whether it is link-local, and multicast, and its scope.
type Ipv6Class = (u128, bool, bool, u8);

const IPV6_CLASSES: [Ipv6Class; 9] = [
    (0x0000_0000_0000_0000_0000_0000_0000_0001, false, false, 2),
    (0x2001_0db8_0000_0000_0000_0000_0000_0001, false, false, 14),
    (0xfe7f_ffff_ffff_ffff_ffff_ffff_ffff_ffff, false, false, 14),
    (0xfe80_0000_0000_0000_0000_0000_0000_0001, true, false, 2),
    (0xfebf_0000_0000_0000_0000_0000_0000_0000, true, false, 2),
    (0xfec0_0000_0000_0000_0000_0000_0000_0000, false, false, 14),
    (0xff00_0000_0000_0000_0000_0000_0000_0000, false, true, 0),
    (0xff02_0000_0000_0000_0000_0000_0000_0001, false, true, 2),
    (0xff0e_0000_0000_0000_0000_0000_0000_0001, false, true, 14),
];

fn is_of_ipv6_class(case: &Ipv6Class) -> bool {
    let (bits, link_local, multicast, scope) = case;
    let address = Ipv6Address { bits: *bits };
    address.is_link_local() == *link_local
        && IpAddress::Ipv6(address).is_multicast() == *multicast
        && IpAddress::Ipv6(address).is_unicast() != *multicast
        && address.scope() == *scope
}

#[test]
fn classes_of_ipv6_addresses(rt: HostRuntime) {
    assert_each(&rt, &IPV6_CLASSES, is_of_ipv6_class);
    let is_right = Ipv6Address::LOCALHOST.is_loopback()
        && !IpAddress::Ipv6(Ipv6Address::default()).is_unicast();
    assert!(rt; is_right);
}

/// Whether a value prints as this text.
fn prints<T: Display>(alloc: Global, value: &T, text: &str) -> bool {
    match format!(in alloc; "{value}") {
        Ok(printed) => printed.as_str() == text,
        Err(_) => false,
    }
}

/// 192.168.69.1 and fe80::1.
const OWN_IPV4: Ipv4Address = Ipv4Address { bits: 0xc0a8_4501 };

const ROUTER: Ipv6Address = Ipv6Address {
    bits: 0xfe80_0000_0000_0000_0000_0000_0000_0001,
};

fn are_addresses_printed(alloc: Global) -> bool {
    prints(alloc, &OWN_IPV4, "192.168.69.1")
        && prints(alloc, &IpAddress::from(OWN_IPV4), "192.168.69.1")
        && prints(alloc, &IpAddress::from(ROUTER), "fe80::1")
}

fn are_networks_printed(alloc: Global) -> bool {
    let (first, second) = (Ipv4Cidr::new(OWN_IPV4, 24), Ipv6Cidr::new(ROUTER, 64));
    prints(alloc, &IpCidr::from(first), "192.168.69.1/24")
        && prints(alloc, &IpCidr::from(second), "fe80::1/64")
}

const HARDWARE: EthernetAddress = EthernetAddress([0x02, 0x1a, 0x00, 0xc5, 0x7e, 0x01]);

fn are_hardware_addresses_printed(alloc: Global) -> bool {
    prints(alloc, &HARDWARE, "02-1a-00-c5-7e-01")
        && prints(
            alloc,
            &HardwareAddress::Ethernet(HARDWARE),
            "02-1a-00-c5-7e-01",
        )
        && prints(alloc, &HardwareAddress::Ip, "no hardware addr")
}

/// A protocol's number, and what it prints as.
const PROTOCOLS: [(u8, &str); 4] = [(0, "Hop-by-Hop"), (17, "UDP"), (58, "ICMPv6"), (9, "0x09")];

fn are_protocols_printed(alloc: Global) -> bool {
    for (number, text) in &PROTOCOLS {
        if !prints(alloc, &IpProtocol::from_number(*number), text) {
            return false;
        }
    }
    prints(alloc, &IpVersion::Ipv6, "IPv6")
}

fn are_all_printed(alloc: Global) -> bool {
    are_addresses_printed(alloc)
        && are_networks_printed(alloc)
        && are_hardware_addresses_printed(alloc)
        && are_protocols_printed(alloc)
}

#[test]
fn printed_addresses_and_protocols(rt: HostRuntime) {
    assert!(rt; are_all_printed(rt.alloc()));
}

/// The examples of RFC 4291 2.2 and RFC 5952 4 and 5.
const PRINTED: [(u128, &str); 11] = [
    (0, "::"),
    (1, "::1"),
    (
        0x2001_0db8_0000_0000_0008_0800_200c_417a,
        "2001:db8::8:800:200c:417a",
    ),
    (0xff01_0000_0000_0000_0000_0000_0000_0101, "ff01::101"),
    (
        0x2001_0db8_aaaa_bbbb_cccc_dddd_eeee_0001,
        "2001:db8:aaaa:bbbb:cccc:dddd:eeee:1",
    ),
    (0x2001_0db8_0000_0000_0000_0000_0002_0001, "2001:db8::2:1"),
    (
        0x2001_0db8_0000_0001_0001_0001_0001_0001,
        "2001:db8:0:1:1:1:1:1",
    ),
    (0x2001_0000_0000_0001_0000_0000_0000_0001, "2001:0:0:1::1"),
    (
        0x2001_0db8_0000_0000_0001_0000_0000_0001,
        "2001:db8::1:0:0:1",
    ),
    (0x2001_0db8_0001_0000_0000_0000_0000_0000, "2001:db8:1::"),
    (0xffff_c000_0201, "::ffff:192.0.2.1"),
];

/// The first text that an address doesn't print as.
fn first_other(alloc: Global) -> Option<&'static str> {
    for (bits, text) in &PRINTED {
        if !prints(alloc, &Ipv6Address { bits: *bits }, text) {
            return Some(text);
        }
    }
    None
}

fn has_octets() -> bool {
    let address = Ipv6Address::new(0x2001, 0xdb8, 1, 2, 3, 4, 5, 6);
    let octets = [0x20, 0x01, 0x0d, 0xb8, 0, 1, 0, 2, 0, 3, 0, 4, 0, 5, 0, 6];
    address.bits == 0x2001_0db8_0001_0002_0003_0004_0005_0006 && address.octets() == octets
}

#[test]
fn printed_ipv6_addresses(rt: HostRuntime) {
    assert!(rt; first_other(rt.alloc()).is_none() && has_octets());
}
