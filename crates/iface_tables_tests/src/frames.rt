//! Frames on Ethernet, by their octets, for a host with 192.168.1.1 and fe80::1.
ghost use Rattle.net_base.specs.Time.{IsMoment};

use arrayvec::ArrayVec;
use iface_tables::neighbor::Cache;
use ip_wire::{
    EthernetAddress, HardwareAddress, IpAddress, IpCidr, Ipv4Address, Ipv4Cidr, Ipv6Address,
    Ipv6Cidr,
};
use net_base::time::Instant;

/// The hardware address of the host.
pub const HARDWARE: [u8; 6] = [2, 0, 0, 0, 0, 1];

/// The addresses of the host.
pub const OWN: [IpCidr; 2] = [
    IpCidr::Ipv4(Ipv4Cidr {
        address: Ipv4Address { bits: 0xc0a8_0101 },
        prefix_len: 24,
    }),
    IpCidr::Ipv6(Ipv6Cidr {
        address: Ipv6Address {
            bits: 0xfe80_0000_0000_0000_0000_0000_0000_0001,
        },
        prefix_len: 64,
    }),
];

/// The hardware address of the host, as its interface tells it.
pub fn hardware() -> Option<HardwareAddress> {
    Some(HardwareAddress::Ethernet(EthernetAddress(HARDWARE)))
}

/// A frame for the host, by what is particular in it.
#[derive(Clone, Copy)]
pub enum Kind {
    /// [`arp_of`].
    Arp(u8),
    /// [`request_for`].
    RequestFor(u8),
    /// [`ipv4_of`].
    Ipv4(u8, u8, u8, u8),
    /// [`ports`].
    Ports(u16, u16),
    /// [`icmpv6_of`].
    Icmpv6(u8, u8, u8),
    /// [`icmpv6_behind_options`].
    BehindOptions(u8, u8, u8),
}

/// What is otherwise in a frame.
#[derive(Clone, Copy)]
pub enum Change {
    /// These octets stand at this place.
    Octets(usize, &'static [u8]),
    /// It has so many octets in all: those behind are cut off, or are 0.
    Len(usize),
}

/// A frame, and what is otherwise in it.
pub type Frame = (Kind, &'static [Change]);

/// The octets of a frame, of which there are 94 at most.
pub type Octets = ArrayVec<u8, 94>;

/// The octets of a frame.
pub fn octets_of(frame: &Frame) -> Octets {
    let (kind, changes) = frame;
    let mut octets = Octets::new();
    let _ = match *kind {
        Kind::Arp(last) => octets.try_extend_from_slice(&arp_of(last)),
        Kind::RequestFor(last) => octets.try_extend_from_slice(&request_for(last)),
        Kind::Ipv4(protocol, third, last, first) => {
            octets.try_extend_from_slice(&ipv4_of(protocol, third, last, first))
        }
        Kind::Ports(from, to) => octets.try_extend_from_slice(&ports(from, to)),
        Kind::Icmpv6(message, last, about) => {
            octets.try_extend_from_slice(&icmpv6_of(message, last, about))
        }
        Kind::BehindOptions(message, last, about) => {
            octets.try_extend_from_slice(&icmpv6_behind_options(message, last, about))
        }
    };
    for change in *changes {
        apply(&mut octets, change);
    }
    octets
}

fn apply(octets: &mut Octets, change: &Change) {
    match *change {
        Change::Octets(place, new) => put(octets.as_mut_slice(), place, new),
        Change::Len(len) => {
            octets.truncate(len);
            for _ in octets.len()..len {
                let _ = octets.try_push(0);
            }
        }
    }
}

/// Puts octets at a place, as far as there is room.
fn put(octets: &mut [u8], place: usize, new: &[u8]) {
    for (offset, octet) in new.iter().enumerate() {
        if let Some(there) = octets.get_mut(place.saturating_add(offset)) {
            *there = *octet;
        }
    }
}

/// The moment this many milliseconds behind the origin.
pub fn at(millis: u32) -> Instant
    ensures { IsMoment result }
{
    Instant::from_micros(i64::from(millis) * 1_000)
}

/// A cache that knows 192.168.1.2 for a minute from the origin on.
pub fn known() -> Cache {
    let mut cache = Cache::new();
    let hardware_addr = HardwareAddress::Ethernet(EthernetAddress([2, 0, 0, 0, 0, 2]));
    let address = IpAddress::Ipv4(Ipv4Address { bits: 0xc0a8_0102 });
    cache.fill(address, hardware_addr, Instant::ZERO);
    cache
}

/// An ARP request of 192.168.1.`last` for 192.168.1.1 (RFC 826).
pub fn arp_of(last: u8) -> [u8; 42] {
    let mut frame = [
        0xff, 0xff, 0xff, 0xff, 0xff, 0xff, 2, 0, 0, 0, 0, 9, 0x08, 0x06, 0, 1, 0x08, 0, 6, 4, 0,
        1, 2, 0, 0, 0, 0, 9, 192, 168, 1, 0, 0, 0, 0, 0, 0, 0, 192, 168, 1, 1,
    ];
    frame[31] = last;
    frame
}

/// An ARP request of 192.168.1.1 for 192.168.1.`last`.
pub fn request_for(last: u8) -> [u8; 42] {
    let mut frame = arp_of(1);
    frame[41] = last;
    frame
}

/// A packet of IPv4 with this protocol, from 192.168.`third`.`last` to 192.168.1.1, whose payload begins with this octet
/// (RFC 791 3.1).
pub fn ipv4_of(protocol: u8, third: u8, last: u8, first: u8) -> [u8; 54] {
    let mut frame = [0; 54];
    frame[12] = 0x08;
    frame[14] = 0x45;
    frame[17] = 40;
    frame[23] = protocol;
    frame[26] = 192;
    frame[27] = 168;
    frame[28] = third;
    frame[29] = last;
    frame[30] = 192;
    frame[31] = 168;
    frame[32] = 1;
    frame[33] = 1;
    frame[34] = first;
    frame
}

/// A datagram of UDP from 192.168.9.9 to 192.168.1.1 with these ports (RFC 768).
pub fn ports(from: u16, to: u16) -> [u8; 54] {
    let mut frame = ipv4_of(17, 9, 9, 0);
    [frame[34], frame[35]] = from.to_be_bytes();
    [frame[36], frame[37]] = to.to_be_bytes();
    frame
}

/// A message of ICMPv6 of this type from fe80::`last`, about fe80::`about` where it has a target (RFC 8200 3, RFC 4861 4).
pub fn icmpv6_of(message: u8, last: u8, about: u8) -> [u8; 86] {
    let mut frame = [0; 86];
    frame[12] = 0x86;
    frame[13] = 0xdd;
    frame[14] = 0x60;
    frame[19] = 32;
    frame[20] = 58;
    frame[21] = 255;
    frame[22] = 0xfe;
    frame[23] = 0x80;
    frame[37] = last;
    frame[54] = message;
    frame[62] = 0xfe;
    frame[63] = 0x80;
    frame[77] = about;
    frame
}

/// The same behind a header of hop-by-hop options of 8 octets (RFC 8200 4.3).
pub fn icmpv6_behind_options(message: u8, last: u8, about: u8) -> [u8; 94] {
    let plain = icmpv6_of(message, last, about);
    let mut frame = [0; 94];
    for i in 0..54 {
        frame[i] = plain[i];
    }
    for i in 54..86 {
        frame[i + 8] = plain[i];
    }
    frame[20] = 0;
    frame[54] = 58;
    frame
}
