//! What the words of a script say. `None` is always: that isn't such a word.
ghost use Rattle.std.specs.Prelude.{◌≡◌, ◌≢◌, ◌≤◌, IfSome, false};
ghost use Rattle.ip_address.specs.Ip.{is_unspecified};
ghost use Rattle.net_base.specs.Time.{IsMoment};

use crate::frames::octets;
use arrayvec::ArrayVec;
use iface_tables::route::Route;
use ip_wire::{
    EthernetAddress, HardwareAddress, IpAddress, IpCidr, Ipv4Address, Ipv4Cidr, Ipv6Address,
    Ipv6Cidr,
};
use net_base::phy::Medium;
use net_base::time::Instant;
use sockets::IpEndpoint;
use std::str::SplitWhitespace;

/// The words of a line that are still to be read.
pub type Words<'a> = SplitWhitespace<'a>;

/// A number of decimal digits, with `_` between them where one likes: `1_000_000`.
pub fn wide(word: &str) -> Option<u64> {
    let mut number = None;
    for byte in word.bytes() {
        match byte {
            b'0'..=b'9' => {
                let tens = number.unwrap_or(0u64).checked_mul(10)?;
                number = Some(tens.checked_add(u64::from(byte - b'0'))?);
            }
            b'_' => {}
            _ => return None,
        }
    }
    number
}

/// A number of at most 32 bits.
pub fn number(word: &str) -> Option<u32> {
    match wide(word)?.to_be_bytes() {
        [0, 0, 0, 0, a, b, c, d] => Some(u32::from_be_bytes([a, b, c, d])),
        _ => None,
    }
}

/// A number of at most 16 bits.
pub fn short(word: &str) -> Option<u16> {
    match number(word)?.to_be_bytes() {
        [0, 0, high, low] => Some(u16::from_be_bytes([high, low])),
        _ => None,
    }
}

/// A number of at most 8 bits.
pub fn octet(word: &str) -> Option<u8> {
    match number(word)?.to_be_bytes() {
        [0, 0, 0, octet] => Some(octet),
        _ => None,
    }
}

/// A number for `usize`.
pub fn count(word: &str) -> Option<usize> {
    Some(number(word)? as usize)
}

/// A moment, in microseconds.
pub fn moment(word: &str) -> Option<Instant>
    ensures { IfSome result IsMoment }
{
    Some(Instant::from_micros(i64::from(number(word)?)))
}

/// An address of eight hex digits.
pub fn address(word: &str) -> Option<Ipv4Address> {
    match octets(word)?.as_slice() {
        [a, b, c, d] => Some(Ipv4Address::new(*a, *b, *c, *d)),
        _ => None,
    }
}

/// An address of 32 hex digits.
pub fn address_v6(word: &str) -> Option<Ipv6Address> {
    let octets = octets(word)?;
    if octets.len() != 16 {
        return None;
    }
    let mut address = [0; 16];
    address.copy_from_slice(octets.as_slice());
    Some(Ipv6Address {
        bits: u128::from_be_bytes(address),
    })
}

/// An address of either family.
pub fn any_address(word: &str) -> Option<IpAddress> {
    match address(word) {
        Some(address) => Some(IpAddress::Ipv4(address)),
        None => Some(IpAddress::Ipv6(address_v6(word)?)),
    }
}

/// An address and the length of its prefix: `c0a84501/24`.
pub fn network(word: &str) -> Option<IpCidr> {
    let (addr, prefix_len) = word.split_once('/')?;
    let prefix_len = number(prefix_len)?;
    match any_address(addr)? {
        IpAddress::Ipv4(address) if prefix_len <= 32 => {
            Some(IpCidr::Ipv4(Ipv4Cidr::new(address, prefix_len as u8)))
        }
        IpAddress::Ipv6(address) if prefix_len <= 128 => {
            Some(IpCidr::Ipv6(Ipv6Cidr::new(address, prefix_len as u8)))
        }
        _ => None,
    }
}

/// The networks that are left, at most four.
pub fn networks(words: &mut Words<'_>) -> Option<ArrayVec<IpCidr, 4>> {
    let mut list = ArrayVec::new();
    for word in words {
        list.try_push(network(word)?).ok()?;
    }
    Some(list)
}

/// A network, the router to it, and maybe until when: `0a010000/16>c0a84503@10_000_000`.
pub fn route(word: &str) -> Option<Route> {
    let (word, expires_at) = match word.split_once('@') {
        Some((word, micros)) => (word, Some(moment(micros)?)),
        None => (word, None),
    };
    let (cidr, via_router) = word.split_once('>')?;
    Some(Route {
        cidr: network(cidr)?,
        via_router: any_address(via_router)?,
        preferred_until: None,
        expires_at,
    })
}

/// The routes that are left, at most four.
pub fn routes(words: &mut Words<'_>) -> Option<ArrayVec<Route, 4>> {
    let mut list = ArrayVec::new();
    for word in words {
        list.try_push(route(word)?).ok()?;
    }
    Some(list)
}

/// A hardware address of twelve hex digits, or `ip` where the medium has none.
pub fn hardware(word: &str) -> Option<HardwareAddress> {
    if word == "ip" {
        return Some(HardwareAddress::Ip);
    }
    match octets(word)?.as_slice() {
        [a, b, c, d, e, f] => Some(HardwareAddress::Ethernet(EthernetAddress([
            *a, *b, *c, *d, *e, *f,
        ]))),
        _ => None,
    }
}

/// `ethernet` or `ip`.
pub fn medium(word: &str) -> Option<Medium> {
    match word {
        "ethernet" => Some(Medium::Ethernet),
        "ip" => Some(Medium::Ip),
        _ => None,
    }
}

/// A specified address and a port of it that isn't 0.
pub fn end(addr: &str, port: &str) -> Option<IpEndpoint>
    ensures addr { IfSome result (λ end. is_unspecified end.addr ≡ false) }
    ensures port { IfSome result (λ end. end.port ≢ 0) }
{
    let addr = any_address(addr)?;
    let port = short(port)?;
    if addr.is_unspecified() || port == 0 {
        return None;
    }
    Some(IpEndpoint { addr, port })
}

/// Whether nothing but `ok` is to come of a call.
pub fn is_ok(outcome: &mut Words<'_>) -> Option<bool> {
    Some(outcome.next()? == "ok")
}
