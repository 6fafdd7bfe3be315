//! What a frame is to a guard, by its octets.
ghost use Rattle.std.specs.Prelude.{◌≡◌, ◌+◌, ◌≤◌, length};
ghost use Rattle.guard.specs.Kind as spec;

use ip_address::{IpAddress, Ipv4Address};
use ip_wire::ipv6_packet::address_at;
use ip_wire::octets::{u16_at, u32_at};

/// What a frame is.
#[derive(Clone, Copy, Debug, PartialEq, Eq)]
pub enum Kind {
    /// An ARP packet (RFC 826).
    Arp {
        /// Who sends it.
        sender: IpAddress,
    },
    /// A neighbour solicitation or advertisement (RFC 4861 4.3, 4.4).
    Neighbor {
        /// Who sends it.
        sender: IpAddress,
        /// Of an advertisement: whose hardware address it tells.
        target: Option<IpAddress>,
    },
    /// Any other IP packet.
    Packet {
        /// Its source.
        sender: IpAddress,
        /// What is special of it.
        sort: Sort,
    },
    /// Anything else.
    Other,
}

/// What is special of an IP packet.
#[derive(Clone, Copy, Debug, PartialEq, Eq)]
pub enum Sort {
    /// It is a fragment (RFC 791 3.1, RFC 8200 4.5).
    Fragment,
    /// It is a datagram of UDP from port 7, 13, 17 or 19 to a port below 1,024: two such services would answer each other for
    /// ever (RFC 862, 867, 865, 864).
    Loop,
    /// Another datagram of UDP, or a segment of TCP.
    Transport,
    /// None of these.
    Plain,
}

/// The kind of an Ethernet frame.
pub fn kind_of(frame: &[u8]) -> Kind
    ensures { result ≡ spec.kind_of frame.now }
{
    if frame.len() < 42 {
        return Kind::Other;
    }
    match u16_at(frame, 12) {
        0x0806 => Kind::Arp {
            sender: ipv4_at(frame, 28),
        },
        0x0800 => Kind::Packet {
            sender: ipv4_at(frame, 26),
            sort: sort_of_ipv4(frame),
        },
        0x86dd => kind_of_ipv6(frame),
        _ => Kind::Other,
    }
}

/// What is special of an IPv4 packet.
#[inline(always)]
pub(crate) fn sort_of_ipv4(frame: &[u8]) -> Sort
    requires { 42 ≤ length frame.now }
    ensures { result ≡ spec.sort_of_ipv4 frame.now }
{
    if u16_at(frame, 20) % 0x4000 != 0 {
        return Sort::Fragment;
    }
    match frame[23] {
        17 if is_loop(frame, 14 + usize::from(frame[14] % 16) * 4) => Sort::Loop,
        6 | 17 => Sort::Transport,
        _ => Sort::Plain,
    }
}

/// What is special of an IPv6 packet.
#[inline(always)]
pub(crate) fn sort_of_ipv6(frame: &[u8]) -> Sort
    requires { 42 ≤ length frame.now }
    ensures { result ≡ spec.sort_of_ipv6 frame.now }
{
    match frame[20] {
        44 => Sort::Fragment,
        17 if is_loop(frame, 54) => Sort::Loop,
        6 | 17 => Sort::Transport,
        _ => Sort::Plain,
    }
}

/// Whether a datagram of UDP at an offset is from port 7, 13, 17 or 19, and to a port below 1,024.
#[inline(always)]
fn is_loop(frame: &[u8], at: usize) -> bool
    requires { at ≤ 4096 }
    ensures { result ≡ spec.is_loop frame.now at }
{
    octet_at(frame, at) == 0
        && matches!(octet_at(frame, at + 1), 7 | 13 | 17 | 19)
        && octet_at(frame, at + 2) < 4
}

/// The kind of a frame with an IPv6 packet.
fn kind_of_ipv6(frame: &[u8]) -> Kind
    requires { 42 ≤ length frame.now }
    ensures { result ≡ spec.kind_of_ipv6 frame.now }
{
    let sender = IpAddress::Ipv6(address_at(frame, 22));
    let Some(message) = message_of(frame) else {
        return packet_of_ipv6(sender, frame, sort_of_ipv6(frame));
    };
    match octet_at(frame, message) {
        135 => Kind::Neighbor {
            sender,
            target: None,
        },
        136 => Kind::Neighbor {
            sender,
            target: target_at(frame, message + 8),
        },
        _ => packet_of_ipv6(sender, frame, Sort::Plain),
    }
}

/// An IPv6 packet with nothing of those; one that is cut off before its destination is nothing to a guard.
fn packet_of_ipv6(sender: IpAddress, frame: &[u8], sort: Sort) -> Kind
    ensures { result ≡ spec.packet_of_ipv6 sender frame.now sort }
{
    if frame.len() < 54 {
        return Kind::Other;
    }
    Kind::Packet { sender, sort }
}

/// Whether a frame has an echo request (RFC 792, RFC 4443 4.1), or a fragment of ICMP, which may belong to one.
pub fn is_echo(frame: &[u8]) -> bool
    ensures { result ≡ spec.is_echo frame.now }
{
    if frame.len() < 42 {
        return false;
    }
    match u16_at(frame, 12) {
        0x0800 => is_echo_ipv4(frame),
        0x86dd => is_echo_ipv6(frame),
        _ => false,
    }
}

/// Whether an IPv4 packet is one.
fn is_echo_ipv4(frame: &[u8]) -> bool
    requires { 42 ≤ length frame.now }
    ensures { result ≡ spec.is_echo_ipv4 frame.now }
{
    frame[23] == 1
        && (u16_at(frame, 20) % 0x4000 != 0
            || octet_at(frame, 14 + usize::from(frame[14] % 16) * 4) == 8)
}

/// Whether an IPv6 packet is one.
fn is_echo_ipv6(frame: &[u8]) -> bool
    requires { 42 ≤ length frame.now }
    ensures { result ≡ spec.is_echo_ipv6 frame.now }
{
    if frame[20] == 44 {
        return octet_at(frame, 54) == 58;
    }
    match message_of(frame) {
        None => false,
        Some(message) => octet_at(frame, message) == 128,
    }
}

/// For whose hardware address a frame asks, if it is an ARP request (RFC 826) or a neighbour solicitation (RFC 4861 4.3).
pub fn asked_in(frame: &[u8]) -> Option<IpAddress>
    ensures { result ≡ spec.asked_in frame.now }
{
    if frame.len() < 42 {
        return None;
    }
    match u16_at(frame, 12) {
        0x0806 if frame[21] == 1 => Some(ipv4_at(frame, 38)),
        0x86dd => solicited_in(frame),
        _ => None,
    }
}

/// For whose hardware address a frame with an IPv6 packet asks.
fn solicited_in(frame: &[u8]) -> Option<IpAddress>
    requires { 42 ≤ length frame.now }
    ensures { result ≡ spec.solicited_at (spec.message_of frame.now) frame.now }
{
    let message = message_of(frame)?;
    if octet_at(frame, message) == 135 {
        target_at(frame, message + 8)
    } else {
        None
    }
}

/// Where a frame with an IPv6 packet has a message of ICMPv6: behind the header, or behind a header of hop-by-hop options.
pub(crate) fn message_of(frame: &[u8]) -> Option<usize>
    requires { 42 ≤ length frame.now }
    ensures { result ≡ spec.message_of frame.now }
{
    match frame[20] {
        58 => Some(54),
        0 if octet_at(frame, 54) == 58 => Some(62 + usize::from(octet_at(frame, 55)) * 8),
        _ => None,
    }
}

/// The address that a neighbour message is about, at an offset.
fn target_at(frame: &[u8], at: usize) -> Option<IpAddress>
    requires { at ≤ 4096 }
    ensures { result ≡ spec.target_at frame.now at }
{
    if frame.len() < at + 16 {
        return None;
    }
    Some(IpAddress::Ipv6(address_at(frame, at)))
}

/// The IPv4 address at an offset.
pub(crate) fn ipv4_at(frame: &[u8], at: usize) -> IpAddress
    requires { at + 4 ≤ length frame.now }
    ensures { result ≡ spec.ipv4_at frame.now at }
{
    IpAddress::Ipv4(Ipv4Address {
        bits: u32_at(frame, at),
    })
}

/// The octet at an offset; 0 behind the last one.
pub(crate) fn octet_at(frame: &[u8], at: usize) -> u8
    ensures { result ≡ spec.octet_at frame.now at }
{
    match frame.get(at) {
        Some(octet) => *octet,
        None => 0,
    }
}
