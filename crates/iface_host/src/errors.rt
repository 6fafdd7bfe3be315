//! What messages of ICMP say of packets that this host sent (RFC 792, RFC 4443, RFC 9293 3.9.2.2).
ghost use Rattle.std.specs.Prelude.{◌≡◌, ◌+◌, ◌<◌, ◌≤◌, ◌^◌, drop, length, take, true};
ghost use Rattle.guard.specs.Kind as kind;
ghost use Rattle.ip_wire.specs.Ipv4Packet.{header_len};
ghost use Rattle.iface_host.specs.ErrorExamples.{ErrorsAreTold, ErrorsAreToldV6, OthersTellNothing, OthersTellNothingV6};
ghost use Rattle.iface_host.specs.ErrorLaws.{OrdinaryFramesTellNothing};
ghost use Rattle.iface_host.specs.Errors as spec;

use ip_wire::checksum::sum_with;
use ip_wire::ipv6_packet::address_at;
use ip_wire::octets::{u16_at, u32_at};
use ip_wire::pseudo::pseudo_sum;
use ip_wire::{IpAddress, IpCidr, IpProtocol, Ipv4Address, Ipv6Address};
use net_base::phy::{ChecksumCapabilities, DeviceCapabilities, Medium};
use sockets::IpEndpoint;
use tcp_sockets::arrivals::is_own;

/// Why a packet of this host didn't arrive, as a router or its destination says (RFC 9293 3.9.2.2).
#[derive(Clone, Copy, Debug, PartialEq, Eq)]
pub enum ErrorCause {
    /// It was longer than a link behind which its destination is: the octets that a packet may have there (RFC 1191 4, RFC 4443 3.2),
    /// or 0 where an old router doesn't tell (RFC 1191 5). Nobody has verified the number.
    TooBig(u32),
    /// No packet like this will arrive: the destination doesn't have the protocol, or its port is closed; over IPv6 also, it is
    /// forbidden.
    Hard,
    /// It didn't arrive this time.
    Soft,
}

/// What a message of ICMP says of a packet that this host sent. Who forges one has to know both ends, and of TCP a number that may
/// be unacknowledged (RFC 5927): whoever reads it has to compare.
#[derive(Clone, Copy, Debug, PartialEq, Eq)]
pub struct PacketError {
    /// TCP or UDP.
    pub protocol: IpProtocol,
    /// Where the packet was sent from: an own address, and the port.
    pub local: IpEndpoint,
    /// Where it was sent to.
    pub remote: IpEndpoint,
    /// The four octets behind its ports: of TCP its sequence number, of UDP its length and its checksum.
    pub number: u32,
    /// Why it didn't arrive.
    pub cause: ErrorCause,
}

/// What a frame that came over a device says of a packet of the host with these addresses. `None` if it brings no message of
/// ICMP to an own address, or that doesn't quote a packet of TCP or UDP from there with eight octets behind its header; or if a
/// checksum is wrong that isn't left to the device.
#[tactic(auto, unfolding(crate::specs::Errors::error_in))]
pub fn error_in(frame: &[u8], device: &DeviceCapabilities, own: &[IpCidr]) -> Option<PacketError>
    ensures { result ≡ spec.error_in device.now own.now frame.now }
{
    match device.medium {
        Medium::Ethernet => error_in_ethernet(frame, &device.checksum, own),
        Medium::Ip => error_in_packet(frame, &device.checksum, own),
    }
}

/// Whether a frame over this medium has a message of ICMP, if it has a packet at all: else it tells nothing.
#[inline(always)]
pub(crate) fn may_tell(frame: &[u8], medium: Medium) -> bool
    ensures { result ≡ spec.may_tell_at (spec.packet_at medium) frame.now }
{
    let at = match medium {
        Medium::Ethernet => 14,
        Medium::Ip => 0,
    };
    frame.len() >= at + 20 && (frame[at + 9] == 1 || frame[at + 6] == 58)
}

/// What a frame of Ethernet says.
fn error_in_ethernet(
    frame: &[u8],
    checksum: &ChecksumCapabilities,
    own: &[IpCidr],
) -> Option<PacketError>
    ensures { result ≡ spec.error_in_ethernet checksum.now own.now frame.now }
{
    if frame.len() < 14 {
        return None;
    }
    match u16_at(frame, 12) {
        0x0800 => error_in_ipv4(behind_header(frame), checksum, own),
        0x86dd => error_in_ipv6(behind_header(frame), checksum, own),
        _ => None,
    }
}

/// What stands behind the header of a frame of Ethernet.
#[inline(always)]
fn behind_header(frame: &[u8]) -> &[u8]
    requires { 14 ≤ length frame.now }
    ensures { result.now ≡ drop 14 frame.now }
{
    &frame[14..]
}

/// What a packet of either version says.
#[tactic(auto, using(crate::proofs::ErrorCalls::version_six, crate::proofs::ErrorCalls::version_other))]
fn error_in_packet(
    packet: &[u8],
    checksum: &ChecksumCapabilities,
    own: &[IpCidr],
) -> Option<PacketError>
    ensures { result ≡ spec.error_in_packet checksum.now own.now packet.now }
{
    if packet.len() < 20 {
        return None;
    }
    if packet[0] / 16 == 6 {
        error_in_ipv6(packet, checksum, own)
    } else {
        error_in_ipv4(packet, checksum, own)
    }
}

/// What a packet of IPv4 says.
#[inline(never)]
fn error_in_ipv4(
    packet: &[u8],
    checksum: &ChecksumCapabilities,
    own: &[IpCidr],
) -> Option<PacketError>
    ensures { result ≡ spec.error_in_ipv4 checksum.now own.now packet.now }
{
    if !brings_ipv4(packet) {
        return None;
    }
    let message = message_in_ipv4(packet);
    let from = Ipv4Address {
        bits: u32_at(packet, 16),
    };
    if !is_error_ipv4(message)
        || !is_own(&IpAddress::Ipv4(from), own)
        || !tells_ipv4(packet, checksum)
    {
        return None;
    }
    Some(quoted_ipv4(cause_in_ipv4(message), from, &message[8..]))
}

/// Whether a packet of IPv4 brings a message of ICMP: it is whole and no fragment.
fn brings_ipv4(packet: &[u8]) -> bool
    ensures value { result ≡ spec.brings_ipv4 packet.now }
    ensures fits { result ≡ true → spec.FitsIpv4 packet.now }
{
    if packet.len() < 20 {
        return false;
    }
    let header_len = usize::from(packet[0] % 16) * 4;
    let total_len = usize::from(u16_at(packet, 2));
    packet[9] == 1
        && packet[0] / 16 == 4
        && u16_at(packet, 6) % 0x4000 == 0
        && header_len >= 20
        && header_len + 8 <= total_len
        && total_len <= packet.len()
}

/// The message of ICMP in a packet of IPv4.
fn message_in_ipv4(packet: &[u8]) -> &[u8]
    requires { spec.FitsIpv4 packet.now }
    ensures value { result.now ≡ spec.message_in_ipv4 packet.now }
    ensures header { 8 ≤ length result.now }
    ensures short { length result.now < 2 ^ 16 }
{
    let header_len = usize::from(packet[0] % 16) * 4;
    let total_len = usize::from(u16_at(packet, 2));
    &packet[header_len..total_len]
}

/// Whether the message of a packet quotes a packet from its destination; the sums of its header and of its message are right, where
/// they are verified.
fn tells_ipv4(packet: &[u8], checksum: &ChecksumCapabilities) -> bool
    requires { spec.FitsIpv4 packet.now }
    ensures value { result ≡ spec.tells_ipv4 checksum.now packet.now }
    ensures fits { result ≡ true → spec.QuotesWhole (drop 8 (spec.message_in_ipv4 packet.now)) }
{
    let message = message_in_ipv4(packet);
    let from = Ipv4Address {
        bits: u32_at(packet, 16),
    };
    quotes_ipv4(&message[8..], &from)
        && is_summed(header_of(packet), checksum.ipv4.rx())
        && is_summed(message, checksum.icmpv4.rx())
}

/// The header of a packet of IPv4, with its options.
fn header_of(packet: &[u8]) -> &[u8]
    requires { spec.FitsIpv4 packet.now }
    ensures value { result.now ≡ take (header_len packet.now) packet.now }
    ensures short { length result.now < 2 ^ 16 }
{
    &packet[..usize::from(packet[0] % 16) * 4]
}

/// Whether a sum over octets is right, if it is verified (RFC 1071).
fn is_summed(octets: &[u8], checked: bool) -> bool
    requires { length octets.now < 2 ^ 16 }
    ensures { result ≡ spec.is_summed checked octets.now }
{
    !checked || sum_with(0, octets) == 0xffff
}

/// Whether a message of ICMP is one that tells of a packet (RFC 792).
fn is_error_ipv4(message: &[u8]) -> bool
    requires { 8 ≤ length message.now }
    ensures { result ≡ spec.is_error_ipv4 message.now }
{
    matches!(message[0], 3 | 11 | 12)
}

/// Why the packet didn't arrive that a message quotes (RFC 792, RFC 1191 4).
fn cause_in_ipv4(message: &[u8]) -> ErrorCause
    requires { 8 ≤ length message.now }
    ensures { result ≡ spec.cause_in_ipv4 message.now }
{
    match (message[0], message[1]) {
        (3, 4) => ErrorCause::TooBig(u32::from(u16_at(message, 6))),
        (3, 2 | 3) => ErrorCause::Hard,
        _ => ErrorCause::Soft,
    }
}

/// Whether octets begin with a packet of TCP or UDP from an address, no later fragment, and have eight octets behind its header.
fn quotes_ipv4(quoted: &[u8], from: &Ipv4Address) -> bool
    ensures value { result ≡ spec.quotes_ipv4 from.now quoted.now }
    ensures fits { result ≡ true → spec.QuotesWhole quoted.now }
{
    if quoted.len() < 20 {
        return false;
    }
    let header_len = usize::from(quoted[0] % 16) * 4;
    quoted[0] / 16 == 4
        && header_len >= 20
        && header_len + 8 <= quoted.len()
        && u16_at(quoted, 6) % 0x2000 == 0
        && is_transport(quoted[9])
        && u32_at(quoted, 12) == from.bits
}

/// The error about a packet of IPv4 that is quoted.
fn quoted_ipv4(cause: ErrorCause, from: Ipv4Address, quoted: &[u8]) -> PacketError
    requires { spec.QuotesWhole quoted.now }
    ensures { result ≡ spec.quoted_ipv4 cause from quoted.now }
{
    let to = Ipv4Address {
        bits: u32_at(quoted, 16),
    };
    let ends = (IpAddress::Ipv4(from), IpAddress::Ipv4(to));
    error_about(
        cause,
        quoted[9],
        ends,
        quoted,
        usize::from(quoted[0] % 16) * 4,
    )
}

/// What a packet of IPv6 says.
#[inline(never)]
fn error_in_ipv6(
    packet: &[u8],
    checksum: &ChecksumCapabilities,
    own: &[IpCidr],
) -> Option<PacketError>
    ensures { result ≡ spec.error_in_ipv6 checksum.now own.now packet.now }
{
    if !brings_ipv6(packet) {
        return None;
    }
    let message = message_in_ipv6(packet);
    let from = address_at(packet, 24);
    if !is_error_ipv6(message)
        || !is_own(&IpAddress::Ipv6(from), own)
        || !tells_ipv6(packet, checksum.icmpv6.rx())
    {
        return None;
    }
    Some(quoted_ipv6(cause_in_ipv6(message), from, &message[8..]))
}

/// Whether a packet of IPv6 brings a message of ICMP: it is whole, and the message stands directly behind the header.
fn brings_ipv6(packet: &[u8]) -> bool
    ensures value { result ≡ spec.brings_ipv6 packet.now }
    ensures fits { result ≡ true → spec.FitsIpv6 packet.now }
{
    if packet.len() < 40 {
        return false;
    }
    let len = usize::from(u16_at(packet, 4));
    packet[6] == 58 && packet[0] / 16 == 6 && len >= 8 && 40 + len <= packet.len()
}

/// The message of ICMP in a packet of IPv6.
fn message_in_ipv6(packet: &[u8]) -> &[u8]
    requires { spec.FitsIpv6 packet.now }
    ensures value { result.now ≡ spec.message_in_ipv6 packet.now }
    ensures header { 8 ≤ length result.now }
    ensures short { length result.now < 2 ^ 16 }
{
    &packet[40..40 + usize::from(u16_at(packet, 4))]
}

/// Whether the message of a packet quotes a packet from its destination; its sum is right, if that is verified.
fn tells_ipv6(packet: &[u8], checked: bool) -> bool
    requires { spec.FitsIpv6 packet.now }
    ensures value { result ≡ spec.tells_ipv6 checked packet.now }
    ensures fits { result ≡ true → 48 ≤ length (drop 8 (spec.message_in_ipv6 packet.now)) }
{
    let message = message_in_ipv6(packet);
    quotes_ipv6(&message[8..], &address_at(packet, 24)) && (!checked || is_summed_ipv6(packet))
}

/// Whether the sum of a message and its pseudo-header is right (RFC 4443 2.3).
fn is_summed_ipv6(packet: &[u8]) -> bool
    requires { spec.FitsIpv6 packet.now }
    ensures { result ≡ spec.is_summed_ipv6 packet.now }
{
    let from = IpAddress::Ipv6(address_at(packet, 8));
    let to = IpAddress::Ipv6(address_at(packet, 24));
    let start = pseudo_sum(&from, &to, 58, u16_at(packet, 4));
    sum_with(start, message_in_ipv6(packet)) == 0xffff
}

/// Whether a message of ICMPv6 is one that tells of a packet (RFC 4443 3).
fn is_error_ipv6(message: &[u8]) -> bool
    requires { 8 ≤ length message.now }
    ensures { result ≡ spec.is_error_ipv6 message.now }
{
    matches!(message[0], 1 | 2 | 3 | 4)
}

/// Why the packet didn't arrive that a message quotes (RFC 4443 3).
fn cause_in_ipv6(message: &[u8]) -> ErrorCause
    requires { 8 ≤ length message.now }
    ensures { result ≡ spec.cause_in_ipv6 message.now }
{
    match (message[0], message[1]) {
        (2, _) => ErrorCause::TooBig(u32_at(message, 4)),
        (1, 1 | 4) => ErrorCause::Hard,
        _ => ErrorCause::Soft,
    }
}

/// Whether octets begin with a packet of IPv6 from an address, and have eight octets of TCP or UDP behind its header.
fn quotes_ipv6(quoted: &[u8], from: &Ipv6Address) -> bool
    ensures value { result ≡ spec.quotes_ipv6 from.now quoted.now }
    ensures fits { result ≡ true → 48 ≤ length quoted.now }
{
    quoted.len() >= 48
        && quoted[0] / 16 == 6
        && is_transport(quoted[6])
        && address_at(quoted, 8).bits == from.bits
}

/// The error about a packet of IPv6 that is quoted.
fn quoted_ipv6(cause: ErrorCause, from: Ipv6Address, quoted: &[u8]) -> PacketError
    requires { 48 ≤ length quoted.now }
    ensures { result ≡ spec.quoted_ipv6 cause from quoted.now }
{
    let ends = (
        IpAddress::Ipv6(from),
        IpAddress::Ipv6(address_at(quoted, 24)),
    );
    error_about(cause, quoted[6], ends, quoted, 40)
}

/// The error about a packet that is quoted, by its protocol, its addresses, and where its ports stand.
fn error_about(
    cause: ErrorCause,
    protocol: u8,
    ends: (IpAddress, IpAddress),
    quoted: &[u8],
    at: usize,
) -> PacketError
    requires { at + 8 ≤ length quoted.now }
    ensures { result ≡ spec.error_about cause protocol ends.0 ends.1 quoted.now at }
{
    let (local, remote) = ends;
    PacketError {
        protocol: IpProtocol::from_number(protocol),
        local: IpEndpoint {
            addr: local,
            port: u16_at(quoted, at),
        },
        remote: IpEndpoint {
            addr: remote,
            port: u16_at(quoted, at + 2),
        },
        number: u32_at(quoted, at + 4),
        cause,
    }
}

/// Whether a protocol is TCP or UDP.
fn is_transport(protocol: u8) -> bool
    ensures { result ≡ kind.is_transport protocol }
{
    protocol == 6 || protocol == 17
}

/// Worked examples of messages, octet by octet, and of those that tell nothing.
pub fn worked_examples()
    ensures told { ErrorsAreTold }
    ensures nothing { OthersTellNothing }
    ensures told_v6 { ErrorsAreToldV6 }
    ensures nothing_v6 { OthersTellNothingV6 }
{}

/// A frame that is ordinary to a guard tells nothing.
pub fn ordinary_frames_tell_nothing()
    ensures { OrdinaryFramesTellNothing }
{}
