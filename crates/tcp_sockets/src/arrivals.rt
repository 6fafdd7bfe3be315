//! Segments in packets: which ones a host of connections takes (RFC 9293 3.9.2.3, RFC 1122 4.2.3.10).
ghost use Rattle.std.specs.Prelude.{◌≡◌, ◌<◌, ◌^◌, length, IfSome};
ghost use Rattle.std.specs.Option.{SomeIff, option_map};
ghost use Rattle.sockets.specs.Raw as raw;
ghost use Rattle.sockets.specs.Source.{is_same};
ghost use Rattle.tcp_sockets.specs.Arrivals as spec;

use ip_wire::{IpAddress, IpCidr, IpVersion, TcpControl};
use sockets::raw::{Packet, packet_in};
use tcp_connection::segment::Segment;
use tcp_host::iss::Endpoints;
use tcp_machine::sack::SackBlock;
use tcp_wire::{SackRange, TcpRepr};

/// TCP's number of protocol.
pub(crate) const PROTOCOL: u8 = 6;

/// A segment that arrived in a packet, with the ends of its connection.
#[derive(Clone, Copy)]
pub struct Arrival<'p> {
    pub endpoints: Endpoints,
    pub segment: Segment,
    pub octets: &'p [u8],
}

/// The segment in a packet that arrived at a host with these addresses. `None` exactly in these cases:
///
/// - the octets aren't a packet of this version of IP, or it isn't one of TCP;
/// - its destination isn't one of the host's addresses, or isn't unicast;
/// - its source isn't unicast, or is the broadcast address of a network of the host;
/// - its source is a loopback address, of 127/8 or ::1, and its destination isn't one, or the other way round;
/// - what it carries isn't a segment; with `checked`, the segment's checksum is wrong.
pub fn arrival_in<'p>(
    octets: &'p [u8],
    version: IpVersion,
    own: &[IpCidr],
    checked: bool,
) -> Option<Arrival<'p>>
    ensures segment { spec.Arrives checked own.now (raw.packet_in version octets.now) (option_map spec.value_of result) }
    ensures few { IfSome result (λ a. length a.octets.now < 2 ^ 32) }
{
    let packet = packet_in(version, octets)?;
    arrival_of(&packet, own, checked)
}

// The segment in a packet by its header.
#[tactic(auto, using(crate::proofs::ArrivalLemmas::few_octets))]
fn arrival_of<'p>(packet: &Packet<'p>, own: &[IpCidr], checked: bool) -> Option<Arrival<'p>>
    ensures segment { SomeIff (option_map spec.value_of result) (spec.HasSegment checked own.now (raw.value_of packet.now))
        (spec.arrived_in (raw.value_of packet.now)) }
    ensures few { IfSome result (λ a. length a.octets.now < 2 ^ 32) }
{
    let (src, dst) = (packet.header.src_addr(), packet.header.dst_addr());
    if packet.header.next_header().number() != PROTOCOL || !is_for_host(&src, &dst, own) {
        return None;
    }
    let (repr, octets) = TcpRepr::parse(packet.payload, &src, &dst, checked)?;
    Some(Arrival {
        endpoints: Endpoints {
            local_addr: dst,
            local_port: repr.dst_port,
            remote_addr: src,
            remote_port: repr.src_port,
        },
        segment: segment_of(&repr),
        octets,
    })
}

// Whether a packet between two addresses is from one host to this one.
fn is_for_host(src: &IpAddress, dst: &IpAddress, own: &[IpCidr]) -> bool
    ensures { result ≡ spec.is_for_host own.now src.now dst.now }
{
    is_own(dst, own)
        && dst.is_unicast()
        && src.is_unicast()
        && !is_broadcast(src, own)
        && may_come(src, dst)
}

// Whether a packet between two addresses may come by a link, or both are loopback addresses.
fn may_come(src: &IpAddress, dst: &IpAddress) -> bool
    ensures { result ≡ spec.may_come src.now dst.now }
{
    if is_loopback(src) {
        is_loopback(dst)
    } else {
        !is_loopback(dst)
    }
}

/// Whether an address is one of 127/8, or ::1: no packet that came by a link is from or to one (RFC 1122 3.2.1.3, RFC 4291 2.5.3).
pub fn is_loopback(address: &IpAddress) -> bool
    ensures { result ≡ spec.is_loopback address.now }
{
    match address {
        IpAddress::Ipv4(address) => address.bits / 0x0100_0000 == 127,
        IpAddress::Ipv6(address) => address.is_loopback(),
    }
}

/// Whether an address is one of a host's.
pub fn is_own(address: &IpAddress, own: &[IpCidr]) -> bool
    ensures { result ≡ spec.is_own own.now address.now }
{
    own.iter().any(|cidr| is_same(&cidr.address(), address))
}

/// Whether an address is the broadcast address of a network of a host.
pub fn is_broadcast(address: &IpAddress, own: &[IpCidr]) -> bool
    ensures { result ≡ spec.is_broadcast own.now address.now }
{
    own.iter().any(|cidr| is_broadcast_of(address, cidr))
}

// Whether an address is the broadcast address of a network.
fn is_broadcast_of(address: &IpAddress, cidr: &IpCidr) -> bool
    ensures { result ≡ spec.is_broadcast_of address.now cidr.now }
{
    match (address, cidr) {
        (IpAddress::Ipv4(address), IpCidr::Ipv4(cidr)) => match cidr.broadcast() {
            Some(broadcast) => broadcast.bits == address.bits,
            None => false,
        },
        _ => false,
    }
}

/// Whether two addresses are the same.
pub(crate) fn is_same(a: &IpAddress, b: &IpAddress) -> bool
    ensures { result ≡ is_same a.now b.now }
{
    match (a, b) {
        (IpAddress::Ipv4(a), IpAddress::Ipv4(b)) => a.bits == b.bits,
        (IpAddress::Ipv6(a), IpAddress::Ipv6(b)) => a.bits == b.bits,
        _ => false,
    }
}

// A segment's values as a connection takes them.
fn segment_of(repr: &TcpRepr) -> Segment
    ensures { result ≡ spec.segment_of repr.now }
{
    let (syn, fin, rst) = flags_of(repr.control);
    Segment {
        number: repr.seq_number.bits,
        ack: match repr.ack_number {
            Some(number) => Some(number.bits),
            None => None,
        },
        window: repr.window_len,
        syn,
        fin,
        rst,
        mss: repr.options.max_seg_size,
        scale: repr.options.window_scale,
        sack_permitted: repr.options.sack_permitted,
        blocks: blocks_of(&repr.options.sack_ranges),
    }
}

// Blocks as a connection takes them.
fn blocks_of(ranges: &[Option<SackRange>; 4]) -> [Option<SackBlock>; 4]
    ensures { result ≡ spec.blocks_of ranges.now }
{
    let [first, second, third, fourth] = *ranges;
    [
        block_of(first),
        block_of(second),
        block_of(third),
        block_of(fourth),
    ]
}

// One block as a connection takes it.
fn block_of(range: Option<SackRange>) -> Option<SackBlock>
    ensures { result ≡ option_map spec.block_of range }
{
    match range {
        None => None,
        Some(range) => Some(SackBlock {
            left: range.left.bits,
            right: range.right.bits,
        }),
    }
}

// SYN, FIN and RST.
fn flags_of(control: TcpControl) -> (bool, bool, bool)
    ensures syn { result.0 ≡ spec.is_syn control }
    ensures fin { result.1 ≡ spec.is_fin control }
    ensures rst { result.2 ≡ spec.is_rst control }
{
    match control {
        TcpControl::None | TcpControl::Psh => (false, false, false),
        TcpControl::Syn => (true, false, false),
        TcpControl::Fin => (false, true, false),
        TcpControl::Rst => (false, false, true),
    }
}
