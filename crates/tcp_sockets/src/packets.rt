//! Segments as packets (RFC 9293 3.1).
ghost use Rattle.std.specs.Prelude.{◌≡◌, ◌≤◌, ◌<◌, ◌+◌, ◌^◌, ◌++◌, length, true};
ghost use Rattle.std.specs.Option.{option_map};
ghost use Rattle.tcp_wire.specs.Tcp.{text_len};
ghost use Rattle.tcp_sockets.specs.Packets as spec;

use ip_wire::emit::FrameBuffer;
use ip_wire::{
    IpAddress, IpProtocol, Ipv4Address, Ipv4Fragment, Ipv4Repr, Ipv6Address, Ipv6Repr, TcpControl,
    TcpSeqNumber,
};
use tcp_connection::outgoing::Header;
use tcp_host::iss::Endpoints;
use tcp_host::resets::{Reply, Reset, SynAck};
use tcp_host::turns::Outgoing;
use tcp_machine::sack::SackBlock;
use tcp_wire::{SackRange, TcpOptions, TcpRepr};

/// The hop limit of what no connection sends (RFC 9293 3.9.2).
const HOP_LIMIT: u8 = 64;

/// The most octets of a segment that a packet of IPv4 carries beside headers of 20 and 60.
pub const MOST_OCTETS: usize = 65_455;

/// A reset as a segment that is sent.
pub fn reset_between(endpoints: &Endpoints, reset: &Reset) -> Outgoing<'static>
    ensures { spec.value_of result ≡ spec.reset_between endpoints.now reset.now }
{
    Outgoing {
        endpoints: *endpoints,
        header: Header {
            number: reset.number,
            ack: reset.ack,
            window: 0,
            syn: false,
            fin: false,
            rst: true,
        },
        mss: None,
        scale: None,
        blocks: [None; 3],
        hop_limit: HOP_LIMIT,
        octets: &[],
    }
}

/// The SYN-ACK of a connection of which nothing is kept, as a segment that is sent.
pub fn syn_ack_between(endpoints: &Endpoints, syn_ack: &SynAck) -> Outgoing<'static>
    ensures { spec.value_of result ≡ spec.syn_ack_between endpoints.now syn_ack.now }
{
    Outgoing {
        endpoints: *endpoints,
        header: syn_ack.header,
        mss: Some(syn_ack.mss),
        scale: None,
        blocks: [None; 3],
        hop_limit: HOP_LIMIT,
        octets: &[],
    }
}

/// A reply of no connection as a segment that is sent.
pub fn reply_between(endpoints: &Endpoints, reply: &Reply) -> Outgoing<'static>
    ensures { spec.value_of result ≡ spec.reply_between endpoints.now reply.now }
{
    match reply {
        Reply::Reset(reset) => reset_between(endpoints, reset),
        Reply::Cookie(syn_ack) => syn_ack_between(endpoints, syn_ack),
    }
}

/// Writes the headers of a segment, in place of what the buffer has; the segment's octets follow them in its packet.
/// Returns false, if the ends aren't of one family.
pub fn write_headers(segment: &Outgoing<'_>, summed: bool, out: &mut FrameBuffer) -> bool
    requires { length segment.now.octets.now ≤ 65455 }
    ensures family { result ≡ spec.is_one_family segment.now.endpoints.local_addr segment.now.endpoints.remote_addr }
    ensures text { result ≡ true → out.new ++ segment.now.octets.now ≡ spec.packet_text summed (spec.value_of segment.now) }
{
    let repr = repr_of(segment);
    let len = (repr.header_len() + segment.octets.len()) as u16;
    let (src, dst) = (segment.endpoints.local_addr, segment.endpoints.remote_addr);
    out.clear();
    match (&src, &dst) {
        (IpAddress::Ipv4(src), IpAddress::Ipv4(dst)) => {
            let header = ipv4_header(src, dst, len, segment.hop_limit);
            header.emit(&Ipv4Fragment::WHOLE, true, out);
        }
        (IpAddress::Ipv6(src), IpAddress::Ipv6(dst)) => {
            ipv6_header(src, dst, len, segment.hop_limit).emit(out);
        }
        _ => return false,
    }
    repr.emit_header(&src, &dst, segment.octets, summed, out);
    true
}

// The header of a packet of IPv4 with so many octets.
fn ipv4_header(src: &Ipv4Address, dst: &Ipv4Address, len: u16, hop_limit: u8) -> Ipv4Repr
    ensures { result ≡ spec.ipv4_header src.now dst.now len hop_limit }
{
    Ipv4Repr {
        src_addr: *src,
        dst_addr: *dst,
        next_header: IpProtocol::Tcp,
        payload_len: len,
        hop_limit,
    }
}

// The header of a packet of IPv6 with so many octets.
fn ipv6_header(src: &Ipv6Address, dst: &Ipv6Address, len: u16, hop_limit: u8) -> Ipv6Repr
    ensures { result ≡ spec.ipv6_header src.now dst.now len hop_limit }
{
    Ipv6Repr {
        src_addr: *src,
        dst_addr: *dst,
        next_header: IpProtocol::Tcp,
        payload_len: len,
        hop_limit,
    }
}

// The values of a segment's header.
fn repr_of(segment: &Outgoing<'_>) -> TcpRepr
    ensures { result ≡ spec.repr_of (spec.value_of segment.now) }
{
    TcpRepr {
        src_port: segment.endpoints.local_port,
        dst_port: segment.endpoints.remote_port,
        control: control_of(&segment.header, segment.octets.is_empty()),
        seq_number: TcpSeqNumber {
            bits: segment.header.number,
        },
        ack_number: match segment.header.ack {
            Some(bits) => Some(TcpSeqNumber { bits }),
            None => None,
        },
        window_len: segment.header.window,
        options: TcpOptions {
            max_seg_size: segment.mss,
            window_scale: segment.scale,
            sack_permitted: segment.header.syn,
            sack_ranges: ranges_of(&segment.blocks),
            timestamp: None,
        },
    }
}

// Blocks as an option has them, which has room for a fourth one.
fn ranges_of(blocks: &[Option<SackBlock>; 3]) -> [Option<SackRange>; 4]
    ensures { result ≡ spec.ranges_of blocks.now }
{
    let [first, second, third] = *blocks;
    [range_of(first), range_of(second), range_of(third), None]
}

// One block as an option has it.
fn range_of(block: Option<SackBlock>) -> Option<SackRange>
    ensures { result ≡ option_map spec.range_of block }
{
    match block {
        None => None,
        Some(block) => Some(SackRange {
            left: TcpSeqNumber { bits: block.left },
            right: TcpSeqNumber { bits: block.right },
        }),
    }
}

// What a segment means. One with octets is pushed (RFC 9293 3.9.1.2).
fn control_of(header: &Header, is_empty: bool) -> TcpControl
    ensures { result ≡ spec.control_of header.now is_empty }
{
    if header.syn {
        TcpControl::Syn
    } else if header.rst {
        TcpControl::Rst
    } else if header.fin {
        TcpControl::Fin
    } else if is_empty {
        TcpControl::None
    } else {
        TcpControl::Psh
    }
}
