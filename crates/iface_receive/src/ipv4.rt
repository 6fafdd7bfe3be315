//! How an interface processes IPv4 packets (RFC 791, RFC 1122 3.2.1).
ghost use Rattle.std.specs.Prelude.{◌≡◌, ◌+◌, ◌<◌, ◌≤◌, ◌^◌, [], length, IfSome, None};
ghost use Rattle.std.specs.Borrow.{sem};
ghost use Rattle.fragmentation.specs.Details.Reassembled.{RestsReassembled};
ghost use Rattle.fragmentation.specs.Stands as stands;
ghost use Rattle.control_wire.specs.declared.icmpv4.Icmpv4DstUnreachable.TheVariants.{ProtoUnreachable};
ghost use Rattle.fragmentation.specs.Slots.{Slots};
ghost use Rattle.ip_wire.specs.declared.ip_packet.IpRepr.TheVariants as repr;
ghost use Rattle.host_machine.specs.Context.Host.{SocketSet, no_sockets};
ghost use Rattle.host_machine.specs.Icmp.Icmpv4.{unreachable};
ghost use Rattle.host_machine.specs.Receive.Response.{Responds};
ghost use Rattle.host_machine.specs.Sockets.Tcp.{ProcessesTcp};
ghost use Rattle.host_machine.specs.Sockets.Udp.{ProcessesUdp};
ghost use Rattle.host_machine.specs.Multicast.Igmp.{ProcessesIgmp};
ghost use Rattle.host_machine.specs.Context.Addresses as addresses;
ghost use Rattle.host_machine.specs.Receive.Ipv4 as spec;
ghost use Rattle.host_machine.specs.Receive.Ipv4.{ProcessesIpv4, ProcessesProtocol, ProcessesDatagram};
ghost use Rattle.iface_context.specs.Stands.{host_in, host_of};
ghost use Rattle.iface_receive.specs.Ipv4.{RestsDatagram, end_of_slots};
ghost use Rattle.iface_context.specs.Refines.{HostRefinesReplying, RefinesBuilding, RefinesReplying, StandsFor};

use crate::udp::process_udp;
use control_wire::icmpv4::Icmpv4DstUnreachable;
use fragmentation::{FragKey, PacketAssemblerSet, reassemble};
use iface_context::Context;
use iface_discovery::renewal::renew_sender;
use iface_icmp::icmpv4::{icmpv4_unreachable, process_icmpv4};
use iface_multicast::igmp::process_igmp;
use iface_sockets::raw;
use iface_sockets::tcp::process_tcp;
use ip_wire::emit::FrameBuffer;
use ip_wire::{HardwareAddress, IpProtocol, IpRepr, Ipv4Address, Ipv4Fragment, Ipv4Repr};
use socket_set::SocketSet;
use sockets::SocketContext;

/// Processes an IPv4 packet received from a hardware address, and builds the response, if any, in an empty buffer. A
/// sender that is known at that address, and sends to the interface alone, is kept for another 60 s (RFC 1122 2.3.2.1).
///
/// Dropped are octets that don't begin with a packet, and packets with an invalid source or a destination that is not
/// the interface's (RFC 1122 3.2.1.3). A fragment is reassembled with those received before, and its datagram is
/// processed once it is complete (RFC 791 3.2).
pub fn process_ipv4(
    context: &mut Context,
    sockets: &mut SocketSet<'_>,
    fragments: &mut PacketAssemblerSet<FragKey>,
    source: HardwareAddress,
    octets: &[u8],
    out: &mut FrameBuffer,
)
    requires { out.old ≡ [] }
    ensures { HostRefinesReplying out.new (λ H. ProcessesIpv4 source H octets.now)
        (StandsFor context.old fragments.old sockets.old) (StandsFor context.new fragments.new sockets.new) }
{
    let checked = context.capabilities().checksum.ipv4.rx();
    let Some((header, fragment, payload)) = Ipv4Repr::parse(octets, checked) else {
        return;
    };
    if !may_be_source(context, &header.src_addr) {
        return;
    }
    let Some(payload) = datagram(fragments, context, &header, &fragment, payload) else {
        return;
    };
    let header = header_of_datagram(&header, payload);
    process_datagram(context, sockets, source, &header, payload, out);
}

/// The payload of the datagram that a packet belongs to, given the packet's header, its fragment fields and its
/// payload. That is the packet's payload if it is whole, and the reassembled payload if it is a fragment (RFC 791 3.2).
/// `None` while other fragments are missing, and if the fragment is dropped.
#[inline(always)]
fn datagram<'p>(
    fragments: &'p mut PacketAssemblerSet<FragKey>,
    context: &Context,
    header: &Ipv4Repr,
    fragment: &Ipv4Fragment,
    payload: &'p [u8],
) -> Option<&'p [u8]>
    requires { length payload.now + 20 < 2 ^ 16 }
    ensures* rests { sem 𝓛
        (RestsDatagram fragments.entry (end_of_slots context.now) header.now fragment.now payload.now result) }
    ensures short { IfSome result (λ octets. length octets.now + 20 < 2 ^ 16) }
{
    if !fragment.is_fragment() {
        return Some(payload);
    }
    rebuilt_by_key(fragments, context, header, fragment, payload)
}

/// Adds a fragment as [`rebuilt`] does, by the key that is made of its header, so that no header is stored for a whole
/// packet.
#[inline(always)]
fn rebuilt_by_key<'s>(
    fragments: &'s mut PacketAssemblerSet<FragKey>,
    context: &Context,
    header: &Ipv4Repr,
    fragment: &Ipv4Fragment,
    payload: &[u8],
) -> Option<&'s [u8]>
    ensures* rests { sem 𝓛 (RestsReassembled fragments.entry (end_of_slots context.now)
        (spec.key_in header.now fragment.now) (spec.fragment_in fragment.now payload.now) result) }
    ensures short { IfSome result (λ octets. length octets.now ≤ 4096) }
{
    let key = FragKey::new(header, fragment.identification);
    let offset = usize::from(fragment.offset) * 8;
    let is_last = !fragment.more_fragments;
    rebuilt(fragments, context, key, payload, offset, is_last)
}

/// Adds a fragment to those received under its key: `payload` from the octet `offset` on, the last one or not. Returns
/// the payload of its datagram if it is complete now.
#[inline(never)]
fn rebuilt<'s>(
    fragments: &'s mut PacketAssemblerSet<FragKey>,
    context: &Context,
    key: FragKey,
    payload: &[u8],
    offset: usize,
    is_last: bool,
) -> Option<&'s [u8]>
    ensures* rests { sem 𝓛 (RestsReassembled fragments.entry (end_of_slots context.now) key
        (stands.fragment offset payload.now is_last) result) }
    ensures short { IfSome result (λ octets. length octets.now ≤ 4096) }
{
    let end = context.now() + context.reassembly_timeout();
    reassemble(fragments, &key, end, payload, offset, is_last)
}

/// The header of a datagram: that of the packet which brought or completed it, with the length of the whole payload.
fn header_of_datagram(header: &Ipv4Repr, octets: &[u8]) -> Ipv4Repr
    requires { length octets.now < 2 ^ 16 }
    ensures { result ≡ spec.datagram_header header.now octets.now }
{
    Ipv4Repr {
        payload_len: octets.len() as u16,
        ..*header
    }
}

/// Processes a packet that was received whole or reassembled, by its header and its payload.
#[inline(always)]
fn process_datagram(
    context: &mut Context,
    sockets: &mut SocketSet<'_>,
    source: HardwareAddress,
    header: &Ipv4Repr,
    payload: &[u8],
    out: &mut FrameBuffer,
)
    requires empty { out.old ≡ [] }
    requires short { length payload.now < 2 ^ 16 }
    requires quotable { 20 + header.now.payload_len < 2 ^ 16 }
    ensures { RefinesReplying out.new (λ H. ProcessesDatagram source header.now H payload.now)
        (host_of context.old sockets.old) (host_of context.new sockets.new) }
{
    let packet = IpRepr::Ipv4(*header);
    let handled_by_raw_socket = raw::deliver(context, sockets, &packet, payload);
    if !context.is_for_host(&packet.dst_addr()) {
        return;
    }
    renew_sender(context, source, &packet);
    process_protocol(
        context,
        sockets,
        header,
        payload,
        handled_by_raw_socket,
        out,
    );
}

/// Whether a packet may come from this address: a unicast address, or the unspecified one of a host without an address.
pub(crate) fn may_be_source(context: &Context, address: &Ipv4Address) -> bool
    ensures { result ≡ addresses.may_be_source (host_of context.now no_sockets).ip_addrs address.now }
{
    context.is_unicast_v4(address) || address.is_unspecified()
}

/// Processes a payload by its protocol; `handled_by_raw_socket` says whether a raw socket accepted the packet. An
/// unknown protocol is answered by an error.
fn process_protocol(
    context: &mut Context,
    sockets: &mut SocketSet<'_>,
    header: &Ipv4Repr,
    payload: &[u8],
    handled_by_raw_socket: bool,
    out: &mut FrameBuffer,
)
    requires empty { out.old ≡ [] }
    requires short { length payload.now < 2 ^ 16 }
    requires quotable { 20 + header.now.payload_len < 2 ^ 16 }
    ensures { RefinesReplying out.new
        (λ H. ProcessesProtocol header.now.next_header handled_by_raw_socket header.now H payload.now)
        (host_of context.old sockets.old) (host_of context.new sockets.new) }
{
    match header.next_header {
        IpProtocol::Icmp => process_icmpv4(context, sockets, header, payload, out),
        IpProtocol::Udp => {
            let handled = handled_by_raw_socket;
            process_udp_in_ipv4(context, sockets, header, payload, handled, out);
        }
        IpProtocol::Tcp => {
            let handled = handled_by_raw_socket;
            process_tcp_in_ipv4(context, sockets, header, payload, handled, out);
        }
        IpProtocol::Igmp => process_igmp_in_ipv4(context, header, payload),
        IpProtocol::HopByHop | IpProtocol::Icmpv6 | IpProtocol::Unknown(_) => {
            refuse_protocol(context, header, payload, handled_by_raw_socket, out);
        }
    }
}

/// Processes the payload of a packet as a UDP datagram. The header as that of either family is made here, so that no
/// packet of another protocol stores it.
#[inline(always)]
fn process_udp_in_ipv4(
    context: &mut Context,
    sockets: &mut SocketSet<'_>,
    header: &Ipv4Repr,
    payload: &[u8],
    handled_by_raw_socket: bool,
    out: &mut FrameBuffer,
)
    requires empty { out.old ≡ [] }
    requires quotable { 20 + header.now.payload_len < 2 ^ 16 }
    ensures { RefinesReplying out.new (λ H. ProcessesUdp handled_by_raw_socket (repr.Ipv4 header.now) H payload.now)
        (host_of context.old sockets.old) (host_of context.new sockets.new) }
{
    let packet = IpRepr::Ipv4(*header);
    process_udp(
        context,
        sockets,
        &packet,
        payload,
        handled_by_raw_socket,
        out,
    );
}

/// Processes the payload of a packet as a TCP segment. The header as that of either family is made here, so that no
/// packet of another protocol stores it.
#[inline(always)]
fn process_tcp_in_ipv4(
    context: &mut Context,
    sockets: &mut SocketSet<'_>,
    header: &Ipv4Repr,
    payload: &[u8],
    handled_by_raw_socket: bool,
    out: &mut FrameBuffer,
)
    requires empty { out.old ≡ [] }
    requires short { length payload.now < 2 ^ 16 }
    ensures { RefinesReplying out.new (λ H. ProcessesTcp handled_by_raw_socket (repr.Ipv4 header.now) H payload.now)
        (host_of context.old sockets.old) (host_of context.new sockets.new) }
{
    let packet = IpRepr::Ipv4(*header);
    process_tcp(
        context,
        sockets,
        &packet,
        payload,
        handled_by_raw_socket,
        out,
    );
}

/// Processes the payload of a packet as an IGMP message, with a copy of the header, so that no packet of another
/// protocol stores one.
#[inline(always)]
fn process_igmp_in_ipv4(context: &mut Context, header: &Ipv4Repr, payload: &[u8])
    ensures { (slots : Slots) (sockets : SocketSet) → ProcessesIgmp header.now
        (host_in context.old slots sockets) payload.now None [] (host_in context.new slots sockets) }
{
    let header = *header;
    process_igmp(context, &header, payload);
}

/// Builds the error in reply to a packet of an unknown protocol, in an empty buffer, with a copy of the header, so that
/// no other packet stores one.
#[inline(always)]
fn refuse_protocol(
    context: &mut Context,
    header: &Ipv4Repr,
    payload: &[u8],
    handled_by_raw_socket: bool,
    out: &mut FrameBuffer,
)
    requires empty { out.old ≡ [] }
    requires quotable { 20 + header.now.payload_len < 2 ^ 16 }
    ensures { RefinesBuilding out.new (Responds (unreachable handled_by_raw_socket
        (host_of context.old no_sockets).ip_addrs ProtoUnreachable header.now payload.now)) context.old context.new }
{
    let header = *header;
    let reason = Icmpv4DstUnreachable::ProtoUnreachable;
    icmpv4_unreachable(
        context,
        reason,
        &header,
        payload,
        handled_by_raw_socket,
        out,
    );
}
