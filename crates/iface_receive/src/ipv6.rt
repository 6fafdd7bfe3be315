//! How an interface processes IPv6 packets (RFC 8200).
ghost use Rattle.std.specs.Prelude.{◌≡◌, ◌<◌, ◌^◌, [], length, true, IfSome, IsNone, IsSome};
ghost use Rattle.ip_address.specs.Protocol.{number_of};
ghost use Rattle.ip_wire.specs.declared.ip_packet.IpRepr.TheVariants as repr;
ghost use Rattle.host_machine.specs.Sockets.Tcp.{ProcessesTcp};
ghost use Rattle.host_machine.specs.Sockets.Udp.{ProcessesUdp};
ghost use Rattle.iface_receive.specs.Ipv6.{BeginsAt, EndsAtOptions};
ghost use Rattle.ip_address.specs.Ipv6.{is_unicast};
ghost use Rattle.host_machine.specs.Context.Host.{SocketSet, no_sockets};
ghost use Rattle.host_machine.specs.Receive.Ipv6 as spec;
ghost use Rattle.host_machine.specs.Receive.Response.{Responds};
ghost use Rattle.iface_context.specs.Refines.{RefinesBuilding, RefinesReplying};
ghost use Rattle.iface_context.specs.Stands.{host_of};

use crate::icmpv6::process_icmpv6;
use crate::udp::process_udp;
use control_wire::Icmpv6ParamProblem;
use iface_context::Context;
use iface_discovery::renewal::renew_sender;
use iface_icmp::hop_by_hop::answer_unknown_option;
use iface_icmp::icmpv6::parameter_problem;
use iface_sockets::raw;
use iface_sockets::tcp::process_tcp;
use ip_wire::emit::FrameBuffer;
use ip_wire::{
    HardwareAddress, IpProtocol, IpRepr, Ipv6HopByHopRepr, Ipv6OptionFailureType, Ipv6Repr,
};
use socket_set::SocketSet;
use sockets::SocketContext;

/// Processes an IPv6 packet received from a hardware address, and builds the response, if any, in an empty buffer. A
/// sender that is known at that address, and sends to the interface alone, is kept for another 60 s.
///
/// Dropped are octets that don't begin with a packet, packets whose source is not unicast, and packets whose
/// destination is not the interface's. Before the destination is tested, the hop-by-hop options are processed, which
/// may end it (RFC 8200 4.2).
pub fn process_ipv6(
    context: &mut Context,
    sockets: &mut SocketSet<'_>,
    source: HardwareAddress,
    octets: &[u8],
    out: &mut FrameBuffer,
)
    requires { out.old ≡ [] }
    ensures { RefinesReplying out.new (λ H. spec.ProcessesIpv6 source H octets.now) (host_of context.old sockets.old)
        (host_of context.new sockets.new) }
{
    let Some((header, payload)) = Ipv6Repr::parse(octets) else {
        return;
    };
    if !header.src_addr.is_unicast() {
        return;
    }
    let Some((protocol, rest)) = payload_of(context, &header, payload, out) else {
        return;
    };
    process_datagram_v6(context, sockets, source, &header, protocol, rest, out);
}

/// The protocol of a packet's payload, and the payload, given what follows the packet's header: after the hop-by-hop
/// options, if it begins with those. `None` if the options end the packet; then the answer, if any, was built in an
/// empty buffer. The first option that is unrecognized and not to be skipped ends it.
#[inline(always)]
fn payload_of<'p>(
    context: &mut Context,
    header: &Ipv6Repr,
    octets: &'p [u8],
    out: &mut FrameBuffer,
) -> Option<(IpProtocol, &'p [u8])>
    requires empty { out.old ≡ [] }
    requires short { length octets.now < 2 ^ 16 }
    ensures begins { IfSome result (λ p. BeginsAt header.now octets.now p.0 p.1.now) }
    ensures short { IfSome result (λ p. length p.1.now < 2 ^ 16) }
    ensures unanswered { IsSome result → out.new ≡ [] }
    ensures kept { IsSome result → context.new ≡ context.old }
    ensures ended { IsNone result → (sockets : SocketSet) →
        RefinesReplying out.new (λ H. EndsAtOptions header.now H octets.now)
        (host_of context.old sockets) (host_of context.new sockets) }
{
    if header.next_header.number() == IpProtocol::HopByHop.number() {
        return payload_behind_options_by_copy(context, header, octets, out);
    }
    Some((header.next_header, octets))
}

/// Finds a payload as [`payload_behind_options`] does, with a copy of the header, so that no packet without options
/// stores one for that call.
#[inline(always)]
fn payload_behind_options_by_copy<'p>(
    context: &mut Context,
    header: &Ipv6Repr,
    octets: &'p [u8],
    out: &mut FrameBuffer,
) -> Option<(IpProtocol, &'p [u8])>
    requires empty { out.old ≡ [] }
    requires short { length octets.now < 2 ^ 16 }
    requires options { number_of header.now.next_header ≡ 0 }
    ensures begins { IfSome result (λ p. BeginsAt header.now octets.now p.0 p.1.now) }
    ensures short { IfSome result (λ p. length p.1.now < 2 ^ 16) }
    ensures unanswered { IsSome result → out.new ≡ [] }
    ensures kept { IsSome result → context.new ≡ context.old }
    ensures ended { IsNone result → (sockets : SocketSet) →
        RefinesReplying out.new (λ H. EndsAtOptions header.now H octets.now)
        (host_of context.old sockets) (host_of context.new sockets) }
{
    let header = *header;
    payload_behind_options(context, &header, octets, out)
}

/// The protocol of a packet's payload, and the payload, given what follows the packet's header, which is hop-by-hop
/// options.
#[inline(never)]
fn payload_behind_options<'p>(
    context: &mut Context,
    header: &Ipv6Repr,
    octets: &'p [u8],
    out: &mut FrameBuffer,
) -> Option<(IpProtocol, &'p [u8])>
    requires empty { out.old ≡ [] }
    requires short { length octets.now < 2 ^ 16 }
    requires options { number_of header.now.next_header ≡ 0 }
    ensures begins { IfSome result (λ p. BeginsAt header.now octets.now p.0 p.1.now) }
    ensures short { IfSome result (λ p. length p.1.now < 2 ^ 16) }
    ensures unanswered { IsSome result → out.new ≡ [] }
    ensures kept { IsSome result → context.new ≡ context.old }
    ensures ended { IsNone result → (sockets : SocketSet) →
        RefinesReplying out.new (λ H. EndsAtOptions header.now H octets.now)
        (host_of context.old sockets) (host_of context.new sockets) }
{
    let (options, rest) = Ipv6HopByHopRepr::parse(octets)?;
    match options.failure_type() {
        Ipv6OptionFailureType::Skip => {
            let protocol = options.next_header;
            Some((protocol, rest))
        }
        failure => {
            answer_unknown_option(context, failure, header, octets, out);
            None
        }
    }
}

/// Processes a packet by its header, by the protocol of its payload, and by its payload.
#[inline(always)]
fn process_datagram_v6(
    context: &mut Context,
    sockets: &mut SocketSet<'_>,
    source: HardwareAddress,
    header: &Ipv6Repr,
    protocol: IpProtocol,
    payload: &[u8],
    out: &mut FrameBuffer,
)
    requires empty { out.old ≡ [] }
    requires short { length payload.now < 2 ^ 16 }
    requires tells { header.now.payload_len < 2 ^ 16 }
    requires from_one { is_unicast header.now.src_addr ≡ true }
    ensures { RefinesReplying out.new (λ H. spec.ProcessesDatagramV6 source header.now protocol H payload.now)
        (host_of context.old sockets.old) (host_of context.new sockets.new) }
{
    let packet = IpRepr::Ipv6(*header);
    if !context.is_for_host(&packet.dst_addr()) {
        return;
    }
    let handled_by_raw_socket = raw::deliver(context, sockets, &packet, payload);
    renew_sender(context, source, &packet);
    process_protocol(
        context,
        sockets,
        header,
        protocol,
        payload,
        handled_by_raw_socket,
        out,
    );
}

/// Processes a payload by its protocol; `handled_by_raw_socket` says whether a raw socket accepted the packet. An
/// unknown protocol is answered by a parameter problem.
fn process_protocol(
    context: &mut Context,
    sockets: &mut SocketSet<'_>,
    header: &Ipv6Repr,
    protocol: IpProtocol,
    payload: &[u8],
    handled_by_raw_socket: bool,
    out: &mut FrameBuffer,
)
    requires empty { out.old ≡ [] }
    requires short { length payload.now < 2 ^ 16 }
    requires tells { header.now.payload_len < 2 ^ 16 }
    requires from_one { is_unicast header.now.src_addr ≡ true }
    ensures { RefinesReplying out.new
        (λ H. spec.ProcessesProtocol protocol handled_by_raw_socket header.now H payload.now)
        (host_of context.old sockets.old) (host_of context.new sockets.new) }
{
    match protocol {
        IpProtocol::Icmpv6 => process_icmpv6(context, sockets, header, payload, out),
        IpProtocol::Udp => {
            let handled = handled_by_raw_socket;
            process_udp_in_ipv6(context, sockets, header, payload, handled, out);
        }
        IpProtocol::Tcp => {
            let handled = handled_by_raw_socket;
            process_tcp_in_ipv6(context, sockets, header, payload, handled, out);
        }
        IpProtocol::Icmp | IpProtocol::Igmp | IpProtocol::HopByHop | IpProtocol::Unknown(_) => {
            refuse_protocol(context, header, payload, handled_by_raw_socket, out);
        }
    }
}

/// Processes the payload of a packet as a UDP datagram. The header as that of either family is made here, so that no
/// packet of another protocol stores it.
#[inline(always)]
fn process_udp_in_ipv6(
    context: &mut Context,
    sockets: &mut SocketSet<'_>,
    header: &Ipv6Repr,
    payload: &[u8],
    handled_by_raw_socket: bool,
    out: &mut FrameBuffer,
)
    requires empty { out.old ≡ [] }
    requires tells { header.now.payload_len < 2 ^ 16 }
    ensures { RefinesReplying out.new (λ H. ProcessesUdp handled_by_raw_socket (repr.Ipv6 header.now) H payload.now)
        (host_of context.old sockets.old) (host_of context.new sockets.new) }
{
    let packet = IpRepr::Ipv6(*header);
    process_udp(
        context,
        sockets,
        &packet,
        payload,
        handled_by_raw_socket,
        out,
    );
}

/// Processes the payload of a packet as a TCP segment. The header as that of either family is made here, so that no
/// packet of another protocol stores it.
#[inline(always)]
fn process_tcp_in_ipv6(
    context: &mut Context,
    sockets: &mut SocketSet<'_>,
    header: &Ipv6Repr,
    payload: &[u8],
    handled_by_raw_socket: bool,
    out: &mut FrameBuffer,
)
    requires empty { out.old ≡ [] }
    requires short { length payload.now < 2 ^ 16 }
    ensures { RefinesReplying out.new (λ H. ProcessesTcp handled_by_raw_socket (repr.Ipv6 header.now) H payload.now)
        (host_of context.old sockets.old) (host_of context.new sockets.new) }
{
    let packet = IpRepr::Ipv6(*header);
    process_tcp(
        context,
        sockets,
        &packet,
        payload,
        handled_by_raw_socket,
        out,
    );
}

/// Builds the error as [`unrecognized_next_header`] does, with a copy of the header, so that no other packet stores
/// one.
#[inline(always)]
fn refuse_protocol(
    context: &mut Context,
    header: &Ipv6Repr,
    payload: &[u8],
    handled_by_raw_socket: bool,
    out: &mut FrameBuffer,
)
    requires { out.old ≡ [] }
    ensures { RefinesBuilding out.new (Responds (spec.unrecognized_next_header handled_by_raw_socket
        (host_of context.old no_sockets).ip_addrs header.now payload.now)) context.old context.new }
{
    let header = *header;
    unrecognized_next_header(context, &header, payload, handled_by_raw_socket, out);
}

/// Builds the error in reply to a packet of an unknown protocol, in an empty buffer, unless a raw socket accepted the
/// packet.
#[inline(never)]
fn unrecognized_next_header(
    context: &mut Context,
    header: &Ipv6Repr,
    payload: &[u8],
    handled_by_raw_socket: bool,
    out: &mut FrameBuffer,
)
    requires { out.old ≡ [] }
    ensures { RefinesBuilding out.new (Responds (spec.unrecognized_next_header handled_by_raw_socket
        (host_of context.old no_sockets).ip_addrs header.now payload.now)) context.old context.new }
{
    if !handled_by_raw_socket {
        let reason = Icmpv6ParamProblem::UnrecognizedNxtHdr;
        parameter_problem(context, reason, header, payload, out);
    }
}
