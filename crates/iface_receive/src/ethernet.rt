//! How an interface processes frames, by their link-layer header (RFC 894, RFC 1122 2.4).
ghost use Rattle.std.specs.Prelude.{◌≡◌, ◌<◌, [], length};
ghost use Rattle.host_machine.specs.Receive.Ethernet.{ProcessesFrame, ProcessesEthernet};
ghost use Rattle.host_machine.specs.Receive.Ethernet.{ProcessesIp, ProcessesEthertype, is_for};
ghost use Rattle.host_machine.specs.Context.Host.{no_sockets};
ghost use Rattle.iface_context.specs.Stands.{host_of};
ghost use Rattle.iface_context.specs.Refines.{HostRefinesReplying, StandsFor};

use crate::ipv4::process_ipv4;
use crate::ipv6::process_ipv6;
use fragmentation::{FragKey, PacketAssemblerSet};
use iface_context::Context;
use iface_discovery::arp::process_arp;
use ip_wire::emit::FrameBuffer;
use ip_wire::{EthernetAddress, EthernetProtocol, EthernetRepr, HardwareAddress};
use socket_set::SocketSet;

/// Processes a frame by the medium, and builds the frame in response, if any, in an empty buffer. The frame must not be
/// empty. A frame that is dropped changes nothing.
#[inline(always)]
pub fn process_frame(
    context: &mut Context,
    sockets: &mut SocketSet<'_>,
    fragments: &mut PacketAssemblerSet<FragKey>,
    frame: &[u8],
    out: &mut FrameBuffer,
)
    requires empty { out.old ≡ [] }
    requires some { 0 < length frame.now }
    ensures { HostRefinesReplying out.new (λ H. ProcessesFrame H.hardware_addr H frame.now)
        (StandsFor context.old fragments.old sockets.old) (StandsFor context.new fragments.new sockets.new) }
{
    match context.hardware_addr() {
        HardwareAddress::Ethernet(own) => process_ethernet(
            context, sockets, fragments, own, frame, out,
        ),
        HardwareAddress::Ip => process_ip(context, sockets, fragments, frame, out),
    }
}

/// Processes a packet on a medium without hardware addresses, by its IP version, and builds the response, if any, in an
/// empty buffer. The packet must not be empty.
#[inline(always)]
pub fn process_ip(
    context: &mut Context,
    sockets: &mut SocketSet<'_>,
    fragments: &mut PacketAssemblerSet<FragKey>,
    packet: &[u8],
    out: &mut FrameBuffer,
)
    requires empty { out.old ≡ [] }
    requires some { 0 < length packet.now }
    ensures { HostRefinesReplying out.new (λ H. ProcessesIp H packet.now)
        (StandsFor context.old fragments.old sockets.old) (StandsFor context.new fragments.new sockets.new) }
{
    let source = HardwareAddress::Ip;
    match packet[0] / 16 {
        4 => process_ipv4(context, sockets, fragments, source, packet, out),
        6 => process_ipv6(context, sockets, source, packet, out),
        _ => {}
    }
}

/// Processes an Ethernet frame for the interface: broadcast, multicast, or sent to its own hardware address (RFC 1122
/// 2.4). Builds the response, if any, in an empty buffer. The frame is dropped if it is shorter than its 14-octet
/// header, or for another interface.
#[inline(always)]
pub fn process_ethernet(
    context: &mut Context,
    sockets: &mut SocketSet<'_>,
    fragments: &mut PacketAssemblerSet<FragKey>,
    own: EthernetAddress,
    frame: &[u8],
    out: &mut FrameBuffer,
)
    requires empty { out.old ≡ [] }
    requires own { (host_of context.old no_sockets).hardware_addr ≡ HardwareAddress.Ethernet own }
    ensures { HostRefinesReplying out.new (λ H. ProcessesEthernet own H frame.now)
        (StandsFor context.old fragments.old sockets.old) (StandsFor context.new fragments.new sockets.new) }
{
    let Some((header, payload)) = EthernetRepr::parse(frame) else {
        return;
    };
    if is_for(&own, &header.dst_addr) {
        process_ethertype(context, sockets, fragments, own, &header, payload, out);
    }
}

/// Processes the payload of a frame by its EtherType.
#[inline(always)]
fn process_ethertype(
    context: &mut Context,
    sockets: &mut SocketSet<'_>,
    fragments: &mut PacketAssemblerSet<FragKey>,
    own: EthernetAddress,
    header: &EthernetRepr,
    payload: &[u8],
    out: &mut FrameBuffer,
)
    requires empty { out.old ≡ [] }
    requires own { (host_of context.old no_sockets).hardware_addr ≡ HardwareAddress.Ethernet own }
    ensures { HostRefinesReplying out.new
        (λ H. ProcessesEthertype own header.now.src_addr H header.now.ethertype payload.now)
        (StandsFor context.old fragments.old sockets.old) (StandsFor context.new fragments.new sockets.new) }
{
    match header.ethertype {
        EthernetProtocol::Arp => {
            // A copy, so that other frames don't store the address for this call.
            let own = own;
            process_arp(context, own, payload, out);
        }
        EthernetProtocol::Ipv4 => {
            let source = HardwareAddress::Ethernet(header.src_addr);
            process_ipv4(context, sockets, fragments, source, payload, out);
        }
        EthernetProtocol::Ipv6 => {
            let source = HardwareAddress::Ethernet(header.src_addr);
            process_ipv6(context, sockets, source, payload, out);
        }
        EthernetProtocol::Unknown(_) => {}
    }
}

/// Whether a frame to this address is for the interface of an own address: broadcast, multicast, or that address.
#[inline(always)]
pub(crate) fn is_for(own: &EthernetAddress, destination: &EthernetAddress) -> bool
    ensures { result ≡ is_for own.now destination.now }
{
    destination.is_broadcast() || destination.is_multicast() || destination == own
}
