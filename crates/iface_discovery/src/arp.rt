//! How an interface processes ARP packets (RFC 826).
ghost use Rattle.std.specs.Prelude.{◌≡◌, [], true};
ghost use Rattle.ip_address.specs.EthernetAddress as ethernet;
ghost use Rattle.ip_address.specs.Ipv4 as ipv4;
ghost use Rattle.host_machine.specs.Context.Host.{SocketSet, no_sockets};
ghost use Rattle.host_machine.specs.Discovery.Arp.{ProcessesArp, answer_by, is_for_us, reply_to};
ghost use Rattle.host_machine.specs.Receive.Response.{Responds};
ghost use Rattle.iface_context.specs.Refines.{RefinesBuilding, RefinesReplying};
ghost use Rattle.iface_context.specs.Stands.{host_of};

use iface_context::Context;
use iface_context::neighbors::fill_neighbor;
use iface_context::packet::emit_arp;
use ip_wire::emit::FrameBuffer;
use ip_wire::{ArpOperation, ArpRepr, EthernetAddress, HardwareAddress, IpAddress};

/// Processes the payload of an ARP frame (RFC 826). If the target is one of the interface's addresses, and the sender
/// is unicast and in one of its networks, the sender is learnt for 60 s. Then the reply to a request is built in an
/// empty buffer. Any other packet changes nothing.
pub fn process_arp(
    context: &mut Context,
    own: EthernetAddress,
    payload: &[u8],
    out: &mut FrameBuffer,
)
    requires empty { out.old ≡ [] }
    requires own { (host_of context.old no_sockets).hardware_addr ≡ HardwareAddress.Ethernet own }
    ensures { (sockets : SocketSet) → RefinesReplying out.new (λ H. ProcessesArp own H payload.now)
        (host_of context.old sockets) (host_of context.new sockets) }
{
    let Some(packet) = ArpRepr::parse(payload) else {
        return;
    };
    if !is_for_us(context, &packet) {
        return;
    }
    fill_neighbor(
        context,
        IpAddress::Ipv4(packet.source_protocol_addr),
        HardwareAddress::Ethernet(packet.source_hardware_addr),
    );
    answer(context, own, &packet, out);
}

/// Whether a packet's target is one of the interface's addresses, and its sender is unicast and in one of its networks.
fn is_for_us(context: &Context, packet: &ArpRepr) -> bool
    ensures is_for_us { result ≡ is_for_us (host_of context.now no_sockets) packet.now }
    ensures protocol { result ≡ true → ipv4.is_unicast packet.now.source_protocol_addr ≡ true }
    ensures link { result ≡ true → ethernet.is_unicast packet.now.source_hardware_addr ≡ true }
{
    context.has_ip_addr(&IpAddress::Ipv4(packet.target_protocol_addr))
        && packet.source_protocol_addr.is_unicast()
        && packet.source_hardware_addr.is_unicast()
        && context.in_same_network(&IpAddress::Ipv4(packet.source_protocol_addr))
}

/// Builds the reply to a request; a reply is not answered.
fn answer(context: &Context, own: EthernetAddress, packet: &ArpRepr, out: &mut FrameBuffer)
    requires { out.old ≡ [] }
    ensures { RefinesBuilding out.new
        (Responds (answer_by packet.now.operation own packet.now)) context.now context.now }
{
    match packet.operation {
        ArpOperation::Request => emit_arp(&reply_to(own, packet), out),
        ArpOperation::Reply => {}
    }
}

/// The reply to a request: sender and target are swapped, and the interface gives its own hardware address.
fn reply_to(own: EthernetAddress, packet: &ArpRepr) -> ArpRepr
    ensures { result ≡ reply_to own packet.now }
{
    ArpRepr {
        operation: ArpOperation::Reply,
        source_hardware_addr: own,
        source_protocol_addr: packet.target_protocol_addr,
        target_hardware_addr: packet.source_hardware_addr,
        target_protocol_addr: packet.source_protocol_addr,
    }
}
