//! Requests for the hardware address of a neighbour (RFC 826, packet generation; RFC 4861 7.2.2).
ghost use Rattle.std.specs.Prelude.{◌≡◌, ◌≤◌, [], length, Err};
ghost use Rattle.net_base.specs.Checksum.{ip_mtu_of};
ghost use Rattle.ip_address.specs.declared.ip.IpAddress.TheVariants.{Ipv4, Ipv6};
ghost use Rattle.host_machine.specs.Context.Host.{no_sockets};
ghost use Rattle.host_machine.specs.Discovery.Arp.{request_for};
ghost use Rattle.host_machine.specs.Discovery.Ndisc.{solicitation_for};
ghost use Rattle.host_machine.specs.Packet.Frame.{ip_frame};
ghost use Rattle.host_machine.specs.Packet.Packet.{IsFormed, IsWritable};
ghost use Rattle.host_machine.specs.Packet.Packet as value;
ghost use Rattle.host_machine.specs.Send.Requests as spec;
ghost use Rattle.iface_context.specs.Details.PacketValues as value_of;
ghost use Rattle.iface_context.specs.Refines.{RefinesBuilding};
ghost use Rattle.iface_context.specs.Stands.{host_of};

use crate::hops::group_address_v6;
use control_wire::{Icmpv6Repr, NdiscRepr};
use host_machine::DispatchError;
use iface_context::context::Context;
use iface_context::identification::take_id;
use iface_context::neighbors::limit_rate;
use iface_context::packet::{AnyPacket, Packet, PacketV6, emit_arp, emit_link_header};
use iface_context::payload::IpPayload;
use ip_wire::emit::FrameBuffer;
use ip_wire::{
    ArpOperation, ArpRepr, EthernetAddress, HardwareAddress, IpAddress, Ipv4Address, Ipv6Address,
};

/// Builds the request for the hardware address of a neighbour, and silences discovery for a second. Without an address
/// to ask from, nothing is built and discovery isn't silenced. Returns why the packet for the neighbour can't be sent
/// yet. Copies are made for the call, so that a packet that is sent stores none.
#[inline(always)]
pub fn discover_by_copy(
    context: &mut Context,
    own: EthernetAddress,
    hop: &IpAddress,
    out: &mut FrameBuffer,
) -> DispatchError
    requires empty { out.old ≡ [] }
    ensures { RefinesBuilding out.new (spec.Discovers own hop.now (Err result)) context.old context.new }
{
    let (own, hop) = (own, *hop);
    discover_neighbor(context, own, &hop, out)
}

/// Builds the request for the hardware address of a neighbour, and silences discovery for a second. Without an address
/// to ask from, nothing is built and discovery isn't silenced. Returns why the packet for the neighbour can't be sent
/// yet.
fn discover_neighbor(
    context: &mut Context,
    own: EthernetAddress,
    hop: &IpAddress,
    out: &mut FrameBuffer,
) -> DispatchError
    requires empty { out.old ≡ [] }
    ensures { RefinesBuilding out.new (spec.Discovers own hop.now (Err result)) context.old context.new }
{
    match hop {
        IpAddress::Ipv4(target) => send_arp_request(context, own, target, out),
        IpAddress::Ipv6(target) => send_neighbor_solicit(context, own, target, out),
    }
}

/// Builds the ARP request for the hardware address of an IPv4 neighbour, and silences discovery for a second. Without
/// an IPv4 address to ask from, nothing is built and discovery isn't silenced. Returns why the packet for the neighbour
/// can't be sent yet.
#[inline(always)]
fn send_arp_request(
    context: &mut Context,
    own: EthernetAddress,
    target: &Ipv4Address,
    out: &mut FrameBuffer,
) -> DispatchError
    requires empty { out.old ≡ [] }
    ensures { RefinesBuilding out.new (spec.Discovers own (Ipv4 target.now) (Err result)) context.old context.new }
{
    let Some(source) = context.get_source_address_ipv4(target) else {
        return DispatchError::NoRoute;
    };
    emit_arp(&request_for(own, source, *target), out);
    limit_rate(context);
    DispatchError::NeighborPending
}

/// Builds the neighbour solicitation for the hardware address of an IPv6 neighbour, and silences discovery for a
/// second. The solicitation takes an identification of its own. Returns why the packet for the neighbour can't be sent
/// yet.
#[inline(never)]
fn send_neighbor_solicit(
    context: &mut Context,
    own: EthernetAddress,
    target: &Ipv6Address,
    out: &mut FrameBuffer,
) -> DispatchError
    requires empty { out.old ≡ [] }
    ensures { RefinesBuilding out.new (spec.Discovers own (Ipv6 target.now) (Err result)) context.old context.new }
{
    let source = context.get_source_address_ipv6(target);
    let group = group_address_v6(&target.solicited_node());
    let packet = solicitation_for(own, source, *target);
    emit_frame(context, &HardwareAddress::Ethernet(group), &packet, out);
    let _ = take_id(context);
    limit_rate(context);
    DispatchError::NeighborPending
}

/// The neighbour solicitation for the hardware address of a target (RFC 4861 7.2.2).
fn solicitation_for(
    own: EthernetAddress,
    source: Ipv6Address,
    target: Ipv6Address,
) -> Packet<'static>
    ensures { value_of.packet result ≡ solicitation_for own source target }
{
    let message = NdiscRepr::NeighborSolicit {
        target_addr: target,
        lladdr: Some(own),
    };
    Packet::Ipv6(PacketV6 {
        src_addr: source,
        dst_addr: target.solicited_node(),
        hop_limit: 255,
        payload: IpPayload::Icmpv6(Icmpv6Repr::Ndisc(message), &[]),
    })
}

/// The ARP request for the hardware address of a target.
fn request_for(own: EthernetAddress, source: Ipv4Address, target: Ipv4Address) -> ArpRepr
    ensures { result ≡ request_for own source target }
{
    ArpRepr {
        operation: ArpOperation::Request,
        source_hardware_addr: own,
        source_protocol_addr: source,
        target_hardware_addr: EthernetAddress::BROADCAST,
        target_protocol_addr: target,
    }
}

/// Builds the frame of a packet that fits the device's IP MTU.
#[inline(always)]
fn emit_frame<Q: AnyPacket>(
    context: &Context,
    destination: &HardwareAddress,
    packet: &Q,
    out: &mut FrameBuffer,
)
    requires empty { out.old ≡ [] }
    requires writable { IsWritable (Q.stands_for packet.now) }
    requires fits { value.total_len (Q.stands_for packet.now) ≤ ip_mtu_of (host_of context.now no_sockets).capabilities }
    ensures items { out.new ≡ ip_frame (host_of context.now no_sockets) destination.now (Q.stands_for packet.now) }
    ensures some { 20 ≤ length out.new }
    ensures formed { IsFormed (Q.stands_for packet.now) }
{
    emit_link_header(
        &context.hardware_addr(),
        destination,
        packet.ethertype(),
        out,
    );
    packet.emit(context.lent_capabilities(), out);
}
