//! The dispatch of an IP packet: the frame that is built for it, or the request for the hardware address of its next hop
//! (RFC 1122 3.3.1, RFC 826).
ghost use Rattle.std.specs.Prelude.{◌≡◌, ◌<◌, false, [], IfOk, IfErr, OnOk};
ghost use Rattle.net_base.specs.Checksum.{ip_mtu_of};
ghost use Rattle.ip_address.specs.Hardware.{IsOf};
ghost use Rattle.ip_address.specs.Ip.{is_unspecified};
ghost use Rattle.ip_address.specs.declared.ip.IpAddress.TheVariants.{Ipv4, Ipv6};
ghost use Rattle.host_machine.specs.Context.Host.{no_sockets};
ghost use Rattle.host_machine.specs.Packet.Packet.{IsWritable};
ghost use Rattle.host_machine.specs.Packet.Packet as value;
ghost use Rattle.host_machine.specs.Send.Dispatch as spec;
ghost use Rattle.iface_context.specs.Details.PacketValues as value_of;
ghost use Rattle.iface_send.specs.Destination.{IsBegun, IsReached, IsRefused};
ghost use Rattle.iface_context.specs.Refines.{RefinesBuilding};
ghost use Rattle.iface_context.specs.Stands.{host_of};

use crate::fragments::emit_fragmented;
use crate::hops::{multicast_hardware_addr, next_hop};
use crate::requests::discover_by_copy;
use fragmentation::fragmenter::FRAGMENTATION_BUFFER_SIZE;
use host_machine::DispatchError;
use iface_context::context::Context;
use iface_context::identification::take_id;
use iface_context::neighbors::lookup;
use iface_context::packet::{AnyPacket, Packet, emit_link_header};
use iface_tables::neighbor::Answer;
use ip_wire::emit::FrameBuffer;
use ip_wire::{EthernetProtocol, HardwareAddress, IpAddress, Ipv4Address, Ipv6Address};

/// Builds the frame of an IP packet for the next hop towards its destination, in an empty buffer. If the buffer stays
/// empty, there is nothing to send. A header that the packet quotes must describe a packet of at most 65,535 octets.
/// Returns
///
/// - `Ok` if the caller is done with the packet: its frame (or its first fragment's) is in `out`, or it was dropped. It
///   is dropped if its destination is unspecified, or if it needs fragmentation and is longer than 4,096 octets or
///   IPv6.
/// - `NoRoute` if there is no next hop, or no address of the interface to ask for it from.
/// - `NeighborPending` if the hardware address of the next hop is unknown. Then the request for it is built, unless a
///   request was sent less than a second ago.
pub fn dispatch<Q: AnyPacket>(
    context: &mut Context,
    packet: &Q,
    out: &mut FrameBuffer,
) -> Result<(), DispatchError>
    requires empty { out.old ≡ [] }
    requires writable { IsWritable (Q.stands_for packet.now) }
    ensures { RefinesBuilding out.new (spec.Dispatches (Q.stands_for packet.now) result) context.old context.new }
{
    let dst_addr = packet.dst_addr();
    if dst_addr.is_unspecified() {
        return Ok(());
    }
    let identification = take_id(context);
    if packet.total_len() > context.ip_mtu() {
        return dispatch_long_by_copy(context, identification, packet, out);
    }
    begin_frame(context, &dst_addr, out)?;
    packet.emit(context.lent_capabilities(), out);
    Ok(())
}

/// Begins the frame of a packet for an address, in an empty buffer: appends the header of the link, if it has one. If
/// the hardware address of the next hop is unknown, the request for it is built instead. Returns why the packet can't
/// be sent yet.
#[inline(always)]
fn begin_frame(
    context: &mut Context,
    dst_addr: &IpAddress,
    out: &mut FrameBuffer,
) -> Result<(), DispatchError>
    requires empty { out.old ≡ [] }
    requires specified { is_unspecified dst_addr.now ≡ false }
    ensures begun { OnOk result (IsBegun dst_addr.now context.old out.new) }
    ensures unchanged { OnOk result (context.new ≡ context.old) }
    ensures refused { IfErr result (λ error. IsRefused error dst_addr.now out.new context.old context.new) }
{
    match dst_addr {
        IpAddress::Ipv4(dst_addr) => begin_frame_v4(context, *dst_addr, out),
        IpAddress::Ipv6(dst_addr) => begin_frame_v6(context, *dst_addr, out),
    }
}

/// Begins the frame of a packet for an IPv4 address, as [`begin_frame`] does.
#[inline(never)]
fn begin_frame_v4(
    context: &mut Context,
    dst_addr: Ipv4Address,
    out: &mut FrameBuffer,
) -> Result<(), DispatchError>
    requires empty { out.old ≡ [] }
    requires specified { is_unspecified (Ipv4 dst_addr) ≡ false }
    ensures begun { OnOk result (IsBegun (Ipv4 dst_addr) context.old out.new) }
    ensures unchanged { OnOk result (context.new ≡ context.old) }
    ensures refused { IfErr result (λ error. IsRefused error (Ipv4 dst_addr) out.new context.old context.new) }
{
    let destination = destination_of(context, &IpAddress::Ipv4(dst_addr), out)?;
    emit_link_header(
        &context.hardware_addr(),
        &destination,
        EthernetProtocol::Ipv4,
        out,
    );
    Ok(())
}

/// Begins the frame of a packet for an IPv6 address, as [`begin_frame`] does.
#[inline(never)]
fn begin_frame_v6(
    context: &mut Context,
    dst_addr: Ipv6Address,
    out: &mut FrameBuffer,
) -> Result<(), DispatchError>
    requires empty { out.old ≡ [] }
    requires specified { is_unspecified (Ipv6 dst_addr) ≡ false }
    ensures begun { OnOk result (IsBegun (Ipv6 dst_addr) context.old out.new) }
    ensures unchanged { OnOk result (context.new ≡ context.old) }
    ensures refused { IfErr result (λ error. IsRefused error (Ipv6 dst_addr) out.new context.old context.new) }
{
    let destination = destination_of(context, &IpAddress::Ipv6(dst_addr), out)?;
    emit_link_header(
        &context.hardware_addr(),
        &destination,
        EthernetProtocol::Ipv6,
        out,
    );
    Ok(())
}

/// The hardware address that a packet for an address is sent to: none on a medium without hardware addresses; over
/// Ethernet that of a multicast or broadcast address, otherwise that of the next hop. If that is unknown, the request
/// for it is built, in an empty buffer. Returns why the packet can't be sent yet.
#[inline(always)]
fn destination_of(
    context: &mut Context,
    dst_addr: &IpAddress,
    out: &mut FrameBuffer,
) -> Result<HardwareAddress, DispatchError>
    requires empty { out.old ≡ [] }
    requires specified { is_unspecified dst_addr.now ≡ false }
    ensures reached { IfOk result (λ destination. IsReached context.old dst_addr.now destination) }
    ensures unchanged { OnOk result ((context.new ≡ context.old) × (out.new ≡ [])) }
    ensures refused { IfErr result (λ error. IsRefused error dst_addr.now out.new context.old context.new) }
{
    let HardwareAddress::Ethernet(own) = context.hardware_addr() else {
        return Ok(HardwareAddress::Ip);
    };
    if let Some(many) = multicast_hardware_addr(context, dst_addr) {
        return Ok(HardwareAddress::Ethernet(many));
    }
    let Some(hop) = next_hop(context, dst_addr) else {
        return Err(DispatchError::NoRoute);
    };
    match lookup(context, &hop) {
        Answer::Found(destination) => Ok(destination),
        Answer::RateLimited => Err(DispatchError::NeighborPending),
        Answer::NotFound => { Err(discover_by_copy(context, own, &hop, out)) }
    }
}

/// Dispatches a packet as [`dispatch_long`] does, with a copy of it, so that a packet that fits stores none for that
/// call.
#[inline(always)]
fn dispatch_long_by_copy<Q: AnyPacket>(
    context: &mut Context,
    identification: u16,
    packet: &Q,
    out: &mut FrameBuffer,
) -> Result<(), DispatchError>
    requires empty { out.old ≡ [] }
    requires specified { is_unspecified (spec.destination_of (Q.stands_for packet.now)) ≡ false }
    requires writable { IsWritable (Q.stands_for packet.now) }
    requires long { ip_mtu_of (host_of context.old no_sockets).capabilities
        < value.total_len (Q.stands_for packet.now) }
    ensures { RefinesBuilding out.new
        (spec.SendsOver identification (host_of context.old no_sockets).hardware_addr (Q.stands_for packet.now) result)
        context.old context.new }
{
    dispatch_long(context, identification, &packet.as_packet(), out)
}

/// Dispatches a packet that exceeds the device's IP MTU: builds the frame of its first fragment, if it may be
/// fragmented, or drops it. If the hardware address of the next hop is unknown, the request for it is built instead.
#[inline(never)]
fn dispatch_long(
    context: &mut Context,
    identification: u16,
    packet: &Packet<'_>,
    out: &mut FrameBuffer,
) -> Result<(), DispatchError>
    requires empty { out.old ≡ [] }
    requires specified { is_unspecified (spec.destination_of (value_of.packet packet.now)) ≡ false }
    requires writable { IsWritable (value_of.packet packet.now) }
    requires long { ip_mtu_of (host_of context.old no_sockets).capabilities
        < value.total_len (value_of.packet packet.now) }
    ensures { RefinesBuilding out.new
        (spec.SendsOver identification (host_of context.old no_sockets).hardware_addr (value_of.packet packet.now) result)
        context.old context.new }
{
    let destination = destination_of(context, &packet.dst_addr(), out)?;
    emit_long_packet(context, identification, &destination, packet, out);
    Ok(())
}

/// Builds the frame of the first fragment of a packet that exceeds the device's IP MTU, if it may be fragmented;
/// otherwise drops the packet.
#[inline(never)]
fn emit_long_packet(
    context: &mut Context,
    identification: u16,
    destination: &HardwareAddress,
    packet: &Packet<'_>,
    out: &mut FrameBuffer,
)
    requires of_medium { IsOf (host_of context.old no_sockets).capabilities.medium destination.now }
    requires empty { out.old ≡ [] }
    requires writable { IsWritable (value_of.packet packet.now) }
    requires long { ip_mtu_of (host_of context.old no_sockets).capabilities
        < value.total_len (value_of.packet packet.now) }
    ensures { RefinesBuilding out.new
        (spec.Emits identification (value_of.packet packet.now) destination.now (Ok tt)) context.old context.new }
{
    let total_len = packet.total_len();
    if let Packet::Ipv4(packet) = packet {
        if total_len <= FRAGMENTATION_BUFFER_SIZE {
            emit_fragmented(context, identification, destination, packet, out);
        }
    }
}
