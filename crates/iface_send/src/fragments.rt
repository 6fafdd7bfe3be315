//! Fragmentation of packets that exceed the device's IP MTU (RFC 791 3.2).
ghost use Rattle.std.specs.Prelude.{◌≡◌, ◌<◌, ◌≤◌, [], Ok};
ghost use Rattle.net_base.specs.Checksum.{ip_mtu_of};
ghost use Rattle.ip_address.specs.Hardware.{IsOf};
ghost use Rattle.host_machine.specs.Context.Host.{no_sockets};
ghost use Rattle.host_machine.specs.Packet.Packet.{IsWritablePayload};
ghost use Rattle.host_machine.specs.Packet.Packet as value;
ghost use Rattle.host_machine.specs.Send.Dispatch as spec;
ghost use Rattle.host_machine.specs.Send.Fragments as due;
ghost use Rattle.iface_context.specs.Details.PacketValues as value_of;
ghost use Rattle.iface_context.specs.Refines.{RefinesBuilding, RefinesTelling};
ghost use Rattle.iface_context.specs.Details.Pieces.{PieceHasTurn};
ghost use Rattle.iface_context.specs.Stands.{host_of};

use crate::transmit::send_frame;
use iface_context::context::Context;
use iface_context::packet::PacketV4;
use iface_context::payload::IpPayload;
use iface_context::pieces::{emit_next_piece, fragment_packet};
use ip_wire::HardwareAddress;
use ip_wire::emit::FrameBuffer;
use net_base::phy::Device;
use net_base::time::Instant;
use sockets::SocketContext;

/// Sends the next pending fragment, if there is one and the device grants a transmit token. The others stay pending.
pub fn ipv4_egress<D: Device>(context: &mut Context, device: &mut D, out: &mut FrameBuffer)
    ensures { RefinesTelling D.tells device.old device.new (PieceHasTurn context.old) context.new }
{
    if !context.has_pending_fragment() {
        return;
    }
    if !device.transmit(context.now()) {
        return;
    }
    out.clear();
    emit_next_piece(context, out);
    send_frame(device, out);
}

/// When the pending fragment is due: immediately, if there is one.
pub fn piece_poll_at(context: &Context) -> Option<Instant>
    ensures { result ≡ due.at_once (host_of context.now no_sockets).left }
{
    if context.has_pending_fragment() {
        Some(Instant::ZERO)
    } else {
        None
    }
}

/// Fragments a packet that exceeds the device's IP MTU and has at most 4,096 octets. Builds the frame of the first
/// fragment in an empty buffer, and keeps the others pending in place of any that were.
#[inline(never)]
pub(crate) fn emit_fragmented(
    context: &mut Context,
    identification: u16,
    destination: &HardwareAddress,
    packet: &PacketV4<IpPayload<'_>>,
    out: &mut FrameBuffer,
)
    requires of_medium { IsOf (host_of context.old no_sockets).capabilities.medium destination.now }
    requires empty { out.old ≡ [] }
    requires writable { IsWritablePayload (value_of.payload packet.now.payload) }
    requires long { ip_mtu_of (host_of context.old no_sockets).capabilities
        < value.total_len (value.Ipv4 (value_of.packet_v4 value_of.payload packet.now)) }
    requires fits { value.total_len (value.Ipv4 (value_of.packet_v4 value_of.payload packet.now)) ≤ 4096 }
    ensures { RefinesBuilding out.new (spec.Emits identification
        (value.Ipv4 (value_of.packet_v4 value_of.payload packet.now)) destination.now (Ok tt)) context.old context.new }
{
    fragment_packet(context, identification, destination, packet, out);
    out.clear();
    emit_next_piece(context, out);
}
