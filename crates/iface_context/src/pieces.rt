//! The pending fragments of a packet (RFC 791 3.2).
ghost use Rattle.std.specs.Prelude.{◌≡◌, ◌<◌, ◌≤◌, false, [], length};
ghost use Rattle.net_base.specs.Checksum.{ip_mtu_of};
ghost use Rattle.ip_address.specs.Hardware.{IsOf};
ghost use Rattle.fragmentation.specs.Cuts.{HasForm, pieces_of};
ghost use Rattle.fragmentation.specs.Details.Pending.{is_nil};
ghost use Rattle.host_machine.specs.Context.Host.{SocketSet, no_sockets, with_left};
ghost use Rattle.host_machine.specs.Packet.Packet.{HasPorts, IsWritablePayload};
ghost use Rattle.host_machine.specs.Packet.Packet as value;
ghost use Rattle.host_machine.specs.Context.Pieces as spec;
ghost use Rattle.iface_context.specs.Details.PacketValues as value_of;
ghost use Rattle.iface_context.specs.Refines.{RefinesBuilding};
ghost use Rattle.iface_context.specs.Details.Pieces.{EmitsNextPiece};
ghost use Rattle.iface_context.specs.Stands.{host_of};

use crate::context::Context;
use crate::packet::{PacketV4, emit_link_header};
use crate::payload::{IpPayload, Payload};
use ip_wire::emit::FrameBuffer;
use ip_wire::ipv4_packet::HEADER_LEN;
use ip_wire::{EthernetProtocol, HardwareAddress, IpRepr};

/// Builds the frame of the next pending fragment in an empty buffer; the others stay pending. There must be one.
pub fn emit_next_piece(context: &mut Context, out: &mut FrameBuffer)
    requires empty { out.old ≡ [] }
    requires some { is_nil (host_of context.old no_sockets).left ≡ false }
    ensures { RefinesBuilding out.new EmitsNextPiece context.old context.new }
{
    let Some(piece) = context.fragmenter.peek() else {
        return;
    };
    let destination = &piece.destination;
    emit_link_header(
        &context.hardware_addr,
        destination,
        EthernetProtocol::Ipv4,
        out,
    );
    let summed = context.capabilities.checksum.ipv4.tx();
    piece.header.emit(&piece.fragment, summed, out);
    out.append(piece.octets);
    context.fragmenter.advance();
}

/// Makes all fragments of a packet pending, in place of any that were. The header of its protocol is built in an empty
/// buffer.
pub fn fragment_packet(
    context: &mut Context,
    identification: u16,
    destination: &HardwareAddress,
    packet: &PacketV4<IpPayload<'_>>,
    scratch: &mut FrameBuffer,
)
    requires of_medium { IsOf (host_of context.old no_sockets).capabilities.medium destination.now }
    requires empty { scratch.old ≡ [] }
    requires writable { IsWritablePayload (value_of.payload packet.now.payload) }
    requires some { 20 < value.total_len (value.Ipv4 (value_of.packet_v4 value_of.payload packet.now)) }
    requires long { ip_mtu_of (host_of context.old no_sockets).capabilities
        < value.total_len (value.Ipv4 (value_of.packet_v4 value_of.payload packet.now)) }
    requires fits { value.total_len (value.Ipv4 (value_of.packet_v4 value_of.payload packet.now)) ≤ 4096 }
    ensures left { (sockets : SocketSet) → host_of context.new sockets ≡ with_left (host_of context.old sockets)
        (pieces_of (spec.datagram_of (host_of context.old sockets) destination.now identification
        (value_of.packet_v4 value_of.payload packet.now))) }
    ensures some { is_nil (host_of context.new no_sockets).left ≡ false }
    ensures fits { HasForm (spec.datagram_of (host_of context.old no_sockets) destination.now identification
        (value_of.packet_v4 value_of.payload packet.now)) }
    ensures ports { HasPorts (value_of.payload packet.now.payload) }
{
    let header = packet.header();
    let link = &context.capabilities;
    packet
        .payload
        .emit_header(&IpRepr::Ipv4(header), link, scratch);
    let size = (context.capabilities.ip_mtu() - HEADER_LEN) / 8 * 8;
    context.fragmenter.fill(
        *destination,
        header,
        identification,
        size,
        scratch.as_slice(),
        packet.payload.octets(),
    );
}
