//! What ICMP sockets send.
ghost use Rattle.std.specs.Prelude.{◌≡◌, ◌<◌, Some, IfSome};
ghost use Rattle.std.specs.Option.{option_map};
ghost use Rattle.sockets.specs.Kinds as kinds;
ghost use Rattle.sockets.specs.Icmp as icmp;
ghost use Rattle.host_machine.specs.Context.Host.{Socket};
ghost use Rattle.host_machine.specs.Sockets.Icmp as icmp_rules;
ghost use Rattle.host_machine.specs.Sockets.Offers as offers_rules;
ghost use Rattle.host_machine.specs.Packet.Packet.{IsWritable, IsWritablePayload};
ghost use Rattle.iface_context.specs.Details.PacketValues as value_of;
ghost use Rattle.iface_context.specs.Refines.{RefinesTelling};
ghost use Rattle.iface_sockets.specs.Turns.{HasTurn};

use crate::offers::{outcome, packet_between, send_if};
use control_wire::{IcmpRepr, Icmpv4Repr, Icmpv6Repr};
use host_machine::Turn;
use iface_context::{Context, IpPayload, Packet};
use ip_wire::emit::FrameBuffer;
use net_base::phy::Device;
use sockets::{SocketContext, icmp};

/// Gives an ICMP socket its turn: dispatches the message it offers, if the device grants a transmit token, and reports
/// the outcome to the socket.
#[inline(never)]
pub(crate) fn give_icmp_turn<D: Device>(
    socket: &mut icmp::Socket<'_>,
    context: &mut Context,
    device: &mut D,
    out: &mut FrameBuffer,
) -> Turn
    ensures { RefinesTelling D.tells device.old device.new
        (HasTurn (kinds.up_icmp socket.old) result (kinds.up_icmp socket.new) context.old) context.new }
{
    let Some(message) = socket.offer(context) else {
        return Turn::Idle;
    };
    let turn = send_if(context, device, out, icmp_packet(&message));
    if let Some(gone) = outcome(turn) {
        socket.told(gone);
    }
    turn
}

/// The packet of an ICMP socket's message; `None` unless it is an echo message.
fn icmp_packet<'p>(packet: &icmp::Packet<'p>) -> Option<Packet<'p>>
    ensures value { option_map value_of.packet result
        ≡ offers_rules.packet_of (kinds.IcmpOffer (icmp.value_of packet.now)) }
    ensures writable { IfSome result (λ p. IsWritable (value_of.packet p)) }
{
    let payload = echo_payload(&packet.repr, packet.payload)?;
    packet_between(
        &packet.src_addr,
        &packet.dst_addr,
        packet.hop_limit,
        payload,
    )
}

/// A message as a payload; `None` unless it is an echo message.
fn echo_payload<'p>(repr: &IcmpRepr, octets: &'p [u8]) -> Option<IpPayload<'p>>
    ensures value { option_map value_of.payload result ≡ icmp_rules.echo_payload repr.now octets.now }
    ensures writable { IfSome result (λ p. IsWritablePayload (value_of.payload p)) }
{
    match repr {
        IcmpRepr::Ipv4(message @ (Icmpv4Repr::EchoRequest { .. } | Icmpv4Repr::EchoReply { .. })) =>
            Some(IpPayload::Icmpv4(*message, octets)),
        IcmpRepr::Ipv6(message @ (Icmpv6Repr::EchoRequest { .. } | Icmpv6Repr::EchoReply { .. })) =>
            Some(IpPayload::Icmpv6(*message, octets)),
        _ => None,
    }
}
