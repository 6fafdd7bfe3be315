//! How a packet that a socket offers is sent.
ghost use Rattle.std.specs.Prelude.{◌≡◌, ◌<◌, Some, IfSome};
ghost use Rattle.std.specs.Option.{option_map};
ghost use Rattle.host_machine.specs.Sockets.Offers as egress;
ghost use Rattle.host_machine.specs.Packet.Packet.{IsWritable, IsWritablePayload};
ghost use Rattle.iface_context.specs.Details.PacketValues as value_of;
ghost use Rattle.iface_context.specs.Refines.{RefinesTelling};
ghost use Rattle.iface_sockets.specs.Turns.{OfferHasTurn, outcome_of};

use host_machine::Turn;
use iface_context::{AnyPacket, Context, IpPayload, Packet, PacketV4, PacketV6};
use iface_send::dispatch::dispatch;
use iface_send::transmit::send_frame;
use ip_wire::IpAddress;
use ip_wire::emit::FrameBuffer;
use net_base::phy::Device;
use sockets::SocketContext;

/// Whether the packet of a turn was sent or dropped; `None` if there was no packet or no transmit token.
#[inline(always)]
pub(crate) fn outcome(turn: Turn) -> Option<bool>
    ensures { result ≡ outcome_of turn }
{
    match turn {
        Turn::Done => Some(true),
        Turn::Deferred(_) => Some(false),
        Turn::Idle | Turn::Exhausted => None,
    }
}

/// Sends a packet, if there is one.
#[inline(always)]
pub(crate) fn send_if<D: Device>(
    context: &mut Context,
    device: &mut D,
    out: &mut FrameBuffer,
    packet: Option<Packet<'_>>,
) -> Turn
    requires { IfSome packet (λ p. IsWritable (value_of.packet p)) }
    ensures { RefinesTelling D.tells device.old device.new
        (OfferHasTurn (option_map value_of.packet packet.entry) result context.old) context.new }
{
    match packet {
        Some(packet) => send(context, device, out, &packet),
        None => Turn::Idle,
    }
}

/// Sends a packet, if the device grants a transmit token. If it could not be sent, the turn says for which destination
/// to wait.
pub(crate) fn send<D: Device, Q: AnyPacket>(
    context: &mut Context,
    device: &mut D,
    out: &mut FrameBuffer,
    packet: &Q,
) -> Turn
    requires { IsWritable (Q.stands_for packet.now) }
    ensures { RefinesTelling D.tells device.old device.new
        (OfferHasTurn (Some (Q.stands_for packet.now)) result context.old) context.new }
{
    if !device.transmit(context.now()) {
        return Turn::Exhausted;
    }
    out.clear();
    let gone = dispatch(context, packet, out).is_ok();
    send_frame(device, out);
    if gone {
        Turn::Done
    } else {
        Turn::Deferred(packet.dst_addr())
    }
}

/// A packet between two addresses; `None` if their families differ.
pub(crate) fn packet_between<'p>(
    src_addr: &IpAddress,
    dst_addr: &IpAddress,
    hop_limit: u8,
    payload: IpPayload<'p>,
) -> Option<Packet<'p>>
    requires { IsWritablePayload (value_of.payload payload) }
    ensures value { option_map value_of.packet result
        ≡ egress.packet_between src_addr.now dst_addr.now hop_limit (value_of.payload payload.entry) }
    ensures writable { IfSome result (λ p. IsWritable (value_of.packet p)) }
{
    match (src_addr, dst_addr) {
        (IpAddress::Ipv4(src_addr), IpAddress::Ipv4(dst_addr)) => Some(Packet::Ipv4(PacketV4 {
            src_addr: *src_addr,
            dst_addr: *dst_addr,
            hop_limit,
            payload,
        })),
        (IpAddress::Ipv6(src_addr), IpAddress::Ipv6(dst_addr)) => Some(Packet::Ipv6(PacketV6 {
            src_addr: *src_addr,
            dst_addr: *dst_addr,
            hop_limit,
            payload,
        })),
        _ => None,
    }
}
