//! Hands frames to a device, and packets where the device grants a transmit token.
ghost use Rattle.std.specs.Prelude.{◌≡◌, Some, true};
ghost use Rattle.host_machine.specs.Packet.Frame.{frames_in, sends};
ghost use Rattle.host_machine.specs.Context.Host.{no_sockets};
ghost use Rattle.host_machine.specs.Packet.Packet.{IsWritable};
ghost use Rattle.iface_context.specs.Details.PacketValues as value_of;
ghost use Rattle.iface_context.specs.Stands.{host_of};
ghost use Rattle.iface_send.specs.Offered.{HasPart, IsOffered};
ghost use Rattle.iface_context.specs.Refines.{RefinesTelling};

use crate::dispatch::dispatch;
use iface_context::Packet;
use iface_context::context::Context;
use ip_wire::emit::FrameBuffer;
use net_base::phy::{Device, PacketMeta};
use sockets::SocketContext;

/// Sends the frame in a buffer, unless it is empty. The device must have granted the transmit token.
#[inline(always)]
pub fn send_frame<D: Device>(device: &mut D, frame: &FrameBuffer)
    requires { D.may_transmit device.old ≡ true }
    ensures { D.tells device.old (sends (frames_in frame.now)) device.new }
{
    if !frame.is_empty() {
        device.send(PacketMeta::EMPTY, frame.as_slice());
    }
}

/// Sends a packet, if the device grants a transmit token. Returns whether it did.
#[inline(never)]
pub fn send_packet<D: Device>(
    context: &mut Context,
    device: &mut D,
    out: &mut FrameBuffer,
    packet: &Packet<'_>,
) -> bool
    requires { IsWritable (value_of.packet packet.now) }
    ensures told { RefinesTelling D.tells device.old device.new
        (HasPart (IsOffered (Some (value_of.packet packet.now)) result) context.old) context.new }
    ensures groups { (host_of context.new no_sockets).groups ≡ (host_of context.old no_sockets).groups }
{
    if !device.transmit(context.now()) {
        return false;
    }
    out.clear();
    let _ = dispatch(context, packet, out);
    send_frame(device, out);
    true
}
