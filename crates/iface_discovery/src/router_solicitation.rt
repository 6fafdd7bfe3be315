//! Router solicitations: how an interface asks routers to advertise their prefixes (RFC 4861 6.3.7).
ghost use Rattle.std.specs.Prelude.{◌≡◌, None, IfSome, false};
ghost use Rattle.std.specs.Option.{option_map};
ghost use Rattle.host_machine.specs.Context.Host.{no_sockets};
ghost use Rattle.host_machine.specs.Packet.Packet.{IsWritable};
ghost use Rattle.host_machine.specs.Discovery.RouterSolicitation as spec;
ghost use Rattle.iface_context.specs.Details.PacketValues as value_of;
ghost use Rattle.iface_context.specs.Stands.{host_of};
ghost use Rattle.iface_send.specs.Offered.{HasPart};
ghost use Rattle.iface_context.specs.Refines.{RefinesTelling};

use control_wire::{Icmpv6Repr, RouterRepr};
use iface_context::autoconfiguration::rs_sent;
use iface_context::{Context, IpPayload, Packet, PacketV6};
use iface_send::transmit::send_packet;
use ip_wire::emit::FrameBuffer;
use ip_wire::{EthernetAddress, HardwareAddress, Ipv6Address};
use net_base::phy::Device;
use net_base::time::Instant;
use sockets::SocketContext;

/// Sends the router solicitation that is due, if any, if the device grants a transmit token. With a token it counts as
/// sent, whatever came of it; without a token it stays due.
pub fn ndisc_rs_egress<D: Device>(context: &mut Context, device: &mut D, out: &mut FrameBuffer)
    ensures { RefinesTelling D.tells device.old device.new (HasPart spec.NdiscRsEgress context.old) context.new }
{
    if !may_solicit(context) {
        return;
    }
    send_router_solicit(context, device, out);
}

/// Whether a router solicitation may be due, which is rare: SLAAC is enabled, and it is time for one.
#[inline(always)]
fn may_solicit(context: &Context) -> bool
    ensures { result ≡ false → spec.due_solicitation (host_of context.now no_sockets) ≡ None }
{
    context.is_slaac_enabled() && context.slaac().rs_required(context.now())
}

/// Sends the router solicitation as [`ndisc_rs_egress`] does, where one may be due.
#[inline(never)]
fn send_router_solicit<D: Device>(context: &mut Context, device: &mut D, out: &mut FrameBuffer)
    ensures { RefinesTelling D.tells device.old device.new (HasPart spec.NdiscRsEgress context.old) context.new }
{
    let Some(packet) = due_solicitation(context) else {
        return;
    };
    if send_packet(context, device, out, &packet) {
        rs_sent(context);
    }
}

/// When the next router solicitation is due, if one may be sent and there is an address to send it from. The instant
/// may have passed.
pub fn rs_poll_at(context: &Context) -> Option<Instant>
    ensures { result ≡ spec.rs_poll_at (host_of context.now no_sockets) }
{
    let _packet = router_solicitation(context)?;
    context.slaac().retry_at()
}

/// The router solicitation that is due at the interface's moment, if any.
fn due_solicitation(context: &Context) -> Option<Packet<'static>>
    ensures value { option_map value_of.packet result ≡ spec.due_solicitation (host_of context.now no_sockets) }
    ensures writable { IfSome result (λ p. IsWritable (value_of.packet p)) }
{
    if !context.slaac().rs_required(context.now()) {
        return None;
    }
    router_solicitation(context)
}

/// The router solicitation of the interface. `None` if SLAAC is disabled, the medium has no hardware addresses, or
/// there is no link-local source address.
fn router_solicitation(context: &Context) -> Option<Packet<'static>>
    ensures value { option_map value_of.packet result ≡ spec.router_solicitation (host_of context.now no_sockets) }
    ensures writable { IfSome result (λ p. IsWritable (value_of.packet p)) }
{
    if !context.is_slaac_enabled() {
        return None;
    }
    match context.hardware_addr() {
        HardwareAddress::Ethernet(own) => {
            let source = context.link_local_addr()?;
            Some(solicitation_from(own, source))
        }
        HardwareAddress::Ip => None,
    }
}

/// A router solicitation that carries the interface's hardware address (RFC 4861 4.1).
fn solicitation_from(own: EthernetAddress, source: Ipv6Address) -> Packet<'static>
    ensures value { value_of.packet result ≡ spec.solicitation_from own source }
    ensures writable { IsWritable (value_of.packet result) }
{
    let message = RouterRepr::RouterSolicit { lladdr: Some(own) };
    Packet::Ipv6(PacketV6 {
        src_addr: source,
        dst_addr: Ipv6Address::LINK_LOCAL_ALL_ROUTERS,
        hop_limit: 255,
        payload: IpPayload::Icmpv6(Icmpv6Repr::Router(message), &[]),
    })
}
