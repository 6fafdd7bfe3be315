//! How an interface processes router advertisements: it learns prefixes and routers (RFC 4861 6.3.4, RFC 4862 5.5.3).
ghost use Rattle.std.specs.Prelude.{◌≡◌, ◌||◌, ◌==◌};
ghost use Rattle.fragmentation.specs.Slots.{Slots};
ghost use Rattle.host_machine.specs.Interface.Config.{is_ethernet};
ghost use Rattle.host_machine.specs.Context.Host.{SocketSet, no_sockets};
ghost use Rattle.host_machine.specs.Context.Host as host;
ghost use Rattle.host_machine.specs.Discovery.Router as router_rules;
ghost use Rattle.iface_context.specs.Stands.{host_in, host_of};
ghost use Rattle.ip_address.specs.Ipv6.{all_nodes, is_link_local};

use control_wire::RouterRepr;
use iface_context::Context;
use iface_context::autoconfiguration::process_advertisement;
use ip_wire::ipv6_packet::Ipv6Repr;
use ip_wire::{HardwareAddress, Ipv6Address};
use net_base::time::Duration;

/// Learns the router that sent an advertisement and the prefix it carries, if SLAAC is enabled and the advertisement is
/// valid. It is valid on a link with hardware addresses, if no router forwarded it, and it is from a link-local address
/// to all-nodes or to a link-local address (RFC 4861 6.1.2). Solicitations are for routers and are ignored.
pub fn process_router(context: &mut Context, header: &Ipv6Repr, message: &RouterRepr)
    ensures { (slots : Slots) (sockets : SocketSet) → host_in context.new slots sockets
        ≡ host.with_slaac (host_in context.old slots sockets)
        (router_rules.after_advertisement message.now (host_in context.old slots sockets) header.now) }
{
    match message {
        RouterRepr::RouterSolicit { .. } => {}
        RouterRepr::RouterAdvert {
            router_lifetime,
            prefix_info,
            ..
        } => {
            if is_valid_advertisement(context, header) {
                let lifetime = Duration::from_secs(u64::from(*router_lifetime));
                process_advertisement(context, &header.src_addr, lifetime, *prefix_info);
            }
        }
    }
}

/// Whether an advertisement in a packet with this header is valid.
fn is_valid_advertisement(context: &Context, header: &Ipv6Repr) -> bool
    ensures { result ≡ router_rules.is_valid_advertisement (host_of context.now no_sockets) header.now }
{
    context.is_slaac_enabled()
        && is_ethernet(&context.hardware_addr())
        && header.hop_limit == 255
        && header.src_addr.is_link_local()
        && is_to_neighbors(&header.dst_addr)
}

/// Whether a medium has hardware addresses.
const fn is_ethernet(hardware_addr: &HardwareAddress) -> bool
    ensures { result ≡ is_ethernet hardware_addr.now }
{
    match hardware_addr {
        HardwareAddress::Ethernet(_) => true,
        HardwareAddress::Ip => false,
    }
}

/// Whether an address is all-nodes on the link, or link-local.
fn is_to_neighbors(address: &Ipv6Address) -> bool
    ensures { result ≡ ((address.now.bits == all_nodes.bits) || is_link_local address.now) }
{
    address.bits == Ipv6Address::LINK_LOCAL_ALL_NODES.bits || address.is_link_local()
}
