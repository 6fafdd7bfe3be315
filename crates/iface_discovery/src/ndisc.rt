//! How an interface processes neighbour discovery messages (RFC 4861 7.2).
ghost use Rattle.std.specs.Prelude.{◌≡◌, [], IfSome, true};
ghost use Rattle.net_base.specs.declared.phy.Medium.TheVariants as medium;
ghost use Rattle.ip_address.specs.EthernetAddress as ethernet;
ghost use Rattle.ip_address.specs.Ipv6 as ipv6;
ghost use Rattle.ip_address.specs.Hardware.{medium_of};
ghost use Rattle.control_wire.specs.declared.ndisc.NdiscRepr.TheVariants.{NeighborSolicit};
ghost use Rattle.fragmentation.specs.Slots.{Slots};
ghost use Rattle.host_machine.specs.Context.Host.{SocketSet, no_sockets};
ghost use Rattle.host_machine.specs.Discovery.Ndisc as spec;
ghost use Rattle.host_machine.specs.Packet.Packet as value;
ghost use Rattle.iface_context.specs.Details.PacketValues as value_of;
ghost use Rattle.iface_context.specs.Stands.{host_in, host_of};
ghost use Rattle.iface_context.specs.Refines.{RefinesReplying};

use bitflags::Flags;
use control_wire::{NdiscNeighborFlags, NdiscRepr};
use iface_context::neighbors::{fill_neighbor, is_known};
use iface_context::payload::NeighborAdvert;
use iface_context::{Context, PacketV6};
use iface_send::dispatch::dispatch;
use ip_wire::emit::FrameBuffer;
use ip_wire::{EthernetAddress, HardwareAddress, IpAddress, Ipv6Address, Ipv6Repr};

/// Processes a neighbour message from a packet with this header and a unicast source. It is dropped if a router
/// forwarded it or the medium has no hardware addresses (RFC 4861 7.1). From an advertisement the sender's hardware
/// address is learnt for 60 s, if it has the Override flag or the sender is unknown. From a solicitation the sender is
/// learnt, too, and it is answered if it is for the interface; the answer is built in an empty buffer.
pub fn process_ndisc(
    context: &mut Context,
    header: &Ipv6Repr,
    message: &NdiscRepr,
    out: &mut FrameBuffer,
)
    requires empty { out.old ≡ [] }
    requires from_one { ipv6.is_unicast header.now.src_addr ≡ true }
    ensures { (sockets : SocketSet) → RefinesReplying out.new (λ H. spec.ProcessesNdisc header.now message.now H)
        (host_of context.old sockets) (host_of context.new sockets) }
{
    let HardwareAddress::Ethernet(own) = context.hardware_addr() else {
        return;
    };
    if header.hop_limit != 255 {
        return;
    }
    match message {
        NdiscRepr::NeighborAdvert {
            flags,
            target_addr,
            lladdr,
        } => process_advertisement(context, header, flags, target_addr, lladdr),
        NdiscRepr::NeighborSolicit {
            target_addr,
            lladdr,
        } => process_solicitation(context, own, header, target_addr, lladdr, out),
    }
}

/// Learns the hardware address of an advertisement's sender, if the advertisement has the Override flag or the sender
/// is unknown (RFC 4861 7.2.5).
fn process_advertisement(
    context: &mut Context,
    header: &Ipv6Repr,
    flags: &NdiscNeighborFlags,
    target_addr: &Ipv6Address,
    lladdr: &Option<EthernetAddress>,
)
    requires from_one { ipv6.is_unicast header.now.src_addr ≡ true }
    requires on_ethernet { medium_of (host_of context.old no_sockets).hardware_addr ≡ medium.Ethernet }
    ensures { (slots : Slots) (sockets : SocketSet) → spec.Learns
        (spec.advertised_lladdr (host_in context.old slots sockets) header.now flags.now target_addr.now lladdr.now)
        header.now.src_addr (host_in context.old slots sockets) (host_in context.new slots sockets) }
{
    let address = advertised_lladdr(context, header, flags, target_addr, lladdr);
    learn(context, header.src_addr, address);
}

/// The hardware address to learn from an advertisement, if it has the Override flag or the sender is unknown.
fn advertised_lladdr(
    context: &Context,
    header: &Ipv6Repr,
    flags: &NdiscNeighborFlags,
    target_addr: &Ipv6Address,
    lladdr: &Option<EthernetAddress>,
) -> Option<EthernetAddress>
    requires from_one { ipv6.is_unicast header.now.src_addr ≡ true }
    ensures told { result
        ≡ spec.advertised_lladdr (host_of context.now no_sockets) header.now flags.now target_addr.now lladdr.now }
    ensures unicast { IfSome result (λ a. ethernet.is_unicast a ≡ true) }
{
    let overrides = flags.contains(NdiscNeighborFlags::OVERRIDE);
    if overrides || !is_known(context, &IpAddress::Ipv6(header.src_addr)) {
        return usable_lladdr(lladdr, target_addr);
    }
    None
}

/// Learns the hardware address of a solicitation's sender. Builds the advertisement that answers it, if it is for the
/// interface (RFC 4861 7.2.3, 7.2.4). A solicitation with a link-layer address is dropped if that address or the target
/// is not unicast.
fn process_solicitation(
    context: &mut Context,
    own: EthernetAddress,
    header: &Ipv6Repr,
    target_addr: &Ipv6Address,
    lladdr: &Option<EthernetAddress>,
    out: &mut FrameBuffer,
)
    requires empty { out.old ≡ [] }
    requires from_one { ipv6.is_unicast header.now.src_addr ≡ true }
    requires on_ethernet { medium_of (host_of context.old no_sockets).hardware_addr ≡ medium.Ethernet }
    ensures { (sockets : SocketSet) →
        RefinesReplying out.new (λ H reply notes new. spec.ProcessesNdiscMessage own header.now H reply notes new
        (NeighborSolicit target_addr.now lladdr.now)) (host_of context.old sockets) (host_of context.new sockets) }
{
    if has_no_unicast(lladdr, target_addr) {
        return;
    }
    let is_asked = is_target(context, header, target_addr);
    learn(context, header.src_addr, usable_lladdr(lladdr, target_addr));
    if is_asked {
        let packet = advertisement_of(own, header, target_addr);
        let _ = dispatch(context, &packet, out);
    }
}

/// Stores a neighbour's hardware address for 60 s, if there is one.
fn learn(context: &mut Context, neighbor: Ipv6Address, address: Option<EthernetAddress>)
    requires one { ipv6.is_unicast neighbor ≡ true }
    requires on_ethernet { medium_of (host_of context.old no_sockets).hardware_addr ≡ medium.Ethernet }
    requires unicast { IfSome address (λ a. ethernet.is_unicast a ≡ true) }
    ensures { (slots : Slots) (sockets : SocketSet) →
        spec.Learns address neighbor (host_in context.old slots sockets) (host_in context.new slots sockets) }
{
    let Some(address) = address else {
        return;
    };
    fill_neighbor(
        context,
        IpAddress::Ipv6(neighbor),
        HardwareAddress::Ethernet(address),
    );
}

/// The link-layer address of a message, if it and the target are unicast.
fn usable_lladdr(lladdr: &Option<EthernetAddress>, target: &Ipv6Address) -> Option<EthernetAddress>
    ensures told { result ≡ spec.usable_lladdr lladdr.now target.now }
    ensures unicast { IfSome result (λ a. ethernet.is_unicast a ≡ true) }
{
    let address = (*lladdr)?;
    if address.is_unicast() && target.is_unicast() {
        Some(address)
    } else {
        None
    }
}

/// Whether a message has a link-layer address, and that address or the target is not unicast.
fn has_no_unicast(lladdr: &Option<EthernetAddress>, target: &Ipv6Address) -> bool
    ensures { result ≡ spec.has_no_unicast lladdr.now target.now }
{
    match lladdr {
        Some(address) => !(address.is_unicast() && target.is_unicast()),
        None => false,
    }
}

/// Whether a solicitation is for the interface. Its destination must be one of the interface's solicited-node groups,
/// or an address assigned to it other than ::1; its target must be an own address.
fn is_target(context: &Context, header: &Ipv6Repr, target: &Ipv6Address) -> bool
    ensures { result ≡ spec.is_target (host_of context.now no_sockets) header.now target.now }
{
    let destination = header.dst_addr;
    let is_asked = context.has_solicited_node(&destination)
        || (context.is_assigned(&IpAddress::Ipv6(destination)) && !destination.is_loopback());
    is_asked && context.has_ip_addr(&IpAddress::Ipv6(*target))
}

/// The advertisement that answers a solicitation for a target.
#[inline(always)]
fn advertisement_of(
    own: EthernetAddress,
    header: &Ipv6Repr,
    target: &Ipv6Address,
) -> PacketV6<NeighborAdvert>
    ensures { value.Ipv6 (value_of.packet_v6 value_of.neighbor_advert result)
        ≡ spec.advertisement_of own header.now target.now }
{
    PacketV6 {
        src_addr: *target,
        dst_addr: header.src_addr,
        hop_limit: 255,
        payload: NeighborAdvert {
            flags: NdiscNeighborFlags::SOLICITED,
            target_addr: *target,
            lladdr: own,
        },
    }
}
