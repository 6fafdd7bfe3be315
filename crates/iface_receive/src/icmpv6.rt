//! How an interface processes ICMPv6 messages (RFC 4443): each by its type, after ICMP sockets got it.
ghost use Rattle.std.specs.Prelude.{◌≡◌, ◌≢◌, ◌<◌, ◌^◌, ◌⊎◌, [], true, length};
ghost use Rattle.ip_address.specs.declared.ip.IpAddress.TheVariants as ip;
ghost use Rattle.control_wire.specs.declared.icmpv6.Icmpv6Repr.TheVariants.{Ndisc};
ghost use Rattle.control_wire.specs.declared.ndisc.NdiscRepr.{NdiscRepr};
ghost use Rattle.control_wire.specs.Icmpv6.{IsEchoRequest, type_in};
ghost use Rattle.ip_address.specs.Ipv6.{is_unicast};
ghost use Rattle.host_machine.specs.Context.Host.{SocketSet, no_sockets};
ghost use Rattle.host_machine.specs.Icmp.Icmpv6 as spec;
ghost use Rattle.iface_context.specs.Refines.{RefinesReplying};
ghost use Rattle.iface_context.specs.Stands.{host_of};
ghost use Rattle.iface_receive.specs.Messages.{MayBeMessage};

use control_wire::echo::EchoRequest;
use control_wire::icmpv6::{is_sound, parse_sound};
use control_wire::{IcmpRepr, Icmpv6Repr, NdiscRepr};
use iface_context::Context;
use iface_context::payload::EchoReplyV6;
use iface_discovery::ndisc::process_ndisc;
use iface_discovery::router::process_router;
use iface_icmp::delivery::deliver;
use iface_icmp::icmpv6::{send_icmpv6_reply, send_message};
use iface_multicast::mld::process_mld;
use ip_wire::emit::FrameBuffer;
use ip_wire::octets::u16_at;
use ip_wire::{IpAddress, Ipv6Repr};
use socket_set::SocketSet;

/// Processes the payload of a packet with this header and a unicast source as an ICMPv6 message (RFC 4443). Each ICMP
/// socket that accepts the message gets it whole. For an echo request, the reply with its identifier, sequence number
/// and data is built in an empty buffer. Messages of neighbour and router discovery (RFC 4861) and MLD queries (RFC
/// 3810) are processed as such. Nothing else is answered.
pub fn process_icmpv6(
    context: &mut Context,
    sockets: &mut SocketSet<'_>,
    header: &Ipv6Repr,
    octets: &[u8],
    out: &mut FrameBuffer,
)
    requires empty { out.old ≡ [] }
    requires short { length octets.now < 2 ^ 16 }
    requires from_one { is_unicast header.now.src_addr ≡ true }
    ensures { RefinesReplying out.new (λ H. spec.ProcessesIcmpv6 header.now H octets.now)
        (host_of context.old sockets.old) (host_of context.new sockets.new) }
{
    let src_addr = IpAddress::Ipv6(header.src_addr);
    let dst_addr = IpAddress::Ipv6(header.dst_addr);
    let checked = context.capabilities().checksum.icmpv6.rx();
    if !is_sound(octets, &src_addr, &dst_addr, checked) {
        return;
    }
    match (octets[0], octets[1]) {
        (128, 0) if checked => process_echo_request(context, sockets, header, octets, out),
        (135 | 136, _) => process_neighbor(context, sockets, header, octets, out),
        _ => process_other_by_copy(context, sockets, header, octets, out),
    }
}

/// Processes a message as [`process_other`] does, with a copy of the header, so that no other message stores one for
/// that call.
#[inline(always)]
fn process_other_by_copy(
    context: &mut Context,
    sockets: &mut SocketSet<'_>,
    header: &Ipv6Repr,
    octets: &[u8],
    out: &mut FrameBuffer,
)
    requires empty { out.old ≡ [] }
    requires sound { MayBeMessage (host_of context.old no_sockets) header.now octets.now }
    requires no_solicitation { type_in octets.now ≢ 135 }
    requires no_advertisement { type_in octets.now ≢ 136 }
    ensures { RefinesReplying out.new (λ H. spec.ProcessesIcmpv6 header.now H octets.now)
        (host_of context.old sockets.old) (host_of context.new sockets.new) }
{
    let header = *header;
    process_other(context, sockets, &header, octets, out);
}

/// Processes an echo request, as [`process_icmpv6`] does, after its checksum was verified; the reply's checksum is
/// derived from it.
#[inline(always)]
fn process_echo_request(
    context: &mut Context,
    sockets: &mut SocketSet<'_>,
    header: &Ipv6Repr,
    octets: &[u8],
    out: &mut FrameBuffer,
)
    requires empty { out.old ≡ [] }
    requires short { length octets.now < 2 ^ 16 }
    requires request { IsEchoRequest (ip.Ipv6 header.now.src_addr) (ip.Ipv6 header.now.dst_addr) octets.now }
    ensures { RefinesReplying out.new (λ H. spec.ProcessesIcmpv6 header.now H octets.now)
        (host_of context.old sockets.old) (host_of context.new sockets.new) }
{
    let src_addr = IpAddress::Ipv6(header.src_addr);
    let dst_addr = IpAddress::Ipv6(header.dst_addr);
    let message = Icmpv6Repr::EchoRequest {
        ident: u16_at(octets, 4),
        seq_no: u16_at(octets, 6),
    };
    let heard = IcmpRepr::Ipv6(message);
    deliver(sockets, src_addr, &heard, &octets[8..], octets);
    let request = EchoRequest::new(octets, &src_addr, &dst_addr);
    send_icmpv6_reply(context, header, EchoReplyV6 { request }, out);
}

/// Processes a neighbour message, as [`process_icmpv6`] does, from octets that are sound and of its type.
#[inline(always)]
fn process_neighbor(
    context: &mut Context,
    sockets: &mut SocketSet<'_>,
    header: &Ipv6Repr,
    octets: &[u8],
    out: &mut FrameBuffer,
)
    requires empty { out.old ≡ [] }
    requires sound { MayBeMessage (host_of context.old no_sockets) header.now octets.now }
    requires kind { (type_in octets.now ≡ 135) ⊎ (type_in octets.now ≡ 136) }
    requires from_one { is_unicast header.now.src_addr ≡ true }
    ensures { RefinesReplying out.new (λ H. spec.ProcessesIcmpv6 header.now H octets.now)
        (host_of context.old sockets.old) (host_of context.new sockets.new) }
{
    let Some(message) = NdiscRepr::parse(octets) else {
        return;
    };
    let heard = IcmpRepr::Ipv6(Icmpv6Repr::Ndisc(message));
    deliver(
        sockets,
        IpAddress::Ipv6(header.src_addr),
        &heard,
        &[],
        octets,
    );
    process_ndisc(context, header, &message, out);
}

/// Processes a message of any other type, as [`process_icmpv6`] does, from octets that are sound.
#[inline(never)]
fn process_other(
    context: &mut Context,
    sockets: &mut SocketSet<'_>,
    header: &Ipv6Repr,
    octets: &[u8],
    out: &mut FrameBuffer,
)
    requires empty { out.old ≡ [] }
    requires sound { MayBeMessage (host_of context.old no_sockets) header.now octets.now }
    requires no_solicitation { type_in octets.now ≢ 135 }
    requires no_advertisement { type_in octets.now ≢ 136 }
    ensures { RefinesReplying out.new (λ H. spec.ProcessesIcmpv6 header.now H octets.now)
        (host_of context.old sockets.old) (host_of context.new sockets.new) }
{
    let Some((message, contents)) = parse_sound(octets) else {
        return;
    };
    let heard = IcmpRepr::Ipv6(message);
    deliver(
        sockets,
        IpAddress::Ipv6(header.src_addr),
        &heard,
        contents,
        octets,
    );
    process_message(context, header, &message, contents, out);
}

/// Processes a message other than a neighbour message, by its values and its data.
#[inline(always)]
fn process_message(
    context: &mut Context,
    header: &Ipv6Repr,
    message: &Icmpv6Repr,
    contents: &[u8],
    out: &mut FrameBuffer,
)
    requires empty { out.old ≡ [] }
    requires no_neighbor { (m : NdiscRepr) → message.now ≢ Ndisc m }
    ensures { (sockets : SocketSet) →
        RefinesReplying out.new (λ H. spec.ProcessesMessage header.now message.now contents.now H)
        (host_of context.old sockets) (host_of context.new sockets) }
{
    match message {
        Icmpv6Repr::EchoRequest { ident, seq_no } => {
            let reply = Icmpv6Repr::EchoReply {
                ident: *ident,
                seq_no: *seq_no,
            };
            send_message(context, header, reply, contents, out);
        }
        Icmpv6Repr::Router(message) => process_router(context, header, message),
        Icmpv6Repr::Mld(message) => process_mld(context, header, message),
        _ => {}
    }
}
