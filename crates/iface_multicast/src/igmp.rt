//! IGMP (RFC 2236 3, RFC 1112 appendix I): queries of routers, and the delayed reports that answer them.
ghost use Rattle.std.specs.Prelude.{◌≡◌, ◌*◌, ◌<◌, ◌≤◌, [], None, ◌+◌, Some, IfSome, IsSome, true};
ghost use Rattle.fragmentation.specs.Slots.{Slots};
ghost use Rattle.control_wire.specs.Igmp.{query_version};
ghost use Rattle.host_machine.specs.Context.Host.{SocketSet, no_sockets};
ghost use Rattle.host_machine.specs.Multicast.Igmp as igmp_rules;
ghost use Rattle.host_machine.specs.Multicast.Timeout as timeout_rules;
ghost use Rattle.host_machine.specs.Packet.Packet as value;
ghost use Rattle.iface_context.specs.Multicast.{interval_of, index_of};
ghost use Rattle.iface_context.specs.Stands.{host_in, host_of};
ghost use Rattle.std.specs.Option.{option_map};
ghost use Rattle.net_base.specs.Time.{IsMoment};
ghost use Rattle.host_machine.specs.Packet.Packet.{IsWritable};
ghost use Rattle.iface_context.specs.Details.PacketValues as value_of;
ghost use Rattle.iface_send.specs.Offered.{HasPart};
ghost use Rattle.iface_context.specs.Refines.{RefinesTelling};

use crate::timeout::{has_passed, later_of};
use control_wire::igmp::{max_resp_time, query_version};
use control_wire::{IgmpRepr, IgmpVersion};
use iface_context::multicast::set_igmp_report;
use iface_context::{Context, IpPayload, Packet, PacketV4};
use iface_send::transmit::send_packet;
use iface_tables::IgmpReportState;
use ip_wire::emit::FrameBuffer;
use ip_wire::{IpAddress, Ipv4Address, Ipv4Repr};
use net_base::phy::Device;
use net_base::time::{Duration, Instant};
use sockets::SocketContext;

/// Processes the payload of a packet with this header as an IGMP message. A query for all groups of the interface or
/// for one of them schedules delayed reports, which replace those scheduled before. Nothing else has an effect, and
/// nothing is sent immediately.
pub fn process_igmp(context: &mut Context, header: &Ipv4Repr, octets: &[u8])
    ensures { (slots : Slots) (sockets : SocketSet) → igmp_rules.ProcessesIgmp header.now
        (host_in context.old slots sockets) octets.now None [] (host_in context.new slots sockets) }
{
    let Some(message) = IgmpRepr::parse(octets) else {
        return;
    };
    process_igmp_message(context, &header.dst_addr, &message);
}

/// Sends the next report of an IPv4 group, if it is due and the device grants a transmit token. If no further group is
/// left to report, the answer to the query ends. Without a token or an IPv4 address the report stays due.
pub fn igmp_egress<D: Device>(context: &mut Context, device: &mut D, out: &mut FrameBuffer)
    ensures { RefinesTelling D.tells device.old device.new (HasPart igmp_rules.IgmpEgress context.old) context.new }
{
    let now = context.now();
    let report = context.igmp_report();
    if !has_passed(igmp_timeout(&report), now) {
        return;
    }
    let Some((version, group)) = next_group(context, &report) else {
        set_igmp_report(context, IgmpReportState::Inactive);
        return;
    };
    let Some(packet) = igmp_report(context, version, &group) else {
        return;
    };
    if send_packet(context, device, out, &packet) {
        set_igmp_report(context, igmp_report_after(&report, now));
    }
}

/// When the next report of an IPv4 group is due, if there is one and an address to send it from.
pub fn igmp_poll_at(context: &Context) -> Option<Instant>
    ensures { result ≡ igmp_rules.igmp_poll_at (host_of context.now no_sockets) }
{
    let report = context.igmp_report();
    let (version, group) = next_group(context, &report)?;
    let _packet = igmp_report(context, version, &group)?;
    igmp_timeout(&report)
}

/// Processes a message by its values: only a query has an effect.
fn process_igmp_message(context: &mut Context, dst_addr: &Ipv4Address, message: &IgmpRepr)
    ensures { (slots : Slots) (sockets : SocketSet) → host_in context.new slots sockets
        ≡ igmp_rules.host_after_igmp (host_in context.old slots sockets) dst_addr.now message.now }
{
    match message {
        IgmpRepr::MembershipQuery {
            max_resp_code,
            group_addr,
        } => {
            let report = igmp_report_for(context, dst_addr, *max_resp_code, group_addr);
            set_igmp_report(context, report);
        }
        IgmpRepr::MembershipReport { .. } | IgmpRepr::LeaveGroup { .. } => {}
    }
}

/// The IGMP report state after a query; unchanged if the query is for no group of the interface.
fn igmp_report_for(
    context: &Context,
    dst_addr: &Ipv4Address,
    max_resp_code: u8,
    group: &Ipv4Address,
) -> IgmpReportState
    ensures value { result
        ≡ igmp_rules.igmp_report_for (host_of context.now no_sockets) dst_addr.now max_resp_code group.now }
    ensures paced { interval_of result < 3600000000 }
{
    let version = query_version(max_resp_code);
    let time = max_resp_time(max_resp_code);
    if is_igmp_general(context, dst_addr, group) {
        let interval = igmp_interval_for(version, time, context.groups().ipv4_count());
        return IgmpReportState::ToGeneralQuery {
            version,
            timeout: context.now() + interval,
            interval,
            next_index: 0,
        };
    }
    if is_igmp_specific(context, dst_addr, group) {
        let quarter = Duration::from_micros(time.total_micros() / 4);
        return IgmpReportState::ToSpecificQuery {
            version,
            timeout: context.now() + quarter,
            group: *group,
        };
    }
    context.igmp_report()
}

/// The interval between two reports of a general query, by the number of groups to report.
fn igmp_interval_for(version: IgmpVersion, time: Duration, count: usize) -> Duration
    requires within_an_hour { time < 3600000000 }
    requires few { count ≤ 16 }
    ensures value { result ≡ igmp_rules.igmp_interval_for version time count }
    ensures within_an_hour { result < 3600000000 }
{
    match version {
        IgmpVersion::Version1 => Duration::from_micros(100_000),
        IgmpVersion::Version2 => Duration::from_micros(time.total_micros() / (count as u64 + 1)),
    }
}

/// Whether a query is a general query for the interface: it names no group, its destination is all-hosts, and there is
/// a group to report.
fn is_igmp_general(context: &Context, dst_addr: &Ipv4Address, group: &Ipv4Address) -> bool
    ensures { result ≡ igmp_rules.is_igmp_general (host_of context.now no_sockets) dst_addr.now group.now }
{
    group.is_unspecified()
        && dst_addr.bits == Ipv4Address::MULTICAST_ALL_SYSTEMS.bits
        && context.groups().ipv4_count() > 0
}

/// Whether a query is for one group of the interface: it names the group, which is also its destination.
fn is_igmp_specific(context: &Context, dst_addr: &Ipv4Address, group: &Ipv4Address) -> bool
    ensures { result ≡ igmp_rules.is_igmp_specific (host_of context.now no_sockets) dst_addr.now group.now }
{
    context.has_multicast_group(&IpAddress::Ipv4(*group)) && dst_addr.bits == group.bits
}

/// An IGMP message from the first IPv4 address of the interface, if there is one. No router forwards it (RFC 2236 2).
pub(crate) fn igmp_packet(
    context: &Context,
    dst_addr: Ipv4Address,
    message: IgmpRepr,
) -> Option<Packet<'static>>
    ensures value { option_map value_of.packet result
        ≡ igmp_rules.igmp_packet (host_of context.now no_sockets).ip_addrs dst_addr message }
    ensures writable { IfSome result (λ p. IsWritable (value_of.packet p)) }
{
    let src_addr = context.ipv4_addr()?;
    Some(Packet::Ipv4(PacketV4 {
        src_addr,
        dst_addr,
        hop_limit: 1,
        payload: IpPayload::Igmp(message),
    }))
}

/// The report of an IPv4 group, sent to that group (RFC 2236 9), if there is an address to send it from.
pub(crate) fn igmp_report(
    context: &Context,
    version: IgmpVersion,
    group: &Ipv4Address,
) -> Option<Packet<'static>>
    ensures value { option_map value_of.packet result
        ≡ igmp_rules.igmp_report (host_of context.now no_sockets).ip_addrs version group.now }
    ensures writable { IfSome result (λ p. IsWritable (value_of.packet p)) }
{
    let message = IgmpRepr::MembershipReport {
        group_addr: *group,
        version,
    };
    igmp_packet(context, *group, message)
}

/// The group to report next in answer to a query, and the IGMP version to use.
fn next_group(context: &Context, report: &IgmpReportState) -> Option<(IgmpVersion, Ipv4Address)>
    ensures value { result ≡ igmp_rules.next_group (host_of context.now no_sockets) report.now }
    ensures within { IsSome result → index_of report.now < 16 }
{
    match report {
        IgmpReportState::Inactive => None,
        IgmpReportState::ToGeneralQuery {
            version,
            next_index,
            ..
        } => {
            let group = context.groups().nth_ipv4(*next_index)?;
            Some((*version, group))
        }
        IgmpReportState::ToSpecificQuery { version, group, .. } => Some((*version, *group)),
    }
}

/// The report state after a report was sent. A general query goes on with the next group, one interval later but never
/// in the past; anything else ends.
fn igmp_report_after(report: &IgmpReportState, now: Instant) -> IgmpReportState
    requires timely { IsMoment now }
    requires due { timeout_rules.has_passed (igmp_rules.igmp_timeout_of report.now) now ≡ true }
    requires paced { interval_of report.now < 3600000000 }
    requires within { index_of report.now < 16 }
    ensures value { result ≡ igmp_rules.igmp_report_after report.now now }
    ensures paced { interval_of result < 3600000000 }
{
    match report {
        IgmpReportState::ToGeneralQuery {
            version,
            timeout,
            interval,
            next_index,
        } => IgmpReportState::ToGeneralQuery {
            version: *version,
            timeout: later_of(*timeout + *interval, now),
            interval: *interval,
            next_index: *next_index + 1,
        },
        IgmpReportState::Inactive | IgmpReportState::ToSpecificQuery { .. } => {
            IgmpReportState::Inactive
        }
    }
}

/// When the next IPv4 group is reported.
fn igmp_timeout(report: &IgmpReportState) -> Option<Instant>
    ensures { result ≡ igmp_rules.igmp_timeout_of report.now }
{
    match report {
        IgmpReportState::Inactive => None,
        IgmpReportState::ToGeneralQuery { timeout, .. }
        | IgmpReportState::ToSpecificQuery { timeout, .. } => Some(*timeout),
    }
}
