//! MLD (RFC 3810 5, 6.2): queries of routers, and the delayed report that answers them.
ghost use Rattle.std.specs.Prelude.{◌≡◌, ◌<◌, [], None, ◌+◌, ◌≤◌, ◌++◌, ◌∷◌, length, Some};
ghost use Rattle.fragmentation.specs.Slots.{Slots};
ghost use Rattle.host_machine.specs.Context.Host.{SocketSet, no_sockets};
ghost use Rattle.host_machine.specs.Multicast.Mld as mld_rules;
ghost use Rattle.host_machine.specs.Packet.Packet as value;
ghost use Rattle.iface_context.specs.Stands.{host_in, host_of};
ghost use Rattle.control_wire.specs.declared.mld.MldRecordType.TheVariants.{ModeIsExclude};
ghost use Rattle.control_wire.specs.Mld.{record_text};
ghost use Rattle.iface_tables.specs.Groups.{ipv6_groups};
ghost use Rattle.host_machine.specs.Packet.Packet.{IsWritable};
ghost use Rattle.iface_context.specs.Details.PacketValues as value_of;
ghost use Rattle.iface_send.specs.Offered.{HasPart, IsOffered};
ghost use Rattle.iface_context.specs.Refines.{RefinesTelling};

use crate::timeout::has_passed;
use arrayvec::ArrayVec;
use control_wire::{MldAddressRecordRepr, MldRecordType, MldRepr};
use iface_context::multicast::set_mld_report;
use iface_context::{Context, IpPayload, Packet, PacketV6};
use iface_send::transmit::send_packet;
use iface_tables::{Group, MldReportState};
use ip_wire::emit::FrameBuffer;
use ip_wire::{IpAddress, Ipv6Address, Ipv6Repr};
use net_base::phy::Device;
use net_base::time::{Duration, Instant};
use sockets::SocketContext;

/// The length of the records of a report of sixteen groups, in octets.
const RECORDS_LEN: usize = 320;

/// Processes an MLD message from a packet with this header. A query that no router forwarded, from a link-local source,
/// for all groups of the interface or for one of them, schedules a report after a random delay. It replaces the one
/// scheduled before. Nothing else has an effect, and nothing is sent immediately.
pub fn process_mld(context: &mut Context, header: &Ipv6Repr, message: &MldRepr)
    ensures { (slots : Slots) (sockets : SocketSet) → mld_rules.ProcessesMld header.now message.now
        (host_in context.old slots sockets) None [] (host_in context.new slots sockets) }
{
    match message {
        MldRepr::Query {
            max_resp_code,
            mcast_addr,
        } => process_mld_query(context, header, *max_resp_code, mcast_addr),
        MldRepr::Report { .. } => {}
    }
}

/// Sends the report of the IPv6 groups, if it is due and the device grants a transmit token. Without a token the report
/// is dropped.
pub fn mld_egress<D: Device>(context: &mut Context, device: &mut D, out: &mut FrameBuffer)
    ensures { RefinesTelling D.tells device.old device.new (HasPart mld_rules.MldEgress context.old) context.new }
{
    let report = context.mld_report();
    if !has_passed(mld_timeout(&report), context.now()) {
        return;
    }
    let mut records = ArrayVec::new();
    let count = push_records(context, &report, &mut records);
    let packet = mld_packet(context, count, records.as_slice());
    let _ = send_packet(context, device, out, &packet);
    set_mld_report(context, MldReportState::Inactive);
}

/// When the report of the IPv6 groups is due, if there is one.
pub fn mld_poll_at(context: &Context) -> Option<Instant>
    ensures { result ≡ mld_rules.mld_timeout_of (host_of context.now no_sockets).mld_report }
{
    mld_timeout(&context.mld_report())
}

/// Processes a query for a group, or for all.
fn process_mld_query(
    context: &mut Context,
    header: &Ipv6Repr,
    max_resp_code: u16,
    group: &Ipv6Address,
)
    ensures { (slots : Slots) (sockets : SocketSet) → host_in context.new slots sockets
        ≡ mld_rules.host_after_mld_query (host_in context.old slots sockets) header.now max_resp_code group.now }
{
    if !is_near(header) {
        return;
    }
    let delay = delay(context, max_resp_code);
    let timeout = context.now() + delay;
    let report = mld_report_for(context, &header.dst_addr, timeout, group);
    set_mld_report(context, report);
}

/// Whether no router forwarded a packet, and its source is link-local (RFC 3810 5.1.14).
fn is_near(header: &Ipv6Repr) -> bool
    ensures { result ≡ mld_rules.is_near header.now }
{
    header.hop_limit == 1 && header.src_addr.is_link_local()
}

/// The delay of an answer: a random number of milliseconds below the code. It draws a random word unless the code is 0.
fn delay(context: &mut Context, max_resp_code: u16) -> Duration
    ensures value { result ≡ mld_rules.delay max_resp_code (host_of context.old no_sockets).random }
    ensures within_two_minutes { result < 120000000 }
    ensures drawn { (sockets : SocketSet) → host_of context.new sockets ≡ record (host_of context.old sockets) {
      random = mld_rules.random_after_draw max_resp_code (host_of context.old no_sockets).random;
    } }
{
    if max_resp_code == 0 {
        return Duration::ZERO;
    }
    let word = context.rand_u16();
    Duration::from_millis(u64::from(word % max_resp_code))
}

/// The MLD report state after a query, with a report due at `timeout`; unchanged if the query is for no group of the
/// interface.
fn mld_report_for(
    context: &Context,
    dst_addr: &Ipv6Address,
    timeout: Instant,
    group: &Ipv6Address,
) -> MldReportState
    ensures { result ≡ mld_rules.mld_report_for (host_of context.now no_sockets) dst_addr.now timeout group.now }
{
    if is_mld_general(context, dst_addr, group) {
        return MldReportState::ToGeneralQuery { timeout };
    }
    if is_mld_specific(context, dst_addr, group) {
        return MldReportState::ToSpecificQuery {
            group: *group,
            timeout,
        };
    }
    context.mld_report()
}

/// Whether a query is a general query for the interface: it names no group, its destination is all-nodes or one of the
/// interface's own addresses, and there is a group to report.
fn is_mld_general(context: &Context, dst_addr: &Ipv6Address, group: &Ipv6Address) -> bool
    ensures { result ≡ mld_rules.is_mld_general (host_of context.now no_sockets) dst_addr.now group.now }
{
    let is_to_us = dst_addr.bits == Ipv6Address::LINK_LOCAL_ALL_NODES.bits
        || context.has_ip_addr(&IpAddress::Ipv6(*dst_addr));
    group.is_unspecified() && is_to_us && context.groups().ipv6_count() > 0
}

/// Whether a query is for one group of the interface: it names the group, which is also its destination.
fn is_mld_specific(context: &Context, dst_addr: &Ipv6Address, group: &Ipv6Address) -> bool
    ensures { result ≡ mld_rules.is_mld_specific (host_of context.now no_sockets) dst_addr.now group.now }
{
    context.has_multicast_group(&IpAddress::Ipv6(*group)) && dst_addr.bits == group.bits
}

/// Sends an MLD report with one record, if the device grants a transmit token. Returns whether it did.
pub(crate) fn send_record<D: Device>(
    context: &mut Context,
    device: &mut D,
    out: &mut FrameBuffer,
    record_type: MldRecordType,
    group: &Ipv6Address,
) -> bool
    ensures told { RefinesTelling D.tells device.old device.new (HasPart
        (IsOffered (Some (mld_rules.mld_report (host_of context.old no_sockets).ip_addrs record_type (group.now ∷ [])))
        result) context.old) context.new }
    ensures groups { (host_of context.new no_sockets).groups ≡ (host_of context.old no_sockets).groups }
{
    let record = MldAddressRecordRepr {
        record_type,
        mcast_addr: *group,
    };
    let records = record.octets();
    let packet = mld_packet(context, 1, &records);
    send_packet(context, device, out, &packet)
}

/// An MLD report with `count` records, to all MLDv2 routers (RFC 3810 5.2).
fn mld_packet<'p>(context: &Context, count: u16, records: &'p [u8]) -> Packet<'p>
    ensures value { value_of.packet result ≡ value.Ipv6 (record {
      src_addr = mld_rules.mld_source (host_of context.now no_sockets).ip_addrs;
      dst_addr = mld_rules.mld_routers;
      hop_limit = 1;
      payload = value.Mld count records.now;
    }) }
    ensures writable { IsWritable (value_of.packet result) }
{
    Packet::Ipv6(PacketV6 {
        src_addr: mld_source(context),
        dst_addr: Ipv6Address::LINK_LOCAL_ALL_MLDV2_ROUTERS,
        hop_limit: 1,
        payload: IpPayload::Mld(count, records),
    })
}

/// The source of MLD reports: the first link-local address, otherwise the unspecified address (RFC 3810 5.2.13).
fn mld_source(context: &Context) -> Ipv6Address
    ensures { result ≡ mld_rules.mld_source (host_of context.now no_sockets).ip_addrs }
{
    match context.link_local_addr() {
        Some(address) => address,
        None => Ipv6Address::UNSPECIFIED,
    }
}

/// Appends the records of a report that answers a query: of all IPv6 groups, or of the one that was asked for. Returns
/// their number.
fn push_records(
    context: &Context,
    report: &MldReportState,
    records: &mut ArrayVec<u8, RECORDS_LEN>,
) -> u16
    requires { records.old.items ≡ [] }
    ensures count { result ≡ length (mld_rules.reported_groups (host_of context.now no_sockets) report.now) }
    ensures items { records.new.items
        ≡ mld_rules.records_of ModeIsExclude (mld_rules.reported_groups (host_of context.now no_sockets) report.now) }
{
    match report {
        MldReportState::Inactive => 0,
        MldReportState::ToGeneralQuery { .. } => push_all(context.groups().as_slice(), records),
        MldReportState::ToSpecificQuery { group, .. } => {
            push_record(records, *group);
            1
        }
    }
}

/// Appends a record of each IPv6 group. Returns their number.
fn push_all(groups: &[Group], records: &mut ArrayVec<u8, RECORDS_LEN>) -> u16
    requires few { length groups.now ≤ 16 }
    requires empty { records.old.items ≡ [] }
    ensures count { result ≡ length (ipv6_groups groups.now) }
    ensures items { records.new.items ≡ mld_rules.records_of ModeIsExclude (ipv6_groups groups.now) }
{
    let mut count = 0;
    for group in groups {
        if let IpAddress::Ipv6(address) = group.addr {
            push_record(records, address);
            count += 1;
        }
    }
    count
}

/// Appends the record of a group that is reported in answer to a query.
fn push_record(records: &mut ArrayVec<u8, RECORDS_LEN>, group: Ipv6Address)
    requires { length records.old.items + 20 ≤ 320 }
    ensures items { records.new.items
        ≡ records.old.items ++ record_text (record { record_type = ModeIsExclude; mcast_addr = group }) }
    ensures len { length records.new.items ≡ length records.old.items + 20 }
{
    let record = MldAddressRecordRepr {
        record_type: MldRecordType::ModeIsExclude,
        mcast_addr: group,
    };
    let _ = records.try_extend_from_slice(&record.octets());
}

/// When the IPv6 groups are reported.
fn mld_timeout(report: &MldReportState) -> Option<Instant>
    ensures { result ≡ mld_rules.mld_timeout_of report.now }
{
    match report {
        MldReportState::Inactive => None,
        MldReportState::ToGeneralQuery { timeout }
        | MldReportState::ToSpecificQuery { timeout, .. } => Some(*timeout),
    }
}
