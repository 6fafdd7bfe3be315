//! Reports of joins and leaves (RFC 2236 3, RFC 3810 6.1).
ghost use Rattle.std.specs.Prelude.{◌≡◌, ◌+◌, ◌<◌, Some, IfSome, true};
ghost use Rattle.std.specs.Option.{option_map};
ghost use Rattle.iface_tables.specs.declared.groups.GroupState.TheVariants.{Joining, Leaving};
ghost use Rattle.iface_tables.specs.Groups.{count_in, first_in, join_reported, leave_reported};
ghost use Rattle.host_machine.specs.Context.Host.{no_sockets};
ghost use Rattle.host_machine.specs.Multicast.Polling.{group_poll_at};
ghost use Rattle.host_machine.specs.Multicast.Joins as spec;
ghost use Rattle.host_machine.specs.Packet.Packet.{IsWritable};
ghost use Rattle.iface_context.specs.Details.PacketValues as value_of;
ghost use Rattle.iface_context.specs.Stands.{host_of};
ghost use Rattle.iface_send.specs.Offered.{HasPart, IsOffered};
ghost use Rattle.iface_multicast.specs.Joins.{IsReported};
ghost use Rattle.iface_context.specs.Refines.{RefinesTelling};

use crate::igmp::{igmp_packet, igmp_report};
use crate::mld::send_record;
use control_wire::{IgmpRepr, IgmpVersion, MldRecordType};
use iface_context::multicast::{join_reported, leave_reported};
use iface_context::{Context, Packet};
use iface_send::transmit::send_packet;
use iface_tables::GroupState;
use ip_wire::emit::FrameBuffer;
use ip_wire::{IpAddress, Ipv4Address};
use net_base::phy::Device;
use net_base::time::Instant;
use sockets::SocketContext;

/// Reports each join that isn't reported yet, in the order of the table, until the device grants no transmit token.
pub fn joins_egress<D: Device>(context: &mut Context, device: &mut D, out: &mut FrameBuffer)
    ensures { RefinesTelling D.tells device.old device.new (HasPart spec.JoinsEgress context.old) context.new }
{
    while let Some(group) = context.groups().first_in(GroupState::Joining) {
        if !report_join(context, device, out, &group) {
            return;
        }
    }
}

/// Reports each leave that isn't reported yet, in the order of the table, until the device grants no transmit token.
/// Each reported group is removed.
pub fn leaves_egress<D: Device>(context: &mut Context, device: &mut D, out: &mut FrameBuffer)
    ensures { RefinesTelling D.tells device.old device.new (HasPart spec.LeavesEgress context.old) context.new }
{
    while let Some(group) = context.groups().first_in(GroupState::Leaving) {
        if !report_leave(context, device, out, &group) {
            return;
        }
    }
}

/// When a group in this state has to be reported: immediately, if there is one.
pub fn group_poll_at(context: &Context, state: GroupState) -> Option<Instant>
    ensures { result ≡ group_poll_at state (host_of context.now no_sockets) }
{
    context.groups().first_in(state)?;
    Some(Instant::ZERO)
}

/// Reports that a group was joined. Returns `false` if the device granted no transmit token; otherwise the join counts
/// as reported.
fn report_join<D: Device>(
    context: &mut Context,
    device: &mut D,
    out: &mut FrameBuffer,
    group: &IpAddress,
) -> bool
    ensures told { RefinesTelling D.tells device.old device.new
        (HasPart (IsReported spec.join_packet join_reported group.now result) context.old) context.new }
    ensures fewer { result ≡ true → first_in Joining (host_of context.old no_sockets).groups ≡ Some group.now →
        count_in Joining (host_of context.old no_sockets).groups
        ≡ count_in Joining (host_of context.new no_sockets).groups + 1 }
{
    let granted = send_join(context, device, out, group);
    if granted {
        join_reported(context, group);
    }
    granted
}

/// Reports that a group was left. Returns `false` if the device granted no transmit token; otherwise the group is
/// removed.
fn report_leave<D: Device>(
    context: &mut Context,
    device: &mut D,
    out: &mut FrameBuffer,
    group: &IpAddress,
) -> bool
    ensures told { RefinesTelling D.tells device.old device.new
        (HasPart (IsReported spec.leave_packet leave_reported group.now result) context.old) context.new }
    ensures fewer { result ≡ true → first_in Leaving (host_of context.old no_sockets).groups ≡ Some group.now →
        count_in Leaving (host_of context.old no_sockets).groups
        ≡ count_in Leaving (host_of context.new no_sockets).groups + 1 }
{
    let granted = send_leave(context, device, out, group);
    if granted {
        leave_reported(context, group);
    }
    granted
}

/// Sends the report of a join, if there is an address to send it from and the device grants a transmit token. Returns
/// `false` if a token was refused.
fn send_join<D: Device>(
    context: &mut Context,
    device: &mut D,
    out: &mut FrameBuffer,
    group: &IpAddress,
) -> bool
    ensures told { RefinesTelling D.tells device.old device.new
        (HasPart (IsOffered (spec.join_packet (host_of context.old no_sockets).ip_addrs group.now) result) context.old)
        context.new }
    ensures groups { (host_of context.new no_sockets).groups ≡ (host_of context.old no_sockets).groups }
{
    match group {
        IpAddress::Ipv4(group) => {
            let packet = igmp_report(context, IgmpVersion::Version2, group);
            send_if_some(context, device, out, &packet)
        }
        IpAddress::Ipv6(group) => {
            send_record(context, device, out, MldRecordType::ChangeToExclude, group)
        }
    }
}

/// Sends the report of a leave, if there is an address to send it from and the device grants a transmit token. Returns
/// `false` if a token was refused.
fn send_leave<D: Device>(
    context: &mut Context,
    device: &mut D,
    out: &mut FrameBuffer,
    group: &IpAddress,
) -> bool
    ensures told { RefinesTelling D.tells device.old device.new
        (HasPart (IsOffered (spec.leave_packet (host_of context.old no_sockets).ip_addrs group.now) result) context.old)
        context.new }
    ensures groups { (host_of context.new no_sockets).groups ≡ (host_of context.old no_sockets).groups }
{
    match group {
        IpAddress::Ipv4(group) => {
            let message = IgmpRepr::LeaveGroup { group_addr: *group };
            let packet = igmp_packet(context, Ipv4Address::MULTICAST_ALL_ROUTERS, message);
            send_if_some(context, device, out, &packet)
        }
        IpAddress::Ipv6(group) => {
            send_record(context, device, out, MldRecordType::ChangeToInclude, group)
        }
    }
}

/// Sends a packet, if there is one and the device grants a transmit token. Returns `false` if a token was refused.
fn send_if_some<D: Device>(
    context: &mut Context,
    device: &mut D,
    out: &mut FrameBuffer,
    packet: &Option<Packet<'_>>,
) -> bool
    requires { IfSome packet.now (λ p. IsWritable (value_of.packet p)) }
    ensures told { RefinesTelling D.tells device.old device.new
        (HasPart (IsOffered (option_map value_of.packet packet.now) result) context.old) context.new }
    ensures groups { (host_of context.new no_sockets).groups ≡ (host_of context.old no_sockets).groups }
{
    match packet {
        Some(packet) => send_packet(context, device, out, packet),
        None => true,
    }
}
