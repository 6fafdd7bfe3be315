//! What calls of an interface change in its groups, and in the reports about them.
ghost use Rattle.std.specs.Prelude.{◌≡◌, ◌+◌, ◌<◌, Some, OnErr};
ghost use Rattle.iface_tables.specs.declared.groups.GroupState.TheVariants.{Joining, Leaving};
ghost use Rattle.iface_tables.specs.Groups.{count_in, done_or_full, first_in, join_reported};
ghost use Rattle.iface_tables.specs.Groups.{groups_after_join, leave_reported, groups_after_leave};
ghost use Rattle.host_machine.specs.Context.Host.{SocketSet, no_sockets, with_groups};
ghost use Rattle.host_machine.specs.Context.Host.{with_igmp_report, with_mld_report};
ghost use Rattle.iface_context.specs.Multicast.{interval_of};
ghost use Rattle.iface_context.specs.Stands.{host_of};

use crate::context::Context;
use iface_tables::{GroupTableFull, Groups, IgmpReportState, MldReportState};
use ip_wire::IpAddress;

impl Context {
    ghost use Rattle.std.specs.Prelude.{◌≡◌, ◌<◌};
    ghost use Rattle.host_machine.specs.Context.Host.{no_sockets};
    ghost use Rattle.iface_context.specs.Multicast.{interval_of};
    ghost use Rattle.iface_context.specs.Stands.{host_of};

    /// The groups, each with what is still to be reported of it, in the order in which they are walked.
    pub fn groups(&self) -> &Groups
        ensures { result.now ≡ (host_of self.now no_sockets).groups }
    {
        &self.multicast.groups
    }

    /// The pending IGMP report, and when it is due.
    pub fn igmp_report(&self) -> IgmpReportState
        ensures value { result ≡ (host_of self.now no_sockets).igmp_report }
        ensures paced { interval_of result < 3600000000 }
    {
        self.multicast.igmp_report
    }

    /// The pending MLD report, and when it is due.
    pub fn mld_report(&self) -> MldReportState
        ensures { result ≡ (host_of self.now no_sockets).mld_report }
    {
        self.multicast.mld_report
    }
}

/// Joins a group, as [`Groups::join`] does. Fails with `GroupTableFull` exactly if the group isn't in the table and
/// there is no room for another; then nothing changes.
pub fn join_group(context: &mut Context, group: IpAddress) -> Result<(), GroupTableFull>
    ensures answer { result ≡ done_or_full (host_of context.old no_sockets).group_room
        (host_of context.old no_sockets).groups group }
    ensures groups { (sockets : SocketSet) → host_of context.new sockets ≡ with_groups (host_of context.old sockets)
        (groups_after_join (host_of context.old no_sockets).group_room (host_of context.old no_sockets).groups group) }
    ensures unchanged { OnErr result
        ((sockets : SocketSet) → host_of context.new sockets ≡ host_of context.old sockets) }
{
    let room = context.multicast.room;
    context.multicast.groups.join(group, room)
}

/// Leaves a group, as [`Groups::leave`] does.
pub fn leave_group(context: &mut Context, group: &IpAddress)
    ensures { (sockets : SocketSet) → host_of context.new sockets ≡ with_groups (host_of context.old sockets)
        (groups_after_leave (host_of context.old no_sockets).groups group.now) }
{
    context.multicast.groups.leave(group);
}

/// Records that the join of a group was reported.
pub fn join_reported(context: &mut Context, group: &IpAddress)
    ensures groups { (sockets : SocketSet) → host_of context.new sockets
        ≡ with_groups (host_of context.old sockets) (join_reported (host_of context.old no_sockets).groups group.now) }
    ensures fewer { first_in Joining (host_of context.old no_sockets).groups ≡ Some group.now →
        count_in Joining (host_of context.old no_sockets).groups
        ≡ count_in Joining (host_of context.new no_sockets).groups + 1 }
{
    context.multicast.groups.join_reported(group);
}

/// Records that the leave of a group was reported, and removes the group.
pub fn leave_reported(context: &mut Context, group: &IpAddress)
    ensures groups { (sockets : SocketSet) → host_of context.new sockets
        ≡ with_groups (host_of context.old sockets) (leave_reported (host_of context.old no_sockets).groups group.now) }
    ensures fewer { first_in Leaving (host_of context.old no_sockets).groups ≡ Some group.now →
        count_in Leaving (host_of context.old no_sockets).groups
        ≡ count_in Leaving (host_of context.new no_sockets).groups + 1 }
{
    context.multicast.groups.leave_reported(group);
}

/// Sets the pending IGMP report. Its reports must be less than an hour apart.
pub fn set_igmp_report(context: &mut Context, report: IgmpReportState)
    requires { interval_of report < 3600000000 }
    ensures { (sockets : SocketSet) →
        host_of context.new sockets ≡ with_igmp_report (host_of context.old sockets) report }
{
    context.multicast.igmp_report = report;
}

/// Sets the pending MLD report.
pub fn set_mld_report(context: &mut Context, report: MldReportState)
    ensures { (sockets : SocketSet) →
        host_of context.new sockets ≡ with_mld_report (host_of context.old sockets) report }
{
    context.multicast.mld_report = report;
}
