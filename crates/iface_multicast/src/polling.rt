//! When groups have something to report.
ghost use Rattle.std.specs.Prelude.{◌≡◌};
ghost use Rattle.host_machine.specs.Context.Host.{no_sockets};
ghost use Rattle.host_machine.specs.Multicast.Polling.{groups_poll_at};
ghost use Rattle.iface_context.specs.Stands.{host_of};

use crate::igmp::igmp_poll_at;
use crate::joins::group_poll_at;
use crate::mld::mld_poll_at;
use iface_context::Context;
use iface_tables::GroupState;
use net_base::instants::earlier_of;
use net_base::time::Instant;
use sockets::SocketContext;

/// The earlier of an instant and of the instants at which groups have something to report.
pub fn groups_poll_at(context: &Context, other: Option<Instant>) -> Option<Instant>
    ensures { result ≡ groups_poll_at (host_of context.now no_sockets) other }
{
    let reports = earlier_of(
        igmp_poll_at(context),
        earlier_of(mld_poll_at(context), other),
    );
    let leaves = earlier_of(group_poll_at(context, GroupState::Leaving), reports);
    earlier_of(group_poll_at(context, GroupState::Joining), leaves)
}
