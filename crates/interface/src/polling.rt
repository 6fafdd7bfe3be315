//! When an interface has to be polled again.
ghost use Rattle.std.specs.Prelude.{◌≡◌};
ghost use Rattle.fragmentation.specs.Slots.{Slots};
ghost use Rattle.host_machine.specs.Interface.Due.{Due, IsLeast};
ghost use Rattle.host_machine.specs.Interface.Egress.{answer_of};
ghost use Rattle.iface_context.specs.Stands.{host_in};

use host_machine::PollResult;
use iface_context::Context;
use iface_receive::discovery_polling::routers_poll_at;
use iface_receive::group_polling::groups_poll_at;
use iface_receive::polling::sockets_poll_at;
use iface_send::fragments::piece_poll_at;
use net_base::instants::earlier_of;
use net_base::time::Instant;
use socket_set::SocketSet;

/// The earliest instant at which `poll` has work, if any. Immediately: a pending fragment, an unreported join or leave,
/// and a SLAAC sync. Later: a router solicitation, a group report, the expiry of what routers advertised, and each
/// socket's own instant or the end of its wait. Idle sockets, which have no instant, are skipped.
pub fn poll_at(context: &Context, sockets: &SocketSet<'_>) -> Option<Instant>
    ensures { (slots : Slots) → IsLeast (Due (host_in context.now slots sockets.now)) result }
{
    let of_sockets = sockets_poll_at(context, sockets);
    let of_routers = routers_poll_at(context, groups_poll_at(context, of_sockets));
    earlier_of(piece_poll_at(context), of_routers)
}

/// The result of a poll: `SocketStateChanged` if something changed, otherwise `None`.
pub const fn poll_result(changed: bool) -> PollResult
    ensures { result ≡ answer_of changed }
{
    if changed {
        PollResult::SocketStateChanged
    } else {
        PollResult::None
    }
}
