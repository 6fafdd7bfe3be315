//! When router discovery has work.
ghost use Rattle.std.specs.Prelude.{◌≡◌};
ghost use Rattle.host_machine.specs.Context.Host.{no_sockets};
ghost use Rattle.host_machine.specs.Discovery.Polling as due;
ghost use Rattle.host_machine.specs.Discovery.Polling.{routers_poll_at};
ghost use Rattle.iface_context.specs.Stands.{host_of};

use crate::router_solicitation::rs_poll_at;
use iface_context::Context;
use net_base::instants::earlier_of;
use net_base::time::Instant;
use sockets::SocketContext;

/// The earliest of an instant and of those at which router discovery has work: immediately for a pending sync of
/// addresses and routes; the next router solicitation; and the expiry of what routers advertised.
pub fn routers_poll_at(context: &Context, other: Option<Instant>) -> Option<Instant>
    ensures { result ≡ routers_poll_at (host_of context.now no_sockets) other }
{
    let ends = earlier_of(context.slaac().end_at(context.now()), other);
    earlier_of(sync_poll_at(context), earlier_of(rs_poll_at(context), ends))
}

/// When addresses and routes have to be synchronized with router advertisements: immediately, if they are out of date.
fn sync_poll_at(context: &Context) -> Option<Instant>
    ensures { result ≡ due.sync_poll_at (host_of context.now no_sockets) }
{
    if context.slaac().sync_required(context.now()) {
        Some(Instant::ZERO)
    } else {
        None
    }
}
