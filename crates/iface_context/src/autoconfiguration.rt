//! Stateless address autoconfiguration (SLAAC) on the state of an interface (RFC 4862 5.5, RFC 4861 6.3).
ghost use Rattle.std.specs.Prelude.{◌≡◌, ◌≤◌, length};
ghost use Rattle.host_machine.specs.Context.Host.{SocketSet, no_sockets, with_slaac};
ghost use Rattle.host_machine.specs.Context.Settings.{after_address_change};
ghost use Rattle.host_machine.specs.Context.Autoconfiguration.{with_slaac_applied, after_sync};
ghost use Rattle.fragmentation.specs.Slots.{Slots};
ghost use Rattle.iface_context.specs.Stands.{host_in, host_of};
ghost use Rattle.iface_tables.specs.Slaac as learnt;
ghost use Rattle.iface_tables.specs.Slaac.{IsLifetime, slaac_after_message, slaac_after_update};

use crate::context::Context;
use crate::settings::follow_addrs;
use control_wire::NdiscPrefixInformation;
use iface_tables::Slaac;
use iface_tables::sync::{sync_addrs, sync_routes};
use ip_wire::Ipv6Address;
use net_base::time::{Duration, Instant};

impl Context {
    ghost use Rattle.std.specs.Prelude.{◌≡◌};
    ghost use Rattle.host_machine.specs.Context.Host.{no_sockets};
    ghost use Rattle.iface_context.specs.Stands.{host_of};

    /// Whether the interface takes IPv6 addresses from router advertisements.
    pub fn is_slaac_enabled(&self) -> bool
        ensures { result ≡ (host_of self.now no_sockets).slaac_enabled }
    {
        self.slaac_enabled
    }

    /// The prefixes and routers learnt from advertisements, and the state of router discovery.
    pub fn slaac(&self) -> &Slaac
        ensures { result.now ≡ (host_of self.now no_sockets).slaac }
    {
        &self.slaac
    }

    /// When addresses and routes were last synchronized with them; [`Instant::ZERO`] before the first time.
    pub fn slaac_updated_at(&self) -> Instant
        ensures { result ≡ (host_of self.now no_sockets).slaac_updated_at }
    {
        self.slaac_updated_at
    }
}

/// Processes a router advertisement: the router that sent it, its lifetime as a default router, and a prefix, if it
/// carries one. The lifetime must be below 2^32 s.
pub fn process_advertisement(
    context: &mut Context,
    router: &Ipv6Address,
    router_lifetime: Duration,
    prefix: Option<NdiscPrefixInformation>,
)
    requires { IsLifetime router_lifetime }
    ensures { (sockets : SocketSet) → host_of context.new sockets ≡ with_slaac (host_of context.old sockets)
        (slaac_after_message (host_of context.old no_sockets).slaac router.now router_lifetime prefix
        (host_of context.old no_sockets).moment) }
{
    let now = context.moment;
    context
        .slaac
        .process_advertisement(router, router_lifetime, prefix, now);
}

/// Sets whether what is known of prefixes and routers counts as changed since addresses and routes were synchronized.
pub fn set_ra_update(context: &mut Context, changed: bool)
    ensures { (sockets : SocketSet) → host_of context.new sockets ≡ with_slaac (host_of context.old sockets)
        (record (host_of context.old no_sockets).slaac { changed = changed }) }
{
    context.slaac.set_ra_update(changed);
}

/// Records that a router solicitation was sent at the interface's moment.
pub fn rs_sent(context: &mut Context)
    ensures { (sockets : SocketSet) → host_of context.new sockets ≡ with_slaac (host_of context.old sockets)
        (learnt.rs_sent (host_of context.old no_sockets).slaac (host_of context.old no_sockets).moment) }
{
    let now = context.moment;
    context.slaac.rs_sent(now);
}

/// Synchronizes addresses and routes with the prefixes and routers learnt, if one of these is new, was withdrawn or has
/// expired. Then, as with any change of addresses, all neighbours are forgotten, and solicited-node groups are left and
/// joined. What has expired is forgotten.
pub fn sync_slaac(context: &mut Context)
    ensures { (slots : Slots) (sockets : SocketSet) →
        host_in context.new slots sockets ≡ after_sync (host_in context.old slots sockets) }
{
    if context.slaac.sync_required(context.moment) {
        apply_slaac(context);
    }
}

/// Synchronizes addresses and routes with the prefixes and routers learnt.
#[inline(never)]
fn apply_slaac(context: &mut Context)
    ensures { (sockets : SocketSet) → host_of context.new sockets ≡ with_slaac_applied (host_of context.old sockets) }
{
    let now = context.moment;
    sync_addrs(
        &mut context.ip_addrs,
        context.addr_room,
        &context.hardware_addr,
        context.slaac.prefix(),
        now,
    );
    follow_addrs(context);
    sync_routes(&mut context.routes, context.slaac.routes(), now);
    finish_sync(context);
}

/// Ends a sync: forgets what has expired, and records the moment.
fn finish_sync(context: &mut Context)
    ensures { (sockets : SocketSet) → host_of context.new sockets ≡ record (host_of context.old sockets) {
      slaac = slaac_after_update (host_of context.old no_sockets).slaac (host_of context.old no_sockets).moment;
      slaac_updated_at = (host_of context.old no_sockets).moment;
    } }
{
    let now = context.moment;
    context.slaac.update_slaac_state(now);
    context.slaac_updated_at = now;
}
