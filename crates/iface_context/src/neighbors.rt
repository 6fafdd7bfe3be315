//! What an interface learns of its neighbours from what it receives.
ghost use Rattle.std.specs.Prelude.{◌≡◌, List, [], true};
ghost use Rattle.ip_address.specs.Hardware as hardware;
ghost use Rattle.ip_address.specs.Ip.{is_unicast};
ghost use Rattle.iface_tables.specs.Neighbor.{Fills, after_limit, after_renewal, answer_of, expiry_from, is_found};
ghost use Rattle.host_machine.specs.Context.Host.{SocketSet, with_neighbors, no_sockets};
ghost use Rattle.host_machine.specs.Send.Requests.{with_silence};
ghost use Rattle.iface_context.specs.Stands.{host_of};

use crate::context::Context;
use iface_tables::neighbor::Answer;
use ip_wire::{HardwareAddress, IpAddress};
use net_base::time::Instant;

/// What is known of a neighbour at the interface's moment. Its address must be unicast.
#[inline(always)]
pub fn lookup(context: &Context, protocol_addr: &IpAddress) -> Answer
    requires { is_unicast protocol_addr.now ≡ true }
    ensures { result ≡ answer_of (host_of context.now no_sockets).neighbors protocol_addr.now
        (host_of context.now no_sockets).moment }
{
    context.neighbor_cache.lookup(protocol_addr, context.moment)
}

/// Whether a neighbour is known at the interface's moment. Its address must be unicast.
pub fn is_known(context: &Context, protocol_addr: &IpAddress) -> bool
    requires { is_unicast protocol_addr.now ≡ true }
    ensures { result ≡ is_found (answer_of (host_of context.now no_sockets).neighbors protocol_addr.now
        (host_of context.now no_sockets).moment) }
{
    context
        .neighbor_cache
        .lookup(protocol_addr, context.moment)
        .found()
}

/// Stores a neighbour's hardware address for 60 s from the interface's moment. Both addresses must be unicast.
pub fn fill_neighbor(
    context: &mut Context,
    protocol_addr: IpAddress,
    hardware_addr: HardwareAddress,
)
    requires protocol { is_unicast protocol_addr ≡ true }
    requires link { hardware.is_unicast hardware_addr ≡ true }
    requires of_medium { hardware.medium_of hardware_addr ≡ (host_of context.old no_sockets).capabilities.medium }
    ensures neighbors { Fills (host_of context.old no_sockets).neighbors
        (host_of context.new no_sockets).neighbors protocol_addr
        (record { hardware_addr = hardware_addr; expires_at = expiry_from (host_of context.old no_sockets).moment }) }
    ensures same { (sockets : SocketSet) → host_of context.new sockets
        ≡ with_neighbors (host_of context.old sockets) (host_of context.new no_sockets).neighbors }
{
    context
        .neighbor_cache
        .fill(protocol_addr, hardware_addr, context.moment);
}

/// Extends a neighbour's entry to 60 s from the interface's moment, if it has this hardware address. Otherwise nothing
/// changes.
#[inline(always)]
pub fn renew_neighbor(
    context: &mut Context,
    protocol_addr: IpAddress,
    hardware_addr: HardwareAddress,
)
    ensures { (sockets : SocketSet) → host_of context.new sockets
        ≡ with_neighbors (host_of context.old sockets) (after_renewal (host_of context.old no_sockets).neighbors
        protocol_addr hardware_addr (expiry_from (host_of context.old no_sockets).moment)) }
{
    context
        .neighbor_cache
        .reset_expiry_if_existing(protocol_addr, hardware_addr, context.moment);
}

/// Begins a silence of a second from the interface's moment, in which no neighbour is asked for.
#[inline(always)]
pub fn limit_rate(context: &mut Context)
    ensures { (sockets : SocketSet) → host_of context.new sockets ≡ with_neighbors (host_of context.old sockets)
        (with_silence (host_of context.old no_sockets).neighbors (host_of context.old no_sockets)) }
{
    context.neighbor_cache.limit_rate(context.moment);
}

/// Lets a neighbour's entry expire at an instant, if it would expire later. Otherwise nothing changes.
pub fn limit_neighbor(context: &mut Context, protocol_addr: IpAddress, expires_at: Instant)
    ensures { (sockets : SocketSet) → host_of context.new sockets ≡ with_neighbors (host_of context.old sockets)
        (after_limit (host_of context.old no_sockets).neighbors protocol_addr expires_at) }
{
    context
        .neighbor_cache
        .limit_expiry(protocol_addr, expires_at);
}

/// Sets the instant until which no neighbour is asked for.
pub fn set_silence(context: &mut Context, until: Instant)
    ensures { (sockets : SocketSet) → host_of context.new sockets ≡ with_neighbors (host_of context.old sockets)
        (record (host_of context.old no_sockets).neighbors { silent_until = until }) }
{
    context.neighbor_cache.set_silence(until);
}
