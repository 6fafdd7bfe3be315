//! When the sockets of an interface have to be polled again.
ghost use Rattle.std.specs.Prelude.{◌≡◌, ◌+◌, ◌<◌, ◌≤◌, ◌^◌, length, None};
ghost use Rattle.fragmentation.specs.Slots.{Slots};
ghost use Rattle.host_machine.specs.Context.Host.{SocketSet};
ghost use Rattle.host_machine.specs.Send.Hops.{HasNeighbor};
ghost use Rattle.host_machine.specs.Sockets.Polling as spec;
ghost use Rattle.host_machine.specs.Interface.Due.{IsLeast};
ghost use Rattle.host_machine.specs.Sockets.Polling.{SocketsDue};
ghost use Rattle.iface_context.specs.Stands.{host_in};
ghost use Rattle.iface_sockets.specs.Polling.{DueBefore};

use iface_context::Context;
use iface_send::hops::has_neighbor;
use ip_wire::IpAddress;
use net_base::instants::earlier_of;
use net_base::time::Instant;
use socket_set::{SocketSet, by_index};
use sockets::{PollAt, SocketContext};

/// The earliest instant at which a socket has work: its own instant, or the end of its wait. Idle sockets, which have
/// no instant, are skipped. `None` if no socket has one.
pub fn sockets_poll_at(context: &Context, sockets: &SocketSet<'_>) -> Option<Instant>
    ensures { (slots : Slots) → IsLeast (SocketsDue (host_in context.now slots sockets.now)) result }
{
    let first = by_index::next_busy(sockets, 0);
    if first >= by_index::places(sockets) {
        return None;
    }
    least_from(context, sockets, first)
}

/// The same, where no socket before an index has an instant. A call, so that a set of idle sockets costs no more.
#[inline(never)]
fn least_from(context: &Context, sockets: &SocketSet<'_>, first: usize) -> Option<Instant>
    requires fits { length sockets.now.places < 2 ^ 64 }
    requires within { first ≤ length sockets.now.places }
    requires idle { (slots : Slots) → IsLeast (DueBefore (host_in context.now slots sockets.now) first) None }
    ensures { (slots : Slots) → IsLeast (SocketsDue (host_in context.now slots sockets.now)) result }
{
    let now = context.now();
    let mut least = None;
    let mut index = first;
    while index < by_index::places(sockets) {
        let own = by_index::poll_at(
            sockets,
            index,
            now,
            |address: IpAddress| -> bool
                ensures { (slots : Slots) (others : SocketSet) →
                    HasNeighbor (host_in context.exit.now slots others) address result }
            { has_neighbor(context, &address) },
        );
        least = earlier_of(least, instant_of(own));
        let (next, sooner) = pass_alike(context, sockets, index, least);
        least = sooner;
        index = by_index::next_busy(sockets, next);
    }
    least
}

/// Passes the sockets after one that wait as it does, if its next hop isn't known. Returns the first index after them,
/// and the earliest instant of the sockets up to there, where `least` is that of those up to the one.
#[inline(always)]
fn pass_alike(
    context: &Context,
    sockets: &SocketSet<'_>,
    first: usize,
    least: Option<Instant>,
) -> (usize, Option<Instant>)
    requires fits { length sockets.now.places < 2 ^ 64 }
    requires within { first < length sockets.now.places }
    ensures within { result.0 ≤ length sockets.now.places }
    ensures after { first < result.0 }
    ensures least { (slots : Slots) → IsLeast (DueBefore (host_in context.now slots sockets.now) (first + 1)) least →
        IsLeast (DueBefore (host_in context.now slots sockets.now) result.0) result.1 }
{
    if by_index::waits_like(sockets, first + 1, first, context.now()).is_none() {
        return (first + 1, least);
    }
    pass_run(context, sockets, first, least)
}

/// The same, where the next socket waits as that one does.
#[inline(never)]
fn pass_run(
    context: &Context,
    sockets: &SocketSet<'_>,
    first: usize,
    least: Option<Instant>,
) -> (usize, Option<Instant>)
    requires fits { length sockets.now.places < 2 ^ 64 }
    requires within { first < length sockets.now.places }
    ensures within { result.0 ≤ length sockets.now.places }
    ensures after { first < result.0 }
    ensures least { (slots : Slots) → IsLeast (DueBefore (host_in context.now slots sockets.now) (first + 1)) least →
        IsLeast (DueBefore (host_in context.now slots sockets.now) result.0) result.1 }
{
    let Some((address, _)) = by_index::wait(sockets, first) else {
        return (first + 1, least);
    };
    if has_neighbor(context, &address) {
        return (first + 1, least);
    }
    let now = context.now();
    let mut sooner = least;
    for index in first + 1..by_index::places(sockets) {
        let Some(until) = by_index::waits_like(sockets, index, first, now) else {
            return (index, sooner);
        };
        sooner = earlier_of(sooner, Some(until));
    }
    (by_index::places(sockets), sooner)
}

/// The instant of a socket's answer; 0 for what is due immediately.
const fn instant_of(own: PollAt) -> Option<Instant>
    ensures { result ≡ spec.instant_of own }
{
    match own {
        PollAt::Now => Some(Instant::ZERO),
        PollAt::Time(instant) => Some(instant),
        PollAt::Ingress => None,
    }
}
