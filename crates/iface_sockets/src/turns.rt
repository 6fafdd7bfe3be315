//! The turns of sockets: each socket that isn't waiting is asked for a packet in order, until the device grants no
//! transmit token.
ghost use Rattle.std.specs.Prelude.{◌≡◌, ℕ, ◌<◌, ◌≤◌, ◌^◌, length, Some, IfSome};
ghost use Rattle.sockets.specs.Icmp as icmp;
ghost use Rattle.sockets.specs.Raw as raw;
ghost use Rattle.sockets.specs.Tcp as tcp;
ghost use Rattle.sockets.specs.Udp as udp;
ghost use Rattle.net_base.specs.Time.{IsMoment};
ghost use Rattle.socket_set.specs.SocketSet.{socket_at, wait_at, with_place, with_wait};
ghost use Rattle.fragmentation.specs.Slots.{Slots};
ghost use Rattle.host_machine.specs.Context.Host.{Socket, SocketSet};
ghost use Rattle.host_machine.specs.declared.results.Turn.TheVariants.{Idle};
ghost use Rattle.host_machine.specs.Send.Hops.{HasNeighbor};
ghost use Rattle.host_machine.specs.Sockets.Turns as spec;
ghost use Rattle.iface_context.specs.Stands.{host_in};
ghost use Rattle.iface_context.specs.Refines.{RefinesTelling};
ghost use Rattle.iface_sockets.specs.Turns.{HasIdleTurn, HasTurn, IsPermitted, WaitsInVain};

use crate::icmp::give_icmp_turn;
use crate::raw::give_raw_turn;
use crate::tcp::give_tcp_turn;
use crate::udp::give_udp_turn;
use host_machine::Turn;
use iface_context::Context;
use iface_send::hops::has_neighbor;
use ip_wire::IpAddress;
use ip_wire::emit::FrameBuffer;
use net_base::phy::Device;
use net_base::time::Instant;
use socket_set::{SocketSet, by_index};
use sockets::{SocketContext, icmp, raw, tcp, udp};

/// Gives each socket that isn't waiting its turn in order, until the device grants no transmit token. Idle sockets are
/// skipped. Returns whether a packet of some socket was sent or dropped.
pub fn socket_egress<D: Device>(
    context: &mut Context,
    device: &mut D,
    out: &mut FrameBuffer,
    sockets: &mut SocketSet<'_>,
) -> bool
    ensures { (slots : Slots) → RefinesTelling D.tells device.old device.new
        (spec.SocketEgress (host_in context.old slots sockets.old) result) (host_in context.new slots sockets.new) }
{
    let mut changed = false;
    let mut index = by_index::next_busy(sockets, 0);
    while index < by_index::places(sockets) {
        let turn = serve(context, device, out, sockets, index);
        if turn.is_exhausted() {
            return changed;
        }
        changed |= turn.is_done();
        index = next_unlike(context, sockets, index, turn);
    }
    changed
}

/// The first index behind a socket that had its turn whose own socket may have something to do. If nothing came of that
/// turn, the sockets that wait as the one does are passed: their next hop is as unknown, and their turns as idle.
#[inline(always)]
fn next_unlike(context: &Context, sockets: &SocketSet<'_>, served: usize, turn: Turn) -> usize
    requires fits { length sockets.now.places < 2 ^ 64 }
    requires within { served < length sockets.now.places }
    requires unknown { turn ≡ Idle → (slots : Slots) → WaitsInVain (host_in context.now slots sockets.now) served }
    ensures within { result ≤ length sockets.now.places }
    ensures after { served < result }
    ensures passed { (slots : Slots) (i : ℕ) → served < i → i < result →
        HasIdleTurn (host_in context.now slots sockets.now) i }
{
    let next = served + 1;
    match turn {
        Turn::Idle if by_index::waits_like(sockets, next, served, context.now()).is_some() => {
            next_behind_run(context, sockets, served)
        }
        _ => by_index::next_busy(sockets, next),
    }
}

/// The same, where the next socket waits as that one does.
#[inline(never)]
fn next_behind_run(context: &Context, sockets: &SocketSet<'_>, served: usize) -> usize
    requires fits { length sockets.now.places < 2 ^ 64 }
    requires within { served < length sockets.now.places }
    requires unknown { (slots : Slots) → WaitsInVain (host_in context.now slots sockets.now) served }
    ensures within { result ≤ length sockets.now.places }
    ensures after { served < result }
    ensures passed { (slots : Slots) (i : ℕ) → served < i → i < result →
        HasIdleTurn (host_in context.now slots sockets.now) i }
{
    let now = context.now();
    for index in served + 1..by_index::places(sockets) {
        if by_index::waits_like(sockets, index, served, now).is_none() {
            return by_index::next_busy(sockets, index);
        }
    }
    by_index::places(sockets)
}

/// Gives the socket at an index its turn. A socket whose packet could not be sent waits for its destination from then
/// on. An idle socket is skipped until it is borrowed again.
fn serve<D: Device>(
    context: &mut Context,
    device: &mut D,
    out: &mut FrameBuffer,
    sockets: &mut SocketSet<'_>,
    index: usize,
) -> Turn
    requires { index < length sockets.old.places }
    ensures told { (slots : Slots) → RefinesTelling D.tells device.old device.new
        (spec.Serves index result (host_in context.old slots sockets.old)) (host_in context.new slots sockets.new) }
    ensures places { length sockets.new.places ≡ length sockets.old.places }
{
    if by_index::rest(sockets, index) {
        return Turn::Idle;
    }
    serve_busy(context, device, out, sockets, index)
}

/// Gives the socket at an index its turn, where it may be busy.
#[inline(never)]
fn serve_busy<D: Device>(
    context: &mut Context,
    device: &mut D,
    out: &mut FrameBuffer,
    sockets: &mut SocketSet<'_>,
    index: usize,
) -> Turn
    requires { index < length sockets.old.places }
    ensures told { (slots : Slots) → RefinesTelling D.tells device.old device.new
        (spec.Serves index result (host_in context.old slots sockets.old)) (host_in context.new slots sockets.new) }
    ensures places { length sockets.new.places ≡ length sockets.old.places }
{
    let now = context.now();
    if !is_permitted(context, sockets, index) {
        return Turn::Idle;
    }
    let turn = give_turn(sockets, index, context, device, out);
    wait_for_neighbor(sockets, index, now, turn);
    turn
}

/// Whether the socket at an index may be asked for a packet: there is one, and it isn't waiting. The wait ends when the
/// next hop to the destination becomes known.
fn is_permitted(context: &Context, sockets: &mut SocketSet<'_>, index: usize) -> bool
    ensures { IsPermitted context.now sockets.old index result sockets.new }
{
    by_index::egress_permitted(
        sockets,
        index,
        context.now(),
        |address: IpAddress| -> bool
            ensures { (slots : Slots) (others : SocketSet) →
                HasNeighbor (host_in context.exit.now slots others) address result }
        { has_neighbor(context, &address) },
    )
}

/// Makes the socket at an index wait for the destination of its packet, if the packet could not be sent.
fn wait_for_neighbor(sockets: &mut SocketSet<'_>, index: usize, now: Instant, turn: Turn)
    requires { IsMoment now }
    ensures { sockets.new ≡ with_wait sockets.old index (spec.wait_after turn now (wait_at sockets.old index)) }
{
    match turn {
        Turn::Deferred(destination) => by_index::neighbor_missing(sockets, index, now, destination),
        Turn::Idle | Turn::Done | Turn::Exhausted => {}
    }
}

/// Gives the socket at an index its turn, by its kind, which stays the same.
#[inline(always)]
fn give_turn<D: Device>(
    sockets: &mut SocketSet<'_>,
    index: usize,
    context: &mut Context,
    device: &mut D,
    out: &mut FrameBuffer,
) -> Turn
    ensures { IfSome (socket_at sockets.old index) (λ before. (after : Socket)
        × RefinesTelling D.tells device.old device.new (HasTurn before result after context.old) context.new
        × (sockets.new ≡ with_place sockets.old index (Some after))) }
{
    if let Some(udp) = by_index::kind_mut::<udp::Socket<'_>, _>(sockets, index) {
        return give_udp_turn(udp, context, device, out);
    }
    if let Some(tcp) = by_index::kind_mut::<tcp::Socket<'_>, _>(sockets, index) {
        return give_tcp_turn(tcp, context, device, out);
    }
    if let Some(icmp) = by_index::kind_mut::<icmp::Socket<'_>, _>(sockets, index) {
        return give_icmp_turn(icmp, context, device, out);
    }
    if let Some(raw) = by_index::kind_mut::<raw::Socket<'_>, _>(sockets, index) {
        return give_raw_turn(raw, context, device, out);
    }
    Turn::Idle
}
