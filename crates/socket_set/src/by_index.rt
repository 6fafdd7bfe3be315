//! The sockets of a set by their indices, for the layers that serve all of them in turn.
ghost use Rattle.std.specs.Borrow.{sem, LendsIf};
ghost use Rattle.std.specs.Prelude.{◌≡◌, ◌≢◌, ◌<◌, ◌≤◌, ℕ, Bool, true, false, Some, IsSome, IsNone, IfSome, is_some, length};
ghost use Rattle.std.specs.Option.{option_copied, option_copied_mut, option_and_then};
ghost use Rattle.net_base.specs.Time.{IsMoment, silence_from};
ghost use Rattle.sockets.specs.Kinds.{own_port, poll_at as own_poll_at};
ghost use Rattle.sockets.specs.contracts.socket.SocketOf.{the_row as socket_row};
ghost use Rattle.sockets.specs.declared.poll_at.PollAt.TheVariants.{Ingress};
ghost use Rattle.socket_set.specs.Details.Alike.{waits_like};
ghost use Rattle.socket_set.specs.Details.Busy.{IsIdle};
ghost use Rattle.socket_set.specs.Details.Datagrams.{after_datagram, is_udp};
ghost use Rattle.socket_set.specs.Details.Keys.{AllHavePorts};
ghost use Rattle.socket_set.specs.SocketMeta.{poll_at as poll_at_of, IsAnswerFor, after_asking, is_permitted, is_wait};
ghost use Rattle.socket_set.specs.SocketSet.{socket_at, wait_at, wait_of, with_place, with_wait};
ghost use Rattle.socket_set.specs.contracts.socket_set.SocketSetOf.{the_row as set_row};

use crate::socket_set::{SocketHandle, SocketSetOf};
use ip_wire::IpAddress;
use net_base::time::Instant;
use sockets::socket::{AnySocketOf, SocketOf};
use sockets::{IpEndpoint, PollAt};

/// Returns how many indices there are, free or not.
pub fn places<L: Drop>(sockets: &SocketSetOf<L>) -> usize
    ensures { result ≡ length sockets.now.places }
{
    sockets.places()
}

/// Returns the index that a handle names.
pub fn index_of(handle: SocketHandle) -> usize
    ensures { result ≡ handle }
{
    handle.index()
}

/// Returns the socket at an index, if it is of a kind. `None` exactly for a free index, a socket of another
/// kind, or an index out of range.
#[inline(always)]
pub fn kind<T: AnySocketOf<L>, L: Drop>(sockets: &SocketSetOf<L>, index: usize) -> Option<&T>
    ensures { option_copied result ≡ option_and_then T.down (socket_at sockets.now index) }
{
    sockets.kind(index)
}

/// Returns the socket at an index, of whatever kind. `None` exactly for a free index or one out of range.
pub fn socket<L: Drop>(sockets: &SocketSetOf<L>, index: usize) -> Option<&SocketOf<L>>
    ensures { option_copied result ≡ socket_at sockets.now index }
{
    sockets.socket(index)
}

/// Returns the socket at an index for writing, if it is of a kind. At `None` the set stays as it was.
pub fn kind_mut<T: AnySocketOf<L>, L: Drop>(
    sockets: &mut SocketSetOf<L>,
    index: usize,
) -> Option<&mut T>
    ensures* lends { sem 𝓛 (LendsIf (set_row L.row) T.row sockets.entry result
        (λ w. with_place sockets.old index (Some (T.up w))) sockets.old) }
    ensures value { option_copied_mut result ≡ option_and_then T.down (socket_at sockets.old index) }
    ensures whole { IfSome (option_copied_mut result) (λ s. socket_at sockets.old index ≡ Some (T.up s)) }
{
    sockets.kind_mut(index)
}

/// Queues a datagram received from an endpoint at the UDP socket of an index, or drops it for lack of room. Returns
/// whether there is such a socket; otherwise the set stays as it was. Mark and key of the index stay: the socket gets
/// neither another port nor anything to send.
#[inline(always)]
pub fn process_udp<L: Drop>(
    sockets: &mut SocketSetOf<L>,
    index: usize,
    remote: IpEndpoint,
    payload: &[u8],
) -> bool
    ensures there { result ≡ is_udp (socket_at sockets.old index) }
    ensures heard { sockets.new
        ≡ with_place sockets.old index (after_datagram remote payload.now (socket_at sockets.old index)) }
{
    sockets.process_udp(index, remote, payload)
}

/// Returns the socket at an index, of whatever kind, for writing. `None` exactly for a free index or one out of
/// range; then the set stays as it was.
pub fn socket_mut<L: Drop>(sockets: &mut SocketSetOf<L>, index: usize) -> Option<&mut SocketOf<L>>
    ensures* lends { sem 𝓛 (LendsIf (set_row L.row) (socket_row L.row) sockets.entry result
        (λ w. with_place sockets.old index (Some w)) sockets.old) }
    ensures value { option_copied_mut result ≡ socket_at sockets.old index }
{
    sockets.socket_mut(index)
}

/// Returns the destination whose next hop the socket at an index waits for, and when it may be asked again. `None`
/// exactly where it doesn't wait, for a free index, or one out of range. A wait whose end has passed stays recorded
/// until its next hop is known or another wait begins.
pub fn wait<L: Drop>(sockets: &SocketSetOf<L>, index: usize) -> Option<(IpAddress, Instant)>
    ensures { result ≡ wait_of sockets.now index }
{
    sockets.wait_at(index)
}

/// Returns until when the socket at an index waits, if it waits for the destination that the one at another index waits
/// for, and this isn't over at a moment.
#[inline(always)]
pub fn waits_like<L: Drop>(
    sockets: &SocketSetOf<L>,
    index: usize,
    other: usize,
    timestamp: Instant,
) -> Option<Instant>
    ensures { result ≡ waits_like sockets.now index other timestamp }
{
    sockets.waits_like(index, other, timestamp)
}

/// Lets the socket at an index wait for the next hop to a destination until an instant, or not wait.
pub fn set_wait<L: Drop>(
    sockets: &mut SocketSetOf<L>,
    index: usize,
    wait: Option<(IpAddress, Instant)>,
)
    ensures { sockets.new ≡ with_wait sockets.old index wait }
{
    sockets.set_wait(index, wait);
}

/// Whether the socket at an index waits. `false` for a free index, and one out of range.
#[inline(always)]
pub fn is_waiting<L: Drop>(sockets: &SocketSetOf<L>, index: usize) -> bool
    ensures { result ≡ is_some (wait_of sockets.now index) }
{
    sockets.is_waiting(index)
}

/// Whether the socket at an index waits for the next hop to a destination, until an instant. `false` where it doesn't
/// wait, for a free index, and one out of range.
#[inline(always)]
pub fn is_wait_at<L: Drop>(
    sockets: &SocketSetOf<L>,
    index: usize,
    destination: &IpAddress,
    until: Instant,
) -> bool
    ensures { result ≡ is_wait destination.now until (wait_of sockets.now index) }
{
    sockets.is_wait_at(index, destination, until)
}

/// Whether the socket at an index may be asked for packets at a moment: it doesn't wait, or the next hop that it
/// waits for is known, which ends the wait, or the wait has passed. `false` for a free index, and one out of range.
pub fn egress_permitted<L: Drop, F: Fn(IpAddress) -> bool>(
    sockets: &mut SocketSetOf<L>,
    index: usize,
    timestamp: Instant,
    has_neighbor: F,
) -> bool
    requires { F.IsAlwaysCallable has_neighbor }
    ensures socket { IsSome (socket_at sockets.old index) →
        (known : Bool) × IsAnswerFor (F.post has_neighbor) (wait_at sockets.old index) known
        × (result ≡ is_permitted (wait_at sockets.old index) known timestamp)
        × (sockets.new ≡ with_wait sockets.old index (after_asking (wait_at sockets.old index) known)) }
    ensures nobody { IsNone (socket_at sockets.old index) → (result ≡ false) × (sockets.new ≡ sockets.old) }
{
    sockets.egress_permitted(index, timestamp, has_neighbor)
}

/// Returns the first index from one on whose socket may have something to send, now or later, or waits; the number of
/// indices, where there is none. The sockets at the indices between are idle.
#[inline(always)]
pub fn next_busy<L: Drop>(sockets: &SocketSetOf<L>, from: usize) -> usize
    ensures within { result ≤ length sockets.now.places }
    ensures after { from ≤ length sockets.now.places → from ≤ result }
    ensures idle { (i : ℕ) → from ≤ i → i < result → IsIdle sockets.now i }
{
    sockets.next_busy(from)
}

/// Whether a raw or ICMP socket may be in the set. Where it returns `false`, there is none.
#[inline(always)]
pub fn may_have_portless<L: Drop>(sockets: &SocketSetOf<L>) -> bool
    ensures { result ≡ false → AllHavePorts sockets.now }
{
    sockets.may_have_portless()
}

/// Returns the first index from one on whose socket may have this own port, as UDP and TCP sockets have one; for
/// `None` no port, as raw and ICMP sockets; the number of indices, where there is none. The indices between have other
/// sockets, or none.
#[inline(always)]
pub fn next_at<L: Drop>(sockets: &SocketSetOf<L>, from: usize, port: Option<u16>) -> usize
    ensures within { result ≤ length sockets.now.places }
    ensures after { from ≤ length sockets.now.places → from ≤ result }
    ensures passed { (i : ℕ) → from ≤ i → i < result → IfSome (socket_at sockets.now i) (λ s. own_port s ≢ port) }
{
    sockets.next_at(from, port)
}

/// Records whether the socket at an index is idle, and its own port, until it is lent for writing again: an idle one
/// is skipped. Returns whether it is idle. In contracts the set stays as it was.
#[inline(always)]
pub fn rest<L: Drop>(sockets: &mut SocketSetOf<L>, index: usize) -> bool
    ensures idle { result ≡ true → IsIdle sockets.old index }
    ensures unchanged { sockets.new ≡ sockets.old }
{
    sockets.rest(index)
}

/// Returns when the socket at an index wants to be asked for a packet: by its own answer, or at the end of its wait
/// where it has to wait. `has_neighbor` says whether the next hop to a destination is known. A free index, and one out
/// of range, has no socket that does.
pub fn poll_at<L: Drop, F: Fn(IpAddress) -> bool>(
    sockets: &SocketSetOf<L>,
    index: usize,
    timestamp: Instant,
    has_neighbor: F,
) -> PollAt
    requires { F.IsAlwaysCallable has_neighbor }
    ensures socket { IfSome (socket_at sockets.now index)
        (λ s. (known : Bool) × IsAnswerFor (F.post has_neighbor) (wait_at sockets.now index) known
        × (result ≡ poll_at_of (wait_at sockets.now index) known timestamp (own_poll_at s))) }
    ensures nobody { IsNone (socket_at sockets.now index) → result ≡ Ingress }
{
    sockets.poll_at(index, timestamp, has_neighbor)
}

/// Lets the socket at an index wait for the next hop to a destination, until 1 s after the moment.
pub fn neighbor_missing<L: Drop>(
    sockets: &mut SocketSetOf<L>,
    index: usize,
    timestamp: Instant,
    neighbor: IpAddress,
)
    requires { IsMoment timestamp }
    ensures { sockets.new ≡ with_wait sockets.old index (Some (neighbor, silence_from timestamp)) }
{
    sockets.neighbor_missing(index, timestamp, neighbor);
}
