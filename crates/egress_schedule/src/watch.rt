//! What is written down of a socket from one round to the next.
ghost use Rattle.std.specs.Prelude.{◌≡◌, ◌≤ℤ◌, ◌+ℤ◌, pos, false};
ghost use Rattle.std.specs.Ordering.{int_cmp, is_le};
ghost use Rattle.egress_schedule.specs.Patience as spec;
ghost use Rattle.egress_schedule.specs.Plan.{idle};
ghost use Rattle.egress_schedule.specs.Asides as asides;
ghost use Rattle.egress_schedule.specs.Turns as turns;

use ip_wire::IpAddress;
use net_base::time::{Duration, Instant};

/// A wait for a neighbour.
#[derive(Clone, Copy, Debug, PartialEq, Eq)]
pub struct Waiting {
    /// The destination whose next hop doesn't answer.
    pub neighbor: IpAddress,
    /// When the socket was first seen to wait for it.
    pub since: Instant,
    /// When a request for it was first sent for this socket, if one was.
    pub asked: Option<Instant>,
    /// When it asks again.
    pub until: Instant,
}

/// What is written down of a socket.
#[derive(Clone, Copy, Debug, PartialEq, Eq)]
pub struct Watch {
    /// For whom it waits.
    pub waiting: Option<Waiting>,
    /// The destination that was just given up, as long as the socket waits: packets to it are given up at once.
    pub unreachable: Option<IpAddress>,
    /// The destination of the packet that was given up last, until that was told.
    pub given_up: Option<IpAddress>,
    /// When a packet was given up last, if one was.
    pub dropped: Option<Instant>,
    /// Its own wait, while it isn't to be asked for a long packet.
    pub set_aside: Option<Option<(IpAddress, Instant)>>,
}

impl Watch {
    /// The socket doesn't wait, and no packet was given up.
    pub const IDLE: Watch = Watch {
        waiting: None,
        unreachable: None,
        given_up: None,
        dropped: None,
        set_aside: None,
    };

    /// Whether it is written down that the socket waits, or whom it just gave up.
    pub(crate) fn is_noted(&self) -> bool
        ensures { result ≡ false → spec.IsUnnoted self.now }
    {
        self.waiting.is_some() || self.unreachable.is_some()
    }
}

/// Whether so many microseconds after an instant have come.
#[inline(always)]
fn is_past(now: Instant, at: Instant, micros: i64) -> bool
    requires { pos 0 ≤ℤ micros }
    ensures { result ≡ is_le (int_cmp (at +ℤ micros) now) }
{
    match now.total_micros().checked_sub(micros) {
        None => false,
        Some(last) => at.total_micros() <= last,
    }
}

/// Whether a second after an instant, if there is one, has come.
pub(crate) fn is_second_over(now: Instant, at: Option<Instant>) -> bool
    ensures { result ≡ spec.is_second_over now at }
{
    match at {
        None => false,
        Some(at) => is_past(now, at, 1_000_000),
    }
}

/// Whether it is less than ten seconds after an instant, if there is one.
pub(crate) fn is_recent(now: Instant, at: Option<Instant>) -> bool
    ensures { result ≡ spec.is_recent now at }
{
    match at {
        None => false,
        Some(at) => !is_past(now, at, 10_000_000),
    }
}

/// Whether a request may be sent: none was, or the second after the last one is over.
pub(crate) fn may_ask(now: Instant, last: Option<Instant>) -> bool
    ensures { result ≡ spec.may_ask now last }
{
    match last {
        None => true,
        Some(last) => is_second_over(now, Some(last)),
    }
}

/// The moment, if a request is sent at it; else when one was sent before.
pub(crate) fn if_asked(asks: bool, now: Instant, before: Option<Instant>) -> Option<Instant>
    ensures { result ≡ spec.if_asked asks now before }
{
    if asks { Some(now) } else { before }
}

/// For whom a socket waits after a round, whose wait is this. One whose end has come is over.
pub(crate) fn waiting_after(
    now: Instant,
    last: Option<Instant>,
    wait: Option<(IpAddress, Instant)>,
    before: Option<Waiting>,
) -> Option<Waiting>
    ensures { result ≡ spec.waiting_after now last wait before }
{
    match wait {
        None => None,
        Some((neighbor, until)) => {
            if until > now {
                Some(begun_or_before(now, last, neighbor, until, before))
            } else {
                None
            }
        }
    }
}

/// A wait that goes on for the same neighbour, or begins.
fn begun_or_before(
    now: Instant,
    last: Option<Instant>,
    neighbor: IpAddress,
    until: Instant,
    before: Option<Waiting>,
) -> Waiting
    ensures { result ≡ spec.begun_or_before now last (neighbor, until) before }
{
    match before {
        None => begun(now, last, neighbor, until),
        Some(before) => {
            if before.neighbor == neighbor {
                Waiting {
                    neighbor,
                    until,
                    ..before
                }
            } else {
                begun(now, last, neighbor, until)
            }
        }
    }
}

/// A wait that begins, for a neighbour for whom a request is sent, if one may be.
fn begun(now: Instant, last: Option<Instant>, neighbor: IpAddress, until: Instant) -> Waiting
    ensures { result ≡ spec.begun now last (neighbor, until) }
{
    Waiting {
        neighbor,
        since: now,
        asked: if_asked(may_ask(now, last), now, None),
        until,
    }
}

/// Whether a socket that waits began to in this round.
pub(crate) fn is_new(waiting: &Option<Waiting>, before: &Option<Waiting>) -> bool
    ensures { result ≡ spec.is_new waiting.now before.now }
{
    match waiting {
        None => false,
        Some(waiting) => match before {
            None => true,
            Some(before) => before.neighbor != waiting.neighbor,
        },
    }
}

impl Waiting {
    /// Whether the wait is over.
    pub(crate) fn is_over(&self, now: Instant) -> bool
        ensures { result ≡ asides.is_over now self.now }
    {
        self.until <= now
    }

    /// Whether the socket isn't to ask in a round: the wait is over, and it isn't its turn, or its packet will be given up.
    pub(crate) fn is_held(
        &self,
        patience: Duration,
        now: Instant,
        must_go: bool,
        is_before: bool,
    ) -> bool
        ensures { result ≡ turns.is_held patience now must_go is_before self.now }
    {
        self.is_over(now) && (is_before || self.is_at_end(patience, now, must_go))
    }

    /// Whether the wait has lasted long enough: since the patience, or its packet has to make room. With a patience of no
    /// time it never has.
    pub(crate) fn is_at_end(&self, patience: Duration, now: Instant, must_go: bool) -> bool
        ensures { result ≡ spec.is_at_end patience now must_go self.now }
    {
        let (since, now) = (self.since.total_micros(), now.total_micros());
        let patience = patience.total_micros();
        patience != 0 && (must_go || since <= now && patience <= now.abs_diff(since))
    }

    /// Whether a socket asks again: its wait is over, and has not lasted long enough.
    pub(crate) fn asks_again(&self, patience: Duration, now: Instant, must_go: bool) -> bool
        ensures { result ≡ turns.asks_again patience now must_go self.now }
    {
        self.is_over(now) && !self.is_at_end(patience, now, must_go)
    }
}

/// Whether a packet is given up: its wait has lasted long enough, or its neighbour was just given up.
pub(crate) fn is_given_up(
    patience: Duration,
    now: Instant,
    must_go: bool,
    unreachable: Option<IpAddress>,
    waiting: &Waiting,
) -> bool
    ensures { result ≡ spec.is_given_up patience now must_go unreachable waiting.now }
{
    match unreachable {
        None => waiting.is_at_end(patience, now, must_go),
        Some(unreachable) => {
            waiting.is_at_end(patience, now, must_go) || unreachable == waiting.neighbor
        }
    }
}
