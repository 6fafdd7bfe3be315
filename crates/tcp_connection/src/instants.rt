//! Instants and spans, in microseconds.
ghost use Rattle.std.specs.Prelude.{◌≡◌, ◌+◌, min};
ghost use Rattle.tcp_machine.specs.Instants as instants;
ghost use Rattle.tcp_machine.specs.Acknowledgements as acknowledgements;
ghost use Rattle.tcp_machine.specs.Due as due;
ghost use Rattle.tcp_machine.specs.Outgoing as outgoing;
ghost use Rattle.tcp_machine.specs.Arrivals as arrivals;

use tcp_machine::timers::Owed;

/// Later than any instant that is given: a span that ends there never ends.
pub(crate) const NEVER: u64 = 1 << 63;

/// A span after an instant.
pub fn later(now: u64, span: u64) -> u64
    ensures { result ≡ instants.later now span }
{
    match now.checked_add(span) {
        Some(end) => end.min(NEVER),
        None => NEVER,
    }
}

/// Whether a timer has ended.
pub fn has_passed(timer: Option<u64>, now: u64) -> bool
    ensures { result ≡ instants.has_passed timer now }
{
    match timer {
        Some(end) => end <= now,
        None => false,
    }
}

/// Since when something waits, that does so now: an instant before, if there is one.
pub fn since_first(now: u64, since: Option<u64>) -> Option<u64>
    ensures { result ≡ acknowledgements.since_first now since }
{
    match since {
        None => Some(now),
        Some(before) => Some(before),
    }
}

/// The sooner of two instants, where there may be none.
pub fn least(a: Option<u64>, b: Option<u64>) -> Option<u64>
    ensures { result ≡ due.least a b }
{
    match (a, b) {
        (Some(a), Some(b)) => Some(a.min(b)),
        (Some(a), None) => Some(a),
        (None, b) => b,
    }
}

/// When an acknowledgement is owed at the latest.
pub fn owed_at(owed: Owed) -> Option<u64>
    ensures { result ≡ due.owed_at owed }
{
    match owed {
        Owed::By(end) => Some(end),
        Owed::Nothing | Owed::AtOnce => None,
    }
}

/// Whether an acknowledgement is owed now.
pub fn is_owed(owed: Owed, now: u64) -> bool
    ensures { result ≡ outgoing.is_owed owed now }
{
    match owed {
        Owed::Nothing => false,
        Owed::By(end) => end <= now,
        Owed::AtOnce => true,
    }
}

/// When an acknowledgement is owed, once it is by an instant.
pub fn sooner(owed: Owed, end: u64) -> Owed
    ensures { result ≡ arrivals.sooner owed end }
{
    match owed {
        Owed::Nothing => Owed::By(end),
        Owed::By(other) => Owed::By(other.min(end)),
        Owed::AtOnce => Owed::AtOnce,
    }
}
