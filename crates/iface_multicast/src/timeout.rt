//! When a report is due.
ghost use Rattle.std.specs.Prelude.{◌≡◌, ◌<◌, Some};
ghost use Rattle.host_machine.specs.Multicast.Timeout as reports;

use net_base::time::Instant;

/// The later of two moments.
pub(crate) fn later_of(a: Instant, b: Instant) -> Instant
    ensures { result ≡ reports.later_of a b }
{
    if a < b { b } else { a }
}

/// Whether there is a timeout and it has passed.
pub(crate) fn has_passed(timeout: Option<Instant>, now: Instant) -> bool
    ensures { result ≡ reports.has_passed timeout now }
{
    match timeout {
        Some(timeout) => now >= timeout,
        None => false,
    }
}
