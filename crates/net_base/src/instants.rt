//! The earlier of instants.
ghost use Rattle.std.specs.Prelude.{◌≡◌};
ghost use Rattle.net_base.specs.Instants as spec;

use crate::time::Instant;

/// The earlier of two instants; `None` means never.
pub fn earlier_of(a: Option<Instant>, b: Option<Instant>) -> Option<Instant>
    ensures { result ≡ spec.earlier_of a b }
{
    let Some(first) = a else {
        return b;
    };
    let Some(second) = b else {
        return a;
    };
    if second < first {
        Some(second)
    } else {
        Some(first)
    }
}
