//! When a socket has to be polled again.

use net_base::time::Instant;

/// When a socket has to be polled again.
#[derive(Clone, Copy, Debug, PartialEq, Eq)]
pub enum PollAt {
    /// Immediately.
    Now,
    /// At an instant.
    Time(Instant),
    /// Not before a packet arrives.
    Ingress,
}
