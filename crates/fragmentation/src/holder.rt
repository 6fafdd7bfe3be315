//! Who holds a slot.

use net_base::time::Instant;

/// Who holds a slot: the key of a datagram's fragments, and when they expire.
#[derive(Clone, Copy, Debug, PartialEq, Eq)]
pub struct Holder<K> {
    /// The key that the fragments share.
    pub key: K,
    /// When they expire.
    pub expires_at: Instant,
}
