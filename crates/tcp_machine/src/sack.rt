//! Selective acknowledgements (RFC 2018).

/// A block: octets beyond a gap that have arrived, by their numbers on the wire (RFC 2018 3).
#[derive(Clone, Copy, Debug, PartialEq, Eq)]
pub struct SackBlock {
    /// The number of its first octet.
    pub left: u32,
    /// The number after its last octet.
    pub right: u32,
}
