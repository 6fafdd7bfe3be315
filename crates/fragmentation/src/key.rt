//! The key that the fragments of one datagram share (RFC 791 3.2).
ghost use Rattle.std.specs.Prelude.{◌≡◌};
ghost use Rattle.fragmentation.specs.Keys.{key_of};

use ip_wire::{Ipv4Address, Ipv4Repr};

/// The key that the fragments of one datagram share: its identification, source, destination and protocol (RFC 791
/// 3.2).
#[derive(Clone, Copy, Debug, PartialEq, Eq)]
pub struct FragKey {
    pub src_addr: Ipv4Address,
    pub dst_addr: Ipv4Address,
    pub identification: u16,
    /// The protocol's number.
    pub protocol: u8,
}

impl FragKey {
    /// The key of a packet's fragments, from its header and its identification.
    pub fn new(header: &Ipv4Repr, identification: u16) -> FragKey
        ensures { result ≡ key_of header.now identification }
    {
        FragKey {
            identification,
            src_addr: header.src_addr,
            dst_addr: header.dst_addr,
            protocol: header.next_header.number(),
        }
    }
}
