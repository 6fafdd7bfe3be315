//! Pending fragments of a packet to send (RFC 791 3.2).
ghost use Rattle.std.specs.Prelude.{◌≡◌, ◌<◌, ◌≤◌, ◌+◌, ◌%◌, ◌++◌, length, take, IfSome};
ghost use Rattle.fragmentation.specs.Cuts.{pieces_of};
ghost use Rattle.fragmentation.specs.Details.Pending.{none_pending, without_first, is_nil, IsNext};

use ip_wire::{HardwareAddress, IpProtocol, Ipv4Address, Ipv4Fragment, Ipv4Repr};
use std::marker::Model;

/// The maximum payload length of a packet that is fragmented, in octets.
pub const FRAGMENTATION_BUFFER_SIZE: usize = 4096;

/// The fragment to send next.
#[derive(Clone, Copy)]
pub struct NextPiece<'p> {
    /// The hardware address it is sent to: that of the first fragment.
    pub destination: HardwareAddress,
    /// Its header: that of the fragmented packet, with the fragment's own length.
    pub header: Ipv4Repr,
    pub fragment: Ipv4Fragment,
    pub octets: &'p [u8],
}

/// The pending fragments of one packet, with the octets of its payload.
///
/// In contracts it is the list of these fragments, with the number of octets that none of them exceeds.
#[derive(Drop)]
pub struct Fragmenter {
    buffer: [u8; FRAGMENTATION_BUFFER_SIZE],
    len: usize,
    destination: HardwareAddress,
    header: Ipv4Repr,
    identification: u16,
    size: usize,
    sent: usize,
    left: usize,
}

impl Model for Fragmenter {
    ghost use Rattle.std.specs.Prelude.{◌≡◌, ◌<◌, ◌≤◌, ◌+◌, ◌*◌, length, map, take};
    ghost use Rattle.fragmentation.specs.Details.Pending.{Pending};
    ghost use Rattle.fragmentation.specs.Cuts.{piece_of, pieces_from};

    ghost Value = { Pending };

    ghost view = { λ f. record {
      pieces = map (piece_of (record {
        destination = f.destination;
        header = f.header;
        identification = f.identification;
        payload = take f.len f.buffer;
        size = f.size;
      }))
          (pieces_from f.size (take f.len f.buffer) f.sent f.left);
      size = f.size;
    } };

    ghost invariant = { λ f. (length f.buffer ≡ 4096) × (f.len ≤ 4096) × (f.size ≤ 4096) × (f.sent + f.left ≤ 8192)
        × (f.sent * f.size + f.left * f.size ≤ f.len + f.size) };
}

impl Fragmenter {
    /// No pending fragments.
    pub fn new() -> Fragmenter
        ensures { result ≡ none_pending }
    {
        Fragmenter {
            buffer: [0; FRAGMENTATION_BUFFER_SIZE],
            len: 0,
            destination: HardwareAddress::Ip,
            header: Ipv4Repr {
                src_addr: Ipv4Address::UNSPECIFIED,
                dst_addr: Ipv4Address::UNSPECIFIED,
                next_header: IpProtocol::HopByHop,
                payload_len: 0,
                hop_limit: 0,
            },
            identification: 0,
            size: 0,
            sent: 0,
            left: 0,
        }
    }

    /// Whether no fragment is pending.
    #[inline(always)]
    pub fn is_empty(&self) -> bool
        ensures { result ≡ is_nil self.now.pieces }
    {
        self.left == 0
    }

    /// Fragments a packet to a hardware address, given by its header, its identification, and its payload in two parts.
    /// Each fragment but the last has `size` octets, a multiple of eight. The fragments replace those that were
    /// pending. The payload has at most 4,096 octets.
    pub fn fill(
        &mut self,
        destination: HardwareAddress,
        header: Ipv4Repr,
        identification: u16,
        size: usize,
        head: &[u8],
        octets: &[u8],
    )
        requires positive { 0 < size }
        requires in_eights { size % 8 ≡ 0 }
        requires small { size ≤ 4096 }
        requires fits { length head.now + length octets.now ≤ 4096 }
        ensures { self.new ≡ record {
          pieces = pieces_of (record {
            destination = destination;
            header = header;
            identification = identification;
            payload = head.now ++ octets.now;
            size = size;
          });
          size = size;
        } }
    {
        let len = head.len() + octets.len();
        put(&mut self.buffer, head, octets);
        self.len = len;
        self.destination = destination;
        self.header = header;
        self.identification = identification;
        self.size = size;
        self.sent = 0;
        self.left = (len + (size - 1)) / size;
    }

    /// The fragment to send next, if any.
    pub fn peek(&self) -> Option<NextPiece<'_>>
        ensures value { IsNext self.now.pieces result }
        ensures short { IfSome result (λ piece. length piece.octets.now ≤ self.now.size) }
        ensures near { IfSome result (λ piece. piece.fragment.offset < 0x2000) }
    {
        if self.left == 0 {
            return None;
        }
        let start = self.sent * self.size;
        let end = self.len.min(start + self.size);
        Some(NextPiece {
            destination: self.destination,
            header: Ipv4Repr {
                payload_len: (end - start) as u16,
                ..self.header
            },
            fragment: Ipv4Fragment {
                identification: self.identification,
                dont_fragment: false,
                more_fragments: start + self.size < self.len,
                offset: (start / 8) as u16,
            },
            octets: &self.buffer[start..end],
        })
    }

    /// Removes the first pending fragment, if any.
    pub fn advance(&mut self)
        ensures { self.new ≡ without_first self.old }
    {
        if self.left > 0 {
            self.sent += 1;
            self.left -= 1;
        }
    }
}

/// Writes two parts, one after the other, to the front of a buffer.
fn put(buffer: &mut [u8], head: &[u8], octets: &[u8])
    requires { length head.now + length octets.now ≤ length buffer.old }
    ensures front { take (length head.now + length octets.now) buffer.new ≡ head.now ++ octets.now }
    ensures len { length buffer.new ≡ length buffer.old }
{
    let len = head.len() + octets.len();
    buffer[..head.len()].copy_from_slice(head);
    buffer[head.len()..len].copy_from_slice(octets);
}
