//! The buffer to which frames are appended.
ghost use Rattle.std.specs.Prelude.{◌≡◌, ◌+◌, ◌≤◌, ◌++◌, ◌==◌, [], length};

use net_base::phy::FRAME_BUFFER_SIZE;
use std::marker::Model;

/// A buffer in which a frame is built: room for the longest frame, and the number of octets in use. The octets aren't
/// cleared when a new frame begins.
///
/// In contracts it is the list of the octets in use, at most 1,514.
#[derive(Drop)]
pub struct FrameBuffer {
    octets: [u8; FRAME_BUFFER_SIZE],
    len: usize,
}

impl Model for FrameBuffer {
    ghost use Rattle.std.specs.Prelude.{ℕ, List, ◌≤◌, ◌≡◌, take, length};

    ghost Value = { List ℕ };

    ghost view = { λ b. take b.len b.octets };

    ghost invariant = { λ b. (b.len ≤ 1514) × (length b.octets ≡ 1514) };
}

impl FrameBuffer {
    /// Creates an empty buffer.
    pub fn new() -> FrameBuffer
        ensures { result ≡ [] }
    {
        FrameBuffer {
            octets: [0; FRAME_BUFFER_SIZE],
            len: 0,
        }
    }

    /// The number of octets in the buffer.
    #[inline(always)]
    pub fn len(&self) -> usize
        ensures value { result ≡ length self.now }
        ensures fits { result ≤ 1514 }
    {
        self.len
    }

    /// Whether the buffer is empty.
    #[inline(always)]
    pub fn is_empty(&self) -> bool
        ensures { result ≡ (length self.now == 0) }
    {
        self.len == 0
    }

    /// The octets in the buffer, at most 1,514.
    #[inline(always)]
    pub fn as_slice(&self) -> &[u8]
        ensures value { result.now ≡ self.now }
        ensures fits { length result.now ≤ 1514 }
    {
        &self.octets[..self.len]
    }

    /// Empties the buffer.
    #[inline(always)]
    pub fn clear(&mut self)
        ensures { self.new ≡ [] }
    {
        self.len = 0;
    }

    /// Appends octets, for which there must be room.
    #[inline(always)]
    pub fn append(&mut self, octets: &[u8])
        requires { length self.old + length octets.now ≤ 1514 }
        ensures { self.new ≡ self.old ++ octets.now }
    {
        let end = self.len + octets.len();
        self.octets[self.len..end].copy_from_slice(octets);
        self.len = end;
    }
}
