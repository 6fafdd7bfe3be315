//! The buffer in which a header's options are built.
ghost use Rattle.std.specs.Prelude.{◌≡◌, ◌+◌, ◌≤◌, ◌++◌, [], length};

use std::marker::Model;

/// The octets that a header has for options: 15 words, without the first five (RFC 9293 3.1).
pub const OPTIONS_LEN: usize = 40;

/// A buffer for the options of a header.
///
/// In contracts it is the list of the octets in use, at most 40.
#[derive(Drop)]
pub(crate) struct OptionBuffer {
    octets: [u8; OPTIONS_LEN],
    len: usize,
}

impl Model for OptionBuffer {
    ghost use Rattle.std.specs.Prelude.{ℕ, List, ◌≤◌, ◌≡◌, take, length};

    ghost Value = { List ℕ };

    ghost view = { λ b. take b.len b.octets };

    ghost invariant = { λ b. (b.len ≤ 40) × (length b.octets ≡ 40) };
}

impl OptionBuffer {
    /// Creates an empty buffer.
    #[inline(always)]
    pub(crate) fn new() -> OptionBuffer
        ensures { result ≡ [] }
    {
        OptionBuffer {
            octets: [0; OPTIONS_LEN],
            len: 0,
        }
    }

    /// The number of octets in the buffer.
    #[inline(always)]
    pub(crate) fn len(&self) -> usize
        ensures value { result ≡ length self.now }
        ensures fits { result ≤ 40 }
    {
        self.len
    }

    /// The octets in the buffer.
    #[inline(always)]
    pub(crate) fn as_slice(&self) -> &[u8]
        ensures value { result.now ≡ self.now }
        ensures fits { length result.now ≤ 40 }
    {
        &self.octets[..self.len]
    }

    /// Appends octets, for which there must be room.
    #[inline(always)]
    pub(crate) fn append(&mut self, octets: &[u8])
        requires { length self.old + length octets.now ≤ 40 }
        ensures { self.new ≡ self.old ++ octets.now }
    {
        let end = self.len + octets.len();
        self.octets[self.len..end].copy_from_slice(octets);
        self.len = end;
    }
}
