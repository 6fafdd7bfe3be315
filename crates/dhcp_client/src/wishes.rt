//! What a client asks of servers, and tells them (RFC 2132 3.14, 9.8).
ghost use Rattle.std.specs.Prelude.{◌≡◌, ◌≤◌, ◌++◌, ◌∷◌, [], nat_le, length, true, false};
ghost use Rattle.dhcp_client.specs.Details.Wishes as spec;

use crate::options::{OptionData, append_all};
use arrayvec::ArrayVec;

/// What a client asks for itself: the network's mask, its routes, its router, servers of names, and the longest packet. Routes
/// stand before the router (RFC 3442).
const NEEDED: [u8; 5] = [1, 121, 3, 6, 26];

/// What a client asks for beside what it needs itself, and the host's name.
#[derive(Drop)]
pub struct DhcpWishes {
    /// Codes of options, at most 16.
    pub parameters: ArrayVec<u8, 16>,
    /// The name, at most 63 octets; none for a host without a name.
    pub host_name: ArrayVec<u8, 63>,
}

impl DhcpWishes {
    /// Nothing else, and no name.
    pub fn new() -> DhcpWishes
        ensures parameters { result.parameters.items ≡ [] }
        ensures host_name { result.host_name.items ≡ [] }
    {
        DhcpWishes {
            parameters: ArrayVec::new(),
            host_name: ArrayVec::new(),
        }
    }

    /// Sets the codes of the options that are asked for, in place of those before. Returns whether there is room for them, 16 at
    /// most; else nothing changes.
    pub fn set_parameters(&mut self, codes: &[u8]) -> bool
        ensures fits { result ≡ nat_le (length codes.now) 16 }
        ensures set { result ≡ true → self.new.parameters.items ≡ codes.now }
        ensures host_name { self.new.host_name ≡ self.old.host_name }
        ensures kept { result ≡ false → self.new ≡ self.old }
    {
        if codes.len() > 16 {
            return false;
        }
        self.parameters.clear();
        let _ = self.parameters.try_extend_from_slice(codes);
        true
    }

    /// Sets the host's name, in place of the one before; an empty one is none. Returns whether it has at most 63 octets; else
    /// nothing changes.
    pub fn set_host_name(&mut self, name: &[u8]) -> bool
        ensures fits { result ≡ nat_le (length name.now) 63 }
        ensures set { result ≡ true → self.new.host_name.items ≡ name.now }
        ensures parameters { self.new.parameters ≡ self.old.parameters }
        ensures kept { result ≡ false → self.new ≡ self.old }
    {
        if name.len() > 63 {
            return false;
        }
        self.host_name.clear();
        let _ = self.host_name.try_extend_from_slice(name);
        true
    }

    /// The codes of all options that are asked for: those that the client needs itself, and then the others.
    pub(crate) fn all_parameters(&self) -> OptionData
        ensures items { result.items ≡ spec.parameters_of self.now }
        ensures len { length result.items ≤ 21 }
    {
        let mut all = OptionData::new();
        append_all(&NEEDED, &mut all);
        append_all(self.parameters.as_slice(), &mut all);
        all
    }
}
