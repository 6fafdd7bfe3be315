//! To whom packets wait in a queue.
ghost use Rattle.std.specs.Prelude.{◌≡◌, ◌≤◌, [], length};
ghost use Rattle.tcp_sockets.specs.Destinations as spec;

use crate::arrivals::is_same;
use arrayvec::ArrayVec;
use ip_wire::IpAddress;
use std::marker::Model;

/// The most packets that a socket holds for peers that haven't answered.
pub const FAR_PACKETS: usize = 16;

/// The destinations of the packets in a queue, at most 16, the oldest first.
///
/// In contracts it is the list of them.
#[derive(Drop)]
pub struct Destinations {
    addresses: ArrayVec<IpAddress, FAR_PACKETS>,
}

impl Model for Destinations {
    ghost use Rattle.std.specs.Prelude.{List, length, ◌≤◌};
    ghost use Rattle.ip_address.specs.declared.ip.IpAddress.{IpAddress};

    ghost Value = { List IpAddress };

    ghost view = { λ d. d.addresses.items };

    ghost invariant = { λ d. length d.addresses.items ≤ 16 };
}

impl Destinations {
    /// None waits.
    pub fn new() -> Destinations
        ensures { result ≡ [] }
    {
        Destinations {
            addresses: ArrayVec::new(),
        }
    }

    /// Of the packets only so many are left, the newest ones.
    pub fn keep_last(&mut self, count: usize)
        ensures { self.new ≡ spec.last_of count self.old }
    {
        drop_first(&mut self.addresses, count);
    }

    /// Whether a packet to an address may wait: none to it does, and fewer than 16 do.
    pub fn takes(&self, address: &IpAddress) -> bool
        ensures { result ≡ spec.takes self.now address.now }
    {
        !self.addresses.is_full() && !self.contains(address)
    }

    // Whether a packet to an address waits.
    fn contains(&self, address: &IpAddress) -> bool
        ensures { result ≡ spec.contains self.now address.now }
    {
        self.addresses
            .iter()
            .any(|waiting| is_same(waiting, address))
    }

    /// A packet to an address waits. Nothing changes where 16 do.
    pub fn add(&mut self, address: &IpAddress)
        ensures { self.new ≡ spec.with self.old address.now }
    {
        if !self.addresses.is_full() {
            self.addresses.push(*address);
        }
    }
}

// Of the addresses only so many are left, the last ones.
#[tactic(auto, using(crate::proofs::DestinationLemmas::last_after_remove, crate::proofs::DestinationLemmas::last_of_few))]
fn drop_first(addresses: &mut ArrayVec<IpAddress, FAR_PACKETS>, count: usize)
    ensures items { addresses.new.items ≡ spec.last_of count addresses.old.items }
    ensures fewer { length addresses.new.items ≤ length addresses.old.items }
{
    while addresses.len() > count {
        addresses.remove(0);
    }
}
