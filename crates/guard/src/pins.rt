//! Neighbours that are pinned to a hardware address.
ghost use Rattle.std.specs.Prelude.{◌≡◌, is_none};
ghost use Rattle.std.specs.List.{position_or_len};
ghost use Rattle.guard.specs.Pins as spec;

use crate::claim::tells_only;
use ip_address::{EthernetAddress, IpAddress};

/// The maximum number of pinned neighbours.
pub const PINNED_COUNT: usize = 8;

/// A neighbour that is pinned.
#[derive(Clone, Copy, Debug, PartialEq, Eq)]
pub struct Pinned {
    /// Its address.
    pub address: IpAddress,
    /// Its hardware address.
    pub hardware: EthernetAddress,
}

/// The neighbours that are pinned, each to the hardware address that the program says it has.
#[derive(Clone, Copy, Debug, PartialEq, Eq)]
pub struct Pins {
    /// Them, in any order; `None` is a free entry.
    pub pairs: [Option<Pinned>; PINNED_COUNT],
}

impl Pins {
    /// No neighbour is pinned.
    pub const fn new() -> Pins
        ensures { result ≡ spec.no_pins }
    {
        Pins {
            pairs: [None; PINNED_COUNT],
        }
    }

    /// Pins an address to a hardware address, in place of the one that it is pinned to, if it is pinned. Returns whether there was
    /// room; if there was none, nothing changes.
    pub fn pin(&mut self, address: IpAddress, hardware: EthernetAddress) -> bool
        ensures room { result ≡ spec.is_there (spec.place_for address self.old) self.old }
        ensures pins { self.new ≡ spec.after_pin address hardware self.old }
    {
        let place = self.place_for(&address);
        self.put(place, Some(Pinned { address, hardware }))
    }

    /// Pins an address no more. Returns whether it was pinned.
    pub fn unpin(&mut self, address: IpAddress) -> bool
        ensures pinned { result ≡ spec.is_there (spec.place_of address self.old) self.old }
        ensures pins { self.new ≡ spec.after_unpin address self.old }
    {
        let place = place_of(&self.pairs, &address);
        self.put(place, None)
    }

    /// Whether a frame of this sender tells another hardware address than the sender is pinned to.
    pub(crate) fn forbids(&self, sender: &IpAddress, frame: &[u8]) -> bool
        ensures { result ≡ spec.is_forbidden sender.now frame.now self.now }
    {
        self.pairs.iter().any(|pair| forbids(pair, sender, frame))
    }

    /// Where an address is to be pinned.
    fn place_for(&self, address: &IpAddress) -> usize
        ensures { result ≡ spec.place_for address.now self.now }
    {
        let place = place_of(&self.pairs, address);
        if place < self.pairs.len() {
            return place;
        }
        free_place(&self.pairs)
    }

    /// Puts an entry at a place, if there is such a place, and returns whether there is.
    fn put(&mut self, place: usize, entry: Option<Pinned>) -> bool
        ensures there { result ≡ spec.is_there place self.old }
        ensures put { self.new ≡ spec.after_put place entry self.old }
    {
        if place >= self.pairs.len() {
            return false;
        }
        self.pairs[place] = entry;
        true
    }
}

/// Whether an entry pins an address.
fn is_of(pair: &Option<Pinned>, address: &IpAddress) -> bool
    ensures { result ≡ spec.is_of address.now pair.now }
{
    match pair {
        None => false,
        Some(pinned) => pinned.address == *address,
    }
}

/// Whether an entry pins the sender of a frame to another hardware address than it tells.
fn forbids(pair: &Option<Pinned>, sender: &IpAddress, frame: &[u8]) -> bool
    ensures { result ≡ spec.forbids sender.now frame.now pair.now }
{
    match pair {
        None => false,
        Some(pinned) => pinned.address == *sender && !tells_only(&pinned.hardware, frame),
    }
}

/// Where the first entry that pins an address stands, or the length.
fn place_of(pairs: &[Option<Pinned>], address: &IpAddress) -> usize
    ensures { result ≡ position_or_len (spec.is_of address.now) pairs.now }
{
    for (i, pair) in pairs.iter().enumerate() {
        if is_of(pair, address) {
            return i;
        }
    }
    pairs.len()
}

/// Where the first free entry stands, or the length.
fn free_place(pairs: &[Option<Pinned>]) -> usize
    ensures { result ≡ position_or_len is_none pairs.now }
{
    for (i, pair) in pairs.iter().enumerate() {
        if pair.is_none() {
            return i;
        }
    }
    pairs.len()
}
