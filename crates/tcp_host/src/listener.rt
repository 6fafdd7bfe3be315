//! Listeners (RFC 9293 3.10.1, passive): at a local port, with a limit of connections that the program hasn't accepted.
ghost use Rattle.std.specs.Prelude.{◌≡◌, ◌≤◌, [], IfOk, length, vec_capacity};
ghost use Rattle.tcp_host.specs.Listener as spec;
ghost use Rattle.tcp_host.specs.Backlog as backlog;

use crate::backlog::{Backlog, index_of};
use ip_address::IpAddress;
use std::alloc::{AllocError, Global};
use std::marker::Model;

/// A listener at a local port, and the places of the connections that it began and that the program hasn't accepted.
///
/// It takes memory when it is made, and never later.
#[derive(Drop)]
pub struct Listener {
    port: u16,
    address: Option<IpAddress>,
    is_open: bool,
    half_open: Backlog,
    ready: Vec<usize>,
    most: usize,
}

impl Model for Listener {
    ghost use Rattle.std.specs.Prelude.{◌≡◌, ◌≤◌, length, vec_capacity};
    ghost use Rattle.tcp_host.specs.Listener as spec;

    ghost Value = { spec.Listener };

    ghost view = { λ l. record {
      port = l.port;
      address = l.address;
      is_open = l.is_open;
      half_open = l.half_open;
      ready = l.ready.items;
    } };

    ghost invariant = { λ l. (l.half_open.most ≡ l.most) × (length l.ready.items ≤ l.most) × (l.most ≤ vec_capacity l.ready) × (1 ≤ l.most) };
}

impl Listener {
    /// A listener at a port, of one local address or of each. At most `most` of its connections are half-open, and at most as
    /// many wait for the program. It fails exactly if the memory is refused.
    pub fn new(
        alloc: Global,
        port: u16,
        address: Option<IpAddress>,
        most: usize,
    ) -> Result<Listener, AllocError>
        requires { 1 ≤ most }
        ensures { IfOk result (λ l. l ≡ spec.first port address most) }
    {
        Ok(Listener {
            port,
            address,
            is_open: true,
            half_open: Backlog::new(alloc, most)?,
            ready: Vec::with_capacity(alloc, most)?,
            most,
        })
    }

    /// Its local port.
    pub fn port(&self) -> u16
        ensures { result ≡ self.now.port }
    {
        self.port
    }

    /// Whether a segment to a local end is for it.
    pub fn listens_at(&self, address: &IpAddress, port: u16) -> bool
        ensures { result ≡ spec.listens_at address.now port self.now }
    {
        self.is_open
            && port == self.port
            && match &self.address {
                None => true,
                Some(own) => is_same_address(own, address),
            }
    }

    /// Whether one more connection may wait for the program: it listens still, and fewer wait than may.
    pub fn has_room(&self) -> bool
        ensures { result ≡ spec.has_room self.now }
    {
        self.is_open && self.ready.len() < self.most
    }

    /// Whether as many of its connections are half-open as may be.
    pub fn is_full(&self) -> bool
        ensures { result ≡ spec.is_full self.now }
    {
        self.half_open.len() >= self.most
    }

    /// It listens no more: no segment is for it, and no further connection waits for the program. Those that wait can still be
    /// accepted (RFC 9293 3.10.4, in the LISTEN state).
    pub fn close(&mut self)
        ensures { self.new ≡ spec.after_closing self.old }
    {
        self.is_open = false;
    }

    /// A SYN begins a connection at a place. If as many are half-open as may be, the oldest one's place is returned, which is
    /// half-open no more.
    pub fn begin(&mut self, place: usize) -> Option<usize>
        ensures evicted { result ≡ backlog.evicted self.old.half_open }
        ensures begun { self.new ≡ spec.after_syn place self.old }
    {
        self.half_open.add(place)
    }

    /// How many of its connections are half-open.
    pub fn half_open_count(&self) -> usize
        ensures { result ≡ length self.now.half_open.places }
    {
        self.half_open.len()
    }

    /// The place of the connection that has been half-open for longest.
    pub fn oldest(&self) -> Option<usize>
        ensures { result ≡ backlog.first_of self.now.half_open.places }
    {
        self.half_open.oldest()
    }

    /// The place of the connection that has been half-open for longest, which is it no more.
    pub fn evict(&mut self) -> Option<usize>
        ensures first { result ≡ backlog.first_of self.old.half_open.places }
        ensures evicted { self.new ≡ record self.old { half_open = backlog.after_evicting self.old.half_open } }
    {
        self.half_open.evict()
    }

    /// The handshake of the connection at a place is complete: it waits for the program. Returns false, if as many wait as may,
    /// or it listens no more; then that connection doesn't wait.
    pub fn complete(&mut self, place: usize) -> bool
        ensures value { result ≡ spec.has_room self.old }
        ensures completed { self.new ≡ spec.after_handshake place self.old }
    {
        let has_room = self.has_room();
        self.half_open.remove(place);
        if has_room {
            self.ready.push_reserved(place);
        }
        has_room
    }

    /// The connection at a place ended before the program accepted it. Nothing changes if it is none of these.
    pub fn end(&mut self, place: usize)
        ensures { self.new ≡ spec.after_end place self.old }
    {
        self.half_open.remove(place);
        without(&mut self.ready, place);
    }

    /// The place of the connection that waits longest for the program, which waits no more.
    pub fn accept(&mut self) -> Option<usize>
        ensures first { result ≡ backlog.first_of self.old.ready }
        ensures accepted { self.new ≡ spec.after_accepting self.old }
    {
        if self.ready.is_empty() {
            None
        } else {
            Some(self.ready.remove(0))
        }
    }
}

// Whether two addresses are the same.
fn is_same_address(a: &IpAddress, b: &IpAddress) -> bool
    ensures { result ≡ spec.is_same_address a.now b.now }
{
    match (a, b) {
        (IpAddress::Ipv4(a), IpAddress::Ipv4(b)) => a.bits == b.bits,
        (IpAddress::Ipv6(a), IpAddress::Ipv6(b)) => a.bits == b.bits,
        _ => false,
    }
}

// Takes the first occurrence of a place out of a list.
#[tactic(auto, using(crate::proofs::BacklogLemmas::removed, crate::proofs::BacklogLemmas::nowhere))]
fn without(places: &mut Vec<usize>, place: usize)
    ensures items { places.new.items ≡ backlog.without place places.old.items }
    ensures shorter { length places.new.items ≤ length places.old.items }
    ensures capacity { vec_capacity places.new ≡ vec_capacity places.old }
{
    if let Some(index) = index_of(places, place) {
        places.remove(index);
    }
}
