//! What is seen of streams on the link.
ghost use Rattle.std.specs.Prelude.{◌≡◌, ◌≤◌, ◌<◌, ◌^◌, length, IfSome};
ghost use Rattle.simulation_streams.specs.Streams as streams;
ghost use Rattle.simulation_streams.specs.Transmitted as spec;

use crate::sender::{FIRST_PORT, ends_of};
use anyhow::Result;
use ip_wire::{EthernetProtocol, EthernetRepr, IpAddress, IpCidr, IpVersion, Ipv4Cidr, Ipv6Cidr};
use simulation_script::script::{Script, Stream};
use std::alloc::Global;
use tcp_connection::segment::Segment;
use tcp_host::iss::Endpoints;
use tcp_machine::positions::position_near;
use tcp_sockets::arrivals::{Arrival, arrival_in, is_own};

/// The highest position that is counted.
const HIGHEST: u64 = 1 << 62;

/// What a stream's host has sent of it. SYN has position 0, octet i has 1 + i, and the end comes after the last octet.
#[derive(Clone, Copy, Debug, PartialEq, Eq)]
pub struct Transmitted {
    /// The number of its SYN on the wire, once that was sent.
    pub initial: Option<u32>,
    /// The position after the last one that was sent.
    pub end: u64,
    /// How many segments had a position that was sent before.
    pub again: u64,
}

impl Transmitted {
    /// Nothing was sent.
    pub const NONE: Transmitted = Transmitted {
        initial: None,
        end: 0,
        again: 0,
    };

    /// A segment with so many octets was sent. The first one with a position is taken for the SYN.
    pub fn note(&mut self, segment: &Segment, octets: usize)
        requires { octets ≤ 2 ^ 32 }
        ensures { self.new ≡ spec.after_segment segment.now octets self.old }
    {
        let count = positions_in(segment, octets);
        if count == 0 {
            return;
        }
        let Some(initial) = self.initial else {
            self.initial = Some(segment.number);
            self.end = count;
            return;
        };
        let Some(position) = position_near(initial, self.end.min(HIGHEST), segment.number) else {
            return;
        };
        if position < self.end {
            self.again = self.again.saturating_add(1);
        }
        self.end = self.end.max(position.saturating_add(count));
    }
}

/// How many positions a segment with so many octets has (RFC 9293 3.3.1, SEG.LEN).
fn positions_in(segment: &Segment, octets: usize) -> u64
    requires { octets ≤ 2 ^ 32 }
    ensures { result ≡ spec.positions_in segment.now octets }
{
    octets as u64 + u64::from(segment.syn) + u64::from(segment.fin)
}

/// What a segment of a stream says, by the stream's octets.
#[derive(Clone, Copy, Debug, PartialEq, Eq)]
pub struct Sight {
    /// Whether it has SYN.
    pub syn: bool,
    /// Whether it has FIN.
    pub fin: bool,
    /// Whether it is a reset.
    pub rst: bool,
    /// The places, from 0, of its first octet and of the last one, if it has octets of the stream.
    pub places: Option<(u64, u64)>,
    /// How many octets of the stream it acknowledges, if it is the receiver's.
    pub acknowledged: Option<u64>,
}

/// A stream, as it is seen on the link.
#[derive(Clone, Copy)]
struct Seen {
    // The number of the host that sends.
    from: usize,
    // The ends, as its peer has them.
    ends: Endpoints,
    // How many octets it has.
    octets: u64,
    transmitted: Transmitted,
}

impl Seen {
    /// A stream of this number, of which nothing was sent.
    fn new(stream: &Stream, number: usize) -> Seen {
        Seen {
            from: stream.host,
            ends: reversed(&ends_of(stream, number)),
            octets: stream.octets,
            transmitted: Transmitted::NONE,
        }
    }

    /// The place of the octet with a number, if it is known: that of the SYN was seen.
    fn place_of(&self, number: u32) -> Option<u64> {
        let sent = self.transmitted;
        let position = position_near(sent.initial?, sent.end.min(HIGHEST), number)?;
        position.checked_sub(1)
    }

    /// What a segment of its sender says.
    fn sent(&self, segment: &Segment, octets: usize) -> Sight {
        let places = match (
            self.place_of(segment.number),
            (octets as u64).checked_sub(1),
        ) {
            (Some(first), Some(more)) => Some((first, first.saturating_add(more))),
            _ => None,
        };
        Sight {
            places,
            acknowledged: None,
            ..flags_of(segment)
        }
    }

    /// What a segment of its receiver says.
    fn answered(&self, segment: &Segment) -> Sight {
        let place = segment.ack.and_then(|number| self.place_of(number));
        Sight {
            places: None,
            acknowledged: place.map(|place| place.min(self.octets)),
            ..flags_of(segment)
        }
    }
}

/// The flags of a segment, without its octets.
fn flags_of(segment: &Segment) -> Sight {
    Sight {
        syn: segment.syn,
        fin: segment.fin,
        rst: segment.rst,
        places: None,
        acknowledged: None,
    }
}

/// What is seen of all streams of a script.
#[derive(Drop)]
pub struct Transmissions {
    streams: Vec<Seen>,
    // The addresses to which streams go.
    remotes: Vec<IpCidr>,
    // The addresses from which they come.
    locals: Vec<IpCidr>,
}

impl Transmissions {
    /// Nothing is seen yet.
    pub fn new(alloc: Global) -> Transmissions {
        Transmissions {
            streams: Vec::new(alloc),
            remotes: Vec::new(alloc),
            locals: Vec::new(alloc),
        }
    }

    /// The streams of a script are seen from now on. Fails if the memory is refused.
    pub fn add_streams(&mut self, script: &Script) -> Result<()> {
        for (i, stream) in script.streams.iter().enumerate() {
            self.streams.push(Seen::new(stream, i))?;
            add_address(&mut self.remotes, &stream.remote.addr)?;
            add_address(&mut self.locals, &stream.local)?;
        }
        Ok(())
    }

    /// A host sends a frame: if it has a segment of one of its streams, that is counted.
    pub fn note(&mut self, from: usize, frame: &[u8]) {
        let Some(arrival) = segment_in(frame, &self.remotes) else {
            return;
        };
        let number = arrival.endpoints.remote_port.saturating_sub(FIRST_PORT);
        let Some(seen) = self.streams.get_mut(usize::from(number)) else {
            return;
        };
        if seen.from == from && seen.ends == arrival.endpoints {
            seen.transmitted
                .note(&arrival.segment, arrival.octets.len());
        }
    }

    /// What the segment in a frame says, if it is one of a stream.
    pub fn sight(&self, frame: &[u8]) -> Option<Sight> {
        if let Some(arrival) = segment_in(frame, &self.remotes)
            && let Some(seen) = self.seen(arrival.endpoints.remote_port)
            && seen.ends == arrival.endpoints
        {
            return Some(seen.sent(&arrival.segment, arrival.octets.len()));
        }
        let arrival = segment_in(frame, &self.locals)?;
        let seen = self.seen(arrival.endpoints.local_port)?;
        if seen.ends == reversed(&arrival.endpoints) {
            Some(seen.answered(&arrival.segment))
        } else {
            None
        }
    }

    /// The stream that comes from a port.
    fn seen(&self, port: u16) -> Option<Seen> {
        let number = port.checked_sub(FIRST_PORT)?;
        self.streams.get(usize::from(number)).copied()
    }

    /// How many segments of a stream had a position that was sent before.
    pub fn again(&self, number: usize) -> u64 {
        match self.streams.get(number) {
            Some(seen) => seen.transmitted.again,
            None => 0,
        }
    }
}

/// The segment in a frame that goes to one of some addresses.
fn segment_in<'f>(frame: &'f [u8], remotes: &[IpCidr]) -> Option<Arrival<'f>>
    ensures { IfSome result (λ a. length a.octets.now < 2 ^ 32) }
{
    if remotes.is_empty() {
        return None;
    }
    let (header, packet) = EthernetRepr::parse(frame)?;
    let version = match header.ethertype {
        EthernetProtocol::Ipv4 => IpVersion::Ipv4,
        EthernetProtocol::Ipv6 => IpVersion::Ipv6,
        _ => return None,
    };
    arrival_in(packet, version, remotes, false)
}

/// Adds an address to a list, unless it is there.
fn add_address(addresses: &mut Vec<IpCidr>, address: &IpAddress) -> Result<()> {
    if !is_own(address, addresses) {
        addresses.push(alone(address))?;
    }
    Ok(())
}

/// An address as a network of its own.
fn alone(address: &IpAddress) -> IpCidr {
    match address {
        IpAddress::Ipv4(address) => IpCidr::Ipv4(Ipv4Cidr::new(*address, 32)),
        IpAddress::Ipv6(address) => IpCidr::Ipv6(Ipv6Cidr::new(*address, 128)),
    }
}

/// The ends of a connection, as the peer has them.
pub fn reversed(ends: &Endpoints) -> Endpoints
    ensures { result ≡ streams.reversed ends.now }
{
    Endpoints {
        local_addr: ends.remote_addr,
        local_port: ends.remote_port,
        remote_addr: ends.local_addr,
        remote_port: ends.local_port,
    }
}
