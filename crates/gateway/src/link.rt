//! A link of a gateway: its interface, and the packets that wait for a neighbour there.
ghost use Rattle.net_base.specs.Time.{IsMoment};

use crate::error::GatewayError;
use crate::transit::{Packet, is_end_of};
use anyhow::Result;
use arrayvec::ArrayVec;
use iface_tables::neighbor::Answer;
use iface_tables::route::Route;
use interface::{Config, Interface, SocketHandle, SocketSet};
use ip_wire::{
    EthernetAddress, HardwareAddress, IpAddress, IpCidr, IpProtocol, IpVersion, Ipv4Address,
    Ipv4Cidr,
};
use net_base::MemoryDevice;
use net_base::bucket::Bucket;
use net_base::phy::{ChecksumCapabilities, DeviceCapabilities, Medium};
use net_base::time::{Duration, Instant};
use sockets::{Queue, icmp, raw};
use std::alloc::Global;
use std::mem;

/// A link: Ethernet, with packets of at most 1500 octets.
const CAPABILITIES: DeviceCapabilities = DeviceCapabilities {
    medium: Medium::Ethernet,
    max_transmission_unit: 1514,
    max_burst_size: None,
    checksum: ChecksumCapabilities::ALL,
};

/// How many neighbours are known at once.
const NEIGHBORS: usize = 64;

/// How many packets wait at once.
const HELD: usize = 16;

/// How many neighbours are asked for at once.
const ASKED: usize = 3;

/// How long a neighbour is asked for.
const PATIENCE: Duration = Duration { micros: 3_000_000 };

/// The time of an error, in microseconds, and how many are sent in a row (RFC 1812 4.3.2.8).
const ERROR_INTERVAL: u32 = 10_000;

const ERRORS: u32 = 10;

/// The type of a frame's payload: IPv4.
const ETHERTYPE: [u8; 2] = [8, 0];

/// An echo request, which is never sent: it waits at the interface as long as its neighbour is asked for.
const QUESTION: [u8; 8] = [8, 0, 0, 0, 0, 0, 0, 0];

/// A packet that waits for its next hop.
#[derive(Drop)]
struct Held {
    hop: Ipv4Address,
    /// Whether it came from this link, rather than the other one.
    came_here: bool,
    packet: Vec<u8>,
}

/// A next hop that is asked for.
#[derive(Clone, Copy)]
struct Asked {
    hop: Ipv4Address,
    socket: SocketHandle,
    until: Instant,
}

/// How good a way is, and its next hop. An own network comes before a route, then what has more bits.
#[derive(Clone, Copy)]
pub struct Way {
    pub weight: u16,
    pub hop: Ipv4Address,
}

/// A link of a gateway.
#[derive(Drop)]
pub struct Link {
    alloc: Global,
    interface: Interface,
    device: MemoryDevice,
    sockets: SocketSet<'static>,
    errors: SocketHandle,
    rate: Bucket,
    hardware: EthernetAddress,
    held: Vec<Held>,
    asked: Vec<Asked>,
    sent: Vec<Vec<u8>>,
}

impl Link {
    /// A link with the hardware address 02:00:00:00:00:NUMBER, at an address and its network. By AnyIP the interface answers
    /// for the gateway's other address, too.
    pub fn new(alloc: Global, number: u8, own: Ipv4Cidr, other: Ipv4Address) -> Result<Link> {
        let hardware = EthernetAddress([2, 0, 0, 0, 0, number]);
        let mut sockets = SocketSet::new(Vec::new(alloc));
        let errors = add_socket(alloc, &mut sockets)?;
        let mut device = MemoryDevice::new(alloc, CAPABILITIES);
        let interface = interface_at(alloc, hardware, own, &mut device)?;
        let mut link = Link {
            alloc,
            interface,
            device,
            sockets,
            errors,
            rate: Bucket::new(ERROR_INTERVAL, ERRORS),
            hardware,
            held: Vec::new(alloc),
            asked: Vec::new(alloc),
            sent: Vec::new(alloc),
        };
        link.add_route(Ipv4Cidr::new(other, 32), own.address);
        Ok(link)
    }

    /// Adds a route to a network by a router, if there is room.
    pub fn add_route(&mut self, network: Ipv4Cidr, router: Ipv4Address) {
        self.interface.routes_mut().update(move |routes| {
            let mut routes = routes;
            let _ = routes.try_push(Route {
                cidr: network.into(),
                via_router: router.into(),
                preferred_until: None,
                expires_at: None,
            });
            routes
        });
    }

    /// Its hardware address.
    pub fn hardware(&self) -> EthernetAddress {
        self.hardware
    }

    /// Whether an address is one of the gateway's.
    pub fn is_own(&self, address: Ipv4Address) -> bool {
        self.interface.has_ip_addr(&address.into())
    }

    /// The best way to an address on this link, if there is one.
    pub fn way(&self, to: Ipv4Address) -> Option<Way> {
        let mut best = None;
        for cidr in self.interface.ip_addrs() {
            if cidr.contains_addr(&to.into()) {
                let weight = 500 + u16::from(cidr.prefix_len());
                best = better(best, Way { weight, hop: to });
            }
        }
        for route in self.interface.routes().as_slice() {
            if let IpAddress::Ipv4(hop) = route.via_router
                && route.cidr.contains_addr(&to.into())
            {
                let weight = u16::from(route.cidr.prefix_len());
                best = better(best, Way { weight, hop });
            }
        }
        best
    }

    /// Whether an address is the own or the broadcast address of a network of this link.
    pub fn is_end(&self, address: Ipv4Address) -> bool {
        for cidr in self.interface.ip_addrs() {
            if let IpCidr::Ipv4(cidr) = cidr
                && cidr.contains_addr(&address)
            {
                return is_end_of(cidr, address);
            }
        }
        false
    }

    /// Takes a frame that is not forwarded.
    pub fn receive(&mut self, now: Instant, frame: &[u8])
        requires { IsMoment now }
    {
        // A frame that is too long, or for which there is no memory, is lost.
        let _ = self.device.push(frame);
        self.interface
            .poll_ingress_single(now, &mut self.device, &mut self.sockets);
    }

    /// Sends a packet to its next hop, or keeps it until that neighbour is known. One for which there is no room is dropped.
    pub fn send(
        &mut self,
        now: Instant,
        hop: Ipv4Address,
        packet: Vec<u8>,
        came_here: bool,
    ) -> Result<()>
        requires { IsMoment now }
    {
        match self.neighbor(now, hop) {
            Some(neighbor) => self.emit(neighbor, &packet),
            None => self.hold(
                now,
                Held {
                    hop,
                    came_here,
                    packet,
                },
            ),
        }
    }

    /// Keeps a packet whose next hop is asked for, if there is room.
    fn hold(&mut self, now: Instant, packet: Held) -> Result<()>
        requires { IsMoment now }
    {
        if self.held.len() < HELD && self.ask(now, packet.hop)? {
            self.held.push(packet)?;
        }
        Ok(())
    }

    /// Tells the source of a packet why it isn't forwarded, unless nothing may be told of it, or too many errors were sent.
    pub fn tell(&mut self, now: Instant, error: GatewayError, packet: &Packet<'_>) {
        let micros = now.total_micros().max(0) as u64;
        if !packet.may_be_told() || !self.rate.take(micros) {
            return;
        }
        let source = packet.repr.src_addr;
        let Some(own) = self.interface.get_source_address_ipv4(&source) else {
            return;
        };
        if let Some(socket) = self.sockets.get_mut::<raw::Socket<'_>>(self.errors) {
            // An error for which there is no room isn't sent.
            let _ = socket.send((), error.told_by(own, packet).as_slice());
        }
    }

    /// Sends what is due at the interface.
    pub fn poll(&mut self, now: Instant) -> Result<()>
        requires { IsMoment now }
    {
        self.interface
            .poll_egress(now, &mut self.device, &mut self.sockets);
        for frame in self.device.take_sent() {
            self.sent.push(frame)?;
        }
        Ok(())
    }

    /// The frames that were sent since it was asked last.
    pub fn take_sent(&mut self) -> Vec<Vec<u8>> {
        mem::replace(&mut self.sent, Vec::new(self.alloc))
    }

    /// The hardware address of a neighbour, where it is known.
    fn neighbor(&self, now: Instant, hop: Ipv4Address) -> Option<EthernetAddress> {
        if !hop.is_unicast() {
            return None;
        }
        match self.interface.neighbors().lookup(&hop.into(), now) {
            Answer::Found(HardwareAddress::Ethernet(address)) => Some(address),
            _ => None,
        }
    }

    /// Sends a packet to a hardware address.
    fn emit(&mut self, neighbor: EthernetAddress, packet: &[u8]) -> Result<()> {
        let frame = frame_of(self.alloc, neighbor, self.hardware, packet)?;
        self.sent.push(frame)?;
        Ok(())
    }

    /// Asks for a next hop, unless that is done. Whether it is asked for: not if too many are.
    fn ask(&mut self, now: Instant, hop: Ipv4Address) -> Result<bool>
        requires { IsMoment now }
    {
        if is_asked_for(&self.asked, hop) {
            return Ok(true);
        }
        if self.asked.len() >= ASKED {
            return Ok(false);
        }
        let socket = add_question(self.alloc, &mut self.sockets, hop)?;
        let until = now + PATIENCE;
        self.asked.push(Asked { hop, socket, until })?;
        Ok(true)
    }
}

/// Whether a next hop is among those that are asked for.
fn is_asked_for(asked: &[Asked], hop: Ipv4Address) -> bool {
    for one in asked {
        if one.hop == hop {
            return true;
        }
    }
    false
}

/// The frame by which a packet goes from one hardware address to another one.
fn frame_of(
    alloc: Global,
    to: EthernetAddress,
    from: EthernetAddress,
    packet: &[u8],
) -> Result<Vec<u8>> {
    let mut frame = Vec::from_slice(alloc, &header_of(to, from))?;
    frame.extend_from_slice(packet)?;
    Ok(frame)
}

/// The header of such a frame.
fn header_of(to: EthernetAddress, from: EthernetAddress) -> [u8; 14] {
    let [a, b, c, d, e, f] = to.0;
    let [g, h, i, j, k, l] = from.0;
    let [high, low] = ETHERTYPE;
    [a, b, c, d, e, f, g, h, i, j, k, l, high, low]
}

/// Adds the socket by which errors are sent.
fn add_socket(alloc: Global, sockets: &mut SocketSet<'static>) -> Result<SocketHandle> {
    let (rx, tx) = (Queue::new(alloc, 0, 0)?, Queue::new(alloc, 4, 4 * 576)?);
    Ok(sockets.add(raw::Socket::new(IpVersion::Ipv4, IpProtocol::Icmp, rx, tx))?)
}

/// Adds a socket whose question waits for a next hop.
fn add_question(
    alloc: Global,
    sockets: &mut SocketSet<'static>,
    hop: Ipv4Address,
) -> Result<SocketHandle> {
    let (rx, tx) = (Queue::new(alloc, 0, 0)?, Queue::new(alloc, 1, 8)?);
    let mut socket = icmp::Socket::new(icmp::Endpoint::Ident(0), rx, tx);
    let _ = socket.try_send(hop.into(), &QUESTION);
    Ok(sockets.add(socket)?)
}

/// An interface at an address, with AnyIP.
fn interface_at(
    alloc: Global,
    hardware: EthernetAddress,
    own: Ipv4Cidr,
    device: &mut MemoryDevice,
) -> Result<Interface> {
    let mut interface = Interface::new(Config::new(hardware.into()), device, Instant::ZERO)?;
    furnish(alloc, own, &mut interface)?;
    Ok(interface)
}

/// Gives an interface its address, room for neighbours, and AnyIP.
fn furnish(alloc: Global, own: Ipv4Cidr, interface: &mut Interface) -> Result<()> {
    interface.update_ip_addrs(move |_| {
        let mut addrs = ArrayVec::new();
        addrs.push(IpCidr::from(own));
        addrs
    })?;
    let neighbors = Vec::with_capacity(alloc, NEIGHBORS)?;
    interface.set_neighbor_storage(neighbors, Vec::with_capacity(alloc, NEIGHBORS)?);
    interface.set_any_ip(true);
    Ok(())
}

/// The better of two ways.
fn better(best: Option<Way>, other: Way) -> Option<Way> {
    match best {
        Some(way) if way.weight >= other.weight => Some(way),
        _ => Some(other),
    }
}

/// Ends what was asked for on a link: packets that waited are sent to a neighbour that is known now, and told of where none
/// answered in time.
pub fn settle(link: &mut Link, other: &mut Link, now: Instant) -> Result<()> {
    let asked = mem::replace(&mut link.asked, Vec::new(link.alloc));
    for one in asked.as_slice() {
        settle_one(link, other, now, *one)?;
    }
    Ok(())
}

/// Ends what was asked for by one question, or goes on to ask.
fn settle_one(link: &mut Link, other: &mut Link, now: Instant, one: Asked) -> Result<()> {
    let neighbor = link.neighbor(now, one.hop);
    if neighbor.is_none() && now < one.until {
        link.asked.push(one)?;
        return Ok(());
    }
    link.sockets.remove(one.socket);
    release(link, other, now, one.hop, neighbor)
}

/// Sends the packets that waited for a next hop to it, if it is a neighbour, and tells of them if it isn't.
fn release(
    link: &mut Link,
    other: &mut Link,
    now: Instant,
    hop: Ipv4Address,
    neighbor: Option<EthernetAddress>,
) -> Result<()> {
    let held = mem::replace(&mut link.held, Vec::new(link.alloc));
    for one in held {
        if one.hop != hop {
            link.held.push(one)?;
        } else {
            release_one(link, other, now, &one, neighbor)?;
        }
    }
    Ok(())
}

/// Sends a packet that waited to a neighbour, if there is one, and tells of it if there isn't.
fn release_one(
    link: &mut Link,
    other: &mut Link,
    now: Instant,
    one: &Held,
    neighbor: Option<EthernetAddress>,
) -> Result<()> {
    match neighbor {
        Some(neighbor) => return link.emit(neighbor, &one.packet),
        None if one.came_here => tell_of(link, now, &one.packet),
        None => tell_of(other, now, &one.packet),
    }
    Ok(())
}

/// Tells the source of a packet, which came from a link, that its next hop doesn't answer.
fn tell_of(link: &mut Link, now: Instant, octets: &[u8]) {
    if let Some(packet) = Packet::read(octets) {
        link.tell(now, GatewayError::NoNeighbor, &packet);
    }
}
