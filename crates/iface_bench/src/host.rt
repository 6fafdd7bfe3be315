//! The host that is measured, with one UDP socket or more.
ghost use Rattle.std.specs.Prelude.{◌≡◌, ◌≢◌, false};
ghost use Rattle.ip_address.specs.Ip.{is_unspecified};

use crate::link::Link;
use anyhow::{Context, Result};
use arrayvec::ArrayVec;
use iface_tables::route::Route;
use interface::{Config, Interface};
use ip_wire::{
    EthernetAddress, HardwareAddress, IpAddress, IpCidr, IpVersion, Ipv4Address, Ipv4Cidr,
    Ipv6Address, Ipv6Cidr,
};
use net_base::phy::Medium;
use net_base::time::Instant;
use socket_set::{SocketHandle, SocketSet};
use sockets::{IpEndpoint, IpListenEndpoint, Queue, udp};
use std::alloc::Global;

/// The port at which its socket listens.
const PORT: u16 = 4000;

/// Its remote endpoint: a port of 192.168.69.100.
const REMOTE: IpEndpoint = IpEndpoint {
    addr: IpAddress::Ipv4(Ipv4Address { bits: 0xc0a8_4564 }),
    port: 5000,
};

/// Its IPv6 address: fe80::1.
const LINK_LOCAL: Ipv6Address = Ipv6Address {
    bits: 0xfe80_0000_0000_0000_0000_0000_0000_0001,
};

/// Its remote endpoint via a gateway: the same port of 10.1.2.3.
const FAR: IpEndpoint = IpEndpoint {
    addr: IpAddress::Ipv4(Ipv4Address { bits: 0x0a01_0203 }),
    port: 5000,
};

/// Its routes, all via 192.168.69.100: an address and the prefix length.
const ROUTES: [(u32, u8); 4] = [
    (0, 0),
    (0x0a00_0000, 8),
    (0x0a01_0000, 16),
    (0xac10_0000, 12),
];

/// The longest payload of a datagram, in octets.
const MAX_PAYLOAD: usize = 65_495;

/// A host with its link.
#[derive(Drop)]
pub struct BenchHost {
    interface: Interface,
    pub link: Link,
    sockets: SocketSet<'static>,
    handle: SocketHandle,
}

impl BenchHost {
    /// A host at 192.168.69.1/24, or fe80::1/64 over IPv6, with at least `count` sockets, of which the last is used: it
    /// has room for four datagrams each way.
    pub fn new(alloc: Global, count: u64, medium: Medium, version: IpVersion) -> Result<BenchHost> {
        let hardware_addr = match medium {
            Medium::Ethernet => HardwareAddress::Ethernet(EthernetAddress([2, 0, 0, 0, 0, 1])),
            Medium::Ip => HardwareAddress::Ip,
        };
        BenchHost::at(alloc, count, medium, hardware_addr, own(version), PORT)
    }

    /// The host at 192.168.69.100/24 to which it sends, with one socket.
    pub fn peer(alloc: Global) -> Result<BenchHost> {
        let hardware_addr = HardwareAddress::Ethernet(EthernetAddress([2, 0, 0, 0, 0, 2]));
        let cidr = IpCidr::Ipv4(Ipv4Cidr::new(Ipv4Address::new(192, 168, 69, 100), 24));
        BenchHost::at(alloc, 1, Medium::Ethernet, hardware_addr, cidr, REMOTE.port)
    }

    /// A host with an address in its network, whose socket listens at a port.
    fn at(
        alloc: Global,
        count: u64,
        medium: Medium,
        hardware_addr: HardwareAddress,
        cidr: IpCidr,
        port: u16,
    ) -> Result<BenchHost> {
        let mut sockets = SocketSet::new(Vec::new(alloc));
        let handle = add_sockets(alloc, &mut sockets, count, port)?;
        let mut link = Link::new(alloc, medium);
        let interface = interface_at(hardware_addr, cidr, &mut link)?;
        Ok(BenchHost {
            interface,
            link,
            sockets,
            handle,
        })
    }

    /// Receives the link's frame, and answers it.
    pub fn receive(&mut self) {
        let _ = self
            .interface
            .poll_ingress_single(Instant::ZERO, &mut self.link, &mut self.sockets);
    }

    /// Receives the link's frames, if it has any, and sends what the sockets have queued.
    pub fn poll(&mut self) {
        let _ = self.interface.poll(Instant::ZERO, &mut self.link, &mut self.sockets, usize::MAX);
    }

    /// Whether there is an instant at which to poll again.
    pub fn poll_at(&mut self) -> bool {
        self.interface
            .poll_at(Instant::ZERO, &self.sockets)
            .is_some()
    }

    /// Receives the link's frame, and reads the datagram in it. Returns the length of the datagram in octets.
    pub fn deliver(&mut self) -> usize {
        self.receive();
        self.read()
    }

    /// Reads a datagram. Returns its length in octets.
    pub fn read(&mut self) -> usize {
        let Some(socket) = self.sockets.get_mut::<udp::Socket<'static>>(self.handle) else {
            return 0;
        };
        let len = match socket.recv() {
            Some((_, payload)) => payload.len(),
            None => 0,
        };
        socket.done();
        len
    }

    /// Receives three Ethernet frames of IPv4 packets, given one after another.
    pub fn receive_three(&mut self, mut frames: &[u8]) {
        for _ in 0..3 {
            let Some((frame, rest)) = next_frame(frames) else {
                return;
            };
            let _ = self
                .interface
                .receive_frame(Instant::ZERO, frame, &mut self.sockets);
            frames = rest;
        }
    }

    /// Receives the last frame that another host has sent.
    pub fn receive_last(&mut self, link: &Link) {
        let _ = self
            .interface
            .receive_frame(Instant::ZERO, link.last(), &mut self.sockets);
    }

    /// Sends a pending fragment.
    pub fn send_piece(&mut self) {
        let _ = self
            .interface
            .poll_egress(Instant::ZERO, &mut self.link, &mut self.sockets);
    }

    /// Sends two pending fragments.
    pub fn send_two_pieces(&mut self) {
        for _ in 0..2 {
            self.send_piece();
        }
    }

    /// Adds four routes.
    pub fn add_routes(&mut self) -> Result<()> {
        let mut routes = ArrayVec::new();
        for (bits, prefix_len) in ROUTES {
            let cidr = Ipv4Cidr::new(Ipv4Address { bits }, prefix_len.min(32));
            let _ = routes.try_push(Route {
                cidr: IpCidr::Ipv4(cidr),
                via_router: REMOTE.addr,
                preferred_until: None,
                expires_at: None,
            });
        }
        self.interface.routes_mut().update(move |_| routes);
        Ok(())
    }

    /// Sends a datagram with this payload to a neighbour.
    pub fn send(&mut self, payload: &[u8]) {
        self.send_to(REMOTE, payload);
    }

    /// Sends a datagram with this payload via a gateway.
    pub fn send_far(&mut self, payload: &[u8]) {
        self.send_to(FAR, payload);
    }

    /// Sends a datagram with this payload. One that is too long is skipped.
    #[inline(always)]
    fn send_to(&mut self, remote: IpEndpoint, payload: &[u8])
        requires addr { is_unspecified remote.addr ≡ false }
        requires port { remote.port ≢ 0 }
    {
        let Some(socket) = self.sockets.get_mut::<udp::Socket<'static>>(self.handle) else {
            return;
        };
        if socket.endpoint().port == 0 || payload.len() > MAX_PAYLOAD {
            return;
        }
        let _ = socket.send(remote, payload);
        let _ = self
            .interface
            .poll_egress(Instant::ZERO, &mut self.link, &mut self.sockets);
    }
}

/// The address of the host, in its network.
fn own(version: IpVersion) -> IpCidr {
    match version {
        IpVersion::Ipv4 => IpCidr::Ipv4(Ipv4Cidr::new(Ipv4Address::new(192, 168, 69, 1), 24)),
        IpVersion::Ipv6 => IpCidr::Ipv6(Ipv6Cidr::new(LINK_LOCAL, 64)),
    }
}

/// The first of several frames in a row, and the others. It ends with its packet.
fn next_frame(frames: &[u8]) -> Option<(&[u8], &[u8])> {
    let high = *frames.get(16)?;
    let low = *frames.get(17)?;
    frames.split_at_checked(14 + usize::from(high) * 256 + usize::from(low))
}

/// An interface over a link, with an address in its network.
fn interface_at(
    hardware_addr: HardwareAddress,
    cidr: IpCidr,
    link: &mut Link,
) -> Result<Interface> {
    let mut interface = Interface::new(Config::new(hardware_addr), link, Instant::ZERO)?;
    interface.update_ip_addrs(move |_| {
        let mut list = ArrayVec::new();
        list.push(cidr);
        list
    })?;
    Ok(interface)
}

/// Adds sockets, of which the last one listens at a port and has room for four datagrams each way. Returns its handle.
fn add_sockets(
    alloc: Global,
    sockets: &mut SocketSet<'static>,
    count: u64,
    port: u16,
) -> Result<SocketHandle> {
    for _ in 1..count {
        add_idle(alloc, sockets)?;
    }
    let rx = Queue::new(alloc, 4, 8192)?;
    let tx = Queue::new(alloc, 4, 8192)?;
    sockets
        .add(udp::SocketOf::new(IpListenEndpoint { addr: None, port }, rx, tx))
        .ok()
        .context("no memory for the socket")
}

/// Adds a socket at port 1, which receives and sends nothing.
fn add_idle(alloc: Global, sockets: &mut SocketSet<'static>) -> Result<()> {
    let endpoint = IpListenEndpoint {
        addr: None,
        port: 1,
    };
    let rx = Queue::new(alloc, 1, 1)?;
    let tx = Queue::new(alloc, 1, 1)?;
    sockets
        .add(udp::SocketOf::new(endpoint, rx, tx))
        .ok()
        .context("no memory for a socket")?;
    Ok(())
}
