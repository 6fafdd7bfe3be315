//! The host: an interface at 192.168.69.1/24, a socket at port 7, and the schedule of that socket.
ghost use Rattle.net_base.specs.Time.{IsMoment};

use crate::link::CAPABILITIES;
use anyhow::Result;
use arrayvec::ArrayVec;
use egress_schedule::{NoneIsKnown, Schedule};
use interface::{Config, Interface, SocketHandle, SocketSet};
use ip_wire::{EthernetAddress, IpCidr, Ipv4Address, Ipv4Cidr};
use net_base::phy::Device;
use net_base::time::{Duration, Instant};
use sockets::{Queue, udp};
use std::alloc::Global;
use std::io::Eprint;

/// A poll takes at most one frame, and makes one round of sending, for which the schedule prepares the sockets.
const BUDGET: usize = 1;

/// How long a datagram waits for a neighbour that doesn't answer: three requests, a second apart (RFC 4861 10).
const PATIENCE: Duration = Duration { micros: 3_000_000 };

/// A host that sends back what comes to its socket.
#[derive(Drop)]
pub struct Echo {
    interface: Interface,
    service: Service,
}

impl Echo {
    /// A host over a device. Fails if memory is refused.
    pub fn new<D: Device>(alloc: Global, device: &mut D) -> Result<Echo> {
        let service = Service::new(alloc)?;
        Ok(Echo {
            interface: interface_over(device)?,
            service,
        })
    }

    /// Takes a frame, sends back what came in it, and tells of a neighbour that doesn't answer.
    pub fn serve<D: Device>(
        &mut self,
        rt: &impl Eprint,
        alloc: Global,
        device: &mut D,
    ) -> Result<()> {
        // A program with a clock would ask it here.
        let now = Instant::ZERO;
        self.round(now, device);
        self.service.send_back(rt, alloc)?;
        self.round(now, device);
        self.service.tell_given_up(rt)
    }

    /// A poll at a moment. Before it the schedule chooses which sockets are asked, and after it gives up what waited too
    /// long.
    fn round<D: Device>(&mut self, now: Instant, device: &mut D)
        requires { IsMoment now }
    {
        let is_piece_left = self.interface.has_pending_fragment();
        self.service.begin_round(now, is_piece_left);
        self.interface
            .poll(now, device, &mut self.service.sockets, BUDGET);
        self.service.end_round(now);
    }
}

/// The socket at port 7, its set, and its schedule.
#[derive(Drop)]
struct Service {
    sockets: SocketSet<'static>,
    handle: SocketHandle,
    schedule: Schedule,
}

impl Service {
    /// The socket has room for four datagrams each way. Fails if memory is refused.
    fn new(alloc: Global) -> Result<Service> {
        let schedule = Schedule::new(alloc, 1, PATIENCE)?;
        let mut sockets = SocketSet::new(Vec::new(alloc));
        let handle = add_socket(alloc, &mut sockets)?;
        Ok(Service {
            sockets,
            handle,
            schedule,
        })
    }

    /// The schedule chooses which sockets are asked.
    fn begin_round(&mut self, now: Instant, is_piece_left: bool)
        requires { IsMoment now }
    {
        let mtu = CAPABILITIES.ip_mtu();
        self.schedule
            .before_round(now, mtu, is_piece_left, &NoneIsKnown, &mut self.sockets);
    }

    /// The schedule gives up what waited too long.
    fn end_round(&mut self, now: Instant)
        requires { IsMoment now }
    {
        self.schedule.after_round(now, &mut self.sockets);
    }

    /// Queues each datagram that came for where it came from.
    fn send_back(&mut self, rt: &impl Eprint, alloc: Global) -> Result<()> {
        match self.sockets.get_mut::<udp::Socket<'_>>(self.handle) {
            Some(socket) => send_back(rt, alloc, socket),
            None => Ok(()),
        }
    }

    /// Tells of a neighbour that doesn't answer.
    fn tell_given_up(&mut self, rt: &impl Eprint) -> Result<()> {
        if let Some(neighbor) = self.schedule.take_given_up(self.handle) {
            eprintln!(rt; "{neighbor} doesn't answer")?;
        }
        Ok(())
    }
}

/// Adds a socket at port 7.
fn add_socket(alloc: Global, sockets: &mut SocketSet<'static>) -> Result<SocketHandle> {
    let (rx, tx) = (Queue::new(alloc, 4, 4096)?, Queue::new(alloc, 4, 4096)?);
    Ok(sockets.add(udp::Socket::new(7.into(), rx, tx))?)
}

/// Queues each datagram that came to a socket for where it came from.
fn send_back(rt: &impl Eprint, alloc: Global, socket: &mut udp::Socket<'_>) -> Result<()> {
    for _ in 0..socket.rx().len() {
        send_one_back(rt, alloc, socket)?;
    }
    Ok(())
}

/// Queues a datagram that came for where it came from. Tells of one that can't go back: there is no room, or it came from
/// port 0.
fn send_one_back(rt: &impl Eprint, alloc: Global, socket: &mut udp::Socket<'_>) -> Result<()> {
    let Some((remote, payload)) = socket.recv() else {
        return Ok(());
    };
    let (remote, payload) = (*remote, Vec::from_slice(alloc, payload)?);
    socket.done();
    if let Err(error) = socket.try_send(remote, &payload) {
        eprintln!(rt; "{remote}: {error}")?;
    }
    Ok(())
}

/// An interface over a device, at 192.168.69.1/24.
fn interface_over<D: Device>(device: &mut D) -> Result<Interface> {
    let hardware_addr = EthernetAddress([2, 0, 0, 0, 0, 1]);
    let mut interface = Interface::new(Config::new(hardware_addr.into()), device, Instant::ZERO)?;
    let own = Ipv4Cidr::new(Ipv4Address::new(192, 168, 69, 1), 24);
    interface.update_ip_addrs(move |_| {
        let mut addrs = ArrayVec::new();
        addrs.push(IpCidr::from(own));
        addrs
    })?;
    Ok(interface)
}
