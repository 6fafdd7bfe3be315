//! A host with its sockets, and the user of these.
use crate::forwarder::{Forwarder, MOST_SOCKETS};
use crate::packets::{QUEUE_OCTETS, QUEUE_PACKETS, add_raw, kind_of, queue_packet};
use crate::simulation::instant;
use anyhow::{Result, bail};
use egress_schedule::{NoneIsKnown, Schedule};
use host::drive::Owner;
use host::link::Host;
use interface::{Capacities, Config, Interface};
use ip_wire::{HardwareAddress, IpAddress};
use net_base::MemoryDevice;
use net_base::phy::{ChecksumCapabilities, DeviceCapabilities, Medium};
use net_base::time::{Duration, Instant};
use simulation_script::script::{
    Flow, HostLine, MAX_ADDRESSES, MAX_GROUPS, Ping, RawPacket, Rooms, Script,
};
use simulation_streams::connections::Connections;
use socket_set::{SocketHandle, SocketSet};
use sockets::{IpEndpoint, IpListenEndpoint, Queue, icmp, udp};
use std::alloc::Global;

/// Ethernet with frames of at most 1514 octets.
const CAPABILITIES: DeviceCapabilities = DeviceCapabilities {
    medium: Medium::Ethernet,
    max_transmission_unit: 1514,
    max_burst_size: None,
    checksum: ChecksumCapabilities::ALL,
};

/// The longest IP packet that such a frame carries, in octets.
const IP_MTU: usize = 1_500;

/// The octets of the data of an echo request.
const PING_DATA: usize = 48;

/// The most datagrams that it takes in a turn.
const MOST_COLLECTED: usize = 64;

/// What a host's owner does in a turn.
#[derive(Clone, Copy)]
pub enum Turn {
    /// It takes what its sockets received.
    Collect,
    /// It does the task of this number.
    Task(usize),
    /// It prepares a round of polls at a time, in microseconds, while a piece of a packet is left to send or not.
    BeforeRound(u64, bool),
    /// It ends the round.
    AfterRound(u64),
    /// Its connections take what came, and send what is due at a time, in microseconds.
    Exchange(u64),
    /// It queues the packet that it is to forward.
    Forward,
}

impl Turn {
    /// The number that stands for it.
    pub fn number(self) -> usize {
        let (kind, value) = match self {
            Turn::Collect => (0, 0),
            Turn::Task(task) => (1, task),
            Turn::BeforeRound(now, false) => (2, now as usize),
            Turn::BeforeRound(now, true) => (3, now as usize),
            Turn::AfterRound(now) => (4, now as usize),
            Turn::Exchange(now) => (5, now as usize),
            Turn::Forward => (6, 0),
        };
        value.saturating_mul(7).saturating_add(kind)
    }

    /// The turn that a number stands for.
    fn of(number: usize) -> Turn {
        let value = number / 7;
        match number % 7 {
            0 => Turn::Collect,
            1 => Turn::Task(value),
            2 => Turn::BeforeRound(value as u64, false),
            3 => Turn::BeforeRound(value as u64, true),
            4 => Turn::AfterRound(value as u64),
            5 => Turn::Exchange(value as u64),
            _ => Turn::Forward,
        }
    }
}

/// What a script sends by sockets, by its number there.
#[derive(Clone, Copy, PartialEq, Eq)]
pub enum Traffic {
    /// Datagrams of a flow.
    Flow(u32),
    /// Echo requests of a line.
    Ping(u32),
}

/// What an owner tried to queue last.
#[derive(Clone, Copy)]
pub struct Attempt {
    /// Of what it is.
    pub traffic: Traffic,
    /// Its number there, from 0.
    pub number: u32,
    /// Whether its socket had room.
    pub is_queued: bool,
}

/// The datagrams of a flow that are queued one by one.
#[derive(Clone, Copy)]
pub struct Datagrams {
    // The number of the flow.
    flow: u32,
    socket: SocketHandle,
    remote: IpEndpoint,
    // The length of a payload.
    size: usize,
    // How many it has tried to queue.
    tried: u32,
}

impl Datagrams {
    /// Queues the next one, if its socket has room.
    fn queue_next(&mut self, alloc: Global, sockets: &mut SocketSet<'_>) -> Result<Attempt> {
        let number = next_number(&mut self.tried);
        let payload = payload_of(alloc, self.flow, number, self.size)?;
        Ok(Attempt {
            traffic: Traffic::Flow(self.flow),
            number,
            is_queued: queue_datagram(sockets, self.socket, self.remote, &payload),
        })
    }
}

/// The echo requests of a line that are queued one by one.
#[derive(Clone, Copy)]
pub struct Requests {
    // The number of the line.
    ping: u32,
    socket: SocketHandle,
    remote: IpAddress,
    // How many it has tried to queue.
    tried: u32,
}

impl Requests {
    /// Queues the next one, if its socket has room.
    fn queue_next(&mut self, alloc: Global, sockets: &mut SocketSet<'_>) -> Result<Attempt> {
        let number = next_number(&mut self.tried);
        let message = request_of(alloc, &self.remote, self.ping, number)?;
        Ok(Attempt {
            traffic: Traffic::Ping(self.ping),
            number,
            is_queued: queue_message(sockets, self.socket, self.remote, &message),
        })
    }
}

/// What the owner of sockets may have to do.
#[derive(Drop)]
pub enum Task {
    /// It queues the next datagram of a flow.
    Flow(Datagrams),
    /// It queues the next echo request of a line.
    Ping(Requests),
    /// It queues a packet in a raw socket.
    Packet {
        /// The socket.
        socket: SocketHandle,
        /// The packet.
        octets: Vec<u8>,
    },
}

/// A UDP socket of a host.
#[derive(Clone, Copy)]
struct PortSocket {
    handle: SocketHandle,
    // Whether what it receives is sent back.
    is_echo: bool,
}

/// A socket for the replies to a line's echo requests.
#[derive(Clone, Copy)]
struct PingSocket {
    handle: SocketHandle,
    ping: u32,
}

/// A datagram that a socket received.
#[derive(Clone, Copy)]
pub struct Received {
    /// The socket's port.
    pub port: u16,
    /// Its source.
    pub remote: IpEndpoint,
    /// The length of its payload.
    pub size: usize,
    /// The flow and the number there that the payload names, if it is as flows make it.
    pub named: Option<(u32, u32)>,
}

impl Received {
    /// A datagram that came to a port.
    fn of(port: u16, remote: IpEndpoint, payload: &[u8]) -> Received {
        Received {
            port,
            remote,
            size: payload.len(),
            named: name_in(payload),
        }
    }
}

/// The user of a host's sockets.
#[derive(Drop)]
pub struct Station {
    alloc: Global,
    // Its UDP sockets.
    sockets: Vec<PortSocket>,
    // Its sockets for echo requests.
    pings: Vec<PingSocket>,
    // The schedule of its sockets, if it has one.
    schedule: Option<Schedule>,
    /// Its connections of TCP, if it listens or sends streams.
    pub connections: Option<Box<Connections>>,
    /// What it sends for the other host of a router, if its own is of one.
    pub forwarder: Option<Forwarder>,
    /// What it has to do.
    pub tasks: Vec<Task>,
    /// What it took from its UDP sockets in the last turn.
    pub received: Vec<Received>,
    /// The line and the number of each echo request whose reply it took then.
    pub replies: Vec<(u32, u32)>,
    /// What it tried to queue in the last turn, if it did.
    pub attempt: Option<Attempt>,
    /// Whether memory was refused.
    pub lacks_memory: bool,
}

impl Owner for Station {
    ghost did = { λ station number before after station'. Unit {0} };

    fn act(&mut self, number: usize, sockets: &mut SocketSet<'_>) {
        match Turn::of(number) {
            Turn::Collect => self.collect(sockets),
            Turn::Task(task) => self.do_task(task, sockets),
            Turn::BeforeRound(now, is_piece_left) => {
                self.begin_round(now, is_piece_left, sockets);
            }
            Turn::AfterRound(now) => self.end_round(now, sockets),
            Turn::Exchange(now) => self.exchange(now, sockets),
            Turn::Forward => self.forward(sockets),
        }
    }
}

impl Station {
    /// An owner without sockets.
    fn new(alloc: Global) -> Station {
        Station {
            alloc,
            sockets: Vec::new(alloc),
            pings: Vec::new(alloc),
            schedule: None,
            connections: None,
            forwarder: None,
            tasks: Vec::new(alloc),
            received: Vec::new(alloc),
            replies: Vec::new(alloc),
            attempt: None,
            lacks_memory: false,
        }
    }

    /// How many sockets it has at most.
    fn count_sockets(&self) -> usize {
        let of_connections = if self.connections.is_some() { 4 } else { 0 };
        let of_router = if self.forwarder.is_some() {
            MOST_SOCKETS
        } else {
            0
        };
        let of_lines = self.sockets.len().saturating_add(self.tasks.len());
        of_lines
            .saturating_add(of_connections)
            .saturating_add(of_router)
    }

    /// Whether rounds of polls are between two turns of it.
    pub fn has_schedule(&self) -> bool {
        self.schedule.is_some()
    }

    /// Whether it listens or sends streams.
    pub fn has_connections(&self) -> bool {
        self.connections.is_some()
    }

    /// Whether it may send UDP by a socket by which it forwards.
    pub fn may_send_udp(&self) -> bool {
        match &self.forwarder {
            Some(forwarder) => forwarder.may_send_udp(),
            None => false,
        }
    }

    /// How many packets its schedule gave up.
    pub fn given_up(&self) -> u64 {
        match &self.schedule {
            Some(schedule) => schedule.given_up(),
            None => 0,
        }
    }

    /// Prepares a round of polls.
    fn begin_round(&mut self, now: u64, is_piece_left: bool, sockets: &mut SocketSet<'_>) {
        if let Some(schedule) = &mut self.schedule {
            schedule.before_round(instant(now), IP_MTU, is_piece_left, &NoneIsKnown, sockets);
        }
    }

    /// Ends a round of polls.
    fn end_round(&mut self, now: u64, sockets: &mut SocketSet<'_>) {
        if let Some(schedule) = &mut self.schedule {
            schedule.after_round(instant(now), sockets);
        }
    }

    /// When something is due at its connections first, in microseconds; `None` if nothing is due there by itself.
    pub fn poll_at(&self) -> Option<u64> {
        match &self.connections {
            Some(connections) => connections.poll_at(),
            None => None,
        }
    }

    /// Its connections take what came, and send what is due.
    fn exchange(&mut self, now: u64, sockets: &mut SocketSet<'_>) {
        if let Some(connections) = &mut self.connections
            && connections.exchange(now, sockets).is_err()
        {
            self.lacks_memory = true;
        }
    }

    /// Queues the packet that it is to forward.
    fn forward(&mut self, sockets: &mut SocketSet<'_>) {
        if let Some(forwarder) = &mut self.forwarder
            && forwarder.queue(sockets).is_err()
        {
            self.lacks_memory = true;
        }
    }

    /// Takes what its sockets received.
    fn collect(&mut self, sockets: &mut SocketSet<'_>) {
        self.received.clear();
        self.replies.clear();
        if self.collect_datagrams(sockets).is_err() || self.collect_replies(sockets).is_err() {
            self.lacks_memory = true;
        }
    }

    /// Takes the datagrams that UDP sockets received, and sends some back.
    fn collect_datagrams(&mut self, sockets: &mut SocketSet<'_>) -> Result<()> {
        for socket in self.sockets.iter() {
            take_datagrams(self.alloc, socket, sockets, &mut self.received)?;
        }
        self.expect_long_packets();
        Ok(())
    }

    /// Takes the echo replies that sockets received.
    fn collect_replies(&mut self, sockets: &mut SocketSet<'_>) -> Result<()> {
        for socket in self.pings.iter() {
            take_replies(socket, sockets, &mut self.replies)?;
        }
        Ok(())
    }

    /// Tells the schedule that something was queued that may have to be cut.
    fn expect_long_packets(&mut self) {
        if let Some(schedule) = &mut self.schedule {
            schedule.expect_long_packet();
        }
    }

    /// Does a task.
    fn do_task(&mut self, number: usize, sockets: &mut SocketSet<'_>) {
        self.expect_long_packets();
        match self.try_task(number, sockets) {
            Ok(attempt) => self.attempt = attempt,
            Err(_) => self.lacks_memory = true,
        }
    }

    /// Does a task, and returns what it tried to queue.
    fn try_task(&mut self, number: usize, sockets: &mut SocketSet<'_>) -> Result<Option<Attempt>> {
        match self.tasks.get_mut(number) {
            Some(task) => do_task(self.alloc, task, sockets),
            None => Ok(None),
        }
    }
}

/// Takes the datagrams of one socket, and sends some back.
fn take_datagrams(
    alloc: Global,
    place: &PortSocket,
    sockets: &mut SocketSet<'_>,
    received: &mut Vec<Received>,
) -> Result<()> {
    let Some(socket) = sockets.get_mut::<udp::Socket<'_>>(place.handle) else {
        return Ok(());
    };
    if place.is_echo {
        send_back(alloc, socket, received)
    } else {
        take_received(socket, received)
    }
}

/// Takes the datagrams of one socket.
fn take_received(socket: &mut udp::Socket<'_>, received: &mut Vec<Received>) -> Result<()> {
    let port = socket.endpoint().port;
    for _ in 0..MOST_COLLECTED {
        let Some((remote, payload)) = socket.recv() else {
            break;
        };
        received.push(Received::of(port, *remote, payload))?;
        socket.done();
    }
    Ok(())
}

/// Takes the datagrams of one socket, and sends each back from it.
fn send_back(
    alloc: Global,
    socket: &mut udp::Socket<'_>,
    received: &mut Vec<Received>,
) -> Result<()> {
    let port = socket.endpoint().port;
    for _ in 0..MOST_COLLECTED {
        let Some((remote, payload)) = socket.recv() else {
            break;
        };
        let remote = *remote;
        received.push(Received::of(port, remote, payload))?;
        let octets = Vec::from_slice(alloc, payload)?;
        socket.done();
        let _ = socket.try_send(remote, &octets);
    }
    Ok(())
}

/// Takes the messages of one socket, and notes the number of each echo reply.
fn take_replies(
    place: &PingSocket,
    sockets: &mut SocketSet<'_>,
    replies: &mut Vec<(u32, u32)>,
) -> Result<()> {
    match sockets.get_mut::<icmp::Socket<'_>>(place.handle) {
        Some(socket) => note_replies(socket, place.ping, replies),
        None => Ok(()),
    }
}

/// Takes the messages of one socket, and notes the number of each echo reply.
fn note_replies(
    socket: &mut icmp::Socket<'_>,
    ping: u32,
    replies: &mut Vec<(u32, u32)>,
) -> Result<()> {
    for _ in 0..MOST_COLLECTED {
        let Some((_, message)) = socket.recv() else {
            break;
        };
        if let Some(number) = reply_in(message) {
            replies.push((ping, number))?;
        }
        socket.done();
    }
    Ok(())
}

/// The number of an echo reply, if a message is one (RFC 792, RFC 4443 4.2).
fn reply_in(message: &[u8]) -> Option<u32> {
    match message {
        [0 | 129, _, _, _, _, _, high, low, ..] => {
            Some(u32::from(u16::from_be_bytes([*high, *low])))
        }
        _ => None,
    }
}

/// Does a task, and returns what it tried to queue, if it is something of a flow or of a line of echo requests.
fn do_task(alloc: Global, task: &mut Task, sockets: &mut SocketSet<'_>) -> Result<Option<Attempt>> {
    match task {
        Task::Flow(datagrams) => Ok(Some(datagrams.queue_next(alloc, sockets)?)),
        Task::Ping(requests) => Ok(Some(requests.queue_next(alloc, sockets)?)),
        Task::Packet { socket, octets } => {
            let _ = queue_packet(sockets, *socket, octets);
            Ok(None)
        }
    }
}

/// A number, which is one more afterwards.
fn next_number(tried: &mut u32) -> u32 {
    let number = *tried;
    *tried = number.saturating_add(1);
    number
}

/// Queues a datagram, and returns whether its socket had room.
fn queue_datagram(
    sockets: &mut SocketSet<'_>,
    handle: SocketHandle,
    remote: IpEndpoint,
    payload: &[u8],
) -> bool {
    match sockets.get_mut::<udp::Socket<'_>>(handle) {
        Some(socket) => socket.try_send(remote, payload).is_ok(),
        None => false,
    }
}

/// Queues a message of ICMP, and returns whether its socket had room.
fn queue_message(
    sockets: &mut SocketSet<'_>,
    handle: SocketHandle,
    remote: IpAddress,
    message: &[u8],
) -> bool {
    match sockets.get_mut::<icmp::Socket<'_>>(handle) {
        Some(socket) => socket.try_send(remote, message).is_ok(),
        None => false,
    }
}

/// The identifier of a line's echo requests.
fn identifier_of(ping: u32) -> u16 {
    (ping % 65_536) as u16
}

/// An echo request, whose checksum the host computes (RFC 792, RFC 4443 4.1).
fn request_of(alloc: Global, remote: &IpAddress, ping: u32, number: u32) -> Result<Vec<u8>> {
    let kind = match remote {
        IpAddress::Ipv4(_) => 8,
        IpAddress::Ipv6(_) => 128,
    };
    let mut message = Vec::with_capacity(alloc, 8 + PING_DATA)?;
    message.extend_from_slice(&[kind, 0, 0, 0])?;
    message.extend_from_slice(&identifier_of(ping).to_be_bytes())?;
    message.extend_from_slice(&((number % 65_536) as u16).to_be_bytes())?;
    for i in 0..PING_DATA {
        message.push(i as u8)?;
    }
    Ok(message)
}

/// The payload of a flow's datagram: the flow's number, its own, and octets that count on from both.
fn payload_of(alloc: Global, flow: u32, number: u32, size: usize) -> Result<Vec<u8>> {
    let mut payload = Vec::with_capacity(alloc, size)?;
    payload.extend_from_slice(&flow.to_be_bytes())?;
    payload.extend_from_slice(&number.to_be_bytes())?;
    for i in 8..size {
        payload.push(octet_of(flow, number, i))?;
    }
    Ok(payload)
}

/// An octet of such a payload, from the ninth on.
fn octet_of(flow: u32, number: u32, place: usize) -> u8 {
    let sum = u64::from(flow) + u64::from(number) + (place % 256) as u64;
    (sum % 256) as u8
}

/// The flow and the number that a payload names, if it is as flows make it.
fn name_in(payload: &[u8]) -> Option<(u32, u32)> {
    let [a, b, c, d, e, f, g, h, ..] = payload else {
        return None;
    };
    let flow = u32::from_be_bytes([*a, *b, *c, *d]);
    let number = u32::from_be_bytes([*e, *f, *g, *h]);
    for i in 8..payload.len() {
        if payload[i] != octet_of(flow, number, i) {
            return None;
        }
    }
    Some((flow, number))
}

/// Makes the host of a line, with its number. It has no sockets yet.
pub fn new_host(
    alloc: Global,
    script: &Script,
    number: usize,
    line: &HostLine,
) -> Result<Host<'static, Station>> {
    let mut device = MemoryDevice::new(alloc, CAPABILITIES);
    let interface = interface_of(alloc, script, number, line, &mut device)?;
    Ok(Host {
        interface,
        device,
        sockets: SocketSet::new(Vec::new(alloc)),
        owner: Station::new(alloc),
    })
}

/// Makes the interface of a host. By the lines of a script only the memory may be lacking.
fn interface_of(
    alloc: Global,
    script: &Script,
    number: usize,
    line: &HostLine,
    device: &mut MemoryDevice,
) -> Result<Interface> {
    let mut config = Config::new(HardwareAddress::Ethernet(line.hardware_addr));
    config.random_seed = number as u64;
    config.slaac = line.slaac;
    let Ok(mut interface) = Interface::new(config, device, Instant::ZERO) else {
        bail!("{}: its Ethernet address is a group's", line.name);
    };
    prepare(alloc, &mut interface, script.rooms_of(Some(number)), line)?;
    Ok(interface)
}

/// Gives an interface its room, its addresses, routers and groups.
fn prepare(alloc: Global, interface: &mut Interface, rooms: Rooms, line: &HostLine) -> Result<()> {
    make_room(alloc, interface, rooms)?;
    configure(interface, line)
}

/// Gives an interface its addresses, routers and groups.
fn configure(interface: &mut Interface, line: &HostLine) -> Result<()> {
    if !has_configured(interface, line) {
        bail!("{}: its addresses or groups are refused", line.name);
    }
    Ok(())
}

/// Makes room for neighbours, for datagrams in fragments, and for as many groups as a host may join beside those of its
/// addresses.
fn make_room(alloc: Global, interface: &mut Interface, rooms: Rooms) -> Result<()> {
    interface.set_capacities(Capacities {
        groups: MAX_GROUPS + MAX_ADDRESSES,
        ..Capacities::default()
    });
    let neighbors = Vec::with_capacity(alloc, rooms.neighbors)?;
    interface.set_neighbor_storage(neighbors, Vec::with_capacity(alloc, rooms.neighbors)?);
    let keys = Vec::with_capacity(alloc, rooms.fragmented)?;
    interface.set_fragment_storage(keys, Vec::with_capacity(alloc, rooms.fragmented)?);
    Ok(())
}

/// Gives an interface its addresses, routers and groups, and returns whether it took all.
fn has_configured(interface: &mut Interface, line: &HostLine) -> bool {
    let mut has_all = interface.set_ip_addrs(line.addresses.as_slice()).is_ok();
    for gateway in line.gateways.as_slice() {
        has_all = add_gateway(interface, gateway) && has_all;
    }
    for group in line.groups.as_slice() {
        has_all = interface.join_multicast_group(*group).is_ok() && has_all;
    }
    has_all
}

/// Sets the router of the default route of its family, and returns whether there was room.
fn add_gateway(interface: &mut Interface, gateway: &IpAddress) -> bool {
    match gateway {
        IpAddress::Ipv4(router) => interface
            .routes_mut()
            .add_default_ipv4_route(*router)
            .is_ok(),
        IpAddress::Ipv6(router) => interface
            .routes_mut()
            .add_default_ipv6_route(*router)
            .is_ok(),
    }
}

/// Adds the sockets of a host to a set, and gives their owner all that the host does by a script.
pub fn add_all(
    alloc: Global,
    script: &Script,
    number: usize,
    line: &HostLine,
    owner: &mut Station,
    sockets: &mut SocketSet<'static>,
) -> Result<()> {
    if line.way.is_some() {
        owner.forwarder = Some(Forwarder::new(alloc));
    }
    add_ports(alloc, line, owner, sockets)?;
    add_tasks(alloc, script, number, line, owner, sockets)?;
    if script.has_connections(number) {
        owner.connections = Some(connections_of(alloc, script, number, line, sockets)?);
    }
    if let Some(patience) = script.patience {
        owner.schedule = Some(schedule_of(alloc, owner.count_sockets(), patience)?);
    }
    Ok(())
}

/// Adds a UDP socket for each port of a host.
fn add_ports(
    alloc: Global,
    line: &HostLine,
    owner: &mut Station,
    sockets: &mut SocketSet<'static>,
) -> Result<()> {
    for port in line.ports.as_slice() {
        let handle = add_udp(alloc, sockets, *port)?;
        let is_echo = line.echoes.as_slice().contains(port);
        owner.sockets.push(PortSocket { handle, is_echo })?;
    }
    Ok(())
}

/// Gives an owner the tasks of its host: of flows, of echo requests, and of packets.
fn add_tasks(
    alloc: Global,
    script: &Script,
    number: usize,
    line: &HostLine,
    owner: &mut Station,
    sockets: &mut SocketSet<'static>,
) -> Result<()> {
    for (i, flow) in script.flows.iter().enumerate() {
        if flow.host == number {
            add_flow(i, flow, line, owner)?;
        }
    }
    for (i, ping) in script.pings.iter().enumerate() {
        if ping.host == number {
            add_ping(alloc, i, ping, owner, sockets)?;
        }
    }
    for packet in script.packets.iter() {
        if packet.host == number {
            add_packet(alloc, packet, owner, sockets)?;
        }
    }
    Ok(())
}

/// The connections of a host that listens or sends streams.
fn connections_of(
    alloc: Global,
    script: &Script,
    number: usize,
    line: &HostLine,
    sockets: &mut SocketSet<'static>,
) -> Result<Box<Connections>> {
    let connections = Connections::new(alloc, script, number, line, sockets)?;
    Ok(Box::new(alloc, connections)?)
}

/// A schedule of so many sockets, which give up a packet after so many microseconds.
fn schedule_of(alloc: Global, count: usize, patience: u64) -> Result<Schedule> {
    Ok(Schedule::new(alloc, count, Duration::from_micros(patience))?)
}

/// Adds a UDP socket at a port of any address.
fn add_udp(alloc: Global, sockets: &mut SocketSet<'static>, port: u16) -> Result<SocketHandle> {
    let endpoint = IpListenEndpoint { addr: None, port };
    let rx = Queue::new(alloc, QUEUE_PACKETS, QUEUE_OCTETS)?;
    let tx = Queue::new(alloc, QUEUE_PACKETS, QUEUE_OCTETS)?;
    let socket: udp::Socket<'static> = udp::SocketOf::new(endpoint, rx, tx);
    Ok(sockets.add(socket)?)
}

/// Gives an owner the task of a flow, by the flow's number.
fn add_flow(number: usize, flow: &Flow, line: &HostLine, owner: &mut Station) -> Result<()> {
    let ports = line.ports.as_slice();
    let place = ports.iter().position(|port| *port == flow.port);
    let Some(socket) = place.and_then(|place| owner.sockets.get(place)) else {
        bail!("no socket");
    };
    owner.tasks.push(Task::Flow(Datagrams {
        flow: u32::try_from(number).unwrap_or(u32::MAX),
        socket: socket.handle,
        remote: flow.remote,
        size: flow.size,
        tried: 0,
    }))?;
    Ok(())
}

/// Gives an owner the task of a line's echo requests, by the line's number, with a socket for its identifier.
fn add_ping(
    alloc: Global,
    number: usize,
    line: &Ping,
    owner: &mut Station,
    sockets: &mut SocketSet<'static>,
) -> Result<()> {
    let ping = u32::try_from(number).unwrap_or(u32::MAX);
    let socket = add_icmp(alloc, sockets, ping)?;
    owner.pings.push(PingSocket {
        handle: socket,
        ping,
    })?;
    owner.tasks.push(Task::Ping(Requests {
        ping,
        socket,
        remote: line.remote,
        tried: 0,
    }))?;
    Ok(())
}

/// Adds a socket for the replies to a line's echo requests.
fn add_icmp(alloc: Global, sockets: &mut SocketSet<'static>, ping: u32) -> Result<SocketHandle> {
    let endpoint = icmp::Endpoint::Ident(identifier_of(ping));
    let rx = Queue::new(alloc, QUEUE_PACKETS, QUEUE_OCTETS)?;
    let tx = Queue::new(alloc, QUEUE_PACKETS, QUEUE_OCTETS)?;
    let socket: icmp::Socket<'static> = icmp::SocketOf::new(endpoint, rx, tx);
    Ok(sockets.add(socket)?)
}

/// Gives an owner the task of a packet, with a raw socket of the packet's version and protocol.
fn add_packet(
    alloc: Global,
    packet: &RawPacket,
    owner: &mut Station,
    sockets: &mut SocketSet<'static>,
) -> Result<()> {
    let (version, protocol) = kind_of(&packet.octets);
    let socket = add_raw(alloc, sockets, version, protocol)?;
    let octets = packet.octets.clone()?;
    owner.tasks.push(Task::Packet { socket, octets })?;
    Ok(())
}
