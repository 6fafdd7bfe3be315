//! `dhcp_host` is a host with nothing but a hardware address: it leases its address by DHCP (RFC 2131).
//! It reads from standard input, a line each, a time in milliseconds and maybe a frame in hexadecimal that comes then. It prints
//! the frames that it sends, and what becomes of its lease.
#![tactic(auto)]

ghost use Rattle.net_base.specs.Time.{IsMoment};

use anyhow::Result;
use arrayvec::ArrayVec;
use dhcp_client::{
    DhcpClient, DhcpEvent, DhcpLease, DhcpMessage, DhcpRoom, DhcpWishes, receive, send_by_raw,
    send_by_udp,
};
use interface::{Config, Interface, SocketHandle, SocketSet};
use ip_wire::{EthernetAddress, IpCidr, IpProtocol, IpVersion, Ipv4Address, Ipv4Cidr};
use net_base::MemoryDevice;
use net_base::phy::{ChecksumCapabilities, DeviceCapabilities, Medium};
use net_base::time::Instant;
use sockets::{Queue, raw, udp};
use std::alloc::Global;
use std::io::Print;

/// Its link: Ethernet, with frames of at most 1514 octets.
const CAPABILITIES: DeviceCapabilities = DeviceCapabilities {
    medium: Medium::Ethernet,
    max_transmission_unit: 1514,
    max_burst_size: None,
    checksum: ChecksumCapabilities::ALL,
};

const HARDWARE: EthernetAddress = EthernetAddress([2, 0, 0, 0, 0, 1]);

/// A poll takes at most one frame, and makes one round of sending.
const BUDGET: usize = 1;

/// A program would ask a generator of random numbers.
const RANDOM: u32 = 0x3903_f326;

fn main(rt: HostRuntime) -> Result<()> {
    let mut client = Client::new(rt.alloc())?;
    let mut link = Link::new(rt.alloc())?;
    serve(&rt, &mut client, &mut link)
}

/// Takes the lines of standard input, one after another.
fn serve(rt: &HostRuntime, client: &mut Client, link: &mut Link) -> Result<()> {
    for line in rt.lines(rt.alloc()) {
        take_line(rt, line?.as_str(), client, link)?;
    }
    Ok(())
}

/// Takes a line: its frame comes, the client does what is to be done then, and what it leads to is printed.
fn take_line(rt: &HostRuntime, line: &str, client: &mut Client, link: &mut Link) -> Result<()> {
    let millis = read_line(rt.alloc(), line, &mut link.device)?;
    link.poll(millis, client);
    if let Some(event) = client.exchange(millis) {
        apply(rt, &event, link)?;
    }
    link.poll(millis, client);
    write_sent(rt, rt.alloc(), &link.device.take_sent())
}

/// The interface, its device, and its network, if it has one.
#[derive(Drop)]
struct Link {
    interface: Interface,
    device: MemoryDevice,
    own: Option<Ipv4Cidr>,
}

impl Link {
    /// An interface without an address.
    fn new(alloc: Global) -> Result<Link> {
        let mut device = MemoryDevice::new(alloc, CAPABILITIES);
        let config = Config::new(HARDWARE.into());
        Ok(Link {
            interface: Interface::new(config, &mut device, Instant::ZERO)?,
            device,
            own: None,
        })
    }

    /// A poll at a time in milliseconds.
    fn poll(&mut self, millis: u32, client: &mut Client) {
        self.interface.poll(
            moment_of(millis),
            &mut self.device,
            &mut client.sockets,
            BUDGET,
        );
    }
}

/// The client, with its sockets and room for a message.
#[derive(Drop)]
struct Client {
    machine: DhcpClient,
    room: DhcpRoom,
    sockets: SocketSet<'static>,
    udp: SocketHandle,
    raw: SocketHandle,
}

impl Client {
    /// A client that has done nothing yet.
    fn new(alloc: Global) -> Result<Client> {
        let mut sockets = SocketSet::new(Vec::new(alloc));
        let (udp, raw) = add_sockets(alloc, &mut sockets)?;
        Ok(Client {
            machine: DhcpClient::new(HARDWARE, None),
            room: DhcpRoom::new(),
            sockets,
            udp,
            raw,
        })
    }

    /// Takes what came to its socket, and queues the message that is due at a time in milliseconds. Returns what became of
    /// the lease.
    fn exchange(&mut self, millis: u32) -> Option<DhcpEvent> {
        hear(&mut self.machine, &mut self.sockets, self.udp);
        let message = self.machine.next_message(u64::from(millis) * 1_000, RANDOM);
        if let Some(message) = &message {
            send(
                message,
                &mut self.sockets,
                self.udp,
                self.raw,
                &mut self.room,
            );
        }
        self.machine.take_event()
    }
}

/// Opens the sockets of a client: one at its port, and one for packets to all servers.
fn add_sockets(
    alloc: Global,
    sockets: &mut SocketSet<'static>,
) -> Result<(SocketHandle, SocketHandle)> {
    Ok((add_udp(alloc, sockets)?, add_raw(alloc, sockets)?))
}

/// Opens the socket at the port of clients.
fn add_udp(alloc: Global, sockets: &mut SocketSet<'static>) -> Result<SocketHandle> {
    let (rx, tx) = (Queue::new(alloc, 4, 4096)?, Queue::new(alloc, 1, 1472)?);
    Ok(sockets.add(udp::Socket::new(68.into(), rx, tx))?)
}

/// Opens the socket for packets to all servers.
fn add_raw(alloc: Global, sockets: &mut SocketSet<'static>) -> Result<SocketHandle> {
    let (rx, tx) = (Queue::new(alloc, 0, 0)?, Queue::new(alloc, 1, 1500)?);
    Ok(sockets.add(raw::Socket::new(IpVersion::Ipv4, IpProtocol::Udp, rx, tx))?)
}

/// Reads a line: its time in milliseconds, which is returned, and maybe a frame, which the device gets.
fn read_line(alloc: Global, line: &str, device: &mut MemoryDevice) -> Result<u32> {
    let mut words = line.split_whitespace();
    let millis = words.next().unwrap_or("").parse()?;
    if let Some(frame) = words.next() {
        device.push(&hex::decode(alloc, frame)?)?;
    }
    Ok(millis)
}

/// Prints the frames that were sent.
fn write_sent(rt: &impl Print, alloc: Global, frames: &[Vec<u8>]) -> Result<()> {
    for frame in frames {
        println!(rt; "{}", hex::encode(alloc, frame)?)?;
    }
    Ok(())
}

/// The moment after so many milliseconds.
fn moment_of(millis: u32) -> Instant
    ensures { IsMoment result }
{
    Instant::from_micros(i64::from(millis) * 1_000)
}

/// Hands the client what came to its socket.
fn hear(client: &mut DhcpClient, sockets: &mut SocketSet<'_>, handle: SocketHandle) {
    if let Some(socket) = sockets.get_mut::<udp::Socket<'_>>(handle) {
        for _ in 0..socket.rx().len() {
            receive(client, socket);
        }
    }
}

/// Queues a message: to all servers by the raw socket, to one by the other. One for which there is no room is lost.
fn send(
    message: &DhcpMessage,
    sockets: &mut SocketSet<'_>,
    udp: SocketHandle,
    raw: SocketHandle,
    room: &mut DhcpRoom,
) {
    let wishes = DhcpWishes::new();
    if message.dst.is_broadcast() {
        if let Some(socket) = sockets.get_mut::<raw::Socket<'_>>(raw) {
            let _ = send_by_raw(message, &wishes, socket, room);
        }
    } else if let Some(socket) = sockets.get_mut::<udp::Socket<'_>>(udp) {
        let _ = send_by_udp(message, &wishes, socket, room);
    }
}

/// Gives the interface the network of a lease, or takes it away, and tells of it. A lease that was renewed mostly changes
/// nothing, and then no neighbour is forgotten.
fn apply(rt: &impl Print, event: &DhcpEvent, link: &mut Link) -> Result<()> {
    let network = network_after(event);
    if network != link.own {
        link.own = network;
        set_network(&mut link.interface, network)?;
    }
    tell(rt, event)
}

/// The network that the interface has after an event.
fn network_after(event: &DhcpEvent) -> Option<Ipv4Cidr> {
    match event {
        DhcpEvent::Configured(lease) => Some(network_of(lease)),
        DhcpEvent::Deconfigured => None,
    }
}

/// Tells of an event.
fn tell(rt: &impl Print, event: &DhcpEvent) -> Result<()> {
    match event {
        DhcpEvent::Configured(lease) => println!(rt;
            "{} from {}",
            network_of(lease),
            lease.server
        )?,
        DhcpEvent::Deconfigured => println!(rt; "no address")?,
    }
    Ok(())
}

/// The address of a lease with its network, of which the mask tells the prefix; without a mask it is the address alone.
fn network_of(lease: &DhcpLease) -> Ipv4Cidr {
    let mask = lease.subnet_mask.unwrap_or(Ipv4Address::BROADCAST);
    let prefix_len = (0xffff_ffff - mask.bits).leading_zeros().min(32) as u8;
    Ipv4Cidr::new(lease.address, prefix_len)
}

/// Lets an interface have one address, or none.
fn set_network(interface: &mut Interface, own: Option<Ipv4Cidr>) -> Result<()> {
    interface.update_ip_addrs(move |_| {
        let mut addrs = ArrayVec::new();
        if let Some(own) = own {
            addrs.push(IpCidr::from(own));
        }
        addrs
    })?;
    Ok(())
}
