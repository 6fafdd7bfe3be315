//! Two hosts in one network, each with a UDP socket.
ghost use Rattle.std.specs.Prelude.{◌≡◌, ◌≢◌, All, length, false};
ghost use Rattle.ip_address.specs.Ip.{is_unspecified};
ghost use Rattle.host.specs.Link.{IsTimelyStep};

use arrayvec::ArrayVec;
use host::drive::Owner;
use host::link::{Host, LinkError, LinkStep, link};
use interface::{Config, Interface};
use ip_wire::{EthernetAddress, HardwareAddress, IpAddress, IpCidr, Ipv4Address, Ipv4Cidr};
use net_base::MemoryDevice;
use net_base::phy::{ChecksumCapabilities, Device, DeviceCapabilities, Medium};
use net_base::time::Instant;
use socket_set::{SocketHandle, SocketSet};
use sockets::{IpEndpoint, IpListenEndpoint, Queue, udp};
use std::alloc::Global;

/// The user of a host's socket, who acts at no turn.
#[derive(Drop)]
pub struct User {
    socket: SocketHandle,
}

impl Owner for User {
    ghost use Rattle.std.specs.Prelude.{◌≡◌};

    ghost did = { λ user number before after user'. after ≡ before };

    fn act(&mut self, _number: usize, _sockets: &mut SocketSet<'_>) {}
}

/// One end.
pub type End = Host<'static, User>;

/// The end 192.168.69.N, at 02:00:00:00:00:N, with a UDP socket at a port, whose device sends frames of
/// at most so many octets.
fn end(alloc: Global, n: u8, port: u16, max_transmission_unit: usize) -> Option<End> {
    let capabilities = DeviceCapabilities {
        medium: Medium::Ethernet,
        max_transmission_unit,
        max_burst_size: None,
        checksum: ChecksumCapabilities::ALL,
    };
    let mut device = MemoryDevice::new(alloc, capabilities);
    let hardware_addr = HardwareAddress::Ethernet(EthernetAddress([2, 0, 0, 0, 0, n]));
    let config = Config::new(hardware_addr);
    let mut interface = Interface::new(config, &mut device, Instant::ZERO).ok()?;
    let cidr = IpCidr::Ipv4(Ipv4Cidr::new(Ipv4Address::new(192, 168, 69, n), 24));
    interface
        .update_ip_addrs(move |_| {
            let mut list = ArrayVec::new();
            list.push(cidr);
            list
        })
        .ok()?;
    let mut sockets = SocketSet::new(Vec::new(alloc));
    let endpoint = IpListenEndpoint { addr: None, port };
    let rx = Queue::new(alloc, 4, 4096).ok()?;
    let tx = Queue::new(alloc, 4, 4096).ok()?;
    let socket = sockets.add(udp::SocketOf::new(endpoint, rx, tx)).ok()?;
    Some(Host {
        interface,
        device,
        sockets,
        owner: User { socket },
    })
}

/// An end. Memory that is refused once is asked for again.
pub fn made(alloc: Global, n: u8, port: u16, max_transmission_unit: usize) -> Option<End> {
    match end(alloc, n, port, max_transmission_unit) {
        Some(end) => Some(end),
        None => end(alloc, n, port, max_transmission_unit),
    }
}

/// Queues 1,000 octets in an end's socket, for a port of 192.168.69.N. Each is the first one plus its place.
pub fn send(end: &mut End, n: u8, port: u16, first: u8) -> Option<()>
    requires { port ≢ 0 }
{
    let remote = IpEndpoint {
        addr: IpAddress::Ipv4(Ipv4Address {
            bits: 0xc0a8_4500 | u32::from(n),
        }),
        port,
    };
    let mut payload = [first; 1000];
    for i in 0..payload.len() {
        payload[i] = octet(first, i);
    }
    let socket = end
        .sockets
        .get_mut::<udp::Socket<'static>>(end.owner.socket)?;
    if socket.endpoint().port == 0 || remote.addr.is_unspecified() {
        return None;
    }
    socket.send(remote, &payload).ok()
}

/// The octet at a place of a payload.
fn octet(first: u8, place: usize) -> u8 {
    first.wrapping_add((place % 251) as u8)
}

/// How many payloads have come to an end's socket, if each is as it was sent.
pub fn received(end: &mut End, first: u8) -> Option<usize> {
    let socket = end
        .sockets
        .get_mut::<udp::Socket<'static>>(end.owner.socket)?;
    let mut count = 0_usize;
    for _ in 0..8 {
        match socket.recv() {
            None => return Some(count),
            Some((_, payload)) => {
                if payload.len() != 1000 {
                    return None;
                }
                for i in 0..payload.len() {
                    if payload[i] != octet(first, i) {
                        return None;
                    }
                }
            }
        }
        socket.done();
        count = count.saturating_add(1);
    }
    None
}

/// What a link between two ends answers, if no frame waits in a device.
pub fn linked(a: &mut End, b: &mut End, steps: &[LinkStep]) -> Option<Result<(), LinkError>>
    requires { All IsTimelyStep steps.now }
{
    if a.device.queued() != 0 || b.device.queued() != 0 {
        return None;
    }
    Some(link(a, b, steps))
}

/// Whether all was as with memory: each step was done, and no device refused leave. A step that wasn't
/// done has to be one that copies a frame.
pub fn is_whole(
    a: &End,
    b: &End,
    steps: &[LinkStep],
    answer: Result<(), LinkError>,
) -> Option<bool> {
    match answer {
        Ok(()) => Some(a.device.refusals() == 0 && b.device.refusals() == 0),
        Err(LinkError::NoMemory { step }) => match steps.get(step) {
            Some(LinkStep::ToA(..)) | Some(LinkStep::ToB(..)) => Some(false),
            _ => None,
        },
    }
}
