//! The host: an interface at fixed addresses, the raw sockets of TCP, and the connections.
ghost use Rattle.std.specs.Prelude.{◌≡◌, ◌≤◌};
ghost use Rattle.net_base.specs.Time.{IsMoment};

use crate::limits::Limits;
use crate::line::Line;
use anyhow::Result;
use arrayvec::ArrayVec;
use egress_schedule::{NoneIsKnown, Schedule};
use interface::{Config as InterfaceConfig, Interface, SocketSet};
use ip_wire::{
    EthernetAddress, IpAddress, IpCidr, IpVersion, Ipv4Address, Ipv4Cidr, Ipv6Address, Ipv6Cidr,
};
use net_base::MemoryDevice;
use net_base::phy::{ChecksumCapabilities, DeviceCapabilities, Medium};
use net_base::time::{Duration, Instant};
use std::alloc::Global;
use std::io::Write;
use tcp_host::config::{ACCEPTED_KEEP_ALIVE, Config, RELEASE_TIMEOUT};
use tcp_host::host::TcpHost;
use tcp_host::sip_hash::SipKey;
use tcp_machine::settings::Settings;
use tcp_sockets::{SocketPair, TcpSockets, far_socket, near_socket};

/// Its link: Ethernet, with frames of at most 1514 octets.
const CAPABILITIES: DeviceCapabilities = DeviceCapabilities {
    medium: Medium::Ethernet,
    max_transmission_unit: 1514,
    max_burst_size: None,
    checksum: ChecksumCapabilities::ALL,
};

const HARDWARE: EthernetAddress = EthernetAddress([2, 0, 0, 0, 0, 7]);

/// Its address 192.168.69.7.
const OWN_V4: Ipv4Address = Ipv4Address { bits: 0xc0a8_4507 };

/// Its address fd69::7.
const OWN_V6: Ipv6Address = Ipv6Address {
    bits: 0xfd69_0000_0000_0000_0000_0000_0000_0007,
};

/// Room for packets on their way between an interface and the connections: how many, and their octets.
const PACKETS: usize = 64;

const PACKET_ROOM: usize = 64 * 1500;

/// Room for the packets of peers that haven't answered yet, in octets.
const FAR_ROOM: usize = 4096;

/// How many neighbours it knows at once.
const NEIGHBORS: usize = 256;

/// How long a packet waits for a neighbour that doesn't answer. What is lost then TCP sends again.
const PATIENCE: Duration = Duration { micros: 1_000_000 };

/// A poll takes at most one frame, and makes one round of sending, for which the schedule prepares the sockets.
const BUDGET: usize = 1;

/// How many rounds follow a line at most.
const ROUNDS: usize = 1_000;

/// What connections are made with, of which the host sets the last two by their room and family.
const SETTINGS: Settings = Settings {
    nagle: true,
    ack_delay: 10_000,
    keep_alive: Some(7_200_000_000),
    timeout: None,
    shortest_timeout: 200_000,
    congestion_control: true,
    time_wait: 60_000_000,
    own_scale: 0,
    own_mss: 0,
};

/// A host at 192.168.69.7 and fd69::7.
#[derive(Drop)]
pub struct LineHost {
    /// Its connections.
    pub streams: TcpHost,
    link: Link,
    service: Service,
}

impl LineHost {
    /// A host without connections, as the limits say. It fails if the memory is refused.
    pub fn new(alloc: Global, limits: &Limits) -> Result<LineHost> {
        let link = Link::new(alloc)?;
        let service = Service::new(alloc)?;
        Ok(LineHost {
            streams: TcpHost::new(alloc, limits.places, &config_for(limits.room))?,
            link,
            service,
        })
    }

    /// Takes the frame of a line, if it has one, and gives the connections what came.
    pub fn receive(&mut self, line: &Line) {
        if let Some(frame) = &line.frame {
            // A frame that is too long, or for which there is no memory, is lost.
            let _ = self.link.device.push(frame);
        }
        self.exchange_frames(moment_of(line.micros));
        self.exchange_segments(line.micros);
    }

    /// Sends what is due at the connections and at the interface.
    pub fn send(&mut self, micros: u64) {
        for _ in 0..ROUNDS {
            self.exchange_segments(micros);
            self.exchange_frames(moment_of(micros));
            match self.due_at(micros) {
                Some(due) if due <= micros => {}
                _ => return,
            }
        }
    }

    /// Writes the frames that were sent, and the moment of which it wants to be told next.
    pub fn write<W: Write + Drop>(
        &mut self,
        alloc: Global,
        micros: u64,
        output: &mut W,
    ) -> Result<()> {
        write_frames(alloc, &self.link.device.take_sent(), output)?;
        write_due(self.due_at(micros), output)
    }

    /// When something is due first, in microseconds. `None`, if nothing is due by itself.
    fn due_at(&mut self, micros: u64) -> Option<u64> {
        let of_interface = self.link.due_at(micros, &self.service.sockets);
        match (of_interface, self.streams.poll_at()) {
            (Some(one), Some(other)) => Some(one.min(other)),
            (one, None) => one,
            (None, other) => other,
        }
    }

    /// What the sockets got goes to the connections, and what these send goes to the sockets.
    fn exchange_segments(&mut self, micros: u64) {
        self.service
            .exchange(micros, &self.link.interface, &mut self.streams);
    }

    /// A poll of the interface. Before it the schedule chooses which sockets are asked, and after it gives up what waited too
    /// long.
    fn exchange_frames(&mut self, now: Instant)
        requires { IsMoment now }
    {
        let is_piece_left = self.link.interface.has_pending_fragment();
        self.service.begin_round(now, is_piece_left);
        self.link.poll(now, &mut self.service.sockets);
        self.service.end_round(now);
    }
}

/// The interface of a host, and its device.
#[derive(Drop)]
struct Link {
    interface: Interface,
    device: MemoryDevice,
}

impl Link {
    /// An interface at 192.168.69.7/24 and fd69::7/64. It fails if the memory is refused.
    fn new(alloc: Global) -> Result<Link> {
        let mut device = MemoryDevice::new(alloc, CAPABILITIES);
        Ok(Link {
            interface: interface_over(alloc, &mut device)?,
            device,
        })
    }

    /// When something is due first at the interface, in microseconds. `None`, if nothing is due by itself.
    fn due_at(&mut self, micros: u64, sockets: &SocketSet<'static>) -> Option<u64> {
        match self.interface.poll_at(moment_of(micros), sockets) {
            Some(due) => Some(due.total_micros().max(0) as u64),
            None => None,
        }
    }

    /// A poll of the interface.
    fn poll(&mut self, now: Instant, sockets: &mut SocketSet<'static>)
        requires { IsMoment now }
    {
        self.interface.poll(now, &mut self.device, sockets, BUDGET);
    }
}

/// The raw sockets of TCP, their schedule, and what goes between them and the connections.
#[derive(Drop)]
struct Service {
    sockets: SocketSet<'static>,
    schedule: Schedule,
    tcp: TcpSockets,
}

impl Service {
    /// The two sockets of each family. It fails if the memory is refused.
    fn new(alloc: Global) -> Result<Service> {
        let schedule = Schedule::new(alloc, 4, PATIENCE)?;
        let mut sockets = SocketSet::new(Vec::new(alloc));
        let tcp = tcp_over(alloc, &mut sockets)?;
        Ok(Service {
            sockets,
            schedule,
            tcp,
        })
    }

    /// What the sockets got goes to the connections, and what these send goes to the sockets.
    fn exchange(&mut self, micros: u64, interface: &Interface, streams: &mut TcpHost) {
        self.tcp.poll_with_neighbors(
            micros,
            interface.ip_addrs(),
            |address: IpAddress| -> bool { interface.has_neighbor(&address) },
            streams,
            &mut self.sockets,
        );
    }

    /// The schedule chooses which sockets are asked.
    fn begin_round(&mut self, now: Instant, is_piece_left: bool)
        requires { IsMoment now }
    {
        let mtu = CAPABILITIES.ip_mtu();
        self.schedule
            .before_round(now, mtu, is_piece_left, &NoneIsKnown, &mut self.sockets);
    }

    /// The schedule gives up what waited too long.
    fn end_round(&mut self, now: Instant)
        requires { IsMoment now }
    {
        self.schedule.after_round(now, &mut self.sockets);
    }
}

/// Writes frames, each a line.
fn write_frames<W: Write + Drop>(alloc: Global, frames: &[Vec<u8>], output: &mut W) -> Result<()> {
    for frame in frames {
        writeln!(output, "{}", hex::encode(alloc, frame)?)?;
    }
    Ok(())
}

/// Writes the moment of which a host wants to be told next.
fn write_due<W: Write + Drop>(due: Option<u64>, output: &mut W) -> Result<()> {
    match due {
        Some(due) => writeln!(output, "at {due}")?,
        None => writeln!(output, "at never")?,
    }
    output.flush()?;
    Ok(())
}

/// What connections with so much room each way are made with. A program with a source of random numbers would ask it for the
/// two secrets.
fn config_for(room: usize) -> Config
    ensures send { result.send_room ≡ room }
    ensures receive { result.receive_room ≡ room }
    ensures scale { result.settings.own_scale ≤ 14 }
{
    Config {
        send_room: room,
        receive_room: room,
        mss_v4: 1460,
        mss_v6: 1440,
        settings: Settings {
            own_scale: scale_for(room),
            ..SETTINGS
        },
        accepted_keep_alive: Some(ACCEPTED_KEEP_ALIVE),
        release_timeout: RELEASE_TIMEOUT,
        number_key: [7; 32],
        table_key: SipKey { k0: 7, k1: 69 },
    }
}

/// The least window scale by which so much room can be told in 16 bits (RFC 7323 2.3).
fn scale_for(room: usize) -> u8
    ensures { result ≤ 14 }
{
    let bits = usize::BITS - (room >> 16).leading_zeros();
    bits.min(14) as u8
}

/// The moment after so many microseconds.
fn moment_of(micros: u64) -> Instant
    ensures { IsMoment result }
{
    Instant::from_micros_clamped(u128::from(micros))
}

/// The raw sockets of both families, which are added to a set.
fn tcp_over(alloc: Global, sockets: &mut SocketSet<'static>) -> Result<TcpSockets> {
    let v4 = pair(alloc, sockets, IpVersion::Ipv4)?;
    let v6 = pair(alloc, sockets, IpVersion::Ipv6)?;
    Ok(TcpSockets::new(Some(v4), Some(v6), CAPABILITIES.checksum.tcp))
}

/// The two raw sockets of a family, which are added to a set.
fn pair(alloc: Global, sockets: &mut SocketSet<'static>, version: IpVersion) -> Result<SocketPair> {
    let near = near_socket(alloc, version, PACKETS, PACKET_ROOM)?;
    let near = sockets.add(near)?;
    let far = far_socket(alloc, version, FAR_ROOM)?;
    Ok(SocketPair {
        near,
        far: sockets.add(far)?,
    })
}

/// An interface over a device, at 192.168.69.7/24 and fd69::7/64.
fn interface_over(alloc: Global, device: &mut MemoryDevice) -> Result<Interface> {
    let config = InterfaceConfig::new(HARDWARE.into());
    let mut interface = Interface::new(config, device, Instant::ZERO)?;
    furnish(alloc, &mut interface)?;
    Ok(interface)
}

/// Gives an interface its addresses, and room for neighbours.
fn furnish(alloc: Global, interface: &mut Interface) -> Result<()> {
    interface.update_ip_addrs(move |_| {
        let mut addrs = ArrayVec::new();
        addrs.push(IpCidr::from(Ipv4Cidr::new(OWN_V4, 24)));
        addrs.push(IpCidr::from(Ipv6Cidr::new(OWN_V6, 64)));
        addrs
    })?;
    let neighbors = Vec::with_capacity(alloc, NEIGHBORS)?;
    interface.set_neighbor_storage(neighbors, Vec::with_capacity(alloc, NEIGHBORS)?);
    Ok(())
}
