//! The connections of a host of a simulation, with the programs that use them.
ghost use Rattle.std.specs.Prelude.{◌≡◌, ◌≤◌};
ghost use Rattle.simulation_streams.specs.Streams as streams;

use crate::receiver::Receiver;
use crate::sender::{Sender, ends_of};
use anyhow::Result;
use ip_wire::{IpAddress, IpCidr, IpVersion};
use net_base::phy::Checksum;
use simulation_script::script::{HostLine, Script};
use socket_set::SocketSet;
use std::alloc::Global;
use tcp_host::config::{Config, RELEASE_TIMEOUT};
use tcp_host::host::TcpHost;
use tcp_host::sip_hash::SipKey;
use tcp_machine::settings::Settings;
use tcp_sockets::{SocketPair, TcpSockets, far_socket, near_socket};

/// How many octets a connection may hold that aren't acknowledged, or aren't read.
const ROOM: usize = 262_144;

/// The window scale by which this is told in 16 bits (RFC 7323 2.3).
const SCALE: u8 = 3;

/// Room for packets on their way between an interface and the connections: how many, and their octets.
const PACKETS: usize = 64;

const PACKET_ROOM: usize = 64 * 1500;

/// Room for the packets of peers that haven't answered yet, in octets.
const FAR_ROOM: usize = 4_096;

/// The octets that a program writes or reads at once.
const PIECE: usize = 16_384;

/// The most places for connections.
const MOST_PLACES: usize = 65_536;

/// What connections begin with.
const SETTINGS: Settings = Settings {
    nagle: true,
    ack_delay: 10_000,
    keep_alive: None,
    timeout: None,
    shortest_timeout: 200_000,
    congestion_control: true,
    time_wait: 60_000_000,
    own_scale: SCALE,
    own_mss: 0,
};

/// The connections of a host, its raw sockets of TCP, and the programs that use them.
#[derive(Drop)]
pub struct Connections {
    host: TcpHost,
    tcp: TcpSockets,
    own: Vec<IpCidr>,
    listeners: Vec<usize>,
    senders: Vec<Sender>,
    receivers: Vec<Receiver>,
    piece: Vec<u8>,
}

impl Connections {
    /// The connections of the host of this number, whose sockets are added to a set. Fails if the memory is refused.
    pub fn new(
        alloc: Global,
        script: &Script,
        number: usize,
        line: &HostLine,
        sockets: &mut SocketSet<'static>,
    ) -> Result<Connections> {
        let tcp = tcp_over(alloc, sockets)?;
        let own = Vec::from_slice(alloc, line.addresses.as_slice())?;
        let senders = senders_of(alloc, script, number)?;
        let piece = Vec::from_elem(alloc, 0, PIECE)?;
        let (host, listeners) = host_of(alloc, script, number)?;
        Ok(Connections {
            host,
            tcp,
            own,
            listeners,
            senders,
            receivers: Vec::new(alloc),
            piece,
        })
    }

    /// When something is due first, in microseconds; `None` if nothing is due by itself.
    pub fn poll_at(&self) -> Option<u64> {
        let mut first = self.host.poll_at();
        for sender in self.senders.iter() {
            first = earlier(first, sender.begins_at());
        }
        first
    }

    /// Takes what the sockets received, lets the programs act, and sends what is due. Fails if the memory is refused.
    pub fn exchange(&mut self, now: u64, sockets: &mut SocketSet<'_>) -> Result<()> {
        self.tcp.poll(now, &self.own, &mut self.host, sockets);
        self.accept()?;
        for sender in self.senders.iter_mut() {
            sender.act(now, &mut self.host, &mut self.piece);
        }
        for receiver in self.receivers.iter_mut() {
            receiver.act(now, &mut self.host, &mut self.piece);
        }
        self.tcp.poll(now, &self.own, &mut self.host, sockets);
        Ok(())
    }

    /// Accepts the connections that wait.
    fn accept(&mut self) -> Result<()> {
        for i in 0..self.listeners.len() {
            let listener = self.listeners[i];
            accept_at(listener, &mut self.host, &mut self.receivers)?;
        }
        Ok(())
    }

    /// The sender of the stream of this number, if it is one of this host.
    pub fn sender(&self, number: usize) -> Option<&Sender> {
        self.senders.iter().find(|sender| sender.number == number)
    }

    /// The receivers of this host, in the order in which their connections were accepted.
    pub fn receivers(&self) -> &[Receiver] {
        &self.receivers
    }
}

/// The earlier of two instants, where there are some.
pub fn earlier(one: Option<u64>, other: Option<u64>) -> Option<u64>
    ensures { result ≡ streams.earlier one other }
{
    match (one, other) {
        (Some(one), Some(other)) => Some(one.min(other)),
        (one, None) => one,
        (None, other) => other,
    }
}

/// Accepts the connections that wait at a listener.
fn accept_at(listener: usize, host: &mut TcpHost, receivers: &mut Vec<Receiver>) -> Result<()> {
    for _ in 0..u16::MAX {
        let Some(handle) = host.accept(listener) else {
            break;
        };
        if let Some(endpoints) = host.endpoints(handle) {
            receivers.push(Receiver::new(handle, endpoints))?;
        }
    }
    Ok(())
}

/// The connections of the host of this number, and its listeners.
fn host_of(alloc: Global, script: &Script, number: usize) -> Result<(TcpHost, Vec<usize>)> {
    let places = places_for(script, number);
    let mut host = TcpHost::new(alloc, places, &config_of(number))?;
    let listeners = listeners_of(alloc, script, number, &mut host)?;
    Ok((host, listeners))
}

/// Has a host listen at the ports of a script, and returns its listeners.
fn listeners_of(
    alloc: Global,
    script: &Script,
    number: usize,
    host: &mut TcpHost,
) -> Result<Vec<usize>> {
    let places = places_for(script, number);
    let mut listeners = Vec::new(alloc);
    for listener in script.listeners.iter() {
        if listener.host == number {
            listeners.push(host.listen(alloc, listener.port, None, places)?)?;
        }
    }
    Ok(listeners)
}

/// The senders of the streams of a host.
fn senders_of(alloc: Global, script: &Script, number: usize) -> Result<Vec<Sender>> {
    let mut senders = Vec::new(alloc);
    for (i, stream) in script.streams.iter().enumerate() {
        if stream.host == number {
            senders.push(Sender::new(stream, i))?;
        }
    }
    Ok(senders)
}

/// How many connections a host may have at once: one for each stream that it sends or may accept, and one more.
fn places_for(script: &Script, number: usize) -> usize
    ensures some { 1 ≤ result }
    ensures few { result ≤ 65536 }
{
    let places = script.count_streams(number).saturating_add(1);
    places.max(1).min(MOST_PLACES)
}

/// What the connections of a host are made with. Its secrets follow from its number, so that each run of a simulation is the same.
fn config_of(number: usize) -> Config
    ensures send { result.send_room ≡ 262144 }
    ensures receive { result.receive_room ≡ 262144 }
    ensures scale { result.settings.own_scale ≡ 3 }
{
    Config {
        send_room: ROOM,
        receive_room: ROOM,
        mss_v4: 1460,
        mss_v6: 1440,
        settings: SETTINGS,
        accepted_keep_alive: None,
        release_timeout: RELEASE_TIMEOUT,
        number_key: [(number % 256) as u8; 32],
        table_key: SipKey {
            k0: number as u64,
            k1: 0,
        },
    }
}

/// Adds the raw sockets of both families.
fn tcp_over(alloc: Global, sockets: &mut SocketSet<'static>) -> Result<TcpSockets> {
    let v4 = pair(alloc, sockets, IpVersion::Ipv4)?;
    let v6 = pair(alloc, sockets, IpVersion::Ipv6)?;
    Ok(TcpSockets::new(Some(v4), Some(v6), Checksum::Both))
}

/// Adds the two raw sockets of a family.
fn pair(alloc: Global, sockets: &mut SocketSet<'static>, version: IpVersion) -> Result<SocketPair> {
    let near = near_socket(alloc, version, PACKETS, PACKET_ROOM)?;
    let near = sockets.add(near)?;
    let far = far_socket(alloc, version, FAR_ROOM)?;
    Ok(SocketPair {
        near,
        far: sockets.add(far)?,
    })
}
