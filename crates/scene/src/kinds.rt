//! The sockets of a script. They are named by the order in which they came, from 0.
//!
//! The calls:
//!
//! - `udp PORT`: a UDP socket
//! - `icmp IDENT`: an ICMP socket for echo messages
//! - `raw PROTOCOL`, `raw6 PROTOCOL`: a raw socket for IPv4, for IPv6
//! - `tcp PORT`: a TCP socket
//! - `segment PORT ADDR PORT SEQ WINDOW OCTETS`: a TCP socket with a segment to send
//! - `send SOCKET ADDR PORT OCTETS`, `ADDR OCTETS`, `OCTETS`: a UDP, ICMP, raw socket gets this to send
//! - `hold SOCKET T`: a TCP socket sends nothing before then
//! - `abort SOCKET`: a TCP socket gives up
//! - `done SOCKET`: a UDP socket drops what came to it first
//! - `heard? SOCKET` `= ADDR PORT OCTETS`, `ADDR OCTETS`, `OCTETS`, `none`: this came to it first
//! - `due? SOCKET` `= Now`, `Ingress`, T: when it has to be polled again
ghost use Rattle.std.specs.Prelude.{◌≡◌, ◌≢◌, IfSome, false};
ghost use Rattle.ip_address.specs.Ip.{is_unspecified};

use crate::frames::frame;
use crate::scene_host::SceneHost;
use crate::script::tells;
use crate::words::{Words, any_address, count, end, is_ok, moment, number, octet, short};
use ip_wire::{IpProtocol, IpVersion, TcpControl, TcpSeqNumber};
use socket_set::by_index;
use sockets::queue::{NoMemory, Queue};
use sockets::tcp::Segment;
use sockets::{IpListenEndpoint, PollAt, SocketOf, icmp, raw, tcp, udp};
use std::alloc::Global;

// An empty queue of two packets and 1500 octets.
fn queue<M: Drop>(alloc: Global) -> Option<Queue<M>> {
    match Queue::new(alloc, 2, 1500) {
        Ok(queue) => Some(queue),
        Err(NoMemory) => Queue::new(alloc, 2, 1500).ok(),
    }
}

// Queues for what comes and for what goes.
fn queues<M: Drop>(alloc: Global) -> Option<(Queue<M>, Queue<M>)> {
    let rx = queue(alloc)?;
    let tx = queue(alloc)?;
    Some((rx, tx))
}

// A port of any address.
fn listening(port: u16) -> IpListenEndpoint
    ensures { result.port ≡ port }
{
    IpListenEndpoint { addr: None, port }
}

// A segment, by its other end, its sequence number and its window.
fn segment(call: &mut Words<'_>) -> Option<Segment>
    ensures addr { IfSome result (λ segment. is_unspecified segment.remote.addr ≡ false) }
    ensures port { IfSome result (λ segment. segment.remote.port ≢ 0) }
{
    let remote = end(call.next()?, call.next()?)?;
    let seq = TcpSeqNumber {
        bits: number(call.next()?)?,
    };
    let window = short(call.next()?)?;
    Some(Segment {
        remote,
        control: TcpControl::None,
        seq,
        ack: None,
        window,
    })
}

impl SceneHost {
    /// A call at the sockets, by its word, or a question to the interface.
    pub fn at_sockets(
        &mut self,
        word: &str,
        call: &mut Words<'_>,
        outcome: &mut Words<'_>,
    ) -> Option<bool> {
        match word {
            "heard?" => self.hears(call, outcome),
            "due?" => self.is_due(call, outcome),
            "udp" | "icmp" | "raw" | "raw6" | "tcp" | "segment" => {
                self.adds(word, call)?;
                is_ok(outcome)
            }
            "send" | "hold" | "abort" | "done" => {
                self.uses(word, call)?;
                is_ok(outcome)
            }
            _ => tells(&mut self.interface, word, call, outcome),
        }
    }

    // A socket is added, by the word of its kind.
    fn adds(&mut self, word: &str, call: &mut Words<'_>) -> Option<()> {
        match word {
            "udp" => self.add(udp_socket(self.alloc, call)?),
            "icmp" => self.add(icmp_socket(self.alloc, call)?),
            "raw" => self.add(raw_socket(self.alloc, IpVersion::Ipv4, call)?),
            "raw6" => self.add(raw_socket(self.alloc, IpVersion::Ipv6, call)?),
            "tcp" => self.add(tcp_socket(self.alloc, call)?),
            _ => self.add_segment(call),
        }
    }

    // A TCP socket with a segment to send.
    fn add_segment(&mut self, call: &mut Words<'_>) -> Option<()> {
        let mut socket = tcp_socket(self.alloc, call)?;
        let is_sent = send_segment(&mut socket, call);
        self.add(socket)?;
        is_sent
    }

    // Something is done with a socket, by a word for it.
    fn uses(&mut self, word: &str, call: &mut Words<'_>) -> Option<()> {
        let index = count(call.next()?)?;
        match word {
            "send" => self.send(index, call),
            "hold" => self.hold(index, call),
            "abort" => self.abort(index),
            _ => self.drop_first(index),
        }
    }

    // A socket gets something to send.
    fn send(&mut self, index: usize, call: &mut Words<'_>) -> Option<()> {
        match by_index::socket_mut(&mut self.sockets, index)? {
            SocketOf::Udp(socket) => send_udp(socket, call),
            SocketOf::Icmp(socket) => send_icmp(socket, call),
            SocketOf::Raw(socket) => send_raw(socket, call),
            SocketOf::Tcp(_) => None,
        }
    }

    // A TCP socket sends nothing before a moment.
    fn hold(&mut self, index: usize, call: &mut Words<'_>) -> Option<()> {
        let timestamp = moment(call.next()?)?;
        match by_index::socket_mut(&mut self.sockets, index)? {
            SocketOf::Tcp(socket) => {
                socket.hold_until(timestamp);
                Some(())
            }
            _ => None,
        }
    }

    // A TCP socket gives up.
    fn abort(&mut self, index: usize) -> Option<()> {
        match by_index::socket_mut(&mut self.sockets, index)? {
            SocketOf::Tcp(socket) => {
                socket.abort();
                Some(())
            }
            _ => None,
        }
    }

    // A UDP socket drops what came to it first.
    fn drop_first(&mut self, index: usize) -> Option<()> {
        match by_index::socket_mut(&mut self.sockets, index)? {
            SocketOf::Udp(socket) => {
                socket.done();
                Some(())
            }
            _ => None,
        }
    }

    // Whether a socket has to be polled again when the outcome says.
    fn is_due(&mut self, call: &mut Words<'_>, outcome: &mut Words<'_>) -> Option<bool> {
        let index = count(call.next()?)?;
        let poll_at = poll_at_in(outcome)?;
        let socket = by_index::socket_mut(&mut self.sockets, index)?;
        Some(socket.poll_at() == poll_at)
    }

    // Whether that came to a socket first which the outcome tells.
    fn hears(&mut self, call: &mut Words<'_>, outcome: &mut Words<'_>) -> Option<bool> {
        let index = count(call.next()?)?;
        match by_index::socket_mut(&mut self.sockets, index)? {
            SocketOf::Udp(socket) => udp_hears(socket, outcome),
            SocketOf::Icmp(socket) => icmp_hears(socket, outcome),
            SocketOf::Raw(socket) => raw_hears(socket, outcome),
            SocketOf::Tcp(socket) => tcp_hears(socket, outcome),
        }
    }
}

// A UDP socket, by its port.
fn udp_socket(alloc: Global, call: &mut Words<'_>) -> Option<udp::Socket<'static>> {
    let port = short(call.next()?)?;
    let (rx, tx) = queues(alloc)?;
    Some(udp::Socket::new(listening(port), rx, tx))
}

// An ICMP socket, by its identifier.
fn icmp_socket(alloc: Global, call: &mut Words<'_>) -> Option<icmp::Socket<'static>> {
    let ident = short(call.next()?)?;
    let (rx, tx) = queues(alloc)?;
    Some(icmp::Socket::new(icmp::Endpoint::Ident(ident), rx, tx))
}

// A raw socket, by its protocol.
fn raw_socket(
    alloc: Global,
    version: IpVersion,
    call: &mut Words<'_>,
) -> Option<raw::Socket<'static>> {
    let protocol = IpProtocol::from_number(octet(call.next()?)?);
    let (rx, tx) = queues(alloc)?;
    Some(raw::Socket::new(version, protocol, rx, tx))
}

// A TCP socket, by its port.
fn tcp_socket(alloc: Global, call: &mut Words<'_>) -> Option<tcp::Socket<'static>> {
    let port = short(call.next()?)?;
    let (rx, tx) = queues(alloc)?;
    Some(tcp::Socket::new(listening(port), None, rx, tx))
}

// A TCP socket gets a segment to send.
fn send_segment(socket: &mut tcp::Socket<'static>, call: &mut Words<'_>) -> Option<()> {
    let segment = segment(call)?;
    let payload = frame(call.next()?)?;
    if socket.local().port == 0 {
        return None;
    }
    socket.send(segment, payload.as_slice()).ok()
}

// When a socket has to be polled again.
fn poll_at_in(outcome: &mut Words<'_>) -> Option<PollAt> {
    match outcome.next()? {
        "Now" => Some(PollAt::Now),
        "Ingress" => Some(PollAt::Ingress),
        word => Some(PollAt::Time(moment(word)?)),
    }
}

fn send_raw(socket: &mut raw::Socket<'_>, call: &mut Words<'_>) -> Option<()> {
    let packet = frame(call.next()?)?;
    socket.send((), packet.as_slice()).ok()
}

fn send_udp(socket: &mut udp::Socket<'_>, call: &mut Words<'_>) -> Option<()> {
    let remote = end(call.next()?, call.next()?)?;
    let payload = frame(call.next()?)?;
    if socket.endpoint().port == 0 {
        return None;
    }
    socket.send(remote, payload.as_slice()).ok()
}

fn send_icmp(socket: &mut icmp::Socket<'_>, call: &mut Words<'_>) -> Option<()> {
    let remote = any_address(call.next()?)?;
    let message = frame(call.next()?)?;
    if remote.is_unspecified() {
        return None;
    }
    socket.send(remote, message.as_slice()).ok()
}

fn udp_hears(socket: &udp::Socket<'_>, outcome: &mut Words<'_>) -> Option<bool> {
    match socket.recv() {
        Some((remote, payload)) => {
            let told = end(outcome.next()?, outcome.next()?)?;
            Some(*remote == told && is_text(payload, outcome))
        }
        None => is_nothing(outcome),
    }
}

fn icmp_hears(socket: &icmp::Socket<'_>, outcome: &mut Words<'_>) -> Option<bool> {
    match socket.recv() {
        Some((remote, message)) => {
            let told = any_address(outcome.next()?)?;
            Some(*remote == told && is_text(message, outcome))
        }
        None => is_nothing(outcome),
    }
}

fn raw_hears(socket: &raw::Socket<'_>, outcome: &mut Words<'_>) -> Option<bool> {
    match socket.recv() {
        Some((_, packet)) => Some(is_text(packet, outcome)),
        None => is_nothing(outcome),
    }
}

fn tcp_hears(socket: &tcp::Socket<'_>, outcome: &mut Words<'_>) -> Option<bool> {
    match socket.recv() {
        Some((segment, payload)) => {
            let told = end(outcome.next()?, outcome.next()?)?;
            Some(segment.remote == told && is_text(payload, outcome))
        }
        None => is_nothing(outcome),
    }
}

// Whether the outcome is `none`.
fn is_nothing(outcome: &mut Words<'_>) -> Option<bool> {
    Some(outcome.next()? == "none")
}

// Whether the outcome goes on with these octets.
fn is_text(payload: &[u8], outcome: &mut Words<'_>) -> bool {
    match outcome.next() {
        Some(word) => match frame(word) {
            Some(octets) => octets.as_slice() == payload,
            None => false,
        },
        None => false,
    }
}
