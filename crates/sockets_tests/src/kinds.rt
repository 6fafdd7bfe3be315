//! Sockets of each kind, and their queues.
// Each test also holds where any one request for memory is refused.
ghost use Rattle.std.specs.Prelude.{◌≡◌, IfOk};

use control_wire::{IcmpRepr, Icmpv4Repr};
use ip_wire::{
    IpAddress, IpProtocol, IpRepr, IpVersion, Ipv4Address, Ipv4Fragment, Ipv4Repr, TcpControl,
    TcpRepr, TcpSeqNumber,
};
use net_base::time::Instant;
use sockets::context::SocketContext;
use sockets::endpoint::{IpEndpoint, IpListenEndpoint};
use sockets::poll_at::PollAt;
use sockets::queue::{Full, NoMemory, Queue};
use sockets::{SendError, icmp, raw, tcp, udp};
use std::alloc::Global;
use std::fmt::Display;
use std::test::Fail;

const OWN: IpAddress = IpAddress::Ipv4(Ipv4Address { bits: 0xc0a8_4501 });

const OTHER: IpAddress = IpAddress::Ipv4(Ipv4Address { bits: 0xc0a8_4564 });

const NETWORK: IpAddress = IpAddress::Ipv4(Ipv4Address { bits: 0xc0a8_45ff });

const REMOTE: IpEndpoint = IpEndpoint {
    addr: OTHER,
    port: 5000,
};

// A host with at most one source address, in one network.
#[derive(Drop)]
struct TestHost {
    moment: Instant,
    source: Option<IpAddress>,
}

impl SocketContext for TestHost {
    ghost use Rattle.sockets.specs.Source.{is_same};
    ghost use Rattle.sockets_tests.specs.declared.kinds.TheConstants.{NETWORK};

    ghost moment = { λ h. h.moment };

    ghost source_for = { λ h peer. h.source };

    ghost is_broadcast_in = { λ h address. is_same address NETWORK };

    fn now(&self) -> Instant {
        self.moment
    }

    fn get_source_address(&self, _dst_addr: &IpAddress) -> Option<IpAddress> {
        self.source
    }

    fn is_broadcast(&self, address: &IpAddress) -> bool {
        *address == NETWORK
    }
}

const HOST: TestHost = TestHost {
    moment: Instant::ZERO,
    source: Some(OWN),
};

// An empty queue of four packets and 64 octets. If its room is refused, the next call gets it.
fn ample<M: Drop>(alloc: Global) -> Result<Queue<M>, NoMemory> {
    match Queue::new(alloc, 4, 64) {
        Ok(queue) => Ok(queue),
        Err(NoMemory) => Queue::new(alloc, 4, 64),
    }
}

// Two such queues.
fn queues<M: Drop>(alloc: Global) -> Result<(Queue<M>, Queue<M>), NoMemory> {
    let rx = ample(alloc)?;
    let tx = ample(alloc)?;
    Ok((rx, tx))
}

fn udp_at(alloc: Global) -> Result<udp::Socket<'static>, Fail>
    ensures { IfOk result (λ s. s.endpoint.port ≡ 6969) }
{
    let endpoint = IpListenEndpoint {
        addr: None,
        port: 6969,
    };
    let (rx, tx) = queues(alloc)?;
    Ok(udp::Socket::new(endpoint, rx, tx))
}

/// An empty queue of one packet and eight octets. If its room is refused, the next call gets it.
fn short(alloc: Global) -> Result<Queue<u32>, NoMemory> {
    match Queue::new(alloc, 1, 8) {
        Ok(queue) => Ok(queue),
        Err(NoMemory) => Queue::new(alloc, 1, 8),
    }
}

fn keeps_what_it_has(queue: &mut Queue<u32>) -> bool {
    queue.push(1, b"123456789") == Err(Full)
        && queue.front().is_none()
        && queue.push(2, b"12345678") == Ok(())
        && queue.push(3, b"") == Err(Full)
        && queue.front() == Some((&2, b"12345678".as_slice()))
}

#[test]
fn a_full_queue_keeps_what_it_has(rt: HostRuntime) -> Result<(), Fail> {
    let mut queue = short(rt.alloc())?;
    assert!(rt; keeps_what_it_has(&mut queue));
    Ok(())
}

fn hands_out(socket: &mut udp::Socket<'static>) -> bool {
    let was_empty = socket.accepts(&HOST, &OWN, 6969)
        && !socket.accepts(&HOST, &OWN, 6970)
        && socket.recv().is_none();
    socket.process(REMOTE, b"hi");
    let is_read = socket.recv() == Some((&REMOTE, b"hi".as_slice()));
    socket.done();
    was_empty && is_read && socket.recv().is_none()
}

#[test]
fn a_datagram_is_handed_out(rt: HostRuntime) -> Result<(), Fail> {
    let mut socket = udp_at(rt.alloc())?;
    assert!(rt; hands_out(&mut socket));
    Ok(())
}

// Whether a socket offers `hi` from its own end.
fn offers(socket: &mut udp::Socket<'static>) -> bool {
    let src = IpEndpoint {
        addr: OWN,
        port: 6969,
    };
    match socket.offer(&HOST) {
        Some(packet) => {
            packet.src == src
                && packet.dst == REMOTE
                && packet.hop_limit == 64
                && packet.payload == b"hi".as_slice()
        }
        None => false,
    }
}

/// Whether a socket offers `hi` again, until it is told that it is gone.
fn offers_until_it_is_gone(socket: &mut udp::Socket<'static>) -> bool {
    let is_offered = offers(socket);
    socket.told(false);
    let is_offered_again = offers(socket);
    socket.told(true);
    is_offered && is_offered_again && socket.offer(&HOST).is_none()
}

#[test]
fn a_datagram_is_offered_until_it_is_gone(rt: HostRuntime) -> Result<(), Fail> {
    let mut socket = udp_at(rt.alloc())?;
    let was_idle = socket.poll_at() == PollAt::Ingress;
    let is_queued = socket.send(REMOTE, b"hi") == Ok(()) && socket.poll_at() == PollAt::Now;
    assert!(rt; was_idle && is_queued && offers_until_it_is_gone(&mut socket));
    Ok(())
}

fn tcp_at(alloc: Global) -> Result<tcp::Socket<'static>, Fail>
    ensures { IfOk result (λ s. s.local.port ≡ 80) }
{
    let local = IpListenEndpoint {
        addr: None,
        port: 80,
    };
    let (rx, tx) = queues(alloc)?;
    Ok(tcp::Socket::new(local, None, rx, tx))
}

const SYN: TcpRepr = TcpRepr {
    src_port: 5000,
    dst_port: 80,
    control: TcpControl::Syn,
    seq_number: TcpSeqNumber { bits: 256 },
    ack_number: None,
    window_len: 1024,
};

const RESET: TcpRepr = TcpRepr {
    src_port: 80,
    dst_port: 5000,
    control: TcpControl::Rst,
    seq_number: TcpSeqNumber { bits: 0 },
    ack_number: Some(TcpSeqNumber { bits: 257 }),
    window_len: 0,
};

const OWN_END: IpEndpoint = IpEndpoint {
    addr: OWN,
    port: 80,
};

#[test]
fn a_connection_given_up_is_reset(rt: HostRuntime) -> Result<(), Fail> {
    let mut socket = tcp_at(rt.alloc())?;
    let is_taken = socket.accepts(&REMOTE, &OWN_END) && socket.process(OTHER, &SYN, b"") == None;
    let is_read = match socket.recv() {
        Some((segment, _)) => segment.remote == REMOTE,
        None => false,
    };
    socket.done();
    socket.abort();
    let is_reset = socket.process(OTHER, &SYN, b"") == Some(RESET)
        && socket.process(OTHER, &RESET, b"") == None
        && socket.recv().is_none();
    assert!(rt; is_taken && is_read && is_reset);
    Ok(())
}

const PACKET: &[u8] =
    b"\x45\x00\x00\x1e\x00\x00\x40\x00\x40\x11\x2f\x19\xc0\xa8\x45\x64\xc0\xa8\x45\x01\x13\x88\x1b\x39\x00\x0a\x5c\xf9hi";

// The header of the packet.
const HEADER: Ipv4Repr = Ipv4Repr {
    src_addr: Ipv4Address { bits: 0xc0a8_4564 },
    dst_addr: Ipv4Address { bits: 0xc0a8_4501 },
    next_header: IpProtocol::Udp,
    payload_len: 10,
    hop_limit: 64,
};

fn raw_for(
    alloc: Global,
    version: IpVersion,
    protocol: IpProtocol,
) -> Result<raw::Socket<'static>, NoMemory> {
    let (rx, tx) = queues(alloc)?;
    Ok(raw::Socket::new(version, protocol, rx, tx))
}

// Whether a socket offers the packet.
fn offers_packet(socket: &mut raw::Socket<'static>) -> bool {
    match socket.offer() {
        Some(packet) => packet.header == IpRepr::Ipv4(HEADER) && packet.payload == &PACKET[20..],
        None => false,
    }
}

/// Whether a socket takes packets of its version and protocol alone.
fn takes_its_own(socket: &raw::Socket<'static>) -> bool {
    socket.accepts(IpVersion::Ipv4, IpProtocol::Udp)
        && !socket.accepts(IpVersion::Ipv4, IpProtocol::Tcp)
        && !socket.accepts(IpVersion::Ipv6, IpProtocol::Udp)
}

fn is_packet_parsed() -> bool {
    Ipv4Repr::parse(PACKET, true) == Some((HEADER, Ipv4Fragment::WHOLE, &PACKET[20..]))
}

/// Whether the packet is read and offered with its header, and what is none is dropped.
fn keeps_headers(socket: &mut raw::Socket<'static>) -> bool {
    socket.process(&IpRepr::Ipv4(HEADER), &PACKET[20..], true);
    let is_read = socket.recv() == Some((&(), PACKET));
    let is_offered = socket.send((), PACKET) == Ok(()) && offers_packet(socket);
    socket.told(true);
    is_read
        && is_offered
        && socket.send((), b"no packet") == Ok(())
        && socket.offer().is_none()
        && socket.poll_at() == PollAt::Ingress
}

#[test]
fn packets_keep_their_headers(rt: HostRuntime) -> Result<(), Fail> {
    let mut socket = raw_for(rt.alloc(), IpVersion::Ipv4, IpProtocol::Udp)?;
    let is_right = takes_its_own(&socket) && is_packet_parsed() && keeps_headers(&mut socket);
    assert!(rt; is_right);
    Ok(())
}

// A datagram of two octets over IPv6, with one octet behind it.
const PACKET_V6: &[u8] = &[
    0x60, 0x00, 0x00, 0x00, 0x00, 0x0a, 0x11, 0x40, 0x20, 0x01, 0x0d, 0xb8, 0x00, 0x00, 0x00, 0x00,
    0x00, 0x00, 0x00, 0x00, 0x00, 0x00, 0x00, 0x01, 0x20, 0x01, 0x0d, 0xb8, 0x00, 0x00, 0x00, 0x00,
    0x00, 0x00, 0x00, 0x00, 0x00, 0x00, 0x00, 0x02, 0x13, 0x88, 0x1b, 0x39, 0x00, 0x0a, 0x00, 0x00,
    0x68, 0x69, 0x2e,
];

/// The datagram's octets.
const PAYLOAD_V6: &[u8] = b"\x13\x88\x1b\x39\x00\x0a\x00\x00hi";

/// A socket's version and protocol, a packet, how many of its octets are there, and whether the datagram is offered.
type Offer = (IpVersion, IpProtocol, &'static [u8], usize, bool);

/// A raw socket offers packets of its version and protocol, and drops others.
const OFFERS: [Offer; 5] = [
    (IpVersion::Ipv6, IpProtocol::Udp, PACKET_V6, 51, true),
    (IpVersion::Ipv6, IpProtocol::Tcp, PACKET_V6, 51, false),
    (IpVersion::Ipv4, IpProtocol::Udp, PACKET_V6, 51, false),
    (IpVersion::Ipv6, IpProtocol::Udp, PACKET, 30, false),
    (IpVersion::Ipv6, IpProtocol::Udp, PACKET_V6, 49, false),
];

/// Whether a socket takes a packet, and offers the datagram in it, or nothing.
fn offers_datagram(socket: &mut raw::Socket<'static>, octets: &[u8], is_offered: bool) -> bool {
    let is_queued = socket.send((), octets) == Ok(());
    match socket.offer() {
        Some(packet) => is_queued && is_offered && packet.payload == PAYLOAD_V6,
        None => is_queued && !is_offered,
    }
}

fn is_offered_so(alloc: Global, case: &Offer) -> bool {
    let (version, protocol, octets, len, is_offered) = case;
    match (raw_for(alloc, *version, *protocol), octets.get(..*len)) {
        (Ok(mut socket), Some(octets)) => offers_datagram(&mut socket, octets, *is_offered),
        _ => false,
    }
}

/// The place of the first packet that is offered otherwise.
fn first_other(alloc: Global) -> Option<usize> {
    for (place, case) in OFFERS.iter().enumerate() {
        if !is_offered_so(alloc, case) {
            return Some(place);
        }
    }
    None
}

#[test]
fn packets_of_ipv6_are_offered(rt: HostRuntime) {
    assert!(rt; first_other(rt.alloc()).is_none());
}

// An echo request with the identifier 0x22b and the sequence number 1 (RFC 792), without its
// checksum.
const ECHO: &[u8] = b"\x08\x00\x00\x00\x02\x2b\x00\x01hi";

// A port unreachable that quotes a datagram from port 5000.
const UNREACHABLE: &[u8] =
    b"\x03\x03\x00\x00\x00\x00\x00\x00\x45\x00\x00\x1e\x00\x00\x40\x00\x40\x11\x2f\x19\xc0\xa8\x45\x64\xc0\xa8\x45\x01\x13\x88\x1b\x39\x00\x0a\x5c\xf9hi";

// Whether a socket offers the echo request.
fn offers_echo(socket: &mut icmp::Socket<'static>) -> bool {
    let repr = Icmpv4Repr::EchoRequest {
        ident: 0x22b,
        seq_no: 1,
    };
    match socket.offer(&HOST) {
        Some(packet) => {
            packet.repr == IcmpRepr::Ipv4(repr)
                && packet.src_addr == OWN
                && packet.payload == b"hi".as_slice()
        }
        None => false,
    }
}

fn icmp_at(alloc: Global) -> Result<icmp::Socket<'static>, NoMemory> {
    let (rx, tx) = queues(alloc)?;
    Ok(icmp::Socket::new(icmp::Endpoint::Ident(0x22b), rx, tx))
}

fn offers_echo_alone(socket: &mut icmp::Socket<'static>) -> bool {
    socket.process(OTHER, UNREACHABLE);
    socket.recv() == Some((&OTHER, UNREACHABLE))
        && socket.send(OTHER, UNREACHABLE) == Ok(())
        && socket.send(OTHER, ECHO) == Ok(())
        && socket.offer(&HOST).is_none()
        && offers_echo(socket)
}

#[test]
fn only_echo_messages_are_offered(rt: HostRuntime) -> Result<(), Fail> {
    let mut socket = icmp_at(rt.alloc())?;
    assert!(rt; offers_echo_alone(&mut socket));
    Ok(())
}

const NOWHERE: IpAddress = IpAddress::Ipv4(Ipv4Address { bits: 0 });

// The longest message that is taken has 65,495 octets.
fn refuses_in_order(socket: &mut icmp::Socket<'static>, long: &[u8; 65_496]) -> bool {
    socket.try_send(NOWHERE, long) == Err(icmp::SendError::UnspecifiedAddress)
        && socket.try_send(OTHER, long) == Err(icmp::SendError::TooLong)
        && socket.try_send(OTHER, &long[..65_495]) == Err(icmp::SendError::Full)
        && socket.try_send(OTHER, ECHO) == Ok(())
        && offers_echo(socket)
}

#[test]
fn messages_are_refused_in_order(rt: HostRuntime) -> Result<(), Fail> {
    let mut socket = icmp_at(rt.alloc())?;
    assert!(rt; refuses_in_order(&mut socket, &[0; 65_496]));
    Ok(())
}

// Whether a value prints as this text. If memory for it is refused, the next call gets it.
fn prints<T: Display>(alloc: Global, value: &T, text: &str) -> bool {
    for _ in 0..2 {
        if let Ok(printed) = format!(in alloc; "{value}") {
            return printed.as_str() == text;
        }
    }
    false
}

fn are_ends_printed(alloc: Global) -> bool {
    prints(alloc, &REMOTE, "192.168.69.100:5000")
        && prints(alloc, &IpListenEndpoint::from(7), "*:7")
        && prints(alloc, &TcpSeqNumber::from(4_294_967_295), "4294967295")
}

fn are_errors_printed(alloc: Global) -> bool {
    prints(alloc, &Full, "Full")
        && prints(alloc, &NoMemory, "NoMemory")
        && prints(alloc, &SendError::UnspecifiedAddress, "UnspecifiedAddress")
        && prints(alloc, &SendError::UnspecifiedPort, "UnspecifiedPort")
        && prints(alloc, &SendError::Unbound, "Unbound")
        && prints(alloc, &SendError::TooLong, "TooLong")
        && prints(alloc, &SendError::Full, "Full")
}

fn are_icmp_errors_printed(alloc: Global) -> bool {
    prints(
        alloc,
        &icmp::SendError::UnspecifiedAddress,
        "UnspecifiedAddress",
    ) && prints(alloc, &icmp::SendError::TooLong, "TooLong")
        && prints(alloc, &icmp::SendError::Full, "Full")
}

fn are_all_printed(alloc: Global) -> bool {
    are_ends_printed(alloc) && are_errors_printed(alloc) && are_icmp_errors_printed(alloc)
}

#[test]
fn printed_ends_and_errors(rt: HostRuntime) {
    assert!(rt; are_all_printed(rt.alloc()));
}
