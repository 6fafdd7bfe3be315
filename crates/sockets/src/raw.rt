//! Raw sockets, which send and receive whole packets of one protocol, with their headers.
ghost use Rattle.std.specs.Prelude.{◌≡◌, ◌≤◌, ◌+◌, ◌++◌, get_or, length, is_ok, IfSome, None};
ghost use Rattle.std.specs.Option.{option_map};
ghost use Rattle.ip_wire.specs.IpPacket.{TellsLength};
ghost use Rattle.sockets.specs.Queue.{is_room, first_of};
ghost use Rattle.sockets.specs.Raw as spec;

use crate::buffers::Buffers;
use crate::poll_at::PollAt;
use crate::queue::{Full, Queue};
use ip_wire::{IpAddress, IpProtocol, IpRepr, IpVersion, Ipv4Fragment, Ipv4Repr, Ipv6Repr};
use std::marker::{Model, PhantomData};

/// A packet to send, of either family; its payload stays in the socket.
#[derive(Clone, Copy)]
pub struct Packet<'p> {
    pub header: IpRepr,
    pub payload: &'p [u8],
}

/// A raw socket, with its lifetime as a type parameter.
///
/// In contracts it is the version and the protocol of its packets, and its two queues.
#[derive(Drop)]
pub struct SocketOf<L> {
    version: IpVersion,
    protocol: IpProtocol,
    buffers: Buffers<()>,
    marker: PhantomData<L>,
}

/// A raw socket.
pub type Socket<'a> = SocketOf<&'a ()>;

impl<L> Model for SocketOf<L> {
    ghost use Rattle.sockets.specs.Raw.{RawSocket};

    ghost Value = { RawSocket };

    ghost view = { λ s. record { version = s.version; protocol = s.protocol; rx = s.buffers.rx; tx = s.buffers.tx } };
}

impl<L: Drop> SocketOf<L> {
    /// Creates a socket for packets of an IP version and a protocol from a receive queue and a transmit queue.
    pub fn new(
        version: IpVersion,
        protocol: IpProtocol,
        rx: Queue<()>,
        tx: Queue<()>,
    ) -> SocketOf<L>
        ensures { result ≡ record { version = version; protocol = protocol; rx = rx; tx = tx } }
    {
        SocketOf {
            version,
            protocol,
            buffers: Buffers::new(rx, tx),
            marker: PhantomData,
        }
    }

    /// The IP version of its packets.
    pub fn version(&self) -> IpVersion
        ensures { result ≡ self.now.version }
    {
        self.version
    }

    /// The protocol of its packets.
    pub fn protocol(&self) -> IpProtocol
        ensures { result ≡ self.now.protocol }
    {
        self.protocol
    }

    /// The packets received but not read yet.
    pub fn rx(&self) -> &Queue<()>
        ensures { result.now ≡ self.now.rx }
    {
        self.buffers.rx()
    }

    /// The packets to send.
    pub fn tx(&self) -> &Queue<()>
        ensures { result.now ≡ self.now.tx }
    {
        self.buffers.tx()
    }

    /// Whether the socket accepts packets of a version and a protocol: both are its own.
    pub fn accepts(&self, version: IpVersion, protocol: IpProtocol) -> bool
        ensures { result ≡ spec.accepts self.now version protocol }
    {
        self.version == version && self.protocol.number() == protocol.number()
    }

    /// Queues a received packet. The header is written anew, as that of a whole packet. An IPv4 checksum is 0 unless
    /// `summed`. The packet is dropped if there is no room for it, or if its header can't tell its length: an IPv4
    /// packet has at most 65,535 octets with its header of 20 (RFC 791 3.1).
    pub fn process(&mut self, header: &IpRepr, payload: &[u8], summed: bool)
        ensures taken { TellsLength header.now →
            self.new ≡ spec.socket_after_delivery summed header.now payload.now self.old }
        ensures dropped { (TellsLength header.now → ⊥) → self.new ≡ self.old }
    {
        match header {
            IpRepr::Ipv4(header) if header.payload_len > 0xffff - 20 => {}
            IpRepr::Ipv4(header) => {
                let text = header.octets(&Ipv4Fragment::WHOLE, summed);
                self.buffers.process_parts((), &text, payload);
            }
            IpRepr::Ipv6(header) => {
                // The length of 16 bits fits.
                let _len = header.payload_len;
                self.buffers.process_parts((), &header.octets(), payload);
            }
        }
    }

    /// The first packet received but not read yet, if any.
    pub fn recv(&self) -> Option<(&(), &[u8])>
        ensures value { option_map (λ p. (p.0.now, p.1.now)) result ≡ first_of self.now.rx.packets }
        ensures len { IfSome result (λ p. length p.1.now ≤ self.now.rx.limit) }
    {
        self.buffers.recv()
    }

    /// Drops the packet that `recv` returns, if any.
    pub fn done(&mut self)
        ensures { self.new ≡ spec.socket_after_done self.old }
    {
        self.buffers.done();
    }

    /// Queues a packet for sending, header and payload, without metadata. Fails with `Full` exactly if it doesn't fit;
    /// then the socket stays unchanged.
    pub fn send(&mut self, meta: (), packet: &[u8]) -> Result<(), Full>
        ensures fits { is_ok result ≡ is_room self.old.tx (length packet.now) }
        ensures socket { self.new ≡ spec.socket_after_send packet.now self.old }
    {
        self.buffers.send(meta, packet)
    }

    /// Queues a packet for sending in two parts, its header and its payload, of which each octet is copied once. Fails with
    /// `Full` exactly if they don't fit together; then the socket stays unchanged.
    pub fn send_parts(&mut self, header: &[u8], payload: &[u8]) -> Result<(), Full>
        ensures fits { is_ok result ≡ is_room self.old.tx (length header.now + length payload.now) }
        ensures socket { self.new ≡ spec.socket_after_send (header.now ++ payload.now) self.old }
    {
        self.buffers.send_parts((), header, payload)
    }

    /// When the socket has to be polled again: immediately, if there is something to send.
    #[inline(always)]
    pub fn poll_at(&self) -> PollAt
        ensures { result ≡ spec.poll_at self.now }
    {
        self.buffers.poll_at(PollAt::Now)
    }

    /// The packet that the octets begin with, if it is of the socket's version and protocol.
    #[inline(never)]
    fn parse<'p>(&self, octets: &'p [u8]) -> Option<Packet<'p>>
        ensures { option_map spec.value_of result ≡ spec.packet_to_send self.now octets.now }
    {
        let packet = packet_in(self.version, octets)?;
        if self.protocol.number() == packet.header.next_header().number() {
            Some(packet)
        } else {
            None
        }
    }

    /// The first packet to send, if it is of the socket's version and protocol.
    #[inline(always)]
    fn peek(&self) -> Option<Packet<'_>>
        ensures { option_map spec.value_of result ≡ spec.offered_packet self.now }
    {
        let (_, octets) = self.buffers.first()?;
        self.parse(octets)
    }

    /// Acknowledges what the socket offered: if it is `gone` (sent or dropped), the socket drops it.
    pub fn told(&mut self, gone: bool)
        ensures { self.new ≡ spec.socket_after_told gone self.old }
    {
        self.buffers.told(gone);
    }

    /// For which address the packet to send at an index is, from the first on, if there is one of the socket's version
    /// and protocol.
    pub fn destination_at(&self, index: usize) -> Option<IpAddress>
        ensures { result ≡ get_or (spec.destinations self.now) index None }
    {
        match self.tx().get(index) {
            Some((_, octets)) => self.destination_in(octets),
            None => None,
        }
    }

    /// For which address the packet is that the octets begin with, if it is of the socket's version and protocol.
    fn destination_in(&self, octets: &[u8]) -> Option<IpAddress>
        ensures { result ≡ spec.destination_in self.now octets.now }
    {
        match self.parse(octets) {
            Some(packet) => Some(packet.header.dst_addr()),
            None => None,
        }
    }

    /// Brings the packet to send at an index to the front; the others keep their order. Where there is none, nothing changes.
    pub fn bring_forward(&mut self, index: usize)
        ensures { self.new ≡ spec.socket_brought_forward index self.old }
    {
        self.buffers.bring_forward(index);
    }
}

impl<L: Drop> SocketOf<L> {
    ghost use Rattle.std.specs.Borrow.{sem};
    ghost use Rattle.sockets.specs.Details.RawLending.{Settles};

    /// The first packet to send, if any. Octets that aren't a packet of the socket's version and protocol are dropped,
    /// and `None` returned. The header's checksum isn't verified.
    pub fn offer(&mut self) -> Option<Packet<'_>>
        ensures* settles { sem 𝓛 (Settles L.row self.entry) }
        ensures value { option_map spec.value_of result ≡ spec.offered_packet self.old }
    {
        if self.peek().is_none() {
            self.buffers.told(true);
            return None;
        }
        self.peek()
    }
}

/// The packet of an IP version that the octets begin with. The IPv4 header's checksum isn't verified.
#[inline(always)]
#[tactic(auto, using(crate::proofs::RawLemmas::is_ipv4_reads, crate::proofs::RawLemmas::reads_is_ipv4, crate::proofs::RawLemmas::is_ipv6_reads, crate::proofs::RawLemmas::reads_is_ipv6))]
pub fn packet_in(version: IpVersion, octets: &[u8]) -> Option<Packet<'_>>
    ensures { option_map spec.value_of result ≡ spec.packet_in version octets.now }
{
    match version {
        IpVersion::Ipv4 => {
            let (header, _, payload) = Ipv4Repr::parse(octets, false)?;
            Some(Packet {
                header: IpRepr::Ipv4(header),
                payload,
            })
        }
        IpVersion::Ipv6 => {
            let (header, payload) = Ipv6Repr::parse(octets)?;
            Some(Packet {
                header: IpRepr::Ipv6(header),
                payload,
            })
        }
    }
}
