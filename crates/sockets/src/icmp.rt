//! ICMP sockets (RFC 792, RFC 4443): echo messages, and port unreachable errors for the datagrams of a port.
ghost use Rattle.std.specs.Prelude.{◌≡◌, ◌≢◌, ◌≤◌, get_or, length, is_ok, false, IfSome, None, OnOk, OnErr};
ghost use Rattle.std.specs.Option.{option_map};
ghost use Rattle.std.specs.Result.{result_err};
ghost use Rattle.ip_address.specs.Ip.{is_unspecified};
ghost use Rattle.sockets.specs.Queue.{is_room, first_of};
ghost use Rattle.sockets.specs.Icmp as spec;

use crate::buffers::Buffers;
use crate::context::{SocketContext, source_address};
use crate::poll_at::PollAt;
use crate::queue::{Full, Queue};
use control_wire::{IcmpRepr, Icmpv4DstUnreachable, Icmpv4Repr, Icmpv6DstUnreachable, Icmpv6Repr};
use ip_wire::octets::u16_at;
use ip_wire::{IpAddress, IpProtocol, IpRepr};
use std::marker::{Model, PhantomData};
use thiserror::Error;

/// The maximum length of a message that is queued for sending, in octets: as much as the other sockets take.
pub const MAX_MESSAGE_LEN: usize = 65495;

/// Why a message was not queued. It is displayed as its name.
#[derive(Clone, Copy, Debug, PartialEq, Eq, Error)]
pub enum SendError {
    /// The remote address is 0.0.0.0 or ::.
    #[error("UnspecifiedAddress")]
    UnspecifiedAddress,
    /// The message has more than 65,495 octets.
    #[error("TooLong")]
    TooLong,
    /// There is no room for it now.
    #[error("Full")]
    Full,
}

/// Which messages a socket accepts.
#[derive(Clone, Copy, Debug, PartialEq, Eq)]
pub enum Endpoint {
    /// Echo messages with this identifier.
    Ident(u16),
    /// Port unreachable errors for UDP datagrams from this port.
    Udp(u16),
}

/// An echo message to send; its data stays in the socket.
#[derive(Clone, Copy)]
pub struct Packet<'p> {
    pub src_addr: IpAddress,
    pub dst_addr: IpAddress,
    pub hop_limit: u8,
    pub repr: IcmpRepr,
    pub payload: &'p [u8],
}

/// An ICMP socket, with its lifetime as a type parameter.
///
/// In contracts it is its endpoint, its hop limit, and its two queues.
#[derive(Drop)]
pub struct SocketOf<L> {
    endpoint: Endpoint,
    hop_limit: u8,
    buffers: Buffers<IpAddress>,
    marker: PhantomData<L>,
}

/// An ICMP socket.
pub type Socket<'a> = SocketOf<&'a ()>;

impl<L> Model for SocketOf<L> {
    ghost use Rattle.sockets.specs.Icmp.{IcmpSocket};

    ghost Value = { IcmpSocket };

    ghost view = { λ s. record {
      endpoint = s.endpoint;
      hop_limit = s.hop_limit;
      rx = s.buffers.rx;
      tx = s.buffers.tx;
    } };
}

impl<L: Drop> SocketOf<L> {
    /// Creates a socket for an endpoint from a receive queue and a transmit queue. Its hop limit is 64.
    pub fn new(endpoint: Endpoint, rx: Queue<IpAddress>, tx: Queue<IpAddress>) -> SocketOf<L>
        ensures { result ≡ record { endpoint = endpoint; hop_limit = 64; rx = rx; tx = tx } }
    {
        SocketOf {
            endpoint,
            hop_limit: 64,
            buffers: Buffers::new(rx, tx),
            marker: PhantomData,
        }
    }

    /// Which messages the socket accepts.
    pub fn endpoint(&self) -> Endpoint
        ensures { result ≡ self.now.endpoint }
    {
        self.endpoint
    }

    /// The hop limit of packets sent.
    pub fn hop_limit(&self) -> u8
        ensures { result ≡ self.now.hop_limit }
    {
        self.hop_limit
    }

    /// Sets the hop limit of packets sent, which must not be 0.
    pub fn set_hop_limit(&mut self, hop_limit: u8)
        requires { hop_limit ≢ 0 }
        ensures { self.new ≡ record self.old { hop_limit = hop_limit } }
    {
        self.hop_limit = hop_limit;
    }

    /// The messages received but not read yet.
    pub fn rx(&self) -> &Queue<IpAddress>
        ensures { result.now ≡ self.now.rx }
    {
        self.buffers.rx()
    }

    /// The messages to send.
    pub fn tx(&self) -> &Queue<IpAddress>
        ensures { result.now ≡ self.now.tx }
    {
        self.buffers.tx()
    }

    /// Whether the socket accepts a message, given its values and the octets after its header. It accepts an echo
    /// message with its identifier, or a port unreachable error that quotes at least eight octets of a UDP datagram
    /// from its port, by its endpoint.
    pub fn accepts(&self, repr: &IcmpRepr, payload: &[u8]) -> bool
        ensures { result ≡ spec.accepts self.now repr.now payload.now }
    {
        match self.endpoint {
            Endpoint::Ident(ident) => is_echo_of(ident, repr),
            Endpoint::Udp(port) => is_unreachable_from(port, repr, payload),
        }
    }

    /// Queues a whole message received from an address. It is dropped if there is no room for it.
    pub fn process(&mut self, remote: IpAddress, message: &[u8])
        ensures { self.new ≡ spec.socket_after_delivery remote message.now self.old }
    {
        self.buffers.process(remote, message);
    }

    /// The first message received but not read yet, if any: its source address and its octets.
    pub fn recv(&self) -> Option<(&IpAddress, &[u8])>
        ensures value { option_map (λ p. (p.0.now, p.1.now)) result ≡ first_of self.now.rx.packets }
        ensures len { IfSome result (λ p. length p.1.now ≤ self.now.rx.limit) }
    {
        self.buffers.recv()
    }

    /// Drops the message that `recv` returns, if any.
    pub fn done(&mut self)
        ensures { self.new ≡ spec.socket_after_done self.old }
    {
        self.buffers.done();
    }

    /// Queues a message of at most 65,495 octets for an address, which must not be unspecified. Fails with `Full`
    /// exactly if it doesn't fit; then the socket stays unchanged.
    pub fn send(&mut self, remote: IpAddress, message: &[u8]) -> Result<(), Full>
        requires addr { is_unspecified remote ≡ false }
        requires len { length message.now ≤ 65495 }
        ensures fits { is_ok result ≡ is_room self.old.tx (length message.now) }
        ensures socket { self.new ≡ spec.socket_after_send remote message.now self.old }
    {
        self.buffers.send(remote, message)
    }

    /// Queues a message as [`send`](SocketOf::send) does, for any address and of any length. Fails exactly if the
    /// address is unspecified, the message has more than 65,495 octets, or it doesn't fit; the first of these is
    /// returned. Then the socket stays unchanged.
    pub fn try_send(&mut self, remote: IpAddress, message: &[u8]) -> Result<(), SendError>
        ensures refused { result_err result
            ≡ spec.refusal remote (length message.now) (is_room self.old.tx (length message.now)) }
        ensures ok { OnOk result (self.new ≡ spec.socket_after_send remote message.now self.old) }
        ensures err { OnErr result (self.new ≡ self.old) }
    {
        let len = message.len();
        if let Some(error) = refusal(&remote, len, self.tx().has_room(len)) {
            return Err(error);
        }
        self.send(remote, message).map_err(|_| SendError::Full)
    }

    /// When the socket has to be polled again: immediately, if there is something to send.
    #[inline(always)]
    pub fn poll_at(&self) -> PollAt
        ensures { result ≡ spec.poll_at self.now }
    {
        self.buffers.poll_at(PollAt::Now)
    }

    /// The first message to send, if it is an echo message and has a source address.
    #[inline(never)]
    fn peek<C: SocketContext>(&self, context: &C) -> Option<Packet<'_>>
        ensures { option_map spec.value_of result ≡ spec.offered_packet (C.source_for context.now) self.now }
    {
        let (remote, message) = self.buffers.first()?;
        let (repr, payload) = parse_echo(remote, message)?;
        let src_addr = source_address(context, None, remote)?;
        Some(Packet {
            src_addr,
            dst_addr: *remote,
            hop_limit: self.hop_limit,
            repr,
            payload,
        })
    }

    /// Acknowledges what the socket offered: if it is `gone` (sent or dropped), the socket drops it.
    pub fn told(&mut self, gone: bool)
        ensures { self.new ≡ spec.socket_after_told gone self.old }
    {
        self.buffers.told(gone);
    }

    /// For which address the message to send at an index is, from the first on, if there is one.
    pub fn destination_at(&self, index: usize) -> Option<IpAddress>
        ensures { result ≡ get_or (spec.destinations self.now) index None }
    {
        match self.tx().meta_at(index) {
            Some(remote) => Some(*remote),
            None => None,
        }
    }

    /// Brings the message to send at an index to the front; the others keep their order. Where there is none, nothing changes.
    pub fn bring_forward(&mut self, index: usize)
        ensures { self.new ≡ spec.socket_brought_forward index self.old }
    {
        self.buffers.bring_forward(index);
    }
}

impl<L: Drop> SocketOf<L> {
    ghost use Rattle.std.specs.Borrow.{sem};
    ghost use Rattle.sockets.specs.Details.IcmpLending.{Settles};

    /// The first message to send, if any. Its source is the address that the context chooses. The message is dropped,
    /// and `None` returned, if there is no source of the peer's family, or if it isn't an echo message of that family's
    /// ICMP. Its checksum isn't verified.
    pub fn offer<C: SocketContext>(&mut self, context: &C) -> Option<Packet<'_>>
        ensures* settles { sem 𝓛 (Settles L.row self.entry (C.source_for context.now)) }
        ensures value { option_map spec.value_of result ≡ spec.offered_packet (C.source_for context.now) self.old }
    {
        if self.peek(context).is_none() {
            self.buffers.told(true);
            return None;
        }
        self.peek(context)
    }
}

/// Why a message of `len` octets to an address isn't queued, if there is a reason.
fn refusal(remote: &IpAddress, len: usize, fits: bool) -> Option<SendError>
    ensures { result ≡ spec.refusal remote.now len fits }
{
    if remote.is_unspecified() {
        Some(SendError::UnspecifiedAddress)
    } else if len > MAX_MESSAGE_LEN {
        Some(SendError::TooLong)
    } else if !fits {
        Some(SendError::Full)
    } else {
        None
    }
}

/// Whether a message is an echo message with this identifier.
fn is_echo_of(own: u16, repr: &IcmpRepr) -> bool
    ensures { result ≡ spec.is_echo_of own repr.now }
{
    match repr {
        IcmpRepr::Ipv4(Icmpv4Repr::EchoRequest { ident, .. } | Icmpv4Repr::EchoReply { ident, .. })
        | IcmpRepr::Ipv6(
            Icmpv6Repr::EchoRequest { ident, .. } | Icmpv6Repr::EchoReply { ident, .. },
        ) => own == *ident,
        _ => false,
    }
}

/// Whether a message is a port unreachable error that quotes a UDP datagram from a port.
fn is_unreachable_from(port: u16, repr: &IcmpRepr, quoted: &[u8]) -> bool
    ensures { result ≡ spec.is_unreachable_from port repr.now quoted.now }
{
    match repr {
        IcmpRepr::Ipv4(
            Icmpv4Repr::DstUnreachable {
                reason: Icmpv4DstUnreachable::PortUnreachable,
                header,
            },
        ) => is_datagram_from(port, &IpRepr::Ipv4(*header), quoted),
        IcmpRepr::Ipv6(
            Icmpv6Repr::DstUnreachable {
                reason: Icmpv6DstUnreachable::PortUnreachable,
                header,
            },
        ) => is_datagram_from(port, &IpRepr::Ipv6(*header), quoted),
        _ => false,
    }
}

/// Whether a quotation is at least eight octets of a UDP datagram from a port.
fn is_datagram_from(port: u16, header: &IpRepr, quoted: &[u8]) -> bool
    ensures { result ≡ spec.is_datagram_from port header.now quoted.now }
{
    if header.next_header().number() != IpProtocol::Udp.number() || quoted.len() < 8 {
        return false;
    }
    port == u16_at(quoted, 0)
}

/// Parses octets as an echo message to a peer, by the ICMP of the peer's family. Returns the message and its data. The
/// checksum isn't verified.
#[inline(always)]
fn parse_echo<'m>(remote: &IpAddress, message: &'m [u8]) -> Option<(IcmpRepr, &'m [u8])>
    ensures { option_map spec.parts result ≡ spec.echo_to remote.now message.now }
{
    if message.len() < 8 || message.len() >= 1 << 16 || message[1] != 0 {
        return None;
    }
    let ident = u16_at(message, 4);
    let seq_no = u16_at(message, 6);
    let payload = &message[8..];
    match (remote, message[0]) {
        (IpAddress::Ipv4(_), 8) => {
            Some((
                IcmpRepr::Ipv4(Icmpv4Repr::EchoRequest { ident, seq_no }),
                payload,
            ))
        }
        (IpAddress::Ipv4(_), 0) => {
            Some((
                IcmpRepr::Ipv4(Icmpv4Repr::EchoReply { ident, seq_no }),
                payload,
            ))
        }
        (IpAddress::Ipv6(_), 128) => {
            Some((
                IcmpRepr::Ipv6(Icmpv6Repr::EchoRequest { ident, seq_no }),
                payload,
            ))
        }
        (IpAddress::Ipv6(_), 129) => {
            Some((
                IcmpRepr::Ipv6(Icmpv6Repr::EchoReply { ident, seq_no }),
                payload,
            ))
        }
        _ => None,
    }
}
