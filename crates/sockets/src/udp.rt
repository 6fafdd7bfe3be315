//! UDP sockets (RFC 768).
ghost use Rattle.std.specs.Prelude.{◌≡◌, ◌≢◌, ◌≤◌, get_or, length, is_ok, IfSome, None, OnOk, OnErr, false};
ghost use Rattle.std.specs.Option.{option_map};
ghost use Rattle.std.specs.Result.{result_err};
ghost use Rattle.ip_address.specs.Ip.{is_unspecified};
ghost use Rattle.sockets.specs.Queue.{is_room, first_of};
ghost use Rattle.sockets.specs.Details.SendError.{refusal};
ghost use Rattle.sockets.specs.Udp as spec;

use crate::buffers::Buffers;
use crate::context::{SocketContext, source_address};
use crate::endpoint::{IpEndpoint, IpListenEndpoint};
use crate::poll_at::PollAt;
use crate::queue::{Full, Queue};
use crate::send_error::{SendError, refusal};
use ip_wire::IpAddress;
use std::marker::{Model, PhantomData};

/// A datagram to send; its payload stays in the socket.
#[derive(Clone, Copy)]
pub struct Packet<'p> {
    pub src: IpEndpoint,
    pub dst: IpEndpoint,
    pub hop_limit: u8,
    pub payload: &'p [u8],
}

/// A UDP socket, with its lifetime as a type parameter.
///
/// In contracts it is the endpoint at which it listens, its hop limit, and its two queues.
#[derive(Drop)]
pub struct SocketOf<L> {
    endpoint: IpListenEndpoint,
    hop_limit: u8,
    buffers: Buffers<IpEndpoint>,
    marker: PhantomData<L>,
}

/// A UDP socket.
pub type Socket<'a> = SocketOf<&'a ()>;

impl<L> Model for SocketOf<L> {
    ghost use Rattle.sockets.specs.Udp.{UdpSocket};

    ghost Value = { UdpSocket };

    ghost view = { λ s. record {
      endpoint = s.endpoint;
      hop_limit = s.hop_limit;
      rx = s.buffers.rx;
      tx = s.buffers.tx;
    } };
}

impl<L: Drop> SocketOf<L> {
    /// Creates a socket that listens at an endpoint from a receive queue and a transmit queue. Its hop limit is 64.
    pub fn new(
        endpoint: IpListenEndpoint,
        rx: Queue<IpEndpoint>,
        tx: Queue<IpEndpoint>,
    ) -> SocketOf<L>
        ensures { result ≡ record { endpoint = endpoint; hop_limit = 64; rx = rx; tx = tx } }
    {
        SocketOf {
            endpoint,
            hop_limit: 64,
            buffers: Buffers::new(rx, tx),
            marker: PhantomData,
        }
    }

    /// The endpoint at which the socket listens.
    pub fn endpoint(&self) -> IpListenEndpoint
        ensures { result ≡ self.now.endpoint }
    {
        self.endpoint
    }

    /// The hop limit of packets sent.
    pub fn hop_limit(&self) -> u8
        ensures { result ≡ self.now.hop_limit }
    {
        self.hop_limit
    }

    /// Sets the hop limit of packets sent, which must not be 0.
    pub fn set_hop_limit(&mut self, hop_limit: u8)
        requires { hop_limit ≢ 0 }
        ensures { self.new ≡ record self.old { hop_limit = hop_limit } }
    {
        self.hop_limit = hop_limit;
    }

    /// The datagrams received but not read yet.
    pub fn rx(&self) -> &Queue<IpEndpoint>
        ensures { result.now ≡ self.now.rx }
    {
        self.buffers.rx()
    }

    /// The datagrams to send.
    pub fn tx(&self) -> &Queue<IpEndpoint>
        ensures { result.now ≡ self.now.tx }
    {
        self.buffers.tx()
    }

    /// Whether the socket accepts a datagram for an address and a port: the port is its own, and it listens at any
    /// address or at this one, or the address is broadcast or multicast.
    #[inline(always)]
    pub fn accepts<C: SocketContext>(
        &self,
        context: &C,
        dst_addr: &IpAddress,
        dst_port: u16,
    ) -> bool
        ensures { result ≡ spec.accepts (C.is_broadcast_in context.now) self.now dst_addr.now dst_port }
    {
        if self.endpoint.port != dst_port {
            return false;
        }
        match self.endpoint.addr {
            None => true,
            Some(addr) => {
                addr == *dst_addr || context.is_broadcast(dst_addr) || dst_addr.is_multicast()
            }
        }
    }

    /// Queues a datagram received from an endpoint. It is dropped if there is no room for it.
    #[inline(always)]
    pub fn process(&mut self, remote: IpEndpoint, payload: &[u8])
        ensures { self.new ≡ spec.socket_after_delivery remote payload.now self.old }
    {
        self.buffers.process(remote, payload);
    }

    /// The first datagram received but not read yet, if any: its source endpoint and its payload.
    pub fn recv(&self) -> Option<(&IpEndpoint, &[u8])>
        ensures value { option_map (λ p. (p.0.now, p.1.now)) result ≡ first_of self.now.rx.packets }
        ensures len { IfSome result (λ p. length p.1.now ≤ self.now.rx.limit) }
    {
        self.buffers.recv()
    }

    /// Drops the datagram that `recv` returns, if any.
    pub fn done(&mut self)
        ensures { self.new ≡ spec.socket_after_done self.old }
    {
        self.buffers.done();
    }

    /// Queues a datagram of at most 65,495 octets for an endpoint. Its address must not be unspecified, and neither its
    /// port nor the socket's own may be 0. Fails with `Full` exactly if it doesn't fit; then the socket stays
    /// unchanged.
    pub fn send(&mut self, remote: IpEndpoint, payload: &[u8]) -> Result<(), Full>
        requires addr { is_unspecified remote.addr ≡ false }
        requires port { remote.port ≢ 0 }
        requires own_port { self.old.endpoint.port ≢ 0 }
        requires len { length payload.now ≤ 65495 }
        ensures fits { is_ok result ≡ is_room self.old.tx (length payload.now) }
        ensures socket { self.new ≡ spec.socket_after_send remote payload.now self.old }
    {
        self.buffers.send(remote, payload)
    }

    /// Queues a datagram as [`send`](SocketOf::send) does, for any endpoint and payload. Fails exactly if the remote
    /// address is unspecified, the remote port is 0, the socket's own port is 0, the payload has more than 65,495
    /// octets, or it doesn't fit; the first of these is returned. Then the socket stays unchanged.
    pub fn try_send(&mut self, remote: IpEndpoint, payload: &[u8]) -> Result<(), SendError>
        ensures refused { result_err result
            ≡ refusal remote self.old.endpoint.port (length payload.now) (is_room self.old.tx (length payload.now)) }
        ensures ok { OnOk result (self.new ≡ spec.socket_after_send remote payload.now self.old) }
        ensures err { OnErr result (self.new ≡ self.old) }
    {
        let (len, own_port) = (payload.len(), self.endpoint.port);
        if let Some(error) = refusal(&remote, own_port, len, self.tx().has_room(len)) {
            return Err(error);
        }
        self.send(remote, payload).map_err(|_| SendError::Full)
    }

    /// When the socket has to be polled again: immediately, if there is something to send.
    #[inline(always)]
    pub fn poll_at(&self) -> PollAt
        ensures { result ≡ spec.poll_at self.now }
    {
        self.buffers.poll_at(PollAt::Now)
    }

    /// The source address of the first datagram to send, if any.
    #[inline(always)]
    fn source<C: SocketContext>(&self, context: &C) -> Option<IpAddress>
        ensures { result ≡ spec.first_source (C.source_for context.now) self.now }
    {
        let (remote, _) = self.buffers.first()?;
        source_address(context, self.endpoint.addr, &remote.addr)
    }

    /// The first datagram to send, if any, with this source address.
    #[inline(always)]
    fn packet(&self, addr: IpAddress) -> Option<Packet<'_>>
        ensures { option_map spec.value_of result
            ≡ option_map (λ p. spec.datagram self.now p addr) (first_of self.now.tx.packets) }
    {
        let (remote, payload) = self.buffers.first()?;
        Some(Packet {
            src: IpEndpoint {
                addr,
                port: self.endpoint.port,
            },
            dst: *remote,
            hop_limit: self.hop_limit,
            payload,
        })
    }

    /// Acknowledges what the socket offered: if it is `gone` (sent or dropped), the socket drops it.
    pub fn told(&mut self, gone: bool)
        ensures { self.new ≡ spec.socket_after_told gone self.old }
    {
        self.buffers.told(gone);
    }

    /// For which address the datagram to send at an index is, from the first on, if there is one.
    pub fn destination_at(&self, index: usize) -> Option<IpAddress>
        ensures { result ≡ get_or (spec.destinations self.now) index None }
    {
        match self.tx().meta_at(index) {
            Some(remote) => Some(remote.addr),
            None => None,
        }
    }

    /// Brings the datagram to send at an index to the front; the others keep their order. Where there is none, nothing changes.
    pub fn bring_forward(&mut self, index: usize)
        ensures { self.new ≡ spec.socket_brought_forward index self.old }
    {
        self.buffers.bring_forward(index);
    }
}

impl<L: Drop> SocketOf<L> {
    ghost use Rattle.std.specs.Borrow.{sem};
    ghost use Rattle.sockets.specs.Details.UdpLending.{Settles};

    /// The first datagram to send, if any. Its source is the address at which the socket listens if that is given,
    /// otherwise the one that the context chooses. Without a source of the peer's family the datagram is dropped, and
    /// `None` returned.
    pub fn offer<C: SocketContext>(&mut self, context: &C) -> Option<Packet<'_>>
        ensures* settles { sem 𝓛 (Settles L.row self.entry (C.source_for context.now)) }
        ensures value { option_map spec.value_of result ≡ spec.offered_packet (C.source_for context.now) self.old }
    {
        let Some(addr) = self.source(context) else {
            self.buffers.told(true);
            return None;
        };
        self.packet(addr)
    }
}
