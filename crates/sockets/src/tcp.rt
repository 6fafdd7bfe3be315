//! TCP sockets (RFC 9293), which hand segments in and out: their interpretation is up to the caller.
ghost use Rattle.std.specs.Prelude.{◌≡◌, ◌≢◌, ◌≤◌, pos, get_or, length, is_ok, IfSome, None, OnOk, OnErr, true, false};
ghost use Rattle.std.specs.Option.{option_map};
ghost use Rattle.std.specs.Result.{result_err};
ghost use Rattle.ip_address.specs.Ip.{is_unspecified};
ghost use Rattle.sockets.specs.Queue.{is_room, first_of};
ghost use Rattle.sockets.specs.Details.SendError.{refusal};
ghost use Rattle.sockets.specs.Tcp as spec;

use crate::buffers::Buffers;
use crate::context::{SocketContext, source_address};
use crate::endpoint::{IpEndpoint, IpListenEndpoint};
use crate::poll_at::PollAt;
use crate::queue::{Full, Queue};
use crate::send_error::{SendError, refusal};
use ip_wire::{IpAddress, TcpControl, TcpRepr, TcpSeqNumber};
use net_base::time::Instant;
use std::marker::{Model, PhantomData};

/// A segment without its payload.
#[derive(Clone, Copy, Debug, PartialEq, Eq)]
pub struct Segment {
    /// The remote endpoint: its source if received, its destination if sent.
    pub remote: IpEndpoint,
    pub control: TcpControl,
    pub seq: TcpSeqNumber,
    pub ack: Option<TcpSeqNumber>,
    /// The window as in the header, not scaled.
    pub window: u16,
}

/// A segment to send; its payload stays in the socket.
#[derive(Clone, Copy)]
pub struct Packet<'p> {
    pub src_addr: IpAddress,
    pub dst_addr: IpAddress,
    pub hop_limit: u8,
    pub repr: TcpRepr,
    pub payload: &'p [u8],
}

/// A TCP socket, with its lifetime as a type parameter.
///
/// In contracts it is its local endpoint, its remote endpoint if that is fixed, its hop limit, the moment before which
/// it sends nothing, whether the connection was aborted, and its two queues.
#[derive(Drop)]
pub struct SocketOf<L> {
    local: IpListenEndpoint,
    remote: Option<IpEndpoint>,
    hop_limit: u8,
    hold: Instant,
    is_aborted: bool,
    buffers: Buffers<Segment>,
    marker: PhantomData<L>,
}

/// A TCP socket.
pub type Socket<'a> = SocketOf<&'a ()>;

impl<L> Model for SocketOf<L> {
    ghost use Rattle.sockets.specs.Tcp.{TcpSocket};

    ghost Value = { TcpSocket };

    ghost view = { λ s. record {
      local = s.local;
      remote = s.remote;
      hop_limit = s.hop_limit;
      hold = s.hold;
      is_aborted = s.is_aborted;
      rx = s.buffers.rx;
      tx = s.buffers.tx;
    } };
}

impl<L: Drop> SocketOf<L> {
    /// Creates a socket for a local endpoint and, if given, a remote one, from a receive queue and a transmit queue.
    /// Its hop limit is 64, and it holds nothing back.
    pub fn new(
        local: IpListenEndpoint,
        remote: Option<IpEndpoint>,
        rx: Queue<Segment>,
        tx: Queue<Segment>,
    ) -> SocketOf<L>
        ensures { result ≡ record {
          local = local;
          remote = remote;
          hop_limit = 64;
          hold = pos 0;
          is_aborted = false;
          rx = rx;
          tx = tx;
        } }
    {
        SocketOf {
            local,
            remote,
            hop_limit: 64,
            hold: Instant::ZERO,
            is_aborted: false,
            buffers: Buffers::new(rx, tx),
            marker: PhantomData,
        }
    }

    /// The local endpoint.
    pub fn local(&self) -> IpListenEndpoint
        ensures { result ≡ self.now.local }
    {
        self.local
    }

    /// The remote endpoint, if it is fixed.
    pub fn remote(&self) -> Option<IpEndpoint>
        ensures { result ≡ self.now.remote }
    {
        self.remote
    }

    /// The hop limit of packets sent.
    pub fn hop_limit(&self) -> u8
        ensures { result ≡ self.now.hop_limit }
    {
        self.hop_limit
    }

    /// Sets the hop limit of packets sent, which must not be 0.
    pub fn set_hop_limit(&mut self, hop_limit: u8)
        requires { hop_limit ≢ 0 }
        ensures { self.new ≡ record self.old { hop_limit = hop_limit } }
    {
        self.hop_limit = hop_limit;
    }

    /// The moment before which the socket sends nothing.
    pub fn hold(&self) -> Instant
        ensures { result ≡ self.now.hold }
    {
        self.hold
    }

    /// Sends nothing before this moment.
    pub fn hold_until(&mut self, moment: Instant)
        ensures { self.new ≡ record self.old { hold = moment } }
    {
        self.hold = moment;
    }

    /// Whether the connection was aborted.
    pub fn is_aborted(&self) -> bool
        ensures { result ≡ self.now.is_aborted }
    {
        self.is_aborted
    }

    /// Aborts the connection: from now on received segments are answered by a reset.
    pub fn abort(&mut self)
        ensures { self.new ≡ record self.old { is_aborted = true } }
    {
        self.is_aborted = true;
    }

    /// The segments received but not read yet.
    pub fn rx(&self) -> &Queue<Segment>
        ensures { result.now ≡ self.now.rx }
    {
        self.buffers.rx()
    }

    /// The segments to send.
    pub fn tx(&self) -> &Queue<Segment>
        ensures { result.now ≡ self.now.tx }
    {
        self.buffers.tx()
    }

    /// Whether the socket accepts a segment from one endpoint to another: its local port matches, and so do its local
    /// address and its remote endpoint, where they are given.
    pub fn accepts(&self, src: &IpEndpoint, dst: &IpEndpoint) -> bool
        ensures { result ≡ spec.accepts self.now src.now dst.now }
    {
        if self.local.port != dst.port {
            return false;
        }
        if let Some(addr) = self.local.addr
            && addr != dst.addr
        {
            return false;
        }
        match self.remote {
            None => true,
            Some(remote) => remote == *src,
        }
    }

    /// Processes a segment received from an address. Returns the segment that answers it, if any.
    ///
    /// The socket queues the segment, without an answer; it is dropped if there is no room for it. After
    /// [`abort`](SocketOf::abort) the socket doesn't get it, and every segment but a reset is answered by a reset.
    pub fn process(
        &mut self,
        src_addr: IpAddress,
        repr: &TcpRepr,
        payload: &[u8],
    ) -> Option<TcpRepr>
        ensures reply { result ≡ spec.reply repr.now payload.now self.old }
        ensures socket { self.new ≡ spec.socket_after_delivery src_addr repr.now payload.now self.old }
    {
        if !self.is_aborted {
            self.buffers.process(segment_of(src_addr, repr), payload);
            return None;
        }
        match repr.control {
            TcpControl::Rst => None,
            _ => Some(rst_reply(repr, payload.len())),
        }
    }

    /// The first segment received but not read yet, if any, and its payload.
    pub fn recv(&self) -> Option<(&Segment, &[u8])>
        ensures value { option_map (λ p. (p.0.now, p.1.now)) result ≡ first_of self.now.rx.packets }
        ensures len { IfSome result (λ p. length p.1.now ≤ self.now.rx.limit) }
    {
        self.buffers.recv()
    }

    /// Drops the segment that `recv` returns, if any.
    pub fn done(&mut self)
        ensures { self.new ≡ spec.socket_after_done self.old }
    {
        self.buffers.done();
    }

    /// Queues a segment with at most 65,495 octets of payload for its remote endpoint. That address must not be
    /// unspecified, and neither the remote port nor the local port may be 0. Fails with `Full` exactly if it doesn't
    /// fit; then the socket stays unchanged.
    pub fn send(&mut self, segment: Segment, payload: &[u8]) -> Result<(), Full>
        requires addr { is_unspecified segment.remote.addr ≡ false }
        requires port { segment.remote.port ≢ 0 }
        requires own_port { self.old.local.port ≢ 0 }
        requires len { length payload.now ≤ 65495 }
        ensures fits { is_ok result ≡ is_room self.old.tx (length payload.now) }
        ensures socket { self.new ≡ spec.socket_after_send segment payload.now self.old }
    {
        self.buffers.send(segment, payload)
    }

    /// Queues a segment as [`send`](SocketOf::send) does, for any endpoint and payload. Fails exactly if the remote
    /// address is unspecified, the remote port is 0, the local port is 0, the payload has more than 65,495 octets, or
    /// it doesn't fit; the first of these is returned. Then the socket stays unchanged.
    pub fn try_send(&mut self, segment: Segment, payload: &[u8]) -> Result<(), SendError>
        ensures refused { result_err result ≡ refusal segment.remote self.old.local.port (length payload.now)
            (is_room self.old.tx (length payload.now)) }
        ensures ok { OnOk result (self.new ≡ spec.socket_after_send segment payload.now self.old) }
        ensures err { OnErr result (self.new ≡ self.old) }
    {
        let (len, own_port) = (payload.len(), self.local.port);
        if let Some(error) = refusal(&segment.remote, own_port, len, self.tx().has_room(len)) {
            return Err(error);
        }
        self.send(segment, payload).map_err(|_| SendError::Full)
    }

    /// When the socket has to be polled again: at the moment until which it holds back, if there is something to send.
    #[inline(always)]
    pub fn poll_at(&self) -> PollAt
        ensures { result ≡ spec.poll_at self.now }
    {
        self.buffers.poll_at(PollAt::Time(self.hold))
    }

    /// The source address of the first segment to send, if any.
    #[inline(always)]
    fn source<C: SocketContext>(&self, context: &C) -> Option<IpAddress>
        ensures { result ≡ spec.first_source (C.source_for context.now) self.now }
    {
        let (segment, _) = self.buffers.first()?;
        source_address(context, self.local.addr, &segment.remote.addr)
    }

    /// The first segment to send, if any, with this source address.
    #[inline(always)]
    fn packet(&self, src_addr: IpAddress) -> Option<Packet<'_>>
        ensures { option_map spec.value_of result
            ≡ option_map (λ p. spec.packet_to_send self.now p src_addr) (first_of self.now.tx.packets) }
    {
        let (segment, payload) = self.buffers.first()?;
        Some(Packet {
            src_addr,
            dst_addr: segment.remote.addr,
            hop_limit: self.hop_limit,
            repr: repr_of(self.local.port, segment),
            payload,
        })
    }

    /// Acknowledges what the socket offered: if it is `gone` (sent or dropped), the socket drops it.
    pub fn told(&mut self, gone: bool)
        ensures { self.new ≡ spec.socket_after_told gone self.old }
    {
        self.buffers.told(gone);
    }

    /// For which address the segment to send at an index is, from the first on, if there is one.
    pub fn destination_at(&self, index: usize) -> Option<IpAddress>
        ensures { result ≡ get_or (spec.destinations self.now) index None }
    {
        match self.tx().meta_at(index) {
            Some(segment) => Some(segment.remote.addr),
            None => None,
        }
    }

    /// Brings the segment to send at an index to the front; the others keep their order. Where there is none, nothing changes.
    pub fn bring_forward(&mut self, index: usize)
        ensures { self.new ≡ spec.socket_brought_forward index self.old }
    {
        self.buffers.bring_forward(index);
    }
}

impl<L: Drop> SocketOf<L> {
    ghost use Rattle.std.specs.Borrow.{sem};
    ghost use Rattle.sockets.specs.Details.TcpLending.{Settles};

    /// The first segment to send, if any, once the moment until which the socket holds back has passed. Its source is
    /// the socket's local address if that is given, otherwise the one that the context chooses. Without a source of the
    /// peer's family the segment is dropped, and `None` returned.
    pub fn offer<C: SocketContext>(&mut self, context: &C) -> Option<Packet<'_>>
        ensures* settles { sem 𝓛 (Settles L.row self.entry (C.moment context.now) (C.source_for context.now)) }
        ensures value { option_map spec.value_of result
            ≡ spec.offered_packet (C.moment context.now) (C.source_for context.now) self.old }
    {
        if context.now() < self.hold {
            return None;
        }
        let Some(src_addr) = self.source(context) else {
            self.buffers.told(true);
            return None;
        };
        self.packet(src_addr)
    }
}

/// What is kept of a segment received from an address.
fn segment_of(src_addr: IpAddress, repr: &TcpRepr) -> Segment
    ensures { result ≡ spec.segment_of src_addr repr.now }
{
    Segment {
        remote: IpEndpoint {
            addr: src_addr,
            port: repr.src_port,
        },
        control: repr.control,
        seq: repr.seq_number,
        ack: repr.ack_number,
        window: repr.window_len,
    }
}

/// The header of a segment that is sent from a port.
fn repr_of(src_port: u16, segment: &Segment) -> TcpRepr
    ensures { result ≡ spec.repr_of src_port segment.now }
{
    TcpRepr {
        src_port,
        dst_port: segment.remote.port,
        control: segment.control,
        seq_number: segment.seq,
        ack_number: segment.ack,
        window_len: segment.window,
    }
}

/// The reset that answers a segment with this many octets of payload (RFC 9293 3.5.2).
///
/// Its sequence number is the segment's acknowledgement number, or 0. It acknowledges only a SYN without an
/// acknowledgement number: the number after the SYN and the payload, modulo 2^32.
pub fn rst_reply(repr: &TcpRepr, payload_len: usize) -> TcpRepr
    ensures { result ≡ spec.reset_of repr.now payload_len }
{
    let seq_number = match repr.ack_number {
        Some(number) => number,
        None => TcpSeqNumber { bits: 0 },
    };
    let ack_number = match (repr.control, repr.ack_number) {
        (TcpControl::Syn, None) => {
            let advance = (payload_len % (1 << 32)) as u32;
            let bits = repr.seq_number.bits.wrapping_add(1).wrapping_add(advance);
            Some(TcpSeqNumber { bits })
        }
        _ => None,
    };
    TcpRepr {
        src_port: repr.dst_port,
        dst_port: repr.src_port,
        control: TcpControl::Rst,
        seq_number,
        ack_number,
        window_len: 0,
    }
}
