//! The two queues that each socket holds.
ghost use Rattle.std.specs.Prelude.{◌≡◌, ◌≤◌, ◌++◌, length, is_ok, IfSome};
ghost use Rattle.std.specs.Option.{option_map};
ghost use Rattle.sockets.specs.Details.Buffers as spec;
ghost use Rattle.sockets.specs.Queue.{is_room, first_of};

use crate::poll_at::PollAt;
use crate::queue::{Full, Queue};
use std::marker::Model;

/// The packets received but not read yet, and the packets to send.
///
/// In contracts they are two queues.
#[derive(Drop)]
pub struct Buffers<M> {
    rx: Queue<M>,
    tx: Queue<M>,
}

impl<M> Model for Buffers<M> {
    ghost use Rattle.sockets.specs.Details.Buffers.{Buffered};

    ghost Value = { Buffered M };

    ghost view = { λ b. record { rx = b.rx; tx = b.tx } };
}

impl<M: Drop> Buffers<M> {
    /// Creates the buffers from a receive queue and a transmit queue.
    pub fn new(rx: Queue<M>, tx: Queue<M>) -> Buffers<M>
        ensures { result ≡ record { rx = rx; tx = tx } }
    {
        Buffers { rx, tx }
    }

    /// The packets received but not read yet.
    pub fn rx(&self) -> &Queue<M>
        ensures { result.now ≡ self.now.rx }
    {
        &self.rx
    }

    /// The packets to send.
    pub fn tx(&self) -> &Queue<M>
        ensures { result.now ≡ self.now.tx }
    {
        &self.tx
    }

    /// Queues a packet that was received. It is dropped if there is no room for it.
    #[inline(always)]
    pub fn process(&mut self, meta: M, octets: &[u8])
        ensures { self.new ≡ spec.buffers_after_delivery meta octets.now self.old }
    {
        let _ = self.rx.push(meta, octets);
    }

    /// Queues a packet that was received in two parts, one after the other. It is dropped if there is no room for it.
    #[inline(always)]
    pub fn process_parts(&mut self, meta: M, front: &[u8], back: &[u8])
        ensures { self.new ≡ spec.buffers_after_delivery meta (front.now ++ back.now) self.old }
    {
        let _ = self.rx.push_parts(meta, front, back);
    }

    /// The first packet received but not read yet, if any: its metadata and its octets, at most the receive queue's
    /// [`payload_capacity`](Queue::payload_capacity).
    pub fn recv(&self) -> Option<(&M, &[u8])>
        ensures value { option_map (λ p. (p.0.now, p.1.now)) result ≡ first_of self.now.rx.packets }
        ensures len { IfSome result (λ p. length p.1.now ≤ self.now.rx.limit) }
    {
        self.rx.front()
    }

    /// Drops the packet that `recv` returns, if any.
    pub fn done(&mut self)
        ensures { self.new ≡ spec.buffers_after_done self.old }
    {
        self.rx.pop();
    }

    /// Queues a packet for sending. Fails with `Full` exactly if it doesn't fit; then the queues stay unchanged.
    pub fn send(&mut self, meta: M, octets: &[u8]) -> Result<(), Full>
        ensures fits { is_ok result ≡ is_room self.old.tx (length octets.now) }
        ensures queues { self.new ≡ spec.buffers_after_send meta octets.now self.old }
    {
        self.tx.push(meta, octets)
    }

    /// Queues a packet for sending in two parts, one after the other. Fails with `Full` exactly if it doesn't fit; then the
    /// queues stay unchanged.
    pub fn send_parts(&mut self, meta: M, front: &[u8], back: &[u8]) -> Result<(), Full>
        ensures fits { is_ok result ≡ is_room self.old.tx (length (front.now ++ back.now)) }
        ensures queues { self.new ≡ spec.buffers_after_send meta (front.now ++ back.now) self.old }
    {
        self.tx.push_parts(meta, front, back)
    }

    /// The first packet to send, if any: its metadata and its octets.
    pub fn first(&self) -> Option<(&M, &[u8])>
        ensures { option_map (λ p. (p.0.now, p.1.now)) result ≡ first_of self.now.tx.packets }
    {
        self.tx.front()
    }

    /// Drops the packet that `first` returns, if it is `gone` (sent or dropped).
    pub fn told(&mut self, gone: bool)
        ensures { self.new ≡ spec.buffers_after_told gone self.old }
    {
        if gone {
            self.tx.pop();
        }
    }

    /// Brings the packet to send at an index to the front; the others keep their order. Where there is none, nothing changes.
    pub fn bring_forward(&mut self, index: usize)
        ensures { self.new ≡ spec.buffers_brought_forward index self.old }
    {
        self.tx.bring_forward(index);
    }

    /// When the socket has to be polled again, if packets may be sent at `due`.
    #[inline(always)]
    pub fn poll_at(&self, due: PollAt) -> PollAt
        ensures { result ≡ spec.poll_at due self.now }
    {
        match self.tx.front() {
            None => PollAt::Ingress,
            Some(_) => due,
        }
    }
}
