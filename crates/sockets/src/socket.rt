//! The kinds of sockets as one type.
ghost use Rattle.std.specs.Prelude.{◌≡◌, Option, None, get_or, IfSome, is_some};
ghost use Rattle.std.specs.Option.{option_copied, option_copied_mut};
ghost use Rattle.std.specs.Borrow.{sem, LendsIf};

use crate::context::SocketContext;
use crate::poll_at::PollAt;
use crate::{icmp, raw, tcp, udp};
use ip_wire::IpAddress;

/// A socket of any kind, with its lifetime as a type parameter.
#[derive(Drop)]
pub enum SocketOf<L> {
    Raw(raw::SocketOf<L>),
    Icmp(icmp::SocketOf<L>),
    Udp(udp::SocketOf<L>),
    Tcp(tcp::SocketOf<L>),
}

/// A socket of any kind.
pub type Socket<'a> = SocketOf<&'a ()>;

/// A packet that a socket offers for sending; its payload stays in the socket.
#[derive(Clone, Copy)]
pub enum Offer<'p> {
    Raw(raw::Packet<'p>),
    Icmp(icmp::Packet<'p>),
    Udp(udp::Packet<'p>),
    Tcp(tcp::Packet<'p>),
}

impl<L: Drop> SocketOf<L> {
    ghost use Rattle.std.specs.Option.{option_map};
    ghost use Rattle.sockets.specs.Kinds as spec;
    ghost use Rattle.sockets.specs.Details.KindsLending.{Settles};

    /// The socket's own port, 0 if it is not bound. `None` for raw and ICMP sockets, which have no port.
    #[inline(always)]
    pub fn own_port(&self) -> Option<u16>
        ensures { result ≡ spec.own_port self.now }
    {
        match self {
            SocketOf::Raw(_) | SocketOf::Icmp(_) => None,
            SocketOf::Udp(udp) => Some(udp.endpoint().port),
            SocketOf::Tcp(tcp) => Some(tcp.local().port),
        }
    }

    /// When the socket has to be polled again.
    #[inline(always)]
    pub fn poll_at(&self) -> PollAt
        ensures { result ≡ spec.poll_at self.now }
    {
        match self {
            SocketOf::Raw(raw) => raw.poll_at(),
            SocketOf::Icmp(icmp) => icmp.poll_at(),
            SocketOf::Udp(udp) => udp.poll_at(),
            SocketOf::Tcp(tcp) => tcp.poll_at(),
        }
    }

    /// The first packet to send, if it can be sent now. A packet that can't be sent at all is dropped, and `None`
    /// returned.
    pub fn offer<C: SocketContext>(&mut self, context: &C) -> Option<Offer<'_>>
        ensures* settles { sem 𝓛 (Settles L.row self.entry (C.moment context.now) (C.source_for context.now)) }
        ensures value { option_map spec.value_of result
            ≡ spec.offered_packet (C.moment context.now) (C.source_for context.now) self.old }
    {
        match self {
            SocketOf::Raw(raw) => match raw.offer() {
                Some(packet) => Some(Offer::Raw(packet)),
                None => None,
            },
            SocketOf::Icmp(icmp) => match icmp.offer(context) {
                Some(packet) => Some(Offer::Icmp(packet)),
                None => None,
            },
            SocketOf::Udp(udp) => match udp.offer(context) {
                Some(packet) => Some(Offer::Udp(packet)),
                None => None,
            },
            SocketOf::Tcp(tcp) => match tcp.offer(context) {
                Some(packet) => Some(Offer::Tcp(packet)),
                None => None,
            },
        }
    }

    /// Acknowledges what the socket offered: if it is `gone` (sent or dropped), the socket drops it.
    pub fn told(&mut self, gone: bool)
        ensures { self.new ≡ spec.socket_after_told gone self.old }
    {
        match self {
            SocketOf::Raw(raw) => raw.told(gone),
            SocketOf::Icmp(icmp) => icmp.told(gone),
            SocketOf::Udp(udp) => udp.told(gone),
            SocketOf::Tcp(tcp) => tcp.told(gone),
        }
    }

    /// For which address the packet to send at an index is, from the first on, if there is one; of a raw socket also
    /// only if that is a packet of its version and protocol.
    pub fn destination_at(&self, index: usize) -> Option<IpAddress>
        ensures { result ≡ get_or (spec.destinations self.now) index None }
    {
        match self {
            SocketOf::Raw(raw) => raw.destination_at(index),
            SocketOf::Icmp(icmp) => icmp.destination_at(index),
            SocketOf::Udp(udp) => udp.destination_at(index),
            SocketOf::Tcp(tcp) => tcp.destination_at(index),
        }
    }

    /// Brings the packet to send at an index to the front; the others keep their order. Where there is none, nothing changes.
    pub fn bring_forward(&mut self, index: usize)
        ensures { self.new ≡ spec.socket_brought_forward index self.old }
    {
        match self {
            SocketOf::Raw(raw) => raw.bring_forward(index),
            SocketOf::Icmp(icmp) => icmp.bring_forward(index),
            SocketOf::Udp(udp) => udp.bring_forward(index),
            SocketOf::Tcp(tcp) => tcp.bring_forward(index),
        }
    }
}

/// A kind of socket, with its lifetime as a type parameter.
pub trait AnySocketOf<L>: Sized + Drop {
    ghost use Rattle.sockets.specs.declared.socket.SocketOf.{SocketOf};
    ghost use Rattle.sockets.specs.contracts.socket.SocketOf.{the_row as socket_row};
    ghost use Rattle.sockets.specs.Kinds.{own_port};

    /// A socket of this kind as a socket of any kind.
    ghost up: { Self → SocketOf L };

    /// The socket of this kind that a socket of any kind is, `None` if it is of another kind.
    ghost down: { SocketOf L → Option Self };

    /// Converts into a socket of any kind.
    fn upcast(self) -> SocketOf<L>
        ensures { result ≡ up self };

    /// The socket as one of this kind, if it is one.
    fn downcast(socket: &SocketOf<L>) -> Option<&Self>
        ensures { option_copied result ≡ down socket.now };

    /// Mutable access to the socket as one of this kind, if it is one. Whatever is written there, a kind with ports
    /// still has ports, and one without still has none.
    fn downcast_mut(socket: &mut SocketOf<L>) -> Option<&mut Self>
        ensures* lends { sem 𝓛 (LendsIf (socket_row L.row) Self.row socket.entry result up socket.old) }
        ensures value { option_copied_mut result ≡ down socket.old }
        ensures whole { IfSome (option_copied_mut result) (λ s. socket.old ≡ up s) }
        ensures ports { IfSome (option_copied_mut result)
            (λ s. (other : Self) → is_some (own_port (up other)) ≡ is_some (own_port socket.old)) };
}

/// A kind of socket.
pub trait AnySocket<'a>: AnySocketOf<&'a ()> {}

impl<'a, T: AnySocketOf<&'a ()>> AnySocket<'a> for T {}

impl<L: Drop> AnySocketOf<L> for raw::SocketOf<L> {
    ghost use Rattle.sockets.specs.Kinds.{up_raw, down_raw};

    ghost up = { up_raw };

    ghost down = { down_raw };

    fn upcast(self) -> SocketOf<L> {
        SocketOf::Raw(self)
    }

    fn downcast(socket: &SocketOf<L>) -> Option<&Self> {
        if let SocketOf::Raw(s) = socket {
            Some(s)
        } else {
            None
        }
    }

    fn downcast_mut(socket: &mut SocketOf<L>) -> Option<&mut Self> {
        socket.as_raw_mut()
    }
}

impl<L: Drop> AnySocketOf<L> for icmp::SocketOf<L> {
    ghost use Rattle.sockets.specs.Kinds.{up_icmp, down_icmp};

    ghost up = { up_icmp };

    ghost down = { down_icmp };

    fn upcast(self) -> SocketOf<L> {
        SocketOf::Icmp(self)
    }

    fn downcast(socket: &SocketOf<L>) -> Option<&Self> {
        if let SocketOf::Icmp(s) = socket {
            Some(s)
        } else {
            None
        }
    }

    fn downcast_mut(socket: &mut SocketOf<L>) -> Option<&mut Self> {
        socket.as_icmp_mut()
    }
}

impl<L: Drop> AnySocketOf<L> for udp::SocketOf<L> {
    ghost use Rattle.sockets.specs.Kinds.{up_udp, down_udp};

    ghost up = { up_udp };

    ghost down = { down_udp };

    fn upcast(self) -> SocketOf<L> {
        SocketOf::Udp(self)
    }

    fn downcast(socket: &SocketOf<L>) -> Option<&Self> {
        if let SocketOf::Udp(s) = socket {
            Some(s)
        } else {
            None
        }
    }

    fn downcast_mut(socket: &mut SocketOf<L>) -> Option<&mut Self> {
        socket.as_udp_mut()
    }
}

impl<L: Drop> AnySocketOf<L> for tcp::SocketOf<L> {
    ghost use Rattle.sockets.specs.Kinds.{up_tcp, down_tcp};

    ghost up = { up_tcp };

    ghost down = { down_tcp };

    fn upcast(self) -> SocketOf<L> {
        SocketOf::Tcp(self)
    }

    fn downcast(socket: &SocketOf<L>) -> Option<&Self> {
        if let SocketOf::Tcp(s) = socket {
            Some(s)
        } else {
            None
        }
    }

    fn downcast_mut(socket: &mut SocketOf<L>) -> Option<&mut Self> {
        socket.as_tcp_mut()
    }
}

impl<L> SocketOf<L> {
    ghost use Rattle.sockets.specs.Kinds as kinds;
    ghost use Rattle.sockets.specs.contracts.socket.SocketOf.{the_row as socket_row};
    ghost use Rattle.sockets.specs.contracts.raw.SocketOf.{the_row as raw_row};
    ghost use Rattle.sockets.specs.contracts.icmp.SocketOf.{the_row as icmp_row};
    ghost use Rattle.sockets.specs.contracts.udp.SocketOf.{the_row as udp_row};
    ghost use Rattle.sockets.specs.contracts.tcp.SocketOf.{the_row as tcp_row};

    // The raw socket, if it is one.
    fn as_raw_mut(&mut self) -> Option<&mut raw::SocketOf<L>>
        ensures* lends { sem 𝓛 (LendsIf (socket_row L.row) (raw_row L.row) self.entry result kinds.up_raw self.old) }
        ensures value { option_copied_mut result ≡ kinds.down_raw self.old }
        ensures whole { IfSome (option_copied_mut result) (λ s. self.old ≡ kinds.up_raw s) }
    {
        if let SocketOf::Raw(s) = self {
            Some(s)
        } else {
            None
        }
    }

    // The ICMP socket, if it is one.
    fn as_icmp_mut(&mut self) -> Option<&mut icmp::SocketOf<L>>
        ensures* lends { sem 𝓛 (LendsIf (socket_row L.row) (icmp_row L.row) self.entry result kinds.up_icmp self.old) }
        ensures value { option_copied_mut result ≡ kinds.down_icmp self.old }
        ensures whole { IfSome (option_copied_mut result) (λ s. self.old ≡ kinds.up_icmp s) }
    {
        if let SocketOf::Icmp(s) = self {
            Some(s)
        } else {
            None
        }
    }

    // The UDP socket, if it is one.
    fn as_udp_mut(&mut self) -> Option<&mut udp::SocketOf<L>>
        ensures* lends { sem 𝓛 (LendsIf (socket_row L.row) (udp_row L.row) self.entry result kinds.up_udp self.old) }
        ensures value { option_copied_mut result ≡ kinds.down_udp self.old }
        ensures whole { IfSome (option_copied_mut result) (λ s. self.old ≡ kinds.up_udp s) }
    {
        if let SocketOf::Udp(s) = self {
            Some(s)
        } else {
            None
        }
    }

    // The TCP socket, if it is one.
    fn as_tcp_mut(&mut self) -> Option<&mut tcp::SocketOf<L>>
        ensures* lends { sem 𝓛 (LendsIf (socket_row L.row) (tcp_row L.row) self.entry result kinds.up_tcp self.old) }
        ensures value { option_copied_mut result ≡ kinds.down_tcp self.old }
        ensures whole { IfSome (option_copied_mut result) (λ s. self.old ≡ kinds.up_tcp s) }
    {
        if let SocketOf::Tcp(s) = self {
            Some(s)
        } else {
            None
        }
    }
}
