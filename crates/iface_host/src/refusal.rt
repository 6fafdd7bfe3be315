//! Why a call is refused.

use std::alloc::AllocError;

/// Why a call is refused. A refused call changes nothing.
#[derive(Clone, Copy, Debug, PartialEq, Eq)]
pub enum Refusal {
    /// Memory was refused.
    NoMemory,
    /// The longest packet is shorter than 576 octets, or longer than fits into a frame of 1,514 octets.
    BadMtu,
    /// An own address is neither unicast nor unspecified, or the hardware address isn't unicast.
    NotUnicast,
    /// The moment is below 0 or above 2^62 microseconds.
    BadMoment,
    /// The destination is unspecified, or the group isn't one.
    BadAddress,
    /// There is no such address or route.
    NotThere,
    /// The table of addresses, routes, groups or sockets is full.
    TableFull,
    /// No socket of this kind is open by this number.
    NoSocket,
    /// The port is 0.
    BadPort,
    /// The frame is longer than the link carries, or the packet longer than is sent.
    TooLong,
    /// The queue has no room for the packet.
    QueueFull,
    /// No packet came.
    Empty,
    /// The caller's room is too short.
    NoRoom,
    /// Fragments are to wait no time, or longer than a day.
    BadTimeout,
    /// No network of the host and no route has the destination.
    NoRoute,
}

impl From<AllocError> for Refusal {
    ghost use Rattle.std.specs.Prelude.{◌≡◌};
    ghost use Rattle.iface_host.specs.declared.refusal.Refusal.TheVariants.{NoMemory};

    ghost from_gives = { λ _ refusal. refusal ≡ NoMemory };

    fn from(_: AllocError) -> Refusal {
        Refusal::NoMemory
    }
}
