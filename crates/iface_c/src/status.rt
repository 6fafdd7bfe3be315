//! Codes: what calls answer.
ghost use Rattle.std.specs.Prelude.{◌≡◌, ◌≢◌, pos};
ghost use Rattle.iface_c.specs.Status.{code_of};

use iface_host::Refusal;

/// The call is done.
pub const OK: u32 = 0;

/// The handle owns no host.
pub const NO_HOST: u32 = 1;

/// The handle owns a host already.
pub const HAS_HOST: u32 = 2;

/// The version of IP is neither 4 nor 6, the prefix is longer than an address, or the medium is neither 0 nor 1.
pub const BAD_ARGUMENT: u32 = 3;

/// Memory is refused.
pub const NO_MEMORY: u32 = 4;

/// An own address or a hardware address that can't be one.
pub const NOT_UNICAST: u32 = 6;

/// There is no such address, route or query.
pub const NOT_THERE: u32 = 9;

/// The table is full, or would be more than full.
pub const TABLE_FULL: u32 = 10;

/// No socket of this kind is open by this number.
pub const NO_SOCKET: u32 = 11;

/// No packet came, or there is no lease.
pub const EMPTY: u32 = 15;

/// The room is too short.
pub const NO_ROOM: u32 = 16;

/// The header is of another version.
pub const BAD_VERSION: u32 = 18;

/// The handle owns no client.
pub const NO_CLIENT: u32 = 19;

/// The handle owns a client already.
pub const HAS_CLIENT: u32 = 20;

/// The handle owns no connections.
pub const NO_STREAMS: u32 = 21;

/// The handle owns connections already.
pub const HAS_STREAMS: u32 = 22;

/// A connection has these ends.
pub const IN_USE: u32 = 23;

/// The text is no name.
pub const BAD_NAME: u32 = 24;

/// There is no server to ask.
pub const NO_SERVER: u32 = 25;

/// The version of the header, `IFACE_VERSION`.
pub const VERSION: u32 = 0x000f_0000;

/// The code of a refusal.
pub fn code(refusal: Refusal) -> u32
    ensures code { result ≡ code_of refusal }
    ensures refuses { result ≢ 0 }
{
    match refusal {
        Refusal::NoMemory => 4,
        Refusal::BadMtu => 5,
        Refusal::NotUnicast => 6,
        Refusal::BadMoment => 7,
        Refusal::BadAddress => 8,
        Refusal::NotThere => 9,
        Refusal::TableFull => 10,
        Refusal::NoSocket => 11,
        Refusal::BadPort => 12,
        Refusal::TooLong => 13,
        Refusal::QueueFull => 14,
        Refusal::Empty => 15,
        Refusal::NoRoom => 16,
        Refusal::BadTimeout => 17,
        Refusal::NoRoute => 26,
    }
}
