//! Why a socket refuses a datagram or a segment for sending.
ghost use Rattle.std.specs.Prelude.{◌≡◌};
ghost use Rattle.sockets.specs.Details.SendError as spec;

use crate::endpoint::IpEndpoint;
use thiserror::Error;

/// Why a datagram or a segment was not queued. It is displayed as its name.
#[derive(Clone, Copy, Debug, PartialEq, Eq, Error)]
pub enum SendError {
    /// The remote address is 0.0.0.0 or ::.
    #[error("UnspecifiedAddress")]
    UnspecifiedAddress,
    /// The remote port is 0.
    #[error("UnspecifiedPort")]
    UnspecifiedPort,
    /// The socket's own port is 0.
    #[error("Unbound")]
    Unbound,
    /// The payload has more than 65,495 octets.
    #[error("TooLong")]
    TooLong,
    /// There is no room for it now.
    #[error("Full")]
    Full,
}

/// The maximum payload length of a datagram or a segment, in octets. With the longer ones of the headers before it,
/// IPv4's and TCP's, that makes 65,535.
pub const MAX_PAYLOAD_LEN: usize = 65495;

// Why a payload of `len` octets to an endpoint, from a port, isn't queued, if there is a reason.
pub(crate) fn refusal(
    remote: &IpEndpoint,
    own_port: u16,
    len: usize,
    fits: bool,
) -> Option<SendError>
    ensures { result ≡ spec.refusal remote.now own_port len fits }
{
    if remote.addr.is_unspecified() {
        Some(SendError::UnspecifiedAddress)
    } else if remote.port == 0 {
        Some(SendError::UnspecifiedPort)
    } else if own_port == 0 {
        Some(SendError::Unbound)
    } else if len > MAX_PAYLOAD_LEN {
        Some(SendError::TooLong)
    } else if !fits {
        Some(SendError::Full)
    } else {
        None
    }
}
