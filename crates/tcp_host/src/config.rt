//! What is chosen for a host.

use crate::sip_hash::SipKey;
use tcp_machine::settings::Settings;

/// How long a connection goes on of which its program let go, unless a host is made with another time, in microseconds: two
/// minutes. For 100 s at least what it sent last is sent again (RFC 9293 3.8.3).
pub const RELEASE_TIMEOUT: u64 = 120_000_000;

/// How long nothing arrives before the peer of a connection is probed that a listener began, unless a host is made with another
/// span, in microseconds: two minutes. So one that is gone without a word is given up after twenty.
pub const ACCEPTED_KEEP_ALIVE: u64 = 120_000_000;

/// What is chosen for a host of connections.
#[derive(Clone, Copy, Debug)]
pub struct Config {
    /// How many octets each connection may hold that aren't acknowledged, at most 2^30.
    pub send_room: usize,
    /// How many octets each connection may hold that aren't read, at most 2^30.
    pub receive_room: usize,
    /// The most octets of a segment over IPv4: what the link carries, less 40.
    pub mss_v4: u16,
    /// The same over IPv6: what the link carries, less 60.
    pub mss_v6: u16,
    /// What each connection begins with. The host sets `own_mss` by the family.
    pub settings: Settings,
    /// How long nothing arrives before the peer of a connection is probed that a listener began, in microseconds (RFC 9293 3.8.4):
    /// in place of `settings.keep_alive`. With `None` it never is.
    pub accepted_keep_alive: Option<u64>,
    /// How long a connection may go on of which its program let go, in microseconds: then it is aborted, whatever its peer does.
    pub release_timeout: u64,
    /// The secret of initial numbers (RFC 6528 3).
    pub number_key: [u8; 32],
    /// The secret by which ends are hashed.
    pub table_key: SipKey,
}
