//! What a program chooses for a connection.

/// What a program chooses for a connection. Spans are in microseconds.
#[derive(Clone, Copy, Debug, PartialEq, Eq)]
pub struct Settings {
    /// Whether short segments wait while something is unacknowledged (RFC 9293 3.7.4).
    pub nagle: bool,
    /// How long an acknowledgement of octets in order may wait (RFC 9293 3.8.6.3).
    pub ack_delay: u64,
    /// How long nothing arrives before the peer is probed (RFC 9293 3.8.4). With `None` it never is.
    pub keep_alive: Option<u64>,
    /// How long what was sent may stay unacknowledged (RFC 9293 3.8.3). With `None` the number of tries decides.
    pub timeout: Option<u64>,
    /// The shortest retransmission time-out.
    pub shortest_timeout: u64,
    /// Whether a congestion window narrows what is sent.
    pub congestion_control: bool,
    /// How long TIME-WAIT lasts: 2 MSL (RFC 9293 3.4.2).
    pub time_wait: u64,
    /// The most octets of a segment that is received, as the MSS option tells (RFC 9293 3.7.1).
    pub own_mss: u16,
    /// The window scale that is offered (RFC 7323 2.2).
    pub own_scale: u8,
}
