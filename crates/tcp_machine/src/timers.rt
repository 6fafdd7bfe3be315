//! What a connection does by itself, and when.

/// A segment whose round trip is measured.
#[derive(Clone, Copy, Debug, PartialEq, Eq)]
pub struct Measured {
    /// The position after it: its acknowledgement ends the measurement.
    pub position: u64,
    /// When it was sent, in microseconds.
    pub sent_at: u64,
}

/// The timers of a connection, as instants in microseconds, and what they count.
#[derive(Clone, Copy, Debug, PartialEq, Eq)]
pub struct Timers {
    /// When what isn't acknowledged is sent again, or a closed window is probed.
    pub resend_at: Option<u64>,
    /// How often that happened since something new was acknowledged.
    pub tries: u64,
    /// The segment whose round trip is measured.
    pub measured: Option<Measured>,
    /// When something arrived last.
    pub heard_at: u64,
    /// How often the peer was probed since.
    pub probes: u64,
    /// When something arrived last, or a silent peer was asked whether it is still there, whichever came later.
    pub idle_since: u64,
    /// When octets, or the end, were sent last.
    pub sent_at: u64,
    /// Since when the peer has let something wait that was sent.
    pub waiting_since: Option<u64>,
    /// When TIME-WAIT ends.
    pub ends_at: Option<u64>,
}

/// When an acknowledgement is owed.
#[derive(Clone, Copy, Debug, PartialEq, Eq)]
pub enum Owed {
    /// None is owed.
    Nothing,
    /// At this instant at the latest.
    By(u64),
    /// In the next segment.
    AtOnce,
}

/// A segment that is to be sent once, whatever the windows are.
#[derive(Clone, Copy, Debug, PartialEq, Eq)]
pub enum Pending {
    /// There is none.
    Empty,
    /// An acknowledgement in answer to a segment that may be an attacker's (RFC 5961).
    Challenge,
    /// The own SYN once more, in answer to the peer's, which came once more (RFC 9293 3.10.7.4).
    SynAgain,
    /// An empty segment before the next position (RFC 9293 3.8.4).
    KeepAlive,
    /// What the window has room for, or one octet beyond a closed one (RFC 9293 3.8.6.1, 3.8.6.2.1).
    Probe,
    /// The first unacknowledged segment once more (RFC 5681 3.2), or the next hole of a recovery that blocks guide (RFC 6675 5).
    Resend,
    /// A reset with this number and no acknowledgement (RFC 9293 3.10.7).
    Reset(u32),
}

/// Why a connection ended before both sides had closed.
#[derive(Clone, Copy, Debug, PartialEq, Eq)]
pub enum Ending {
    /// The peer sent a reset.
    ByPeer,
    /// The peer answered the own SYN by a reset.
    Refused,
    /// What was sent stayed unacknowledged, or the peer didn't answer probes.
    TimedOut,
    /// The program aborted.
    Aborted,
    /// The peer can't be reached: a router, its host or the own link said so while the connection was being opened.
    Unreachable,
}
