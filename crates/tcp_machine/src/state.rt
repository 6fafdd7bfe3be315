//! The states of a connection (RFC 9293 3.3.2).

use std::fmt;

/// The state of a connection, by the names of RFC 9293 3.3.2.
#[derive(Clone, Copy, Debug, PartialEq, Eq)]
pub enum State {
    /// There is no connection.
    Closed,
    /// A connection request of any peer is awaited.
    Listen,
    /// A SYN was sent, and the peer's is awaited.
    SynSent,
    /// The peer's SYN arrived, and the acknowledgement of the own one is awaited.
    SynReceived,
    /// Octets go both ways.
    Established,
    /// The program closed, and the end isn't acknowledged.
    FinWait1,
    /// The own end is acknowledged, and the peer's is awaited.
    FinWait2,
    /// The peer's end arrived, and the program hasn't closed.
    CloseWait,
    /// Both ends were sent, and the own one isn't acknowledged. The program closed first.
    Closing,
    /// Both ends were sent, and the own one isn't acknowledged. The peer closed first.
    LastAck,
    /// All is acknowledged. Segments that may still be on their way are awaited.
    TimeWait,
}

impl fmt::Display for State {
    /// The name of RFC 9293.
    fn fmt<W: fmt::Write>(&self, f: &mut fmt::Formatter<W>) -> fmt::Result {
        f.write_str(match self {
            State::Closed => "CLOSED",
            State::Listen => "LISTEN",
            State::SynSent => "SYN-SENT",
            State::SynReceived => "SYN-RECEIVED",
            State::Established => "ESTABLISHED",
            State::FinWait1 => "FIN-WAIT-1",
            State::FinWait2 => "FIN-WAIT-2",
            State::CloseWait => "CLOSE-WAIT",
            State::Closing => "CLOSING",
            State::LastAck => "LAST-ACK",
            State::TimeWait => "TIME-WAIT",
        })
    }
}
