//! Answers to segments that belong to no connection (RFC 9293 3.10.7.1, RFC 4987 3.6).
ghost use Rattle.std.specs.Prelude.{◌≡◌, ◌<◌, ◌^◌};
ghost use Rattle.tcp_host.specs.Resets as spec;

use tcp_connection::outgoing::Header;
use tcp_connection::segment::Segment;

/// What answers a segment that belongs to no connection.
#[derive(Clone, Copy, Debug, PartialEq, Eq)]
pub enum Reply {
    /// A reset, as nobody wants the segment.
    Reset(Reset),
    /// The SYN-ACK of a connection of which nothing is kept: its number is a cookie.
    Cookie(SynAck),
}

/// A SYN-ACK that no connection sends.
#[derive(Clone, Copy, Debug, PartialEq, Eq)]
pub struct SynAck {
    pub header: Header,
    /// The MSS option: the most octets of a segment that this host takes.
    pub mss: u16,
}

/// The numbers of a reset that is owed.
#[derive(Clone, Copy, Debug, PartialEq, Eq)]
pub struct Reset {
    /// SEG.SEQ.
    pub number: u32,
    /// SEG.ACK, if it has one.
    pub ack: Option<u32>,
}

/// The reset that answers a segment with so many octets which belongs to no connection (RFC 9293 3.10.7.1). None answers a
/// reset.
pub fn reset_for(segment: &Segment, len: usize) -> Option<Reset>
    requires { len < 2 ^ 32 }
    ensures { result ≡ spec.reset_for segment.now len }
{
    if segment.rst {
        return None;
    }
    Some(match segment.ack {
        Some(number) => Reset { number, ack: None },
        None => {
            let end = u64::from(segment.number) + length_of(segment, len);
            Reset {
                number: 0,
                ack: Some((end % (1 << 32)) as u32),
            }
        }
    })
}

// SEG.LEN.
fn length_of(segment: &Segment, len: usize) -> u64
    requires { len < 2 ^ 32 }
    ensures value { result ≡ spec.length_of segment.now len }
    ensures few { result < 2 ^ 33 }
{
    len as u64 + u64::from(segment.syn) + u64::from(segment.fin)
}

/// Whether a segment begins a connection of a listener (RFC 9293 3.10.7.2).
pub fn begins(segment: &Segment) -> bool
    ensures { result ≡ spec.begins segment.now }
{
    segment.syn && !segment.rst && segment.ack.is_none()
}
