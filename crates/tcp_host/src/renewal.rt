//! Which SYN reopens a connection in TIME-WAIT (RFC 9293 3.6.1).
ghost use Rattle.std.specs.Prelude.{◌≡◌};
ghost use Rattle.tcp_machine.specs.Outgoing.{SendAck, segment_for};
ghost use Rattle.tcp_connection.specs.Actions.{header_of};
ghost use Rattle.tcp_host.specs.Renewal as spec;
ghost use Rattle.tcp_host.specs.Examples.Renewals.{Renewed, NotRenewed};

use tcp_connection::connection::Connection;
use tcp_connection::outgoing::{Action, Header};
use tcp_connection::states::is_time_wait;

/// Whether a connection with these initial numbers, the peer's and the own one, may follow this one: it is in TIME-WAIT, and each
/// is larger than all that it received or sent (RFC 9293 3.6.1, RFC 6191 2).
pub fn is_renewed_by(connection: &Connection, peers: u32, own: u32) -> bool
    ensures { result ≡ spec.is_renewed_by peers own connection.now }
{
    if !is_time_wait(connection.state()) {
        return false;
    }
    let next = acknowledgement(connection);
    match next.ack {
        Some(expected) => is_from(expected, peers) && is_from(next.number, own),
        None => false,
    }
}

/// The header of an acknowledgement alone: it tells both sides' next numbers.
fn acknowledgement(connection: &Connection) -> Header
    ensures { result ≡ header_of (segment_for SendAck connection.now) }
{
    connection.header(&Action::SendAck)
}

/// Whether a number is another one, or less than 2^31 behind it.
fn is_from(first: u32, number: u32) -> bool
    ensures { result ≡ spec.is_from first number }
{
    number.wrapping_sub(first) < 1 << 31
}

/// Worked examples of numbers that reopen a connection, and of those that don't.
pub fn renewals()
    ensures renewed { Renewed }
    ensures none { NotRenewed }
{}
