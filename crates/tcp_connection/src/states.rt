//! What a state allows, and what moves it on (RFC 9293 3.3.2, figure 5).
ghost use Rattle.std.specs.Prelude.{◌≡◌};
ghost use Rattle.tcp_machine.specs.States as states;
ghost use Rattle.tcp_machine.specs.Arrivals as arrivals;
ghost use Rattle.tcp_machine.specs.Outgoing as outgoing;
ghost use Rattle.tcp_machine.specs.Calls as calls;

use tcp_machine::state::State;

/// Whether both sides know the other's initial number (RFC 9293 3.10.7.4).
pub fn is_synchronized(state: State) -> bool
    ensures { result ≡ states.is_synchronized state }
{
    match state {
        State::Closed | State::Listen | State::SynSent | State::SynReceived => false,
        State::Established
        | State::FinWait1
        | State::FinWait2
        | State::CloseWait
        | State::Closing
        | State::LastAck
        | State::TimeWait => true,
    }
}

/// Whether octets are taken from the peer (RFC 9293 3.10.7.4, seventh check).
pub fn takes_octets(state: State) -> bool
    ensures { result ≡ states.takes_octets state }
{
    match state {
        State::Established | State::FinWait1 | State::FinWait2 => true,
        State::Closed
        | State::Listen
        | State::SynSent
        | State::SynReceived
        | State::CloseWait
        | State::Closing
        | State::LastAck
        | State::TimeWait => false,
    }
}

/// Whether the program may write (RFC 9293 3.10.2).
pub fn may_write(state: State) -> bool
    ensures { result ≡ states.may_write state }
{
    match state {
        State::SynSent | State::SynReceived | State::Established | State::CloseWait => true,
        State::Closed
        | State::Listen
        | State::FinWait1
        | State::FinWait2
        | State::Closing
        | State::LastAck
        | State::TimeWait => false,
    }
}

/// Whether octets, and the end, are sent or sent again.
pub fn sends_octets(state: State) -> bool
    ensures { result ≡ states.sends_octets state }
{
    match state {
        State::Established | State::FinWait1 | State::CloseWait | State::Closing | State::LastAck =>
            true,
        State::Closed
        | State::Listen
        | State::SynSent
        | State::SynReceived
        | State::FinWait2
        | State::TimeWait => false,
    }
}

/// Whether the own SYN isn't acknowledged.
pub fn is_opening(state: State) -> bool
    ensures { result ≡ states.is_opening state }
{
    match state {
        State::SynSent | State::SynReceived => true,
        State::Closed
        | State::Listen
        | State::Established
        | State::FinWait1
        | State::FinWait2
        | State::CloseWait
        | State::Closing
        | State::LastAck
        | State::TimeWait => false,
    }
}

/// Whether it is SYN-SENT.
pub fn is_syn_sent(state: State) -> bool
    ensures { result ≡ outgoing.is_syn_sent state }
{
    match state {
        State::SynSent => true,
        State::Closed
        | State::Listen
        | State::SynReceived
        | State::Established
        | State::FinWait1
        | State::FinWait2
        | State::CloseWait
        | State::Closing
        | State::LastAck
        | State::TimeWait => false,
    }
}

/// Whether it is SYN-RECEIVED.
pub fn is_syn_received(state: State) -> bool
    ensures { result ≡ arrivals.is_syn_received state }
{
    match state {
        State::SynReceived => true,
        State::Closed
        | State::Listen
        | State::SynSent
        | State::Established
        | State::FinWait1
        | State::FinWait2
        | State::CloseWait
        | State::Closing
        | State::LastAck
        | State::TimeWait => false,
    }
}

/// Whether it is TIME-WAIT.
pub fn is_time_wait(state: State) -> bool
    ensures { result ≡ arrivals.is_time_wait state }
{
    match state {
        State::TimeWait => true,
        State::Closed
        | State::Listen
        | State::SynSent
        | State::SynReceived
        | State::Established
        | State::FinWait1
        | State::FinWait2
        | State::CloseWait
        | State::Closing
        | State::LastAck => false,
    }
}

/// Whether it is CLOSED.
pub fn is_closed(state: State) -> bool
    ensures { result ≡ arrivals.is_closed state }
{
    match state {
        State::Closed => true,
        State::Listen
        | State::SynSent
        | State::SynReceived
        | State::Established
        | State::FinWait1
        | State::FinWait2
        | State::CloseWait
        | State::Closing
        | State::LastAck
        | State::TimeWait => false,
    }
}

/// The state after the program closed (RFC 9293 3.10.4).
pub fn after_program_closes(state: State) -> State
    ensures { result ≡ states.after_program_closes state }
{
    match state {
        State::Listen | State::SynSent => State::Closed,
        State::Established => State::FinWait1,
        State::CloseWait => State::LastAck,
        State::Closed
        | State::SynReceived
        | State::FinWait1
        | State::FinWait2
        | State::Closing
        | State::LastAck
        | State::TimeWait => state,
    }
}

/// The state after all up to the peer's end arrived (RFC 9293 3.10.7.4, eighth check).
pub fn after_peers_end(state: State) -> State
    ensures { result ≡ states.after_peers_end state }
{
    match state {
        State::Established => State::CloseWait,
        State::FinWait1 => State::Closing,
        State::FinWait2 => State::TimeWait,
        State::Closed
        | State::Listen
        | State::SynSent
        | State::SynReceived
        | State::CloseWait
        | State::Closing
        | State::LastAck
        | State::TimeWait => state,
    }
}

/// The state after the own end was acknowledged (RFC 9293 3.10.7.4, fifth check).
pub fn after_end_acknowledged(state: State) -> State
    ensures { result ≡ states.after_end_acknowledged state }
{
    match state {
        State::FinWait1 => State::FinWait2,
        State::Closing => State::TimeWait,
        State::LastAck => State::Closed,
        State::Closed
        | State::Listen
        | State::SynSent
        | State::SynReceived
        | State::Established
        | State::FinWait2
        | State::CloseWait
        | State::TimeWait => state,
    }
}

/// Whether a connection of this state is gone at once when the program closes.
pub fn closes_at_once(state: State) -> bool
    ensures { result ≡ calls.closes_at_once state }
{
    is_closed(after_program_closes(state))
}
