//! A program that receives a stream.
ghost use Rattle.std.specs.Prelude.{◌≡◌, ◌+◌, ◌-◌, ◌^◌, ℕ, min, length, Some, None, IfSome};
ghost use Rattle.simulation_streams.specs.Pattern.{AreFrom, IsFirstWrong};

use crate::pattern;
use tcp_host::calls::Handle;
use tcp_host::host::TcpHost;
use tcp_host::iss::Endpoints;
use tcp_machine::state::State;

/// The most pieces that it reads in a turn.
const MOST_PIECES: usize = 64;

/// A program that receives a stream: it reads all, compares it, and closes at its end.
#[derive(Drop)]
pub struct Receiver {
    /// The ends of its connection.
    pub endpoints: Endpoints,
    /// How many octets it read.
    pub received: u64,
    /// The place of the first octet that wasn't the stream's, if there was one.
    pub wrong: Option<u64>,
    /// When it read the end, in microseconds, if it did.
    pub ended_at: Option<u64>,
    // Its connection, until it lets go of that.
    handle: Option<Handle>,
}

impl Receiver {
    /// The receiver of what comes by a connection that was accepted.
    pub fn new(handle: Handle, endpoints: Endpoints) -> Receiver {
        Receiver {
            endpoints,
            received: 0,
            wrong: None,
            ended_at: None,
            handle: Some(handle),
        }
    }

    /// Does what is to be done at a time.
    pub fn act(&mut self, now: u64, host: &mut TcpHost, piece: &mut [u8]) {
        let Some(handle) = self.handle else {
            return;
        };
        let has_read_all = self.read(handle, host, piece);
        match host.state(handle) {
            Some(State::CloseWait) if has_read_all && self.ended_at.is_none() => {
                self.ended_at = Some(now);
                let _ = host.close(handle);
            }
            Some(State::LastAck | State::Closed) | None => {
                let _ = host.release(handle);
                self.handle = None;
            }
            Some(_) => {}
        }
    }

    /// Reads what came, and compares it. Returns whether it was all.
    fn read(&mut self, handle: Handle, host: &mut TcpHost, piece: &mut [u8]) -> bool {
        for _ in 0..MOST_PIECES {
            let count = host.recv_slice(handle, piece).unwrap_or(0);
            match piece.get(..count) {
                Some(octets) if count != 0 => self.compare(octets),
                _ => return true,
            }
        }
        false
    }

    /// Compares the next octets.
    fn compare(&mut self, octets: &[u8])
        ensures received { self.new.received ≡ min (self.old.received + length octets.now) (2 ^ 64 - 1) }
        ensures known { IfSome self.old.wrong (λ place. self.new.wrong ≡ Some place) }
        ensures right { self.old.wrong ≡ None → self.new.wrong ≡ None →
            AreFrom self.old.endpoints.remote_port self.old.received (length octets.now) octets.now }
        ensures wrong { self.old.wrong ≡ None → IfSome self.new.wrong (λ place. (i : ℕ) ×
            IsFirstWrong self.old.endpoints.remote_port self.old.received octets.now i × (place ≡ min (self.old.received + i) (2 ^ 64 - 1))) }
    {
        if self.wrong.is_none() {
            let wrong = pattern::first_wrong(self.endpoints.remote_port, self.received, octets);
            self.wrong = wrong.map(|index| self.received.saturating_add(index as u64));
        }
        self.received = self.received.saturating_add(octets.len() as u64);
    }
}
