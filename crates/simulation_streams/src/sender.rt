//! A program that sends a stream.

use crate::pattern;
use simulation_script::script::Stream;
use tcp_host::calls::{ConnectError, Handle};
use tcp_host::host::TcpHost;
use tcp_host::iss::Endpoints;
use tcp_machine::state::State;
use tcp_machine::timers::Ending;

/// The port from which the first stream of a script connects; the next one has the next port.
pub const FIRST_PORT: u16 = 49_152;

/// The most pieces that it writes in a turn.
const MOST_PIECES: usize = 64;

/// What a stream's sender is about.
#[derive(Clone, Copy, Debug, PartialEq, Eq)]
pub enum Stage {
    /// It hasn't begun.
    Waits,
    /// It writes by this connection.
    Writes(Handle),
    /// It has written all, and closed its side.
    Closed(Handle),
    /// Both sides have closed.
    Done,
    /// The connection wasn't opened.
    Unopened(ConnectError),
    /// The connection ended early at a time, in microseconds.
    Failed(Ending, u64),
}

/// A program that sends a stream: it connects, writes, and closes.
#[derive(Drop)]
pub struct Sender {
    /// The number of the stream in the script.
    pub number: usize,
    /// The ends of its connection.
    pub endpoints: Endpoints,
    /// What it is about.
    pub stage: Stage,
    /// How many octets its connection took.
    pub written: u64,
    // How many it has to send.
    octets: u64,
    // When it connects, in microseconds.
    start: u64,
}

/// The ends of the connection of a stream, by the stream's number.
pub fn ends_of(stream: &Stream, number: usize) -> Endpoints {
    Endpoints {
        local_addr: stream.local,
        local_port: FIRST_PORT.saturating_add((number % 16_384) as u16),
        remote_addr: stream.remote.addr,
        remote_port: stream.remote.port,
    }
}

impl Sender {
    /// The sender of a stream of this number.
    pub fn new(stream: &Stream, number: usize) -> Sender {
        Sender {
            number,
            endpoints: ends_of(stream, number),
            stage: Stage::Waits,
            written: 0,
            octets: stream.octets,
            start: stream.start,
        }
    }

    /// When it begins, in microseconds; `None` if it did.
    pub fn begins_at(&self) -> Option<u64> {
        match self.stage {
            Stage::Waits => Some(self.start),
            _ => None,
        }
    }

    /// Does what is to be done at a time.
    pub fn act(&mut self, now: u64, host: &mut TcpHost, piece: &mut [u8]) {
        if self.stage == Stage::Waits && self.start <= now {
            self.stage = match host.connect(now, &self.endpoints) {
                Ok(handle) => Stage::Writes(handle),
                Err(error) => Stage::Unopened(error),
            };
        }
        match self.stage {
            Stage::Writes(handle) => {
                self.write(handle, host, piece);
                self.close(handle, host);
                self.end(handle, now, host);
            }
            Stage::Closed(handle) => self.end(handle, now, host),
            Stage::Waits | Stage::Done | Stage::Unopened(_) | Stage::Failed(..) => {}
        }
    }

    /// Writes as much as there is room for.
    fn write(&mut self, handle: Handle, host: &mut TcpHost, piece: &mut [u8]) {
        for _ in 0..MOST_PIECES {
            let left = self.octets.saturating_sub(self.written);
            let count = piece.len().min(usize::try_from(left).unwrap_or(usize::MAX));
            let Some(octets) = piece.get_mut(..count) else {
                return;
            };
            pattern::fill(self.endpoints.local_port, self.written, octets);
            let taken = host.send_slice(handle, octets).unwrap_or(0);
            self.written = self.written.saturating_add(taken as u64);
            if taken == 0 {
                return;
            }
        }
    }

    /// Closes its side once all is written and the handshake is complete: what was written goes before the end.
    fn close(&mut self, handle: Handle, host: &mut TcpHost) {
        if self.written < self.octets {
            return;
        }
        if let Some(State::Established | State::CloseWait) = host.state(handle) {
            let _ = host.close(handle);
            self.stage = Stage::Closed(handle);
        }
    }

    /// Lets go of its connection once that has ended.
    fn end(&mut self, handle: Handle, now: u64, host: &mut TcpHost) {
        if let Some(ending) = host.ending(handle) {
            self.stage = Stage::Failed(ending, now);
        } else if let Some(State::TimeWait | State::Closed) = host.state(handle) {
            self.stage = Stage::Done;
        } else {
            return;
        }
        let _ = host.release(handle);
    }
}
