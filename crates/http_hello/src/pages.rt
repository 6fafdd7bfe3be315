//! The service.

use crate::answer::{Answer, answer_to};
use line_host::connections::Connections;
use line_host::limits::Limits;
use std::alloc::{AllocError, Global};
use tcp_host::calls::Handle;
use tcp_host::host::TcpHost;
use tcp_machine::state::State;

/// The port of the service.
const PORT: u16 = 80;

/// The service: its connections, and room for octets that nobody wants.
#[derive(Drop)]
pub struct Pages {
    connections: Connections,
    room: Vec<u8>,
}

impl Pages {
    /// Begins the service at a host. It fails if the memory is refused.
    pub fn new(alloc: Global, limits: &Limits, streams: &mut TcpHost) -> Result<Pages, AllocError> {
        Ok(Pages {
            connections: Connections::listen(alloc, PORT, limits, streams)?,
            room: Vec::from_elem(alloc, 0, limits.room)?,
        })
    }

    /// Accepts the connections that wait, and answers what came by each. It fails if the memory is refused.
    pub fn serve(&mut self, streams: &mut TcpHost) -> Result<(), AllocError> {
        self.connections.accept(streams)?;
        for index in (0..self.connections.len()).rev() {
            let Some(handle) = self.connections.get(index) else {
                continue;
            };
            if !attend(streams, handle, &mut self.room) {
                self.connections.release(index, streams);
            }
        }
        Ok(())
    }
}

/// Does what is to be done for a connection now. Returns whether it goes on.
fn attend(streams: &mut TcpHost, handle: Handle, room: &mut [u8]) -> bool {
    match streams.state(handle) {
        Some(State::SynSent | State::SynReceived | State::Listen) => true,
        Some(State::Established) => {
            answer(streams, handle, false, room.len());
            true
        }
        Some(State::CloseWait) => {
            answer(streams, handle, true, room.len());
            true
        }
        // It was answered, and the peer may still send: a reset would take the answer from it (RFC 9112 9.6).
        Some(State::FinWait1 | State::FinWait2) => {
            let _ = streams.recv_slice(handle, room);
            true
        }
        Some(State::Closing | State::LastAck | State::TimeWait | State::Closed) | None => false,
    }
}

/// Answers what came by a connection and closes it, once an answer is due: the request is whole, or nothing can make it one,
/// since the peer has ended (`is_over`), or as many octets came as a request has at most.
fn answer(streams: &mut TcpHost, handle: Handle, is_over: bool, most: usize) {
    let Some(octets) = streams.peek_slice(handle) else {
        return;
    };
    let due = match answer_to(octets) {
        None if is_over => Some(Answer::BadRequest),
        None if octets.len() >= most => Some(Answer::TooLarge),
        due => due,
    };
    if let Some(answer) = due {
        let _ = streams.send_slice(handle, answer.octets());
        let _ = streams.close(handle);
    }
}
