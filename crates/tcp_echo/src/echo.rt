//! The service.

use line_host::connections::Connections;
use line_host::limits::Limits;
use std::alloc::{AllocError, Global};
use tcp_host::calls::{Handle, WrongHandle};
use tcp_host::host::TcpHost;
use tcp_machine::state::State;

/// The port of the service (RFC 862).
const PORT: u16 = 7;

/// How many octets of a connection go back at once.
const PIECE: usize = 16_384;

/// The service: its connections, and room for octets on their way back.
#[derive(Drop)]
pub struct Echo {
    connections: Connections,
    piece: Vec<u8>,
}

impl Echo {
    /// Begins the service at a host. It fails if the memory is refused.
    pub fn new(alloc: Global, limits: &Limits, streams: &mut TcpHost) -> Result<Echo, AllocError> {
        Ok(Echo {
            connections: Connections::listen(alloc, PORT, limits, streams)?,
            piece: Vec::from_elem(alloc, 0, PIECE)?,
        })
    }

    /// Accepts the connections that wait, and sends back what came by each. It fails if the memory is refused.
    pub fn serve(&mut self, streams: &mut TcpHost) -> Result<(), AllocError> {
        self.connections.accept(streams)?;
        for index in (0..self.connections.len()).rev() {
            let Some(handle) = self.connections.get(index) else {
                continue;
            };
            if !send_back(streams, handle, &mut self.piece) {
                self.connections.release(index, streams);
            }
        }
        Ok(())
    }
}

/// Sends back what came by a connection, as much as there is room for, and its end. Returns whether more may come.
fn send_back(streams: &mut TcpHost, handle: Handle, piece: &mut [u8]) -> bool {
    let Some(octets) = streams.peek_slice(handle) else {
        return false;
    };
    let count = octets.len().min(piece.len());
    if count > 0 {
        piece[..count].copy_from_slice(&octets[..count]);
        let _ = pass(streams, handle, &mut piece[..count]);
    }
    match streams.state(handle) {
        None | Some(State::Closed) => false,
        Some(State::CloseWait) if is_all_read(streams, handle) => {
            let _ = streams.close(handle);
            false
        }
        Some(_) => true,
    }
}

/// Sends octets that were read before they are taken from what came: as many as there is room for.
fn pass(streams: &mut TcpHost, handle: Handle, piece: &mut [u8]) -> Result<(), WrongHandle> {
    let count = streams.send_slice(handle, piece)?;
    if let Some(taken) = piece.get_mut(..count) {
        streams.recv_slice(handle, taken)?;
    }
    Ok(())
}

/// Whether a connection has no octets that can be read.
fn is_all_read(streams: &TcpHost, handle: Handle) -> bool {
    match streams.peek_slice(handle) {
        Some(octets) => octets.is_empty(),
        None => true,
    }
}
