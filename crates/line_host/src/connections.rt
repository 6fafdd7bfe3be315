//! The connections of a service.

use crate::limits::Limits;
use std::alloc::{AllocError, Global};
use tcp_host::calls::Handle;
use tcp_host::host::TcpHost;

/// The connections that a service has accepted, and the listener from which it accepts them.
#[derive(Drop)]
pub struct Connections {
    listener: usize,
    places: usize,
    handles: Vec<Handle>,
}

impl Connections {
    /// A service listens at a port. As many handshakes may be under way as there are places for connections, and all of
    /// them are accepted at once. It fails if the memory is refused.
    pub fn listen(
        alloc: Global,
        port: u16,
        limits: &Limits,
        streams: &mut TcpHost,
    ) -> Result<Connections, AllocError> {
        Ok(Connections {
            listener: streams.listen(alloc, port, None, limits.places)?,
            places: limits.places,
            handles: Vec::with_capacity(alloc, limits.places)?,
        })
    }

    /// How many there are.
    pub fn len(&self) -> usize {
        self.handles.len()
    }

    /// Whether there is none.
    pub fn is_empty(&self) -> bool {
        self.handles.is_empty()
    }

    /// The one at an index.
    pub fn get(&self, index: usize) -> Option<Handle> {
        self.handles.get(index).copied()
    }

    /// Accepts those that wait.
    pub fn accept(&mut self, streams: &mut TcpHost) -> Result<(), AllocError> {
        for _ in 0..self.places {
            let Some(handle) = streams.accept(self.listener) else {
                return Ok(());
            };
            self.handles.push(handle)?;
        }
        Ok(())
    }

    /// Lets go of the one at an index, whose place the last one takes.
    pub fn release(&mut self, index: usize, streams: &mut TcpHost) {
        if index < self.handles.len() {
            let _ = streams.release(self.handles.swap_remove(index));
        }
    }
}
