//! What a program does with its connections (RFC 9293 3.10.2 to 3.10.5). Each call is refused, and changes nothing, if the handle
//! names no connection: `NoSocket`.
ghost use Rattle.std.specs.Prelude.{◌≡◌, IfOk, OnOk, OnErr, length};
ghost use Rattle.std.specs.Result.{result_err};
ghost use Rattle.iface_streams.specs.Calls as spec;

use crate::streams::Streams;
use iface_host::Refusal;
use tcp_host::calls::Handle;
use tcp_host::iss::Endpoints;
use tcp_machine::state::State;
use tcp_machine::timers::Ending;

impl Streams {
    /// Queues the first octets, as many as there is room for, and returns their number. It is 0 once the program closed or the
    /// connection is gone.
    pub fn send(&mut self, handle: Handle, octets: &[u8]) -> Result<usize, Refusal>
        ensures sent { IfOk result (λ count. spec.Sends handle octets.now count self.old self.new) }
        ensures why { result_err result ≡ spec.call_refusal handle self.old }
        ensures refused { OnErr result (self.new ≡ self.old) }
    {
        if !self.connections.is_named(handle) {
            return Err(Refusal::NoSocket);
        }
        match self.connections.send_slice(handle, octets) {
            Ok(count) => Ok(count),
            Err(_) => Err(Refusal::NoSocket),
        }
    }

    /// Takes the first octets in order, as many as a buffer has room for: writes them to its front, and returns their number.
    pub fn receive(&mut self, handle: Handle, out: &mut [u8]) -> Result<usize, Refusal>
        ensures received { IfOk result (λ count. spec.Receives handle out.old out.new count self.old self.new) }
        ensures why { result_err result ≡ spec.call_refusal handle self.old }
        ensures refused { OnErr result (self.new ≡ self.old) }
        ensures out { OnErr result (out.new ≡ out.old) }
    {
        if !self.connections.is_named(handle) {
            return Err(Refusal::NoSocket);
        }
        match self.connections.recv_slice(handle, out) {
            Ok(count) => Ok(count),
            Err(_) => Err(Refusal::NoSocket),
        }
    }

    /// Writes the first octets in order to the front of a buffer, as many as it has room for, and returns their number. They
    /// stay.
    pub fn peek(&self, handle: Handle, out: &mut [u8]) -> Result<usize, Refusal>
        ensures peeked { IfOk result (λ count. spec.Peeks handle out.old out.new count self.now) }
        ensures why { result_err result ≡ spec.call_refusal handle self.now }
        ensures out { OnErr result (out.new ≡ out.old) }
    {
        match self.connections.peek_slice(handle) {
            Some(octets) => {
                let count = octets.len().min(out.len());
                out[..count].copy_from_slice(&octets[..count]);
                Ok(count)
            }
            None => Err(Refusal::NoSocket),
        }
    }

    /// The program closes: the end follows what was written. It may still read.
    pub fn finish(&mut self, handle: Handle) -> Result<(), Refusal>
        ensures closed { OnOk result (spec.Finishes handle self.old self.new) }
        ensures why { result_err result ≡ spec.call_refusal handle self.old }
        ensures refused { OnErr result (self.new ≡ self.old) }
    {
        if !self.connections.is_named(handle) {
            return Err(Refusal::NoSocket);
        }
        let _ = self.connections.close(handle);
        Ok(())
    }

    /// The program aborts: the connection is gone, and a peer that knows of it gets a reset.
    pub fn abort(&mut self, handle: Handle) -> Result<(), Refusal>
        ensures aborted { OnOk result (spec.Aborts handle self.old self.new) }
        ensures why { result_err result ≡ spec.call_refusal handle self.old }
        ensures refused { OnErr result (self.new ≡ self.old) }
    {
        if !self.connections.is_named(handle) {
            return Err(Refusal::NoSocket);
        }
        let _ = self.connections.abort(handle);
        Ok(())
    }

    /// The program lets go of a connection: its handle names nothing from now on. A connection on which the peer may still send
    /// is aborted, and another one ends by itself.
    pub fn release(&mut self, handle: Handle) -> Result<(), Refusal>
        ensures released { OnOk result (spec.Releases handle self.old self.new) }
        ensures why { result_err result ≡ spec.call_refusal handle self.old }
        ensures refused { OnErr result (self.new ≡ self.old) }
    {
        if !self.connections.is_named(handle) {
            return Err(Refusal::NoSocket);
        }
        let _ = self.connections.release(handle);
        Ok(())
    }

    /// The state of a connection (RFC 9293 3.3.2).
    pub fn state(&self, handle: Handle) -> Result<State, Refusal>
        ensures state { IfOk result (λ state. spec.IsState handle state self.now) }
        ensures why { result_err result ≡ spec.call_refusal handle self.now }
    {
        if !self.connections.is_named(handle) {
            return Err(Refusal::NoSocket);
        }
        match self.connections.state(handle) {
            Some(state) => Ok(state),
            None => Err(Refusal::NoSocket),
        }
    }

    /// Why a connection ended before both sides had closed, if it did.
    pub fn ending(&self, handle: Handle) -> Result<Option<Ending>, Refusal>
        ensures ending { IfOk result (λ ending. spec.IsEnding handle ending self.now) }
        ensures why { result_err result ≡ spec.call_refusal handle self.now }
    {
        if !self.connections.is_named(handle) {
            return Err(Refusal::NoSocket);
        }
        Ok(self.connections.ending(handle))
    }

    /// The two ends of a connection. `NotThere` if it has none any more.
    pub fn ends(&self, handle: Handle) -> Result<Endpoints, Refusal>
        ensures ends { IfOk result (λ ends. spec.AreEnds handle ends self.now) }
        ensures why { result_err result ≡ spec.ends_refusal handle self.now }
    {
        if !self.connections.is_named(handle) {
            return Err(Refusal::NoSocket);
        }
        match self.connections.endpoints(handle) {
            Some(ends) => Ok(ends),
            None => Err(Refusal::NotThere),
        }
    }

    /// How many octets a write takes, if it has as many, and how many can be read.
    pub fn rooms(&self, handle: Handle) -> Result<(usize, usize), Refusal>
        ensures rooms { IfOk result (λ rooms. spec.AreRooms handle rooms.0 rooms.1 self.now) }
        ensures why { result_err result ≡ spec.call_refusal handle self.now }
    {
        if !self.connections.is_named(handle) {
            return Err(Refusal::NoSocket);
        }
        let Some(writable) = self.connections.send_room(handle) else {
            return Err(Refusal::NoSocket);
        };
        match self.connections.peek_slice(handle) {
            Some(readable) => Ok((writable, readable.len())),
            None => Err(Refusal::NoSocket),
        }
    }
}
