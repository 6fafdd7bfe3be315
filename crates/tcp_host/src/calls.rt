//! What a program does with its connections (RFC 9293 3.10.1 to 3.10.5).
ghost use Rattle.std.specs.Prelude.{◌≡◌, ◌≢◌, ◌<◌, ◌==◌, ◌++◌, min, ℕ, length, drop, max, true, false, Ok, Err, None, Some, IsErr, IsNone, IfOk, OnOk, OnErr};
ghost use Rattle.std.specs.Option.{option_map};
ghost use Rattle.tcp_machine.specs.Calls as calls;
ghost use Rattle.tcp_host.specs.Table.{IsNowhere, IsPlaceOf};
ghost use Rattle.tcp_host.specs.Backlog.{first_of};
ghost use Rattle.tcp_host.specs.Listener.{after_accepting};
ghost use Rattle.tcp_host.specs.declared.calls.ConnectError.TheVariants.{Unaddressable, InUse, NoPlace};
ghost use Rattle.tcp_host.specs.Arrivals.{HasNoPlace};
ghost use Rattle.tcp_host.specs.Host.{is_program, connection_at, slot_at, listener_at, with_listener};
ghost use Rattle.tcp_host.specs.Handles as spec;
ghost use Rattle.tcp_host.specs.Reports.{ending_of};

use crate::alarms::NEVER;
use crate::arrivals::is_proper;
use crate::host::TcpHost;
use crate::iss::{Endpoints, iss};
use crate::listener::Listener;
use crate::slot::Owner;
use ip_address::IpAddress;
use std::alloc::{AllocError, Global};
use tcp_machine::state::State;
use tcp_machine::timers::Ending;
use thiserror::Error;

/// The name of a connection. Once the program has released it, it names nothing.
#[derive(Clone, Copy, Debug, PartialEq, Eq)]
pub struct Handle {
    pub place: usize,
    pub generation: u64,
}

/// Why a connection isn't opened. It is displayed as its name.
#[derive(Clone, Copy, Debug, PartialEq, Eq, Error)]
pub enum ConnectError {
    /// An end isn't a host's, or a port is 0.
    #[error("Unaddressable")]
    Unaddressable,
    /// A connection has these ends.
    #[error("InUse")]
    InUse,
    /// Each place has a connection that gives way to no other one: none is half-open.
    #[error("NoPlace")]
    NoPlace,
}

/// A handle names no connection.
#[derive(Clone, Copy, Debug, PartialEq, Eq, Error)]
#[error("WrongHandle")]
pub struct WrongHandle;

impl TcpHost {
    /// Whether a handle names a connection.
    pub fn is_named(&self, handle: Handle) -> bool
        ensures { result ≡ spec.is_named handle self.now }
    {
        handle.place < self.slots.len()
            && self.slots[handle.place].generation == handle.generation
            && is_program(self.slots[handle.place].owner)
    }

    /// Queues the first octets, as many as there is room for, and returns their number (RFC 9293 3.10.2). It is 0 once the
    /// program closed or the connection is gone, and then nothing changes; nor does it with a wrong handle.
    pub fn send_slice(&mut self, handle: Handle, octets: &[u8]) -> Result<usize, WrongHandle>
        ensures wrong { spec.is_named handle self.old ≡ false → IsErr result }
        ensures unchanged { spec.is_named handle self.old ≡ false → self.new ≡ self.old }
        ensures taken { spec.is_named handle self.old ≡ true → result ≡ Ok (calls.taken (length octets.now) (connection_at handle.place self.old)) }
        ensures written { spec.is_named handle self.old ≡ true → self.new
            ≡ spec.changed_by (calls.taken (length octets.now) (connection_at handle.place self.old)) handle.place
            (calls.after_writing octets.now (connection_at handle.place self.old)) self.old }
    {
        if !self.is_named(handle) {
            return Err(WrongHandle);
        }
        if self.takes_none(handle.place, octets.len()) {
            return Ok(0);
        }
        let count = self.slots[handle.place].connection.write(octets);
        self.alarms.set(handle.place, 0);
        Ok(count)
    }

    // Whether the connection at a place takes none of so many octets.
    fn takes_none(&self, place: usize, len: usize) -> bool
        requires { place < length self.now.slots }
        ensures { result ≡ (calls.taken len (connection_at place self.now) == 0) }
    {
        let connection = &self.slots[place].connection;
        !connection.may_send() || len.min(connection.send_room()) == 0
    }

    /// Copies the first octets in order to the front of `out`, as many as it has room for, and returns their number
    /// (RFC 9293 3.10.3). If it has no room, or none can be read, nothing changes; nor does it with a wrong handle.
    pub fn recv_slice(&mut self, handle: Handle, out: &mut [u8]) -> Result<usize, WrongHandle>
        ensures wrong { spec.is_named handle self.old ≡ false → IsErr result }
        ensures unchanged { spec.is_named handle self.old ≡ false → self.new ≡ self.old }
        ensures count { spec.is_named handle self.old ≡ true → result ≡ Ok (calls.readable_count (length out.old) (connection_at handle.place self.old)) }
        ensures read { spec.is_named handle self.old ≡ true → self.new
            ≡ spec.changed_by (min (length out.old) (length (calls.readable (connection_at handle.place self.old)))) handle.place
            (calls.after_reading (length out.old) (connection_at handle.place self.old)) self.old }
        ensures octets { spec.is_named handle self.old ≡ true → out.new ≡ calls.read_of (length out.old) (connection_at handle.place self.old)
            ++ drop (calls.readable_count (length out.old) (connection_at handle.place self.old)) out.old }
    {
        if !self.is_named(handle) {
            return Err(WrongHandle);
        }
        let readable = self.slots[handle.place].connection.recv_queue();
        if out.len().min(readable) == 0 {
            return Ok(0);
        }
        let count = self.slots[handle.place].connection.read(out);
        self.alarms.set(handle.place, 0);
        Ok(count)
    }

    /// The octets in order that aren't read, lent by the connection. None with a wrong handle.
    pub fn peek_slice(&self, handle: Handle) -> Option<&[u8]>
        ensures wrong { spec.is_named handle self.now ≡ false → IsNone result }
        ensures value { spec.is_named handle self.now ≡ true
            → option_map (λ octets. octets.now) result ≡ Some (calls.readable (connection_at handle.place self.now)) }
    {
        if self.is_named(handle) {
            Some(self.slots[handle.place].connection.peek())
        } else {
            None
        }
    }

    /// The program closes: the end follows what was written (RFC 9293 3.10.4). It may still read. With a wrong handle nothing
    /// changes.
    pub fn close(&mut self, handle: Handle) -> Result<(), WrongHandle>
        ensures wrong { spec.is_named handle self.old ≡ false → IsErr result }
        ensures unchanged { spec.is_named handle self.old ≡ false → self.new ≡ self.old }
        ensures closed { spec.is_named handle self.old ≡ true → self.new
            ≡ spec.changed handle.place (calls.after_closing (connection_at handle.place self.old)) self.old }
    {
        if !self.is_named(handle) {
            return Err(WrongHandle);
        }
        self.slots[handle.place].connection.close();
        self.alarms.set(handle.place, 0);
        Ok(())
    }

    /// The program aborts: the connection is gone, and a peer that knows of it gets a reset (RFC 9293 3.10.5). With a wrong
    /// handle nothing changes.
    pub fn abort(&mut self, handle: Handle) -> Result<(), WrongHandle>
        ensures wrong { spec.is_named handle self.old ≡ false → IsErr result }
        ensures unchanged { spec.is_named handle self.old ≡ false → self.new ≡ self.old }
        ensures aborted { spec.is_named handle self.old ≡ true → self.new
            ≡ spec.changed handle.place (calls.after_abort (connection_at handle.place self.old)) self.old }
    {
        if !self.is_named(handle) {
            return Err(WrongHandle);
        }
        self.slots[handle.place].connection.abort();
        self.alarms.set(handle.place, 0);
        Ok(())
    }

    /// The state of a connection. None with a wrong handle.
    pub fn state(&self, handle: Handle) -> Option<State>
        ensures wrong { spec.is_named handle self.now ≡ false → result ≡ None }
        ensures value { spec.is_named handle self.now ≡ true → result ≡ Some (connection_at handle.place self.now).state }
    {
        if self.is_named(handle) {
            Some(self.slots[handle.place].connection.state())
        } else {
            None
        }
    }

    /// Why a connection ended before both sides had closed, if it did: `Unreachable` also where it timed out, and since a message said that
    /// the peer can't be reached nothing had come. None with a wrong handle.
    pub fn ending(&self, handle: Handle) -> Option<Ending>
        ensures wrong { spec.is_named handle self.now ≡ false → result ≡ None }
        ensures value { spec.is_named handle self.now ≡ true → result ≡ ending_of (slot_at handle.place self.now) }
    {
        if self.is_named(handle) {
            self.slots[handle.place].ending()
        } else {
            None
        }
    }

    /// Short segments wait while something is unacknowledged, or don't (RFC 9293 3.7.4). With a wrong handle nothing changes.
    pub fn set_nagle_enabled(&mut self, handle: Handle, enabled: bool) -> Result<(), WrongHandle>
        ensures wrong { spec.is_named handle self.old ≡ false → IsErr result }
        ensures unchanged { spec.is_named handle self.old ≡ false → self.new ≡ self.old }
        ensures set { spec.is_named handle self.old ≡ true → self.new ≡ spec.changed handle.place
            (spec.with_settings (record (connection_at handle.place self.old).settings { nagle = enabled }) (connection_at handle.place self.old)) self.old }
    {
        if !self.is_named(handle) {
            return Err(WrongHandle);
        }
        self.slots[handle.place]
            .connection
            .set_nagle_enabled(enabled);
        self.alarms.set(handle.place, 0);
        Ok(())
    }

    /// How long an acknowledgement of octets in order may wait, in microseconds (RFC 9293 3.8.6.3). With a wrong handle nothing changes.
    pub fn set_ack_delay(&mut self, handle: Handle, delay: u64) -> Result<(), WrongHandle>
        ensures wrong { spec.is_named handle self.old ≡ false → IsErr result }
        ensures unchanged { spec.is_named handle self.old ≡ false → self.new ≡ self.old }
        ensures set { spec.is_named handle self.old ≡ true → self.new ≡ spec.changed handle.place
            (spec.with_settings (record (connection_at handle.place self.old).settings { ack_delay = delay }) (connection_at handle.place self.old)) self.old }
    {
        if !self.is_named(handle) {
            return Err(WrongHandle);
        }
        self.slots[handle.place].connection.set_ack_delay(delay);
        self.alarms.set(handle.place, 0);
        Ok(())
    }

    /// How long nothing arrives before the peer is probed, in microseconds (RFC 9293 3.8.4). With a wrong handle nothing changes.
    pub fn set_keep_alive(
        &mut self,
        handle: Handle,
        interval: Option<u64>,
    ) -> Result<(), WrongHandle>
        ensures wrong { spec.is_named handle self.old ≡ false → IsErr result }
        ensures unchanged { spec.is_named handle self.old ≡ false → self.new ≡ self.old }
        ensures set { spec.is_named handle self.old ≡ true → self.new ≡ spec.changed handle.place
            (spec.with_settings (record (connection_at handle.place self.old).settings { keep_alive = interval }) (connection_at handle.place self.old)) self.old }
    {
        if !self.is_named(handle) {
            return Err(WrongHandle);
        }
        self.slots[handle.place].connection.set_keep_alive(interval);
        self.alarms.set(handle.place, 0);
        Ok(())
    }

    /// How long what was sent may stay unacknowledged, in microseconds (RFC 9293 3.8.3). With a wrong handle nothing changes.
    pub fn set_timeout(&mut self, handle: Handle, timeout: Option<u64>) -> Result<(), WrongHandle>
        ensures wrong { spec.is_named handle self.old ≡ false → IsErr result }
        ensures unchanged { spec.is_named handle self.old ≡ false → self.new ≡ self.old }
        ensures set { spec.is_named handle self.old ≡ true → self.new ≡ spec.changed handle.place
            (spec.with_settings (record (connection_at handle.place self.old).settings { timeout = timeout }) (connection_at handle.place self.old)) self.old }
    {
        if !self.is_named(handle) {
            return Err(WrongHandle);
        }
        self.slots[handle.place].connection.set_timeout(timeout);
        self.alarms.set(handle.place, 0);
        Ok(())
    }

    /// How many routers the packets of a connection may pass, from the next one on (RFC 9293 3.9.2). Each connection begins with
    /// 64. With a wrong handle nothing changes.
    pub fn set_hop_limit(&mut self, handle: Handle, hop_limit: u8) -> Result<(), WrongHandle>
        requires { hop_limit ≢ 0 }
        ensures wrong { spec.is_named handle self.old ≡ false → IsErr result }
        ensures unchanged { spec.is_named handle self.old ≡ false → self.new ≡ self.old }
        ensures set { spec.is_named handle self.old ≡ true → self.new ≡ spec.with_hop_limit handle.place hop_limit self.old }
    {
        if !self.is_named(handle) {
            return Err(WrongHandle);
        }
        self.slots[handle.place].hop_limit = hop_limit;
        Ok(())
    }

    /// The program lets go of a connection: its handle names nothing from now on. A connection on which the peer may still
    /// send is aborted, and another one ends by itself. Its place is free once it has ended. With a wrong handle nothing changes.
    pub fn release(&mut self, handle: Handle) -> Result<(), WrongHandle>
        ensures wrong { spec.is_named handle self.old ≡ false → IsErr result }
        ensures unchanged { spec.is_named handle self.old ≡ false → self.new ≡ self.old }
        ensures released { spec.is_named handle self.old ≡ true → self.new ≡ spec.released handle.place self.old }
    {
        if !self.is_named(handle) {
            return Err(WrongHandle);
        }
        self.let_go(handle.place);
        Ok(())
    }

    // The program lets go of the connection at a place.
    fn let_go(&mut self, place: usize)
        requires { place < length self.old.slots }
        ensures { self.new ≡ spec.released place self.old }
    {
        if !ends_by_itself(self.slots[place].connection.state()) {
            self.slots[place].connection.abort();
        }
        self.slots[place].owner = Owner::Itself(None);
        self.alarms.set(place, 0);
        self.news.set(place, NEVER);
    }

    /// Opens a connection between two ends (RFC 9293 3.10.1, active), at a free place; or at that of the connection whose
    /// TIME-WAIT ends first, of those of which the program let go; or at that of the oldest half-open connection, of a listener
    /// that has the most of them. It fails, and nothing changes, if an end isn't a host's or a port is 0, if a connection has
    /// these ends, also in TIME-WAIT, or if there is no such place.
    pub fn connect(&mut self, now: u64, endpoints: &Endpoints) -> Result<Handle, ConnectError>
        ensures unchanged { IsErr result → self.new ≡ self.old }
        ensures unaddressable { result ≡ Err Unaddressable → spec.is_addressable endpoints.now ≡ false }
        ensures addressable { IfOk result (λ _. spec.is_addressable endpoints.now ≡ true) }
        ensures in_use { result ≡ Err InUse → (place : ℕ) × IsPlaceOf endpoints.now self.old.ends place }
        ensures full { result ≡ Err NoPlace → HasNoPlace self.old }
        ensures opened { IfOk result (λ handle. spec.Opens now endpoints.now handle.place self.old self.new) }
        ensures named { IfOk result (λ handle. spec.is_named handle self.new ≡ true) }
    {
        if !is_addressable(endpoints) {
            return Err(ConnectError::Unaddressable);
        }
        if let Some(_place) = self.find(endpoints) {
            return Err(ConnectError::InUse);
        }
        let Some(place) = self.make_place() else {
            return Err(ConnectError::NoPlace);
        };
        self.open_at(place, now, endpoints);
        Ok(self.handle_of(place))
    }

    // The handle of the connection at a place.
    pub(crate) fn handle_of(&self, place: usize) -> Handle
        requires { place < length self.now.slots }
        ensures { result ≡ record { place = place; generation = (slot_at place self.now).generation } }
    {
        Handle {
            place,
            generation: self.slots[place].generation,
        }
    }

    /// The connection of a listener that waits longest, which is the program's from now on. None, and nothing changes, if none
    /// waits.
    pub fn accept(&mut self, listener: usize) -> Option<Handle>
        ensures { (result, self.new) ≡ spec.accepting listener self.old }
    {
        if listener >= self.listeners.len() {
            return None;
        }
        self.accept_from(listener)
    }

    // The same of a listener that there is.
    fn accept_from(&mut self, listener: usize) -> Option<Handle>
        requires { listener < length self.old.listeners }
        ensures { (result, self.new) ≡ spec.accepting_from listener self.old }
    {
        let place = self.next_of(listener);
        match place {
            Some(place) if place < self.slots.len() => {
                self.slots[place].owner = Owner::Program;
                self.news.set(place, 0);
                Some(self.handle_of(place))
            }
            _ => None,
        }
    }

    // The place of the connection of a listener that waits longest, which waits no more.
    fn next_of(&mut self, listener: usize) -> Option<usize>
        requires { listener < length self.old.listeners }
        ensures place { result ≡ first_of (listener_at listener self.old).ready }
        ensures waits { self.new ≡ with_listener listener (after_accepting (listener_at listener self.old)) self.old }
    {
        self.listeners[listener].accept()
    }

    /// Listens at a local port, of one local address or of each (RFC 9293 3.10.1, passive). At most `backlog` handshakes are
    /// under way, and as many connections wait for the program; 0 counts as 1. Returns the listener. It fails, and nothing
    /// changes, if the memory is refused.
    pub fn listen(
        &mut self,
        alloc: Global,
        port: u16,
        address: Option<IpAddress>,
        backlog: usize,
    ) -> Result<usize, AllocError>
        ensures unchanged { OnErr result (self.new ≡ self.old) }
        ensures index { IfOk result (λ index. index ≡ length self.old.listeners) }
        ensures added { OnOk result (self.new ≡ spec.listening port address (max 1 backlog) self.old) }
    {
        let listener = Listener::new(alloc, port, address, backlog.max(1))?;
        let index = self.listeners.len();
        self.listeners.push(listener)?;
        Ok(index)
    }

    /// Closes a listener (RFC 9293 3.10.4): no SYN begins a connection of it any more. A handshake that is under way ends in a
    /// reset once it is complete, and connections that wait can still be accepted. Its index is given to no other listener.
    /// Returns whether there is such a listener; if there is none, nothing changes.
    pub fn close_listener(&mut self, listener: usize) -> bool
        ensures there { result ≡ spec.is_listener listener self.old }
        ensures closed { self.new ≡ spec.listener_closed listener self.old }
    {
        if listener >= self.listeners.len() {
            return false;
        }
        self.listeners[listener].close();
        true
    }

    // A connection that the program opens begins at a place.
    fn open_at(&mut self, place: usize, now: u64, endpoints: &Endpoints)
        requires within { place < length self.old.slots }
        requires new { IsNowhere endpoints.now self.old.ends }
        ensures { self.new ≡ spec.opened_at place now endpoints.now self.old }
    {
        let number = iss(&self.config.number_key, now, endpoints);
        let link = self.link_mss(&endpoints.remote_addr);
        let settings = self.settings_for(&endpoints.remote_addr);
        self.slots[place].open(now, number, link, &settings);
        self.enroll(place, endpoints);
    }
}

// Whether the program has a connection.
pub(crate) fn is_program(owner: Owner) -> bool
    ensures { result ≡ is_program owner }
{
    match owner {
        Owner::Program => true,
        Owner::Nobody | Owner::HalfOpen(_) | Owner::Waiting(_) | Owner::Itself(_) => false,
    }
}

// Whether a connection of this state ends without the program: the peer's end has arrived, and the own one was sent.
fn ends_by_itself(state: State) -> bool
    ensures { result ≡ spec.ends_by_itself state }
{
    match state {
        State::Closed | State::Closing | State::LastAck | State::TimeWait => true,
        State::Listen
        | State::SynSent
        | State::SynReceived
        | State::Established
        | State::FinWait1
        | State::FinWait2
        | State::CloseWait => false,
    }
}

// Whether a program may ask for a connection between two ends.
fn is_addressable(endpoints: &Endpoints) -> bool
    ensures { result ≡ spec.is_addressable endpoints.now }
{
    is_proper(endpoints) && endpoints.local_port != 0 && endpoints.remote_port != 0
}
