//! What a host sends, and when (RFC 9293 3.10.8 and what follows from calls and arrivals).
ghost use Rattle.std.specs.Prelude.{◌≡◌, ◌<◌, length, slice_index, None, Some, IfSome, IsNone};
ghost use Rattle.tcp_machine.specs.Outgoing as outgoing;
ghost use Rattle.tcp_connection.specs.Actions.{action_of, IsHeader, AreBlocks, AreOctets};
ghost use Rattle.std.specs.Option.{option_map};
ghost use Rattle.tcp_host.specs.Alarms.{IsLeast};
ghost use Rattle.tcp_host.specs.Table.{ends_at};
ghost use Rattle.tcp_host.specs.Host.{slot_at, connection_at};
ghost use Rattle.tcp_host.specs.declared.slot.Owner.TheVariants.{Itself};
ghost use Rattle.tcp_host.specs.Turns as spec;

use crate::alarms::NEVER;
use crate::host::TcpHost;
use crate::iss::Endpoints;
use crate::slot::Owner;
use tcp_connection::connection::Connection;
use tcp_connection::instants::later;
use tcp_connection::outgoing::{Action, Header};
use tcp_connection::states::{is_closed, is_synchronized};
use tcp_machine::sack::SackBlock;

/// For how long who sent something counts as heard: a minute, in microseconds.
const HEARD: u64 = 60_000_000;

/// What a turn comes to.
#[derive(Clone, Copy, Debug)]
pub enum Turn {
    /// Nothing is due at this instant, at any connection.
    Idle,
    /// The connection whose turn it was sends nothing now.
    Quiet,
    /// The connection at a place sends this. Once it was sent, [`TcpHost::sent_by`] has to be called, and before it is sent
    /// [`TcpHost::postpone`], if there is no room for it.
    Sends { place: usize, action: Action },
}

/// A segment that is sent.
#[derive(Clone, Copy, Debug)]
pub struct Outgoing<'a> {
    pub endpoints: Endpoints,
    pub header: Header,
    /// The MSS option.
    pub mss: Option<u16>,
    /// The window scale option.
    pub scale: Option<u8>,
    /// The blocks of the option of selective acknowledgements. With octets there is none.
    pub blocks: [Option<SackBlock>; 3],
    /// How many routers its packet may pass.
    pub hop_limit: u8,
    pub octets: &'a [u8],
}

impl TcpHost {
    /// The connection at which something is due first gets its turn, if it is due by now: its timers that have ended act, and
    /// it is asked what it sends. All other connections stay. It takes as many steps as the number of places has bits.
    pub fn next_segment(&mut self, now: u64) -> Turn
        ensures { spec.TakesTurn now self.old result self.new }
    {
        if now < self.alarms.least() {
            return Turn::Idle;
        }
        let place = self.alarms.first();
        self.turn_at(place, now)
    }

    // The connection at a place gets its turn, if something is due there by now.
    fn turn_at(&mut self, place: usize, now: u64) -> Turn
        requires { place < length self.old.slots }
        ensures { (result, self.new) ≡ spec.turn_at place now self.old }
    {
        if self.alarms.get(place) > now {
            return Turn::Idle;
        }
        self.turn_due(place, now)
    }

    // The connection at a place, where something is due, gets its turn; or its time is over.
    fn turn_due(&mut self, place: usize, now: u64) -> Turn
        requires { place < length self.old.slots }
        ensures { (result, self.new) ≡ spec.turn_due place now self.old }
    {
        if self.is_over(place, now) {
            self.vacate(place);
            return Turn::Quiet;
        }
        let before = self.seen_at(place);
        self.expire(place, now);
        self.advance(place);
        self.limit(place, now);
        self.note(place, now, before);
        self.ask(place, now)
    }

    // Whether the place of a connection is free, whose time is over since the program let go of it.
    fn is_over(&self, place: usize, now: u64) -> bool
        requires { place < length self.now.slots }
        ensures { result ≡ spec.is_over now (slot_at place self.now) }
    {
        self.slots[place].is_over(now)
    }

    // A connection of which the program let go has so long to end, from its first turn after that on.
    fn limit(&mut self, place: usize, now: u64)
        requires { place < length self.old.slots }
        ensures { self.new ≡ spec.limited place now self.old }
    {
        let owner = self.slots[place].owner;
        match owner {
            Owner::Itself(until) => self.limit_to(place, until, now),
            Owner::Nobody | Owner::HalfOpen(_) | Owner::Waiting(_) | Owner::Program => {}
        }
    }

    // The same of one of which the program let go: its time ends at an instant, or begins now.
    fn limit_to(&mut self, place: usize, until: Option<u64>, now: u64)
        requires { place < length self.old.slots }
        ensures { self.new ≡ spec.limited_by (Itself until) place now self.old }
    {
        match until {
            None => {
                let limit = later(now, self.config.release_timeout);
                self.slots[place].owner = Owner::Itself(Some(limit));
            }
            Some(limit) => {
                if limit <= now {
                    self.slots[place].connection.abort();
                }
            }
        }
    }

    // What timers of the connection at a place do that have ended.
    fn expire(&mut self, place: usize, now: u64)
        requires { place < length self.old.slots }
        ensures { self.new ≡ spec.expired place now self.old }
    {
        self.slots[place].connection.expire(now);
    }

    // What the connection at a place sends. A challenge that it may not send is left.
    fn ask(&mut self, place: usize, now: u64) -> Turn
        requires { place < length self.old.slots }
        ensures { (result, self.new) ≡ spec.turn_asked place now self.old }
    {
        if self.slots[place].is_challenge_left(now) {
            self.leave(place, now);
            return Turn::Quiet;
        }
        self.ask_connection(place, now)
    }

    // What the connection at a place sends now isn't sent, and counts as sent.
    fn leave(&mut self, place: usize, now: u64)
        requires { place < length self.old.slots }
        ensures { self.new ≡ spec.left_at place now self.old }
    {
        self.slots[place].leave(now);
        self.alarms.set(place, now);
    }

    // What the connection at a place sends, whatever it may.
    fn ask_connection(&mut self, place: usize, now: u64) -> Turn
        requires { place < length self.old.slots }
        ensures { (result, self.new) ≡ spec.turn_by (outgoing.action now (connection_at place self.old)) place now self.old }
    {
        match self.slots[place].connection.next_action(now) {
            Some(action) => Turn::Sends { place, action },
            None => {
                self.rest(place, now);
                Turn::Quiet
            }
        }
    }

    // A connection whose handshake is complete waits for the program.
    fn advance(&mut self, place: usize)
        requires { place < length self.old.slots }
        ensures { self.new ≡ spec.advanced place self.old }
    {
        let owner = self.slots[place].owner;
        if let Owner::HalfOpen(index) = owner {
            if is_synchronized(self.slots[place].connection.state()) {
                self.complete(place, index);
            }
        }
    }

    // The handshake of a listener's connection is complete.
    fn complete(&mut self, place: usize, index: usize)
        requires { place < length self.old.slots }
        ensures { self.new ≡ spec.completed place index self.old }
    {
        if index >= self.listeners.len() {
            return;
        }
        if self.listeners[index].complete(place) {
            self.slots[place].owner = Owner::Waiting(index);
        } else {
            self.slots[place].owner = Owner::Itself(None);
            self.slots[place].connection.abort();
        }
    }

    // The connection at a place sends nothing now.
    fn rest(&mut self, place: usize, now: u64)
        requires { place < length self.old.slots }
        ensures { self.new ≡ spec.rested place now self.old }
    {
        if is_closed(self.slots[place].connection.state()) {
            self.finish(place);
            return;
        }
        let instant = self.slots[place].due_after(now);
        self.wait_until(place, instant);
    }

    // Something is due at the connection at a place at an instant. In TIME-WAIT it then ends, if it hasn't given its place to
    // another one before.
    fn wait_until(&mut self, place: usize, instant: u64)
        requires { place < length self.old.slots }
        ensures { self.new ≡ spec.waiting_until place instant self.old }
    {
        self.alarms.set(place, instant);
        if self.slots[place].gives_way() {
            self.taken.set(place, instant.max(1));
        }
    }

    // The connection at a place is no more.
    fn finish(&mut self, place: usize)
        requires { place < length self.old.slots }
        ensures { self.new ≡ spec.finished_by (slot_at place self.old).owner place self.old }
    {
        let owner = self.slots[place].owner;
        match owner {
            Owner::Program => {
                self.table.remove(place);
                self.alarms.set(place, NEVER);
            }
            Owner::HalfOpen(index) | Owner::Waiting(index) => {
                self.end_in(place, index);
                self.vacate(place);
            }
            Owner::Nobody | Owner::Itself(_) => self.vacate(place),
        }
    }

    // A listener's connection ended before the program accepted it.
    pub(crate) fn end_in(&mut self, place: usize, index: usize)
        ensures { self.new ≡ spec.ended_in place index self.old }
    {
        if index < self.listeners.len() {
            self.listeners[index].end(place);
        }
    }

    /// What the connection at a place sends now was sent, if it sends anything. Nothing changes if there is no such place.
    pub fn sent(&mut self, place: usize, now: u64)
        ensures { self.new ≡ spec.sent_if place now self.old }
    {
        if place < self.slots.len() {
            self.sent_at(place, now);
        }
    }

    /// The same, where the connection sends this now: what [`TcpHost::next_segment`] returned.
    pub fn sent_by(&mut self, place: usize, now: u64, action: &Action)
        requires { option_map action_of (outgoing.action now (connection_at place self.old)) ≡ Some action.now }
        ensures { self.new ≡ spec.sent_if place now self.old }
    {
        if place < self.slots.len() {
            self.slots[place].sent_by(now, action);
            self.alarms.set(place, now);
        }
    }

    // What the connection at a place that there is sends now was sent.
    fn sent_at(&mut self, place: usize, now: u64)
        requires { place < length self.old.slots }
        ensures { self.new ≡ spec.sent_at place now self.old }
    {
        self.slots[place].sent(now);
        self.alarms.set(place, now);
    }

    /// What the connection at a place sends had no room: it gets its turn again at an instant. Nothing changes if there is no
    /// such place.
    pub fn postpone(&mut self, place: usize, instant: u64)
        ensures { self.new ≡ spec.postponed place instant self.old }
    {
        if place < self.slots.len() {
            self.alarms.set(place, instant);
        }
    }

    /// The segment that the connection at a place sends, its octets lent by the connection. None, if it has no ends.
    pub fn outgoing(&self, place: usize, action: &Action) -> Option<Outgoing<'_>>
        ensures ends { IfSome result (λ o. ends_at self.now.ends place ≡ Some o.endpoints) }
        ensures header { IfSome result (λ o. IsHeader action.now (connection_at place self.now) o.header) }
        ensures blocks { IfSome result (λ o. AreBlocks action.now (connection_at place self.now) o.blocks) }
        ensures octets { IfSome result (λ o. AreOctets action.now (connection_at place self.now) o.octets.now) }
        ensures mss { IfSome result (λ o. o.mss ≡ spec.mss_of o.endpoints o.header self.now) }
        ensures scale { IfSome result (λ o. o.scale ≡ spec.scale_of o.header (connection_at place self.now)) }
        ensures hop_limit { IfSome result (λ o. o.hop_limit ≡ (slot_at place self.now).hop_limit) }
        ensures none { IsNone result → ends_at self.now.ends place ≡ None }
    {
        if place >= self.slots.len() {
            return None;
        }
        let endpoints = self.table.get(place)?;
        let slot = &self.slots[place];
        let connection = &slot.connection;
        let header = connection.header(action);
        Some(Outgoing {
            endpoints,
            header,
            mss: self.mss_of(&endpoints, &header),
            scale: scale_of(&header, connection),
            blocks: connection.blocks(action),
            hop_limit: slot.hop_limit,
            octets: connection.octets(action),
        })
    }

    // The MSS option of a segment between two ends.
    fn mss_of(&self, endpoints: &Endpoints, header: &Header) -> Option<u16>
        ensures { result ≡ spec.mss_of endpoints.now header.now self.now }
    {
        if header.syn {
            Some(self.link_mss(&endpoints.remote_addr))
        } else {
            None
        }
    }

    /// Whether the peer of the connection at a place has answered, and something came from it within the last minute.
    pub fn is_heard(&self, place: usize, now: u64) -> bool
        ensures { result ≡ spec.is_heard place now self.now }
    {
        place < self.slots.len() && is_heard(&self.slots[place].connection, now)
    }

    /// The connection at a place is aborted, whoever has it (RFC 9293 3.10.5). Nothing changes if there is no such place.
    pub fn abort_at(&mut self, place: usize)
        ensures { self.new ≡ spec.aborted_if place self.old }
    {
        if place < self.slots.len() {
            self.abort_there(place);
        }
    }

    // The connection at a place that there is is aborted.
    fn abort_there(&mut self, place: usize)
        requires { place < length self.old.slots }
        ensures { self.new ≡ spec.aborted_at place self.old }
    {
        let before = self.seen_at(place);
        self.slots[place].connection.abort();
        self.alarms.set(place, 0);
        self.note(place, 0, before);
    }

    /// When something is due first: `None`, if nothing is due by itself.
    pub fn poll_at(&self) -> Option<u64>
        ensures { spec.IsPollAt self.now result }
    {
        let least = self.alarms.least();
        if least == NEVER { None } else { Some(least) }
    }
}

// The window scale option of a segment.
fn scale_of(header: &Header, connection: &Connection) -> Option<u8>
    ensures { result ≡ spec.scale_of header.now connection.now }
{
    if header.syn {
        connection.offered_scale()
    } else {
        None
    }
}

// Whether the peer has answered, and something came from it within the last minute.
fn is_heard(connection: &Connection, now: u64) -> bool
    ensures { result ≡ spec.is_peer_heard now connection.now }
{
    is_synchronized(connection.state()) && now.saturating_sub(connection.heard_at()) <= HEARD
}
