//! What a host has at a place.
ghost use Rattle.std.specs.Prelude.{◌≡◌, ◌≤◌, ◌+◌, ◌%◌, ◌^◌, [], length, Some};
ghost use Rattle.std.specs.Option.{option_map};
ghost use Rattle.tcp_machine.specs.Opening.{accepted, opened};
ghost use Rattle.tcp_machine.specs.Outgoing as outgoing;
ghost use Rattle.tcp_connection.specs.Segments.{segment_of};
ghost use Rattle.tcp_connection.specs.Actions.{action_of, after_sending};
ghost use Rattle.tcp_connection.specs.Asked.{is_only_challenged};
ghost use Rattle.tcp_host.specs.declared.slot.Owner.TheVariants.{Program};
ghost use Rattle.tcp_host.specs.Challenges as spec;
ghost use Rattle.tcp_host.specs.Challenges.{all_challenges};
ghost use Rattle.tcp_host.specs.Host.{default_hop_limit, is_let_go, limit_of};
ghost use Rattle.tcp_host.specs.Turns.{due_after, gives_way, is_over};

use crate::alarms::NEVER;
use net_base::bucket::{Bucket, few_are_taken};
use tcp_connection::connection::Connection;
use tcp_connection::instants::later;
use tcp_connection::outgoing::Action;
use tcp_connection::segment::Segment;
use tcp_connection::states::is_time_wait;
use tcp_machine::settings::Settings;

/// How many challenges a connection may send at once, and the interval in which one more may be, in microseconds: at most ten
/// in any second (RFC 5961 7).
pub(crate) const CHALLENGES: Bucket = Bucket {
    interval: 200_000,
    depth: 5,
    full_at: 0,
};

/// How long the reset of a connection whose time is over may wait for room, in microseconds.
const TIME_FOR_A_RESET: u64 = 1_000_000;

/// How many routers a packet may pass, unless the program says (RFC 9293 3.9.2).
pub(crate) const HOP_LIMIT: u8 = 64;

/// Whose a connection is.
#[derive(Clone, Copy, Debug, PartialEq, Eq)]
pub enum Owner {
    /// There is none.
    Nobody,
    /// The listener of this index, and the handshake isn't complete.
    HalfOpen(usize),
    /// The listener of this index, and the program hasn't accepted it.
    Waiting(usize),
    /// The program, which has a handle.
    Program,
    /// Nobody any more: the program let go of it. It ends by itself, or is aborted at this instant, which is set in its first turn
    /// after that.
    Itself(Option<u64>),
}

/// Whether the program let go of a connection.
pub(crate) fn is_let_go(owner: Owner) -> bool
    ensures { result ≡ is_let_go owner }
{
    match owner {
        Owner::Itself(_) => true,
        Owner::Nobody | Owner::HalfOpen(_) | Owner::Waiting(_) | Owner::Program => false,
    }
}

/// When a connection has to have ended of which the program let go.
pub(crate) fn limit_of(owner: Owner) -> Option<u64>
    ensures { result ≡ limit_of owner }
{
    match owner {
        Owner::Itself(until) => until,
        Owner::Nobody | Owner::HalfOpen(_) | Owner::Waiting(_) | Owner::Program => None,
    }
}

/// A place for a connection.
#[derive(Drop)]
pub struct Slot {
    pub connection: Connection,
    pub owner: Owner,
    /// How often the place was given to another connection: a handle with another generation names nothing.
    pub generation: u64,
    /// How many challenges the connection may send.
    pub challenges: Bucket,
    /// How many routers its packets may pass.
    pub hop_limit: u8,
    /// When it was said last that the peer can't be reached, in microseconds, if it was.
    pub reported: Option<u64>,
}

impl Slot {
    /// A connection begins that a SYN asks for.
    pub(crate) fn accept(
        &mut self,
        owner: Owner,
        now: u64,
        number: u32,
        default: u16,
        link: u16,
        settings: &Settings,
        segment: &Segment,
    )
        requires { settings.now.own_scale ≤ 14 }
        ensures { self.new ≡ record {
          connection = accepted now number self.old.connection.transmission.sender.room
              (length self.old.connection.reception.receiver.cells) default link settings.now (segment_of segment.now []);
          owner = owner;
          generation = (self.old.generation + 1) % 2 ^ 64;
          challenges = all_challenges;
          hop_limit = default_hop_limit;
          reported = None;
        } }
    {
        self.connection
            .accept(now, number, default, link, settings, segment);
        self.owner = owner;
        self.generation = self.generation.wrapping_add(1);
        self.challenges = CHALLENGES;
        self.hop_limit = HOP_LIMIT;
        self.reported = None;
    }

    /// The program opens a connection.
    pub(crate) fn open(&mut self, now: u64, number: u32, link: u16, settings: &Settings)
        requires { settings.now.own_scale ≤ 14 }
        ensures { self.new ≡ record {
          connection = opened now number self.old.connection.transmission.sender.room
              (length self.old.connection.reception.receiver.cells) link settings.now;
          owner = Program;
          generation = (self.old.generation + 1) % 2 ^ 64;
          challenges = all_challenges;
          hop_limit = default_hop_limit;
          reported = None;
        } }
    {
        self.connection.open(now, number, link, settings);
        self.owner = Owner::Program;
        self.generation = self.generation.wrapping_add(1);
        self.challenges = CHALLENGES;
        self.hop_limit = HOP_LIMIT;
        self.reported = None;
    }

    /// Whether the place of a connection of which the program let go is free: its time is over, and that for its reset, too.
    pub(crate) fn is_over(&self, now: u64) -> bool
        ensures { result ≡ is_over now self.now }
    {
        match limit_of(self.owner) {
            Some(limit) => later(limit, TIME_FOR_A_RESET) <= now,
            None => false,
        }
    }

    /// When something is due at a connection that sends nothing now: when its first timer ends, or its time since the program let
    /// go of it, and not at this instant once more.
    pub(crate) fn due_after(&self, now: u64) -> u64
        ensures { result ≡ due_after now self.now }
    {
        let instant = match self.connection.due_at(now) {
            None => NEVER,
            Some(instant) => instant.max(now.saturating_add(1)),
        };
        match limit_of(self.owner) {
            None => instant,
            Some(limit) => instant.min(limit),
        }
    }

    /// Whether the connection gives its place to another one: it is in TIME-WAIT, and the program let go of it.
    pub(crate) fn gives_way(&self) -> bool
        ensures { result ≡ gives_way self.now }
    {
        is_let_go(self.owner) && is_time_wait(self.connection.state())
    }

    /// Whether what the connection sends now is a challenge that it may not send.
    pub(crate) fn is_challenge_left(&self, now: u64) -> bool
        ensures { result ≡ spec.is_challenge_left now self.now }
    {
        let mut challenges = self.challenges;
        self.connection.is_only_challenged(now) && !challenges.take(now)
    }

    /// What the connection sends now counts as sent, as if the link had lost it.
    pub(crate) fn leave(&mut self, now: u64)
        ensures { self.new ≡ record self.old { connection = after_sending now self.old.connection } }
    {
        after_sending(&mut self.connection, now);
    }

    /// What the connection sends now was sent, if it sends anything. A challenge is counted.
    pub(crate) fn sent(&mut self, now: u64)
        ensures { self.new ≡ spec.slot_after_sending now self.old }
    {
        self.count_challenge(now);
        after_sending(&mut self.connection, now);
    }

    // If what the connection sends now is a challenge, that is counted.
    fn count_challenge(&mut self, now: u64)
        ensures { self.new ≡ spec.with_challenge_counted now self.old }
    {
        if self.connection.is_only_challenged(now) {
            let _is_there = self.challenges.take(now);
        }
    }

    /// The same, where it sends this.
    pub(crate) fn sent_by(&mut self, now: u64, action: &Action)
        requires { option_map action_of (outgoing.action now self.old.connection) ≡ Some action.now }
        ensures { self.new ≡ spec.slot_after_sending now self.old }
    {
        self.count_challenge(now);
        self.connection.sent(now, action);
    }
}

/// In any second a connection sends at most ten challenges: so many tokens its bucket has for the instants of a second, in whatever
/// order they come.
pub fn challenges_are_few()
    ensures { spec.AtMostTen }
{
    few_are_taken();
}

// What a connection sends now was sent, if it sends anything.
fn after_sending(connection: &mut Connection, now: u64)
    ensures { connection.new ≡ after_sending now connection.old }
{
    if let Some(action) = connection.next_action(now) {
        connection.sent(now, &action);
    }
}
