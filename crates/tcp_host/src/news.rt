//! Which connections changed since their program was told of them last.
ghost use Rattle.std.specs.Prelude.{◌≡◌, ◌<◌, length};
ghost use Rattle.tcp_host.specs.Host.{is_program, slot_at};
ghost use Rattle.tcp_host.specs.News as spec;

use crate::alarms::NEVER;
use crate::calls::{Handle, is_program};
use crate::host::TcpHost;
use tcp_connection::connection::Connection;
use tcp_machine::state::State;

/// What a program sees of a connection: its state, by its number, how many octets a write takes, and how many can be read.
#[derive(Clone, Copy, Debug)]
pub struct Shown {
    pub state: u8,
    pub writable: usize,
    pub readable: usize,
}

impl TcpHost {
    /// A connection of the program at which something changed, by segments and timers, since the program was told of it last:
    /// octets became readable, room to write came back, or the state is another one. That is so too where the peer's end arrived,
    /// and where the connection ended. One that was accepted counts as changed. Each is told once until it changes again, and those
    /// that changed first come first. None, if none has changed since. It takes as many steps as the number of places has bits.
    pub fn next_changed(&mut self) -> Option<Handle>
        ensures { spec.TellsChanged self.old result self.new }
    {
        while self.news.least() < NEVER {
            let place = self.news.first();
            self.news.set(place, NEVER);
            if self.is_programs(place) {
                return Some(self.handle_of(place));
            }
        }
        None
    }

    // Whether a program has the connection at a place.
    fn is_programs(&self, place: usize) -> bool
        requires { place < length self.now.slots }
        ensures { result ≡ is_program (slot_at place self.now).owner }
    {
        is_program(self.slots[place].owner)
    }

    /// What a program sees of the connection at a place.
    pub(crate) fn seen_at(&self, place: usize) -> Shown
        requires { place < length self.now.slots }
        ensures { result ≡ spec.seen_at place self.now }
    {
        seen(&self.slots[place].connection)
    }

    /// The connection at a place was seen so before: its program is to be told, if it sees a difference now.
    pub(crate) fn note(&mut self, place: usize, now: u64, before: Shown)
        requires { place < length self.old.slots }
        ensures { self.new ≡ spec.noted place now before self.old }
    {
        let earlier = self.news.get(place);
        let is_new = self.has_news(place, before);
        let at = since(now, earlier, is_new);
        // What most segments change was changed before the program asked.
        if at != earlier {
            self.news.set(place, at);
        }
    }

    // Whether the program of the connection at a place sees a difference.
    fn has_news(&self, place: usize, before: Shown) -> bool
        requires { place < length self.now.slots }
        ensures { result ≡ spec.has_news place before self.now }
    {
        self.is_programs(place) && !is_same(before, self.seen_at(place))
    }
}

// Since when a program isn't told of a change.
fn since(now: u64, earlier: u64, is_new: bool) -> u64
    ensures { result ≡ spec.since now earlier is_new }
{
    if is_new {
        now.min(NEVER - 1).min(earlier)
    } else {
        earlier
    }
}

// What a program sees of a connection.
fn seen(connection: &Connection) -> Shown
    ensures { result ≡ spec.seen connection.now }
{
    Shown {
        state: number_of(connection.state()),
        writable: connection.send_room(),
        readable: connection.recv_queue(),
    }
}

// Whether a program sees no difference.
fn is_same(a: Shown, b: Shown) -> bool
    ensures { result ≡ spec.is_same a b }
{
    a.state == b.state && a.writable == b.writable && a.readable == b.readable
}

// The number of a state.
fn number_of(state: State) -> u8
    ensures { result ≡ spec.number_of state }
{
    match state {
        State::Closed => 0,
        State::Listen => 1,
        State::SynSent => 2,
        State::SynReceived => 3,
        State::Established => 4,
        State::FinWait1 => 5,
        State::FinWait2 => 6,
        State::CloseWait => 7,
        State::Closing => 8,
        State::LastAck => 9,
        State::TimeWait => 10,
    }
}
