//! The raw sockets of a host of connections, and its poll.
ghost use Rattle.std.specs.Prelude.{◌≡◌, [], Some, false};
ghost use Rattle.std.specs.Option.{option_map};
ghost use Rattle.tcp_machine.specs.Outgoing as machine;
ghost use Rattle.tcp_connection.specs.Actions.{action_of};
ghost use Rattle.tcp_host.specs.Host.{Host, connection_at};
ghost use Rattle.tcp_host.specs.Turns.{postponed, is_heard};
ghost use Rattle.tcp_host.specs.Table.{ends_at};
ghost use Rattle.tcp_sockets.specs.Packets.{value_of};
ghost use Rattle.tcp_sockets.specs.Polls as spec;
ghost use Rattle.net_base.specs.Checksum.{is_tx};

use crate::destinations::Destinations;
use crate::packets::reply_between;
use crate::receiving::{Answer, receive};
use crate::sending::{send, send_far, version_between};
use arrayvec::ArrayVec;
use ip_wire::emit::FrameBuffer;
use ip_wire::{IpAddress, IpCidr, IpVersion};
use net_base::phy::Checksum;
use socket_set::{SocketHandle, SocketSetOf};
use sockets::raw;
use std::marker::Model;
use tcp_connection::instants::later;
use tcp_connection::outgoing::Action;
use tcp_host::host::TcpHost;
use tcp_host::turns::{Outgoing, Turn};

/// The most turns that connections get in a poll. What is due then is due in the next one.
pub const MOST_TURNS: usize = 65_536;

/// How many connections that found no room are asked again in the next poll, whenever it comes.
pub const MOST_WAITING: usize = 64;

/// When a connection that found no room is due again at the latest, in microseconds.
pub const PAUSE: u64 = 50_000;

/// The two raw sockets of a family.
#[derive(Clone, Copy, Debug)]
pub struct SocketPair {
    /// Receives, and sends to peers from which something came in the connection within the last minute, or to which the
    /// next hop is known.
    pub near: SocketHandle,
    /// Receives nothing, and sends to all others, one packet of each destination at a time.
    pub far: SocketHandle,
}

/// What became of a segment that a connection sends.
#[derive(Clone, Copy)]
pub(crate) enum Fate {
    /// It was queued, or is lost.
    Queued,
    /// There is no room for it.
    Waits,
    /// A host doesn't send it: its address is gone, or there is no packet for it.
    Stranded,
}

/// The raw sockets of a host of connections, two for each family.
///
/// Peers that haven't answered have a socket of their own: a packet waits there for the sake of another one whose neighbour
/// doesn't answer, and packets of established connections don't.
///
/// In contracts it is the sockets, to whom packets wait, and which connections found no room.
#[derive(Drop)]
pub struct TcpSockets {
    v4: Option<SocketPair>,
    v6: Option<SocketPair>,
    checksum: Checksum,
    far_v4: Destinations,
    far_v6: Destinations,
    waiting: ArrayVec<usize, MOST_WAITING>,
    room: FrameBuffer,
}

impl Model for TcpSockets {
    ghost use Rattle.tcp_sockets.specs.Polls as spec;

    ghost Value = { spec.Carrier };

    ghost view = { λ s. record {
      v4 = s.v4;
      v6 = s.v6;
      checksum = s.checksum;
      far_v4 = s.far_v4;
      far_v6 = s.far_v6;
      waiting = s.waiting.items;
    } };
}

impl TcpSockets {
    /// The sockets of a host. A family without sockets is neither heard nor sent to. `checksum` tells what the device leaves
    /// to the host.
    pub fn new(v4: Option<SocketPair>, v6: Option<SocketPair>, checksum: Checksum) -> TcpSockets
        ensures { result ≡ record { v4 = v4; v6 = v6; checksum = checksum; far_v4 = []; far_v6 = []; waiting = [] } }
    {
        TcpSockets {
            v4,
            v6,
            checksum,
            far_v4: Destinations::new(),
            far_v6: Destinations::new(),
            waiting: ArrayVec::new(),
            room: FrameBuffer::new(),
        }
    }

    /// The same as [`TcpSockets::poll_with_neighbors`], where no next hop is known.
    pub fn poll<L: Drop>(
        &mut self,
        now: u64,
        own: &[IpCidr],
        host: &mut TcpHost,
        sockets: &mut SocketSetOf<L>,
    )
        ensures { spec.Polls spec.NoneIsKnown now own.now (spec.state self.old host.old sockets.old) (spec.state self.new host.new sockets.new) }
    {
        self.poll_with_neighbors(
            now,
            own,
            |_address: IpAddress| -> bool
                ensures { result ≡ false }
            { false },
            host,
            sockets,
        );
    }

    /// Hands what arrived to a host of connections, and sends what is due there.
    ///
    /// Only packets for one of these addresses, from one host, with a right checksum, are heard; others are dropped. A reset
    /// or the cookie of a SYN that is owed is queued, if there is room. Connections at which something is due get their turns, up to 65,536.
    ///
    /// `has_neighbor` tells whether the next hop to an address is known, as `Interface::has_neighbor` does. What finds no
    /// room for a peer that has answered, or to which the next hop is known, stays due: it is asked again in the next poll,
    /// or after 50 ms at the latest. For another peer it counts as sent, as if the link had lost it; its timer sends it
    /// again (RFC 9293 3.8.1). A connection whose address is gone is aborted at its turn, without a word to the peer. It
    /// takes no memory.
    pub fn poll_with_neighbors<L: Drop, F: Fn(IpAddress) -> bool>(
        &mut self,
        now: u64,
        own: &[IpCidr],
        has_neighbor: F,
        host: &mut TcpHost,
        sockets: &mut SocketSetOf<L>,
    )
        requires { F.IsAlwaysCallable has_neighbor }
        ensures { spec.Polls (F.post has_neighbor) now own.now (spec.state self.old host.old sockets.old)
            (spec.state self.new host.new sockets.new) }
    {
        self.hear_family(IpVersion::Ipv4, now, own, &has_neighbor, host, sockets);
        self.hear_family(IpVersion::Ipv6, now, own, &has_neighbor, host, sockets);
        self.resume(now, host);
        self.give_turns(now, own, &has_neighbor, host, sockets);
    }

    // Connections at which something is due get their turns.
    fn give_turns<L: Drop, F: Fn(IpAddress) -> bool>(
        &mut self,
        now: u64,
        own: &[IpCidr],
        has_neighbor: &F,
        host: &mut TcpHost,
        sockets: &mut SocketSetOf<L>,
    )
        requires { F.IsAlwaysCallable has_neighbor.now }
        ensures { spec.GivesTurns (F.post has_neighbor.now) now own.now (spec.state self.old host.old sockets.old)
            (spec.state self.new host.new sockets.new) }
    {
        for _ in 0..MOST_TURNS {
            if !self.give_turn(now, own, has_neighbor, host, sockets) {
                return;
            }
        }
    }

    // Hands what arrived by one family to a host.
    fn hear_family<L: Drop, F: Fn(IpAddress) -> bool>(
        &mut self,
        version: IpVersion,
        now: u64,
        own: &[IpCidr],
        has_neighbor: &F,
        host: &mut TcpHost,
        sockets: &mut SocketSetOf<L>,
    )
        requires { F.IsAlwaysCallable has_neighbor.now }
        ensures { spec.HearsAll (F.post has_neighbor.now) version now own.now (spec.state self.old host.old sockets.old) (spec.state self.new host.new sockets.new) }
    {
        let Some(pair) = self.pair(version) else {
            return;
        };
        for _ in 0..arrived(pair.near, sockets) {
            self.hear(version, pair.near, now, own, has_neighbor, host, sockets);
        }
    }

    // Hands the first packet of a socket to a host.
    fn hear<L: Drop, F: Fn(IpAddress) -> bool>(
        &mut self,
        version: IpVersion,
        near: SocketHandle,
        now: u64,
        own: &[IpCidr],
        has_neighbor: &F,
        host: &mut TcpHost,
        sockets: &mut SocketSetOf<L>,
    )
        requires { F.IsAlwaysCallable has_neighbor.now }
        ensures { spec.Hears (F.post has_neighbor.now) version near now own.now (spec.state self.old host.old sockets.old) (spec.state self.new host.new sockets.new) }
    {
        let checked = self.checksum.rx();
        let Some(socket) = sockets.get_mut::<raw::SocketOf<L>>(near) else {
            return;
        };
        let answer = receive(now, own, checked, host, socket);
        self.answer(version, answer, has_neighbor, sockets);
    }

    // Queues the answer that is owed, if one is and there is room.
    fn answer<L: Drop, F: Fn(IpAddress) -> bool>(
        &mut self,
        version: IpVersion,
        answer: Option<Answer>,
        has_neighbor: &F,
        sockets: &mut SocketSetOf<L>,
    )
        requires { F.IsAlwaysCallable has_neighbor.now }
        ensures { spec.Answers (F.post has_neighbor.now) version answer self.old self.new sockets.old sockets.new }
    {
        if let Some(answer) = answer {
            let is_known = has_neighbor(answer.endpoints.remote_addr);
            self.reply(is_known, version, &answer, sockets);
        }
    }

    // Queues an answer, if there is room.
    fn reply<L: Drop>(
        &mut self,
        is_known: bool,
        version: IpVersion,
        answer: &Answer,
        sockets: &mut SocketSetOf<L>,
    )
        ensures { (h : Host) → spec.state self.new h sockets.new
            ≡ spec.answered is_known version (Some answer.now) (spec.state self.old h sockets.old) }
    {
        let segment = reply_between(&answer.endpoints, &answer.reply);
        if is_known && self.is_half_free(version, sockets) {
            let _is_queued = self.queue_near(version, &segment, sockets);
        } else {
            let _is_queued = self.queue_far(version, &segment, sockets);
        }
    }

    // Whether fewer packets are queued at the near socket than half of those for which there is room.
    fn is_half_free<L: Drop>(&self, version: IpVersion, sockets: &SocketSetOf<L>) -> bool
        ensures { result ≡ spec.is_half_free (spec.pair_of version self.now) sockets.now }
    {
        let Some(pair) = self.pair(version) else {
            return false;
        };
        match sockets.get::<raw::SocketOf<L>>(pair.near) {
            Some(socket) => socket.tx().len() < socket.tx().packet_capacity() / 2,
            None => false,
        }
    }

    // Connections that found no room are due again.
    fn resume(&mut self, now: u64, host: &mut TcpHost)
        ensures carrier { self.new ≡ record self.old { waiting = [] } }
        ensures host { host.new ≡ spec.resumed_in now self.old.waiting host.old }
    {
        resume_each(self.waiting.as_slice(), now, host);
        self.waiting.clear();
    }

    // The connection at which something is due first gets its turn. Returns false, if nothing is due.
    fn give_turn<L: Drop, F: Fn(IpAddress) -> bool>(
        &mut self,
        now: u64,
        own: &[IpCidr],
        has_neighbor: &F,
        host: &mut TcpHost,
        sockets: &mut SocketSetOf<L>,
    ) -> bool
        requires { F.IsAlwaysCallable has_neighbor.now }
        ensures { spec.GivesTurn (F.post has_neighbor.now) now own.now (spec.state self.old host.old sockets.old) result
            (spec.state self.new host.new sockets.new) }
    {
        match host.next_segment(now) {
            Turn::Idle => false,
            Turn::Quiet => true,
            Turn::Sends { place, action } => {
                self.send_from(place, &action, now, own, has_neighbor, host, sockets);
                true
            }
        }
    }

    // Queues what the connection at a place sends.
    fn send_from<L: Drop, F: Fn(IpAddress) -> bool>(
        &mut self,
        place: usize,
        action: &Action,
        now: u64,
        own: &[IpCidr],
        has_neighbor: &F,
        host: &mut TcpHost,
        sockets: &mut SocketSetOf<L>,
    )
        requires callable { F.IsAlwaysCallable has_neighbor.now }
        requires due { option_map action_of (machine.action now (connection_at place host.old)) ≡ Some action.now }
        ensures { (m : machine.Action) → machine.action now (connection_at place host.old) ≡ Some m → action_of m ≡ action.now →
            spec.SendsAs (F.post has_neighbor.now) place now own.now m (spec.state self.old host.old sockets.old)
            (spec.state self.new host.new sockets.new) }
    {
        match self.queue_from(place, action, now, own, has_neighbor, host, sockets) {
            Fate::Queued => host.sent_by(place, now, action),
            Fate::Waits => self.wait(place, now, host),
            Fate::Stranded => {
                host.abort_at(place);
                host.sent(place, now);
            }
        }
    }

    // What the connection at a place sends found no room.
    fn wait(&mut self, place: usize, now: u64, host: &mut TcpHost)
        ensures carrier { self.new ≡ spec.with_waiting place self.old }
        ensures host { host.new ≡ postponed place (spec.later_by_pause now) host.old }
    {
        host.postpone(place, later(now, PAUSE));
        if !self.waiting.is_full() {
            self.waiting.push(place);
        }
    }

    // Queues what the connection at a place sends, if there is room.
    fn queue_from<L: Drop, F: Fn(IpAddress) -> bool>(
        &mut self,
        place: usize,
        action: &Action,
        now: u64,
        own: &[IpCidr],
        has_neighbor: &F,
        host: &TcpHost,
        sockets: &mut SocketSetOf<L>,
    ) -> Fate
        requires { F.IsAlwaysCallable has_neighbor.now }
        ensures { (m : machine.Action) → machine.action now (connection_at place host.now) ≡ Some m → action_of m ≡ action.now →
            spec.QueuesAs (F.post has_neighbor.now) place now own.now m (spec.state self.old host.now sockets.old) result
            (spec.state self.new host.now sockets.new) }
    {
        let Some(segment) = host.outgoing(place, action) else {
            return Fate::Stranded;
        };
        let is_near = is_near(&segment, host.is_heard(place, now), has_neighbor);
        let Some(version) = version_between(&segment.endpoints, own) else {
            return Fate::Stranded;
        };
        self.queue(is_near, version, &segment, sockets)
    }

    // Queues a segment. To a peer that isn't near it is lost, if there is no room.
    fn queue<L: Drop>(
        &mut self,
        is_near: bool,
        version: IpVersion,
        segment: &Outgoing<'_>,
        sockets: &mut SocketSetOf<L>,
    ) -> Fate
        ensures fate { (h : Host) → result ≡ spec.fate_by is_near version (value_of segment.now) (spec.state self.old h sockets.old) }
        ensures after { (h : Host) → spec.state self.new h sockets.new
            ≡ spec.after_by is_near version (value_of segment.now) (spec.state self.old h sockets.old) }
    {
        if is_near {
            fate_if(self.queue_near(version, segment, sockets))
        } else {
            // It is lost, as on a link, if there is no room: its connection sends it again.
            let _is_queued = self.queue_far(version, segment, sockets);
            Fate::Queued
        }
    }

    // Queues a segment to a peer that is near. Returns whether there was room.
    fn queue_near<L: Drop>(
        &mut self,
        version: IpVersion,
        segment: &Outgoing<'_>,
        sockets: &mut SocketSetOf<L>,
    ) -> bool
        ensures fits { result ≡ spec.fits_near (is_tx self.old.checksum) (value_of segment.now) (spec.pair_of version self.old) sockets.old }
        ensures queued { sockets.new
            ≡ spec.after_near (is_tx self.old.checksum) (value_of segment.now) (spec.pair_of version self.old) sockets.old }
        ensures unchanged { self.new ≡ self.old }
    {
        let Some(pair) = self.pair(version) else {
            return false;
        };
        let summed = self.checksum.tx();
        match sockets.get_mut::<raw::SocketOf<L>>(pair.near) {
            Some(socket) => send(segment, summed, socket, &mut self.room).is_ok(),
            None => false,
        }
    }

    // Queues a segment to a peer that isn't near. Returns whether there was room.
    fn queue_far<L: Drop>(
        &mut self,
        version: IpVersion,
        segment: &Outgoing<'_>,
        sockets: &mut SocketSetOf<L>,
    ) -> bool
        ensures fits { result ≡ spec.far_fits (is_tx self.old.checksum) (value_of segment.now) (spec.far_of version self.old)
            (spec.pair_of version self.old) sockets.old }
        ensures queued { sockets.new ≡ spec.after_far (is_tx self.old.checksum) (value_of segment.now) (spec.far_of version self.old)
            (spec.pair_of version self.old) sockets.old }
        ensures waiting { self.new ≡ spec.with_far version (spec.waiting_after_far (is_tx self.old.checksum) (value_of segment.now)
            (spec.far_of version self.old) (spec.pair_of version self.old) sockets.old) self.old }
    {
        let Some(pair) = self.pair(version) else {
            return false;
        };
        let summed = self.checksum.tx();
        let Some(socket) = sockets.get_mut::<raw::SocketOf<L>>(pair.far) else {
            return false;
        };
        match version {
            IpVersion::Ipv4 => {
                send_far(segment, summed, socket, &mut self.far_v4, &mut self.room).is_ok()
            }
            IpVersion::Ipv6 => {
                send_far(segment, summed, socket, &mut self.far_v6, &mut self.room).is_ok()
            }
        }
    }

    // The sockets of a family, if it has any.
    fn pair(&self, version: IpVersion) -> Option<SocketPair>
        ensures { result ≡ spec.pair_of version self.now }
    {
        match version {
            IpVersion::Ipv4 => self.v4,
            IpVersion::Ipv6 => self.v6,
        }
    }
}

// Whether a segment goes by the near socket: its peer was heard within the last minute, or the next hop to it is known.
fn is_near<F: Fn(IpAddress) -> bool>(
    segment: &Outgoing<'_>,
    is_heard: bool,
    has_neighbor: &F,
) -> bool
    requires { F.IsAlwaysCallable has_neighbor.now }
    ensures { spec.IsNearBy (F.post has_neighbor.now) segment.now.endpoints.remote_addr is_heard result }
{
    if is_heard {
        return true;
    }
    has_neighbor(segment.endpoints.remote_addr)
}

// How many packets arrived at a socket.
fn arrived<L: Drop>(near: SocketHandle, sockets: &SocketSetOf<L>) -> usize
    ensures { result ≡ spec.arrived (spec.raw_at near sockets.now) }
{
    match sockets.get::<raw::SocketOf<L>>(near) {
        Some(socket) => socket.rx().len(),
        None => 0,
    }
}

// Connections at places are due again.
fn resume_each(places: &[usize], now: u64, host: &mut TcpHost)
    ensures { host.new ≡ spec.resumed_in now places.now host.old }
{
    for place in places {
        host.postpone(*place, now);
    }
}

// What becomes of a segment for which there is room, or isn't.
fn fate_if(is_queued: bool) -> Fate
    ensures { result ≡ spec.fate_if is_queued }
{
    if is_queued { Fate::Queued } else { Fate::Waits }
}
