//! Packets that have to be cut, of which one goes at a time.
ghost use Rattle.std.specs.Prelude.{◌≡◌, ◌-◌, length};
ghost use Rattle.net_base.specs.Time.{IsMoment};
ghost use Rattle.egress_schedule.specs.LongPackets as spec;
ghost use Rattle.egress_schedule.specs.LongPackets.{after_setting_aside_at, has_long, may_have_long, some_may_have_long};
ghost use Rattle.egress_schedule.specs.Plan.{each_of, first_from, next_in_turn, planned};

use crate::queues::{first_len, has_others};
use crate::schedule::Schedule;
use crate::turns::turn_after;
use net_base::time::Instant;
use socket_set::{SocketSetOf, by_index};

impl Schedule {
    /// Lets the sockets whose first packet is long not be asked, but for the one whose turn it is; that one too,
    /// while a piece is left.
    #[inline(never)]
    pub(crate) fn set_aside<L: Drop>(
        &mut self,
        now: Instant,
        ip_mtu: usize,
        is_piece_left: bool,
        sockets: &mut SocketSetOf<L>,
    )
        requires { IsMoment now }
        ensures { planned self.new sockets.new
            ≡ spec.after_setting_aside ip_mtu now is_piece_left (planned self.old sockets.old) }
    {
        let next = self.next_of_long(ip_mtu, is_piece_left, sockets);
        let turn = self.fragment_turn_after(is_piece_left, next);
        let may_have_long = self.some_may_have_long(ip_mtu, sockets);
        self.set_all_aside(next, now, ip_mtu, sockets);
        self.fragment_turn = turn;
        self.may_have_long = may_have_long;
    }

    /// The index of the socket that may send a long packet; their number, where none may.
    fn next_of_long<L: Drop>(
        &self,
        ip_mtu: usize,
        is_piece_left: bool,
        sockets: &SocketSetOf<L>,
    ) -> usize
        ensures { result ≡ spec.next_long ip_mtu is_piece_left (planned self.now sockets.now) }
    {
        let count = self.watches.len();
        if is_piece_left {
            count
        } else {
            next_long(self.fragment_turn, count, ip_mtu, sockets)
        }
    }

    /// The turn after the socket at an index had it. While a piece is left it stays.
    fn fragment_turn_after(&self, is_piece_left: bool, next: usize) -> usize
        ensures { result ≡ spec.fragment_turn_after is_piece_left next self.now }
    {
        if is_piece_left {
            self.fragment_turn
        } else {
            turn_after(self.watches.len(), self.fragment_turn, next)
        }
    }

    /// Whether some socket has a long packet to send first, or may have one behind its first packet.
    fn some_may_have_long<L: Drop>(&self, ip_mtu: usize, sockets: &SocketSetOf<L>) -> bool
        ensures { result ≡ some_may_have_long ip_mtu (planned self.now sockets.now) }
    {
        let count = self.watches.len();
        first_maybe_long(count, ip_mtu, sockets) < count
    }

    /// Lets all sockets whose first packet is long not be asked, but for one.
    fn set_all_aside<L: Drop>(
        &mut self,
        next: usize,
        now: Instant,
        ip_mtu: usize,
        sockets: &mut SocketSetOf<L>,
    )
        requires { IsMoment now }
        ensures { planned self.new sockets.new
            ≡ each_of (after_setting_aside_at ip_mtu now next)
            (length self.old.watches) (planned self.old sockets.old) }
    {
        for index in 0..self.watches.len() {
            self.set_aside_at(index, next, now, ip_mtu, sockets);
        }
    }

    /// Lets the socket at an index not be asked, if its first packet is long and it isn't its turn.
    fn set_aside_at<L: Drop>(
        &mut self,
        index: usize,
        next: usize,
        now: Instant,
        ip_mtu: usize,
        sockets: &mut SocketSetOf<L>,
    )
        requires { IsMoment now }
        ensures { planned self.new sockets.new
            ≡ after_setting_aside_at ip_mtu now next index (planned self.old sockets.old) }
    {
        if has_long(index, ip_mtu, sockets) && index != next {
            self.set_wait_aside(index, now, sockets);
        }
    }
}

/// The index of the socket whose turn it is to send a long packet; their number, where none has one.
fn next_long<L: Drop>(turn: usize, count: usize, ip_mtu: usize, sockets: &SocketSetOf<L>) -> usize
    ensures { result ≡ next_in_turn (has_long ip_mtu sockets.now) turn count }
{
    let next = first_long(turn, count, ip_mtu, sockets);
    if next < count {
        next
    } else {
        first_long(0, count, ip_mtu, sockets)
    }
}

/// The first index from one on whose socket's first packet is long; the number of indices if there is none.
fn first_long<L: Drop>(from: usize, count: usize, ip_mtu: usize, sockets: &SocketSetOf<L>) -> usize
    ensures { result ≡ first_from (has_long ip_mtu sockets.now) from (count - from) }
{
    for index in from..count {
        if has_long(index, ip_mtu, sockets) {
            return index;
        }
    }
    from.max(count)
}

/// Whether the first packet of the socket at an index is longer than the link's packets.
fn has_long<L: Drop>(index: usize, ip_mtu: usize, sockets: &SocketSetOf<L>) -> bool
    ensures { result ≡ has_long ip_mtu sockets.now index }
{
    match by_index::socket(sockets, index) {
        None => false,
        Some(socket) => ip_mtu < first_len(socket),
    }
}

/// The first index whose socket's first packet is long, or may be followed by a long one; the number of indices if there
/// is none.
fn first_maybe_long<L: Drop>(count: usize, ip_mtu: usize, sockets: &SocketSetOf<L>) -> usize
    ensures { result ≡ first_from (may_have_long ip_mtu sockets.now) 0 count }
{
    for index in 0..count {
        if may_have_long(index, ip_mtu, sockets) {
            return index;
        }
    }
    count
}

/// Whether the first packet of the socket at an index is longer than the link's packets, or others wait behind it.
fn may_have_long<L: Drop>(index: usize, ip_mtu: usize, sockets: &SocketSetOf<L>) -> bool
    ensures { result ≡ may_have_long ip_mtu sockets.now index }
{
    match by_index::socket(sockets, index) {
        None => false,
        Some(socket) => ip_mtu < first_len(socket) || has_others(socket),
    }
}
