//! A schedule of a set of sockets.
ghost use Rattle.std.specs.Prelude.{◌≡◌, true, IfOk, IsSome, IsNone, get_or};
ghost use Rattle.net_base.specs.Time.{IsMoment};
ghost use Rattle.egress_schedule.specs.Plan.{first_plan, given_up_at, idle, planned};
ghost use Rattle.egress_schedule.specs.Plan.{waiting_at, with_watch, without_given_up};
ghost use Rattle.egress_schedule.specs.Patience.{after_look};
ghost use Rattle.egress_schedule.specs.Rounds.{after_round, before_round, with_long_set_aside, with_turns_taken};
ghost use Rattle.egress_schedule.specs.Rounds.{with_packets_brought, with_packets_passing, with_waits_ended};

use crate::passing::Neighbors;
use crate::watch::{Waiting, Watch};
use ip_wire::IpAddress;
use net_base::time::{Duration, Instant};
use socket_set::{SocketHandle, SocketSetOf, by_index};
use std::alloc::{AllocError, Global};
use std::marker::Model;

/// A schedule of a set of sockets.
///
/// In contracts it is the patience, what is written down of each socket, for how many sockets memory is reserved, whose
/// turn it is, and what was given up. No call changes for how many, so only [`Schedule::new`] takes memory.
#[derive(Drop)]
pub struct Schedule {
    pub(crate) patience: Duration,
    pub(crate) watches: Vec<Watch>,
    pub(crate) discovery_turn: usize,
    pub(crate) fragment_turn: usize,
    // When a socket last asked for its neighbour.
    pub(crate) asked: Option<Instant>,
    pub(crate) given_up: u64,
    pub(crate) is_waiting: bool,
    pub(crate) may_have_long: bool,
    // Whether it may be written down of some socket that it waits, or whom it just gave up.
    pub(crate) may_have_notes: bool,
}

impl Model for Schedule {
    ghost use Rattle.std.specs.Prelude.{◌≡◌, false, vec_capacity};
    ghost use Rattle.egress_schedule.specs.Patience.{NoneIsNoted};
    ghost use Rattle.egress_schedule.specs.Plan.{Plan};

    ghost Value = { Plan };

    ghost view = { λ s. record {
      patience = s.patience;
      watches = s.watches.items;
      room = vec_capacity s.watches;
      discovery_turn = s.discovery_turn;
      fragment_turn = s.fragment_turn;
      asked = s.asked;
      given_up = s.given_up;
      is_waiting = s.is_waiting;
      may_have_long = s.may_have_long;
    } };

    ghost invariant = { λ s. s.may_have_notes ≡ false → NoneIsNoted s.watches.items };
}

impl Schedule {
    /// A schedule of so many sockets, none of which waits. A packet is given up that waited so long for its
    /// neighbour; a patience of no time is one for ever. It fails if memory is refused.
    pub fn new(alloc: Global, sockets: usize, patience: Duration) -> Result<Schedule, AllocError>
        ensures { IfOk result (λ schedule. schedule ≡ first_plan patience sockets schedule.room) }
    {
        Ok(Schedule {
            patience,
            watches: Vec::from_elem(alloc, Watch::IDLE, sockets)?,
            discovery_turn: 0,
            fragment_turn: 0,
            asked: None,
            given_up: 0,
            is_waiting: false,
            may_have_long: false,
            may_have_notes: false,
        })
    }

    /// How long a packet waits for its neighbour before it is given up; no time is for ever.
    pub fn patience(&self) -> Duration
        ensures { result ≡ self.now.patience }
    {
        self.patience
    }

    /// How many packets were given up.
    pub fn given_up(&self) -> u64
        ensures { result ≡ self.now.given_up }
    {
        self.given_up
    }

    /// Whether some socket waited for its neighbour after the last round.
    #[inline(always)]
    pub fn is_waiting(&self) -> bool
        ensures { result ≡ self.now.is_waiting }
    {
        self.is_waiting
    }

    /// The destination of the packet that the socket of a handle gave up last, if one was given up since this was
    /// asked. At `None` nothing changes.
    pub fn take_given_up(&mut self, handle: SocketHandle) -> Option<IpAddress>
        ensures told { result ≡ given_up_at handle self.old }
        ensures once { IsSome result → self.new ≡ without_given_up handle self.old }
        ensures unchanged { IsNone result → self.new ≡ self.old }
    {
        let index = by_index::index_of(handle);
        let watch = self.watches.get_mut(index)?;
        let given_up = watch.given_up?;
        watch.given_up = None;
        Some(given_up)
    }

    /// For whom the socket of a handle waits, since when, and until when it doesn't ask again.
    /// `None` if it doesn't wait.
    pub fn waiting<L: Drop>(
        &self,
        sockets: &SocketSetOf<L>,
        handle: SocketHandle,
    ) -> Option<Waiting>
        ensures { result ≡ waiting_at handle (planned self.now sockets.now) }
    {
        self.waiting_at(sockets, by_index::index_of(handle))
    }

    /// For whom the socket at an index waits.
    pub(crate) fn waiting_at<L: Drop>(
        &self,
        sockets: &SocketSetOf<L>,
        index: usize,
    ) -> Option<Waiting>
        ensures { result ≡ waiting_at index (planned self.now sockets.now) }
    {
        if by_index::wait(sockets, index).is_some() {
            self.noted_wait(index)
        } else {
            None
        }
    }

    /// Forgets what is written down of the socket of a handle, as where another one is opened in its place.
    pub fn forget(&mut self, handle: SocketHandle)
        ensures { self.new ≡ with_watch handle idle self.old }
    {
        self.set_watch(by_index::index_of(handle), Watch::IDLE);
    }

    /// Tells that a packet may be longer than the link's packets, which is queued now.
    pub fn expect_long_packet(&mut self)
        ensures { self.new ≡ record self.old { may_have_long = true } }
    {
        self.may_have_long = true;
    }

    /// Prepares a round of an interface, which polls at a moment. Of the sockets whose first packet is longer than the
    /// link's packets, only the one whose turn it is will be asked, and none while a piece of a packet is left. Of the
    /// sockets whose waits are over, those that aren't asked and those before the one whose turn it is wait a second more.
    /// Where one has its turn, those before it that don't wait aren't asked, so a packet of theirs goes in the next round.
    /// Of a socket that waits the first packet to a neighbour that is known goes before the others, in their order, unless its
    /// wait is over; its wait goes on after the round.
    pub fn before_round<L: Drop, N: Neighbors>(
        &mut self,
        now: Instant,
        ip_mtu: usize,
        is_piece_left: bool,
        neighbors: &N,
        sockets: &mut SocketSetOf<L>,
    )
        requires { IsMoment now }
        ensures { planned self.new sockets.new
            ≡ before_round (N.knows neighbors.now) now ip_mtu is_piece_left (planned self.old sockets.old) }
    {
        self.bring_packets(now, neighbors, sockets);
        self.prepare_long(now, ip_mtu, is_piece_left, sockets);
        self.prepare_waiting(now, sockets);
        self.let_packets_pass(now, neighbors, sockets);
    }

    /// Lets the sockets that wait have the packets first that may go, if some wait.
    fn bring_packets<L: Drop, N: Neighbors>(
        &self,
        now: Instant,
        neighbors: &N,
        sockets: &mut SocketSetOf<L>,
    )
        ensures { planned self.now sockets.new
            ≡ with_packets_brought (N.knows neighbors.now) now (planned self.now sockets.old) }
    {
        if self.is_waiting {
            self.bring_all(now, neighbors, sockets);
        }
    }

    /// Lets sockets be asked whose first packet may go although they wait, if some wait.
    fn let_packets_pass<L: Drop, N: Neighbors>(
        &mut self,
        now: Instant,
        neighbors: &N,
        sockets: &mut SocketSetOf<L>,
    )
        ensures { planned self.new sockets.new
            ≡ with_packets_passing (N.knows neighbors.now) now (planned self.old sockets.old) }
    {
        if self.is_waiting {
            self.pass_all(now, neighbors, sockets);
        }
    }

    /// Lets the sockets that wait ask in turn, if some wait.
    fn prepare_waiting<L: Drop>(&mut self, now: Instant, sockets: &mut SocketSetOf<L>)
        requires { IsMoment now }
        ensures { planned self.new sockets.new ≡ with_turns_taken now (planned self.old sockets.old) }
    {
        if self.is_waiting {
            self.take_turns(now, sockets);
        }
    }

    /// Lets one long packet go, if there may be some.
    fn prepare_long<L: Drop>(
        &mut self,
        now: Instant,
        ip_mtu: usize,
        is_piece_left: bool,
        sockets: &mut SocketSetOf<L>,
    )
        requires { IsMoment now }
        ensures { planned self.new sockets.new
            ≡ with_long_set_aside ip_mtu now is_piece_left (planned self.old sockets.old) }
    {
        if self.may_have_long {
            self.set_aside(now, ip_mtu, is_piece_left, sockets);
        }
    }

    /// Ends a round. Sockets that weren't to be asked may be asked again, and it is written down which sockets wait.
    /// They may all ask again at one instant. A packet that waited as long as the patience is dropped and counted; so
    /// is one to the neighbour that its socket gave up in the round before.
    pub fn after_round<L: Drop>(&mut self, now: Instant, sockets: &mut SocketSetOf<L>)
        ensures { planned self.new sockets.new ≡ after_round now (planned self.old sockets.old) }
    {
        if self.may_have_long || self.is_waiting {
            self.put_all_back(sockets);
        }
        self.end_waits(now, sockets);
    }

    /// Writes down which sockets wait, lets them all ask again at one instant, and gives up the packets that waited as long
    /// as the patience.
    fn end_waits<L: Drop>(&mut self, now: Instant, sockets: &mut SocketSetOf<L>)
        ensures { planned self.new sockets.new ≡ with_waits_ended now (after_look now (planned self.old sockets.old)) }
    {
        if self.is_waiting && self.stays_as_it_is(now, sockets) {
            return;
        }
        self.look(now, sockets);
        if self.is_waiting {
            self.align(sockets);
            self.give_up(now, sockets);
        }
    }

    /// What is written down of the socket at an index.
    pub(crate) fn watch(&self, index: usize) -> Watch
        ensures { result ≡ get_or self.now.watches index idle }
    {
        match self.watches.get(index) {
            Some(watch) => *watch,
            None => Watch::IDLE,
        }
    }

    /// For whom it is written down that the socket at an index waits.
    pub(crate) fn noted_wait(&self, index: usize) -> Option<Waiting>
        ensures { result ≡ (get_or self.now.watches index idle).waiting }
    {
        match self.watches.get(index) {
            Some(watch) => watch.waiting,
            None => None,
        }
    }

    /// Writes down for whom the socket at an index waits.
    #[inline(never)]
    pub(crate) fn set_waiting(&mut self, index: usize, waiting: Option<Waiting>)
        ensures { self.new
            ≡ with_watch index (record (get_or self.old.watches index idle) { waiting = waiting }) self.old }
    {
        self.may_have_notes |= waiting.is_some();
        if let Some(watch) = self.watches.get_mut(index) {
            watch.waiting = waiting;
        }
    }

    /// Writes down whom the socket at an index just gave up.
    pub(crate) fn set_unreachable(&mut self, index: usize, unreachable: Option<IpAddress>)
        ensures { self.new
            ≡ with_watch index (record (get_or self.old.watches index idle) { unreachable = unreachable }) self.old }
    {
        self.may_have_notes |= unreachable.is_some();
        if let Some(watch) = self.watches.get_mut(index) {
            watch.unreachable = unreachable;
        }
    }

    /// Writes down the own wait of the socket at an index, while it isn't to be asked.
    pub(crate) fn set_aside_wait(
        &mut self,
        index: usize,
        wait: Option<Option<(IpAddress, Instant)>>,
    )
        ensures { self.new
            ≡ with_watch index (record (get_or self.old.watches index idle) { set_aside = wait }) self.old }
    {
        if let Some(watch) = self.watches.get_mut(index) {
            watch.set_aside = wait;
        }
    }

    /// Writes down something else of the socket at an index.
    pub(crate) fn set_watch(&mut self, index: usize, watch: Watch)
        ensures { self.new ≡ with_watch index watch self.old }
    {
        self.may_have_notes |= watch.is_noted();
        if let Some(place) = self.watches.get_mut(index) {
            *place = watch;
        }
    }
}
