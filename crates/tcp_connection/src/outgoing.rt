//! What a connection sends, and when (RFC 9293 3.7.4, 3.8.6.2.1, 3.10.7.4; RFC 5681).
ghost use Rattle.std.specs.Prelude.{◌≡◌, ◌≤◌, ◌+◌, [], ◌∷◌, min, max, Some};
ghost use Rattle.std.specs.Option.{option_map};
ghost use Rattle.tcp_machine.specs.Outgoing as outgoing;
ghost use Rattle.std.specs.List.{filter_map};
ghost use Rattle.tcp_connection.specs.Actions.{action_of, IsHeader, AreBlocks, AreOctets, after_sending};
ghost use Rattle.tcp_connection.specs.Blocks as blocks;
ghost use Rattle.tcp_connection.specs.Asked.{is_only_challenged, is_otherwise_silent};
ghost use Rattle.tcp_connection.specs.Pieces.{part_of, IsPieceOf};
ghost use Rattle.tcp_machine.specs.Pieces.{Piece, after_piece};
ghost use Rattle.tcp_connection.specs.Details.Bounds.{last, after_part};
ghost use Rattle.tcp_connection.specs.Details.Sent as sent;

use crate::connection::Connection;
use crate::instants::{is_owed, later, since_first};
use crate::states::{is_opening, is_syn_received, is_syn_sent, is_synchronized, sends_octets};
use crate::transmission::Part;
use net_base::assembler::Range;
use tcp_machine::positions::number_at;
use tcp_machine::sack::SackBlock;
use tcp_machine::state::State;
use tcp_machine::timers::{Measured, Owed, Pending, Timers};

/// What is sent.
#[derive(Clone, Copy, Debug, PartialEq, Eq)]
pub enum Action {
    /// A reset with this number, and no acknowledgement.
    SendReset(u32),
    /// The own SYN.
    SendSyn,
    /// A piece from the next position on.
    SendNext(Part),
    /// The first unacknowledged piece once more.
    SendAgain(Part),
    /// A probe of a closed window: one octet, or the end.
    SendProbe(Part),
    /// An empty segment before the position of an acknowledgement alone.
    SendKeepAlive,
    /// An acknowledgement alone, after all that was sent.
    SendAck,
}

/// The values of a segment that is sent, apart from ports, options, octets and checksum.
#[derive(Clone, Copy, Debug, PartialEq, Eq)]
pub struct Header {
    pub number: u32,
    pub ack: Option<u32>,
    /// The window as it stands in the header.
    pub window: u16,
    pub syn: bool,
    pub fin: bool,
    pub rst: bool,
}

impl Connection {
    /// What is sent now, if anything. [`Connection::header`] and [`Connection::octets`] give its segment, and
    /// [`Connection::sent`] has to be called once that was sent.
    pub fn next_action(&self, now: u64) -> Option<Action>
        ensures { result ≡ option_map action_of (outgoing.action now self.now) }
    {
        if !is_opening(self.state) || self.resets() {
            return self.pending_action(now);
        }
        if self.is_syn_due(now) {
            return Some(Action::SendSyn);
        }
        self.ack_if(matches!(self.pending, Pending::Challenge) && !is_syn_sent(self.state))
    }

    /// Whether a reset is to be sent.
    fn resets(&self) -> bool
        ensures { result ≡ outgoing.is_reset self.now.pending }
    {
        matches!(self.pending, Pending::Reset(_))
    }

    /// Whether the own SYN is sent now, while it isn't acknowledged: at first, when its time-out has ended, and in answer to the
    /// peer's.
    fn is_syn_due(&self, now: u64) -> bool
        ensures { result ≡ outgoing.is_syn_due now self.now }
    {
        self.transmission.nxt() == 0
            || is_owed(self.reception.owed(), now)
            || matches!(self.pending, Pending::SynAgain)
    }

    /// What is sent once the own SYN is acknowledged, or by a connection that is no more.
    fn pending_action(&self, now: u64) -> Option<Action>
        ensures { result ≡ option_map action_of (outgoing.action_pending self.now.pending now self.now) }
    {
        match self.pending {
            Pending::Empty => self.unforced_action(now),
            Pending::Challenge | Pending::SynAgain => self.ack_if(is_synchronized(self.state)),
            Pending::KeepAlive => Some(Action::SendKeepAlive),
            Pending::Probe => self.probe_action(),
            Pending::Resend => Some(Action::SendAgain(self.again_part())),
            Pending::Reset(number) => Some(Action::SendReset(number)),
        }
    }

    /// What probes the peer: what its window has room for, whatever that is worth (RFC 9293 3.8.6.2.1); where there is no
    /// room, one octet beyond it, or the end (3.8.6.1).
    fn probe_action(&self) -> Option<Action>
        ensures { result ≡ option_map action_of (outgoing.probe_action self.now) }
    {
        let part = self.next_part();
        if sends_octets(self.state) && part.len > 0 {
            Some(Action::SendNext(part))
        } else {
            Some(Action::SendProbe(self.first_part(1)))
        }
    }

    /// An acknowledgement alone.
    fn ack_if(&self, tells: bool) -> Option<Action>
        ensures { result ≡ option_map action_of (outgoing.ack_if tells) }
    {
        if tells { Some(Action::SendAck) } else { None }
    }

    /// What is sent where nothing is pending: the next piece, or an acknowledgement that is owed.
    fn unforced_action(&self, now: u64) -> Option<Action>
        ensures { result ≡ option_map action_of (outgoing.next_action now self.now) }
    {
        let part = self.next_part();
        if sends_octets(self.state) && self.is_worth_sending(&part) {
            return Some(Action::SendNext(part));
        }
        self.ack_if(is_synchronized(self.state) && self.tells_something(now))
    }

    /// Whether only a challenge is to be sent: an acknowledgement, or the own SYN once more, that answers a segment which may be
    /// an attacker's (RFC 5961), where nothing would be sent now without that segment, and no acknowledgement would be owed.
    pub fn is_only_challenged(&self, now: u64) -> bool
        ensures { result ≡ is_only_challenged now self.now }
    {
        matches!(self.pending, Pending::Challenge | Pending::SynAgain)
            && matches!(self.reception.owed(), Owed::Nothing)
            && self.is_otherwise_silent(now)
    }

    /// Whether nothing would be sent now, if no segment were to be answered.
    fn is_otherwise_silent(&self, now: u64) -> bool
        ensures { result ≡ is_otherwise_silent now self.now }
    {
        if is_synchronized(self.state) {
            self.unforced_action(now).is_none()
        } else {
            is_syn_received(self.state) && self.transmission.nxt() != 0
        }
    }

    /// Whether an acknowledgement is to be sent by itself.
    fn tells_something(&self, now: u64) -> bool
        ensures { result ≡ outgoing.tells_something now self.now }
    {
        is_owed(self.reception.owed(), now) || self.reception.is_update_due(self.settings.own_mss)
    }

    /// The first position that may not be sent.
    fn limit(&self) -> u64
        ensures { result ≡ outgoing.limit_of self.now }
    {
        let told = self.transmission.told_edge();
        if self.settings.congestion_control {
            let una = self.transmission.una();
            let beyond = self.beyond_window();
            told.min(
                una.saturating_add(self.congestion.window)
                    .saturating_add(beyond),
            )
        } else {
            told
        }
    }

    /// The next piece.
    pub(crate) fn next_part(&self) -> Part
        ensures { result ≡ part_of (outgoing.next_piece self.now) }
    {
        let nxt = self.transmission.nxt();
        let left = self.limit().saturating_sub(nxt);
        let most = u64::from(self.transmission.mss()).min(left);
        self.transmission.part_from(nxt, most as usize)
    }

    /// The first unacknowledged piece, with so many octets at most.
    fn first_part(&self, most: usize) -> Part
        ensures { result ≡ part_of (outgoing.first_piece most self.now) }
    {
        let una = self.transmission.una();
        self.transmission.part_from(una, most)
    }

    /// What is sent again: of what was sent, and what the window told last has room for; in a recovery the next hole.
    fn again_part(&self) -> Part
        ensures { result ≡ part_of (outgoing.again_piece self.now) }
    {
        let start = self.again_from();
        let end = self.transmission.top().max(self.transmission.told_edge());
        let left = self
            .transmission
            .end_of_hole(start, end)
            .saturating_sub(start);
        let most = u64::from(self.transmission.mss()).min(left) as usize;
        self.transmission.part_from(start, most)
    }

    /// Whether Nagle's rule holds short segments back (RFC 9293 3.7.4).
    fn is_held_by_nagle(&self) -> bool
        ensures { result ≡ outgoing.is_held_by_nagle self.now }
    {
        self.settings.nagle
            && self.transmission.stop().is_none()
            && self.transmission.una() < self.transmission.nxt()
    }

    /// Whether the next piece is sent now (RFC 9293 3.8.6.2.1).
    pub(crate) fn is_worth_sending(&self, part: &Part) -> bool
        requires { part.now ≡ part_of (outgoing.next_piece self.now) }
        ensures { result ≡ outgoing.is_worth_sending self.now (outgoing.next_piece self.now) }
    {
        if part.ends {
            return true;
        }
        let len = part.len as u64;
        let mss = u64::from(self.transmission.mss());
        len > 0
            && (mss <= len
                || (self.is_last(part) && !self.is_held_by_nagle())
                || self.transmission.largest_window() <= len.saturating_mul(2)
                || part.start < self.transmission.top())
    }

    /// Whether a piece has the last octets.
    fn is_last(&self, part: &Part) -> bool
        ensures { result ≡ sent.is_last_part part.now self.now.transmission.sender }
    {
        let end = self.transmission.una() + self.transmission.held() as u64;
        end.saturating_sub(part.start) <= part.len as u64
    }

    /// The header of what is sent.
    pub fn header(&self, action: &Action) -> Header
        ensures { IsHeader action.now self.now result }
    {
        match *action {
            Action::SendReset(number) => reset_header(number),
            Action::SendSyn => self.syn_header(),
            Action::SendNext(part) | Action::SendAgain(part) | Action::SendProbe(part) => {
                Header {
                    fin: part.ends,
                    ..self.header_at(part.start)
                }
            }
            Action::SendKeepAlive => {
                self.header_at(self.transmission.empty_position().saturating_sub(1))
            }
            Action::SendAck => self.header_at(self.transmission.empty_position()),
        }
    }

    /// The header of an empty segment at a position.
    fn header_at(&self, position: u64) -> Header
        ensures { result ≡ sent.header_at position self.now }
    {
        let promise = self.reception.next_promise(self.settings.own_mss);
        Header {
            number: number_at(self.local, position),
            ack: Some(number_at(self.remote, self.reception.expected())),
            window: self.reception.window_field(promise),
            syn: false,
            fin: false,
            rst: false,
        }
    }

    /// The header of the own SYN. Its window isn't scaled (RFC 7323 2.2).
    fn syn_header(&self) -> Header
        ensures { result ≡ sent.syn_header self.now }
    {
        let room = self.reception.room();
        let ack = match self.state {
            State::SynSent => None,
            State::Closed
            | State::Listen
            | State::SynReceived
            | State::Established
            | State::FinWait1
            | State::FinWait2
            | State::CloseWait
            | State::Closing
            | State::LastAck
            | State::TimeWait => Some(number_at(self.remote, self.reception.expected())),
        };
        Header {
            number: number_at(self.local, 0),
            ack,
            window: room.min(65_535) as u16,
            syn: true,
            fin: false,
            rst: false,
        }
    }

    /// The blocks of what is sent: those of an acknowledgement without octets, and none of any other segment (RFC 2018 4).
    pub fn blocks(&self, action: &Action) -> [Option<SackBlock>; 3]
        ensures { AreBlocks action.now self.now result }
    {
        match *action {
            Action::SendAck | Action::SendKeepAlive => self.blocks_told(),
            Action::SendReset(_)
            | Action::SendSyn
            | Action::SendNext(_)
            | Action::SendAgain(_)
            | Action::SendProbe(_) => [None; 3],
        }
    }

    /// The blocks of an acknowledgement, by their numbers.
    fn blocks_told(&self) -> [Option<SackBlock>; 3]
        ensures { result ≡ blocks.places_of (outgoing.blocks_on_wire self.now) }
    {
        let [first, second, third] = self.reception.blocks();
        in_front(
            on_wire(self.remote, first),
            on_wire(self.remote, second),
            on_wire(self.remote, third),
        )
    }

    /// The octets of what is sent, lent by the connection.
    #[tactic(auto, using(crate::proofs::ActionLemmas::are_octets))]
    pub fn octets(&self, action: &Action) -> &[u8]
        ensures { AreOctets action.now self.now result.now }
    {
        self.octets_of(action)
    }

    /// The octets of a piece of what is held.
    fn octets_of(&self, action: &Action) -> &[u8]
        ensures { result.now ≡ sent.octets_in action.now self.now }
    {
        match *action {
            Action::SendNext(part) => self.transmission.octets(&part),
            Action::SendAgain(part) => self.transmission.octets(&part),
            Action::SendProbe(part) => self.transmission.octets(&part),
            Action::SendReset(_) | Action::SendSyn | Action::SendKeepAlive | Action::SendAck => &[],
        }
    }

    /// What was to be sent at this instant was sent.
    pub fn sent(&mut self, now: u64, action: &Action)
        requires { option_map action_of (outgoing.action now self.old) ≡ Some action.now }
        ensures { self.new ≡ after_sending now self.old }
    {
        let nxt = self.transmission.nxt();
        let _una = self.transmission.una();
        match *action {
            Action::SendReset(_) => self.pending = Pending::Empty,
            Action::SendSyn => self.syn_sent(now),
            Action::SendNext(part) => self.next_sent(now, &part),
            Action::SendAgain(part) => self.again_sent(now, &part, nxt),
            Action::SendProbe(part) => self.probe_sent(now, &part),
            Action::SendKeepAlive | Action::SendAck => self.tell(),
        }
    }

    /// An acknowledgement was sent.
    fn tell(&mut self)
        ensures { self.new ≡ outgoing.told_to_peer self.old }
    {
        let promise = self.reception.next_promise(self.settings.own_mss);
        self.reception.told(promise);
        self.pending = Pending::Empty;
    }

    /// The own SYN was sent.
    fn syn_sent(&mut self, now: u64)
        ensures { self.new ≡ outgoing.syn_sent now self.old }
    {
        let room = self.reception.room() as u64;
        let told = self.reception.promised().max(1 + room.min(65_535));
        self.reception.told(told);
        self.pending = Pending::Empty;
        self.timers.measured = measured_syn(now, &self.timers);
        self.start_resend_timer(now);
        let _una = self.transmission.una();
        self.transmission.go_back(1);
    }

    /// The next piece was sent.
    fn next_sent(&mut self, now: u64, part: &Part)
        requires sent { part.now.start ≤ self.old.transmission.sender.top }
        requires piece { IsPieceOf part.now self.old.transmission.sender }
        ensures { (p : Piece) → part_of p ≡ part.now → self.new ≡ outgoing.piece_sent now p (after_piece p) self.old }
    {
        let nxt = self.transmission.end_of(part);
        self.piece_sent(now, part, nxt);
    }

    /// A piece was sent again.
    fn again_sent(&mut self, now: u64, part: &Part, nxt: u64)
        requires sent { part.now.start ≤ self.old.transmission.sender.top }
        requires piece { IsPieceOf part.now self.old.transmission.sender }
        requires nxt { nxt ≤ max self.old.transmission.sender.top (after_part part.now.start part.now.len part.now.ends) }
        ensures { (p : Piece) → part_of p ≡ part.now →
            self.new ≡ outgoing.again_sent p (outgoing.piece_sent now p nxt self.old) }
    {
        let _end = self.transmission.end_of(part);
        self.piece_sent(now, part, nxt);
        if self.reception.sack_permitted() {
            self.transmission.resend_from(part.start + part.len as u64);
        }
    }

    /// A piece was sent, and the next one begins at `nxt`.
    fn piece_sent(&mut self, now: u64, part: &Part, nxt: u64)
        requires sent { part.now.start ≤ self.old.transmission.sender.top }
        requires piece { IsPieceOf part.now self.old.transmission.sender }
        requires nxt { nxt ≤ max self.old.transmission.sender.top (after_part part.now.start part.now.len part.now.ends) }
        ensures { (p : Piece) → part_of p ≡ part.now → self.new ≡ outgoing.piece_sent now p nxt self.old }
    {
        let position = self.transmission.end_of(part);
        let is_new = self.transmission.top() <= part.start;
        if is_new && self.timers.measured.is_none() {
            self.timers.measured = Some(Measured {
                position,
                sent_at: now,
            });
        }
        self.timers.sent_at = now;
        self.start_resend_timer(now);
        self.tell();
        self.transmission.send(part, nxt);
        self.transmission
            .try_path(part.len, part.start + part.len as u64);
    }

    /// A probe was sent. It takes no position until it is acknowledged.
    fn probe_sent(&mut self, now: u64, part: &Part)
        requires sent { part.now.start ≤ self.old.transmission.sender.top }
        requires piece { IsPieceOf part.now self.old.transmission.sender }
        ensures { (p : Piece) → part_of p ≡ part.now → self.new ≡ outgoing.probe_sent now p self.old }
    {
        let _end = self.transmission.end_of(part);
        self.timers.resend_at = Some(later(now, self.estimator.timeout));
        self.timers.waiting_since = since_first(now, self.timers.waiting_since);
        self.tell();
        let nxt = self.transmission.nxt();
        self.transmission.send(part, nxt);
    }

    /// The timer runs from the first segment that isn't acknowledged.
    fn start_resend_timer(&mut self, now: u64)
        ensures { self.new ≡ sent.with_resend_timer now self.old }
    {
        if self.timers.resend_at.is_none() {
            self.timers.resend_at = Some(later(now, self.estimator.timeout));
        }
        self.timers.waiting_since = since_first(now, self.timers.waiting_since);
    }
}

/// Three places with blocks, without a gap before one.
fn in_front(
    first: Option<SackBlock>,
    second: Option<SackBlock>,
    third: Option<SackBlock>,
) -> [Option<SackBlock>; 3]
    ensures { result ≡ blocks.places_of (filter_map (λ b. b) (first ∷ second ∷ third ∷ [])) }
{
    match (first.is_some(), second.is_some()) {
        (true, true) => [first, second, third],
        (true, false) => [first, third, None],
        (false, true) => [second, third, None],
        (false, false) => [third, None, None],
    }
}

/// The numbers of a block.
fn on_wire(initial: u32, part: Option<Range>) -> Option<SackBlock>
    ensures { result ≡ blocks.on_wire initial part }
{
    match part {
        None => None,
        Some(part) => Some(SackBlock {
            left: number_at(initial, part.start as u64),
            right: number_at(initial, part.end as u64),
        }),
    }
}

/// The header of a reset.
fn reset_header(number: u32) -> Header
    ensures { result ≡ sent.reset_header number }
{
    Header {
        number,
        ack: None,
        window: 0,
        syn: false,
        fin: false,
        rst: true,
    }
}

/// The own SYN, if its round trip is measured: unless it was sent before.
fn measured_syn(now: u64, timers: &Timers) -> Option<Measured>
    ensures { result ≡ outgoing.measured_syn now timers.now }
{
    if timers.tries == 0 && timers.resend_at.is_none() {
        Some(Measured {
            position: 1,
            sent_at: now,
        })
    } else {
        None
    }
}
