//! What a connection sends, and how far it may (RFC 9293 3.3.1).
ghost use Rattle.std.specs.Prelude.{◌≡◌, ◌+◌, ◌-◌, ◌*◌, ◌≤◌, ◌<◌, ◌^◌, min, max, nat_lt, ◌++◌, [], length, take, IfOk, None, true, false};
ghost use Rattle.tcp_machine.specs.Sending.{after_position, after_close, after_send, MaySend};
ghost use Rattle.tcp_machine.specs.Windows.{tells_window, after_window};
ghost use Rattle.tcp_machine.specs.Acknowledgements.{flight, empty_position, is_believed, is_end_acknowledged, is_duplicate, is_waited_for};
ghost use Rattle.tcp_machine.specs.Acknowledgements.{octets_told, next_hole, is_hole_lost, pipe};
ghost use Rattle.tcp_machine.specs.Scoreboard as scoreboard;
ghost use Rattle.tcp_machine.specs.Arrivals.{is_of_sent};
ghost use Rattle.tcp_machine.specs.Opening.{no_transmission};
ghost use Rattle.tcp_machine.specs.Path as path;
ghost use Rattle.tcp_machine.specs.Calls.{room_to_write};
ghost use Rattle.tcp_machine.specs.Timers.{has_unsent};
ghost use Rattle.tcp_machine.specs.Outgoing.{octets_from, piece_from, is_last};
ghost use Rattle.tcp_connection.specs.Details.Bounds.{last, after_part};
ghost use Rattle.tcp_connection.specs.Pieces.{IsPieceOf};

use sockets::octets::Octets;
use std::alloc::{AllocError, Global};
use std::marker::Model;
use tcp_machine::path::Path;
use tcp_machine::scoreboard::Scoreboard;

/// The most octets of a ring: a window of RFC 7323 has less.
pub const MOST_OCTETS: usize = 1 << 30;

/// Positions end here.
const LAST_POSITION: u64 = 1 << 62;

/// What a connection sends: the octets that aren't acknowledged yet, how far they were sent, and the peer's window.
///
/// In contracts it is the machine's transmission.
#[derive(Drop)]
pub struct Transmission {
    una: u64,
    ring: Octets,
    stop: Option<u64>,
    top: u64,
    edge: u64,
    nxt: u64,
    told_edge: u64,
    largest_window: u64,
    wl1: u64,
    wl2: u64,
    scale: u8,
    mss: u16,
    path: Path,
    told: Scoreboard,
    resent: u64,
}

/// A piece of what is sent: where it begins, how many octets it has, and whether the end follows them.
#[derive(Clone, Copy, Debug, PartialEq, Eq)]
pub struct Part {
    pub start: u64,
    pub len: usize,
    pub ends: bool,
}

impl Model for Transmission {
    ghost use Rattle.std.specs.Prelude.{◌≡◌, ◌+◌, ◌≤◌, ◌<◌, ◌^◌, length};
    ghost use Rattle.tcp_machine.specs.Connection as connection;
    ghost use Rattle.tcp_connection.specs.Details.Bounds.{IsWithin};

    ghost Value = { connection.Transmission };

    ghost view = { λ t. record {
      sender = record {
        una = t.una;
        ring = t.ring.octets;
        room = t.ring.limit;
        stop = t.stop;
        top = t.top;
        edge = t.edge;
      };
      nxt = t.nxt;
      told_edge = t.told_edge;
      largest_window = t.largest_window;
      wl1 = t.wl1;
      wl2 = t.wl2;
      scale = t.scale;
      mss = t.mss;
      path = t.path;
      told = t.told;
      resent = t.resent;
    } };

    ghost invariant = { λ t. IsWithin (record {
      una = t.una;
      ring = t.ring.octets;
      room = t.ring.limit;
      stop = t.stop;
      top = t.top;
      edge = t.edge;
    }) × (t.told_edge < 2 ^ 63) × (t.scale ≤ 14) × (t.nxt ≤ t.top) × (t.una ≤ t.top) × (1 ≤ t.una) };
}

impl Transmission {
    /// Before the handshake, with room for so many octets, at most 2^30. It fails exactly if the memory is refused.
    pub fn new(alloc: Global, room: usize, mss: u16) -> Result<Transmission, AllocError>
        requires { room ≤ 2 ^ 30 }
        ensures { IfOk result (λ t. t ≡ no_transmission room mss) }
    {
        Ok(Transmission {
            una: 1,
            ring: Octets::new(alloc, room)?,
            stop: None,
            top: 1,
            edge: 1,
            nxt: 0,
            told_edge: 1,
            largest_window: 0,
            wl1: 0,
            wl2: 0,
            scale: 0,
            mss,
            path: Path::new(mss, mss),
            told: Scoreboard::new(),
            resent: 0,
        })
    }

    /// As before the handshake once more, with the same room. It takes no memory.
    pub fn clear(&mut self, mss: u16)
        ensures { self.new ≡ no_transmission self.old.sender.room mss }
    {
        let held = self.ring.limit() - self.ring.room();
        self.ring.skip(held);
        self.una = 1;
        self.stop = None;
        self.top = 1;
        self.edge = 1;
        self.nxt = 0;
        self.told_edge = 1;
        self.largest_window = 0;
        self.wl1 = 0;
        self.wl2 = 0;
        self.scale = 0;
        self.mss = mss;
        self.path = Path::new(mss, mss);
        self.forget_told();
    }

    /// How many octets are held: written, and not acknowledged.
    pub fn held(&self) -> usize
        ensures value { result ≡ length self.now.sender.ring }
        ensures bounded { result ≤ 2 ^ 30 }
    {
        self.ring.limit() - self.ring.room()
    }

    /// How much is on its way.
    pub fn flight(&self) -> u64
        ensures { result ≡ flight self.now }
    {
        self.nxt.saturating_sub(self.una)
    }

    /// Whether an acknowledgement is believed (RFC 5961 5.2).
    pub fn is_believed(&self, position: u64) -> bool
        ensures { result ≡ is_believed position self.now }
    {
        self.una.saturating_sub(self.largest_window) <= position && position <= self.top
    }

    /// Whether an acknowledgement is believed, and of nothing beyond the place of an empty segment.
    pub fn is_of_sent(&self, position: Option<u64>) -> bool
        ensures { result ≡ is_of_sent position self.now }
    {
        match position {
            None => false,
            Some(position) => self.is_believed(position) && position <= self.empty_position(),
        }
    }

    /// Whether something that was sent, and for which the peer's window has room, isn't acknowledged.
    pub fn is_waited_for(&self) -> bool
        ensures { result ≡ is_waited_for self.now }
    {
        self.una < self.top.min(self.told_edge)
    }

    /// Whether the own end is acknowledged.
    pub fn is_end_acknowledged(&self) -> bool
        ensures { result ≡ is_end_acknowledged self.now.sender }
    {
        match self.stop {
            None => false,
            Some(stop) => stop < self.una,
        }
    }

    /// How many octets more are taken.
    pub fn room_to_write(&self) -> usize
        ensures value { result ≡ room_to_write self.now.sender }
        ensures fits { result + length self.now.sender.ring ≤ self.now.sender.room }
    {
        let room = self.ring.room();
        let held = self.ring.limit() - room;
        let left = LAST_POSITION.saturating_sub(self.una + held as u64);
        room.min(left as usize)
    }

    /// Whether octets, or the end, wait to be sent for the first time.
    pub fn has_unsent(&self) -> bool
        ensures { result ≡ has_unsent self.now.sender self.now.nxt }
    {
        let held = self.ring.limit() - self.ring.room();
        self.nxt < self.una + held as u64 + u64::from(self.stop.is_some())
    }

    /// What an acknowledgement changes that is believed, with the window that it tells: what is acknowledged leaves the ring.
    #[tactic(auto, using(crate::proofs::TransmissionLemmas::acknowledged))]
    pub fn acknowledge(&mut self, position: u64, window: u64)
        requires { window < 2 ^ 32 }
        ensures { self.new ≡ record self.old { sender = after_position position window self.old.sender } }
    {
        if self.una <= position && position <= self.top {
            let held = (self.ring.limit() - self.ring.room()) as u64;
            self.ring.skip((position - self.una).min(held) as usize);
            self.una = position;
            self.edge = self.edge.max(position + window);
        }
    }

    /// The window that a segment tells, if it is newer than what told it last.
    pub fn take_window(&mut self, start: u64, position: u64, window: u64)
        requires { position + window < 2 ^ 63 }
        ensures { self.new ≡ after_window start position window self.old }
    {
        if self.wl1 < start || (self.wl1 == start && self.wl2 <= position) {
            self.told_edge = position + window;
            self.largest_window = self.largest_window.max(window);
            self.wl1 = start;
            self.wl2 = position;
        }
    }

    /// The program closes: the end comes after the last octet.
    #[tactic(auto, using(crate::proofs::TransmissionLemmas::closed))]
    pub fn close(&mut self)
        requires { self.old.sender.stop ≡ None }
        ensures { self.new ≡ record self.old { sender = after_close self.old.sender } }
    {
        let held = (self.ring.limit() - self.ring.room()) as u64;
        self.stop = Some(self.una + held);
    }

    /// Queues octets, which must fit.
    #[tactic(auto, using(crate::proofs::TransmissionLemmas::written))]
    pub fn write(&mut self, octets: &[u8])
        requires opened { self.old.sender.stop ≡ None }
        requires room { length octets.now ≤ room_to_write self.old.sender }
        ensures { self.new ≡ record self.old { sender = record self.old.sender { ring = self.old.sender.ring ++ octets.now } } }
    {
        self.ring.append(octets);
    }

    /// The piece from a position on with so many octets at most, and the end if it follows them.
    #[tactic(auto, using(crate::proofs::PartLemmas::part_len, crate::proofs::PartLemmas::part_within))]
    pub fn part_from(&self, start: u64, most: usize) -> Part
        requires { start ≤ self.now.sender.top }
        ensures start { result.start ≡ start }
        ensures len { result.len ≡ length (octets_from start most self.now.sender) }
        ensures ends { result.ends ≡ (piece_from start most self.now.sender).ends }
        ensures within { after_part result.start result.len result.ends ≤ last self.now.sender }
    {
        let held = self.ring.limit() - self.ring.room();
        let offset = (start.saturating_sub(self.una)).min(held as u64) as usize;
        let len = most.min(held - offset);
        Part {
            start,
            len,
            ends: self.stop == Some(start + len as u64),
        }
    }

    /// The octets of a piece, of those that aren't acknowledged.
    #[tactic(auto, using(crate::proofs::PartLemmas::part_is, crate::proofs::PartLemmas::part_len))]
    pub fn octets(&self, part: &Part) -> &[u8]
        ensures { result.now ≡ octets_from part.now.start part.now.len self.now.sender }
    {
        let held = self.ring.limit() - self.ring.room();
        let offset = (part.start.saturating_sub(self.una)).min(held as u64) as usize;
        let len = part.len.min(held - offset);
        &self.ring.first(offset + len)[offset..]
    }

    /// The peer's SYN tells its window, which isn't scaled, the scale of later ones, and the most octets of a segment to it. Every path
    /// carries some of `default`.
    pub fn take_syn(&mut self, window: u16, scale: u8, default: u16, mss: u16)
        requires { scale ≤ 14 }
        ensures { self.new ≡ record self.old {
          told_edge = 1 + window;
          largest_window = window;
          scale = scale;
          mss = mss;
          path = path.new_path default mss;
          sender = record self.old.sender { edge = 1 + window };
        } }
    {
        self.told_edge = 1 + u64::from(window);
        self.largest_window = u64::from(window);
        self.scale = scale;
        self.mss = mss;
        self.path = Path::new(default, mss);
        self.edge = 1 + u64::from(window);
    }

    /// A piece is sent, and the next one begins at `nxt`.
    #[tactic(auto, using(crate::proofs::TransmissionLemmas::sent, crate::proofs::TransmissionLemmas::last_bounded))]
    pub fn send(&mut self, part: &Part, nxt: u64)
        requires within { after_part part.now.start part.now.len part.now.ends ≤ last self.old.sender }
        requires nxt { nxt ≤ max self.old.sender.top (after_part part.now.start part.now.len part.now.ends) }
        ensures { self.new ≡ record self.old {
          nxt = nxt;
          sender = record self.old.sender {
            top = max self.old.sender.top (after_part part.now.start part.now.len part.now.ends);
          };
        } }
    {
        let top = self.top;
        let after = part.start + part.len as u64 + u64::from(part.ends);
        self.top = top.max(after);
        self.nxt = nxt;
    }

    /// The position after a piece of what is held.
    #[tactic(auto, using(crate::proofs::PartLemmas::piece_within, crate::proofs::TransmissionLemmas::last_bounded))]
    pub fn end_of(&self, part: &Part) -> u64
        requires sent { part.now.start ≤ self.now.sender.top }
        requires piece { IsPieceOf part.now self.now.sender }
        ensures value { result ≡ after_part part.now.start part.now.len part.now.ends }
        ensures within { result ≤ last self.now.sender }
        ensures bounded { result ≤ 2 ^ 62 + 1 }
    {
        let _ = &self.una;
        part.start + part.len as u64 + u64::from(part.ends)
    }

    /// What is sent next begins at `nxt`, at most after all that was sent.
    pub fn go_back(&mut self, nxt: u64)
        requires { nxt ≤ self.old.sender.top }
        ensures { self.new ≡ record self.old { nxt = nxt } }
    {
        self.nxt = nxt;
    }

    /// A segment of so many octets was sent, which ends before a position.
    pub fn try_path(&mut self, len: usize, end: u64)
        ensures { self.new ≡ record self.old { path = path.path_sent self.old.mss len end self.old.path } }
    {
        self.path.sent(self.mss, len, end);
    }

    /// All before a position is acknowledged, and needn't be told by blocks any more.
    pub fn acknowledge_told(&mut self, position: u64)
        ensures { self.new ≡ record self.old { told = scoreboard.after_acknowledged position self.old.told } }
    {
        self.told.acknowledge(position);
    }

    /// All before a position is acknowledged: what that tells of the path.
    pub fn learn_path(&mut self, position: u64)
        ensures { self.new ≡ record self.old {
          mss = path.mss_acknowledged position self.old.mss self.old.path;
          path = path.path_acknowledged position self.old.path;
        } }
    {
        self.mss = self.path.mss_acknowledged(position, self.mss);
        self.path.acknowledged(position);
    }

    /// Whether nothing is told by blocks.
    #[inline(always)]
    pub fn is_nothing_told(&self) -> bool
        ensures { result ≡ scoreboard.is_empty self.now.told }
    {
        self.told.is_empty()
    }

    /// What blocks told is forgotten.
    pub fn forget_told(&mut self)
        ensures { self.new ≡ record self.old { told = []; resent = 0 } }
    {
        self.told.forget();
        self.resent = 0;
    }

    /// A block is told, by its two positions, if it lies within what was sent and isn't acknowledged.
    pub fn tell(&mut self, left: Option<u64>, right: Option<u64>)
        ensures { self.new ≡ record self.old {
          told = scoreboard.after_block self.old.sender.una self.old.sender.top left right self.old.told;
        } }
    {
        self.told.tell(self.una, self.top, left, right);
    }

    /// In a recovery that blocks guide all before a position was sent again, or needn't be.
    pub fn resend_from(&mut self, position: u64)
        ensures { self.new ≡ record self.old { resent = position } }
    {
        self.resent = position;
    }

    /// The position after what was sent again in such a recovery.
    pub fn resent(&self) -> u64
        ensures { result ≡ self.now.resent }
    {
        self.resent
    }

    /// How many octets of all that was sent and isn't acknowledged are told.
    pub fn told_of_sent(&self) -> u64
        ensures { result ≡ scoreboard.told_between self.now.sender.una self.now.sender.top self.now.told }
    {
        self.told.told_between(self.una, self.top)
    }

    /// How many octets before the next position are told.
    pub fn octets_told(&self) -> u64
        ensures value { result ≡ octets_told self.now }
        ensures few { result ≤ 1073741824 }
    {
        self.told.told_between(self.una, self.nxt)
    }

    /// The first octet that isn't told and wasn't sent again in this recovery.
    pub fn next_hole(&self) -> u64
        ensures value { result ≡ next_hole self.now }
        ensures sent { result ≤ self.now.sender.top }
    {
        self.told.hole_from(self.una.max(self.resent)).min(self.top)
    }

    /// Whether it is lost (RFC 6675 4).
    pub fn is_hole_lost(&self) -> bool
        ensures { result ≡ is_hole_lost self.now }
    {
        self.told.is_lost(self.mss, self.next_hole())
    }

    /// Whether the first octet that isn't acknowledged is lost.
    pub fn is_first_lost(&self) -> bool
        ensures { result ≡ scoreboard.is_lost self.now.mss self.now.sender.una self.now.told }
    {
        self.told.is_lost(self.mss, self.una)
    }

    /// How much is on its way: neither told, nor lost and not sent again (RFC 6675 4).
    #[tactic(auto, using(crate::proofs::TransmissionLemmas::bounded))]
    pub fn pipe(&self) -> u64
        ensures value { result ≡ pipe self.now }
        ensures bounded { result ≤ 2 ^ 62 + 1 }
    {
        let lost = self.told.lost_from(self.mss, self.next_hole());
        self.nxt
            .saturating_sub(self.una)
            .saturating_sub(self.octets_told())
            .saturating_sub(lost)
    }

    /// The first position above one that is told, and at most `end`.
    pub fn end_of_hole(&self, position: u64, end: u64) -> u64
        ensures { result ≡ min end (scoreboard.start_of end (scoreboard.above position self.now.told)) }
    {
        self.told.end_of_hole(position, end).min(end)
    }

    /// Whether the path may be a black hole, where what isn't acknowledged was sent again so many times.
    pub fn is_black_hole(&self, tries: u64) -> bool
        ensures { result ≡ path.is_black_hole tries self.now.mss self.now.path }
    {
        self.path.is_black_hole(tries, self.mss)
    }

    /// Segments are shortened after time-outs.
    #[tactic(auto, using(crate::proofs::TransmissionLemmas::una_bounded))]
    pub fn shorten(&mut self)
        ensures { self.new ≡ record self.old {
          mss = self.old.path.least;
          path = path.path_shortened self.old.sender.una self.old.path;
        } }
    {
        self.mss = self.path.least;
        self.path.shorten(self.una);
    }

    /// Whether segments have more octets than a router says that they may have.
    pub fn is_longer_than(&self, size: u16) -> bool
        ensures { result ≡ nat_lt (path.size_told size self.now.path) self.now.mss }
    {
        self.path.told(size) < self.mss
    }

    /// Segments are as long as a router says, and all that isn't acknowledged is to be sent again.
    pub fn tell_path(&mut self, size: u16)
        ensures { self.new ≡ record self.old {
          nxt = self.old.sender.una;
          mss = path.size_told size self.old.path;
          path = path.path_told size self.old.path;
        } }
    {
        self.mss = self.path.told(size);
        self.path.tell(size);
        self.nxt = self.una;
    }

    /// The next position to be sent.
    pub fn nxt(&self) -> u64
        ensures value { result ≡ self.now.nxt }
        ensures sent { result ≤ self.now.sender.top }
    {
        self.nxt
    }

    /// The first position that isn't acknowledged.
    #[tactic(auto, using(crate::proofs::TransmissionLemmas::una_bounded))]
    pub fn una(&self) -> u64
        ensures value { result ≡ self.now.sender.una }
        ensures begun { 1 ≤ result }
        ensures sent { result ≤ self.now.sender.top }
        ensures bounded { result ≤ 2 ^ 62 + 1 }
    {
        self.una
    }

    /// The position after all that was sent.
    #[tactic(auto, using(crate::proofs::TransmissionLemmas::bounded))]
    pub fn top(&self) -> u64
        ensures value { result ≡ self.now.sender.top }
        ensures bounded { result ≤ 2 ^ 62 + 1 }
    {
        self.top
    }

    /// Where an empty segment stands: after all that was sent within the peer's window.
    #[tactic(auto, using(crate::proofs::TransmissionLemmas::bounded))]
    pub fn empty_position(&self) -> u64
        ensures { result ≡ empty_position self.now }
    {
        self.nxt.max(self.top.min(self.edge))
    }

    /// The position of the end, once the program closed.
    pub fn stop(&self) -> Option<u64>
        ensures { result ≡ self.now.sender.stop }
    {
        self.stop
    }

    /// The edge of the window that the peer told last.
    pub fn told_edge(&self) -> u64
        ensures value { result ≡ self.now.told_edge }
        ensures bounded { result < 2 ^ 63 }
    {
        self.told_edge
    }

    /// The largest window that the peer told.
    pub fn largest_window(&self) -> u64
        ensures { result ≡ self.now.largest_window }
    {
        self.largest_window
    }

    /// By how many bits the peer's windows are scaled.
    pub fn scale(&self) -> u8
        ensures value { result ≡ self.now.scale }
        ensures bounded { result ≤ 14 }
    {
        self.scale
    }

    /// The most octets of a segment to the peer.
    pub fn mss(&self) -> u16
        ensures { result ≡ self.now.mss }
    {
        self.mss
    }
}
