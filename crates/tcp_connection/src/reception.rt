//! What a connection receives, and what it told of that (RFC 9293 3.3.1, 3.8.6).
ghost use Rattle.std.specs.Prelude.{◌≡◌, ◌≤◌, ◌<◌, ◌+◌, ◌^◌, min, length, IfOk, true, false};
ghost use Rattle.tcp_machine.specs.Receiving as receiving;
ghost use Rattle.tcp_machine.specs.Opening.{no_reception};
ghost use Rattle.tcp_machine.specs.Windows as windows;
ghost use Rattle.tcp_machine.specs.Arrivals as arrivals;
ghost use Rattle.tcp_machine.specs.Outgoing as outgoing;
ghost use Rattle.tcp_machine.specs.declared.timers.Owed.{Owed};
ghost use Rattle.tcp_connection.specs.Blocks.{blocks_in};

use crate::instants::{later, sooner};
use crate::receive_buffer::ReceiveBuffer;
use net_base::assembler::Range;
use std::alloc::{AllocError, Global};
use std::marker::Model;
use tcp_machine::settings::Settings;
use tcp_machine::timers::Owed;

/// Octets that wait for an acknowledgement are counted up to here.
const MOST_COUNTED: u64 = 1 << 30;

/// What a connection receives, and what it told of that.
///
/// In contracts it is the machine's reception.
#[derive(Drop)]
pub struct Reception {
    receiver: ReceiveBuffer,
    promised: u64,
    scale: u8,
    owed: Owed,
    unacknowledged: u64,
    sack_permitted: bool,
    latest: u64,
}

impl Model for Reception {
    ghost use Rattle.std.specs.Prelude.{◌≤◌};
    ghost use Rattle.tcp_machine.specs.Connection as connection;

    ghost Value = { connection.Reception };

    ghost view = { λ r. record {
      receiver = r.receiver;
      promised = r.promised;
      scale = r.scale;
      owed = r.owed;
      unacknowledged = r.unacknowledged;
      sack_permitted = r.sack_permitted;
      latest = r.latest;
    } };

    ghost invariant = { λ r. r.scale ≤ 14 };
}

impl Reception {
    /// Before the handshake, with room for so many octets, at most 2^30. It fails exactly if the memory is refused.
    pub fn new(alloc: Global, room: usize) -> Result<Reception, AllocError>
        requires { room ≤ 2 ^ 30 }
        ensures { IfOk result (λ r. r ≡ no_reception room) }
    {
        Ok(Reception {
            receiver: ReceiveBuffer::new(alloc, room)?,
            promised: 1,
            scale: 0,
            owed: Owed::Nothing,
            unacknowledged: 0,
            sack_permitted: false,
            latest: 0,
        })
    }

    /// As before the handshake once more, with the same room. It takes no memory.
    pub fn clear(&mut self)
        ensures { self.new ≡ no_reception (length self.old.receiver.cells) }
    {
        self.receiver.clear();
        self.promised = 1;
        self.scale = 0;
        self.owed = Owed::Nothing;
        self.unacknowledged = 0;
        self.sack_permitted = false;
        self.latest = 0;
    }

    /// The octets in order that aren't read.
    pub fn readable(&self) -> &[u8]
        ensures { result.now ≡ receiving.in_order self.now.receiver.cells }
    {
        self.receiver.readable()
    }

    /// The first position that isn't read.
    pub fn base(&self) -> u64
        ensures value { result ≡ self.now.receiver.base }
        ensures bounded { result ≤ 2 ^ 62 }
    {
        self.receiver.base()
    }

    /// The octets for which there is room.
    pub fn room(&self) -> usize
        ensures value { result ≡ length self.now.receiver.cells }
        ensures bounded { result ≤ 2 ^ 30 }
    {
        self.receiver.room()
    }

    /// The first position that has no octet.
    pub fn next(&self) -> u64
        ensures value { result ≡ receiving.next self.now.receiver }
        ensures bounded { result ≤ 2 ^ 62 + 2 ^ 30 }
    {
        let _edge = self.receiver.edge();
        self.receiver.next()
    }

    /// The first position beyond the room.
    pub fn edge(&self) -> u64
        ensures value { result ≡ receiving.edge self.now.receiver }
        ensures bounded { result ≤ 2 ^ 62 + 2 ^ 30 }
    {
        self.receiver.edge()
    }

    /// The position that an acknowledgement tells.
    pub fn expected(&self) -> u64
        ensures value { result ≡ receiving.expected self.now.receiver }
        ensures bounded { result ≤ 2 ^ 62 + 2 ^ 30 + 1 }
    {
        self.receiver.expected()
    }

    /// Whether all up to the peer's end has arrived.
    pub fn has_ended(&self) -> bool
        ensures { result ≡ arrivals.has_ended self.now.receiver }
    {
        self.receiver.has_ended()
    }

    /// When an acknowledgement is owed.
    pub fn owed(&self) -> Owed
        ensures { result ≡ self.now.owed }
    {
        self.owed
    }

    /// Whether the peer's SYN permitted selective acknowledgements.
    #[inline(always)]
    pub fn sack_permitted(&self) -> bool
        ensures { result ≡ self.now.sack_permitted }
    {
        self.sack_permitted
    }

    /// By how many bits the own windows are scaled.
    pub fn scale(&self) -> u8
        ensures value { result ≡ self.now.scale }
        ensures bounded { result ≤ 14 }
    {
        self.scale
    }

    /// An acknowledgement is owed from now on.
    pub fn set_owed(&mut self, owed: Owed)
        ensures { self.new ≡ record self.old { owed = owed } }
    {
        self.owed = owed;
    }

    /// The peer's SYN told how the own windows are scaled from now on, and whether selective acknowledgements are permitted.
    pub fn take_syn(&mut self, scale: u8, sack_permitted: bool)
        requires { scale ≤ 14 }
        ensures { self.new ≡ record self.old { scale = scale; sack_permitted = sack_permitted } }
    {
        self.scale = scale;
        self.sack_permitted = sack_permitted;
    }

    /// The blocks that an acknowledgement tells now: none, unless the peer permitted them (RFC 2018 2, 4).
    pub fn blocks(&self) -> [Option<Range>; 3]
        ensures { blocks_in result ≡ outgoing.blocks_told self.now }
    {
        if self.sack_permitted {
            self.receiver.blocks(self.latest)
        } else {
            [None; 3]
        }
    }

    /// The program takes the first octets that are in order. There must be so many.
    pub fn consume(&mut self, count: usize)
        requires readable { count ≤ length (receiving.in_order self.old.receiver.cells) }
        requires bounded { self.old.receiver.base + count ≤ 2 ^ 62 }
        ensures { self.new ≡ record self.old { receiver = receiving.after_read count self.old.receiver } }
    {
        self.receiver.consume(count);
    }

    /// Whether a piece is acceptable (RFC 9293 3.10.7.4, first check).
    pub fn is_acceptable(&self, start: u64, octets: &[u8], ends: bool) -> bool
        requires start { start < 2 ^ 63 }
        requires octets { length octets.now < 2 ^ 32 }
        ensures { result ≡ receiving.is_acceptable self.now.receiver
            (record { start = start; octets = octets.now; ends = ends }) }
    {
        let after = start + octets.len() as u64 + u64::from(ends);
        if start < after {
            self.is_in_window(start) || self.is_in_window(after - 1)
        } else {
            self.is_in_window(start)
                || start == self.receiver.edge()
                || start == self.receiver.expected()
        }
    }

    /// Whether a position is in the window: RCV.NXT =< position < RCV.NXT + RCV.WND.
    pub fn is_in_window(&self, position: u64) -> bool
        ensures { result ≡ receiving.is_in_window self.now.receiver position }
    {
        self.receiver.expected() <= position && position < self.receiver.edge()
    }

    /// A piece arrives. Returns whether it was taken; it is left, and nothing changes, as [`ReceiveBuffer::take`] says.
    pub fn take(
        &mut self,
        now: u64,
        settings: &Settings,
        start: u64,
        octets: &[u8],
        ends: bool,
    ) -> bool
        requires start { start < 2 ^ 63 }
        requires octets { length octets.now < 2 ^ 32 }
        ensures taken { result ≡ true →
            self.new ≡ arrivals.reception_after now settings.now (record { start = start; octets = octets.now; ends = ends }) self.old }
        ensures left { result ≡ false → self.new ≡ self.old }
        ensures beyond { result ≡ false → receiving.next self.old.receiver < start }
    {
        let before = self.receiver.expected();
        let next = self.receiver.next();
        let had_gap = self.receiver.has_gap();
        if !self.receiver.take(start, octets, ends) {
            return false;
        }
        let after = self.receiver.expected();
        let advance = after.saturating_sub(before);
        let waiting = self.unacknowledged.saturating_add(advance);
        let at_once = had_gap
            || self.receiver.has_gap()
            || advance == 0
            || 2 * u64::from(settings.own_mss) <= waiting;
        let end = later(now, settings.ack_delay);
        self.owed = if at_once {
            Owed::AtOnce
        } else {
            sooner(self.owed, end)
        };
        self.unacknowledged = waiting.min(MOST_COUNTED);
        if next < start {
            self.latest = start;
        }
        true
    }

    /// The edge that was promised last.
    pub fn promised(&self) -> u64
        ensures { result ≡ self.now.promised }
    {
        self.promised
    }

    /// The edge that is promised in the next segment.
    pub fn next_promise(&self, own_mss: u16) -> u64
        ensures { result ≡ windows.next_promise own_mss self.now }
    {
        let step = u64::from(own_mss).min(self.receiver.room() as u64 / 2);
        let edge = self.receiver.edge();
        if self.promised.saturating_add(step) <= edge {
            edge
        } else {
            self.promised
        }
    }

    /// The window field that tells a promise.
    pub fn window_field(&self, promise: u64) -> u16
        ensures { result ≡ windows.window_field promise self.now }
    {
        let window = promise.saturating_sub(self.receiver.expected());
        (window / (1 << self.scale)).min(65_535) as u16
    }

    /// Whether a program that has read so much makes it worth a segment of its own to tell.
    pub fn is_update_due(&self, own_mss: u16) -> bool
        ensures { result ≡ windows.is_update_due own_mss self.now }
    {
        let step = (2 * u64::from(own_mss)).min(self.receiver.room() as u64 / 2);
        self.promised.saturating_add(step.max(1)) <= self.receiver.edge()
    }

    /// An acknowledgement was sent that told this promise.
    pub fn told(&mut self, promise: u64)
        ensures { self.new ≡ record self.old { owed = Owed.Nothing; unacknowledged = 0; promised = promise } }
    {
        self.owed = Owed::Nothing;
        self.unacknowledged = 0;
        self.promised = promise;
    }
}
