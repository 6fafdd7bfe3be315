//! A network device in memory, for tests, simulators and programs.
ghost use Rattle.std.specs.Prelude.{◌≡◌, ◌≤◌, [], ◌∷◌, true, length, take, drop, IfSome, OnSome, MatchOption};
ghost use Rattle.net_base.specs.Device.{Received, Frame, HandsNone};
ghost use Rattle.net_base.specs.MemoryDevice.{FramesAreKept};

use crate::phy::{Device, DeviceCapabilities, FRAME_BUFFER_SIZE, PacketMeta};
use crate::time::Instant;
use std::alloc::Global;
use std::collections::VecDeque;
use std::marker::Model;
use std::mem;
use thiserror::Error;

/// Why a frame was not queued. It is displayed as its name.
#[derive(Clone, Copy, Debug, PartialEq, Eq, Error)]
pub enum PushError {
    /// The frame has more than 1,514 octets.
    #[error("TooLong")]
    TooLong,
    /// There was no memory for the frame.
    #[error("NoMemory")]
    NoMemory,
}

/// A network device in memory. It delivers the frames that were queued in it, and keeps those that were sent. It
/// reserves room for a frame before it grants a transmit token.
#[derive(Drop)]
pub struct MemoryDevice {
    alloc: Global,
    capabilities: DeviceCapabilities,
    queue: VecDeque<Vec<u8>>,
    sent: Vec<Vec<u8>>,
    refuse: VecDeque<bool>,
    refusals: u64,
    room: Option<Vec<u8>>,
}

impl Model for MemoryDevice {
    ghost use Rattle.std.specs.Prelude.{◌≡◌, ◌≤◌, ◌<◌, [], map, All, is_some, vec_len, vec_capacity};
    ghost use Rattle.std.specs.Option.{ForSome};
    ghost use Rattle.net_base.specs.MemoryDevice.{Memory};

    ghost Value = { Memory };

    ghost view = { λ a. record {
      capabilities = a.capabilities;
      queued = map (λ v. v.items) a.queue.items;
      sent = map (λ v. v.items) a.sent.items;
      refuse = a.refuse.items;
      refusals = a.refusals;
      has_room = is_some a.room;
    } };

    ghost invariant = { λ a. All (λ v. vec_len v ≤ 1514) a.queue.items × All (λ v. vec_len v ≤ 1514) a.sent.items
        × ForSome a.room (λ v. (v.items ≡ []) × (1514 ≤ vec_capacity v) × (vec_len a.sent < vec_capacity a.sent)) };
}

impl MemoryDevice {
    ghost use Rattle.std.specs.Prelude.{◌<◌, ◌↔◌, ◌++◌, false, map, All, OnOk, OnErr, vec_len};
    ghost use Rattle.std.specs.Result.{IsErrOf};
    ghost use Rattle.net_base.specs.MemoryDevice.{is_refused, without_first_answer, with_refusal_counted, Reserves};

    /// A device in which nothing is queued, sent or refused. It allocates nothing.
    pub fn new(alloc: Global, capabilities: DeviceCapabilities) -> Self
        ensures { result ≡ record {
          capabilities = capabilities;
          queued = [];
          sent = [];
          refuse = [];
          refusals = 0;
          has_room = false;
        } }
    {
        MemoryDevice {
            alloc,
            capabilities,
            queue: VecDeque::new(alloc),
            sent: Vec::new(alloc),
            refuse: VecDeque::new(alloc),
            refusals: 0,
            room: None,
        }
    }

    /// The number of frames queued for delivery.
    pub fn queued(&self) -> usize
        ensures { result ≡ length self.now.queued }
    {
        self.queue.len()
    }

    /// Appends a frame to the queue. Fails with `TooLong` exactly if it has more than 1,514 octets, and with `NoMemory`
    /// if memory for it was refused. Both errors leave everything unchanged.
    pub fn push(&mut self, frame: &[u8]) -> Result<(), PushError>
        ensures too_long { IsErrOf result PushError.TooLong ↔ 1514 < length frame.now }
        ensures ok { OnOk result (self.new ≡ record self.old { queued = self.old.queued ++ frame.now ∷ [] }) }
        ensures err { OnErr result (self.new ≡ self.old) }
    {
        if frame.len() > FRAME_BUFFER_SIZE {
            return Err(PushError::TooLong);
        }
        let copy = Vec::from_slice(self.alloc, frame).map_err(|_| PushError::NoMemory)?;
        self.queue.push_back(copy).map_err(|_| PushError::NoMemory)
    }

    /// Sets the answers to the next requests for a transmit token, where `true` refuses, in place of an earlier list.
    /// After the end of the list tokens are granted. It allocates nothing.
    pub fn refuse(&mut self, answers: Vec<bool>)
        ensures { self.new ≡ record self.old { refuse = answers.items } }
    {
        self.refuse = VecDeque::from_vec(answers);
    }

    /// The frames that were sent, in order. Each has at most 1,514 octets.
    pub fn sent(&self) -> &[Vec<u8>]
        ensures value { map (λ v. v.items) result.now ≡ self.now.sent }
        ensures short { All (λ v. vec_len v ≤ 1514) result.now }
    {
        &self.sent
    }

    /// Takes the frames that were sent, in order, so that a long run needn't keep them all. Each has at most 1,514
    /// octets. A transmit token that was granted and not used must be requested again. It allocates nothing.
    pub fn take_sent(&mut self) -> Vec<Vec<u8>>
        ensures value { map (λ v. v.items) result.items ≡ self.old.sent }
        ensures short { All (λ v. vec_len v ≤ 1514) result.items }
        ensures after { self.new ≡ record self.old { sent = []; has_room = false } }
    {
        self.room = None;
        mem::replace(&mut self.sent, Vec::new(self.alloc))
    }

    // Reserves room for a frame to send, and returns whether there is room.
    fn reserve(&mut self) -> bool
        ensures { Reserves self.old self.new result }
    {
        if self.room.is_some() {
            return true;
        }
        if self.sent.reserve(1).is_err() {
            return false;
        }
        match Vec::with_capacity(self.alloc, FRAME_BUFFER_SIZE) {
            Ok(room) => {
                self.room = Some(room);
                true
            }
            Err(_) => false,
        }
    }

    // Takes the first frame in the queue.
    fn take_frame(&mut self) -> Option<Vec<u8>>
        ensures { MatchOption result ((self.old.queued ≡ []) × (self.new ≡ self.old))
            (λ frame. (vec_len frame ≤ 1514) × (self.old.queued ≡ frame.items ∷ self.new.queued)
            × (self.new ≡ record self.old { queued = self.new.queued })) }
    {
        self.queue.pop_front()
    }

    // Takes the answer to the next request for a transmit token, and returns whether it refuses.
    fn take_answer(&mut self) -> bool
        ensures refused { result ≡ is_refused self.old.refuse }
        ensures after { self.new ≡ without_first_answer self.old }
    {
        self.refuse.pop_front().unwrap_or(false)
    }

    // Keeps a frame that is sent, in the room reserved for it.
    fn keep(&mut self, frame: &[u8])
        requires room { self.old.has_room ≡ true }
        requires short { length frame.now ≤ 1514 }
        ensures { self.new ≡ record self.old { sent = self.old.sent ++ frame.now ∷ []; has_room = false } }
    {
        if let Some(mut room) = self.room.take() {
            // It has the capacity for any frame, so this can't fail.
            let _ = room.extend_from_slice(frame);
            self.sent.push_reserved(room);
        }
    }

    // Counts a refused transmit token or a withheld frame.
    fn count_refusal(&mut self)
        ensures { self.new ≡ with_refusal_counted self.old }
    {
        self.refusals = self.refusals.saturating_add(1);
    }
}

// Writes a frame into the front of a buffer, and returns its length.
fn write_front(buffer: &mut [u8], frame: &[u8]) -> usize
    requires { length frame.now ≤ length buffer.old }
    ensures front { take result buffer.new ≡ frame.now }
    ensures rest { drop result buffer.new ≡ drop result buffer.old }
    ensures len { result ≡ length frame.now }
{
    let len = frame.len();
    buffer[..len].copy_from_slice(frame);
    len
}

impl Device for MemoryDevice {
    ghost use Rattle.net_base.specs.MemoryDevice.{Tells, Stays};
    ghost use Rattle.net_base.specs.Details.MemoryDeviceLaws.{told_on, told_refusals};

    ghost tells = { Tells };

    ghost may_transmit = { λ d. d.has_room };

    ghost capable = { λ d. d.capabilities };

    ghost refused = { λ d. d.refusals };

    fn capabilities(&self) -> DeviceCapabilities {
        self.capabilities
    }

    fn receive(&mut self, now: Instant, buffer: &mut [u8]) -> Option<(usize, PacketMeta)>
        requires { length buffer.old ≡ 1514 }
        ensures told { MatchOption result (HandsNone Tells now self.old self.new)
            (λ r. Tells self.old (Received now (Frame (take r.0 buffer.new)) ∷ []) self.new) }
        ensures fits { IfSome result (λ r. r.0 ≤ 1514) }
        ensures permission { OnSome result (self.new.has_room ≡ true) }
        ensures meta { IfSome result (λ r. r.1 ≡ PacketMeta.EMPTY) }
        ensures rest { MatchOption result (buffer.new ≡ buffer.old) (λ r. drop r.0 buffer.new ≡ drop r.0 buffer.old) }
    {
        if self.queued() == 0 {
            return None;
        }
        if !self.reserve() {
            self.count_refusal();
            return None;
        }
        let frame = self.take_frame()?;
        Some((write_front(buffer, &frame), PacketMeta::EMPTY))
    }

    fn transmit(&mut self, now: Instant) -> bool {
        if self.take_answer() || !self.reserve() {
            self.count_refusal();
            return false;
        }
        true
    }

    fn send(&mut self, meta: PacketMeta, frame: &[u8]) {
        self.keep(frame);
    }

    fn refusals(&self) -> u64 {
        self.refusals
    }

    ghost tells_nothing = { λ d. Stays };

    ghost tells_on = { λ a b c xs ys first second. told_on first second };

    ghost tells_refusals = { λ a b xs told. told_refusals told };
}

/// However a device in memory was used, the frames that were queued are those that it delivered and those that are
/// still queued, in order. Those that it sent are listed after the earlier ones.
pub fn frames_are_kept()
    ensures { FramesAreKept }
{}
