//! The frames that were sent and wait to be handed over.
ghost use Rattle.std.specs.Prelude.{◌≡◌, ◌≤◌, [], ◌∷◌, ◌++◌, true, false, length};
ghost use Rattle.std.specs.Prelude.{take, drop, MatchOption, OnOk, OnErr, Some};
ghost use Rattle.iface_host.specs.Outbox.{with_refusal_counted, empty, with_room, HandsFirst};

use net_base::phy::{DeviceCapabilities, FRAME_BUFFER_SIZE, Medium};
use std::alloc::{AllocError, Global};
use std::collections::VecDeque;
use std::marker::Model;

/// The device of a host: it keeps the frames that are sent, in order, until they are handed over, and has none to
/// be received. It grants a transmit token if memory for one more frame is there.
///
/// In contracts it is what the host's device can do, the frames that wait, the count of refusals, and whether room for
/// one more is reserved.
#[derive(Drop)]
pub struct Outbox {
    alloc: Global,
    capabilities: DeviceCapabilities,
    frames: VecDeque<Vec<u8>>,
    room: Option<Vec<u8>>,
    refusals: u64,
}

impl Model for Outbox {
    ghost use Rattle.std.specs.Prelude.{◌≡◌, ◌≤◌, ◌<◌, [], map, All, is_some, vec_len, vec_capacity};
    ghost use Rattle.std.specs.VecDeque.{deque_len, deque_capacity};
    ghost use Rattle.std.specs.Option.{ForSome};
    ghost use Rattle.iface_host.specs.Outbox.{Waiting};

    ghost Value = { Waiting };

    ghost view = { λ o. record {
      capabilities = o.capabilities;
      frames = map (λ v. v.items) o.frames.items;
      refusals = o.refusals;
      has_room = is_some o.room;
    } };

    ghost invariant = { λ o. All (λ v. vec_len v ≤ 1514) o.frames.items
        × All (λ v. 1514 ≤ vec_capacity v) o.frames.items
        × (deque_len o.frames ≤ deque_capacity o.frames) × ForSome o.room
        (λ v. (v.items ≡ []) × (1514 ≤ vec_capacity v) × (deque_len o.frames < deque_capacity o.frames)) };
}

impl Outbox {
    /// An outbox in which no frame waits. It takes no memory.
    pub fn new(alloc: Global, capabilities: DeviceCapabilities) -> Outbox
        ensures { result ≡ empty capabilities }
    {
        Outbox {
            alloc,
            capabilities,
            frames: VecDeque::new(alloc),
            room: None,
            refusals: 0,
        }
    }

    /// How many frames wait.
    pub fn len(&self) -> usize
        ensures { result ≡ length self.now.frames }
    {
        self.frames.len()
    }

    /// Reserves room for one more frame, if it isn't reserved. It fails if memory for that is refused; then
    /// nothing changes.
    pub fn reserve(&mut self) -> Result<(), AllocError>
        ensures reserved { OnOk result (self.new ≡ with_room true self.old) }
        ensures refused { OnErr result (self.new ≡ self.old) }
    {
        if self.room.is_some() {
            return Ok(());
        }
        self.make_room()
    }

    /// Reserves room for one more frame.
    #[inline(never)]
    fn make_room(&mut self) -> Result<(), AllocError>
        requires { self.old.has_room ≡ false }
        ensures reserved { OnOk result (self.new ≡ with_room true self.old) }
        ensures refused { OnErr result (self.new ≡ self.old) }
    {
        let room = Vec::with_capacity(self.alloc, FRAME_BUFFER_SIZE)?;
        self.frames.reserve(1)?;
        self.room = Some(room);
        Ok(())
    }

    /// Writes the first frame that waits to the front of a buffer, and hands it over: it waits no more, and its room is
    /// kept for the next one. Answers how many octets it has, and 0 where none waits.
    pub fn hand_over(&mut self, out: &mut [u8]) -> usize
        requires { 1514 ≤ length out.old }
        ensures { HandsFirst self.old result out.old out.new self.new }
    {
        match self.frames.pop_front() {
            Some(mut frame) => {
                let len = write_front(out, &frame);
                if self.room.is_none() {
                    frame.clear();
                    self.room = Some(frame);
                }
                len
            }
            None => 0,
        }
    }

    /// What the device can do.
    pub(crate) fn capabilities(&self) -> DeviceCapabilities
        ensures { result ≡ self.now.capabilities }
    {
        self.capabilities
    }

    /// Whether frames have headers of Ethernet.
    #[inline(always)]
    pub(crate) fn medium(&self) -> Medium
        ensures { result ≡ self.now.capabilities.medium }
    {
        self.capabilities.medium
    }

    /// How many transmit tokens were refused.
    pub(crate) fn refusals(&self) -> u64
        ensures { result ≡ self.now.refusals }
    {
        self.refusals
    }

    /// Grants a transmit token, if memory for one more frame is there; otherwise counts the refusal.
    pub(crate) fn give_leave(&mut self) -> bool
        ensures given { result ≡ true → self.new ≡ with_room true self.old }
        ensures refused { result ≡ false → self.new ≡ with_refusal_counted self.old }
    {
        if self.reserve().is_err() {
            self.count_refusal();
            return false;
        }
        true
    }

    /// Keeps a frame that is sent, in the room for it.
    #[inline(never)]
    pub(crate) fn keep(&mut self, frame: &[u8])
        requires room { self.old.has_room ≡ true }
        requires short { length frame.now ≤ 1514 }
        ensures { self.new ≡ record self.old { frames = self.old.frames ++ frame.now ∷ []; has_room = false } }
    {
        if let Some(mut room) = self.room.take() {
            // It has the capacity for any frame, so this can't fail.
            let _ = room.extend_from_slice(frame);
            self.frames.push_back_reserved(room);
        }
    }

    // Counts a refused transmit token.
    fn count_refusal(&mut self)
        ensures { self.new ≡ with_refusal_counted self.old }
    {
        self.refusals = self.refusals.saturating_add(1);
    }
}

// Writes a frame into the front of a buffer, and returns its length.
pub(crate) fn write_front(buffer: &mut [u8], frame: &[u8]) -> usize
    requires { length frame.now ≤ length buffer.old }
    ensures front { take result buffer.new ≡ frame.now }
    ensures rest { drop result buffer.new ≡ drop result buffer.old }
    ensures len { result ≡ length frame.now }
{
    let len = frame.len();
    buffer[..len].copy_from_slice(frame);
    len
}
