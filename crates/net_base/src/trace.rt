//! What passes between an interface and a driver, as only proofs see it.
ghost use Rattle.std.specs.Prelude.{◌≡◌, List, [], ◌∷◌, ◌++◌};
ghost use Rattle.std.specs.Borrow.{ftrue};
ghost use Rattle.net_base.specs.Device.{Event};

use crate::phy::PacketMeta;
use crate::time::Instant;
use std::marker::Model;

/// The events between an interface and a driver, in order. It takes no memory, and its methods do nothing at run time.
#[derive(Drop)]
pub struct Trace {
    pub ghost events: { List Event },
}

impl Model for Trace {
    ghost also_owns = { λ _. ftrue };
}

// It owns nothing.
unsafe impl Send for Trace {}

/// One event, with its frame by reference.
#[derive(Clone, Copy, Drop)]
pub(crate) enum Passed<'a> {
    /// At a moment the driver delivered a frame.
    Frame(Instant, &'a [u8]),
    /// At a moment it had none.
    NoFrame(Instant),
    /// At a moment it granted a transmit token, or refused one.
    Asked(Instant, bool),
    /// A frame was sent.
    Sent(PacketMeta, &'a [u8]),
}

impl Trace {
    ghost use Rattle.net_base.specs.Details.Passed.{event_of};

    /// Nothing has passed.
    pub fn new() -> Trace
        ensures { result.events ≡ [] }
    {
        Trace {}
    }

    /// The trace with one event more.
    #[inline(always)]
    pub(crate) fn then(&self, _passed: &Passed<'_>) -> Trace
        ensures { result.events ≡ self.now.events ++ event_of _passed.now ∷ [] }
    {
        Trace {}
    }
}
