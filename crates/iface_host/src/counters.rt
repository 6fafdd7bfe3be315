//! What a host counts, and whether its sockets may have changed.
ghost use Rattle.std.specs.Prelude.{◌≡◌, false};
ghost use Rattle.iface_host.specs.Counters.{after_handing, after_taking, counters_of};

use crate::host::IfaceHost;
use net_base::phy::Device;

/// How many frames a host took and handed over. A number stays at the greatest one of 64 bits.
#[derive(Clone, Copy, Debug, PartialEq, Eq)]
pub struct FrameCounts {
    /// How many it took.
    pub taken: u64,
    /// How many it handed over: responses, and those of its rounds.
    pub handed_over: u64,
}

/// What a host counts.
#[derive(Clone, Copy, Debug, PartialEq, Eq)]
pub struct Counters {
    /// The frames that it took and handed over.
    pub frames: FrameCounts,
    /// How many packets were given up, of all sockets.
    pub given_up: u64,
    /// How often memory for a frame was refused in the middle of a round.
    pub no_memory: u64,
}

impl FrameCounts {
    /// No frame.
    pub const NONE: FrameCounts = FrameCounts {
        taken: 0,
        handed_over: 0,
    };

    /// Counts a frame that is taken.
    pub(crate) fn take(&mut self)
        ensures { self.new ≡ after_taking self.old }
    {
        self.taken = self.taken.saturating_add(1);
    }

    /// Counts a frame of so many octets that is handed over. One of none isn't there.
    pub(crate) fn hand_over(&mut self, len: usize)
        ensures { self.new ≡ after_handing len self.old }
    {
        if len > 0 {
            self.handed_over = self.handed_over.saturating_add(1);
        }
    }
}

impl IfaceHost {
    /// What it counted since it was made.
    pub fn counters(&self) -> Counters
        ensures { result ≡ counters_of self.now }
    {
        Counters {
            frames: self.frames,
            given_up: self.schedule.given_up(),
            no_memory: self.outbox.refusals(),
        }
    }

    /// Whether a socket may have changed by frames that were taken and rounds that were made since this was last asked.
    pub fn take_changed(&mut self) -> bool
        ensures told { result ≡ self.old.changed }
        ensures once { self.new ≡ record self.old { changed = false } }
    {
        let changed = self.changed;
        self.changed = false;
        changed
    }
}
