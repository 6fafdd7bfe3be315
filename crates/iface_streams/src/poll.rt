//! What connections do whenever their owner polls them.
ghost use Rattle.std.specs.Prelude.{◌≡◌, OnOk, OnErr};
ghost use Rattle.std.specs.Result.{result_err};
ghost use Rattle.iface_host.specs.Refusals.{moment_refusal};
ghost use Rattle.iface_streams.specs.Poll as spec;

use crate::reports::MOST_REPORTS;
use crate::streams::Streams;
use iface_host::streams::micros_of;
use iface_host::{IfaceHost, Refusal};

/// The last moment that a caller may give, in microseconds.
const LAST_MOMENT: u64 = 0x4000_0000_0000_0000;

impl Streams {
    /// Does what is due at a moment: connections hear of peers that can't be reached and of paths with a smaller MTU, take what came to
    /// their raw sockets, and queue there what they send.
    /// `BadMoment` if the moment is out of range; then nothing changes.
    pub fn poll(&mut self, host: &mut IfaceHost, now: i64) -> Result<(), Refusal>
        ensures polled { OnOk result (spec.Polls now self.old self.new host.old host.new) }
        ensures why { result_err result ≡ moment_refusal now }
        ensures refused { OnErr result (self.new ≡ self.old) }
        ensures host { OnErr result (host.new ≡ host.old) }
    {
        let micros = micros_of(now)?;
        self.hear_reports(host, micros, MOST_REPORTS);
        self.lose_absent(host, micros);
        host.poll_streams(now, &mut self.carrier, &mut self.connections)
    }

    /// When [`Streams::poll`] is to be called next if nothing comes, in microseconds: `None` if nothing is due by itself.
    pub fn poll_at(&self) -> Option<i64>
        ensures { spec.IsDue self.now result }
    {
        let at = self.connections.poll_at()?;
        Some(at.min(LAST_MOMENT) as i64)
    }
}
