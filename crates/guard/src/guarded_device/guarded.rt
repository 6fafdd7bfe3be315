//! A device whose frames a guard judges before a host sees them, and whose answers it judges before they are sent.
ghost use Rattle.std.specs.Prelude.{◌≡◌, ◌≤◌, true, length};
ghost use Rattle.guard.specs.Watch as watch;
ghost use Rattle.guard.specs.Details.Guarded as spec;
ghost use Rattle.guard.specs.Details.Guarded.{Hears};

use crate::Watch;
use ip_address::{HardwareAddress, IpCidr};
use net_base::phy::{Device, DeviceCapabilities, PacketMeta};
use net_base::time::Instant;

/// What came of a request for a frame.
#[derive(Clone, Copy, Debug, PartialEq, Eq)]
pub enum Heard {
    /// The device delivered none.
    Nothing,
    /// The device delivered one which the host may not see.
    Dropped,
    /// It delivered one of so many octets, which the host may see.
    Frame(usize),
}

/// A device, and a guard that judges its frames. [`Guarded::hear`] asks it for a frame, and [`Guarded::answer`] sends what a host
/// answers. For what a host sends by itself it is a [`Device`], which delivers no frame, and tells the guard what was sent.
#[derive(Drop)]
pub struct Guarded<D: Device> {
    /// The device.
    pub device: D,
    /// The guard.
    pub watch: Watch,
    /// The moment of the last request for a transmit token.
    pub at: Instant,
}

impl<D: Device> Guarded<D> {
    ghost use Rattle.std.specs.Prelude.{OnSome};

    /// A device with this guard.
    pub fn new(device: D, watch: Watch) -> Guarded<D>
        ensures device { result.device ≡ device }
        ensures watch { result.watch ≡ watch }
    {
        Guarded {
            device,
            watch,
            at: Instant::ZERO,
        }
    }

    /// Asks the device for a frame at a moment, for a host with this hardware address and these addresses. A frame that the guard admits
    /// is at the front of the buffer, as the device delivered it; of one that is dropped nothing is to be read there.
    pub fn hear(
        &mut self,
        now: Instant,
        buffer: &mut [u8],
        hardware: Option<HardwareAddress>,
        own: &[IpCidr],
    ) -> Heard
        requires { length buffer.old ≡ 1514 }
        ensures heard { Hears D.tells now hardware own.now result buffer.new self.old.device self.old.watch
            self.new.device self.new.watch }
        ensures permission { spec.is_frame result ≡ true → D.may_transmit self.new.device ≡ true }
    {
        let Some((len, _)) = self.device.receive(now, buffer) else {
            return Heard::Nothing;
        };
        let frame = &buffer[..len];
        if self.watch.admits(now, frame, hardware, own) {
            Heard::Frame(len)
        } else {
            Heard::Dropped
        }
    }

    /// Sends at a moment what the host answers to a frame of so many octets that was heard, of a known neighbour or not, unless the guard
    /// holds it back. Returns whether it was sent.
    pub fn answer(&mut self, now: Instant, frame: &[u8], answered: usize, known: bool) -> bool
        requires permission { D.may_transmit self.old.device ≡ true }
        requires short { length frame.now ≤ 1514 }
        ensures sent { result ≡ watch.lets_go now frame.now answered known self.old.watch }
        ensures watch { self.new.watch ≡ watch.after_response now frame.now answered known self.old.watch }
        ensures told { D.tells self.old.device (spec.sent_if result frame.now) self.new.device }
    {
        if self.watch.lets_go(now, frame, answered, known) {
            self.device.send(PacketMeta::EMPTY, frame);
            true
        } else {
            false
        }
    }
}

impl<D: Device> Device for Guarded<D> {
    ghost use Rattle.guard.specs.Details.Guarded.{moment_after, passed_on, watch_after};
    ghost use Rattle.guard.specs.Details.GuardedLaws.{moment_on, passed_both, told_count, watch_on};
    ghost use Rattle.std.specs.Prelude.{refl};

    ghost tells = { λ old events new. D.tells old.device (passed_on events) new.device
        × (new.at ≡ moment_after events old.at) × (new.watch ≡ watch_after events old.at old.watch) };

    ghost may_transmit = { λ d. D.may_transmit d.device };

    ghost capable = { λ d. D.capable d.device };

    ghost refused = { λ d. D.refused d.device };

    fn capabilities(&self) -> DeviceCapabilities {
        self.device.capabilities()
    }

    fn receive(&mut self, now: Instant, buffer: &mut [u8]) -> Option<(usize, PacketMeta)> {
        None
    }

    fn transmit(&mut self, now: Instant) -> bool {
        self.at = now;
        self.device.transmit(now)
    }

    fn send(&mut self, meta: PacketMeta, frame: &[u8]) {
        self.watch.note_sent(self.at, frame);
        self.device.send(meta, frame);
    }

    fn refusals(&self) -> u64 {
        self.device.refusals()
    }

    ghost tells_nothing = { λ d. (D.tells_nothing d.device, refl, refl) };

    ghost tells_on = { λ a b c xs ys first second. (
      passed_both D.tells D.tells_on a.device b.device c.device xs ys first.0 second.0,
      moment_on xs ys a.at b.at c.at first.1 second.1,
      watch_on xs ys a.at b.at a.watch b.watch c.watch first.1 first.2 second.2,
    ) };

    ghost tells_refusals = { λ a b xs told. told_count (D.refused a.device) (D.refused b.device) xs
        (D.tells_refusals a.device b.device (passed_on xs) told.0) };
}
