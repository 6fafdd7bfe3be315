//! A device made of a driver that knows nothing of proofs.
ghost use Rattle.std.specs.Prelude.{◌≡◌, ◌++◌, [], length, take};
ghost use Rattle.net_base.specs.Device.{refusals_after};
ghost use Rattle.net_base.specs.Details.Exact.{DeterminesEvents};

use crate::phy::{Device, DeviceCapabilities, Driver, PacketMeta};
use crate::time::Instant;
use crate::trace::{Passed, Trace};

/// A driver as a device. What passes between an interface and the driver is its trace, which only proofs see: each
/// event of a run is there, and no other.
#[derive(Drop)]
pub struct DriverDevice<D: Driver> {
    /// The driver.
    pub driver: D,
    /// What passed so far.
    pub trace: Trace,
    capabilities: DeviceCapabilities,
    refusals: u64,
    may_send: bool,
}

impl<D: Driver> DriverDevice<D> {
    /// A device of this driver, through which nothing has passed. Its capabilities are those that the driver has now.
    pub fn new(driver: D) -> DriverDevice<D>
        ensures driver { result.driver ≡ driver }
        ensures trace { result.trace.events ≡ [] }
    {
        DriverDevice {
            capabilities: driver.capabilities(),
            driver,
            trace: Trace::new(),
            refusals: 0,
            may_send: false,
        }
    }
}

impl<D: Driver> Device for DriverDevice<D> {
    ghost use Rattle.std.specs.Prelude.{refl};
    ghost use Rattle.net_base.specs.Details.DriverLaws.{none_appended, appended_on, counted_on};

    ghost tells = { λ old events new.
        (new.trace.events ≡ old.trace.events ++ events) × (new.refusals ≡ refusals_after old.refusals events) };

    ghost may_transmit = { λ d. d.may_send };

    ghost capable = { λ d. d.capabilities };

    ghost refused = { λ d. d.refusals };

    fn capabilities(&self) -> DeviceCapabilities {
        self.capabilities
    }

    fn receive(&mut self, now: Instant, buffer: &mut [u8]) -> Option<(usize, PacketMeta)> {
        match self.driver.receive(now, buffer) {
            Some(len) => {
                self.trace = self.trace.then(&Passed::Frame(now, &buffer[..len]));
                self.may_send = true;
                Some((len, PacketMeta::EMPTY))
            }
            None => {
                self.trace = self.trace.then(&Passed::NoFrame(now));
                None
            }
        }
    }

    fn transmit(&mut self, now: Instant) -> bool {
        let granted = self.driver.transmit(now);
        self.trace = self.trace.then(&Passed::Asked(now, granted));
        if granted {
            self.may_send = true;
        } else {
            self.refusals = self.refusals.saturating_add(1);
        }
        granted
    }

    fn send(&mut self, meta: PacketMeta, frame: &[u8]) {
        self.trace = self.trace.then(&Passed::Sent(meta, frame));
        self.may_send = false;
        self.driver.send(frame);
    }

    fn refusals(&self) -> u64 {
        self.refusals
    }

    ghost tells_nothing = { λ d. (none_appended d.trace.events, refl) };

    ghost tells_on = { λ a b c xs ys first second. (
      appended_on a.trace.events b.trace.events c.trace.events xs ys first.0 second.0,
      counted_on a.refusals b.refusals c.refusals xs ys first.1 second.1,
    ) };

    ghost tells_refusals = { λ a b xs told. told.1 };
}

/// Two states of such a device determine the events between them, whatever the driver is: they are what was added to its
/// trace. So each law of the frames of a run is a law of the frames that the driver got and gave.
pub fn trace_determines_events<D: Driver>()
    ensures { DeterminesEvents ⟦<DriverDevice<D> as Device>⟧.tells }
{}
