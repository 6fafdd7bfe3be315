//! A device that keeps what passes between an interface and another device.
ghost use Rattle.std.specs.Prelude.{◌≡◌, true, [], length, take};
ghost use Rattle.net_base.specs.Details.TracedEvents.{Traces, none_by_counts, traced_events};

use crate::phy::{Device, DeviceCapabilities, PacketMeta};
use crate::time::Instant;
use std::alloc::Global;

/// One event between an interface and a device.
#[derive(Debug, Drop)]
pub enum TracedEvent {
    /// At this moment the device delivered this frame.
    Frame(Instant, Vec<u8>),
    /// At this moment it had no frame.
    NoFrame(Instant),
    /// At this moment it withheld a frame that it had.
    Withheld(Instant),
    /// At this moment it granted a transmit token, or refused one.
    Asked(Instant, bool),
    /// This frame was sent, with this metadata.
    Sent(PacketMeta, Vec<u8>),
}

/// A device with the list of all events at it, for tests and simulators. It copies each frame, and takes memory for
/// that. If memory is refused, the device works on, and the list isn't complete from then on.
///
/// A long run needn't keep all events: its owner may take the list, and begin with an empty one.
#[derive(Drop)]
pub struct Tracer<D: Device> {
    /// The device.
    pub device: D,
    /// The events, in order.
    pub log: Vec<TracedEvent>,
    /// Whether no event is missing in the list.
    pub is_complete: bool,
    alloc: Global,
}

impl<D: Device> Tracer<D> {
    ghost use Rattle.net_base.specs.Details.TracedEvents.{traced_event};
    ghost use Rattle.net_base.specs.Device.{Event};
    ghost use Rattle.std.specs.Prelude.{◌++◌, ◌∷◌, false, MatchOption};

    /// A tracer of this device, with an empty list. It takes no memory.
    pub fn new(alloc: Global, device: D) -> Tracer<D>
        ensures device { result.device ≡ device }
        ensures log { result.log.items ≡ [] }
        ensures complete { result.is_complete ≡ true }
    {
        Tracer {
            device,
            log: Vec::new(alloc),
            is_complete: true,
            alloc,
        }
    }

    // Appends an event, if there is memory for it.
    fn keep(&mut self, event: Option<TracedEvent>)
        ensures device { self.new.device ≡ self.old.device }
        ensures log { MatchOption event (self.new.is_complete ≡ false)
            (λ e. Traces self.old.is_complete (traced_events self.old.log.items) (traced_event e ∷ [])
            self.new.is_complete (traced_events self.new.log.items)) }
    {
        match event {
            Some(event) => {
                if self.log.push(event).is_err() {
                    self.is_complete = false;
                }
            }
            None => self.is_complete = false,
        }
    }
}

// The event of a request for a frame that delivered none, by the refusal counts before and after it. Returns `None` if
// the count can't rise, so that it doesn't tell whether a frame was withheld.
fn none_delivered(now: Instant, before: u64, after: u64) -> Option<TracedEvent>
    ensures { result ≡ none_by_counts now before after }
{
    if before == u64::MAX {
        None
    } else if after == before {
        Some(TracedEvent::NoFrame(now))
    } else {
        Some(TracedEvent::Withheld(now))
    }
}

impl<D: Device> Device for Tracer<D> {
    ghost use Rattle.net_base.specs.Details.TracerLaws.{none_traced, traced_on};

    ghost tells = { λ old events new. D.tells old.device events new.device
        × Traces old.is_complete (traced_events old.log.items) events new.is_complete (traced_events new.log.items) };

    ghost may_transmit = { λ d. D.may_transmit d.device };

    ghost capable = { λ d. D.capable d.device };

    ghost refused = { λ d. D.refused d.device };

    fn capabilities(&self) -> DeviceCapabilities {
        self.device.capabilities()
    }

    fn receive(&mut self, now: Instant, buffer: &mut [u8]) -> Option<(usize, PacketMeta)> {
        let before = self.device.refusals();
        match self.device.receive(now, buffer) {
            Some((len, meta)) => {
                let frame = Vec::from_slice(self.alloc, &buffer[..len]).ok();
                self.keep(frame.map(|frame| TracedEvent::Frame(now, frame)));
                Some((len, meta))
            }
            None => {
                let after = self.device.refusals();
                self.keep(none_delivered(now, before, after));
                None
            }
        }
    }

    fn transmit(&mut self, now: Instant) -> bool {
        let granted = self.device.transmit(now);
        self.keep(Some(TracedEvent::Asked(now, granted)));
        granted
    }

    fn send(&mut self, meta: PacketMeta, frame: &[u8]) {
        let copy = Vec::from_slice(self.alloc, frame).ok();
        self.keep(copy.map(|copy| TracedEvent::Sent(meta, copy)));
        self.device.send(meta, frame);
    }

    fn refusals(&self) -> u64 {
        self.device.refusals()
    }

    ghost tells_nothing = { λ d. (D.tells_nothing d.device, none_traced d.is_complete (traced_events d.log.items)) };

    ghost tells_on = { λ a b c xs ys first second. (
      D.tells_on a.device b.device c.device xs ys first.0 second.0,
      traced_on a.is_complete b.is_complete c.is_complete (traced_events a.log.items) (traced_events b.log.items)
          (traced_events c.log.items) xs ys first.1 second.1,
    ) };

    ghost tells_refusals = { λ a b xs told. D.tells_refusals a.device b.device xs told.0 };
}
