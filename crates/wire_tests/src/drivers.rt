//! Drivers, and a device that keeps what passes.
// Each test also holds where any one request for memory is refused.
ghost use Rattle.std.specs.Prelude.{◌≡◌, length};

use net_base::memory_device::MemoryDevice;
use net_base::phy::{
    ChecksumCapabilities, Device, DeviceCapabilities, Driver, DriverDevice, FRAME_BUFFER_SIZE,
    Medium, PacketMeta, TracedEvent, Tracer,
};
use net_base::time::Instant;
use std::alloc::Global;

const NOW: Instant = Instant { micros: 7 };

const CAPABILITIES: DeviceCapabilities = DeviceCapabilities {
    medium: Medium::Ip,
    max_transmission_unit: 1280,
    max_burst_size: Some(2),
    checksum: ChecksumCapabilities::ALL,
};

/// A card that receives one frame, lets frames be sent or not, and keeps the first octet and the length of the last one.
#[derive(Drop)]
struct Card {
    waits: bool,
    is_ready: bool,
    sent: Option<(u8, usize)>,
}

impl Driver for Card {
    fn capabilities(&self) -> DeviceCapabilities {
        CAPABILITIES
    }

    fn receive(&mut self, _now: Instant, buffer: &mut [u8]) -> Option<usize> {
        if !self.waits {
            return None;
        }
        self.waits = false;
        buffer[..4].copy_from_slice(b"ping");
        Some(4)
    }

    fn transmit(&mut self, _now: Instant) -> bool {
        self.is_ready
    }

    fn send(&mut self, frame: &[u8]) {
        self.sent = Some((frame.first().copied().unwrap_or(0), frame.len()));
    }
}

/// Whether the card's frame is received, and answered.
fn is_answered(device: &mut impl Device) -> bool {
    let mut buffer = [0; FRAME_BUFFER_SIZE];
    if device.receive(NOW, &mut buffer) != Some((4, PacketMeta::EMPTY)) {
        return false;
    }
    device.send(PacketMeta::EMPTY, b"reply");
    buffer.starts_with(b"ping\0")
}

/// Whether there is no frame.
fn is_empty(device: &mut impl Device) -> bool {
    device.receive(NOW, &mut [0; FRAME_BUFFER_SIZE]) == None
}

/// Whether a card that isn't ready answers, and then grants nothing.
fn is_refused(device: &mut DriverDevice<Card>) -> bool {
    device.capabilities() == CAPABILITIES
        && is_answered(device)
        && device.driver.sent == Some((b'r', 5))
        && is_empty(device)
        && device.refusals() == 0
        && !device.transmit(NOW)
        && device.refusals() == 1
}

#[test]
fn a_driver_is_a_device(rt: HostRuntime) {
    let mut device = DriverDevice::new(Card {
        waits: true,
        is_ready: false,
        sent: None,
    });
    let is_right = is_refused(&mut device);
    device.driver.is_ready = true;
    assert!(rt; is_right && device.transmit(NOW) && device.refusals() == 1);
}

/// Whether this frame was delivered.
fn is_frame(event: &TracedEvent, octets: &[u8]) -> bool {
    match event {
        TracedEvent::Frame(now, frame) => *now == NOW && frame.as_slice() == octets,
        _ => false,
    }
}

/// Whether this frame was sent.
fn is_sent(event: &TracedEvent, octets: &[u8]) -> bool {
    match event {
        TracedEvent::Sent(meta, frame) => {
            *meta == PacketMeta::EMPTY && frame.as_slice() == octets
        }
        _ => false,
    }
}

fn is_none(event: &TracedEvent) -> bool {
    match event {
        TracedEvent::NoFrame(now) => *now == NOW,
        _ => false,
    }
}

fn is_granted(event: &TracedEvent) -> bool {
    match event {
        TracedEvent::Asked(now, granted) => *now == NOW && *granted,
        _ => false,
    }
}

/// Whether the list has the events of a device that had one frame and then none, and let one be sent.
fn has_all(log: &[TracedEvent]) -> bool {
    match log {
        [first, second, third, fourth] => {
            is_frame(first, b"ping")
                && is_sent(second, b"reply")
                && is_none(third)
                && is_granted(fourth)
        }
        _ => false,
    }
}

/// Whether a card that is ready answers, and grants that another frame is sent.
fn grants(device: &mut Tracer<DriverDevice<Card>>) -> bool {
    is_answered(device)
        && is_empty(device)
        && device.transmit(NOW)
        && device.device.driver.sent == Some((b'r', 5))
}

#[test]
fn a_tracer_keeps_each_event(rt: HostRuntime) {
    let card = Card {
        waits: true,
        is_ready: true,
        sent: None,
    };
    let mut device = Tracer::new(rt.alloc(), DriverDevice::new(card));
    let is_right = grants(&mut device);
    // Where memory was refused, the list says that an event is missing.
    assert!(rt; is_right && has_all(&device.log) == device.is_complete);
}

/// Whether an event tells what became of a frame, by whether one was queued, whether it was received, and the refusals.
fn tells(event: &TracedEvent, is_queued: bool, is_received: bool, refusals: u64) -> bool {
    match event {
        TracedEvent::Frame(_, frame) => is_received && frame.as_slice() == b"ping".as_slice(),
        TracedEvent::Withheld(_) => is_queued && !is_received && refusals == 1,
        TracedEvent::NoFrame(_) => !is_queued && !is_received && refusals == 0,
        _ => false,
    }
}

/// Whether a tracer tells what became of a frame in memory, or says that it doesn't.
fn is_told(alloc: Global) -> bool {
    let mut memory = MemoryDevice::new(alloc, CAPABILITIES);
    let is_queued = memory.push(b"ping").is_ok();
    let mut device = Tracer::new(alloc, memory);
    let is_received = device.receive(NOW, &mut [0; FRAME_BUFFER_SIZE]).is_some();
    match device.log.as_slice() {
        [event] => tells(event, is_queued, is_received, device.refusals()),
        _ => !device.is_complete,
    }
}

// A device in memory that has a frame, and no room to send one, withholds it. That is so only where memory is refused.
#[test]
fn a_tracer_tells_none_from_withheld(rt: HostRuntime) {
    assert!(rt; is_told(rt.alloc()));
}
