//! The device in memory.
// Each test also holds where any one request for memory is refused.
ghost use Rattle.std.specs.Prelude.{◌≤◌, length};

use net_base::memory_device::{MemoryDevice, PushError};
use net_base::phy::{
    ChecksumCapabilities, Device, DeviceCapabilities, FRAME_BUFFER_SIZE, Medium, PacketMeta,
};
use net_base::time::Instant;
use std::alloc::Global;

const NOW: Instant = Instant::ZERO;

fn empty(alloc: Global) -> MemoryDevice {
    let capabilities = DeviceCapabilities {
        medium: Medium::Ethernet,
        max_transmission_unit: FRAME_BUFFER_SIZE,
        max_burst_size: None,
        checksum: ChecksumCapabilities::ALL,
    };
    MemoryDevice::new(alloc, capabilities)
}

/// Queues a frame. A refusal changes nothing.
fn queue(device: &mut MemoryDevice, frame: &[u8]) -> bool {
    let waiting = device.queued();
    if let Err(error) = device.push(frame) {
        return error == PushError::NoMemory
            && device.queued() == waiting
            && device.push(frame) == Ok(())
            && device.queued() > waiting;
    }
    device.queued() > waiting
}

/// Receives a frame. One that is withheld stays queued and counts.
fn hands_over(device: &mut MemoryDevice, frame: &[u8]) -> bool {
    let mut buffer = [0; FRAME_BUFFER_SIZE];
    let waiting = device.queued();
    let mut received = device.receive(NOW, &mut buffer);
    let mut stays = true;
    if received.is_none() {
        stays = device.queued() == waiting && device.refusals() == 1;
        received = device.receive(NOW, &mut buffer);
    }
    match received {
        Some((len, meta)) => {
            stays
                && &buffer[..len] == frame
                && meta == PacketMeta::EMPTY
                && device.queued() < waiting
        }
        None => false,
    }
}

fn keeps_order(device: &mut MemoryDevice) -> bool {
    queue(device, b"first")
        && queue(device, b"second")
        && hands_over(device, b"first")
        && hands_over(device, b"second")
        && device.queued() == 0
        && device.receive(NOW, &mut [0; FRAME_BUFFER_SIZE]) == None
}

#[test]
fn hands_over_in_order(rt: HostRuntime) {
    assert!(rt; keeps_order(&mut empty(rt.alloc())));
}

const LONGEST: [u8; 1514] = [7; 1514];

const TOO_LONG: [u8; 1515] = [7; 1515];

fn takes_the_longest(device: &mut MemoryDevice) -> bool {
    device.push(&TOO_LONG) == Err(PushError::TooLong)
        && device.queued() == 0
        && queue(device, &LONGEST)
        && hands_over(device, &LONGEST)
}

#[test]
fn takes_frames_up_to_the_buffer(rt: HostRuntime) {
    assert!(rt; takes_the_longest(&mut empty(rt.alloc())));
}

/// Sends a frame. A refused leave counts, and the next call gets it.
fn sends(device: &mut MemoryDevice, frame: &[u8]) -> bool
    requires { length frame.now ≤ 1514 }
{
    let refusals = device.refusals();
    if device.transmit(NOW) {
        device.send(PacketMeta::EMPTY, frame);
        return true;
    }
    let is_counted = device.refusals() > refusals;
    if device.transmit(NOW) {
        device.send(PacketMeta::EMPTY, frame);
        return is_counted;
    }
    false
}

/// Whether these frames are the two that were sent.
fn are_first_and_second(frames: &[Vec<u8>]) -> bool {
    match frames {
        [first, second] => {
            first.as_slice() == b"first".as_slice() && second.as_slice() == b"second".as_slice()
        }
        _ => false,
    }
}

#[test]
fn frames_sent_are_handed_over_once(rt: HostRuntime) {
    let mut device = empty(rt.alloc());
    let are_sent = sends(&mut device, b"first")
        && sends(&mut device, b"second")
        && are_first_and_second(device.sent());
    let are_handed_over = are_first_and_second(&device.take_sent());
    let are_gone = device.sent().len() == 0 && device.take_sent().len() == 0;
    assert!(rt; are_sent && are_handed_over && are_gone);
}
