//! The links of the host: a device in memory, and the driver of a card.

use crate::card::{Card, RING};
use anyhow::Result;
use net_base::MemoryDevice;
use net_base::phy::{
    ChecksumCapabilities, Device, DeviceCapabilities, DriverDevice, FRAME_BUFFER_SIZE, Medium,
    Tracer,
};
use std::alloc::Global;

/// Ethernet, with frames of at most 1514 octets.
pub const CAPABILITIES: DeviceCapabilities = DeviceCapabilities {
    medium: Medium::Ethernet,
    max_transmission_unit: 1514,
    max_burst_size: None,
    checksum: ChecksumCapabilities::ALL,
};

/// A device whose frames the program puts in and takes out, as the other hosts would.
pub trait Link: Device {
    /// A frame comes.
    fn put(&mut self, frame: &[u8]) -> Result<()>;

    /// The frames sent since it was asked last.
    fn sent(&mut self, alloc: Global) -> Result<Vec<Vec<u8>>>;
}

/// A device in memory.
pub fn in_memory(alloc: Global) -> MemoryDevice {
    MemoryDevice::new(alloc, CAPABILITIES)
}

impl Link for MemoryDevice {
    fn put(&mut self, frame: &[u8]) -> Result<()> {
        Ok(self.push(frame)?)
    }

    fn sent(&mut self, _alloc: Global) -> Result<Vec<Vec<u8>>> {
        Ok(self.take_sent())
    }
}

impl Link for DriverDevice<Card> {
    fn put(&mut self, frame: &[u8]) -> Result<()> {
        self.driver.received.push(frame);
        Ok(())
    }

    fn sent(&mut self, alloc: Global) -> Result<Vec<Vec<u8>>> {
        frames_of(alloc, &mut self.driver)
    }
}

impl Link for Tracer<DriverDevice<Card>> {
    fn put(&mut self, frame: &[u8]) -> Result<()> {
        self.device.put(frame)
    }

    fn sent(&mut self, alloc: Global) -> Result<Vec<Vec<u8>>> {
        self.device.sent(alloc)
    }
}

/// Takes the frames to be sent out of a card, as the hardware would.
fn frames_of(alloc: Global, card: &mut Card) -> Result<Vec<Vec<u8>>> {
    let mut frames = Vec::new(alloc);
    let mut buffer = [0; FRAME_BUFFER_SIZE];
    for _ in 0..RING {
        let Some(len) = card.to_send.pop(&mut buffer) else {
            break;
        };
        frames.push(Vec::from_slice(alloc, buffer.get(..len).unwrap_or(&[]))?)?;
    }
    Ok(frames)
}
