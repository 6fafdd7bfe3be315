//! A network card as its driver sees it: two rings of descriptors, one of received frames and one of frames to be sent.
use net_base::phy::{ChecksumCapabilities, DeviceCapabilities, Driver, FRAME_BUFFER_SIZE, Medium};
use net_base::time::Instant;
use std::alloc::{AllocError, Global};

/// The number of descriptors in each ring.
pub const RING: usize = 4;

/// Room for a frame, and the frame's length.
#[derive(Drop)]
struct Descriptor {
    octets: [u8; FRAME_BUFFER_SIZE],
    len: usize,
}

/// Descriptors that are used in turn. Frames leave it in the order in which they came.
#[derive(Drop)]
pub struct Ring {
    descriptors: Vec<Descriptor>,
    first: usize,
    used: usize,
}

impl Ring {
    /// A ring of this many descriptors. Fails if memory for it is refused.
    pub fn new(alloc: Global, size: usize) -> Result<Ring, AllocError> {
        let mut descriptors = Vec::with_capacity(alloc, size)?;
        for _ in 0..size {
            descriptors.push(Descriptor {
                octets: [0; FRAME_BUFFER_SIZE],
                len: 0,
            })?;
        }
        Ok(Ring {
            descriptors,
            first: 0,
            used: 0,
        })
    }

    /// Whether each descriptor has a frame.
    pub fn is_full(&self) -> bool {
        self.used >= self.descriptors.len()
    }

    /// Adds a frame, and returns whether it was added. It isn't if the ring is full, or the frame too long.
    pub fn push(&mut self, frame: &[u8]) -> bool {
        let size = self.descriptors.len();
        if self.used >= size || frame.len() > FRAME_BUFFER_SIZE {
            return false;
        }
        let next = self.first.wrapping_add(self.used) % size;
        let Some(descriptor) = self.descriptors.get_mut(next) else {
            return false;
        };
        descriptor.octets[..frame.len()].copy_from_slice(frame);
        descriptor.len = frame.len();
        self.used = self.used.saturating_add(1);
        true
    }

    /// Writes the first frame to the front of a buffer, and returns its length; or returns `None` if there is none.
    pub fn pop(&mut self, buffer: &mut [u8]) -> Option<usize> {
        if self.used == 0 {
            return None;
        }
        let descriptor = self.descriptors.get(self.first)?;
        let len = descriptor.len.min(FRAME_BUFFER_SIZE).min(buffer.len());
        buffer[..len].copy_from_slice(&descriptor.octets[..len]);
        self.first = self.first.wrapping_add(1) % self.descriptors.len().max(1);
        self.used = self.used.saturating_sub(1);
        Some(len)
    }
}

/// The card. Here the program plays the hardware: it puts frames into `received`, and takes them out of `to_send`.
#[derive(Drop)]
pub struct Card {
    pub received: Ring,
    pub to_send: Ring,
}

impl Card {
    /// A card with empty rings. Fails if memory for them is refused.
    pub fn new(alloc: Global) -> Result<Card, AllocError> {
        Ok(Card {
            received: Ring::new(alloc, RING)?,
            to_send: Ring::new(alloc, RING)?,
        })
    }
}

impl Driver for Card {
    fn capabilities(&self) -> DeviceCapabilities {
        DeviceCapabilities {
            medium: Medium::Ethernet,
            max_transmission_unit: FRAME_BUFFER_SIZE,
            max_burst_size: None,
            checksum: ChecksumCapabilities::ALL,
        }
    }

    fn receive(&mut self, _now: Instant, buffer: &mut [u8]) -> Option<usize> {
        // A reply needs room, so without it the frame waits.
        if self.to_send.is_full() {
            return None;
        }
        let len = self.received.pop(buffer)?;
        Some(len.min(FRAME_BUFFER_SIZE))
    }

    fn transmit(&mut self, _now: Instant) -> bool {
        !self.to_send.is_full()
    }

    fn send(&mut self, frame: &[u8]) {
        // There is room: it was asked for before.
        let _ = self.to_send.push(frame);
    }
}
