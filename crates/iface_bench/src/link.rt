//! A link that delivers one frame over and over, and counts what is sent.
ghost use Rattle.std.specs.Prelude.{◌≡◌};
ghost use Rattle.iface_bench.specs.Link as spec;

use net_base::phy::{
    ChecksumCapabilities, Device, DeviceCapabilities, FRAME_BUFFER_SIZE, Medium, PacketMeta,
};
use net_base::time::Instant;
use std::alloc::Global;

/// The capabilities of a link: packets of 1,500 octets.
const fn capabilities_of(medium: Medium) -> DeviceCapabilities
    ensures { result ≡ spec.capabilities_of medium }
{
    DeviceCapabilities {
        medium,
        max_transmission_unit: match medium {
            Medium::Ethernet => 1514,
            Medium::Ip => 1500,
        },
        max_burst_size: None,
        checksum: ChecksumCapabilities::ALL,
    }
}

/// A link that never refuses, and keeps the last frame sent.
#[derive(Drop)]
pub struct Link {
    medium: Medium,
    frame: Vec<u8>,
    last: [u8; FRAME_BUFFER_SIZE],
    last_len: usize,
    frames_sent: u64,
    octets_sent: u64,
}

impl Link {
    /// A link with no frame to deliver.
    pub fn new(alloc: Global, medium: Medium) -> Link {
        Link {
            medium,
            frame: Vec::new(alloc),
            last: [0; FRAME_BUFFER_SIZE],
            last_len: 0,
            frames_sent: 0,
            octets_sent: 0,
        }
    }

    /// Delivers this frame from now on, or none if it is empty. A frame of more than 1,514 octets is truncated.
    pub fn load(&mut self, mut frame: Vec<u8>) {
        frame.truncate(FRAME_BUFFER_SIZE);
        self.frame = frame;
    }

    /// The last frame sent, or no octets.
    pub fn last(&self) -> &[u8] {
        &self.last[..self.last_len.min(FRAME_BUFFER_SIZE)]
    }

    /// The number of frames sent.
    pub fn frames_sent(&self) -> u64 {
        self.frames_sent
    }

    /// The number of octets sent.
    pub fn octets_sent(&self) -> u64 {
        self.octets_sent
    }
}

impl Device for Link {
    ghost use Rattle.std.specs.Prelude.{true};
    ghost use Rattle.iface_bench.specs.Link.{capabilities_of, TellsNoRefusal, none_refused, refused_none};

    ghost tells = { λ old events new. TellsNoRefusal events };

    ghost may_transmit = { λ link. true };

    ghost capable = { λ link. capabilities_of link.medium };

    ghost refused = { λ link. 0 };

    fn capabilities(&self) -> DeviceCapabilities {
        capabilities_of(self.medium)
    }

    fn receive(&mut self, _now: Instant, buffer: &mut [u8]) -> Option<(usize, PacketMeta)> {
        if self.frame.is_empty() {
            return None;
        }
        let count = self.frame.len().min(buffer.len());
        buffer[..count].copy_from_slice(&self.frame[..count]);
        Some((count, PacketMeta::EMPTY))
    }

    fn transmit(&mut self, _now: Instant) -> bool {
        true
    }

    fn send(&mut self, _meta: PacketMeta, frame: &[u8]) {
        self.frames_sent = self.frames_sent.wrapping_add(1);
        self.octets_sent = self.octets_sent.wrapping_add(frame.len() as u64);
        self.last[..frame.len()].copy_from_slice(frame);
        self.last_len = frame.len();
    }

    fn refusals(&self) -> u64 {
        0
    }

    ghost tells_nothing = { λ link. tt };

    ghost tells_on = { λ a b c xs ys first second. none_refused xs ys first second };

    ghost tells_refusals = { λ a b xs told. refused_none xs told };
}
