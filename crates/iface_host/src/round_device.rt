//! The device of a round: it writes the first frame that is sent right into the caller's buffer.

use crate::outbox::{Outbox, write_front};
use net_base::phy::{Device, DeviceCapabilities, PacketMeta};
use net_base::time::Instant;

/// The device of a round. It has no frame to be received, and grants a transmit token if memory for one more frame is
/// there. The first frame that is sent is written to the front of a buffer, if none waits and it fits; the others wait
/// in the outbox.
pub struct RoundDevice<'r> {
    pub(crate) outbox: &'r mut Outbox,
    pub(crate) out: &'r mut [u8],
    pub(crate) len: Option<usize>,
}

impl<'r> Device for RoundDevice<'r> {
    ghost use Rattle.iface_host.specs.RoundDevice.{Tells, told_nothing, told_on};

    ghost tells = { Tells };

    ghost may_transmit = { λ d. d.outbox.now.has_room };

    ghost capable = { λ d. d.outbox.now.capabilities };

    ghost refused = { λ d. d.outbox.now.refusals };

    fn capabilities(&self) -> DeviceCapabilities {
        self.outbox.capabilities()
    }

    fn receive(&mut self, _now: Instant, _buffer: &mut [u8]) -> Option<(usize, PacketMeta)> {
        None
    }

    fn transmit(&mut self, _now: Instant) -> bool {
        self.outbox.give_leave()
    }

    fn send(&mut self, _meta: PacketMeta, frame: &[u8]) {
        if self.len.is_none() && self.outbox.len() == 0 && frame.len() <= self.out.len() {
            self.len = Some(write_front(self.out, frame));
        } else {
            self.outbox.keep(frame);
        }
    }

    fn refusals(&self) -> u64 {
        self.outbox.refusals()
    }

    ghost tells_nothing = { λ d. told_nothing d };

    ghost tells_on = { λ a b c xs ys first second. told_on xs ys first second };

    ghost tells_refusals = { λ a b xs told. told.refusals };
}
