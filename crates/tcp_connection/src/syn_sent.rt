//! A segment arrives in SYN-SENT (RFC 9293 3.10.7.3).
ghost use Rattle.std.specs.Prelude.{◌≡◌, []};
ghost use Rattle.tcp_machine.specs.Opening as opening;
ghost use Rattle.tcp_connection.specs.Segments.{segment_of};

use crate::connection::Connection;
use crate::segment::Segment;
use tcp_machine::positions::number_at;
use tcp_machine::state::State;
use tcp_machine::timers::{Ending, Owed, Pending};

impl Connection {
    /// A segment arrives in SYN-SENT.
    pub(crate) fn take_in_syn_sent(&mut self, now: u64, default: u16, link: u16, segment: &Segment)
        ensures { self.new ≡ opening.after_arrival_in_syn_sent default link now (segment_of segment.now []) self.old }
    {
        if self.acknowledges_syn(segment) {
            if segment.rst {
                self.end(Some(Ending::Refused));
            } else if segment.syn {
                self.take_peers_syn(now, default, link, true, segment);
            }
        } else if let Some(number) = segment.ack {
            if !segment.rst {
                self.add_pending(Pending::Reset(number));
            }
        } else if segment.syn && !segment.rst {
            self.take_peers_syn(now, default, link, false, segment);
        }
    }

    /// Whether a segment acknowledges the own SYN, which was sent.
    fn acknowledges_syn(&self, segment: &Segment) -> bool
        ensures { result ≡ opening.is_acknowledgement_of_syn (segment_of segment.now []) self.now }
    {
        segment.ack == Some(number_at(self.local, 1)) && self.timers.waiting_since.is_some()
    }

    /// The peer's SYN arrives, maybe with the acknowledgement of the own one.
    fn take_peers_syn(
        &mut self,
        now: u64,
        default: u16,
        link: u16,
        is_acknowledged: bool,
        segment: &Segment,
    )
        ensures { self.new ≡ opening.after_syn default link now is_acknowledged (segment_of segment.now []) self.old }
    {
        self.hear(now);
        self.take_syn(default, link, segment);
        if is_acknowledged {
            self.establish();
        } else {
            self.state = State::SynReceived;
        }
        self.reception.set_owed(Owed::AtOnce);
    }
}
