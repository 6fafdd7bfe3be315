//! Blocks arrive, and guide what is sent again (RFC 2018 5, RFC 6675 5).
ghost use Rattle.std.specs.Prelude.{◌≡◌, ◌≤◌, [], true};
ghost use Rattle.tcp_machine.specs.Acknowledgements as acknowledgements;
ghost use Rattle.tcp_machine.specs.Outgoing as outgoing;
ghost use Rattle.tcp_connection.specs.Segments.{segment_of};
ghost use Rattle.tcp_connection.specs.Details.Told.{is_nothing_told, with_place, with_places, with_recovery};

use crate::connection::Connection;
use crate::segment::Segment;
use tcp_machine::congestion::Congestion;
use tcp_machine::positions::position_near;
use tcp_machine::sack::SackBlock;
use tcp_machine::timers::Pending;

impl Connection {
    /// The blocks of a segment tell what arrived, where both sides permitted them, and a recovery that they guide begins or goes
    /// on (RFC 6675 5).
    #[tactic(auto, using(crate::proofs::ToldLemmas::not_permitted, crate::proofs::ToldLemmas::nothing_told))]
    pub(crate) fn take_blocks(&mut self, segment: &Segment)
        ensures value { self.new ≡ acknowledgements.after_blocks (segment_of segment.now []) self.old }
        ensures kept { self.new.reception ≡ self.old.reception }
    {
        if self.reception.sack_permitted() && !self.is_nothing_told(segment) {
            self.take_told(segment);
        }
    }

    // Whether nothing is told, and a segment tells nothing.
    #[inline(always)]
    fn is_nothing_told(&self, segment: &Segment) -> bool
        ensures { result ≡ is_nothing_told (segment_of segment.now []) self.now }
    {
        segment.has_no_blocks() && self.transmission.is_nothing_told()
    }

    // The same where something is told, or was.
    #[tactic(auto, using(crate::proofs::ToldLemmas::places_are))]
    fn take_told(&mut self, segment: &Segment)
        requires { self.old.reception.sack_permitted ≡ true }
        ensures value { self.new ≡ acknowledgements.after_blocks (segment_of segment.now []) self.old }
        ensures kept { self.new.reception ≡ self.old.reception }
    {
        let before = self.transmission.told_of_sent();
        self.take_places(segment.blocks);
        let is_more = before < self.transmission.told_of_sent();
        self.recover(is_more);
    }

    // Blocks in places are told.
    fn take_places(&mut self, places: [Option<SackBlock>; 4])
        ensures { self.new ≡ with_places places self.old }
    {
        let [first, second, third, fourth] = places;
        self.take_place(first);
        self.take_place(second);
        self.take_place(third);
        self.take_place(fourth);
    }

    // A block is told, if there is one.
    fn take_place(&mut self, place: Option<SackBlock>)
        ensures { self.new ≡ with_place place self.old }
    {
        if let Some(block) = place {
            let una = self.transmission.una();
            let left = position_near(self.local, una, block.left);
            let right = position_near(self.local, una, block.right);
            self.transmission.tell(left, right);
        }
    }

    // What follows once blocks were told, which may tell more than was told before.
    fn recover(&mut self, is_more: bool)
        ensures value { self.new ≡ acknowledgements.after_more is_more (acknowledgements.is_hole_due self.old) self.old }
        ensures kept { self.new.reception ≡ self.old.reception }
    {
        let is_due = self.is_hole_due();
        if is_more && self.begins_recovery() {
            self.begin_recovery();
            return;
        }
        if is_more {
            self.congestion = self.congestion.after_more_told();
        }
        if is_due {
            self.pending = Pending::Resend;
        }
    }

    // Whether that is the third time in a row, or the first unacknowledged octet is lost (RFC 6675 5, steps (1) to (4)).
    fn begins_recovery(&self) -> bool
        ensures { result ≡ acknowledgements.begins_recovery self.now }
    {
        let una = self.transmission.una();
        self.congestion.is_third(una)
            || (!self.congestion.is_recovering
                && self.congestion.recover < una
                && self.transmission.is_first_lost())
    }

    // A recovery begins.
    fn begin_recovery(&mut self)
        ensures value { self.new ≡ with_recovery self.old }
        ensures kept { self.new.reception ≡ self.old.reception }
    {
        let mss = self.transmission.mss();
        let flight = self.transmission.flight().min(self.congestion.window);
        let top = self.transmission.top();
        self.congestion = Congestion::after_loss_told(mss, flight, top);
        self.transmission.resend_from(self.transmission.una());
        self.pending = Pending::Resend;
    }

    // Whether the next hole is lost, and the window has room for a segment more on its way (RFC 6675 5, step (C)).
    fn is_hole_due(&self) -> bool
        ensures { result ≡ acknowledgements.is_hole_due self.now }
    {
        let mss = u64::from(self.transmission.mss());
        self.congestion.is_recovering
            && self.transmission.is_hole_lost()
            && self.transmission.pipe() + mss <= self.congestion.window
    }

    /// How much beyond the congestion window may be sent.
    #[inline(always)]
    pub(crate) fn beyond_window(&self) -> u64
        ensures { result ≡ outgoing.beyond_window_of self.now }
    {
        if self.transmission.is_nothing_told() {
            self.congestion.beyond_window(self.transmission.mss())
        } else if self.congestion.is_recovering && self.transmission.is_hole_lost() {
            0
        } else {
            self.transmission.octets_told()
        }
    }

    /// Where what is sent again begins: in a recovery at the next hole.
    pub(crate) fn again_from(&self) -> u64
        ensures value { result ≡ outgoing.again_from self.now }
        ensures sent { result ≤ self.now.transmission.sender.top }
    {
        if self.congestion.is_recovering {
            self.transmission.next_hole()
        } else {
            self.transmission.una()
        }
    }
}
