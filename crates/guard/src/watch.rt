//! A guard on its post: what it drops is counted by the reason, and who claims an own address is told.
ghost use Rattle.std.specs.Prelude.{◌≡◌, ℤ, Option, false, true};
ghost use Rattle.ip_address.specs.declared.hardware.HardwareAddress.{HardwareAddress};
ghost use Rattle.guard.specs.Guard.{is_ordinary};
ghost use Rattle.guard.specs.Defence as defence;
ghost use Rattle.guard.specs.Pins as pins;
ghost use Rattle.guard.specs.Watch as spec;

use crate::answers::{Answer, Answers};
use crate::claim::hardware_at;
use crate::defence::{Defence, announced};
use crate::guard::{Guard, Reason};
use ip_address::{EthernetAddress, HardwareAddress, IpAddress, IpCidr};
use net_base::time::Instant;

/// How many frames were dropped, by their reasons, and how many answers were held back. A number stays at the greatest one.
#[derive(Clone, Copy, Debug, PartialEq, Eq)]
pub struct Counts {
    /// Messages that claim an own address.
    pub own_address: u64,
    /// Packets from an own address.
    pub own_source: u64,
    /// Messages that tell another hardware address of a pinned neighbour.
    pub pinned: u64,
    /// Fragments.
    pub fragment: u64,
    /// Datagrams that could go to and fro for ever.
    pub loops: u64,
    /// Echo requests, and fragments of ICMP, beyond their rate.
    pub echo_request: u64,
    /// Errors of ICMP that were held back.
    pub error: u64,
    /// Resets that were held back.
    pub reset: u64,
}

impl Counts {
    /// Nothing was dropped.
    pub const NONE: Counts = Counts {
        own_address: 0,
        own_source: 0,
        pinned: 0,
        fragment: 0,
        loops: 0,
        echo_request: 0,
        error: 0,
        reset: 0,
    };

    /// Counts a frame that is dropped.
    fn drop_for(&mut self, reason: Reason)
        ensures { self.new ≡ spec.after_drop reason self.old }
    {
        match reason {
            Reason::OwnAddress => self.own_address = self.own_address.saturating_add(1),
            Reason::OwnSource => self.own_source = self.own_source.saturating_add(1),
            Reason::Pinned => self.pinned = self.pinned.saturating_add(1),
            Reason::Fragment => self.fragment = self.fragment.saturating_add(1),
            Reason::Loop => self.loops = self.loops.saturating_add(1),
            Reason::EchoRequest => self.echo_request = self.echo_request.saturating_add(1),
        }
    }

    /// Counts an answer that is held back.
    fn hold_back(&mut self, answer: Answer)
        ensures { self.new ≡ spec.after_holding answer self.old }
    {
        match answer {
            Answer::Error => self.error = self.error.saturating_add(1),
            Answer::Reset => self.reset = self.reset.saturating_add(1),
        }
    }
}

/// Who claimed an own address (RFC 5227 2.4), or one that is pinned.
#[derive(Clone, Copy, Debug, PartialEq, Eq)]
pub struct Conflict {
    /// From which hardware address the frame came.
    pub hardware: EthernetAddress,
    /// When it came.
    pub at: Instant,
}

/// A guard in front of a host and behind it, and what it counts. One that is off does nothing.
#[derive(Clone, Copy, Debug, PartialEq, Eq)]
pub struct Watch {
    /// Whether it does anything.
    pub is_on: bool,
    /// Which frames the host gets to see.
    pub guard: Guard,
    /// Which answers it sends.
    pub answers: Answers,
    /// What was dropped, and held back.
    pub counts: Counts,
    /// Who claimed an own address last.
    pub conflict: Option<Conflict>,
    /// Who claimed a pinned address last.
    pub pinned_conflict: Option<Conflict>,
    /// Whether claims of own addresses are answered, and what is owed.
    pub defence: Defence,
}

impl Watch {
    /// A guard by the usual rules and rates ([`Guard::new`], [`Answers::new`]), that has counted nothing.
    pub const fn new() -> Watch
        ensures { result ≡ spec.new_watch }
    {
        Watch {
            is_on: true,
            guard: Guard::new(),
            answers: Answers::new(),
            counts: Counts::NONE,
            conflict: None,
            pinned_conflict: None,
            defence: Defence::NONE,
        }
    }

    /// Whether the host, which has this hardware address (`None` on a medium without) and these addresses, may see a frame that came
    /// at an instant. What it may not see is counted by the reason; if the frame claims an own address or a pinned one, who sent it is
    /// noted, and an announcement of an own one may be owed ([`Watch::announcement_due`]). An echo request that isn't dropped by what it
    /// is takes a token.
    #[inline(always)]
    pub fn admits(
        &mut self,
        now: Instant,
        frame: &[u8],
        hardware: Option<HardwareAddress>,
        own: &[IpCidr],
    ) -> bool
        ensures admitted { result ≡ spec.admits now frame.now hardware own.now self.old }
        ensures watch { self.new ≡ spec.after_arrival now frame.now hardware own.now self.old }
        ensures on { self.new.is_on ≡ self.old.is_on }
    {
        if !self.is_on {
            return true;
        }
        let reason = match self.guard.judge(frame, hardware, own) {
            None => self.guard.take_echo(now, frame),
            Some(reason) => Some(reason),
        };
        match reason {
            None => true,
            Some(reason) => {
                self.report(now, frame, reason);
                false
            }
        }
    }

    /// A lemma for proofs about a host: an ordinary frame ([`is_ordinary`](crate::guard::is_ordinary)) is admitted, and leaves the guard
    /// as it is. It does nothing.
    #[inline(always)]
    pub fn leaves_ordinary(&self, frame: &[u8], own: &[IpCidr])
        ensures { is_ordinary frame.now own.now ≡ true → (now : ℤ) (hardware : Option HardwareAddress) →
            (spec.admits now frame.now hardware own.now self.now ≡ true)
            × (spec.after_arrival now frame.now hardware own.now self.now ≡ self.now) }
    {}

    /// Whether the host may send a frame at an instant, in response to one of so many octets, by the rates of known neighbours
    /// ([`Answers::is_short`], [`Guard::comes_from_known`]) or by those of whomever. What it may not send is counted. A request for a
    /// hardware address is noted as by [`Watch::note_sent`].
    pub fn lets_go(&mut self, now: Instant, frame: &[u8], answered: usize, known: bool) -> bool
        ensures goes { result ≡ spec.lets_go now frame.now answered known self.old }
        ensures watch { self.new ≡ spec.after_response now frame.now answered known self.old }
    {
        if !self.is_on {
            return true;
        }
        self.guard.note_sent(now, frame, true);
        match self.answers.judge(now, frame, answered, known) {
            None => true,
            Some(answer) => {
                self.counts.hold_back(answer);
                false
            }
        }
    }

    /// Counts a fragment for which there is no slot, as half of them are kept for others.
    pub fn refuse_fragment(&mut self)
        ensures { self.new ≡ spec.after_refused_fragment self.old }
    {
        self.counts.drop_for(Reason::Fragment);
    }

    /// The frame that announces an own address, if one is owed since somebody claimed it, for a host with this hardware address
    /// (`None` on a medium without, where nothing is announced). It is owed no more.
    pub fn announcement_due(&mut self, hardware: Option<HardwareAddress>) -> Option<[u8; 42]>
        ensures due { result ≡ defence.announced hardware self.old.defence.owed }
        ensures taken { self.new ≡ spec.after_defence self.old }
    {
        let owed = self.defence.take();
        announced(hardware, owed)
    }

    /// Pins a neighbour to a hardware address, as `Pins::pin` says. Returns whether there was room; if there was none, nothing changes.
    pub fn pin(&mut self, address: IpAddress, hardware: EthernetAddress) -> bool
        ensures room { result ≡ pins.is_there (pins.place_for address self.old.guard.pins) self.old.guard.pins }
        ensures pins { self.new ≡ spec.after_pin address hardware self.old }
    {
        self.guard.pins.pin(address, hardware)
    }

    /// Pins a neighbour no more. Returns whether it was pinned.
    pub fn unpin(&mut self, address: IpAddress) -> bool
        ensures pinned { result ≡ pins.is_there (pins.place_of address self.old.guard.pins) self.old.guard.pins }
        ensures pins { self.new ≡ spec.after_unpin address self.old }
    {
        self.guard.pins.unpin(address)
    }

    /// Notes a frame that the host sends at an instant: if it asks for a hardware address, the answer is expected
    /// ([`Guard::note_sent`]).
    pub fn note_sent(&mut self, now: Instant, frame: &[u8])
        ensures { self.new ≡ spec.after_sending now frame.now self.old }
    {
        if self.is_on {
            self.guard.note_sent(now, frame, false);
        }
    }

    /// Counts a frame that is dropped, and notes who sent it, if it claims an own address or a pinned one. A defence of an own one may
    /// be owed from then on.
    #[inline(never)]
    fn report(&mut self, now: Instant, frame: &[u8], reason: Reason)
        ensures { self.new ≡ spec.after_report now frame.now reason self.old }
    {
        self.counts.drop_for(reason);
        let conflict = Conflict {
            hardware: hardware_at(frame, 6),
            at: now,
        };
        match reason {
            Reason::OwnAddress => {
                self.conflict = Some(conflict);
                self.defence.note_claim(now, frame);
            }
            Reason::Pinned => self.pinned_conflict = Some(conflict),
            _ => {}
        }
    }
}
