//! How a connection comes to be (RFC 9293 3.5, 3.10.1, 3.10.7.2).
ghost use Rattle.std.specs.Prelude.{◌≡◌, ◌≤◌, [], length};
ghost use Rattle.tcp_machine.specs.Opening as opening;
ghost use Rattle.tcp_connection.specs.Segments.{segment_of};

use crate::connection::Connection;
use crate::segment::Segment;
use tcp_machine::congestion::Congestion;
use tcp_machine::estimator::Estimator;
use tcp_machine::settings::Settings;
use tcp_machine::state::State;
use tcp_machine::timers::{Owed, Pending, Timers};

/// The least MSS that is sent.
const LEAST_MSS: u16 = 88;

/// The greatest window scale (RFC 7323 2.3).
const GREATEST_SCALE: u8 = 14;

/// No timer runs, and something was heard at this instant.
pub(crate) fn timers_at(now: u64) -> Timers
    ensures { result ≡ opening.timers_at now }
{
    Timers {
        resend_at: None,
        tries: 0,
        measured: None,
        heard_at: now,
        probes: 0,
        idle_since: now,
        sent_at: now,
        waiting_since: None,
        ends_at: None,
    }
}

/// The most octets of a segment to a peer with this MSS option: at most `link`, and without the option `default`.
fn mss_from(default: u16, link: u16, mss: Option<u16>) -> u16
    ensures { result ≡ opening.mss_from default link mss }
{
    match mss {
        None => default.min(link),
        Some(mss) => mss.max(LEAST_MSS).min(link),
    }
}

/// The scale of the windows of a peer with this option.
fn scale_from(scale: Option<u8>) -> u8
    ensures value { result ≡ opening.scale_from scale }
    ensures bounded { result ≤ 14 }
{
    match scale {
        None => 0,
        Some(scale) => scale.min(GREATEST_SCALE),
    }
}

/// The scale of the own windows to a peer with this option.
fn own_scale_for(own: u8, scale: Option<u8>) -> u8
    requires { own ≤ 14 }
    ensures value { result ≡ opening.own_scale_for own scale }
    ensures bounded { result ≤ 14 }
{
    match scale {
        None => 0,
        Some(_) => own,
    }
}

impl Connection {
    /// The program opens a connection to a peer: a SYN with this initial number is to be sent (RFC 9293 3.10.1, active).
    /// Whatever the connection was before is forgotten. `mss` is the most octets of a segment that the link carries.
    pub fn open(&mut self, now: u64, iss: u32, mss: u16, settings: &Settings)
        requires { settings.now.own_scale ≤ 14 }
        ensures { self.new ≡ opening.opened now iss self.old.transmission.sender.room
            (length self.old.reception.receiver.cells) mss settings.now }
    {
        self.transmission.clear(mss);
        self.reception.clear();
        self.state = State::SynSent;
        self.is_active = true;
        self.local = iss;
        self.remote = 0;
        self.settings = *settings;
        self.estimator = Estimator::new();
        self.congestion = Congestion::new(mss);
        self.timers = timers_at(now);
        self.pending = Pending::Empty;
        self.ending = None;
    }

    /// A SYN arrives at a listener (RFC 9293 3.10.7.2): the connection that it begins, whose own SYN has this initial number.
    /// Whatever the connection was before is forgotten. `default` is the MSS of a peer that doesn't tell it, and `link`
    /// the most octets of a segment that the link carries.
    pub fn accept(
        &mut self,
        now: u64,
        iss: u32,
        default: u16,
        link: u16,
        settings: &Settings,
        segment: &Segment,
    )
        requires { settings.now.own_scale ≤ 14 }
        ensures { self.new ≡ opening.accepted now iss self.old.transmission.sender.room
            (length self.old.reception.receiver.cells) default link settings.now (segment_of segment.now []) }
    {
        self.open(now, iss, link, settings);
        self.take_syn(default, link, segment);
        self.state = State::SynReceived;
        self.is_active = false;
        self.reception.set_owed(Owed::AtOnce);
    }

    /// The peer's SYN: its initial number, its options, and its window, which isn't scaled (RFC 9293 3.10.7.2).
    pub(crate) fn take_syn(&mut self, default: u16, link: u16, segment: &Segment)
        ensures { self.new ≡ opening.with_syn default link (segment_of segment.now []) self.old }
    {
        let mss = mss_from(default, link, segment.mss);
        self.remote = segment.number;
        self.transmission
            .take_syn(segment.window, scale_from(segment.scale), default, mss);
        let own_scale = own_scale_for(self.settings.own_scale, segment.scale);
        self.reception.take_syn(own_scale, segment.sack_permitted);
        self.congestion = Congestion::first(self.timers.tries, mss);
    }
}
