//! The course of a simulation: its time, what is planned, and what the link draws.

use crate::agenda::{Agenda, What};
use crate::link::{Fate, Link};
use anyhow::Result;
use simulation_script::script::{Pace, Script, Treatment};
use std::alloc::Global;

/// The most microseconds until a router that is solicited advertises (RFC 4861 10).
const LONGEST_REPLY: u64 = 500_000;

/// The least microseconds between a router's advertisements (RFC 4861 10).
const LEAST_BETWEEN: u64 = 3_000_000;

/// What a router sends.
#[derive(Clone, Copy)]
struct Advertisement {
    // The number of the frame in the script.
    frame: usize,
    // When it is sent next as a reply, or when it was sent last.
    at: u64,
}

/// What is planned, and the time now.
#[derive(Drop)]
pub struct Course {
    /// The time now, in microseconds.
    pub now: u64,
    agenda: Agenda,
    link: Link,
    // When each host is to be polled.
    wakes: Vec<Option<u64>>,
    // What each router sends.
    advertisements: Vec<Advertisement>,
}

impl Course {
    /// Nothing is planned, and the link draws by a seed.
    pub fn new(alloc: Global, seed: u64) -> Course {
        Course {
            now: 0,
            agenda: Agenda::new(alloc),
            link: Link::new(seed),
            wakes: Vec::new(alloc),
            advertisements: Vec::new(alloc),
        }
    }

    /// The next host is not to be polled yet.
    pub fn add_host(&mut self) -> Result<()> {
        self.wakes.push(None)?;
        Ok(())
    }

    /// Goes on to the next event, and returns what happens; `None` if nothing does up to a time.
    pub fn take_next(&mut self, until: u64) -> Option<What> {
        let event = self.agenda.take_first()?;
        if event.time > until {
            return None;
        }
        self.now = event.time;
        Some(event.what)
    }

    /// Plans an event.
    pub fn plan(&mut self, time: u64, what: What) -> Result<()> {
        self.agenda.plan(time, what)
    }

    /// Plans an event that comes so many microseconds later.
    pub fn plan_after(&mut self, pause: u64, what: What) -> Result<()> {
        self.agenda.plan(self.now.saturating_add(pause), what)
    }

    /// Whether a host is to be polled now.
    pub fn wakes(&self, host: usize) -> bool {
        self.wakes.get(host).copied().flatten() == Some(self.now)
    }

    /// Whether something is due, by its time.
    pub fn is_due(&self, time: Option<u64>) -> bool {
        match time {
            Some(time) => time <= self.now,
            None => false,
        }
    }

    /// Plans a poll of a host, in place of the one that was planned; none, if there is no next one.
    pub fn plan_poll(&mut self, host: usize, next: Option<u64>) -> Result<()> {
        let is_new = self.set_wake(host, next);
        match next {
            Some(time) if is_new => self.agenda.plan(time, What::Wakes(host)),
            _ => Ok(()),
        }
    }

    /// Notes when a host is to be polled, and returns whether that is new.
    fn set_wake(&mut self, host: usize, next: Option<u64>) -> bool {
        match self.wakes.get_mut(host) {
            Some(planned) => {
                let is_new = *planned != next;
                *planned = next;
                is_new
            }
            None => true,
        }
    }

    /// Plans the next of what is sent at a pace, after the one of this number, if there is one.
    pub fn plan_next(&mut self, pace: &Pace, number: u32, what: What) -> Result<()> {
        if u64::from(number).saturating_add(1) >= pace.count {
            return Ok(());
        }
        let pause = self.pause(pace);
        self.plan_after(pause, what)
    }

    /// The time from one to the next, which may be drawn.
    fn pause(&mut self, pace: &Pace) -> u64 {
        if pace.is_random {
            self.link.up_to(pace.every.saturating_mul(2))
        } else {
            pace.every
        }
    }

    /// Draws what becomes of a copy of a frame of so many octets on its way to a host.
    pub fn draw(&mut self, treatment: &Treatment, to: usize, len: usize) -> Fate {
        self.link.draw(treatment, to, len)
    }

    /// The next router advertises by the frame of this number in the script, for the first time at once.
    pub fn add_router(&mut self, router: usize, frame: usize) -> Result<()> {
        self.advertisements.push(Advertisement { frame, at: 0 })?;
        self.agenda.plan(0, What::Advertises(router))
    }

    /// A router advertises now. Returns the number of its frame.
    pub fn advertise(&mut self, router: usize) -> Option<usize> {
        let advertisement = self.advertisements.get_mut(router)?;
        advertisement.at = advertisement.at.max(self.now);
        Some(advertisement.frame)
    }

    /// A host solicited routers: each that is this host replies.
    pub fn solicit(&mut self, script: &Script, host: usize) -> Result<()> {
        for (i, router) in script.routers.iter().enumerate() {
            if router.host == host {
                self.plan_advertisement(i)?;
            }
        }
        Ok(())
    }

    /// Plans that a router that was solicited advertises within half a second, but at least three seconds after it did so last
    /// (RFC 4861 6.2.6), unless that is planned already.
    fn plan_advertisement(&mut self, router: usize) -> Result<()> {
        let pause = self.link.up_to(LONGEST_REPLY);
        match self.reply_at(router, pause) {
            Some(time) => self.agenda.plan(time, What::IsSolicited(router)),
            None => Ok(()),
        }
    }

    /// When a router replies, so many microseconds later at the soonest; `None` if its reply is planned already.
    fn reply_at(&mut self, router: usize, pause: u64) -> Option<u64> {
        let advertisement = self.advertisements.get_mut(router)?;
        if self.now < advertisement.at {
            return None;
        }
        let earliest = advertisement.at.saturating_add(LEAST_BETWEEN);
        advertisement.at = self.now.saturating_add(pause).max(earliest);
        Some(advertisement.at)
    }
}
