//! What is counted in a simulation.

use crate::forwarding::Verdict;
use crate::kind::{KINDS, Kind};
use crate::link::Fate;
use crate::station::{Attempt, Received, Traffic};
use anyhow::Result;
use simulation_script::script::{Flow, Script};
use std::alloc::Global;
use std::fmt::{self, Display, Formatter};

/// How many frames of each kind.
#[derive(Clone, Copy)]
pub struct ByKind {
    counts: [u64; KINDS],
}

impl ByKind {
    /// None.
    pub const NONE: ByKind = ByKind { counts: [0; KINDS] };

    /// One more.
    pub fn add(&mut self, kind: Kind) {
        if let Some(count) = self.counts.get_mut(kind.number()) {
            *count = count.saturating_add(1);
        }
    }

    /// How many of a kind.
    pub fn of(&self, kind: Kind) -> u64 {
        self.counts.get(kind.number()).copied().unwrap_or(0)
    }
}

/// Times that something took, in microseconds.
#[derive(Clone, Copy)]
pub struct Times {
    /// How many.
    pub count: u64,
    least: u64,
    most: u64,
    sum: u64,
}

impl Times {
    /// None.
    const NONE: Times = Times {
        count: 0,
        least: u64::MAX,
        most: 0,
        sum: 0,
    };

    /// One more.
    fn add(&mut self, time: u64) {
        self.count = self.count.saturating_add(1);
        self.least = self.least.min(time);
        self.most = self.most.max(time);
        self.sum = self.sum.saturating_add(time);
    }
}

impl Display for Times {
    fn fmt<W: fmt::Write>(&self, f: &mut Formatter<W>) -> fmt::Result {
        let mean = self.sum / self.count.max(1);
        let (least, most) = (self.least, self.most);
        write!(f, "{least} to {most} us, {mean} on average")
    }
}

/// What is counted of a flow, or of the echo requests of a line.
#[derive(Drop)]
pub struct Tally {
    /// How many were tried.
    pub tried: u32,
    /// How many of these found no room in their socket.
    pub refused: u32,
    /// How long each took that came to its destination's socket; one that came twice is counted twice.
    pub received: Times,
    /// How long it took until each answer came.
    pub answered: Times,
    // When each was queued; `None` if it wasn't.
    queued_at: Vec<Option<u64>>,
}

impl Tally {
    /// Nothing was tried.
    fn new(alloc: Global) -> Tally {
        Tally {
            tried: 0,
            refused: 0,
            received: Times::NONE,
            answered: Times::NONE,
            queued_at: Vec::new(alloc),
        }
    }

    /// The next one was tried at a time, and queued or not.
    fn try_next(&mut self, now: u64, is_queued: bool) -> Result<()> {
        self.tried = self.tried.saturating_add(1);
        if !is_queued {
            self.refused = self.refused.saturating_add(1);
        }
        self.queued_at
            .push(if is_queued { Some(now) } else { None })?;
        Ok(())
    }

    /// When one was queued, if it was.
    fn queued_at(&self, number: u32) -> Option<u64> {
        self.queued_at.get(number as usize).copied().flatten()
    }
}

impl Display for Tally {
    fn fmt<W: fmt::Write>(&self, f: &mut Formatter<W>) -> fmt::Result {
        let (tried, refused) = (self.tried, self.refused);
        write!(f, "{tried} tried, {refused} refused")
    }
}

/// How many packets for others came to a host of a router, by what became of them.
#[derive(Clone, Copy)]
pub struct Crossing {
    /// Those that the other host queued.
    pub forwarded: u64,
    /// Those for which it had no room.
    pub refused: u64,
    /// Those whose hop limit was used up.
    pub expired: u64,
    /// The fragments of IPv4.
    pub fragments: u64,
}

impl Crossing {
    /// None.
    const NONE: Crossing = Crossing {
        forwarded: 0,
        refused: 0,
        expired: 0,
        fragments: 0,
    };

    /// One more.
    fn add(&mut self, verdict: Verdict, is_queued: bool) {
        let count = match verdict {
            Verdict::Stays => return,
            Verdict::Expires => &mut self.expired,
            Verdict::IsFragment => &mut self.fragments,
            Verdict::GoesOn if is_queued => &mut self.forwarded,
            Verdict::GoesOn => &mut self.refused,
        };
        *count = count.saturating_add(1);
    }
}

/// What a datagram is that came to a socket.
#[derive(Clone, Copy, PartialEq, Eq)]
pub enum Origin {
    /// One of a flow, by the flow's number and its own.
    Flow(u32, u32),
    /// What a socket sent back of it.
    Answer(u32, u32),
    /// No flow's.
    Strange,
}

/// What is counted in a simulation.
#[derive(Drop)]
pub struct Counts {
    /// The frames that each host sent.
    pub sent: Vec<ByKind>,
    /// The copies that each host received.
    pub received: Vec<ByKind>,
    /// What is counted of each flow.
    pub flows: Vec<Tally>,
    /// What is counted of each line of echo requests.
    pub pings: Vec<Tally>,
    /// What is counted of each way through a router.
    pub crossings: Vec<Crossing>,
    /// How many datagrams came to a socket that no flow sent.
    pub strange: u64,
    /// The copies that the link took.
    pub copies: u64,
    /// Those of them that were lost.
    pub lost: u64,
    /// Those of them that arrived twice.
    pub repeated: u64,
    /// The copies that were changed on the way.
    pub changed: u64,
    /// The frames that were dropped, as too many waited to leave their host.
    pub dropped: u64,
}

impl Counts {
    /// Nothing was counted yet.
    pub fn new(alloc: Global, script: &Script) -> Result<Counts> {
        let hosts = script.hosts.len();
        Ok(Counts {
            sent: vec![in alloc; ByKind::NONE; hosts]?,
            received: vec![in alloc; ByKind::NONE; hosts]?,
            flows: tallies(alloc, script.flows.len())?,
            pings: tallies(alloc, script.pings.len())?,
            crossings: vec![in alloc; Crossing::NONE; script.ways.len()]?,
            strange: 0,
            copies: 0,
            lost: 0,
            repeated: 0,
            changed: 0,
            dropped: 0,
        })
    }

    /// A frame was sent, by a host or from outside, which isn't counted.
    pub fn count_sent(&mut self, from: Option<usize>, kind: Kind) {
        if let Some(host) = from
            && let Some(count) = self.sent.get_mut(host)
        {
            count.add(kind);
        }
    }

    /// A frame was dropped, as too many waited to leave its host.
    pub fn count_dropped(&mut self) {
        self.dropped = self.dropped.saturating_add(1);
    }

    /// A host received a copy of a frame.
    pub fn count_received(&mut self, host: usize, kind: Kind) {
        if let Some(count) = self.received.get_mut(host) {
            count.add(kind);
        }
    }

    /// A packet came to a router by a way, and was queued or not if it goes on.
    pub fn count_crossing(&mut self, way: usize, verdict: Verdict, is_queued: bool) {
        if let Some(crossing) = self.crossings.get_mut(way) {
            crossing.add(verdict, is_queued);
        }
    }

    /// The link took a copy of a frame.
    pub fn count_fate(&mut self, fate: &Fate) {
        self.copies = self.copies.saturating_add(1);
        if fate.first.is_none() {
            self.lost = self.lost.saturating_add(1);
        }
        if fate.second.is_some() {
            self.repeated = self.repeated.saturating_add(1);
        }
        for arrival in [fate.first, fate.second] {
            if arrival.is_some_and(|arrival| arrival.passage.changed.is_some()) {
                self.changed = self.changed.saturating_add(1);
            }
        }
    }

    /// What is counted of a flow or of a line of echo requests.
    fn tally_mut(&mut self, traffic: Traffic) -> Option<&mut Tally> {
        match traffic {
            Traffic::Flow(flow) => self.flows.get_mut(flow as usize),
            Traffic::Ping(ping) => self.pings.get_mut(ping as usize),
        }
    }

    /// A host's owner tried to queue something.
    pub fn count_attempt(&mut self, now: u64, attempt: &Attempt) -> Result<()> {
        match self.tally_mut(attempt.traffic) {
            Some(tally) => tally.try_next(now, attempt.is_queued),
            None => Ok(()),
        }
    }

    /// A datagram came to a socket.
    pub fn count_datagram(&mut self, now: u64, origin: Origin) {
        match origin {
            Origin::Flow(flow, number) => {
                if let Some(tally) = self.flows.get_mut(flow as usize) {
                    let queued_at = tally.queued_at(number).unwrap_or(now);
                    tally.received.add(now.saturating_sub(queued_at));
                }
            }
            Origin::Answer(flow, number) => {
                self.count_answer(now, Traffic::Flow(flow), number);
            }
            Origin::Strange => self.strange = self.strange.saturating_add(1),
        }
    }

    /// An answer came to who asked.
    pub fn count_answer(&mut self, now: u64, traffic: Traffic, number: u32) {
        let Some(tally) = self.tally_mut(traffic) else {
            return;
        };
        if let Some(queued_at) = tally.queued_at(number) {
            tally.answered.add(now.saturating_sub(queued_at));
        }
    }

    /// What a datagram is that came to a socket of a host.
    pub fn origin_of(&self, script: &Script, host: usize, datagram: &Received) -> Origin {
        let Some((flow, number)) = datagram.named else {
            return Origin::Strange;
        };
        let (lines, tallies) = (&script.flows, &self.flows);
        let (Some(line), Some(tally)) = (lines.get(flow as usize), tallies.get(flow as usize))
        else {
            return Origin::Strange;
        };
        if tally.queued_at(number).is_none() || line.size != datagram.size {
            Origin::Strange
        } else if host == line.host && is_back(line, datagram) {
            Origin::Answer(flow, number)
        } else if line.remote.port == datagram.port && line.port == datagram.remote.port {
            Origin::Flow(flow, number)
        } else {
            Origin::Strange
        }
    }
}

/// Whether a datagram came to a flow's port from where the flow sends.
fn is_back(line: &Flow, datagram: &Received) -> bool {
    line.port == datagram.port && line.remote.port == datagram.remote.port
}

/// Tallies of so many.
fn tallies(alloc: Global, count: usize) -> Result<Vec<Tally>> {
    let mut tallies = Vec::new(alloc);
    for _ in 0..count {
        tallies.push(Tally::new(alloc))?;
    }
    Ok(tallies)
}
