//! What happens in a simulation at its events.

use crate::agenda::What;
use crate::forwarding::Verdict;
use crate::kind::Kind;
use crate::link::Passage;
use crate::simulation::Simulation;
use crate::station::Turn;
use anyhow::{Result, bail};
use host_machine::{Answer, PollIngressSingleResult};
use simulation_script::script::{Leave, Script, Way};
use std::io::Write;

/// The most polls of a host at one instant.
const MOST_POLLS: usize = 16;

/// How long a host that still has something to do after these waits, in microseconds.
const PAUSE: u64 = 1_000;

impl Simulation {
    /// Something happens.
    pub(crate) fn happen<W: Write>(&mut self, what: What, output: &mut W) -> Result<()> {
        match what {
            What::Begins(host) => self.settle(host, output),
            What::Wakes(host) if self.medium.course.wakes(host) => self.settle(host, output),
            What::Wakes(_) => Ok(()),
            What::Does { host, task } => self.do_task(host, task, output),
            What::Arrives { number, k, passage } => self.arrive(number, k, passage, output),
            What::Comes(frame) => self.medium.come(&self.script, frame, output),
            What::Enters { frame, passage } => self.enter(frame, passage, output),
            What::Advertises(router) => self.medium.advertise(&self.script, router, output),
            What::IsSolicited(router) => {
                self.medium.send_advertisement(&self.script, router, output)
            }
            What::Leaves(line) => self.leave(line, output),
        }
    }

    /// A host is polled until nothing is due, and it is planned when it is polled again.
    fn settle<W: Write>(&mut self, host: usize, output: &mut W) -> Result<()> {
        for _ in 0..MOST_POLLS {
            let next = self.poll(host, output)?;
            if !self.medium.course.is_due(next) {
                return self.medium.course.plan_poll(host, next);
            }
        }
        let next = self.medium.course.now.saturating_add(PAUSE);
        self.medium.course.plan_poll(host, Some(next))
    }

    /// A host is polled, and its connections act. Returns when it is to be polled next, in microseconds.
    fn poll<W: Write>(&mut self, host: usize, output: &mut W) -> Result<Option<u64>> {
        let now = self.medium.course.now;
        self.hosts.poll(host, now)?;
        self.spread(output)?;
        self.hosts.exchange(host, now)?;
        self.hosts.next_poll(host, now)
    }

    /// The transmissions that the link didn't get yet are sent.
    fn spread<W: Write>(&mut self, output: &mut W) -> Result<()> {
        self.medium.spread_all(&self.script, &self.hosts, output)?;
        self.hosts.forget(self.medium.pending.take_done());
        Ok(())
    }

    /// A host received something: it is polled if something is due.
    fn follow<W: Write>(&mut self, host: usize, answer: &Answer, output: &mut W) -> Result<()> {
        self.spread(output)?;
        if has_changed_a_socket(answer) {
            self.collect(host, output)?;
        }
        let next = self.hosts.next_poll(host, self.medium.course.now)?;
        if self.medium.course.is_due(next) {
            self.settle(host, output)
        } else {
            self.medium.course.plan_poll(host, next)
        }
    }

    /// A host's owner takes what its sockets received, and its connections act.
    fn collect<W: Write>(&mut self, host: usize, output: &mut W) -> Result<()> {
        self.hosts.act(host, Turn::Collect)?;
        if let Some(station) = self.hosts.all().get(host) {
            let owner = &station.owner;
            self.medium.count_replies(&owner.replies);
            self.medium
                .tell(&self.script, host, &owner.received, output)?;
        }
        self.hosts.exchange(host, self.medium.course.now)
    }

    /// A host's owner does a task. If it is one of more, the next is planned.
    fn do_task<W: Write>(&mut self, host: usize, task: usize, output: &mut W) -> Result<()> {
        self.hosts.act(host, Turn::Task(task))?;
        if let Some(attempt) = self.hosts.attempt(host) {
            self.medium
                .note_attempt(&self.script, host, task, &attempt)?;
        }
        self.settle(host, output)
    }

    /// A copy of a frame arrives.
    fn arrive<W: Write>(
        &mut self,
        number: usize,
        k: usize,
        passage: Passage,
        output: &mut W,
    ) -> Result<()> {
        let Some((from, label)) = self.medium.kept(&self.hosts, number, k) else {
            bail!("a frame was forgotten too early");
        };
        self.medium
            .note_arrival(&self.script, Some(from), &passage, label, output)?;
        let now = self.medium.course.now;
        let answer = self.hosts.deliver(self.alloc, number, k, &passage, now)?;
        self.follow(passage.to, &answer, output)?;
        self.route(number, k, &passage, output)?;
        self.medium.pending.arrived(number);
        self.hosts.forget(self.medium.pending.take_done());
        match label.kind {
            Kind::RouterSolicitation => self.medium.course.solicit(&self.script, passage.to),
            _ => Ok(()),
        }
    }

    /// A copy of a frame from outside arrives.
    fn enter<W: Write>(&mut self, frame: usize, passage: Passage, output: &mut W) -> Result<()> {
        self.medium
            .note_entry(&self.script, frame, &passage, output)?;
        let Some(line) = self.script.frames.get(frame) else {
            return Ok(());
        };
        let now = self.medium.course.now;
        let answer = self
            .hosts
            .deliver_outside(self.alloc, &line.octets, &passage, now)?;
        self.follow(passage.to, &answer, output)?;
        self.route_outside(frame, &passage, output)
    }

    /// A copy of a kept frame arrived. If it came to a router, its packet may go on.
    fn route<W: Write>(
        &mut self,
        number: usize,
        k: usize,
        passage: &Passage,
        output: &mut W,
    ) -> Result<()> {
        let Some((place, way)) = way_from(&self.script, passage.to) else {
            return Ok(());
        };
        let bit = passage.changed;
        let verdict = self.hosts.judge(self.alloc, number, k, bit, &way)?;
        self.pass_on(place, &way, verdict, output)
    }

    /// A copy of a frame from outside arrived. If it came to a router, its packet may go on.
    fn route_outside<W: Write>(
        &mut self,
        frame: usize,
        passage: &Passage,
        output: &mut W,
    ) -> Result<()> {
        let Some((place, way)) = way_from(&self.script, passage.to) else {
            return Ok(());
        };
        let octets = octets_of(&self.script, frame);
        let verdict = match passage.changed {
            None => self.hosts.judge_octets(self.alloc, octets, &way),
            Some(bit) => self.hosts.judge_changed(self.alloc, octets, bit, &way),
        }?;
        self.pass_on(place, &way, verdict, output)
    }

    /// A packet that came to a router is counted, and goes on by the other host or not.
    fn pass_on<W: Write>(
        &mut self,
        place: usize,
        way: &Way,
        verdict: Verdict,
        output: &mut W,
    ) -> Result<()> {
        if verdict != Verdict::GoesOn {
            self.medium.counts.count_crossing(place, verdict, false);
            return Ok(());
        }
        let is_queued = self.hosts.forward(way.to)?;
        self.medium.counts.count_crossing(place, verdict, is_queued);
        self.settle(way.to, output)
    }

    /// A host leaves a group.
    fn leave<W: Write>(&mut self, line: usize, output: &mut W) -> Result<()> {
        match self.script.leaves.get(line).copied() {
            Some(leave) => self.leave_group(&leave, output),
            None => Ok(()),
        }
    }

    /// A host leaves a group, and is polled.
    fn leave_group<W: Write>(&mut self, leave: &Leave, output: &mut W) -> Result<()> {
        self.hosts.leave(leave.host, leave.group)?;
        self.settle(leave.host, output)
    }
}

/// The way through a router that begins at a host, and its number, if there is one.
fn way_from(script: &Script, host: usize) -> Option<(usize, Way)> {
    let number = script.way_from(host)?;
    Some((number, *script.ways.get(number)?))
}

/// The octets of a frame from outside; none, if there isn't one of this number.
fn octets_of(script: &Script, frame: usize) -> &[u8] {
    match script.frames.get(frame) {
        Some(line) => &line.octets,
        None => &[],
    }
}

/// Whether a host that took a frame changed a socket.
fn has_changed_a_socket(answer: &Answer) -> bool {
    matches!(
        answer,
        Answer::PollIngressSingle(PollIngressSingleResult::SocketStateChanged)
    )
}
