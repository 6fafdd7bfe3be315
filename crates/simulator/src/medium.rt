//! The medium that hosts share: how copies of frames are spread over the link, what is counted, and what is written meanwhile.

use crate::agenda::What;
use crate::chart::{self, Outcome};
use crate::counts::Counts;
use crate::course::Course;
use crate::hosts::Hosts;
use crate::kind::Label;
use crate::link::{Arrival, Fate, Passage};
use crate::pending::Pending;
use crate::station::{Attempt, Received, Traffic};
use crate::uplink::Uplink;
use crate::{capture, report};
use anyhow::Result;
use network::Transmission;
use simulation_script::script::{OutsideFrame, Pace, Script};
use simulation_streams::transmissions::Transmissions;
use std::alloc::Global;
use std::collections::BTreeMap;
use std::io::Write;

/// What is written.
#[derive(Clone, Copy, PartialEq, Eq)]
pub enum Form {
    /// The datagrams that sockets get, and tables in the end.
    Report,
    /// The same, and a line for each copy of a frame.
    Chart,
    /// Tables alone.
    Tables,
    /// A capture of the frames that were sent.
    Capture,
}

/// Where a frame is kept while copies of it are on their way.
#[derive(Clone, Copy)]
enum Origin {
    // In the network, by the numbers of its transmission and of the frame there.
    Host(usize, usize),
    // In the script, by its number.
    Outside(usize),
}

impl Origin {
    /// What happens as a copy arrives.
    fn arrives(self, passage: Passage) -> What {
        match self {
            Origin::Host(number, k) => What::Arrives { number, k, passage },
            Origin::Outside(frame) => What::Enters { frame, passage },
        }
    }
}

/// A frame that the link takes.
#[derive(Clone, Copy)]
struct Shipment {
    origin: Origin,
    // The host that sends it, if it is one of the script.
    from: Option<usize>,
    label: Label,
    // Its octets.
    len: usize,
    // How long it takes to leave its host, in microseconds.
    leaving: u64,
}

/// The hosts to which a frame goes: those of a range of numbers that are on a link, but for one.
#[derive(Clone, Copy)]
struct Receivers {
    first: usize,
    end: usize,
    but: Option<usize>,
    link: usize,
}

impl Receivers {
    /// Whether a host of the range is one of them.
    fn has(&self, script: &Script, host: usize) -> bool {
        self.but != Some(host) && script.link_of(Some(host)) == self.link
    }
}

/// The medium.
#[derive(Drop)]
pub(crate) struct Medium {
    alloc: Global,
    form: Form,
    pub(crate) course: Course,
    // The hosts by their Ethernet addresses.
    by_address: BTreeMap<[u8; 6], usize>,
    // How frames leave each host.
    uplinks: Vec<Uplink>,
    pub(crate) pending: Pending,
    pub(crate) counts: Counts,
    // What was sent of each stream.
    pub(crate) transmissions: Transmissions,
    // The number of the next transmission that the link gets.
    next: usize,
}

impl Medium {
    /// The medium of the hosts of a script, on which nothing was sent yet.
    pub(crate) fn new(alloc: Global, form: Form, script: &Script) -> Result<Medium> {
        let counts = Counts::new(alloc, script)?;
        let mut medium = Medium {
            alloc,
            form,
            course: Course::new(alloc, script.seed),
            by_address: BTreeMap::new(alloc),
            uplinks: Vec::new(alloc),
            pending: Pending::new(alloc),
            counts,
            transmissions: Transmissions::new(alloc),
            next: 0,
        };
        medium.add_all(script)?;
        Ok(medium)
    }

    /// Adds the hosts and the streams of a script.
    fn add_all(&mut self, script: &Script) -> Result<()> {
        for (number, host) in script.hosts.iter().enumerate() {
            self.by_address.insert(host.hardware_addr.0, number)?;
            self.uplinks.push(Uplink::new(self.alloc))?;
            self.course.add_host()?;
        }
        self.transmissions.add_streams(script)
    }

    /// Writes what comes first.
    pub(crate) fn begin<W: Write>(&self, script: &Script, output: &mut W) -> Result<()> {
        match self.form {
            Form::Capture => capture::write_header(output),
            Form::Chart => chart::write_names(self.alloc, script, output),
            Form::Report | Form::Tables => Ok(()),
        }
    }

    /// Whether tables are written in the end.
    pub(crate) fn has_tables(&self) -> bool {
        self.form != Form::Capture
    }

    /// The transmissions of hosts that the link didn't get yet are sent.
    pub(crate) fn spread_all<W: Write>(
        &mut self,
        script: &Script,
        hosts: &Hosts,
        output: &mut W,
    ) -> Result<()> {
        let end = hosts.next_number();
        for number in self.next..end {
            if let Some(transmission) = hosts.transmission(number) {
                self.spread(script, number, transmission, output)?;
            }
        }
        self.next = end;
        Ok(())
    }

    /// A transmission of this number is sent.
    fn spread<W: Write>(
        &mut self,
        script: &Script,
        number: usize,
        transmission: &Transmission,
        output: &mut W,
    ) -> Result<()> {
        let mut copies = 0_usize;
        for (k, frame) in transmission.frames.iter().enumerate() {
            let origin = Origin::Host(number, k);
            let sent = self.spread_frame(script, origin, transmission.from, frame, output)?;
            copies = copies.saturating_add(sent);
        }
        self.pending.add(copies)
    }

    /// A frame of a host is sent, unless it is dropped. Returns how many copies arrive.
    fn spread_frame<W: Write>(
        &mut self,
        script: &Script,
        origin: Origin,
        from: usize,
        frame: &[u8],
        output: &mut W,
    ) -> Result<usize> {
        self.transmissions.note(from, frame);
        let label = self.label_of(frame);
        match self.leave_host(script, from, frame.len())? {
            Some(leaving) => {
                let (from, len) = (Some(from), frame.len());
                let shipment = Shipment {
                    origin,
                    from,
                    label,
                    len,
                    leaving,
                };
                self.ship(script, &shipment, frame, output)
            }
            None => {
                self.counts.count_dropped();
                self.draw_row(script, Some(from), from, label, Outcome::Dropped, output)?;
                Ok(0)
            }
        }
    }

    /// A frame from outside is sent, or one by which a router advertises.
    pub(crate) fn come<W: Write>(
        &mut self,
        script: &Script,
        frame: usize,
        output: &mut W,
    ) -> Result<()> {
        match script.frames.get(frame) {
            Some(line) => self.send_outside(script, frame, line, output),
            None => Ok(()),
        }
    }

    /// A frame from outside is sent.
    fn send_outside<W: Write>(
        &mut self,
        script: &Script,
        number: usize,
        line: &OutsideFrame,
        output: &mut W,
    ) -> Result<()> {
        let shipment = Shipment {
            origin: Origin::Outside(number),
            from: line.from,
            label: Label::of(&line.octets),
            len: line.octets.len(),
            leaving: 0,
        };
        self.ship(script, &shipment, &line.octets, output)?;
        Ok(())
    }

    /// A frame is sent: a copy goes to each host that its destination names. Returns how many arrive.
    fn ship<W: Write>(
        &mut self,
        script: &Script,
        shipment: &Shipment,
        frame: &[u8],
        output: &mut W,
    ) -> Result<usize> {
        self.counts.count_sent(shipment.from, shipment.label.kind);
        self.capture(frame, output)?;
        let receivers = self.receivers_of(script, shipment.from, frame);
        let mut copies = 0_usize;
        for to in receivers.first..receivers.end {
            if receivers.has(script, to) {
                copies = copies.saturating_add(self.send_copy(script, shipment, to, output)?);
            }
        }
        Ok(copies)
    }

    /// A frame is written, if a capture is wanted.
    fn capture<W: Write>(&self, frame: &[u8], output: &mut W) -> Result<()> {
        if self.form == Form::Capture {
            capture::write_frame(output, self.course.now, frame)
        } else {
            Ok(())
        }
    }

    /// A copy of a frame is sent to a host. It is counted, and shown if it is lost. Returns how many arrive.
    fn send_copy<W: Write>(
        &mut self,
        script: &Script,
        shipment: &Shipment,
        to: usize,
        output: &mut W,
    ) -> Result<usize> {
        let is_cut_off = is_cut_off(script, self.course.now, shipment.from, to);
        let fate = self.fate_of(script, to, shipment.len, is_cut_off);
        self.counts.count_fate(&fate);
        if fate.first.is_none() {
            let outcome = Outcome::of_loss(is_cut_off);
            self.draw_row(script, shipment.from, to, shipment.label, outcome, output)?;
        }
        self.plan_arrival(shipment, &fate.first)?;
        self.plan_arrival(shipment, &fate.second)?;
        Ok(fate.count())
    }

    /// What becomes of a copy of a frame of so many octets on its way to a host.
    fn fate_of(&mut self, script: &Script, to: usize, len: usize, is_cut_off: bool) -> Fate {
        if is_cut_off {
            return Fate::LOST;
        }
        let treatment = script.treatment_of(Some(to));
        self.course.draw(&treatment, to, len)
    }

    /// Plans the arrival of a copy, if it arrives.
    fn plan_arrival(&mut self, shipment: &Shipment, arrival: &Option<Arrival>) -> Result<()> {
        match arrival {
            Some(arrival) => {
                let pause = shipment.leaving.saturating_add(arrival.delay);
                let what = shipment.origin.arrives(arrival.passage);
                self.course.plan_after(pause, what)
            }
            None => Ok(()),
        }
    }

    /// How long a frame of so many octets takes to leave a host; `None` if it is dropped.
    fn leave_host(&mut self, script: &Script, host: usize, len: usize) -> Result<Option<u64>> {
        let Some(rate) = script.rate_of(host) else {
            return Ok(Some(0));
        };
        match self.uplinks.get_mut(host) {
            Some(uplink) => uplink.send(&rate, self.course.now, len),
            None => Ok(Some(0)),
        }
    }

    /// What is said of a frame in a chart.
    fn label_of(&self, frame: &[u8]) -> Label {
        match self.transmissions.sight(frame) {
            Some(sight) => Label::of_segment(frame, sight),
            None => Label::of(frame),
        }
    }

    /// The sender of a frame that the network keeps, and what is said of the frame in a chart.
    pub(crate) fn kept(&self, hosts: &Hosts, number: usize, k: usize) -> Option<(usize, Label)> {
        let transmission = hosts.transmission(number)?;
        let frame = transmission.frames.get(k)?;
        Some((transmission.from, self.label_of(frame)))
    }

    /// The hosts to which a frame goes: all others on the link of its sender if its destination is a group or broadcast, and
    /// otherwise the one there with this Ethernet address, if there is one. A frame from outside is on the first link.
    fn receivers_of(&self, script: &Script, from: Option<usize>, frame: &[u8]) -> Receivers {
        let (first, end, but) = match frame.first_chunk::<6>() {
            Some(destination) if destination[0] & 1 != 0 => (0, script.hosts.len(), from),
            Some(destination) => match self.by_address.get(destination) {
                Some(host) => (*host, host.saturating_add(1), None),
                None => (0, 0, None),
            },
            None => (0, 0, None),
        };
        let link = script.link_of(from);
        Receivers {
            first,
            end,
            but,
            link,
        }
    }

    /// Counts and shows that a copy arrives.
    pub(crate) fn note_arrival<W: Write>(
        &mut self,
        script: &Script,
        from: Option<usize>,
        passage: &Passage,
        label: Label,
        output: &mut W,
    ) -> Result<()> {
        self.counts.count_received(passage.to, label.kind);
        let outcome = Outcome::of(passage);
        self.draw_row(script, from, passage.to, label, outcome, output)
    }

    /// Counts and shows that a copy of a frame from outside arrives, by the frame's number.
    pub(crate) fn note_entry<W: Write>(
        &mut self,
        script: &Script,
        frame: usize,
        passage: &Passage,
        output: &mut W,
    ) -> Result<()> {
        match script.frames.get(frame) {
            Some(line) => {
                let label = Label::of(&line.octets);
                self.note_arrival(script, line.from, passage, label, output)
            }
            None => Ok(()),
        }
    }

    /// Writes the row of a copy, if a chart is wanted and shows it.
    fn draw_row<W: Write>(
        &self,
        script: &Script,
        from: Option<usize>,
        to: usize,
        label: Label,
        outcome: Outcome,
        output: &mut W,
    ) -> Result<()> {
        if self.form != Form::Chart || !chart::shows(script, self.course.now, from, to) {
            return Ok(());
        }
        let row = chart::row(self.alloc, script, from, to, outcome)?;
        chart::write_row(output, self.course.now, &row, &label)
    }

    /// Counts datagrams that a host's sockets received, and writes them if that is wanted.
    pub(crate) fn tell<W: Write>(
        &mut self,
        script: &Script,
        host: usize,
        datagrams: &[Received],
        output: &mut W,
    ) -> Result<()> {
        for datagram in datagrams {
            let origin = self.counts.origin_of(script, host, datagram);
            self.counts.count_datagram(self.course.now, origin);
            if let Form::Report | Form::Chart = self.form {
                let name = script.name_of(host);
                report::print_datagram(output, self.course.now, name, datagram, origin)?;
            }
        }
        Ok(())
    }

    /// Counts echo replies that a host's sockets received.
    pub(crate) fn count_replies(&mut self, replies: &[(u32, u32)]) {
        for (ping, number) in replies {
            let traffic = Traffic::Ping(*ping);
            self.counts.count_answer(self.course.now, traffic, *number);
        }
    }

    /// Counts what a host's owner queued by a task, and plans the next, if there is one.
    pub(crate) fn note_attempt(
        &mut self,
        script: &Script,
        host: usize,
        task: usize,
        attempt: &Attempt,
    ) -> Result<()> {
        self.counts.count_attempt(self.course.now, attempt)?;
        match pace_of(script, attempt.traffic) {
            Some(pace) => {
                let what = What::Does { host, task };
                self.course.plan_next(&pace, attempt.number, what)
            }
            None => Ok(()),
        }
    }

    /// A router advertises, and it is planned when it does so again.
    pub(crate) fn advertise<W: Write>(
        &mut self,
        script: &Script,
        router: usize,
        output: &mut W,
    ) -> Result<()> {
        self.send_advertisement(script, router, output)?;
        match script.routers.get(router) {
            Some(line) => self.course.plan_after(line.every, What::Advertises(router)),
            None => Ok(()),
        }
    }

    /// A router sends what it advertises.
    pub(crate) fn send_advertisement<W: Write>(
        &mut self,
        script: &Script,
        router: usize,
        output: &mut W,
    ) -> Result<()> {
        match self.course.advertise(router) {
            Some(frame) => self.come(script, frame, output),
            None => Ok(()),
        }
    }
}

/// Whether the sender of a frame or a host to which it goes is cut off from the link at a time.
fn is_cut_off(script: &Script, time: u64, from: Option<usize>, to: usize) -> bool {
    match from {
        Some(from) if script.is_cut_off(from, time) => true,
        _ => script.is_cut_off(to, time),
    }
}

/// How many of something are sent, and when.
fn pace_of(script: &Script, traffic: Traffic) -> Option<Pace> {
    match traffic {
        Traffic::Flow(flow) => Some(script.flows.get(flow as usize)?.pace),
        Traffic::Ping(ping) => Some(script.pings.get(ping as usize)?.pace),
    }
}
