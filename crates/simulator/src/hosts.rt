//! The hosts of a simulation, and what is done with them.
use crate::forwarding::{Verdict, packet_to_forward, verdict_on};
use crate::link::Passage;
use crate::simulation::instant;
use crate::station::{self, Attempt, Station, Turn};
use anyhow::{Result, bail};
use host::link::Host;
use host_machine::{Answer, Command};
use ip_wire::IpAddress;
use net_base::phy::Device;
use network::{Network, Transmission};
use simulation_script::script::{Script, Way};
use simulation_streams::connections::earlier;
use std::alloc::Global;

/// The most calls of each kind that a poll makes.
const BUDGET: usize = 4;

/// The hosts of a simulation. Times are in microseconds.
#[derive(Drop)]
pub(crate) struct Hosts {
    network: Network<'static, Station>,
}

impl Hosts {
    /// The hosts of a script, in which nothing happened yet.
    pub(crate) fn new(alloc: Global, script: &Script) -> Result<Hosts> {
        let hosts = hosts_of(alloc, script)?;
        let network = Network::new(alloc, hosts);
        network.are_regular();
        Ok(Hosts { network })
    }

    /// All of them, by their numbers.
    pub(crate) fn all(&self) -> &[Host<'static, Station>] {
        self.network.hosts()
    }

    /// The owner of a host's sockets.
    pub(crate) fn owner(&self, host: usize) -> Option<&Station> {
        match self.network.hosts().get(host) {
            Some(station) => Some(&station.owner),
            None => None,
        }
    }

    /// The number of the next transmission.
    pub(crate) fn next_number(&self) -> usize {
        self.network.next_number()
    }

    /// A transmission that is kept, by its number.
    pub(crate) fn transmission(&self, number: usize) -> Option<&Transmission> {
        self.network.transmission(number)
    }

    /// Forgets the first transmissions that are kept.
    pub(crate) fn forget(&mut self, count: usize) {
        self.network.forget(count);
    }

    /// A host is polled at a time: if its sockets have a schedule, by one call of each kind, between two turns of its owner.
    pub(crate) fn poll(&mut self, host: usize, now: u64) -> Result<()> {
        match self.is_piece_left(host) {
            Some(is_piece_left) => {
                self.act(host, Turn::BeforeRound(now, is_piece_left))?;
                self.run_poll(host, now, 1)?;
                self.act(host, Turn::AfterRound(now))
            }
            None => self.run_poll(host, now, BUDGET),
        }
    }

    /// A host is polled at a time, by so many calls of each kind at most.
    fn run_poll(&mut self, host: usize, now: u64, budget: usize) -> Result<()> {
        let command = Command::Poll(instant(now), budget);
        match self.network.run(host, &command) {
            Ok(_) => self.check_memory(host),
            Err(error) => Err(error.into()),
        }
    }

    /// Whether a piece of a packet is left to send at a host; `None` if its sockets have no schedule.
    fn is_piece_left(&self, host: usize) -> Option<bool> {
        match self.network.hosts().get(host) {
            Some(station) if station.owner.has_schedule() => {
                Some(station.interface.has_pending_fragment())
            }
            _ => None,
        }
    }

    /// A host's owner has a turn.
    pub(crate) fn act(&mut self, host: usize, turn: Turn) -> Result<()> {
        let number = turn.number();
        match self.network.run(host, &Command::Owner(number)) {
            Ok(_) => self.check_memory(host),
            Err(error) => Err(error.into()),
        }
    }

    /// A host leaves a group.
    pub(crate) fn leave(&mut self, host: usize, group: IpAddress) -> Result<()> {
        match self.network.run(host, &Command::LeaveMulticastGroup(group)) {
            Ok(_) => self.check_memory(host),
            Err(error) => Err(error.into()),
        }
    }

    /// A host's connections take what came, and send what is due at a time, if it has some.
    pub(crate) fn exchange(&mut self, host: usize, now: u64) -> Result<()> {
        if self.has_connections(host) {
            self.act(host, Turn::Exchange(now))
        } else {
            Ok(())
        }
    }

    /// When a host is to be polled next.
    pub(crate) fn next_poll(&mut self, host: usize, now: u64) -> Result<Option<u64>> {
        match self.network.run(host, &Command::PollAt(instant(now))) {
            Ok(answer) => Ok(earlier(time_in(&answer), self.next_exchange(host))),
            Err(error) => Err(error.into()),
        }
    }

    /// Whether a host listens or sends streams.
    fn has_connections(&self, host: usize) -> bool {
        match self.owner(host) {
            Some(owner) => owner.has_connections(),
            None => false,
        }
    }

    /// When something is due first at a host's connections.
    fn next_exchange(&self, host: usize) -> Option<u64> {
        match self.owner(host) {
            Some(owner) => owner.poll_at(),
            None => None,
        }
    }

    /// A copy of a kept frame is delivered at a time, with a bit changed or as it was sent.
    pub(crate) fn deliver(
        &mut self,
        alloc: Global,
        number: usize,
        k: usize,
        passage: &Passage,
        now: u64,
    ) -> Result<Answer> {
        let answer = match passage.changed {
            None => self.hand_over(number, k, passage.to, now),
            Some(bit) => {
                let octets = self.changed(alloc, number, k, bit)?;
                self.take_in(&octets, passage.to, now)
            }
        };
        self.checked(passage.to, answer)
    }

    /// A copy of a kept frame is delivered as it was sent.
    fn hand_over(&mut self, number: usize, k: usize, to: usize, now: u64) -> Result<Answer> {
        Ok(self.network.hand_over(number, k, to, instant(now))?)
    }

    /// The octets of a kept frame with a bit changed.
    fn changed(&self, alloc: Global, number: usize, k: usize, bit: u64) -> Result<Vec<u8>> {
        match self.network.frame(number, k) {
            Some(frame) => changed(alloc, frame, bit),
            None => Ok(Vec::new(alloc)),
        }
    }

    /// A copy of a frame that no host sent is delivered at a time, with a bit changed or as it came.
    pub(crate) fn deliver_outside(
        &mut self,
        alloc: Global,
        frame: &[u8],
        passage: &Passage,
        now: u64,
    ) -> Result<Answer> {
        let answer = match passage.changed {
            None => self.take_in(frame, passage.to, now),
            Some(bit) => {
                let octets = changed(alloc, frame, bit)?;
                self.take_in(&octets, passage.to, now)
            }
        };
        self.checked(passage.to, answer)
    }

    /// A frame that no host sent so is delivered.
    fn take_in(&mut self, octets: &[u8], to: usize, now: u64) -> Result<Answer> {
        Ok(self.network.take_in(octets, to, instant(now))?)
    }

    /// What becomes of a copy of a kept frame that came to a router by a way. A packet that goes on is handed to the owner
    /// of the host that sends it.
    pub(crate) fn judge(
        &self,
        alloc: Global,
        number: usize,
        k: usize,
        bit: Option<u64>,
        way: &Way,
    ) -> Result<Verdict> {
        match (self.network.frame(number, k), bit) {
            (None, _) => Ok(Verdict::Stays),
            (Some(frame), None) => self.judge_octets(alloc, frame, way),
            (Some(frame), Some(bit)) => self.judge_changed(alloc, frame, bit, way),
        }
    }

    /// What becomes of a frame of which a bit was changed on its way to a router.
    pub(crate) fn judge_changed(
        &self,
        alloc: Global,
        frame: &[u8],
        bit: u64,
        way: &Way,
    ) -> Result<Verdict> {
        let octets = changed(alloc, frame, bit)?;
        self.judge_octets(alloc, &octets, way)
    }

    /// What becomes of a frame that came to a router, octet by octet.
    pub(crate) fn judge_octets(&self, alloc: Global, frame: &[u8], way: &Way) -> Result<Verdict> {
        let verdict = self.verdict_on(frame, way);
        if verdict == Verdict::GoesOn {
            self.hand(way.to, packet_to_forward(alloc, frame)?);
        }
        Ok(verdict)
    }

    /// What becomes of a frame that came to a router, by the addresses of its hosts now.
    fn verdict_on(&self, frame: &[u8], way: &Way) -> Verdict {
        let hosts = self.network.hosts();
        match (hosts.get(way.from), hosts.get(way.to)) {
            (Some(from), Some(to)) => {
                let (near, far) = (&from.interface, &to.interface);
                verdict_on(frame, near.hardware_addr(), near.ip_addrs(), far.ip_addrs())
            }
            _ => Verdict::Stays,
        }
    }

    /// Hands a packet to the owner of a router's host.
    fn hand(&self, host: usize, packet: Vec<u8>) {
        if let Some(owner) = self.owner(host)
            && let Some(forwarder) = &owner.forwarder
        {
            forwarder.hand(packet);
        }
    }

    /// The owner of a router's host queues the packet that was handed to it. Returns whether there was room.
    pub(crate) fn forward(&mut self, host: usize) -> Result<bool> {
        self.act(host, Turn::Forward)?;
        Ok(self.is_queued(host))
    }

    /// Whether the owner of a router's host queued the packet that was handed to it last.
    fn is_queued(&self, host: usize) -> bool {
        match self.owner(host) {
            Some(owner) => owner
                .forwarder
                .as_ref()
                .is_some_and(|forwarder| forwarder.is_queued),
            None => false,
        }
    }

    /// What a host answered. Fails if its owner or its device got no memory.
    fn checked(&self, host: usize, answer: Result<Answer>) -> Result<Answer> {
        match self.check_memory(host) {
            Ok(()) => answer,
            Err(error) => Err(error),
        }
    }

    /// Fails if a host's owner or its device got no memory.
    fn check_memory(&self, host: usize) -> Result<()> {
        if self.lacks_memory(host) {
            bail!("out of memory");
        }
        Ok(())
    }

    /// Whether a host's owner or its device got no memory. A device without memory withholds a frame or sends none.
    fn lacks_memory(&self, host: usize) -> bool {
        match self.network.hosts().get(host) {
            Some(station) => station.owner.lacks_memory || station.device.refusals() != 0,
            None => false,
        }
    }

    /// What a host's owner tried to queue in its last turn, if it did.
    pub(crate) fn attempt(&self, host: usize) -> Option<Attempt> {
        match self.owner(host) {
            Some(owner) => owner.attempt,
            None => None,
        }
    }
}

/// Makes the hosts of a script, with their sockets.
fn hosts_of(alloc: Global, script: &Script) -> Result<Vec<Host<'static, Station>>> {
    let mut hosts = Vec::new(alloc);
    for (number, line) in script.hosts.iter().enumerate() {
        hosts.push(station::new_host(alloc, script, number, line)?)?;
    }
    add_sockets(alloc, script, &mut hosts)?;
    Ok(hosts)
}

/// Adds the sockets of each host, and what is done with them.
fn add_sockets(
    alloc: Global,
    script: &Script,
    hosts: &mut Vec<Host<'static, Station>>,
) -> Result<()> {
    for (number, line) in script.hosts.iter().enumerate() {
        if let Some(host) = hosts.get_mut(number) {
            let (owner, sockets) = (&mut host.owner, &mut host.sockets);
            station::add_all(alloc, script, number, line, owner, sockets)?;
        }
    }
    Ok(())
}

/// The instant that a call of `poll_at` returned.
fn time_in(answer: &Answer) -> Option<u64> {
    match answer {
        Answer::PollAt(Some(time)) => u64::try_from(time.total_micros()).ok(),
        _ => None,
    }
}

/// The octets of a frame with a bit changed, if it has that.
fn changed(alloc: Global, frame: &[u8], bit: u64) -> Result<Vec<u8>> {
    let mut octets = Vec::from_slice(alloc, frame)?;
    let place = usize::try_from(bit / 8).unwrap_or(usize::MAX);
    if let Some(octet) = octets.get_mut(place) {
        *octet ^= 1 << (bit % 8);
    }
    Ok(octets)
}
