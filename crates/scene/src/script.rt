//! Scripts that tell what is done with a host, and what has to come of it.
//!
//! A line is a call and, behind `=`, what comes of it: its answer, then `refused` if the device refused
//! leave as it was told to, then `tx` and the frames that were sent in the call. Without `=` the answer is
//! `ok`. What isn't said mustn't happen. Moments are in microseconds, addresses eight or 32 hex digits, frames
//! names or hex (`frames`).
//!
//! The calls:
//!
//! - `host HARDWARE MEDIUM MTU [BURST]`: the host is made anew, before it sent anything; a burst may be `max`
//! - `addr ADDR/LEN ..`: its addresses become these
//! - `addr?` `= ADDR/LEN ..`: they are these
//! - `own? ADDR` `= yes`, `no`: whether it takes this one for its own
//! - `member? ADDR` `= yes`, `no`: whether it is a member of this group
//! - `solicited? GROUP` `= yes`, `no`: whether this is the solicited-node group of one of its addresses
//! - `source? ADDR` `= ADDR`: from which address it sends to this IPv6 destination
//! - `join GROUP` `= ok`, `GroupTableFull`, `Unaddressable`: it joins this group
//! - `leave GROUP` `= ok`, `Unaddressable`: it leaves this group
//! - `slaac [ip|MTU]`: the host is made anew, to take addresses from routers, on Ethernet or without hardware addresses
//! - `phase?` `= PHASE COUNT`: how far its search for routers is, and how many solicitations may still go
//! - `slaac_at T` `= T`, `none`: when something is to be done of what it learnt from routers
//! - `synced?` `= T`: when its addresses and routes were last brought into line with that
//! - `anyip`: it takes addresses for its own that are routed to it
//! - `hardware HARDWARE`: it gets this hardware address
//! - `hardware?` `= HARDWARE`, `none`: it has this one
//! - `routes ADDR/LEN>ROUTER[@EXPIRY] ..`: its routes become these
//! - `routes?` `= ADDR/LEN>ROUTER[@EXPIRY] ..`: they are these
//! - `gw ROUTER` `= ROUTER`, `none`, `RouteTableFull`: it gets a default route of the router's family, in place of this one
//! - `ungw`, `ungw6` `= ROUTER`, `none`: it loses its default route of IPv4, of IPv6
//! - `timeout MICROS` `= ok`, `TimeoutTooLong`: slots for fragments stand for so long
//! - `timeout?` `= MICROS`: they stand for so long
//! - `rx FRAME ..`: a frame arrives: these, one behind the other
//! - `rx?` `= COUNT`: so many frames wait
//! - `begins FRAME`: each of its proper beginnings arrives by itself and is taken, at the origin
//! - `refuse [COUNT]`: the device will refuse the next question for leave, or the one behind so many
//! - `ingress T`, `egress T`, `poll T BUDGET`, `maintain T`: the host is polled
//! - `at T` `= T`, `none`: when it has to be polled again
//! - `delay T` `= SPAN`, `none`: how long it is until then
//! - `receive T FRAME` `= FRAME`, `none`: a frame is handed over, and this one is shown
//! - `udp PORT`, `icmp IDENT`, `raw PROTOCOL`, `tcp PORT` ..: a socket: see `kinds`

ghost use Rattle.std.specs.Prelude.{IfSome};
ghost use Rattle.host_machine.specs.Interface.Step.{IsTimely};

use crate::frames::{Octets, frame};
use crate::scene_host::{ETHERNET, IP, OWN, SceneHost};
use crate::words::{
    Words, address_v6, any_address, count, hardware, is_ok, medium, moment, networks, number,
    octet, routes, wide,
};
use arrayvec::ArrayVec;
use host_machine::TimeoutError;
use iface_tables::Phase;
use iface_tables::route::{Route, RouteTableFull};
use interface::{
    AddrError, Answer, Command, HardwareError, Interface, MulticastError, NewError,
    PollIngressSingleResult, PollResult,
};
use ip_wire::{HardwareAddress, IpAddress};
use net_base::phy::{ChecksumCapabilities, Device, DeviceCapabilities};
use net_base::time::{Duration, Instant};
use std::alloc::Global;

/// What came of a script.
#[derive(Clone, Copy, Debug, PartialEq, Eq)]
pub enum Outcome<'a> {
    /// What it says, line by line; no frame waits in the end, and none was lost.
    AsSaid,
    /// Something else came of this line, or it can't be read.
    Otherwise(&'a str),
    /// A frame waits in the end, or one that was withheld for want of memory was lost.
    FrameLeft,
}

/// Follows lines on a new host, and tells what came of them.
pub fn play<'a>(alloc: Global, begins: &[&'a str], script: &[&'a str]) -> Outcome<'a> {
    let Ok(mut host) = SceneHost::new(alloc, OWN, ETHERNET) else {
        return Outcome::FrameLeft;
    };
    if let Some(line) = host.first_otherwise(begins) {
        return Outcome::Otherwise(line);
    }
    if let Some(line) = host.first_otherwise(script) {
        return Outcome::Otherwise(line);
    }
    if host.kept && host.device.queued() == 0 {
        Outcome::AsSaid
    } else {
        Outcome::FrameLeft
    }
}

/// Whether a script comes as it says on a host that took a frame after another script.
pub fn outlives(alloc: Global, first: &str, bad: &[u8], second: &str) -> bool {
    let Ok(mut host) = SceneHost::new(alloc, OWN, ETHERNET) else {
        return false;
    };
    host.follows(first) && host.takes(bad).is_some() && host.follows(second)
}

impl SceneHost {
    /// Follows a script, and says whether it comes as it says.
    pub fn follows(&mut self, script: &str) -> bool {
        for line in script.lines() {
            if self.follow(line) != Some(true) {
                return false;
            }
        }
        true
    }

    // Follows lines, and returns the first of which something else came, or that can't be read.
    fn first_otherwise<'a>(&mut self, lines: &[&'a str]) -> Option<&'a str> {
        for line in lines {
            if self.follow(line) != Some(true) {
                return Some(*line);
            }
        }
        None
    }

    // Follows a line, and says whether that came of it which had to. `None` if it isn't one.
    fn follow(&mut self, line: &str) -> Option<bool> {
        if line.trim().is_empty() {
            return Some(true);
        }
        let (call, outcome) = line.split_once('=').unwrap_or((line, "ok"));
        let mut call = call.split_whitespace();
        let mut outcome = outcome.split_whitespace();
        let sent = self.device.sent().len();
        let refusals = self.device.refusals();
        let is_right = self.comes(&mut call, &mut outcome)?;
        let is_refused = self.was_refused(refusals);
        Some(is_right && self.sends(sent, is_refused, &mut outcome)?)
    }

    // Makes a call, and says whether its answer is the one told. `None` if it isn't a call.
    fn comes(&mut self, call: &mut Words<'_>, outcome: &mut Words<'_>) -> Option<bool> {
        let word = call.next()?;
        let is_right = self.calls(word, call, outcome)?;
        match call.next() {
            None => Some(is_right),
            Some(_) => None,
        }
    }

    // Whether the device refused leave as it was told to, since there were so many refusals.
    fn was_refused(&mut self, refusals: u64) -> bool {
        let is_refused = self.refusing && self.device.refusals() != refusals;
        if is_refused {
            self.refusing = false;
        }
        is_refused
    }

    // Whether the rest of the outcome tells of the refused leave and of the frames sent, and no more.
    fn sends(&self, before: usize, is_refused: bool, outcome: &mut Words<'_>) -> Option<bool> {
        if is_refused && outcome.next() != Some("refused") {
            return Some(false);
        }
        are_told(self.device.sent().get(before..)?, outcome)
    }

    // A call by its word: a command, or something else.
    fn calls(&mut self, word: &str, call: &mut Words<'_>, outcome: &mut Words<'_>) -> Option<bool> {
        if let Some(command) = setting_in(word, call) {
            return self.asks(command, outcome);
        }
        if let Some(command) = polling_in(word, call) {
            return self.asks(command, outcome);
        }
        self.changes(word, call, outcome)
    }

    // A call by its word that makes a host anew, or changes its default routes, or asks what is due.
    fn changes(
        &mut self,
        word: &str,
        call: &mut Words<'_>,
        outcome: &mut Words<'_>,
    ) -> Option<bool> {
        match word {
            "host" => self.is_made(call, outcome),
            "slaac" => self.is_made_anew(call, outcome),
            "gw" => self.adds_default(call, outcome),
            "ungw" => self.removes_default(outcome),
            "ungw6" => self.removes_default_v6(outcome),
            "at" => self.is_due_at(call, outcome),
            "delay" => self.is_due_in(call, outcome),
            "receive" => self.shows(call, outcome),
            _ => self.at_device(word, call, outcome),
        }
    }

    // The same for the device.
    fn at_device(
        &mut self,
        word: &str,
        call: &mut Words<'_>,
        outcome: &mut Words<'_>,
    ) -> Option<bool> {
        match word {
            "rx" => self.hears_of(call, outcome),
            "rx?" => self.has_queued(outcome),
            "begins" => self.takes_beginnings(call, outcome),
            "refuse" => self.will_refuse(call, outcome),
            _ => self.at_sockets(word, call, outcome),
        }
    }

    // A frame arrives: those that are left, one behind the other.
    fn hears_of(&mut self, call: &mut Words<'_>, outcome: &mut Words<'_>) -> Option<bool> {
        let frame = frames(call)?;
        self.queue(frame.as_slice())?;
        is_ok(outcome)
    }

    // Whether so many frames wait.
    fn has_queued(&self, outcome: &mut Words<'_>) -> Option<bool> {
        Some(self.device.queued() == count(outcome.next()?)?)
    }

    // The device will refuse a question for leave.
    fn will_refuse(&mut self, call: &mut Words<'_>, outcome: &mut Words<'_>) -> Option<bool> {
        let given = match call.next() {
            Some(word) => count(word)?,
            None => 0,
        };
        self.refuse_after(given)?;
        is_ok(outcome)
    }

    // Each proper beginning of a frame arrives and is taken. `None` if one isn't.
    fn takes_beginnings(&mut self, call: &mut Words<'_>, outcome: &mut Words<'_>) -> Option<bool> {
        let frame = frame(call.next()?)?;
        self.takes_each(frame.as_slice())?;
        is_ok(outcome)
    }

    // The same, by the frame's octets.
    fn takes_each(&mut self, octets: &[u8]) -> Option<()> {
        for len in 1..octets.len() {
            self.takes(octets.get(..len)?)?;
        }
        Some(())
    }

    /// A frame arrives and is taken, at the origin. `None` if it isn't.
    pub fn takes(&mut self, octets: &[u8]) -> Option<()> {
        self.queue(octets)?;
        match self.run(Command::PollIngressSingle(Instant::ZERO)) {
            Answer::PollIngressSingle(PollIngressSingleResult::SocketStateChanged) => Some(()),
            _ => None,
        }
    }

    // Runs a command, whose answer has to read so.
    fn asks(&mut self, command: Command, outcome: &mut Words<'_>) -> Option<bool>
        requires { IsTimely command }
    {
        let answer = self.run(command);
        Some(outcome.next()? == text_of(answer))
    }

    // A host is made, or it is said why it isn't.
    fn is_made(&mut self, call: &mut Words<'_>, outcome: &mut Words<'_>) -> Option<bool> {
        let hardware_addr = hardware(call.next()?)?;
        let capabilities = capabilities_in(call)?;
        let word = outcome.next()?;
        match SceneHost::new(self.alloc, hardware_addr, capabilities) {
            Ok(host) => {
                *self = host;
                Some(word == "ok")
            }
            Err(error) => Some(word == refusal_text(error)),
        }
    }

    // A host is made that takes addresses from routers.
    fn is_made_anew(&mut self, call: &mut Words<'_>, outcome: &mut Words<'_>) -> Option<bool> {
        let (hardware_addr, capabilities) = slaac_link_in(call)?;
        *self = SceneHost::with_slaac(self.alloc, hardware_addr, capabilities).ok()?;
        is_ok(outcome)
    }

    // It gets a default route, in place of the one by the router that the outcome tells.
    fn adds_default(&mut self, call: &mut Words<'_>, outcome: &mut Words<'_>) -> Option<bool> {
        let router = any_address(call.next()?)?;
        let old = replaced_in(outcome)?;
        match router {
            IpAddress::Ipv4(router) => {
                let answer = self.run(Command::AddDefaultIpv4Route(router));
                Some(answer == Answer::AddDefaultIpv4Route(old))
            }
            IpAddress::Ipv6(router) => {
                let answer = self.run(Command::AddDefaultIpv6Route(router));
                Some(answer == Answer::AddDefaultIpv6Route(old))
            }
        }
    }

    // It loses its default route, the one by the router that the outcome tells.
    fn removes_default(&mut self, outcome: &mut Words<'_>) -> Option<bool> {
        let old = default_by(outcome.next()?)?;
        let answer = self.run(Command::RemoveDefaultIpv4Route);
        Some(answer == Answer::RemoveDefaultIpv4Route(old))
    }

    // The same of IPv6.
    fn removes_default_v6(&mut self, outcome: &mut Words<'_>) -> Option<bool> {
        let old = default_by(outcome.next()?)?;
        let answer = self.run(Command::RemoveDefaultIpv6Route);
        Some(answer == Answer::RemoveDefaultIpv6Route(old))
    }

    // Whether it has to be polled again at the instant that the outcome tells.
    fn is_due_at(&mut self, call: &mut Words<'_>, outcome: &mut Words<'_>) -> Option<bool> {
        let timestamp = moment(call.next()?)?;
        let instant = instant(outcome.next()?)?;
        let answer = self.run(Command::PollAt(timestamp));
        Some(answer == Answer::PollAt(instant))
    }

    // Whether that is in so many microseconds.
    fn is_due_in(&mut self, call: &mut Words<'_>, outcome: &mut Words<'_>) -> Option<bool> {
        let timestamp = moment(call.next()?)?;
        let delay = delay(outcome.next()?)?;
        let answer = self.run(Command::PollDelay(timestamp));
        Some(answer == Answer::PollDelay(delay))
    }

    // Whether the outcome's frame is shown in response to the one handed over.
    fn shows(&mut self, call: &mut Words<'_>, outcome: &mut Words<'_>) -> Option<bool> {
        let timestamp = moment(call.next()?)?;
        let handed_over = frame(call.next()?)?;
        let shown = self
            .interface
            .receive_frame(timestamp, handed_over.as_slice(), &mut self.sockets);
        is_shown(shown, outcome.next()?)
    }
}

// A command that sets something, by its word.
fn setting_in(word: &str, call: &mut Words<'_>) -> Option<Command>
    ensures { IfSome result IsTimely }
{
    match word {
        "addr" => Some(Command::UpdateIpAddrs(networks(call)?)),
        "join" => Some(Command::JoinMulticastGroup(any_address(call.next()?)?)),
        "leave" => Some(Command::LeaveMulticastGroup(any_address(call.next()?)?)),
        "anyip" => Some(Command::SetAnyIp(true)),
        "hardware" => Some(Command::SetHardwareAddr(hardware(call.next()?)?)),
        "routes" => Some(Command::UpdateRoutes(routes(call)?)),
        "timeout" => Some(Command::SetReassemblyTimeout(span_in(call)?)),
        _ => None,
    }
}

// A command that polls, by its word.
fn polling_in(word: &str, call: &mut Words<'_>) -> Option<Command>
    ensures { IfSome result IsTimely }
{
    match word {
        "ingress" => Some(Command::PollIngressSingle(moment(call.next()?)?)),
        "egress" => Some(Command::PollEgress(moment(call.next()?)?)),
        "maintain" => Some(Command::PollMaintenance(moment(call.next()?)?)),
        "poll" => Some(Command::Poll(moment(call.next()?)?, count(call.next()?)?)),
        _ => None,
    }
}

// A span in microseconds.
fn span_in(words: &mut Words<'_>) -> Option<Duration> {
    Some(Duration::from_micros(wide(words.next()?)?))
}

// Whether the outcome tells what an interface has.
pub(crate) fn tells(
    interface: &mut Interface,
    word: &str,
    call: &mut Words<'_>,
    outcome: &mut Words<'_>,
) -> Option<bool> {
    match word {
        "own?" => is_own(interface, call, outcome),
        "member?" => is_member(interface, call, outcome),
        "solicited?" => is_solicited(interface, call, outcome),
        "source?" => sends_from(interface, call, outcome),
        "addr?" => has_addrs(interface, outcome),
        "routes?" => has_routes(interface, outcome),
        "hardware?" => is_at(interface, outcome),
        _ => tells_of_time(interface, word, call, outcome),
    }
}

// The same of spans and instants, and of what is learnt from routers.
fn tells_of_time(
    interface: &mut Interface,
    word: &str,
    call: &mut Words<'_>,
    outcome: &mut Words<'_>,
) -> Option<bool> {
    match word {
        "timeout?" => Some(interface.reassembly_timeout() == span_in(outcome)?),
        "phase?" => is_in_phase(interface, outcome),
        "slaac_at" => is_due_of_slaac(interface, call, outcome),
        "synced?" => Some(interface.slaac_updated_at() == moment(outcome.next()?)?),
        _ => None,
    }
}

// Whether it takes an address for its own.
fn is_own(interface: &Interface, call: &mut Words<'_>, outcome: &mut Words<'_>) -> Option<bool> {
    let addr = any_address(call.next()?)?;
    Some(is_told(interface.has_ip_addr(&addr), outcome.next()?))
}

// Whether it is a member of a group.
fn is_member(interface: &Interface, call: &mut Words<'_>, outcome: &mut Words<'_>) -> Option<bool> {
    let addr = any_address(call.next()?)?;
    Some(is_told(interface.has_multicast_group(&addr), outcome.next()?))
}

// Whether a group is the solicited-node group of one of its addresses.
fn is_solicited(
    interface: &mut Interface,
    call: &mut Words<'_>,
    outcome: &mut Words<'_>,
) -> Option<bool> {
    let group = address_v6(call.next()?)?;
    let is_own = interface.context().has_solicited_node(&group);
    Some(is_told(is_own, outcome.next()?))
}

// Whether it sends from an address to a destination.
fn sends_from(
    interface: &Interface,
    call: &mut Words<'_>,
    outcome: &mut Words<'_>,
) -> Option<bool> {
    let dst_addr = address_v6(call.next()?)?;
    let source = interface.get_source_address_ipv6(&dst_addr);
    Some(source == address_v6(outcome.next()?)?)
}

// Whether it has these addresses.
fn has_addrs(interface: &Interface, outcome: &mut Words<'_>) -> Option<bool> {
    let addrs = networks(outcome)?;
    Some(interface.ip_addrs() == addrs.as_slice())
}

// Whether it has these routes.
fn has_routes(interface: &Interface, outcome: &mut Words<'_>) -> Option<bool> {
    let list = routes(outcome)?;
    Some(interface.routes().as_slice() == list.as_slice())
}

// Whether it has this hardware address.
fn is_at(interface: &Interface, outcome: &mut Words<'_>) -> Option<bool> {
    let addr = interface.hardware_addr();
    match outcome.next()? {
        "none" => Some(addr.is_none()),
        word => Some(addr == Some(hardware(word)?)),
    }
}

// Whether its search for routers is so far, and so many solicitations may still go.
fn is_in_phase(interface: &mut Interface, outcome: &mut Words<'_>) -> Option<bool> {
    let slaac = interface.context().slaac();
    let is_so = phase_text(slaac.phase()) == outcome.next()?;
    Some(is_so && slaac.num_solicitations() == octet(outcome.next()?)?)
}

// Whether something is to be done of what it learnt from routers at the instant that the outcome tells.
fn is_due_of_slaac(
    interface: &mut Interface,
    call: &mut Words<'_>,
    outcome: &mut Words<'_>,
) -> Option<bool> {
    let timestamp = moment(call.next()?)?;
    let instant = instant(outcome.next()?)?;
    Some(interface.context().slaac().poll_at(timestamp) == instant)
}

// What a device can do, by its medium, its MTU and maybe its burst.
fn capabilities_in(call: &mut Words<'_>) -> Option<DeviceCapabilities> {
    Some(DeviceCapabilities {
        medium: medium(call.next()?)?,
        max_transmission_unit: count(call.next()?)?,
        max_burst_size: burst_in(call)?,
        checksum: ChecksumCapabilities::ALL,
    })
}

// A burst, if there is one.
fn burst_in(call: &mut Words<'_>) -> Option<Option<usize>> {
    match call.next() {
        Some("max") => Some(Some(usize::MAX)),
        Some(word) => Some(Some(count(word)?)),
        None => Some(None),
    }
}

// The hardware address and the device of a host that takes addresses from routers.
fn slaac_link_in(call: &mut Words<'_>) -> Option<(HardwareAddress, DeviceCapabilities)> {
    match call.next() {
        Some("ip") => Some((HardwareAddress::Ip, IP)),
        Some(word) => Some((OWN, ethernet_of(count(word)?))),
        None => Some((OWN, ETHERNET)),
    }
}

// An Ethernet device for frames of up to so many octets.
fn ethernet_of(max_transmission_unit: usize) -> DeviceCapabilities {
    DeviceCapabilities {
        max_transmission_unit,
        ..ETHERNET
    }
}

// Whether these frames were sent, and no more.
fn are_told(sent: &[Vec<u8>], outcome: &mut Words<'_>) -> Option<bool> {
    match outcome.next() {
        None => Some(sent.is_empty()),
        Some("tx") => are_frames(sent, outcome),
        Some(_) => Some(false),
    }
}

// Whether the frames are those that the rest of the outcome names.
fn are_frames(sent: &[Vec<u8>], outcome: &mut Words<'_>) -> Option<bool> {
    for octets in sent {
        if !is_frame(octets, outcome.next())? {
            return Some(false);
        }
    }
    Some(outcome.next().is_none())
}

// Whether a frame is the one that a word names, if there is a word.
fn is_frame(octets: &[u8], word: Option<&str>) -> Option<bool> {
    match word {
        Some(word) => Some(octets == frame(word)?.as_slice()),
        None => Some(false),
    }
}

// Whether the frame shown is the one that a word names.
fn is_shown(shown: Option<&[u8]>, word: &str) -> Option<bool> {
    match shown {
        None => Some(word == "none"),
        Some(octets) => Some(word != "none" && octets == frame(word)?.as_slice()),
    }
}

// The route that another one replaces, or that it can't.
fn replaced_in(outcome: &mut Words<'_>) -> Option<Result<Option<Route>, RouteTableFull>> {
    match outcome.next()? {
        "RouteTableFull" => Some(Err(RouteTableFull)),
        word => Some(Ok(default_by(word)?)),
    }
}

// A span, or `none`.
fn delay(word: &str) -> Option<Option<Duration>> {
    match word {
        "none" => Some(None),
        _ => Some(Some(Duration::from_micros(u64::from(number(word)?)))),
    }
}

// An instant, or `none`.
fn instant(word: &str) -> Option<Option<Instant>> {
    match word {
        "none" => Some(None),
        _ => Some(Some(moment(word)?)),
    }
}

// How far a search for routers is.
fn phase_text(phase: Phase) -> &'static str {
    match phase {
        Phase::Start => "start",
        Phase::Discovering => "discovering",
        Phase::Maintaining => "maintaining",
        Phase::None => "none",
    }
}

// Whether an answer is the one that the word says.
fn is_told(answer: bool, word: &str) -> bool {
    word == if answer { "yes" } else { "no" }
}

// The frames that are left, one behind the other.
fn frames(call: &mut Words<'_>) -> Option<Octets> {
    let mut whole = Octets::new();
    for word in call {
        whole.try_extend_from_slice(frame(word)?.as_slice()).ok()?;
    }
    Some(whole)
}

// The default route by a router, or `none`.
fn default_by(word: &str) -> Option<Option<Route>> {
    if word == "none" {
        return Some(None);
    }
    match any_address(word)? {
        IpAddress::Ipv4(router) => Some(Some(Route::new_ipv4_gateway(router))),
        IpAddress::Ipv6(router) => Some(Some(Route::new_ipv6_gateway(router))),
    }
}

// How a refused configuration reads.
fn refusal_text(error: NewError) -> &'static str {
    match error {
        NewError::MediumMismatch => "MediumMismatch",
        NewError::NotUnicast => "NotUnicast",
        NewError::MtuTooSmall => "MtuTooSmall",
        NewError::MtuTooLarge => "MtuTooLarge",
    }
}

// How an answer reads that has no value.
fn text_of(answer: Answer) -> &'static str {
    match answer {
        Answer::UpdateIpAddrs(Err(AddrError::NotUnicast))
        | Answer::SetHardwareAddr(Err(HardwareError::NotUnicast)) => "NotUnicast",
        Answer::SetHardwareAddr(Err(HardwareError::WrongMedium)) => "WrongMedium",
        Answer::JoinMulticastGroup(Err(MulticastError::GroupTableFull))
        | Answer::LeaveMulticastGroup(Err(MulticastError::GroupTableFull)) => "GroupTableFull",
        Answer::JoinMulticastGroup(Err(MulticastError::Unaddressable))
        | Answer::LeaveMulticastGroup(Err(MulticastError::Unaddressable)) => "Unaddressable",
        Answer::SetReassemblyTimeout(Err(TimeoutError::TimeoutTooLong)) => "TimeoutTooLong",
        Answer::PollIngressSingle(PollIngressSingleResult::None)
        | Answer::PollEgress(PollResult::None)
        | Answer::Poll(PollResult::None) => "None",
        Answer::PollIngressSingle(PollIngressSingleResult::PacketProcessed) => "PacketProcessed",
        Answer::PollIngressSingle(PollIngressSingleResult::SocketStateChanged)
        | Answer::PollEgress(PollResult::SocketStateChanged)
        | Answer::Poll(PollResult::SocketStateChanged) => "SocketStateChanged",
        _ => "ok",
    }
}
