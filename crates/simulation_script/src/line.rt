//! The lines of a script.

use crate::links;
use crate::script::{
    FIRST_LINK, Flow, HostLine, Leave, Listener, MAX_COLUMNS, MAX_STREAMS, Outage, OutsideFrame,
    Pace, Ping, Rate, RawPacket, Rooms, Router, Script, Section, Stream, Treatment,
};
use crate::words::Words;
use anyhow::{Context, Result, bail};
use arrayvec::ArrayVec;
use ip_wire::{EthernetAddress, IpAddress, IpCidr, Ipv4Address, Ipv4Cidr, Ipv6Cidr};
use sockets::IpEndpoint;
use std::alloc::Global;

/// The latest instant of a script: a day, in microseconds.
pub const LATEST: u64 = 86_400_000_000;

/// The maximum length of a payload, in octets.
const MAX_PAYLOAD: u64 = 4_000;

/// The maximum number of hosts that a line makes.
const MAX_HOSTS: u64 = 1_000_000;

/// The highest rate, in 1,000 bits a second.
const MAX_KILOBITS: u64 = 1_000_000_000;

/// The most echo requests of a line, which are numbered by 16 bits.
const MAX_PINGS: u64 = 65_536;

/// The most octets of a stream.
const MAX_OCTETS: u64 = 1_000_000_000;

/// The longest lifetime of a router, in seconds (RFC 4861 6.2.1).
const MAX_LIFETIME: u64 = 9_000;

/// The most frames that may wait to leave a host.
const MAX_WAITING: u64 = 1_000_000;

/// For how many neighbours a host has room at most.
const MAX_NEIGHBORS: u64 = 65_536;

/// How many datagrams a host reassembles at once at most.
const MAX_FRAGMENTED: u64 = 1_024;

/// Reads a script. An error names the line, counted from 1.
pub fn script_in(alloc: Global, text: &str) -> Result<Script> {
    let mut script = Script::new(alloc);
    let mut number = 0_u64;
    for line in text.lines() {
        number = number.saturating_add(1);
        read_line(alloc, &mut script, line).context(format_args!("line {number}"))?;
    }
    Ok(script)
}

/// Reads a line. Empty lines, and those that begin with `#`, say nothing.
fn read_line(alloc: Global, script: &mut Script, line: &str) -> Result<()> {
    if line.starts_with('#') {
        return Ok(());
    }
    let mut words = Words::of(line)?;
    if words.is_empty() {
        return Ok(());
    }
    let word = words.word()?;
    read_statement(alloc, script, word, &mut words)?;
    words.end()
}

/// Reads what follows the first word of a line.
fn read_statement(
    alloc: Global,
    script: &mut Script,
    word: &str,
    words: &mut Words<'_>,
) -> Result<()> {
    match word {
        "seed" | "until" | "patience" => read_setting(script, word, words),
        "loss" | "repeat" | "reorder" | "delay" | "change" => read_treatment(script, word, words),
        "rate" => read_rate(script, words),
        "neighbors" | "fragmented" => read_room(script, word, words),
        "down" => read_outage(script, words),
        "link" | "forward" => links::read_link_or_router(script, word, words),
        "chart" => read_section(script, words),
        "router" => read_router(script, words),
        "frame" => read_frame(alloc, script, words),
        "leave" => read_leave(script, words),
        _ => read_statement_of_host(alloc, script, word, words),
    }
}

/// Reads a host, a part of one, or what one sends.
fn read_statement_of_host(
    alloc: Global,
    script: &mut Script,
    word: &str,
    words: &mut Words<'_>,
) -> Result<()> {
    match word {
        "host" => read_host(alloc, script, words),
        "hosts" => read_hosts(alloc, script, words),
        "addr" | "gateway" | "join" | "udp" | "echo" => read_part(script, word, words),
        "send" => read_flow(script, words),
        "ping" => read_ping(script, words),
        "listen" => read_listener(script, words),
        "stream" => read_stream(script, words),
        "raw" => read_packet(alloc, script, words),
        _ => bail!("{word} is no word of scripts"),
    }
}

/// Reads what a setting is.
fn read_setting(script: &mut Script, word: &str, words: &mut Words<'_>) -> Result<()> {
    let most = if word == "seed" { u64::MAX } else { LATEST };
    let number = words.number(most)?;
    match word {
        "seed" => script.seed = number,
        "patience" => script.patience = Some(number),
        _ => script.until = number,
    }
    Ok(())
}

/// Reads how copies are treated: all, or those to the host that is named.
fn read_treatment(script: &mut Script, word: &str, words: &mut Words<'_>) -> Result<()> {
    let (first, second) = treatment_numbers_in(word, words)?;
    let host = last_host_in(script, words)?;
    let mut treatment = script.treatment_of(host);
    treat(&mut treatment, word, first, second);
    script.set_treatment(host, treatment);
    Ok(())
}

/// The two numbers of a part of a treatment, of which the second is 0 where the part has one.
fn treatment_numbers_in(word: &str, words: &mut Words<'_>) -> Result<(u64, u64)> {
    match word {
        "delay" => ordered_in(words),
        "reorder" => Ok((words.number(1000)?, words.number(LATEST)?)),
        _ => Ok((words.number(1000)?, 0)),
    }
}

/// Two times, of which the second isn't less than the first.
fn ordered_in(words: &mut Words<'_>) -> Result<(u64, u64)> {
    let first = words.number(LATEST)?;
    let second = words.number(LATEST)?;
    if second < first {
        bail!("{second} is less than {first}");
    }
    Ok((first, second))
}

/// Changes one part of a treatment.
fn treat(treatment: &mut Treatment, word: &str, first: u64, second: u64) {
    match word {
        "loss" => treatment.loss = first,
        "repeat" => treatment.repeat = first,
        "change" => treatment.change = first,
        "reorder" => {
            treatment.reorder = first;
            treatment.hold = second;
        }
        _ => {
            treatment.least = first;
            treatment.most = second;
        }
    }
}

/// Reads how fast frames leave all hosts, or the host that is named.
fn read_rate(script: &mut Script, words: &mut Words<'_>) -> Result<()> {
    let rate = rate_in(words)?;
    let host = last_host_in(script, words)?;
    script.set_rate(host, rate);
    Ok(())
}

/// A rate, and how many frames may wait.
fn rate_in(words: &mut Words<'_>) -> Result<Rate> {
    let kilobits = words.number(MAX_KILOBITS)?;
    if kilobits == 0 {
        bail!("0 is no rate");
    }
    let frames = words.number(MAX_WAITING)?;
    Ok(Rate { kilobits, frames })
}

/// Reads for how many neighbours, or for how many datagrams in fragments, all hosts have room, or the host that is named.
fn read_room(script: &mut Script, word: &str, words: &mut Words<'_>) -> Result<()> {
    let count = room_in(word, words)?;
    let host = last_host_in(script, words)?;
    let rooms = with_room(script.rooms_of(host), word, count);
    script.set_rooms(host, rooms);
    Ok(())
}

/// A room for one at least.
fn room_in(word: &str, words: &mut Words<'_>) -> Result<usize> {
    let most = if word == "neighbors" {
        MAX_NEIGHBORS
    } else {
        MAX_FRAGMENTED
    };
    match words.number(most)? {
        0 => bail!("0 is no room"),
        count => Ok(count as usize),
    }
}

/// Rooms of which one is for so many.
fn with_room(rooms: Rooms, word: &str, count: usize) -> Rooms {
    if word == "neighbors" {
        Rooms {
            neighbors: count,
            ..rooms
        }
    } else {
        Rooms {
            fragmented: count,
            ..rooms
        }
    }
}

/// Reads when a host is cut off.
fn read_outage(script: &mut Script, words: &mut Words<'_>) -> Result<()> {
    let host = host_in(script, words)?;
    let outage = outage_in(words)?;
    expect_room(script.add_outage(host, outage))
}

/// When an outage begins, and when it has ended.
fn outage_in(words: &mut Words<'_>) -> Result<Outage> {
    let (from, until) = ordered_in(words)?;
    Ok(Outage { from, until })
}

/// Fails unless a host had room for one more of something.
fn expect_room(has_room: bool) -> Result<()> {
    if !has_room {
        bail!("too many of these at one host");
    }
    Ok(())
}

/// Reads what a chart shows.
fn read_section(script: &mut Script, words: &mut Words<'_>) -> Result<()> {
    let section = section_in(script, words)?;
    script.section = section;
    Ok(())
}

/// From when on, until when, and which hosts a chart shows.
fn section_in(script: &Script, words: &mut Words<'_>) -> Result<Section> {
    let (from, until) = ordered_in(words)?;
    let hosts = columns_in(script, words)?;
    Ok(Section { from, until, hosts })
}

/// The numbers of the hosts that the words left name.
fn columns_in(script: &Script, words: &mut Words<'_>) -> Result<ArrayVec<usize, MAX_COLUMNS>> {
    let mut hosts = ArrayVec::new();
    for _ in 0..=MAX_COLUMNS {
        if words.is_empty() {
            break;
        }
        if hosts.try_push(host_in(script, words)?).is_err() {
            bail!("too many hosts");
        }
    }
    Ok(hosts)
}

/// A host with this name, without addresses.
fn host_line(name: String, hardware_addr: EthernetAddress, slaac: bool) -> HostLine {
    HostLine {
        name,
        hardware_addr,
        slaac,
        addresses: ArrayVec::new(),
        gateways: ArrayVec::new(),
        groups: ArrayVec::new(),
        ports: ArrayVec::new(),
        echoes: ArrayVec::new(),
        treatment: None,
        rate: None,
        rooms: None,
        outages: ArrayVec::new(),
        link: FIRST_LINK,
        way: None,
    }
}

/// Reads a host.
fn read_host(alloc: Global, script: &mut Script, words: &mut Words<'_>) -> Result<()> {
    let (name, hardware_addr) = new_host_in(script, words)?;
    let slaac = may_follow(words, "slaac")?;
    let name = String::from_str(alloc, name)?;
    script.add_host(host_line(name, hardware_addr, slaac))
}

/// A name and an Ethernet address that no host has yet.
fn new_host_in<'a>(script: &Script, words: &mut Words<'a>) -> Result<(&'a str, EthernetAddress)> {
    let name = words.word()?;
    let hardware_addr = words.ethernet()?;
    if script.host_named(name).is_some() {
        bail!("{name} is a host already");
    }
    if hardware_addr.is_multicast() {
        bail!("the Ethernet address is a group's");
    }
    expect_free(script.host_at(&hardware_addr), script)?;
    Ok((name, hardware_addr))
}

/// Fails if a host has an Ethernet address already.
fn expect_free(owner: Option<usize>, script: &Script) -> Result<()> {
    match owner {
        Some(host) => bail!("{} has this Ethernet address", script.name_of(host)),
        None => Ok(()),
    }
}

/// Whether a word follows. Fails if there is another one.
fn may_follow(words: &mut Words<'_>, last: &str) -> Result<bool> {
    if words.is_empty() {
        return Ok(false);
    }
    if words.word()? != last {
        bail!("only {last} may follow");
    }
    Ok(true)
}

/// Reads many hosts: their number, the address of the first with its prefix, and the port of their sockets. Addresses
/// count up, and names and Ethernet addresses follow from them.
fn read_hosts(alloc: Global, script: &mut Script, words: &mut Words<'_>) -> Result<()> {
    let (first, count) = addresses_in(words)?;
    let port = port_in(words)?;
    expect_free(owner_among(script, first.address, count), script)?;
    add_hosts(alloc, script, first, count, port)
}

/// An address with its network, from which so many addresses of hosts count up.
fn addresses_in(words: &mut Words<'_>) -> Result<(Ipv4Cidr, u32)> {
    let count = u32::try_from(words.number(MAX_HOSTS)?)?;
    let IpCidr::Ipv4(first) = words.network()? else {
        bail!("only IPv4");
    };
    let last = last_of(first.address, count);
    if !is_in_network(&first, last) {
        let from = first.address;
        bail!("its network doesn't have {count} addresses from {from} on");
    }
    expect_host_address(IpAddress::Ipv4(first.address))?;
    expect_host_address(IpAddress::Ipv4(last))?;
    Ok((first, count))
}

/// The last of so many addresses that count up from one, and go round after the highest one; the first for none.
fn last_of(first: Ipv4Address, count: u32) -> Ipv4Address {
    Ipv4Address {
        bits: first.bits.wrapping_add(count.saturating_sub(1)),
    }
}

/// Whether all addresses from one up to another are of hosts in its network: the broadcast address isn't (RFC 1122 3.2.1.3).
fn is_in_network(first: &Ipv4Cidr, last: Ipv4Address) -> bool {
    first.address.bits <= last.bits && first.contains_addr(&last) && first.broadcast() != Some(last)
}

/// Fails if an address can't be a host's: that of a group, or the broadcast address.
fn expect_host_address(address: IpAddress) -> Result<()> {
    if address.is_multicast() || address.is_broadcast() {
        bail!("{address} is no host's address");
    }
    Ok(())
}

/// A host whose Ethernet address is one of those that follow from so many addresses.
fn owner_among(script: &Script, first: Ipv4Address, count: u32) -> Option<usize> {
    script.hosts.iter().position(|host| {
        let [zero, one, a, b, c, d] = host.hardware_addr.0;
        let bits = u32::from_be_bytes([a, b, c, d]);
        zero == 2 && one == 0 && bits.wrapping_sub(first.bits) < count
    })
}

/// Adds so many hosts, each with a socket at a port.
fn add_hosts(
    alloc: Global,
    script: &mut Script,
    first: Ipv4Cidr,
    count: u32,
    port: u16,
) -> Result<()> {
    let mut bits = first.address.bits;
    for i in 0..count {
        let name = format!(in alloc; "h{}", i.saturating_add(1))?;
        let address = Ipv4Cidr::new(Ipv4Address { bits }, first.prefix_len);
        script.add_host(numbered_host(name, address, port))?;
        bits = bits.wrapping_add(1);
    }
    Ok(())
}

/// A host with this name, one address, from which its Ethernet address follows, and a socket at a port.
fn numbered_host(name: String, address: Ipv4Cidr, port: u16) -> HostLine {
    let [a, b, c, d] = address.address.bits.to_be_bytes();
    let mut host = host_line(name, EthernetAddress([2, 0, a, b, c, d]), false);
    let _ = host.addresses.try_push(IpCidr::Ipv4(address));
    let _ = host.ports.try_push(port);
    host
}

/// The number of the host that the next word names.
pub(crate) fn host_in(script: &Script, words: &mut Words<'_>) -> Result<usize> {
    let name = words.word()?;
    match script.host_named(name) {
        Some(host) => Ok(host),
        None => bail!("{name} is no host"),
    }
}

/// The number of the host that the last word names; `None` if no word is left.
fn last_host_in(script: &Script, words: &mut Words<'_>) -> Result<Option<usize>> {
    if words.is_empty() {
        return Ok(None);
    }
    Ok(Some(host_in(script, words)?))
}

/// Reads an address, a router, a group or a port of a host.
fn read_part(script: &mut Script, word: &str, words: &mut Words<'_>) -> Result<()> {
    let number = host_in(script, words)?;
    match script.hosts.get_mut(number) {
        Some(host) => read_part_of(host, word, words),
        None => bail!("no host"),
    }
}

/// Reads a part of a host, by the word before it.
fn read_part_of(host: &mut HostLine, word: &str, words: &mut Words<'_>) -> Result<()> {
    match word {
        "addr" => read_address(host, words),
        "gateway" => read_gateway(host, words),
        "join" => read_group(host, words),
        "echo" => read_echo(host, words),
        _ => read_port(host, words),
    }
}

/// Reads an address of a host, with its network.
fn read_address(host: &mut HostLine, words: &mut Words<'_>) -> Result<()> {
    let address = words.network()?;
    expect_host_address(address.address())?;
    expect_room(host.addresses.try_push(address).is_ok())
}

/// Reads the router of a default route.
fn read_gateway(host: &mut HostLine, words: &mut Words<'_>) -> Result<()> {
    let gateway = words.address()?;
    expect_room(host.gateways.try_push(gateway).is_ok())
}

/// Reads a group that a host joins.
fn read_group(host: &mut HostLine, words: &mut Words<'_>) -> Result<()> {
    let group = group_in(words)?;
    expect_room(host.groups.try_push(group).is_ok())
}

/// The address of a group.
fn group_in(words: &mut Words<'_>) -> Result<IpAddress> {
    let group = words.address()?;
    if !group.is_multicast() {
        bail!("{group} is no group");
    }
    Ok(group)
}

/// Reads the port of a socket.
fn read_port(host: &mut HostLine, words: &mut Words<'_>) -> Result<()> {
    let port = port_in(words)?;
    expect_room(host.ports.try_push(port).is_ok())
}

/// Reads the port of a socket that sends back what it receives.
fn read_echo(host: &mut HostLine, words: &mut Words<'_>) -> Result<()> {
    let port = port_in(words)?;
    let has_room = host.ports.try_push(port).is_ok() && host.echoes.try_push(port).is_ok();
    expect_room(has_room)
}

/// Reads a router.
fn read_router(script: &mut Script, words: &mut Words<'_>) -> Result<()> {
    let router = router_in(script, words)?;
    script.routers.push(router)?;
    Ok(())
}

/// The host of a router, its prefix, its lifetime, and how often it advertises.
fn router_in(script: &Script, words: &mut Words<'_>) -> Result<Router> {
    let router = Router {
        host: host_in(script, words)?,
        prefix: prefix_in(words)?,
        lifetime: u16::try_from(words.number(MAX_LIFETIME)?)?,
        every: interval_in(words)?,
    };
    expect_link_local(script, router.host)?;
    Ok(router)
}

/// Fails unless a host has a link-local address, from which a router advertises (RFC 4861 4.2).
fn expect_link_local(script: &Script, host: usize) -> Result<()> {
    match script.hosts.get(host) {
        Some(line) if line.has_link_local() => Ok(()),
        _ => bail!("the host has no link-local address"),
    }
}

/// A prefix of IPv6.
fn prefix_in(words: &mut Words<'_>) -> Result<Ipv6Cidr> {
    match words.network()? {
        IpCidr::Ipv6(prefix) => Ok(prefix),
        IpCidr::Ipv4(_) => bail!("only IPv6"),
    }
}

/// A time between advertisements, other than 0.
fn interval_in(words: &mut Words<'_>) -> Result<u64> {
    match words.number(LATEST)? {
        0 => bail!("0 is no time between advertisements"),
        every => Ok(every),
    }
}

/// A port other than 0.
fn port_in(words: &mut Words<'_>) -> Result<u16> {
    match u16::try_from(words.number(65_535)?) {
        Ok(port) if port != 0 => Ok(port),
        _ => bail!("0 is no port"),
    }
}

/// Reads traffic.
fn read_flow(script: &mut Script, words: &mut Words<'_>) -> Result<()> {
    let flow = flow_in(script, words)?;
    script.flows.push(flow)?;
    Ok(())
}

/// From which host and port datagrams go where, how long they are, how many, and when.
fn flow_in(script: &Script, words: &mut Words<'_>) -> Result<Flow> {
    let host = host_in(script, words)?;
    Ok(Flow {
        host,
        port: open_port_in(script, host, words)?,
        remote: endpoint_in(words)?,
        size: size_in(words)?,
        pace: pace_in(words, u64::MAX)?,
    })
}

/// The port of a socket of a host.
fn open_port_in(script: &Script, host: usize, words: &mut Words<'_>) -> Result<u16> {
    let port = port_in(words)?;
    if !script.has_socket(host, port) {
        bail!("the host has no socket at {port}");
    }
    Ok(port)
}

/// An address, and a port other than 0.
fn endpoint_in(words: &mut Words<'_>) -> Result<IpEndpoint> {
    Ok(IpEndpoint {
        addr: words.address()?,
        port: port_in(words)?,
    })
}

/// The length of a payload.
fn size_in(words: &mut Words<'_>) -> Result<usize> {
    let size = words.number(MAX_PAYLOAD)? as usize;
    if size < 8 {
        bail!("a payload has 8 octets or more");
    }
    Ok(size)
}

/// Reads how many of something are sent, at most so many, and when.
fn pace_in(words: &mut Words<'_>, most: u64) -> Result<Pace> {
    Ok(Pace {
        count: words.number(most)?,
        start: words.number(LATEST)?,
        every: words.number(LATEST)?,
        is_random: may_follow(words, "random")?,
    })
}

/// Reads echo requests.
fn read_ping(script: &mut Script, words: &mut Words<'_>) -> Result<()> {
    let ping = ping_in(script, words)?;
    script.pings.push(ping)?;
    Ok(())
}

/// From which host echo requests go where, how many, and when.
fn ping_in(script: &Script, words: &mut Words<'_>) -> Result<Ping> {
    let host = host_in(script, words)?;
    Ok(Ping {
        host,
        remote: remote_in(script, host, words)?,
        pace: pace_in(words, MAX_PINGS)?,
    })
}

/// An address to which a host can send, as it has one of its family, or takes some from routers.
fn remote_in(script: &Script, host: usize, words: &mut Words<'_>) -> Result<IpAddress> {
    let remote = words.address()?;
    match script.hosts.get(host) {
        Some(line) if line.has_family_of(&remote) => Ok(remote),
        _ => bail!("the host has no address from which {remote} is reached"),
    }
}

/// Reads a port at which a host accepts connections.
fn read_listener(script: &mut Script, words: &mut Words<'_>) -> Result<()> {
    let listener = listener_in(script, words)?;
    script.listeners.push(listener)?;
    Ok(())
}

/// A host, and a port of it at which it doesn't listen yet.
fn listener_in(script: &Script, words: &mut Words<'_>) -> Result<Listener> {
    let host = host_in(script, words)?;
    let port = port_in(words)?;
    if script.listens(host, port) {
        bail!("the host listens at {port} already");
    }
    Ok(Listener { host, port })
}

/// Reads a connection by which a host sends.
fn read_stream(script: &mut Script, words: &mut Words<'_>) -> Result<()> {
    let stream = stream_in(script, words)?;
    if script.streams.len() >= MAX_STREAMS {
        bail!("too many streams");
    }
    script.streams.push(stream)?;
    Ok(())
}

/// From which host a stream goes where, how many octets it has, and when it begins.
fn stream_in(script: &Script, words: &mut Words<'_>) -> Result<Stream> {
    let host = host_in(script, words)?;
    let addr = words.address()?;
    Ok(Stream {
        host,
        local: own_address_for(script, host, addr)?,
        remote: IpEndpoint {
            addr,
            port: port_in(words)?,
        },
        octets: words.number(MAX_OCTETS)?,
        start: words.number(LATEST)?,
    })
}

/// The address from which a host connects to another one.
fn own_address_for(script: &Script, host: usize, addr: IpAddress) -> Result<IpAddress> {
    match script.address_for(host, &addr) {
        Some(own) => Ok(own),
        None => bail!("the host has no address from which {addr} is reached"),
    }
}

/// The octets of the next word, in hex digits.
fn octets_in(alloc: Global, words: &mut Words<'_>) -> Result<Vec<u8>> {
    hex::decode(alloc, words.word()?).context("no octets in hex")
}

/// Reads a packet of a raw socket.
fn read_packet(alloc: Global, script: &mut Script, words: &mut Words<'_>) -> Result<()> {
    let packet = packet_in(alloc, script, words)?;
    script.packets.push(packet)?;
    Ok(())
}

/// From which host a packet goes, when, and its octets.
fn packet_in(alloc: Global, script: &Script, words: &mut Words<'_>) -> Result<RawPacket> {
    Ok(RawPacket {
        host: host_in(script, words)?,
        at: words.number(LATEST)?,
        octets: octets_in(alloc, words)?,
    })
}

/// Reads a frame from outside.
fn read_frame(alloc: Global, script: &mut Script, words: &mut Words<'_>) -> Result<()> {
    let frame = frame_in(alloc, words)?;
    script.frames.push(frame)?;
    Ok(())
}

/// When a frame from outside arrives, and its octets.
fn frame_in(alloc: Global, words: &mut Words<'_>) -> Result<OutsideFrame> {
    let at = Some(words.number(LATEST)?);
    let octets = octets_in(alloc, words)?;
    if octets.len() < 14 || octets.len() > 1514 {
        bail!("a frame has 14 to 1514 octets");
    }
    let from = None;
    Ok(OutsideFrame { at, from, octets })
}

/// Reads that a host leaves a group.
fn read_leave(script: &mut Script, words: &mut Words<'_>) -> Result<()> {
    let leave = leave_in(script, words)?;
    script.leaves.push(leave)?;
    Ok(())
}

/// Which host leaves a group, and when.
fn leave_in(script: &Script, words: &mut Words<'_>) -> Result<Leave> {
    Ok(Leave {
        host: host_in(script, words)?,
        at: words.number(LATEST)?,
        group: group_in(words)?,
    })
}
