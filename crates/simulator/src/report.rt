//! How what was counted is printed.

use crate::counts::{ByKind, Counts, Crossing, Origin, Tally};
use crate::kind::Kind;
use crate::packets::may_be_udp;
use crate::station::{Received, Station};
use anyhow::Result;
use host::link::Host;
use ip_wire::IpCidr;
use simulation_script::script::{Flow, Ping, Script};
use std::fmt::{self, Display, Formatter};
use std::io::Write;

/// A time in microseconds, printed in seconds.
#[derive(Clone, Copy)]
pub struct Time(pub u64);

impl Display for Time {
    fn fmt<W: fmt::Write>(&self, f: &mut Formatter<W>) -> fmt::Result {
        let seconds = self.0 / 1_000_000;
        let micros = self.0 % 1_000_000;
        write!(f, "{seconds:>4}.{micros:06}")
    }
}

impl Display for Origin {
    fn fmt<W: fmt::Write>(&self, f: &mut Formatter<W>) -> fmt::Result {
        match self {
            Origin::Flow(flow, number) => write!(f, "flow {flow}, number {number}"),
            Origin::Answer(flow, number) => write!(f, "back from flow {flow}, number {number}"),
            Origin::Strange => write!(f, "no socket of the script sent it"),
        }
    }
}

/// Prints a datagram that came to a socket.
pub fn print_datagram<W: Write>(
    output: &mut W,
    time: u64,
    name: &str,
    datagram: &Received,
    origin: Origin,
) -> Result<()> {
    let (time, port, size) = (Time(time), datagram.port, datagram.size);
    let (addr, from) = (datagram.remote.addr, datagram.remote.port);
    writeln!(
        output,
        "{time}  {name}:{port} gets {size} octets of {addr} port {from}: {origin}"
    )?;
    Ok(())
}

/// Prints the hosts as they are in the end, the flows, and the echo requests.
pub fn print_traffic<W: Write>(
    output: &mut W,
    script: &Script,
    hosts: &[Host<'static, Station>],
    counts: &Counts,
) -> Result<()> {
    print_hosts(output, script, hosts)?;
    print_flows(output, script, counts)?;
    print_pings(output, script, counts)
}

/// Prints the hosts with their addresses.
fn print_hosts<W: Write>(
    output: &mut W,
    script: &Script,
    hosts: &[Host<'static, Station>],
) -> Result<()> {
    writeln!(output, "hosts")?;
    for (line, host) in script.hosts.iter().zip(hosts.iter()) {
        print_host(output, &line.name, host.interface.ip_addrs())?;
    }
    Ok(())
}

/// Prints the flows.
fn print_flows<W: Write>(output: &mut W, script: &Script, counts: &Counts) -> Result<()> {
    writeln!(output, "flows")?;
    for (i, flow) in script.flows.iter().enumerate() {
        if let Some(tally) = counts.flows.get(i) {
            print_flow(output, script.name_of(flow.host), i, flow, tally)?;
        }
    }
    Ok(())
}

/// Prints a host with its addresses.
fn print_host<W: Write>(output: &mut W, name: &str, addresses: &[IpCidr]) -> Result<()> {
    write!(output, "  {name}")?;
    for address in addresses {
        write!(output, " {address}")?;
    }
    writeln!(output)?;
    Ok(())
}

/// Prints a flow.
fn print_flow<W: Write>(
    output: &mut W,
    name: &str,
    number: usize,
    flow: &Flow,
    tally: &Tally,
) -> Result<()> {
    let (port, addr, to) = (flow.port, flow.remote.addr, flow.remote.port);
    let received = tally.received.count;
    writeln!(
        output,
        "  {number}: {name}:{port} to {addr} port {to}: {tally}, {received} received"
    )?;
    print_delays(output, tally)?;
    print_answers(output, tally)
}

/// Prints the echo requests, if there are some.
fn print_pings<W: Write>(output: &mut W, script: &Script, counts: &Counts) -> Result<()> {
    if script.pings.is_empty() {
        return Ok(());
    }
    writeln!(output, "pings")?;
    for (i, ping) in script.pings.iter().enumerate() {
        if let Some(tally) = counts.pings.get(i) {
            print_ping(output, script.name_of(ping.host), i, ping, tally)?;
        }
    }
    Ok(())
}

/// Prints the echo requests of a line.
fn print_ping<W: Write>(
    output: &mut W,
    name: &str,
    number: usize,
    ping: &Ping,
    tally: &Tally,
) -> Result<()> {
    let (addr, answered) = (ping.remote, tally.answered.count);
    writeln!(
        output,
        "  {number}: {name} to {addr}: {tally}, {answered} answered"
    )?;
    print_answers(output, tally)
}

/// Prints how long those took that came, if some did.
fn print_delays<W: Write>(output: &mut W, tally: &Tally) -> Result<()> {
    let times = tally.received;
    if times.count != 0 {
        writeln!(output, "     took {times}")?;
    }
    Ok(())
}

/// Prints how many answers came, if some did, and after what time.
fn print_answers<W: Write>(output: &mut W, tally: &Tally) -> Result<()> {
    let times = tally.answered;
    if times.count != 0 {
        let answered = times.count;
        writeln!(output, "     {answered} came back after {times}")?;
    }
    Ok(())
}

/// Prints what routers forwarded, how many packets hosts gave up, the frames by host and kind, what the link did, and
/// whether the law holds.
pub fn print_frames<W: Write>(
    output: &mut W,
    script: &Script,
    hosts: &[Host<'static, Station>],
    counts: &Counts,
) -> Result<()> {
    print_ways(output, script, counts)?;
    print_all_given_up(output, script, hosts)?;
    print_all_kinds(output, script, counts)?;
    print_link(output, counts)?;
    print_premises(output, script, hosts, counts)
}

/// Prints what routers forwarded each way, if there are some.
fn print_ways<W: Write>(output: &mut W, script: &Script, counts: &Counts) -> Result<()> {
    if script.ways.is_empty() {
        return Ok(());
    }
    writeln!(output, "routers")?;
    for (way, crossing) in script.ways.iter().zip(counts.crossings.iter()) {
        let (from, to) = (script.name_of(way.from), script.name_of(way.to));
        print_way(output, from, to, crossing)?;
    }
    Ok(())
}

/// Prints how many packets were forwarded from one host to another, and how many were dropped.
fn print_way<W: Write>(output: &mut W, from: &str, to: &str, crossing: &Crossing) -> Result<()> {
    let (forwarded, refused) = (crossing.forwarded, crossing.refused);
    let (expired, fragments) = (crossing.expired, crossing.fragments);
    writeln!(
        output,
        "  {from} to {to}: {forwarded} forwarded; dropped: {refused} for want of room, {expired} for their hop limit, {fragments} as fragments"
    )?;
    Ok(())
}

/// Prints how many packets each host gave up.
fn print_all_given_up<W: Write>(
    output: &mut W,
    script: &Script,
    hosts: &[Host<'static, Station>],
) -> Result<()> {
    for (line, host) in script.hosts.iter().zip(hosts.iter()) {
        print_given_up(output, &line.name, host.owner.given_up())?;
    }
    Ok(())
}

/// Prints the frames by host and kind.
fn print_all_kinds<W: Write>(output: &mut W, script: &Script, counts: &Counts) -> Result<()> {
    writeln!(
        output,
        "frames                                sent  received"
    )?;
    for (i, line) in script.hosts.iter().enumerate() {
        if let (Some(sent), Some(received)) = (counts.sent.get(i), counts.received.get(i)) {
            print_frames_of(output, &line.name, sent, received)?;
        }
    }
    Ok(())
}

/// Prints how many packets a host gave up, if it gave up some.
fn print_given_up<W: Write>(output: &mut W, name: &str, given_up: u64) -> Result<()> {
    if given_up != 0 {
        writeln!(output, "given up by {name}: {given_up}")?;
    }
    Ok(())
}

/// Prints the frames of a host by their kinds.
fn print_frames_of<W: Write>(
    output: &mut W,
    host: &str,
    sent: &ByKind,
    received: &ByKind,
) -> Result<()> {
    for kind in Kind::ALL {
        print_kind(output, host, kind.name(), sent.of(kind), received.of(kind))?;
    }
    Ok(())
}

/// Prints how many frames of a kind a host sent and received, if there were some.
fn print_kind<W: Write>(
    output: &mut W,
    host: &str,
    kind: &str,
    sent: u64,
    received: u64,
) -> Result<()> {
    if sent != 0 || received != 0 {
        writeln!(output, "  {host:<8} {kind:<24} {sent:>7}  {received:>8}")?;
    }
    Ok(())
}

/// Prints what the link did.
fn print_link<W: Write>(output: &mut W, counts: &Counts) -> Result<()> {
    let (copies, lost, repeated) = (counts.copies, counts.lost, counts.repeated);
    let (changed, dropped, strange) = (counts.changed, counts.dropped, counts.strange);
    writeln!(
        output,
        "link: {copies} copies, {lost} lost, {repeated} repeated, {changed} changed; {dropped} frames dropped"
    )?;
    if strange != 0 {
        writeln!(
            output,
            "datagrams that no socket of the script sent: {strange}"
        )?;
    }
    Ok(())
}

/// Prints whether the premises of the law are met: each datagram that a socket gets was sent by a socket.
fn print_premises<W: Write>(
    output: &mut W,
    script: &Script,
    hosts: &[Host<'static, Station>],
    counts: &Counts,
) -> Result<()> {
    match writer_of_udp(script, hosts) {
        Some(host) => {
            let name = script.name_of(host);
            writeln!(output, "premises: not met, {name} has a raw socket for UDP")?;
        }
        None => writeln!(output, "premises: {}", premises(script, counts))?,
    }
    Ok(())
}

/// The first host with a raw socket for UDP.
fn writer_of_udp(script: &Script, hosts: &[Host<'static, Station>]) -> Option<usize> {
    let mut first = hosts.iter().position(|host| host.owner.may_send_udp());
    for packet in script.packets.iter() {
        if may_be_udp(&packet.octets) {
            first = Some(packet.host.min(first.unwrap_or(usize::MAX)));
        }
    }
    first
}

/// Whether the premises are met otherwise.
fn premises(script: &Script, counts: &Counts) -> &'static str {
    if !script.frames.is_empty() {
        "not met, frames come from outside"
    } else if counts.changed != 0 {
        "not met, frames are changed on the way"
    } else {
        "met"
    }
}
