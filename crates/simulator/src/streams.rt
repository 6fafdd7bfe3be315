//! How it is printed what became of streams.

use crate::report::Time;
use crate::station::Station;
use anyhow::Result;
use host::link::Host;
use simulation_script::script::{Script, Stream};
use simulation_streams::receiver::Receiver;
use simulation_streams::sender::{FIRST_PORT, Sender, Stage, ends_of};
use simulation_streams::transmissions::{Transmissions, reversed};
use std::alloc::Global;
use std::io::Write;
use tcp_machine::timers::Ending;

/// What a stream's receiver read.
#[derive(Clone, Copy)]
struct Reception {
    received: u64,
    wrong: Option<u64>,
    ended_at: Option<u64>,
}

impl Reception {
    /// Nothing was read.
    const NONE: Reception = Reception {
        received: 0,
        wrong: None,
        ended_at: None,
    };

    /// What a receiver read.
    fn of(receiver: &Receiver) -> Reception {
        Reception {
            received: receiver.received,
            wrong: receiver.wrong,
            ended_at: receiver.ended_at,
        }
    }
}

/// Prints the streams, if there are some.
pub fn print_streams<W: Write>(
    alloc: Global,
    output: &mut W,
    script: &Script,
    hosts: &[Host<'static, Station>],
    transmissions: &Transmissions,
) -> Result<()> {
    if script.streams.is_empty() {
        return Ok(());
    }
    let receptions = receptions(alloc, script, hosts)?;
    writeln!(output, "streams")?;
    for (i, stream) in script.streams.iter().enumerate() {
        if let Some(sender) = sender_of(hosts, stream, i) {
            let reception = receptions.get(i).copied().unwrap_or(Reception::NONE);
            print_ends(output, script.name_of(stream.host), i, stream)?;
            print_stream(output, stream, sender, &reception, transmissions.again(i))?;
        }
    }
    Ok(())
}

/// Prints what became of a stream, of which so many segments were sent again.
fn print_stream<W: Write>(
    output: &mut W,
    stream: &Stream,
    sender: &Sender,
    reception: &Reception,
    again: u64,
) -> Result<()> {
    print_counts(output, sender, reception, again)?;
    print_course(output, stream, sender, reception)
}

/// Prints where a stream comes from and goes to.
fn print_ends<W: Write>(output: &mut W, name: &str, number: usize, stream: &Stream) -> Result<()> {
    let (addr, port) = (stream.remote.addr, stream.remote.port);
    write!(output, "  {number}: {name} to {addr} port {port}: ")?;
    Ok(())
}

/// The sender of a stream of this number.
fn sender_of<'h>(
    hosts: &'h [Host<'static, Station>],
    stream: &Stream,
    number: usize,
) -> Option<&'h Sender> {
    let owner = &hosts.get(stream.host)?.owner;
    match &owner.connections {
        Some(connections) => connections.sender(number),
        None => None,
    }
}

/// What was read of each stream: of connections with the same ends, by the first.
fn receptions(
    alloc: Global,
    script: &Script,
    hosts: &[Host<'static, Station>],
) -> Result<Vec<Reception>> {
    let mut receptions = vec![in alloc; Reception::NONE; script.streams.len()]?;
    for host in hosts.iter() {
        if let Some(connections) = &host.owner.connections {
            note_receivers(script, connections.receivers(), &mut receptions);
        }
    }
    Ok(receptions)
}

/// Notes what a host's receivers read.
fn note_receivers(script: &Script, receivers: &[Receiver], receptions: &mut Vec<Reception>) {
    for receiver in receivers.iter().rev() {
        if let Some(number) = stream_of(script, receiver)
            && let Some(reception) = receptions.get_mut(number)
        {
            *reception = Reception::of(receiver);
        }
    }
}

/// The number of the stream that a receiver got, if it is one of the script.
fn stream_of(script: &Script, receiver: &Receiver) -> Option<usize> {
    let number = usize::from(receiver.endpoints.remote_port.checked_sub(FIRST_PORT)?);
    let stream = script.streams.get(number)?;
    if reversed(&ends_of(stream, number)) == receiver.endpoints {
        Some(number)
    } else {
        None
    }
}

/// Prints how many octets were sent and received, whether they were the right ones, and how many segments were sent again.
fn print_counts<W: Write>(
    output: &mut W,
    sender: &Sender,
    reception: &Reception,
    again: u64,
) -> Result<()> {
    let (written, received) = (sender.written, reception.received);
    write!(output, "{written} octets sent, {received} received, ")?;
    match reception.wrong {
        Some(place) => writeln!(output, "octet {place} wrong, {again} segments sent again")?,
        None => writeln!(output, "none wrong, {again} segments sent again")?,
    }
    Ok(())
}

/// Prints when a stream began and ended, and how fast it was, or how it failed.
fn print_course<W: Write>(
    output: &mut W,
    stream: &Stream,
    sender: &Sender,
    reception: &Reception,
) -> Result<()> {
    if let Some(end) = reception.ended_at {
        print_end(output, stream.start, end, reception.received)?;
    }
    match sender.stage {
        Stage::Waits => print_line(output, "not begun"),
        Stage::Unopened(_) => print_failure(output, stream.start, "not opened"),
        Stage::Failed(ending, time) => print_ending(output, stream.start, ending, time),
        Stage::Writes(_) | Stage::Closed(_) | Stage::Done if reception.ended_at.is_none() => {
            print_failure(output, stream.start, "not ended")
        }
        Stage::Writes(_) | Stage::Closed(_) | Stage::Done => Ok(()),
    }
}

/// Prints when a stream began and ended, and how fast it was.
fn print_end<W: Write>(output: &mut W, begin: u64, end: u64, octets: u64) -> Result<()> {
    let took = end.saturating_sub(begin);
    let rate = rate_of(octets, took);
    let (begin, end) = (Time(begin), Time(end));
    writeln!(
        output,
        "     from {begin} to {end}: {took} us, {rate} octets a second"
    )?;
    Ok(())
}

/// Prints how a stream that began failed.
fn print_failure<W: Write>(output: &mut W, begin: u64, how: &str) -> Result<()> {
    let begin = Time(begin);
    writeln!(output, "     from {begin}: {how}")?;
    Ok(())
}

/// Prints how the connection of a stream ended early, and when.
fn print_ending<W: Write>(output: &mut W, begin: u64, ending: Ending, time: u64) -> Result<()> {
    let (begin, how, time) = (Time(begin), text_of(ending), Time(time));
    writeln!(output, "     from {begin}: {how} at {time}")?;
    Ok(())
}

/// Prints what is said of a stream that never began.
fn print_line<W: Write>(output: &mut W, what: &str) -> Result<()> {
    writeln!(output, "     {what}")?;
    Ok(())
}

/// How many octets a second it is, if so many take so many microseconds, of which 0 count as 1.
fn rate_of(octets: u64, micros: u64) -> u64 {
    let rate = u128::from(octets).saturating_mul(1_000_000) / u128::from(micros).max(1);
    u64::try_from(rate).unwrap_or(u64::MAX)
}

/// How a connection ended early.
fn text_of(ending: Ending) -> &'static str {
    match ending {
        Ending::ByPeer => "reset by the peer",
        Ending::Refused => "refused",
        Ending::TimedOut => "given up",
        Ending::Aborted => "aborted",
        Ending::Unreachable => "unreachable",
    }
}
