//! `tcp_echo` is a host at 192.168.69.7 and fd69::7 that sends back what comes by connections to its port 7 (RFC 862).
//! It reads lines of standard input, each a moment in microseconds and maybe a frame in hexadecimal that comes then. It prints
//! the frames that it sends, and when it wants to be told the moment next. Its arguments, if any, are how many connections it
//! may have at once, and how many octets each may hold.
#![tactic(auto)]

mod echo;

use anyhow::Result;
use echo::Echo;
use line_host::host::LineHost;
use line_host::limits::Limits;
use line_host::line::Line;
use std::alloc::Global;
use std::io::{BufRead, BufReader, BufWriter, Write};

fn main(rt: HostRuntime) -> Result<()> {
    let limits = Limits::of_arguments(&rt)?;
    let mut host = LineHost::new(rt.alloc(), &limits)?;
    let mut echo = Echo::new(rt.alloc(), &limits, &mut host.streams)?;
    serve(&rt, &mut host, &mut echo)
}

/// Takes the lines of standard input, one after another.
fn serve(rt: &HostRuntime, host: &mut LineHost, echo: &mut Echo) -> Result<()> {
    let alloc = rt.alloc();
    let mut output = BufWriter::new(alloc, rt.stdout())?;
    let input = BufReader::new(alloc, rt.reader())?;
    for text in input.lines(alloc) {
        take_line(alloc, text?.as_str(), host, echo, &mut output)?;
    }
    Ok(())
}

/// Takes a line, lets the service serve, and writes what the host sends.
fn take_line<W: Write + Drop>(
    alloc: Global,
    text: &str,
    host: &mut LineHost,
    echo: &mut Echo,
    output: &mut W,
) -> Result<()> {
    let line = Line::read(alloc, text)?;
    host.receive(&line);
    echo.serve(&mut host.streams)?;
    host.send(line.micros);
    host.write(alloc, line.micros, output)?;
    Ok(())
}
