//! `http_hello` is a host at 192.168.69.7 and fd69::7 that has one page at port 80, by HTTP/1.1 (RFC 9110, RFC 9112).
//! It reads lines of standard input, each a moment in microseconds and maybe a frame in hexadecimal that comes then. It prints
//! the frames that it sends, and when it wants to be told the moment next; and at first, on standard error, where it listens. Its arguments, if any, are how many connections it
//! may have at once, and how many octets each may hold.
#![tactic(auto)]

mod answer;
mod pages;

use anyhow::Result;
use line_host::host::LineHost;
use line_host::limits::Limits;
use line_host::line::Line;
use pages::Pages;
use std::alloc::Global;
use std::io::{BufRead, BufReader, BufWriter, Write};

fn main(rt: HostRuntime) -> Result<()> {
    let limits = Limits::of_arguments(&rt)?;
    let mut host = LineHost::new(rt.alloc(), &limits)?;
    let mut pages = Pages::new(rt.alloc(), &limits, &mut host.streams)?;
    writeln!(rt.stderr(), "listens at 192.168.69.7 and fd69::7, port 80")?;
    serve(&rt, &mut host, &mut pages)
}

/// Takes the lines of standard input, one after another.
fn serve(rt: &HostRuntime, host: &mut LineHost, pages: &mut Pages) -> Result<()> {
    let alloc = rt.alloc();
    let mut output = BufWriter::new(alloc, rt.stdout())?;
    let input = BufReader::new(alloc, rt.reader())?;
    for text in input.lines(alloc) {
        take_line(alloc, text?.as_str(), host, pages, &mut output)?;
    }
    Ok(())
}

/// Takes a line, lets the service serve, and writes what the host sends.
fn take_line<W: Write + Drop>(
    alloc: Global,
    text: &str,
    host: &mut LineHost,
    pages: &mut Pages,
    output: &mut W,
) -> Result<()> {
    let line = Line::read(alloc, text)?;
    host.receive(&line);
    pages.serve(&mut host.streams)?;
    host.send(line.micros);
    host.write(alloc, line.micros, output)?;
    Ok(())
}
