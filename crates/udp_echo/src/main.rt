//! `udp_echo` is a host at 192.168.69.1 that sends back each datagram that comes to its port 7 (RFC 862). It reads frames in
//! hexadecimal from standard input, one a line. It runs them through a device in memory, and prints the frames sent; then
//! through the driver of a card with rings of descriptors, and prints them again; and then through that driver while it is
//! traced, and prints all events, too.
#![tactic(auto)]

mod card;
mod echo;
mod link;

use anyhow::Result;
use card::Card;
use echo::Echo;
use link::Link;
use net_base::MemoryDevice;
use net_base::phy::{DriverDevice, TracedEvent, Tracer};
use std::alloc::Global;
use std::io::{Eprint, Print};

fn main(rt: HostRuntime) -> Result<()> {
    let alloc = rt.alloc();
    let frames = read_frames(&rt)?;
    serve(&rt, alloc, &mut link::in_memory(alloc), &frames)?;
    serve(
        &rt,
        alloc,
        &mut DriverDevice::new(Card::new(alloc)?),
        &frames,
    )?;
    serve_traced(&rt, alloc, &frames)
}

/// Reads frames in hexadecimal, one a line.
fn read_frames(rt: &HostRuntime) -> Result<Vec<Vec<u8>>> {
    let mut frames = Vec::new(rt.alloc());
    for line in rt.lines(rt.alloc()) {
        frames.push(hex::decode(rt.alloc(), line?.as_str())?)?;
    }
    Ok(frames)
}

/// Runs frames through a host over a link, and prints those that it sends.
fn serve<L: Link, R: Print + Eprint>(
    rt: &R,
    alloc: Global,
    link: &mut L,
    frames: &[Vec<u8>],
) -> Result<()> {
    let mut echo = Echo::new(alloc, link)?;
    for frame in frames {
        take_frame(rt, alloc, &mut echo, link, frame)?;
    }
    Ok(())
}

/// Takes a frame, sends back what came in it, and prints the frames sent.
fn take_frame<L: Link, R: Print + Eprint>(
    rt: &R,
    alloc: Global,
    echo: &mut Echo,
    link: &mut L,
    frame: &[u8],
) -> Result<()> {
    link.put(frame)?;
    echo.serve(rt, alloc, link)?;
    print_frames(rt, alloc, &link.sent(alloc)?)
}

/// Prints frames.
fn print_frames(rt: &impl Print, alloc: Global, frames: &[Vec<u8>]) -> Result<()> {
    for frame in frames {
        println!(rt; "{}", hex::encode(alloc, frame)?)?;
    }
    Ok(())
}

/// Runs frames through a host over a card that is traced, and prints those that it sends, and then all events.
fn serve_traced<R: Print + Eprint>(rt: &R, alloc: Global, frames: &[Vec<u8>]) -> Result<()> {
    let mut traced = Tracer::new(alloc, DriverDevice::new(Card::new(alloc)?));
    serve(rt, alloc, &mut traced, frames)?;
    print_events(rt, alloc, traced.log.as_slice())
}

/// Prints events.
fn print_events(rt: &impl Print, alloc: Global, events: &[TracedEvent]) -> Result<()> {
    for event in events {
        print_event(rt, alloc, event)?;
    }
    Ok(())
}

/// Prints an event: its moment in microseconds, and what it was.
fn print_event(rt: &impl Print, alloc: Global, event: &TracedEvent) -> Result<()> {
    match event {
        TracedEvent::Frame(now, frame) => {
            println!(rt;
                "{} received {}",
                now.total_micros(),
                hex::encode(alloc, frame)?
            )?
        }
        TracedEvent::NoFrame(now) => println!(rt; "{} received nothing", now.total_micros())?,
        TracedEvent::Withheld(now) => println!(rt; "{} withheld", now.total_micros())?,
        TracedEvent::Asked(now, true) => println!(rt; "{} may send", now.total_micros())?,
        TracedEvent::Asked(now, false) => println!(rt; "{} may not send", now.total_micros())?,
        TracedEvent::Sent(_, frame) => println!(rt; "sent {}", hex::encode(alloc, frame)?)?,
    }
    Ok(())
}
