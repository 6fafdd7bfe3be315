//! Measures a host: has it do one thing over and over, and prints what it sent and read.
//!
//! The first argument says what: `receive` a frame, `deliver` one to a socket, deliver one to a queue that is nearly
//! `full`, `send` a datagram, or send it by a `route`; receive a `packet` on a medium without hardware addresses;
//! `poll` with nothing to do, or ask when to poll again (`at`). Three frames in a row on one line are `fragments` of a
//! datagram for the socket, or of a request that is answered in three fragments (`pieces`). What is sent may be
//! fragmented into three (`cut`), and each fragment received by another host, whose socket gets the datagram (`link`).
//! The second argument says how many times; a third, if given, how many sockets the host has, and with any fourth it
//! uses IPv6. The host is polled once before all, as any program polls. The first line of standard input is a frame in
//! hex that is received once before, and the second the frame that is received or the payload that is sent over and
//! over. `docs/PERFORMANCE.md` says how to count instructions with it.
#![tactic(auto)]

mod host;
mod link;

use crate::host::BenchHost;
use crate::link::Link;
use anyhow::{Context, Result, bail};
use ip_wire::IpVersion;
use net_base::phy::Medium;
use std::alloc::Global;
use std::env;
use std::io::Print;

/// Does it `rounds` times. Returns how many octets were read from the host's socket, or the peer's.
fn run(
    host: &mut BenchHost,
    peer: &mut BenchHost,
    work: &str,
    rounds: u64,
    octets: Vec<u8>,
) -> Result<u64> {
    match work {
        "receive" | "packet" | "deliver" | "full" | "poll" => {
            host.link.load(octets);
            take_in(host, work, rounds)
        }
        "link" => Ok(send_over_link(host, peer, rounds, &octets)),
        _ => hand_over(host, work, rounds, &octets),
    }
}

/// What is done with the frame that the link delivers.
fn take_in(host: &mut BenchHost, work: &str, rounds: u64) -> Result<u64> {
    match work {
        "deliver" => Ok(deliver(host, rounds)),
        "full" => {
            receive(host, 3);
            Ok(deliver(host, rounds))
        }
        "poll" => Ok(poll(host, rounds)),
        _ => Ok(receive(host, rounds)),
    }
}

/// What is done with octets that are handed over, or without any.
fn hand_over(host: &mut BenchHost, work: &str, rounds: u64, octets: &[u8]) -> Result<u64> {
    match work {
        "send" => Ok(send(host, rounds, octets)),
        "route" => {
            host.add_routes()?;
            Ok(send_far(host, rounds, octets))
        }
        "fragments" => Ok(receive_fragments(host, rounds, octets)),
        "pieces" => Ok(answer_in_pieces(host, rounds, octets)),
        "cut" => Ok(send_in_pieces(host, rounds, octets)),
        "at" => Ok(ask_when(host, rounds)),
        _ => bail!(
            "receive, deliver, full, send, route, packet, fragments, pieces, cut, link, poll or at?"
        ),
    }
}

/// Receives a frame; nothing is read.
fn receive(host: &mut BenchHost, rounds: u64) -> u64 {
    for _ in 0..rounds {
        host.receive();
    }
    0
}

/// Delivers a frame to a socket.
fn deliver(host: &mut BenchHost, rounds: u64) -> u64 {
    let mut read = 0u64;
    for _ in 0..rounds {
        read = read.wrapping_add(host.deliver() as u64);
    }
    read
}

/// Polls; nothing is read.
fn poll(host: &mut BenchHost, rounds: u64) -> u64 {
    for _ in 0..rounds {
        host.poll();
    }
    0
}

/// Sends a datagram; nothing is read.
fn send(host: &mut BenchHost, rounds: u64, octets: &[u8]) -> u64 {
    for _ in 0..rounds {
        host.send(octets);
    }
    0
}

/// Sends a datagram by a route; nothing is read.
fn send_far(host: &mut BenchHost, rounds: u64, octets: &[u8]) -> u64 {
    for _ in 0..rounds {
        host.send_far(octets);
    }
    0
}

/// Receives a datagram in three fragments.
fn receive_fragments(host: &mut BenchHost, rounds: u64, octets: &[u8]) -> u64 {
    let mut read = 0u64;
    for _ in 0..rounds {
        host.receive_three(octets);
        read = read.wrapping_add(host.read() as u64);
    }
    read
}

/// Answers a request in three fragments; nothing is read.
fn answer_in_pieces(host: &mut BenchHost, rounds: u64, octets: &[u8]) -> u64 {
    for _ in 0..rounds {
        host.receive_three(octets);
        host.send_two_pieces();
    }
    0
}

/// Sends a datagram in three fragments; nothing is read.
fn send_in_pieces(host: &mut BenchHost, rounds: u64, octets: &[u8]) -> u64 {
    for _ in 0..rounds {
        host.send(octets);
        host.send_two_pieces();
    }
    0
}

/// Sends a datagram in three fragments to another host, which reads it.
fn send_over_link(host: &mut BenchHost, peer: &mut BenchHost, rounds: u64, octets: &[u8]) -> u64 {
    let mut read = 0u64;
    for _ in 0..rounds {
        host.send(octets);
        peer.receive_last(&host.link);
        for _ in 0..2 {
            host.send_piece();
            peer.receive_last(&host.link);
        }
        read = read.wrapping_add(peer.read() as u64);
    }
    read
}

/// Asks when to poll again. Returns how often there was such an instant.
fn ask_when(host: &mut BenchHost, rounds: u64) -> u64 {
    let mut read = 0u64;
    for _ in 0..rounds {
        read = read.wrapping_add(u64::from(host.poll_at()));
    }
    read
}

/// What the arguments ask for.
#[derive(Drop)]
struct Asked {
    work: String,
    rounds: u64,
    sockets: u64,
    version: IpVersion,
    medium: Medium,
}

/// Reads the arguments.
fn read_arguments(rt: &HostRuntime) -> Result<Asked> {
    let mut args = env::args(rt)?;
    let work = args.nth(1).context("what is to be done?")?;
    let rounds = args.next().context("how many times?")?.parse::<u64>()?;
    let sockets = match args.next() {
        Some(count) => count.parse::<u64>()?,
        None => 1,
    };
    let version = match args.next() {
        Some(_) => IpVersion::Ipv6,
        None => IpVersion::Ipv4,
    };
    Ok(Asked {
        medium: medium_of(work.as_str()),
        work,
        rounds,
        sockets,
        version,
    })
}

/// The medium on which something is done.
fn medium_of(work: &str) -> Medium {
    match work {
        "packet" => Medium::Ip,
        _ => Medium::Ethernet,
    }
}

/// Reads a line of hex digits.
fn octets_of_line(rt: &HostRuntime) -> Result<Vec<u8>> {
    let mut digits = String::new(rt.alloc());
    rt.read_line(&mut digits)?;
    Ok(hex::decode(rt.alloc(), digits.as_str().trim())?)
}

/// What the host sent and read.
#[derive(Drop)]
struct Measured {
    read: u64,
    frames: u64,
    octets: u64,
    last: String,
}

/// Has a host do what is asked for, after a frame that it receives first.
fn measure(alloc: Global, asked: &Asked, first: Vec<u8>, octets: Vec<u8>) -> Result<Measured> {
    let mut host = BenchHost::new(alloc, asked.sockets, asked.medium, asked.version)?;
    let mut peer = BenchHost::peer(alloc)?;
    begin(&mut host, first);
    let read = run(
        &mut host,
        &mut peer,
        asked.work.as_str(),
        asked.rounds,
        octets,
    )?;
    figures_of(alloc, &host.link, read)
}

/// Has a host be polled, and receive its first frame.
fn begin(host: &mut BenchHost, first: Vec<u8>) {
    host.poll();
    host.link.load(first);
    host.receive();
}

/// What was sent over a link, and read.
fn figures_of(alloc: Global, link: &Link, read: u64) -> Result<Measured> {
    Ok(Measured {
        read,
        frames: link.frames_sent(),
        octets: link.octets_sent(),
        last: hex::encode(alloc, link.last())?,
    })
}

fn main(rt: HostRuntime) -> Result<()> {
    let asked = read_arguments(&rt)?;
    let first = octets_of_line(&rt)?;
    let octets = octets_of_line(&rt)?;
    let figures = measure(rt.alloc(), &asked, first, octets)?;
    print(&rt, &figures)
}

/// Prints what the host sent and read.
fn print(rt: &impl Print, all: &Measured) -> Result<()> {
    println!(rt;
        "sent {} frames, {} octets; read {} octets",
        all.frames, all.octets, all.read
    )?;
    println!(rt; "{}", all.last.as_str())?;
    Ok(())
}
