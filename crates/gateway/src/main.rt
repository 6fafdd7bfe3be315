//! `gateway` hands packets of IPv4 from one link to another (RFC 1812): 10.1.0.1/24 on link 1, 10.2.0.1/24 on link 2, and by the
//! router 10.2.0.9 to 10.3.0.0/16. It reads from standard input, a line each, a link, a time in milliseconds, and maybe a frame
//! in hexadecimal that comes there then. It prints the frames that it sends, each behind its link.
#![tactic(auto)]

ghost use Rattle.net_base.specs.Time.{IsMoment};

mod error;
mod link;
mod transit;

use anyhow::{Context, Result, bail};
use error::GatewayError;
use ip_wire::{EthernetAddress, EthernetProtocol, EthernetRepr, Ipv4Address, Ipv4Cidr};
use link::{Link, settle};
use net_base::time::Instant;
use std::alloc::Global;
use std::io::Print;
use transit::{Packet, is_forwardable};

fn main(rt: HostRuntime) -> Result<()> {
    let alloc = rt.alloc();
    let one = Ipv4Address::new(10, 1, 0, 1);
    let two = Ipv4Address::new(10, 2, 0, 1);
    let mut near = Link::new(alloc, 1, Ipv4Cidr::new(one, 24), two)?;
    let mut far = Link::new(alloc, 2, Ipv4Cidr::new(two, 24), one)?;
    far.add_route(
        Ipv4Cidr::new(Ipv4Address::new(10, 3, 0, 0), 16),
        Ipv4Address::new(10, 2, 0, 9),
    );
    serve(&rt, &mut near, &mut far)
}

/// Takes the lines of standard input, one after another.
fn serve(rt: &HostRuntime, near: &mut Link, far: &mut Link) -> Result<()> {
    for line in rt.lines(rt.alloc()) {
        take_line(rt, line?.as_str(), near, far)?;
    }
    Ok(())
}

/// Takes a line: its frame comes, and what is due then is sent and printed.
fn take_line(rt: &HostRuntime, line: &str, near: &mut Link, far: &mut Link) -> Result<()> {
    let line = Line::read(rt.alloc(), line)?;
    receive(rt.alloc(), &line, near, far)?;
    send(line.now, near, far)?;
    print(rt, rt.alloc(), 1, &near.take_sent())?;
    print(rt, rt.alloc(), 2, &far.take_sent())
}

/// The frame of a line, if it has one, comes on its link.
fn receive(alloc: Global, line: &Line, near: &mut Link, far: &mut Link) -> Result<()> {
    match &line.frame {
        Some(frame) if line.is_far => take(alloc, far, near, line.now, frame),
        Some(frame) => take(alloc, near, far, line.now, frame),
        None => Ok(()),
    }
}

/// Sends what is due at a moment.
fn send(now: Instant, near: &mut Link, far: &mut Link) -> Result<()>
    requires { IsMoment now }
{
    settle(near, far, now)?;
    settle(far, near, now)?;
    near.poll(now)?;
    far.poll(now)
}

/// What a line tells: a moment, and maybe a frame that comes then on one of the links.
#[derive(Drop)]
struct Line {
    is_far: bool,
    now: Instant,
    frame: Option<Vec<u8>>,
    ghost timely: { IsMoment now },
}

impl Line {
    /// Reads `LINK MILLISECONDS` or `LINK MILLISECONDS FRAME`. The link is looked at only if there is a frame.
    fn read(alloc: Global, text: &str) -> Result<Line> {
        let mut words = text.split_whitespace();
        let link = words.next().context("a link is missing")?;
        let now = moment_of(words.next().context("a time is missing")?.parse()?);
        let frame = frame_in(alloc, words.next())?;
        let is_far = match link {
            "1" => false,
            "2" => true,
            _ if frame.is_none() => false,
            _ => bail!("a link is 1 or 2"),
        };
        Ok(Line { is_far, now, frame })
    }
}

/// The frame of a word in hexadecimal, if there is a word.
fn frame_in(alloc: Global, word: Option<&str>) -> Result<Option<Vec<u8>>> {
    match word {
        Some(word) => Ok(Some(hex::decode(alloc, word)?)),
        None => Ok(None),
    }
}

/// The moment after so many milliseconds.
fn moment_of(millis: u32) -> Instant
    ensures { IsMoment result }
{
    Instant::from_micros(i64::from(millis) * 1_000)
}

/// Prints the frames that a link sent.
fn print(rt: &impl Print, alloc: Global, number: u8, frames: &[Vec<u8>]) -> Result<()> {
    for frame in frames {
        println!(rt; "{number} {}", hex::encode(alloc, frame)?)?;
    }
    Ok(())
}

/// Takes a frame that came from a link: a packet to another host beyond it is forwarded. All else is for its interface.
fn take(alloc: Global, came: &mut Link, other: &mut Link, now: Instant, frame: &[u8]) -> Result<()>
    requires { IsMoment now }
{
    if let Some(packet) = packet_to(came.hardware(), frame) {
        let to = packet.repr.dst_addr;
        let is_here = came.is_own(to) || came.is_end(to) || other.is_end(to);
        if is_forwardable(to) && !is_here {
            return forward(alloc, came, other, now, &packet);
        }
    }
    came.receive(now, frame);
    Ok(())
}

/// The packet of IPv4 that a frame to a hardware address has, if it has a whole one.
fn packet_to(hardware: EthernetAddress, frame: &[u8]) -> Option<Packet<'_>> {
    let (header, octets) = EthernetRepr::parse(frame)?;
    if header.ethertype == EthernetProtocol::Ipv4 && header.dst_addr == hardware {
        Packet::read(octets)
    } else {
        None
    }
}

/// Forwards a packet that came from a link, or drops it, with an error where one is due.
fn forward(
    alloc: Global,
    came: &mut Link,
    other: &mut Link,
    now: Instant,
    packet: &Packet<'_>,
) -> Result<()>
    requires { IsMoment now }
{
    if !is_from(came, other, packet.repr.src_addr) || packet.has_source_route() {
        return Ok(());
    }
    match side_of(came, other, packet.repr.dst_addr) {
        None => came.tell(now, GatewayError::NoRoute, packet),
        Some(_) if packet.repr.hop_limit <= 1 => came.tell(now, GatewayError::Expired, packet),
        Some(Side::Here(hop)) => return came.send(now, hop, packet.lowered(alloc)?, true),
        Some(Side::There(hop)) => return other.send(now, hop, packet.lowered(alloc)?, false),
    }
    Ok(())
}

/// Whether a packet with this source may come from a link: one host's address, which that link leads to, and no own one (RFC 1812
/// 5.3.7, 5.3.8; RFC 2827).
fn is_from(came: &Link, other: &Link, source: Ipv4Address) -> bool {
    let is_one_host = is_forwardable(source) && !came.is_own(source) && !came.is_end(source);
    is_one_host && matches!(side_of(came, other, source), Some(Side::Here(_)))
}

/// By which link a packet goes on, and its next hop there.
#[derive(Clone, Copy)]
enum Side {
    /// The link that it came from.
    Here(Ipv4Address),
    /// The other one.
    There(Ipv4Address),
}

/// The side of the best way to an address, if there is one.
fn side_of(came: &Link, other: &Link, to: Ipv4Address) -> Option<Side> {
    match (came.way(to), other.way(to)) {
        (Some(here), Some(there)) if there.weight > here.weight => Some(Side::There(there.hop)),
        (Some(here), _) => Some(Side::Here(here.hop)),
        (None, Some(there)) => Some(Side::There(there.hop)),
        (None, None) => None,
    }
}
