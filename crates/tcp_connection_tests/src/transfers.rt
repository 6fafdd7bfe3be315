//! Octets over a wire that loses, repeats and reorders: what was read is what was written.
use crate::ends::{MSS, Packet, SETTINGS, arrive, segment_of, send, send_one, unopened};
use std::alloc::{AllocError, Global};
use std::collections::VecDeque;
use tcp_connection::connection::Connection;
use tcp_machine::settings::Settings;
use tcp_machine::state::State;
use tcp_machine::timers::Ending;

/// Of so many segments one is lost, one arrives twice, and one is overtaken by those after it. With 0 none is.
#[derive(Clone, Copy, Debug)]
struct Weather {
    lost: u64,
    twice: u64,
    late: u64,
}

const FINE: Weather = Weather {
    lost: 0,
    twice: 0,
    late: 0,
};

/// A direction: the segments on their way, and how many there have been.
#[derive(Drop)]
struct Wire {
    packets: VecDeque<Packet>,
    count: u64,
    weather: Weather,
}

/// Whether the segment of this number is one of so many.
fn is_hit(count: u64, every: u64) -> bool {
    every != 0 && count % every == every / 2
}

/// What is on its way arrives, or is lost, or stays on its way.
fn deliver(wire: &mut Wire, to: &mut Connection, now: u64) -> Result<(), AllocError> {
    for _ in 0..wire.packets.len() {
        let Some(packet) = wire.packets.pop_front() else {
            return Ok(());
        };
        wire.count = wire.count.wrapping_add(1);
        if is_hit(wire.count, wire.weather.lost) {
            continue;
        }
        if is_hit(wire.count, wire.weather.late) {
            wire.packets.push_back(packet)?;
            continue;
        }
        arrive(to, now, &packet);
        if is_hit(wire.count, wire.weather.twice) {
            arrive(to, now, &packet);
        }
    }
    Ok(())
}

/// One side: its connection, what its program still has to write, and what it has read.
#[derive(Drop)]
struct Side {
    connection: Connection,
    written: Vec<u8>,
    count: usize,
    read: Vec<u8>,
}

/// The program writes what has room, reads what is there unless it is busy, and closes once all is written, or once the peer has
/// closed, too.
fn work(side: &mut Side, closes_last: bool, is_busy: bool) -> Result<(), AllocError> {
    if side.count < side.written.len() {
        let count = side.connection.write(&side.written[side.count..]);
        side.count = side.count.saturating_add(count);
    }
    if !is_busy {
        side.read.extend_from_slice(side.connection.peek())?;
        let len = side.connection.recv_queue();
        let _ = side.connection.consume(len);
    }
    let closes_in = if closes_last {
        State::CloseWait
    } else {
        State::Established
    };
    if side.connection.state() == closes_in && side.count >= side.written.len() {
        side.connection.close();
    }
    Ok(())
}

/// Both sides, and what is on its way to each.
#[derive(Drop)]
struct Network {
    a: Side,
    b: Side,
    to_a: Wire,
    to_b: Wire,
}

/// One round of both sides, at an instant.
fn round(alloc: Global, network: &mut Network, now: u64, is_busy: bool) -> Result<(), AllocError> {
    work(&mut network.a, false, is_busy)?;
    work(&mut network.b, true, is_busy)?;
    network.a.connection.expire(now);
    network.b.connection.expire(now);
    exchange(alloc, network, now)
}

/// Both send what they have, and what is on its way arrives.
fn exchange(alloc: Global, network: &mut Network, now: u64) -> Result<(), AllocError> {
    send(
        alloc,
        &mut network.a.connection,
        now,
        &mut network.to_b.packets,
    )?;
    send(
        alloc,
        &mut network.b.connection,
        now,
        &mut network.to_a.packets,
    )?;
    deliver(&mut network.to_b, &mut network.b.connection, now)?;
    deliver(&mut network.to_a, &mut network.a.connection, now)
}

/// So many octets, of which each has another value than those near it.
fn pattern(alloc: Global, len: usize, seed: u8) -> Result<Vec<u8>, AllocError> {
    let mut octets = Vec::new(alloc);
    for i in 0..len {
        octets.push(((i % 251) as u8) ^ seed)?;
    }
    Ok(octets)
}

fn make_side(alloc: Global, len: usize, seed: u8) -> Result<Side, AllocError> {
    let connection = unopened(alloc)?;
    let written = pattern(alloc, len, seed)?;
    Ok(Side {
        connection,
        written,
        count: 0,
        read: Vec::new(alloc),
    })
}

fn make_wire(alloc: Global, weather: Weather) -> Wire {
    Wire {
        packets: VecDeque::new(alloc),
        count: 0,
        weather,
    }
}

/// Two sides that have so many octets to write.
fn make_network(
    alloc: Global,
    sizes: (usize, usize),
    weather: Weather,
) -> Result<Network, AllocError> {
    let a = make_side(alloc, sizes.0, 0x55)?;
    let b = make_side(alloc, sizes.1, 0x00)?;
    Ok(Network {
        a,
        b,
        to_a: make_wire(alloc, weather),
        to_b: make_wire(alloc, weather),
    })
}

/// Whether each side has read what the other has written, and the connection ended in order: A closed first.
fn is_done(a: &Side, b: &Side) -> bool {
    a.read == b.written
        && b.read == a.written
        && a.connection.state() == State::TimeWait
        && b.connection.state() == State::Closed
        && a.connection.ending().is_none()
        && b.connection.ending().is_none()
}

/// Opens a connection, of which the first two segments arrive.
fn open(a: &mut Connection, b: &mut Connection) {
    a.open(0, 0xffff_f000, MSS, &SETTINGS);
    if let Some(header) = send_one(a, 0) {
        b.accept(0, 0x7fff_ff00, 536, MSS, &SETTINGS, &segment_of(&header));
    }
}

/// Runs it, a round each 5 ms, and returns the number of rounds until all is done. The programs read nothing before a
/// round.
fn run(alloc: Global, network: &mut Network, reads_from: u64) -> Result<u64, AllocError> {
    open(&mut network.a.connection, &mut network.b.connection);
    for i in 0..60_000u64 {
        round(alloc, network, i * 5_000, i < reads_from)?;
        if is_done(&network.a, &network.b) {
            return Ok(i);
        }
    }
    Ok(u64::MAX)
}

/// The number of rounds of a new connection, or `None` if memory is refused.
fn rounds_of(
    alloc: Global,
    sizes: (usize, usize),
    weather: Weather,
    reads_from: u64,
) -> Option<u64> {
    let mut network = make_network(alloc, sizes, weather).ok()?;
    run(alloc, &mut network, reads_from).ok()
}

/// Whether what was written is read in less than five minutes, in any weather.
fn is_read(alloc: Global, sizes: (usize, usize)) -> bool {
    for weather in &WEATHERS {
        match rounds_of(alloc, sizes, *weather, 0) {
            Some(rounds) if rounds < 60_000 => {}
            _ => return false,
        }
    }
    true
}

const WEATHERS: [Weather; 5] = [
    FINE,
    Weather { lost: 5, ..FINE },
    Weather { twice: 3, ..FINE },
    Weather { late: 4, ..FINE },
    Weather {
        lost: 7,
        twice: 5,
        late: 3,
    },
];

const SIZES: [(usize, usize); 5] = [(0, 0), (1, 0), (0, 700), (6_000, 0), (5_000, 3_000)];

/// The numbers wrap within the first 4,096 octets of A and within the first 256 of B's half of the numbers.
#[test]
fn what_was_read_is_what_was_written(rt: HostRuntime) {
    for sizes in &SIZES {
        assert!(&rt; is_read(rt.alloc(), *sizes), "{sizes:?}");
    }
}

/// Whether it takes more than twenty seconds, and less than five minutes, where nobody reads for twenty.
fn is_read_late(alloc: Global, weather: Weather) -> bool {
    match rounds_of(alloc, (3_000, 2_500), weather, 4_000) {
        Some(rounds) => 4_000 < rounds && rounds < 60_000,
        None => false,
    }
}

/// Nobody reads for 20 s, so both windows close. Then both are opened, and the word of that may be lost.
#[test]
fn a_closed_window_is_probed(rt: HostRuntime) {
    for lost in [0, 4] {
        assert!(&rt;
            is_read_late(rt.alloc(), Weather { lost, ..FINE }),
            "{lost}"
        );
    }
}

/// Sends what is due until the connection is given up, and gives the last moment and the number of segments.
fn given_up(from: &mut Connection) -> (u64, u64) {
    let mut now = 0;
    let mut count = 0u64;
    for _ in 0..100 {
        let Some(due) = from.due_at(now) else {
            break;
        };
        now = due;
        from.expire(now);
        count = count.saturating_add(count_sent(from, now));
    }
    (now, count)
}

/// How many segments are sent now.
fn count_sent(from: &mut Connection, now: u64) -> u64 {
    for count in 0..10 {
        if send_one(from, now).is_none() {
            return count;
        }
    }
    10
}

/// Whether a connection is given up after three minutes, if there is memory for it.
fn gives_up(alloc: Global) -> bool {
    let Ok(mut a) = unopened(alloc) else {
        return false;
    };
    a.open(0, 100, MSS, &SETTINGS);
    let (now, count) = given_up(&mut a);
    let is_given_up = a.state() == State::Closed && a.ending() == Some(Ending::TimedOut);
    is_given_up && 180_000_000 <= now && 3 <= count && count <= 13
}

/// Whether a connection ends after exactly ten seconds, where its program set such a time-out (RFC 9293 3.8.3).
fn times_out(alloc: Global) -> bool {
    let Ok(mut a) = unopened(alloc) else {
        return false;
    };
    let timeout = Some(10_000_000);
    a.open(
        0,
        100,
        MSS,
        &Settings {
            timeout,
            ..SETTINGS
        },
    );
    let (now, count) = given_up(&mut a);
    let has_ended = a.state() == State::Closed && a.ending() == Some(Ending::TimedOut);
    has_ended && now == 10_000_000 && count == 4
}

/// Nothing arrives for ten seconds: the SYN is sent after 0, 1, 3 and 7 s.
#[test]
fn ten_seconds_are_ten(rt: HostRuntime) {
    assert!(rt; times_out(rt.alloc()));
}

/// Nothing arrives: the SYN is sent again for at least three minutes (RFC 9293 3.8.3), and then the connection is given up.
#[test]
fn nobody_answers(rt: HostRuntime) {
    assert!(rt; gives_up(rt.alloc()));
}
