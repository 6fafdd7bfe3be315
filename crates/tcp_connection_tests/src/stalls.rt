//! A window that is open by less than a segment, while the word of a wider one is lost. Segments have 300 octets and the
//! reader has room for 1,000, so three arrive, and 100 octets of the window stay open (RFC 9293 3.8.6.2.1).
use crate::ends::{SETTINGS, segment_of, send, send_one, unopened};
use std::alloc::{AllocError, Global};
use std::collections::VecDeque;
use tcp_connection::connection::Connection;
use tcp_connection::segment::Segment;
use tcp_machine::settings::Settings;

/// The most octets of a segment.
const SHORT: u16 = 300;

const WITHOUT_NAGLE: Settings = Settings {
    nagle: false,
    own_mss: SHORT,
    ..SETTINGS
};

/// The writer, with a ring of 5,000 octets, and the reader.
#[derive(Drop)]
struct Sides {
    writer: Connection,
    reader: Connection,
}

/// The segment, whose MSS option tells the most octets if it is a SYN.
fn with_short_mss(segment: &Segment) -> Segment {
    let mss = if segment.syn { Some(SHORT) } else { None };
    Segment { mss, ..*segment }
}

/// All that a side sends now arrives, or is lost. It returns the number of its octets.
fn carry(
    alloc: Global,
    from: &mut Connection,
    to: &mut Connection,
    now: u64,
    is_lost: bool,
) -> Result<usize, AllocError> {
    let mut wire = VecDeque::new(alloc);
    send(alloc, from, now, &mut wire)?;
    let mut count = 0usize;
    for packet in wire.iter() {
        let len = packet.octets.len();
        count = count.wrapping_add(len);
        if !is_lost && len <= 65_535 {
            let segment = with_short_mss(&packet.segment);
            to.receive(now, 536, SHORT, &segment, &packet.octets);
        }
    }
    Ok(count)
}

/// All that the writer sends now arrives. It returns the number of its octets.
fn write(alloc: Global, sides: &mut Sides, now: u64) -> Result<usize, AllocError> {
    carry(alloc, &mut sides.writer, &mut sides.reader, now, false)
}

/// All that the reader sends now arrives, or is lost. It returns the number of its octets.
fn answer(alloc: Global, sides: &mut Sides, now: u64, is_lost: bool) -> Result<usize, AllocError> {
    carry(alloc, &mut sides.reader, &mut sides.writer, now, is_lost)
}

fn unopened_sides(alloc: Global) -> Result<Sides, AllocError> {
    let writer = Connection::new(alloc, 5_000, 5_000, &WITHOUT_NAGLE)?;
    let reader = unopened(alloc)?;
    Ok(Sides { writer, reader })
}

/// The handshake.
fn shake_hands(alloc: Global, sides: &mut Sides) -> Result<(), AllocError> {
    sides.writer.open(0, 100, SHORT, &WITHOUT_NAGLE);
    if let Some(header) = send_one(&mut sides.writer, 0) {
        let syn = with_short_mss(&segment_of(&header));
        sides
            .reader
            .accept(0, 300, 536, SHORT, &WITHOUT_NAGLE, &syn);
    }
    answer(alloc, sides, 0, false)?;
    write(alloc, sides, 0)?;
    Ok(())
}

/// The writer has 4,000 octets, and nobody reads: until 500 ms both send what they have, every 20 ms.
fn fill(alloc: Global, sides: &mut Sides) -> Result<(), AllocError> {
    shake_hands(alloc, sides)?;
    sides.writer.write(&[7; 4_000]);
    for i in 0..25u64 {
        let now = i * 20_000;
        sides.reader.expire(now);
        sides.writer.expire(now);
        write(alloc, sides, now)?;
        answer(alloc, sides, now, false)?;
    }
    Ok(())
}

/// The reader reads at 500 ms, and the segment that tells its window is lost. After the time-out what the window has room
/// for is sent once, and its acknowledgement, 10 ms later, tells the window: three segments more go at once.
fn asks_for_a_lost_window(alloc: Global, sides: &mut Sides) -> Result<bool, AllocError> {
    fill(alloc, sides)?;
    let unread = sides.reader.recv_queue();
    sides.reader.consume(5_000);
    answer(alloc, sides, 500_000, true)?;
    let due = sides.writer.due_at(500_000);
    let asked_at = timed_out(&mut sides.writer, 500_000);
    let asked = write(alloc, sides, asked_at)?;
    let told_at = asked_at.saturating_add(10_000);
    sides.reader.expire(told_at);
    answer(alloc, sides, told_at, false)?;
    let more = write(alloc, sides, told_at)?;
    Ok(unread == 900 && due.is_some() && asked_at <= 1_500_000 && asked == 100 && more == 900)
}

/// The moment after three timers of the writer, from this one on.
fn timed_out(writer: &mut Connection, now: u64) -> u64 {
    let mut then = now;
    for _ in 0..3 {
        then = writer.due_at(then).unwrap_or(u64::MAX);
        writer.expire(then);
    }
    then
}

/// Where that segment arrives, three segments go at once, in place of a probe.
fn fills_a_told_window(alloc: Global, sides: &mut Sides) -> Result<bool, AllocError> {
    fill(alloc, sides)?;
    sides.reader.consume(5_000);
    answer(alloc, sides, 500_000, false)?;
    let more = write(alloc, sides, 500_000)?;
    Ok(more == 900 && sides.reader.recv_queue() == 900)
}

/// Whether it is so for two sides that were never opened, if there is memory for them.
fn is_lost_window_asked_for(alloc: Global) -> bool {
    match unopened_sides(alloc) {
        Ok(mut sides) => asks_for_a_lost_window(alloc, &mut sides) == Ok(true),
        Err(_) => false,
    }
}

#[test]
fn a_lost_window_is_asked_for(rt: HostRuntime) {
    assert!(rt; is_lost_window_asked_for(rt.alloc()));
}

/// The same for a window that is told.
fn is_told_window_filled(alloc: Global) -> bool {
    match unopened_sides(alloc) {
        Ok(mut sides) => fills_a_told_window(alloc, &mut sides) == Ok(true),
        Err(_) => false,
    }
}

#[test]
fn a_told_window_is_filled(rt: HostRuntime) {
    assert!(rt; is_told_window_filled(rt.alloc()));
}
