//! The figures of RFC 9293, segment by segment: lists of steps that one function plays.
use crate::ends::{MSS, SETTINGS, arrive_empty, segment_of, send_one, unopened};
use std::alloc::{AllocError, Global};
use tcp_connection::connection::Connection;
use tcp_connection::outgoing::Header;
use tcp_connection::segment::Segment;
use tcp_machine::state::State;
use tcp_machine::timers::Ending;

/// A segment as the figures write it: <SEQ=..><CTL=SYN>, <SEQ=..><ACK=..><CTL=SYN,ACK>, <SEQ=..><ACK=..><CTL=ACK>, and
/// <SEQ=..><ACK=..><CTL=FIN,ACK>; and one that none of them has, <SEQ=..><CTL=SYN,FIN>.
#[derive(Clone, Copy)]
enum Line {
    Syn(u32),
    SynAck(u32, u32),
    Ack(u32, u32),
    FinAck(u32, u32),
    SynFin(u32),
}

/// What happens at two sides, A and B, or what is so then.
#[derive(Clone, Copy)]
enum Step {
    /// A opens with this initial number, or B does.
    OpenA(u32),
    OpenB(u32),
    /// What A sends is lost, or what B sends.
    Lose(u64),
    LoseB(u64),
    /// The program of A closes, or that of B does.
    CloseA,
    CloseB,
    /// A reset with this number and acknowledgement arrives at A.
    Reset(u64, u32, Option<u32>),
    /// A segment that the other side didn't send arrives at A, or at B.
    ForgeA(u64, Line),
    ForgeB(u64, Line),
    /// The clock of A comes to this moment.
    Expire(u64),
    /// B, which listens with this initial number, gets exactly this of A.
    Accept(u32, Line),
    /// A sends exactly this, which arrives at B, or B sends it to A.
    FromA(u64, Line),
    FromB(u64, Line),
    /// Both send at once, A the first and B the second, and each arrives at the other.
    Cross(u64, Line, Line),
    /// A has nothing to send.
    IsQuiet(u64),
    /// Both send until neither has anything to send, and each segment arrives: so many.
    Ends(u64, u64),
    /// A sends exactly this, which is lost.
    Tells(u64, Line),
    /// The program of A aborts, and B gets a reset with this number.
    Abort(u64, u32),
    /// A is in this state.
    Is(State),
    /// A and B are in these states.
    Are(State, State),
    /// The connection of A has ended so, or that of B.
    EndA(Option<Ending>),
    EndB(Option<Ending>),
}

/// Two sides of a connection.
#[derive(Drop)]
struct Sides {
    a: Connection,
    b: Connection,
}

fn unopened_sides(alloc: Global) -> Result<Sides, AllocError> {
    let a = unopened(alloc)?;
    let b = unopened(alloc)?;
    Ok(Sides { a, b })
}

/// The number of a line, what it acknowledges, and whether it has SYN, and FIN.
fn values_of(line: &Line) -> (u32, Option<u32>, bool, bool) {
    match line {
        Line::Syn(seq) => (*seq, None, true, false),
        Line::SynAck(seq, ack) => (*seq, Some(*ack), true, false),
        Line::Ack(seq, ack) => (*seq, Some(*ack), false, false),
        Line::FinAck(seq, ack) => (*seq, Some(*ack), false, true),
        Line::SynFin(seq) => (*seq, None, true, true),
    }
}

/// Whether a header is that of a line. No line has RST.
fn is_line(header: &Option<Header>, line: &Line) -> bool {
    match header {
        None => false,
        Some(h) => (h.number, h.ack, h.syn, h.fin) == values_of(line) && !h.rst,
    }
}

/// A segment arrives, if one was sent.
fn arrive_sent(to: &mut Connection, now: u64, header: &Option<Header>) {
    if let Some(h) = header {
        arrive_empty(to, now, &segment_of(h));
    }
}

/// One side sends exactly this, and it arrives at the other.
fn passes(from: &mut Connection, to: &mut Connection, now: u64, line: &Line) -> bool {
    let header = send_one(from, now);
    arrive_sent(to, now, &header);
    is_line(&header, line)
}

/// Both sides send at once, exactly these, and each arrives at the other.
fn cross(sides: &mut Sides, now: u64, from_a: &Line, from_b: &Line) -> bool {
    let first = send_one(&mut sides.a, now);
    let second = send_one(&mut sides.b, now);
    arrive_sent(&mut sides.b, now, &first);
    arrive_sent(&mut sides.a, now, &second);
    is_line(&first, from_a) && is_line(&second, from_b)
}

/// B, which listens with this initial number, gets exactly this of A.
fn accepts(sides: &mut Sides, iss: u32, line: &Line) -> bool {
    let header = send_one(&mut sides.a, 0);
    if let Some(h) = &header {
        sides.b.accept(0, iss, 536, MSS, &SETTINGS, &segment_of(h));
    }
    is_line(&header, line)
}

/// The program of A aborts, and B gets a reset with this number.
fn aborts(sides: &mut Sides, now: u64, number: u32) -> bool {
    sides.a.abort();
    let header = send_one(&mut sides.a, now);
    arrive_sent(&mut sides.b, now, &header);
    header.is_some_and(|h| h.rst && h.number == number)
}

const fn reset(number: u32, ack: Option<u32>) -> Segment {
    Segment {
        number,
        ack,
        window: 0,
        syn: false,
        fin: false,
        rst: true,
        mss: None,
        scale: None,
        sack_permitted: false,
        blocks: [None; 4],
    }
}

/// What one side sends arrives at the other. It returns the number of segments.
fn pass_all(from: &mut Connection, to: &mut Connection, now: u64) -> u64 {
    for count in 0..100 {
        let header = send_one(from, now);
        if header.is_none() {
            return count;
        }
        arrive_sent(to, now, &header);
    }
    100
}

/// Both send until neither has anything to send, or a hundred times. It returns the number of segments.
fn exchanged(sides: &mut Sides, now: u64) -> u64 {
    let mut count = 0u64;
    for _ in 0..100 {
        let from_a = pass_all(&mut sides.a, &mut sides.b, now);
        let from_b = pass_all(&mut sides.b, &mut sides.a, now);
        if from_a == 0 && from_b == 0 {
            break;
        }
        count = count.saturating_add(from_a).saturating_add(from_b);
    }
    count
}

const fn segment_with(values: (u32, Option<u32>, bool, bool)) -> Segment {
    Segment {
        number: values.0,
        ack: values.1,
        window: 1_000,
        syn: values.2,
        fin: values.3,
        rst: false,
        mss: None,
        scale: None,
        sack_permitted: false,
        blocks: [None; 4],
    }
}

/// Does what a step says of a program, of the wire or of the clock.
fn happen(sides: &mut Sides, step: &Step) {
    match step {
        Step::OpenA(iss) => sides.a.open(0, *iss, MSS, &SETTINGS),
        Step::OpenB(iss) => sides.b.open(0, *iss, MSS, &SETTINGS),
        Step::CloseA => sides.a.close(),
        Step::CloseB => sides.b.close(),
        Step::Reset(now, number, ack) => arrive_empty(&mut sides.a, *now, &reset(*number, *ack)),
        Step::Expire(now) => sides.a.expire(*now),
        Step::Lose(now) => {
            let _ = send_one(&mut sides.a, *now);
        }
        Step::LoseB(now) => {
            let _ = send_one(&mut sides.b, *now);
        }
        Step::ForgeA(now, line) => {
            arrive_empty(&mut sides.a, *now, &segment_with(values_of(line)));
        }
        Step::ForgeB(now, line) => {
            arrive_empty(&mut sides.b, *now, &segment_with(values_of(line)));
        }
        _ => {}
    }
}

/// Whether a step comes as it says.
fn comes(sides: &mut Sides, step: &Step) -> bool {
    match step {
        Step::Accept(iss, line) => accepts(sides, *iss, line),
        Step::FromA(now, line) => passes(&mut sides.a, &mut sides.b, *now, line),
        Step::FromB(now, line) => passes(&mut sides.b, &mut sides.a, *now, line),
        Step::Cross(now, from_a, from_b) => cross(sides, *now, from_a, from_b),
        Step::IsQuiet(now) => sides.a.next_action(*now).is_none(),
        Step::Ends(now, count) => exchanged(sides, *now) == *count,
        Step::Tells(now, line) => is_line(&send_one(&mut sides.a, *now), line),
        Step::Abort(now, number) => aborts(sides, *now, *number),
        Step::Is(state) => sides.a.state() == *state,
        Step::Are(first, second) => sides.a.state() == *first && sides.b.state() == *second,
        Step::EndA(ending) => sides.a.ending() == *ending,
        Step::EndB(ending) => sides.b.ending() == *ending,
        _ => {
            happen(sides, step);
            true
        }
    }
}

/// Whether steps come as they say, one after the other.
fn all_come(sides: &mut Sides, steps: &[Step]) -> bool {
    for step in steps {
        if !comes(sides, step) {
            return false;
        }
    }
    true
}

/// Figure 6.
const HANDSHAKE: [Step; 7] = [
    Step::OpenA(100),
    Step::Accept(300, Line::Syn(100)),
    Step::Are(State::SynSent, State::SynReceived),
    Step::FromB(0, Line::SynAck(300, 101)),
    Step::Is(State::Established),
    Step::FromA(0, Line::Ack(101, 301)),
    Step::Are(State::Established, State::Established),
];

/// The same with the numbers that the other figures go on with.
const OPENING: [Step; 7] = [
    Step::OpenA(99),
    Step::Accept(299, Line::Syn(99)),
    Step::Are(State::SynSent, State::SynReceived),
    Step::FromB(0, Line::SynAck(299, 100)),
    Step::Is(State::Established),
    Step::FromA(0, Line::Ack(100, 300)),
    Step::Are(State::Established, State::Established),
];

/// Whether steps come as they say at two sides that were never opened.
fn come_unopened(alloc: Global, steps: &[Step]) -> bool {
    match unopened_sides(alloc) {
        Ok(mut sides) => all_come(&mut sides, steps),
        Err(_) => false,
    }
}

/// Whether steps come as they say at two sides behind their opening.
fn come_opened(alloc: Global, steps: &[Step]) -> bool {
    match unopened_sides(alloc) {
        Ok(mut sides) => all_come(&mut sides, &OPENING) && all_come(&mut sides, steps),
        Err(_) => false,
    }
}

#[test]
fn basic_handshake(rt: HostRuntime) {
    assert!(rt; come_unopened(rt.alloc(), &HANDSHAKE));
}

/// Figure 7. What each side gets is the other's SYN, and then its SYN with the acknowledgement.
const SIMULTANEOUS_OPEN: [Step; 6] = [
    Step::OpenA(100),
    Step::OpenB(300),
    Step::Cross(0, Line::Syn(100), Line::Syn(300)),
    Step::Are(State::SynReceived, State::SynReceived),
    Step::Cross(0, Line::SynAck(100, 301), Line::SynAck(300, 101)),
    Step::Are(State::Established, State::Established),
];

#[test]
fn simultaneous_open(rt: HostRuntime) {
    assert!(rt; come_unopened(rt.alloc(), &SIMULTANEOUS_OPEN));
}

/// Figure 12.
const NORMAL_CLOSE: [Step; 15] = [
    Step::CloseA,
    Step::FromA(1, Line::FinAck(100, 300)),
    Step::Are(State::FinWait1, State::CloseWait),
    Step::FromB(1, Line::Ack(300, 101)),
    Step::Are(State::FinWait2, State::CloseWait),
    Step::CloseB,
    Step::FromB(2, Line::FinAck(300, 101)),
    Step::Are(State::TimeWait, State::LastAck),
    Step::FromA(2, Line::Ack(101, 301)),
    Step::Are(State::TimeWait, State::Closed),
    Step::Expire(60_000_001),
    Step::Is(State::TimeWait),
    Step::Expire(60_000_002),
    Step::Is(State::Closed),
    Step::EndA(None),
];

#[test]
fn normal_close(rt: HostRuntime) {
    assert!(rt; come_opened(rt.alloc(), &NORMAL_CLOSE));
}

/// Figure 13.
const SIMULTANEOUS_CLOSE: [Step; 6] = [
    Step::CloseA,
    Step::CloseB,
    Step::Cross(1, Line::FinAck(100, 300), Line::FinAck(300, 100)),
    Step::Are(State::Closing, State::Closing),
    Step::Cross(1, Line::Ack(101, 301), Line::Ack(301, 101)),
    Step::Are(State::TimeWait, State::TimeWait),
];

#[test]
fn simultaneous_close(rt: HostRuntime) {
    assert!(rt; come_opened(rt.alloc(), &SIMULTANEOUS_CLOSE));
}

/// A SYN is answered by a reset (RFC 9293 3.10.7.3), which counts only if it acknowledges the SYN.
const REFUSED: [Step; 8] = [
    Step::OpenA(100),
    Step::Lose(0),
    Step::Reset(1, 0, None),
    Step::Reset(1, 0, Some(102)),
    Step::Is(State::SynSent),
    Step::Reset(1, 0, Some(101)),
    Step::Is(State::Closed),
    Step::EndA(Some(Ending::Refused)),
];

#[test]
fn refused(rt: HostRuntime) {
    assert!(rt; come_unopened(rt.alloc(), &REFUSED));
}

/// RFC 5961 3.2: a reset of exactly the next number ends the connection, another one in the window brings an
/// acknowledgement, and one beyond it nothing.
const RESETS: [Step; 8] = [
    Step::Reset(1, 2_300, None),
    Step::IsQuiet(1),
    Step::Reset(1, 301, None),
    Step::Tells(1, Line::Ack(100, 300)),
    Step::Is(State::Established),
    Step::Reset(1, 300, None),
    Step::Is(State::Closed),
    Step::EndA(Some(Ending::ByPeer)),
];

#[test]
fn resets(rt: HostRuntime) {
    assert!(rt; come_opened(rt.alloc(), &RESETS));
}

/// One forged SYN comes to a side in SYN-SENT, whose own SYN has been accepted: both stand in SYN-RECEIVED with numbers that
/// don't fit. Each answers the other's SYN by an acknowledgement, the wrong number in one of these brings a reset, and the
/// exchange ends (RFC 9293 3.10.7.4).
const ONE_FORGED_SYN: [Step; 9] = [
    Step::OpenA(100),
    Step::Accept(300, Line::Syn(100)),
    Step::ForgeA(0, Line::Syn(70_000)),
    Step::Are(State::SynReceived, State::SynReceived),
    Step::Cross(0, Line::SynAck(100, 70_001), Line::SynAck(300, 101)),
    Step::Are(State::SynReceived, State::SynReceived),
    Step::Cross(0, Line::Ack(101, 70_001), Line::Ack(301, 101)),
    Step::Ends(0, 2),
    Step::EndA(Some(Ending::Refused)),
];

#[test]
fn one_forged_syn(rt: HostRuntime) {
    assert!(rt; come_unopened(rt.alloc(), &ONE_FORGED_SYN));
}

/// Both sides open, and a forged SYN comes to each. Neither believes the other, and two answers are all.
const TWO_FORGED_SYNS: [Step; 10] = [
    Step::OpenA(100),
    Step::OpenB(300),
    Step::Lose(0),
    Step::LoseB(0),
    Step::ForgeA(0, Line::Syn(70_000)),
    Step::ForgeB(0, Line::Syn(90_000)),
    Step::Cross(0, Line::SynAck(100, 70_001), Line::SynAck(300, 90_001)),
    Step::Cross(0, Line::Ack(101, 70_001), Line::Ack(301, 90_001)),
    Step::Ends(0, 0),
    Step::Are(State::SynReceived, State::SynReceived),
];

#[test]
fn two_forged_syns(rt: HostRuntime) {
    assert!(rt; come_unopened(rt.alloc(), &TWO_FORGED_SYNS));
}

/// In SYN-RECEIVED the peer's SYN comes once more, and is answered by the own one; a SYN of another number is answered by an
/// acknowledgement, and so is one with an end where the connection is open (RFC 9293 3.10.7.4, RFC 5961 4.2).
const SYNS_AGAIN: [Step; 12] = [
    Step::OpenA(100),
    Step::ForgeA(0, Line::Syn(300)),
    Step::Tells(0, Line::SynAck(100, 301)),
    Step::ForgeA(1, Line::Syn(300)),
    Step::Tells(1, Line::SynAck(100, 301)),
    Step::ForgeA(1, Line::Syn(290)),
    Step::Tells(1, Line::Ack(101, 301)),
    Step::ForgeA(1, Line::Ack(301, 101)),
    Step::Is(State::Established),
    Step::ForgeA(1, Line::SynFin(301)),
    Step::Tells(1, Line::Ack(101, 301)),
    Step::Is(State::Established),
];

#[test]
fn syns_again(rt: HostRuntime) {
    assert!(rt; come_unopened(rt.alloc(), &SYNS_AGAIN));
}

/// A reset in TIME-WAIT changes nothing, of the next number neither (RFC 1337 3).
const RESET_IN_TIME_WAIT: [Step; 11] = [
    Step::CloseA,
    Step::CloseB,
    Step::Cross(1, Line::FinAck(100, 300), Line::FinAck(300, 100)),
    Step::Cross(1, Line::Ack(101, 301), Line::Ack(301, 101)),
    Step::Reset(2, 301, None),
    Step::IsQuiet(2),
    Step::Expire(60_000_000),
    Step::Is(State::TimeWait),
    Step::Expire(60_000_001),
    Step::Is(State::Closed),
    Step::EndA(None),
];

#[test]
fn reset_in_time_wait(rt: HostRuntime) {
    assert!(rt; come_opened(rt.alloc(), &RESET_IN_TIME_WAIT));
}

/// The program aborts: the peer gets a reset, which ends its side (RFC 9293 3.10.5).
const ABORT: [Step; 3] = [
    Step::Abort(1, 100),
    Step::Are(State::Closed, State::Closed),
    Step::EndB(Some(Ending::ByPeer)),
];

#[test]
fn abort(rt: HostRuntime) {
    assert!(rt; come_opened(rt.alloc(), &ABORT));
}
