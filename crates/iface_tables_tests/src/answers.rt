//! What the host answers, and how much of it goes.
use crate::frames::{Change, Frame, Kind, at, octets_of};
use guard::answers::{Answer, Answers, answer_of};

/// A segment over IPv4 with RST (RFC 9293 3.1), and one with SYN.
const RESET: Frame = (Kind::Ipv4(6, 1, 1, 0), &[Change::Octets(47, &[0x14])]);

const SYN: Frame = (Kind::Ipv4(6, 1, 1, 0), &[Change::Octets(47, &[0x12])]);

const ECHO_REPLY: Frame = (Kind::Ipv4(1, 1, 1, 0), &[]);

const ERROR: Frame = (Kind::Ipv4(1, 1, 1, 3), &[]);

/// Each kind of answer is told by its octets, and nothing else is one.
const KINDS: [(Frame, Option<Answer>); 11] = [
    (ECHO_REPLY, None),
    ((Kind::Icmpv6(129, 1, 0), &[]), None),
    (ERROR, Some(Answer::Error)),
    ((Kind::Ipv4(1, 1, 1, 12), &[]), Some(Answer::Error)),
    ((Kind::Icmpv6(1, 1, 0), &[]), Some(Answer::Error)),
    ((Kind::Icmpv6(4, 1, 0), &[]), Some(Answer::Error)),
    (RESET, Some(Answer::Reset)),
    (SYN, None),
    ((Kind::Ipv4(1, 1, 1, 8), &[]), None),
    ((Kind::Ipv4(17, 1, 1, 0), &[]), None),
    ((Kind::Icmpv6(136, 1, 1), &[]), None),
];

/// The place of the first frame that is told otherwise.
fn first_other() -> Option<usize> {
    for (place, (frame, answer)) in KINDS.iter().enumerate() {
        if answer_of(octets_of(frame).as_slice()) != *answer {
            return Some(place);
        }
    }
    None
}

#[test]
fn answers_are_told(rt: HostRuntime) {
    assert!(rt; first_other().is_none());
}

/// A frame at this many milliseconds, how long what it answers is, whether that came from a known neighbour, and as which answer it is
/// held back.
type Row = (u32, Frame, usize, bool, Option<Answer>);

/// Judges answers one after the other, and gives the place of the first row that says otherwise.
fn first_wrong(answers: &mut Answers, rows: &[Row]) -> Option<usize> {
    for (place, (millis, frame, len, known, held_back)) in rows.iter().enumerate() {
        if answers.judge(at(*millis), octets_of(frame).as_slice(), *len, *known) != *held_back {
            return Some(place);
        }
    }
    None
}

/// Whether the rows are right so many times, one after the other.
fn are_right(answers: &mut Answers, rows: &[Row], times: usize) -> bool {
    for _ in 0..times {
        if first_wrong(answers, rows).is_some() {
            return false;
        }
    }
    true
}

/// Ten of a kind are sent at once, and one more each ten milliseconds; kinds have rates of their own.
const SENT: [Row; 1] = [(500, ERROR, 54, false, None)];

const BEHIND_TEN: [Row; 6] = [
    (
        500,
        (Kind::Icmpv6(1, 1, 0), &[]),
        86,
        false,
        Some(Answer::Error),
    ),
    (500, ECHO_REPLY, 54, false, None),
    (500, RESET, 54, false, None),
    (509, ERROR, 54, false, Some(Answer::Error)),
    (510, ERROR, 54, false, None),
    (510, ERROR, 54, false, Some(Answer::Error)),
];

#[test]
fn ten_errors_are_sent_at_once(rt: HostRuntime) {
    let mut answers = Answers::new();
    let are_sent = are_right(&mut answers, &SENT, 10);
    assert!(rt; are_sent && first_wrong(&mut answers, &BEHIND_TEN).is_none());
}

/// Where strangers have had theirs, as many are sent to known neighbours, and no more.
const TO_KNOWN: [Row; 1] = [(500, ERROR, 54, true, None)];

const BEHIND_TWENTY: [Row; 4] = [
    (500, ERROR, 54, true, Some(Answer::Error)),
    (500, RESET, 54, true, None),
    (510, ERROR, 54, true, None),
    (510, ERROR, 54, false, None),
];

#[test]
fn known_neighbors_have_rates_of_their_own(rt: HostRuntime) {
    let mut answers = Answers::new();
    let is_short_at_first = answers.is_short(at(500));
    let are_sent = are_right(&mut answers, &SENT, 10) && answers.is_short(at(500));
    let are_sent_to_known = are_right(&mut answers, &TO_KNOWN, 10);
    assert!(rt; !is_short_at_first && are_sent && are_sent_to_known);
    assert!(rt; first_wrong(&mut answers, &BEHIND_TWENTY).is_none());
}

/// A clock that has gone back by a minute or less leaves a rate as it is. One that has gone back by more fills it.
const LONG_AFTER: [Row; 1] = [(3_600_000, ERROR, 54, false, None)];

const A_MINUTE_BEFORE: [Row; 1] = [(3_540_000, ERROR, 54, false, Some(Answer::Error))];

const AN_HOUR_BEFORE: [Row; 1] = [(1_000, ERROR, 54, false, None)];

#[test]
fn a_clock_that_goes_back_costs_nothing(rt: HostRuntime) {
    let mut answers = Answers::new();
    let are_sent = are_right(&mut answers, &LONG_AFTER, 10);
    let is_held_back = are_right(&mut answers, &A_MINUTE_BEFORE, 1);
    assert!(rt; are_sent && is_held_back && are_right(&mut answers, &AN_HOUR_BEFORE, 10));
}

/// An error is at most three times as long as what it answers; one that is longer takes nothing of the rate.
const TOO_LONG: [Row; 1] = [(500, ERROR, 17, false, Some(Answer::Error))];

/// Echo replies and resets may have any length.
const BEHIND_LONG_ONES: [Row; 3] = [
    (500, ERROR, 18, false, None),
    (500, ECHO_REPLY, 1, false, None),
    (500, RESET, 1, false, None),
];

const UNBOUNDED: [Row; 1] = [(500, ERROR, 1, false, None)];

#[test]
fn long_errors_are_held_back(rt: HostRuntime) {
    let mut answers = Answers::new();
    let are_held_back = are_right(&mut answers, &TOO_LONG, 20)
        && are_right(&mut answers, &BEHIND_LONG_ONES, 1);
    answers.longest_error = 0;
    assert!(rt; are_held_back && first_wrong(&mut answers, &UNBOUNDED).is_none());
}
