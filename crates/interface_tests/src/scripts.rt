//! That scripts of scenes fail where something else comes than they say: otherwise all scenes would pass whatever a host does.

use scene::script::{Outcome, play};
use std::alloc::Global;

// A host with an address, and a socket that has a datagram for a neighbour that isn't known.
const BEGINS: [&str; 3] = ["addr c0a84501/24", "udp 6969", "send 0 c0a84532 5000 6869"];

// The right script.
#[test]
fn scripts_are_as_said(rt: HostRuntime) {
    let script = [
        "egress 0 = None tx WHO_HAS_50",
        "at 0 = 1_000_000",
        "addr? = c0a84501/24",
    ];
    assert!(&rt; play(rt.alloc(), &BEGINS, &script) == Outcome::AsSaid);
}

// Each line but for one word is that of the right script.
const OTHERWISE: [&str; 8] = [
    "egress 0 = SocketStateChanged tx WHO_HAS_50",
    "egress 0 = None",
    "egress 0 = None tx WHO_HAS_50 WHO_HAS_50",
    "egress 0 = None tx WHO_HAS_2",
    "egress 0 = None refused tx WHO_HAS_50",
    "at 0 = 7",
    "addr? = c0a84502/24",
    "addr? = c0a84501/24 c0a84502/24",
];

// Lines that aren't of the scripts' language.
const UNREADABLE: [&str; 6] = [
    "engross 0",
    "egress",
    "egress 0 0 = None tx WHO_HAS_50",
    "rx NOBODY",
    "rx 0",
    "addr c0a84501",
];

/// The first line that isn't told, of those that each come behind the beginning.
fn first_untold<'a>(alloc: Global, lines: &[&'a str]) -> Option<&'a str> {
    for line in lines {
        if play(alloc, &BEGINS, &[*line]) != Outcome::Otherwise(line) {
            return Some(line);
        }
    }
    None
}

#[test]
fn other_lines_are_told(rt: HostRuntime) {
    assert!(&rt; first_untold(rt.alloc(), &OTHERWISE).is_none());
}

#[test]
fn unreadable_lines_are_told(rt: HostRuntime) {
    assert!(&rt; first_untold(rt.alloc(), &UNREADABLE).is_none());
}

// What a script begins with is followed as it is.
#[test]
fn beginnings_are_followed(rt: HostRuntime) {
    let line = "addr? = c0a84502/24";
    assert!(&rt; play(rt.alloc(), &[line], &[]) == Outcome::Otherwise(line));
}

// A frame that nobody takes is told at the end.
#[test]
fn frames_left_are_told(rt: HostRuntime) {
    assert!(&rt; play(rt.alloc(), &BEGINS, &["rx REQUEST"]) == Outcome::FrameLeft);
}
