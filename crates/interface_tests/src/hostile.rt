//! Frames that are meant to do harm. What the laws say of all frames is tried here: a malformed one does nothing
//! (`malformed_is_dropped`), and fragments take two slots at most, for the time of a slot.

use arrayvec::ArrayVec;
use net_base::rand::Rand;
use scene::frames::{Octets, frame};
use scene::scene_host::{ETHERNET, OWN, SceneHost};
use scene::script::outlives;
use std::process::Abort;

// Runs a script on a host for each bit of a frame: when the host has come as far as the first script, the frame
// arrives with this bit changed, and is taken.
fn each_spoilt(rt: &(impl Abort + AllocGlobal), first: &str, word: &str, second: &str) {
    let good = frame(word).expect(rt, "a frame");
    for place in 0..good.len() {
        for mask in [1u8, 2, 4, 8, 16, 32, 64, 128] {
            let bad = changed(&good, place, mask);
            assert!(rt;
                outlives(rt.alloc(), first, bad.as_slice(), second),
                "octet {place} changed by {mask}"
            );
        }
    }
}

// A frame of which one octet is changed.
fn changed(frame: &Octets, place: usize, mask: u8) -> Octets {
    let mut bad = ArrayVec::new();
    for (at, octet) in frame.as_slice().iter().enumerate() {
        let octet = if at == place { *octet ^ mask } else { *octet };
        let _ = bad.try_push(octet);
    }
    bad
}

/// How a host has come to where a frame arrives, the frame's word, and what is to come of the good one.
type Spoilt = (&'static str, &'static str, &'static str);

const KNOWN: &str = "addr c0a84501/24
    rx REQUEST
    ingress 0 = SocketStateChanged tx REPLY";

const SPOILT: [Spoilt; 5] = [
    (
        "addr c0a84501/24",
        "REQUEST",
        "rx REQUEST
        ingress 0 = SocketStateChanged tx REPLY",
    ),
    (
        KNOWN,
        "ECHO",
        "rx ECHO
        ingress 0 = SocketStateChanged tx ECHO_REPLY",
    ),
    (
        KNOWN,
        "SYN",
        "rx SYN
        ingress 0 = SocketStateChanged tx RESET",
    ),
    (
        "addr c0a84501/24
        udp 6969",
        "HI",
        "rx HI
        ingress 0 = SocketStateChanged
        heard? 0 = c0a84564 5000 6869",
    ),
    (
        "addr c0a84501/24
        udp 6969",
        "HI_START",
        "rx HI_START
        ingress 0 = SocketStateChanged
        rx HI_END
        ingress 0 = SocketStateChanged
        heard? 0 = c0a84564 5000 6869",
    ),
];

// Whatever bit of a frame was changed on its way, the good one is answered as if the bad one hadn't come.
#[test]
fn good_frames_follow_spoilt_ones(rt: HostRuntime) {
    for (first, word, second) in &SPOILT {
        each_spoilt(&rt, first, word, second);
    }
}

const SPOILT_OVER_IPV6: [Spoilt; 3] = [
    (
        "addr fe800000000000000000000000000001/64",
        "SOLICIT_1",
        "rx SOLICIT_1
        ingress 0 = SocketStateChanged tx ADVERT_1",
    ),
    (
        "addr fe800000000000000000000000000001/64
        rx SOLICIT_1
        ingress 0 = SocketStateChanged tx ADVERT_1",
        "ECHO_V6",
        "rx ECHO_V6
        ingress 0 = SocketStateChanged tx ECHO_REPLY_V6",
    ),
    (
        "slaac
        addr fe800000000000000000000000000001/64",
        "ADVERTISED",
        "rx ADVERTISED
        ingress 0 = SocketStateChanged
        maintain 0
        addr? = fe800000000000000000000000000001/64 20010db800000000000000fffe000001/64",
    ),
];

#[test]
fn good_frames_follow_spoilt_ones_over_ipv6(rt: HostRuntime) {
    for (first, word, second) in &SPOILT_OVER_IPV6 {
        each_spoilt(&rt, first, word, second);
    }
}

// Fragments under ever more keys find the first two in their slots, until the time of these is over.
#[test]
fn fragments_of_many_datagrams_take_two_slots(rt: HostRuntime) {
    let mut host = SceneHost::new(rt.alloc(), OWN, ETHERNET).expect(&rt, "a host");
    assert!(&rt;
        host.follows(
            "addr c0a84501/24
        udp 6969
        rx HI_START
        ingress 0 = SocketStateChanged
        rx HI_START_8
        ingress 0 = SocketStateChanged"
        )
    );
    let start = frame("HI_START").expect(&rt, "a frame");
    for number in 2..4_096u16 {
        let other = with_word(&with_word(&start, 18, 7 + number), 28, 0x4564 - number);
        assert!(&rt; host.takes(other.as_slice()).is_some(), "fragment {number}");
    }
    assert!(&rt;
        host.follows(
            "rx HI_START_BY_101
            ingress 60_000_000 = SocketStateChanged
        rx HI_END_BY_101
        ingress 60_000_000 = SocketStateChanged
        heard? 0 = none
        rx HI_END
        ingress 60_000_000 = SocketStateChanged
        heard? 0 = c0a84564 5000 6869
        done 0
        rx HI_END_8
        ingress 60_000_001 = SocketStateChanged
        heard? 0 = none
        rx HI_START_BY_101
        ingress 60_000_001 = SocketStateChanged
        rx HI_END_BY_101
        ingress 60_000_001 = SocketStateChanged
        heard? 0 = c0a84565 5000 6869"
        )
    );
}

// A frame with a word of 16 bits in place of two of its octets.
fn with_word(frame: &Octets, place: usize, word: u16) -> Octets {
    let mut made = ArrayVec::new();
    for (at, octet) in frame.as_slice().iter().enumerate() {
        let octet = match at.checked_sub(place) {
            Some(0) => (word >> 8) as u8,
            Some(1) => (word & 0xff) as u8,
            _ => *octet,
        };
        let _ = made.try_push(octet);
    }
    made
}

// A frame of noise, or one of ARP, a fragment, or a solicitation, by a sender of whom none was heard.
fn stormy(rand: &mut Rand, number: u16, likenesses: &[Octets; 3]) -> Octets {
    let shift = number % 200;
    match number % 4 {
        0 => with_word(&with_word(&likenesses[0], 26, shift), 30, 0x4502 + shift),
        1 => with_word(
            &with_word(&likenesses[1], 18, 7 + shift),
            28,
            0x4564 - shift,
        ),
        2 => with_word(
            &with_word(&likenesses[2], 36, 2 + shift),
            82,
            0xffff - shift,
        ),
        _ => noise(rand),
    }
}

// As many octets by chance as by chance.
fn noise(rand: &mut Rand) -> Octets {
    let mut made = ArrayVec::new();
    for _ in 0..rand.rand_u16() % 100 {
        let _ = made.try_push((rand.rand_u16() >> 8) as u8);
    }
    made
}

// Behind ten thousand frames an echo request is answered, and there is nothing to be done.
#[test]
fn a_host_stands_a_storm(rt: HostRuntime) {
    let mut host = SceneHost::new(rt.alloc(), OWN, ETHERNET).expect(&rt, "a host");
    assert!(&rt;
        host.follows(
            "addr c0a84501/24 fe800000000000000000000000000001/64
        egress 0 = None tx JOIN_1"
        )
    );
    let likenesses = [
        frame("REQUEST").expect(&rt, "a frame"),
        frame("HI_START").expect(&rt, "a frame"),
        frame("SOLICIT_1").expect(&rt, "a frame"),
    ];
    let mut rand = Rand::new(1);
    for number in 0..10_000u16 {
        let bad = stormy(&mut rand, number, &likenesses);
        assert!(&rt;
            bad.is_empty() || host.takes(bad.as_slice()).is_some(),
            "frame {number}"
        );
    }
    assert!(&rt;
        host.follows(
            "rx REQUEST
        ingress 0 = SocketStateChanged tx REPLY
        rx ECHO
        ingress 0 = SocketStateChanged tx ECHO_REPLY
        rx SOLICIT_1
        ingress 0 = SocketStateChanged tx ADVERT_1
        at 0 = none"
        )
    );
}
