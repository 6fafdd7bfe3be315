//! Frames that are lost, come twice and in another order. A step whose copy found no memory is tried again from the
//! beginning, between two new ends.
ghost use Rattle.std.specs.Prelude.{All};
ghost use Rattle.host.specs.Link.{IsTimelyStep};

use crate::linked_hosts::ends::{End, is_whole, linked, made, received, send};
use host::link::LinkStep;
use interface::Command;
use net_base::time::Instant;
use std::alloc::Global;

const NOW: Instant = Instant::ZERO;

// Runs the steps once. A, whose packets have at most 576 octets, has 1,000 octets to send, and so has B,
// if its frames are as short. Returns the two, if no memory was refused.
fn attempt(alloc: Global, unit_of_b: usize, steps: &[LinkStep]) -> Option<Option<(End, End)>>
    requires { All IsTimelyStep steps.now }
{
    let mut a = made(alloc, 1, 49152, 590)?;
    let mut b = made(alloc, 2, 6969, unit_of_b)?;
    send(&mut a, 2, 6969, 7)?;
    if unit_of_b == 590 {
        send(&mut b, 1, 49152, 8)?;
    }
    let answer = linked(&mut a, &mut b, steps)?;
    if !is_whole(&a, &b, steps, answer)? {
        return Some(None);
    }
    Some(Some((a, b)))
}

// A and B after the steps.
fn both_after(alloc: Global, unit_of_b: usize, steps: &[LinkStep]) -> Option<(End, End)>
    requires { All IsTimelyStep steps.now }
{
    match attempt(alloc, unit_of_b, steps)? {
        Some(ends) => Some(ends),
        None => attempt(alloc, unit_of_b, steps)?,
    }
}

// How many payloads came to A and to B.
fn delivered(alloc: Global, unit_of_b: usize, steps: &[LinkStep]) -> Option<(usize, usize)>
    requires { All IsTimelyStep steps.now }
{
    let (mut a, mut b) = both_after(alloc, unit_of_b, steps)?;
    Some((received(&mut a, 8)?, received(&mut b, 7)?))
}

// Who has 192.168.69.2? Tell 192.168.69.1 at 02:00:00:00:00:01.
const REQUEST: [u8; 42] = [
    0xff, 0xff, 0xff, 0xff, 0xff, 0xff, 2, 0, 0, 0, 0, 1, 8, 6, 0, 1, 8, 0, 6, 4, 0, 1, 2, 0, 0, 0,
    0, 1, 192, 168, 69, 1, 0xff, 0xff, 0xff, 0xff, 0xff, 0xff, 192, 168, 69, 2,
];

// Whether a frame carries a fragment to B of this total length, with these flags and this offset.
fn is_fragment(frame: &[u8], total_len: u16, flags_and_offset: u16) -> bool {
    frame.get(..6) == Some(&[2, 0, 0, 0, 0, 2])
        && frame.len() == 14 + usize::from(total_len)
        && frame.get(16..18) == Some(&total_len.to_be_bytes())
        && frame.get(20..22) == Some(&flags_and_offset.to_be_bytes())
}

/// Whether these frames are the request and the two pieces: they have 552 octets, with more to follow, and 456, from octet
/// 552 on.
fn are_both_pieces(frames: &[Vec<u8>]) -> bool {
    match frames {
        [request, first, second] => {
            request.as_slice() == REQUEST.as_slice()
                && is_fragment(first, 572, 0x2000)
                && is_fragment(second, 476, 0x0045)
        }
        _ => false,
    }
}

/// Whether A sends those in these steps.
fn sends_both_pieces(alloc: Global, steps: &[LinkStep]) -> Option<bool>
    requires { All IsTimelyStep steps.now }
{
    let (a, _b) = both_after(alloc, 1514, steps)?;
    Some(are_both_pieces(a.device.sent()))
}

#[test]
fn a_datagram_goes_behind_the_request_in_two_pieces(rt: HostRuntime) {
    let steps = [
        LinkStep::A(Command::PollEgress(NOW)),
        LinkStep::ToB(0, NOW),
        LinkStep::ToA(0, NOW),
        LinkStep::A(Command::PollEgress(NOW)),
        LinkStep::A(Command::PollEgress(NOW)),
    ];
    assert!(rt; sends_both_pieces(rt.alloc(), &steps) == Some(true));
}

#[test]
fn pieces_in_another_order_are_one_datagram(rt: HostRuntime) {
    let steps = [
        LinkStep::A(Command::PollEgress(NOW)),
        LinkStep::ToB(0, NOW),
        LinkStep::ToA(0, NOW),
        LinkStep::A(Command::PollEgress(NOW)),
        LinkStep::A(Command::PollEgress(NOW)),
        LinkStep::ToB(2, NOW),
        LinkStep::ToB(1, NOW),
    ];
    assert!(rt; delivered(rt.alloc(), 1514, &steps) == Some((0, 1)));
}

#[test]
fn pieces_that_come_again_are_another_datagram(rt: HostRuntime) {
    let steps = [
        LinkStep::A(Command::PollEgress(NOW)),
        LinkStep::ToB(0, NOW),
        LinkStep::ToA(0, NOW),
        LinkStep::A(Command::PollEgress(NOW)),
        LinkStep::A(Command::PollEgress(NOW)),
        LinkStep::ToB(2, NOW),
        LinkStep::ToB(1, NOW),
        LinkStep::ToB(1, NOW),
        LinkStep::ToB(2, NOW),
    ];
    assert!(rt; delivered(rt.alloc(), 1514, &steps) == Some((0, 2)));
}

// There is no frame 9.
#[test]
fn a_piece_that_is_lost_leaves_nothing(rt: HostRuntime) {
    let steps = [
        LinkStep::A(Command::PollEgress(NOW)),
        LinkStep::ToB(0, NOW),
        LinkStep::ToA(0, NOW),
        LinkStep::A(Command::PollEgress(NOW)),
        LinkStep::A(Command::PollEgress(NOW)),
        LinkStep::ToB(2, NOW),
        LinkStep::ToB(9, NOW),
        LinkStep::ToA(9, NOW),
    ];
    assert!(rt; delivered(rt.alloc(), 1514, &steps) == Some((0, 0)));
}

// B answers the request twice.
#[test]
fn frames_that_come_twice_in_reverse_are_one_datagram(rt: HostRuntime) {
    let steps = [
        LinkStep::A(Command::PollEgress(NOW)),
        LinkStep::ToB(0, NOW),
        LinkStep::ToB(0, NOW),
        LinkStep::ToA(1, NOW),
        LinkStep::ToA(1, NOW),
        LinkStep::ToA(0, NOW),
        LinkStep::ToA(0, NOW),
        LinkStep::A(Command::PollEgress(NOW)),
        LinkStep::A(Command::PollEgress(NOW)),
        LinkStep::ToB(2, NOW),
        LinkStep::ToB(2, NOW),
        LinkStep::ToB(1, NOW),
        LinkStep::ToB(1, NOW),
    ];
    assert!(rt; delivered(rt.alloc(), 1514, &steps) == Some((0, 1)));
}

#[test]
fn both_ends_cut(rt: HostRuntime) {
    let steps = [
        LinkStep::A(Command::PollEgress(NOW)),
        LinkStep::ToB(0, NOW),
        LinkStep::ToA(0, NOW),
        LinkStep::A(Command::PollEgress(NOW)),
        LinkStep::B(Command::PollEgress(NOW)),
        LinkStep::A(Command::PollEgress(NOW)),
        LinkStep::B(Command::PollEgress(NOW)),
        LinkStep::ToB(2, NOW),
        LinkStep::ToA(2, NOW),
        LinkStep::ToA(1, NOW),
        LinkStep::ToB(1, NOW),
    ];
    assert!(rt; delivered(rt.alloc(), 590, &steps) == Some((1, 1)));
}
