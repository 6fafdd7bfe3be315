//! Moments, spans, random words, and what they and errors print.
// Each test also holds where any one request for memory is refused.
use net_base::assembler::TooManyHolesError;
use net_base::memory_device::PushError;
use net_base::phy::{Checksum, ChecksumCapabilities, PacketMeta};
use net_base::rand::Rand;
use net_base::time::{Duration, Instant};
use std::alloc::Global;
use std::fmt::Display;

#[test]
fn constants(rt: HostRuntime) {
    let all = ChecksumCapabilities::ALL;
    let is_right = [all.ipv4, all.udp, all.tcp, all.icmpv4, all.icmpv6] == [Checksum::Both; 5]
        && PacketMeta::EMPTY.id == 0;
    assert!(rt; is_right);
}

#[test]
fn draws_the_top_bits(rt: HostRuntime) {
    assert!(rt; Rand::new(0).rand_u16() == 0x1405 && Rand::new(0).rand_u32() == 0x1405_7b7e);
}

fn are_bounds_apart() -> bool {
    let first = Instant::from_micros(-0x8000_0000_0000_0000);
    let last = Instant::from_micros(0x7fff_ffff_ffff_ffff);
    let longest = Duration::from_micros(0xffff_ffff_ffff_ffff);
    first + longest == last && last - first == longest
}

fn are_counted_from_the_origin() -> bool {
    let before = Instant::from_secs(-2);
    before == Instant::from_millis(-2_000)
        && Instant::from_millis(-2_000).total_micros() == -2_000_000
        && before + Duration::from_secs(3) == Instant::from_secs(1)
        && Instant::from_secs(1) - before == Duration::from_secs(3)
        && Instant::from_secs(-1) - before == Duration::from_secs(1)
}

#[test]
fn moments_before_the_origin(rt: HostRuntime) {
    assert!(rt; are_bounds_apart() && are_counted_from_the_origin());
}

/// Microseconds of a clock, and the moment that they are.
const CLOCK: [(u128, i64); 6] = [
    (0, 0),
    (1_500_000, 1_500_000),
    ((1 << 62) - 1, (1 << 62) - 1),
    (1 << 62, 1 << 62),
    ((1 << 62) + 1, 1 << 62),
    (u128::MAX, 1 << 62),
];

fn stays_at_the_last() -> bool {
    for (micros, moment) in &CLOCK {
        if Instant::from_micros_clamped(*micros) != Instant::from_micros(*moment) {
            return false;
        }
    }
    true
}

#[test]
fn a_clock_stays_at_the_last_moment(rt: HostRuntime) {
    assert!(rt; stays_at_the_last());
}

/// Whether a value prints as this text. If memory for it is refused, the next call gets it.
fn prints<T: Display>(alloc: Global, value: &T, text: &str) -> bool {
    for _ in 0..2 {
        if let Ok(printed) = format!(in alloc; "{value}") {
            return printed.as_str() == text;
        }
    }
    false
}

/// Microseconds, and the text of a span of so many.
const SPANS: [(u64, &str); 4] = [
    (0, "0.000s"),
    (999, "0.000s"),
    (1_500_000, "1.500s"),
    (61_000_001, "61.000s"),
];

fn are_spans_printed(alloc: Global) -> bool {
    for (micros, text) in &SPANS {
        if !prints(alloc, &Duration::from_micros(*micros), text) {
            return false;
        }
    }
    true
}

/// Microseconds, and the text of the moment that is so far from the origin.
const MOMENTS: [(i64, &str); 3] = [
    (1_500_000, "1.500s"),
    (-250_000, "-0.250s"),
    (i64::MIN, "-9223372036854.775s"),
];

fn are_moments_printed(alloc: Global) -> bool {
    for (micros, text) in &MOMENTS {
        if !prints(alloc, &Instant::from_micros(*micros), text) {
            return false;
        }
    }
    true
}

fn are_errors_printed(alloc: Global) -> bool {
    prints(alloc, &PushError::TooLong, "TooLong")
        && prints(alloc, &PushError::NoMemory, "NoMemory")
        && prints(alloc, &TooManyHolesError, "TooManyHolesError")
}

fn are_printed(alloc: Global) -> bool {
    are_spans_printed(alloc) && are_moments_printed(alloc) && are_errors_printed(alloc)
}

#[test]
fn printed_texts(rt: HostRuntime) {
    assert!(rt; are_printed(rt.alloc()));
}
