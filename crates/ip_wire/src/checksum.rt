//! The Internet checksum (RFC 1071).
ghost use Rattle.std.specs.Prelude.{◌≡◌, ◌+◌, ◌*◌, ◌<◌, ◌≤◌, ◌^◌, ◌/◌, ◌%◌, ℕ, drop, length};
ghost use Rattle.ip_wire.specs.Checksum as spec;
ghost use Rattle.ip_wire.specs.Octets.{u64_le_at};

use crate::octets::{u32_le_at, u64_le_at};

/// The folded sum of `start`, which is below 2^48, and the 16-bit words of fewer than 65,536 octets. A last odd octet
/// is the high half of a word, so parts can be summed one after another if all but the last are of even length.
#[inline(always)]
pub fn sum_with(start: u64, octets: &[u8]) -> u16
    requires short { length octets.now < 2 ^ 16 }
    requires small { start < 2 ^ 48 }
    ensures { result ≡ spec.folded_sum (start + spec.word_sum octets.now) }
{
    if octets.len() < 32 {
        return fold(start + short_sum(octets));
    }
    long_sum_with(start, octets)
}

/// Computes [`sum_with`] by a call, for octets that are seldom fewer than 32: in blocks of 64 octets, and then eight at a
/// time. Read little-endian, eight octets need no swap: times 256 they fold as their four words do (RFC 1071 2). What is
/// carried out of 64 bits is added at the low end, by the addition that follows.
#[inline(never)]
pub fn long_sum_with(start: u64, octets: &[u8]) -> u16
    requires short { length octets.now < 2 ^ 16 }
    requires small { start < 2 ^ 48 }
    ensures { result ≡ spec.folded_sum (start + spec.word_sum octets.now) }
{
    let mut swapped = 0u64;
    let blocks = octets.len() / 64;
    for i in 0..blocks {
        swapped = with_block(swapped, octets, 64 * i);
    }
    let rest = &octets[64 * blocks..];
    let numbers = rest.len() / 8;
    for i in 0..numbers {
        swapped = with_eight(swapped, rest, 8 * i);
    }
    fold(start + 256 * parts_sum(swapped) + short_sum(&rest[8 * numbers..]))
}

/// A sum with the eight little-endian numbers in 64 octets added. They are added from the last on, which makes a chain
/// of carries.
#[inline(always)]
fn with_block(swapped: u64, octets: &[u8], at: usize) -> u64
    requires { at + 64 ≤ length octets.now }
    ensures { (sum : ℕ) → spec.folded_sum (sum + 256 * result + spec.word_sum (drop (at + 64) octets.now))
        ≡ spec.folded_sum (sum + 256 * swapped + spec.word_sum (drop at octets.now)) }
{
    let one = u64_le_at(octets, at);
    let two = u64_le_at(octets, at + 8);
    let three = u64_le_at(octets, at + 16);
    let four = u64_le_at(octets, at + 24);
    let five = u64_le_at(octets, at + 32);
    let six = u64_le_at(octets, at + 40);
    let seven = u64_le_at(octets, at + 48);
    let eight = u64_le_at(octets, at + 56);
    let later = with_four(u128::from(swapped), eight, seven, six, five);
    carried(with_four(later, four, three, two, one))
}

/// A sum with the little-endian number in eight octets added.
#[inline(always)]
fn with_eight(swapped: u64, octets: &[u8], at: usize) -> u64
    requires { at + 8 ≤ length octets.now }
    ensures { (sum : ℕ) → spec.folded_sum (sum + 256 * result + spec.word_sum (drop (at + 8) octets.now))
        ≡ spec.folded_sum (sum + 256 * swapped + spec.word_sum (drop at octets.now)) }
{
    carried(with_number(u128::from(swapped), u64_le_at(octets, at)))
}

/// A sum with four numbers added.
#[inline(always)]
fn with_four(swapped: u128, one: u64, two: u64, three: u64, four: u64) -> u128
    requires { swapped + 1 < 2 ^ 65 }
    ensures folds { (sum : ℕ) (rest : ℕ) → spec.folded_sum (sum + 256 * result + rest)
        ≡ spec.folded_sum (sum + 256 * (swapped + (one + two + three + four)) + rest) }
    ensures small { result + 1 < 2 ^ 65 }
{
    let first = with_number(swapped, one);
    let second = with_number(first, two);
    let third = with_number(second, three);
    with_number(third, four)
}

/// A sum with a number added, and what the sum has above 64 bits at the low end.
#[inline(always)]
#[tactic(auto, using(crate::proofs::Sums::carry_folds))]
fn with_number(swapped: u128, number: u64) -> u128
    requires { swapped + 1 < 2 ^ 65 }
    ensures folds { (sum : ℕ) (rest : ℕ) → spec.folded_sum (sum + 256 * result + rest)
        ≡ spec.folded_sum (sum + 256 * (swapped + number) + rest) }
    ensures small { result + 1 < 2 ^ 65 }
{
    swapped % 0x1_0000_0000_0000_0000 + u128::from(number) + swapped / 0x1_0000_0000_0000_0000
}

/// A sum with what it has above 64 bits added at the low end.
#[inline(always)]
#[tactic(auto, using(crate::proofs::Sums::carried_folds))]
fn carried(swapped: u128) -> u64
    requires { swapped + 1 < 2 ^ 65 }
    ensures { (sum : ℕ) (rest : ℕ) →
        spec.folded_sum (sum + 256 * result + rest) ≡ spec.folded_sum (sum + 256 * swapped + rest) }
{
    (swapped % 0x1_0000_0000_0000_0000 + swapped / 0x1_0000_0000_0000_0000) as u64
}

/// A number that folds as the sum of the words of fewer than 65,536 octets does, in any sum. So several parts, all but
/// the last of even length, are folded once.
#[inline(always)]
pub fn part_sum(octets: &[u8]) -> u64
    requires { length octets.now < 2 ^ 16 }
    ensures folds { (sum : ℕ) → spec.folded_sum (sum + result) ≡ spec.folded_sum (sum + spec.word_sum octets.now) }
    ensures small { result < 2 ^ 44 }
{
    if octets.len() < 32 {
        short_sum(octets)
    } else {
        u64::from(long_sum_with(0, octets))
    }
}

/// Computes [`part_sum`] of fewer than 32 octets, four at a time.
#[inline(always)]
fn short_sum(octets: &[u8]) -> u64
    requires { length octets.now < 32 }
    ensures folds { (sum : ℕ) → spec.folded_sum (sum + result) ≡ spec.folded_sum (sum + spec.word_sum octets.now) }
    ensures small { result < 2 ^ 44 }
{
    let mut swapped = 0u64;
    let count = octets.len() / 4;
    for i in 0..count {
        swapped += u64::from(u32_le_at(octets, 4 * i));
    }
    256 * swapped + tail_sum(&octets[4 * count..])
}

/// The sum of the 32-bit parts of a number. Times 256 it folds as the number does.
#[inline(always)]
fn parts_sum(number: u64) -> u64
    ensures value { result ≡ number % 2 ^ 32 + number / 2 ^ 32 }
    ensures small { result < 2 ^ 33 }
{
    number % 0x1_0000_0000 + number / 0x1_0000_0000
}

/// The sum of the words of the last octets.
#[inline(always)]
#[tactic(auto, using(crate::proofs::Sums::tails))]
fn tail_sum(tail: &[u8]) -> u64
    requires { length tail.now < 4 }
    ensures value { result ≡ spec.word_sum tail.now }
    ensures small { result < 2 ^ 17 }
{
    match tail {
        [a, b, c] => u64::from(*a) * 0x100 + u64::from(*b) + u64::from(*c) * 0x100,
        [a, b] => u64::from(*a) * 0x100 + u64::from(*b),
        [a] => u64::from(*a) * 0x100,
        _ => 0,
    }
}

/// A sum with its carries folded in.
#[inline(always)]
pub fn fold(sum: u64) -> u16
    ensures { result ≡ spec.folded_sum sum }
{
    if sum == 0 {
        0
    } else {
        ((sum - 1) % 0xffff + 1) as u16
    }
}

/// The Internet checksum of fewer than 65,536 octets: the ones' complement of the folded sum of their words.
pub fn checksum(octets: &[u8]) -> u16
    requires { length octets.now < 2 ^ 16 }
    ensures { result ≡ spec.checksum_of octets.now }
{
    0xffff - sum_with(0, octets)
}

/// Folding is adding the carries to the lower 16 bits, until there are none.
pub fn folds_carries()
    ensures { spec.FoldsCarries }
{}
