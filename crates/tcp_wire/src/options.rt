//! The options of TCP segments: maximum segment size (RFC 9293 3.7.1), window scale and timestamps (RFC 7323 2, 3), and
//! selective acknowledgements (RFC 2018).
ghost use Rattle.std.specs.Prelude.{◌≡◌, ◌+◌, ◌*◌, ◌<◌, ◌≤◌, ◌++◌, ◌%◌, length, take, slice_index, IsTrue, count_by, is_some};
ghost use Rattle.std.specs.Option.{SomeIff};
ghost use Rattle.std.specs.List.{flat_map};
ghost use Rattle.tcp_wire.specs.Options as spec;

use crate::option_buffer::OptionBuffer;
use ip_wire::TcpSeqNumber;
use ip_wire::octets::{u16_at, u32_at};

/// The kinds of options that are parsed.
const NOP: u8 = 1;

const MAX_SEG_SIZE: u8 = 2;

const WINDOW_SCALE: u8 = 3;

const SACK_PERMITTED: u8 = 4;

const SACK: u8 = 5;

const TIMESTAMPS: u8 = 8;

/// A block of octets that arrived out of order (RFC 2018 3).
#[derive(Clone, Copy, Debug, PartialEq, Eq)]
pub struct SackRange {
    /// The number of its first octet.
    pub left: TcpSeqNumber,
    /// The number of the octet after its last one.
    pub right: TcpSeqNumber,
}

/// The values of the Timestamps option (RFC 7323 3.2).
#[derive(Clone, Copy, Debug, PartialEq, Eq)]
pub struct TcpTimestamp {
    /// The sender's timestamp, TSval.
    pub value: u32,
    /// The peer's timestamp that is echoed, TSecr.
    pub echo: u32,
}

/// The values of a header's options.
#[derive(Clone, Copy, Debug, PartialEq, Eq)]
pub struct TcpOptions {
    /// The longest payload that the sender takes, in octets (RFC 9293 3.7.1).
    pub max_seg_size: Option<u16>,
    /// By how many bits the sender's windows are shifted, at most 14 (RFC 7323 2.2).
    pub window_scale: Option<u8>,
    /// Whether the sender takes selective acknowledgements (RFC 2018 2).
    pub sack_permitted: bool,
    /// What the sender has received out of order, in the order of the option, from the first place on (RFC 2018 3).
    pub sack_ranges: [Option<SackRange>; 4],
    /// The sender's clock, and the peer's (RFC 7323 3).
    pub timestamp: Option<TcpTimestamp>,
}

impl TcpOptions {
    /// The values of a header without options.
    pub const fn new() -> TcpOptions
        ensures { result ≡ spec.no_options }
    {
        TcpOptions {
            max_seg_size: None,
            window_scale: None,
            sack_permitted: false,
            sack_ranges: [None, None, None, None],
            timestamp: None,
        }
    }

    /// Parses the options of a header. Nothing is an error: the list ends at its end-of-list option, at an option that is
    /// cut off or shorter than 2 octets, or at a known kind with a length that it doesn't have; what stands before
    /// counts. Unknown kinds are skipped by their length. Of each kind the last option counts. A window scale above 14
    /// counts as 14 (RFC 7323 2.3).
    pub fn parse(octets: &[u8]) -> TcpOptions
        ensures { result ≡ spec.options_in octets.now }
    {
        let mut options = TcpOptions::new();
        let mut rest = octets;
        while let Some(len) = option_len(rest) {
            options.read(&rest[..len]);
            rest = &rest[len..];
        }
        options
    }

    /// Takes over the values of an option.
    #[inline(always)]
    fn read(&mut self, option: &[u8])
        requires { IsTrue (spec.has_length (slice_index option.now 0) (length option.now)) }
        ensures { self.new ≡ spec.with_option option.now self.old }
    {
        match option[0] {
            MAX_SEG_SIZE => self.max_seg_size = Some(u16_at(option, 2)),
            WINDOW_SCALE => self.window_scale = Some(option[2].min(14)),
            SACK_PERMITTED => self.sack_permitted = true,
            SACK => self.sack_ranges = ranges_in(option),
            TIMESTAMPS => self.timestamp = Some(timestamp_in(option)),
            _ => {}
        }
    }

    /// The length of the options as they are emitted, in octets: at most 40, and a multiple of four.
    pub(crate) fn len(&self) -> usize
        ensures value { result ≡ length (spec.options_text self.now) }
        ensures fits { result ≤ 40 }
        ensures words { result % 4 ≡ 0 }
    {
        let front = self.front_len();
        let count = sent_count(&self.sack_ranges, front);
        if count == 0 {
            front
        } else {
            front + 4 + 8 * count
        }
    }

    /// The length of the options before SACK.
    #[inline(always)]
    const fn front_len(&self) -> usize
        ensures value { result ≡ length (spec.front_text self.now) }
        ensures small { result ≤ 20 }
        ensures words { result % 4 ≡ 0 }
    {
        let size = size_len(self.max_seg_size);
        let timestamp = timestamp_len(self.sack_permitted, self.timestamp);
        size + timestamp + scale_len(self.window_scale)
    }

    /// The options as they are emitted.
    pub(crate) fn text(&self) -> OptionBuffer
        ensures value { result ≡ spec.options_text self.now }
    {
        let mut out = OptionBuffer::new();
        append_size(self.max_seg_size, &mut out);
        append_timestamp(self.sack_permitted, self.timestamp, &mut out);
        append_scale(self.window_scale, &mut out);
        append_sack(&self.sack_ranges, &mut out);
        out
    }
}

/// The length of the maximum segment size, if there is one.
#[inline(always)]
#[tactic(auto, unfolding(crate::specs::Options::size_text))]
const fn size_len(size: Option<u16>) -> usize
    ensures value { result ≡ length (spec.size_text size) }
    ensures small { result ≤ 4 }
    ensures words { result % 4 ≡ 0 }
{
    match size {
        Some(_) => 4,
        None => 0,
    }
}

/// The length of timestamps and SACK permitted, if there are any.
#[inline(always)]
#[tactic(auto, unfolding(crate::specs::Options::timestamp_text))]
const fn timestamp_len(permitted: bool, timestamp: Option<TcpTimestamp>) -> usize
    ensures value { result ≡ length (spec.timestamp_text permitted timestamp) }
    ensures small { result ≤ 12 }
    ensures words { result % 4 ≡ 0 }
{
    match (timestamp, permitted) {
        (Some(_), true) => 12,
        (Some(_), false) => 12,
        (None, true) => 4,
        (None, false) => 0,
    }
}

/// The length of the window scale, if there is one.
#[inline(always)]
#[tactic(auto, unfolding(crate::specs::Options::scale_text))]
const fn scale_len(scale: Option<u8>) -> usize
    ensures value { result ≡ length (spec.scale_text scale) }
    ensures small { result ≤ 4 }
    ensures words { result % 4 ≡ 0 }
{
    match scale {
        Some(_) => 4,
        None => 0,
    }
}

/// Appends the maximum segment size, if there is one.
#[inline(always)]
#[tactic(auto, unfolding(crate::specs::Options::size_text))]
fn append_size(size: Option<u16>, out: &mut OptionBuffer)
    requires { length out.old ≡ 0 }
    ensures items { out.new ≡ out.old ++ spec.size_text size }
    ensures len { length out.new ≤ 4 }
{
    if let Some(size) = size {
        let [s0, s1] = size.to_be_bytes();
        out.append(&[MAX_SEG_SIZE, 4, s0, s1]);
    }
}

/// Appends timestamps, if there are any, and SACK permitted, if it is.
#[inline(always)]
#[tactic(auto, unfolding(crate::specs::Options::timestamp_text))]
fn append_timestamp(permitted: bool, timestamp: Option<TcpTimestamp>, out: &mut OptionBuffer)
    requires { length out.old ≤ 4 }
    ensures items { out.new ≡ out.old ++ spec.timestamp_text permitted timestamp }
    ensures len { length out.new ≤ 16 }
{
    if let Some(timestamp) = timestamp {
        let [v0, v1, v2, v3] = timestamp.value.to_be_bytes();
        let [e0, e1, e2, e3] = timestamp.echo.to_be_bytes();
        out.append(&filler(permitted));
        out.append(&[TIMESTAMPS, 10, v0, v1, v2, v3, e0, e1, e2, e3]);
    } else if permitted {
        out.append(&[NOP, NOP, SACK_PERMITTED, 2]);
    }
}

/// The two octets before timestamps.
#[inline(always)]
const fn filler(permitted: bool) -> [u8; 2]
    ensures { result ≡ spec.filler permitted }
{
    if permitted {
        [SACK_PERMITTED, 2]
    } else {
        [NOP, NOP]
    }
}

/// Appends the window scale, if there is one.
#[inline(always)]
#[tactic(auto, unfolding(crate::specs::Options::scale_text))]
fn append_scale(scale: Option<u8>, out: &mut OptionBuffer)
    requires { length out.old ≤ 16 }
    ensures items { out.new ≡ out.old ++ spec.scale_text scale }
    ensures len { length out.new ≤ 20 }
{
    if let Some(scale) = scale {
        out.append(&[NOP, WINDOW_SCALE, 3, scale]);
    }
}

/// How many ranges are sent behind other options of this length.
#[inline(always)]
#[tactic(auto, using(crate::proofs::Lengths::counts))]
fn sent_count(ranges: &[Option<SackRange>; 4], front: usize) -> usize
    requires { front ≤ 20 }
    ensures value { result ≡ length (take (spec.room_after front) (spec.ranges_of ranges.now)) }
    ensures fits { front + 4 + 8 * result ≤ 40 }
{
    let count = count_of(ranges);
    count.min((36 - front) / 8)
}

/// How many ranges there are.
#[inline(always)]
fn count_of(ranges: &[Option<SackRange>; 4]) -> usize
    ensures { result ≡ count_by is_some ranges.now }
{
    ranges.iter().filter(|range| range.is_some()).count()
}

/// Appends the ranges that fit, if there are any.
#[inline(always)]
fn append_sack(ranges: &[Option<SackRange>; 4], out: &mut OptionBuffer)
    requires { length out.old ≤ 20 }
    ensures { out.new ≡ out.old ++ spec.sack_text (take (spec.room_after (length out.old)) (spec.ranges_of ranges.now)) }
{
    let count = sent_count(ranges, out.len());
    if count > 0 {
        out.append(&[NOP, NOP, SACK, 2 + 8 * count as u8]);
        append_ranges(ranges, count, out);
    }
}

/// Appends the first ranges, so many.
fn append_ranges(ranges: &[Option<SackRange>; 4], count: usize, out: &mut OptionBuffer)
    requires { length out.old + 8 * count ≤ 40 }
    ensures { out.new ≡ out.old ++ flat_map spec.range_text (take count (spec.ranges_of ranges.now)) }
{
    let mut left = count;
    for range in ranges {
        if let Some(range) = range {
            if left > 0 {
                out.append(&octets_of(range));
                left -= 1;
            }
        }
    }
}

/// The octets of a block.
#[inline(always)]
#[tactic(auto, unfolding(crate::specs::Options::range_text))]
fn octets_of(range: &SackRange) -> [u8; 8]
    ensures { result ≡ spec.range_text range.now }
{
    let [l0, l1, l2, l3] = range.left.bits.to_be_bytes();
    let [r0, r1, r2, r3] = range.right.bits.to_be_bytes();
    [l0, l1, l2, l3, r0, r1, r2, r3]
}

/// The length of the option that the octets begin with. `None` if none begins there.
#[inline(always)]
fn option_len(octets: &[u8]) -> Option<usize>
    ensures { SomeIff result (IsTrue (spec.begins_option octets.now)) (spec.option_len octets.now) }
{
    let kind = *octets.first()?;
    if kind == NOP {
        return Some(1);
    }
    let len = usize::from(*octets.get(1)?);
    if kind == 0 || octets.len() < len || !has_length(kind, len) {
        return None;
    }
    Some(len)
}

/// Whether an option of a kind may have this length, in octets.
#[inline(always)]
const fn has_length(kind: u8, len: usize) -> bool
    ensures { result ≡ spec.has_length kind len }
{
    match kind {
        NOP => len == 1,
        MAX_SEG_SIZE => len == 4,
        WINDOW_SCALE => len == 3,
        SACK_PERMITTED => len == 2,
        SACK => len == 10 || len == 18 || len == 26 || len == 34,
        TIMESTAMPS => len == 10,
        _ => len >= 2,
    }
}

/// The blocks of a SACK option.
#[inline(always)]
fn ranges_in(option: &[u8]) -> [Option<SackRange>; 4]
    ensures { result ≡ spec.ranges_in option.now }
{
    [
        range_at(option, 2),
        range_at(option, 10),
        range_at(option, 18),
        range_at(option, 26),
    ]
}

/// The block at an offset of a SACK option, if the option has it.
#[inline(always)]
fn range_at(option: &[u8], at: usize) -> Option<SackRange>
    requires { at ≤ 26 }
    ensures { result ≡ spec.range_at option.now at }
{
    if option.len() < at + 8 {
        return None;
    }
    Some(SackRange {
        left: TcpSeqNumber {
            bits: u32_at(option, at),
        },
        right: TcpSeqNumber {
            bits: u32_at(option, at + 4),
        },
    })
}

/// The values of a Timestamps option.
#[inline(always)]
fn timestamp_in(option: &[u8]) -> TcpTimestamp
    requires { 10 ≤ length option.now }
    ensures { result ≡ spec.timestamp_in option.now }
{
    TcpTimestamp {
        value: u32_at(option, 2),
        echo: u32_at(option, 6),
    }
}

/// Without the options of a SYN four SACK blocks fit, or three beside timestamps.
#[tactic(auto, unfolding(crate::specs::Options::size_text, crate::specs::Options::timestamp_text, crate::specs::Options::scale_text))]
pub fn blocks_fit()
    ensures { spec.BlocksFit }
{}
