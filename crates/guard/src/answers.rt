//! Which answers to strangers' frames a host may send.
ghost use Rattle.std.specs.Prelude.{◌≡◌, ◌≤◌, length};
ghost use Rattle.guard.specs.Answers as spec;
ghost use Rattle.guard.specs.Guard.{has_room, micros, reason_unless};

use crate::guard::{has_room, take};
use crate::kind::{message_of, octet_at};
use ip_wire::octets::u16_at;
use net_base::bucket::Bucket;
use net_base::time::Instant;

/// What a frame in response is.
#[derive(Clone, Copy, Debug, PartialEq, Eq)]
pub enum Answer {
    /// An error of ICMP (RFC 1122 3.2.2) or of ICMPv6 (RFC 4443 2.1).
    Error,
    /// A reset (RFC 9293 3.10.7.1).
    Reset,
}

/// The rates of answers: of each kind one to whomever, and one more to known neighbours.
#[derive(Clone, Copy, Debug, PartialEq, Eq)]
pub struct Answers {
    /// Of errors (RFC 4443 2.4 f, RFC 1812 4.3.2.8).
    pub errors: Bucket,
    /// Of errors to known neighbours, where one of those to whomever is used up.
    pub known_errors: Bucket,
    /// Of resets.
    pub resets: Bucket,
    /// Of resets, likewise.
    pub known_resets: Bucket,
    /// How many times as long an error may be as what it answers; 0 bounds nothing.
    pub longest_error: u32,
}

impl Answers {
    /// Of each kind a hundred in a second, and ten at once, and as many to known neighbours; errors at most three times as long as what
    /// they answer.
    pub const fn new() -> Answers
        ensures { result ≡ spec.new_answers }
    {
        Answers {
            errors: Bucket::new(10_000, 10),
            known_errors: Bucket::new(10_000, 10),
            resets: Bucket::new(10_000, 10),
            known_resets: Bucket::new(10_000, 10),
            longest_error: 3,
        }
    }

    /// Whether a rate of answers to whomever is used up at an instant, so that known neighbours have rates of their own.
    #[inline(always)]
    pub fn is_short(&self, now: Instant) -> bool
        ensures { result ≡ spec.is_short (micros now) self.now }
    {
        !(has_room(&self.errors, now) && has_room(&self.resets, now))
    }

    /// Judges a frame that the host would send at an instant in response to one of so many octets, by the rates of known neighbours or
    /// by those of whomever. Returns what it is, if it may not be sent; `None` if it may.
    pub fn judge(
        &mut self,
        now: Instant,
        frame: &[u8],
        answered: usize,
        known: bool,
    ) -> Option<Answer>
        ensures reason { result ≡ spec.refused (micros now) (spec.answer_of frame.now) answered (length frame.now) known self.old }
        ensures answers { self.new ≡
            spec.after_answer (micros now) (spec.answer_of frame.now) answered (length frame.now) known self.old }
    {
        let answer = answer_of(frame)?;
        if self.is_oversized(answer, answered, frame.len()) {
            return Some(answer);
        }
        self.take(now, answer, known)
    }

    /// Whether an answer of so many octets is an error that is too long for a frame of so many.
    fn is_oversized(&self, answer: Answer, answered: usize, len: usize) -> bool
        ensures { result ≡ spec.is_oversized answer answered len self.now }
    {
        match answer {
            Answer::Error => is_too_long(answered, len, self.longest_error),
            Answer::Reset => false,
        }
    }

    /// Takes a token for an answer, of the rates of known neighbours or of those of whomever. Returns it, if there is none.
    fn take(&mut self, now: Instant, answer: Answer, known: bool) -> Option<Answer>
        ensures reason { result ≡ reason_unless (has_room (micros now) (spec.rate_of answer known self.old)) answer }
        ensures answers { self.new ≡ spec.after_rate (micros now) answer known self.old }
    {
        match (answer, known) {
            (Answer::Error, false) => take(&mut self.errors, now, answer),
            (Answer::Error, true) => take(&mut self.known_errors, now, answer),
            (Answer::Reset, false) => take(&mut self.resets, now, answer),
            (Answer::Reset, true) => take(&mut self.known_resets, now, answer),
        }
    }
}

/// Whether an error is longer than so many times what it answers; 0 bounds nothing.
fn is_too_long(answered: usize, len: usize, times: u32) -> bool
    ensures { result ≡ spec.is_too_long answered len times }
{
    times != 0 && answered.saturating_mul(times as usize) < len
}

/// What a frame in response is, if it is one of these answers.
pub fn answer_of(frame: &[u8]) -> Option<Answer>
    ensures { result ≡ spec.answer_of frame.now }
{
    if frame.len() < 42 {
        return None;
    }
    match u16_at(frame, 12) {
        0x0800 => answer_of_ipv4(frame),
        0x86dd => answer_of_ipv6(frame),
        _ => None,
    }
}

/// What a frame with an IPv4 packet is.
fn answer_of_ipv4(frame: &[u8]) -> Option<Answer>
    requires { 42 ≤ length frame.now }
    ensures { result ≡ spec.answer_of_ipv4 frame.now }
{
    let payload = 14 + usize::from(frame[14] % 16) * 4;
    match frame[23] {
        1 => match octet_at(frame, payload) {
            3 | 11 | 12 => Some(Answer::Error),
            _ => None,
        },
        6 => reset_if(octet_at(frame, payload + 13)),
        _ => None,
    }
}

/// What a frame with an IPv6 packet is.
fn answer_of_ipv6(frame: &[u8]) -> Option<Answer>
    requires { 42 ≤ length frame.now }
    ensures { result ≡ spec.answer_of_ipv6 frame.now }
{
    if frame[20] == 6 {
        return reset_if(octet_at(frame, 67));
    }
    let message = message_of(frame)?;
    match octet_at(frame, message) {
        1 | 2 | 3 | 4 => Some(Answer::Error),
        _ => None,
    }
}

/// A reset, if a segment has these flags (RFC 9293 3.1).
fn reset_if(flags: u8) -> Option<Answer>
    ensures { result ≡ spec.reset_if flags }
{
    if flags / 4 % 2 == 1 {
        Some(Answer::Reset)
    } else {
        None
    }
}
