//! SYN cookies (RFC 4987 3.6): a SYN is answered, and nothing is kept of it.
ghost use Rattle.std.specs.Prelude.{◌≡◌, ◌≤◌, ◌<◌, ◌^◌};
ghost use Rattle.tcp_host.specs.Cookies as spec;

use crate::iss::Endpoints;
use crate::sip_hash::{SipKey, ends_words, sip_hash};

/// The number that answers a SYN with this number and MSS at an instant, in microseconds: who acknowledges it within two minutes tells
/// by it what a half-open connection would have kept.
pub fn cookie(key: &SipKey, endpoints: &Endpoints, peers: u32, now: u64, mss: u16) -> u32
    ensures { result ≡ spec.cookie key.now endpoints.now peers now mss }
{
    cookie_of(key, endpoints, peers, slot(now), index_of(mss))
}

/// The MSS that a number tells, if it is a cookie for these ends and the peer's number, made within the last two minutes.
pub fn size_in(
    key: &SipKey,
    endpoints: &Endpoints,
    peers: u32,
    now: u64,
    number: u32,
) -> Option<u16>
    ensures { result ≡ spec.size_in key.now endpoints.now peers now number }
{
    if is_cookie(key, endpoints, peers, now, number) {
        Some(size_of(index_in(number)))
    } else {
        None
    }
}

// Whether a number is a cookie of the slot of an instant, or of one of the two before.
fn is_cookie(key: &SipKey, endpoints: &Endpoints, peers: u32, now: u64, number: u32) -> bool
    ensures { result ≡ spec.is_cookie key.now endpoints.now peers now number }
{
    let slot = slot(now);
    is_of(key, endpoints, peers, slot, number)
        || is_of(key, endpoints, peers, slot.saturating_sub(1), number)
        || is_of(key, endpoints, peers, slot.saturating_sub(2), number)
}

// The slot of 64 s of an instant.
fn slot(now: u64) -> u64
    ensures { result ≡ spec.slot now }
{
    now / 64_000_000
}

// The cookie of a slot that tells a size by its index.
fn cookie_of(key: &SipKey, endpoints: &Endpoints, peers: u32, slot: u64, index: u32) -> u32
    requires { index < 8 }
    ensures { result ≡ spec.cookie_of key.now endpoints.now peers slot index }
{
    (slot % 32) as u32 * 0x0800_0000
        + index * 0x0100_0000
        + hash(key, endpoints, peers, slot, index)
}

// The hash of what a cookie tells, of 24 bits.
#[tactic(auto, unfolding(crate::specs::Cookies::hash))]
fn hash(key: &SipKey, endpoints: &Endpoints, peers: u32, slot: u64, index: u32) -> u32
    requires { index < 8 }
    ensures value { result ≡ spec.hash key.now endpoints.now peers slot index }
    ensures few { result < 2 ^ 24 }
{
    let [a, b, c, d, e] = ends_words(endpoints);
    let numbers = u64::from(peers) + (u64::from(index) << 32);
    let last = slot % (1 << 56) + (56 << 56);
    (sip_hash(key, &[a, b, c, d, e, numbers, last]) % (1 << 24)) as u32
}

// Whether a number is a cookie of a slot.
fn is_of(key: &SipKey, endpoints: &Endpoints, peers: u32, slot: u64, number: u32) -> bool
    ensures { result ≡ spec.is_of key.now endpoints.now peers slot number }
{
    number == cookie_of(key, endpoints, peers, slot, index_in(number))
}

// The index of the size that a cookie tells.
fn index_in(number: u32) -> u32
    ensures value { result ≡ spec.index_in number }
    ensures few { result < 8 }
{
    number / 0x0100_0000 % 8
}

// The index of the greatest size that isn't more than an MSS.
fn index_of(mss: u16) -> u32
    ensures value { result ≡ spec.index_of mss }
    ensures few { result < 8 }
{
    match mss {
        0..=535 => 0,
        536..=963 => 1,
        964..=1219 => 2,
        1220..=1299 => 3,
        1300..=1399 => 4,
        1400..=1439 => 5,
        1440..=1459 => 6,
        _ => 7,
    }
}

// A size by its index.
fn size_of(index: u32) -> u16
    ensures { result ≡ spec.size_of index }
{
    match index {
        0 => 88,
        1 => 536,
        2 => 964,
        3 => 1_220,
        4 => 1_300,
        5 => 1_400,
        6 => 1_440,
        _ => 1_460,
    }
}

/// A cookie is known for two slots, 128 s, and tells the size. After three it isn't.
pub fn cookies_are_known()
    ensures known { spec.CookiesAreKnown }
    ensures unknown { spec.OldCookiesAreUnknown }
{}
