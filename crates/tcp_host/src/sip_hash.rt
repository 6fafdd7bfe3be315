//! SipHash-2-4, a keyed hash (Aumasson, Bernstein: SipHash, a fast short-input PRF, 2012).
ghost use Rattle.std.specs.Prelude.{◌≡◌, ◌<◌};
ghost use Rattle.tcp_host.specs.SipHash as spec;
ghost use Rattle.tcp_host.specs.Homes as places;

use crate::iss::{Endpoints, key_of};

/// The key, as two words of eight octets.
#[derive(Clone, Copy, Debug, PartialEq, Eq)]
pub struct SipKey {
    pub k0: u64,
    pub k1: u64,
}

/// What is kept between words.
#[derive(Clone, Copy, Debug, PartialEq, Eq)]
pub struct State {
    pub v0: u64,
    pub v1: u64,
    pub v2: u64,
    pub v3: u64,
}

/// The first half of a round.
fn mixed(state: State) -> State
    ensures { result ≡ spec.mixed state }
{
    let a = state.v0.wrapping_add(state.v1);
    let c = state.v2.wrapping_add(state.v3);
    State {
        v0: a.rotate_left(32),
        v1: state.v1.rotate_left(13) ^ a,
        v2: c,
        v3: state.v3.rotate_left(16) ^ c,
    }
}

/// The second half of a round.
fn crossed(state: State) -> State
    ensures { result ≡ spec.crossed state }
{
    let a = state.v0.wrapping_add(state.v3);
    let c = state.v2.wrapping_add(state.v1);
    State {
        v0: a,
        v1: state.v1.rotate_left(17) ^ c,
        v2: c.rotate_left(32),
        v3: state.v3.rotate_left(21) ^ a,
    }
}

/// Two rounds.
fn after_rounds(state: State) -> State
    ensures { result ≡ spec.after_rounds state }
{
    crossed(mixed(crossed(mixed(state))))
}

/// The state after a word.
#[tactic(auto, unfolding(crate::specs::SipHash::after_word))]
fn after_word(word: u64, state: State) -> State
    ensures { result ≡ spec.after_word word state }
{
    let mixed = after_rounds(State {
        v3: state.v3 ^ word,
        ..state
    });
    State {
        v0: mixed.v0 ^ word,
        ..mixed
    }
}

/// The state before the first word.
fn first_state(key: &SipKey) -> State
    ensures { result ≡ spec.first_state key.now }
{
    State {
        v0: key.k0 ^ 0x736f_6d65_7073_6575,
        v1: key.k1 ^ 0x646f_7261_6e64_6f6d,
        v2: key.k0 ^ 0x6c79_6765_6e65_7261,
        v3: key.k1 ^ 0x7465_6462_7974_6573,
    }
}

/// The hash, once all words were taken.
#[tactic(auto, unfolding(crate::specs::SipHash::closed))]
fn closed(state: State) -> u64
    ensures { result ≡ spec.closed state }
{
    let last = after_rounds(after_rounds(State {
        v2: state.v2 ^ 0xff,
        ..state
    }));
    (last.v0 ^ last.v1) ^ (last.v2 ^ last.v3)
}

/// The hash of a message by its words of eight octets, the lowest first. The last word holds the octets that are left over,
/// and in its highest octet the length of the message, modulo 256.
#[tactic(auto, unfolding(crate::specs::SipHash::sip_hash))]
pub fn sip_hash(key: &SipKey, words: &[u64]) -> u64
    ensures { result ≡ spec.sip_hash key.now words.now }
{
    let mut state = first_state(key);
    for word in words {
        state = after_word(*word, state);
    }
    closed(state)
}

/// The ends of a connection as words: both addresses, and then the ports and the family.
pub(crate) fn ends_words(endpoints: &Endpoints) -> [u64; 5]
    ensures { result ≡ places.words endpoints.now }
{
    let (family, local) = key_of(&endpoints.local_addr);
    let (_, remote) = key_of(&endpoints.remote_addr);
    let ports = u64::from(endpoints.local_port) + (u64::from(endpoints.remote_port) << 16);
    [
        (local % (1 << 64)) as u64,
        (local >> 64) as u64,
        (remote % (1 << 64)) as u64,
        (remote >> 64) as u64,
        ports + (u64::from(family) << 32) + (37 << 56),
    ]
}

/// The hash of the ends of a connection.
#[tactic(auto, unfolding(crate::specs::Homes::hash))]
pub fn hash(key: &SipKey, endpoints: &Endpoints) -> u64
    ensures { result ≡ places.hash key.now endpoints.now }
{
    sip_hash(key, &ends_words(endpoints))
}

/// Where the search for the ends of a connection begins, of so many homes.
#[tactic(auto, unfolding(crate::specs::Homes::home))]
pub fn home(key: &SipKey, homes: usize, endpoints: &Endpoints) -> usize
    requires { 0 < homes }
    ensures value { result ≡ places.home key.now homes endpoints.now }
    ensures within { result < homes }
{
    (hash(key, endpoints) % homes as u64) as usize
}
