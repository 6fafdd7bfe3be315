//! What the tests here have in common: a loop over cases, octets that are cut off, and octets that are changed.
use std::process::Abort;

/// Fails a test at the first case that isn't right, and tells its place.
pub fn assert_each<C, F: Fn(&C) -> bool>(rt: &impl Abort, cases: &[C], is_right: F)
    requires { F.IsAlwaysCallable is_right }
{
    for (place, case) in cases.iter().enumerate() {
        assert!(rt; is_right(case), "case {place}");
    }
}

/// Whether these octets are taken at no length below this one.
pub fn none_below<F: Fn(&[u8]) -> bool>(len: usize, octets: &[u8], is_taken: F) -> bool
    requires { F.IsAlwaysCallable is_taken }
{
    for len in 0..len {
        match octets.get(..len) {
            Some(beginning) if !is_taken(beginning) => {}
            _ => return false,
        }
    }
    true
}

/// These octets with another one at a place.
pub fn changed<const N: usize>(octets: &[u8; N], place: usize, octet: u8) -> [u8; N] {
    let mut other = *octets;
    if let Some(there) = other.get_mut(place) {
        *there = octet;
    }
    other
}
