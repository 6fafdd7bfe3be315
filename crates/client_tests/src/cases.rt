//! What the tests here have in common: a loop over cases, and octets that are changed.
use std::process::Abort;

/// Fails a test at the first case that isn't right, and tells its place.
pub fn assert_each<C, F: Fn(&C) -> bool>(rt: &impl Abort, cases: &[C], is_right: F)
    requires { F.IsAlwaysCallable is_right }
{
    for (place, case) in cases.iter().enumerate() {
        assert!(rt; is_right(case), "case {place}");
    }
}

/// These octets with another one at a place.
pub fn changed<const N: usize>(octets: &[u8; N], place: usize, octet: u8) -> [u8; N] {
    let mut other = *octets;
    if let Some(there) = other.get_mut(place) {
        *there = octet;
    }
    other
}
