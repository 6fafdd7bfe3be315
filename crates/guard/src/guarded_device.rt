//! A device behind a guard.

pub mod guarded;
pub mod laws;

pub use guarded::{Guarded, Heard};
