//! The base of all layers: devices, time, random words, ranges of octets, and a rate.
#![tactic(auto)]

pub mod assembler;
pub mod bucket;
pub mod driver;
pub mod instants;
pub mod memory_device;
pub mod phy;
pub mod rand;
pub mod time;
pub mod trace;
pub mod tracer;

pub use memory_device::{MemoryDevice, PushError};
