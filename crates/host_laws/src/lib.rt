//! The laws of a host: what follows from the definitions of its machine alone.
#![tactic(auto)]

pub mod datagrams;
pub mod laws;
pub mod pings;
pub mod progress;
pub mod raw_packets;
pub mod restraint;
