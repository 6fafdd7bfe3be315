//! Streams of a simulation: connections of TCP by which a host sends octets to a port where another one listens, and what is seen
//! of them on the link.
#![tactic(auto)]

pub mod connections;
pub mod pattern;
pub mod receiver;
pub mod sender;
pub mod transmissions;
