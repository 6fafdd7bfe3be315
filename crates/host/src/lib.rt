//! Hosts that run lists of calls: one host ([`drive`]), or two on a link ([`link`]).
//!
//! [`drive::drive`] runs commands in order over any device, and its contract says that they are a run of the host
//! machine (crate `host_machine`). [`link::link`] runs two hosts with devices in memory on a link that may lose, repeat
//! and reorder frames, but never changes one.
#![tactic(auto)]

pub mod drive;
pub mod link;

pub use drive::{Owner, devices_are_sent_the_same, drives_join};
pub use link::{Host, LinkError, LinkStep};
