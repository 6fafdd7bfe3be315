//! Several hosts on one medium, which may lose, repeat, reorder and delay frames, but never changes one.
//!
//! [`network::Network`] has the hosts, and what they sent and the network still keeps. Its user says what happens next,
//! after looking at what was sent: which host runs which command, and which frame is delivered to which host.
#![tactic(auto)]

pub mod network;
pub mod transmission;

pub use network::{Network, NetworkError};
pub use transmission::{Kept, Transmission};
