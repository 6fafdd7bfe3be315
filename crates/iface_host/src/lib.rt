//! A host that is driven from outside, one call at a time: an interface with its sockets, which takes frames that
//! its caller hands over, and keeps those that it sends until its caller asks for them.
//!
//! Each call is done, or refused by a [`Refusal`]; then nothing changes. Sockets are named by numbers. The crate
//! `iface_c` gives all this to C.
#![tactic(auto)]

pub mod addresses;
pub mod claims;
pub mod counters;
pub mod errors;
pub mod fragments;
pub mod frames;
pub mod guarded;
pub mod hop_limits;
pub mod host;
pub mod known;
pub mod last_errors;
pub mod leased;
pub mod names;
pub mod neighbors;
pub mod opening;
pub mod outbox;
pub mod packets;
pub mod properties;
pub mod queues;
pub mod refusal;
pub mod round_device;
pub mod routes;
pub mod segments;
pub mod streams;
pub mod waiting;

pub use claims::Watched;
pub use counters::{Counters, FrameCounts};
pub use errors::{ErrorCause, PacketError};
pub use host::{IfaceHost, Settings};
pub use host_machine::Capacities;
pub use leased::Leased;
pub use neighbors::Known;
pub use opening::{Room, Rooms};
pub use queues::Fill;
pub use refusal::Refusal;
pub use streams::StreamPair;
