//! The rules of a TCP connection (RFC 9293), as definitions: positions and pieces of a stream, the two sides of a direction,
//! and one connection with its calls, arrivals and timers; and in code the parts of it that are numbers alone.
#![tactic(auto)]

pub mod congestion;
pub mod estimator;
pub mod examples;
pub mod path;
pub mod positions;
pub mod ring;
pub mod sack;
pub mod scoreboard;
pub mod settings;
pub mod state;
pub mod timers;
