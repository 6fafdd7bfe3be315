//! One connection of TCP (RFC 9293), apart from the host that it belongs to.
#![tactic(auto)]

pub mod acknowledgements;
pub mod arrivals;
pub mod calls;
pub mod connection;
pub mod due;
pub mod endings;
pub mod getters;
pub mod instants;
pub mod opening;
pub mod outgoing;
pub mod receive_buffer;
pub mod reception;
pub mod recovery;
pub mod reports;
pub mod segment;
pub mod states;
pub mod syn_sent;
pub mod texts;
pub mod timers;
pub mod transmission;
