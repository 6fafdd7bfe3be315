//! A host of TCP connections, and what it is made of (RFC 9293, RFC 5961, RFC 6528).
#![tactic(auto)]

pub mod alarms;
pub mod arrivals;
pub mod backlog;
pub mod calls;
pub mod config;
pub mod cookies;
pub mod getters;
pub mod host;
pub mod iss;
pub mod listener;
pub mod news;
pub mod places;
pub mod renewal;
pub mod reports;
pub mod resets;
pub mod sip_hash;
pub mod slot;
pub mod table;
pub mod turns;
pub mod unkept;
