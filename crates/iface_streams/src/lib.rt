//! Connections of TCP (crate `tcp_host`) for a host (crate `iface_host`): they have raw sockets of the host, and are polled
//! over its addresses.
//!
//! Each call is done, or refused; then nothing changes, unless it says so.
#![tactic(auto)]

pub mod calls;
pub mod connect;
pub mod options;
pub mod poll;
pub mod reports;
pub mod settings;
pub mod streams;

pub use connect::ConnectRefusal;
pub use settings::StreamSettings;
pub use streams::Streams;
