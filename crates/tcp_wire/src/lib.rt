//! The wire format of TCP segments with their options.
#![tactic(auto)]

mod option_buffer;
pub mod options;
pub mod tcp;

pub use ip_wire::{TcpControl, TcpSeqNumber};
pub use options::{SackRange, TcpOptions, TcpTimestamp};
pub use tcp::TcpRepr;
