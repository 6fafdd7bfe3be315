//! The sockets of an interface: what each kind receives and sends, and whose turn it is.
#![tactic(auto)]

mod icmp;
mod offers;
pub mod polling;
pub mod raw;
pub mod tcp;
pub mod turns;
pub mod udp;
