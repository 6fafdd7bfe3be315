//! A client of DNS (crate `dns_client`) for a host (crate `iface_host`): each of its queries has a socket of the host as long as
//! it waits, and sends and receives by it.
#![tactic(auto)]

pub mod ask;
pub mod dns;
pub mod errors;
pub mod hear;
pub mod open_sockets;
pub mod poll;
pub mod start;

pub use dns::Dns;
pub use start::StartRefusal;
