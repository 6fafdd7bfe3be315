//! A client of DHCP (crate `dhcp_client`) for a host (crate `iface_host`): it has a socket of the host, sends and receives by
//! it, and gives the host what was leased.
#![tactic(auto)]

pub mod apply;
pub mod dhcp;
pub mod hear;
pub mod place;
pub mod poll;
pub mod probe;
pub mod send;

pub use dhcp::{Dhcp, DhcpSettings};
