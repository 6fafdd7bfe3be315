//! A host of TCP connections over raw sockets.
#![tactic(auto)]

pub mod again;
pub mod arrivals;
pub mod destinations;
pub mod laws;
pub mod opening;
pub mod packets;
pub mod receiving;
pub mod sending;
pub mod tcp_sockets;

pub use destinations::FAR_PACKETS;
pub use opening::{far_socket, near_socket};
pub use tcp_sockets::{SocketPair, TcpSockets};
