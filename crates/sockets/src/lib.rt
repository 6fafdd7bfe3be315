//! Sockets: packets that wait to be read and packets that wait to be sent.
#![tactic(auto)]

pub mod buffers;
pub mod context;
pub mod endpoint;
pub mod icmp;
pub mod octets;
pub mod poll_at;
pub mod queue;
pub mod raw;
pub mod send_error;
pub mod socket;
pub mod tcp;
pub mod udp;

pub use buffers::Buffers;
pub use context::SocketContext;
pub use endpoint::{IpEndpoint, IpListenEndpoint};
pub use poll_at::PollAt;
pub use queue::{Full, NoMemory, Queue};
pub use send_error::SendError;
pub use socket::{AnySocket, AnySocketOf, Offer, Socket, SocketOf};
