//! DHCP for IPv4: messages, a client, and the same over sockets.
#![tactic(auto)]

pub mod addresses;
pub mod answers;
pub mod client;
pub mod datagrams;
pub mod laws;
pub mod lease;
pub mod message;
pub mod messages;
pub mod options;
pub mod packets;
pub mod probing;
pub mod returns;
pub mod routes;
pub mod wishes;

pub use client::{DhcpClient, DhcpPhase};
pub use datagrams::{datagram_in, receive, receive_datagram, send_by_raw, send_by_udp, server_of};
pub use lease::{DhcpEvent, DhcpLease, LeaseTimes};
pub use message::{DhcpMessageType, DhcpRepr};
pub use messages::DhcpMessage;
pub use options::{DhcpOptions, OptionData};
pub use packets::DhcpRoom;
pub use probing::Probing;
pub use routes::{DhcpRoute, DhcpRoutes};
pub use wishes::DhcpWishes;
