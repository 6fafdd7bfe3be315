//! What an interface knows, what changes in it, and the packets that it sends.
#![tactic(auto)]

pub mod addresses;
pub mod autoconfiguration;
pub mod context;
pub mod identification;
mod membership;
pub mod multicast;
pub mod neighbors;
pub mod packet;
pub mod payload;
pub mod pieces;
pub mod settings;

pub use context::Context;
pub use packet::{AnyPacket, Packet, PacketV4, PacketV6};
pub use payload::{IpPayload, Payload};
