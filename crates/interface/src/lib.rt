//! The interface: it receives frames from a device and sends others. Each of its calls is one step of the host machine
//! (crate `host_machine`).
//!
//! Create one with [`Interface::new`] over a device, give it addresses by `update_ip_addrs`, and call `poll`: it
//! receives frames and sends what the sockets have queued. `poll_at` returns when to call it again if no frame arrives
//! before. `poll_ingress_single` and `poll_egress` are its parts. With buffers of your own, hand frames over by
//! `receive_frame`. The crate `host` runs lists of such calls.
#![tactic(auto)]

pub mod autoconfiguration;
pub mod interface;
mod polling;

pub use fragmentation::reassembly::{AssemblerError, AssemblerFullError};
pub use fragmentation::{FragKey, Fragmenter, Holder, PacketAssembler, PacketAssemblerSet};
pub use host_machine::{
    AddrError, AddrListError, Answer, Capacities, Command, HardwareError, MulticastError, NewError,
    PollIngressSingleResult, PollResult, TimeoutError,
};
pub use iface_context::packet::icmp_reply_payload_len;
pub use iface_context::{Context, IpPayload, Packet, PacketV4, PacketV6};
pub use iface_tables::neighbor;
pub use iface_tables::neighbor::{Hints, Neighbor};
pub use iface_tables::route::{Route, RouteTableFull, Routes};
pub use iface_tables::route_trie::{RouteNode, Steps};
pub use interface::{Config, Interface};
pub use socket_set::{AddError, Handles, Iter, Meta, SocketHandle, SocketSet, SocketStorage};
