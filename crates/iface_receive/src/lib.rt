//! The receive path of an interface: one frame in, by its link and network headers, and at most one frame built in
//! response.
//!
//! Begin with [`ethernet::process_frame`].
#![tactic(auto)]

pub mod ethernet;
pub mod fragment_key;
pub mod icmpv6;
pub mod ipv4;
pub mod ipv6;
pub mod udp;

pub use iface_discovery::{polling as discovery_polling, router_solicitation};
pub use iface_multicast::{igmp, joins, mld, polling as group_polling};
pub use iface_sockets::{polling, turns};
pub use ip_wire::{HardwareAddress, IpAddress, IpCidr, Ipv4Address, Ipv6Address, emit};
pub use sockets::SocketContext;
