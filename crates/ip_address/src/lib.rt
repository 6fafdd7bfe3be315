//! Addresses, networks, numbers of protocols, and the source for an IPv6 destination.
#![tactic(auto)]

pub mod address_selection;
pub mod cidr;
pub mod ethernet_address;
pub mod hardware;
pub mod ip;
pub mod ipv4;
pub mod ipv6;
pub mod link_prefix;
pub mod protocol;

pub use cidr::{IpCidr, Ipv4Cidr, Ipv6Cidr};
pub use ethernet_address::EthernetAddress;
pub use hardware::HardwareAddress;
pub use ip::IpAddress;
pub use ipv4::Ipv4Address;
pub use ipv6::Ipv6Address;
pub use protocol::{IpProtocol, IpVersion};
