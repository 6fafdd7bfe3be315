//! The wire formats of Ethernet, ARP, IPv4, IPv6, UDP and TCP, with what formats share.
#![tactic(auto)]

pub mod arp;
pub mod checksum;
pub mod emit;
pub mod ethernet;
pub mod hop_by_hop;
pub mod ip_packet;
pub mod ipv4_packet;
pub mod ipv6_packet;
pub mod octets;
pub mod pseudo;
pub mod tcp;
pub mod udp;

pub use arp::{ArpOperation, ArpRepr};
pub use ethernet::{EthernetProtocol, EthernetRepr};
pub use hop_by_hop::{Ipv6HopByHopRepr, Ipv6OptionFailureType, Ipv6OptionRepr};
pub use ip_address::{
    EthernetAddress, HardwareAddress, IpAddress, IpCidr, IpProtocol, IpVersion, Ipv4Address,
    Ipv4Cidr, Ipv6Address, Ipv6Cidr, cidr, hardware, ip, ipv4, ipv6, protocol,
};
pub use ip_packet::IpRepr;
pub use ipv4_packet::{Ipv4Fragment, Ipv4Repr};
pub use ipv6_packet::Ipv6Repr;
pub use tcp::{TcpControl, TcpRepr, TcpSeqNumber};
pub use udp::UdpRepr;
