//! Source address selection: from which of its own addresses a host sends (RFC 6724).

pub mod ipv6;

pub use ipv6::{get_source_address_ipv6, ipv6_addr};
