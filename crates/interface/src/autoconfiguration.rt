//! What a host learns from router advertisements (RFC 4862 5.5.3): prefixes and default routes, each with its expiry.

pub use iface_tables::slaac::{Phase, Prefix, PrefixInfo, Route, Slaac};
