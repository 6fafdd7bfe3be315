//! DNS: messages, a query, several of them, and the same over sockets.
#![tactic(auto)]

pub mod answers;
pub mod datagrams;
pub mod dns_resolver;
pub mod found;
pub mod laws;
pub mod message;
pub mod name;
pub mod query;
pub mod record;
pub mod text;

pub use datagrams::{port_of, receive, send};
pub use message::{DnsHeader, DnsQuestion, DnsType};
pub use query::{DnsFailure, DnsQuery, DnsResult};
pub use record::{DnsData, DnsRecord};
