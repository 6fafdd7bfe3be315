//! Several queries of DNS at once, each by a handle: who is asked, when, and what came of it.

pub mod laws;
pub mod places;
pub mod resolver;

pub use resolver::{DnsMessage, NamedQuery, NoSuchQuery, QueryHandle, Resolver, StartQueryError};
