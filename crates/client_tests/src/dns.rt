//! Tests of `dns_client`.

mod answers;
mod datagrams;
mod messages;
mod names;
mod octets;
mod resolver;
mod servers;
