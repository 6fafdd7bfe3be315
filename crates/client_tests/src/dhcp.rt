//! Tests of `dhcp_client`.

mod datagrams;
mod exchanges;
mod joined;
mod losses;
mod messages;
mod octets;
mod options;
mod refusals;
mod renewals;
mod returns;
mod routes;
mod servers;
mod unusable;
