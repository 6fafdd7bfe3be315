//! Tests of `dhcp_client` and of `dns_client`: their messages as octets, what a client does with them in time, and the
//! sockets that they go through.
#![tactic(auto)]

#[cfg(test)]
mod cases;
#[cfg(test)]
mod dhcp;
#[cfg(test)]
mod dns;
