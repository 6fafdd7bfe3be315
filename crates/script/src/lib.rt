//! Scripts for a host: one command on each line, and what the host sends and answers. The program `hostrun` runs a
//! script from standard input. The commands are:
//!
//! - `rx HEX`: a frame arrives;
//! - `addr HEX/LEN ..`: the host's addresses, one to four;
//! - `gw HEX`: the gateway of its default route;
//! - `join HEX` and `leave HEX`: a multicast group that it joins or leaves;
//! - `udp PORT`: a UDP socket;
//! - `ingress`: the host receives one frame;
//! - `egress`: it sends what it and its sockets have queued.
//!
//! `docs/SIMULATE.md` has the rest.
#![tactic(auto)]

pub mod input;
pub mod line;
pub mod run;
pub mod script_host;
