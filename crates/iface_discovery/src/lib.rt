//! Neighbour and router discovery: ARP, neighbour solicitations and advertisements, router advertisements and
//! solicitations.
#![tactic(auto)]

pub mod arp;
pub mod ndisc;
pub mod polling;
pub mod renewal;
pub mod router;
pub mod router_solicitation;
