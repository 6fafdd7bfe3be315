//! Multicast groups: reports of joins and leaves, queries of routers and the reports that answer them, over IGMP and
//! MLD.
#![tactic(auto)]

pub mod igmp;
pub mod joins;
pub mod mld;
pub mod polling;
mod timeout;
