//! The tables of an interface: neighbours, routes, groups, and what routers advertised.
#![tactic(auto)]

pub mod groups;
pub mod neighbor;
pub mod report;
pub mod route;
mod route_nodes;
pub mod route_trie;
pub mod slaac;
pub mod store;
pub mod sync;

pub use groups::{
    Group, GroupState, GroupTableFull, Groups, IFACE_MAX_MULTICAST_GROUP_COUNT, MAX_GROUP_COUNT,
};
pub use report::{IgmpReportState, MldReportState};
pub use slaac::{Phase, Slaac};
