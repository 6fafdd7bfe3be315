//! How an interface sends: next hops, requests for neighbours, the dispatch of packets, fragmented where they are too
//! long, and frames that are handed to a device.
#![tactic(auto)]

pub mod dispatch;
pub mod fragments;
pub mod hops;
pub mod requests;
pub mod transmit;
