//! Simulates hosts on Ethernets that lose, repeat, reorder, delay and change frames, by a script. The program `simulate`
//! runs a script from standard input; `docs/SIMULATE.md` has the words of scripts and what is printed.
#![tactic(auto)]

pub mod advertisement;
pub mod agenda;
pub mod capture;
pub mod chart;
pub mod counts;
pub mod course;
pub mod events;
pub mod forwarder;
pub mod forwarding;
pub mod hosts;
pub mod kind;
pub mod link;
pub mod medium;
pub mod packets;
pub mod pending;
pub mod plan;
pub mod report;
pub mod simulation;
pub mod station;
pub mod streams;
pub mod uplink;
