//! What a host behind a guard never learns, whatever frames come, each law as the contract of an empty function.
#![tactic(auto)]

pub mod laws;
