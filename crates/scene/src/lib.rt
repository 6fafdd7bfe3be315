//! Scripts of what is done with a host and what has to come of it, and the host that follows them.
#![tactic(auto)]

pub mod frames;
pub mod kinds;
pub mod scene_host;
pub mod script;
pub mod words;
