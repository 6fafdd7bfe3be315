//! A host with TCP connections whose frames are lines of text: what programs behind a relay have in common.
//!
//! A line of input is a moment in microseconds, and maybe a frame in hexadecimal that comes then. A line of output is a
//! frame that is sent, or `at` with the moment of which the host wants to be told next, or with `never`.
#![tactic(auto)]

pub mod connections;
pub mod host;
pub mod limits;
pub mod line;
