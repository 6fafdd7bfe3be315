//! Scripts of simulations: what the lines say, as values. `docs/SIMULATE.md` has the words.
#![tactic(auto)]

pub mod line;
mod links;
pub mod script;
pub mod words;
