//! The tests of `tcp_connection`: two connections, and what lies between them.
#![tactic(auto)]

#[cfg(test)]
mod blocks;
#[cfg(test)]
mod ends;
#[cfg(test)]
mod figures;
#[cfg(test)]
mod stalls;
#[cfg(test)]
mod transfers;
