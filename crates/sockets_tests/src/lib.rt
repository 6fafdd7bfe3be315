//! Tests of `sockets`: those of each kind, and their queues; and of `socket_set`: places, waits, and how sockets are found.
#![tactic(auto)]

#[cfg(test)]
mod kinds;
#[cfg(test)]
mod set;
