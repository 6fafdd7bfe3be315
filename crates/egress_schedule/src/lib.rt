//! Which sockets are asked for packets in a round, beside the rules of an interface, so that no neighbour that
//! doesn't answer stops anybody else.
//!
//! An interface serves its sockets in order, sends one discovery request a second for all of them, waits for a
//! neighbour for ever, and cuts a long packet in place of what is left of the one before. A [`Schedule`] stands
//! beside a set of sockets, and is called before and after each poll. It gives up packets whose neighbour didn't
//! answer in time, lets sockets that wait ask in turn, and lets one long packet go at a time. It changes waits and
//! queues of sockets alone, as their owner may.
#![tactic(auto)]

pub mod asides;
pub mod laws;
pub mod long_packets;
pub mod passing;
pub mod patience;
pub mod queues;
pub mod schedule;
pub mod settled;
pub mod turns;
pub mod watch;

pub use passing::{Neighbors, NoneIsKnown};
pub use schedule::Schedule;
pub use watch::{Waiting, Watch};
