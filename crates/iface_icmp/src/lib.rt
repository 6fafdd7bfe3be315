//! ICMP of both families: requests and their answers, errors for packets that no socket accepts, and the messages that
//! ICMP sockets receive.
#![tactic(auto)]

pub mod delivery;
pub mod hop_by_hop;
pub mod icmpv4;
pub mod icmpv6;
pub mod unreachable;
