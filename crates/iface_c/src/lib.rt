//! The calls of a host (crate `iface_host`) for C. `c/iface.h` says what each does.
//!
//! C keeps a host by a handle of two words, which owns it. Each call takes the host out of its handle and puts it
//! back, and answers by a code: 0, or why it was refused.
#![tactic(auto)]

pub mod addresses;
pub mod counters;
pub mod dhcp;
pub mod dhcp_handle;
pub mod dns;
pub mod dns_handle;
pub mod frames;
pub mod guarding;
pub mod handle;
pub mod hosts;
pub mod lists;
pub mod neighbors;
pub mod opening;
pub mod options;
pub mod packets;
pub mod properties;
pub mod queues;
pub mod raw_box;
pub mod routes;
pub mod segments;
pub mod status;
pub mod stream_calls;
pub mod streams;
pub mod streams_handle;
pub mod waiting;

pub use addresses::{IfaceAddress, IfaceEndpoint};
pub use counters::IfaceCounters;
pub use dhcp::IfaceLease;
pub use dhcp_handle::IfaceDhcp;
pub use dns::IfaceDnsAnswer;
pub use dns_handle::IfaceDns;
pub use guarding::{IfaceDrops, IfaceGuard, IfaceRate};
pub use handle::Iface;
pub use hosts::{IfaceChecksums, IfaceConfig};
pub use lists::IfaceCidr;
pub use opening::IfaceRooms;
pub use queues::IfaceQueue;
pub use segments::IfaceSegment;
pub use streams::{IfaceStream, IfaceStreamsConfig};
pub use streams_handle::IfaceStreams;
