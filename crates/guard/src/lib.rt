//! Which frames a host gets to see, and which answers it sends; a device behind a guard.
#![tactic(auto)]

pub mod answers;
pub mod claim;
pub mod defence;
pub mod guard;
pub mod guarded_device;
pub mod kind;
pub mod laws;
pub mod pins;
pub mod reports;
pub mod strangers;
pub mod watch;

pub use answers::{Answer, Answers};
pub use defence::{Defence, announcement};
pub use guard::{Asked, Guard, Reason};
pub use pins::{PINNED_COUNT, Pinned, Pins};
pub use strangers::Limit;
pub use watch::{Conflict, Counts, Watch};
