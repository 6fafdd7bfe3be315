//! The sockets of an interface: a set with a handle for each, and what each waits for.
#![tactic(auto)]

pub mod busy;
pub mod by_index;
pub mod iter;
pub mod keys;
pub mod laws;
pub mod socket_meta;
pub mod socket_set;

pub use iter::{Handles, HandlesOf, Iter, IterOf};
pub use socket_meta::Meta;
pub use socket_set::{
    AddError, SocketHandle, SocketSet, SocketSetOf, SocketStorage, SocketStorageOf,
};
