//! Fragmentation and reassembly of datagrams (RFC 791 3.2).
#![tactic(auto)]

pub mod fragmenter;
pub mod holder;
pub mod key;
mod lent_slots;
mod own_slots;
mod place;
pub mod reassembly;

pub use fragmenter::{Fragmenter, NextPiece};
pub use holder::Holder;
pub use key::FragKey;
pub use reassembly::{PacketAssembler, PacketAssemblerSet, reassemble};
