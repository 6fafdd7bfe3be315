//! Tests of `iface_tables` (neighbours, routes, groups, and what is learnt from routers), of `fragmentation` and of `guard`.
#![tactic(auto)]

#[cfg(test)]
mod answers;
#[cfg(test)]
mod fragmenter;
#[cfg(test)]
mod frames;
#[cfg(test)]
mod groups;
#[cfg(test)]
mod kept;
#[cfg(test)]
mod learning;
#[cfg(test)]
mod neighbor;
#[cfg(test)]
mod reassembly;
#[cfg(test)]
mod route;
#[cfg(test)]
mod rules;
#[cfg(test)]
mod strangers;
#[cfg(test)]
mod syncing;
