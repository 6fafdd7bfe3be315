//! Tests of `interface` and of `host`: lists of commands, scripts of scenes and how they fail, frames that are meant to do
//! harm, requests for neighbours, and two hosts on a link.
#![tactic(auto)]

#[cfg(test)]
mod commands;
#[cfg(test)]
mod errors;
#[cfg(test)]
mod hostile;
#[cfg(test)]
mod linked_hosts;
#[cfg(test)]
mod requests;
#[cfg(test)]
mod scripts;
