//! Tests of `net_base` (devices, moments, the assembler) and of the forms on the wire, which are read and written by
//! `ip_address`, `ip_wire`, `control_wire` and `tcp_wire`.
#![tactic(auto)]

#[cfg(test)]
mod addresses;
#[cfg(test)]
mod assembler;
#[cfg(test)]
mod cases;
#[cfg(test)]
mod drivers;
#[cfg(test)]
mod frames;
#[cfg(test)]
mod icmpv6;
#[cfg(test)]
mod icmpv6_refusals;
#[cfg(test)]
mod igmp;
#[cfg(test)]
mod ipv6_options;
#[cfg(test)]
mod ipv6_packets;
#[cfg(test)]
mod memory_devices;
#[cfg(test)]
mod messages;
#[cfg(test)]
mod mld;
#[cfg(test)]
mod moments;
#[cfg(test)]
mod options;
#[cfg(test)]
mod packets;
#[cfg(test)]
mod segments;
