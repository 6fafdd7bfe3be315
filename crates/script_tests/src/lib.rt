//! Tests of `script`, the lines that a host is driven by, and of `simulation_script`, those of a simulation: how a run ends,
//! and which lines are read, and which are refused for which reason.
#![tactic(auto)]

#[cfg(test)]
mod right_lines;
#[cfg(test)]
mod running;
#[cfg(test)]
mod wrong_lines;
