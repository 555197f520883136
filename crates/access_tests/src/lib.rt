//! Tests of accesses to registers and memory, over operations whose answers are given beforehand.
//!
//! They stand in a crate of their own, since a crate with tests is proved twice.
#![tactic(auto)]

#[cfg(test)]
mod accesses;
#[cfg(test)]
mod block_runs;
#[cfg(test)]
mod bus;
#[cfg(test)]
mod bus_blocks;
#[cfg(test)]
mod bus_values;
#[cfg(test)]
mod scripted;
#[cfg(test)]
mod stops;
