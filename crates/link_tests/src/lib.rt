//! Tests of the probe's layers over a chip on its bench: wire, scans, operations, run control and accesses together.
//!
//! They stand in a crate of their own, above the chip and above the probe, which know nothing of one another.
#![tactic(auto)]

#[cfg(test)]
mod accesses;
#[cfg(test)]
mod breaks;
#[cfg(test)]
mod costs;
mod fault;
#[cfg(test)]
mod operations;
#[cfg(test)]
mod quiet_wire;
#[cfg(test)]
mod releases;
#[cfg(test)]
mod run_control;
#[cfg(test)]
mod several;
#[cfg(test)]
mod slots;
#[cfg(test)]
mod standing;

pub use fault::Fault;
