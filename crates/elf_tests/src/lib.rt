//! Tests of ELF files that are loaded into a chip on its bench: what memory holds behind the loading, and what sessions print that load one first.
//!
//! They stand in a crate of their own, above the chip and above the probe, which know nothing of one another.
#![tactic(auto)]

#[cfg(test)]
mod costs;
#[cfg(test)]
mod files;
#[cfg(test)]
mod memory;
#[cfg(test)]
mod scripted;
#[cfg(test)]
mod session;
