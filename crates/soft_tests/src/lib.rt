//! Tests of sessions with software breakpoints over a chip on its bench, and of a breakpoint's calls: what the sessions print, and what memory holds where one
//! ends or is cut.
//!
//! They stand in a crate of their own, above the chip and above the probe, which know nothing of one another.
#![tactic(auto)]

#[cfg(test)]
mod calls;
#[cfg(test)]
mod chips;
#[cfg(test)]
mod cuts;
#[cfg(test)]
mod memory;
#[cfg(test)]
mod refused;
#[cfg(test)]
mod rows;
#[cfg(test)]
mod stops;
