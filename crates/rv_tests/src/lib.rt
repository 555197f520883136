//! Tests of the hart's crates by their public calls: words, results, memory, instructions and short programs.
//!
//! They stand in a crate of their own, since a crate with tests is proved twice.
#![tactic(auto)]

#[cfg(test)]
mod hart;
#[cfg(test)]
mod memory;
#[cfg(test)]
mod msip;
#[cfg(test)]
mod results;
#[cfg(test)]
mod words;
