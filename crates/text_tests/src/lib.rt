//! Tests of the texts that a person writes: scripts, and the words of a command line.
//!
//! They stand in a crate of their own, since a crate with tests is proved twice.
#![tactic(auto)]

#[cfg(test)]
mod rows;
#[cfg(test)]
mod scripts;
#[cfg(test)]
mod soft_scripts;
#[cfg(test)]
mod words;
