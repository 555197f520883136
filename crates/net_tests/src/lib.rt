//! Tests of the nets, in memory and over TCP on the loopback address, and of a chip, alone or in a chain, that is served over them.
//!
//! They stand in a crate of their own, since a crate with tests is proved twice.
#![tactic(auto)]

#[cfg(test)]
mod chains;
#[cfg(test)]
mod nets;
#[cfg(test)]
mod serving;
