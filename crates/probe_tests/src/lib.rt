//! Tests of the probe's operations and of its calls on slots, over answers that are given beforehand.
//!
//! They stand in a crate of their own, since a crate with tests is proved twice.
#![tactic(auto)]

#[cfg(test)]
mod operations;
#[cfg(test)]
mod several;
#[cfg(test)]
mod slots;
