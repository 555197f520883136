//! Tests of sessions over a chip on its bench that no session of sessions/ can show: a schedule that a test lists, a sink that fails, and answers given
//! beforehand.
//!
//! They stand in a crate of their own, above the chip and above the probe, which know nothing of one another.
#![tactic(auto)]

#[cfg(test)]
mod blocks;
#[cfg(test)]
mod chips;
#[cfg(test)]
mod costs;
#[cfg(test)]
mod ended;
#[cfg(test)]
mod harts;
#[cfg(test)]
mod paths;
#[cfg(test)]
mod scripted;
