//! Tests of five layers: of bits, files and sinks, of a chip's events, of a hart with its debug part, of the TAP with its transport, and of
//! scans over a wire that tells nothing.
//!
//! They stand in a crate of their own, since a crate with tests is proved twice.
#![tactic(auto)]

#[cfg(test)]
mod base;
#[cfg(test)]
mod events;
#[cfg(test)]
mod hart;
#[cfg(test)]
mod scans;
#[cfg(test)]
mod tap;
