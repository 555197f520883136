//! Tests of the chip on its bench: the bytes of the stream, its ends, its limit, schedules, and what a load refuses.
//!
//! They stand in a crate of their own, since a crate with tests is proved twice.
#![tactic(auto)]

#[cfg(test)]
mod bench;
#[cfg(test)]
mod limit;
#[cfg(test)]
mod loads;
#[cfg(test)]
mod schedules;
#[cfg(test)]
mod stream;
