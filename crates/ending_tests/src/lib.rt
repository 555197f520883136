//! Tests of how sessions end on a chip in the same process: lost, at the limit of points, or at a sink that fails. It has no code of its own, so that the
//! crate of the program's call is proved once.
#![tactic(auto)]

#[cfg(test)]
mod tests;
