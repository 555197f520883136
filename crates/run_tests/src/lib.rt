//! Tests of the whole program's call, over files, nets and sinks in memory and for real. It has no code of its own, so that the crate of that call is proved
//! once.
#![tactic(auto)]

#[cfg(test)]
mod tests;
