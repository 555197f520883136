//! The results of the computing instructions and of the atomic memory operations, on 64 bits and on 32.
//!
//! Every operation has a result for every pair of numbers: none traps.
#![tactic(auto)]

mod arithmetic;
mod atomics;
mod dispatch;
mod divide;
mod multiply;
mod shifts;
mod words;

pub use dispatch::alu;
