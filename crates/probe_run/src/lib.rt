//! Run control of a chip's harts, over operations on its debug module: the opening, a Look, a halt, a resume, a single step.
//! Each contract names the operations that were made, in order, with what they showed; where the chip is told it says too what
//! happened at the harts, and that turns of harts were all else. It knows operations alone: no scan, and no busy answer.
#![tactic(auto)]

mod control;
mod fault;
mod hart;
mod laws;
mod opening;
mod run;
mod target;
#[cfg(test)]
mod tests;
mod wait;

pub use fault::{ConnectFault, RunFault};
pub use hart::{Halted, Running, Seen};
pub use laws::{halts_lead, resumes_lead, steps_lead};
pub use opening::connect;
pub use target::Target;
