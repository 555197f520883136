//! One hart's core: its registers, and the execution of one instruction on a memory.
//!
//! For those above, a `Hart` is the core of the model: what a program sees of its own hart. Each call here changes it exactly as the model says.
#![tactic(auto)]

mod atomic;
mod computing;
mod condition;
mod csr_change;
mod csr_fault;
mod exec;
mod execute;
mod extend;
mod hart;
mod jumps;
mod loads;
mod stores;
mod touch;
mod zicsr;

pub use csr_change::{changed, writes};
pub use csr_fault::CsrFault;
pub use hart::Hart;
