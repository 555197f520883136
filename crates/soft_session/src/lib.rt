//! Sessions with software breakpoints: an ebreak stands in memory in the place of each word at which one is set, and no line shows it.
//! A hart that stands at such a word steps over it with the word put back; what is read shows the words themselves, and what is written leaves the ebreaks.
#![tactic(auto)]

mod going;
mod memory;
mod over;
mod script;
mod session;
mod setting;
mod wire;

pub use script::run_soft;
pub use wire::{run_soft_over_scan, run_soft_session};
