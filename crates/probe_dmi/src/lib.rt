//! Operations on the debug module interface over scans: each is put in flight once, awaited, and its own result answered,
//! whatever the rounds and the busy answers are. Where the scans tell their chip, a call is the path of atomic steps that
//! `debug_model` defines, and a fault leaves an operation that was performed at most once.
//! Several operations in one call share their scans: the one that fetches a result carries the next operation.
//! A link is dead behind any fault.
#![tactic(auto)]

mod link;
mod operation;
mod pace;
mod register;
mod state;
mod stream;

pub use link::Link;
