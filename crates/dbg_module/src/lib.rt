//! The debug module: its registers by their addresses, the harts that it halts and resumes, its abstract commands and its system bus
//! (RISC-V Debug Specification 1.0, "Debug Module Registers").
//!
//! For those above, a `Module` is the record of the definition. Each call here changes it, and what stands beside it, exactly as the definition says.
#![tactic(auto)]

mod haltsum;
mod laws;
mod module;
mod performed;
mod requests;
mod status;
#[cfg(test)]
mod tests;

pub use laws::{
    bus_steps_serve, command_steps_serve, operations_serve, reset_is_served, turns_serve,
};
pub use module::Module;
pub use performed::{MOST_POINTS, Performed, Points};
