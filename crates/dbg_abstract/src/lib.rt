//! Abstract commands: the words that the debugger shares with them, the kept command, its micro steps and its errors
//! (RISC-V Debug Specification 1.0, "Abstract Commands" and "Program Buffer").
//!
//! For those above, a `CommandUnit` is the record of the definition. Each call here changes it exactly as the definition says.
#![tactic(auto)]

mod command_unit;
mod read_only;
mod steps;
#[cfg(test)]
mod tests;

pub use command_unit::CommandUnit;
