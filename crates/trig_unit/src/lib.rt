//! A hart's four trigger slots: the registers that reach them, and which of them fire.
//!
//! For those above, `Slots` is `tselect` and four slots of the model. Each call here changes them exactly as the model says.
#![tactic(auto)]

mod access;
mod slot;
mod slots;
#[cfg(test)]
mod tests;

pub use slots::Slots;
