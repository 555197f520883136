//! Breakpoints, watchpoints and counts in a halted hart's trigger slots, and stepping over those that stopped it.
//! Each contract names the registers that were read and written, in order, with what they showed; where the chip is told it says too that
//! the slots were changed as the abstract debugger of the laws changes them, and that turns of harts are all else that happened.
#![tactic(auto)]

mod arming;
mod change;
mod disarming;
mod fault;
mod forgetting;
mod gone;
mod laws;
mod register;
mod rewriting;
mod slot_view;
mod slot_words;
mod stepping;
mod viewing;
mod words;

pub use arming::arm;
pub use disarming::disarm;
pub use fault::TrigFault;
pub use forgetting::forget_hits;
pub use gone::Gone;
pub use laws::{other_steps_lead, single_steps_are_over, whole_steps_lead};
pub use slot_view::SlotView;
pub use stepping::{let_go, shows_step, step_over};
pub use viewing::slots;
