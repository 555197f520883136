//! What a session whose link failed leaves of a told chip: laws, each the contract of a function that does nothing.
//! `specs/Cut.antt` has the form: memory and harts are those of the replay along the chip's journal, but for x8, x9 and the register that was to be written.
#![tactic(auto)]

mod beside;
mod commands;
mod faults;
mod memory;
mod run;
mod step;

pub use beside::{reads_cut, slots_cut, writes_cut};
pub use commands::{first_look_cut, places_write};
pub use faults::{faults_leave, scripts_leave, undebugged_but};
pub use memory::{blocks_cut, pending_cut};
pub use run::{looks_cut, run_cut};
pub use step::steps_cut;
