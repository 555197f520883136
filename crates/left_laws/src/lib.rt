//! What each call of the probe leaves of a told chip, whatever it answers, in one form: laws, each the contract of a function that does nothing.
//! `specs/Left.antt` has the form: the journal has grown by points, and the board is the one before, led along them, but for what is named as lost.
#![tactic(auto)]

mod bus;
mod elf;
mod laws;
mod memory;
mod registers;
mod run;
mod slots;
mod soft;
mod step;

pub use bus::{bus_load_leaves, bus_store_leaves};
pub use elf::load_elf_leaves;
pub use laws::{joins, losses, paths};
pub use memory::{load_leaves, store_leaves};
pub use registers::{reg_leaves, restore_leaves, save_leaves, set_reg_leaves, stop_leaves};
pub use run::{connect_leaves, halt_leaves, look_leaves, resume_leaves, run_one_leaves};
pub use slots::{
    arm_leaves, disarm_leaves, forget_hits_leaves, let_go_leaves, slots_leaves, step_over_leaves,
};
pub use soft::{cover_leaves, plant_leaves, prepare_leaves, uncover_leaves, unplant_leaves};
pub use step::step_leaves;
