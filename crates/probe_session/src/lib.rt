//! Sessions of a debugger: each command of a script as calls of the layers below, and the lines that it prints.
//! Each contract says by which answered calls a session went from one place of the abstract debugger's plan to the next, and what it
//! printed on the way; where the chip is told, that is the transcript of the chip's journal.
#![tactic(auto)]

mod act;
mod acted;
mod all_registers;
mod begin;
mod dumping;
mod ended;
mod fault;
mod going;
mod hart_lines;
mod identity;
mod known;
mod laws;
mod looks;
mod memory;
mod met;
mod odd;
mod one_line;
mod perform;
mod put;
mod reach;
mod reading;
mod registers;
mod script;
mod session;
mod shown;
mod slots;
mod slots_shown;
mod stops;
mod write;

pub use acted::Acted;
pub use dumping::put_bytes;
pub use ended::Ended;
pub use fault::{Failure, LostCause};
pub use going::{free_line, has_any, step_once};
pub use hart_lines::stop_line;
pub use known::Known;
pub use laws::{sessions_lead, usual_script_rises};
pub use memory::Elements;
pub use met::{Met, meet};
pub use odd::Odd;
pub use put::put_line;
pub use reach::{Reach, Reached, load_by, store_by};
pub use reading::put_values;
pub use registers::{reg, set_reg_if_taken};
pub use script::{finished, run_commands, run_script, unopened};
pub use session::Session;
