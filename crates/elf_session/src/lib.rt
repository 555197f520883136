//! A session that loads an ELF file first: each of its elements over the link, the pc of hart 0 at the program's entry, and then a script.
//!
//! `run_elf` is to a file and a script what `run_script` of `probe_session` is to a script alone, and `run_elf_session` what `run_session` of `wire_session` is:
//! the same is said of it, by a plan of the abstract debugger that has the loading in front of the script.
#![tactic(auto)]

mod laws;
mod loading;
mod session;
mod wire;

pub use laws::{loadings_keep_first_match, loadings_lay_segments, loadings_say_quietly};
pub use session::run_elf;
pub use wire::{run_elf_over_scan, run_elf_session};
