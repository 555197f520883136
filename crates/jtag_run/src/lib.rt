//! The whole program as one call: words, files, the chip on its bench, the session, the serving or the sniffing, and the status with its last line.
//!
//! `run` says of every run of every list of words what was printed and left, and why it ended so. `both_with` is a session over a chip on a bench with any
//! schedule. Whatever lies outside, files, net and sink, is a bound: what they tell is what the clauses speak of.
#![tactic(auto)]

mod both;
mod chip;
mod elf;
mod elf_file;
mod elf_sessions;
mod far_side;
mod generated;
mod last_line;
mod lines;
mod opening;
mod prepare;
mod probe;
mod program;
mod recording;
mod refusal;
mod script_text;
mod sessions;
mod soft;
mod soft_script;
mod soft_sessions;
mod status;
mod summary;
mod words;

pub use both::both_with;
pub use far_side::FarSide;
pub use last_line::refuse;
pub use program::run;
pub use refusal::Refusal;
pub use status::Status;
