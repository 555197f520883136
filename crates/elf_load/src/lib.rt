//! ELF files: what of an executable is to be stored where, and storing it over a link.
//!
//! `read_elf` answers what the fields of a file say, or the first of six faults; `specs/` has both as functions of the file's bytes. It takes no memory.
#![tactic(auto)]

mod count;
mod element;
mod fault;
mod fields;
mod file;
mod header;
mod laws;
mod loading;
mod reading;
mod run;
mod table;
#[cfg(test)]
mod tests;

pub use fault::ElfFault;
pub use file::{Elf, SEGMENTS_MOST, Segment};
pub use laws::elements_lay_their_segments;
pub use loading::load_elf;
pub use reading::read_elf;
pub use run::Run;
