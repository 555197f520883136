//! The words of a command line: which program they name, and with which options.
//!
//! `read_words` answers exactly the job that the words write, and refuses exactly the words that write none. Of these `why_refused` names the word at fault.
//! Which options a program takes stands in one table; that the words fit it is what the crate `clap` proves of a simple command.
#![tactic(auto)]

mod chains;
mod fault;
mod job;
mod options;
mod reading;
mod values;
mod why;

pub use fault::WordsFault;
pub use job::{ChipOptions, Inputs, Job, Way};
pub use reading::read_words;
pub use why::{Refused, why_refused};
