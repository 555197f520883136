//! The language of scripts. `parse` reads a text as the grammar of `debug_model` does: it gives the script, or the first
//! faulty line with its first fault; a text that is too long is refused before a line is read. `print` writes each command in its one spelling, which
//! `parse` reads as this script. `parse_soft` and `print_soft` do the same of scripts with software breakpoints.
#![tactic(auto)]

mod arguments;
mod forms;
mod laws;
mod line;
mod number;
mod printer;
mod reader;
mod soft_forms;
mod soft_printer;
mod soft_reader;
mod spelled;
mod words;

pub use laws::{one_reading_of_a_line, one_reading_of_a_text};
pub use number::read_number;
pub use printer::print;
pub use reader::{MOST_TEXT, parse};
pub use soft_printer::print_soft;
pub use soft_reader::parse_soft;
