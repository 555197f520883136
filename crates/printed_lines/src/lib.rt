//! The lines that a session prints. A `Line` says what happened, and `Line::text` is its exact text, with its line feed;
//! `Line::is_error` says whether it tells of something that was refused. Both are those of `abstract_debugger`, for every line
//! whatever its numbers. The parts that a text is made of are public too, for lines of other kinds.
#![tactic(auto)]

mod digits;
mod halted;
mod line;
mod line_text;
mod slot_line;
#[cfg(test)]
mod tests;
mod text;
mod words;

pub use digits::{
    ADDRESS_LENGTH, DECIMAL_MOST, push_address, push_decimal, push_hex_byte, push_hex_word,
};
pub use line::Line;
pub use line_text::{LINE_MOST, LineText, push_word};
