//! A sink that counts the lines and the error lines that it takes, in the place of a transcript.
//!
//! Its counts are those of the bytes that it took, however they were cut into puts; it keeps none of the bytes, and takes no memory.
//! A line is counted at its line feed, and an error line is one that begins with `error: `.
//! At the text of printed lines the counts are the number of the lines, and of the error lines among them.
#![tactic(auto)]

mod laws;
mod line_counts;
mod place;
mod taken;
#[cfg(test)]
mod tests;

pub use laws::lines_are_counted;
pub use line_counts::LineCounts;
