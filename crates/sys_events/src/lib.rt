//! The chip's schedules and its journal.
//!
//! A schedule gives the rounds of a list again and again: one that the caller lists, or one that a seed makes.
//! A journal is a list of points that is told to proofs and kept nowhere: it counts them, so that noting a point takes no memory and cannot fail.
#![tactic(auto)]

mod journal;
mod list_schedule;
mod place;
mod seed_schedule;
mod told;

pub use journal::Journal;
pub use list_schedule::ListSchedule;
pub use seed_schedule::{MOST_BUSY, MOST_HARTS, SeedSchedule, WORDS, first_words};
