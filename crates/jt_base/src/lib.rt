//! What every other crate rests on: lists of bits, files and a sink.
//!
//! `Bits` is exactly a list of at most 64 bits, whichever numbers and shifts made it.
//! A reading of a file and a put into a sink answer a fault only where the count of faults rose by one, or where the file is
//! told and too long, or where memory ran out; what they answer on Ok is what the told files hold, and what the told sink took.
//! At any other call the count stands still.
//! The forms in memory tell everything and fail exactly at the listed calls, at a missing name and past the room; the forms
//! over the real files and standard output tell nothing and count their faults.
#![tactic(auto)]

mod bits;
mod disk_files;
mod faults;
mod files;
mod laws;
mod memory_files;
mod memory_sink;
mod sink;
mod std_sink;

pub use bits::Bits;
pub use disk_files::{DiskFiles, read_whole};
pub use faults::count_fault;
pub use files::{FileFault, Files};
pub use laws::bits_spell_one_number;
pub use memory_files::{MemoryFile, MemoryFiles};
pub use memory_sink::MemorySink;
pub use sink::{Sink, SinkFault};
pub use std_sink::StdSink;
