//! Scans of a TAP's registers over any wire: each becomes the bytes of its clocks, sent as one piece, and its answers come
//! back as bits. Where the wire tells its chip, what comes out, what stays and the rounds that pass are the definition's,
//! and a fault leaves a chip that has taken a front of the path and no more. Beside it stand scans without a chip, whose
//! answers are given.
#![tactic(auto)]

mod batch;
mod calls;
mod scanner;
mod scripted_scan;

pub use batch::{idle_batch, put_scan, read_bits, reset_batch};
pub use scanner::Scanner;
pub use scripted_scan::ScriptedScan;
