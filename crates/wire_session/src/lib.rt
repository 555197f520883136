//! A session over any wire to a chip, from its opening to the end of its stream.
//!
//! `run_session` runs a script over a wire and ends the stream by `Q`, alone, but not behind a fault of the wire. Over any wire each printed line is one of the
//! plan's with what the chip answered; where the wire tells a chip as loaded, the sentences of the headline hold of it.
#![tactic(auto)]

mod session;
mod stream_end;

pub use session::{know_ranges, run_over_scan, run_session};
pub use stream_end::{QUIT, end_stream, sends_quit, unclosed};
