//! One hart with its debug part: its turns, what a debugger asks of it, and its registers and program buffer in Debug Mode.
//!
//! For those above, a `DebugHart` is the hart of the model. Each call here changes it exactly as the model says.
#![tactic(auto)]

mod debug_hart;
mod ebreak;
mod ran_word;
mod start;

pub use debug_hart::DebugHart;
pub use ran_word::RanWord;
pub use rv_model::{DebugDid, Turned};
pub use start::Start;
