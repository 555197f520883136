//! The bytes of the bit-bang stream, on both of its sides: what each byte means to a chip, the bytes of the clocks that a
//! host sends, and the bits of the answers. Every byte is either one of the sixteen signs or refused, and a batch holds
//! only signs that leave the stream open. Nothing here knows a state of the TAP.
#![tactic(auto)]

mod answer;
mod batch;
mod signs;

pub use answer::answer_bit;
pub use batch::Batch;
pub use signs::{BadByte, classify};
