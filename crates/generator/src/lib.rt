//! Programs and sessions for measuring, each made from a number.
//!
//! The random words of the number, its seed, make an image, a loop of 1,000 instructions, and a script that stops in it 100 times.
#![tactic(auto)]

ghost use Rattle.std.specs.Prelude.{◌≡◌, IfOk};
ghost use Rattle.generator.specs.Image.{program, IsImageOf};
ghost use Rattle.generator.specs.Commands.{commands};

mod laws;
mod program;
mod random;
mod session;

use debug_model::Script;
pub use laws::one_image;
pub use program::instruction;
use program::{INSTRUCTIONS, image};
use random::random_words;
pub use session::block;
use session::script;
use std::alloc::{AllocError, Global};

/// The image and the script of a seed.
///
/// The image is a program for the start of RAM, 1,001 words long: an instruction of each of the first 1,000 random words,
/// and a jump back to the first. The script halts the hart, and then stops it at 100 of these instructions in turn, each from
/// two further random words.
pub fn generate(alloc: Global, seed: u64) -> Result<(Vec<u8>, Script), AllocError>
    ensures image { IfOk result (λ made. IsImageOf (program seed) made.0.items) }
    ensures script { IfOk result (λ made. made.1 ≡ commands seed) }
{
    let words = random_words(alloc, seed)?;
    let (for_program, for_session) = words.split_at(INSTRUCTIONS);
    Ok((image(alloc, for_program)?, script(alloc, for_session)?))
}

#[cfg(test)]
mod tests;
