ghost use Rattle.std.specs.Prelude.{◌≡◌, IfOk, length};
ghost use Rattle.generator.specs.SeedWords.{words_of};

use crate::program::INSTRUCTIONS;
use crate::session::BLOCKS;
use rand_core::SeedableRng;
use rand_core::utils::NextWord;
use rand_xoshiro::SplitMix64;
use std::alloc::{AllocError, Global};

/// How many random words an image and a script are made of: one for each instruction, and two for each block.
const WORDS: usize = INSTRUCTIONS + 2 * BLOCKS;

/// The first words of SplitMix64 made from the seed's eight little-endian bytes (Vigna, `splitmix64.c`).
pub fn random_words(alloc: Global, seed: u64) -> Result<Vec<u64>, AllocError>
    ensures words { IfOk result (λ words. words.items ≡ words_of seed) }
    ensures count { IfOk result (λ words. length words.items ≡ WORDS) }
{
    let mut random = SplitMix64::from_seed(seed.to_le_bytes());
    let mut words = Vec::new(alloc);
    for _ in 0..WORDS {
        words.push(random.next_word())?;
    }
    Ok(words)
}
