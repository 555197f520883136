//! Words of a published assembler, and words that are no instruction.

mod assembled;
mod no_instructions;

use assembled::WORDS;
use no_instructions::NO_INSTRUCTIONS;
use rv_words::{decode, encode};

/// The word without the bits that its instruction leaves free: aq and rl of atomics, the fields of fences.
fn without_free_bits(word: u32) -> u32 {
    match word & 0x7f {
        0x2f => word & 0xf9ff_ffff,
        0x0f => word & 0x707f,
        _ => word,
    }
}

#[test]
fn words_of_an_assembler(rt: HostRuntime) {
    for &(word, expected) in &WORDS {
        let decoded = decode(word);
        assert!(rt; decoded == Some(expected), "{word:#010x}");
        let insn = decoded.expect(&rt, "an instruction");
        assert_eq!(rt; encode(insn), without_free_bits(word), "{word:#010x}");
    }
}

#[test]
fn words_that_are_no_instruction(rt: HostRuntime) {
    for &(word, what) in &NO_INSTRUCTIONS {
        assert!(rt; decode(word).is_none(), "{what}: {word:#010x}");
    }
}
