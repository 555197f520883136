//! Instruction words: `decode` reads a word by the instruction table, and `encode` writes the word of an instruction.
//! Each undoes the other, but for the bits of a word that its row of the table leaves free: `rv_word_laws` has the laws.
#![tactic(auto)]

mod code;
mod decoder;
mod encoder;
mod fields;
mod mask;
mod opcode;

pub use decoder::decode;
pub use encoder::encode;
