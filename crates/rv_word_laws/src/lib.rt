//! Laws of `decode` and `encode` together: what each function ensures is the law, and no program needs to call it.
#![tactic(auto)]

ghost use Rattle.std.specs.Prelude.{◌≡◌, Some, option_map, bit_and};
ghost use Rattle.rv_model.specs.Rows.{meaning};
ghost use Rattle.rv_model.specs.OperandsFit.{OperandsFit};
ghost use Rattle.rv_words.specs.KeptBits.{kept_bits};

use rv_model::Insn;
use rv_words::{decode, encode};

/// An instruction is read back from its word.
pub fn decode_undoes_encode(insn: Insn) -> Option<Insn>
    requires { OperandsFit insn }
    ensures { result ≡ Some insn }
{
    decode(encode(insn))
}

/// Words that mean the same instruction differ at most in the bits that it leaves free.
pub fn words_of_one_instruction_agree(left: u32, right: u32, insn: Insn)
    requires left { meaning left ≡ Some insn }
    requires right { meaning right ≡ Some insn }
    ensures { bit_and left (kept_bits insn) ≡ bit_and right (kept_bits insn) }
{}

/// A word that means an instruction is written back without the bits that the instruction leaves free.
pub fn encode_undoes_decode(word: u32) -> Option<u32>
    ensures { result ≡ option_map (λ insn. bit_and word (kept_bits insn)) (meaning word) }
{
    let insn = decode(word)?;
    let again = encode(insn);
    words_of_one_instruction_agree(again, word, insn);
    Some(again)
}
