//! Breakpoints that a program holds (RISC-V Debug Specification 1.0, "Debug Control and Status", the field `ebreakm`).

ghost use Rattle.std.specs.Prelude.{◌≡◌};
ghost use Rattle.rv_model.specs.Turn.{is_ebreak_at};

use rv_hart::Hart;
use rv_mem::Ram;
use rv_model::Insn;
use rv_words::decode;

#[tactic(auto, unfolding(rv_model::specs::Turn::is_ebreak_at))]
/// Whether the word at pc is `ebreak`; there is none where there is no word.
pub fn is_ebreak_at(hart: &Hart, ram: &Ram) -> bool
    ensures { result ≡ is_ebreak_at hart.now ram.now }
{
    match ram.fetch(hart.pc()) {
        Some(word) => match decode(word) {
            Some(Insn::Ebreak) => true,
            Some(_) => false,
            None => false,
        },
        None => false,
    }
}
