ghost use Rattle.std.specs.Prelude.{◌≡◌, ◌<◌, ◌≤◌, IfOk};
ghost use Rattle.rv_model.specs.Memory.{ram_base};
ghost use Rattle.debug_model.specs.Command.{all_addresses};
ghost use Rattle.debug_model.specs.SoftCommand.{IsSoftAddress, IsSoftCommand};
ghost use Rattle.debug_model.specs.SoftGrammar.{of_word, soft_address, soft_command_read};
ghost use Rattle.script_lang.specs.Takes.{Takes};

use crate::arguments::ranged;
use crate::forms::command;
use crate::words::Words;
use debug_model::{ScriptFault, SoftCommand};

/// Where RAM begins.
const RAM_BASE: u64 = 0x8000_0000;

/// The bytes of the word that an ebreak takes.
const WORD_BYTES: u64 = 4;

/// The command that a line's first word names where software breakpoints are there, with its arguments from the words after it.
#[tactic(auto, unfolding(debug_model::specs::SoftGrammar::soft_command_read, debug_model::specs::SoftGrammar::soft_form, debug_model::specs::SoftGrammar::plain_form))]
pub(crate) fn soft_command(name: &[u8], words: &mut Words) -> Result<SoftCommand, ScriptFault>
    ensures taken { Takes result words.new (soft_command_read name.now words.old) }
    ensures within { IfOk result IsSoftCommand }
{
    if b"soft".as_slice() == name {
        Ok(SoftCommand::Soft(word_address(words)?))
    } else if b"unsoft".as_slice() == name {
        Ok(SoftCommand::Unsoft(word_address(words)?))
    } else {
        Ok(SoftCommand::Plain(command(name, words)?))
    }
}

/// The address of a word, from the base of RAM on.
#[tactic(auto, unfolding(debug_model::specs::SoftGrammar::soft_address))]
fn word_address(words: &mut Words) -> Result<u64, ScriptFault>
    ensures taken { Takes result words.new (soft_address words.old) }
    ensures within { IfOk result (λ address. IsSoftAddress address × (address < all_addresses)) }
{
    let address = ranged(words, RAM_BASE, u64::MAX)?;
    of_word(address)
}

/// The address, where it is that of a word.
#[tactic(auto, unfolding(debug_model::specs::SoftGrammar::of_word))]
fn of_word(address: u64) -> Result<u64, ScriptFault>
    requires { ram_base ≤ address }
    ensures word { result ≡ of_word address }
    ensures within { IfOk result (λ same. (same ≡ address) × IsSoftAddress same) }
{
    if address % WORD_BYTES == 0 {
        Ok(address)
    } else {
        Err(ScriptFault::OutOfRange)
    }
}
