ghost use Rattle.std.specs.Prelude.{◌≡◌, ◌++◌, OnOk, IfOk};
ghost use Rattle.debug_model.specs.SoftCommand.{IsSoftCommand};
ghost use Rattle.debug_model.specs.SoftGrammar.{IsSoftReadAs, soft_spelled_script, soft_spelling};

use crate::printer::write_command;
use crate::spelled::Argument::Address;
use crate::spelled::write_words;
use debug_model::{SoftCommand, SoftScript};
use std::alloc::{AllocError, Global};

/// The text of a script with software breakpoints: the one spelling of each command, with a line feed at its end.
pub fn print_soft(alloc: Global, script: &SoftScript) -> Result<Vec<u8>, AllocError>
    ensures spelled { IfOk result (λ text. text.items ≡ soft_spelled_script script.now) }
    ensures read_again { IfOk result (λ text. IsSoftReadAs text.items script.now) }
{
    let mut text = Vec::new(alloc);
    for command in script.commands() {
        write_soft_command(&mut text, *command)?;
        text.push(b'\n')?;
    }
    Ok(text)
}

/// Appends the spelling of a command.
#[tactic(auto, unfolding(debug_model::specs::SoftGrammar::soft_spelling, debug_model::specs::Spelling::spelling))]
fn write_soft_command(text: &mut Vec<u8>, command: SoftCommand) -> Result<(), AllocError>
    requires { IsSoftCommand command }
    ensures { OnOk result (text.new.items ≡ text.old.items ++ soft_spelling command) }
{
    match command {
        SoftCommand::Plain(plain) => write_command(text, plain),
        SoftCommand::Soft(address) => write_words(text, b"soft", &[Address(address)]),
        SoftCommand::Unsoft(address) => write_words(text, b"unsoft", &[Address(address)]),
    }
}
