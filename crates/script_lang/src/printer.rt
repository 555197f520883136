ghost use Rattle.std.specs.Prelude.{◌≡◌, ◌++◌, ◌∷◌, [], map, OnOk, IfOk};
ghost use Rattle.std.specs.List.{join_with_byte};
ghost use Rattle.debug_model.specs.ScriptText.{space};
ghost use Rattle.debug_model.specs.Spelling.{spelling, spelled_script};
ghost use Rattle.debug_model.specs.Grammar.{IsReadAs};
ghost use Rattle.debug_model.specs.Command.{IsWithinRanges};

use crate::spelled::{Argument, write_words};
use debug_model::{Command, Script, path_word, switch_word, watch_word};
use std::alloc::{AllocError, Global};

/// The script's text: the one spelling of each command, with a line feed at its end.
pub fn print(alloc: Global, script: &Script) -> Result<Vec<u8>, AllocError>
    ensures spelled { IfOk result (λ text. text.items ≡ spelled_script script.now) }
    ensures read_again { IfOk result (λ text. IsReadAs text.items script.now) }
{
    let mut text = Vec::new(alloc);
    for command in script.commands() {
        write_command(&mut text, *command)?;
        text.push(b'\n')?;
    }
    Ok(text)
}

/// Appends the spelling of a command.
#[tactic(auto, unfolding(debug_model::specs::Spelling::spelling))]
pub(crate) fn write_command(text: &mut Vec<u8>, command: Command) -> Result<(), AllocError>
    requires { IsWithinRanges command }
    ensures { OnOk result (text.new.items ≡ text.old.items ++ spelling command) }
{
    use Argument::{Address, Number, Word};
    match command {
        Command::Idcode => write_words(text, b"idcode", &[]),
        Command::Hart(hart) => write_words(text, b"hart", &[Number(u64::from(hart))]),
        Command::State => write_words(text, b"state", &[]),
        Command::Halt => write_words(text, b"halt", &[]),
        Command::Resume => write_words(text, b"resume", &[]),
        Command::Step(repeats) => write_words(text, b"step", &[Number(u64::from(repeats))]),
        Command::Wait(repeats) => write_words(text, b"wait", &[Number(u64::from(repeats))]),
        Command::Regs => write_words(text, b"regs", &[]),
        Command::Reg(register) => write_words(text, b"reg", &[Word(register.name())]),
        Command::SetReg(register, value) => write_words(
            text,
            b"reg",
            &[Word(register.name()), Address(value)],
        ),
        Command::Read(size, address, count) => write_words(
            text,
            b"read",
            &[
                Number(u64::from(size.count())),
                Address(address),
                Number(u64::from(count)),
            ],
        ),
        Command::Write(size, address, value, count) => write_words(
            text,
            b"write",
            &[
                Number(u64::from(size.count())),
                Address(address),
                Address(value),
                Number(u64::from(count)),
            ],
        ),
        Command::Dump(address, count) => write_words(
            text,
            b"dump",
            &[Address(address), Number(u64::from(count))],
        ),
        Command::Via(path) => write_words(text, b"via", &[Word(path_word(path))]),
        Command::Break(address) => write_words(text, b"break", &[Address(address)]),
        Command::Watch(kind, address) => write_words(
            text,
            b"watch",
            &[Word(watch_word(kind)), Address(address)],
        ),
        Command::Count(turns) => write_words(text, b"count", &[Number(u64::from(turns))]),
        Command::Clear(slot) => write_words(text, b"clear", &[Number(u64::from(slot))]),
        Command::Slots => write_words(text, b"slots", &[]),
        Command::Ebreak(is_on) => write_words(text, b"ebreak", &[Word(switch_word(is_on))]),
        Command::End => write_words(text, b"end", &[]),
    }
}
