ghost use Rattle.std.specs.Prelude.{◌≡◌, ◌+◌, ◌*◌, ◌≤◌, ◌++◌, All, IfOk, OnOk, length};
ghost use Rattle.debug_model.specs.Command.{IsWithinRanges, most_commands};
ghost use Rattle.generator.specs.Commands.{block, session};

use crate::program::{INSTRUCTIONS, register};
use debug_model::{Command, RegName, Script};
use rv_model::register_number::X0;
use std::alloc::{AllocError, Global};

/// How many blocks of commands a script has.
pub const BLOCKS: usize = 100;

/// How many commands a block has.
const BLOCK_COMMANDS: usize = 6;

/// Where RAM starts, and with it the program.
const RAM_BASE: u64 = 0x8000_0000;

/// How many looks a block's `wait` has.
const LOOKS: u16 = 1000;

/// The commands of two random words: they stop the hart at an instruction that the first picks, step it once, and read a register that the second picks.
pub fn block(place: u64, number: u64) -> [Command; BLOCK_COMMANDS]
    ensures value { result ≡ block place number }
    ensures within { All IsWithinRanges result }
{
    [
        Command::Break(RAM_BASE + 4 * (place % INSTRUCTIONS as u64)),
        Command::Resume,
        Command::Wait(LOOKS),
        Command::Step(1),
        Command::Reg(RegName(X0 + u16::from(register(number)))),
        Command::Clear(0),
    ]
}

/// The script of these random words: it halts the hart, and then has a block for each two of them.
pub fn script(alloc: Global, words: &[u64]) -> Result<Script, AllocError>
    requires { 2 * BLOCKS ≤ length words.now }
    ensures { IfOk result (λ script. script ≡ session BLOCKS words.now) }
{
    let mut script = Script::new(alloc);
    script.push(Command::Halt)?;
    for number in 0..BLOCKS {
        append(
            &mut script,
            &block(words[2 * number], words[2 * number + 1]),
        )?;
    }
    Ok(script)
}

/// Appends these commands.
fn append(script: &mut Script, commands: &[Command]) -> Result<(), AllocError>
    requires few { length script.old + length commands.now ≤ most_commands }
    requires within { All IsWithinRanges commands.now }
    ensures { OnOk result (script.new ≡ script.old ++ commands.now) }
{
    for command in commands {
        script.push(*command)?;
    }
    Ok(())
}
