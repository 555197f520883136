ghost use Rattle.std.specs.Prelude.{◌≤◌, length, IfOk, IfErr};
ghost use Rattle.debug_model.specs.Grammar.{IsReadAs};
ghost use Rattle.debug_model.specs.ScriptLines.{most_text};
ghost use Rattle.script_lang.specs.Refused.{IsRefusal};

use crate::line::read_line;
use debug_model::{Script, ScriptError, ScriptFault};
use std::alloc::Global;

/// The most bytes of a script's text.
pub const MOST_TEXT: usize = 1_048_576;

/// A text over the limit, which is no line's fault.
pub(crate) const TOO_LONG: ScriptError = ScriptError {
    line: 0,
    fault: ScriptFault::TooManyLines,
};

/// Want of memory, which is no line's fault.
pub(crate) const NO_MEMORY: ScriptError = ScriptError {
    line: 0,
    fault: ScriptFault::NoMemory,
};

/// Reads a script. A text of more than 1,048,576 bytes is refused as line 0 with `TooManyLines`, before a line is read.
/// Any other error is the first faulty line, counted from 1, and its first fault from left to right, or want of memory
/// with line 0. A line past the greatest `u32` has that number.
pub fn parse(alloc: Global, text: &[u8]) -> Result<Script, ScriptError>
    ensures read { IfOk result (IsReadAs text.now) }
    ensures refused { IfErr result (IsRefusal text.now) }
{
    if text.len() > MOST_TEXT {
        return Err(TOO_LONG);
    }
    read_lines(alloc, text)
}

/// Reads a script whose text is within the limit.
fn read_lines(alloc: Global, text: &[u8]) -> Result<Script, ScriptError>
    requires { length text.now ≤ most_text }
    ensures read { IfOk result (IsReadAs text.now) }
    ensures refused { IfErr result (IsRefusal text.now) }
{
    let mut script = Script::new(alloc);
    let mut number: u32 = 0;
    for line in text.split(|byte| *byte == b'\n') {
        number = number.saturating_add(1);
        let reading = match read_line(line, script.commands().len()) {
            Ok(reading) => reading,
            Err(fault) => return Err(ScriptError {
                line: number,
                fault,
            }),
        };
        if let Some(command) = reading {
            if script.push(command).is_err() {
                return Err(NO_MEMORY);
            }
        }
    }
    Ok(script)
}
