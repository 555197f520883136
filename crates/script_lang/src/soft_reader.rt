ghost use Rattle.std.specs.Prelude.{◌≤◌, length, IfOk, IfErr};
ghost use Rattle.debug_model.specs.ScriptLines.{most_text};
ghost use Rattle.debug_model.specs.SoftGrammar.{IsSoftReadAs};
ghost use Rattle.script_lang.specs.Refused.{IsSoftRefusal};

use crate::line::read_soft_line;
use crate::reader::{MOST_TEXT, NO_MEMORY, TOO_LONG};
use debug_model::{ScriptError, SoftScript};
use std::alloc::Global;

/// Reads a script with software breakpoints: `soft ADDR` and `unsoft ADDR` beside the commands of every script. Errors are those of `parse`,
/// and an address that is no multiple of 4 from 0x80000000 is out of its range.
pub fn parse_soft(alloc: Global, text: &[u8]) -> Result<SoftScript, ScriptError>
    ensures read { IfOk result (IsSoftReadAs text.now) }
    ensures refused { IfErr result (IsSoftRefusal text.now) }
{
    if text.len() > MOST_TEXT {
        return Err(TOO_LONG);
    }
    read_soft_lines(alloc, text)
}

/// Reads a script with software breakpoints whose text is within the limit.
fn read_soft_lines(alloc: Global, text: &[u8]) -> Result<SoftScript, ScriptError>
    requires { length text.now ≤ most_text }
    ensures read { IfOk result (IsSoftReadAs text.now) }
    ensures refused { IfErr result (IsSoftRefusal text.now) }
{
    let mut script = SoftScript::new(alloc);
    let mut number: u32 = 0;
    for line in text.split(|byte| *byte == b'\n') {
        number = number.saturating_add(1);
        let reading = match read_soft_line(line, script.commands().len()) {
            Ok(reading) => reading,
            Err(fault) => return Err(ScriptError {
                line: number,
                fault,
            }),
        };
        if let Some(command) = reading {
            if script.push(command).is_err() {
                return Err(NO_MEMORY);
            }
        }
    }
    Ok(script)
}
