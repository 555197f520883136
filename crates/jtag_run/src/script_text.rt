ghost use Rattle.std.specs.Prelude.{◌≡◌, ◌⊎◌, ◌≤◌, IfOk, IfErr, length};
ghost use Rattle.debug_model.specs.ScriptLines.{most_text};
ghost use Rattle.jtag_run.specs.ScriptFault.{ScriptCause};
ghost use Rattle.jtag_run.specs.ScriptText.{IsAcceptedText};

use debug_model::{Script, ScriptError, ScriptFault};
use script_lang::parse;
use std::alloc::Global;

/// Why a script is not run.
#[derive(Clone, Copy)]
pub enum ScriptRefusal {
    /// The text is refused.
    Refused(ScriptError),
    /// No memory was left for the commands.
    OutOfMemory,
}

/// The script of a text of at most 1,048,576 bytes.
pub fn read_script(alloc: Global, text: &[u8]) -> Result<Script, ScriptRefusal>
    requires { length text.now ≤ most_text }
    ensures accepted { IfOk result (IsAcceptedText text.now) }
    ensures refused { IfErr result (ScriptCause text.now) }
{
    match parse(alloc, text) {
        Ok(script) => Ok(script),
        Err(error) => match error.fault {
            ScriptFault::NoMemory => Err(ScriptRefusal::OutOfMemory),
            _ => Err(ScriptRefusal::Refused(error)),
        },
    }
}
