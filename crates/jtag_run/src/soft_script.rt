//! A script that may set software breakpoints, which is read and judged before a session.

ghost use Rattle.std.specs.Prelude.{◌≡◌, ◌≤◌, IfErr, IfOk, OnOk, length};
ghost use Rattle.debug_model.specs.ScriptLines.{most_text};
ghost use Rattle.debug_model.specs.SoftGrammar.{IsSoftReadAs};
ghost use Rattle.jt_base.specs.Files.{asked_more};
ghost use Rattle.jtag_run.specs.ScriptFault.{SoftScriptCause};
ghost use Rattle.jtag_run.specs.SoftRefusal.{HoldsSoftScript, SoftScriptFileCause};

use crate::refusal::Refusal;
use crate::script_text::ScriptRefusal;
use debug_model::{ScriptError, ScriptFault, SoftScript};
use jt_base::{FileFault, Files};
use script_lang::{MOST_TEXT, parse_soft};
use std::alloc::Global;

/// The script of a text of at most 1,048,576 bytes.
fn read_soft_script(alloc: Global, text: &[u8]) -> Result<SoftScript, ScriptRefusal>
    requires { length text.now ≤ most_text }
    ensures accepted { IfOk result (IsSoftReadAs text.now) }
    ensures refused { IfErr result (SoftScriptCause text.now) }
{
    match parse_soft(alloc, text) {
        Ok(script) => Ok(script),
        Err(error) => match error.fault {
            ScriptFault::NoMemory => Err(ScriptRefusal::OutOfMemory),
            _ => Err(ScriptRefusal::Refused(error)),
        },
    }
}

/// Reads and judges the script of this name.
pub fn load_soft_script<'a, F: Files>(
    alloc: Global,
    files: &mut F,
    name: &'a str,
) -> Result<SoftScript, Refusal<'a>>
    ensures commands { IfOk result (HoldsSoftScript (F.held files.old) name.now) }
    ensures cause { IfErr result (SoftScriptFileCause name.now
        (record { held = F.held files.old; asked = F.asked files.old; faults = F.fault_count files.old })
        (record { held = F.held files.new; asked = F.asked files.new; faults = F.fault_count files.new })) }
    ensures held { F.held files.new ≡ F.held files.old }
    ensures asked { OnOk result (F.asked files.new ≡ asked_more name.now (F.asked files.old)) }
    ensures later { F.fault_count files.old ≤ F.fault_count files.new }
{
    let text = match files.read(alloc, name, MOST_TEXT) {
        Ok(text) => text,
        Err(FileFault::Failed) => return Err(Refusal::File(name)),
        Err(FileFault::TooLong) => {
            return Err(Refusal::Script(ScriptError {
                line: 0,
                fault: ScriptFault::TooManyLines,
            }));
        }
        Err(FileFault::NoMemory) => return Err(Refusal::OutOfMemory),
    };
    match read_soft_script(alloc, &text) {
        Ok(script) => Ok(script),
        Err(ScriptRefusal::Refused(error)) => Err(Refusal::Script(error)),
        Err(ScriptRefusal::OutOfMemory) => Err(Refusal::OutOfMemory),
    }
}
