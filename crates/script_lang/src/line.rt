ghost use Rattle.std.specs.Prelude.{◌≡◌, ◌==◌, ◌<◌, length, position, IfOk, IfSome};
ghost use Rattle.debug_model.specs.Command.{IsWithinRanges};
ghost use Rattle.debug_model.specs.ScriptText.{content_of, is_plain, is_allowed, number_sign};
ghost use Rattle.debug_model.specs.Grammar.{line_read_after};
ghost use Rattle.debug_model.specs.ScriptLines.{line_read_after_in};
ghost use Rattle.debug_model.specs.SoftCommand.{IsSoftCommand};
ghost use Rattle.debug_model.specs.SoftGrammar.{soft_command_read};
ghost use Rattle.script_lang.specs.Takes.{HasWords, TakesLast};

use crate::forms::command;
use crate::soft_forms::soft_command;
use crate::words::{Words, is_blank};
use debug_model::{Command, ScriptFault, SoftCommand};

/// The most commands of a script.
const MOST_COMMANDS: usize = 1000;

/// What a line is after so many commands: no command, one command or a fault.
pub(crate) fn read_line(line: &[u8], commands: usize) -> Result<Option<Command>, ScriptFault>
    ensures reading { result ≡ line_read_after commands line.now }
    ensures within { IfOk result (λ reading. IfSome reading IsWithinRanges) }
{
    let mut words = line_words(line, commands)?;
    let Some(name) = words.next() else {
        return Ok(None);
    };
    let command = command(name, &mut words)?;
    last(&words)?;
    Ok(Some(command))
}

/// The same where software breakpoints are there.
pub(crate) fn read_soft_line(
    line: &[u8],
    commands: usize,
) -> Result<Option<SoftCommand>, ScriptFault>
    ensures reading { result ≡ line_read_after_in soft_command_read commands line.now }
    ensures within { IfOk result (λ reading. IfSome reading IsSoftCommand) }
{
    let mut words = line_words(line, commands)?;
    let Some(name) = words.next() else {
        return Ok(None);
    };
    let command = soft_command(name, &mut words)?;
    last(&words)?;
    Ok(Some(command))
}

/// The words of a line, which is no command or may be one more after so many.
fn line_words(line: &[u8], commands: usize) -> Result<Words<'_>, ScriptFault>
    ensures { HasWords commands line.now result }
{
    let content = without_comment(line);
    if !is_plain(content) {
        return Err(ScriptFault::NotAscii);
    }
    let words = Words::of(content);
    if !words.is_empty() && commands >= MOST_COMMANDS {
        return Err(ScriptFault::TooManyLines);
    }
    Ok(words)
}

/// That no word is left.
fn last(words: &Words) -> Result<(), ScriptFault>
    ensures { TakesLast result words.now }
{
    if words.is_empty() {
        Ok(())
    } else {
        Err(ScriptFault::Extra)
    }
}

/// Whether each byte may stand outside comments.
fn is_plain(content: &[u8]) -> bool
    ensures { result ≡ is_plain content.now }
{
    content.iter().all(|byte| is_allowed(*byte))
}

/// Whether a byte may stand outside comments.
fn is_allowed(byte: u8) -> bool
    ensures { result ≡ is_allowed byte }
{
    is_blank(byte) || matches!(byte, b' '..=b'~')
}

/// The line up to its comment.
fn without_comment(line: &[u8]) -> &[u8]
    ensures { result.now ≡ content_of line.now }
{
    match comment_start(line) {
        Some(start) => &line[..start],
        None => line,
    }
}

/// The place of the line's first number sign.
fn comment_start(line: &[u8]) -> Option<usize>
    ensures place { result ≡ position (λ byte. byte == number_sign) line.now }
    ensures inside { IfSome result (λ start. start < length line.now) }
{
    line.iter().position(|byte| *byte == b'#')
}
