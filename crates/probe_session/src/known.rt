//! What a session knows of its chip from one command to the next, so that it asks less.

ghost use Rattle.std.specs.Prelude.{◌≡◌, true, false};
ghost use Rattle.probe_session.specs.Known.{IsKnownBeside, is_selected, is_stepped, known_behind, shows_step, without_step};

use crate::shown::Shown;
use debug_model::{Command, Path};
use printed_lines::Line;
use rv_model::Cause;

/// What is known of the session's hart.
#[derive(Clone, Copy, Debug, PartialEq, Eq)]
pub enum Known {
    /// Nothing.
    Nothing,
    /// The debug module selects it.
    Selected,
    /// That, and it is halted behind a whole step, so that none of its slots has a hit.
    Stepped,
}

impl Known {
    /// Whether the debug module is known to select the hart.
    pub(crate) fn is_selected(self) -> bool
        ensures { result ≡ is_selected self }
    {
        match self {
            Known::Nothing => false,
            Known::Selected | Known::Stepped => true,
        }
    }

    /// Whether it is known to be halted behind a whole step.
    pub(crate) fn is_stepped(self) -> bool
        ensures { result ≡ is_stepped self }
    {
        match self {
            Known::Nothing | Known::Selected => false,
            Known::Stepped => true,
        }
    }

    /// What is known of the selection alone.
    fn without_step(self) -> Known
        ensures { result ≡ without_step self }
    {
        match self {
            Known::Nothing => Known::Nothing,
            Known::Selected | Known::Stepped => Known::Selected,
        }
    }
}

/// Whether what a command shows is a line that says that the hart halted behind a whole step.
fn shows_step(shown: &Option<Shown>) -> bool
    ensures { result ≡ shows_step shown.now }
{
    match shown {
        Some(Shown::Line(Line::Halted { cause, .. })) => *cause == Cause::Step.number(),
        _ => false,
    }
}

/// What is known of the hart behind a command that was done and shows this, which left the session with this hart and path: it found it with this knowledge.
pub(crate) fn known_behind(
    command: Command,
    shown: &Option<Shown>,
    hart: u16,
    path: Path,
    known: Known,
) -> Known
    ensures is { result ≡ known_behind command shown.now hart path known }
    ensures beside { IsKnownBeside shown.now result }
{
    match command {
        // Its Look has selected that hart, which the session has not chosen if it is not there.
        Command::Hart(looked_at) => {
            if looked_at == hart {
                Known::Selected
            } else {
                Known::Nothing
            }
        }
        Command::Step(_) => {
            if shows_step(shown) {
                Known::Stepped
            } else {
                Known::Selected
            }
        }
        Command::Read(..) | Command::Write(..) | Command::Dump(..) => match path {
            Path::Progbuf => Known::Selected,
            Path::Bus => known.without_step(),
        },
        Command::Idcode | Command::Via(_) | Command::End => known.without_step(),
        Command::State
        | Command::Halt
        | Command::Resume
        | Command::Wait(_)
        | Command::Regs
        | Command::Reg(_)
        | Command::SetReg(..)
        | Command::Break(_)
        | Command::Watch(..)
        | Command::Count(_)
        | Command::Clear(_)
        | Command::Slots
        | Command::Ebreak(_) => Known::Selected,
    }
}
