ghost use Rattle.std.specs.Prelude.{◌≡◌};
ghost use Rattle.debug_model.specs.ScriptFault.{fault_number};

use std::fmt::{Display, Formatter};
use std::{error, fmt};
use thiserror::Error;

/// Why a script is refused.
#[derive(Clone, Copy, Debug, PartialEq, Eq, Error)]
pub enum ScriptFault {
    /// A byte outside comments that is no tab, no carriage return and not from 0x20 to 0x7e.
    #[error("a byte outside the comment is no ASCII text")]
    NotAscii,
    /// A command, a register name or a fixed word that is in no table.
    #[error("a word is no command, no register and no other word that may stand there")]
    UnknownWord,
    /// The line ends where a word is wanted.
    #[error("the line ends where a word is wanted")]
    Missing,
    /// A word after the command's last.
    #[error("a word follows the command's last")]
    Extra,
    /// A word that is no number where one is wanted.
    #[error("a word is no number where one is wanted")]
    BadNumber,
    /// A number that is out of its range.
    #[error("a number is out of its range")]
    OutOfRange,
    /// The line is the 1,001st with a word; at line 0, the text has more than 1,048,576 bytes.
    #[error("there are more than 1000 lines with words")]
    TooManyLines,
    /// There was no memory for the commands.
    #[error("out of memory")]
    NoMemory,
}

impl ScriptFault {
    /// The fault's number, from 1 to 8.
    pub fn number(self) -> u8
        ensures { result ≡ fault_number self }
    {
        match self {
            ScriptFault::NotAscii => 1,
            ScriptFault::UnknownWord => 2,
            ScriptFault::Missing => 3,
            ScriptFault::Extra => 4,
            ScriptFault::BadNumber => 5,
            ScriptFault::OutOfRange => 6,
            ScriptFault::TooManyLines => 7,
            ScriptFault::NoMemory => 8,
        }
    }
}

/// A refused script: the first faulty line, counted from 1, and its first fault. Line 0 is the text as a whole, which is
/// too long or for whose commands there was no memory.
#[derive(Clone, Copy, Debug, PartialEq, Eq)]
pub struct ScriptError {
    /// The line, from 1; a line past the greatest `u32` has that number. 0 is the text as a whole.
    pub line: u32,
    /// What is wrong there.
    pub fault: ScriptFault,
}

impl Display for ScriptError {
    fn fmt<W: fmt::Write>(&self, f: &mut Formatter<W>) -> fmt::Result {
        let ScriptError { line, fault } = *self;
        match (line, fault) {
            (0, ScriptFault::TooManyLines) => write!(f, "there are more than 1048576 bytes"),
            (0, _) => write!(f, "{fault}"),
            _ => write!(f, "line {line}: {fault}"),
        }
    }
}

impl error::Error for ScriptError {}
