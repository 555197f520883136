//! The unit that keeps and performs abstract commands.

ghost use Rattle.std.specs.Prelude.{◌≡◌};
ghost use Rattle.debug_model.specs.Commands.{busy, reset_commands};

mod registers;
mod run;
mod start;

use crate::steps::{Steps, is_under_way};
use arrayvec::ArrayVec;
use debug_model::{AbstractCommand, Abstractauto, Cmderr};
use std::marker::Model;

/// The words, the kept command, the error, and what is still to be done of a command that is under way.
#[derive(Drop)]
pub struct CommandUnit {
    data0: u32,
    data1: u32,
    progbuf0: u32,
    progbuf1: u32,
    progbuf2: u32,
    progbuf3: u32,
    auto: Abstractauto,
    command: AbstractCommand,
    error: Cmderr,
    steps: Steps,
    late: bool,
}

impl Model for CommandUnit {
    ghost use Rattle.debug_model.specs.Commands.{CommandUnit};

    ghost Value = { CommandUnit };

    ghost view = { λ u. record {
      data0 = u.data0;
      data1 = u.data1;
      progbuf0 = u.progbuf0;
      progbuf1 = u.progbuf1;
      progbuf2 = u.progbuf2;
      progbuf3 = u.progbuf3;
      auto = u.auto;
      command = u.command;
      error = u.error;
      steps = u.steps.items;
      late = u.late;
    } };
}

impl CommandUnit {
    /// The unit as a reset of the debug module leaves it.
    pub fn new() -> Self
        ensures { result ≡ reset_commands }
    {
        CommandUnit {
            data0: 0,
            data1: 0,
            progbuf0: 0,
            progbuf1: 0,
            progbuf2: 0,
            progbuf3: 0,
            auto: Abstractauto::from_word(0),
            command: AbstractCommand::from_word(0),
            error: Cmderr::Fine,
            steps: ArrayVec::new(),
            late: false,
        }
    }

    /// Whether a command is under way (`abstractcs`, the field `busy`).
    #[inline(always)]
    pub fn is_busy(&self) -> bool
        ensures { result ≡ busy self.now }
    {
        is_under_way(&self.steps)
    }

    /// The error of the last command that had one (`abstractcs`, the field `cmderr`).
    pub fn cmderr(&self) -> Cmderr
        ensures { result ≡ self.now.error }
    {
        self.error
    }
}
