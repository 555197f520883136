ghost use Rattle.std.specs.Prelude.{◌≡◌, ◌<◌, ◌≤◌, List, [], ◌∷◌, ◌++◌, length, OnOk, OnErr, All};
ghost use Rattle.debug_model.specs.Command.{IsWithinRanges, most_commands};

use crate::command::Command;
use std::alloc::{AllocError, Global};
use std::marker::Model;

/// A list of at most 1,000 commands, each within its ranges.
#[derive(Debug, Drop)]
pub struct Script {
    commands: Vec<Command>,
}

impl Model for Script {
    ghost use Rattle.std.specs.Prelude.{List};
    ghost use Rattle.debug_model.specs.declared.command.Command.{Command};
    ghost use Rattle.debug_model.specs.Command.{IsScript};

    ghost Value = { List Command };

    ghost view = { λ s. s.commands.items };

    ghost invariant = { λ s. IsScript s.commands.items };
}

impl Script {
    /// The script with no command.
    pub fn new(alloc: Global) -> Script
        ensures { result ≡ [] }
    {
        Script {
            commands: Vec::new(alloc),
        }
    }

    /// Appends a command. A refusal is want of memory, and changes nothing.
    pub fn push(&mut self, command: Command) -> Result<(), AllocError>
        requires few { length self.old < most_commands }
        requires within { IsWithinRanges command }
        ensures ok { OnOk result (self.new ≡ self.old ++ command ∷ []) }
        ensures err { OnErr result (self.new ≡ self.old) }
    {
        self.commands.push(command)?;
        Ok(())
    }

    /// The commands, in order.
    pub fn commands(&self) -> &[Command]
        ensures list { result.now ≡ self.now }
        ensures few { length self.now ≤ most_commands }
        ensures within { All IsWithinRanges self.now }
    {
        self.commands.as_slice()
    }
}
