ghost use Rattle.std.specs.Prelude.{◌≡◌, ◌<◌, ◌≤◌, List, [], ◌∷◌, ◌++◌, length, OnOk, OnErr, All};
ghost use Rattle.debug_model.specs.Command.{most_commands};
ghost use Rattle.debug_model.specs.SoftCommand.{IsSoftCommand};

use crate::soft_command::SoftCommand;
use std::alloc::{AllocError, Global};
use std::marker::Model;

/// A list of at most 1,000 commands, each within its ranges, of a script with software breakpoints.
#[derive(Debug, Drop)]
pub struct SoftScript {
    commands: Vec<SoftCommand>,
}

impl Model for SoftScript {
    ghost use Rattle.std.specs.Prelude.{List};
    ghost use Rattle.debug_model.specs.declared.soft_command.SoftCommand.{SoftCommand};
    ghost use Rattle.debug_model.specs.SoftCommand.{IsSoftScript};

    ghost Value = { List SoftCommand };

    ghost view = { λ s. s.commands.items };

    ghost invariant = { λ s. IsSoftScript s.commands.items };
}

impl SoftScript {
    /// The script with no command.
    pub fn new(alloc: Global) -> SoftScript
        ensures { result ≡ [] }
    {
        SoftScript {
            commands: Vec::new(alloc),
        }
    }

    /// Appends a command. A refusal is want of memory, and changes nothing.
    pub fn push(&mut self, command: SoftCommand) -> Result<(), AllocError>
        requires few { length self.old < most_commands }
        requires within { IsSoftCommand command }
        ensures ok { OnOk result (self.new ≡ self.old ++ command ∷ []) }
        ensures err { OnErr result (self.new ≡ self.old) }
    {
        self.commands.push(command)?;
        Ok(())
    }

    /// The commands, in order.
    pub fn commands(&self) -> &[SoftCommand]
        ensures list { result.now ≡ self.now }
        ensures few { length self.now ≤ most_commands }
        ensures within { All IsSoftCommand self.now }
    {
        self.commands.as_slice()
    }
}
