use crate::abstract_command::AbstractCommand;

/// One step of an abstract command that is under way.
#[derive(Clone, Copy, Debug, PartialEq, Eq)]
pub enum Micro {
    /// The transfer between the data words and the register of this command.
    Transfer(AbstractCommand),
    /// This word of the program buffer is executed.
    Run(u32),
}

/// It only fills the places of a fixed list that hold no step.
impl Default for Micro {
    fn default() -> Self {
        Micro::Run(0)
    }
}
