//! The start of the kept command (RISC-V Debug Specification 1.0, "Abstract Commands" and "Access Register").

ghost use Rattle.std.specs.Prelude.{◌≡◌, true, option_map};
ghost use Rattle.debug_model.specs.Commands.{can_transfer, has_register, is_supported, refusal, serves, start, started_by, steps_of};

use super::CommandUnit;
use crate::read_only::is_read_only;
use crate::steps::Steps;
use arrayvec::ArrayVec;
use debug_model::{AbstractCommand, Cmderr, Micro};
use hart_debug::DebugHart;

/// `cmdtype` of an access to a register.
const ACCESS_REGISTER: u8 = 0;

/// `aarsize` for 32 bits.
pub const SIZE_WORD: u8 = 2;

/// `aarsize` for 64 bits.
pub const SIZE_DOUBLE: u8 = 3;

/// Whether this chip has such a command.
fn is_supported(command: AbstractCommand) -> bool
    ensures { result ≡ is_supported command }
{
    let has_size = command.aarsize == SIZE_WORD || command.aarsize == SIZE_DOUBLE;
    command.cmdtype == ACCESS_REGISTER
        && !command.aarpostincrement
        && (!command.transfer || has_size)
}

/// Whether the hart is there and stays halted: no resume is asked of it.
fn serves(hart: Option<&DebugHart>) -> bool
    ensures { result ≡ serves (option_map (λ h. h.now) hart.entry) }
{
    match hart {
        Some(hart) => hart.is_halted() && !hart.resume_waits(),
        None => false,
    }
}

/// Whether the register of a transfer is there, and writable where it is to be written.
fn can_transfer(hart: Option<&DebugHart>, command: AbstractCommand) -> bool
    requires { serves (option_map (λ h. h.now) hart) ≡ true }
    ensures { result ≡ can_transfer (option_map (λ h. h.now) hart.entry) command }
{
    if !command.transfer {
        return true;
    }
    match hart {
        Some(hart) => {
            hart.reg_read(command.regno).is_some()
                && !(command.write && is_read_only(command.regno))
        }
        None => false,
    }
}

/// Why a command is refused, with the first reason, or `Fine`.
#[tactic(auto, unfolding(debug_model::specs::Commands::refusal))]
fn refusal(hart: Option<&DebugHart>, command: AbstractCommand) -> Cmderr
    ensures { result ≡ refusal (option_map (λ h. h.now) hart.entry) command }
{
    if !is_supported(command) {
        Cmderr::NotSupported
    } else if !serves(hart) {
        Cmderr::HaltResume
    } else if !can_transfer(hart, command) {
        Cmderr::Exception
    } else {
        Cmderr::Fine
    }
}

impl CommandUnit {
    /// The kept command starts on the selected hart, of a unit that has none under way; with an error set nothing starts.
    pub(super) fn start(&mut self, hart: Option<&DebugHart>)
        ensures { self.new ≡ start (option_map (λ h. h.now) hart.entry) self.old }
    {
        match self.error {
            Cmderr::Fine => self.start_or_refuse(refusal(hart, self.command)),
            Cmderr::Busy => {}
            Cmderr::NotSupported => {}
            Cmderr::Exception => {}
            Cmderr::HaltResume => {}
        }
    }

    /// The kept command starts where nothing refuses it.
    fn start_or_refuse(&mut self, refusal: Cmderr)
        ensures { self.new ≡ started_by refusal self.old }
    {
        match refusal {
            Cmderr::Fine => self.steps = self.steps_of_command(),
            Cmderr::Busy => self.error = Cmderr::Busy,
            Cmderr::NotSupported => self.error = Cmderr::NotSupported,
            Cmderr::Exception => self.error = Cmderr::Exception,
            Cmderr::HaltResume => self.error = Cmderr::HaltResume,
        }
    }

    /// The micro steps of the kept command: the transfer, and then the words of the program buffer.
    fn steps_of_command(&self) -> Steps
        ensures { result.items ≡ steps_of self.now }
    {
        let mut steps = ArrayVec::new();
        if self.command.transfer {
            steps.push(Micro::Transfer(self.command));
        }
        if self.command.postexec {
            steps.push(Micro::Run(self.progbuf0));
            steps.push(Micro::Run(self.progbuf1));
            steps.push(Micro::Run(self.progbuf2));
            steps.push(Micro::Run(self.progbuf3));
        }
        steps
    }
}
