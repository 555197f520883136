use crate::status::Status;
use chip_core::LoadFault;
use debug_model::ScriptError;
use elf_load::ElfFault;

/// Why a run was refused before its session.
#[derive(Clone, Copy)]
pub enum Refusal<'a> {
    /// The words.
    Words,
    /// The file of this name could not be read.
    File(&'a str),
    /// The script, at this line and for this fault.
    Script(ScriptError),
    /// The image, or the chip that it is to be loaded into.
    Image(LoadFault),
    /// The ELF file that stands in an image's place.
    Elf(ElfFault),
    /// The net could not be opened.
    Open,
    /// No memory was left.
    OutOfMemory,
}

impl Refusal<'_> {
    ghost use Rattle.std.specs.Prelude.{◌≡◌};
    ghost use Rattle.jtag_run.specs.Refusal.{status_of};

    /// The status of a run that is refused so.
    pub fn status(self) -> Status
        ensures { result ≡ status_of self.entry }
    {
        match self {
            Refusal::Words => Status::Words,
            Refusal::File(_) => Status::File,
            Refusal::Script(_) => Status::Script,
            Refusal::Image(_) | Refusal::Elf(_) => Status::Image,
            Refusal::Open => Status::Wire,
            Refusal::OutOfMemory => Status::OutOfMemory,
        }
    }
}
