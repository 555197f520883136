ghost use Rattle.std.specs.Prelude.{◌≡◌};
ghost use Rattle.abstract_debugger.specs.Lines.{is_error};
ghost use Rattle.printed_lines.specs.Line.{line_of};

use arrayvec::ArrayVec;
use debug_model::{Path, SlotUse};
use rv_model::{Size, SlotSet};

/// One line that a session prints. Registers go by their number for abstract commands
/// (RISC-V Debug Specification 1.0, Abstract Register Numbers).
#[derive(Drop)]
pub enum Line {
    /// The IDCODE that was read.
    Idcode(u32),
    /// This hart is selected.
    Selected(u16),
    /// The hart is halted.
    Halted {
        /// Where it goes on.
        pc: u64,
        /// The cause's number in `dcsr`.
        cause: u8,
        /// Which slots have a hit. They are shown behind cause 2, a trigger, alone.
        hits: SlotSet,
    },
    /// The hart is running.
    Running,
    /// The hart was let go.
    Resumed,
    /// A register's number, and its value.
    Register(u16, u64),
    /// An element of memory: its address, its size and its value, of which as many bytes as the size has are shown.
    Element(u64, Size, u64),
    /// So many elements were stored.
    Wrote(u16),
    /// Up to 16 bytes of memory, from an address on.
    Row(u64, ArrayVec<u8, 16>),
    /// Memory is reached by this path.
    Via(Path),
    /// Whether the hart's ebreak halts it.
    Ebreak(bool),
    /// A slot's number, what it is used for, and whether its hit is to be shown.
    Slot(u8, SlotUse, bool),
    /// A program of so many bytes was laid into memory.
    Loaded(u32),
    /// A software breakpoint stands at this address now.
    SoftSet(u64),
    /// The software breakpoint at this address is taken out.
    SoftClear(u64),
    /// An error: there is no such hart.
    NoHart(u16),
    /// An error: the hart is running.
    IsRunning(u16),
    /// An error: an access to memory failed at this address.
    MemoryFault(u64),
    /// An error: the register with this number can't be reached.
    RegisterRefused(u16),
    /// An error: each slot is in use.
    NoFreeSlot,
    /// An error: the slot to be freed is free.
    SlotNotInUse(u8),
    /// An error: a software breakpoint stands at this address already.
    SoftIsSet(u64),
    /// An error: no software breakpoint stands at this address.
    SoftNotSet(u64),
    /// An error: as many software breakpoints stand as there may be.
    NoFreeSoftBreak,
    /// An error: software breakpoints stand, and need that ebreaks halt.
    SoftBreaksAreSet,
}

impl Line {
    /// Is it the line of an error?
    pub fn is_error(&self) -> bool
        ensures { result ≡ is_error (line_of self.now) }
    {
        match self {
            Line::NoHart(_)
            | Line::IsRunning(_)
            | Line::MemoryFault(_)
            | Line::RegisterRefused(_)
            | Line::NoFreeSlot
            | Line::SlotNotInUse(_)
            | Line::SoftIsSet(_)
            | Line::SoftNotSet(_)
            | Line::NoFreeSoftBreak
            | Line::SoftBreaksAreSet => true,
            _ => false,
        }
    }
}
