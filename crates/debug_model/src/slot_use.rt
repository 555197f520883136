use crate::command::WatchKind;

/// What a trigger slot is used for (RISC-V Debug Specification 1.0, "Sdtrig (ISA Extension)").
#[derive(Clone, Copy, Debug, PartialEq, Eq)]
pub enum SlotUse {
    /// Nothing.
    Free,
    /// It stops the hart before the instruction at this address.
    Break(u64),
    /// It stops the hart before an instruction that reads or writes the byte at this address, by its kind.
    Watch(WatchKind, u64),
    /// It stops the hart after so many instructions and traps. Armed it is from 1 to 16,383; read it is what is left.
    Count(u16),
    /// It was programmed by someone else; this is its `tdata1`.
    Other(u64),
}
