use crate::register_name::RegName;
use rv_model::Size;

/// The way on which `read`, `write` and `dump` reach memory.
#[derive(Clone, Copy, Debug, PartialEq, Eq)]
pub enum Path {
    /// By instructions in the program buffer, executed by a halted hart.
    Progbuf,
    /// By the debug module's own system bus accesses.
    Bus,
}

/// What a data watchpoint stops at.
#[derive(Clone, Copy, Debug, PartialEq, Eq)]
pub enum WatchKind {
    /// At loads.
    Load,
    /// At stores.
    Store,
    /// At both.
    Access,
}

/// One command of a script. The ranges of its numbers are those of `docs/SCRIPT.md`.
#[derive(Clone, Copy, Debug, PartialEq, Eq)]
pub enum Command {
    /// `idcode`: resets the TAP and prints the IDCODE.
    Idcode,
    /// `hart N`: selects a hart, from 0 to 1,023.
    Hart(u16),
    /// `state`: prints where the hart stands.
    State,
    /// `halt`: halts the hart.
    Halt,
    /// `resume`: lets the hart go.
    Resume,
    /// `step K`: up to K single steps, from 1 to 1,000.
    Step(u16),
    /// `wait K`: up to K looks until the hart is halted, from 1 to 1,000.
    Wait(u16),
    /// `regs`: prints pc and x1 to x31.
    Regs,
    /// `reg NAME`: reads a register.
    Reg(RegName),
    /// `reg NAME VALUE`: writes a register, and reads it.
    SetReg(RegName, u64),
    /// `read SIZE ADDR COUNT`: reads elements upwards, from 1 to 512, whose end is at most 2^64.
    Read(Size, u64, u16),
    /// `write SIZE ADDR VALUE COUNT`: stores a value of that size upwards, with the ranges of `Read`.
    Write(Size, u64, u64, u16),
    /// `dump ADDR LEN`: reads bytes, from 1 to 512, whose end is at most 2^64.
    Dump(u64, u16),
    /// `via PATH`: chooses how memory is reached.
    Via(Path),
    /// `break ADDR`: arms a slot that stops before the instruction at an address.
    Break(u64),
    /// `watch KIND ADDR`: arms a slot that stops before an access to an address.
    Watch(WatchKind, u64),
    /// `count N`: arms a slot that stops after N executed turns, from 1 to 16,383.
    Count(u16),
    /// `clear SLOT`: frees a slot, from 0 to 3.
    Clear(u8),
    /// `slots`: prints the four slots.
    Slots,
    /// `ebreak on` or `ebreak off`: whether the hart's ebreak halts it.
    Ebreak(bool),
    /// `end`: ends the run.
    End,
}
