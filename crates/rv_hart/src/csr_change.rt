//! What an instruction makes of a control and status register (unprivileged manual, "Zicsr").

ghost use Rattle.std.specs.Prelude.{◌≡◌};
ghost use Rattle.rv_model.specs.CsrChanges.{change_by, writes_by};

use rv_model::CsrChange;

/// What an old value becomes.
pub fn changed(change: CsrChange, old: u64, operand: u64) -> u64
    ensures { result ≡ change_by change old operand }
{
    match change {
        CsrChange::Replace => operand,
        CsrChange::Set => old | operand,
        CsrChange::Clear => old & (u64::MAX - operand),
    }
}

/// Whether the instruction writes, by its source: the number of a register, or an immediate.
pub fn writes(change: CsrChange, source: u8) -> bool
    ensures { result ≡ writes_by change source }
{
    match change {
        CsrChange::Replace => true,
        CsrChange::Set => source != 0,
        CsrChange::Clear => source != 0,
    }
}
