//! Instructions on control and status registers (unprivileged manual, "Zicsr").

ghost use Rattle.std.specs.Prelude.{◌≡◌, ◌<◌};
ghost use Rattle.rv_model.specs.Core.{x_of};
ghost use Rattle.rv_model.specs.Effects.{swaps_csr};
ghost use Rattle.rv_model.specs.CsrChanges.{change_by, writes_by};

use crate::csr_change::{changed, writes};
use crate::hart::{Hart, ILLEGAL_INSTRUCTION};
use rv_mem::Ram;
use rv_model::{CsrChange, CsrImmType, CsrType, Did};

#[tactic(auto, using(crate::proofs::CsrSeen::refused_read_only))]
/// The destination takes a register's old value, mip's from memory; where the instruction writes, the register takes the changed one.
fn swap(
    hart: &mut Hart,
    ram: &Ram,
    writes: bool,
    change: CsrChange,
    number: u16,
    operand: u64,
    rd: u8,
) -> Did
    requires { rd < 32 }
    ensures { record { core = hart.new; did = result } ≡ swaps_csr writes (change_by change) number operand rd hart.old ram.now }
{
    let Some(old) = hart.csr_read_with(number, ram) else {
        return hart.trap(ILLEGAL_INSTRUCTION, 0);
    };
    if !writes {
        return hart.set_rd(rd, old);
    }
    match hart.csr_write(number, changed(change, old, operand)) {
        Ok(()) => hart.set_rd(rd, old),
        Err(_) => hart.trap(ILLEGAL_INSTRUCTION, 0),
    }
}

/// An instruction on a control and status register whose operand is a register.
#[inline(always)]
pub fn csr_register(hart: &mut Hart, ram: &Ram, change: CsrChange, p: CsrType) -> Did
    requires rd { p.rd < 32 }
    requires rs1 { p.rs1 < 32 }
    ensures { record { core = hart.new; did = result }
        ≡ swaps_csr (writes_by change p.rs1) (change_by change) p.csr (x_of hart.old p.rs1) p.rd hart.old ram.now }
{
    let operand = hart.x(p.rs1);
    swap(
        hart,
        ram,
        writes(change, p.rs1),
        change,
        p.csr,
        operand,
        p.rd,
    )
}

/// An instruction on a control and status register whose operand is an immediate.
#[inline(always)]
pub fn csr_immediate(hart: &mut Hart, ram: &Ram, change: CsrChange, p: CsrImmType) -> Did
    requires { p.rd < 32 }
    ensures { record { core = hart.new; did = result } ≡ swaps_csr (writes_by change p.imm) (change_by change) p.csr p.imm p.rd hart.old ram.now }
{
    swap(
        hart,
        ram,
        writes(change, p.imm),
        change,
        p.csr,
        u64::from(p.imm),
        p.rd,
    )
}
