//! Instructions that compute (unprivileged manual, "Integer Computational Instructions" and "M Extension").

ghost use Rattle.std.specs.Prelude.{◌≡◌, ◌<◌};
ghost use Rattle.rv_model.specs.Core.{offset_by};
ghost use Rattle.rv_model.specs.Effects.{by_immediate, by_amount, by_registers, sets_rd};

use crate::hart::Hart;
use rv_alu::alu;
use rv_model::{AluOp, Did, IType, ImmediateOp, RType, RegisterOp, ShiftType, UType};

/// `lui`.
#[inline(always)]
pub fn lui(hart: &mut Hart, p: UType) -> Did
    requires { p.rd < 32 }
    ensures { record { core = hart.new; did = result } ≡ sets_rd p.rd p.imm hart.old }
{
    hart.set_rd(p.rd, p.imm)
}

/// `auipc`.
#[inline(always)]
pub fn auipc(hart: &mut Hart, p: UType) -> Did
    requires { p.rd < 32 }
    ensures { record { core = hart.new; did = result } ≡ sets_rd p.rd (offset_by hart.old.pc p.imm) hart.old }
{
    let value = hart.pc().wrapping_add(p.imm);
    hart.set_rd(p.rd, value)
}

/// An operation on a register and an immediate.
#[inline(always)]
pub fn immediate(hart: &mut Hart, op: ImmediateOp, p: IType) -> Did
    requires rd { p.rd < 32 }
    requires rs1 { p.rs1 < 32 }
    ensures { record { core = hart.new; did = result } ≡ by_immediate op p hart.old }
{
    let value = alu(AluOp::Immediate(op), hart.x(p.rs1), p.imm);
    hart.set_rd(p.rd, value)
}

/// A shift of a register by an amount.
#[inline(always)]
pub fn shift(hart: &mut Hart, op: AluOp, p: ShiftType) -> Did
    requires rd { p.rd < 32 }
    requires rs1 { p.rs1 < 32 }
    ensures { record { core = hart.new; did = result } ≡ by_amount op p hart.old }
{
    let value = alu(op, hart.x(p.rs1), u64::from(p.amount));
    hart.set_rd(p.rd, value)
}

/// An operation on two registers.
#[inline(always)]
pub fn register(hart: &mut Hart, op: RegisterOp, p: RType) -> Did
    requires rd { p.rd < 32 }
    requires rs1 { p.rs1 < 32 }
    requires rs2 { p.rs2 < 32 }
    ensures { record { core = hart.new; did = result } ≡ by_registers op p hart.old }
{
    let value = alu(AluOp::Register(op), hart.x(p.rs1), hart.x(p.rs2));
    hart.set_rd(p.rd, value)
}
