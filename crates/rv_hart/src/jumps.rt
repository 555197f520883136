//! Jumps and branches (unprivileged manual, "Control Transfer Instructions").

ghost use Rattle.std.specs.Prelude.{◌≡◌, ◌<◌, ◌/◌, ◌*◌};
ghost use Rattle.rv_model.specs.Core.{x_of, offset_by};
ghost use Rattle.rv_model.specs.Effects.{jumps, branches};
ghost use Rattle.rv_model.specs.Conditions.{holds};

use crate::condition::meets;
use crate::hart::{Hart, INSTRUCTION_SIZE, MISALIGNED_TARGET};
use rv_model::{BType, Condition, Did, IType, JType};

/// Leaves the address behind the instruction in a register and jumps, or traps where the target is not a multiple of 4.
fn jump(hart: &mut Hart, rd: u8, target: u64) -> Did
    requires { rd < 32 }
    ensures { record { core = hart.new; did = result } ≡ jumps rd target hart.old }
{
    if target % INSTRUCTION_SIZE != 0 {
        return hart.trap(MISALIGNED_TARGET, target);
    }
    let link = hart.next_pc();
    hart.set_x(rd, link);
    hart.go_to(target);
    Did::Retired
}

/// `jal`.
#[inline(always)]
pub fn jal(hart: &mut Hart, p: JType) -> Did
    requires { p.rd < 32 }
    ensures { record { core = hart.new; did = result } ≡ jumps p.rd (offset_by hart.old.pc p.imm) hart.old }
{
    let target = hart.pc().wrapping_add(p.imm);
    jump(hart, p.rd, target)
}

/// `jalr`, whose target loses its lowest bit.
#[inline(always)]
pub fn jalr(hart: &mut Hart, p: IType) -> Did
    requires rd { p.rd < 32 }
    requires rs1 { p.rs1 < 32 }
    ensures { record { core = hart.new; did = result } ≡ jumps p.rd (offset_by (x_of hart.old p.rs1) p.imm / 2 * 2) hart.old }
{
    let target = hart.x(p.rs1).wrapping_add(p.imm) / 2 * 2;
    jump(hart, p.rd, target)
}

/// A branch: a jump that leaves no address, where its condition is met.
#[inline(always)]
pub fn branch(hart: &mut Hart, condition: Condition, p: BType) -> Did
    requires rs1 { p.rs1 < 32 }
    requires rs2 { p.rs2 < 32 }
    ensures { record { core = hart.new; did = result } ≡ branches (holds condition (x_of hart.old p.rs1) (x_of hart.old p.rs2)) p hart.old }
{
    if meets(condition, hart.x(p.rs1), hart.x(p.rs2)) {
        let target = hart.pc().wrapping_add(p.imm);
        jump(hart, 0, target)
    } else {
        hart.advance()
    }
}
