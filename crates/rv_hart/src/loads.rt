//! Loads (unprivileged manual, "Load and Store Instructions").

ghost use Rattle.std.specs.Prelude.{◌≡◌, ◌<◌};
ghost use Rattle.rv_model.specs.Effects.{loads};

use crate::extend::extended;
use crate::hart::{Hart, load_cause};
use rv_mem::Ram;
use rv_model::{Did, IType, LoadOp};

/// A load.
#[inline(always)]
pub fn load(hart: &mut Hart, ram: &Ram, op: LoadOp, p: IType) -> Did
    requires rd { p.rd < 32 }
    requires rs1 { p.rs1 < 32 }
    ensures { record { core = hart.new; did = result } ≡ (loads op p hart.old ram.now).step }
{
    let addr = hart.x(p.rs1).wrapping_add(p.imm);
    match ram.load(addr, op.size()) {
        Ok(value) => hart.set_rd(p.rd, extended(op, value)),
        Err(fault) => hart.trap(load_cause(fault), addr),
    }
}
