//! Stores (unprivileged manual, "Load and Store Instructions").

ghost use Rattle.std.specs.Prelude.{◌≡◌, ◌<◌};
ghost use Rattle.rv_model.specs.Effects.{stores};

use crate::hart::{Hart, store_cause};
use rv_mem::Ram;
use rv_model::{Did, SType, Size};

/// A store of `size` bytes.
#[inline(always)]
pub fn store(hart: &mut Hart, ram: &mut Ram, size: Size, p: SType) -> Did
    requires rs1 { p.rs1 < 32 }
    requires rs2 { p.rs2 < 32 }
    ensures step { record { core = hart.new; did = result } ≡ (stores size p hart.old ram.old).step }
    ensures memory { ram.new ≡ (stores size p hart.old ram.old).memory }
{
    let addr = hart.x(p.rs1).wrapping_add(p.imm);
    match ram.store(addr, size, hart.x(p.rs2)) {
        Ok(()) => hart.advance(),
        Err(fault) => hart.trap(store_cause(fault), addr),
    }
}
