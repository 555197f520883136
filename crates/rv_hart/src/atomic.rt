//! Reservations and atomic memory operations (unprivileged manual, "Load-Reserved/Store-Conditional Instructions" and "Atomic Memory Operations").

ghost use Rattle.std.specs.Prelude.{◌≡◌, ◌<◌};
ghost use Rattle.rv_model.specs.Effects.{reserves, stores_if_reserved, updates};

use crate::extend::sign_extended;
use crate::hart::{Hart, load_cause, store_cause};
use rv_alu::alu;
use rv_mem::Ram;
use rv_model::{AluOp, AmoOp, Did, LoadReservedType, RType, Width};

/// What `sc` leaves in its destination where it stored.
const STORED: u64 = 0;

/// What `sc` leaves in its destination where it did not store.
const NOT_STORED: u64 = 1;

/// `lr`.
#[inline(always)]
pub fn load_reserved(hart: &mut Hart, ram: &mut Ram, width: Width, p: LoadReservedType) -> Did
    requires rd { p.rd < 32 }
    requires rs1 { p.rs1 < 32 }
    ensures step { record { core = hart.new; did = result } ≡ (reserves width p hart.old ram.old).step }
    ensures memory { ram.new ≡ (reserves width p hart.old ram.old).memory }
{
    let addr = hart.x(p.rs1);
    match ram.load(addr, width.size()) {
        Ok(value) => {
            ram.reserve(hart.id(), addr);
            hart.set_rd(p.rd, sign_extended(width, value))
        }
        Err(fault) => hart.trap(load_cause(fault), addr),
    }
}

/// `sc`.
#[inline(always)]
pub fn store_conditional(hart: &mut Hart, ram: &mut Ram, width: Width, p: RType) -> Did
    requires rd { p.rd < 32 }
    requires rs1 { p.rs1 < 32 }
    requires rs2 { p.rs2 < 32 }
    ensures step { record { core = hart.new; did = result } ≡ (stores_if_reserved width p hart.old ram.old).step }
    ensures memory { ram.new ≡ (stores_if_reserved width p hart.old ram.old).memory }
{
    let addr = hart.x(p.rs1);
    if let Err(fault) = ram.load(addr, width.size()) {
        return hart.trap(store_cause(fault), addr);
    }
    if !ram.reserved(hart.id(), addr, width.size()) {
        ram.drop_reservation(hart.id());
        return hart.set_rd(p.rd, NOT_STORED);
    }
    let _ = ram.store(addr, width.size(), hart.x(p.rs2));
    ram.drop_reservation(hart.id());
    hart.set_rd(p.rd, STORED)
}

/// An atomic memory operation.
#[inline(always)]
pub fn update(hart: &mut Hart, ram: &mut Ram, op: AmoOp, width: Width, p: RType) -> Did
    requires rd { p.rd < 32 }
    requires rs1 { p.rs1 < 32 }
    requires rs2 { p.rs2 < 32 }
    ensures step { record { core = hart.new; did = result } ≡ (updates op width p hart.old ram.old).step }
    ensures memory { ram.new ≡ (updates op width p hart.old ram.old).memory }
{
    let addr = hart.x(p.rs1);
    match ram.load(addr, width.size()) {
        Ok(value) => {
            let old = sign_extended(width, value);
            let _ = ram.store(
                addr,
                width.size(),
                alu(AluOp::Amo(op, width), old, hart.x(p.rs2)),
            );
            hart.set_rd(p.rd, old)
        }
        Err(fault) => hart.trap(store_cause(fault), addr),
    }
}
