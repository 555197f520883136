//! What an instruction would read and write (RISC-V Debug Specification 1.0, "Match Control Type 6").

ghost use Rattle.std.specs.Prelude.{◌≡◌, ◌<◌};
ghost use Rattle.rv_model.specs.Core.{x_of, offset_by};
ghost use Rattle.rv_model.specs.Touch.{touches_nothing, reads, writes, reads_and_writes, touch, touch_of};
ghost use Rattle.rv_model.specs.OperandsFit.{OperandsFit};

use crate::hart::Hart;
use rv_mem::Ram;
use rv_model::{Insn, Size, Touch};
use rv_words::decode;

/// No access.
fn touches_nothing(hart: &Hart) -> Touch
    ensures { result ≡ touches_nothing hart.now }
{
    Touch {
        pc: hart.pc(),
        load: None,
        store: None,
    }
}

/// A read of `size` bytes.
fn reads(hart: &Hart, addr: u64, size: Size) -> Touch
    ensures { result ≡ reads hart.now addr size }
{
    Touch {
        pc: hart.pc(),
        load: Some((addr, size.count())),
        store: None,
    }
}

/// A write of `size` bytes.
fn writes(hart: &Hart, addr: u64, size: Size) -> Touch
    ensures { result ≡ writes hart.now addr size }
{
    Touch {
        pc: hart.pc(),
        load: None,
        store: Some((addr, size.count())),
    }
}

/// A read and a write of `size` bytes.
fn reads_and_writes(hart: &Hart, addr: u64, size: Size) -> Touch
    ensures { result ≡ reads_and_writes hart.now addr size }
{
    Touch {
        pc: hart.pc(),
        load: Some((addr, size.count())),
        store: Some((addr, size.count())),
    }
}

/// The address of a load or store.
fn offset_addr(hart: &Hart, rs1: u8, imm: u64) -> u64
    requires { rs1 < 32 }
    ensures { result ≡ offset_by (x_of hart.now rs1) imm }
{
    hart.x(rs1).wrapping_add(imm)
}

impl Hart {
    /// What an instruction would read and write if it stood at pc. Its operands fit its format, as those that `decode` gives do.
    pub fn touch_by(&self, insn: Insn) -> Touch
        requires { OperandsFit insn }
        ensures { result ≡ touch insn self.now }
    {
        match insn {
            Insn::Load(op, p) => reads(self, offset_addr(self, p.rs1, p.imm), op.size()),
            Insn::Store(size, p) => writes(self, offset_addr(self, p.rs1, p.imm), size),
            Insn::LoadReserved(width, p) => reads(self, self.x(p.rs1), width.size()),
            Insn::StoreConditional(width, p) => writes(self, self.x(p.rs1), width.size()),
            Insn::Amo(_, width, p) => reads_and_writes(self, self.x(p.rs1), width.size()),
            _ => touches_nothing(self),
        }
    }

    #[tactic(auto, unfolding(rv_model::specs::Touch::touch_of))]
    /// What the instruction at pc would read and write; nothing where there is none.
    pub fn touch(&self, ram: &Ram) -> Touch
        ensures { result ≡ touch_of self.now ram.now }
    {
        match ram.fetch(self.pc()) {
            Some(word) => match decode(word) {
                Some(insn) => self.touch_by(insn),
                None => touches_nothing(self),
            },
            None => touches_nothing(self),
        }
    }
}
