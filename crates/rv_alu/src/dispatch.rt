ghost use Rattle.std.specs.Prelude.{◌≡◌};
ghost use Rattle.rv_model.specs.Alu.{alu_of};

use crate::arithmetic::{add, addw, slt, sltu, sub, subw};
use crate::atomics::{
    max_double, max_word, maxu_double, maxu_word, min_double, min_word, minu_double, minu_word,
};
use crate::divide::{div, divu, divuw, divw, rem, remu, remuw, remw};
use crate::multiply::{mul, mulh, mulhsu, mulhu, mulw};
use crate::shifts::{sll, sllw, sra, sraw, srl, srlw};
use crate::words::word;
use rv_model::{AluOp, AmoOp, ImmediateOp, RegisterOp, ShiftOp, Width, WordShiftOp};

/// What an operation gives.
#[inline(always)]
pub fn alu(op: AluOp, a: u64, b: u64) -> u64
    ensures { result ≡ alu_of op a b }
{
    match op {
        AluOp::Immediate(op) => immediate(op, a, b),
        AluOp::Shift(op) => shift(op, a, b),
        AluOp::WordShift(op) => word_shift(op, a, b),
        AluOp::Register(op) => register(op, a, b),
        AluOp::Amo(op, Width::Word) => amo_word(op, a, b),
        AluOp::Amo(op, Width::DoubleWord) => amo_double(op, a, b),
    }
}

/// An operation on a register and an immediate.
#[tactic(auto, unfolding(rv_model::specs::Alu::alu_of))]
fn immediate(op: ImmediateOp, a: u64, b: u64) -> u64
    ensures { result ≡ alu_of (AluOp.Immediate op) a b }
{
    match op {
        ImmediateOp::Addi => add(a, b),
        ImmediateOp::Slti => slt(a, b),
        ImmediateOp::Sltiu => sltu(a, b),
        ImmediateOp::Xori => a ^ b,
        ImmediateOp::Ori => a | b,
        ImmediateOp::Andi => a & b,
        ImmediateOp::Addiw => addw(a, b),
    }
}

/// A shift by a constant.
#[tactic(auto, unfolding(rv_model::specs::Alu::alu_of))]
fn shift(op: ShiftOp, a: u64, b: u64) -> u64
    ensures { result ≡ alu_of (AluOp.Shift op) a b }
{
    match op {
        ShiftOp::Slli => sll(a, b),
        ShiftOp::Srli => srl(a, b),
        ShiftOp::Srai => sra(a, b),
    }
}

/// A 32-bit shift by a constant.
#[tactic(auto, unfolding(rv_model::specs::Alu::alu_of))]
fn word_shift(op: WordShiftOp, a: u64, b: u64) -> u64
    ensures { result ≡ alu_of (AluOp.WordShift op) a b }
{
    match op {
        WordShiftOp::Slliw => sllw(a, b),
        WordShiftOp::Srliw => srlw(a, b),
        WordShiftOp::Sraiw => sraw(a, b),
    }
}

/// An operation on two registers.
#[tactic(auto, unfolding(rv_model::specs::Alu::alu_of))]
fn register(op: RegisterOp, a: u64, b: u64) -> u64
    ensures { result ≡ alu_of (AluOp.Register op) a b }
{
    match op {
        // RV64I.
        RegisterOp::Add => add(a, b),
        RegisterOp::Sll => sll(a, b),
        RegisterOp::Slt => slt(a, b),
        RegisterOp::Sltu => sltu(a, b),
        RegisterOp::Xor => a ^ b,
        RegisterOp::Srl => srl(a, b),
        RegisterOp::Or => a | b,
        RegisterOp::And => a & b,
        RegisterOp::Sub => sub(a, b),
        RegisterOp::Sra => sra(a, b),
        // M.
        RegisterOp::Mul => mul(a, b),
        RegisterOp::Mulh => mulh(a, b),
        RegisterOp::Mulhsu => mulhsu(a, b),
        RegisterOp::Mulhu => mulhu(a, b),
        RegisterOp::Div => div(a, b),
        RegisterOp::Divu => divu(a, b),
        RegisterOp::Rem => rem(a, b),
        RegisterOp::Remu => remu(a, b),
        // RV64I, on 32 bits.
        RegisterOp::Addw => addw(a, b),
        RegisterOp::Sllw => sllw(a, b),
        RegisterOp::Srlw => srlw(a, b),
        RegisterOp::Subw => subw(a, b),
        RegisterOp::Sraw => sraw(a, b),
        // M, on 32 bits.
        RegisterOp::Mulw => mulw(a, b),
        RegisterOp::Divw => divw(a, b),
        RegisterOp::Divuw => divuw(a, b),
        RegisterOp::Remw => remw(a, b),
        RegisterOp::Remuw => remuw(a, b),
    }
}

/// An atomic memory operation on four bytes.
#[tactic(auto, unfolding(rv_model::specs::Alu::alu_of))]
fn amo_word(op: AmoOp, a: u64, b: u64) -> u64
    ensures { result ≡ alu_of (AluOp.Amo op Width.Word) a b }
{
    match op {
        AmoOp::Amoswap => word(b),
        AmoOp::Amoadd => addw(a, b),
        AmoOp::Amoxor => word(a ^ b),
        AmoOp::Amoand => word(a & b),
        AmoOp::Amoor => word(a | b),
        AmoOp::Amomin => min_word(a, b),
        AmoOp::Amomax => max_word(a, b),
        AmoOp::Amominu => minu_word(a, b),
        AmoOp::Amomaxu => maxu_word(a, b),
    }
}

/// An atomic memory operation on eight bytes.
#[tactic(auto, unfolding(rv_model::specs::Alu::alu_of))]
fn amo_double(op: AmoOp, a: u64, b: u64) -> u64
    ensures { result ≡ alu_of (AluOp.Amo op Width.DoubleWord) a b }
{
    match op {
        AmoOp::Amoswap => b,
        AmoOp::Amoadd => add(a, b),
        AmoOp::Amoxor => a ^ b,
        AmoOp::Amoand => a & b,
        AmoOp::Amoor => a | b,
        AmoOp::Amomin => min_double(a, b),
        AmoOp::Amomax => max_double(a, b),
        AmoOp::Amominu => minu_double(a, b),
        AmoOp::Amomaxu => maxu_double(a, b),
    }
}
