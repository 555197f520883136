//! Results of operations, with what the unprivileged manual says of each.

use rv_alu::alu;
use rv_model::{AluOp, AmoOp, ImmediateOp, RegisterOp, ShiftOp, Width, WordShiftOp};
use std::process::Abort;

/// An operation, its operands and its result.
type Case = (AluOp, u64, u64, u64);

/// The least and the greatest signed number, and small negative ones.
const MIN: u64 = 0x8000_0000_0000_0000;

const MAX: u64 = 0x7fff_ffff_ffff_ffff;

const MINUS_1: u64 = 0xffff_ffff_ffff_ffff;

const MINUS_2: u64 = 0xffff_ffff_ffff_fffe;

const MINUS_3: u64 = 0xffff_ffff_ffff_fffd;

const MINUS_7: u64 = 0xffff_ffff_ffff_fff9;

/// Overflow is ignored, and 32-bit forms ignore the upper halves.
static SUMS: [Case; 28] = [
    (AluOp::Immediate(ImmediateOp::Addi), MINUS_1, 1, 0),
    (AluOp::Immediate(ImmediateOp::Addi), MAX, 1, MIN),
    (AluOp::Immediate(ImmediateOp::Slti), MINUS_1, 0, 1),
    (AluOp::Immediate(ImmediateOp::Slti), MIN, MAX, 1),
    (AluOp::Immediate(ImmediateOp::Slti), 0, MINUS_1, 0),
    (AluOp::Immediate(ImmediateOp::Sltiu), 0, MINUS_1, 1),
    (AluOp::Immediate(ImmediateOp::Sltiu), MINUS_1, 0, 0),
    (AluOp::Immediate(ImmediateOp::Sltiu), 1, 1, 0),
    (
        AluOp::Immediate(ImmediateOp::Xori),
        0x0f0f,
        MINUS_1,
        0xffff_ffff_ffff_f0f0,
    ),
    (
        AluOp::Immediate(ImmediateOp::Ori),
        0x8000_0000_0000_0001,
        0x6,
        0x8000_0000_0000_0007,
    ),
    (AluOp::Immediate(ImmediateOp::Andi), MINUS_1, 0x7ff, 0x7ff),
    (
        AluOp::Immediate(ImmediateOp::Addiw),
        0x7fff_ffff,
        1,
        0xffff_ffff_8000_0000,
    ),
    (
        AluOp::Immediate(ImmediateOp::Addiw),
        0xdead_beef_0000_0001,
        0,
        1,
    ),
    (AluOp::Register(RegisterOp::Add), MINUS_1, 2, 1),
    (AluOp::Register(RegisterOp::Slt), MAX, MIN, 0),
    (AluOp::Register(RegisterOp::Slt), MIN, MAX, 1),
    (AluOp::Register(RegisterOp::Sltu), MAX, MIN, 1),
    (AluOp::Register(RegisterOp::Sltu), MIN, MAX, 0),
    (AluOp::Register(RegisterOp::Sltu), 0, 0, 0),
    (AluOp::Register(RegisterOp::Xor), MINUS_1, MINUS_1, 0),
    (AluOp::Register(RegisterOp::Or), MIN, MAX, MINUS_1),
    (AluOp::Register(RegisterOp::And), MIN, MAX, 0),
    (AluOp::Register(RegisterOp::Sub), 0, 1, MINUS_1),
    (AluOp::Register(RegisterOp::Sub), MIN, 1, MAX),
    (AluOp::Register(RegisterOp::Addw), 0xffff_ffff, 1, 0),
    (
        AluOp::Register(RegisterOp::Addw),
        0xdead_beef_7fff_ffff,
        1,
        0xffff_ffff_8000_0000,
    ),
    (AluOp::Register(RegisterOp::Subw), 0, 1, MINUS_1),
    (
        AluOp::Register(RegisterOp::Subw),
        0xdead_beef_8000_0000,
        1,
        0x7fff_ffff,
    ),
];

/// Shifts go by the low six bits of b, or by the low five.
static SHIFTS: [Case; 21] = [
    (AluOp::Shift(ShiftOp::Slli), 1, 63, MIN),
    (AluOp::Shift(ShiftOp::Srli), MIN, 63, 1),
    (AluOp::Shift(ShiftOp::Srai), MIN, 63, MINUS_1),
    (AluOp::Shift(ShiftOp::Srai), MIN, 1, 0xc000_0000_0000_0000),
    (
        AluOp::WordShift(WordShiftOp::Slliw),
        0xffff_ffff_0000_0001,
        31,
        0xffff_ffff_8000_0000,
    ),
    (
        AluOp::WordShift(WordShiftOp::Srliw),
        0xdead_beef_8000_0000,
        31,
        1,
    ),
    (
        AluOp::WordShift(WordShiftOp::Srliw),
        0xffff_ffff,
        0,
        MINUS_1,
    ),
    (
        AluOp::WordShift(WordShiftOp::Sraiw),
        0x1_8000_0000,
        31,
        MINUS_1,
    ),
    (
        AluOp::WordShift(WordShiftOp::Sraiw),
        0xffff_ffff_4000_0000,
        30,
        1,
    ),
    (AluOp::Register(RegisterOp::Sll), 1, 64, 1),
    (AluOp::Register(RegisterOp::Sll), 3, 63, MIN),
    (AluOp::Register(RegisterOp::Srl), MIN, 127, 1),
    (AluOp::Register(RegisterOp::Srl), MINUS_1, 64, MINUS_1),
    (AluOp::Register(RegisterOp::Sra), MIN, 127, MINUS_1),
    (AluOp::Register(RegisterOp::Sra), MAX, 62, 1),
    (
        AluOp::Register(RegisterOp::Sllw),
        1,
        63,
        0xffff_ffff_8000_0000,
    ),
    (AluOp::Register(RegisterOp::Sllw), 1, 32, 1),
    (
        AluOp::Register(RegisterOp::Srlw),
        0xffff_ffff_8000_0000,
        63,
        1,
    ),
    (
        AluOp::Register(RegisterOp::Srlw),
        0x8000_0000,
        32,
        0xffff_ffff_8000_0000,
    ),
    (AluOp::Register(RegisterOp::Sraw), 0x8000_0000, 63, MINUS_1),
    (AluOp::Register(RegisterOp::Sraw), 0x1_4000_0000, 30, 1),
];

/// High halves by sign.
static PRODUCTS: [Case; 14] = [
    (AluOp::Register(RegisterOp::Mul), MINUS_1, MINUS_1, 1),
    (AluOp::Register(RegisterOp::Mul), MIN, 2, 0),
    (
        AluOp::Register(RegisterOp::Mul),
        0x1_0000_0001,
        0x1_0000_0001,
        0x2_0000_0001,
    ),
    (AluOp::Register(RegisterOp::Mulh), MINUS_1, MINUS_1, 0),
    (
        AluOp::Register(RegisterOp::Mulh),
        MIN,
        MIN,
        0x4000_0000_0000_0000,
    ),
    (
        AluOp::Register(RegisterOp::Mulh),
        MAX,
        MAX,
        0x3fff_ffff_ffff_ffff,
    ),
    (AluOp::Register(RegisterOp::Mulh), MIN, 1, MINUS_1),
    (
        AluOp::Register(RegisterOp::Mulhsu),
        MINUS_1,
        MINUS_1,
        MINUS_1,
    ),
    (AluOp::Register(RegisterOp::Mulhsu), MIN, MINUS_1, MIN),
    (AluOp::Register(RegisterOp::Mulhsu), 1, MINUS_1, 0),
    (
        AluOp::Register(RegisterOp::Mulhu),
        MINUS_1,
        MINUS_1,
        0xffff_ffff_ffff_fffe,
    ),
    (AluOp::Register(RegisterOp::Mulhu), MIN, 2, 1),
    (
        AluOp::Register(RegisterOp::Mulw),
        0x1_0000,
        0x8000,
        0xffff_ffff_8000_0000,
    ),
    (
        AluOp::Register(RegisterOp::Mulw),
        0xffff_ffff_0000_0003,
        0x1_0000_0005,
        15,
    ),
];

/// The manual's table of division by zero and of overflow, and rounding toward 0.
static QUOTIENTS: [Case; 25] = [
    (AluOp::Register(RegisterOp::Div), 7, 0, MINUS_1),
    (AluOp::Register(RegisterOp::Div), MIN, MINUS_1, MIN),
    (AluOp::Register(RegisterOp::Div), MINUS_7, 2, MINUS_3),
    (AluOp::Register(RegisterOp::Div), 7, MINUS_2, MINUS_3),
    (AluOp::Register(RegisterOp::Divu), 7, 0, MINUS_1),
    (AluOp::Register(RegisterOp::Divu), MIN, MINUS_1, 0),
    (AluOp::Register(RegisterOp::Divu), MINUS_1, 2, MAX),
    (AluOp::Register(RegisterOp::Rem), MINUS_7, 0, MINUS_7),
    (AluOp::Register(RegisterOp::Rem), MIN, MINUS_1, 0),
    (AluOp::Register(RegisterOp::Rem), MINUS_7, 2, MINUS_1),
    (AluOp::Register(RegisterOp::Rem), 7, MINUS_2, 1),
    (AluOp::Register(RegisterOp::Remu), 7, 0, 7),
    (AluOp::Register(RegisterOp::Remu), MIN, MINUS_1, MIN),
    (AluOp::Register(RegisterOp::Remu), MINUS_1, 10, 5),
    (
        AluOp::Register(RegisterOp::Divw),
        0x8000_0000,
        0xffff_ffff,
        0xffff_ffff_8000_0000,
    ),
    (
        AluOp::Register(RegisterOp::Divw),
        0x1234_0000_0007,
        0x1_0000_0000,
        MINUS_1,
    ),
    (AluOp::Register(RegisterOp::Divw), 0xffff_fff9, 2, MINUS_3),
    (
        AluOp::Register(RegisterOp::Divuw),
        8,
        0x1_0000_0000,
        MINUS_1,
    ),
    (AluOp::Register(RegisterOp::Divuw), 0xffff_ffff, 1, MINUS_1),
    (
        AluOp::Register(RegisterOp::Divuw),
        0xffff_ffff_0000_0008,
        2,
        4,
    ),
    (
        AluOp::Register(RegisterOp::Remw),
        0x8000_0000,
        0xffff_ffff,
        0,
    ),
    (
        AluOp::Register(RegisterOp::Remw),
        0x1_8000_0007,
        0,
        0xffff_ffff_8000_0007,
    ),
    (AluOp::Register(RegisterOp::Remw), 0xffff_fff9, 2, MINUS_1),
    (
        AluOp::Register(RegisterOp::Remuw),
        0x8000_0007,
        0x1_0000_0000,
        0xffff_ffff_8000_0007,
    ),
    (AluOp::Register(RegisterOp::Remuw), 0xffff_ffff, 10, 5),
];

/// 32-bit forms compare the low halves.
static ATOMICS: [Case; 19] = [
    (
        AluOp::Amo(AmoOp::Amoswap, Width::Word),
        5,
        0x1_8000_0000,
        0xffff_ffff_8000_0000,
    ),
    (
        AluOp::Amo(AmoOp::Amoadd, Width::Word),
        0x7fff_ffff,
        0xffff_ffff_0000_0001,
        0xffff_ffff_8000_0000,
    ),
    (
        AluOp::Amo(AmoOp::Amoxor, Width::Word),
        MINUS_1,
        0x7fff_ffff,
        0xffff_ffff_8000_0000,
    ),
    (
        AluOp::Amo(AmoOp::Amoand, Width::Word),
        MINUS_1,
        0xdead_beef_7fff_ffff,
        0x7fff_ffff,
    ),
    (
        AluOp::Amo(AmoOp::Amoor, Width::Word),
        0,
        0x8000_0001,
        0xffff_ffff_8000_0001,
    ),
    (
        AluOp::Amo(AmoOp::Amomin, Width::Word),
        1,
        0xffff_ffff,
        MINUS_1,
    ),
    (
        AluOp::Amo(AmoOp::Amomin, Width::Word),
        0xffff_ffff_8000_0000,
        0x7fff_ffff,
        0xffff_ffff_8000_0000,
    ),
    (
        AluOp::Amo(AmoOp::Amomax, Width::Word),
        0xffff_ffff_8000_0000,
        0x1_7fff_ffff,
        0x7fff_ffff,
    ),
    (
        AluOp::Amo(AmoOp::Amominu, Width::Word),
        MINUS_1,
        0x1_0000_0001,
        1,
    ),
    (
        AluOp::Amo(AmoOp::Amomaxu, Width::Word),
        0x7fff_ffff,
        0x8000_0000,
        0xffff_ffff_8000_0000,
    ),
    (AluOp::Amo(AmoOp::Amoswap, Width::DoubleWord), 5, MIN, MIN),
    (AluOp::Amo(AmoOp::Amoadd, Width::DoubleWord), MINUS_1, 1, 0),
    (
        AluOp::Amo(AmoOp::Amoxor, Width::DoubleWord),
        MINUS_1,
        MIN,
        MAX,
    ),
    (
        AluOp::Amo(AmoOp::Amoand, Width::DoubleWord),
        MIN,
        MINUS_1,
        MIN,
    ),
    (
        AluOp::Amo(AmoOp::Amoor, Width::DoubleWord),
        MIN,
        MAX,
        MINUS_1,
    ),
    (
        AluOp::Amo(AmoOp::Amomin, Width::DoubleWord),
        0,
        MINUS_1,
        MINUS_1,
    ),
    (AluOp::Amo(AmoOp::Amomax, Width::DoubleWord), MINUS_1, 0, 0),
    (AluOp::Amo(AmoOp::Amominu, Width::DoubleWord), MIN, MAX, MAX),
    (AluOp::Amo(AmoOp::Amomaxu, Width::DoubleWord), MIN, MAX, MIN),
];

fn check(rt: &impl Abort, cases: &[Case], what: &str) {
    for (place, &(op, a, b, result)) in cases.iter().enumerate() {
        assert_eq!(rt; alu(op, a, b), result, "{what}, case {place}");
    }
}

#[test]
fn gives_the_results_of_the_manual(rt: HostRuntime) {
    check(&rt, &SUMS, "sums and comparisons");
    check(&rt, &SHIFTS, "shifts");
    check(&rt, &PRODUCTS, "products");
    check(&rt, &QUOTIENTS, "quotients and remainders");
    check(&rt, &ATOMICS, "atomics");
}
