//! The word of each instruction format, from a row's code and the operands
//! (unprivileged manual, "Base Instruction Formats" and "Immediate Encoding Variants").
#![tactic(auto, using(crate::proofs::FieldLemmas::and_funct3, crate::proofs::FieldLemmas::and_funct7))]

ghost use Rattle.std.specs.Prelude.{◌≡◌, ◌+◌, ◌/◌, ◌%◌, ◌<◌, ◌≤◌, ◌^◌, bit_and};
ghost use Rattle.rv_model.specs.Fields.{field};
ghost use Rattle.rv_model.specs.Operands.{r_type, i_type, s_type, b_type, u_type, j_type, shift_type, shift_word_type, load_reserved_type, csr_type};
ghost use Rattle.rv_model.specs.Operands.{csr_imm_type};
ghost use Rattle.rv_words.specs.KeptBits.{all_but_ordering};
ghost use Rattle.rv_model.specs.OperandsFit.{RFits, IFits, SFits, BFits, UFits, JFits, ShiftFits, ShiftWordFits, LoadReservedFits, CsrFits, CsrImmFits};

use crate::fields::bits;
use crate::mask::{
    FUNCT3_MASK, FUNCT5_MASK, FUNCT5_RS2_MASK, FUNCT6_MASK, FUNCT7_MASK, OPCODE_MASK,
};
use rv_model::{
    BType, CsrImmType, CsrType, IType, JType, LoadReservedType, RType, SType, ShiftType, UType,
};

/// The lowest bits of an immediate, `count` of them.
#[tactic(auto, using(crate::proofs::FieldLemmas::and_ones_64))]
fn low_bits(imm: u64, count: u32) -> u32
    requires { count ≤ 32 }
    ensures { result ≡ imm % 2 ^ count }
{
    (imm & ((1 << count) - 1)) as u32
}

/// What the R, S and B formats put beside the code.
#[derive(Clone, Copy)]
struct Places {
    /// Bits 31:25, added to those of the code.
    upper: u32,
    /// Bits 24:20.
    rs2: u32,
    /// Bits 19:15.
    rs1: u32,
    /// Bits 11:7.
    rd: u32,
}

/// A code of opcode, funct3 and funct7 with these fields put in.
fn with_places(code: u32, p: Places) -> u32
    requires code { bit_and code FUNCT7_MASK ≡ code }
    requires upper { code / 2 ^ 25 + p.upper < 2 ^ 7 }
    requires rs2 { p.rs2 < 2 ^ 5 }
    requires rs1 { p.rs1 < 2 ^ 5 }
    requires rd { p.rd < 2 ^ 5 }
    ensures upper { result / 2 ^ 25 ≡ code / 2 ^ 25 + p.upper }
    ensures rs2 { field 20 5 result ≡ p.rs2 }
    ensures rs1 { field 15 5 result ≡ p.rs1 }
    ensures rd { field 7 5 result ≡ p.rd }
    ensures funct3 { bit_and result FUNCT3_MASK ≡ bit_and code FUNCT3_MASK }
{
    code + (p.upper << 25) + (p.rs2 << 20) + (p.rs1 << 15) + (p.rd << 7)
}

/// A code of opcode and funct3 with an immediate of 12 bits in bits 31:20, as in the I format.
fn with_immediate(code: u32, imm: u32, rs1: u8, rd: u8) -> u32
    requires code { bit_and code FUNCT3_MASK ≡ code }
    requires imm { imm < 2 ^ 12 }
    requires rs1 { rs1 < 2 ^ 5 }
    requires rd { rd < 2 ^ 5 }
    ensures imm { field 20 12 result ≡ imm }
    ensures rs1 { field 15 5 result ≡ rs1 }
    ensures rd { field 7 5 result ≡ rd }
    ensures code { bit_and result FUNCT3_MASK ≡ code }
{
    code + (imm << 20) + (u32::from(rs1) << 15) + (u32::from(rd) << 7)
}

/// Operations on two registers.
pub fn r_word(code: u32, p: RType) -> u32
    requires code { bit_and code FUNCT7_MASK ≡ code }
    requires fit { RFits p }
    ensures code { bit_and result FUNCT7_MASK ≡ code }
    ensures operands { r_type result ≡ p }
{
    with_places(
        code,
        Places {
            upper: 0,
            rs2: p.rs2.into(),
            rs1: p.rs1.into(),
            rd: p.rd.into(),
        },
    )
}

/// Atomics but `lr`: the bits aq and rl are 0.
#[tactic(auto, using(crate::proofs::FieldLemmas::and_funct3, crate::proofs::FieldLemmas::and_funct7, crate::proofs::FieldLemmas::and_funct5, crate::proofs::FieldLemmas::and_all_but_ordering))]
pub fn atomic_word(code: u32, p: RType) -> u32
    requires code { bit_and code FUNCT5_MASK ≡ code }
    requires fit { RFits p }
    ensures code { bit_and result FUNCT5_MASK ≡ code }
    ensures unordered { bit_and result all_but_ordering ≡ result }
    ensures operands { r_type result ≡ p }
{
    r_word(code, p)
}

/// `lr`: the bits aq and rl are 0, and rs2.
#[tactic(auto, using(crate::proofs::FieldLemmas::and_funct3, crate::proofs::FieldLemmas::and_funct7, crate::proofs::FieldLemmas::and_funct5_rs2, crate::proofs::FieldLemmas::and_funct5, crate::proofs::FieldLemmas::and_all_but_ordering))]
pub fn load_reserved_word(code: u32, p: LoadReservedType) -> u32
    requires code { bit_and code FUNCT5_MASK ≡ code }
    requires fit { LoadReservedFits p }
    ensures code { bit_and result FUNCT5_RS2_MASK ≡ code }
    ensures unordered { bit_and result all_but_ordering ≡ result }
    ensures operands { load_reserved_type result ≡ p }
{
    with_places(
        code,
        Places {
            upper: 0,
            rs2: 0,
            rs1: p.rs1.into(),
            rd: p.rd.into(),
        },
    )
}

/// Operations on a register and an immediate, loads and `jalr`.
pub fn i_word(code: u32, p: IType) -> u32
    requires code { bit_and code FUNCT3_MASK ≡ code }
    requires fit { IFits p }
    ensures code { bit_and result FUNCT3_MASK ≡ code }
    ensures operands { i_type result ≡ p }
{
    with_immediate(code, low_bits(p.imm, 12), p.rs1, p.rd)
}

/// Shifts of 64 bits by a constant.
#[tactic(auto, using(crate::proofs::FieldLemmas::and_funct3, crate::proofs::FieldLemmas::and_funct7, crate::proofs::FieldLemmas::and_funct6))]
pub fn shift_word(code: u32, p: ShiftType) -> u32
    requires code { bit_and code FUNCT6_MASK ≡ code }
    requires fit { ShiftFits p }
    ensures code { bit_and result FUNCT6_MASK ≡ code }
    ensures operands { shift_type result ≡ p }
{
    let amount = u32::from(p.amount);
    let upper = bits(amount, 5, 1);
    with_places(
        code,
        Places {
            upper,
            rs2: bits(amount, 0, 5),
            rs1: p.rs1.into(),
            rd: p.rd.into(),
        },
    )
}

/// Shifts of 32 bits by a constant.
pub fn word_shift_word(code: u32, p: ShiftType) -> u32
    requires code { bit_and code FUNCT7_MASK ≡ code }
    requires fit { ShiftWordFits p }
    ensures code { bit_and result FUNCT7_MASK ≡ code }
    ensures operands { shift_word_type result ≡ p }
{
    let rs2 = p.amount.into();
    with_places(
        code,
        Places {
            upper: 0,
            rs2,
            rs1: p.rs1.into(),
            rd: p.rd.into(),
        },
    )
}

/// Operations on a control and status register.
pub fn csr_word(code: u32, p: CsrType) -> u32
    requires code { bit_and code FUNCT3_MASK ≡ code }
    requires fit { CsrFits p }
    ensures code { bit_and result FUNCT3_MASK ≡ code }
    ensures operands { csr_type result ≡ p }
{
    with_immediate(code, p.csr.into(), p.rs1, p.rd)
}

/// The same with a number in the place of rs1.
pub fn csr_imm_word(code: u32, p: CsrImmType) -> u32
    requires code { bit_and code FUNCT3_MASK ≡ code }
    requires fit { CsrImmFits p }
    ensures code { bit_and result FUNCT3_MASK ≡ code }
    ensures operands { csr_imm_type result ≡ p }
{
    with_immediate(code, p.csr.into(), p.imm, p.rd)
}

/// Stores.
pub fn s_word(code: u32, p: SType) -> u32
    requires code { bit_and code FUNCT3_MASK ≡ code }
    requires fit { SFits p }
    ensures code { bit_and result FUNCT3_MASK ≡ code }
    ensures operands { s_type result ≡ p }
{
    let imm = low_bits(p.imm, 12);
    let (upper, rd) = (bits(imm, 5, 7), bits(imm, 0, 5));
    with_places(
        code,
        Places {
            upper,
            rs2: p.rs2.into(),
            rs1: p.rs1.into(),
            rd,
        },
    )
}

/// Branches.
pub fn b_word(code: u32, p: BType) -> u32
    requires code { bit_and code FUNCT3_MASK ≡ code }
    requires fit { BFits p }
    ensures code { bit_and result FUNCT3_MASK ≡ code }
    ensures operands { b_type result ≡ p }
{
    let imm = low_bits(p.imm, 13);
    let upper = (bits(imm, 12, 1) << 6) + bits(imm, 5, 6);
    let rd = (bits(imm, 1, 4) << 1) + bits(imm, 11, 1);
    with_places(
        code,
        Places {
            upper,
            rs2: p.rs2.into(),
            rs1: p.rs1.into(),
            rd,
        },
    )
}

/// `lui` and `auipc`.
pub fn u_word(code: u32, p: UType) -> u32
    requires code { code < 2 ^ 7 }
    requires fit { UFits p }
    ensures code { bit_and result OPCODE_MASK ≡ code }
    ensures operands { u_type result ≡ p }
{
    code + (u32::from(p.rd) << 7) + low_bits(p.imm, 32)
}

/// `jal`.
pub fn j_word(code: u32, p: JType) -> u32
    requires code { code < 2 ^ 7 }
    requires fit { JFits p }
    ensures code { bit_and result OPCODE_MASK ≡ code }
    ensures operands { j_type result ≡ p }
{
    let imm = low_bits(p.imm, 21);
    let upper = (bits(imm, 20, 1) << 31) + (bits(imm, 1, 10) << 21);
    code + (u32::from(p.rd) << 7) + upper + (bits(imm, 11, 1) << 20) + (bits(imm, 12, 8) << 12)
}
