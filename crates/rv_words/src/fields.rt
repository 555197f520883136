//! The fields of a word, its immediates and the operands that they make up
//! (unprivileged manual, "Base Instruction Formats" and "Immediate Encoding Variants").

ghost use Rattle.std.specs.Prelude.{◌≡◌, ◌+◌, ◌<◌, ◌≤◌, ◌^◌};
ghost use Rattle.rv_model.specs.Fields.{field, sign_extended, imm_i, imm_s, imm_b, imm_u, imm_j};
ghost use Rattle.rv_model.specs.Operands.{rd_of, rs1_of, rs2_of, r_type, i_type, s_type, b_type, u_type, j_type, shift_type, shift_word_type};
ghost use Rattle.rv_model.specs.Operands.{load_reserved_type, csr_type, csr_imm_type};
ghost use Rattle.rv_model.specs.OperandsFit.{RFits, IFits, SFits, BFits, UFits, JFits, ShiftFits, ShiftWordFits, LoadReservedFits, CsrFits, CsrImmFits};

use rv_model::{
    BType, CsrImmType, CsrType, IType, JType, LoadReservedType, RType, SType, ShiftType, UType,
};

/// The bits from `low` on, `count` of them.
#[tactic(auto, using(crate::proofs::FieldLemmas::and_ones_32))]
pub fn bits(word: u32, low: u32, count: u32) -> u32
    requires some { 0 < count }
    requires part { count < 32 }
    requires within { low + count ≤ 32 }
    ensures is { result ≡ field low count word }
    ensures fits { result < 2 ^ count }
{
    (word >> low) & ((1 << count) - 1)
}

/// A number of `count` bits, the highest of which is its sign, modulo 2^64.
pub fn sign_extend(number: u32, count: u32) -> u64
    requires some { 0 < count }
    requires most { count ≤ 32 }
    requires fits { number < 2 ^ count }
    ensures { result ≡ sign_extended count number }
{
    let number = u64::from(number);
    if number < 1 << (count - 1) {
        number
    } else {
        number + (u64::MAX - (1 << count) + 1)
    }
}

/// The register that is written.
fn rd(word: u32) -> u8
    ensures is { result ≡ rd_of word }
    ensures fits { result < 32 }
{
    bits(word, 7, 5) as u8
}

/// The first source register.
fn rs1(word: u32) -> u8
    ensures is { result ≡ rs1_of word }
    ensures fits { result < 32 }
{
    bits(word, 15, 5) as u8
}

/// The second source register.
fn rs2(word: u32) -> u8
    ensures is { result ≡ rs2_of word }
    ensures fits { result < 32 }
{
    bits(word, 20, 5) as u8
}

fn i_immediate(word: u32) -> u64
    ensures { result ≡ imm_i word }
{
    sign_extend(bits(word, 20, 12), 12)
}

fn s_immediate(word: u32) -> u64
    ensures { result ≡ imm_s word }
{
    sign_extend((bits(word, 25, 7) << 5) + bits(word, 7, 5), 12)
}

fn b_immediate(word: u32) -> u64
    ensures { result ≡ imm_b word }
{
    let sign_and_11 = (bits(word, 31, 1) << 12) + (bits(word, 7, 1) << 11);
    sign_extend(
        sign_and_11 + (bits(word, 25, 6) << 5) + (bits(word, 8, 4) << 1),
        13,
    )
}

fn u_immediate(word: u32) -> u64
    ensures { result ≡ imm_u word }
{
    sign_extend(bits(word, 12, 20) << 12, 32)
}

fn j_immediate(word: u32) -> u64
    ensures { result ≡ imm_j word }
{
    let sign_and_19_to_12 = (bits(word, 31, 1) << 20) + (bits(word, 12, 8) << 12);
    sign_extend(
        sign_and_19_to_12 + (bits(word, 20, 1) << 11) + (bits(word, 21, 10) << 1),
        21,
    )
}

fn csr(word: u32) -> u16
    ensures is { result ≡ field 20 12 word }
    ensures fits { result < 4096 }
{
    bits(word, 20, 12) as u16
}

pub fn r_operands(word: u32) -> RType
    ensures is { result ≡ r_type word }
    ensures fit { RFits result }
{
    RType {
        rd: rd(word),
        rs1: rs1(word),
        rs2: rs2(word),
    }
}

pub fn i_operands(word: u32) -> IType
    ensures is { result ≡ i_type word }
    ensures fit { IFits result }
{
    IType {
        rd: rd(word),
        rs1: rs1(word),
        imm: i_immediate(word),
    }
}

pub fn s_operands(word: u32) -> SType
    ensures is { result ≡ s_type word }
    ensures fit { SFits result }
{
    SType {
        rs1: rs1(word),
        rs2: rs2(word),
        imm: s_immediate(word),
    }
}

pub fn b_operands(word: u32) -> BType
    ensures is { result ≡ b_type word }
    ensures fit { BFits result }
{
    BType {
        rs1: rs1(word),
        rs2: rs2(word),
        imm: b_immediate(word),
    }
}

pub fn u_operands(word: u32) -> UType
    ensures is { result ≡ u_type word }
    ensures fit { UFits result }
{
    UType {
        rd: rd(word),
        imm: u_immediate(word),
    }
}

pub fn j_operands(word: u32) -> JType
    ensures is { result ≡ j_type word }
    ensures fit { JFits result }
{
    JType {
        rd: rd(word),
        imm: j_immediate(word),
    }
}

/// Of a shift of 64 bits.
pub fn shift_operands(word: u32) -> ShiftType
    ensures is { result ≡ shift_type word }
    ensures fit { ShiftFits result }
{
    ShiftType {
        rd: rd(word),
        rs1: rs1(word),
        amount: bits(word, 20, 6) as u8,
    }
}

/// Of a shift of 32 bits.
pub fn shift_word_operands(word: u32) -> ShiftType
    ensures is { result ≡ shift_word_type word }
    ensures fit { ShiftWordFits result }
{
    ShiftType {
        rd: rd(word),
        rs1: rs1(word),
        amount: bits(word, 20, 5) as u8,
    }
}

pub fn load_reserved_operands(word: u32) -> LoadReservedType
    ensures is { result ≡ load_reserved_type word }
    ensures fit { LoadReservedFits result }
{
    LoadReservedType {
        rd: rd(word),
        rs1: rs1(word),
    }
}

pub fn csr_operands(word: u32) -> CsrType
    ensures is { result ≡ csr_type word }
    ensures fit { CsrFits result }
{
    CsrType {
        rd: rd(word),
        rs1: rs1(word),
        csr: csr(word),
    }
}

pub fn csr_imm_operands(word: u32) -> CsrImmType
    ensures is { result ≡ csr_imm_type word }
    ensures fit { CsrImmFits result }
{
    CsrImmType {
        rd: rd(word),
        imm: bits(word, 15, 5) as u8,
        csr: csr(word),
    }
}
