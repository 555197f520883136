//! The code of an instruction by its operation: its opcode and funct fields in place, with every other bit 0
//! (unprivileged manual, "RV32/64G Instruction Set Listings").

ghost use Rattle.std.specs.Prelude.{◌≡◌, bit_and};
ghost use Rattle.rv_model.specs.Means.{amo_code, branch_code, csr_code, csr_immediate_code, immediate_code, load_code, load_reserved_code, register_code};
ghost use Rattle.rv_model.specs.Means.{shift_code, store_code, store_conditional_code, word_shift_code};

use crate::code;
use crate::mask::{FUNCT3_MASK, FUNCT5_MASK, FUNCT6_MASK, FUNCT7_MASK};
use rv_model::{
    AmoOp, Condition, CsrChange, ImmediateOp, LoadOp, RegisterOp, ShiftOp, Size, Width, WordShiftOp,
};

/// Branches.
pub fn branch_code(condition: Condition) -> u32
    ensures code { result ≡ branch_code condition }
    ensures within { bit_and result FUNCT3_MASK ≡ result }
{
    match condition {
        Condition::Equal => code::BEQ,
        Condition::Different => code::BNE,
        Condition::Below => code::BLT,
        Condition::NotBelow => code::BGE,
        Condition::BelowUnsigned => code::BLTU,
        Condition::NotBelowUnsigned => code::BGEU,
    }
}

/// Loads.
pub fn load_code(op: LoadOp) -> u32
    ensures code { result ≡ load_code op }
    ensures within { bit_and result FUNCT3_MASK ≡ result }
{
    match op {
        LoadOp::Lb => code::LB,
        LoadOp::Lh => code::LH,
        LoadOp::Lw => code::LW,
        LoadOp::Ld => code::LD,
        LoadOp::Lbu => code::LBU,
        LoadOp::Lhu => code::LHU,
        LoadOp::Lwu => code::LWU,
    }
}

/// Stores.
pub fn store_code(size: Size) -> u32
    ensures code { result ≡ store_code size }
    ensures within { bit_and result FUNCT3_MASK ≡ result }
{
    match size {
        Size::B1 => code::SB,
        Size::B2 => code::SH,
        Size::B4 => code::SW,
        Size::B8 => code::SD,
    }
}

/// Operations on a register and an immediate.
pub fn immediate_code(op: ImmediateOp) -> u32
    ensures code { result ≡ immediate_code op }
    ensures within { bit_and result FUNCT3_MASK ≡ result }
{
    match op {
        ImmediateOp::Addi => code::ADDI,
        ImmediateOp::Slti => code::SLTI,
        ImmediateOp::Sltiu => code::SLTIU,
        ImmediateOp::Xori => code::XORI,
        ImmediateOp::Ori => code::ORI,
        ImmediateOp::Andi => code::ANDI,
        ImmediateOp::Addiw => code::ADDIW,
    }
}

/// Shifts of 64 bits by a constant.
pub fn shift_code(op: ShiftOp) -> u32
    ensures code { result ≡ shift_code op }
    ensures within { bit_and result FUNCT6_MASK ≡ result }
{
    match op {
        ShiftOp::Slli => code::SLLI,
        ShiftOp::Srli => code::SRLI,
        ShiftOp::Srai => code::SRAI,
    }
}

/// Shifts of 32 bits by a constant.
pub fn word_shift_code(op: WordShiftOp) -> u32
    ensures code { result ≡ word_shift_code op }
    ensures within { bit_and result FUNCT7_MASK ≡ result }
{
    match op {
        WordShiftOp::Slliw => code::SLLIW,
        WordShiftOp::Srliw => code::SRLIW,
        WordShiftOp::Sraiw => code::SRAIW,
    }
}

/// Operations on two registers.
pub fn register_code(op: RegisterOp) -> u32
    ensures code { result ≡ register_code op }
    ensures within { bit_and result FUNCT7_MASK ≡ result }
{
    match op {
        RegisterOp::Add => code::ADD,
        RegisterOp::Sll => code::SLL,
        RegisterOp::Slt => code::SLT,
        RegisterOp::Sltu => code::SLTU,
        RegisterOp::Xor => code::XOR,
        RegisterOp::Srl => code::SRL,
        RegisterOp::Or => code::OR,
        RegisterOp::And => code::AND,
        RegisterOp::Sub => code::SUB,
        RegisterOp::Sra => code::SRA,
        RegisterOp::Mul => code::MUL,
        RegisterOp::Mulh => code::MULH,
        RegisterOp::Mulhsu => code::MULHSU,
        RegisterOp::Mulhu => code::MULHU,
        RegisterOp::Div => code::DIV,
        RegisterOp::Divu => code::DIVU,
        RegisterOp::Rem => code::REM,
        RegisterOp::Remu => code::REMU,
        RegisterOp::Addw => code::ADDW,
        RegisterOp::Sllw => code::SLLW,
        RegisterOp::Srlw => code::SRLW,
        RegisterOp::Subw => code::SUBW,
        RegisterOp::Sraw => code::SRAW,
        RegisterOp::Mulw => code::MULW,
        RegisterOp::Divw => code::DIVW,
        RegisterOp::Divuw => code::DIVUW,
        RegisterOp::Remw => code::REMW,
        RegisterOp::Remuw => code::REMUW,
    }
}

/// `lr`.
pub fn load_reserved_code(width: Width) -> u32
    ensures code { result ≡ load_reserved_code width }
    ensures within { bit_and result FUNCT5_MASK ≡ result }
{
    match width {
        Width::Word => code::LR_W,
        Width::DoubleWord => code::LR_D,
    }
}

/// `sc`.
pub fn store_conditional_code(width: Width) -> u32
    ensures code { result ≡ store_conditional_code width }
    ensures within { bit_and result FUNCT5_MASK ≡ result }
{
    match width {
        Width::Word => code::SC_W,
        Width::DoubleWord => code::SC_D,
    }
}

/// Atomic memory operations.
pub fn amo_code(op: AmoOp, width: Width) -> u32
    ensures code { result ≡ amo_code op width }
    ensures within { bit_and result FUNCT5_MASK ≡ result }
{
    match width {
        Width::Word => amo_word_code(op),
        Width::DoubleWord => amo_double_code(op),
    }
}

/// Atomic memory operations on four bytes.
fn amo_word_code(op: AmoOp) -> u32
    ensures code { result ≡ amo_code op Width.Word }
    ensures within { bit_and result FUNCT5_MASK ≡ result }
{
    match op {
        AmoOp::Amoswap => code::AMOSWAP_W,
        AmoOp::Amoadd => code::AMOADD_W,
        AmoOp::Amoxor => code::AMOXOR_W,
        AmoOp::Amoand => code::AMOAND_W,
        AmoOp::Amoor => code::AMOOR_W,
        AmoOp::Amomin => code::AMOMIN_W,
        AmoOp::Amomax => code::AMOMAX_W,
        AmoOp::Amominu => code::AMOMINU_W,
        AmoOp::Amomaxu => code::AMOMAXU_W,
    }
}

/// Atomic memory operations on eight bytes.
fn amo_double_code(op: AmoOp) -> u32
    ensures code { result ≡ amo_code op Width.DoubleWord }
    ensures within { bit_and result FUNCT5_MASK ≡ result }
{
    match op {
        AmoOp::Amoswap => code::AMOSWAP_D,
        AmoOp::Amoadd => code::AMOADD_D,
        AmoOp::Amoxor => code::AMOXOR_D,
        AmoOp::Amoand => code::AMOAND_D,
        AmoOp::Amoor => code::AMOOR_D,
        AmoOp::Amomin => code::AMOMIN_D,
        AmoOp::Amomax => code::AMOMAX_D,
        AmoOp::Amominu => code::AMOMINU_D,
        AmoOp::Amomaxu => code::AMOMAXU_D,
    }
}

/// Operations on a control and status register.
pub fn csr_code(change: CsrChange) -> u32
    ensures code { result ≡ csr_code change }
    ensures within { bit_and result FUNCT3_MASK ≡ result }
{
    match change {
        CsrChange::Replace => code::CSRRW,
        CsrChange::Set => code::CSRRS,
        CsrChange::Clear => code::CSRRC,
    }
}

/// The same with a number in the place of rs1.
pub fn csr_immediate_code(change: CsrChange) -> u32
    ensures code { result ≡ csr_immediate_code change }
    ensures within { bit_and result FUNCT3_MASK ≡ result }
{
    match change {
        CsrChange::Replace => code::CSRRWI,
        CsrChange::Set => code::CSRRSI,
        CsrChange::Clear => code::CSRRCI,
    }
}
