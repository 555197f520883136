//! Words as a published assembler writes them, each with its instruction.

use rv_model::{
    AmoOp, BType, Condition, CsrChange, CsrImmType, CsrType, IType, ImmediateOp, Insn, JType,
    LoadOp, LoadReservedType, RType, RegisterOp, SType, ShiftOp, ShiftType, Size, UType, Width,
    WordShiftOp,
};

/// An immediate as operands hold it: modulo 2^64.
macro_rules! immediate {
    (-$size:literal) => {
        u64::wrapping_sub(0, $size)
    };
    ($size:literal) => {
        $size
    };
}

// Instructions with their operands in the order in which these are declared: constants, so that the table can be a static.

macro_rules! i {
    ($rd:literal, $rs1:literal, $($imm:tt)*) => {
        IType { rd: $rd, rs1: $rs1, imm: immediate!($($imm)*) }
    };
}

macro_rules! r {
    ($rd:literal, $rs1:literal, $rs2:literal) => {
        RType { rd: $rd, rs1: $rs1, rs2: $rs2 }
    };
}

macro_rules! u {
    ($rd:literal, $($imm:tt)*) => {
        UType { rd: $rd, imm: immediate!($($imm)*) }
    };
}

macro_rules! j {
    ($rd:literal, $($imm:tt)*) => {
        JType { rd: $rd, imm: immediate!($($imm)*) }
    };
}

macro_rules! branch {
    ($op:ident, $rs1:literal, $rs2:literal, $($imm:tt)*) => {
        Insn::Branch(Condition::$op, BType { rs1: $rs1, rs2: $rs2, imm: immediate!($($imm)*) })
    };
}

macro_rules! load {
    ($op:ident, $($operands:tt)*) => {
        Insn::Load(LoadOp::$op, i!($($operands)*))
    };
}

macro_rules! store {
    ($size:ident, $rs1:literal, $rs2:literal, $($imm:tt)*) => {
        Insn::Store(Size::$size, SType { rs1: $rs1, rs2: $rs2, imm: immediate!($($imm)*) })
    };
}

macro_rules! immediate_op {
    ($op:ident, $($operands:tt)*) => {
        Insn::Immediate(ImmediateOp::$op, i!($($operands)*))
    };
}

macro_rules! shift {
    ($op:ident, $rd:literal, $rs1:literal, $amount:literal) => {
        Insn::Shift(ShiftOp::$op, ShiftType { rd: $rd, rs1: $rs1, amount: $amount })
    };
}

macro_rules! word_shift {
    ($op:ident, $rd:literal, $rs1:literal, $amount:literal) => {
        Insn::WordShift(WordShiftOp::$op, ShiftType { rd: $rd, rs1: $rs1, amount: $amount })
    };
}

macro_rules! register {
    ($op:ident, $($operands:tt)*) => {
        Insn::Register(RegisterOp::$op, r!($($operands)*))
    };
}

macro_rules! load_reserved {
    ($width:ident, $rd:literal, $rs1:literal) => {
        Insn::LoadReserved(Width::$width, LoadReservedType { rd: $rd, rs1: $rs1 })
    };
}

macro_rules! store_conditional {
    ($width:ident, $($operands:tt)*) => {
        Insn::StoreConditional(Width::$width, r!($($operands)*))
    };
}

macro_rules! amo {
    ($op:ident, $width:ident, $($operands:tt)*) => {
        Insn::Amo(AmoOp::$op, Width::$width, r!($($operands)*))
    };
}

macro_rules! csr {
    ($change:ident, $rd:literal, $rs1:literal, $csr:literal) => {
        Insn::Csr(CsrChange::$change, CsrType { rd: $rd, rs1: $rs1, csr: $csr })
    };
}

macro_rules! csr_immediate {
    ($change:ident, $rd:literal, $imm:literal, $csr:literal) => {
        Insn::CsrImmediate(CsrChange::$change, CsrImmType { rd: $rd, imm: $imm, csr: $csr })
    };
}

pub static WORDS: [(u32, Insn); 289] = [
    (0x8000_0fb7, Insn::Lui(u!(31, -2147483648))),
    (0x8000_0137, Insn::Lui(u!(2, -2147483648))),
    (0xffff_f037, Insn::Lui(u!(0, -4096))),
    (0xffff_f817, Insn::Auipc(u!(16, -4096))),
    (0xffff_ff97, Insn::Auipc(u!(31, -4096))),
    (0x6fc2_0f17, Insn::Auipc(u!(30, 1874984960))),
    (0x8000_02ef, Insn::Jal(j!(5, -1048576))),
    (0xffdf_f86f, Insn::Jal(j!(16, -4))),
    (0x0080_07ef, Insn::Jal(j!(15, 8))),
    (0x7fff_ffef, Insn::Jal(j!(31, 1048574))),
    (0x8000_0f6f, Insn::Jal(j!(30, -1048576))),
    (0x0080_00ef, Insn::Jal(j!(1, 8))),
    (0x8000_04ef, Insn::Jal(j!(9, -1048576))),
    (0xffdf_f1ef, Insn::Jal(j!(3, -4))),
    (0x0080_0f6f, Insn::Jal(j!(30, 8))),
    (0x7fff_fd6f, Insn::Jal(j!(26, 1048574))),
    (0x085f_8867, Insn::Jalr(i!(16, 31, 133))),
    (0x8000_82e7, Insn::Jalr(i!(5, 1, -2048))),
    (0xfff0_0467, Insn::Jalr(i!(8, 0, -1))),
    (0x8004_8063, branch!(Equal, 9, 0, -4096)),
    (0xff2f_0fe3, branch!(Equal, 30, 18, -2)),
    (0x80f6_8063, branch!(Equal, 13, 15, -4096)),
    (0x80f7_9063, branch!(Different, 15, 15, -4096)),
    (0x01ff_1163, branch!(Different, 30, 31, 2)),
    (0x80f4_1063, branch!(Different, 8, 15, -4096)),
    (0xffe8_4fe3, branch!(Below, 16, 30, -2)),
    (0x01ef_4163, branch!(Below, 30, 30, 2)),
    (0x7ef0_cfe3, branch!(Below, 1, 15, 4094)),
    (0x0102_d163, branch!(NotBelow, 5, 16, 2)),
    (0x0100_d163, branch!(NotBelow, 1, 16, 2)),
    (0x7ef1_5fe3, branch!(NotBelow, 2, 15, 4094)),
    (0x0027_e163, branch!(BelowUnsigned, 15, 2, 2)),
    (0x7e9f_6fe3, branch!(BelowUnsigned, 30, 9, 4094)),
    (0x01f8_6163, branch!(BelowUnsigned, 16, 31, 2)),
    (0xffe4_ffe3, branch!(NotBelowUnsigned, 9, 30, -2)),
    (0xfef0_ffe3, branch!(NotBelowUnsigned, 1, 15, -2)),
    (0x0000_f163, branch!(NotBelowUnsigned, 1, 0, 2)),
    (0x7fff_8403, load!(Lb, 8, 31, 2047)),
    (0x0014_0403, load!(Lb, 8, 8, 1)),
    (0x0002_8003, load!(Lb, 0, 5, 0)),
    (0xfc47_9803, load!(Lh, 16, 15, -60)),
    (0x0000_1803, load!(Lh, 16, 0, 0)),
    (0x0011_1403, load!(Lh, 8, 2, 1)),
    (0x800e_2483, load!(Lw, 9, 28, -2048)),
    (0x001f_af83, load!(Lw, 31, 31, 1)),
    (0x7fff_2283, load!(Lw, 5, 30, 2047)),
    (0x0000_3103, load!(Ld, 2, 0, 0)),
    (0xfec9_3803, load!(Ld, 16, 18, -20)),
    (0x0004_3783, load!(Ld, 15, 8, 0)),
    (0x1dfc_c003, load!(Lbu, 0, 25, 479)),
    (0xcfe4_4783, load!(Lbu, 15, 8, -770)),
    (0x001f_c803, load!(Lbu, 16, 31, 1)),
    (0x800f_5103, load!(Lhu, 2, 30, -2048)),
    (0x0007_d083, load!(Lhu, 1, 15, 0)),
    (0xffff_d283, load!(Lhu, 5, 31, -1)),
    (0x7ff8_6783, load!(Lwu, 15, 16, 2047)),
    (0x0001_6103, load!(Lwu, 2, 2, 0)),
    (0x800f_6f03, load!(Lwu, 30, 30, -2048)),
    (0x011f_00a3, store!(B1, 30, 17, 1)),
    (0x01ef_8023, store!(B1, 31, 30, 0)),
    (0x0088_0023, store!(B1, 16, 8, 0)),
    (0x00ff_90a3, store!(B2, 31, 15, 1)),
    (0x8010_1023, store!(B2, 0, 1, -2048)),
    (0xfe12_9fa3, store!(B2, 5, 1, -1)),
    (0x01e7_a0a3, store!(B4, 15, 30, 1)),
    (0xd3e7_a623, store!(B4, 15, 30, -724)),
    (0x7e55_afa3, store!(B4, 11, 5, 2047)),
    (0x0002_b0a3, store!(B8, 5, 0, 1)),
    (0xfff2_bfa3, store!(B8, 5, 31, -1)),
    (0x7e57_bfa3, store!(B8, 15, 5, 2047)),
    (0x8000_8f13, immediate_op!(Addi, 30, 1, -2048)),
    (0x0010_8413, immediate_op!(Addi, 8, 1, 1)),
    (0x8004_0013, immediate_op!(Addi, 0, 8, -2048)),
    (0x0008_2093, immediate_op!(Slti, 1, 16, 0)),
    (0x0009_a113, immediate_op!(Slti, 2, 19, 0)),
    (0x8004_2413, immediate_op!(Slti, 8, 8, -2048)),
    (0x000f_b413, immediate_op!(Sltiu, 8, 31, 0)),
    (0x0001_3793, immediate_op!(Sltiu, 15, 2, 0)),
    (0x0001_3493, immediate_op!(Sltiu, 9, 2, 0)),
    (0x7ff1_4093, immediate_op!(Xori, 1, 2, 2047)),
    (0xfd0f_c293, immediate_op!(Xori, 5, 31, -48)),
    (0x8004_c493, immediate_op!(Xori, 9, 9, -2048)),
    (0x0018_e513, immediate_op!(Ori, 10, 17, 1)),
    (0xfff4_ef93, immediate_op!(Ori, 31, 9, -1)),
    (0x7ff2_e413, immediate_op!(Ori, 8, 5, 2047)),
    (0x0000_f813, immediate_op!(Andi, 16, 1, 0)),
    (0x7ff2_7293, immediate_op!(Andi, 5, 4, 2047)),
    (0x0010_f493, immediate_op!(Andi, 9, 1, 1)),
    (0x020f_9f13, shift!(Slli, 30, 31, 32)),
    (0x01f8_1113, shift!(Slli, 2, 16, 31)),
    (0x01f0_9f13, shift!(Slli, 30, 1, 31)),
    (0x0017_d293, shift!(Srli, 5, 15, 1)),
    (0x0010_d793, shift!(Srli, 15, 1, 1)),
    (0x0007_df93, shift!(Srli, 31, 15, 0)),
    (0x420f_5113, shift!(Srai, 2, 30, 32)),
    (0x4202_d093, shift!(Srai, 1, 5, 32)),
    (0x420f_5f93, shift!(Srai, 31, 30, 32)),
    (0x8002_849b, immediate_op!(Addiw, 9, 5, -2048)),
    (0x001f_8f9b, immediate_op!(Addiw, 31, 31, 1)),
    (0x0000_8b9b, immediate_op!(Addiw, 23, 1, 0)),
    (0x0002_971b, word_shift!(Slliw, 14, 5, 0)),
    (0x0001_181b, word_shift!(Slliw, 16, 2, 0)),
    (0x001f_129b, word_shift!(Slliw, 5, 30, 1)),
    (0x01fa_5c9b, word_shift!(Srliw, 25, 20, 31)),
    (0x0002_df9b, word_shift!(Srliw, 31, 5, 0)),
    (0x0011_5f9b, word_shift!(Srliw, 31, 2, 1)),
    (0x4002_d41b, word_shift!(Sraiw, 8, 5, 0)),
    (0x40f4_df1b, word_shift!(Sraiw, 30, 9, 15)),
    (0x400f_579b, word_shift!(Sraiw, 15, 30, 0)),
    (0x0024_00b3, register!(Add, 1, 8, 2)),
    (0x00f0_8fb3, register!(Add, 31, 1, 15)),
    (0x010f_0f33, register!(Add, 30, 30, 16)),
    (0x01e1_1fb3, register!(Sll, 31, 2, 30)),
    (0x0057_9833, register!(Sll, 16, 15, 5)),
    (0x0044_97b3, register!(Sll, 15, 9, 4)),
    (0x002f_afb3, register!(Slt, 31, 31, 2)),
    (0x005f_2433, register!(Slt, 8, 30, 5)),
    (0x010f_af33, register!(Slt, 30, 31, 16)),
    (0x0054_b7b3, register!(Sltu, 15, 9, 5)),
    (0x0058_3433, register!(Sltu, 8, 16, 5)),
    (0x009f_b133, register!(Sltu, 2, 31, 9)),
    (0x0068_4fb3, register!(Xor, 31, 16, 6)),
    (0x0090_4033, register!(Xor, 0, 0, 9)),
    (0x0024_c833, register!(Xor, 16, 9, 2)),
    (0x01f0_5433, register!(Srl, 8, 0, 31)),
    (0x0022_dfb3, register!(Srl, 31, 5, 2)),
    (0x01f7_d7b3, register!(Srl, 15, 15, 31)),
    (0x0091_6433, register!(Or, 8, 2, 9)),
    (0x0097_e033, register!(Or, 0, 15, 9)),
    (0x01e9_6433, register!(Or, 8, 18, 30)),
    (0x0112_f4b3, register!(And, 9, 5, 17)),
    (0x0014_7fb3, register!(And, 31, 8, 1)),
    (0x0107_f033, register!(And, 0, 15, 16)),
    (0x41eb_07b3, register!(Sub, 15, 22, 30)),
    (0x41e0_0eb3, register!(Sub, 29, 0, 30)),
    (0x40f4_07b3, register!(Sub, 15, 8, 15)),
    (0x4020_d0b3, register!(Sra, 1, 1, 2)),
    (0x4010_5f33, register!(Sra, 30, 0, 1)),
    (0x4100_5fb3, register!(Sra, 31, 0, 16)),
    (0x03f4_0f33, register!(Mul, 30, 8, 31)),
    (0x03f0_00b3, register!(Mul, 1, 0, 31)),
    (0x03f0_0133, register!(Mul, 2, 0, 31)),
    (0x0284_94b3, register!(Mulh, 9, 9, 8)),
    (0x02f6_1433, register!(Mulh, 8, 12, 15)),
    (0x03ff_1f33, register!(Mulh, 30, 30, 31)),
    (0x0291_2fb3, register!(Mulhsu, 31, 2, 9)),
    (0x0254_2ab3, register!(Mulhsu, 21, 8, 5)),
    (0x021f_a833, register!(Mulhsu, 16, 31, 1)),
    (0x0227_b7b3, register!(Mulhu, 15, 15, 2)),
    (0x03f4_bfb3, register!(Mulhu, 31, 9, 31)),
    (0x02f0_3133, register!(Mulhu, 2, 0, 15)),
    (0x03f0_c0b3, register!(Div, 1, 1, 31)),
    (0x03ef_44b3, register!(Div, 9, 30, 30)),
    (0x02ff_c433, register!(Div, 8, 31, 15)),
    (0x0304_5433, register!(Divu, 8, 8, 16)),
    (0x0284_5db3, register!(Divu, 27, 8, 8)),
    (0x0254_d4b3, register!(Divu, 9, 9, 5)),
    (0x03f4_60b3, register!(Rem, 1, 8, 31)),
    (0x02f0_60b3, register!(Rem, 1, 0, 15)),
    (0x03ea_e033, register!(Rem, 0, 21, 30)),
    (0x0250_f0b3, register!(Remu, 1, 1, 5)),
    (0x03ef_7033, register!(Remu, 0, 30, 30)),
    (0x03f4_ff33, register!(Remu, 30, 9, 31)),
    (0x0101_0fbb, register!(Addw, 31, 2, 16)),
    (0x01e0_00bb, register!(Addw, 1, 0, 30)),
    (0x00f7_883b, register!(Addw, 16, 15, 15)),
    (0x00f1_153b, register!(Sllw, 10, 2, 15)),
    (0x0007_983b, register!(Sllw, 16, 15, 0)),
    (0x0154_90bb, register!(Sllw, 1, 9, 21)),
    (0x010f_5f3b, register!(Srlw, 30, 30, 16)),
    (0x0084_d0bb, register!(Srlw, 1, 9, 8)),
    (0x0108_57bb, register!(Srlw, 15, 16, 16)),
    (0x4006_80bb, register!(Subw, 1, 13, 0)),
    (0x4024_07bb, register!(Subw, 15, 8, 2)),
    (0x41f7_87bb, register!(Subw, 15, 15, 31)),
    (0x410f_d03b, register!(Sraw, 0, 31, 16)),
    (0x4013_d7bb, register!(Sraw, 15, 7, 1)),
    (0x40f1_543b, register!(Sraw, 8, 2, 15)),
    (0x0290_84bb, register!(Mulw, 9, 1, 9)),
    (0x03e4_82bb, register!(Mulw, 5, 9, 30)),
    (0x0220_80bb, register!(Mulw, 1, 1, 2)),
    (0x03e2_c0bb, register!(Divw, 1, 5, 30)),
    (0x0280_cfbb, register!(Divw, 31, 1, 8)),
    (0x03e1_47bb, register!(Divw, 15, 2, 30)),
    (0x028f_543b, register!(Divuw, 8, 30, 8)),
    (0x0254_5f3b, register!(Divuw, 30, 8, 5)),
    (0x0398_543b, register!(Divuw, 8, 16, 25)),
    (0x0210_e2bb, register!(Remw, 5, 1, 1)),
    (0x0290_e7bb, register!(Remw, 15, 1, 9)),
    (0x02f0_6f3b, register!(Remw, 30, 0, 15)),
    (0x0282_f0bb, register!(Remuw, 1, 5, 8)),
    (0x0330_7fbb, register!(Remuw, 31, 0, 19)),
    (0x0214_f53b, register!(Remuw, 10, 9, 1)),
    (0x100f_a12f, load_reserved!(Word, 2, 31)),
    (0x1604_a7af, load_reserved!(Word, 15, 9)),
    (0x160f_a12f, load_reserved!(Word, 2, 31)),
    (0x1be2_a4af, store_conditional!(Word, 9, 5, 30)),
    (0x1be1_24af, store_conditional!(Word, 9, 2, 30)),
    (0x180f_27af, store_conditional!(Word, 15, 30, 0)),
    (0x0c1f_22af, amo!(Amoswap, Word, 5, 30, 1)),
    (0x0b08_24af, amo!(Amoswap, Word, 9, 16, 16)),
    (0x0817_a7af, amo!(Amoswap, Word, 15, 15, 1)),
    (0x0088_202f, amo!(Amoadd, Word, 0, 16, 8)),
    (0x07f1_27af, amo!(Amoadd, Word, 15, 2, 31)),
    (0x0000_232f, amo!(Amoadd, Word, 6, 0, 0)),
    (0x2611_20af, amo!(Amoxor, Word, 1, 2, 1)),
    (0x2054_afaf, amo!(Amoxor, Word, 31, 9, 5)),
    (0x20ff_a82f, amo!(Amoxor, Word, 16, 31, 15)),
    (0x6411_24af, amo!(Amoand, Word, 9, 2, 1)),
    (0x63ff_242f, amo!(Amoand, Word, 8, 30, 31)),
    (0x65ef_2f2f, amo!(Amoand, Word, 30, 30, 30)),
    (0x4491_2f2f, amo!(Amoor, Word, 30, 2, 9)),
    (0x450f_a12f, amo!(Amoor, Word, 2, 31, 16)),
    (0x4504_a7af, amo!(Amoor, Word, 15, 9, 16)),
    (0x8204_2f2f, amo!(Amomin, Word, 30, 8, 0)),
    (0x85f0_a12f, amo!(Amomin, Word, 2, 1, 31)),
    (0x8424_afaf, amo!(Amomin, Word, 31, 9, 2)),
    (0xa1ef_27af, amo!(Amomax, Word, 15, 30, 30)),
    (0xa210_a2af, amo!(Amomax, Word, 5, 1, 1)),
    (0xa287_a42f, amo!(Amomax, Word, 8, 15, 8)),
    (0xc628_27af, amo!(Amominu, Word, 15, 16, 2)),
    (0xc408_2f2f, amo!(Amominu, Word, 30, 16, 0)),
    (0xc222_a02f, amo!(Amominu, Word, 0, 5, 2)),
    (0xe00f_afaf, amo!(Amomaxu, Word, 31, 31, 0)),
    (0xe258_22af, amo!(Amomaxu, Word, 5, 16, 5)),
    (0xe5e2_afaf, amo!(Amomaxu, Word, 31, 5, 30)),
    (0x1004_312f, load_reserved!(DoubleWord, 2, 8)),
    (0x1608_3f2f, load_reserved!(DoubleWord, 30, 16)),
    (0x1607_bf2f, load_reserved!(DoubleWord, 30, 15)),
    (0x1e50_312f, store_conditional!(DoubleWord, 2, 0, 5)),
    (0x180f_37af, store_conditional!(DoubleWord, 15, 30, 0)),
    (0x1c20_32af, store_conditional!(DoubleWord, 5, 0, 2)),
    (0x0dc2_bf2f, amo!(Amoswap, DoubleWord, 30, 5, 28)),
    (0x0e08_37af, amo!(Amoswap, DoubleWord, 15, 16, 0)),
    (0x0ff4_37af, amo!(Amoswap, DoubleWord, 15, 8, 31)),
    (0x0254_bfaf, amo!(Amoadd, DoubleWord, 31, 9, 5)),
    (0x01e4_342f, amo!(Amoadd, DoubleWord, 8, 8, 30)),
    (0x0086_37af, amo!(Amoadd, DoubleWord, 15, 12, 8)),
    (0x23e1_302f, amo!(Amoxor, DoubleWord, 0, 2, 30)),
    (0x23ef_bf2f, amo!(Amoxor, DoubleWord, 30, 31, 30)),
    (0x2684_b12f, amo!(Amoxor, DoubleWord, 2, 9, 8)),
    (0x65e1_342f, amo!(Amoand, DoubleWord, 8, 2, 30)),
    (0x63ef_b42f, amo!(Amoand, DoubleWord, 8, 31, 30)),
    (0x6650_30af, amo!(Amoand, DoubleWord, 1, 0, 5)),
    (0x4624_30af, amo!(Amoor, DoubleWord, 1, 8, 2)),
    (0x44f4_b42f, amo!(Amoor, DoubleWord, 8, 9, 15)),
    (0x430f_bfaf, amo!(Amoor, DoubleWord, 31, 31, 16)),
    (0x870c_bfaf, amo!(Amomin, DoubleWord, 31, 25, 16)),
    (0x8610_342f, amo!(Amomin, DoubleWord, 8, 0, 1)),
    (0x8020_b4af, amo!(Amomin, DoubleWord, 9, 1, 2)),
    (0xa3ef_3f2f, amo!(Amomax, DoubleWord, 30, 30, 30)),
    (0xa694_b82f, amo!(Amomax, DoubleWord, 16, 9, 9)),
    (0xa617_b2af, amo!(Amomax, DoubleWord, 5, 15, 1)),
    (0xc081_382f, amo!(Amominu, DoubleWord, 16, 2, 8)),
    (0xc697_b0af, amo!(Amominu, DoubleWord, 1, 15, 9)),
    (0xc45c_302f, amo!(Amominu, DoubleWord, 0, 24, 5)),
    (0xe0f1_32af, amo!(Amomaxu, DoubleWord, 5, 2, 15)),
    (0xe49f_b12f, amo!(Amomaxu, DoubleWord, 2, 31, 9)),
    (0xe625_342f, amo!(Amomaxu, DoubleWord, 8, 10, 2)),
    (0x0ff0_000f, Insn::Fence),
    (0x0210_000f, Insn::Fence),
    (0x0310_000f, Insn::Fence),
    (0x8330_000f, Insn::Fence),
    (0x7ff3_028f, Insn::Fence),
    (0x0000_100f, Insn::FenceI),
    (0x1233_128f, Insn::FenceI),
    (0xfff0_1f8f, Insn::FenceI),
    (0x7b00_9173, csr!(Replace, 2, 1, 1968)),
    (0xf144_1473, csr!(Replace, 8, 8, 3860)),
    (0xf147_97f3, csr!(Replace, 15, 15, 3860)),
    (0x7b03_aff3, csr!(Set, 31, 7, 1968)),
    (0x7b08_24f3, csr!(Set, 9, 16, 1968)),
    (0x3001_2873, csr!(Set, 16, 2, 768)),
    (0x341f_3473, csr!(Clear, 8, 30, 833)),
    (0x3001_37f3, csr!(Clear, 15, 2, 768)),
    (0x3002_b873, csr!(Clear, 16, 5, 768)),
    (0x3430_d2f3, csr_immediate!(Replace, 5, 1, 835)),
    (0x304f_d173, csr_immediate!(Replace, 2, 31, 772)),
    (0x3400_5f73, csr_immediate!(Replace, 30, 0, 832)),
    (0x343f_e073, csr_immediate!(Set, 0, 31, 835)),
    (0x3400_60f3, csr_immediate!(Set, 1, 0, 832)),
    (0x343f_e0f3, csr_immediate!(Set, 1, 31, 835)),
    (0x3040_7473, csr_immediate!(Clear, 8, 0, 772)),
    (0x340f_f0f3, csr_immediate!(Clear, 1, 31, 832)),
    (0x3400_77f3, csr_immediate!(Clear, 15, 0, 832)),
    (0x0000_0073, Insn::Ecall),
    (0x0010_0073, Insn::Ebreak),
    (0x3020_0073, Insn::Mret),
    (0x1050_0073, Insn::Wfi),
];
