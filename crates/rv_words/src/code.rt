//! The code of each instruction: its opcode and funct fields in place, with every other bit 0
//! (unprivileged manual, "RV32/64G Instruction Set Listings"; privileged manual, "Machine-Mode Privileged Instructions").

// Lui, auipc and the jumps.
pub const LUI: u32 = 0x0000_0037;

pub const AUIPC: u32 = 0x0000_0017;

pub const JAL: u32 = 0x0000_006f;

pub const JALR: u32 = 0x0000_0067;

// Branches.
pub const BEQ: u32 = 0x0000_0063;

pub const BNE: u32 = 0x0000_1063;

pub const BLT: u32 = 0x0000_4063;

pub const BGE: u32 = 0x0000_5063;

pub const BLTU: u32 = 0x0000_6063;

pub const BGEU: u32 = 0x0000_7063;

// Loads.
pub const LB: u32 = 0x0000_0003;

pub const LH: u32 = 0x0000_1003;

pub const LW: u32 = 0x0000_2003;

pub const LD: u32 = 0x0000_3003;

pub const LBU: u32 = 0x0000_4003;

pub const LHU: u32 = 0x0000_5003;

pub const LWU: u32 = 0x0000_6003;

// Stores.
pub const SB: u32 = 0x0000_0023;

pub const SH: u32 = 0x0000_1023;

pub const SW: u32 = 0x0000_2023;

pub const SD: u32 = 0x0000_3023;

// Register and immediate.
pub const ADDI: u32 = 0x0000_0013;

pub const SLTI: u32 = 0x0000_2013;

pub const SLTIU: u32 = 0x0000_3013;

pub const XORI: u32 = 0x0000_4013;

pub const ORI: u32 = 0x0000_6013;

pub const ANDI: u32 = 0x0000_7013;

pub const SLLI: u32 = 0x0000_1013;

pub const SRLI: u32 = 0x0000_5013;

pub const SRAI: u32 = 0x4000_5013;

// Register and immediate, 32 bits.
pub const ADDIW: u32 = 0x0000_001b;

pub const SLLIW: u32 = 0x0000_101b;

pub const SRLIW: u32 = 0x0000_501b;

pub const SRAIW: u32 = 0x4000_501b;

// Register and register.
pub const ADD: u32 = 0x0000_0033;

pub const SLL: u32 = 0x0000_1033;

pub const SLT: u32 = 0x0000_2033;

pub const SLTU: u32 = 0x0000_3033;

pub const XOR: u32 = 0x0000_4033;

pub const SRL: u32 = 0x0000_5033;

pub const OR: u32 = 0x0000_6033;

pub const AND: u32 = 0x0000_7033;

pub const SUB: u32 = 0x4000_0033;

pub const SRA: u32 = 0x4000_5033;

pub const MUL: u32 = 0x0200_0033;

pub const MULH: u32 = 0x0200_1033;

pub const MULHSU: u32 = 0x0200_2033;

pub const MULHU: u32 = 0x0200_3033;

pub const DIV: u32 = 0x0200_4033;

pub const DIVU: u32 = 0x0200_5033;

pub const REM: u32 = 0x0200_6033;

pub const REMU: u32 = 0x0200_7033;

// Register and register, 32 bits.
pub const ADDW: u32 = 0x0000_003b;

pub const SLLW: u32 = 0x0000_103b;

pub const SRLW: u32 = 0x0000_503b;

pub const SUBW: u32 = 0x4000_003b;

pub const SRAW: u32 = 0x4000_503b;

pub const MULW: u32 = 0x0200_003b;

pub const DIVW: u32 = 0x0200_403b;

pub const DIVUW: u32 = 0x0200_503b;

pub const REMW: u32 = 0x0200_603b;

pub const REMUW: u32 = 0x0200_703b;

// Atomics.
pub const LR_W: u32 = 0x1000_202f;

pub const SC_W: u32 = 0x1800_202f;

pub const AMOSWAP_W: u32 = 0x0800_202f;

pub const AMOADD_W: u32 = 0x0000_202f;

pub const AMOXOR_W: u32 = 0x2000_202f;

pub const AMOAND_W: u32 = 0x6000_202f;

pub const AMOOR_W: u32 = 0x4000_202f;

pub const AMOMIN_W: u32 = 0x8000_202f;

pub const AMOMAX_W: u32 = 0xa000_202f;

pub const AMOMINU_W: u32 = 0xc000_202f;

pub const AMOMAXU_W: u32 = 0xe000_202f;

pub const LR_D: u32 = 0x1000_302f;

pub const SC_D: u32 = 0x1800_302f;

pub const AMOSWAP_D: u32 = 0x0800_302f;

pub const AMOADD_D: u32 = 0x0000_302f;

pub const AMOXOR_D: u32 = 0x2000_302f;

pub const AMOAND_D: u32 = 0x6000_302f;

pub const AMOOR_D: u32 = 0x4000_302f;

pub const AMOMIN_D: u32 = 0x8000_302f;

pub const AMOMAX_D: u32 = 0xa000_302f;

pub const AMOMINU_D: u32 = 0xc000_302f;

pub const AMOMAXU_D: u32 = 0xe000_302f;

// Fences.
pub const FENCE: u32 = 0x0000_000f;

pub const FENCE_I: u32 = 0x0000_100f;

// Control and status registers, and the privileged instructions.
pub const CSRRW: u32 = 0x0000_1073;

pub const CSRRS: u32 = 0x0000_2073;

pub const CSRRC: u32 = 0x0000_3073;

pub const CSRRWI: u32 = 0x0000_5073;

pub const CSRRSI: u32 = 0x0000_6073;

pub const CSRRCI: u32 = 0x0000_7073;

pub const ECALL: u32 = 0x0000_0073;

pub const EBREAK: u32 = 0x0010_0073;

pub const MRET: u32 = 0x3020_0073;

pub const WFI: u32 = 0x1050_0073;
