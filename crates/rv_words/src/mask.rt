//! The bits of a word that tell its instruction, by how much of the upper bits count besides opcode and funct3
//! (unprivileged manual, "Base Instruction Formats").

/// The opcode alone.
pub const OPCODE_MASK: u32 = 0x0000_007f;
/// Opcode and funct3.
pub const FUNCT3_MASK: u32 = 0x0000_707f;
/// Also bits 31:25.
pub const FUNCT7_MASK: u32 = 0xfe00_707f;
/// Also bits 31:26, where a shift amount has six bits.
pub const FUNCT6_MASK: u32 = 0xfc00_707f;
/// Also bits 31:27, of the atomics; the bits aq and rl do not count.
pub const FUNCT5_MASK: u32 = 0xf800_707f;
/// The same and rs2, which is 0 in `lr`.
pub const FUNCT5_RS2_MASK: u32 = 0xf9f0_707f;
