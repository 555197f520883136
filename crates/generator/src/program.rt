//! The image: words of RV64I and of the "M" extension (RISC-V Unprivileged ISA, chapter 2 and "M").

ghost use Rattle.std.specs.Prelude.{◌≡◌, ◌<◌, IfOk, flat_map, map};
ghost use Rattle.std.specs.Int.{w32, to_le_bytes};
ghost use Rattle.rv_model.specs.OperandsFit.{OperandsFit};
ghost use Rattle.generator.specs.Image.{register, instruction, jump_back, looped, AreWordsOf, IsImageOf};

use rv_model::{IType, ImmediateOp, Insn, JType, RType, RegisterOp};
use rv_words::encode;
use std::alloc::{AllocError, Global};

/// How many instructions stand before the jump back.
pub const INSTRUCTIONS: usize = 1000;

/// The lowest register that an instruction names, x5.
const FIRST_REGISTER: u64 = 5;

/// How many registers the instructions name, from the lowest on.
const REGISTERS: u64 = 16;

/// How many immediates there are, from 0 on: those whose sign is plus.
const IMMEDIATES: u64 = 2048;

/// How far back the jump goes: over four bytes for each instruction.
const JUMPED_BYTES: u64 = 4 * INSTRUCTIONS as u64;

/// One of x5 to x20, by a number.
pub fn register(number: u64) -> u8
    ensures value { result ≡ register number }
    ensures range { result < 32 }
{
    (FIRST_REGISTER + number % REGISTERS) as u8
}

/// The instruction of a random word: its kind by the lowest two bits, its registers by bits 8, 16 and 24 on, and its immediate by bits 32 on.
pub fn instruction(word: u64) -> Insn
    ensures value { result ≡ instruction word }
    ensures fits { OperandsFit result }
{
    let rd = register(word >> 8);
    let rs1 = register(word >> 16);
    let rs2 = register(word >> 24);
    let imm = (word >> 32) % IMMEDIATES;
    match word % 4 {
        0 => Insn::Immediate(ImmediateOp::Addi, IType { rd, rs1, imm }),
        1 => Insn::Register(RegisterOp::Add, RType { rd, rs1, rs2 }),
        2 => Insn::Register(RegisterOp::Xor, RType { rd, rs1, rs2 }),
        _ => Insn::Register(RegisterOp::Mul, RType { rd, rs1, rs2 }),
    }
}

/// `jal x0, -4000`: back to the first instruction.
fn jump_back() -> Insn
    ensures value { result ≡ jump_back }
    ensures fits { OperandsFit result }
{
    Insn::Jal(JType {
        rd: 0,
        imm: JUMPED_BYTES.wrapping_neg(),
    })
}

/// The image of these random words: the bytes of their instructions and of the jump back.
pub fn image(alloc: Global, words: &[u64]) -> Result<Vec<u8>, AllocError>
    ensures { IfOk result (λ image. IsImageOf (looped words.now) image.items) }
{
    let mut program = encoded(alloc, words)?;
    program.push(encode(jump_back()))?;
    little_endian(alloc, &program)
}

/// The words of the instructions.
fn encoded(alloc: Global, words: &[u64]) -> Result<Vec<u32>, AllocError>
    ensures { IfOk result (λ program. AreWordsOf (map instruction words.now) program.items) }
{
    let mut program = Vec::new(alloc);
    for word in words {
        program.push(encode(instruction(*word)))?;
    }
    Ok(program)
}

/// The bytes of these words, low byte first.
fn little_endian(alloc: Global, words: &[u32]) -> Result<Vec<u8>, AllocError>
    ensures { IfOk result (λ bytes. bytes.items ≡ flat_map (to_le_bytes w32) words.now) }
{
    let mut bytes = Vec::new(alloc);
    for word in words {
        bytes.extend_from_slice(&word.to_le_bytes())?;
    }
    Ok(bytes)
}
