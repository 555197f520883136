//! The low halves of registers (unprivileged manual, "RV64I Base Integer Instruction Set": 32-bit results are sign extended).

ghost use Rattle.std.specs.Prelude.{◌≡◌, ◌%◌, ◌^◌};
ghost use Rattle.rv_model.specs.Alu.{word};
ghost use Rattle.rv_model.specs.Fields.{sign_extended};

/// The low half of a register.
pub fn low_word(a: u64) -> u32
    ensures { result ≡ a % 2 ^ 32 }
{
    (a & 0xffff_ffff) as u32
}

/// A number of 32 bits, sign extended.
pub fn extend(n: u32) -> u64
    ensures { result ≡ sign_extended 32 n }
{
    i64::from(n.cast_signed()).cast_unsigned()
}

/// The low half of a register, sign extended.
pub fn word(a: u64) -> u64
    ensures { result ≡ word a }
{
    extend(low_word(a))
}
