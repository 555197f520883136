//! Sums, differences, comparisons (unprivileged manual, "Integer Computational Instructions" of RV32I and RV64I).

ghost use Rattle.std.specs.Prelude.{◌≡◌, ◌+◌, nat_lt, int_lt};
ghost use Rattle.rv_model.specs.Alu.{added, subtracted, digit, signed, word};

use crate::words::word;

/// a + b.
pub fn add(a: u64, b: u64) -> u64
    ensures { result ≡ added a b }
{
    a.wrapping_add(b)
}

/// a - b.
pub fn sub(a: u64, b: u64) -> u64
    ensures { result ≡ subtracted a b }
{
    a.wrapping_sub(b)
}

/// 32-bit a + b.
pub fn addw(a: u64, b: u64) -> u64
    ensures { result ≡ word (a + b) }
{
    word(a.wrapping_add(b))
}

/// 32-bit a - b.
pub fn subw(a: u64, b: u64) -> u64
    ensures { result ≡ word (subtracted a b) }
{
    word(a.wrapping_sub(b))
}

/// 1 if a < b, signed, else 0.
pub fn slt(a: u64, b: u64) -> u64
    ensures { result ≡ digit (int_lt (signed a) (signed b)) }
{
    u64::from(a.cast_signed() < b.cast_signed())
}

/// 1 if a < b, unsigned, else 0.
pub fn sltu(a: u64, b: u64) -> u64
    ensures { result ≡ digit (nat_lt a b) }
{
    u64::from(a < b)
}
