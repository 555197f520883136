//! Shifts by the low six bits of b, or by its low five in the 32-bit forms
//! (unprivileged manual, "Integer Computational Instructions" of RV32I and RV64I).

ghost use Rattle.std.specs.Prelude.{◌≡◌, ◌*◌, ◌/◌, ◌%◌, ◌^◌};
ghost use Rattle.rv_model.specs.Alu.{halved, low, shifted_left, signed, signed_word, word};

use crate::words::{low_word, word};

/// The bits of b that say how far a 64-bit shift goes.
const AMOUNT: u64 = 63;

/// The bits of b that say how far a 32-bit shift goes.
const WORD_AMOUNT: u64 = 31;

/// a shifted left.
pub fn sll(a: u64, b: u64) -> u64
    ensures { result ≡ shifted_left a (b % 64) }
{
    a << (b & AMOUNT)
}

/// a shifted right, zeros in.
pub fn srl(a: u64, b: u64) -> u64
    ensures { result ≡ a / 2 ^ (b % 64) }
{
    a >> (b & AMOUNT)
}

/// a shifted right, sign in.
pub fn sra(a: u64, b: u64) -> u64
    ensures { result ≡ low (halved (signed a) (b % 64)) }
{
    (a.cast_signed() >> (b & AMOUNT)).cast_unsigned()
}

/// 32-bit a shifted left.
pub fn sllw(a: u64, b: u64) -> u64
    ensures { result ≡ word (a * 2 ^ (b % 32)) }
{
    word(a << (b & WORD_AMOUNT))
}

/// 32-bit a shifted right, zeros in.
pub fn srlw(a: u64, b: u64) -> u64
    ensures { result ≡ word (a % 2 ^ 32 / 2 ^ (b % 32)) }
{
    word(u64::from(low_word(a) >> (b & WORD_AMOUNT)))
}

/// 32-bit a shifted right, sign in.
pub fn sraw(a: u64, b: u64) -> u64
    ensures { result ≡ low (halved (signed_word a) (b % 32)) }
{
    i64::from(low_word(a).cast_signed() >> (b & WORD_AMOUNT)).cast_unsigned()
}
