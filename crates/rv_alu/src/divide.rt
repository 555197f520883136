//! Quotients and remainders (unprivileged manual, "M Extension for Integer Multiplication and Division": "Division Operations").
//!
//! A division by zero gives all ones, and the dividend as its remainder. The one signed division that overflows gives the
//! dividend, and remainder 0. A quotient is rounded toward 0, so a remainder has the dividend's sign.

ghost use Rattle.std.specs.Prelude.{◌≡◌, ◌==◌, ◌/◌, ◌%◌, ◌^◌, if◌then◌else◌, int_div, int_rem};
ghost use Rattle.rv_model.specs.Alu.{all_ones, low, signed, signed_word, word};

use crate::words::{extend, low_word, word};

/// What a division by zero gives: all ones.
const NO_QUOTIENT: u64 = u64::MAX;

/// a / b, signed.
pub fn div(a: u64, b: u64) -> u64
    ensures { result ≡ (if b == 0 then all_ones else low (int_div (signed a) (signed b))) }
{
    if b == 0 {
        return NO_QUOTIENT;
    }
    let quotient = a.cast_signed().wrapping_div(b.cast_signed());
    quotient.cast_unsigned()
}

/// a / b, unsigned.
pub fn divu(a: u64, b: u64) -> u64
    ensures { result ≡ (if b == 0 then all_ones else a / b) }
{
    if b == 0 {
        return NO_QUOTIENT;
    }
    a / b
}

/// a % b, signed.
pub fn rem(a: u64, b: u64) -> u64
    ensures { result ≡ (if b == 0 then a else low (int_rem (signed a) (signed b))) }
{
    if b == 0 {
        return a;
    }
    let remainder = a.cast_signed().wrapping_rem(b.cast_signed());
    remainder.cast_unsigned()
}

/// a % b, unsigned.
pub fn remu(a: u64, b: u64) -> u64
    ensures { result ≡ (if b == 0 then a else a % b) }
{
    if b == 0 {
        return a;
    }
    a % b
}

/// 32-bit a / b, signed.
pub fn divw(a: u64, b: u64) -> u64
    ensures { result ≡ (if b % 2 ^ 32 == 0 then all_ones else word (low (int_div (signed_word a) (signed_word b)))) }
{
    let divisor = low_word(b);
    if divisor == 0 {
        return NO_QUOTIENT;
    }
    let quotient = low_word(a)
        .cast_signed()
        .wrapping_div(divisor.cast_signed());
    extend(quotient.cast_unsigned())
}

/// 32-bit a / b, unsigned.
pub fn divuw(a: u64, b: u64) -> u64
    ensures { result ≡ (if b % 2 ^ 32 == 0 then all_ones else word (a % 2 ^ 32 / (b % 2 ^ 32))) }
{
    let divisor = low_word(b);
    if divisor == 0 {
        return NO_QUOTIENT;
    }
    extend(low_word(a) / divisor)
}

/// 32-bit a % b, signed.
pub fn remw(a: u64, b: u64) -> u64
    ensures { result ≡ (if b % 2 ^ 32 == 0 then word a else low (int_rem (signed_word a) (signed_word b))) }
{
    let divisor = low_word(b);
    if divisor == 0 {
        return word(a);
    }
    let remainder = low_word(a)
        .cast_signed()
        .wrapping_rem(divisor.cast_signed());
    i64::from(remainder).cast_unsigned()
}

/// 32-bit a % b, unsigned.
pub fn remuw(a: u64, b: u64) -> u64
    ensures { result ≡ (if b % 2 ^ 32 == 0 then word a else word (a % 2 ^ 32 % (b % 2 ^ 32))) }
{
    let divisor = low_word(b);
    if divisor == 0 {
        return word(a);
    }
    extend(low_word(a) % divisor)
}
