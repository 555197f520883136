//! The least and the greatest of what lies in memory and of a register (unprivileged manual, "Atomic Memory Operations").

ghost use Rattle.std.specs.Prelude.{◌≡◌, ◌%◌, ◌^◌, if◌then◌else◌, nat_lt, int_lt};
ghost use Rattle.rv_model.specs.Alu.{signed, signed_word, word};

use crate::words::{low_word, word};

/// 32-bit min(a, b), signed.
pub fn min_word(a: u64, b: u64) -> u64
    ensures { result ≡ (if int_lt (signed_word b) (signed_word a) then word b else word a) }
{
    if low_word(b).cast_signed() < low_word(a).cast_signed() {
        word(b)
    } else {
        word(a)
    }
}

/// 32-bit max(a, b), signed.
pub fn max_word(a: u64, b: u64) -> u64
    ensures { result ≡ (if int_lt (signed_word a) (signed_word b) then word b else word a) }
{
    if low_word(a).cast_signed() < low_word(b).cast_signed() {
        word(b)
    } else {
        word(a)
    }
}

/// 32-bit min(a, b), unsigned.
pub fn minu_word(a: u64, b: u64) -> u64
    ensures { result ≡ (if nat_lt (b % 2 ^ 32) (a % 2 ^ 32) then word b else word a) }
{
    if low_word(b) < low_word(a) {
        word(b)
    } else {
        word(a)
    }
}

/// 32-bit max(a, b), unsigned.
pub fn maxu_word(a: u64, b: u64) -> u64
    ensures { result ≡ (if nat_lt (a % 2 ^ 32) (b % 2 ^ 32) then word b else word a) }
{
    if low_word(a) < low_word(b) {
        word(b)
    } else {
        word(a)
    }
}

/// min(a, b), signed.
pub fn min_double(a: u64, b: u64) -> u64
    ensures { result ≡ (if int_lt (signed b) (signed a) then b else a) }
{
    if b.cast_signed() < a.cast_signed() {
        b
    } else {
        a
    }
}

/// max(a, b), signed.
pub fn max_double(a: u64, b: u64) -> u64
    ensures { result ≡ (if int_lt (signed a) (signed b) then b else a) }
{
    if a.cast_signed() < b.cast_signed() {
        b
    } else {
        a
    }
}

/// min(a, b), unsigned.
pub fn minu_double(a: u64, b: u64) -> u64
    ensures { result ≡ (if nat_lt b a then b else a) }
{
    if b < a { b } else { a }
}

/// max(a, b), unsigned.
pub fn maxu_double(a: u64, b: u64) -> u64
    ensures { result ≡ (if nat_lt a b then b else a) }
{
    if a < b { b } else { a }
}
