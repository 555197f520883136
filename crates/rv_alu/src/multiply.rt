//! Products (unprivileged manual, "M Extension for Integer Multiplication and Division": "Multiplication Operations").

ghost use Rattle.std.specs.Prelude.{◌≡◌, ◌*◌, ◌/◌, ◌%◌, ◌^◌, ◌*ℤ◌, pos};
ghost use Rattle.rv_model.specs.Alu.{halved, low, signed, word};

use crate::words::word;

/// How many bits the upper half of a product stands above its lower half.
const HALF: u32 = 64;

/// The upper half of a product of 128 bits.
fn upper_half(product: i128) -> u64
    ensures { result ≡ low (halved product 64) }
{
    ((product >> HALF) as i64).cast_unsigned()
}

/// The low half of a * b.
pub fn mul(a: u64, b: u64) -> u64
    ensures { result ≡ a * b % 2 ^ 64 }
{
    a.wrapping_mul(b)
}

/// The high half of a * b, both signed.
pub fn mulh(a: u64, b: u64) -> u64
    ensures { result ≡ low (halved (signed a *ℤ signed b) 64) }
{
    upper_half(i128::from(a.cast_signed()) * i128::from(b.cast_signed()))
}

/// The high half of a * b, a signed and b unsigned.
pub fn mulhsu(a: u64, b: u64) -> u64
    ensures { result ≡ low (halved (signed a *ℤ pos b) 64) }
{
    upper_half(i128::from(a.cast_signed()) * i128::from(b))
}

/// The high half of a * b, both unsigned.
pub fn mulhu(a: u64, b: u64) -> u64
    ensures { result ≡ a * b / 2 ^ 64 }
{
    ((u128::from(a) * u128::from(b)) >> HALF) as u64
}

/// 32-bit a * b.
pub fn mulw(a: u64, b: u64) -> u64
    ensures { result ≡ word (a * b) }
{
    word(a.wrapping_mul(b))
}
