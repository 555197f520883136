//! A value of 64 bits in two registers of 32 bits.

ghost use Rattle.std.specs.Prelude.{◌≡◌};
ghost use Rattle.debug_model.specs.Commands.{high_half, joined_halves, low_half};

/// The bits 31 to 0.
pub fn low_half(value: u64) -> u32
    ensures { result ≡ low_half value }
{
    (value & 0xffff_ffff) as u32
}

/// The bits 63 to 32.
pub fn high_half(value: u64) -> u32
    ensures { result ≡ high_half value }
{
    (value >> 32) as u32
}

/// The value with these halves.
pub fn joined_halves(low: u32, high: u32) -> u64
    ensures { result ≡ joined_halves low high }
{
    u64::from(low) + (u64::from(high) << 32)
}
