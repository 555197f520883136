//! How a number that is read fills its register (unprivileged manual, "Load and Store Instructions" and "A" extension).

ghost use Rattle.std.specs.Prelude.{◌≡◌, ◌<◌, ◌^◌};
ghost use Rattle.rv_model.specs.Accesses.{load_extension, load_size, width_extension, width_size};
ghost use Rattle.rv_model.specs.Size.{count_of};

use rv_model::{LoadOp, Width};

/// The value of a load's register.
pub fn extended(op: LoadOp, value: u64) -> u64
    requires { value < 256 ^ count_of (load_size op) }
    ensures { result ≡ load_extension op value }
{
    match op {
        LoadOp::Lb => i64::from((value as u8).cast_signed()).cast_unsigned(),
        LoadOp::Lh => i64::from((value as u16).cast_signed()).cast_unsigned(),
        LoadOp::Lw => i64::from((value as u32).cast_signed()).cast_unsigned(),
        LoadOp::Ld => value,
        LoadOp::Lbu => value,
        LoadOp::Lhu => value,
        LoadOp::Lwu => value,
    }
}

/// The value of an atomic instruction's register.
pub fn sign_extended(width: Width, value: u64) -> u64
    requires { value < 256 ^ count_of (width_size width) }
    ensures { result ≡ width_extension width value }
{
    match width {
        Width::Word => i64::from((value as u32).cast_signed()).cast_unsigned(),
        Width::DoubleWord => value,
    }
}
