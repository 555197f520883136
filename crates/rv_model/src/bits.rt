//! Fields of a 64 bit word.

ghost use Rattle.std.specs.Prelude.{◌≡◌, ◌+◌, ◌<◌, ◌≤◌, ◌^◌};
ghost use Rattle.rv_model.specs.Fields.{field, bit, bit_value};

/// The bits from `low` on, `count` of them.
pub fn field(word: u64, low: u32, count: u32) -> u64
    requires most { count < 64 }
    requires place { low < 64 }
    ensures is { result ≡ field low count word }
    ensures fits { result < 2 ^ count }
{
    (word >> low) % (1 << count)
}

/// Whether that bit is set.
pub fn bit(word: u64, place: u32) -> bool
    requires { place < 64 }
    ensures { result ≡ bit place word }
{
    word >> place & 1 == 1
}

/// What that bit adds to a word.
pub fn bit_value(set: bool, place: u32) -> u64
    requires { place < 64 }
    ensures { result ≡ bit_value place set }
{
    if set { 1 << place } else { 0 }
}
