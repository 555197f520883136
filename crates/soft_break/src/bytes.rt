ghost use Rattle.std.specs.Prelude.{◌≡◌, ◌<◌};
ghost use Rattle.std.specs.Int.{byte_at};
ghost use Rattle.rv_model.specs.Size.{count_of};
ghost use Rattle.abstract_debugger.specs.Plan.{patch_bytes};
ghost use Rattle.soft_laws.specs.SoftBreaks.{meets};
ghost use Rattle.soft_break.specs.Patches.{IsReplaced};

use rv_model::Size;

/// The bytes of a word.
pub(crate) const WORD_BYTES: u64 = 4;

/// Whether the word at an address has this byte.
pub(crate) fn covers(address: u64, at: u64) -> bool
    ensures { result ≡ meets address at 1 }
{
    address <= at && at - address < WORD_BYTES
}

/// Whether the word at an address has a byte in common with an element of memory.
pub(crate) fn has_common(address: u64, size: Size, at: u64) -> bool
    ensures { result ≡ meets address at (count_of size) }
{
    if at < address {
        address - at < u64::from(size.count())
    } else {
        at - address < WORD_BYTES
    }
}

/// One byte of a word, the lowest at place 0.
pub(crate) fn byte_of(word: u32, place: usize) -> u8
    requires { place < patch_bytes }
    ensures { result ≡ byte_at place word }
{
    word.to_le_bytes()[place]
}

/// The word with another byte at a place.
pub(crate) fn with_byte(word: u32, place: usize, byte: u8) -> u32
    requires { place < patch_bytes }
    ensures { IsReplaced place byte word result }
{
    let mut bytes = word.to_le_bytes();
    bytes[place] = byte;
    u32::from_le_bytes(bytes)
}
