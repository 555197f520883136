//! Numbers at places of a file, the least significant byte first (System V ABI, "Data Representation").

ghost use Rattle.std.specs.Prelude.{◌≡◌, ◌+◌, ◌≤◌, length};
ghost use Rattle.elf_load.specs.Fields.{number_at};

use byteorder::{ByteOrder, LittleEndian};

/// The number in the 2 bytes at a place.
pub(crate) fn half_at(bytes: &[u8], at: usize) -> u16
    requires { at + 2 ≤ length bytes.now }
    ensures { result ≡ number_at at 2 bytes.now }
{
    LittleEndian::read_u16(&bytes[at..])
}

/// The number in the 4 bytes at a place.
pub(crate) fn word_at(bytes: &[u8], at: usize) -> u32
    requires { at + 4 ≤ length bytes.now }
    ensures { result ≡ number_at at 4 bytes.now }
{
    LittleEndian::read_u32(&bytes[at..])
}

/// The number in the 8 bytes at a place.
pub(crate) fn double_at(bytes: &[u8], at: usize) -> u64
    requires { at + 8 ≤ length bytes.now }
    ensures { result ≡ number_at at 8 bytes.now }
{
    LittleEndian::read_u64(&bytes[at..])
}
