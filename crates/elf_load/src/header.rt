//! The header of a file (System V ABI, "ELF Header" and "ELF Identification"; RISC-V ELF psABI, "File Header").

ghost use Rattle.std.specs.Prelude.{◌≡◌, ◌≤◌, IfNone, IfSome, false, true, length};
ghost use Rattle.elf_load.specs.Elf.{has_bad_table};
ghost use Rattle.elf_load.specs.Fields.{begins_as_elf, entry_of, is_known_kind, program_header_count, program_header_table};

use crate::fields::{double_at, half_at, word_at};
use crate::file::SEGMENTS_MOST;

/// How many bytes the header has.
pub(crate) const HEADER_SIZE: usize = 64;
/// How many bytes a program header has.
pub(crate) const PROGRAM_HEADER_SIZE: usize = 56;

/// The places of the header's fields.
const CLASS_AT: usize = 4;

const DATA_AT: usize = 5;

const IDENTIFICATION_VERSION_AT: usize = 6;

const TYPE_AT: usize = 16;

const MACHINE_AT: usize = 18;

const VERSION_AT: usize = 20;

const ENTRY_AT: usize = 24;

const TABLE_OFFSET_AT: usize = 32;

const PROGRAM_HEADER_SIZE_AT: usize = 54;

const PROGRAM_HEADER_COUNT_AT: usize = 56;

/// Objects of 64 bits.
const CLASS_64: u8 = 2;
/// Numbers with the least significant byte first.
const LITTLE_ENDIAN: u8 = 1;
/// The one version that there is.
const CURRENT_VERSION: u8 = 1;
/// An executable at fixed addresses.
const EXECUTABLE: u16 = 2;
/// RISC-V.
const RISC_V: u16 = 243;

/// Do the first four bytes say that it is an ELF file?
pub(crate) fn is_elf(file: &[u8]) -> bool
    requires { 64 ≤ length file.now }
    ensures { result ≡ begins_as_elf file.now }
{
    file[0] == 0x7f && file[1] == b'E' && file[2] == b'L' && file[3] == b'F'
}

/// Is it a 64-bit little-endian executable for RISC-V, in the one version of the format?
pub(crate) fn is_risc_v_executable(file: &[u8]) -> bool
    requires { 64 ≤ length file.now }
    ensures { result ≡ is_known_kind file.now }
{
    file[CLASS_AT] == CLASS_64
        && file[DATA_AT] == LITTLE_ENDIAN
        && file[IDENTIFICATION_VERSION_AT] == CURRENT_VERSION
        && half_at(file, TYPE_AT) == EXECUTABLE
        && half_at(file, MACHINE_AT) == RISC_V
        && word_at(file, VERSION_AT) == u32::from(CURRENT_VERSION)
}

/// The address of the first instruction.
pub(crate) fn entry(file: &[u8]) -> u64
    requires { 64 ≤ length file.now }
    ensures { result ≡ entry_of file.now }
{
    double_at(file, ENTRY_AT)
}

/// The program headers, one after another; None where they haven't 56 bytes each, aren't 1 to 64, or pass the file's end.
pub(crate) fn program_headers(file: &[u8]) -> Option<&[u8]>
    requires { 64 ≤ length file.now }
    ensures found { IfSome result (λ table. (has_bad_table file.now ≡ false) × (table.now ≡ program_header_table file.now)) }
    ensures none { IfNone result (has_bad_table file.now ≡ true) }
{
    let size = usize::from(half_at(file, PROGRAM_HEADER_SIZE_AT));
    let count = usize::from(half_at(file, PROGRAM_HEADER_COUNT_AT));
    if size != PROGRAM_HEADER_SIZE || count < 1 || count > SEGMENTS_MOST {
        return None;
    }
    let length = file.len() as u64;
    let start = double_at(file, TABLE_OFFSET_AT);
    let table_size = count * PROGRAM_HEADER_SIZE;
    if start > length || length - start < table_size as u64 {
        return None;
    }
    let start = start as usize;
    Some(&file[start..start + table_size])
}
