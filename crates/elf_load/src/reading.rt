//! Reading a file.

ghost use Rattle.std.specs.Prelude.{◌≡◌, IfErr, IfOk, Some};
ghost use Rattle.elf_load.specs.Elf.{ReadsAs, refusal_of};

use crate::count::are_too_many;
use crate::fault::ElfFault;
use crate::file::Elf;
use crate::header::{
    HEADER_SIZE, PROGRAM_HEADER_SIZE, entry, is_elf, is_risc_v_executable, program_headers,
};
use crate::table::segments;

/// What is to be loaded of a 64-bit little-endian executable for RISC-V, or the first fault in the order of `ElfFault`. Headers of other segments are
/// skipped, and no other field is looked at. It takes no memory (System V ABI, "ELF Header" and "Program Header").
pub fn read_elf(file: &[u8]) -> Result<Elf, ElfFault>
    ensures read { IfOk result (ReadsAs file.now) }
    ensures refused { IfErr result (λ fault. refusal_of file.now ≡ Some fault) }
{
    if file.len() < HEADER_SIZE {
        return Err(ElfFault::Short);
    }
    if !is_elf(file) {
        return Err(ElfFault::NotElf);
    }
    if !is_risc_v_executable(file) {
        return Err(ElfFault::Kind);
    }
    let Some(table) = program_headers(file) else {
        return Err(ElfFault::Headers);
    };
    let count = table.len() / PROGRAM_HEADER_SIZE;
    let Some(segments) = segments(table, count, file.len() as u64) else {
        return Err(ElfFault::Segment);
    };
    if are_too_many(&segments) {
        return Err(ElfFault::TooLarge);
    }
    Ok(Elf {
        entry: entry(file),
        segments,
    })
}
