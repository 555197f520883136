ghost use Rattle.std.specs.Prelude.{◌≡◌};
ghost use Rattle.elf_load.specs.Elf.{fault_number};

use thiserror::Error;

/// Why an ELF file isn't loaded: the first of these that holds, in this order.
#[derive(Clone, Copy, Debug, PartialEq, Eq, Error)]
pub enum ElfFault {
    /// The file has fewer than 64 bytes.
    #[error("the file ends within its header: give a whole ELF file")]
    Short,
    /// The first four bytes aren't 0x7f and `ELF`.
    #[error("the file isn't an ELF file: give the executable that the linker made")]
    NotElf,
    /// The class isn't 64 bits, the numbers aren't little-endian, a version isn't 1, or it isn't an executable for RISC-V.
    #[error("the file isn't a 64-bit executable for RISC-V: link it for riscv64 at fixed addresses, neither shared nor position-independent")]
    Kind,
    /// A program header hasn't 56 bytes, there are none or more than 64, or their table passes the file's end.
    #[error("the file hasn't 1 to 64 whole program headers of 56 bytes: link it with fewer segments, and give the whole file")]
    Headers,
    /// Of a segment to be loaded: its bytes pass the file's end, it has fewer bytes in memory than in the file, or it passes the last address.
    #[error("a segment passes the end of the file or of the addresses, or is cut in memory: link it again, and give the whole file")]
    Segment,
    /// The segments have more than 16,384 elements.
    #[error("the segments take more than 16384 stores: link a smaller program, or leave memory of zeros out of its segments")]
    TooLarge,
}

impl ElfFault {
    /// Its number among the faults of a file: 11 to 16.
    pub fn number(self) -> u8
        ensures { result ≡ fault_number self }
    {
        match self {
            ElfFault::Short => 11,
            ElfFault::NotElf => 12,
            ElfFault::Kind => 13,
            ElfFault::Headers => 14,
            ElfFault::Segment => 15,
            ElfFault::TooLarge => 16,
        }
    }
}
