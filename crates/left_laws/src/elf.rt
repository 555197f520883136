//! What loading an ELF file leaves of a told chip, by the call's own clauses. `specs/ElfLaws.antt` has the statement.

ghost use Rattle.left_laws.specs.ElfLaws.{LoadElfLeaves};

/// To load an ELF file loses nothing, and memory has the elements that were stored.
pub fn load_elf_leaves()
    ensures { LoadElfLeaves }
{}
