//! A law of what is read of a file; `specs/Laws.antt` has the statement.

ghost use Rattle.elf_load.specs.Laws.{ElementsLaySegments};

/// The elements of a file, stored in order over any memory, leave its segments laid in order over what was there: at each address what a write keeps of the
/// byte of the last segment that covers it, of the file or a zero behind the file's bytes, and else what stood there.
pub fn elements_lay_their_segments()
    ensures { ElementsLaySegments }
{}
