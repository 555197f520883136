//! Loading a program over the link of a session.

ghost use Rattle.std.specs.Prelude.{◌≡◌, ◌≤◌, [], IfErr, IfOk};
ghost use Rattle.abstract_debugger.specs.Laws.{Quiet};
ghost use Rattle.debug_model.specs.Rises.{Within};
ghost use Rattle.elf_load.specs.Elf.{ReadsAs};
ghost use Rattle.elf_load.specs.Runs.{load_rises};
ghost use Rattle.elf_session.specs.Budget.{loading_rises};
ghost use Rattle.elf_session.specs.Loaded.{AttachedIf, AttachedLoaded, StoredAs, at_elements, at_entry, at_loaded, before_entry, before_loading, behind_loading};
ghost use Rattle.elf_session.specs.Loading.{loading_hart, loading_of};
ghost use Rattle.probe_run.specs.Told.{told, Fails};
ghost use Rattle.probe_session.specs.Goes.{Falls, Fell, Spoke, Went};
ghost use Rattle.probe_session.specs.Known.{Knows};
ghost use Rattle.probe_session.specs.Links.{Attached, AttachedHalted, Goes};
ghost use Rattle.probe_session.specs.Never.{NeverGivesUp};

use debug_model::Dmi;
use elf_load::{Elf, load_elf};
use jt_base::Sink;
use printed_lines::Line;
use probe_access::AccessFault;
use probe_run::{Halted, Target};
use probe_session::{Failure, Known, Met, meet, put_line, set_reg_if_taken};
use rv_model::register_number;

/// The hart that is to run the program.
const LOADING_HART: u16 = 0;

/// What became of storing a program.
#[derive(Clone, Copy, Debug, PartialEq, Eq)]
pub(crate) enum Stored {
    /// All of it was stored, with so many bytes in memory.
    All(u32),
    /// The elements in front of the one at this address, which memory refused.
    UpTo(u64),
}

/// Stores the program of a file that was read.
fn store<D: Dmi>(link: &mut D, elf: &Elf, file: &[u8]) -> Result<Stored, Failure>
    requires serving { Attached (D.seen link.old) }
    requires read { ReadsAs file.now elf.now }
    ensures stored { IfOk result (StoredAs (loading_of file.now) (told (D.seen link.old)) (told (D.seen link.new))) }
    ensures falls { IfErr result (Fails (Falls (at_elements (loading_of file.now).elements) []) (D.seen link.old) (D.seen link.new)) }
    ensures rises { Within (load_rises file.now) (D.seen link.old) (D.seen link.new) }
    ensures never { IfErr result (NeverGivesUp (D.seen link.old)) }
    ensures keeps { Goes (λ _. Attached) (D.seen link.old) (D.seen link.new) result }
{
    match load_elf(link, elf, file) {
        Ok(size) => Ok(Stored::All(size as u32)),
        Err(fault) => match fault {
            AccessFault::Memory(at) => Ok(Stored::UpTo(at)),
            other => Err(Failure::from(other)),
        },
    }
}

/// Lets the halted hart begin at the program's entry, and the line that says how many bytes were loaded. A written pc forgets the slots' hits.
fn entered_line<D: Dmi>(
    link: &mut D,
    halted: &Halted,
    entry: u64,
    size: u32,
) -> Result<Line, Failure>
    requires serving { AttachedHalted halted.now.number (D.seen link.old) }
    ensures went { IfOk result
        (λ line. Went (at_entry halted.now.number entry size) (at_loaded line) [] (told (D.seen link.old)) (told (D.seen link.new))) }
    ensures falls { IfErr result (Fails (Falls (at_entry halted.now.number entry size) []) (D.seen link.old) (D.seen link.new)) }
    ensures rises { Within 160 (D.seen link.old) (D.seen link.new) }
    ensures never { IfErr result (NeverGivesUp (D.seen link.old)) }
    ensures keeps { Goes (λ _. AttachedHalted halted.now.number) (D.seen link.old) (D.seen link.new) result }
{
    if !set_reg_if_taken(link, halted, register_number::DPC, entry)? {
        return Ok(Line::RegisterRefused(register_number::DPC));
    }
    probe_trig::forget_hits(link, halted)?;
    Ok(Line::Loaded(size))
}

/// A Look of the hart that is to run the program, which begins at its entry where it is halted; and the line that says so, or why not.
fn entry_line<D: Dmi>(link: &mut D, target: &Target, entry: u64, size: u32) -> Result<Line, Failure>
    requires serving { Attached (D.seen link.old) }
    ensures went { IfOk result
        (λ line. Went (before_entry entry size) (at_loaded line) [] (told (D.seen link.old)) (told (D.seen link.new))) }
    ensures falls { IfErr result (Fails (Falls (before_entry entry size) []) (D.seen link.old) (D.seen link.new)) }
    ensures rises { Within 162 (D.seen link.old) (D.seen link.new) }
    ensures never { IfErr result (NeverGivesUp (D.seen link.old)) }
    ensures keeps { Goes AttachedLoaded (D.seen link.old) (D.seen link.new) result }
{
    match meet(link, target, LOADING_HART, Known::Nothing)? {
        Met::Says(line) => Ok(line),
        Met::At(halted) => entered_line(link, &halted, entry, size),
    }
}

/// Loads the program of a file that was read, unless its hart is not halted, and the line that says what became of it. This is known of the hart.
fn loaded_line<D: Dmi>(
    link: &mut D,
    target: &Target,
    known: Known,
    elf: &Elf,
    file: &[u8],
) -> Result<Line, Failure>
    requires serving { Attached (D.seen link.old) }
    requires knows { Knows known loading_hart (D.seen link.old).far }
    requires read { ReadsAs file.now elf.now }
    ensures went { IfOk result (λ line. Went (before_loading (loading_of file.now)) (at_loaded line) [] (told (D.seen link.old))
        (told (D.seen link.new))) }
    ensures falls { IfErr result (Fails (Falls (before_loading (loading_of file.now)) []) (D.seen link.old) (D.seen link.new)) }
    ensures rises { Within (loading_rises file.now) (D.seen link.old) (D.seen link.new) }
    ensures never { IfErr result (NeverGivesUp (D.seen link.old)) }
    ensures keeps { Goes AttachedLoaded (D.seen link.old) (D.seen link.new) result }
{
    match meet(link, target, LOADING_HART, known)? {
        Met::Says(line) => Ok(line),
        Met::At(_) => match store(link, elf, file)? {
            Stored::UpTo(at) => Ok(Line::MemoryFault(at)),
            Stored::All(size) => entry_line(link, target, elf.entry, size),
        },
    }
}

/// Loads the program of a file that was read, unless its hart is not halted, and puts the line that says what became of it. It answers whether that is the line
/// of an error, behind which no script runs. This is known of the hart.
pub(crate) fn load<D: Dmi, K: Sink>(
    link: &mut D,
    target: &Target,
    known: Known,
    elf: &Elf,
    file: &[u8],
    out: &mut K,
) -> Result<bool, Failure>
    requires serving { Attached (D.seen link.old) }
    requires knows { Knows known loading_hart (D.seen link.old).far }
    requires read { ReadsAs file.now elf.now }
    ensures spoke { IfOk result (λ wrong. Spoke (before_loading (loading_of file.now)) (behind_loading wrong) wrong (told (D.seen link.old))
        (told (D.seen link.new)) (K.contents out.old) (K.contents out.new)) }
    ensures fell { IfErr result (Fell Quiet (before_loading (loading_of file.now)) (D.seen link.old).fault_count (D.seen link.new).fault_count
        (told (D.seen link.old)) (told (D.seen link.new)) (K.fault_count out.old)
        (K.fault_count out.new) (K.contents out.old) (K.contents out.new)) }
    ensures rises { Within (loading_rises file.now) (D.seen link.old) (D.seen link.new) }
    ensures never { IfErr result (NeverGivesUp (D.seen link.old)) }
    ensures keeps { Goes AttachedIf (D.seen link.old) (D.seen link.new) result }
    ensures sink_later { K.fault_count out.old ≤ K.fault_count out.new }
{
    let line = loaded_line(link, target, known, elf, file)?;
    put_line(out, &line)?;
    Ok(line.is_error())
}
