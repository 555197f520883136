//! Blocks of memory: by a halted hart, or by the system bus.

ghost use Rattle.std.specs.Prelude.{◌≡◌, [], true, map, replicate, IfOk, IfErr};
ghost use Rattle.debug_model.specs.Command.{IsBlock};
ghost use Rattle.debug_model.specs.declared.command.Path.TheVariants.{Progbuf, Bus};
ghost use Rattle.abstract_debugger.specs.Ways.Way.{Idle, Still};
ghost use Rattle.rv_model.specs.Memory.{is_aligned};
ghost use Rattle.rv_model.specs.Size.{count_of};
ghost use Rattle.probe_access.specs.BusRuns.{cut_to};
ghost use Rattle.probe_session.specs.BlockCalls.{BlockLoadFell, BlockStoreFell};
ghost use Rattle.probe_session.specs.Links.{Attached, AttachedHalted, Goes};
ghost use Rattle.probe_session.specs.Answers.{BlockLoadedAs, BlockStoredAs};
ghost use Rattle.probe_run.specs.Told.{told, Fails};
ghost use Rattle.debug_model.specs.Rises.{Within};
ghost use Rattle.probe_session.specs.Never.{NeverGivesUp};
ghost use Rattle.probe_access.specs.BlockRises.{bus_load_rises, bus_store_rises, load_rises, store_rises};

use crate::fault::Failure;
use arrayvec::ArrayVec;
use debug_model::Dmi;
use probe_access::{AccessFault, ELEMENTS_MOST};
use probe_run::Halted;
use rv_model::Size;

/// The elements of a block that were loaded, as they were handed out: a register may hold more above the size.
pub type Elements = ArrayVec<u64, ELEMENTS_MOST>;

/// Loads a block by the halted hart. It answers whether memory held it whole: where not, `into` holds the elements in front of the one that was refused.
pub(crate) fn load<D: Dmi>(
    link: &mut D,
    halted: &Halted,
    size: Size,
    address: u64,
    count: u16,
    into: &mut Elements,
) -> Result<bool, Failure>
    requires serving { AttachedHalted halted.now.number (D.seen link.old) }
    requires aligned { is_aligned address size ≡ true }
    requires block { IsBlock (count_of size) address count }
    requires empty { into.old.items ≡ [] }
    ensures loaded { IfOk result (BlockLoadedAs Progbuf Still halted.now.number size address count (map (cut_to size) into.new.items) (told (D.seen link.old))
        (told (D.seen link.new))) }
    ensures fell { IfErr result (Fails (BlockLoadFell Progbuf Still halted.now.number size address count) (D.seen link.old) (D.seen link.new)) }
    ensures rises { Within (load_rises count) (D.seen link.old) (D.seen link.new) }
    ensures never { IfErr result (NeverGivesUp (D.seen link.old)) }
    ensures keeps { Goes (λ _. AttachedHalted halted.now.number) (D.seen link.old) (D.seen link.new) result }
{
    match probe_access::load_block(link, halted, size, address, count, into) {
        Ok(()) => Ok(true),
        Err(fault) => match fault {
            AccessFault::Memory(_) => Ok(false),
            other => Err(Failure::from(other)),
        },
    }
}

/// Stores a value to each element of a block by the halted hart. It answers the address of the first element that memory refused: none where it took them all.
pub(crate) fn store<D: Dmi>(
    link: &mut D,
    halted: &Halted,
    size: Size,
    address: u64,
    count: u16,
    value: u64,
) -> Result<Option<u64>, Failure>
    requires serving { AttachedHalted halted.now.number (D.seen link.old) }
    requires aligned { is_aligned address size ≡ true }
    requires block { IsBlock (count_of size) address count }
    ensures stored { IfOk result (BlockStoredAs Progbuf Still halted.now.number size address (replicate count value) (told (D.seen link.old))
        (told (D.seen link.new))) }
    ensures fell { IfErr result (Fails (BlockStoreFell Progbuf Still halted.now.number size address (replicate count value))
        (D.seen link.old) (D.seen link.new)) }
    ensures rises { Within (store_rises count) (D.seen link.old) (D.seen link.new) }
    ensures never { IfErr result (NeverGivesUp (D.seen link.old)) }
    ensures keeps { Goes (λ _. AttachedHalted halted.now.number) (D.seen link.old) (D.seen link.new) result }
{
    match probe_access::store_block(link, halted, size, address, count, value) {
        Ok(()) => Ok(None),
        Err(fault) => match fault {
            AccessFault::Memory(at) => Ok(Some(at)),
            other => Err(Failure::from(other)),
        },
    }
}

/// Loads a block by the system bus. It answers whether memory held it whole: where not, `into` holds the elements in front of the one that was refused.
pub(crate) fn bus_load<D: Dmi>(
    link: &mut D,
    size: Size,
    address: u64,
    count: u16,
    into: &mut Elements,
) -> Result<bool, Failure>
    requires serving { Attached (D.seen link.old) }
    requires aligned { is_aligned address size ≡ true }
    requires block { IsBlock (count_of size) address count }
    requires empty { into.old.items ≡ [] }
    ensures loaded { IfOk result (BlockLoadedAs Bus Idle 0 size address count (map (cut_to size) into.new.items) (told (D.seen link.old))
        (told (D.seen link.new))) }
    ensures fell { IfErr result (Fails (BlockLoadFell Bus Idle 0 size address count) (D.seen link.old) (D.seen link.new)) }
    ensures rises { Within (bus_load_rises count) (D.seen link.old) (D.seen link.new) }
    ensures never { IfErr result (NeverGivesUp (D.seen link.old)) }
    ensures keeps { Goes (λ _. Attached) (D.seen link.old) (D.seen link.new) result }
{
    match probe_access::bus_load_block(link, size, address, count, into) {
        Ok(()) => Ok(true),
        Err(fault) => match fault {
            AccessFault::Memory(_) => Ok(false),
            other => Err(Failure::from(other)),
        },
    }
}

/// Stores a value to each element of a block by the system bus. It answers the address of the first element that memory refused: none where it took them all.
pub(crate) fn bus_store<D: Dmi>(
    link: &mut D,
    size: Size,
    address: u64,
    count: u16,
    value: u64,
) -> Result<Option<u64>, Failure>
    requires serving { Attached (D.seen link.old) }
    requires aligned { is_aligned address size ≡ true }
    requires block { IsBlock (count_of size) address count }
    ensures stored { IfOk result (BlockStoredAs Bus Idle 0 size address (replicate count value) (told (D.seen link.old)) (told (D.seen link.new))) }
    ensures fell { IfErr result (Fails (BlockStoreFell Bus Idle 0 size address (replicate count value)) (D.seen link.old) (D.seen link.new)) }
    ensures rises { Within (bus_store_rises count) (D.seen link.old) (D.seen link.new) }
    ensures never { IfErr result (NeverGivesUp (D.seen link.old)) }
    ensures keeps { Goes (λ _. Attached) (D.seen link.old) (D.seen link.new) result }
{
    match probe_access::bus_store_block(link, size, address, count, value) {
        Ok(()) => Ok(None),
        Err(fault) => match fault {
            AccessFault::Memory(at) => Ok(Some(at)),
            other => Err(Failure::from(other)),
        },
    }
}
