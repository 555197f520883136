//! The way on which a command reaches memory.

ghost use Rattle.std.specs.Prelude.{◌≡◌, [], true, map, replicate, IfOk, IfErr, OnOk};
ghost use Rattle.debug_model.specs.Command.{IsBlock};
ghost use Rattle.rv_model.specs.Memory.{is_aligned};
ghost use Rattle.rv_model.specs.Size.{count_of};
ghost use Rattle.probe_access.specs.BusRuns.{cut_to};
ghost use Rattle.probe_session.specs.Answers.{BlockLoadedAs, BlockStoredAs};
ghost use Rattle.probe_session.specs.BlockCalls.{BlockLoadFell, BlockStoreFell};
ghost use Rattle.probe_session.specs.Commands.{state_of};
ghost use Rattle.probe_session.specs.Goes.{Falls};
ghost use Rattle.probe_session.specs.Known.{Knows, known_by};
ghost use Rattle.probe_session.specs.Links.{Attached, Goes, SelectionStays};
ghost use Rattle.probe_session.specs.Reach.{ReachedAs, AttachedBy, AttachedReached, before_reach, hart_by, path_by, way_by};
ghost use Rattle.probe_run.specs.Told.{told, Fails, OnChip};
ghost use Rattle.debug_model.specs.Rises.{Within};
ghost use Rattle.probe_session.specs.Never.{NeverGivesUp};
ghost use Rattle.probe_access.specs.BlockRises.{load_rises, store_rises};

use crate::fault::Failure;
use crate::memory::{Elements, bus_load, bus_store, load, store};
use crate::met::{Met, meet};
use crate::session::Session;
use debug_model::{Dmi, Path};
use printed_lines::Line;
use probe_run::Halted;
use rv_model::Size;

/// How a command reaches memory.
#[derive(Drop)]
pub enum Reach {
    /// By this hart, which is halted.
    Hart(Halted),
    /// By the system bus.
    Bus,
}

/// What a command for memory comes to in front of its accesses.
#[derive(Drop)]
pub enum Reached {
    /// They can be made.
    By(Reach),
    /// There is no halted hart to make them: this line says so.
    Says(Line),
}

impl Session {
    /// The way to memory that was chosen, with a Look of the hart where that needs one.
    pub fn reach<D: Dmi>(&self, link: &mut D) -> Result<Reached, Failure>
        requires serving { Attached (D.seen link.old) }
        requires knows { Knows self.now.known self.now.hart (D.seen link.old).far }
        ensures reached { IfOk result
            (ReachedAs (state_of self.now) (told (D.seen link.old)) (told (D.seen link.new))) }
        ensures falls { IfErr result (Fails (Falls (before_reach (state_of self.now)) []) (D.seen link.old) (D.seen link.new)) }
        ensures knows { OnOk result (Knows (known_by self.now.path self.now.known) self.now.hart (D.seen link.new).far) }
        ensures rises { Within 2 (D.seen link.old) (D.seen link.new) }
        ensures never { IfErr result (NeverGivesUp (D.seen link.old)) }
        ensures keeps { Goes AttachedReached (D.seen link.old) (D.seen link.new) result }
    {
        match self.path {
            Path::Bus => Ok(Reached::By(Reach::Bus)),
            Path::Progbuf => match meet(link, &self.target, self.hart, self.known)? {
                Met::Says(line) => Ok(Reached::Says(line)),
                Met::At(halted) => Ok(Reached::By(Reach::Hart(halted))),
            },
        }
    }
}

/// Loads a block. It answers whether memory held it whole: where not, `into` holds the elements in front of the one that was refused.
pub fn load_by<D: Dmi>(
    link: &mut D,
    reach: &Reach,
    size: Size,
    address: u64,
    count: u16,
    into: &mut Elements,
) -> Result<bool, Failure>
    requires serving { AttachedBy reach.now (D.seen link.old) }
    requires aligned { is_aligned address size ≡ true }
    requires block { IsBlock (count_of size) address count }
    requires empty { into.old.items ≡ [] }
    ensures loaded { IfOk result (BlockLoadedAs (path_by reach.now) (way_by reach.now) (hart_by reach.now) size address count
        (map (cut_to size) into.new.items) (told (D.seen link.old)) (told (D.seen link.new))) }
    ensures fell { IfErr result (Fails (BlockLoadFell (path_by reach.now) (way_by reach.now) (hart_by reach.now) size address count)
        (D.seen link.old) (D.seen link.new)) }
    ensures selection { OnOk result (OnChip SelectionStays (D.seen link.old) (D.seen link.new)) }
    ensures rises { Within (load_rises count) (D.seen link.old) (D.seen link.new) }
    ensures never { IfErr result (NeverGivesUp (D.seen link.old)) }
    ensures keeps { Goes (λ _. AttachedBy reach.now) (D.seen link.old) (D.seen link.new) result }
{
    match reach {
        Reach::Hart(halted) => load(link, halted, size, address, count, into),
        Reach::Bus => bus_load(link, size, address, count, into),
    }
}

/// Stores a value to each element of a block. It answers the address of the first element that memory refused: none where it took them all.
pub fn store_by<D: Dmi>(
    link: &mut D,
    reach: &Reach,
    size: Size,
    address: u64,
    count: u16,
    value: u64,
) -> Result<Option<u64>, Failure>
    requires serving { AttachedBy reach.now (D.seen link.old) }
    requires aligned { is_aligned address size ≡ true }
    requires block { IsBlock (count_of size) address count }
    ensures stored { IfOk result (BlockStoredAs (path_by reach.now) (way_by reach.now) (hart_by reach.now) size address (replicate count value)
        (told (D.seen link.old)) (told (D.seen link.new))) }
    ensures fell { IfErr result (Fails (BlockStoreFell (path_by reach.now) (way_by reach.now) (hart_by reach.now) size address (replicate count value))
        (D.seen link.old) (D.seen link.new)) }
    ensures selection { OnOk result (OnChip SelectionStays (D.seen link.old) (D.seen link.new)) }
    ensures rises { Within (store_rises count) (D.seen link.old) (D.seen link.new) }
    ensures never { IfErr result (NeverGivesUp (D.seen link.old)) }
    ensures keeps { Goes (λ _. AttachedBy reach.now) (D.seen link.old) (D.seen link.new) result }
{
    match reach {
        Reach::Hart(halted) => store(link, halted, size, address, count, value),
        Reach::Bus => bus_store(link, size, address, count, value),
    }
}
