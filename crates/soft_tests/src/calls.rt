//! The calls on one breakpoint over a chip on its bench: what memory holds behind each, as a read over the bus finds it.

ghost use Rattle.std.specs.Prelude.{◌≡◌, true, IfErr, IfOk, IfSome, IsSome, OnOk};
ghost use Rattle.debug_model.specs.Kept.{CanCall};
ghost use Rattle.debug_model.specs.Loaded.{AsLoaded};
ghost use Rattle.debug_model.specs.Told.{IsAsLoaded, IsReady};
ghost use Rattle.soft_laws.specs.SoftBreaks.{is_listed};

use crate::chips::{EBREAK, PIECE, PROGRAM, halted_chip};
use chip_core::{Bench, BenchWire};
use debug_model::{Dmi, Schedule};
use probe_access::{AccessFault, bus_load};
use probe_dmi::Link;
use probe_run::{ConnectFault, RunFault, Seen, Target, connect};
use probe_scan::Scanner;
use rv_model::Size;
use soft_break::{Prepared, SoftFault, SoftTable, prepare};
use std::test::Fail;

/// The jump of the program, and where it stands.
const PLACE: u64 = 0x8000_0008;

const JUMP: u64 = 0xffdf_f06f;

/// Why a call failed.
#[derive(Clone, Copy, Debug, PartialEq, Eq)]
enum Fault {
    /// The opening.
    Connect(ConnectFault),
    /// A Look.
    Run(RunFault),
    /// An access.
    Access(AccessFault),
    /// A breakpoint was not set, or not taken out.
    Soft(SoftFault),
    /// A Look did not see the hart halted.
    NotHalted,
}

impl From<ConnectFault> for Fault {
    fn from(fault: ConnectFault) -> Self {
        Fault::Connect(fault)
    }
}

impl From<RunFault> for Fault {
    fn from(fault: RunFault) -> Self {
        Fault::Run(fault)
    }
}

impl From<AccessFault> for Fault {
    fn from(fault: AccessFault) -> Self {
        Fault::Access(fault)
    }
}

impl From<SoftFault> for Fault {
    fn from(fault: SoftFault) -> Self {
        Fault::Soft(fault)
    }
}

/// What memory holds at the word behind each call, and what is shown of it.
#[derive(Clone, Copy, Debug, PartialEq, Eq)]
struct Words {
    set: u64,
    shown: u64,
    lifted: u64,
    covered: u64,
    cleared: u64,
}

/// The word while the breakpoint is lifted, which is covered again behind that.
fn lift<D: Dmi>(link: &mut D, target: &Target, table: &SoftTable) -> Result<u64, Fault>
    requires callable { CanCall (D.seen link.old) }
    requires ready { IsReady (D.seen link.old).far }
    requires planted { is_listed table.now.addresses PLACE ≡ true }
    ensures callable { OnOk result (CanCall (D.seen link.new)) }
    ensures ready { OnOk result (IsReady (D.seen link.new).far) }
{
    let Seen::Halted(halted) = target.look(link, 0)? else {
        return Err(Fault::NotHalted);
    };
    let uncovered = table.uncover(link, &halted, PLACE)?;
    let word = match bus_load(link, Size::B4, PLACE) {
        Ok(word) => word,
        Err(fault) => return Err(Fault::Access(uncovered.abandon(fault))),
    };
    match target.look(link, 0) {
        Ok(Seen::Halted(again)) => {
            uncovered.cover(link, &again)?;
            Ok(word)
        }
        Ok(_) => Err(uncovered.abandon(Fault::NotHalted)),
        Err(fault) => Err(Fault::Run(uncovered.abandon(fault))),
    }
}

/// Sets a breakpoint, lifts it, covers it again, and takes it out.
fn set_and_clear<D: Dmi>(link: &mut D) -> Result<(Prepared, Words), Fault>
    requires callable { CanCall (D.seen link.old) }
    requires loaded { IsAsLoaded (D.seen link.old).far }
{
    let target = connect(link)?;
    let prepared = prepare(link, &target)?;
    let mut table = SoftTable::new();
    table.plant(link, PLACE)?;
    let set = bus_load(link, Size::B4, PLACE)?;
    let shown = table.hide(Size::B4, PLACE, set);
    let lifted = lift(link, &target, &table)?;
    let covered = bus_load(link, Size::B4, PLACE)?;
    table.unplant(link, PLACE)?;
    let cleared = bus_load(link, Size::B4, PLACE)?;
    let words = Words {
        set,
        shown,
        lifted,
        covered,
        cleared,
    };
    Ok((prepared, words))
}

/// The same over a chip on its bench.
fn over_bench<Q: Schedule>(bench: &mut Bench<Q>) -> Result<(Prepared, Words), Fault>
    requires loaded { IsSome bench.old }
    requires fresh { IfSome bench.old AsLoaded }
{
    let mut link = Link::new(Scanner::new(BenchWire::new(bench, PIECE)));
    set_and_clear(&mut link)
}

#[test]
fn the_word_is_taken_and_given_back(rt: HostRuntime) -> Result<(), Fail> {
    let wanted = Words {
        set: EBREAK,
        shown: JUMP,
        lifted: JUMP,
        covered: EBREAK,
        cleared: JUMP,
    };
    for busy in [1, 32] {
        let mut bench = halted_chip(rt.alloc(), PROGRAM, 2, busy)?;
        assert_eq!(rt; over_bench(&mut bench), Ok((Prepared::Ready, wanted)));
    }
    Ok(())
}
