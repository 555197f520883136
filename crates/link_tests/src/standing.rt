//! Where a halted hart of a loaded chip stands, what its slots show, and how it is brought to stop.

ghost use Rattle.std.specs.Prelude.{◌<◌, ◌≤◌, ◌^◌, IfOk, IfSome, IsSome, OnOk};
ghost use Rattle.debug_model.specs.Kept.{CanCall};
ghost use Rattle.debug_model.specs.Loaded.{AsLoaded};
ghost use Rattle.debug_model.specs.Told.{IsReady};
ghost use Rattle.probe_run.specs.Told.{Serving};

use crate::fault::Fault;
use chip_core::Bench;
use debug_model::{Dmi, SlotUse};
use hart_debug::Start;
use probe_access::stop;
use probe_run::{Halted, Seen, Target};
use probe_trig::{Gone, SlotView, let_go, slots};
use rv_model::SlotSet;
use std::alloc::Global;
use std::test::Fail;
use sys_events::SeedSchedule;

/// The bytes of the smallest RAM.
const RAM_LEAST: u64 = 65_536;

/// x5 = 5; then x5 = x5 + 1 again and again.
pub const PROGRAM: &[u8] = &[
    0x93, 0x02, 0x50, 0x00, 0x93, 0x82, 0x12, 0x00, 0x6f, 0xf0, 0xdf, 0xff,
];

/// Where a hart stands, and what its slots show.
#[derive(Clone, Copy, Debug, PartialEq, Eq)]
pub struct At {
    pub pc: u64,
    pub cause: u8,
    pub view: SlotView,
}

pub fn standing(pc: u64, cause: u8, used: [SlotUse; 4], hits: u8) -> At {
    At {
        pc,
        cause,
        view: SlotView {
            used,
            hits: SlotSet(hits),
        },
    }
}

/// Where the halted hart stands, and what its slots show.
pub fn see<D: Dmi>(link: &mut D, halted: &Halted) -> Result<At, Fault>
    requires callable { CanCall (D.seen link.old) }
    requires serving { Serving halted.now.number (D.seen link.old).far }
    ensures callable { OnOk result (CanCall (D.seen link.new)) }
    ensures serving { OnOk result (Serving halted.now.number (D.seen link.new).far) }
{
    let stopped = stop(link, halted)?;
    let view = slots(link, halted)?;
    Ok(At {
        pc: stopped.pc,
        cause: stopped.cause,
        view,
    })
}

/// Looks at a hart that must be halted.
pub fn halted_hart<D: Dmi>(link: &mut D, target: &Target, hart: u16) -> Result<Halted, Fault>
    requires hart { hart < 2 ^ 10 }
    requires callable { CanCall (D.seen link.old) }
    requires ready { IsReady (D.seen link.old).far }
    ensures callable { OnOk result (CanCall (D.seen link.new)) }
    ensures serving { IfOk result (λ halted. Serving halted.number (D.seen link.new).far) }
{
    match target.look(link, hart)? {
        Seen::Halted(halted) => Ok(halted),
        Seen::Running(_) | Seen::Absent => Err(Fault::SeenOtherwise),
    }
}

/// Lets the hart go, which must stop again by itself before it is looked at.
pub fn go<D: Dmi>(link: &mut D, target: &Target, halted: Halted) -> Result<Halted, Fault>
    requires callable { CanCall (D.seen link.old) }
    requires serving { Serving halted.number (D.seen link.old).far }
    ensures callable { OnOk result (CanCall (D.seen link.new)) }
    ensures serving { IfOk result (λ halted. Serving halted.number (D.seen link.new).far) }
{
    match let_go(link, halted)? {
        Gone::Free(running) => halted_hart(link, target, running.hart()),
        Gone::Stopped(_) => Err(Fault::SeenOtherwise),
    }
}

/// A chip with so many halted harts that holds this image.
pub fn loaded(alloc: Global, image: &[u8], harts: u8, busy: u8) -> Result<Bench<SeedSchedule>, Fail>
    requires harts { (1 ≤ harts) × (harts ≤ 4) }
    requires busy { (1 ≤ busy) × (busy ≤ 32) }
    ensures loaded { IfOk result IsSome }
    ensures fresh { IfOk result (λ bench. IfSome bench AsLoaded) }
{
    let mut bench = Bench::blank();
    bench.load(
        alloc,
        image,
        u64::from(harts),
        RAM_LEAST,
        Start::Halted,
        SeedSchedule::new(7, busy, harts),
    )?;
    Ok(bench)
}
