ghost use Rattle.std.specs.Prelude.{◌≡◌, ◌||◌, IfOk, IfErr, OnOk};
ghost use Rattle.debug_model.specs.Rises.{Within};
ghost use Rattle.probe_access.specs.Never.{NeverLost};
ghost use Rattle.debug_model.specs.Kept.{CanCall, Keeps};
ghost use Rattle.probe_run.specs.Told.{told, Fails, Serving};
ghost use Rattle.probe_access.specs.Faults.{access_why};
ghost use Rattle.probe_trig.specs.Runs.{ChangesAny, slot_changed};
ghost use Rattle.probe_trig.specs.Single.{ChangedAll, SlotChanged};
ghost use Rattle.probe_trig.specs.SlotRegisters.{shows_hit};
ghost use Rattle.probe_trig.specs.Transfers.{FailedIn, Made};

use crate::change::Change;
use crate::register::{TriggerRegister, read_word, reg, set_reg};
use crate::words::shows_hit;
use debug_model::Dmi;
use probe_access::AccessFault;
use probe_run::Halted;

/// Selects a slot, and changes it where it has a hit. It answers what its `tdata1` read.
fn change_slot<D: Dmi>(
    link: &mut D,
    halted: &Halted,
    slot: u8,
    change: Change,
) -> Result<u64, AccessFault>
    requires callable { CanCall (D.seen link.old) }
    requires serving { Serving halted.now.number (D.seen link.old).far }
    ensures made { IfOk result (λ tdata1. Made halted.now.number (told (D.seen link.old)) (slot_changed change slot tdata1) (told (D.seen link.new))) }
    ensures failed { IfErr result (Fails (FailedIn (SlotChanged change slot) halted.now.number) (D.seen link.old) (D.seen link.new)) }
    ensures serving { OnOk result (Serving halted.now.number (D.seen link.new).far) }
    ensures rises { Within 32 (D.seen link.old) (D.seen link.new) }
    ensures never { IfErr result (NeverLost (D.seen link.old)) }
    ensures keeps { Keeps access_why (D.seen link.old) (D.seen link.new) result }
{
    let tdata1 = read_word(link, halted, slot)?;
    if !shows_hit(tdata1) {
        return Ok(tdata1);
    }
    set_reg(
        link,
        halted,
        TriggerRegister::Tdata1,
        change.of_word(tdata1),
    )?;
    Ok(tdata1)
}

/// Whether one of four words shows a hit.
fn some_hit(a: u64, b: u64, c: u64, d: u64) -> bool
    ensures { result ≡ (shows_hit a || (shows_hit b || (shows_hit c || shows_hit d))) }
{
    shows_hit(a) || shows_hit(b) || shows_hit(c) || shows_hit(d)
}

/// Changes the slots that have a hit, and answers whether there is one.
pub fn change_hits<D: Dmi>(
    link: &mut D,
    halted: &Halted,
    change: Change,
) -> Result<bool, AccessFault>
    requires callable { CanCall (D.seen link.old) }
    requires serving { Serving halted.now.number (D.seen link.old).far }
    ensures did { IfOk result (λ some. ChangedAll change some halted.now.number (told (D.seen link.old)) (told (D.seen link.new))) }
    ensures failed { IfErr result (Fails (FailedIn (ChangesAny change) halted.now.number) (D.seen link.old) (D.seen link.new)) }
    ensures serving { OnOk result (Serving halted.now.number (D.seen link.new).far) }
    ensures rises { Within 152 (D.seen link.old) (D.seen link.new) }
    ensures never { IfErr result (NeverLost (D.seen link.old)) }
    ensures keeps { Keeps access_why (D.seen link.old) (D.seen link.new) result }
{
    let kept = reg(link, halted, TriggerRegister::Tselect)?;
    let a = change_slot(link, halted, 0, change)?;
    let b = change_slot(link, halted, 1, change)?;
    let c = change_slot(link, halted, 2, change)?;
    let d = change_slot(link, halted, 3, change)?;
    set_reg(link, halted, TriggerRegister::Tselect, kept)?;
    Ok(some_hit(a, b, c, d))
}
