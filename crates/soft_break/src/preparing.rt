//! Before the first software breakpoint: each hart has to halt at an ebreak.

ghost use Rattle.std.specs.Prelude.{◌≡◌, IfOk, IfErr, OnOk};
ghost use Rattle.debug_model.specs.Kept.{CanCall, Keeps};
ghost use Rattle.debug_model.specs.Rises.{Within};
ghost use Rattle.debug_model.specs.Told.{IsReady};
ghost use Rattle.probe_run.specs.Told.{Fails, Serving, told};
ghost use Rattle.probe_access.specs.Faults.{access_why};
ghost use Rattle.soft_break.specs.PrepareRises.{prepare_rises};
ghost use Rattle.soft_break.specs.Preparing.{EbreakFailed, EbreakSet, PrepareFailed, PreparedAs, ebreak_halting};

use debug_model::Dmi;
use probe_access::{AccessFault, reg, set_reg};
use probe_run::{Halted, Seen, Target};
use rv_model::{Dcsr, register_number};

/// As many harts are looked for at most: their numbers have ten bits (RISC-V Debug Specification 1.0, "Debug Module Control").
const HARTS_MOST: u16 = 1024;

/// Whether every hart halts at an ebreak.
#[derive(Clone, Copy, Debug, PartialEq, Eq)]
pub enum Prepared {
    /// Each does.
    Ready,
    /// This hart runs, so that its `dcsr` can not be written; those below it halt at an ebreak.
    Running(u16),
}

/// A word of `dcsr` with `ebreakm` set.
fn ebreak_halting(word: u64) -> u64
    ensures { result ≡ ebreak_halting word }
{
    let dcsr = Dcsr {
        ebreakm: true,
        ..Dcsr::from_word(word)
    };
    dcsr.word()
}

/// Sets `ebreakm` of a halted hart, which is selected, so that its ebreak halts it.
#[tactic(auto, using(debug_model::proofs::RiseLemmas::within_then, debug_model::proofs::RiseLemmas::within_more))]
fn set_ebreakm<D: Dmi>(link: &mut D, halted: &Halted) -> Result<(), AccessFault>
    requires callable { CanCall (D.seen link.old) }
    requires serving { Serving halted.now.number (D.seen link.old).far }
    ensures set { OnOk result (EbreakSet halted.now.number (told (D.seen link.old)) (told (D.seen link.new))) }
    ensures failed { IfErr result (Fails (EbreakFailed halted.now.number) (D.seen link.old) (D.seen link.new)) }
    ensures serving { OnOk result (Serving halted.now.number (D.seen link.new).far) }
    ensures rises { Within 24 (D.seen link.old) (D.seen link.new) }
    ensures keeps { Keeps access_why (D.seen link.old) (D.seen link.new) result }
{
    let word = reg(link, halted, register_number::DCSR)?;
    set_reg(link, halted, register_number::DCSR, ebreak_halting(word))?;
    Ok(())
}

/// Looks at harts 0, 1 and on up to the first absent one, at most 1,024, and sets `ebreakm` of each, so that an ebreak halts it. Where one of them runs it ends
/// there, with that hart's number; those below it stay set.
pub fn prepare<D: Dmi>(link: &mut D, target: &Target) -> Result<Prepared, AccessFault>
    requires callable { CanCall (D.seen link.old) }
    requires ready { IsReady (D.seen link.old).far }
    ensures prepared { IfOk result (PreparedAs (told (D.seen link.old)) (told (D.seen link.new))) }
    ensures failed { IfErr result (Fails PrepareFailed (D.seen link.old) (D.seen link.new)) }
    ensures ready { OnOk result (IsReady (D.seen link.new).far) }
    ensures rises { Within (prepare_rises (D.seen link.old).far) (D.seen link.old) (D.seen link.new) }
    ensures keeps { Keeps access_why (D.seen link.old) (D.seen link.new) result }
{
    'harts: for hart in 0..HARTS_MOST {
        match target.look(link, hart)? {
            Seen::Absent => return Ok(Prepared::Ready),
            Seen::Running(_) => return Ok(Prepared::Running(hart)),
            Seen::Halted(halted) => set_ebreakm(link, &halted)?,
        }
    }
    Ok(Prepared::Ready)
}
