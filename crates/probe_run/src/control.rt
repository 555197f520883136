ghost use Rattle.std.specs.Prelude.{◌≡◌, ◌≤◌, ◌++◌, ◌∷◌, [], ◌<◌, ◌^◌, true, false, IfOk, IfErr, OnOk, Some};
ghost use Rattle.debug_model.specs.Addresses.{dmcontrol_address};
ghost use Rattle.debug_model.specs.declared.dmi_op.DmiOp.TheVariants.{Write};
ghost use Rattle.probe_run.specs.Acts.{Attempt, Broke, Did, Put};
ghost use Rattle.probe_run.specs.Looks.{look_act};
ghost use Rattle.probe_run.specs.Outcomes.{FirstBroke, asks};
ghost use Rattle.probe_run.specs.Requests.{control_word};
ghost use Rattle.debug_model.specs.Kept.{CanCall, Keeps};
ghost use Rattle.debug_model.specs.Rises.{FailsByWire, Within};
ghost use Rattle.probe_run.specs.Told.{Breaks, told};

use arrayvec::ArrayVec;
use debug_model::{Dmcontrol, Dmi, DmiFault, DmiOp, Dmstatus};

/// What a write of `dmcontrol` asks of the hart that it selects.
#[derive(Clone, Copy, PartialEq, Eq)]
pub enum Request {
    /// Nothing: an earlier halt request is cleared.
    Nothing,
    /// To halt (`haltreq`).
    Halt,
    /// To resume (`resumereq`).
    Resume,
}

/// The word of `dmcontrol` that selects a hart and asks this of it.
pub fn word_for(hart: u16, request: Request) -> u32
    ensures { result ≡ control_word request hart }
{
    let control = Dmcontrol {
        haltreq: request == Request::Halt,
        resumereq: request == Request::Resume,
        ackhavereset: false,
        hartsello: hart,
        dmactive: true,
    };
    control.word()
}

/// Selects a hart and asks this of it: one write of `dmcontrol`.
pub fn control<D: Dmi>(link: &mut D, hart: u16, request: Request) -> Result<(), DmiFault>
    requires callable { CanCall (D.seen link.old) }
    ensures did { OnOk result (Did (told (D.seen link.old)) (Put dmcontrol_address (control_word request hart) ∷ []) (told (D.seen link.new))) }
    ensures broke { IfErr result (Breaks (Broke [] (Attempt.Operation (Write dmcontrol_address (control_word request hart)))) (D.seen link.old)
        (D.seen link.new)) }
    ensures rises { Within 1 (D.seen link.old) (D.seen link.new) }
    ensures never { IfErr result (FailsByWire (D.seen link.old)) }
    ensures keeps { Keeps Some (D.seen link.old) (D.seen link.new) result }
{
    link.write(Dmcontrol::ADDRESS, word_for(hart, request))?;
    Ok(())
}

/// Selects a hart, asks this of it, and makes the first Look of it, in one call: the word of `dmstatus`.
pub fn control_and_look<D: Dmi>(link: &mut D, hart: u16, request: Request) -> Result<u32, DmiFault>
    requires callable { CanCall (D.seen link.old) }
    ensures did { IfOk result (λ word. Did (told (D.seen link.old)) (asks request hart ++ look_act word ∷ []) (told (D.seen link.new))) }
    ensures broke { IfErr result (Breaks (FirstBroke request hart) (D.seen link.old) (D.seen link.new)) }
    ensures rises { Within 2 (D.seen link.old) (D.seen link.new) }
    ensures never { IfErr result (FailsByWire (D.seen link.old)) }
    ensures keeps { Keeps Some (D.seen link.old) (D.seen link.new) result }
{
    let mut words = ArrayVec::new();
    let operations = [
        DmiOp::Write(Dmcontrol::ADDRESS, word_for(hart, request)),
        DmiOp::Read(Dmstatus::ADDRESS),
    ];
    link.many(&operations, &mut words)?;
    Ok(words[1])
}
