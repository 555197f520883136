ghost use Rattle.std.specs.Prelude.{◌≡◌, ◌<◌, ◌∷◌, [], IfOk, IfErr, OnOk, map};
ghost use Rattle.debug_model.specs.Rises.{Within};
ghost use Rattle.probe_trig.specs.Never.{SlotNeverLost};
ghost use Rattle.probe_access.specs.Never.{NeverLost};
ghost use Rattle.debug_model.specs.Kept.{CanCall, Keeps};
ghost use Rattle.probe_run.specs.Told.{told, OnChip, Fails, Serving};
ghost use Rattle.probe_access.specs.Faults.{access_why};
ghost use Rattle.probe_access.specs.Cuts.{IfCut, LeftAside, Leaves};
ghost use Rattle.probe_access.specs.Scratches.{ScratchLeft};
ghost use Rattle.probe_trig.specs.Faults.{ByFault, IfAccess, trig_why};
ghost use Rattle.probe_trig.specs.Runs.{ReadsAny, slot_read};
ghost use Rattle.probe_trig.specs.Single.{ReadAll, SlotRead};
ghost use Rattle.probe_trig.specs.Slots.{AtHarts, DebugAlone, Shows, SlotsRead, ViewedAt, hit_of_words, use_of_words};
ghost use Rattle.abstract_debugger.specs.SlotUses.{hits_in, use_named};
ghost use Rattle.probe_trig.specs.Transfers.{FailedIn, Made};

use crate::fault::TrigFault;
use crate::register::{TriggerRegister, read_word, reg, set_reg};
use crate::slot_view::SlotView;
use crate::slot_words::SlotWords;
use crate::words::{shows_hit, use_shown};
use debug_model::{Dmi, SlotUse};
use probe_access::AccessFault;
use probe_run::Halted;
use rv_model::SlotSet;

/// Selects a slot, and reads its two registers.
fn read_slot<D: Dmi>(link: &mut D, halted: &Halted, slot: u8) -> Result<SlotWords, AccessFault>
    requires callable { CanCall (D.seen link.old) }
    requires serving { Serving halted.now.number (D.seen link.old).far }
    ensures made { IfOk result (λ words. Made halted.now.number (told (D.seen link.old)) (slot_read slot words) (told (D.seen link.new))) }
    ensures failed { IfErr result (Fails (FailedIn (SlotRead slot) halted.now.number) (D.seen link.old) (D.seen link.new)) }
    ensures serving { OnOk result (Serving halted.now.number (D.seen link.new).far) }
    ensures rises { Within 40 (D.seen link.old) (D.seen link.new) }
    ensures never { IfErr result (NeverLost (D.seen link.old)) }
    ensures keeps { Keeps access_why (D.seen link.old) (D.seen link.new) result }
{
    let tdata1 = read_word(link, halted, slot)?;
    let tdata2 = reg(link, halted, TriggerRegister::Tdata2)?;
    Ok(SlotWords { tdata1, tdata2 })
}

/// Reads the registers of all four slots.
fn read_slots<D: Dmi>(link: &mut D, halted: &Halted) -> Result<[SlotWords; 4], AccessFault>
    requires callable { CanCall (D.seen link.old) }
    requires serving { Serving halted.now.number (D.seen link.old).far }
    ensures did { IfOk result (λ words. ReadAll words halted.now.number (told (D.seen link.old)) (told (D.seen link.new))) }
    ensures failed { IfErr result (Fails (FailedIn ReadsAny halted.now.number) (D.seen link.old) (D.seen link.new)) }
    ensures serving { OnOk result (Serving halted.now.number (D.seen link.new).far) }
    ensures rises { Within 184 (D.seen link.old) (D.seen link.new) }
    ensures never { IfErr result (NeverLost (D.seen link.old)) }
    ensures keeps { Keeps access_why (D.seen link.old) (D.seen link.new) result }
{
    let kept = reg(link, halted, TriggerRegister::Tselect)?;
    let a = read_slot(link, halted, 0)?;
    let b = read_slot(link, halted, 1)?;
    let c = read_slot(link, halted, 2)?;
    let d = read_slot(link, halted, 3)?;
    set_reg(link, halted, TriggerRegister::Tselect, kept)?;
    Ok([a, b, c, d])
}

/// The set with slot 0, slot 1 and so on where the answer is true.
fn set_of(a: bool, b: bool, c: bool, d: bool) -> SlotSet
    ensures members { hits_in result ≡ a ∷ b ∷ c ∷ d ∷ [] }
    ensures small { result.0 < 16 }
{
    SlotSet(u8::from(a) + (u8::from(b) << 1) + (u8::from(c) << 2) + (u8::from(d) << 3))
}

/// What a slot is used for, by its registers.
fn use_of(words: SlotWords) -> SlotUse
    ensures { use_named result ≡ use_of_words words }
{
    use_shown(words.tdata1, words.tdata2)
}

/// What the registers of the four slots show.
fn view_of(words: &[SlotWords; 4]) -> SlotView
    ensures { Shows result (map use_of_words words.now) (map hit_of_words words.now) }
{
    let [a, b, c, d] = *words;
    SlotView {
        used: [use_of(a), use_of(b), use_of(c), use_of(d)],
        hits: set_of(
            shows_hit(a.tdata1),
            shows_hit(b.tdata1),
            shows_hit(c.tdata1),
            shows_hit(d.tdata1),
        ),
    }
}

/// The four slots of the halted hart, which is selected: what each is used for, and which have a hit, that is, stopped it where it stands
/// (RISC-V Debug Specification 1.0, "Sdtrig (ISA Extension)"). They stay as they are.
pub fn slots<D: Dmi>(link: &mut D, halted: &Halted) -> Result<SlotView, TrigFault>
    requires callable { CanCall (D.seen link.old) }
    requires serving { Serving halted.now.number (D.seen link.old).far }
    ensures viewed { IfOk result (λ view. OnChip (AtHarts (ViewedAt view halted.now.number)) (D.seen link.old) (D.seen link.new)) }
    ensures read { IfOk result (λ view. SlotsRead view halted.now.number (told (D.seen link.old)) (told (D.seen link.new))) }
    ensures left { IfErr result (ByFault (ScratchLeft (D.seen link.old).far) ⊥ ⊥) }
    ensures failed { IfErr result (ByFault (Fails (FailedIn ReadsAny halted.now.number) (D.seen link.old) (D.seen link.new)) ⊥ ⊥) }
    ensures cut { IfErr result (IfAccess (IfCut (Leaves (LeftAside DebugAlone halted.now.number) (D.seen link.old).far (D.seen link.new).far))) }
    ensures serving { OnOk result (Serving halted.now.number (D.seen link.new).far) }
    ensures rises { Within 184 (D.seen link.old) (D.seen link.new) }
    ensures never { IfErr result (SlotNeverLost (D.seen link.old)) }
    ensures keeps { Keeps trig_why (D.seen link.old) (D.seen link.new) result }
{
    let words = read_slots(link, halted)?;
    Ok(view_of(&words))
}
