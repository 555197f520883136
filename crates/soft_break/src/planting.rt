//! Setting a software breakpoint, and taking it out: by the system bus, so that no hart takes part.

ghost use Rattle.std.specs.Prelude.{◌≡◌, ◌<◌, ◌^◌, IfErr, IfOk, OnOk};
ghost use Rattle.rv_model.specs.declared.size.Size.TheVariants.{B4};
ghost use Rattle.debug_model.specs.Kept.{CanCall, Keeps};
ghost use Rattle.debug_model.specs.Rises.{Within};
ghost use Rattle.debug_model.specs.SoftCommand.{IsSoftAddress};
ghost use Rattle.debug_model.specs.Told.{IsReady};
ghost use Rattle.probe_run.specs.Told.{Fails, OnChip, told};
ghost use Rattle.probe_access.specs.Accesses.{AccessLeft, BusStoreRefused, BusStoredAt, IfMemory};
ghost use Rattle.probe_access.specs.BusRuns.{BusStoreFailed, BusStored};
ghost use Rattle.probe_access.specs.Cuts.{BusLeftOff, IfCut, Leaves, StoreLeaves};
ghost use Rattle.probe_access.specs.Faults.{access_why};
ghost use Rattle.soft_break.specs.Calls.{IfAccess, IfStill, PlantAnswers, PlantCut, PlantFailed, PlantRefused, PlantTable, Planted, PlantedAt, SoftKeeps};
ghost use Rattle.soft_break.specs.Calls.{UnplantAnswers, UnplantTable};
ghost use Rattle.soft_break.specs.Leading.{LiftLeads, PlantLeads, RefusalLeads};
ghost use Rattle.soft_break.specs.Patches.{original_of};

use crate::fault::SoftFault;
use crate::table::{EBREAK, SoftTable};
use debug_model::Dmi;
use probe_access::{AccessFault, bus_load, bus_store};
use rv_model::Size;

/// Reads the word at an address by one access, and stores an ebreak there by another. Answers what was read.
#[tactic(auto, using(crate::proofs::PlantSteps::aligned_word, debug_model::proofs::RiseLemmas::within_then, debug_model::proofs::RiseLemmas::within_more))]
fn take_place<D: Dmi>(link: &mut D, at: u64) -> Result<u32, AccessFault>
    requires callable { CanCall (D.seen link.old) }
    requires ready { IsReady (D.seen link.old).far }
    requires word { IsSoftAddress at }
    ensures planted_at { IfOk result (λ original. OnChip (PlantedAt at original) (D.seen link.old) (D.seen link.new)) }
    ensures ran { IfOk result (λ original. Planted at original (told (D.seen link.old)) (told (D.seen link.new))) }
    ensures left { IfErr result (AccessLeft (PlantRefused at) at (D.seen link.old).far (D.seen link.new).far) }
    ensures failed { IfErr result (Fails (PlantFailed at) (D.seen link.old) (D.seen link.new)) }
    ensures cut { IfErr result (IfCut (Leaves (PlantCut at) (D.seen link.old).far (D.seen link.new).far)) }
    ensures ready { OnOk result (IsReady (D.seen link.new).far) }
    ensures ready_again { IfErr result (IfMemory (IsReady (D.seen link.new).far)) }
    ensures rises { Within 14 (D.seen link.old) (D.seen link.new) }
    ensures keeps { Keeps access_why (D.seen link.old) (D.seen link.new) result }
{
    let original = bus_load(link, Size::B4, at)?;
    bus_store(link, Size::B4, at, u64::from(EBREAK))?;
    Ok(original as u32)
}

/// Stores the word that a breakpoint has taken the place of, by one access.
#[tactic(auto, using(crate::proofs::PlantSteps::aligned_word))]
fn give_back<D: Dmi>(link: &mut D, at: u64, original: u32) -> Result<(), AccessFault>
    requires callable { CanCall (D.seen link.old) }
    requires ready { IsReady (D.seen link.old).far }
    requires word { IsSoftAddress at }
    ensures stored { OnOk result (OnChip (BusStoredAt B4 at original) (D.seen link.old) (D.seen link.new)) }
    ensures ran { OnOk result (BusStored B4 at original (told (D.seen link.old)) (told (D.seen link.new))) }
    ensures left { IfErr result (AccessLeft (BusStoreRefused B4 at) at (D.seen link.old).far (D.seen link.new).far) }
    ensures failed { IfErr result (Fails (BusStoreFailed B4 at original) (D.seen link.old) (D.seen link.new)) }
    ensures cut { IfErr result (IfCut (Leaves (BusLeftOff (StoreLeaves B4 at original)) (D.seen link.old).far (D.seen link.new).far)) }
    ensures ready { OnOk result (IsReady (D.seen link.new).far) }
    ensures ready_again { IfErr result (IfMemory (IsReady (D.seen link.new).far)) }
    ensures rises { Within 7 (D.seen link.old) (D.seen link.new) }
    ensures keeps { Keeps access_why (D.seen link.old) (D.seen link.new) result }
{
    bus_store(link, Size::B4, at, u64::from(original))?;
    Ok(())
}

impl SoftTable {
    /// Sets a software breakpoint at a word, whose address is a multiple of 4 from 0x80000000: one access reads the word, and another stores an ebreak.
    /// `Set` where one is set there, and else `Full` where 32 are; then no access is made. Behind each fault the table is as it was; behind `Memory`, where the
    /// word lies outside memory, so is the chip.
    #[tactic(auto, using(crate::proofs::LeadLemmas::plant_leads, debug_model::proofs::RiseLemmas::within_none))]
    pub fn plant<D: Dmi>(&mut self, link: &mut D, at: u64) -> Result<(), SoftFault>
        requires callable { CanCall (D.seen link.old) }
        requires ready { IsReady (D.seen link.old).far }
        requires word { IsSoftAddress at }
        ensures answers { PlantAnswers at self.old result }
        ensures table { PlantTable at self.old self.new result }
        ensures planted_at { OnOk result (OnChip (PlantedAt at (original_of at self.new)) (D.seen link.old) (D.seen link.new)) }
        ensures leads { OnOk result (PlantLeads at (original_of at self.new) (D.seen link.old).far (D.seen link.new).far) }
        ensures leads_refused { IfErr result (IfAccess (IfMemory (RefusalLeads at (D.seen link.old).far (D.seen link.new).far))) }
        ensures fits { OnOk result (original_of at self.new < 2 ^ 32) }
        ensures ran { OnOk result (Planted at (original_of at self.new) (told (D.seen link.old)) (told (D.seen link.new))) }
        ensures left { IfErr result (IfAccess (AccessLeft (PlantRefused at) at (D.seen link.old).far (D.seen link.new).far)) }
        ensures failed { IfErr result (IfAccess (Fails (PlantFailed at) (D.seen link.old) (D.seen link.new))) }
        ensures cut { IfErr result (IfAccess (IfCut (Leaves (PlantCut at) (D.seen link.old).far (D.seen link.new).far))) }
        ensures ready { OnOk result (IsReady (D.seen link.new).far) }
        ensures ready_again { IfErr result (IfStill (IsReady (D.seen link.new).far)) }
        ensures rises { Within 14 (D.seen link.old) (D.seen link.new) }
        ensures keeps { SoftKeeps (D.seen link.old) (D.seen link.new) result }
    {
        if self.planted(at) {
            return Err(SoftFault::Set);
        }
        if self.is_full() {
            return Err(SoftFault::Full);
        }
        match take_place(link, at) {
            Ok(original) => {
                self.put(at, original);
                Ok(())
            }
            Err(fault) => Err(SoftFault::Access(fault)),
        }
    }

    /// Takes the software breakpoint at a word out: one access stores the word that it has taken the place of. `NotSet` where none is set there; then no access
    /// is made. Behind each fault the table is as it was.
    #[tactic(auto, using(crate::proofs::LeadLemmas::bus_lift_leads, debug_model::proofs::RiseLemmas::within_none))]
    pub fn unplant<D: Dmi>(&mut self, link: &mut D, at: u64) -> Result<(), SoftFault>
        requires callable { CanCall (D.seen link.old) }
        requires ready { IsReady (D.seen link.old).far }
        requires word { IsSoftAddress at }
        ensures answers { UnplantAnswers at self.old result }
        ensures table { UnplantTable at self.old self.new result }
        ensures stored { OnOk result (OnChip (BusStoredAt B4 at (original_of at self.old)) (D.seen link.old) (D.seen link.new)) }
        ensures leads { OnOk result (LiftLeads at (original_of at self.old) (D.seen link.old).far (D.seen link.new).far) }
        ensures ran { OnOk result (BusStored B4 at (original_of at self.old) (told (D.seen link.old)) (told (D.seen link.new))) }
        ensures left { IfErr result (IfAccess (AccessLeft (BusStoreRefused B4 at) at (D.seen link.old).far (D.seen link.new).far)) }
        ensures failed { IfErr result (IfAccess (Fails (BusStoreFailed B4 at (original_of at self.old)) (D.seen link.old) (D.seen link.new))) }
        ensures cut { IfErr result
            (IfAccess (IfCut (Leaves (BusLeftOff (StoreLeaves B4 at (original_of at self.old))) (D.seen link.old).far (D.seen link.new).far))) }
        ensures ready { OnOk result (IsReady (D.seen link.new).far) }
        ensures ready_again { IfErr result (IfStill (IsReady (D.seen link.new).far)) }
        ensures rises { Within 7 (D.seen link.old) (D.seen link.new) }
        ensures keeps { SoftKeeps (D.seen link.old) (D.seen link.new) result }
    {
        if !self.planted(at) {
            return Err(SoftFault::NotSet);
        }
        match give_back(link, at, self.original(at)) {
            Ok(()) => {
                self.forget(at);
                Ok(())
            }
            Err(fault) => Err(SoftFault::Access(fault)),
        }
    }
}
