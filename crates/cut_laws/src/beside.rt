//! What a session leaves of a told chip where a call beside its plan failed. `specs/BesideLaws.antt` has the statements.

ghost use Rattle.cut_laws.specs.BesideLaws.{ArmingCut, AskingCut, ForgettingBehindCut, ForgettingCut, FreeingCut, GivingCut};
ghost use Rattle.cut_laws.specs.BesideLaws.{IdcodeCut, ReadingCut, StoppingCut, ViewingCut, WritingCut};

/// Where a read failed nothing is lost but what the plan was to write there.
pub fn reads_cut()
    ensures idcode { IdcodeCut }
    ensures asking { AskingCut }
    ensures reading { ReadingCut }
    ensures stopping { StoppingCut }
{}

/// Where a write failed that register may be lost, and nothing else.
pub fn writes_cut()
    ensures giving { GivingCut }
    ensures writing { WritingCut }
    ensures forgetting_behind { ForgettingBehindCut }
{}

/// Where a call on trigger slots failed nothing is lost that a program sees, but what the plan was to write there.
pub fn slots_cut()
    ensures viewing { ViewingCut }
    ensures arming { ArmingCut }
    ensures freeing { FreeingCut }
    ensures forgetting { ForgettingCut }
{}
