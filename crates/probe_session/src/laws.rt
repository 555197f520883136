//! What a session's steps make of a chip that is told, and what a script may cost. Each is the contract of a function that does nothing; `specs/Led.antt` and
//! `specs/BudgetExample.antt` have the statements.

ghost use Rattle.probe_session.specs.BudgetExample.{UsualScriptRises};
ghost use Rattle.probe_session.specs.Led.{GoesLead};

/// Steps lead from their place in the abstract debugger's plan to the next, with the lines that they say.
pub fn sessions_lead()
    ensures { GoesLead }
{}

/// A usual script of 13 commands lets TCK rise at most 54,173 operations' rates where the schedule is fair.
pub fn usual_script_rises()
    ensures { UsualScriptRises }
{}
