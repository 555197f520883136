//! Laws of points and of turns. Each is the contract of a function that does nothing; `specs/` has the statements.

ghost use Rattle.budget_laws.specs.FewTurns.{RoundsOfferFewTurns, SeedsOfferFewTurns};
ghost use Rattle.budget_laws.specs.ScriptPoints.{ScriptsTakeFewPoints};

/// Behind a session that has not led astray the journal has at most as many points, turns aside, as the script may take.
pub fn scripts_take_few_points()
    ensures { ScriptsTakeFewPoints }
{}

/// So many rounds, each with at most so many turns, offer at most as many turns as both numbers make.
pub fn rounds_offer_few_turns()
    ensures { RoundsOfferFewTurns }
{}

/// No round of a schedule that a seed makes has more turns than there are harts.
pub fn seeds_offer_few_turns()
    ensures { SeedsOfferFewTurns }
{}
