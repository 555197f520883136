//! Laws of the harts' turns; `specs/TurnLaws.antt` has the statements.

ghost use Rattle.chip_laws.specs.TurnLaws.{FeedsKeepTiming, FeedsOfferTurns, LoadedChipsOffer, RoundsOfferTurns, TimingTells};

/// A chip as it was loaded has had just the turns that its schedule offered: none, in no round.
pub fn loaded_chips_offer()
    ensures { LoadedChipsOffer }
{}

/// Whatever bytes are fed, the harts have had just the turns that the schedule offered.
pub fn feeds_offer_turns()
    ensures { FeedsOfferTurns }
{}

/// Whatever bytes are fed, the schedule's list stays, whether the harts have had just the turns that it offered, and the chip's limit of points.
pub fn feeds_keep_timing()
    ensures { FeedsKeepTiming }
{}

/// What is told of a chip's timing says whether its harts have had just the turns that its schedule offered.
pub fn timing_tells()
    ensures { TimingTells }
{}

/// Rounds of the schedule give the harts of a loaded chip exactly the turns that the schedule offers.
pub fn rounds_offer_turns()
    ensures { RoundsOfferTurns }
{}
