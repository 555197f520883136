//! Laws of how many points a session puts into a chip's journal at most: those that a script takes, and the turns that a schedule offers.
#![tactic(auto)]

mod laws;

pub use laws::{rounds_offer_few_turns, scripts_take_few_points, seeds_offer_few_turns};
