//! Laws of the abstract debugger: what is true of every session, whatever its script and whatever happens at the chip.
#![tactic(auto)]

mod examples;
mod laws;

pub use examples::{accesses_happen, lines_read, losses_happen, refusals_happen, stops_happen};
pub use laws::{
    commands_speak_in_order, cut_boards, cut_lines, first_match, frozen_may_wait, frozen_stays,
    lines_grow, pasts_are_undebugged, quiet_boards, reset_is_fresh, transparent, turns_keep_on,
};
