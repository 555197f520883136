//! Laws of the chip's definitions: each is the contract of a public function with an empty body.
//!
//! They say in the standards' words what the definitions of TAP, transport, debug module, commands, system bus and stream come to,
//! with worked examples that the definitions compute. Of the TAP they say, in the words of IEEE 1149.1, what leads into
//! Test-Logic-Reset, what TRST does, when TDO changes and what a scan does to a register. `debug_model` has the definitions.
#![tactic(auto)]

mod bus_laws;
mod command_laws;
mod examples;
mod module_laws;
mod path_laws;
mod stream_laws;
mod tap_laws;
mod transport_laws;
mod turn_laws;

pub use bus_laws::{bus_reads_memory, bus_writes_memory};
pub use command_laws::{
    autoexec_starts_what_is_kept, cmderr_clears_by_bits, commands_are_snapshots,
    sberror_clears_by_bits, writes_while_busy_are_lost,
};
pub use examples::{command_examples, module_examples, transport_examples, word_examples};
pub use module_laws::{
    busy_modules_ignore_dmcontrol, commands_keep_other_harts, haltsum_shows_halted_harts,
    only_dmcontrol_asks_harts, plain_reads_change_nothing, running_harts_keep_no_resume,
    served_harts_rest,
};
pub use path_laws::{courses_are_site_paths, no_operation_is_deeds, one_operation_between_deeds};
pub use stream_laws::{ended_chips_take_nothing, pieces_join, unended_chips_run};
pub use tap_laws::{
    bypass_delays, clocks_follow_tms, columns_agree, falls_show_next_bit, five_ones_reset,
    idcode_comes_out, scans_exchange, scans_keep_bits, tdo_changes_at_falls, trst_holds,
    trst_resets,
};
pub use transport_laws::{
    earlier_shifts_are_unseen, failed_operations_are_unseen, failures_stay_until_reset,
};
pub use turn_laws::{
    feeds_keep_timing, feeds_offer_turns, loaded_chips_offer, rounds_offer_turns, timing_tells,
};
