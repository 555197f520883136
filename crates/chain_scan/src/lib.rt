//! Several TAPs in one chain: the devices beside the chip, which of them there are, what a chain is as a whole, and scans of its chip around the others.
#![tactic(auto)]

mod chain_plan;
mod chain_scanner;
mod chain_wire;
mod laws;
#[cfg(test)]
mod scanner_tests;
mod side_tap;
#[cfg(test)]
mod tap_chain_tests;
#[cfg(test)]
mod tests;

pub use chain_plan::{ChainPlan, SIDES_MOST};
pub use chain_scanner::ChainScanner;
pub use chain_wire::ChainWire;
pub use laws::{
    chip_sees_another_tdi, pads_go_around, registers_shift_as_one, scans_exchange,
    taps_stay_in_one_state,
};
pub use side_tap::{SideTap, WIDTH_LEAST, WIDTH_MOST};
