//! Laws of chains. Each is the contract of a function that does nothing.

ghost use Rattle.chain_scan.specs.ChainLaws.{RegistersShiftAsOne, TapsStayInOneState};
ghost use Rattle.chain_scan.specs.ChipInChain.{ChipSeesAnotherTdi};
ghost use Rattle.chain_scan.specs.Passing.{PadsGoAround, ScansExchange};

/// All TAPs of a chain stand in one state, whatever bytes come.
pub fn taps_stay_in_one_state()
    ensures { TapsStayInOneState }
{}

/// In a Shift state TDO shows the lowest bit of all registers, one behind the other, and a clock shifts them as one.
pub fn registers_shift_as_one()
    ensures { RegistersShiftAsOne }
{}

/// A scan of as many bits as all registers have takes out what they held, and leaves in them what was given.
pub fn scans_exchange()
    ensures { ScansExchange }
{}

/// Around devices in BYPASS the chip's register gets just the bits between the pads, and what it held comes out between zeros.
pub fn pads_go_around()
    ensures { PadsGoAround }
{}

/// The chip of a chain is the chip alone under the same bytes with another TDI, that of its neighbour.
pub fn chip_sees_another_tdi()
    ensures { ChipSeesAnotherTdi }
{}
