//! Laws of the TAP; `specs/TapLaws.antt` has the statements.

ghost use Rattle.chip_laws.specs.TapLaws.{
  BypassDelays,
  ClocksFollowTms,
  ColumnsAgree,
  FallsShowNext,
  FiveOnesReset,
  IdcodeComesOut,
  ScansExchange,
  ScansKeepBits,
  TdoChangesAtFalls,
  TrstHolds,
  TrstResetsPorts,
};

/// Five rises with TMS 1 lead into Test-Logic-Reset from every state, and four do not from Shift-DR.
///
/// Source: IEEE 1149.1, "TAP controller state diagram" and "TAP controller operation", Test-Logic-Reset.
pub fn five_ones_reset()
    ensures { FiveOnesReset }
{}

/// Clocks lead the controller of a chip along the state diagram as TMS says, while TRST is 0.
///
/// Source: IEEE 1149.1, "TAP controller state diagram"; OpenOCD, remote_bitbang, for the bytes.
pub fn clocks_follow_tms()
    ensures { ClocksFollowTms }
{}

/// TMS leads through the instruction column of the state diagram as through the data column.
///
/// Source: IEEE 1149.1, "TAP controller state diagram".
pub fn columns_agree()
    ensures { ColumnsAgree }
{}

/// TDO changes at falls of TCK alone, and where TRST resets the controller.
///
/// Source: IEEE 1149.1, "Test data output (TDO)".
pub fn tdo_changes_at_falls()
    ensures { TdoChangesAtFalls }
{}

/// A fall in Shift-DR or Shift-IR shows the bit that the next rise shifts out.
///
/// Source: IEEE 1149.1, "Test data output (TDO)" and "TAP controller operation", Shift-DR and Shift-IR.
pub fn falls_show_next_bit()
    ensures { FallsShowNext }
{}

/// TRST 1 puts the controller into Test-Logic-Reset without a clock, and no edge moves it from there.
///
/// Source: IEEE 1149.1, "Test reset input (TRST*)" and "TAP controller initialization".
pub fn trst_resets()
    ensures { TrstResetsPorts }
{}

/// While TRST is 1 no bytes move a chip's port, and so no path of clocks does.
///
/// Source: IEEE 1149.1, "Test reset input (TRST*)"; OpenOCD, remote_bitbang, for the bytes.
pub fn trst_holds()
    ensures { TrstHolds }
{}

/// A scan as long as its register is an exchange: just what was captured comes out, and just the given bits stay.
///
/// Source: IEEE 1149.1, "Test data registers".
pub fn scans_exchange()
    ensures { ScansExchange }
{}

/// What comes out of a register and what stays in it are the captured and the given bits, at each length of a scan.
///
/// Source: IEEE 1149.1, "Test data registers".
pub fn scans_keep_bits()
    ensures { ScansKeepBits }
{}

/// The code of all ones selects the bypass register, which delays by one clock.
///
/// Source: IEEE 1149.1, "BYPASS instruction" and "Bypass register".
pub fn bypass_delays()
    ensures { BypassDelays }
{}

/// A reset and a scan of 32 bits read this chip's device identification, 0x10d64001, from every state of the controller.
///
/// Source: IEEE 1149.1, "Device identification register"; OpenOCD, remote_bitbang, for the bytes.
pub fn idcode_comes_out()
    ensures { IdcodeComesOut }
{}
