//! Laws of the debug transport behind its TAP; `specs/TransportLaws.antt` has the statements.

ghost use Rattle.chip_laws.specs.TransportLaws.{
  EarlierShiftsAreUnseen,
  FailedOperationsAreUnseen,
  FailuresStayUntilReset,
};

/// An operation that failed has changed nothing behind the transport, and the next scan of `dmi` shows that it did.
///
/// Source: RISC-V Debug Specification 1.0, "Debug Module Interface Access", op.
pub fn failed_operations_are_unseen()
    ensures { FailedOperationsAreUnseen }
{}

/// The status of a failed operation stays, and no operation goes out, until dmireset takes it away.
///
/// Source: RISC-V Debug Specification 1.0, "DTM Control and Status", dmireset.
pub fn failures_stay_until_reset()
    ensures { FailuresStayUntilReset }
{}

/// No scan sees what an earlier one has left in the shift register, of either column of the state diagram.
///
/// Source: IEEE 1149.1, the TAP controller's state diagram: each column begins with its capture.
pub fn earlier_shifts_are_unseen()
    ensures { EarlierShiftsAreUnseen }
{}
