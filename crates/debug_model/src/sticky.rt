/// The status that the debug transport keeps until it is cleared (RISC-V Debug Specification 1.0, "DTM Control and Status", the field `dmistat`).
#[derive(Clone, Copy, Debug, PartialEq, Eq)]
pub enum Sticky {
    /// 0: no error.
    Clear,
    /// 2: an operation has failed.
    Failed,
    /// 3: `dmi` was captured while an operation was in flight.
    Busy,
}
