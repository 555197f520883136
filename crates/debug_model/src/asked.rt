use jt_base::Bits;

/// What one call on scans asks of a TAP (IEEE 1149.1, the state diagram of the TAP).
#[derive(Clone, Copy, Debug, PartialEq, Eq)]
pub enum Asked {
    /// From anywhere through Test-Logic-Reset to Run-Test/Idle.
    Reset,
    /// An instruction, below 32.
    Select(u8),
    /// Bits through the selected data register.
    Shift(Bits),
    /// So many clocks in Run-Test/Idle, from 1 to 32.
    Idle(u8),
}
