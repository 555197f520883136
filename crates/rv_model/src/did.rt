/// What became of one instruction.
#[derive(Clone, Copy, Debug, PartialEq, Eq)]
pub enum Did {
    /// It took effect.
    Retired,
    /// It trapped in place of its effect, with this exception code (privileged manual, "Machine Cause").
    Trapped(u8),
    /// The machine software interrupt was taken before it (privileged manual, "Machine Interrupt Registers").
    Interrupted,
}
