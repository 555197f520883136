/// What an instruction makes of a control and status register (unprivileged manual, "Zicsr").
#[derive(Clone, Copy, Debug, PartialEq, Eq)]
pub enum CsrChange {
    /// `csrrw`, `csrrwi`: it becomes the operand.
    Replace,
    /// `csrrs`, `csrrsi`: the operand's bits become 1.
    Set,
    /// `csrrc`, `csrrci`: the operand's bits become 0.
    Clear,
}
