/// When a branch is taken, of its two sources (unprivileged manual, "Conditional Branches").
#[derive(Clone, Copy, Debug, PartialEq, Eq)]
pub enum Condition {
    /// `beq`: they are equal.
    Equal,
    /// `bne`: they differ.
    Different,
    /// `blt`: the first is below the second, signed.
    Below,
    /// `bge`: the first is not below the second, signed.
    NotBelow,
    /// `bltu`: the first is below the second, unsigned.
    BelowUnsigned,
    /// `bgeu`: the first is not below the second, unsigned.
    NotBelowUnsigned,
}
