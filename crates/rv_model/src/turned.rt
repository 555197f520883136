use crate::cause::Cause;
use crate::did::Did;

/// What a hart did in one of its turns.
#[derive(Clone, Copy, Debug, PartialEq, Eq)]
pub enum Turned {
    /// Nothing: it is halted.
    Idle,
    /// It was halted, and runs from now on.
    Resumed,
    /// It halted before its next instruction, or behind a single step, for this reason.
    Halted(Cause),
    /// It executed one instruction, or took one trap or interrupt, and runs on.
    Ran(Did),
}
