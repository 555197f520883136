use crate::command::Command;

/// One command of a script with software breakpoints. The ranges of its numbers are those of `docs/SCRIPT.md`.
#[derive(Clone, Copy, Debug, PartialEq, Eq)]
pub enum SoftCommand {
    /// A command of every script.
    Plain(Command),
    /// `soft ADDR`: sets a software breakpoint at a word, whose address is a multiple of 4 from 0x80000000.
    Soft(u64),
    /// `unsoft ADDR`: takes the software breakpoint at such a word out.
    Unsoft(u64),
}
