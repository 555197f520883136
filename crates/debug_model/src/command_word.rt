/// A word that the debugger shares with abstract commands (RISC-V Debug Specification 1.0, "Abstract Data" and "Program Buffer").
#[derive(Clone, Copy, Debug, PartialEq, Eq)]
pub enum CommandWord {
    Data0,
    Data1,
    Progbuf0,
    Progbuf1,
    Progbuf2,
    Progbuf3,
}
