//! The numbers of the registers, as CSR instructions and abstract commands give them (RISC-V privileged manual, "CSR Listing"; RISC-V Debug
//! Specification 1.0, "Core Debug Registers", "Sdtrig (ISA Extension)" and "Abstract Register Numbers").

/// Whether interrupts are taken, and what they were.
pub const MSTATUS: u16 = 0x300;
/// The width and the extensions.
pub const MISA: u16 = 0x301;
/// Which interrupts are taken.
pub const MIE: u16 = 0x304;
/// Where a trap goes.
pub const MTVEC: u16 = 0x305;
/// A word for the trap handler.
pub const MSCRATCH: u16 = 0x340;
/// Where a trap came from.
pub const MEPC: u16 = 0x341;
/// Why it came.
pub const MCAUSE: u16 = 0x342;
/// What it came with.
pub const MTVAL: u16 = 0x343;
/// Which interrupts wait.
pub const MIP: u16 = 0x344;
/// Which trigger slot the other trigger registers show. Only Debug Mode reaches it and those up to `dpc`.
pub const TSELECT: u16 = 0x7a0;
/// The selected slot's trigger.
pub const TDATA1: u16 = 0x7a1;
/// What the selected slot's trigger compares with.
pub const TDATA2: u16 = 0x7a2;
/// The types of trigger that there are.
pub const TINFO: u16 = 0x7a4;
/// The causes that halt a hart, and why it is halted.
pub const DCSR: u16 = 0x7b0;
/// Where a halted hart goes on: its pc.
pub const DPC: u16 = 0x7b1;
/// The vendor.
pub const MVENDORID: u16 = 0xf11;
/// The architecture.
pub const MARCHID: u16 = 0xf12;
/// The implementation.
pub const MIMPID: u16 = 0xf13;
/// The hart's own number.
pub const MHARTID: u16 = 0xf14;
/// x0, for abstract commands alone; those of x1 to x31 follow.
pub const X0: u16 = 0x1000;
