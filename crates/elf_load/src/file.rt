//! What an ELF file says of memory.

use arrayvec::ArrayVec;

/// How many segments a file has at most.
pub const SEGMENTS_MOST: usize = 64;

/// A segment to be loaded: so many bytes of the file, and zeros behind them (System V ABI, "Program Header").
#[derive(Clone, Copy, Debug, Default, PartialEq, Eq)]
pub struct Segment {
    /// The place of its first byte in the file.
    pub offset: u64,
    /// The physical address of its first byte.
    pub address: u64,
    /// How many of its bytes stand in the file.
    pub in_file: u64,
    /// How many bytes it has in memory.
    pub in_memory: u64,
}

/// What is to be loaded of an ELF file, and where its program begins.
#[derive(Debug, Drop)]
pub struct Elf {
    /// The address of the first instruction.
    pub entry: u64,
    /// The segments to be loaded, in the order of their headers.
    pub segments: ArrayVec<Segment, SEGMENTS_MOST>,
}
