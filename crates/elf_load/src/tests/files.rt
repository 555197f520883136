//! Files for the tests: one as a list of bytes, and others made of their program headers.

use std::alloc::{AllocError, Global};

/// An executable of 132 bytes: its entry is 0x80000004, and its one program header at 64 loads the 12 bytes at 120 to 0x80000000, with 4 zeros behind them.
/// The program is `addi x5, x0, 5`, `addi x5, x5, 1`, `j .-4`.
#[rattlefmt::skip]
pub const SMALL: [u8; 132] = [
    0x7f, b'E', b'L', b'F', 2, 1, 1, 0, 0, 0, 0, 0, 0, 0, 0, 0,
    2, 0, 243, 0, 1, 0, 0, 0, 0x04, 0, 0, 0x80, 0, 0, 0, 0,
    64, 0, 0, 0, 0, 0, 0, 0, 0, 0, 0, 0, 0, 0, 0, 0,
    0, 0, 0, 0, 64, 0, 56, 0, 1, 0, 0, 0, 0, 0, 0, 0,
    1, 0, 0, 0, 5, 0, 0, 0, 120, 0, 0, 0, 0, 0, 0, 0,
    0, 0, 0, 0x80, 0, 0, 0, 0, 0, 0, 0, 0x80, 0, 0, 0, 0,
    12, 0, 0, 0, 0, 0, 0, 0, 16, 0, 0, 0, 0, 0, 0, 0,
    8, 0, 0, 0, 0, 0, 0, 0, 0x93, 0x02, 0x50, 0x00, 0x93, 0x82, 0x12, 0x00,
    0x6f, 0xf0, 0xdf, 0xff,
];

/// The fields of a program header that are looked at.
#[derive(Clone, Copy)]
pub struct Header {
    pub kind: u32,
    pub offset: u64,
    pub address: u64,
    pub in_file: u64,
    pub in_memory: u64,
}

/// A header of a segment to be loaded.
pub fn load(offset: u64, address: u64, in_file: u64, in_memory: u64) -> Header {
    Header {
        kind: 1,
        offset,
        address,
        in_file,
        in_memory,
    }
}

/// The small file with other bytes at a place.
pub fn changed(alloc: Global, at: usize, bytes: &[u8]) -> Result<Vec<u8>, AllocError> {
    let mut file = SMALL.to_vec(alloc)?;
    for (to, from) in file.iter_mut().skip(at).zip(bytes) {
        *to = *from;
    }
    Ok(file)
}

/// An executable with these program headers behind its header, and with so many bytes of 0x55 behind those.
pub fn made(alloc: Global, headers: &[Header], behind: usize) -> Result<Vec<u8>, AllocError> {
    let count = headers.len() as u64;
    let mut file = SMALL[..56].to_vec(alloc)?;
    file.extend_from_slice(&[(count & 0xff) as u8, 0, 0, 0, 0, 0, 0, 0])?;
    for header in headers {
        file.extend_from_slice(&header.kind.to_le_bytes())?;
        file.extend_from_slice(&[0; 4])?;
        file.extend_from_slice(&header.offset.to_le_bytes())?;
        file.extend_from_slice(&u64::MAX.to_le_bytes())?;
        file.extend_from_slice(&header.address.to_le_bytes())?;
        file.extend_from_slice(&header.in_file.to_le_bytes())?;
        file.extend_from_slice(&header.in_memory.to_le_bytes())?;
        file.extend_from_slice(&[0; 8])?;
    }
    for _ in 0..behind {
        file.push(0x55)?;
    }
    Ok(file)
}
