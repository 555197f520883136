/// Why no RAM was made.
#[derive(Clone, Copy, Debug, PartialEq, Eq)]
pub enum RamFault {
    /// The size is not a multiple of 4,096 from 65,536 to 16,777,216 bytes.
    BadSize,
    /// There is not enough memory for that many bytes.
    NoMemory,
}
