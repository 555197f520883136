/// Why an access to memory was refused. Nothing has changed then.
#[derive(Clone, Copy, Debug, PartialEq, Eq)]
pub enum MemFault {
    /// The address is not a multiple of the access's size.
    Misaligned,
    /// The address is such a multiple, and some byte of the access lies outside memory.
    Outside,
}
