ghost use Rattle.std.specs.Prelude.{◌≡◌};
ghost use Rattle.chip_core.specs.Loads.{load_fault_number};

use thiserror::Error;

/// Why a bench wasn't loaded. The harts are looked at first, then the size of RAM, then the image, and memory last.
#[derive(Clone, Copy, Debug, PartialEq, Eq, Error)]
pub enum LoadFault {
    /// The image is longer than RAM.
    #[error("image too long")]
    TooLong,
    /// RAM can't have this many bytes.
    #[error("bad size of RAM")]
    BadSize,
    /// There are one to four harts.
    #[error("bad number of harts")]
    BadHarts,
    /// The allocator gave no memory.
    #[error("no memory")]
    NoMemory,
}

impl LoadFault {
    /// The number by which the program tells the fault, from 1 to 4.
    pub fn number(&self) -> u8
        ensures { result ≡ load_fault_number self.now }
    {
        match self {
            LoadFault::TooLong => 1,
            LoadFault::BadSize => 2,
            LoadFault::BadHarts => 3,
            LoadFault::NoMemory => 4,
        }
    }
}
