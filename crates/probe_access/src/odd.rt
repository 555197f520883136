use thiserror::Error;

/// The register that shows an error which no other fault names, as it was read.
#[derive(Clone, Copy, Debug, PartialEq, Eq, Error)]
pub enum OddStatus {
    /// `abstractcs`, at the end of a command.
    #[error("abstractcs {0:#010x}")]
    Abstractcs(u32),
    /// `sbcs`, at the end of an access of the bus.
    #[error("sbcs {0:#010x}")]
    Sbcs(u32),
}
