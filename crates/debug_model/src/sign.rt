/// What one byte of the bit-bang stream means.
///
/// Source: OpenOCD, remote_bitbang.
#[derive(Clone, Copy, Debug, PartialEq, Eq)]
pub enum Sign {
    /// The pins TCK, TMS and TDI take these levels.
    Pins(bool, bool, bool),
    /// Asks for TDO: one answer byte, `0` or `1`.
    Ask,
    /// The LED goes on or off, which has no effect here.
    Light,
    /// TRST takes this level. SRST, which the same byte names, isn't wired.
    Reset(bool),
    /// The stream ends.
    Quit,
}
