/// What ended a chip's stream.
#[derive(Clone, Copy, Debug, PartialEq, Eq)]
pub enum ChipEnd {
    /// The sign `Q`.
    Quitted,
    /// A byte that is no sign, kept here.
    BadByte(u8),
    /// A rise of TCK that would have gone past the limit of points or of rounds.
    AtLimit,
}
