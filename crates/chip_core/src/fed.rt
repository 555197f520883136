ghost use Rattle.std.specs.Prelude.{◌≡◌};
ghost use Rattle.chip_core.specs.Fed.{fed_at};

use debug_model::ChipEnd;

/// What became of a piece of bytes. Each place counts from 0 in the piece: the bytes before it were taken, and neither the byte
/// there nor any behind it was. Behind an end it is 0.
#[derive(Clone, Copy, Debug, PartialEq, Eq)]
pub enum Fed {
    /// All bytes were taken.
    All,
    /// The sign `Q` stands at this place, or has ended the chip before.
    Quit(usize),
    /// A byte that is no sign stands at this place, or has ended the chip before; it is kept here.
    Bad(usize, u8),
    /// The byte at this place makes TCK rise past the limit of points or of rounds, or an earlier one did.
    EventLimit(usize),
}

/// What has ended a chip, at this place.
pub(crate) fn fed_at(end: ChipEnd, place: usize) -> Fed
    ensures { result ≡ fed_at end place }
{
    match end {
        ChipEnd::Quitted => Fed::Quit(place),
        ChipEnd::BadByte(byte) => Fed::Bad(place, byte),
        ChipEnd::AtLimit => Fed::EventLimit(place),
    }
}
