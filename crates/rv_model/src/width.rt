ghost use Rattle.std.specs.Prelude.{◌≡◌};
ghost use Rattle.rv_model.specs.Accesses.{width_size};

use crate::size::Size;

/// The width of an atomic instruction: its name ends with `.w` or `.d` (unprivileged manual, "A" extension).
#[derive(Clone, Copy, Debug, PartialEq, Eq)]
pub enum Width {
    /// Four bytes.
    Word,
    /// Eight bytes.
    DoubleWord,
}

impl Width {
    /// The size of its access.
    pub fn size(self) -> Size
        ensures { result ≡ width_size self }
    {
        match self {
            Width::Word => Size::B4,
            Width::DoubleWord => Size::B8,
        }
    }
}
