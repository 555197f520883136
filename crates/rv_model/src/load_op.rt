ghost use Rattle.std.specs.Prelude.{◌≡◌};
ghost use Rattle.rv_model.specs.Accesses.{load_size};

use crate::size::Size;

/// What a load reads, and how it fills its register (unprivileged manual, "Load and Store Instructions").
#[derive(Clone, Copy, Debug, PartialEq, Eq)]
pub enum LoadOp {
    /// One byte, sign extended.
    Lb,
    /// Two bytes, sign extended.
    Lh,
    /// Four bytes, sign extended.
    Lw,
    /// Eight bytes.
    Ld,
    /// One byte.
    Lbu,
    /// Two bytes.
    Lhu,
    /// Four bytes.
    Lwu,
}

impl LoadOp {
    /// The size of its access.
    pub fn size(self) -> Size
        ensures { result ≡ load_size self }
    {
        match self {
            LoadOp::Lb => Size::B1,
            LoadOp::Lh => Size::B2,
            LoadOp::Lw => Size::B4,
            LoadOp::Ld => Size::B8,
            LoadOp::Lbu => Size::B1,
            LoadOp::Lhu => Size::B2,
            LoadOp::Lwu => Size::B4,
        }
    }
}
