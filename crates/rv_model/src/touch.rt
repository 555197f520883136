/// What the instruction at `pc` would read and write, each as an address and a number of bytes.
///
/// Misaligned addresses and such outside memory count too.
#[derive(Clone, Copy, Debug, PartialEq, Eq)]
pub struct Touch {
    pub pc: u64,
    pub load: Option<(u64, u8)>,
    pub store: Option<(u64, u8)>,
}
