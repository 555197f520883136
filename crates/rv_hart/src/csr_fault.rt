/// Why a write of a control and status register was refused. Nothing has changed then.
#[derive(Clone, Copy, Debug, PartialEq, Eq)]
pub enum CsrFault {
    /// There is no register of this number.
    Absent,
    /// The register is read-only.
    ReadOnly,
}
