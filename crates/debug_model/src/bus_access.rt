/// An access of the system bus that is under way.
#[derive(Clone, Copy, Debug, PartialEq, Eq)]
pub enum BusAccess {
    /// Memory is read.
    Read,
    /// Memory is written.
    Write,
}
