use rv_model::DebugDid;

/// What a halted hart did with one word of the program buffer.
#[derive(Clone, Copy, Debug, PartialEq, Eq)]
pub struct RanWord {
    pub did: DebugDid,
    /// It was a load, a store or an atomic memory operation, also one that faults.
    pub accessed: bool,
}
