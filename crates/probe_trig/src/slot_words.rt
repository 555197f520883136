/// What a slot's two registers read.
#[derive(Clone, Copy)]
pub struct SlotWords {
    pub tdata1: u64,
    pub tdata2: u64,
}
