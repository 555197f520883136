/// An entry of the chip's journal: what happened there that a debugger can tell apart.
#[derive(Clone, Copy, Debug, Default, PartialEq, Eq)]
pub enum Point {
    /// The hart of this number, which exists, had its turn.
    Turn(u8),
    /// The debugger looked at the hart of this number (`hartsel`), which need not exist: a read of dmstatus.
    Look(u16),
    /// The debugger requested that the hart of this number halt (`haltreq` written 1).
    HaltReq(u8),
    /// The debugger took back its request that the hart of this number halt (`haltreq` written 0).
    HaltClear(u8),
    /// The debugger requested that the hart of this number resume (`resumereq` written 1).
    ResumeReq(u8),
    /// The debugger had an access to memory made, by the program buffer or by the system bus. It is the default, which only
    /// fills the places of a fixed list that hold no entry.
    #[default]
    Access,
}
