//! A hart's trigger slots, field by field
//! (RISC-V Debug Specification 1.0, "Sdtrig (ISA Extension)"; RISC-V External Debug Support 0.13.2, "Match Control").
//! `m`, `execute`, `load`, `store`, `count`, `pending` are fields of `tdata1`; `tdata2` stands beside every kind of trigger.

/// How an address is compared with `tdata2`: the field `match` of an address trigger.
#[derive(Clone, Copy, Debug, PartialEq, Eq)]
pub enum Comparison {
    /// 0: it is equal to `tdata2`.
    Equal,
    /// 2: it is `tdata2` or greater, unsigned.
    AtLeast,
    /// 3: it is less than `tdata2`, unsigned.
    Below,
}

/// An address trigger: type 6, or type 2 (`mcontrol`) on a chip of release 0.13, with the same fields.
#[derive(Clone, Copy, Debug, PartialEq, Eq)]
pub struct Mcontrol6 {
    /// It has fired: `hit0` of type 6, `hit` of type 2.
    pub hit: bool,
    /// How addresses are compared.
    pub comparison: Comparison,
    /// It is on in Machine Mode.
    pub m: bool,
    /// It compares the address of the instruction.
    pub execute: bool,
    /// It compares each byte that the instruction would write.
    pub store: bool,
    /// It compares each byte that the instruction would read.
    pub load: bool,
}

/// A trigger that counts instructions, type 3.
#[derive(Clone, Copy, Debug, PartialEq, Eq)]
pub struct Icount {
    /// It has fired.
    pub hit: bool,
    /// How many instructions are left, below 2^14.
    pub count: u16,
    /// It is on in Machine Mode.
    pub m: bool,
    /// Its count has fallen to 0, and it has not fired since.
    pub pending: bool,
}

/// What `tdata1` holds, by its field `type`.
#[derive(Clone, Copy, Debug, PartialEq, Eq)]
pub enum Trigger {
    /// Type 6, or type 2 on a chip of release 0.13.
    Mcontrol6(Mcontrol6),
    /// Type 3.
    Icount(Icount),
    /// Type 15: it never fires.
    Disabled,
}

/// One trigger slot.
#[derive(Clone, Copy, Debug, PartialEq, Eq)]
pub struct Slot {
    pub trigger: Trigger,
    pub tdata2: u64,
}
