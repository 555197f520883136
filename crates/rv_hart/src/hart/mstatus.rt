//! The register mstatus (privileged manual, "Machine Status Registers"): MPP says Machine Mode always, and all but MIE and MPIE is fixed.

ghost use Rattle.std.specs.Prelude.{◌≡◌, ◌+◌, ◌<◌, bit_and};
ghost use Rattle.rv_model.specs.Core.{mpp_machine, mstatus_with};
ghost use Rattle.rv_model.specs.Registers.{mstatus_bits};
ghost use Rattle.rv_model.specs.Fields.{field};

/// MPP: the previous mode was Machine Mode.
const MPP_MACHINE: u64 = 0x1800;

/// The place of MIE, machine interrupts enabled.
const MIE_BIT: u32 = 3;

/// The place of MPIE, what MIE was before the trap.
const MPIE_BIT: u32 = 7;

/// The bits that a write sets: MIE and MPIE.
const MSTATUS_BITS: u64 = 0x88;

/// The register with these fields, each 0 or 1.
pub fn mstatus_of(mie: u64, mpie: u64) -> u64
    requires mie { mie < 2 }
    requires mpie { mpie < 2 }
    ensures is { result ≡ mstatus_with mie mpie }
    ensures kept { mstatus_with (field 3 1 result) (field 7 1 result) ≡ result }
{
    MPP_MACHINE + (mie << MIE_BIT) + (mpie << MPIE_BIT)
}

/// MIE.
pub fn mie(mstatus: u64) -> u64
    ensures is { result ≡ field 3 1 mstatus }
    ensures small { result < 2 }
{
    mstatus >> MIE_BIT & 1
}

/// MPIE.
pub fn mpie(mstatus: u64) -> u64
    ensures is { result ≡ field 7 1 mstatus }
    ensures small { result < 2 }
{
    mstatus >> MPIE_BIT & 1
}

#[tactic(auto, using(crate::proofs::CsrBits::mstatus_bits_kept))]
/// The register after a write: MIE and MPIE are those of the value.
pub fn mstatus_written(value: u64) -> u64
    ensures is { result ≡ mpp_machine + bit_and value mstatus_bits }
    ensures kept { mstatus_with (field 3 1 result) (field 7 1 result) ≡ result }
{
    MPP_MACHINE + (value & MSTATUS_BITS)
}
