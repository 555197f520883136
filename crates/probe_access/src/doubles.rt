ghost use Rattle.std.specs.Prelude.{◌≡◌, ◌≤◌, ◌<◌, ◌^◌, IfOk, IfErr, Some};
ghost use Rattle.probe_access.specs.Faults.{Among, BrokeIn};
ghost use Rattle.probe_access.specs.RegisterRuns.{DoubleRead, DoubleReads};
ghost use Rattle.debug_model.specs.Commands.{high_half, low_half};
ghost use Rattle.probe_access.specs.RegisterAccess.{joined};
ghost use Rattle.debug_model.specs.Rises.{FailsByWire, Within};
ghost use Rattle.debug_model.specs.Kept.{CanCall, Keeps};
ghost use Rattle.probe_run.specs.Told.{Breaks, told};

use arrayvec::ArrayVec;
use debug_model::{Data0, Data1, Dmi, DmiFault, DmiOp};

/// The lower 32 bits.
pub fn low_word(value: u64) -> u32
    ensures { result ≡ low_half value }
{
    (value & 0xffff_ffff) as u32
}

/// The upper 32 bits.
pub fn high_word(value: u64) -> u32
    ensures { result ≡ high_half value }
{
    (value >> 32) as u32
}

/// The number of these two words.
pub fn join(low: u32, high: u32) -> u64
    ensures { result ≡ joined low high }
{
    u64::from(low) + (u64::from(high) << 32)
}

/// Reads the data words as one number.
pub fn read_double<D: Dmi>(link: &mut D) -> Result<u64, DmiFault>
    requires callable { CanCall (D.seen link.old) }
    ensures read { IfOk result (λ value. DoubleRead value (told (D.seen link.old)) (told (D.seen link.new))) }
    ensures broke { IfErr result (Breaks (BrokeIn (Among DoubleReads)) (D.seen link.old) (D.seen link.new)) }
    ensures rises { Within 2 (D.seen link.old) (D.seen link.new) }
    ensures never { IfErr result (FailsByWire (D.seen link.old)) }
    ensures keeps { Keeps Some (D.seen link.old) (D.seen link.new) result }
{
    let mut words = ArrayVec::new();
    let operations = [DmiOp::Read(Data0::ADDRESS), DmiOp::Read(Data1::ADDRESS)];
    link.many(&operations, &mut words)?;
    Ok(join(words[0], words[1]))
}
