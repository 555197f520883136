//! Storing a file's elements over a link.

ghost use Rattle.std.specs.Prelude.{◌≡◌, ◌<◌, ◌≤◌, ◌*◌, ◌^◌, IfErr, IfOk, OnOk};
ghost use Rattle.debug_model.specs.Told.{IsReady};
ghost use Rattle.debug_model.specs.Kept.{CanCall};
ghost use Rattle.probe_access.specs.Accesses.{IfMemory};
ghost use Rattle.probe_access.specs.Cuts.{IfCut, Leaves};
ghost use Rattle.probe_run.specs.Told.{Fails, OnChip, told};
ghost use Rattle.debug_model.specs.Rises.{Within};
ghost use Rattle.probe_access.specs.Never.{NeverLost};
ghost use Rattle.elf_load.specs.Elf.{ReadsAs, elements, elements_most, memory_size};
ghost use Rattle.elf_load.specs.Fields.{segments_of};
ghost use Rattle.elf_load.specs.Runs.{calls_most, load_rises};
ghost use Rattle.elf_load.specs.Stores.{MadeAll, MadeUpTo, StoredAt, StoresCut, StoresKeep, StoresLeft};

use crate::file::{Elf, Segment};
use crate::run::run_at;
use debug_model::Dmi;
use probe_access::{AccessFault, bus_store_values};

/// How many bytes the segments have in memory together.
fn bytes_in_memory(segments: &[Segment]) -> u64
    requires { memory_size segments.now < 2 ^ 64 }
    ensures { result ≡ memory_size segments.now }
{
    segments.iter().map(|segment| segment.in_memory).sum()
}

/// Stores the segments of a file that was read, over any link to a chip, by the system bus: one access for each element, in order, up to and with the first
/// that lies outside memory; and one call for each run of at most 512 elements of one size. Answers how many bytes that is: at most 131,072. Behind `Memory`
/// of an element those in front of it are stored (System V ABI, "Program Header"; RISC-V Debug Specification 1.0, "System Bus Access").
pub fn load_elf<D: Dmi>(link: &mut D, elf: &Elf, file: &[u8]) -> Result<u64, AccessFault>
    requires callable { CanCall (D.seen link.old) }
    requires ready { IsReady (D.seen link.old).far }
    requires read { ReadsAs file.now elf.now }
    ensures size { IfOk result (λ size. size ≡ memory_size elf.now.segments.items) }
    ensures most { IfOk result (λ size. size ≤ 8 * elements_most) }
    ensures stored { OnOk result (OnChip (StoredAt (elements file.now)) (D.seen link.old) (D.seen link.new)) }
    ensures made { OnOk result
        (MadeAll (elements file.now) (calls_most (segments_of file.now)) (told (D.seen link.old)) (told (D.seen link.new))) }
    ensures left { IfErr result (StoresLeft (elements file.now) (D.seen link.old).far (D.seen link.new).far) }
    ensures failed { IfErr result (Fails (MadeUpTo (elements file.now) (calls_most (segments_of file.now))) (D.seen link.old) (D.seen link.new)) }
    ensures cut { IfErr result (IfCut (Leaves (StoresCut (elements file.now)) (D.seen link.old).far (D.seen link.new).far)) }
    ensures ready { OnOk result (IsReady (D.seen link.new).far) }
    ensures ready_again { IfErr result (IfMemory (IsReady (D.seen link.new).far)) }
    ensures rises { Within (load_rises file.now) (D.seen link.old) (D.seen link.new) }
    ensures never { IfErr result (NeverLost (D.seen link.old)) }
    ensures keeps { StoresKeep (elements file.now) (D.seen link.old) (D.seen link.new) result }
{
    let segments = elf.segments.as_slice();
    'segments: for segment in segments {
        let mut done = 0;
        'runs: while done < segment.in_memory {
            let run = run_at(segment, done, file);
            bus_store_values(link, run.size, run.address, &run.values)?;
            done += run.values.len() as u64 * u64::from(run.size.count());
        }
    }
    Ok(bytes_in_memory(segments))
}
