//! What is read and judged before a session, and before a chip is served.

ghost use Rattle.std.specs.Prelude.{◌≡◌, ◌≤◌, IfOk, IfErr, IfSome, OnErr, OnOk, Some};
ghost use Rattle.chip_core.specs.Loads.{IsFirst};
ghost use Rattle.debug_model.specs.Loaded.{AsLoaded};
ghost use Rattle.jt_base.specs.Files.{Holds, asked_more};
ghost use Rattle.jtag_run.specs.Ran.{Prepared};
ghost use Rattle.jtag_run.specs.First.{CanLoad, first_chip};
ghost use Rattle.jtag_run.specs.Refusal.{ChipCause, HoldsScript, ImageFileCause, JobCause, LoadCause, ScriptFileCause, asked_both, asked_image};
ghost use Rattle.jtag_run.specs.ServedChip.{PreparedChip};
ghost use Rattle.jtag_run.specs.Jobs.{both_value, chip_value, plan_of, start_of};
ghost use Rattle.command_line.specs.WrittenJob.{OptionsInRange};

use crate::refusal::Refusal;
use crate::script_text::{ScriptRefusal, read_script};
use crate::words::{BothJob, ChipJob};
use chip_core::{Bench, LoadFault};
use command_line::ChipOptions;
use debug_model::{Script, ScriptError, ScriptFault};
use hart_debug::Start;
use jt_base::{FileFault, Files};
use script_lang::MOST_TEXT;
use std::alloc::Global;
use sys_events::{MOST_HARTS, SeedSchedule};

/// The most bytes of an image's file, and of a recording's.
const BYTES_MOST: usize = 16_777_216;

/// Reads and judges the script of this name.
pub fn load_script<'a, F: Files>(
    alloc: Global,
    files: &mut F,
    name: &'a str,
) -> Result<Script, Refusal<'a>>
    ensures commands { IfOk result (HoldsScript (F.held files.old) name.now) }
    ensures cause { IfErr result (ScriptFileCause name.now
        (record { held = F.held files.old; asked = F.asked files.old; faults = F.fault_count files.old })
        (record { held = F.held files.new; asked = F.asked files.new; faults = F.fault_count files.new })) }
    ensures held { F.held files.new ≡ F.held files.old }
    ensures asked { OnOk result (F.asked files.new ≡ asked_more name.now (F.asked files.old)) }
    ensures later { F.fault_count files.old ≤ F.fault_count files.new }
{
    let text = match files.read(alloc, name, MOST_TEXT) {
        Ok(text) => text,
        Err(FileFault::Failed) => return Err(Refusal::File(name)),
        Err(FileFault::TooLong) => {
            return Err(Refusal::Script(ScriptError {
                line: 0,
                fault: ScriptFault::TooManyLines,
            }));
        }
        Err(FileFault::NoMemory) => return Err(Refusal::OutOfMemory),
    };
    match read_script(alloc, &text) {
        Ok(script) => Ok(script),
        Err(ScriptRefusal::Refused(error)) => Err(Refusal::Script(error)),
        Err(ScriptRefusal::OutOfMemory) => Err(Refusal::OutOfMemory),
    }
}

/// Reads the image, or the file of a recording, of this name. One that is too long is refused as an image.
pub fn read_bytes<'a, F: Files>(
    alloc: Global,
    files: &mut F,
    name: &'a str,
) -> Result<Vec<u8>, Refusal<'a>>
    ensures image { IfOk result (λ image. Holds (F.held files.old) name.now image.items) }
    ensures cause { IfErr result (ImageFileCause name.now
        (record { held = F.held files.old; asked = F.asked files.old; faults = F.fault_count files.old })
        (record { held = F.held files.new; asked = F.asked files.new; faults = F.fault_count files.new })) }
    ensures held { F.held files.new ≡ F.held files.old }
    ensures asked { OnOk result (F.asked files.new ≡ asked_more name.now (F.asked files.old)) }
    ensures later { F.fault_count files.old ≤ F.fault_count files.new }
{
    match files.read(alloc, name, BYTES_MOST) {
        Ok(image) => Ok(image),
        Err(FileFault::Failed) => Err(Refusal::File(name)),
        Err(FileFault::TooLong) => Err(Refusal::Image(LoadFault::TooLong)),
        Err(FileFault::NoMemory) => Err(Refusal::OutOfMemory),
    }
}

/// The schedule of a chip with these options. The harts of another number than one to four are refused by the load.
fn schedule_of(options: &ChipOptions) -> SeedSchedule
    requires options { OptionsInRange options.now }
    ensures plan { result ≡ plan_of options.now }
    ensures first { IsFirst result }
{
    let harts = if (1..=u64::from(MOST_HARTS)).contains(&options.harts) {
        options.harts as u8
    } else {
        1
    };
    SeedSchedule::new(options.seed, options.busy, harts)
}

/// How the harts of a chip with these options stand at its start.
fn start_of(halted: bool) -> Start
    ensures { result ≡ start_of halted }
{
    if halted {
        Start::Halted
    } else {
        Start::Running
    }
}

/// Loads the image into a chip with these options.
pub fn load_chip(
    alloc: Global,
    bench: &mut Bench<SeedSchedule>,
    image: &[u8],
    options: &ChipOptions,
) -> Result<(), Refusal<'static>>
    requires options { OptionsInRange options.now }
    ensures chip { OnOk result (bench.new ≡ Some (first_chip options.now image.now)) }
    ensures loads { OnOk result (CanLoad options.now image.now) }
    ensures as_loaded { OnOk result (IfSome bench.new AsLoaded) }
    ensures cause { IfErr result (LoadCause image.now options.now) }
    ensures kept { OnErr result (bench.new ≡ bench.old) }
{
    let loaded = bench.load_as(
        alloc,
        image,
        options.harts,
        options.ram,
        start_of(options.halted),
        schedule_of(options),
        options.events,
        options.version,
    );
    match loaded {
        Ok(()) => Ok(()),
        Err(LoadFault::NoMemory) => Err(Refusal::OutOfMemory),
        Err(fault) => Err(Refusal::Image(fault)),
    }
}

/// Reads and judges the script, reads the image and loads it, in this order. The first refusal ends it, and no chip is loaded then.
pub fn prepare<'a, F: Files>(
    alloc: Global,
    job: &'a BothJob,
    files: &mut F,
    bench: &mut Bench<SeedSchedule>,
) -> Result<Script, Refusal<'a>>
    requires options { OptionsInRange job.now.options }
    ensures prepared { IfOk result (λ script. Prepared (both_value job.now) (F.held files.old) script bench.new) }
    ensures asked { OnOk result (F.asked files.new
        ≡ asked_both (both_value job.now)
        (record { held = F.held files.old; asked = F.asked files.old; faults = F.fault_count files.old })) }
    ensures cause { IfErr result (JobCause (both_value job.now)
        (record { held = F.held files.old; asked = F.asked files.old; faults = F.fault_count files.old })
        (record { held = F.held files.new; asked = F.asked files.new; faults = F.fault_count files.new })) }
    ensures kept { OnErr result (bench.new ≡ bench.old) }
{
    let script = load_script(alloc, files, job.script.as_str())?;
    let image = read_bytes(alloc, files, job.image.as_str())?;
    load_chip(alloc, bench, &image, &job.options)?;
    Ok(script)
}

/// Reads the image of a chip that is to be served, and loads it. The first refusal ends it, and no chip is loaded then.
pub fn prepare_chip<'a, F: Files>(
    alloc: Global,
    job: &'a ChipJob,
    files: &mut F,
    bench: &mut Bench<SeedSchedule>,
) -> Result<(), Refusal<'a>>
    requires options { OptionsInRange job.now.options }
    ensures prepared { OnOk result (PreparedChip (chip_value job.now) (F.held files.old) bench.new) }
    ensures asked { OnOk result (F.asked files.new
        ≡ asked_image (chip_value job.now)
        (record { held = F.held files.old; asked = F.asked files.old; faults = F.fault_count files.old })) }
    ensures cause { IfErr result (ChipCause (chip_value job.now)
        (record { held = F.held files.old; asked = F.asked files.old; faults = F.fault_count files.old })
        (record { held = F.held files.new; asked = F.asked files.new; faults = F.fault_count files.new })) }
    ensures kept { OnErr result (bench.new ≡ bench.old) }
{
    let bytes = read_bytes(alloc, files, job.image.as_str())?;
    load_chip(alloc, bench, &bytes, &job.options)?;
    Ok(())
}
