//! Loading a bench.

ghost use Rattle.std.specs.Prelude.{◌≡◌, ◌≤◌, ◌↔◌, Err, IfOk, IfSome, OnErr, OnOk, Some, length, vec_len};
ghost use Rattle.rv_model.specs.Memory.{IsRamSize, hart_places};
ghost use Rattle.debug_model.specs.Loaded.{AsLoaded, Fits, RightHarts, RightLimit, loaded_harts, loaded_memory, usual_points};
ghost use Rattle.hart_debug.specs.Changes.{start_cause};
ghost use Rattle.chip_core.specs.Loads.{IsFirst, loaded, loaded_as, loaded_with};
ghost use Rattle.debug_model.specs.Offered.{TurnsOffered};

use super::Bench;
use crate::chip::Chip;
use crate::load_fault::LoadFault;
use crate::system::System;
use debug_model::{POINTS_USUAL, Schedule};
use hart_debug::{DebugHart, Start};
use rv_mem::{Ram, RamFault};
use rv_model::Version;
use std::alloc::{AllocError, Global};

/// The most harts.
const MOST_HARTS: u64 = 4;

/// So many harts of a release as a reset leaves them, numbered from 0.
fn make_harts(
    alloc: Global,
    version: Version,
    count: u8,
    start: Start,
) -> Result<Vec<DebugHart>, AllocError>
    requires { count ≤ hart_places }
    ensures harts { IfOk result (λ harts. harts.items ≡ loaded_harts version count (start_cause start)) }
    ensures few { IfOk result (λ harts. vec_len harts ≤ hart_places) }
{
    let mut harts = Vec::new(alloc);
    for id in 0..count {
        harts.push(DebugHart::of_version(id, start, version))?;
    }
    Ok(harts)
}

/// RAM of so many bytes with the image at its start and zeros behind it, and the MSIP words of so many harts, from 1 to 4, all of them 0.
fn make_ram(alloc: Global, image: &[u8], size: u64, harts: u8) -> Result<Ram, LoadFault>
    requires some { 1 ≤ harts }
    requires most { harts ≤ 4 }
    ensures ram { IfOk result (λ ram. ram ≡ loaded_memory image.now size harts) }
    ensures right { OnOk result (IsRamSize size × Fits image.now size) }
    ensures harts { ¬ (result ≡ Err LoadFault.BadHarts) }
    ensures bad_size { (result ≡ Err LoadFault.BadSize) ↔ ¬ IsRamSize size }
    ensures too_long { (result ≡ Err LoadFault.TooLong) ↔ (IsRamSize size × ¬ Fits image.now size) }
{
    let made = Ram::with_msip(alloc, size, harts);
    if let Err(RamFault::BadSize) = made {
        return Err(LoadFault::BadSize);
    }
    if image.len() as u64 > size {
        return Err(LoadFault::TooLong);
    }
    match made {
        Ok(ram) => {
            let mut ram = ram;
            ram.fill(image);
            Ok(ram)
        }
        Err(_) => Err(LoadFault::NoMemory),
    }
}

impl<Q: Schedule> Bench<Q> {
    /// Puts a chip onto the bench in the place of what was there: the image at address 0x80000000 and zeros behind it, one to four harts
    /// that run or are halted with an MSIP word of 0 each, an empty journal, and the TAP in Test-Logic-Reset. RAM has a multiple of 4,096 bytes, from 65,536 to
    /// 16,777,216. The chip follows release 1.0, and its limit of points is the usual one. After a refusal the bench is as before.
    pub fn load(
        &mut self,
        alloc: Global,
        image: &[u8],
        harts: u64,
        ram: u64,
        start: Start,
        schedule: Q,
    ) -> Result<(), LoadFault>
        ensures chip { OnOk result (self.new ≡ Some (loaded image.now harts ram start (Q.plan schedule))) }
        ensures as_loaded { OnOk result (IsFirst (Q.plan schedule) → IfSome self.new AsLoaded) }
        ensures turns { OnOk result (IfSome self.new (λ l. TurnsOffered (Q.plan schedule) l.chip)) }
        ensures kept { OnErr result (self.new ≡ self.old) }
        ensures right { OnOk result (RightHarts harts × (IsRamSize ram × Fits image.now ram)) }
        ensures bad_harts { (result ≡ Err LoadFault.BadHarts) ↔ ¬ RightHarts harts }
        ensures bad_size { (result ≡ Err LoadFault.BadSize) ↔ (RightHarts harts × ¬ IsRamSize ram) }
        ensures too_long { (result ≡ Err LoadFault.TooLong) ↔ (RightHarts harts × (IsRamSize ram × ¬ Fits image.now ram)) }
    {
        self.load_with_limit(alloc, image, harts, ram, start, schedule, POINTS_USUAL)
    }

    /// The same with a chip of this release.
    pub fn load_version(
        &mut self,
        alloc: Global,
        image: &[u8],
        harts: u64,
        ram: u64,
        start: Start,
        schedule: Q,
        version: Version,
    ) -> Result<(), LoadFault>
        ensures chip { OnOk result (self.new ≡ Some (loaded_as version image.now harts ram start (Q.plan schedule) usual_points)) }
        ensures as_loaded { OnOk result (IsFirst (Q.plan schedule) → IfSome self.new AsLoaded) }
        ensures turns { OnOk result (IfSome self.new (λ l. TurnsOffered (Q.plan schedule) l.chip)) }
        ensures kept { OnErr result (self.new ≡ self.old) }
        ensures right { OnOk result (RightHarts harts × (IsRamSize ram × Fits image.now ram)) }
        ensures bad_harts { (result ≡ Err LoadFault.BadHarts) ↔ ¬ RightHarts harts }
        ensures bad_size { (result ≡ Err LoadFault.BadSize) ↔ (RightHarts harts × ¬ IsRamSize ram) }
        ensures too_long { (result ≡ Err LoadFault.TooLong) ↔ (RightHarts harts × (IsRamSize ram × ¬ Fits image.now ram)) }
    {
        self.load_as(
            alloc,
            image,
            harts,
            ram,
            start,
            schedule,
            POINTS_USUAL,
            version,
        )
    }

    /// A chip of release 1.0 with a limit of points, from 1 to 2^62: it ends at the first rise of TCK that finds more points than this in its journal.
    pub fn load_with_limit(
        &mut self,
        alloc: Global,
        image: &[u8],
        harts: u64,
        ram: u64,
        start: Start,
        schedule: Q,
        most_points: u64,
    ) -> Result<(), LoadFault>
        requires limit { RightLimit most_points }
        ensures chip { OnOk result (self.new ≡ Some (loaded_with image.now harts ram start (Q.plan schedule) most_points)) }
        ensures as_loaded { OnOk result (IsFirst (Q.plan schedule) → IfSome self.new AsLoaded) }
        ensures turns { OnOk result (IfSome self.new (λ l. TurnsOffered (Q.plan schedule) l.chip)) }
        ensures kept { OnErr result (self.new ≡ self.old) }
        ensures right { OnOk result (RightHarts harts × (IsRamSize ram × Fits image.now ram)) }
        ensures bad_harts { (result ≡ Err LoadFault.BadHarts) ↔ ¬ RightHarts harts }
        ensures bad_size { (result ≡ Err LoadFault.BadSize) ↔ (RightHarts harts × ¬ IsRamSize ram) }
        ensures too_long { (result ≡ Err LoadFault.TooLong) ↔ (RightHarts harts × (IsRamSize ram × ¬ Fits image.now ram)) }
    {
        self.load_as(
            alloc,
            image,
            harts,
            ram,
            start,
            schedule,
            most_points,
            Version::V10,
        )
    }

    /// A chip of this release with this limit of points, from 1 to 2^62.
    pub fn load_as(
        &mut self,
        alloc: Global,
        image: &[u8],
        harts: u64,
        ram: u64,
        start: Start,
        schedule: Q,
        most_points: u64,
        version: Version,
    ) -> Result<(), LoadFault>
        requires limit { RightLimit most_points }
        ensures chip { OnOk result (self.new ≡ Some (loaded_as version image.now harts ram start (Q.plan schedule) most_points)) }
        ensures as_loaded { OnOk result (IsFirst (Q.plan schedule) → IfSome self.new AsLoaded) }
        ensures turns { OnOk result (IfSome self.new (λ l. TurnsOffered (Q.plan schedule) l.chip)) }
        ensures kept { OnErr result (self.new ≡ self.old) }
        ensures right { OnOk result (RightHarts harts × (IsRamSize ram × Fits image.now ram)) }
        ensures bad_harts { (result ≡ Err LoadFault.BadHarts) ↔ ¬ RightHarts harts }
        ensures bad_size { (result ≡ Err LoadFault.BadSize) ↔ (RightHarts harts × ¬ IsRamSize ram) }
        ensures too_long { (result ≡ Err LoadFault.TooLong) ↔ (RightHarts harts × (IsRamSize ram × ¬ Fits image.now ram)) }
    {
        if harts < 1 || harts > MOST_HARTS {
            return Err(LoadFault::BadHarts);
        }
        let memory = make_ram(alloc, image, ram, harts as u8)?;
        let Ok(made) = make_harts(alloc, version, harts as u8, start) else {
            return Err(LoadFault::NoMemory);
        };
        let system = System::new(version, made, memory, most_points);
        self.chip = Some(Chip::new(system, schedule));
        Ok(())
    }
}
