//! What loading a file over the system bus costs in rises of TCK. At busy 1 no capture finds the transport busy: a scan of `dmi` takes 46 rises, and each call
//! of at most 128 operations one scan more than operations.

ghost use Rattle.std.specs.Prelude.{◌≤◌, IfSome, IsSome, OnOk};
ghost use Rattle.debug_model.specs.Kept.{CanCall};
ghost use Rattle.debug_model.specs.Loaded.{AsLoaded};

use crate::files::SMALL;
use crate::memory::{Fault, Loaded, try_load};
use chip_core::{Bench, BenchWire};
use debug_model::Schedule;
use hart_debug::Start;
use probe_dmi::Link;
use probe_run::connect;
use probe_scan::Scanner;
use std::alloc::{AllocError, Global};
use std::process::Abort;
use std::rt::HostRuntime;
use std::test::Fail;
use std::vec::Vec;
use sys_events::SeedSchedule;

/// The bytes of the smallest RAM.
const RAM_LEAST: u64 = 65_536;

/// The bytes of a piece.
const PIECE: usize = 256;

/// The words of 8 bytes of the long file.
const WORDS: u64 = 8_192;

/// Each word has another upper half than the one in front, so that no store spares one.
const WORD_STEP: u64 = 0x0000_0001_0000_0003;

/// The small file with one segment of so many words of 8 bytes.
fn of_words(alloc: Global, words: u64) -> Result<Vec<u8>, AllocError> {
    let mut file = SMALL[..96].to_vec(alloc)?;
    let size = words.wrapping_mul(8).to_le_bytes();
    file.extend_from_slice(&size)?;
    file.extend_from_slice(&size)?;
    file.extend_from_slice(&SMALL[112..120])?;
    let mut word: u64 = 1;
    for _ in 0..words {
        file.extend_from_slice(&word.to_le_bytes())?;
        word = word.wrapping_add(WORD_STEP);
    }
    Ok(file)
}

/// Opens a chip on its bench and loads a file.
fn load_over<Q: Schedule>(bench: &mut Bench<Q>, file: &[u8]) -> Result<Loaded, Fault>
    requires loaded { IsSome bench.old }
    requires fresh { IfSome bench.old AsLoaded }
{
    let mut link = Link::paced(Scanner::new(BenchWire::new(bench, PIECE)));
    let _target = connect(&mut link)?;
    try_load(&mut link, file)
}

/// The rises of TCK of an opening and the loading of so many words of 8 bytes.
fn rises(rt: &impl Abort, alloc: Global, busy: u8, words: u64) -> Result<u64, Fail>
    requires busy { (1 ≤ busy) × (busy ≤ 32) }
{
    let file = of_words(alloc, words)?;
    let mut bench = Bench::blank();
    let schedule = SeedSchedule::new(7, busy, 1);
    bench.load(alloc, &[], 1, RAM_LEAST, Start::Halted, schedule)?;
    assert_eq!(rt;
        load_over(&mut bench, &file),
        Ok(Loaded::All(words.wrapping_mul(8)))
    );
    Ok(bench.counts().rounds)
}

#[test]
fn eight_bytes_of_a_file_cost_two_scans(rt: HostRuntime) -> Result<(), Fail> {
    let long = rises(&rt, rt.alloc(), 1, WORDS)?;
    let none = rises(&rt, rt.alloc(), 1, 0)?;
    assert!(rt; long.wrapping_sub(none) <= 110 * WORDS);
    Ok(())
}
