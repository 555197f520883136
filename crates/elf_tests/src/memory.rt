//! What memory holds behind a loading over the system bus. The expected words are the bytes of the file and of the image beneath, lowest first.

ghost use Rattle.std.specs.Prelude.{IfSome, IsSome, OnOk};
ghost use Rattle.debug_model.specs.Kept.{CanCall};
ghost use Rattle.debug_model.specs.Loaded.{AsLoaded};
ghost use Rattle.debug_model.specs.Told.{IsAsLoaded, IsReady};

use crate::files::{OVERLAPPING, SMALL, moved};
use chip_core::{Bench, BenchWire};
use debug_model::{Dmi, Schedule};
use elf_load::{ElfFault, load_elf, read_elf};
use hart_debug::Start;
use probe_access::{AccessFault, bus_load, is_aligned};
use probe_dmi::Link;
use probe_run::{ConnectFault, connect};
use probe_scan::Scanner;
use rv_model::Size;
use std::process::Abort;
use std::rt::HostRuntime;
use std::test::Fail;
use sys_events::SeedSchedule;

/// What the chip holds before.
const IMAGE: [u8; 32] = [0xaa; 32];

/// The bytes of the smallest RAM.
const RAM_LEAST: u64 = 65_536;

/// The bytes of a piece.
const PIECE: usize = 256;

/// Why nothing was loaded.
#[derive(Clone, Copy, Debug, PartialEq, Eq)]
pub enum Fault {
    /// The opening failed.
    Connect(ConnectFault),
    /// The file was refused.
    Elf(ElfFault),
    /// An access failed.
    Access(AccessFault),
    /// An address isn't a multiple of 8.
    Misaligned,
}

impl From<ConnectFault> for Fault {
    fn from(fault: ConnectFault) -> Self {
        Fault::Connect(fault)
    }
}

impl From<ElfFault> for Fault {
    fn from(fault: ElfFault) -> Self {
        Fault::Elf(fault)
    }
}

impl From<AccessFault> for Fault {
    fn from(fault: AccessFault) -> Self {
        Fault::Access(fault)
    }
}

/// What was loaded.
#[derive(Clone, Copy, Debug, PartialEq, Eq)]
pub enum Loaded {
    /// All segments, with so many bytes in memory.
    All(u64),
    /// The elements in front of the one at this address, which memory refused.
    UpTo(u64),
}

/// Loads a file.
pub fn try_load<D: Dmi>(link: &mut D, file: &[u8]) -> Result<Loaded, Fault>
    requires callable { CanCall (D.seen link.old) }
    requires ready { IsReady (D.seen link.old).far }
    ensures callable { OnOk result (CanCall (D.seen link.new)) }
    ensures ready { OnOk result (IsReady (D.seen link.new).far) }
{
    let elf = read_elf(file)?;
    match load_elf(link, &elf, file) {
        Ok(size) => Ok(Loaded::All(size)),
        Err(AccessFault::Memory(address)) => Ok(Loaded::UpTo(address)),
        Err(fault) => Err(Fault::Access(fault)),
    }
}

/// The eight bytes at an address.
fn word_at<D: Dmi>(link: &mut D, address: u64) -> Result<u64, Fault>
    requires callable { CanCall (D.seen link.old) }
    requires ready { IsReady (D.seen link.old).far }
    ensures callable { OnOk result (CanCall (D.seen link.new)) }
    ensures ready { OnOk result (IsReady (D.seen link.new).far) }
{
    if !is_aligned(Size::B8, address) {
        return Err(Fault::Misaligned);
    }
    Ok(bus_load(link, Size::B8, address)?)
}

/// What was loaded of a file, and three words behind that.
fn load_and_look<D: Dmi>(
    link: &mut D,
    file: &[u8],
    places: [u64; 3],
) -> Result<(Loaded, [u64; 3]), Fault>
    requires callable { CanCall (D.seen link.old) }
    requires loaded { IsAsLoaded (D.seen link.old).far }
{
    let _target = connect(link)?;
    let loaded = try_load(link, file)?;
    let [first, second, third] = places;
    let words = [
        word_at(link, first)?,
        word_at(link, second)?,
        word_at(link, third)?,
    ];
    Ok((loaded, words))
}

/// The same over a chip on its bench.
fn over_bench<Q: Schedule>(
    bench: &mut Bench<Q>,
    file: &[u8],
    places: [u64; 3],
) -> Result<(Loaded, [u64; 3]), Fault>
    requires loaded { IsSome bench.old }
    requires fresh { IfSome bench.old AsLoaded }
{
    let mut link = Link::new(Scanner::new(BenchWire::new(bench, PIECE)));
    load_and_look(&mut link, file, places)
}

/// A chip that holds the image loads the file so, and these words stand at these places behind that.
fn check(
    rt: &impl Abort,
    bench: &mut Bench<SeedSchedule>,
    file: &[u8],
    loaded: Loaded,
    words: [(u64, u64); 3],
)
    requires loaded { IsSome bench.old }
    requires fresh { IfSome bench.old AsLoaded }
{
    let [(a, x), (b, y), (c, z)] = words;
    let seen = over_bench(bench, file, [a, b, c]);
    assert_eq!(rt; seen, Ok((loaded, [x, y, z])));
}

#[test]
fn the_bytes_of_the_file_and_zeros_behind_them_are_stored(rt: HostRuntime) -> Result<(), Fail> {
    let mut bench = Bench::blank();
    let schedule = SeedSchedule::new(1, 1, 1);
    bench.load(rt.alloc(), &IMAGE, 1, RAM_LEAST, Start::Halted, schedule)?;
    let words = [
        (0x8000_0000, 0x0012_8293_0050_0293),
        (0x8000_0008, 0x0000_0000_ffdf_f06f),
        (0x8000_0010, 0xaaaa_aaaa_aaaa_aaaa),
    ];
    check(&rt, &mut bench, &SMALL, Loaded::All(16), words);
    Ok(())
}

#[test]
fn a_segment_at_an_odd_address_leaves_the_bytes_beside_it(rt: HostRuntime) -> Result<(), Fail> {
    let mut bench = Bench::blank();
    let schedule = SeedSchedule::new(1, 1, 1);
    bench.load(rt.alloc(), &IMAGE, 1, RAM_LEAST, Start::Halted, schedule)?;
    let file = moved([0x05, 0, 0, 0x80, 0, 0, 0, 0], 14);
    let words = [
        (0x8000_0000, 0x5002_93aa_aaaa_aaaa),
        (0x8000_0008, 0xdff0_6f00_1282_9300),
        (0x8000_0010, 0xaaaa_aaaa_aa00_00ff),
    ];
    check(&rt, &mut bench, &file, Loaded::All(14), words);
    Ok(())
}

#[test]
fn a_segment_outside_memory_is_refused_at_its_address(rt: HostRuntime) -> Result<(), Fail> {
    let mut bench = Bench::blank();
    let schedule = SeedSchedule::new(1, 1, 1);
    bench.load(rt.alloc(), &IMAGE, 1, RAM_LEAST, Start::Halted, schedule)?;
    let file = moved([0, 0, 0, 0x90, 0, 0, 0, 0], 16);
    let words = [
        (0x8000_0000, 0xaaaa_aaaa_aaaa_aaaa),
        (0x8000_0008, 0xaaaa_aaaa_aaaa_aaaa),
        (0x8000_0010, 0xaaaa_aaaa_aaaa_aaaa),
    ];
    check(&rt, &mut bench, &file, Loaded::UpTo(0x9000_0000), words);
    Ok(())
}

#[test]
fn the_elements_in_front_of_a_refused_one_are_stored(rt: HostRuntime) -> Result<(), Fail> {
    let mut bench = Bench::blank();
    let schedule = SeedSchedule::new(1, 1, 1);
    bench.load(rt.alloc(), &IMAGE, 1, RAM_LEAST, Start::Halted, schedule)?;
    let file = moved([0xf8, 0xff, 0, 0x80, 0, 0, 0, 0], 16);
    let words = [
        (0x8000_0000, 0xaaaa_aaaa_aaaa_aaaa),
        (0x8000_fff0, 0),
        (0x8000_fff8, 0x0012_8293_0050_0293),
    ];
    check(&rt, &mut bench, &file, Loaded::UpTo(0x8001_0000), words);
    Ok(())
}

#[test]
fn of_segments_that_overlap_the_later_one_stands(rt: HostRuntime) -> Result<(), Fail> {
    let mut bench = Bench::blank();
    let schedule = SeedSchedule::new(1, 1, 1);
    bench.load(rt.alloc(), &IMAGE, 1, RAM_LEAST, Start::Halted, schedule)?;
    let words = [
        (0x8000_0000, 0x5555_0066_6600_5555),
        (0x8000_0008, 0xaaaa_aaaa_aaaa_aaaa),
        (0x8000_0010, 0xaaaa_aaaa_aaaa_aaaa),
    ];
    check(&rt, &mut bench, &OVERLAPPING, Loaded::All(14), words);
    Ok(())
}
