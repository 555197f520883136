//! Sessions that load a file first, over a chip on its bench. The expected bytes are worked out from the file, the image beneath, and docs/SCRIPT.md.

ghost use Rattle.std.specs.Prelude.{◌≤◌, ◌^◌, IfOk, IfSome, IsSome};
ghost use Rattle.debug_model.specs.Loaded.{AsLoaded};

use crate::files::{OVERLAPPING, SMALL, moved};
use chip_core::{Bench, BenchWire};
use debug_model::Schedule;
use elf_load::read_elf;
use elf_session::{run_elf, run_elf_session};
use hart_debug::Start;
use jt_base::MemorySink;
use probe_dmi::Link;
use probe_scan::Scanner;
use probe_session::Ended;
use rv_model::Size;
use script_lang::parse;
use std::alloc::Global;
use std::process::Abort;
use std::rt::HostRuntime;
use std::test::Fail;
use sys_events::SeedSchedule;

/// What the chip holds before.
const IMAGE: [u8; 32] = [0xaa; 32];

/// The bytes of the smallest RAM.
const RAM_LEAST: u64 = 65_536;

/// The bytes of a piece.
const PIECE: usize = 256;

/// Room for everything that a session here prints.
const AMPLE: usize = 65_536;

/// A chip with one hart that holds the image.
fn chip(alloc: Global, start: Start) -> Result<Bench<SeedSchedule>, Fail>
    ensures loaded { IfOk result IsSome }
    ensures fresh { IfOk result (λ bench. IfSome bench AsLoaded) }
{
    let mut bench = Bench::blank();
    bench.load(
        alloc,
        &IMAGE,
        1,
        RAM_LEAST,
        start,
        SeedSchedule::new(1, 1, 1),
    )?;
    Ok(bench)
}

/// One session on the chip of a bench, of which nothing is known here but that it ends.
fn run_on<Q: Schedule>(
    bench: &mut Bench<Q>,
    alloc: Global,
    file: &[u8],
    script: &[u8],
    out: &mut MemorySink,
) -> Result<Ended, Fail>
    requires loaded { IsSome bench.old }
    requires fresh { IfSome bench.old AsLoaded }
{
    let elf = read_elf(file)?;
    let commands = parse(alloc, script)?;
    let mut link = Link::new(Scanner::new(BenchWire::new(bench, PIECE)));
    Ok(run_elf(&mut link, &elf, file, &commands, out))
}

/// The eight bytes at an address, where memory has them.
fn word_at<Q: Schedule>(bench: &Bench<Q>, address: u64) -> Option<u64> {
    if !bench.is_loaded() {
        return None;
    }
    bench.ram().load(address, Size::B8).ok()
}

/// A session on a chip that starts so ends so, and has printed this.
fn check(
    rt: &impl Abort,
    alloc: Global,
    start: Start,
    file: &[u8],
    script: &[u8],
    ended: Ended,
    printed: &[u8],
) -> Result<Bench<SeedSchedule>, Fail> {
    let mut bench = chip(alloc, start)?;
    let mut out = MemorySink::new(alloc, AMPLE, Vec::new(alloc))?;
    let end = run_on(&mut bench, alloc, file, script, &mut out)?;
    assert_eq!(rt; end, ended);
    assert_eq!(rt; out.bytes(), printed);
    Ok(bench)
}

#[test]
fn the_program_is_loaded_and_its_hart_stands_at_the_entry(rt: HostRuntime) -> Result<(), Fail> {
    let alloc = rt.alloc();
    let script = b"reg pc\nread 4 0x80000000\ndump 0x8000000c 4\n";
    let printed =
        b"loaded 16\npc 0x0000000080000004\n0x0000000080000000 0x00500293\n0x000000008000000c 00000000\n";
    let bench = check(
        &rt,
        alloc,
        Start::Halted,
        &SMALL,
        script,
        Ended::Clean,
        printed,
    )?;
    assert_eq!(rt; word_at(&bench, 0x8000_0010), Some(0xaaaa_aaaa_aaaa_aaaa));
    Ok(())
}

#[test]
fn the_program_runs_from_its_entry(rt: HostRuntime) -> Result<(), Fail> {
    let alloc = rt.alloc();
    let script = b"break 0x80000008\nresume\nwait\nreg x5\n";
    let printed =
        b"loaded 16\nslot 0 break 0x0000000080000008\nresumed\nhalted at 0x0000000080000008 by trigger 0\nx5 0x0000000000000001\n";
    check(
        &rt,
        alloc,
        Start::Halted,
        &SMALL,
        script,
        Ended::Clean,
        printed,
    )?;
    Ok(())
}

#[test]
fn nothing_is_stored_where_the_hart_runs(rt: HostRuntime) -> Result<(), Fail> {
    let alloc = rt.alloc();
    let bench = check(
        &rt,
        alloc,
        Start::Running,
        &SMALL,
        b"halt\n",
        Ended::WithErrors,
        b"error: hart 0 is running\n",
    )?;
    assert_eq!(rt; bench.journal().accesses(), 0);
    assert_eq!(rt; bench.journal().looks(), 2);
    assert_eq!(rt; word_at(&bench, 0x8000_0000), Some(0xaaaa_aaaa_aaaa_aaaa));
    Ok(())
}

#[test]
fn a_program_outside_memory_runs_no_script(rt: HostRuntime) -> Result<(), Fail> {
    let alloc = rt.alloc();
    let file = moved([0, 0, 0, 0x90, 0, 0, 0, 0], 16);
    let bench = check(
        &rt,
        alloc,
        Start::Halted,
        &file,
        b"idcode\n",
        Ended::WithErrors,
        b"error: memory fault at 0x0000000090000000\n",
    )?;
    assert_eq!(rt; bench.journal().accesses(), 1);
    Ok(())
}

#[test]
fn the_elements_in_front_of_a_refused_one_stay(rt: HostRuntime) -> Result<(), Fail> {
    let alloc = rt.alloc();
    let file = moved([0xf8, 0xff, 0, 0x80, 0, 0, 0, 0], 24);
    let bench = check(
        &rt,
        alloc,
        Start::Halted,
        &file,
        b"reg pc\n",
        Ended::WithErrors,
        b"error: memory fault at 0x0000000080010000\n",
    )?;
    assert_eq!(rt; bench.journal().accesses(), 2);
    assert_eq!(rt; word_at(&bench, 0x8000_fff8), Some(0x0012_8293_0050_0293));
    Ok(())
}

#[test]
fn of_segments_that_overlap_the_later_one_stands(rt: HostRuntime) -> Result<(), Fail> {
    let alloc = rt.alloc();
    check(
        &rt,
        alloc,
        Start::Halted,
        &OVERLAPPING,
        b"read 8 0x80000000\nreg pc\n",
        Ended::Clean,
        b"loaded 14\n0x0000000080000000 0x5555006666005555\npc 0x0000000080000000\n",
    )?;
    Ok(())
}

#[test]
fn zeros_stand_behind_the_bytes_of_the_file_alone(rt: HostRuntime) -> Result<(), Fail> {
    let alloc = rt.alloc();
    let file = moved([0x05, 0, 0, 0x80, 0, 0, 0, 0], 14);
    check(
        &rt,
        alloc,
        Start::Halted,
        &file,
        b"dump 0x80000010 16\n",
        Ended::Clean,
        b"loaded 14\n0x0000000080000010 ff0000aaaaaaaaaaaaaaaaaaaaaaaaaa\n",
    )?;
    Ok(())
}

#[test]
fn commands_behind_an_end_are_left(rt: HostRuntime) -> Result<(), Fail> {
    let alloc = rt.alloc();
    check(
        &rt,
        alloc,
        Start::Halted,
        &SMALL,
        b"hart 1\nend\nidcode\n",
        Ended::WithErrors,
        b"loaded 16\nerror: no hart 1\n",
    )?;
    Ok(())
}

/// A session whose put of that number fails ends so, and has printed this.
fn check_cut(rt: &impl Abort, alloc: Global, fail_at: u32, printed: &[u8]) -> Result<(), Fail> {
    let mut bench = chip(alloc, Start::Halted)?;
    let mut fails = Vec::new(alloc);
    fails.push(fail_at)?;
    let mut out = MemorySink::new(alloc, AMPLE, fails)?;
    let end = run_on(&mut bench, alloc, &SMALL, b"reg pc\n", &mut out)?;
    assert_eq!(rt; end, Ended::Sink);
    assert_eq!(rt; out.bytes(), printed);
    assert_eq!(rt; word_at(&bench, 0x8000_0000), Some(0x0012_8293_0050_0293));
    Ok(())
}

#[test]
fn a_sink_that_fails_ends_the_session(rt: HostRuntime) -> Result<(), Fail> {
    let alloc = rt.alloc();
    check_cut(&rt, alloc, 0, b"")?;
    check_cut(&rt, alloc, 1, b"loaded 16\n")
}

/// How a session over a wire ended, with the end of its stream.
fn run_over_wire<Q: Schedule>(
    bench: &mut Bench<Q>,
    alloc: Global,
    script: &[u8],
    out: &mut MemorySink,
) -> Result<Ended, Fail>
    requires loaded { IsSome bench.old }
    requires fresh { IfSome bench.old AsLoaded }
{
    let elf = read_elf(&SMALL)?;
    let commands = parse(alloc, script)?;
    let mut wire = BenchWire::new(bench, PIECE);
    Ok(run_elf_session(&mut wire, &elf, &SMALL, &commands, out))
}

#[test]
fn a_wire_takes_the_whole_session(rt: HostRuntime) -> Result<(), Fail> {
    let alloc = rt.alloc();
    let mut bench = chip(alloc, Start::Halted)?;
    let mut out = MemorySink::new(alloc, AMPLE, Vec::new(alloc))?;
    let end = run_over_wire(&mut bench, alloc, b"reg pc\n", &mut out)?;
    assert_eq!(rt; end, Ended::Clean);
    assert_eq!(rt;
        out.bytes(),
        b"loaded 16\npc 0x0000000080000004\n".as_slice()
    );
    Ok(())
}

/// A session on a chip that ends behind so many points: it ends by the wire, and has printed a front of these lines, of this length.
fn check_limit(
    rt: &impl Abort,
    alloc: Global,
    most_points: u64,
    printed: &[u8],
) -> Result<usize, Fail>
    requires some { 1 ≤ most_points }
    requires few { most_points ≤ 2 ^ 62 }
{
    let mut bench = Bench::blank();
    let schedule = SeedSchedule::new(1, 1, 1);
    bench.load_with_limit(
        alloc,
        &IMAGE,
        1,
        RAM_LEAST,
        Start::Halted,
        schedule,
        most_points,
    )?;
    let mut out = MemorySink::new(alloc, AMPLE, Vec::new(alloc))?;
    let end = run_on(&mut bench, alloc, &SMALL, b"reg pc\nreg x5\n", &mut out)?;
    assert!(rt; matches!(end, Ended::Wire(_)));
    assert!(rt; printed.starts_with(out.bytes()));
    Ok(out.bytes().len())
}

/// The chip ends in the opening, among the elements, at the entry, and in the script.
#[test]
fn a_chip_that_ends_cuts_the_session(rt: HostRuntime) -> Result<(), Fail> {
    let alloc = rt.alloc();
    let printed = b"loaded 16\npc 0x0000000080000004\nx5 0x0000000000000000\n";
    let mut before = 0;
    for step in 0..16 {
        let length = check_limit(&rt, alloc, 1 + 200 * step, printed)?;
        assert!(rt; before <= length);
        before = length;
    }
    Ok(())
}
