//! Sessions as data: what each prints, and what memory holds behind it.

ghost use Rattle.std.specs.Prelude.{◌≤◌, IfSome, IsSome};
ghost use Rattle.debug_model.specs.Loaded.{AsLoaded};

use crate::chips::{AMPLE, EBREAK, PIECE, first_difference, halted_chip, word_at};
use chip_core::{Bench, BenchWire};
use debug_model::{Schedule, SoftScript};
use jt_base::MemorySink;
use probe_dmi::Link;
use probe_scan::Scanner;
use probe_session::Ended;
use script_lang::parse_soft;
use soft_session::run_soft;
use std::alloc::Global;
use std::process::Abort;
use std::test::Fail;

/// A session on a chip whose harts start halted, and what it comes to.
#[derive(Clone, Copy)]
pub struct Row<'a> {
    pub image: &'a [u8],
    /// The chip's harts.
    pub harts: u8,
    pub script: &'a str,
    pub printed: &'a str,
    pub ended: Ended,
    /// The words that are other than the image's at the end.
    pub changed: &'a [(u64, u64)],
    /// Where breakpoints are set at the script's end.
    pub covered: &'a [u64],
    /// The accesses to memory: two where a breakpoint is set, one where it is taken out, two where a hart steps over it, and one for each element.
    pub accesses: u64,
    ghost some: { 1 ≤ harts },
    ghost few: { harts ≤ 4 },
}

/// One session on the chip of a bench, of which nothing is known here but that it ends.
fn run_on<Q: Schedule>(bench: &mut Bench<Q>, script: &SoftScript, out: &mut MemorySink) -> Ended
    requires loaded { IsSome bench.old }
    requires fresh { IfSome bench.old AsLoaded }
{
    let mut link = Link::new(Scanner::new(BenchWire::new(bench, PIECE)));
    run_soft(&mut link, script, out)
}

/// What memory holds: the row's words, and elsewhere the image. Words at which breakpoints are set have an ebreak.
fn check_memory<Q: Schedule>(
    rt: &impl Abort,
    alloc: Global,
    row: &Row,
    bench: &Bench<Q>,
    covered: &[u64],
) -> Result<(), Fail> {
    let mut other = covered.to_vec(alloc)?;
    for (address, word) in row.changed {
        let held = if covered.contains(address) {
            EBREAK
        } else {
            *word
        };
        assert_eq!(rt; word_at(bench, *address), Some(held), "{}", row.script);
        other.push(*address)?;
    }
    for address in covered {
        assert_eq!(rt; word_at(bench, *address), Some(EBREAK), "{}", row.script);
    }
    let before = halted_chip(alloc, row.image, row.harts, 1)?;
    assert_eq!(rt;
        first_difference(bench, &before, &other),
        None,
        "{}",
        row.script
    );
    Ok(())
}

/// The session, with everything that it does.
fn check_whole(rt: &impl Abort, alloc: Global, row: &Row, busy: u8) -> Result<(), Fail>
    requires some { 1 ≤ busy }
    requires few { busy ≤ 32 }
{
    let mut bench = halted_chip(alloc, row.image, row.harts, busy)?;
    let script = parse_soft(alloc, row.script.as_bytes())?;
    let mut out = MemorySink::new(alloc, AMPLE, Vec::new(alloc))?;
    let ended = run_on(&mut bench, &script, &mut out);
    assert_eq!(rt; out.bytes(), row.printed.as_bytes());
    assert_eq!(rt; ended, row.ended);
    assert_eq!(rt; bench.journal().accesses(), row.accesses, "{}", row.script);
    check_memory(rt, alloc, row, &bench, &[])
}

/// The session with one line more that the sink refuses: it ends there, and memory is as it was meanwhile.
fn check_meanwhile(rt: &impl Abort, alloc: Global, row: &Row) -> Result<(), Fail> {
    let mut bench = halted_chip(alloc, row.image, row.harts, 1)?;
    let text = format!(in alloc; "{}idcode\n", row.script)?;
    let script = parse_soft(alloc, text.as_bytes())?;
    let mut refused = Vec::new(alloc);
    refused.push(u32::try_from(row.printed.lines().count()).unwrap_or(u32::MAX))?;
    let mut out = MemorySink::new(alloc, AMPLE, refused)?;
    let ended = run_on(&mut bench, &script, &mut out);
    assert_eq!(rt; out.bytes(), row.printed.as_bytes());
    assert_eq!(rt; ended, Ended::Sink);
    check_memory(rt, alloc, row, &bench, row.covered)
}

/// Each of these sessions, on a fast chip and on a slow one.
pub fn check_rows(rt: &impl Abort, alloc: Global, rows: &[Row]) -> Result<(), Fail> {
    for row in rows {
        check_whole(rt, alloc, row, 1)?;
        check_whole(rt, alloc, row, 32)?;
        check_meanwhile(rt, alloc, row)?;
    }
    Ok(())
}
