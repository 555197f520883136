//! A usual session over a sink that fails: what it wrote before is a front of the session's own lines, wherever the failure comes.

ghost use Rattle.std.specs.Prelude.{IfOk, IfSome, IsSome};
ghost use Rattle.debug_model.specs.Loaded.{AsLoaded};

use super::{AMPLE, PROGRAM, RAM_LEAST, run_fresh};
use chip_core::Bench;
use hart_debug::Start;
use jt_base::MemorySink;
use script_lang::parse;
use std::alloc::{AllocError, Global};
use std::test::Fail;
use sys_events::SeedSchedule;

/// Registers, breakpoints, a watchpoint, steps, a dump and a stop.
const USUAL: &str = "state
regs
break 0x80000010
break 0x80000014
break 0x80000018
watch store 0x80000100
step 20
reg x5
dump 0x80000000 256
clear 0
break 0x80000004
resume
wait
";

/// What it prints.
fn printed(alloc: Global) -> Result<String, AllocError> {
    let mut all = String::new(alloc);
    all.push_str("halted at 0x0000000080000000 by reset\npc 0x0000000080000000\n")?;
    'registers: for number in 1..32u8 {
        all.push_str(format!(in alloc; "x{number} 0x0000000000000000\n")?.as_str())?;
    }
    all.push_str(
        "slot 0 break 0x0000000080000010
slot 1 break 0x0000000080000014
slot 2 break 0x0000000080000018
slot 3 watch store 0x0000000080000100
halted at 0x0000000080000008 by step
x5 0x000000000000000f
0x0000000080000000 93025000938212006ff0dfff00000000
",
    )?;
    'rows: for row in 1..16u8 {
        all.push_str(format!(in alloc;
            "0x00000000800000{row:x}0 00000000000000000000000000000000\n"
        )?.as_str())?;
    }
    all.push_str(
        "slot 0 free
slot 0 break 0x0000000080000004
resumed
halted at 0x0000000080000004 by trigger 0
",
    )?;
    Ok(all)
}

/// A bench with the program on a halted hart.
fn halted_bench(alloc: Global) -> Result<Bench<SeedSchedule>, Fail>
    ensures loaded { IfOk result IsSome }
    ensures fresh { IfOk result (λ bench. IfSome bench AsLoaded) }
{
    let mut bench = Bench::blank();
    let schedule = SeedSchedule::new(0, 1, 1);
    bench.load(alloc, PROGRAM, 1, RAM_LEAST, Start::Halted, schedule)?;
    Ok(bench)
}

/// The session over a sink whose call `fail_at` fails: its status, and what the sink took.
fn session(alloc: Global, fail_at: u32) -> Result<(u8, MemorySink), Fail> {
    let mut bench = halted_bench(alloc)?;
    let script = parse(alloc, USUAL.as_bytes())?;
    let mut listed = Vec::new(alloc);
    listed.push(fail_at)?;
    let mut out = MemorySink::new(alloc, AMPLE, listed)?;
    let status = run_fresh(&script, &mut bench, &mut out).code();
    Ok((status, out))
}

/// The session writes each line by one call.
const LINES: u32 = 60;

#[test]
fn each_line_that_a_sink_refuses_ends_the_session(rt: HostRuntime) -> Result<(), Fail> {
    let alloc = rt.alloc();
    let whole = printed(alloc)?;
    for fail_at in 0..LINES {
        let (status, out) = session(alloc, fail_at)?;
        let (wanted, count) = if fail_at < 59 { (8, fail_at) } else { (0, 59) };
        assert_eq!(rt; status, wanted, "call {fail_at}");
        assert!(rt; whole.as_bytes().starts_with(out.bytes()), "call {fail_at}");
        let lines = out.bytes().iter().filter(|byte| **byte == b'\n').count();
        assert_eq!(rt; lines, count as usize, "call {fail_at}");
    }
    Ok(())
}
