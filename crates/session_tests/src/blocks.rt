//! Blocks that end where RAM ends, or behind that, on either path.

use crate::chips::{HALTED, PROGRAM, loaded, run_on};
use jt_base::MemorySink;
use probe_session::Ended;
use script_lang::parse;
use std::alloc::Global;
use std::process::Abort;
use std::test::Fail;

/// Room for everything that a session here prints.
const AMPLE: usize = 65_536;

/// The elements of the largest block.
const ELEMENTS: u64 = 512;

/// The address behind the smallest RAM.
const RAM_END: u64 = 0x8001_0000;

/// A session over a halted chip reads the block of the most elements whose last stands at RAM's end, and shorter ones that go beyond it.
fn check_path(rt: &impl Abort, alloc: Global, path: &str) -> Result<(), Fail> {
    let first = RAM_END - 8 * ELEMENTS;
    let last = RAM_END - 8;
    let script = format!(in alloc;
        "via {path}\nwrite 8 {last:#018x} 7\nread 8 {first:#018x} 512\nread 8 {last:#018x} 2\nwrite 8 {last:#018x} 9 2\nread 8 {last:#018x}\n"
    )?;
    let mut printed = format!(in alloc; "via {path}\nwrote 1\n")?;
    'elements: for number in 0..511u64 {
        let at = first + 8 * number;
        let line = format!(in alloc; "{at:#018x} 0x0000000000000000\n")?;
        printed.push_str(&line)?;
    }
    let end = format!(in alloc;
        "{last:#018x} 0x0000000000000007\n{last:#018x} 0x0000000000000007\nerror: memory fault at {RAM_END:#018x}\n\
         error: memory fault at {RAM_END:#018x}\n{last:#018x} 0x0000000000000009\n"
    )?;
    printed.push_str(&end)?;
    let mut bench = loaded(alloc, PROGRAM, HALTED)?;
    let commands = parse(alloc, script.as_bytes())?;
    let mut out = MemorySink::new(alloc, AMPLE, Vec::new(alloc))?;
    let ended = run_on(&mut bench, &commands, &mut out);
    assert_eq!(rt; out.bytes(), printed.as_bytes());
    assert_eq!(rt; ended, Ended::WithErrors);
    Ok(())
}

#[test]
fn a_block_ends_where_ram_ends_by_the_program_buffer(rt: HostRuntime) -> Result<(), Fail> {
    check_path(&rt, rt.alloc(), "progbuf")
}

#[test]
fn a_block_ends_where_ram_ends_over_the_bus(rt: HostRuntime) -> Result<(), Fail> {
    check_path(&rt, rt.alloc(), "bus")
}
