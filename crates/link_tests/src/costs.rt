//! What calls on a loaded chip cost in rises of TCK, where the transport is never found busy: 46 for each scan of `dmi`, and one scan more than operations
//! for each call.

ghost use Rattle.std.specs.Prelude.{◌<◌, ◌^◌, IfSome, IsSome};
ghost use Rattle.debug_model.specs.Kept.{CanCall};
ghost use Rattle.debug_model.specs.Loaded.{AsLoaded};
ghost use Rattle.debug_model.specs.Told.{IsAsLoaded};

use crate::fault::Fault;
use chip_core::{Bench, BenchWire};
use debug_model::{Dmi, Schedule};
use hart_debug::Start;
use probe_access::{load, reg, set_reg, store};
use probe_dmi::Link;
use probe_run::{Seen, connect};
use probe_scan::Scanner;
use rv_model::Size;
use std::test::Fail;
use sys_events::SeedSchedule;

/// The bytes of the smallest RAM.
const RAM_LEAST: u64 = 65_536;

const X5: u16 = 0x1005;

/// What a register read or written costs at most: the command, both data words and a poll in one call, which is five scans.
const REGISTER_RISES: u64 = 230;

/// Opens a session, writes x5 so often and reads it so often, on hart 0, which is halted.
fn visit<D: Dmi>(link: &mut D, writes: u8, reads: u8) -> Result<u64, Fault>
    requires callable { CanCall (D.seen link.old) }
    requires loaded { IsAsLoaded (D.seen link.old).far }
{
    let target = connect(link)?;
    let Seen::Halted(halted) = target.look(link, 0)? else {
        return Err(Fault::SeenOtherwise);
    };
    if writes > 0 {
        set_reg(link, &halted, X5, 0x8877_6655_4433_2211)?;
    }
    if writes > 1 {
        set_reg(link, &halted, X5, 0x1122_3344_5566_7788)?;
    }
    let mut value = 0;
    if reads > 0 {
        value = reg(link, &halted, X5)?;
    }
    if reads > 1 {
        value = reg(link, &halted, X5)?;
    }
    Ok(value)
}

fn over<Q: Schedule>(bench: &mut Bench<Q>, writes: u8, reads: u8) -> Result<u64, Fault>
    requires loaded { IsSome bench.old }
    requires fresh { IfSome bench.old AsLoaded }
{
    let mut link = Link::paced(Scanner::new(BenchWire::new(bench, 256)));
    visit(&mut link, writes, reads)
}

#[test]
fn a_register_is_read_and_written_in_five_scans(rt: HostRuntime) -> Result<(), Fail> {
    // so many writes and reads, and what is read
    let cases = [
        (0, 1, 0),
        (0, 2, 0),
        (1, 1, 0x8877_6655_4433_2211),
        (2, 1, 0x1122_3344_5566_7788),
    ];
    let mut rounds = [0; 4];
    for (place, (writes, reads, wanted)) in cases.iter().enumerate() {
        let mut bench = Bench::blank();
        bench.load(
            rt.alloc(),
            &[],
            1,
            RAM_LEAST,
            Start::Halted,
            SeedSchedule::new(7, 1, 1),
        )?;
        assert_eq!(rt; over(&mut bench, *writes, *reads), Ok(*wanted));
        assert_eq!(rt; bench.counts().dmi_busy, 0);
        rounds[place] = bench.counts().rounds;
    }
    let [read_once, read_twice, written_once, written_twice] = rounds;
    assert!(rt; read_twice > read_once && read_twice - read_once <= REGISTER_RISES);
    assert!(rt; written_twice > written_once && written_twice - written_once <= REGISTER_RISES);
    Ok(())
}

/// What a load of eight bytes costs at most by the program buffer: a register read in five scans; a program of two words with its address, its command and a
/// poll in seven; and a register read and written in eight, which is two commands, both data words read and written, and a poll.
const LOAD_RISES: u64 = 920;

/// What a store costs at most: two registers read and three written, in five scans each, and a program in seven.
const STORE_RISES: u64 = 1_472;

/// An address in RAM.
const ADDRESS: u64 = 0x8000_0100;

/// Opens a session, stores eight bytes so often and loads them so often, by hart 0, which is halted.
fn access<D: Dmi>(link: &mut D, stores: u8, loads: u8) -> Result<u64, Fault>
    requires callable { CanCall (D.seen link.old) }
    requires loaded { IsAsLoaded (D.seen link.old).far }
{
    let target = connect(link)?;
    let Seen::Halted(halted) = target.look(link, 0)? else {
        return Err(Fault::SeenOtherwise);
    };
    if stores > 0 {
        store(link, &halted, Size::B8, ADDRESS, 0x8877_6655_4433_2211)?;
    }
    if stores > 1 {
        store(link, &halted, Size::B8, ADDRESS, 0x1122_3344_5566_7788)?;
    }
    let mut value = 0;
    if loads > 0 {
        value = load(link, &halted, Size::B8, ADDRESS)?;
    }
    if loads > 1 {
        value = load(link, &halted, Size::B8, ADDRESS)?;
    }
    Ok(value)
}

fn access_over<Q: Schedule>(bench: &mut Bench<Q>, stores: u8, loads: u8) -> Result<u64, Fault>
    requires loaded { IsSome bench.old }
    requires fresh { IfSome bench.old AsLoaded }
{
    let mut link = Link::paced(Scanner::new(BenchWire::new(bench, 256)));
    access(&mut link, stores, loads)
}

#[test]
fn eight_bytes_are_loaded_in_20_scans_and_stored_in_32(rt: HostRuntime) -> Result<(), Fail> {
    // so many stores and loads, and what is loaded
    let cases = [
        (0, 1, 0),
        (0, 2, 0),
        (1, 1, 0x8877_6655_4433_2211),
        (2, 1, 0x1122_3344_5566_7788),
    ];
    let mut rounds = [0; 4];
    for (place, (stores, loads, wanted)) in cases.iter().enumerate() {
        let mut bench = Bench::blank();
        bench.load(
            rt.alloc(),
            &[],
            1,
            RAM_LEAST,
            Start::Halted,
            SeedSchedule::new(7, 1, 1),
        )?;
        assert_eq!(rt; access_over(&mut bench, *stores, *loads), Ok(*wanted));
        assert_eq!(rt; bench.counts().dmi_busy, 0);
        rounds[place] = bench.counts().rounds;
    }
    let [loaded_once, loaded_twice, stored_once, stored_twice] = rounds;
    assert!(rt; loaded_twice > loaded_once && loaded_twice - loaded_once <= LOAD_RISES);
    assert!(rt; stored_twice > stored_once && stored_twice - stored_once <= STORE_RISES);
    Ok(())
}
