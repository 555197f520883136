//! Blocks at RAM's end, by program buffer and by the bus: what is loaded and what is stored, where it is refused, one access for each element up to and with
//! the first that is, and x8 and x9 as before.

ghost use Rattle.std.specs.Prelude.{◌≡◌, ◌≤◌, ◌+◌, ◌*◌, [], OnOk, IfSome, IsSome, true};
ghost use Rattle.rv_model.specs.Memory.{is_aligned};
ghost use Rattle.rv_model.specs.Size.{count_of};
ghost use Rattle.debug_model.specs.Command.{most_elements, all_addresses};
ghost use Rattle.debug_model.specs.Kept.{CanCall};
ghost use Rattle.debug_model.specs.Loaded.{AsLoaded};
ghost use Rattle.debug_model.specs.Told.{IsAsLoaded, IsReady};
ghost use Rattle.probe_run.specs.Told.{Serving};

use crate::blocks::{try_load_block, try_store_block};
use crate::bus_blocks::{try_load, try_store};
use crate::memory::{FIRST, PIECE, RAM_END, RAM_LEAST, X8, X9};
use arrayvec::ArrayVec;
use chip_core::{Bench, BenchWire};
use debug_model::{Dmi, Path, Schedule};
use hart_debug::Start;
use link_tests::Fault;
use probe_access::{AccessFault, cut_to, is_aligned, reg, set_reg};
use probe_dmi::Link;
use probe_run::{Halted, Seen, connect};
use probe_scan::Scanner;
use rv_model::Size;
use std::alloc::Global;
use std::process::Abort;
use std::test::Fail;
use sys_events::SeedSchedule;

/// What x8 and x9 hold.
const HELD: (u64, u64) = (0x11, 0x22);

/// The loads and stores of a block that are to be made.
#[derive(Clone, Copy, Debug, PartialEq, Eq)]
struct Call {
    path: Path,
    stores: bool,
    size: Size,
    address: u64,
    count: u16,
}

/// How it ended, and what x8 and x9 hold behind it.
#[derive(Clone, Copy, Debug, PartialEq, Eq)]
struct Made {
    end: Result<(), AccessFault>,
    x8: u64,
    x9: u64,
}

/// Makes them. An error where another fault than one of memory came.
fn call_block<D: Dmi>(
    link: &mut D,
    halted: &Halted,
    call: Call,
    into: &mut ArrayVec<u64, 512>,
) -> Result<Result<(), AccessFault>, Fault>
    requires callable { CanCall (D.seen link.old) }
    requires serving { Serving halted.now.number (D.seen link.old).far }
    requires aligned { is_aligned call.address call.size ≡ true }
    requires some { (1 ≤ call.count) × (call.count ≤ most_elements) }
    requires ends { call.address + call.count * count_of call.size ≤ all_addresses }
    requires empty { into.old.items ≡ [] }
    ensures callable { OnOk result (CanCall (D.seen link.new)) }
    ensures ready { OnOk result (IsReady (D.seen link.new).far) }
{
    match (call.path, call.stores) {
        (Path::Progbuf, true) => {
            try_store_block(link, halted, call.size, call.address, call.count)
        }
        (Path::Progbuf, false) => {
            try_load_block(link, halted, call.size, call.address, call.count, into)
        }
        (Path::Bus, true) => try_store(link, call.size, call.address, call.count),
        (Path::Bus, false) => try_load(link, call.size, call.address, call.count, into),
    }
}

/// Opens the chip and makes them with its halted hart 0.
fn visit<D: Dmi>(link: &mut D, call: Call, into: &mut ArrayVec<u64, 512>) -> Result<Made, Fault>
    requires callable { CanCall (D.seen link.old) }
    requires loaded { IsAsLoaded (D.seen link.old).far }
    requires aligned { is_aligned call.address call.size ≡ true }
    requires some { (1 ≤ call.count) × (call.count ≤ most_elements) }
    requires ends { call.address + call.count * count_of call.size ≤ all_addresses }
    requires empty { into.old.items ≡ [] }
{
    let target = connect(link)?;
    let Seen::Halted(halted) = target.look(link, 0)? else {
        return Err(Fault::SeenOtherwise);
    };
    set_reg(link, &halted, X8, HELD.0)?;
    set_reg(link, &halted, X9, HELD.1)?;
    let end = call_block(link, &halted, call, into)?;
    let Seen::Halted(again) = target.look(link, 0)? else {
        return Err(Fault::SeenOtherwise);
    };
    let x8 = reg(link, &again, X8)?;
    let x9 = reg(link, &again, X9)?;
    Ok(Made { end, x8, x9 })
}

fn visit_over<Q: Schedule>(
    bench: &mut Bench<Q>,
    paced: bool,
    call: Call,
    into: &mut ArrayVec<u64, 512>,
) -> Result<Made, Fault>
    requires loaded { IsSome bench.old }
    requires fresh { IfSome bench.old AsLoaded }
    requires aligned { is_aligned call.address call.size ≡ true }
    requires some { (1 ≤ call.count) × (call.count ≤ most_elements) }
    requires ends { call.address + call.count * count_of call.size ≤ all_addresses }
    requires empty { into.old.items ≡ [] }
{
    let scanner = Scanner::new(BenchWire::new(bench, PIECE));
    if paced {
        let mut link = Link::paced(scanner);
        visit(&mut link, call, into)
    } else {
        let mut link = Link::new(scanner);
        visit(&mut link, call, into)
    }
}

/// The address of an element.
fn address_of(size: Size, address: u64, number: u16) -> u64 {
    address.wrapping_add(u64::from(number).wrapping_mul(u64::from(size.count())))
}

/// The byte of the image at a place: no two elements in a row are alike.
fn byte_at(place: u64) -> u8 {
    (place.wrapping_mul(0x9e37_79b9) >> 13 & 0xff) as u8
}

/// RAM as it is loaded.
fn image_of(alloc: Global) -> Result<Vec<u8>, Fail> {
    let mut image = Vec::new(alloc);
    for place in 0..RAM_LEAST {
        image.push(byte_at(place))?;
    }
    Ok(image)
}

/// The element of the image at an address, its lowest byte first.
fn loaded_from(image: &[u8], size: Size, address: u64) -> u64 {
    let mut value = 0u64;
    for byte in (0..size.count()).rev() {
        let place = address
            .wrapping_sub(RAM_END - RAM_LEAST)
            .wrapping_add(u64::from(byte));
        let held = image.get(place as usize).copied().unwrap_or(0);
        value = value << 8 | u64::from(held);
    }
    value
}

/// One block of which so many elements lie in front of RAM's end: how it ends, what it loads or stores, and its accesses.
fn check_block(
    rt: &impl Abort,
    alloc: Global,
    image: &[u8],
    busy: u8,
    paced: bool,
    call: Call,
    inside: u16,
) -> Result<(), Fail>
    requires busy { (1 ≤ busy) × (busy ≤ 32) }
    requires aligned { is_aligned call.address call.size ≡ true }
    requires some { (1 ≤ call.count) × (call.count ≤ most_elements) }
    requires ends { call.address + call.count * count_of call.size ≤ all_addresses }
{
    let mut bench = Bench::blank();
    let schedule = SeedSchedule::new(7, busy, 1);
    bench.load(alloc, image, 1, RAM_LEAST, Start::Halted, schedule)?;
    let end = if inside == call.count {
        Ok(())
    } else {
        Err(AccessFault::Memory(RAM_END))
    };
    let wanted = Made {
        end,
        x8: HELD.0,
        x9: HELD.1,
    };
    let mut into: ArrayVec<u64, 512> = ArrayVec::new();
    assert_eq!(rt; visit_over(&mut bench, paced, call, &mut into), Ok(wanted));
    let refused = u64::from(inside != call.count);
    assert_eq!(rt; bench.journal().accesses(), u64::from(inside) + refused);
    let handed = if call.stores { 0 } else { usize::from(inside) };
    assert_eq!(rt; into.len(), handed);
    assert!(rt; bench.is_loaded());
    for number in 0..inside {
        let at = address_of(call.size, call.address, number);
        let was = loaded_from(image, call.size, at);
        let is = if call.stores {
            cut_to(call.size, FIRST)
        } else {
            was
        };
        assert_eq!(rt; bench.ram().load(at, call.size), Ok(is));
        if !call.stores {
            assert_eq!(rt; into.get(usize::from(number)).copied(), Some(was));
        }
    }
    let front = call.address.wrapping_sub(u64::from(call.size.count()));
    assert_eq!(rt;
        bench.ram().load(front, call.size),
        Ok(loaded_from(image, call.size, front))
    );
    Ok(())
}

/// The same on both paths, with loads and with stores.
#[tactic(auto, using(crate::proofs::Edges::block_ends))]
fn check_ways(
    rt: &impl Abort,
    alloc: Global,
    image: &[u8],
    busy: u8,
    size: Size,
    count: u16,
    inside: u16,
) -> Result<(), Fail>
    requires busy { (1 ≤ busy) × (busy ≤ 32) }
    requires some { (1 ≤ count) × (count ≤ most_elements) }
    requires within { inside ≤ count }
{
    let front = u64::from(inside).wrapping_mul(u64::from(size.count()));
    let address = RAM_END.wrapping_sub(front);
    assert!(rt; is_aligned(size, address));
    assert!(rt; address <= RAM_END);
    for path in [Path::Progbuf, Path::Bus] {
        for stores in [false, true] {
            let call = Call {
                path,
                stores,
                size,
                address,
                count,
            };
            check_block(rt, alloc, image, busy, inside % 2 == 0, call, inside)?;
        }
    }
    Ok(())
}

/// The size and the time of a turn: both go round.
fn taken_in_turn(turn: u16) -> (Size, u8)
    ensures busy { (1 ≤ result.1) × (result.1 ≤ 32) }
{
    let size = match turn % 4 {
        0 => Size::B8,
        1 => Size::B1,
        2 => Size::B4,
        _ => Size::B2,
    };
    let busy = match turn % 6 {
        0 => 1,
        1 => 32,
        2 => 4,
        3 => 2,
        4 => 16,
        _ => 8,
    };
    (size, busy)
}

// the last element stands in front of RAM's end, or one to three elements behind it
#[test]
fn a_block_of_each_count_ends_at_ram_s_end(rt: HostRuntime) -> Result<(), Fail> {
    let image = image_of(rt.alloc())?;
    for count in 1..41 {
        let (size, busy) = taken_in_turn(count);
        let behind = count / 4 % 4;
        if behind <= count {
            check_ways(&rt, rt.alloc(), &image, busy, size, count, count - behind)?;
        }
    }
    Ok(())
}

#[test]
fn a_block_of_40_elements_ends_at_each_of_them(rt: HostRuntime) -> Result<(), Fail> {
    let image = image_of(rt.alloc())?;
    for inside in 0..41 {
        let (size, busy) = taken_in_turn(inside);
        check_ways(&rt, rt.alloc(), &image, busy, size, 40, inside)?;
    }
    Ok(())
}

#[test]
fn a_block_of_512_elements_ends_at_ram_s_end(rt: HostRuntime) -> Result<(), Fail> {
    let image = image_of(rt.alloc())?;
    for (size, busy, inside) in [
        (Size::B8, 1, 512),
        (Size::B8, 32, 511),
        (Size::B1, 4, 512),
        (Size::B2, 8, 510),
        (Size::B4, 2, 509),
        (Size::B8, 16, 0),
    ] {
        check_ways(&rt, rt.alloc(), &image, busy, size, 512, inside)?;
    }
    Ok(())
}
