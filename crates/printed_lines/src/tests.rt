//! Each line's text, as docs/FORMATS.md has it under "Printed lines".

use crate::Line;
use arrayvec::ArrayVec;
use debug_model::{Path, SlotUse, WatchKind};
use rv_model::{Size, SlotSet};
use std::process::Abort;
use std::test::Fail;

/// Where RAM starts.
const RAM: u64 = 0x8000_0000;

/// The line of a halted hart; bit n of `hits` says that slot n has a hit.
fn halted(pc: u64, cause: u8, hits: u8) -> Line {
    Line::Halted {
        pc,
        cause,
        hits: SlotSet(hits),
    }
}

/// A row of a dump, or no row where there are more than 16 bytes.
fn row(address: u64, bytes: &[u8]) -> Line {
    match ArrayVec::try_from(bytes) {
        Ok(bytes) => Line::Row(address, bytes),
        Err(_) => Line::Running,
    }
}

/// A line has this text, and says an error where that begins with `error: `.
fn check(rt: &impl Abort, line: Line, printed: &str) -> Result<(), Fail> {
    let text = line.text();
    assert_eq!(rt; text.as_slice(), printed.as_bytes());
    assert_eq!(rt; line.is_error(), printed.starts_with("error: "));
    Ok(())
}

#[test]
fn a_line_of_words_has_its_text(rt: HostRuntime) -> Result<(), Fail> {
    let cases = [
        (Line::Idcode(0x10d6_4001), "idcode 0x10d64001\n"),
        (Line::Idcode(0xabc), "idcode 0x00000abc\n"),
        (Line::Selected(1023), "hart 1023\n"),
        (Line::Running, "running\n"),
        (Line::Resumed, "resumed\n"),
        (Line::Via(Path::Progbuf), "via progbuf\n"),
        (Line::Via(Path::Bus), "via bus\n"),
        (Line::Ebreak(true), "ebreak on\n"),
        (Line::Ebreak(false), "ebreak off\n"),
        (Line::Loaded(131_072), "loaded 131072\n"),
        (Line::SoftSet(RAM), "soft 0x0000000080000000 set\n"),
        (Line::SoftClear(RAM), "soft 0x0000000080000000 clear\n"),
    ];
    for (line, printed) in cases {
        check(&rt, line, printed)?;
    }
    Ok(())
}

#[test]
fn a_stop_has_its_cause_and_hits(rt: HostRuntime) -> Result<(), Fail> {
    let cases = [
        (
            halted(RAM, 1, 0),
            "halted at 0x0000000080000000 by ebreak\n",
        ),
        (
            halted(RAM + 8, 2, 0b0101),
            "halted at 0x0000000080000008 by trigger 0,2\n",
        ),
        (
            halted(RAM + 8, 2, 0b1111),
            "halted at 0x0000000080000008 by trigger 0,1,2,3\n",
        ),
        (
            halted(RAM + 8, 2, 0b1000),
            "halted at 0x0000000080000008 by trigger 3\n",
        ),
        (
            halted(RAM + 8, 2, 0),
            "halted at 0x0000000080000008 by trigger\n",
        ),
        (
            halted(RAM + 12, 3, 0b1111),
            "halted at 0x000000008000000c by haltreq\n",
        ),
        (halted(RAM, 4, 0), "halted at 0x0000000080000000 by step\n"),
        (halted(RAM, 5, 0), "halted at 0x0000000080000000 by reset\n"),
        (
            halted(RAM, 6, 0),
            "halted at 0x0000000080000000 by cause 6\n",
        ),
        (
            halted(u64::MAX, 255, 0),
            "halted at 0xffffffffffffffff by cause 255\n",
        ),
        (halted(0, 0, 0), "halted at 0x0000000000000000 by cause 0\n"),
    ];
    for (line, printed) in cases {
        check(&rt, line, printed)?;
    }
    Ok(())
}

#[test]
fn a_value_has_its_width(rt: HostRuntime) -> Result<(), Fail> {
    let cases = [
        (
            Line::Register(0x300, 0x1880),
            "mstatus 0x0000000000001880\n",
        ),
        (Line::Register(0xf11, 0), "mvendorid 0x0000000000000000\n"),
        (Line::Register(0x7b1, RAM), "pc 0x0000000080000000\n"),
        (Line::Register(0x1005, 5), "x5 0x0000000000000005\n"),
        (Line::Register(0x101f, u64::MAX), "x31 0xffffffffffffffff\n"),
        (
            Line::Element(RAM, Size::B1, 0x1ab),
            "0x0000000080000000 0xab\n",
        ),
        (
            Line::Element(RAM, Size::B2, 0xab),
            "0x0000000080000000 0x00ab\n",
        ),
        (
            Line::Element(RAM, Size::B4, 0xdead_beef),
            "0x0000000080000000 0xdeadbeef\n",
        ),
        (
            Line::Element(RAM, Size::B8, 1),
            "0x0000000080000000 0x0000000000000001\n",
        ),
        (Line::Wrote(512), "wrote 512\n"),
        (
            row(RAM, b"\x00\x0f\x93\x02\x50\x00\x93\x82\x12\x00\x6f\xf0\xdf"),
            "0x0000000080000000 000f93025000938212006ff0df\n",
        ),
        (
            row(RAM + 16, &[0xa5; 16]),
            "0x0000000080000010 a5a5a5a5a5a5a5a5a5a5a5a5a5a5a5a5\n",
        ),
    ];
    for (line, printed) in cases {
        check(&rt, line, printed)?;
    }
    Ok(())
}

#[test]
fn a_slot_has_its_use(rt: HostRuntime) -> Result<(), Fail> {
    let watched = SlotUse::Watch(WatchKind::Store, RAM + 0x12);
    let cases = [
        (
            Line::Slot(0, watched, true),
            "slot 0 watch store 0x0000000080000012 hit\n",
        ),
        (
            Line::Slot(1, SlotUse::Watch(WatchKind::Load, RAM), false),
            "slot 1 watch load 0x0000000080000000\n",
        ),
        (
            Line::Slot(2, SlotUse::Watch(WatchKind::Access, RAM), true),
            "slot 2 watch access 0x0000000080000000 hit\n",
        ),
        (
            Line::Slot(3, SlotUse::Break(RAM), false),
            "slot 3 break 0x0000000080000000\n",
        ),
        (
            Line::Slot(0, SlotUse::Count(16_383), false),
            "slot 0 count 16383\n",
        ),
        (
            Line::Slot(1, SlotUse::Other(0x6000_0000_0000_0044), false),
            "slot 1 other 0x6000000000000044\n",
        ),
        (Line::Slot(2, SlotUse::Free, false), "slot 2 free\n"),
    ];
    for (line, printed) in cases {
        check(&rt, line, printed)?;
    }
    Ok(())
}

#[test]
fn an_error_says_so(rt: HostRuntime) -> Result<(), Fail> {
    let cases = [
        (Line::NoHart(7), "error: no hart 7\n"),
        (Line::IsRunning(0), "error: hart 0 is running\n"),
        (
            Line::MemoryFault(RAM),
            "error: memory fault at 0x0000000080000000\n",
        ),
        (
            Line::RegisterRefused(0x301),
            "error: register misa refused\n",
        ),
        (Line::NoFreeSlot, "error: no free slot\n"),
        (Line::SlotNotInUse(2), "error: slot 2 not in use\n"),
        (
            Line::SoftIsSet(RAM + 8),
            "error: soft 0x0000000080000008 is set\n",
        ),
        (
            Line::SoftNotSet(RAM),
            "error: soft 0x0000000080000000 not set\n",
        ),
        (Line::NoFreeSoftBreak, "error: no free soft break\n"),
        (Line::SoftBreaksAreSet, "error: soft breaks are set\n"),
    ];
    for (line, printed) in cases {
        check(&rt, line, printed)?;
    }
    Ok(())
}
