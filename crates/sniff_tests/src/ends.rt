//! Each end of a sniffing, and what is put at it.

use crate::streams::{AMPLE, RESET, check, dmi_scan, join, scan_behind, times, write_bits};
use jt_base::MemorySink;
use std::test::Fail;
use wire_sniff::{SniffEnd, sniff};

#[test]
fn the_first_byte_that_is_no_sign_is_told(rt: HostRuntime) -> Result<(), Fail> {
    let alloc = rt.alloc();
    let stream = scan_behind(alloc, 0)?;
    let line = "dr 0x01 1 0x0000000000000000 0x0000000000000001\n";
    let behind = join(alloc, &[&stream, b"QxQ"])?;
    check(&rt, alloc, &behind, b"1", SniffEnd::Clean, line)?;
    // before every other check, however many answers there are
    let end = SniffEnd::BadSign(stream.len(), b'x');
    let bad = join(alloc, &[&stream, b"xyQ"])?;
    for answers in [&b"1"[..], b"", b"2"] {
        check(&rt, alloc, &bad, answers, end, "")?;
    }
    check(&rt, alloc, b"8", b"", SniffEnd::BadSign(0, b'8'), "")?;
    check(&rt, alloc, b"04\n", b"", SniffEnd::BadSign(2, b'\n'), "")?;
    check(&rt, alloc, b"", b"", SniffEnd::Clean, "")
}

#[test]
fn the_first_bad_answer_is_told(rt: HostRuntime) -> Result<(), Fail> {
    let alloc = rt.alloc();
    let stream = scan_behind(alloc, 1)?;
    let cases: [(&[u8], u8); 4] = [
        (b"12", b'2'),
        (b"x1", b'x'),
        (b"10101\n", b'\n'),
        (b"/:", b'/'),
    ];
    for (answers, bad) in cases {
        check(&rt, alloc, &stream, answers, SniffEnd::BadAnswer(bad), "")?;
    }
    Ok(())
}

#[test]
fn a_sink_that_fails_has_taken_a_prefix(rt: HostRuntime) -> Result<(), Fail> {
    let alloc = rt.alloc();
    let bits = write_bits(alloc)?;
    let stream = dmi_scan(alloc, &bits)?;
    let answers = times(alloc, b"0", 41)?;
    let lines =
        "ir 0x11\ndr 0x11 41 0x0000004000000006 0x0000000000000000\ndmi write 0x10 0x00000001\n";
    for room in [0, 7, 8, 9, 57, 82] {
        let mut out = MemorySink::new(alloc, room, Vec::new(alloc))?;
        assert_eq!(rt; sniff(&stream, &answers, &mut out), SniffEnd::Sink);
        assert!(rt; lines.as_bytes().starts_with(out.bytes()));
    }
    for call in 0..3 {
        let mut listed = Vec::new(alloc);
        listed.push(call)?;
        let mut out = MemorySink::new(alloc, AMPLE, listed)?;
        assert_eq!(rt; sniff(&stream, &answers, &mut out), SniffEnd::Sink);
        assert!(rt; lines.as_bytes().starts_with(out.bytes()));
    }
    // nothing is put where nothing is shown
    let mut out = MemorySink::new(alloc, 0, Vec::new(alloc))?;
    assert_eq!(rt; sniff(RESET, b"", &mut out), SniffEnd::Clean);
    Ok(())
}
