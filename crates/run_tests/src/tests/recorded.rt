//! Recordings of a wire, as their job shows them: docs/FORMATS.md, "Sniffed lines" and "Statuses". The paths of the streams are those of IEEE 1149.1.

use super::{AMPLE, NO_FAILURE, outcome_of, quiet_net, run_once, two_files, word_list};
use chip_core::Bench;
use jt_base::MemorySink;
use jtag_run::Status;
use std::alloc::{AllocError, Global};
use std::process::Abort;
use std::test::Fail;

/// The words of a recording whose stream is the file `i` and whose answers are the file `s`.
const LISTED: &str = "sniff --stream i --answers s";

/// The same, drawn.
const DRAWN: &str = "sniff --stream i --answers s --vcd";

/// The 32 answers to a scan of the IDCODE 0x10d64001.
const IDCODE_ANSWERS: &[u8] = b"10000000000000100110101100001000";

/// The line of that scan.
const IDCODE_LINE: &str = "dr 0x01 32 0x0000000000000000 0x0000000010d64001\n";

/// The most bytes of a file.
const FILE_MOST: usize = 16_777_216;

/// A reset, a start, a middle that is repeated, and an end.
fn stream_of(
    alloc: Global,
    start: &[u8],
    middle: &[u8],
    count: u32,
    end: &[u8],
) -> Result<Vec<u8>, AllocError> {
    let mut stream = b"262626262604".to_vec(alloc)?;
    stream.extend_from_slice(start)?;
    for _ in 0..count {
        stream.extend_from_slice(middle)?;
    }
    stream.extend_from_slice(end)?;
    Ok(stream)
}

/// A scan of the IDCODE behind a reset.
fn idcode_stream(alloc: Global) -> Result<Vec<u8>, AllocError> {
    stream_of(alloc, b"260404", b"0R4", 31, b"2R62604")
}

/// A scan that selects dmi, and one that writes 1 to dmcontrol, at 0x10.
fn write_stream(alloc: Global) -> Result<Vec<u8>, AllocError> {
    let start = b"26260404150404043726042604040R41R51R5";
    stream_of(alloc, start, b"0R4", 35, b"1R50R42R62604")
}

/// A run of these words over these two files.
fn check(
    rt: &impl Abort,
    alloc: Global,
    line: &str,
    stream: &[u8],
    answers: &[u8],
    status: Status,
    printed: &str,
) -> Result<(), Fail> {
    let mut files = two_files(alloc, stream, answers, NO_FAILURE)?;
    let outcome = outcome_of(alloc, line, &mut files, &mut quiet_net(alloc)?)?;
    assert_eq!(rt; outcome.status, status.code(), "{line}");
    assert_eq!(rt; outcome.out.bytes(), printed.as_bytes(), "{line}");
    assert!(rt; !outcome.bench.is_loaded());
    Ok(())
}

#[test]
fn a_recording_is_listed(rt: HostRuntime) -> Result<(), Fail> {
    let alloc = rt.alloc();
    let idcode = idcode_stream(alloc)?;
    check(
        &rt,
        alloc,
        LISTED,
        &idcode,
        IDCODE_ANSWERS,
        Status::Clean,
        IDCODE_LINE,
    )?;
    let write =
        "ir 0x11\ndr 0x11 41 0x0000004000000006 0x0000000000000000\ndmi write 0x10 0x00000001\n";
    let zeros = vec![in alloc; b'0'; 41]?;
    check(
        &rt,
        alloc,
        LISTED,
        &write_stream(alloc)?,
        &zeros,
        Status::Clean,
        write,
    )?;
    check(&rt, alloc, LISTED, b"", b"", Status::Clean, "")
}

#[test]
fn what_is_no_recording_is_refused(rt: HostRuntime) -> Result<(), Fail> {
    let alloc = rt.alloc();
    let idcode = idcode_stream(alloc)?;
    for line in [LISTED, DRAWN] {
        let cases: [(&[u8], &[u8], Status, &str); 6] = [
            (
                &idcode,
                &IDCODE_ANSWERS[..31],
                Status::Answers,
                "answers refused: 32 asked, 31 given\n",
            ),
            (
                b"R",
                b"01",
                Status::Answers,
                "answers refused: 1 asked, 2 given\n",
            ),
            (b"R", b"2x", Status::Wire, "wire failed: answer 0x32\n"),
            // The first byte that is no sign comes before the answers, and behind `Q` is none.
            (b"26x!", b"2", Status::BadByte, "bad byte 0x78 at 2\n"),
            (b"Rx", b"2", Status::BadByte, "bad byte 0x78 at 1\n"),
            (b"RQx", b"2", Status::Wire, "wire failed: answer 0x32\n"),
        ];
        for (stream, answers, status, printed) in cases {
            check(&rt, alloc, line, stream, answers, status, printed)?;
        }
    }
    Ok(())
}

#[test]
fn the_stream_is_read_before_its_answers(rt: HostRuntime) -> Result<(), Fail> {
    let alloc = rt.alloc();
    let cases = [
        ("sniff --stream i --answers s", 0, "file failed: i\n"),
        ("sniff --stream i --answers s", 1, "file failed: s\n"),
        (
            "sniff --stream j --answers k",
            NO_FAILURE,
            "file failed: j\n",
        ),
        (
            "sniff --answers k --stream i",
            NO_FAILURE,
            "file failed: k\n",
        ),
    ];
    for (line, fail_at, printed) in cases {
        let mut files = two_files(alloc, b"x", b"", fail_at)?;
        let outcome = outcome_of(alloc, line, &mut files, &mut quiet_net(alloc)?)?;
        assert_eq!(rt; outcome.status, Status::File.code(), "{line}");
        assert_eq!(rt; outcome.out.bytes(), printed.as_bytes(), "{line}");
    }
    Ok(())
}

#[test]
fn a_file_over_the_limit_is_refused(rt: HostRuntime) -> Result<(), Fail> {
    let alloc = rt.alloc();
    let long = vec![in alloc; b'B'; FILE_MOST + 1]?;
    let refused = "image refused: fault 1\n";
    check(&rt, alloc, LISTED, &long, b"", Status::Image, refused)?;
    check(&rt, alloc, LISTED, b"x", &long, Status::Image, refused)
}

/// A byte of a stream that makes no edge changes nothing but the time.
const LIGHT_DRAWN: &str = "$timescale 1 us $end\n$scope module jtag $end\n$var wire 1 ! tck $end\n\
$var wire 1 \" tms $end\n$var wire 1 # tdi $end\n$var wire 1 $ trst $end\n$var wire 1 % tdo $end\n\
$var reg 4 & tap_state $end\n$var event 1 ' dmi $end\n$var reg 3 ( dmi_kind $end\n\
$var reg 7 ) dmi_address $end\n$var reg 32 * dmi_value $end\n$upscope $end\n$enddefinitions $end\n\
#0\n0!\n0\"\n0#\n0$\nx%\nb0000 &\n#1\n0!\n0\"\n0#\n0$\nx%\nb0000 &\n";

#[test]
fn a_recording_is_drawn(rt: HostRuntime) -> Result<(), Fail> {
    check(
        &rt,
        rt.alloc(),
        DRAWN,
        b"B",
        b"",
        Status::Clean,
        LIGHT_DRAWN,
    )
}

#[test]
fn a_sink_that_fails_gives_its_status(rt: HostRuntime) -> Result<(), Fail> {
    let alloc = rt.alloc();
    let idcode = idcode_stream(alloc)?;
    let cases: [(&[u8], usize, u32, &str); 3] = [
        (IDCODE_ANSWERS, 7, NO_FAILURE, "dr 0x01"),
        (IDCODE_ANSWERS, AMPLE, 0, ""),
        (b"1", 7, NO_FAILURE, "answers"),
    ];
    for (answers, room, fail_at, printed) in cases {
        let words = word_list(alloc, LISTED)?;
        let mut files = two_files(alloc, &idcode, answers, NO_FAILURE)?;
        let mut net = quiet_net(alloc)?;
        let mut listed = Vec::new(alloc);
        listed.push(fail_at)?;
        let mut out = MemorySink::new(alloc, room, listed)?;
        let mut bench = Bench::blank();
        let ended = run_once(alloc, &words, &mut files, &mut net, &mut out, &mut bench);
        assert_eq!(rt; ended.code(), Status::Sink.code());
        assert_eq!(rt; out.bytes(), printed.as_bytes());
    }
    Ok(())
}
