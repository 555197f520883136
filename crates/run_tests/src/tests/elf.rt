//! Runs whose probe loads an ELF file: which files they ask for, what they refuse, and what they leave open.

use super::sessions::STEPPED;
use super::{
    AMPLE, Held, NO_FAILURE, Outcome, PROGRAM, check_words, net_of, outcome_of, quiet_net,
    two_files,
};
use arrayvec::ArrayVec;
use bench_links::BenchNet;
use chip_core::Bench;
use debug_model::Net;
use hart_debug::Start;
use jtag_run::Status;
use rv_model::Size;
use std::alloc::Global;
use std::test::Fail;
use sys_events::SeedSchedule;

/// An executable for RISC-V whose one segment stands at the start of RAM: the program's 12 bytes and four zeros. It begins at the program's second instruction
/// (System V ABI, "ELF Header" and "Program Header").
const FILE: &[u8; 132] = &[
    0x7f, b'E', b'L', b'F', 2, 1, 1, 0, 0, 0, 0, 0, 0, 0, 0, 0, 2, 0, 243, 0, 1, 0, 0, 0, 4, 0, 0,
    0x80, 0, 0, 0, 0, 64, 0, 0, 0, 0, 0, 0, 0, 0, 0, 0, 0, 0, 0, 0, 0, 0, 0, 0, 0, 64, 0, 56, 0, 1,
    0, 0, 0, 0, 0, 0, 0, 1, 0, 0, 0, 5, 0, 0, 0, 120, 0, 0, 0, 0, 0, 0, 0, 0, 0, 0, 0x80, 0, 0, 0,
    0, 0, 0, 0, 0x80, 0, 0, 0, 0, 12, 0, 0, 0, 0, 0, 0, 0, 16, 0, 0, 0, 0, 0, 0, 0, 8, 0, 0, 0, 0,
    0, 0, 0, 0x93, 0x02, 0x50, 0x00, 0x93, 0x82, 0x12, 0x00, 0x6f, 0xf0, 0xdf, 0xff,
];

/// The bytes of the smallest RAM.
const RAM_LEAST: u64 = 65_536;

/// The start of RAM.
const RAM: u64 = 0x8000_0000;

/// The file, and a script of one command.
const LOADED: Held = Held {
    image: FILE,
    script: b"reg pc",
    fail_at: NO_FAILURE,
};

const PRINTED: &str = "loaded 16\npc 0x0000000080000004\n";

#[test]
fn the_file_is_asked_for_behind_the_script(rt: HostRuntime) -> Result<(), Fail> {
    let line = "both --elf i --script s";
    let faulty = Held {
        script: b"foo",
        ..LOADED
    };
    let neither = Held {
        image: PROGRAM,
        ..faulty
    };
    let raw = Held {
        image: PROGRAM,
        ..LOADED
    };
    let (first, second) = (0, 1);
    let refused = "script refused: line 1 fault 2\n";
    let cases = [
        (line, LOADED, Status::Clean, PRINTED),
        (
            line,
            Held {
                fail_at: first,
                ..LOADED
            },
            Status::File,
            "file failed: s\n",
        ),
        (
            line,
            Held {
                fail_at: second,
                ..LOADED
            },
            Status::File,
            "file failed: i\n",
        ),
        (line, faulty, Status::Script, refused),
        (line, neither, Status::Script, refused),
        (line, raw, Status::Image, "image refused: fault 11\n"),
        (
            "both --elf j --script s",
            LOADED,
            Status::File,
            "file failed: j\n",
        ),
        (
            "both --elf i --script s --harts 5",
            raw,
            Status::Image,
            "image refused: fault 11\n",
        ),
        (
            "both --elf i --script s --harts 5",
            LOADED,
            Status::Image,
            "image refused: fault 3\n",
        ),
    ];
    for (line, held, status, printed) in cases {
        check_words(&rt, rt.alloc(), line, held, status, printed)?;
    }
    Ok(())
}

// The segment and the zeros behind it stand in memory, and nothing else.
#[test]
fn the_segment_stands_in_memory(rt: HostRuntime) -> Result<(), Fail> {
    let alloc = rt.alloc();
    let mut files = two_files(alloc, FILE, b"", NO_FAILURE)?;
    let mut net = quiet_net(alloc)?;
    let outcome = outcome_of(alloc, "both --elf i --script s", &mut files, &mut net)?;
    assert_eq!(rt; outcome.status, 0);
    assert!(rt; outcome.bench.is_loaded());
    if outcome.bench.is_loaded() {
        let memory = outcome.bench.ram();
        assert_eq!(rt;
            memory.load(RAM, Size::B8).ok(),
            Some(0x0012_8293_0050_0293)
        );
        assert_eq!(rt; memory.load(RAM + 8, Size::B8).ok(), Some(0xffdf_f06f));
        assert_eq!(rt; memory.load(RAM + 16, Size::B8).ok(), Some(0));
    }
    Ok(())
}

/// A run of a probe with the file over a net that ends at a chip whose hart stands so.
fn probed(alloc: Global, start: Start) -> Result<Outcome, Fail> {
    let mut files = two_files(alloc, FILE, b"reg pc", NO_FAILURE)?;
    let mut bench = Bench::blank();
    bench.load(alloc, &[], 1, RAM_LEAST, start, SeedSchedule::new(0, 1, 1))?;
    let mut net = BenchNet::new(&mut bench, 256, ArrayVec::new());
    outcome_of(
        alloc,
        "probe --at x --elf i --script s",
        &mut files,
        &mut net,
    )
}

#[test]
fn a_probe_loads_into_a_hart_that_is_halted(rt: HostRuntime) -> Result<(), Fail> {
    let halted = probed(rt.alloc(), Start::Halted)?;
    assert_eq!(rt; halted.out.bytes(), PRINTED.as_bytes());
    assert_eq!(rt; halted.status, 0);
    assert!(rt; !halted.bench.is_loaded());
    let running = probed(rt.alloc(), Start::Running)?;
    assert_eq!(rt;
        running.out.bytes(),
        b"error: hart 0 is running\n".as_slice()
    );
    assert_eq!(rt; running.status, 1);
    Ok(())
}

// The net's first call fails, so that it would be counted.
#[test]
fn no_net_is_asked_before_the_file_is_accepted(rt: HostRuntime) -> Result<(), Fail> {
    let alloc = rt.alloc();
    let cases = [
        (
            "probe --at x --elf i --script s",
            5,
            "image refused: fault 11\n",
        ),
        ("probe --at x --elf j --script s", 3, "file failed: j\n"),
        ("both --elf i --script s", 5, "image refused: fault 11\n"),
    ];
    for (line, status, printed) in cases {
        let mut files = two_files(alloc, PROGRAM, STEPPED.script, NO_FAILURE)?;
        let mut net = net_of(alloc, b"", 1, AMPLE, 0)?;
        let outcome = outcome_of(alloc, line, &mut files, &mut net)?;
        assert_eq!(rt; outcome.out.bytes(), printed.as_bytes(), "{line}");
        assert_eq!(rt; outcome.status, status, "{line}");
        assert!(rt; net.sent().is_empty());
        assert_eq!(rt; (net.faults(), net.ends()), (0, 0));
    }
    Ok(())
}
