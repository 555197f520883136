//! Words, files, scripts and images that are refused, and those that just are not.

use super::{Held, NO_FAILURE, check_words, outcome_of, quiet_net, two_files};
use jtag_run::Status;
use script_lang::MOST_TEXT;
use std::test::Fail;

/// The bytes of RAM where the words say nothing.
const RAM_UNSAID: usize = 65_536;

/// An empty image, and a script of one command.
const ONE: Held = Held {
    image: b"",
    script: b"idcode",
    fail_at: NO_FAILURE,
};

#[test]
fn words_say_what_chip_is_loaded(rt: HostRuntime) -> Result<(), Fail> {
    let (no_harts, no_ram) = ("image refused: fault 3\n", "image refused: fault 2\n");
    let all =
        "both --script s --harts 4 --ram 0x10000 --halted --seed 7 --busy 32 --piece 1 --image i";
    let cases = [
        (
            "both --image i --script s --harts 5",
            Status::Image,
            no_harts,
        ),
        (
            "both --image i --script s --harts 0 --ram 1",
            Status::Image,
            no_harts,
        ),
        (
            "both --image i --script s --ram 65537",
            Status::Image,
            no_ram,
        ),
        ("both --gen 1 --ram 65537", Status::Image, no_ram),
        (all, Status::Clean, "idcode 0x10d64001\n"),
    ];
    for (line, status, printed) in cases {
        check_words(&rt, rt.alloc(), line, ONE, status, printed)?;
    }
    Ok(())
}

#[test]
fn files_are_asked_for_in_order(rt: HostRuntime) -> Result<(), Fail> {
    let first = Held { fail_at: 0, ..ONE };
    let second = Held { fail_at: 1, ..ONE };
    let faulty = Held {
        script: b"foo",
        ..ONE
    };
    let refused = "script refused: line 1 fault 2\n";
    let cases = [
        (
            "both --image i --script s",
            first,
            Status::File,
            "file failed: s\n",
        ),
        (
            "both --image i --script s",
            second,
            Status::File,
            "file failed: i\n",
        ),
        (
            "both --image i --script t",
            ONE,
            Status::File,
            "file failed: t\n",
        ),
        (
            "both --image j --script s",
            ONE,
            Status::File,
            "file failed: j\n",
        ),
        ("both --image j --script s", faulty, Status::Script, refused),
    ];
    for (line, held, status, printed) in cases {
        check_words(&rt, rt.alloc(), line, held, status, printed)?;
    }
    Ok(())
}

#[test]
fn words_that_write_no_job_are_refused(rt: HostRuntime) -> Result<(), Fail> {
    let cases = [
        "",
        "both",
        "both --image i --script s x",
        "both --image i --script s --busy 33",
        "both --gen 1 --image i",
        "probe --at x",
        "chip --image i",
        "chip --at x --image i --script s",
    ];
    for line in cases {
        check_words(&rt, rt.alloc(), line, ONE, Status::Words, "words refused\n")?;
    }
    Ok(())
}

#[test]
fn a_script_over_the_limit_is_refused(rt: HostRuntime) -> Result<(), Fail> {
    let script = vec![in rt.alloc(); b'#'; MOST_TEXT + 1]?;
    let held = Held {
        script: &script,
        ..ONE
    };
    let refused = "script refused: line 0 fault 7\n";
    check_words(
        &rt,
        rt.alloc(),
        "both --image i --script s",
        held,
        Status::Script,
        refused,
    )
}

#[test]
fn an_image_fits_into_ram_or_is_refused(rt: HostRuntime) -> Result<(), Fail> {
    let alloc = rt.alloc();
    for (bytes, status) in [(RAM_UNSAID, 0), (RAM_UNSAID + 1, 5)] {
        let image = vec![in alloc; 0x13; bytes]?;
        let mut files = two_files(alloc, &image, b"", NO_FAILURE)?;
        let mut net = quiet_net(alloc)?;
        let outcome = outcome_of(alloc, "both --image i --script s", &mut files, &mut net)?;
        assert_eq!(rt; outcome.status, status);
        assert_eq!(rt; outcome.bench.is_loaded(), status == 0);
    }
    Ok(())
}
