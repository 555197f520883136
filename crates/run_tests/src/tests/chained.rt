//! Sessions on the chip of a chain: in one process, and of a probe with a chain that is served.

use super::sessions::{ROWS, check_row, counted};
use super::{
    AMPLE, Held, NO_FAILURE, PROGRAM, check_words, net_of, outcome_of, quiet_net, two_files,
};
use debug_model::Net;
use jtag_run::Status;
use std::alloc::Global;
use std::test::Fail;

/// A script of one command, and what it prints.
const IDENTIFIED: Held = Held {
    image: b"",
    script: b"idcode",
    fail_at: NO_FAILURE,
};

const IDENTIFICATION: &str = "idcode 0x10d64001\n";

#[test]
fn rows_print_their_lines_in_a_chain(rt: HostRuntime) -> Result<(), Fail> {
    let alloc = rt.alloc();
    for row in ROWS {
        check_row(&rt, alloc, "--chain 4,t,6", &row, &mut quiet_net(alloc)?)?;
        let slow = "--chain 4,t,6 --busy 32 --harts 4";
        check_row(&rt, alloc, slow, &row, &mut quiet_net(alloc)?)?;
    }
    Ok(())
}

// From 2 to 8 TAPs, with the chip first, last and between others.
#[test]
fn the_chip_is_found_at_every_place(rt: HostRuntime) -> Result<(), Fail> {
    let lists = [
        "8,t",
        "t,8",
        "2,3,t",
        "t,2,3",
        "2,t,3",
        "5,5,t,5,5",
        "2,3,4,5,6,7,8,t",
        "t,2,3,4,5,6,7,8",
        "2,3,4,t,5,6,7,8",
    ];
    for list in lists {
        for busy in [1, 32] {
            let line = format!(in rt.alloc();
                "both --image i --script s --busy {busy} --chain {list}"
            )?;
            check_words(
                &rt,
                rt.alloc(),
                line.as_str(),
                IDENTIFIED,
                Status::Clean,
                IDENTIFICATION,
            )?;
        }
    }
    Ok(())
}

// Each device has a bit of its own in every scan of data, and as many as its instruction register in every scan of instructions: so that those of the words are
// there shows in how many rounds pass.
#[test]
fn each_device_takes_rounds(rt: HostRuntime) -> Result<(), Fail> {
    let mut before = 0;
    for chain in [
        "",
        "--chain 2,t",
        "--chain 3,t",
        "--chain 4,t,6",
        "--chain 2,3,4,t,5,6,7,8",
    ] {
        let (rounds, _, looks) = counted(rt.alloc(), chain)?;
        assert!(rt; before < rounds, "{chain}");
        assert_eq!(rt; looks, 1, "{chain}");
        before = rounds;
    }
    Ok(())
}

#[test]
fn a_chain_opens_no_net(rt: HostRuntime) -> Result<(), Fail> {
    let alloc = rt.alloc();
    for words in ["both --image i --script s", "both --gen 1"] {
        let line = format!(in alloc; "{words} --chain 4,t,6")?;
        let mut files = two_files(alloc, b"", b"idcode", NO_FAILURE)?;
        // Its first call would fail.
        let mut net = net_of(alloc, b"", 1, AMPLE, 0)?;
        let outcome = outcome_of(alloc, line.as_str(), &mut files, &mut net)?;
        assert_eq!(rt; outcome.status, 0, "{words}");
        assert_eq!(rt; (net.faults(), net.ends()), (0, 0), "{words}");
    }
    Ok(())
}

#[test]
fn lists_of_no_chain_are_refused(rt: HostRuntime) -> Result<(), Fail> {
    for more in ["--chain t", "--chain 4,4", "--chain t,8 --loopback"] {
        let line = format!(in rt.alloc(); "both --image i --script s {more}")?;
        let refused = "words refused\n";
        check_words(
            &rt,
            rt.alloc(),
            line.as_str(),
            IDENTIFIED,
            Status::Words,
            refused,
        )?;
    }
    Ok(())
}

/// The most bytes of the stream that is played again.
const STREAM_MOST: usize = 65_536;

/// What a served chain of these TAPs answers to this stream.
fn answers_to(alloc: Global, list: &str, stream: &[u8]) -> Result<Vec<u8>, Fail> {
    let line = format!(in alloc; "chip --at x --image i --halted --chain {list}")?;
    let mut files = two_files(alloc, PROGRAM, b"", NO_FAILURE)?;
    let mut net = net_of(alloc, stream, 256, STREAM_MOST, NO_FAILURE)?;
    outcome_of(alloc, line.as_str(), &mut files, &mut net)?;
    Ok(net.sent().to_vec(alloc)?)
}

// A probe that was given the chain's answers to what it put goes on until it needs the next ones.
#[test]
fn a_stream_played_to_a_served_chain_is_the_session(rt: HostRuntime) -> Result<(), Fail> {
    let alloc = rt.alloc();
    for list in ["4,t,6", "t,8", "8,t"] {
        let line = format!(in alloc; "probe --at x --script s --chain {list}")?;
        let mut input = Vec::new(alloc);
        let mut status = 7;
        for _ in 0..200 {
            let mut files = two_files(alloc, b"", b"hart 7\nidcode\n", NO_FAILURE)?;
            let mut net = net_of(alloc, &input, 256, STREAM_MOST, NO_FAILURE)?;
            let outcome = outcome_of(alloc, line.as_str(), &mut files, &mut net)?;
            status = outcome.status;
            if status != 7 {
                let printed = b"error: no hart 7\nidcode 0x10d64001\n".as_slice();
                assert_eq!(rt; outcome.out.bytes(), printed, "{list}");
                break;
            }
            input = answers_to(alloc, list, net.sent())?;
        }
        assert_eq!(rt; status, 1, "{list}");
    }
    Ok(())
}

// What goes out for a scan of the chip alone is not what a chain takes: its neighbour's identification is read for the chip's registers.
#[test]
fn a_probe_that_knows_of_no_chain_finds_no_chip(rt: HostRuntime) -> Result<(), Fail> {
    let alloc = rt.alloc();
    let mut input = Vec::new(alloc);
    let mut status = 7;
    for _ in 0..20 {
        let mut files = two_files(alloc, b"", b"idcode", NO_FAILURE)?;
        let mut net = net_of(alloc, &input, 256, STREAM_MOST, NO_FAILURE)?;
        let line = "probe --at x --script s";
        let outcome = outcome_of(alloc, line, &mut files, &mut net)?;
        status = outcome.status;
        if status != 7 {
            break;
        }
        input = answers_to(alloc, "t,8", net.sent())?;
    }
    assert_eq!(rt; status, 6);
    Ok(())
}
