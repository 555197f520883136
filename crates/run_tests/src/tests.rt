//! Runs as a person makes them, over files, nets and sinks in memory. Expected values are the printed formats' and the standard's, or found by hand.

ghost use Rattle.std.specs.Prelude.{◌≡◌, ◌<◌, None, IfOk};

mod accesses;
mod chained;
mod elf;
mod generated;
mod loopback;
mod probe;
mod recorded;
mod refused;
mod served;
mod sessions;
mod soft;

use chip_core::Bench;
use jt_base::{DiskFiles, Files, MemoryFile, MemoryFiles, MemorySink, Sink};
use jtag_net::MemoryNet;
use jtag_run::{FarSide, Status, run};
use sessions::STEPPED;
use std::alloc::{AllocError, Global};
use std::process::Abort;
use std::test::Fail;
use std::{fs, process};
use sys_events::SeedSchedule;

/// Room for everything that a run prints.
const AMPLE: usize = 4096;

/// The number of a call that no run of these makes.
const NO_FAILURE: u32 = u32::MAX;

/// x5 = 5; then x5 = x5 + 1 again and again.
const PROGRAM: &[u8] = &[
    0x93, 0x02, 0x50, 0x00, 0x93, 0x82, 0x12, 0x00, 0x6f, 0xf0, 0xdf, 0xff,
];

/// The words of a line.
fn word_list(alloc: Global, line: &str) -> Result<Vec<String>, AllocError> {
    let mut list = Vec::new(alloc);
    for word in line.split_whitespace() {
        list.push(String::from_str(alloc, word)?)?;
    }
    Ok(list)
}

/// Files named `i` and `s`, of which the call `fail_at` is to fail where it is below 2.
fn two_files(
    alloc: Global,
    image: &[u8],
    script: &[u8],
    fail_at: u32,
) -> Result<MemoryFiles, AllocError> {
    let mut files = Vec::new(alloc);
    files.push(MemoryFile::new(String::from_str(alloc, "i")?, image.to_vec(alloc)?))?;
    files.push(MemoryFile::new(String::from_str(alloc, "s")?, script.to_vec(alloc)?))?;
    let mut listed = Vec::new(alloc);
    listed.push(fail_at)?;
    Ok(MemoryFiles::new(alloc, files, listed))
}

/// A net that gives this input, in pieces of at most so many bytes, and whose call `fail_at` fails: the first is the opening.
fn net_of(
    alloc: Global,
    input: &[u8],
    piece: usize,
    room: usize,
    fail_at: u32,
) -> Result<MemoryNet, AllocError>
    requires { 0 < piece }
    ensures { IfOk result (λ net. net.opening ≡ None) }
{
    let mut listed = Vec::new(alloc);
    listed.push(fail_at)?;
    MemoryNet::new(alloc, input.to_vec(alloc)?, piece, room, listed)
}

/// A net that no run of these opens.
fn quiet_net(alloc: Global) -> Result<MemoryNet, AllocError>
    ensures { IfOk result (λ net. net.opening ≡ None) }
{
    net_of(alloc, b"", 1, 0, NO_FAILURE)
}

/// One run, of which nothing is known here but that it ends: a test looks at what came out.
fn run_once<F: Files, N: FarSide, K: Sink>(
    alloc: Global,
    words: &[String],
    files: &mut F,
    net: &mut N,
    out: &mut K,
    bench: &mut Bench<SeedSchedule>,
) -> Status
    requires { (N.state net.old).ties.opening ≡ None }
{
    run(alloc, words, files, net, out, bench)
}

/// What a run came to.
#[derive(Drop)]
struct Outcome {
    status: u8,
    out: MemorySink,
    bench: Bench<SeedSchedule>,
}

/// A run of the words of this line.
fn outcome_of<F: Files, N: FarSide>(
    alloc: Global,
    line: &str,
    files: &mut F,
    net: &mut N,
) -> Result<Outcome, Fail>
    requires { (N.state net.old).ties.opening ≡ None }
{
    let words = word_list(alloc, line)?;
    let mut out = MemorySink::new(alloc, AMPLE, Vec::new(alloc))?;
    let mut bench = Bench::blank();
    let status = run_once(alloc, &words, files, net, &mut out, &mut bench).code();
    Ok(Outcome { status, out, bench })
}

/// What the files hold, and which of the calls on them fails.
#[derive(Clone, Copy)]
struct Held<'a> {
    image: &'a [u8],
    script: &'a [u8],
    fail_at: u32,
}

/// A run of these words over these files: its status, and what it prints.
fn check_files<F: Files>(
    rt: &impl Abort,
    alloc: Global,
    line: &str,
    files: &mut F,
    status: Status,
    printed: &str,
) -> Result<(), Fail> {
    let outcome = outcome_of(alloc, line, files, &mut quiet_net(alloc)?)?;
    assert_eq!(rt; outcome.status, status.code(), "{line}");
    assert_eq!(rt; outcome.out.bytes(), printed.as_bytes(), "{line}");
    Ok(())
}

/// The same over files in memory.
fn check_words(
    rt: &impl Abort,
    alloc: Global,
    line: &str,
    held: Held,
    status: Status,
    printed: &str,
) -> Result<(), Fail> {
    let mut files = two_files(alloc, held.image, held.script, held.fail_at)?;
    check_files(rt, alloc, line, &mut files, status, printed)
}

#[test]
fn a_sink_that_fails_gives_its_status(rt: HostRuntime) -> Result<(), Fail> {
    let alloc = rt.alloc();
    let words = word_list(alloc, "both --image i --script s --halted")?;
    let cases: [(&[u8], usize, u32, &str); 5] = [
        (STEPPED.script, AMPLE, 0, ""),
        (b"idcode", AMPLE, 0, ""),
        (b"idcode", 9, NO_FAILURE, "idcode 0x"),
        (b"nothing", AMPLE, 0, ""),
        (b"nothing", 6, NO_FAILURE, "script"),
    ];
    for (script, room, fail_at, printed) in cases {
        let mut files = two_files(alloc, PROGRAM, script, NO_FAILURE)?;
        let mut net = quiet_net(alloc)?;
        let mut listed = Vec::new(alloc);
        listed.push(fail_at)?;
        let mut out = MemorySink::new(alloc, room, listed)?;
        let mut bench = Bench::blank();
        let ended = run_once(alloc, &words, &mut files, &mut net, &mut out, &mut bench);
        assert_eq!(rt; ended.code(), 8);
        assert_eq!(rt; out.bytes(), printed.as_bytes());
    }
    Ok(())
}

#[test]
fn files_on_disk_are_read(rt: HostRuntime) -> Result<(), Fail> {
    let alloc = rt.alloc();
    let script = format!(in alloc; "/tmp/jtag_bench_script_{}", process::id(rt.process()))?;
    let image = format!(in alloc; "/tmp/jtag_bench_image_{}", process::id(rt.process()))?;
    fs::write(&rt, script.as_str(), "idcode\n")?;
    fs::write(&rt, image.as_str(), "")?;
    let found = format!(in alloc; "both --image {image} --script {script}")?;
    let absent = format!(in alloc; "both --image {image} --script /tmp/no/such")?;
    let mut files = DiskFiles::new(&rt);
    let line = "idcode 0x10d64001\n";
    check_files(&rt, alloc, found.as_str(), &mut files, Status::Clean, line)?;
    let refused = "file failed: /tmp/no/such\n";
    check_files(
        &rt,
        alloc,
        absent.as_str(),
        &mut files,
        Status::File,
        refused,
    )?;
    assert_eq!(rt; files.faults(), 1);
    fs::remove_file(&rt, script.as_str())?;
    fs::remove_file(&rt, image.as_str())?;
    Ok(())
}
