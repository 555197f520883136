use super::bench::{
    ABSTRACTCS, Bench, COMMAND, DATA0, DMCONTROL, DMSTATUS, HALTSUM0, SBADDRESS0, SBCS, SBDATA0,
};
use crate::{Module, Performed};
use debug_model::{DmiOp, Point};
use hart_debug::{DebugHart, Start};
use rv_model::Version;

/// What the journal has of an operation.
fn told_by(performed: &Performed) -> [Option<Point>; 2] {
    let points = performed.points.as_slice();
    [points.get(0).copied(), points.get(1).copied()]
}

#[test]
fn selects_a_hart_and_then_asks_it(rt: HostRuntime) {
    // Whether hart 1 runs, a word of dmcontrol written before, one written then, what the journal has of that, and dmstatus and dmcontrol behind it.
    let cases = [
        (
            Start::Running,
            0,
            0x0000_0001,
            [None, None],
            0x000c_0383,
            0x0000_0001,
        ),
        (
            Start::Running,
            0,
            0x0001_0001,
            [None, None],
            0x000c_0c83,
            0x0001_0001,
        ),
        (
            Start::Running,
            0,
            0x0002_0001,
            [None, None],
            0x0000_c083,
            0x0002_0001,
        ),
        (
            Start::Running,
            0,
            0xffff_ffff,
            [None, None],
            0x0000_c083,
            0x03ff_0001,
        ),
        // Bits of no meaning here are ignored.
        (
            Start::Running,
            0,
            0x0c00_ffff,
            [None, None],
            0x000c_0383,
            0x0000_0001,
        ),
        (
            Start::Running,
            0,
            0x1001_0001,
            [None, None],
            0x0000_0c83,
            0x0001_0001,
        ),
        // Requests, of the hart that is selected by the same write.
        (
            Start::Running,
            0,
            0x8001_0001,
            [Some(Point::HaltReq(1)), None],
            0x000c_0c83,
            0x0001_0001,
        ),
        (
            Start::Running,
            0x8001_0001,
            0x0001_0001,
            [Some(Point::HaltClear(1)), None],
            0x000c_0c83,
            0x0001_0001,
        ),
        (
            Start::Running,
            0x8000_0001,
            0x0001_0001,
            [None, None],
            0x000c_0c83,
            0x0001_0001,
        ),
        (
            Start::Running,
            0x8001_0001,
            0x4001_0001,
            [Some(Point::HaltClear(1)), Some(Point::ResumeReq(1))],
            0x000c_0c83,
            0x0001_0001,
        ),
        (
            Start::Running,
            0,
            0x4001_0001,
            [Some(Point::ResumeReq(1)), None],
            0x000c_0c83,
            0x0001_0001,
        ),
        (
            Start::Running,
            0,
            0xc000_0001,
            [Some(Point::HaltReq(0)), None],
            0x000c_0383,
            0x0000_0001,
        ),
        (
            Start::Running,
            0x8000_0001,
            0x8000_0001,
            [Some(Point::HaltReq(0)), None],
            0x000c_0383,
            0x0000_0001,
        ),
        // A module that is told to stop working asks nobody, and forgets the selection.
        (Start::Running, 0x0001_0001, 0x8001_0000, [None, None], 0, 0),
    ];
    for (second, before, word, told, status, control) in cases {
        let mut bench = Bench::new(rt.alloc(), second).expect(&rt, "the smallest RAM");
        bench.write(DMCONTROL, before);
        let performed = bench.perform(DmiOp::Write(DMCONTROL, word));
        assert_eq!(rt; performed.result, word);
        assert_eq!(rt; told_by(&performed), told);
        assert_eq!(rt; bench.read(DMSTATUS), status);
        assert_eq!(rt; bench.read(DMCONTROL), control);
    }
}

#[test]
fn notes_each_look(rt: HostRuntime) {
    let mut bench = Bench::new(rt.alloc(), Start::Running).expect(&rt, "the smallest RAM");
    assert!(rt; bench.perform(DmiOp::Read(DMSTATUS)).points.is_empty());
    for hart in [0, 1, 2, 1023] {
        let mut bench = Bench::new(rt.alloc(), Start::Running).expect(&rt, "the smallest RAM");
        bench.write(DMCONTROL, (u32::from(hart) << 16) + 1);
        let performed = bench.perform(DmiOp::Read(DMSTATUS));
        assert_eq!(rt; told_by(&performed), [Some(Point::Look(hart)), None]);
        assert!(rt; bench.perform(DmiOp::Read(HALTSUM0)).points.is_empty());
        assert!(rt; bench.perform(DmiOp::Write(DMSTATUS, 1)).points.is_empty());
    }
}

#[test]
fn shows_the_halted_harts_of_the_first_group(rt: HostRuntime) {
    for (second, bits) in [(Start::Running, 1), (Start::Halted, 3)] {
        for (hart, shown) in [
            (0, bits),
            (1, bits),
            (31, bits),
            (32, 0),
            (63, 0),
            (1023, 0),
        ] {
            let mut bench = Bench::new(rt.alloc(), second).expect(&rt, "the smallest RAM");
            bench.write(DMCONTROL, (hart << 16) + 1);
            assert_eq!(rt; bench.read(HALTSUM0), shown);
        }
    }
}

#[test]
fn reset_stops_what_is_under_way(rt: HostRuntime) {
    let mut bench = Bench::new(rt.alloc(), Start::Running).expect(&rt, "the smallest RAM");
    bench.write(DMCONTROL, 1);
    bench.write(SBADDRESS0, 0x8000_0000);
    bench.write(SBDATA0, 5);
    bench.write(DATA0, 5);
    bench.write(COMMAND, 0x0033_1008);
    assert_eq!(rt; bench.read(SBCS), 0x2024_080f);
    assert_eq!(rt; bench.read(ABSTRACTCS), 0x0400_1002);
    // A busy module ignores every other write of dmcontrol.
    assert!(rt;
        bench
            .perform(DmiOp::Write(DMCONTROL, 0x8001_0001))
            .points
            .is_empty()
    );
    assert_eq!(rt; bench.read(DMCONTROL), 1);
    bench.write(DMCONTROL, 0x8001_0000);
    assert!(rt; !bench.command_step());
    assert!(rt; !bench.bus_step());
    bench.write(DMCONTROL, 1);
    assert_eq!(rt; bench.read(SBCS), 0x2004_080f);
    assert_eq!(rt; bench.read(ABSTRACTCS), 0x0400_0002);
    assert_eq!(rt; bench.read(DATA0), 0);
    bench.run();
    assert_eq!(rt; bench.harts[0].hart().x(8), 0);
}

/// What `dmstatus` shows where dmcontrol was written so, on a chip of a release with one halted hart and one that runs.
fn status_of(version: Version, control: u32) -> u32 {
    let mut module = Module::of_version(version);
    let mut harts = [
        DebugHart::of_version(0, Start::Halted, version),
        DebugHart::of_version(1, Start::Running, version),
    ];
    let _ = module.perform(DmiOp::Write(DMCONTROL, 0), &mut harts);
    let _ = module.perform(DmiOp::Write(DMCONTROL, control), &mut harts);
    module.perform(DmiOp::Read(DMSTATUS), &mut harts).result
}

#[test]
fn dmstatus_shows_the_release(rt: HostRuntime) {
    // The field version: 2 for release 0.13, 3 for release 1.0 (RISC-V Debug Specification 1.0, "Debug Module Status").
    for (control, older, newer) in [
        (0x0000_0001, 0x000c_0382, 0x000c_0383),
        (0x0001_0001, 0x000c_0c82, 0x000c_0c83),
        (0x0002_0001, 0x0000_c082, 0x0000_c083),
    ] {
        assert_eq!(rt; status_of(Version::V013, control), older);
        assert_eq!(rt; status_of(Version::V10, control), newer);
    }
}
