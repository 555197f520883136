use super::{read, write};
use hart_debug::{DebugHart, Start};
use rv_model::Version;
use std::process::Abort;

/// Numbers of registers that do not exist: beside those that do.
const ABSENT: [u16; 12] = [
    0x000, 0x2ff, 0x302, 0x345, 0x79f, 0x7a3, 0x7a5, 0x7b2, 0xfff, 0xf15, 0x1020, 0xffff,
];

/// A register's number, what it reads at reset, and behind a write of all ones.
const KEPT: [(u16, u64, u64); 18] = [
    (0x300, 0x1800, 0x1888),
    (0x301, 0x8000_0000_0000_1101, 0x8000_0000_0000_1101),
    (0x304, 0, 8),
    (0x305, 0, 0xffff_ffff_ffff_fffd),
    (0x340, 0, u64::MAX),
    (0x341, 0, 0xffff_ffff_ffff_fffc),
    (0x342, 0, u64::MAX),
    (0x343, 0, u64::MAX),
    (0x344, 0, 0),
    (0x7a0, 0, 3),
    (0x7a1, 0xf800_0000_0000_0000, 0xf800_0000_0000_0000),
    (0x7a2, 0, u64::MAX),
    (0x7a4, 0x0100_8048, 0x0100_8048),
    (0x7b0, 0x4000_0143, 0x4000_8947),
    (0x7b1, 0x8000_0000, 0xffff_ffff_ffff_fffc),
    (0x1000, 0, 0),
    (0x1001, 0, u64::MAX),
    (0x101f, 0, u64::MAX),
];

/// Each register but the one that was written is as at reset.
fn check_others(rt: &impl Abort, hart: &DebugHart, written: u16) {
    for (regno, reset, _) in KEPT {
        if regno != written {
            assert_eq!(rt; read(hart, regno), Some(reset));
        }
    }
}

fn check_kept(rt: &impl Abort, (regno, reset, kept): (u16, u64, u64)) {
    let mut hart = DebugHart::new(2, Start::Halted);
    assert_eq!(rt; read(&hart, regno), Some(reset));
    assert!(rt; write(&mut hart, regno, u64::MAX));
    assert_eq!(rt; read(&hart, regno), Some(kept));
    assert!(rt; hart.is_halted() && hart.have_reset());
    check_others(rt, &hart, regno);
}

/// A write is refused, and the register reads the same before and after, or is not there.
fn check_refused(rt: &impl Abort, hart: &mut DebugHart, regno: u16, value: Option<u64>) {
    assert_eq!(rt; read(hart, regno), value);
    assert!(rt; !write(hart, regno, 7));
    assert_eq!(rt; read(hart, regno), value);
}

#[test]
fn registers_keep_their_bits(rt: HostRuntime) {
    for row in KEPT {
        check_kept(&rt, row);
    }
    let mut hart = DebugHart::new(2, Start::Halted);
    for (regno, value) in [(0xf11, 0), (0xf12, 0), (0xf13, 0), (0xf14, 2)] {
        check_refused(&rt, &mut hart, regno, Some(value));
    }
    for regno in ABSENT {
        check_refused(&rt, &mut hart, regno, None);
    }
    // The cause that dcsr shows is the halt's, whatever is written.
    assert!(rt; write(&mut hart, 0x7b0, 0));
    assert_eq!(rt; read(&hart, 0x7b0), Some(0x4000_0143));
}

/// A word of `tdata1`, and what a hart of release 0.13 and one of release 1.0 keep of it: an address trigger of the one's type, of the
/// other's, a count, and a type that neither has
/// (RISC-V External Debug Support 0.13.2, "Match Control"; RISC-V Debug Specification 1.0, "Match Control Type 6").
const TRIGGERS: [(u64, u64, u64); 7] = [
    (0x2800_0000_0000_1044, 0x2800_0000_0000_1044, DISABLED),
    (0x2800_0000_0010_1044, 0x2800_0000_0010_1044, DISABLED),
    (0x2fff_ffff_ffff_ffff, 0x2800_0000_0010_1047, DISABLED),
    (0x6800_0000_0000_1044, DISABLED, 0x6800_0000_0000_1044),
    (0x6fff_ffff_ffff_ffff, DISABLED, 0x6800_0000_0040_1047),
    (
        0x3800_0000_0000_0601,
        0x3800_0000_0000_0601,
        0x3800_0000_0000_0601,
    ),
    (0x4800_0000_0000_0000, DISABLED, DISABLED),
];

const DISABLED: u64 = 0xf800_0000_0000_0000;

#[test]
fn triggers_go_by_the_release(rt: HostRuntime) {
    for (version, types) in [(Version::V013, 0x800c), (Version::V10, 0x0100_8048)] {
        let mut hart = DebugHart::of_version(2, Start::Halted, version);
        assert_eq!(rt; read(&hart, 0x7a4), Some(types));
        assert_eq!(rt; read(&hart, 0x7a1), Some(DISABLED));
        for (word, older, newer) in TRIGGERS {
            assert!(rt; write(&mut hart, 0x7a1, word));
            let kept = if version == Version::V013 {
                older
            } else {
                newer
            };
            assert_eq!(rt; read(&hart, 0x7a1), Some(kept));
        }
        // The debug version of dcsr is 4 in both.
        assert_eq!(rt; read(&hart, 0x7b0), Some(0x4000_0143));
    }
}
