//! How often a session has memory accessed, which the chip's journal notes.

use super::sessions::{FAULTY, FAULTY_BUS, Row, check_row};
use super::{PROGRAM, quiet_net};
use std::test::Fail;

/// Four elements, up to the end of RAM.
const FOUR_READ: Row = Row {
    image: PROGRAM,
    script: b"read 8 0x8000ffe0 4\n",
    status: 0,
    printed: "0x000000008000ffe0 0x0000000000000000
0x000000008000ffe8 0x0000000000000000
0x000000008000fff0 0x0000000000000000
0x000000008000fff8 0x0000000000000000
",
};

/// A read at an address that is no multiple of its size.
const MISALIGNED: Row = Row {
    image: PROGRAM,
    script: b"reg x8 0x11\nreg x9 0x22\nread 8 0x8000fffc\nreg x8\nreg x9\n",
    status: 1,
    printed: "x8 0x0000000000000011
x9 0x0000000000000022
error: memory fault at 0x000000008000fffc
x8 0x0000000000000011
x9 0x0000000000000022
",
};

/// The same over the system bus.
const MISALIGNED_BUS: Row = Row {
    image: PROGRAM,
    script: b"via bus\nreg x8 0x11\nreg x9 0x22\nread 8 0x8000fffc\nreg x8\nreg x9\n",
    status: 1,
    printed: "via bus
x8 0x0000000000000011
x9 0x0000000000000022
error: memory fault at 0x000000008000fffc
x8 0x0000000000000011
x9 0x0000000000000022
",
};

// An access outside RAM is made and faults, and one that is misaligned is not made.
#[test]
fn each_access_is_counted(rt: HostRuntime) -> Result<(), Fail> {
    let alloc = rt.alloc();
    let cases = [
        (FOUR_READ, 4),
        (MISALIGNED, 0),
        (MISALIGNED_BUS, 0),
        (FAULTY, 1),
        (FAULTY_BUS, 1),
    ];
    for (row, count) in cases {
        let bench = check_row(&rt, alloc, "", &row, &mut quiet_net(alloc)?)?;
        assert_eq!(rt; bench.journal().accesses(), count);
    }
    Ok(())
}
