//! Where harts stop and go on: at a breakpoint alone, beside a slot, at an ebreak of the program's own, and with two harts.

use crate::chips::PROGRAM;
use crate::rows::{Row, check_rows};
use probe_session::Ended;
use std::test::Fail;

/// `addi x5, x0, 5`; then from 0x80000004 on `addi x5, x5, 1`, `auipc x6, 0`, `sd x5, 120(x6)`, `ld x7, 120(x6)`, `add x28, x28, x7` and a jump back. What it
/// stores stands at 0x80000080.
const STORING: &[u8] = &[
    0x93, 0x02, 0x50, 0x00, 0x93, 0x82, 0x12, 0x00, 0x17, 0x03, 0x00, 0x00, 0x23, 0x3c, 0x53, 0x06,
    0x83, 0x33, 0x83, 0x07, 0x33, 0x0e, 0x7e, 0x00, 0x6f, 0xf0, 0xdf, 0xfe,
];

const STEPPED: Row = Row {
    image: PROGRAM,
    harts: 1,
    script: "soft 0x80000008
step 2
state
step
reg x5
resume
wait
reg x5
step 3
reg x5
resume
wait
unsoft 0x80000008
break 0x80000004
resume
wait
reg x5
",
    printed: "soft 0x0000000080000008 set
halted at 0x0000000080000008 by step
halted at 0x0000000080000008 by step
halted at 0x0000000080000004 by step
x5 0x0000000000000006
resumed
halted at 0x0000000080000008 by ebreak
x5 0x0000000000000007
halted at 0x0000000080000004 by step
x5 0x0000000000000008
resumed
halted at 0x0000000080000008 by ebreak
soft 0x0000000080000008 clear
slot 0 break 0x0000000080000004
resumed
halted at 0x0000000080000004 by trigger 0
x5 0x0000000000000009
",
    ended: Ended::Clean,
    changed: &[],
    covered: &[],
    accesses: 9,
};

/// Each word of the program has a breakpoint.
const ALL_COVERED: Row = Row {
    image: PROGRAM,
    harts: 1,
    script: "soft 0x80000000
soft 0x80000004
soft 0x80000008
resume
wait
step 4
reg x5
reg pc 0x80000000
step
reg x5
unsoft 0x80000004
resume
wait
reg x5
",
    printed: "soft 0x0000000080000000 set
soft 0x0000000080000004 set
soft 0x0000000080000008 set
resumed
halted at 0x0000000080000004 by ebreak
halted at 0x0000000080000004 by step
x5 0x0000000000000007
pc 0x0000000080000000
halted at 0x0000000080000004 by step
x5 0x0000000000000005
soft 0x0000000080000004 clear
resumed
halted at 0x0000000080000008 by ebreak
x5 0x0000000000000006
",
    ended: Ended::Clean,
    changed: &[],
    covered: &[0x8000_0000, 0x8000_0008],
    accesses: 21,
};

/// Of a slot and a breakpoint at one word the slot stops the hart. A slot that is armed where the hart stands already stops it once more.
const UNDER_A_SLOT: Row = Row {
    image: PROGRAM,
    harts: 1,
    script: "break 0x80000008
soft 0x80000008
resume
wait
reg x5
step
resume
wait
reg x5
clear 0
resume
wait
reg x5
break 0x80000008
resume
reg x5
resume
wait
reg x5
",
    printed: "slot 0 break 0x0000000080000008
soft 0x0000000080000008 set
resumed
halted at 0x0000000080000008 by trigger 0
x5 0x0000000000000006
halted at 0x0000000080000004 by step
resumed
halted at 0x0000000080000008 by trigger 0
x5 0x0000000000000007
slot 0 free
resumed
halted at 0x0000000080000008 by ebreak
x5 0x0000000000000008
slot 0 break 0x0000000080000008
halted at 0x0000000080000008 by trigger 0
x5 0x0000000000000008
resumed
halted at 0x0000000080000008 by trigger 0
x5 0x0000000000000009
",
    ended: Ended::Clean,
    changed: &[],
    covered: &[0x8000_0008],
    accesses: 11,
};

/// A word with an ebreak stores nothing, so a watchpoint on what its own instruction stores waits until the hart steps over it.
const STORE_WATCHED: Row = Row {
    image: STORING,
    harts: 1,
    script: "soft 0x8000000c
watch store 0x80000080
resume
wait
resume
read 8 0x80000080
resume
wait
read 8 0x80000080
reg x5
",
    printed: "soft 0x000000008000000c set
slot 0 watch store 0x0000000080000080
resumed
halted at 0x000000008000000c by ebreak
halted at 0x000000008000000c by trigger 0
0x0000000080000080 0x0000000000000000
resumed
halted at 0x000000008000000c by ebreak
0x0000000080000080 0x0000000000000006
x5 0x0000000000000007
",
    ended: Ended::Clean,
    changed: &[(0x8000_0080, 6)],
    covered: &[0x8000_000c],
    accesses: 9,
};

/// A word that the program stores to and loads has a breakpoint while a watchpoint holds the hart in front of the access, and none while the access is made.
const DATA_WATCHED: Row = Row {
    image: STORING,
    harts: 1,
    script: "soft 0x80000080
watch store 0x80000080
resume
wait
read 8 0x80000080
unsoft 0x80000080
resume
wait
read 8 0x80000080
reg x7
watch load 0x80000083
resume
wait
soft 0x80000080
state
read 4 0x80000080
unsoft 0x80000080
step
reg x7
soft 0x80000080
",
    printed: "soft 0x0000000080000080 set
slot 0 watch store 0x0000000080000080
resumed
halted at 0x000000008000000c by trigger 0
0x0000000080000080 0x0000000000000000
soft 0x0000000080000080 clear
resumed
halted at 0x000000008000000c by trigger 0
0x0000000080000080 0x0000000000000006
x7 0x0000000000000006
slot 1 watch load 0x0000000080000083
resumed
halted at 0x0000000080000010 by trigger 1
soft 0x0000000080000080 set
halted at 0x0000000080000010 by trigger 1
0x0000000080000080 0x00000007
soft 0x0000000080000080 clear
halted at 0x0000000080000014 by step
x7 0x0000000000000007
soft 0x0000000080000080 set
",
    ended: Ended::Clean,
    changed: &[(0x8000_0080, 7)],
    covered: &[0x8000_0080],
    accesses: 12,
};

/// A step over the breakpoint counts as any other executed turn.
const COUNTED: Row = Row {
    image: PROGRAM,
    harts: 1,
    script: "soft 0x80000008
resume
wait
count 1
resume
wait
reg x5
",
    printed: "soft 0x0000000080000008 set
resumed
halted at 0x0000000080000008 by ebreak
slot 0 count 1
resumed
halted at 0x0000000080000004 by trigger 0
x5 0x0000000000000006
",
    ended: Ended::Clean,
    changed: &[],
    covered: &[0x8000_0008],
    accesses: 5,
};

/// The program's own first word is an ebreak, which halts the hart with and without a breakpoint there.
const OWN_EBREAK: Row = Row {
    image: &[0x73, 0x00, 0x10, 0x00],
    harts: 1,
    script: "soft 0x80000000
resume
step
step 3
read 4 0x80000000
unsoft 0x80000000
step
resume
wait
",
    printed: "soft 0x0000000080000000 set
halted at 0x0000000080000000 by ebreak
halted at 0x0000000080000000 by ebreak
halted at 0x0000000080000000 by ebreak
0x0000000080000000 0x00100073
soft 0x0000000080000000 clear
halted at 0x0000000080000000 by ebreak
resumed
halted at 0x0000000080000000 by ebreak
",
    ended: Ended::Clean,
    changed: &[],
    covered: &[],
    accesses: 10,
};

/// Both harts stop at the word. While one steps over it the other stands, and neither goes past it unseen: x5 counts each turn of the loop.
const TWO_HARTS: Row = Row {
    image: PROGRAM,
    harts: 2,
    script: "soft 0x80000008
resume
wait
hart 1
resume
wait
reg x5
step
reg x5
hart 0
state
reg x5
resume
wait
reg x5
hart 1
state
resume
wait
reg x5
hart 0
state
reg x5
",
    printed: "soft 0x0000000080000008 set
resumed
halted at 0x0000000080000008 by ebreak
hart 1
resumed
halted at 0x0000000080000008 by ebreak
x5 0x0000000000000006
halted at 0x0000000080000004 by step
x5 0x0000000000000006
hart 0
halted at 0x0000000080000008 by ebreak
x5 0x0000000000000006
resumed
halted at 0x0000000080000008 by ebreak
x5 0x0000000000000007
hart 1
halted at 0x0000000080000004 by step
resumed
halted at 0x0000000080000008 by ebreak
x5 0x0000000000000007
hart 0
halted at 0x0000000080000008 by ebreak
x5 0x0000000000000007
",
    ended: Ended::Clean,
    changed: &[],
    covered: &[0x8000_0008],
    accesses: 7,
};

#[test]
fn harts_stop_in_front_of_the_word(rt: HostRuntime) -> Result<(), Fail> {
    let rows = [
        STEPPED,
        ALL_COVERED,
        UNDER_A_SLOT,
        STORE_WATCHED,
        DATA_WATCHED,
        COUNTED,
        OWN_EBREAK,
        TWO_HARTS,
    ];
    check_rows(&rt, rt.alloc(), &rows)
}
