use super::{FIRST, SECOND, ram_with, read, write};
use hart_debug::{DebugHart, Start, Turned};
use rv_mem::Ram;
use rv_model::{Cause, Did, SlotSet};

const TSELECT: u16 = 0x7a0;

const TDATA1: u16 = 0x7a1;

const TDATA2: u16 = 0x7a2;

/// The number of x7.
const X7: u16 = 0x1007;

/// What x7 holds: where the instructions read and write.
const DATA: u64 = 0x8000_0100;

const BREAK: u64 = 0x6800_0000_0000_1044;

const WATCH_LOAD: u64 = 0x6800_0000_0000_1041;

const WATCH_STORE: u64 = 0x6800_0000_0000_1042;

/// `hit0`
const HIT: u64 = 0x40_0000;

/// `ld x5, 0(x7)`
const LD: u64 = 0x0003_b283;

/// `lw x5, 0(x7)`
const LW: u64 = 0x0003_a283;

/// `sd x6, 0(x7)`
const SD: u64 = 0x0063_b023;

/// `lr.d x5, (x7)`
const LR: u64 = 0x1003_b2af;

/// `sc.d x5, x6, (x7)`
const SC: u64 = 0x1863_b2af;

/// `amoadd.d x5, x6, (x7)`
const AMOADD: u64 = 0x0063_b2af;

/// `j .`
const LOOP: u64 = 0x6f;

/// A running hart whose slot 1 has these registers.
fn armed(ram: &mut Ram, tdata1: u64, tdata2: u64) -> DebugHart {
    let mut hart = DebugHart::new(0, Start::Halted);
    let _ = write(&mut hart, X7, DATA);
    let _ = write(&mut hart, TSELECT, 1);
    let _ = write(&mut hart, TDATA1, tdata1);
    let _ = write(&mut hart, TDATA2, tdata2);
    hart.resume_request();
    let _ = hart.turn(ram);
    hart
}

#[test]
fn a_trigger_stops_before_the_instruction(rt: HostRuntime) {
    let cases = [
        (LD, BREAK, FIRST, true),
        (LD, BREAK, SECOND, false),
        (LD, WATCH_LOAD, DATA + 7, true),
        (LW, WATCH_LOAD, DATA + 7, false),
        (LD, WATCH_STORE, DATA, false),
        (SD, WATCH_STORE, DATA + 7, true),
        (SD, WATCH_STORE, DATA + 8, false),
        (SD, WATCH_LOAD, DATA, false),
        (LR, WATCH_LOAD, DATA + 3, true),
        (LR, WATCH_STORE, DATA + 3, false),
        // There is no reservation: this sc would fail.
        (SC, WATCH_STORE, DATA + 3, true),
        (SC, WATCH_LOAD, DATA + 3, false),
        (AMOADD, WATCH_LOAD, DATA + 3, true),
        (AMOADD, WATCH_STORE, DATA + 3, true),
        // A slot that is off.
        (LD, BREAK - 0x40, FIRST, false),
    ];
    for (word, tdata1, tdata2, stops) in cases {
        let mut ram = ram_with(rt.alloc(), word).expect(&rt, "the smallest RAM");
        let mut hart = armed(&mut ram, tdata1, tdata2);
        let expected = if stops { SlotSet(2) } else { SlotSet(0) };
        assert_eq!(rt; hart.fired(&ram), expected);
        if stops {
            assert_eq!(rt; hart.turn(&mut ram), Turned::Halted(Cause::Trigger));
            assert_eq!(rt; hart.hart().pc(), FIRST);
            assert_eq!(rt; read(&hart, TDATA1), Some(tdata1 | HIT));
            assert_eq!(rt; read(&hart, 0x7b0), Some(0x4000_0083));
        } else {
            assert_eq!(rt; hart.turn(&mut ram), Turned::Ran(Did::Retired));
            assert_eq!(rt; hart.hart().pc(), SECOND);
        }
    }
}

#[test]
fn a_count_falls_at_executed_turns_alone(rt: HostRuntime) {
    let mut ram = ram_with(rt.alloc(), LOOP).expect(&rt, "the smallest RAM");
    // A count of 2: the resume that came before is no executed turn.
    let mut hart = armed(&mut ram, 0x3800_0000_0000_0a01, 0);
    assert_eq!(rt; hart.turn(&mut ram), Turned::Ran(Did::Retired));
    hart.halt_request(true);
    assert_eq!(rt; hart.turn(&mut ram), Turned::Halted(Cause::HaltReq));
    assert_eq!(rt; hart.turn(&mut ram), Turned::Idle);
    assert_eq!(rt; read(&hart, TDATA1), Some(0x3800_0000_0000_0601));
    hart.halt_request(false);
    hart.resume_request();
    assert_eq!(rt; hart.turn(&mut ram), Turned::Resumed);
    assert_eq!(rt; hart.turn(&mut ram), Turned::Ran(Did::Retired));
    assert_eq!(rt; hart.turn(&mut ram), Turned::Halted(Cause::Trigger));
    assert_eq!(rt; read(&hart, TDATA1), Some(0x3800_0000_0100_0201));
    hart.resume_request();
    assert_eq!(rt; hart.turn(&mut ram), Turned::Resumed);
    assert_eq!(rt; hart.turn(&mut ram), Turned::Ran(Did::Retired));
    assert_eq!(rt; hart.turn(&mut ram), Turned::Ran(Did::Retired));
}

#[test]
fn a_trigger_comes_behind_a_halt_request_and_before_ebreak(rt: HostRuntime) {
    let ebreak = 0x0010_0073;
    for (halt_request, cause) in [(true, Cause::HaltReq), (false, Cause::Trigger)] {
        let mut ram = ram_with(rt.alloc(), ebreak).expect(&rt, "the smallest RAM");
        let mut hart = armed(&mut ram, BREAK, FIRST);
        hart.set_ebreakm(true);
        hart.set_step(true);
        hart.halt_request(halt_request);
        assert_eq!(rt; hart.turn(&mut ram), Turned::Halted(cause));
        let hit = if halt_request { 0 } else { HIT };
        assert_eq!(rt; read(&hart, TDATA1), Some(BREAK | hit));
    }
}
