mod interrupts;
mod program_buffer;
mod registers;
mod triggers;

use hart_debug::{DebugHart, Start, Turned};
use rv_mem::{Ram, RamFault};
use rv_model::{Cause, Did, Size};
use std::alloc::Global;

/// Where a hart starts.
const FIRST: u64 = 0x8000_0000;

/// The address behind the first instruction.
const SECOND: u64 = 0x8000_0004;

/// Where a trap goes at reset: `mtvec`.
const HANDLER: u64 = 0;

/// `addi x5, x0, 5`
const ADDI: u64 = 0x0050_0293;

const EBREAK: u64 = 0x0010_0073;

/// The smallest RAM, with one word at its start.
fn ram_with(alloc: Global, word: u64) -> Result<Ram, RamFault> {
    let mut ram = Ram::new(alloc, 65_536)?;
    let _ = ram.store(FIRST, Size::B4, word);
    Ok(ram)
}

/// A register of a halted hart.
fn read(hart: &DebugHart, regno: u16) -> Option<u64> {
    if hart.is_halted() {
        hart.reg_read(regno)
    } else {
        None
    }
}

/// Writes a register of a halted hart.
fn write(hart: &mut DebugHart, regno: u16, value: u64) -> bool {
    hart.is_halted() && hart.reg_write(regno, value)
}

#[test]
fn halted_hart_resumes_where_it_is_asked_to(rt: HostRuntime) {
    let mut ram = ram_with(rt.alloc(), ADDI).expect(&rt, "the smallest RAM");
    let mut hart = DebugHart::new(2, Start::Halted);
    assert_eq!(rt; hart.cause(), Some(Cause::Reset));
    assert!(rt; hart.is_halted() && hart.have_reset());
    assert_eq!(rt; hart.turn(&mut ram), Turned::Idle);
    hart.ack_reset();
    assert!(rt; !hart.have_reset());

    hart.resume_request();
    assert!(rt; hart.resume_waits() && !hart.acked());
    assert_eq!(rt; hart.turn(&mut ram), Turned::Resumed);
    assert!(rt; hart.acked() && !hart.resume_waits() && !hart.is_halted());
    assert_eq!(rt; hart.hart().pc(), FIRST);
    assert_eq!(rt; hart.turn(&mut ram), Turned::Ran(Did::Retired));
    assert_eq!(rt; hart.hart().pc(), SECOND);
    assert_eq!(rt; hart.hart().x(5), 5);

    // It runs: the ack goes, and no request stays.
    hart.resume_request();
    assert!(rt; !hart.acked() && !hart.resume_waits());
}

#[test]
fn running_hart_halts_for_the_first_reason(rt: HostRuntime) {
    // The word at pc; whether there is a halt request, ebreakm, step; the turn's answer, and pc then.
    let cases = [
        (
            ADDI,
            [false, false, false],
            Turned::Ran(Did::Retired),
            SECOND,
        ),
        (
            ADDI,
            [true, false, true],
            Turned::Halted(Cause::HaltReq),
            FIRST,
        ),
        (
            EBREAK,
            [true, true, true],
            Turned::Halted(Cause::HaltReq),
            FIRST,
        ),
        (
            EBREAK,
            [false, true, true],
            Turned::Halted(Cause::Ebreak),
            FIRST,
        ),
        (
            EBREAK,
            [false, true, false],
            Turned::Halted(Cause::Ebreak),
            FIRST,
        ),
        (
            EBREAK,
            [false, false, false],
            Turned::Ran(Did::Trapped(3)),
            HANDLER,
        ),
        (
            ADDI,
            [false, true, true],
            Turned::Halted(Cause::Step),
            SECOND,
        ),
        (
            EBREAK,
            [false, false, true],
            Turned::Halted(Cause::Step),
            HANDLER,
        ),
    ];
    for (word, [halt_request, ebreakm, step], turned, pc) in cases {
        let mut ram = ram_with(rt.alloc(), word).expect(&rt, "the smallest RAM");
        let mut hart = DebugHart::new(0, Start::Running);
        hart.halt_request(halt_request);
        hart.set_ebreakm(ebreakm);
        hart.set_step(step);
        assert_eq!(rt; hart.turn(&mut ram), turned);
        assert_eq!(rt; hart.hart().pc(), pc);
        assert_eq!(rt; hart.halt_waits(), halt_request);
        if let Turned::Halted(why) = turned {
            assert_eq!(rt; hart.cause(), Some(why));
            assert_eq!(rt; hart.turn(&mut ram), Turned::Idle);
            assert_eq!(rt; hart.hart().pc(), pc);
        } else {
            assert_eq!(rt; hart.cause(), None);
        }
    }
}
