//! The calls on slots over operations whose answers are given beforehand: words of `abstractcs` and `dmstatus` by the layouts of RISC-V Debug
//! Specification 1.0, "Abstract Control and Status" and "Debug Module Status", of `tdata1` by "Match Control Type 6" and "Instruction Count", and by
//! RISC-V External Debug Support 0.13.2, "Match Control", and of `tinfo` by "Trigger Info" of both.

ghost use Rattle.std.specs.Prelude.{◌≡◌, true};

use arrayvec::ArrayVec;
use debug_model::{DmiFault, ScriptedDmi, SlotUse, WireFault};
use probe_access::{AccessFault, OddStatus};
use probe_run::{Seen, connect};
use probe_trig::{Gone, SlotView, TrigFault, arm, disarm, forget_hits, let_go, slots, step_over};
use rv_model::SlotSet;
use std::process::Abort;

/// What the opening and a Look of hart 0, which is halted, are answered.
const OPENING: [u32; 6] = [
    0x1071,
    1,
    0x000c_0c83,
    0x0400_0002,
    0x2004_080f,
    0x0000_0383,
];

/// No command is under way, and no error is set.
const IDLE: u32 = 0x0400_0002;

/// `cmderr` 3, and `cmderr` 1.
const EXCEPTION: u32 = 0x0400_0302;

const ODD: u32 = 0x0400_0102;

/// A Look that shows the resume acknowledged, of a hart that runs, and of one that is halted again.
const GONE: u32 = 0x0003_0c83;

const BACK: u32 = 0x0003_0383;

/// The upper words of `tdata1`: an address trigger of release 1.0, one of release 0.13, a count, a free slot, and a type that is not known here.
const ADDRESS: u32 = 0x6800_0000;

const ADDRESS_V013: u32 = 0x2800_0000;

const COUNT: u32 = 0x3800_0000;

const FREE: u32 = 0xf800_0000;

const OTHER: u32 = 0x4000_0000;

/// The lower words of `tdata1`: a break with a hit, the same switched off, and a count of 5 with a hit.
const HIT: u32 = 0x0040_1044;

const HELD: u32 = 0x0040_1004;

const RAN_OUT: u32 = 0x0100_1601;

/// The lower words of a break of release 0.13 with a hit, and of the same switched off.
const HIT_V013: u32 = 0x0010_1044;

const HELD_V013: u32 = 0x0010_1004;

/// The lower word of `tinfo` of a slot that has the types 3, 6 and 15.
const OFFERS_6: u32 = 0x0100_8048;

/// The address of the break, and `dcsr` of a hart that a trigger stopped.
const PLACE: u32 = 0x8000_0008;

const BEFORE: u32 = 0x4000_0083;

/// No answer is left.
const ENDED: AccessFault = AccessFault::Dmi(DmiFault::Wire(WireFault::RecvFailed));

#[derive(Clone, Copy)]
enum Call {
    See,
    Break,
    Count,
    Disarm,
    Forget,
    Over,
    Go,
}

#[derive(Clone, Copy, Debug, PartialEq, Eq)]
enum Answer {
    Saw(SlotView),
    Armed(u8),
    Done,
    Free,
    Stopped,
    NotOpened,
}

/// The opening's answers, so many of these words, and then these.
fn answering(words: &[u32], cut: usize, last: &[u32]) -> ScriptedDmi
    ensures { result.alive ≡ true }
{
    let mut answers: ArrayVec<u32, 64> = ArrayVec::new();
    for word in OPENING {
        let _room = answers.try_push(word);
    }
    for word in words.iter().take(cut) {
        let _room = answers.try_push(*word);
    }
    for word in last {
        let _room = answers.try_push(*word);
    }
    ScriptedDmi::new(answers)
}

fn play(call: Call, words: &[u32], cut: usize, last: &[u32]) -> Result<Answer, TrigFault> {
    let mut link = answering(words, cut, last);
    let Ok(target) = connect(&mut link) else {
        return Ok(Answer::NotOpened);
    };
    let Ok(Seen::Halted(halted)) = target.look(&mut link, 0) else {
        return Ok(Answer::NotOpened);
    };
    match call {
        Call::See => Ok(Answer::Saw(slots(&mut link, &halted)?)),
        Call::Break => {
            let slot = arm(&mut link, &halted, SlotUse::Break(0x8000_0008))?;
            Ok(Answer::Armed(slot))
        }
        Call::Count => Ok(Answer::Armed(arm(&mut link, &halted, SlotUse::Count(5))?)),
        Call::Disarm => {
            disarm(&mut link, &halted, 1)?;
            Ok(Answer::Done)
        }
        Call::Forget => {
            forget_hits(&mut link, &halted)?;
            Ok(Answer::Done)
        }
        Call::Over => {
            let _again = step_over(&mut link, halted)?;
            Ok(Answer::Done)
        }
        Call::Go => match let_go(&mut link, halted)? {
            Gone::Free(_) => Ok(Answer::Free),
            Gone::Stopped(_) => Ok(Answer::Stopped),
        },
    }
}

/// What a call answers to these words; and that each operation that fails, and each command that ends with an error, ends it with that fault. A register that
/// is refused where it is asked for in one call is asked for again by a command alone; a chip may lack `tinfo` alone, and then the call goes on.
fn check(rt: &impl Abort, call: Call, words: &[u32], wanted: Result<Answer, TrigFault>) {
    assert_eq!(rt; play(call, words, words.len(), &[]), wanted);
    for (cut, word) in words.iter().enumerate() {
        assert_eq!(rt; play(call, words, cut, &[]), Err(TrigFault::Access(ENDED)));
        if *word == IDLE {
            let refused = play(call, words, cut, &[EXCEPTION, EXCEPTION]);
            let named = matches!(
                refused,
                Err(TrigFault::Access(AccessFault::Register(0x7a0..=0x7b0)))
            );
            let lacks_tinfo = cut > 0 && words[cut - 1] == OFFERS_6;
            assert!(rt; named || lacks_tinfo);
            assert_eq!(rt; refused == Err(TrigFault::Access(ENDED)), lacks_tinfo);
            assert_eq!(rt;
                play(call, words, cut, &[ODD, ODD]),
                Err(TrigFault::Access(AccessFault::Odd(OddStatus::Abstractcs(ODD))))
            );
        }
    }
}

#[test]
fn each_operation_of_a_view_may_fail(rt: HostRuntime) {
    let view = SlotView {
        used: [
            SlotUse::Break(0x8000_0008),
            SlotUse::Free,
            SlotUse::Count(5),
            SlotUse::Other(0x4000_0000_0000_0044),
        ],
        hits: SlotSet(1),
    };
    check(
        &rt,
        Call::See,
        &[
            0, 2, IDLE, // tselect
            IDLE, ADDRESS, HIT, IDLE, 0, PLACE, IDLE, // slot 0
            IDLE, FREE, 0, IDLE, 0, 7, IDLE, // slot 1
            IDLE, COUNT, 0x1601, IDLE, 0, 0, IDLE, // slot 2
            IDLE, OTHER, 0x44, IDLE, 0, 0, IDLE, // slot 3
            IDLE,
        ],
        Ok(Answer::Saw(view)),
    );
}

#[test]
fn each_operation_of_an_arming_may_fail(rt: HostRuntime) {
    let second = [
        0, 2, IDLE, // tselect
        IDLE, OTHER, 0x44, IDLE, // slot 0
        IDLE, FREE, 0, IDLE, // slot 1
        0, OFFERS_6, IDLE, // tinfo
        IDLE, IDLE, IDLE,
    ];
    check(&rt, Call::Break, &second, Ok(Answer::Armed(1)));
    check(&rt, Call::Count, &second[..16], Ok(Answer::Armed(1)));
    check(
        &rt,
        Call::Break,
        &[
            0, 0, IDLE, // tselect
            IDLE, OTHER, 0x44, IDLE, // slot 0
            IDLE, COUNT, 0x201, IDLE, // slot 1
            IDLE, ADDRESS, 0x1044, IDLE, // slot 2
            IDLE, 0, 0, IDLE, // slot 3
            IDLE,
        ],
        Err(TrigFault::NoFreeSlot),
    );
}

#[test]
fn arms_where_there_is_no_tinfo(rt: HostRuntime) {
    let words = [
        0, 2, IDLE, // tselect
        IDLE, FREE, 0, IDLE, // slot 0
        0, 0, EXCEPTION, EXCEPTION, // tinfo
        IDLE, IDLE, IDLE, // tdata2, tdata1, tselect
    ];
    assert_eq!(rt;
        play(Call::Break, &words, words.len(), &[]),
        Ok(Answer::Armed(0))
    );
    let count = words.len() - 1;
    assert_eq!(rt; play(Call::Count, &words, count, &[]), Ok(Answer::Armed(0)));
    for cut in 11..words.len() {
        assert_eq!(rt;
            play(Call::Break, &words, cut, &[]),
            Err(TrigFault::Access(ENDED))
        );
    }
}

#[test]
fn each_operation_of_a_freeing_may_fail(rt: HostRuntime) {
    check(
        &rt,
        Call::Disarm,
        &[0, 0, IDLE, IDLE, OTHER, 0x44, IDLE, IDLE, IDLE],
        Ok(Answer::Done),
    );
    check(
        &rt,
        Call::Disarm,
        &[0, 0, IDLE, IDLE, FREE, 0, IDLE, IDLE],
        Err(TrigFault::NotInUse),
    );
    check(
        &rt,
        Call::Forget,
        &[
            0, 0, IDLE, // tselect
            IDLE, ADDRESS, HIT, IDLE, IDLE, // slot 0
            IDLE, FREE, 0, IDLE, // slot 1
            IDLE, COUNT, RAN_OUT, IDLE, IDLE, // slot 2
            IDLE, OTHER, 0x44, IDLE, // slot 3
            IDLE,
        ],
        Ok(Answer::Done),
    );
}

#[test]
fn a_hart_goes_by_its_hits_and_the_cause(rt: HostRuntime) {
    let none = [
        0, 0, IDLE, // tselect
        IDLE, ADDRESS, 0x1044, IDLE, // slot 0
        IDLE, FREE, 0, IDLE, // slot 1
        IDLE, FREE, 0, IDLE, // slot 2
        IDLE, FREE, 0, IDLE, // slot 3
        IDLE, GONE,
    ];
    check(&rt, Call::Go, &none, Ok(Answer::Free));
    for (cause, wanted) in [(1, Answer::Stopped), (4, Answer::Free)] {
        let dcsr = 0x4000_0003 + (cause << 6);
        let words = [
            0, 0, IDLE, // tselect
            IDLE, ADDRESS, HIT, IDLE, IDLE, // slot 0 is held
            IDLE, FREE, 0, IDLE, // slot 1
            IDLE, FREE, 0, IDLE, // slot 2
            IDLE, FREE, 0, IDLE, // slot 3
            IDLE, // tselect
            BEFORE, IDLE, IDLE, BACK, dcsr, IDLE, IDLE, // the step
            0, dcsr, IDLE, // its cause
            0, 0, IDLE, // tselect
            IDLE, ADDRESS, HELD, IDLE, IDLE, // slot 0 is put back
            IDLE, FREE, 0, IDLE, // slot 1
            IDLE, FREE, 0, IDLE, // slot 2
            IDLE, FREE, 0, IDLE, // slot 3
            IDLE, // tselect
            GONE,
        ];
        let stepped = &words[..52];
        check(&rt, Call::Over, stepped, Ok(Answer::Done));
        if wanted == Answer::Stopped {
            check(&rt, Call::Go, stepped, Ok(wanted));
        } else {
            check(&rt, Call::Go, &words, Ok(wanted));
        }
    }
}

#[test]
fn slots_of_release_0_13_are_read_by_their_type(rt: HostRuntime) {
    let view = SlotView {
        used: [
            SlotUse::Break(0x8000_0008),
            SlotUse::Other(0x2800_0000_0010_1004),
            SlotUse::Break(0x8000_0008),
            SlotUse::Break(0x8000_0008),
        ],
        hits: SlotSet(0b0011),
    };
    // Bit 22 is no hit of type 2, nor is bit 20 of type 6.
    check(
        &rt,
        Call::See,
        &[
            0,
            2,
            IDLE, // tselect
            IDLE,
            ADDRESS_V013,
            HIT_V013,
            IDLE,
            0,
            PLACE,
            IDLE, // slot 0
            IDLE,
            ADDRESS_V013,
            HELD_V013,
            IDLE,
            0,
            PLACE,
            IDLE, // slot 1
            IDLE,
            ADDRESS_V013,
            HIT,
            IDLE,
            0,
            PLACE,
            IDLE, // slot 2
            IDLE,
            ADDRESS,
            HIT_V013,
            IDLE,
            0,
            PLACE,
            IDLE, // slot 3
            IDLE,
        ],
        Ok(Answer::Saw(view)),
    );
}
