use super::harts::{
    ADD_ONE, EBREAK, EXECUTE, FIRST, FIRST_VALUE, Found, READ_X8, WRITE_X8, execute, hart_found,
    ram, run,
};
use crate::CommandUnit;
use debug_model::{Cmderr, CommandWord};
use rv_model::Size;

#[test]
fn transfers_both_words_or_the_lower_one(rt: HostRuntime) {
    let mut ram = ram(rt.alloc()).expect(&rt, "the smallest RAM");
    let mut hart = hart_found(Found::Halted);
    let mut unit = CommandUnit::new();
    unit.write_word(CommandWord::Data0, 0x89ab_cdef, None);
    unit.write_word(CommandWord::Data1, 0x0123_4567, None);
    assert_eq!(rt;
        execute(&rt, &mut unit, &mut hart, &mut ram, WRITE_X8),
        Cmderr::Fine
    );
    assert_eq!(rt; hart.hart().x(8), 0x0123_4567_89ab_cdef);
    // 32 bits are written below the upper half that the register had.
    unit.write_word(CommandWord::Data0, 0xffff_0000, None);
    unit.write_word(CommandWord::Data1, 0, None);
    execute(&rt, &mut unit, &mut hart, &mut ram, 0x0023_1008);
    assert_eq!(rt; hart.hart().x(8), 0x0123_4567_ffff_0000);
    // And read without the second word.
    unit.write_word(CommandWord::Data1, 5, None);
    execute(&rt, &mut unit, &mut hart, &mut ram, 0x0022_1008);
    assert_eq!(rt; unit.word(CommandWord::Data0), 0xffff_0000);
    assert_eq!(rt; unit.word(CommandWord::Data1), 5);
    execute(&rt, &mut unit, &mut hart, &mut ram, READ_X8);
    assert_eq!(rt; unit.word(CommandWord::Data1), 0x0123_4567);
    // dpc, which is pc.
    execute(&rt, &mut unit, &mut hart, &mut ram, 0x0032_07b1);
    assert_eq!(rt; unit.word(CommandWord::Data0), 0x8000_0000);
}

#[test]
fn executes_the_program_buffer(rt: HostRuntime) {
    // `ld x9, 0(x8)`, `sd x9, 8(x8)`, `ld x9, 4(x8)`, `jal x0, 2`, `amoadd.d x9, x9, (x8)`
    let [load, store, misaligned, jump, add] = [
        0x0004_3483,
        0x0094_3423,
        0x0044_3483,
        0x0020_006f,
        0x0094_34af,
    ];
    // The words; the steps, the accesses, the error, x8 less RAM's first address, and x9.
    let cases = [
        (
            [EBREAK, ADD_ONE, ADD_ONE, ADD_ONE],
            (1, 0),
            Cmderr::Fine,
            0,
            0,
        ),
        (
            [ADD_ONE, ADD_ONE, EBREAK, ADD_ONE],
            (3, 0),
            Cmderr::Fine,
            2,
            0,
        ),
        (
            [ADD_ONE, ADD_ONE, ADD_ONE, EBREAK],
            (4, 0),
            Cmderr::Fine,
            3,
            0,
        ),
        (
            [ADD_ONE, ADD_ONE, ADD_ONE, ADD_ONE],
            (4, 0),
            Cmderr::Exception,
            4,
            0,
        ),
        (
            [load, store, EBREAK, EBREAK],
            (3, 2),
            Cmderr::Fine,
            0,
            FIRST_VALUE,
        ),
        (
            [ADD_ONE, misaligned, ADD_ONE, EBREAK],
            (2, 1),
            Cmderr::Exception,
            1,
            0,
        ),
        (
            [add, EBREAK, EBREAK, EBREAK],
            (2, 1),
            Cmderr::Fine,
            0,
            FIRST_VALUE,
        ),
        (
            [ADD_ONE, jump, ADD_ONE, EBREAK],
            (2, 0),
            Cmderr::Exception,
            1,
            0,
        ),
        ([0, EBREAK, EBREAK, EBREAK], (1, 0), Cmderr::Exception, 0, 0),
    ];
    for (words, steps, error, added, x9) in cases {
        let mut ram = ram(rt.alloc()).expect(&rt, "the smallest RAM");
        let mut hart = hart_found(Found::Halted);
        let mut unit = CommandUnit::new();
        unit.write_word(CommandWord::Data0, 0x8000_0000, None);
        execute(&rt, &mut unit, &mut hart, &mut ram, WRITE_X8);
        unit.write_word(CommandWord::Progbuf0, words[0], None);
        unit.write_word(CommandWord::Progbuf1, words[1], None);
        unit.write_word(CommandWord::Progbuf2, words[2], None);
        unit.write_word(CommandWord::Progbuf3, words[3], None);
        unit.write_command(EXECUTE, Some(&hart));
        assert_eq!(rt; run(&rt, &mut unit, &mut hart, &mut ram), steps);
        assert_eq!(rt; unit.cmderr(), error);
        assert_eq!(rt; hart.hart().x(8).wrapping_sub(FIRST), added);
        assert_eq!(rt; hart.hart().x(9), x9);
        assert_eq!(rt; hart.hart().pc(), FIRST);
        assert!(rt; hart.is_halted());
        let stored = if words[1] == store { FIRST_VALUE } else { 0 };
        assert_eq!(rt; ram.load(FIRST + 8, Size::B8), Ok(stored));
    }
}

#[test]
fn runs_a_transfer_before_the_program(rt: HostRuntime) {
    let mut ram = ram(rt.alloc()).expect(&rt, "the smallest RAM");
    let mut hart = hart_found(Found::Halted);
    let mut unit = CommandUnit::new();
    unit.write_word(CommandWord::Data0, 7, None);
    unit.write_word(CommandWord::Progbuf0, ADD_ONE, None);
    unit.write_word(CommandWord::Progbuf1, EBREAK, None);
    unit.write_command(WRITE_X8 | EXECUTE, Some(&hart));
    assert_eq!(rt; run(&rt, &mut unit, &mut hart, &mut ram), (3, 0));
    assert_eq!(rt; hart.hart().x(8), 8);
    // An exception is the error, whatever an access to a word has set before it, and a late write adds nothing.
    unit.write_word(CommandWord::Progbuf0, 0, None);
    unit.write_command(EXECUTE, Some(&hart));
    unit.write_word(CommandWord::Data0, 1, Some(&hart));
    unit.write_command(EXECUTE, Some(&hart));
    assert_eq!(rt; unit.cmderr(), Cmderr::Busy);
    run(&rt, &mut unit, &mut hart, &mut ram);
    assert_eq!(rt; unit.cmderr(), Cmderr::Exception);
}
