use super::harts::{ADD_ONE, EBREAK, EXECUTE, Found, READ_X8, cmderr, hart_found, ram, run};
use crate::CommandUnit;
use debug_model::CommandWord;

/// Each word, by its bit of abstractauto.
const WORDS: [(CommandWord, u32); 6] = [
    (CommandWord::Data0, 0x0000_0001),
    (CommandWord::Data1, 0x0000_0002),
    (CommandWord::Progbuf0, 0x0001_0000),
    (CommandWord::Progbuf1, 0x0002_0000),
    (CommandWord::Progbuf2, 0x0004_0000),
    (CommandWord::Progbuf3, 0x0008_0000),
];

#[test]
fn reads_back_what_was_written(rt: HostRuntime) {
    let mut unit = CommandUnit::new();
    assert_eq!(rt; unit.abstractcs(), 0x0400_0002);
    assert_eq!(rt; unit.abstractauto(), 0);
    for (word, _) in WORDS {
        assert_eq!(rt; unit.word(word), 0);
        unit.write_word(word, 0xffff_ffff, None);
        assert_eq!(rt; unit.read_word(word, None), 0xffff_ffff);
    }
    unit.write_word(CommandWord::Progbuf2, 7, None);
    assert_eq!(rt; unit.word(CommandWord::Progbuf1), 0xffff_ffff);
    assert_eq!(rt; unit.word(CommandWord::Progbuf3), 0xffff_ffff);
    unit.write_abstractauto(0xffff_ffff);
    assert_eq!(rt; unit.abstractauto(), 0x000f_0003);
    unit.write_abstractcs(0xffff_ffff);
    assert_eq!(rt; unit.abstractcs(), 0x0400_0002);
}

#[test]
fn starts_again_at_each_word(rt: HostRuntime) {
    let mut ram = ram(rt.alloc()).expect(&rt, "the smallest RAM");
    for (word, bit) in WORDS {
        for (other, other_bit) in WORDS {
            let mut hart = hart_found(Found::Halted);
            let mut unit = CommandUnit::new();
            for (place, _) in WORDS {
                unit.write_word(place, EBREAK, None);
            }
            unit.write_command(EXECUTE, Some(&hart));
            run(&rt, &mut unit, &mut hart, &mut ram);
            unit.write_abstractauto(bit);
            assert_eq!(rt; unit.read_word(other, Some(&hart)), EBREAK);
            assert_eq!(rt; unit.is_busy(), bit == other_bit, "read of {word:?}");
            run(&rt, &mut unit, &mut hart, &mut ram);
            // The word is written before the command starts: the first word executed is the new one.
            unit.write_word(other, ADD_ONE, Some(&hart));
            assert_eq!(rt; unit.is_busy(), bit == other_bit, "write of {word:?}");
            let steps = run(&rt, &mut unit, &mut hart, &mut ram).0;
            let adds = bit == other_bit && other == CommandWord::Progbuf0;
            assert_eq!(rt;
                steps,
                if adds {
                    2
                } else if bit == other_bit {
                    1
                } else {
                    0
                }
            );
            assert_eq!(rt; hart.hart().x(8), if adds { 1 } else { 0 });
            assert_eq!(rt; cmderr(&unit), 0);
            // With an error set nothing starts; the word is accessed all the same.
            unit.write_command(0x0100_0000, Some(&hart));
            assert_eq!(rt; cmderr(&unit), 2);
            unit.write_word(word, 5, Some(&hart));
            assert_eq!(rt; unit.read_word(word, Some(&hart)), 5);
            assert!(rt; !unit.is_busy());
        }
    }
}

#[test]
fn takes_nothing_while_busy(rt: HostRuntime) {
    let mut ram = ram(rt.alloc()).expect(&rt, "the smallest RAM");
    // The error while the command is under way, and behind it: an access to a word counts at once, a late write at the end.
    let cases = [
        (0, 1, 1),
        (1, 1, 1),
        (2, 1, 1),
        (3, 0, 1),
        (4, 0, 1),
        (5, 0, 1),
        (6, 0, 0),
    ];
    for (case, during, behind) in cases {
        let mut hart = hart_found(Found::Halted);
        let mut unit = CommandUnit::new();
        unit.write_word(CommandWord::Data0, 3, None);
        unit.write_word(CommandWord::Progbuf0, EBREAK, None);
        unit.write_command(EXECUTE, Some(&hart));
        assert_eq!(rt; unit.abstractcs(), 0x0400_1002);
        match case {
            0 => unit.write_word(CommandWord::Data0, 9, Some(&hart)),
            1 => unit.write_word(CommandWord::Progbuf0, 9, Some(&hart)),
            2 => assert_eq!(rt; unit.read_word(CommandWord::Data0, Some(&hart)), 3),
            3 => unit.write_command(READ_X8, Some(&hart)),
            4 => unit.write_abstractcs(0),
            5 => unit.write_abstractauto(3),
            _ => {}
        }
        assert_eq!(rt; cmderr(&unit), during, "{case}");
        run(&rt, &mut unit, &mut hart, &mut ram);
        assert_eq!(rt; cmderr(&unit), behind, "{case}");
        assert_eq!(rt; unit.word(CommandWord::Data0), 3);
        assert_eq!(rt; unit.word(CommandWord::Progbuf0), EBREAK);
        assert_eq!(rt; unit.abstractauto(), 0);
        // The late write is forgotten: the next command ends without one.
        unit.write_abstractcs(0x0000_0700);
        assert_eq!(rt; cmderr(&unit), 0);
        unit.write_abstractauto(1);
        unit.write_word(CommandWord::Data0, 4, Some(&hart));
        run(&rt, &mut unit, &mut hart, &mut ram);
        assert_eq!(rt; cmderr(&unit), 0);
    }
}
