//! Blocks of accesses by the system bus over operations whose answers are given beforehand: words of `sbcs` by the layout of RISC-V Debug
//! Specification 1.0, "System Bus Access Control and Status" (version 1, addresses of 64 bits, accesses of 1 to 8 bytes).

ghost use Rattle.std.specs.Prelude.{◌≡◌, true};

use crate::scripted::ENDED;
use arrayvec::ArrayVec;
use debug_model::{Dmi, ScriptedDmi};
use probe_access::{AccessFault, ELEMENTS_MOST, OddStatus, bus_load_block, bus_store_block};
use rv_model::Size;

/// No access of the bus is under way, and no error is set.
pub(crate) const IDLE: u32 = 0x2016_080f;

/// An access is under way.
const BUSY: u32 = 0x2036_080f;

/// `sberror` 2: memory refused an access.
pub(crate) const REFUSED: u32 = 0x2016_280f;

/// `sbbusyerror`: the bus was accessed while it was busy.
pub(crate) const EARLY: u32 = 0x2056_080f;

/// Both of them.
const EARLY_AND_REFUSED: u32 = 0x2056_280f;

/// The address of the block.
pub(crate) const PLACE: u64 = 0x8000_0010;

/// Operations that answer these words.
pub(crate) fn answering(words: &[u32]) -> ScriptedDmi
    ensures { result.alive ≡ true }
{
    let mut answers: ArrayVec<u32, 64> = ArrayVec::new();
    for word in words {
        let _room = answers.try_push(*word);
    }
    ScriptedDmi::new(answers)
}

/// What a load of three words answers, and the elements that it hands out.
fn three_words(words: &[u32], into: &mut ArrayVec<u64, ELEMENTS_MOST>) -> Result<(), AccessFault> {
    let mut link = answering(words);
    into.clear();
    bus_load_block(&mut link, Size::B4, PLACE, 3, into)
}

#[test]
fn loads_blocks_by_the_bus(rt: HostRuntime) {
    let mut into = ArrayVec::new();
    assert_eq!(rt;
        three_words(&[0x11, 0x22, 0xffff_ffff, IDLE], &mut into),
        Ok(())
    );
    assert_eq!(rt; into.as_slice(), [0x11, 0x22, 0xffff_ffff].as_slice());
    assert_eq!(rt;
        three_words(&[1, 2, 3, BUSY, BUSY, IDLE], &mut into),
        Ok(())
    );
    assert_eq!(rt; into.as_slice(), [1, 2, 3].as_slice());
}

#[test]
fn loads_bytes_and_doubles_by_the_bus(rt: HostRuntime) {
    let mut into = ArrayVec::new();
    let mut link = answering(&[0x1234_5611, 0x22, IDLE]);
    assert_eq!(rt;
        bus_load_block(&mut link, Size::B1, PLACE, 2, &mut into),
        Ok(())
    );
    assert_eq!(rt; into.as_slice(), [0x11, 0x22].as_slice());
    into.clear();
    let mut doubles = answering(&[0x0123_4567, 0x89ab_cdef, 1, 0, IDLE]);
    assert_eq!(rt;
        bus_load_block(&mut doubles, Size::B8, PLACE, 2, &mut into),
        Ok(())
    );
    assert_eq!(rt;
        into.as_slice(),
        [0x0123_4567_89ab_cdef, 0x1_0000_0000].as_slice()
    );
}

#[test]
fn goes_on_behind_a_word_that_was_read_too_early(rt: HostRuntime) {
    let mut into = ArrayVec::new();
    let second_early: [u32; 10] = [0x11, 7, 7, EARLY, 0, 0x8000_0018, 0, 0x22, IDLE, 0x33];
    assert_eq!(rt; three_words(&second_early, &mut into), Ok(()));
    assert_eq!(rt; into.as_slice(), [0x11, 0x22, 0x33].as_slice());
    let third_early: [u32; 8] = [0x11, 0x22, 7, EARLY, 0, 0x8000_001c, 9, 0x33];
    assert_eq!(rt; three_words(&third_early, &mut into), Ok(()));
    assert_eq!(rt; into.as_slice(), [0x11, 0x22, 0x33].as_slice());
}

#[test]
fn awaits_each_double_behind_a_word_that_was_read_too_early(rt: HostRuntime) {
    let mut into = ArrayVec::new();
    // two in a run, of which the first was loaded; the second is awaited, and its upper word read first
    let words: [u32; 14] = [
        7,
        7,
        7,
        7,
        EARLY,
        0,
        0x8000_0018,
        2,
        1,
        BUSY,
        BUSY,
        IDLE,
        4,
        3,
    ];
    let mut link = answering(&words);
    assert_eq!(rt;
        bus_load_block(&mut link, Size::B8, PLACE, 2, &mut into),
        Ok(())
    );
    assert_eq!(rt; into.as_slice(), [0x2_0000_0001, 0x4_0000_0003].as_slice());
    // an error that no access awaited can end with
    into.clear();
    let mut odd = answering(&[7, 7, 7, 7, EARLY, 0, 0x8000_0018, 2, 1, EARLY]);
    assert_eq!(rt;
        bus_load_block(&mut odd, Size::B8, PLACE, 2, &mut into),
        Err(AccessFault::Odd(OddStatus::Sbcs(EARLY)))
    );
    assert_eq!(rt; into.as_slice(), [0x2_0000_0001].as_slice());
}

#[test]
fn loads_a_long_block_of_words_in_one_run(rt: HostRuntime) {
    let mut into = ArrayVec::new();
    let words: [u32; 13] = [1, 2, 3, 4, 5, 6, 7, 8, 9, 10, 11, 12, IDLE];
    let mut link = answering(&words);
    assert_eq!(rt;
        bus_load_block(&mut link, Size::B4, PLACE, 12, &mut into),
        Ok(())
    );
    assert_eq!(rt;
        into.as_slice(),
        [1, 2, 3, 4, 5, 6, 7, 8, 9, 10, 11, 12].as_slice()
    );
}

#[test]
fn loads_a_long_block_of_doubles_in_two_runs(rt: HostRuntime) {
    let mut into = ArrayVec::new();
    // the half of twelve and one more, and five; each is read by its upper word first
    let words: [u32; 26] = [
        0, 1, 0, 2, 0, 3, 0, 4, 0, 5, 0, 6, 0, 7, IDLE, 0, 8, 0, 9, 0, 10, 0, 11, 0, 12, IDLE,
    ];
    let mut link = answering(&words);
    assert_eq!(rt;
        bus_load_block(&mut link, Size::B8, PLACE, 12, &mut into),
        Ok(())
    );
    assert_eq!(rt;
        into.as_slice(),
        [1, 2, 3, 4, 5, 6, 7, 8, 9, 10, 11, 12].as_slice()
    );
}

#[test]
fn hands_out_what_lies_in_front_of_a_refusal(rt: HostRuntime) {
    let mut into = ArrayVec::new();
    let second: [u32; 8] = [0x11, 0x11, 0x11, REFUSED, 0, 0x8000_0014, 0, 0x11];
    assert_eq!(rt;
        three_words(&second, &mut into),
        Err(AccessFault::Memory(0x8000_0014))
    );
    assert_eq!(rt; into.as_slice(), [0x11].as_slice());
    let first: [u32; 8] = [7, 7, 7, EARLY_AND_REFUSED, 0, 0x8000_0010, 0, 7];
    assert_eq!(rt;
        three_words(&first, &mut into),
        Err(AccessFault::Memory(PLACE))
    );
    assert!(rt; into.is_empty());
}

#[test]
fn hands_out_nothing_behind_another_error(rt: HostRuntime) {
    let cases: [(&[u32], AccessFault); 6] = [
        (
            &[1, 2, 3, 0x2016_480f],
            AccessFault::Odd(OddStatus::Sbcs(0x2016_480f)),
        ),
        (
            &[1, 2, 3, EARLY, 0, 0x8000_0012, 0, 1],
            AccessFault::Odd(OddStatus::Sbcs(EARLY)),
        ),
        (
            &[1, 2, 3, EARLY, 0, 0x8000_0020, 0, 1],
            AccessFault::Odd(OddStatus::Sbcs(EARLY)),
        ),
        (
            &[1, 2, 3, EARLY, 1, 0x8000_0014, 0, 1],
            AccessFault::Odd(OddStatus::Sbcs(EARLY)),
        ),
        (&[1, 2, 3], ENDED),
        (&[1], ENDED),
    ];
    let mut into = ArrayVec::new();
    for (words, wanted) in cases {
        assert_eq!(rt; three_words(words, &mut into), Err(wanted));
        assert!(rt; into.is_empty());
    }
}

#[test]
fn refuses_an_error_behind_the_last_element(rt: HostRuntime) {
    let mut into = ArrayVec::new();
    let all: [u32; 8] = [1, 2, 3, REFUSED, 0, 0x8000_001c, 0, 3];
    assert_eq!(rt;
        three_words(&all, &mut into),
        Err(AccessFault::Odd(OddStatus::Sbcs(REFUSED)))
    );
}

/// What a store of three elements of so many bytes answers.
fn store_three(size: Size, words: &[u32]) -> Result<(), AccessFault> {
    let mut link = answering(words);
    bus_store_block(&mut link, size, PLACE, 3, 0x0123_4567_89ab_cdef)
}

#[test]
fn stores_blocks_by_the_bus(rt: HostRuntime) {
    for size in [Size::B1, Size::B2, Size::B4, Size::B8] {
        assert_eq!(rt; store_three(size, &[IDLE]), Ok(()));
        assert_eq!(rt; store_three(size, &[BUSY, BUSY, IDLE]), Ok(()));
        assert_eq!(rt; store_three(size, &[BUSY]), Err(ENDED));
    }
}

#[test]
fn stores_more_than_one_call_takes(rt: HostRuntime) {
    let mut link = answering(&[IDLE, 7]);
    assert_eq!(rt; bus_store_block(&mut link, Size::B8, PLACE, 300, 7), Ok(()));
    assert_eq!(rt; link.read(0x38), Ok(7));
}

#[test]
fn stores_what_was_asked_for_too_early_again(rt: HostRuntime) {
    // one was stored, and then each of the other two alone
    assert_eq!(rt;
        store_three(Size::B8, &[EARLY, 0, 0x8000_0018, 0, 1, IDLE, IDLE]),
        Ok(())
    );
    assert_eq!(rt;
        store_three(Size::B8, &[EARLY, 0, 0x8000_0018, 0, 1, IDLE]),
        Err(ENDED)
    );
    // all were stored
    assert_eq!(rt;
        store_three(Size::B2, &[EARLY, 0, 0x8000_0016, 0, 1]),
        Ok(())
    );
    // the next is refused where it is stored alone
    assert_eq!(rt;
        store_three(Size::B4, &[EARLY, 0, 0x8000_0018, 0, 1, REFUSED]),
        Err(AccessFault::Memory(0x8000_0018))
    );
}

#[test]
fn names_the_element_that_memory_refused(rt: HostRuntime) {
    let cases: [(Size, u32, u64); 5] = [
        (Size::B1, 0x8000_0010, 0x8000_0010),
        (Size::B1, 0x8000_0012, 0x8000_0012),
        (Size::B2, 0x8000_0012, 0x8000_0012),
        (Size::B4, 0x8000_0018, 0x8000_0018),
        (Size::B8, 0x8000_0020, 0x8000_0020),
    ];
    for (size, place, wanted) in cases {
        assert_eq!(rt;
            store_three(size, &[REFUSED, 0, place, 0, 1]),
            Err(AccessFault::Memory(wanted))
        );
        assert_eq!(rt;
            store_three(size, &[EARLY_AND_REFUSED, 0, place, 0, 1]),
            Err(AccessFault::Memory(wanted))
        );
    }
}

#[test]
fn stores_nothing_more_behind_another_error(rt: HostRuntime) {
    let cases: [(&[u32], AccessFault); 6] = [
        (
            &[0x2016_480f],
            AccessFault::Odd(OddStatus::Sbcs(0x2016_480f)),
        ),
        (
            &[EARLY, 0, 0x8000_0012, 0, 1],
            AccessFault::Odd(OddStatus::Sbcs(EARLY)),
        ),
        (
            &[EARLY, 0, 0x8000_0020, 0, 1],
            AccessFault::Odd(OddStatus::Sbcs(EARLY)),
        ),
        (
            &[EARLY, 1, 0x8000_0014, 0, 1],
            AccessFault::Odd(OddStatus::Sbcs(EARLY)),
        ),
        (
            &[REFUSED, 0, 0x8000_001c, 0, 1],
            AccessFault::Odd(OddStatus::Sbcs(REFUSED)),
        ),
        (&[EARLY, 0], ENDED),
    ];
    for (words, wanted) in cases {
        assert_eq!(rt; store_three(Size::B4, words), Err(wanted));
    }
}
