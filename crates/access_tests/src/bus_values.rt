//! Stores of different values in a row by the system bus, over operations whose answers are given beforehand.

ghost use Rattle.std.specs.Prelude.{◌≡◌, true};

use crate::bus_blocks::{EARLY, IDLE, PLACE, REFUSED, answering};
use crate::scripted::ENDED;
use debug_model::Dmi;
use probe_access::{AccessFault, ELEMENTS_MOST, bus_store_values};
use rv_model::Size;

/// Three values of which each has another upper half than the one in front.
const THREE: [u64; 3] = [0x0123_4567_89ab_cdef, 7, 0xffff_ffff_0000_0000];

/// What a store of those with elements of so many bytes answers.
fn store_three(size: Size, words: &[u32]) -> Result<(), AccessFault> {
    let mut link = answering(words);
    bus_store_values(&mut link, size, PLACE, &THREE)
}

#[test]
fn stores_different_values_by_the_bus(rt: HostRuntime) {
    for size in [Size::B1, Size::B2, Size::B4, Size::B8] {
        assert_eq!(rt; store_three(size, &[IDLE]), Ok(()));
        assert_eq!(rt; store_three(size, &[]), Err(ENDED));
        assert_eq!(rt;
            store_three(size, &[REFUSED, 0, 0x8000_0010, 0, 1]),
            Err(AccessFault::Memory(PLACE))
        );
    }
}

#[test]
fn stores_different_values_again_behind_an_early_one(rt: HostRuntime) {
    // one was stored, and then each of the other two alone
    assert_eq!(rt;
        store_three(Size::B8, &[EARLY, 0, 0x8000_0018, 0, 1, IDLE, IDLE]),
        Ok(())
    );
    assert_eq!(rt;
        store_three(Size::B8, &[EARLY, 0, 0x8000_0018, 0, 1, IDLE]),
        Err(ENDED)
    );
    // the last is refused where it is stored alone
    assert_eq!(rt;
        store_three(Size::B8, &[EARLY, 0, 0x8000_0018, 0, 1, IDLE, REFUSED]),
        Err(AccessFault::Memory(0x8000_0020))
    );
}

#[test]
fn stores_a_list_that_takes_many_calls(rt: HostRuntime) {
    let mut values = [0; ELEMENTS_MOST];
    let mut value: u64 = 0;
    for element in &mut values {
        *element = value;
        value = value.wrapping_add(0x0000_0001_0000_0003);
    }
    let mut link = answering(&[IDLE, 7]);
    assert_eq!(rt;
        bus_store_values(&mut link, Size::B8, PLACE, &values),
        Ok(())
    );
    assert_eq!(rt; link.read(0x38), Ok(7));
}
