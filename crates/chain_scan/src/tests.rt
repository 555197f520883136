//! Side TAPs clock by clock: TMS as IEEE 1149.1 draws the state diagram.

use crate::{ChainPlan, SIDES_MOST, SideTap};
use arrayvec::ArrayVec;
use std::process::Abort;
use std::test::Fail;

/// One clock of TCK, and TDO behind it.
fn clock(tap: &mut SideTap, tms: bool, tdi: bool) -> bool {
    tap.rise(tms, tdi);
    tap.fall();
    tap.tdo()
}

/// From a Test-Logic-Reset, Run-Test/Idle or Update state to Shift-DR, or to Shift-IR.
fn to_shift(tap: &mut SideTap, instruction: bool) {
    clock(tap, false, false);
    clock(tap, true, false);
    if instruction {
        clock(tap, true, false);
    }
    clock(tap, false, false);
    clock(tap, false, false);
}

/// Shifts so many bits out from a Shift state, the lowest first, while those of `given` are shifted in; the last clock leads to Exit1.
fn shift(tap: &mut SideTap, given: u64, count: u8) -> u64 {
    let mut taken = 0;
    let mut rest = given;
    for place in 0..count {
        if tap.tdo() && place < 64 {
            taken |= 1 << place;
        }
        clock(tap, place + 1 == count, rest % 2 == 1);
        rest /= 2;
    }
    taken
}

/// From Exit1 over Update to Run-Test/Idle.
fn update(tap: &mut SideTap) {
    clock(tap, true, false);
    clock(tap, false, false);
}

#[test]
fn behind_a_reset_it_is_identified(rt: HostRuntime) -> Result<(), Fail> {
    let mut tap = SideTap::new(4);
    to_shift(&mut tap, false);
    assert_eq!(rt; shift(&mut tap, 0, 32), 0x1000_0001);
    update(&mut tap);
    Ok(())
}

#[test]
fn every_instruction_selects_bypass(rt: HostRuntime) -> Result<(), Fail> {
    for instruction in [0b1111, 0b0000, 0b0001, 0b1010] {
        let mut tap = SideTap::new(4);
        to_shift(&mut tap, true);
        assert_eq!(rt; shift(&mut tap, instruction, 4), 0b0001);
        update(&mut tap);
        to_shift(&mut tap, false);
        // One bit of 0, and then what goes in.
        assert_eq!(rt; shift(&mut tap, 0b1011_0110, 8), 0b0110_1100);
        update(&mut tap);
    }
    Ok(())
}

#[test]
fn a_reset_selects_the_identification_again(rt: HostRuntime) -> Result<(), Fail> {
    let mut tap = SideTap::new(8);
    to_shift(&mut tap, true);
    assert_eq!(rt; shift(&mut tap, 0xff, 8), 1);
    update(&mut tap);
    for _clock in 0..5 {
        clock(&mut tap, true, false);
    }
    to_shift(&mut tap, false);
    assert_eq!(rt; shift(&mut tap, 0, 32), 0x1000_0001);
    Ok(())
}

#[test]
fn trst_holds_it_in_reset(rt: HostRuntime) -> Result<(), Fail> {
    let mut tap = SideTap::new(2);
    to_shift(&mut tap, true);
    assert_eq!(rt; shift(&mut tap, 0b11, 2), 0b01);
    update(&mut tap);
    tap.hold_reset(true);
    to_shift(&mut tap, false);
    assert_eq!(rt; tap.tdo(), false);
    tap.hold_reset(false);
    to_shift(&mut tap, false);
    assert_eq!(rt; shift(&mut tap, 0, 32), 0x1000_0001);
    Ok(())
}

/// These lengths in the order of the list.
fn widths(list: &[u8]) -> ArrayVec<u8, SIDES_MOST> {
    let mut all = ArrayVec::new();
    for width in list {
        let _room = all.try_push(*width);
    }
    all
}

fn is_plan(near: &[u8], far: &[u8]) -> bool {
    ChainPlan::new(widths(near), widths(far)).is_some()
}

#[test]
fn plans_have_one_to_seven_taps_of_two_to_eight_bits(rt: HostRuntime) -> Result<(), Fail> {
    assert!(rt; is_plan(&[2], &[]));
    assert!(rt; is_plan(&[], &[8]));
    assert!(rt; is_plan(&[2, 3, 4], &[5, 6, 7, 8]));
    assert!(rt; is_plan(&[], &[2; 7]));
    assert!(rt; !is_plan(&[], &[]));
    assert!(rt; !is_plan(&[4, 4, 4, 4], &[4, 4, 4, 4]));
    assert!(rt; !is_plan(&[1], &[]));
    assert!(rt; !is_plan(&[4], &[9]));
    Ok(())
}

#[test]
fn a_plan_has_its_lengths(rt: HostRuntime) -> Result<(), Fail> {
    match ChainPlan::new(widths(&[4, 6]), widths(&[2])) {
        Some(plan) => {
            assert_eq!(rt; plan.near(), [4_u8, 6].as_slice());
            assert_eq!(rt; plan.far(), [2_u8].as_slice());
        }
        None => assert!(rt; false),
    }
    Ok(())
}
