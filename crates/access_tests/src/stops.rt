//! Where a hart stands, over operations whose answers are given beforehand.

ghost use Rattle.std.specs.Prelude.{◌≡◌, true};
ghost use Rattle.debug_model.specs.Kept.{CanCall};
ghost use Rattle.debug_model.specs.Told.{IsAsLoaded};

use crate::scripted::{EARLY, ENDED, EXCEPTION, Fault, IDLE, UNSUPPORTED, opened};
use debug_model::Dmi;
use probe_access::{AccessFault, OddStatus, Stop, stop};
use probe_run::{Seen, connect};

/// Opens the chip and asks where its hart stands.
fn find_stop<D: Dmi>(link: &mut D) -> Result<Stop, Fault>
    requires callable { CanCall (D.seen link.old) }
    requires loaded { IsAsLoaded (D.seen link.old).far }
{
    let target = connect(link)?;
    let Seen::Halted(halted) = target.look(link, 0)? else {
        return Err(Fault::SeenOtherwise);
    };
    let found = stop(link, &halted)?;
    Ok(found)
}

// dpc has two words, and of dcsr the lower one is read alone; one poll stands behind both.
#[test]
fn finds_a_stop_in_one_call(rt: HostRuntime) {
    let mut link = opened(&[1, 0x8000_0004, 0x4000_0103, IDLE]);
    let wanted = Stop {
        pc: 0x1_8000_0004,
        cause: 4,
    };
    assert_eq!(rt; find_stop(&mut link), Ok(wanted));
}

// A word that came too early: both are read again by calls of their own, with a poll in front of the words of each.
#[test]
fn reads_both_again_where_a_word_came_too_early(rt: HostRuntime) {
    let mut link = opened(&[0, 1, 2, EARLY, IDLE, 0x8000_0008, 0, IDLE, 0x4000_00c3, 0]);
    let wanted = Stop {
        pc: 0x8000_0008,
        cause: 3,
    };
    assert_eq!(rt; find_stop(&mut link), Ok(wanted));
}

#[test]
fn tells_which_of_both_was_refused(rt: HostRuntime) {
    let mut link = opened(&[0, 1, 2, EXCEPTION, EXCEPTION]);
    let wanted = Err(Fault::Access(AccessFault::Register(0x7b1)));
    assert_eq!(rt; find_stop(&mut link), wanted);
    let mut link = opened(&[0, 1, 2, EXCEPTION, IDLE, 8, 0, EXCEPTION]);
    let wanted = Err(Fault::Access(AccessFault::Register(0x7b0)));
    assert_eq!(rt; find_stop(&mut link), wanted);
    let mut link = opened(&[0, 1, 2, UNSUPPORTED, IDLE, 8, 0, UNSUPPORTED]);
    let odd = AccessFault::Odd(OddStatus::Abstractcs(UNSUPPORTED));
    assert_eq!(rt; find_stop(&mut link), Err(Fault::Access(odd)));
    let mut link = opened(&[0, 1, 2]);
    assert_eq!(rt; find_stop(&mut link), Err(Fault::Access(ENDED)));
}
