//! Schedules of a chip's events, and the journal.

ghost use Rattle.std.specs.Prelude.{◌<◌};

use debug_model::{Event, Point, Round, Schedule};
use std::process::Abort;
use std::rt::HostRuntime;
use std::test::Fail;
use sys_events::{Journal, ListSchedule, SeedSchedule, WORDS, first_words};

// The published outputs of SplitMix64 for the seed 1234567.
#[test]
fn words_are_those_of_splitmix64(rt: HostRuntime) {
    let [first, second, third, fourth, fifth, ..] = first_words(1234567);
    assert_eq!(rt; first, 6457827717110365317);
    assert_eq!(rt; second, 3203168211198807973);
    assert_eq!(rt; third, 9817491932198370423);
    assert_eq!(rt; fourth, 4593380528125082431);
    assert_eq!(rt; fifth, 16408922859458223821);
}

#[test]
fn busy_1_has_every_event_in_every_round(rt: HostRuntime) {
    let mut schedule = SeedSchedule::new(0, 1, 2);
    for _ in 0..3 {
        assert_eq!(rt;
            schedule.next().as_slice(),
            [
                Event::Turn(0),
                Event::Turn(1),
                Event::DmiDone,
                Event::CmdStep,
                Event::BusDone,
            ]
            .as_slice()
        );
    }
}

// The numbers of the rounds are reckoned in Python, for a power of two and for another number.
#[test]
fn each_event_stands_once_and_the_rounds_start_again(rt: HostRuntime) {
    check_places(
        &rt,
        SeedSchedule::new(1234567, 32, 4),
        32,
        [27, 27, 9, 1, 19, 10, 27],
    );
    check_places(
        &rt,
        SeedSchedule::new(u64::MAX, 5, 4),
        5,
        [4, 1, 4, 3, 4, 0, 0],
    );
}

fn check_places(rt: &impl Abort, schedule: SeedSchedule, busy: u32, places: [u32; WORDS])
    requires { 0 < busy }
{
    let mut schedule = schedule;
    let events = [
        Event::Turn(0),
        Event::Turn(1),
        Event::Turn(2),
        Event::Turn(3),
        Event::DmiDone,
        Event::CmdStep,
        Event::BusDone,
    ];
    for number in 0..96 {
        let round = schedule.next();
        for (event, place) in events.iter().zip(places) {
            let stands = round.as_slice().contains(event);
            assert_eq!(rt;
                stands,
                number % busy == place,
                "{event:?} in round {number}"
            );
        }
    }
}

#[test]
fn no_rounds_are_empty_rounds(rt: HostRuntime) {
    let mut schedule = ListSchedule::new(Vec::new(rt.alloc()));
    for _ in 0..3 {
        assert!(rt; schedule.next().is_empty());
    }
}

#[test]
fn two_rounds_come_in_turn(rt: HostRuntime) -> Result<(), Fail> {
    let mut first = Round::new();
    first.push(Event::Turn(3));
    first.push(Event::DmiFail);
    let mut rounds = Vec::new(rt.alloc());
    rounds.push(first)?;
    rounds.push(Round::new())?;
    let mut schedule = ListSchedule::new(rounds);
    for _ in 0..3 {
        assert_eq!(rt;
            schedule.next().as_slice(),
            [Event::Turn(3), Event::DmiFail].as_slice()
        );
        assert!(rt; schedule.round().is_empty());
        schedule.advance();
    }
    Ok(())
}

#[test]
fn a_journal_counts_points_by_their_kinds(rt: HostRuntime) {
    let mut journal = Journal::empty();
    assert!(rt; journal.is_empty());
    journal.note(Point::Look(1023));
    journal.note(Point::Turn(3));
    journal.note(Point::HaltReq(0));
    journal.note(Point::HaltClear(0));
    journal.note(Point::ResumeReq(0));
    journal.note(Point::Access);
    journal.note(Point::Access);
    assert!(rt; !journal.is_empty());
    assert_eq!(rt; journal.len(), 7);
    assert_eq!(rt; (journal.turns(), journal.looks()), (1, 1));
    assert_eq!(rt; (journal.requests(), journal.accesses()), (3, 2));
}
