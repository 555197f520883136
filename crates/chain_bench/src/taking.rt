//! The bytes of the stream, one by one, at the chip and at the devices beside it.

ghost use Rattle.std.specs.Prelude.{◌≡◌, ◌<◌, ◌≤◌, ◌+◌, ◌++◌, [], IsSome, length, option_map};
ghost use Rattle.arrayvec.specs.ArrayVec.{array_vec_len};
ghost use Rattle.debug_model.specs.Chip.{after, answer_byte};
ghost use Rattle.debug_model.specs.Ties.{timing_told};
ghost use Rattle.debug_model.specs.Wire.{piece_most};
ghost use Rattle.chain_scan.specs.ChipInChain.{levels_byte};
ghost use Rattle.chain_scan.specs.Told.{chain_after};
ghost use Rattle.chip_core.specs.Fed.{fed_at};
ghost use Rattle.chip_core.specs.Feeds.{far_of};
ghost use Rattle.chain_bench.specs.Benched.{answer_in, chain_on, end_told, ended_of, feed_in, said_in, tck_of, tdo_of};
ghost use Rattle.chain_bench.specs.ChainFed.{fed_in};

use crate::sides::Sides;
use bitbang_stream::classify;
use chip_core::{Answers, Bench, Fed};
use debug_model::{ChipEnd, Schedule, Sign};

/// The sign that asks for TDO.
const ASK: u8 = b'R';

/// The chip's level on TDO, None where something has ended it. It stays as it is.
fn ask<Q: Schedule>(bench: &mut Bench<Q>) -> Option<bool>
    requires loaded { IsSome bench.old }
    ensures level { result ≡ tdo_of bench.old }
    ensures same { bench.new ≡ bench.old }
{
    let mut answers = Answers::new();
    bench.feed(&[ASK], &mut answers);
    match answers.as_slice() {
        [answer, ..] => Some(*answer == b'1'),
        [] => None,
    }
}

/// What has ended the chip, by what a feed has answered.
fn end_told(fed: Fed) -> Option<ChipEnd>
    ensures { result ≡ end_told fed }
{
    match fed {
        Fed::All => None,
        Fed::Quit(_) => Some(ChipEnd::Quitted),
        Fed::Bad(_, byte) => Some(ChipEnd::BadByte(byte)),
        Fed::EventLimit(_) => Some(ChipEnd::AtLimit),
    }
}

/// What a feed answers of this end, at this place.
fn fed_at(end: ChipEnd, place: usize) -> Fed
    ensures { result ≡ fed_at end place }
{
    match end {
        ChipEnd::Quitted => Fed::Quit(place),
        ChipEnd::BadByte(byte) => Fed::Bad(place, byte),
        ChipEnd::AtLimit => Fed::EventLimit(place),
    }
}

/// Gives the chip this byte, whose answer is dropped, and says what has ended it.
fn feed_one<Q: Schedule>(bench: &mut Bench<Q>, byte: u8) -> Option<ChipEnd>
    requires loaded { IsSome bench.old }
    ensures chip { bench.new ≡ option_map (λ l. after l byte) bench.old }
    ensures ended { result ≡ ended_of bench.new }
    ensures timing { timing_told (far_of bench.new []) ≡ timing_told (far_of bench.old []) }
    ensures loaded { IsSome bench.new }
{
    let mut dropped = Answers::new();
    let fed = bench.feed(&[byte], &mut dropped);
    end_told(fed)
}

/// The digit that sets TCK, TMS and TDI to these levels.
fn pins_digit(tck: bool, tms: bool, tdi: bool) -> u8
    ensures { result ≡ levels_byte tck tms tdi }
{
    match (tck, tms, tdi) {
        (false, false, false) => b'0',
        (false, false, true) => b'1',
        (false, true, false) => b'2',
        (false, true, true) => b'3',
        (true, false, false) => b'4',
        (true, false, true) => b'5',
        (true, true, false) => b'6',
        (true, true, true) => b'7',
    }
}

/// The answer to a question for this level.
fn answer_of(level: bool) -> u8
    ensures { result ≡ answer_byte level }
{
    if level { b'1' } else { b'0' }
}

/// One byte, at the chip and at the devices beside it; where it ends the chip, these stay as they are. It answers what has ended the chip.
fn take<Q: Schedule>(
    bench: &mut Bench<Q>,
    sides: &mut Sides,
    byte: u8,
    unread: &mut Answers,
) -> Option<ChipEnd>
    requires loaded { IsSome bench.old }
    requires clock { sides.old.tck ≡ tck_of bench.old }
    requires room { array_vec_len unread.old < piece_most }
    ensures chain { chain_on bench.new sides.new ≡ option_map (λ l. chain_after l byte) (chain_on bench.old sides.old) }
    ensures answers { unread.new.items ≡ unread.old.items ++ answer_in (chain_on bench.old sides.old) byte }
    ensures ended { result ≡ ended_of bench.new }
    ensures clock { sides.new.tck ≡ tck_of bench.new }
    ensures timing { timing_told (far_of bench.new []) ≡ timing_told (far_of bench.old []) }
    ensures loaded { IsSome bench.new }
    ensures room { array_vec_len unread.new ≤ array_vec_len unread.old + 1 }
{
    let Some(chip_tdo) = ask(bench) else {
        return feed_one(bench, byte);
    };
    match classify(byte) {
        Ok(Sign::Pins(tck, tms, tdi)) => {
            let seen = pins_digit(tck, tms, sides.chip_tdi(tdi));
            match feed_one(bench, seen) {
                None => {
                    sides.set_pins(chip_tdo, tck, tms, tdi);
                    None
                }
                Some(end) => Some(end),
            }
        }
        Ok(Sign::Ask) => {
            unread.push(answer_of(sides.tdo(chip_tdo)));
            None
        }
        Ok(Sign::Reset(on)) => {
            let held = feed_one(bench, byte);
            sides.hold_reset(on);
            held
        }
        Ok(Sign::Light) => feed_one(bench, byte),
        Ok(Sign::Quit) => feed_one(bench, byte),
        Err(_) => feed_one(bench, byte),
    }
}

/// All these bytes; nothing behind what ended the chip, which it answers.
pub fn take_all<Q: Schedule>(
    bench: &mut Bench<Q>,
    sides: &mut Sides,
    bytes: &[u8],
    unread: &mut Answers,
) -> Fed
    requires loaded { IsSome bench.old }
    requires clock { sides.old.tck ≡ tck_of bench.old }
    requires room { array_vec_len unread.old + length bytes.now ≤ piece_most }
    ensures chain { chain_on bench.new sides.new ≡ feed_in (chain_on bench.old sides.old) bytes.now }
    ensures answers { unread.new.items ≡ unread.old.items ++ said_in (chain_on bench.old sides.old) bytes.now }
    ensures fed { result ≡ fed_in (chain_on bench.old sides.old) bytes.now }
    ensures clock { sides.new.tck ≡ tck_of bench.new }
    ensures timing { timing_told (far_of bench.new []) ≡ timing_told (far_of bench.old []) }
    ensures loaded { IsSome bench.new }
    ensures room { array_vec_len unread.new ≤ array_vec_len unread.old + length bytes.now }
{
    for (place, byte) in bytes.iter().enumerate() {
        if let Some(end) = take(bench, sides, *byte, unread) {
            return fed_at(end, place);
        }
    }
    Fed::All
}
