//! The parts of a run of loads by the system bus, in which each read of the data starts the next access: its start, its words, and where it ended.

ghost use Rattle.std.specs.Prelude.{◌≡◌, ◌≤◌, ◌<◌, ◌+◌, ◌*◌, ◌^◌, ◌++◌, true, false, length, take, IfErr, IfOk, OnErr, OnOk, Some};
ghost use Rattle.rv_model.specs.Size.{count_of};
ghost use Rattle.debug_model.specs.Rises.{FailsByWire, Within};
ghost use Rattle.debug_model.specs.Command.{most_elements};
ghost use Rattle.debug_model.specs.Kept.{CanCall, Keeps, Stands};
ghost use Rattle.debug_model.specs.Many.{operations_most};
ghost use Rattle.probe_access.specs.BusStreams.{Finding, FoundAt, Handed, HandedOut, Misplaced, MoreRead, ReadingData};
ghost use Rattle.probe_access.specs.BusStreams.{doubles_of, reads_of, reads_of_one, running, values_in, words_of};
ghost use Rattle.probe_access.specs.BusRuns.{cut_to};
ghost use Rattle.probe_access.specs.Faults.{Among, BrokeIn};
ghost use Rattle.probe_run.specs.Told.{Breaks, told};

use crate::blocks::ELEMENTS_MOST;
use crate::bus_parts::{CLEARS_SBERROR, access_of};
use crate::doubles::join;
use crate::memory::cut_to;
use arrayvec::ArrayVec;
use debug_model::{
    Dmi, DmiFault, DmiOp, OPERATIONS_MOST, Sbaddress0, Sbaddress1, Sbcs, Sbdata0, Sbdata1,
};
use rv_model::Size;

/// How many elements are read in one call at most: each takes two operations or one.
const ELEMENTS_A_CALL: u16 = 64;

/// The word of `sbcs` for a run of loads: the address starts the first, and where asked each read of `sbdata0` the next, one size further on.
pub fn running_of(on_data: bool, size: Size) -> u32
    ensures { result ≡ running on_data size }
{
    let bus = Sbcs {
        sbreadonaddr: true,
        sbaccess: access_of(size),
        sbversion: 0,
        sbbusyerror: false,
        sbbusy: false,
        sbautoincrement: true,
        sbreadondata: on_data,
        sberror: 0,
        sbasize: 0,
        sizes: 0,
    };
    bus.word()
}

/// Puts the reads of one element at a place and answers the place behind them. Its lower half comes last, since it starts the next access.
fn put_reads(size: Size, operations: &mut [DmiOp], at: usize) -> usize
    requires room { at + 2 ≤ length operations.old }
    ensures put { take result operations.new ≡ take at operations.old ++ reads_of_one size }
    ensures behind { result ≤ at + 2 }
    ensures long { length operations.new ≡ length operations.old }
{
    match size {
        Size::B1 | Size::B2 | Size::B4 => {
            operations[at] = DmiOp::Read(Sbdata0::ADDRESS);
            at + 1
        }
        Size::B8 => {
            operations[at] = DmiOp::Read(Sbdata1::ADDRESS);
            operations[at + 1] = DmiOp::Read(Sbdata0::ADDRESS);
            at + 2
        }
    }
}

/// Puts the reads of so many elements, at most 64, in front and answers how many reads they are.
fn fill_reads(size: Size, number: u16, operations: &mut [DmiOp]) -> usize
    requires few { number ≤ 64 }
    requires room { length operations.old ≡ operations_most }
    ensures filled { take result operations.new ≡ reads_of size number }
    ensures within { result ≤ operations_most }
    ensures long { length operations.new ≡ operations_most }
{
    let mut at = 0;
    'elements: for _element in 0..number {
        at = put_reads(size, operations, at);
    }
    at
}

/// Takes elements of 8 bytes out of words, the upper half of each first.
fn take_doubles(results: &[u32], into: &mut ArrayVec<u64, ELEMENTS_MOST>)
    requires room { 2 * length into.old.items + length results.now ≤ 2 * most_elements }
    ensures { into.new.items ≡ into.old.items ++ doubles_of results.now }
{
    let mut rest = results;
    'words: while let [high, low, after @ ..] = rest {
        into.push(join(*low, *high));
        rest = after;
    }
}

/// Takes elements of at most 4 bytes out of words.
fn take_words(size: Size, results: &[u32], into: &mut ArrayVec<u64, ELEMENTS_MOST>)
    requires room { length into.old.items + length results.now ≤ most_elements }
    ensures { into.new.items ≡ into.old.items ++ words_of size results.now }
{
    let mut rest = results;
    'words: while let [low, after @ ..] = rest {
        into.push(cut_to(size, u64::from(*low)));
        rest = after;
    }
}

/// Takes elements out of the words that the reads of so many showed.
fn take_values(size: Size, number: u16, results: &[u32], into: &mut ArrayVec<u64, ELEMENTS_MOST>)
    requires all { length results.now ≡ length (reads_of size number) }
    requires room { length into.old.items + number ≤ most_elements }
    ensures { into.new.items ≡ into.old.items ++ values_in size results.now }
{
    let _number = number;
    match size {
        Size::B1 => take_words(Size::B1, results, into),
        Size::B2 => take_words(Size::B2, results, into),
        Size::B4 => take_words(Size::B4, results, into),
        Size::B8 => take_doubles(results, into),
    }
}

/// Reads so many elements, at most 64, in one call.
pub fn read_call<D: Dmi>(
    link: &mut D,
    size: Size,
    number: u16,
    into: &mut ArrayVec<u64, ELEMENTS_MOST>,
) -> Result<(), DmiFault>
    requires callable { CanCall (D.seen link.old) }
    requires some { 1 ≤ number }
    requires few { number ≤ 64 }
    requires room { length into.old.items + number ≤ most_elements }
    ensures read { OnOk result (MoreRead size number into.old.items into.new.items (told (D.seen link.old)) (told (D.seen link.new))) }
    ensures broke { IfErr result (Breaks (BrokeIn (Among (ReadingData number))) (D.seen link.old) (D.seen link.new)) }
    ensures unchanged { IfErr result (λ fault. into.new.items ≡ into.old.items) }
    ensures rises { Within (2 * number) (D.seen link.old) (D.seen link.new) }
    ensures never { IfErr result (FailsByWire (D.seen link.old)) }
    ensures keeps { Keeps Some (D.seen link.old) (D.seen link.new) result }
{
    let mut operations = [DmiOp::Read(Sbdata0::ADDRESS); OPERATIONS_MOST];
    let filled = fill_reads(size, number, &mut operations);
    let mut words = ArrayVec::new();
    link.many(&operations[..filled], &mut words)?;
    take_values(size, number, &words, into);
    Ok(())
}

/// How many of so many elements are accessed in the next call, of which each takes so many at most.
pub fn next_call(left: u16, most: u16) -> u16
    requires some { 1 ≤ left }
    requires takes_some { 1 ≤ most }
    ensures some { 1 ≤ result }
    ensures few { result ≤ most }
    ensures within { result ≤ left }
{
    if left < most {
        return left;
    }
    most
}

/// Reads so many elements, in calls of at most 64.
pub fn read_elements<D: Dmi>(
    link: &mut D,
    size: Size,
    number: u16,
    into: &mut ArrayVec<u64, ELEMENTS_MOST>,
) -> Result<(), DmiFault>
    requires stands { Stands (D.seen link.old) }
    requires room { length into.old.items + number ≤ most_elements }
    ensures read { OnOk result (MoreRead size number into.old.items into.new.items (told (D.seen link.old)) (told (D.seen link.new))) }
    ensures broke { IfErr result (Breaks (BrokeIn (Among (ReadingData number))) (D.seen link.old) (D.seen link.new)) }
    ensures rises { Within (2 * number) (D.seen link.old) (D.seen link.new) }
    ensures never { IfErr result (FailsByWire (D.seen link.old)) }
    ensures keeps { Keeps Some (D.seen link.old) (D.seen link.new) result }
{
    let mut left = number;
    'calls: while left > 0 {
        let now = next_call(left, ELEMENTS_A_CALL);
        read_call(link, size, now, into)?;
        left -= now;
    }
    Ok(())
}

/// What the bus holds behind a run.
#[derive(Clone, Copy, Debug, PartialEq, Eq)]
pub struct Held {
    /// The address behind the last access.
    pub address: u64,
    /// What it read.
    pub value: u64,
}

/// Clears the errors of the bus, and reads its address and its data.
#[tactic(auto, using(debug_model::proofs::RiseLemmas::within_then, debug_model::proofs::RiseLemmas::within_more))]
pub fn find<D: Dmi>(link: &mut D) -> Result<Held, DmiFault>
    requires callable { CanCall (D.seen link.old) }
    ensures found { IfOk result (λ held. FoundAt held.address held.value (told (D.seen link.old)) (told (D.seen link.new))) }
    ensures broke { IfErr result (Breaks (BrokeIn (Among Finding)) (D.seen link.old) (D.seen link.new)) }
    ensures rises { Within 5 (D.seen link.old) (D.seen link.new) }
    ensures never { IfErr result (FailsByWire (D.seen link.old)) }
    ensures keeps { Keeps Some (D.seen link.old) (D.seen link.new) result }
{
    let operations = [
        DmiOp::Write(Sbcs::ADDRESS, CLEARS_SBERROR),
        DmiOp::Read(Sbaddress1::ADDRESS),
        DmiOp::Read(Sbaddress0::ADDRESS),
        DmiOp::Read(Sbdata1::ADDRESS),
        DmiOp::Read(Sbdata0::ADDRESS),
    ];
    let mut words = ArrayVec::new();
    link.many(&operations, &mut words)?;
    Ok(Held {
        address: join(words[2], words[1]),
        value: join(words[4], words[3]),
    })
}

/// Of the elements that were read keeps those that an address stands behind, with the last as the bus holds it: whether it stands behind any.
pub fn hand_out(
    size: Size,
    address: u64,
    held: &Held,
    into: &mut ArrayVec<u64, ELEMENTS_MOST>,
) -> bool
    requires ends { address + length into.old.items * count_of size ≤ 2 ^ 64 }
    requires room { length into.old.items ≤ most_elements }
    ensures there { result ≡ true → HandedOut size address held.now.address held.now.value into.old.items into.new.items }
    ensures nowhere { result ≡ false → Misplaced size address held.now.address (length into.old.items) }
{
    let bytes = held.address.wrapping_sub(address);
    let each = u64::from(size.count());
    let read = into.len() as u64;
    if bytes % each != 0 || bytes / each > read {
        return false;
    }
    keep_front(size, held, (bytes / each) as usize, into);
    true
}

/// Keeps so many of the elements that were read, the last as the bus holds it.
fn keep_front(size: Size, held: &Held, number: usize, into: &mut ArrayVec<u64, ELEMENTS_MOST>)
    requires within { number ≤ length into.old.items }
    requires room { length into.old.items ≤ most_elements }
    ensures kept { length into.new.items ≡ number }
    ensures handed { Handed into.old.items (cut_to size held.now.value) into.new.items }
{
    if number == 0 {
        into.clear();
        return;
    }
    into.truncate(number - 1);
    into.push(cut_to(size, held.value));
}
