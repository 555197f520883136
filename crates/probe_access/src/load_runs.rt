//! Runs of a block's loads by autoexec, with no poll between: a command hands out what x9 holds and makes the access of the next element, and each
//! read of data0 takes the word that was handed out and starts it again (RISC-V Debug Specification 1.0, "Abstract Command Autoexec"). An element of at
//! most 4 bytes was loaded with its upper bits 0, so data1 is read for elements of 8 bytes alone.

ghost use Rattle.std.specs.Prelude.{◌≡◌, ◌≤◌, ◌<◌, ◌+◌, ◌*◌, ◌^◌, ◌++◌, ◌∷◌, [], true, length, take, drop, None, IfErr, IfOk, IfSome, OnOk};
ghost use Rattle.rv_model.specs.Size.{count_of};
ghost use Rattle.debug_model.specs.Rises.{Within};
ghost use Rattle.probe_access.specs.Never.{NeverLost};
ghost use Rattle.debug_model.specs.Addresses.{abstractauto_address};
ghost use Rattle.debug_model.specs.Command.{all_addresses, most_elements};
ghost use Rattle.debug_model.specs.Kept.{CanCall, Keeps};
ghost use Rattle.debug_model.specs.Many.{operations_most};
ghost use Rattle.debug_model.specs.declared.dmi_op.DmiOp.TheVariants.{Write};
ghost use Rattle.probe_access.specs.Blocks.{element_at};
ghost use Rattle.probe_access.specs.ElementRuns.{LoadsFailed, LoadsOn};
ghost use Rattle.probe_access.specs.Faults.{access_why};
ghost use Rattle.probe_access.specs.ReadRuns.{AskLoadsFailed, AskedLoads, HandedMore, HandingFailed, LoadsAsking, LoadsRead, NoneMade, element_of};
ghost use Rattle.probe_access.specs.ReadRuns.{element_ops, is_wide, load_ops, own_words, reads_most, values_read};
ghost use Rattle.probe_run.specs.Told.{Fails, told};

use crate::blocks::{ELEMENTS_MOST, element};
use crate::commands::end_command;
use crate::doubles::{join, read_double};
use crate::elements::{next_command, start_block};
use crate::fault::AccessFault;
use crate::odd::OddStatus;
use crate::program::{X8, element_load_of};
use crate::runs::{BY_DATA0, EARLY, LOOKS_MOST, Run, next_run, place_of, put, put_looks};
use crate::transfers::{EXCEPTION, read_apart};
use arrayvec::ArrayVec;
use debug_model::{
    AbstractCommand, Abstractauto, Abstractcs, Data0, Data1, Dmi, DmiOp, OPERATIONS_MOST,
};
use rv_model::Size;

/// How many words of an element are read.
fn own_words(size: Size) -> u16
    ensures words { result ≡ own_words (is_wide size) }
    ensures some { 1 ≤ result }
    ensures few { result ≤ 2 }
{
    match size {
        Size::B1 | Size::B2 | Size::B4 => 1,
        Size::B8 => 2,
    }
}

/// Puts the reads of one element at a place and answers the place behind them. Its lower word comes last, since it starts the next access.
fn put_element(size: Size, operations: &mut [DmiOp], at: usize) -> usize
    requires room { at + own_words (is_wide size) ≤ length operations.old }
    ensures put { take result operations.new ≡ take at operations.old ++ element_ops (is_wide size) }
    ensures behind { result ≡ at + own_words (is_wide size) }
    ensures long { length operations.new ≡ length operations.old }
{
    match size {
        Size::B1 | Size::B2 | Size::B4 => {
            operations[at] = DmiOp::Read(Data0::ADDRESS);
            at + 1
        }
        Size::B8 => {
            operations[at] = DmiOp::Read(Data1::ADDRESS);
            operations[at + 1] = DmiOp::Read(Data0::ADDRESS);
            at + 2
        }
    }
}

/// The element of the words from a place on.
fn element_of(size: Size, words: &[u32], at: usize) -> u64
    requires there { at + own_words (is_wide size) ≤ length words.now }
    ensures { result ≡ element_of (is_wide size) (drop at words.now) }
{
    match size {
        Size::B1 | Size::B2 | Size::B4 => u64::from(words[at]),
        Size::B8 => join(words[at + 1], words[at]),
    }
}

/// Puts the operations of a run in front, and answers how many they are.
fn fill_loads(size: Size, run: Run, operations: &mut [DmiOp]) -> usize
    requires few { run.more * (run.looks + own_words (is_wide size)) ≤ reads_most }
    requires room { length operations.old ≡ operations_most }
    ensures filled { take result operations.new ≡ Write abstractauto_address 1 ∷ load_ops (is_wide size) run.looks run.more }
    ensures count { result ≡ run.more * (run.looks + own_words (is_wide size)) + 3 }
    ensures long { length operations.new ≡ operations_most }
{
    let first = put(DmiOp::Write(Abstractauto::ADDRESS, BY_DATA0), operations, 0);
    let mut at = put(
        DmiOp::Write(AbstractCommand::ADDRESS, next_command().word()),
        operations,
        first,
    );
    'elements: for _element in 0..run.more {
        let looked = put_looks(run.looks, operations, at);
        at = put_element(size, operations, looked);
    }
    put(DmiOp::Read(Abstractcs::ADDRESS), operations, at)
}

/// Asks for an element and those of a run behind it, in one call, and answers `abstractcs` as it was at their end. An error that it shows is cleared.
fn ask_loads<D: Dmi>(
    link: &mut D,
    size: Size,
    run: Run,
    words: &mut ArrayVec<u32, OPERATIONS_MOST>,
) -> Result<u32, AccessFault>
    requires callable { CanCall (D.seen link.old) }
    requires few { run.more * (run.looks + own_words (is_wide size)) ≤ reads_most }
    requires empty { words.old.items ≡ [] }
    ensures asked { IfOk result
        (λ last. LoadsRead (is_wide size) (values_read (is_wide size) run.looks run.more (drop 2 words.new.items)) last
        (told (D.seen link.old)) (told (D.seen link.new))) }
    ensures count { OnOk result (length words.new.items ≡ run.more * (run.looks + own_words (is_wide size)) + 3) }
    ensures failed { IfErr result (Fails (LoadsAsking (is_wide size) run.looks run.more) (D.seen link.old) (D.seen link.new)) }
    ensures rises { Within (run.more * (run.looks + own_words (is_wide size)) + 7) (D.seen link.old) (D.seen link.new) }
    ensures never { IfErr result (NeverLost (D.seen link.old)) }
    ensures keeps { Keeps access_why (D.seen link.old) (D.seen link.new) result }
{
    let mut operations = [DmiOp::Read(Abstractcs::ADDRESS); OPERATIONS_MOST];
    let filled = fill_loads(size, run, &mut operations);
    link.many(&operations[..filled], words)?;
    let last = end_command(link, words[filled - 1])?;
    Ok(last)
}

/// The same by autoexec, which is off again behind them.
fn run_loads<D: Dmi>(
    link: &mut D,
    size: Size,
    run: Run,
    words: &mut ArrayVec<u32, OPERATIONS_MOST>,
) -> Result<u32, AccessFault>
    requires callable { CanCall (D.seen link.old) }
    requires few { run.more * (run.looks + own_words (is_wide size)) ≤ reads_most }
    requires empty { words.old.items ≡ [] }
    ensures asked { IfOk result
        (λ last. AskedLoads (is_wide size) (values_read (is_wide size) run.looks run.more (drop 2 words.new.items)) last
        (told (D.seen link.old)) (told (D.seen link.new))) }
    ensures count { OnOk result (length words.new.items ≡ run.more * (run.looks + own_words (is_wide size)) + 3) }
    ensures failed { IfErr result (Fails (AskLoadsFailed (is_wide size) run.looks run.more) (D.seen link.old) (D.seen link.new)) }
    ensures rises { Within (run.more * (run.looks + own_words (is_wide size)) + 8) (D.seen link.old) (D.seen link.new) }
    ensures never { IfErr result (NeverLost (D.seen link.old)) }
    ensures keeps { Keeps access_why (D.seen link.old) (D.seen link.new) result }
{
    let last = ask_loads(link, size, run, words)?;
    link.write(Abstractauto::ADDRESS, 0)?;
    Ok(last)
}

/// How many accesses a run made, from `least` up to `more`, by the address in x8, where so many elements were handed out before it.
fn made_of(size: Size, address: u64, handed: u16, least: u16, more: u16, x8: u64) -> Option<u16>
    requires few { handed + 2 + more ≤ most_elements }
    requires ends { address + (handed + 2 + more) * count_of size < 2 ^ 64 }
    ensures there { IfSome result (λ made. (least ≤ made) × (made ≤ more) × (x8 ≡ element_at size address (handed + 1 + made))) }
    ensures nowhere { result ≡ None → NoneMade size address handed least more x8 }
{
    let found = place_of(size, address, handed + 1, more, x8)?;
    let made = found - handed - 1;
    if made < least {
        return None;
    }
    Some(made)
}

/// Hands out the first elements of those that a run read, and the one behind them.
fn hand_out(
    size: Size,
    words: &[u32],
    taken: u16,
    looks: u16,
    value: u64,
    into: &mut ArrayVec<u64, ELEMENTS_MOST>,
)
    requires there { taken * (looks + own_words (is_wide size)) + 2 ≤ length words.now }
    requires room { length into.old.items + taken < most_elements }
    ensures handed { into.new.items ≡ into.old.items ++ (values_read (is_wide size) looks taken (drop 2 words.now) ++ value ∷ []) }
{
    let own = usize::from(own_words(size));
    let mut at = 2;
    'elements: for _element in 0..taken {
        let looked = at + usize::from(looks);
        into.push(element_of(size, words, looked));
        at = looked + own;
    }
    into.push(value);
}

/// Makes the accesses of an element of a block and of those of a run behind it, with `into` and one more in front of them, and hands out as many that
/// come before the last of them. Whether all were made: else a word was read too early, and those in front of it were. `Memory` where memory refused
/// one: then all in front of that are handed out.
fn load_run<D: Dmi>(
    link: &mut D,
    size: Size,
    address: u64,
    count: u16,
    run: Run,
    into: &mut ArrayVec<u64, ELEMENTS_MOST>,
) -> Result<bool, AccessFault>
    requires callable { CanCall (D.seen link.old) }
    requires few { run.more * (run.looks + own_words (is_wide size)) ≤ reads_most }
    requires within { length into.old.items + 2 + run.more < count }
    requires room { count ≤ most_elements }
    requires ends { address + count * count_of size ≤ all_addresses }
    ensures handed { OnOk result (HandedMore size address count into.old.items into.new.items (told (D.seen link.old)) (told (D.seen link.new))) }
    ensures more { OnOk result (length into.old.items < length into.new.items) }
    ensures whole { IfOk result (λ whole. whole ≡ true → length into.new.items ≡ length into.old.items + run.more + 1) }
    ensures most { OnOk result (length into.new.items + 1 < count) }
    ensures failed { IfErr result (Fails (HandingFailed size address count into.old.items into.new.items) (D.seen link.old) (D.seen link.new)) }
    ensures rises { Within (run.more * (run.looks + own_words (is_wide size)) + 18) (D.seen link.old) (D.seen link.new) }
    ensures never { IfErr result (NeverLost (D.seen link.old)) }
    ensures keeps { Keeps access_why (D.seen link.old) (D.seen link.new) result }
{
    let handed = into.len() as u16;
    let mut words = ArrayVec::new();
    let last = run_loads(link, size, run, &mut words)?;
    match Abstractcs::from_word(last).cmderr {
        0 => {
            let value = read_double(link)?;
            hand_out(size, &words, run.more, run.looks, value, into);
            Ok(true)
        }
        EARLY => {
            let value = read_double(link)?;
            let x8 = read_apart(link, X8)?;
            let Some(made) = made_of(size, address, handed, 1, run.more, x8) else {
                return Err(AccessFault::Odd(OddStatus::Abstractcs(last)));
            };
            hand_out(size, &words, made - 1, run.looks, value, into);
            Ok(false)
        }
        EXCEPTION => {
            let value = read_double(link)?;
            let x8 = read_apart(link, X8)?;
            let Some(made) = made_of(size, address, handed, 0, run.more, x8) else {
                return Err(AccessFault::Odd(OddStatus::Abstractcs(last)));
            };
            hand_out(size, &words, made, run.looks, value, into);
            Err(AccessFault::Memory(element(size, address, handed + 1 + made, count)))
        }
        _ => Err(AccessFault::Odd(OddStatus::Abstractcs(last))),
    }
}

/// Loads the first element of a block, and the others in runs but for the last ones, by x8 and x9 of the selected hart, and hands out all but the one
/// that was loaded last, which x9 holds. Where a word was read too early the next run has one more look in front of each element.
pub fn load_front<D: Dmi>(
    link: &mut D,
    size: Size,
    address: u64,
    count: u16,
    into: &mut ArrayVec<u64, ELEMENTS_MOST>,
) -> Result<(), AccessFault>
    requires callable { CanCall (D.seen link.old) }
    requires some { 1 ≤ count }
    requires room { count ≤ most_elements }
    requires ends { address + count * count_of size ≤ all_addresses }
    requires empty { into.old.items ≡ [] }
    ensures on { OnOk result (LoadsOn size address count (told (D.seen link.old)) into.new.items (told (D.seen link.new))) }
    ensures most { OnOk result (length into.new.items < count) }
    ensures failed { IfErr result (Fails (LoadsFailed size address count into.new.items) (D.seen link.old) (D.seen link.new)) }
    ensures rises { Within (74 * count) (D.seen link.old) (D.seen link.new) }
    ensures never { IfErr result (NeverLost (D.seen link.old)) }
    ensures keeps { Keeps access_why (D.seen link.old) (D.seen link.new) result }
{
    start_block(link, element_load_of(size), size, address)?;
    let mut looks = 0;
    let mut trial = true;
    'runs: while looks <= LOOKS_MOST && into.len() + 3 < usize::from(count) {
        let left = count - 3 - into.len() as u16;
        let run = next_run(left, looks, own_words(size), trial);
        let whole = load_run(link, size, address, count, run, into)?;
        trial = !whole;
        if !whole {
            looks += 1;
        }
    }
    Ok(())
}
