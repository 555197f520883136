//! Runs of a block's elements by autoexec, with no poll between: a command makes the access of the first, and each write of data0 starts it again
//! (RISC-V Debug Specification 1.0, "Abstract Command Autoexec").

ghost use Rattle.std.specs.Prelude.{◌≡◌, ◌≢◌, ◌⊎◌, ◌≤◌, ◌<◌, ◌+◌, ◌*◌, ◌^◌, ◌++◌, ◌∷◌, [], length, take, None, IfErr, IfOk, IfSome};
ghost use Rattle.rv_model.specs.Size.{count_of};
ghost use Rattle.debug_model.specs.Rises.{Within};
ghost use Rattle.probe_access.specs.Never.{NeverLost};
ghost use Rattle.debug_model.specs.Addresses.{abstractauto_address};
ghost use Rattle.debug_model.specs.Command.{all_addresses, most_elements};
ghost use Rattle.debug_model.specs.Kept.{CanCall, Keeps};
ghost use Rattle.debug_model.specs.Many.{operations_most};
ghost use Rattle.debug_model.specs.declared.dmi_op.DmiOp.TheVariants.{Write};
ghost use Rattle.probe_access.specs.AskedRuns.{Asked, AskedBy, AskedFailed, AskedOnce, AskingFailed, EndFell, RunFell, Unplaced, early_error, looks_most, looks_of, more_most, run_ops};
ghost use Rattle.probe_access.specs.Blocks.{element_at};
ghost use Rattle.probe_access.specs.CommandRuns.{error_shown};
ghost use Rattle.probe_access.specs.ElementRuns.{StoresFailed, StoresOn};
ghost use Rattle.probe_access.specs.Faults.{access_why};
ghost use Rattle.probe_access.specs.RegisterRuns.{exception_error};
ghost use Rattle.probe_run.specs.Told.{Fails, told};

use crate::blocks::element;
use crate::commands::end_command;
use crate::elements::{next_command, start_block};
use crate::fault::AccessFault;
use crate::odd::OddStatus;
use crate::program::{X8, X9, store_of};
use crate::transfers::{EXCEPTION, read_register, write_register};
use arrayvec::ArrayVec;
use debug_model::{AbstractCommand, Abstractauto, Abstractcs, Data0, Dmi, DmiOp, OPERATIONS_MOST};
use rv_model::Size;

/// The most operations of a run's elements behind its first: three of its call are none of theirs.
const MORE_MOST: u16 = 125;

/// The most looks in front of each element.
pub const LOOKS_MOST: u16 = 6;

/// How many elements come behind the first of a run that may come too early.
const TRIAL: u16 = 4;

/// `abstractauto` with which an access to data0 starts the command.
pub const BY_DATA0: u32 = 1;

/// `cmderr` of an access that came while a command was under way.
pub const EARLY: u8 = 1;

/// A run has so many elements behind its first, with so many looks in front of each.
#[derive(Clone, Copy)]
pub struct Run {
    pub more: u16,
    pub looks: u16,
}

/// Puts an operation at a place, and answers the place behind it.
pub fn put(operation: DmiOp, operations: &mut [DmiOp], at: usize) -> usize
    requires room { at < length operations.old }
    ensures put { take result operations.new ≡ take at operations.old ++ operation ∷ [] }
    ensures behind { result ≡ at + 1 }
    ensures long { length operations.new ≡ length operations.old }
{
    operations[at] = operation;
    at + 1
}

/// Puts so many looks, and answers the place behind them.
pub fn put_looks(looks: u16, operations: &mut [DmiOp], at: usize) -> usize
    requires room { at + looks ≤ length operations.old }
    ensures put { take result operations.new ≡ take at operations.old ++ looks_of looks }
    ensures behind { result ≡ at + looks }
    ensures long { length operations.new ≡ length operations.old }
{
    let mut behind = at;
    'looks: for _look in 0..looks {
        behind = put(DmiOp::Read(Abstractcs::ADDRESS), operations, behind);
    }
    behind
}

/// Puts the operations of a run in front, and answers how many they are.
fn fill_run(run: Run, operations: &mut [DmiOp]) -> usize
    requires few { run.more * (run.looks + 1) ≤ more_most }
    requires room { length operations.old ≡ operations_most }
    ensures filled { take result operations.new ≡ Write abstractauto_address 1 ∷ run_ops run.looks run.more }
    ensures count { result ≡ run.more * (run.looks + 1) + 3 }
    ensures long { length operations.new ≡ operations_most }
{
    let first = put(DmiOp::Write(Abstractauto::ADDRESS, BY_DATA0), operations, 0);
    let mut at = put(
        DmiOp::Write(AbstractCommand::ADDRESS, next_command().word()),
        operations,
        first,
    );
    'elements: for _element in 0..run.more {
        let looked = put_looks(run.looks, operations, at);
        at = put(DmiOp::Write(Data0::ADDRESS, 0), operations, looked);
    }
    put(DmiOp::Read(Abstractcs::ADDRESS), operations, at)
}

/// Asks for an element and those of a run behind it, in one call, and answers `abstractcs` as it was at their end. An error that it shows is cleared.
fn ask_elements<D: Dmi>(link: &mut D, run: Run) -> Result<u32, AccessFault>
    requires callable { CanCall (D.seen link.old) }
    requires few { run.more * (run.looks + 1) ≤ more_most }
    ensures asked { IfOk result (λ last. AskedOnce run.more last (told (D.seen link.old)) (told (D.seen link.new))) }
    ensures failed { IfErr result (Fails (AskingFailed run.looks run.more) (D.seen link.old) (D.seen link.new)) }
    ensures rises { Within (run.more * (run.looks + 1) + 7) (D.seen link.old) (D.seen link.new) }
    ensures never { IfErr result (NeverLost (D.seen link.old)) }
    ensures keeps { Keeps access_why (D.seen link.old) (D.seen link.new) result }
{
    let mut operations = [DmiOp::Read(Abstractcs::ADDRESS); OPERATIONS_MOST];
    let filled = fill_run(run, &mut operations);
    let mut words = ArrayVec::new();
    link.many(&operations[..filled], &mut words)?;
    let last = end_command(link, words[filled - 1])?;
    Ok(last)
}

/// Asks for an element and those of a run behind it by autoexec, which is off again behind them, and answers `abstractcs` as it was at their end.
fn run_elements<D: Dmi>(link: &mut D, run: Run) -> Result<u32, AccessFault>
    requires callable { CanCall (D.seen link.old) }
    requires few { run.more * (run.looks + 1) ≤ more_most }
    ensures asked { IfOk result (λ last. Asked run.more last (told (D.seen link.old)) (told (D.seen link.new))) }
    ensures failed { IfErr result (Fails (AskedFailed run.looks run.more) (D.seen link.old) (D.seen link.new)) }
    ensures rises { Within (run.more * (run.looks + 1) + 8) (D.seen link.old) (D.seen link.new) }
    ensures never { IfErr result (NeverLost (D.seen link.old)) }
    ensures keeps { Keeps access_why (D.seen link.old) (D.seen link.new) result }
{
    let last = ask_elements(link, run)?;
    link.write(Abstractauto::ADDRESS, 0)?;
    Ok(last)
}

/// How many elements of a block lie in front of the address in x8, where it is that of an element of a run that follows the first `done`.
pub fn place_of(size: Size, address: u64, done: u16, more: u16, x8: u64) -> Option<u16>
    requires few { done + 1 + more ≤ most_elements }
    requires ends { address + (done + 1 + more) * count_of size < 2 ^ 64 }
    ensures there { IfSome result (λ found. (done ≤ found) × (found < done + 1 + more) × (x8 ≡ element_at size address found)) }
    ensures nowhere { result ≡ None → Unplaced size address done more x8 }
{
    let bytes = x8.wrapping_sub(address);
    let each = u64::from(size.count());
    let behind = u64::from(done) + 1 + u64::from(more);
    let found = bytes / each;
    if bytes % each != 0 || found < u64::from(done) || found >= behind {
        return None;
    }
    Some(found as u16)
}

/// How far a run came whose end showed that one element was asked for too early, or that memory refused one, by the address in x8.
fn end_run(
    size: Size,
    address: u64,
    done: u16,
    more: u16,
    last: u32,
    x8: u64,
) -> Result<u16, AccessFault>
    requires few { done + 1 + more ≤ most_elements }
    requires ends { address + (done + 1 + more) * count_of size < 2 ^ 64 }
    requires shown { (error_shown last ≡ early_error) ⊎ (error_shown last ≡ exception_error) }
    ensures some { IfOk result (λ found. (error_shown last ≡ early_error) × (done ≤ found) × (found < done + 1 + more) × (x8 ≡ element_at size address found)) }
    ensures fell { IfErr result (EndFell size address done more last x8) }
{
    let Some(found) = place_of(size, address, done, more, x8) else {
        return Err(AccessFault::Odd(OddStatus::Abstractcs(last)));
    };
    if Abstractcs::from_word(last).cmderr == EARLY {
        return Ok(found);
    }
    Err(AccessFault::Memory(address + u64::from(found) * u64::from(size.count())))
}

/// Makes the accesses of an element of a block and of those of a run behind it, with `done` in front of them: how many are done then, where one was
/// asked for too early, and else none is left. `Memory` where memory refused one.
fn run_at<D: Dmi>(
    link: &mut D,
    size: Size,
    address: u64,
    done: u16,
    run: Run,
) -> Result<Option<u16>, AccessFault>
    requires callable { CanCall (D.seen link.old) }
    requires few { run.more * (run.looks + 1) ≤ more_most }
    requires room { done + 1 + run.more ≤ most_elements }
    requires ends { address + (done + 1 + run.more) * count_of size < 2 ^ 64 }
    ensures ran { IfOk result (λ found. AskedBy size address done run.more found (told (D.seen link.old)) (told (D.seen link.new))) }
    ensures fell { IfErr result (Fails (RunFell size address done run.more) (D.seen link.old) (D.seen link.new)) }
    ensures whole { IfOk result (λ found. found ≡ None → Within (run.more * (run.looks + 1) + 8) (D.seen link.old) (D.seen link.new)) }
    ensures rises { Within (run.more * (run.looks + 1) + 24) (D.seen link.old) (D.seen link.new) }
    ensures never { IfErr result (NeverLost (D.seen link.old)) }
    ensures keeps { Keeps access_why (D.seen link.old) (D.seen link.new) result }
{
    let last = run_elements(link, run)?;
    match Abstractcs::from_word(last).cmderr {
        0 => Ok(None),
        EARLY | EXCEPTION => {
            let x8 = read_register(link, X8)?;
            let found = end_run(size, address, done, run.more, last, x8)?;
            Ok(Some(found))
        }
        _ => Err(AccessFault::Odd(OddStatus::Abstractcs(last))),
    }
}

/// The next run, of at most so many elements behind its first, each of which has so many operations of its own.
pub fn next_run(most: u16, looks: u16, own: u16, trial: bool) -> Run
    requires few { looks ≤ looks_most }
    requires own { (1 ≤ own) × (own ≤ 2) }
    ensures few { result.more * (result.looks + own) ≤ more_most }
    ensures looks { result.looks ≡ looks }
    ensures within { result.more ≤ most }
{
    let room = if trial {
        TRIAL
    } else {
        MORE_MOST / (looks + own)
    };
    Run {
        more: most.min(room),
        looks,
    }
}

/// Stores a value to the first element of a block, and to the others in runs but for the last ones, by x8 and x9 of the selected hart: how many are
/// stored then. Where one was asked for too early the program is begun again, and the next run has one more look in front of each element.
pub fn store_front<D: Dmi>(
    link: &mut D,
    size: Size,
    address: u64,
    count: u16,
    value: u64,
) -> Result<u16, AccessFault>
    requires callable { CanCall (D.seen link.old) }
    requires some { 1 ≤ count }
    requires room { count ≤ most_elements }
    requires ends { address + count * count_of size ≤ all_addresses }
    ensures stored { IfOk result (λ done. StoresOn size address value count (told (D.seen link.old)) done (told (D.seen link.new))) }
    ensures most { IfOk result (λ done. done ≤ count) }
    ensures failed { IfErr result (Fails (StoresFailed size address value count) (D.seen link.old) (D.seen link.new)) }
    ensures rises { Within (57 * count + 256) (D.seen link.old) (D.seen link.new) }
    ensures never { IfErr result (NeverLost (D.seen link.old)) }
    ensures keeps { Keeps access_why (D.seen link.old) (D.seen link.new) result }
{
    write_register(link, X9, value)?;
    start_block(link, store_of(size), size, address)?;
    let mut done = 1;
    let mut looks = 0;
    let mut trial = true;
    'runs: while looks <= LOOKS_MOST && done + 2 < count {
        let run = next_run(count - 2 - done, looks, 1, trial);
        match run_at(link, size, address, done, run)? {
            None => {
                done += 1 + run.more;
                trial = false;
            }
            Some(found) => {
                let at = element(size, address, found, count);
                start_block(link, store_of(size), size, at)?;
                done = found + 1;
                looks += 1;
                trial = true;
            }
        }
    }
    Ok(done)
}
