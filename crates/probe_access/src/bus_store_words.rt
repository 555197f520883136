//! The words of stores in a row by the system bus: the lower half of each value, which starts its store, and in front of it the upper half where the bus
//! holds another.

ghost use Rattle.std.specs.Prelude.{◌≡◌, ◌≤◌, ◌<◌, ◌+◌, ◌-◌, ◌++◌, length, take, IfErr, IfOk, OnOk, Some};
ghost use Rattle.debug_model.specs.Rises.{FailsByWire, Within};
ghost use Rattle.debug_model.specs.Command.{most_elements};
ghost use Rattle.debug_model.specs.Kept.{CanCall, Keeps, Stands};
ghost use Rattle.debug_model.specs.Many.{operations_most};
ghost use Rattle.probe_access.specs.BusRuns.{Starting};
ghost use Rattle.probe_access.specs.BusStoreStreams.{Puts, data_puts, element_puts, upper_at, words_from, writes_of};
ghost use Rattle.probe_access.specs.Faults.{Among, BrokeIn};
ghost use Rattle.probe_run.specs.Acts.{Did};
ghost use Rattle.probe_run.specs.Told.{Breaks, told};

use crate::doubles::{high_word, low_word};
use arrayvec::ArrayVec;
use debug_model::{Dmi, DmiFault, DmiOp, OPERATIONS_MOST, Sbdata0, Sbdata1};

/// The upper half that the bus holds in front of an element: that of the one before it, and of the first its own.
pub fn upper_before(values: &[u64], number: u16) -> u32
    requires within { number < length values.now }
    ensures { result ≡ upper_at values.now number }
{
    high_word(values[number.saturating_sub(1) as usize])
}

/// How many words an element takes, where the bus holds this upper half.
fn words_of(upper: u32, value: u64) -> usize
    ensures { result ≡ length (element_puts upper value) }
{
    if high_word(value) == upper { 1 } else { 2 }
}

/// Puts the writes of one element at a place and answers the place behind them. Its lower half comes last, since it starts the store.
fn put_writes(upper: u32, value: u64, operations: &mut [DmiOp], at: usize) -> usize
    requires room { at + length (element_puts upper value) ≤ length operations.old }
    ensures put { take result operations.new ≡ take at operations.old ++ writes_of (element_puts upper value) }
    ensures puts { Puts (element_puts upper value) }
    ensures behind { result ≡ at + length (element_puts upper value) }
    ensures long { length operations.new ≡ length operations.old }
{
    if high_word(value) == upper {
        operations[at] = DmiOp::Write(Sbdata0::ADDRESS, low_word(value));
        return at + 1;
    }
    operations[at] = DmiOp::Write(Sbdata1::ADDRESS, high_word(value));
    operations[at + 1] = DmiOp::Write(Sbdata0::ADDRESS, low_word(value));
    at + 2
}

/// Writes that stand in front of an array.
#[derive(Clone, Copy, Debug, PartialEq, Eq)]
struct Filled {
    /// How many they are.
    writes: usize,
    /// The element behind those that they store.
    next: u16,
}

/// Puts the writes of the elements from one on in front, of as many as there is room for.
fn fill_writes(values: &[u64], from: u16, operations: &mut [DmiOp]) -> Filled
    requires some { from < length values.now }
    requires few { length values.now ≤ most_elements }
    requires room { length operations.old ≡ operations_most }
    ensures filled { take result.writes operations.new ≡ writes_of (data_puts values.now from (result.next - from)) }
    ensures puts { Puts (data_puts values.now from (result.next - from)) }
    ensures some { from < result.next }
    ensures within { result.next ≤ length values.now }
    ensures fits { result.writes ≤ operations_most }
    ensures long { length operations.new ≡ operations_most }
{
    let count = values.len() as u16;
    let mut at = 0;
    let mut number = from;
    'elements: while number < count {
        let upper = upper_before(values, number);
        let value = values[number as usize];
        if at + words_of(upper, value) > OPERATIONS_MOST {
            break 'elements;
        }
        at = put_writes(upper, value, operations, at);
        number += 1;
    }
    Filled {
        writes: at,
        next: number,
    }
}

/// Writes the words of the elements from one on, of as many as one call takes, and answers which element is next.
fn write_call<D: Dmi>(link: &mut D, values: &[u64], from: u16) -> Result<u16, DmiFault>
    requires callable { CanCall (D.seen link.old) }
    requires some { from < length values.now }
    requires few { length values.now ≤ most_elements }
    ensures next { IfOk result (λ next. (from < next) × (next ≤ length values.now)) }
    ensures did { IfOk result (λ next. Did (told (D.seen link.old)) (data_puts values.now from (next - from)) (told (D.seen link.new))) }
    ensures broke { IfErr result
        (Breaks (BrokeIn (Among (Starting (data_puts values.now from (length values.now - from))))) (D.seen link.old) (D.seen link.new)) }
    ensures rose { IfOk result (λ next. Within (words_from values.now from (next - from)) (D.seen link.old) (D.seen link.new)) }
    ensures rises { Within (words_from values.now from (length values.now - from)) (D.seen link.old) (D.seen link.new) }
    ensures never { IfErr result (FailsByWire (D.seen link.old)) }
    ensures keeps { Keeps Some (D.seen link.old) (D.seen link.new) result }
{
    let mut operations = [DmiOp::Read(Sbdata0::ADDRESS); OPERATIONS_MOST];
    let filled = fill_writes(values, from, &mut operations);
    let mut words = ArrayVec::new();
    link.many(&operations[..filled.writes], &mut words)?;
    Ok(filled.next)
}

/// Writes the words of a list of values, in as few calls as take them.
pub fn write_elements<D: Dmi>(link: &mut D, values: &[u64]) -> Result<(), DmiFault>
    requires stands { Stands (D.seen link.old) }
    requires few { length values.now ≤ most_elements }
    ensures did { OnOk result (Did (told (D.seen link.old)) (data_puts values.now 0 (length values.now)) (told (D.seen link.new))) }
    ensures broke { IfErr result
        (Breaks (BrokeIn (Among (Starting (data_puts values.now 0 (length values.now))))) (D.seen link.old) (D.seen link.new)) }
    ensures rises { Within (words_from values.now 0 (length values.now)) (D.seen link.old) (D.seen link.new) }
    ensures never { IfErr result (FailsByWire (D.seen link.old)) }
    ensures keeps { Keeps Some (D.seen link.old) (D.seen link.new) result }
{
    let count = values.len() as u16;
    let mut done = 0;
    'calls: while done < count {
        done = write_call(link, values, done)?;
    }
    Ok(())
}

/// Writes the words of one element, where the bus holds this upper half.
pub fn write_element<D: Dmi>(link: &mut D, upper: u32, value: u64) -> Result<(), DmiFault>
    requires callable { CanCall (D.seen link.old) }
    ensures did { OnOk result (Did (told (D.seen link.old)) (element_puts upper value) (told (D.seen link.new))) }
    ensures broke { IfErr result (Breaks (BrokeIn (Among (Starting (element_puts upper value)))) (D.seen link.old) (D.seen link.new)) }
    ensures rises { Within (length (element_puts upper value)) (D.seen link.old) (D.seen link.new) }
    ensures never { IfErr result (FailsByWire (D.seen link.old)) }
    ensures keeps { Keeps Some (D.seen link.old) (D.seen link.new) result }
{
    let mut operations = [DmiOp::Read(Sbdata0::ADDRESS); 2];
    let filled = put_writes(upper, value, &mut operations, 0);
    let mut words = ArrayVec::new();
    link.many(&operations[..filled], &mut words)?;
    Ok(())
}
