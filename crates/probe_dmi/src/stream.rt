//! Several operations in one call.

ghost use Rattle.std.specs.Prelude.{◌≡◌, ◌<◌, ◌≤◌, All, [], length, true, OnErr, OnOk, IfErr, Some, option_map};
ghost use Rattle.debug_model.specs.Dmi.{CanOperate, IsOperation, Scans};
ghost use Rattle.debug_model.specs.Kept.{Keeps, ManyFails};
ghost use Rattle.debug_model.specs.Many.{AnswersAll, OperatedAll, OperationsCut, operations_most};
ghost use Rattle.debug_model.specs.Rises.{FailsByWire, RisesAtLeast};
ghost use Rattle.debug_model.specs.Scan.{WhereTold};
ghost use Rattle.probe_dmi.specs.Operations.{Bounded, LeavesState, kept, link_seen};
ghost use Rattle.debug_model.specs.Asked.{AsksOperations, first_scan};
ghost use Rattle.probe_dmi.specs.Pace.{IsPace};
ghost use Rattle.probe_dmi.specs.Registers.{IsWidth};
ghost use Rattle.probe_dmi.specs.Rises.{waits_most};

use crate::operation::{BUSY_MOST, STATUS_DONE, STATUS_FAILED, next_scan};
use crate::pace::Pace;
use crate::register::Registers;
use crate::state::State;
use arrayvec::ArrayVec;
use debug_model::{DmiFault, DmiOp, DmiScan, OPERATIONS_MOST, Scan, instruction_code};

/// What the next scan carries: the first of these operations, which the transport has not taken, and behind the last of them nothing.
fn first_scan(operations: &[DmiOp]) -> DmiScan
    ensures { result ≡ first_scan operations.now }
{
    match operations {
        [] => next_scan(DmiOp::Read(0), true),
        [op, ..] => next_scan(*op, false),
    }
}

/// Keeps a result, where an operation was in flight to have one.
fn keep(in_flight: bool, value: u32, results: &mut ArrayVec<u32, OPERATIONS_MOST>)
    requires room { in_flight ≡ true → length results.old.items < operations_most }
    ensures kept { results.new.items ≡ kept in_flight value results.old.items }
{
    if in_flight {
        results.push(value);
    }
}

/// For how many clocks a call of so many operations waits before each scan: one on its own never waits.
fn clocks_before(pace: Pace, operations: usize) -> u8
    requires pace { IsPace pace }
    ensures few { result ≤ waits_most operations }
{
    if operations <= 1 {
        return 0;
    }
    pace.clocks
}

impl<S: Scan> Registers<S> {
    /// Does from 1 to 128 operations, in order, each once, and appends their results. Where there are several, the clocks of the pace stand before every scan of
    /// `dmi`, also the first: a chip whose time for an operation divides the time from one scan to the next is met in one phase so, from call to call. Behind a clearing of
    /// the status none are needed, since its own scans are longer.
    pub fn stream(
        &mut self,
        abits: u8,
        pace: &mut Pace,
        ops: &[DmiOp],
        results: &mut ArrayVec<u32, OPERATIONS_MOST>,
    ) -> Result<(), DmiFault>
        requires some { 0 < length ops.now }
        requires room { length ops.now ≤ operations_most }
        requires operations { All IsOperation ops.now }
        requires empty { results.old.items ≡ [] }
        requires least { 7 ≤ abits }
        requires most { abits ≤ 30 }
        requires width { IsWidth abits (S.seen self.old.scan).far }
        requires pace { IsPace pace.old }
        requires link { CanOperate (S.seen self.old.scan).far }
        ensures count { OnOk result (length results.new.items ≡ length ops.now) }
        ensures operated { OnOk result (WhereTold (OperatedAll ops.now results.new.items) (S.seen self.old.scan).far (S.seen self.new.scan).far) }
        ensures answers { OnOk result (AnswersAll ops.now results.new.items (option_map Scans (S.seen self.old.scan).coming)
            (option_map Scans (S.seen self.new.scan).coming)) }
        ensures asked { OnOk result (AsksOperations ops.now (link_seen (S.seen self.old.scan) self.old.state abits).asked
            (link_seen (S.seen self.new.scan) self.new.state abits).asked) }
        ensures cut { OnErr result (WhereTold (OperationsCut ops.now) (S.seen self.old.scan).far (S.seen self.new.scan).far) }
        ensures cause { IfErr result (ManyFails (length ops.now) (link_seen (S.seen self.old.scan) self.old.state abits)
            (link_seen (S.seen self.new.scan) self.new.state abits)) }
        ensures bounded { Bounded (length ops.now) (link_seen (S.seen self.old.scan) self.old.state abits)
            (link_seen (S.seen self.new.scan) self.new.state abits) }
        ensures least { OnOk result (RisesAtLeast (length ops.now) (link_seen (S.seen self.old.scan) self.old.state abits)
            (link_seen (S.seen self.new.scan) self.new.state abits)) }
        ensures never { IfErr result (FailsByWire (link_seen (S.seen self.old.scan) self.old.state abits)) }
        ensures state { LeavesState self.new.state result }
        ensures keeps { Keeps Some (link_seen (S.seen self.old.scan) self.old.state abits)
            (link_seen (S.seen self.new.scan) self.new.state abits) result }
        ensures pace { IsPace pace.new }
        ensures paced { pace.new.most ≡ pace.old.most }
    {
        self.select(instruction_code::DMI)?;
        let mut rest = ops;
        let mut in_flight = false;
        let mut busy = 0;
        let mut clocks = clocks_before(*pace, ops.len());
        'scans: while busy < BUSY_MOST {
            let out = self.exchange_behind(clocks, abits, first_scan(rest))?;
            if out.op == STATUS_FAILED {
                self.state = State::Dead;
                return Err(DmiFault::Failed);
            }
            if out.op != STATUS_DONE {
                self.clear_again()?;
                *pace = pace.behind_busy();
                busy += 1;
                clocks = 0;
                continue;
            }
            keep(in_flight, out.value, results);
            let [_, after @ ..] = rest else {
                return Ok(());
            };
            rest = after;
            in_flight = true;
            busy = 0;
            clocks = clocks_before(*pace, ops.len());
        }
        self.state = State::Dead;
        Err(DmiFault::StillBusy)
    }
}
