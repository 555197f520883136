ghost use Rattle.std.specs.Prelude.{◌≡◌, ◌≤◌, Some, OnErr, OnOk, IfOk, IfErr, option_map};
ghost use Rattle.debug_model.specs.Dmi.{Answers, CanOperate, IsOperation, Operated, OperationCut, Scans};
ghost use Rattle.debug_model.specs.Kept.{Keeps, OperationFails};
ghost use Rattle.debug_model.specs.Rises.{FailsByWire, RisesAtLeast};
ghost use Rattle.debug_model.specs.Scan.{WhereTold};
ghost use Rattle.probe_dmi.specs.Pace.{IsPace};
ghost use Rattle.probe_dmi.specs.Registers.{IsWidth};
ghost use Rattle.probe_dmi.specs.Operations.{Bounded, LeavesState, link_seen};
ghost use Rattle.debug_model.specs.Asked.{AsksOperation, next_scan};

use crate::pace::Pace;
use crate::register::Registers;
use crate::state::State;
use debug_model::{DmiFault, DmiOp, DmiScan, Scan, instruction_code};

/// The field `op` as it is shifted in (RISC-V Debug Specification 1.0, "Debug Module Interface Access").
const OP_NOP: u8 = 0;

const OP_READ: u8 = 1;

const OP_WRITE: u8 = 2;

/// The field `op` as it is captured: done, and failed. The others are taken as busy.
pub const STATUS_DONE: u8 = 0;

pub const STATUS_FAILED: u8 = 2;

/// With so many busy answers a call gives up.
pub const BUSY_MOST: u8 = 64;

/// What the next scan of an operation carries: the operation until the transport has taken it, and then nothing.
pub fn next_scan(op: DmiOp, taken: bool) -> DmiScan
    ensures { result ≡ next_scan op taken }
{
    if taken {
        return DmiScan {
            address: 0,
            value: 0,
            op: OP_NOP,
        };
    }
    match op {
        DmiOp::Read(address) => DmiScan {
            address,
            value: 0,
            op: OP_READ,
        },
        DmiOp::Write(address, value) => DmiScan {
            address,
            value,
            op: OP_WRITE,
        },
    }
}

impl<S: Scan> Registers<S> {
    /// Does one operation: sends it until the transport has taken it, and awaits its result. It never waits, and each busy answer teaches the pace.
    pub fn operate(&mut self, abits: u8, pace: &mut Pace, op: DmiOp) -> Result<u32, DmiFault>
        requires operation { IsOperation op }
        requires least { 7 ≤ abits }
        requires most { abits ≤ 30 }
        requires width { IsWidth abits (S.seen self.old.scan).far }
        requires pace { IsPace pace.old }
        requires link { CanOperate (S.seen self.old.scan).far }
        ensures operated { IfOk result (λ value. WhereTold (Operated op value) (S.seen self.old.scan).far (S.seen self.new.scan).far) }
        ensures answers { IfOk result (λ value. Answers value (option_map Scans (S.seen self.old.scan).coming)
            (option_map Scans (S.seen self.new.scan).coming)) }
        ensures asked { OnOk result (AsksOperation op (link_seen (S.seen self.old.scan) self.old.state abits).asked
            (link_seen (S.seen self.new.scan) self.new.state abits).asked) }
        ensures cut { OnErr result (WhereTold (OperationCut op) (S.seen self.old.scan).far (S.seen self.new.scan).far) }
        ensures cause { IfErr result (OperationFails (link_seen (S.seen self.old.scan) self.old.state abits)
            (link_seen (S.seen self.new.scan) self.new.state abits)) }
        ensures bounded { Bounded 1 (link_seen (S.seen self.old.scan) self.old.state abits) (link_seen (S.seen self.new.scan) self.new.state abits) }
        ensures least { OnOk result (RisesAtLeast 1 (link_seen (S.seen self.old.scan) self.old.state abits)
            (link_seen (S.seen self.new.scan) self.new.state abits)) }
        ensures never { IfErr result (FailsByWire (link_seen (S.seen self.old.scan) self.old.state abits)) }
        ensures state { LeavesState self.new.state result }
        ensures keeps { Keeps Some (link_seen (S.seen self.old.scan) self.old.state abits)
            (link_seen (S.seen self.new.scan) self.new.state abits) result }
        ensures pace { IsPace pace.new }
        ensures paced { pace.new.most ≡ pace.old.most }
    {
        self.select(instruction_code::DMI)?;
        let mut busy = 0;
        let mut taken = false;
        'scans: while busy < BUSY_MOST {
            let out = self.exchange_behind(0, abits, next_scan(op, taken))?;
            if out.op == STATUS_FAILED {
                self.state = State::Dead;
                return Err(DmiFault::Failed);
            }
            if out.op == STATUS_DONE {
                if taken {
                    return Ok(out.value);
                }
                taken = true;
                continue;
            }
            self.clear_again()?;
            *pace = pace.behind_busy();
            busy += 1;
        }
        self.state = State::Dead;
        Err(DmiFault::StillBusy)
    }
}
