ghost use Rattle.std.specs.Prelude.{◌≡◌, ◌≤◌, [], ◌∷◌, Some, None, IfOk, IfErr, OnOk, OnErr, true, false};
ghost use Rattle.jt_base.specs.Faults.{Rises};
ghost use Rattle.debug_model.specs.Dmi.{Results};
ghost use Rattle.debug_model.specs.Kept.{gives_end_of_answers};
ghost use Rattle.debug_model.specs.Many.{TakesOne};
ghost use Rattle.debug_model.specs.Ties.{no_ties};

use crate::dmi::{Dmi, DmiFault, OPERATIONS_MOST};
use crate::dmi_op::DmiOp;
use crate::wire::WireFault;
use arrayvec::ArrayVec;
use jt_base::count_fault;

/// How many results are given beforehand at most.
const RESULTS_MOST: usize = 64;

/// Operations without a chip: what each call that reads answers is given beforehand.
///
/// Each `idcode`, `dtmcs` and `read` answers the next number, and each `write` is Ok. Where no number is left it counts a fault, answers
/// `Wire(RecvFailed)`, and is no longer alive. It takes no memory.
#[derive(Drop)]
pub struct ScriptedDmi {
    results: ArrayVec<u32, RESULTS_MOST>,
    alive: bool,
    failed: u64,
}

impl ScriptedDmi {
    /// Operations that answer these numbers, the first first.
    pub fn new(answers: ArrayVec<u32, RESULTS_MOST>) -> Self
        ensures results { result.results ≡ answers }
        ensures alive { result.alive ≡ true }
        ensures failed { result.failed ≡ 0 }
    {
        ScriptedDmi {
            results: answers,
            alive: true,
            failed: 0,
        }
    }

    /// The next number.
    fn answer(&mut self) -> Result<u32, DmiFault>
        ensures took { IfOk result (λ number. self.old.results.items ≡ number ∷ self.new.results.items) }
        ensures none { OnErr result (self.old.results.items ≡ []) }
        ensures alive { OnOk result (self.new.alive ≡ self.old.alive) }
        ensures dead { OnErr result (self.new.alive ≡ false) }
        ensures fault { IfErr result (λ fault. fault ≡ DmiFault.Wire WireFault.RecvFailed) }
        ensures later { self.old.failed ≤ self.new.failed }
        ensures rises { OnErr result (Rises self.old.failed self.new.failed) }
    {
        if self.results.is_empty() {
            self.alive = false;
            count_fault(&mut self.failed);
            return Err(DmiFault::Wire(WireFault::RecvFailed));
        }
        Ok(self.results.remove(0))
    }

    /// What an operation answers: a read the next number, and a write its data.
    fn result_of(&mut self, op: DmiOp) -> Result<u32, DmiFault>
        ensures took { IfOk result (λ value. TakesOne op value self.old.results.items self.new.results.items) }
        ensures alive { OnOk result (self.new.alive ≡ self.old.alive) }
        ensures dead { OnErr result (self.new.alive ≡ false) }
        ensures fault { IfErr result (λ fault. fault ≡ DmiFault.Wire WireFault.RecvFailed) }
        ensures later { self.old.failed ≤ self.new.failed }
        ensures rises { OnErr result (Rises self.old.failed self.new.failed) }
    {
        match op {
            DmiOp::Read(_) => self.answer(),
            DmiOp::Write(_, value) => Ok(value),
        }
    }
}

impl Dmi for ScriptedDmi {
    ghost seen = { λ s. record {
      far = None;
      coming = Some (Results s.results.items);
      asked = None;
      is_alive = s.alive;
      fault_count = s.failed;
      fixed = record { slack = None; ties = no_ties; gives = gives_end_of_answers };
    } };

    fn idcode(&mut self) -> Result<u32, DmiFault> {
        let number = self.answer()?;
        Ok(number)
    }

    fn dtmcs(&mut self) -> Result<u32, DmiFault> {
        let number = self.answer()?;
        Ok(number)
    }

    fn read(&mut self, address: u8) -> Result<u32, DmiFault> {
        let _address = address;
        let number = self.answer()?;
        Ok(number)
    }

    fn write(&mut self, address: u8, value: u32) -> Result<(), DmiFault> {
        let _address = address;
        let _value = value;
        Ok(())
    }

    fn many(
        &mut self,
        ops: &[DmiOp],
        results: &mut ArrayVec<u32, OPERATIONS_MOST>,
    ) -> Result<(), DmiFault> {
        let mut rest = ops;
        'operations: while let [op, after @ ..] = rest {
            match self.result_of(*op) {
                Ok(value) => results.push(value),
                Err(fault) => {
                    results.clear();
                    return Err(fault);
                }
            }
            rest = after;
        }
        Ok(())
    }

    fn alive(&self) -> bool {
        self.alive
    }

    fn faults(&self) -> u64 {
        self.failed
    }
}
