ghost use Rattle.std.specs.Prelude.{◌≡◌, [], ◌++◌, true, Some, None, IfNone, option_to_list};
ghost use Rattle.debug_model.specs.Kept.{gives_end_of_answers};
ghost use Rattle.debug_model.specs.Scan.{Numbers};
ghost use Rattle.debug_model.specs.Ties.{no_ties};

use crate::calls::Calls;
use arrayvec::ArrayVec;
use debug_model::{Asked, Scan, WireFault};
use jt_base::{Bits, count_fault};

/// How many numbers are given beforehand at most.
const NUMBERS_MOST: usize = 128;

/// Scans without a chip: what comes out is given beforehand.
///
/// Each `dr` answers the lowest bits of the next number, as many as were sent. Where none is left it counts a fault and
/// answers `RecvFailed`. `reset`, `ir` and `idle` are Ok. It takes no memory.
#[derive(Drop)]
pub struct ScriptedScan {
    numbers: ArrayVec<u64, NUMBERS_MOST>,
    calls: Calls,
    failed: u64,
}

impl ScriptedScan {
    /// Scans that take out these numbers, the first first.
    pub fn new(answers: ArrayVec<u64, NUMBERS_MOST>) -> Self
        ensures numbers { result.numbers ≡ answers }
        ensures calls { result.calls.calls ≡ [] }
        ensures failed { result.failed ≡ 0 }
    {
        ScriptedScan {
            numbers: answers,
            calls: Calls::new(),
            failed: 0,
        }
    }
}

/// Takes the first of these numbers, or None where there is none.
fn take_first(numbers: &mut ArrayVec<u64, NUMBERS_MOST>) -> Option<u64>
    ensures taken { numbers.old.items ≡ option_to_list result ++ numbers.new.items }
    ensures none { IfNone result (numbers.old.items ≡ []) }
{
    if numbers.is_empty() {
        return None;
    }
    Some(numbers.remove(0))
}

impl Scan for ScriptedScan {
    ghost seen = { λ s. record {
      far = None;
      coming = Some (Numbers s.numbers.items);
      asked = Some s.calls.calls;
      bypassed = true;
      fault_count = s.failed;
      fixed = record { slack = None; ties = no_ties; gives = gives_end_of_answers };
    } };

    fn reset(&mut self) -> Result<(), WireFault> {
        self.calls = self.calls.and(&Asked::Reset);
        Ok(())
    }

    fn ir(&mut self, code: u8) -> Result<(), WireFault> {
        self.calls = self.calls.and(&Asked::Select(code));
        Ok(())
    }

    fn dr(&mut self, bits: Bits) -> Result<Bits, WireFault> {
        self.calls = self.calls.and(&Asked::Shift(bits));
        match take_first(&mut self.numbers) {
            Some(number) => Ok(Bits::from_u64(number, bits.len())),
            None => {
                count_fault(&mut self.failed);
                Err(WireFault::RecvFailed)
            }
        }
    }

    fn idle(&mut self, clocks: u8) -> Result<(), WireFault> {
        self.calls = self.calls.and(&Asked::Idle(clocks));
        Ok(())
    }

    fn faults(&self) -> u64 {
        self.failed
    }
}
