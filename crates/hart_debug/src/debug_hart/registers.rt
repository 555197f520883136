//! The registers that Debug Mode reaches, by the debugger's number
//! (RISC-V Debug Specification 1.0, "Access Register" and "Core Debug Registers").

ghost use Rattle.std.specs.Prelude.{◌≡◌, true, false, not, ◌&&◌, is_some, IfErr};
ghost use Rattle.rv_model.specs.DebugLaws.{WriteKeeps};
ghost use Rattle.rv_model.specs.Dcsr.{dcsr_of};
ghost use Rattle.rv_model.specs.DebugRegisters.{debug_csr_value, debug_csr_written, debug_seen, debug_value, debug_refuses, debug_written};
ghost use Rattle.rv_model.specs.Registers.{reg_value, reg_written};
ghost use Rattle.hart_debug.specs.RegisterAnswers.{write_answer};

use super::DebugHart;
use rv_hart::{CsrFault, Hart};
use rv_mem::Ram;
use rv_model::Dcsr;
use rv_model::register_number::{DCSR, DPC, MIP, X0};

/// The number behind that of x31.
const END_OF_X: u16 = X0 + 32;

/// A register of the core, or `None` where it has none of this number.
fn read_core(hart: &Hart, regno: u16) -> Option<u64>
    ensures { result ≡ reg_value hart.now regno }
{
    if regno >= X0 && regno < END_OF_X {
        return Some(hart.x((regno - X0) as u8));
    }
    if regno == DPC {
        return Some(hart.pc());
    }
    hart.csr_read(regno)
}

#[tactic(auto, using(crate::proofs::Registers::x_answer, crate::proofs::Registers::dpc_answer))]
/// Writes a register of the core; what is not writable stays as it is. A refusal changes nothing: `Absent` where the core
/// has no register of this number, `ReadOnly` at mvendorid, marchid, mimpid and mhartid.
fn write_core(hart: &mut Hart, regno: u16, value: u64) -> Result<(), CsrFault>
    ensures answer { result ≡ write_answer (reg_value hart.old regno) regno }
    ensures after { hart.new ≡ reg_written hart.old regno value }
    ensures refused { IfErr result (λ _. hart.new ≡ hart.old) }
{
    if regno >= X0 && regno < END_OF_X {
        hart.set_x((regno - X0) as u8, value);
        return Ok(());
    }
    if regno == DPC {
        hart.set_pc(value);
        return Ok(());
    }
    hart.csr_write(regno, value)
}

impl DebugHart {
    /// A register's value in Debug Mode, by the debugger's number, or `None` where there is no such register. The hart is halted.
    /// mip reads 0 here: `reg_read_with` knows memory, which tells it.
    #[tactic(auto, unfolding(rv_model::specs::DebugRegisters::debug_value))]
    pub fn reg_read(&self, regno: u16) -> Option<u64>
        requires { is_some self.now.debug.halted ≡ true }
        ensures { result ≡ debug_value self.now regno }
    {
        match read_core(&self.hart, regno) {
            Some(value) => Some(value),
            None => self.read_debug(regno),
        }
    }

    /// A register's value in Debug Mode where a memory is there, which tells mip, or `None` where there is no such register.
    /// The hart is halted.
    #[tactic(auto, unfolding(rv_model::specs::DebugRegisters::debug_seen, rv_model::specs::Registers::csr_seen))]
    pub fn reg_read_with(&self, regno: u16, ram: &Ram) -> Option<u64>
        requires { is_some self.now.debug.halted ≡ true }
        ensures { result ≡ debug_seen self.now ram.now regno }
    {
        if regno == MIP {
            return self.hart.csr_read_with(regno, ram);
        }
        self.reg_read(regno)
    }

    /// Writes a register in Debug Mode, by the debugger's number; what is not writable stays as it is. The hart is halted.
    /// It answers false, and changes nothing, where there is no such register or it is read-only.
    #[tactic(auto, unfolding(rv_model::specs::DebugRegisters::debug_value, rv_model::specs::DebugRegisters::debug_refuses, rv_model::specs::DebugRegisters::debug_written))]
    pub fn reg_write(&mut self, regno: u16, value: u64) -> bool
        requires { is_some self.old.debug.halted ≡ true }
        ensures answer { result ≡ (is_some (debug_value self.old regno) && not (debug_refuses regno)) }
        ensures after { self.new ≡ debug_written self.old regno value }
        ensures refused { result ≡ false → self.new ≡ self.old }
        ensures keeps { WriteKeeps self.old self.new }
    {
        match write_core(&mut self.hart, regno, value) {
            Ok(()) => true,
            Err(CsrFault::ReadOnly) => false,
            Err(CsrFault::Absent) => self.write_debug(regno, value),
        }
    }

    /// `dcsr`.
    fn dcsr(&self) -> Dcsr
        ensures { result ≡ dcsr_of self.now.debug }
    {
        Dcsr {
            ebreakm: self.ebreakm,
            stepie: self.stepie,
            cause: match self.halted {
                Some(why) => why.number(),
                None => 0,
            },
            step: self.step,
        }
    }

    /// `dcsr` or a trigger register, or `None` where this is no number of one.
    fn read_debug(&self, regno: u16) -> Option<u64>
        ensures { result ≡ debug_csr_value self.now.debug regno }
    {
        if regno == DCSR {
            return Some(self.dcsr().word());
        }
        self.slots.read_csr(regno)
    }

    /// Writes `dcsr` or a trigger register. It answers false, and changes nothing, where this is no number of one.
    #[tactic(auto, using(crate::proofs::Registers::version_stays))]
    fn write_debug(&mut self, regno: u16, value: u64) -> bool
        ensures answer { result ≡ is_some (debug_csr_value self.old.debug regno) }
        ensures after { self.new ≡ record self.old { debug = debug_csr_written self.old.debug regno value } }
        ensures refused { result ≡ false → self.new ≡ self.old }
    {
        if regno == DCSR {
            let written = Dcsr::from_word(value);
            self.ebreakm = written.ebreakm;
            self.stepie = written.stepie;
            self.step = written.step;
            return true;
        }
        self.slots.write_csr(regno, value)
    }
}
