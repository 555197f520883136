//! The registers that a debugger may read and not write (RISC-V privileged manual, "Machine-Level CSRs").

ghost use Rattle.std.specs.Prelude.{◌≡◌};
ghost use Rattle.rv_model.specs.DebugRegisters.{debug_refuses};

use rv_model::register_number::{MARCHID, MHARTID, MIMPID, MVENDORID};

/// Whether a write of the register of this number is refused.
#[tactic(auto, unfolding(rv_model::specs::DebugRegisters::debug_refuses, rv_model::specs::Registers::csr_read_only))]
pub fn is_read_only(regno: u16) -> bool
    ensures { result ≡ debug_refuses regno }
{
    match regno {
        MVENDORID => true,
        MARCHID => true,
        MIMPID => true,
        MHARTID => true,
        _ => false,
    }
}
