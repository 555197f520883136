//! The halted harts as bits (RISC-V Debug Specification 1.0, "Halt Summary 0").

ghost use Rattle.std.specs.Prelude.{◌≡◌, ◌≤◌, length, map};
ghost use Rattle.rv_model.specs.Memory.{hart_places};
ghost use Rattle.debug_model.specs.Module.{haltsum, is_halted};

use hart_debug::DebugHart;
use jt_base::Bits;

/// The harts that one register shows.
const GROUP_SIZE: u16 = 32;

/// Bit h is 1 where hart h is halted.
fn halted_bits(harts: &[DebugHart]) -> Bits
    requires { length harts.now ≤ hart_places }
    ensures { result ≡ map is_halted harts.now }
{
    let mut bits = Bits::new();
    for hart in harts {
        bits.push(hart.is_halted());
    }
    bits
}

/// The halted harts of the group in which the selected number stands; only the first group has harts.
pub fn haltsum(selected: u16, harts: &[DebugHart]) -> u32
    requires { length harts.now ≤ hart_places }
    ensures { result ≡ haltsum selected harts.now }
{
    if selected < GROUP_SIZE {
        (halted_bits(harts).value() & 0xffff_ffff) as u32
    } else {
        0
    }
}
