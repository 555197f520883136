ghost use Rattle.std.specs.Prelude.{◌≡◌, ◌≤◌, length};
ghost use Rattle.debug_model.specs.Registers.{is_register, name_of_register};

use debug_model::RegName;

/// The most bytes of a register's name: `mvendorid`.
pub(crate) const NAME_MOST: usize = 9;

/// Is it the number of a register with a name: of a CSR that these harts have, of pc, which is that of dpc,
/// or of one of x0 to x31?
#[tactic(auto, unfolding(debug_model::specs::Registers::is_register, debug_model::specs::Registers::named_registers))]
fn is_named(number: u16) -> bool
    ensures { result ≡ is_register number }
{
    match number {
        0x300 | 0x301 | 0x304 | 0x305 | 0x340..=0x344 | 0x7b1 | 0xf11..=0xf14 | 0x1000..=0x101f =>
            true,
        _ => false,
    }
}

/// The name of the register with that number, empty where there is none.
pub(crate) fn register_word(number: u16) -> &'static [u8]
    ensures name { result.now ≡ name_of_register number }
    ensures short { length result.now ≤ NAME_MOST }
{
    if is_named(number) {
        RegName(number).name()
    } else {
        b""
    }
}
