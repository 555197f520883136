//! What the module shows of itself and of the selected hart
//! (RISC-V Debug Specification 1.0, "Debug Module Control" and "Debug Module Status").

ghost use Rattle.std.specs.Prelude.{◌≡◌, option_map, slice_get};
ghost use Rattle.debug_model.specs.Module.{hart_status};

use debug_model::Dmstatus;
use hart_debug::DebugHart;
use rv_model::Version;

/// The hart of a number, or `None` where there is no such hart.
pub fn hart_at(harts: &[DebugHart], number: u16) -> Option<&DebugHart>
    ensures { option_map (λ h. h.now) result ≡ slice_get harts.now number }
{
    harts.get(usize::from(number))
}

/// The status of a hart, or that there is no such hart, on a chip of a release.
pub fn hart_status(version: Version, hart: Option<&DebugHart>) -> Dmstatus
    ensures { result ≡ hart_status version (option_map (λ h. h.now) hart.entry) }
{
    match hart {
        Some(hart) => Dmstatus {
            havereset: hart.have_reset(),
            resumeack: hart.acked(),
            nonexistent: false,
            running: !hart.is_halted(),
            halted: hart.is_halted(),
            authenticated: true,
            version: version.number(),
        },
        None => Dmstatus {
            havereset: false,
            resumeack: false,
            nonexistent: true,
            running: false,
            halted: false,
            authenticated: true,
            version: version.number(),
        },
    }
}
