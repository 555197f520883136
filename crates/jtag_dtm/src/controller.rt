ghost use Rattle.std.specs.Prelude.{◌≡◌};
ghost use Rattle.debug_model.specs.Tap.{next_state as state_behind};

use debug_model::TapState;

/// The state behind a rise of TCK, by the state before it and TMS.
///
/// Source: IEEE 1149.1, the TAP controller state diagram.
#[inline(always)]
pub fn next_state(state: TapState, tms: bool) -> TapState
    ensures { result ≡ state_behind state tms }
{
    match (state, tms) {
        (TapState::TestLogicReset, true) => TapState::TestLogicReset,
        (TapState::TestLogicReset, false) => TapState::RunTestIdle,
        (TapState::RunTestIdle, true) => TapState::SelectDr,
        (TapState::RunTestIdle, false) => TapState::RunTestIdle,
        (TapState::SelectDr, true) => TapState::SelectIr,
        (TapState::SelectDr, false) => TapState::CaptureDr,
        (TapState::CaptureDr, true) => TapState::Exit1Dr,
        (TapState::CaptureDr, false) => TapState::ShiftDr,
        (TapState::ShiftDr, true) => TapState::Exit1Dr,
        (TapState::ShiftDr, false) => TapState::ShiftDr,
        (TapState::Exit1Dr, true) => TapState::UpdateDr,
        (TapState::Exit1Dr, false) => TapState::PauseDr,
        (TapState::PauseDr, true) => TapState::Exit2Dr,
        (TapState::PauseDr, false) => TapState::PauseDr,
        (TapState::Exit2Dr, true) => TapState::UpdateDr,
        (TapState::Exit2Dr, false) => TapState::ShiftDr,
        (TapState::UpdateDr, true) => TapState::SelectDr,
        (TapState::UpdateDr, false) => TapState::RunTestIdle,
        (TapState::SelectIr, true) => TapState::TestLogicReset,
        (TapState::SelectIr, false) => TapState::CaptureIr,
        (TapState::CaptureIr, true) => TapState::Exit1Ir,
        (TapState::CaptureIr, false) => TapState::ShiftIr,
        (TapState::ShiftIr, true) => TapState::Exit1Ir,
        (TapState::ShiftIr, false) => TapState::ShiftIr,
        (TapState::Exit1Ir, true) => TapState::UpdateIr,
        (TapState::Exit1Ir, false) => TapState::PauseIr,
        (TapState::PauseIr, true) => TapState::Exit2Ir,
        (TapState::PauseIr, false) => TapState::PauseIr,
        (TapState::Exit2Ir, true) => TapState::UpdateIr,
        (TapState::Exit2Ir, false) => TapState::ShiftIr,
        (TapState::UpdateIr, true) => TapState::SelectDr,
        (TapState::UpdateIr, false) => TapState::RunTestIdle,
    }
}
