#![tactic(auto, unfolding(debug_model::specs::Port::captured_code))]

ghost use Rattle.std.specs.Prelude.{◌≡◌, IsSome};
ghost use Rattle.debug_model.specs.Port.{busy_in, captured_in, data_register_of, reset_tap, rise_finds_busy, selected_in, shift_after, tap_falls, tap_holds};
ghost use Rattle.debug_model.specs.Port.{tap_rises};
ghost use Rattle.debug_model.specs.Transport.{dropped, finished};

use crate::controller::next_state;
use crate::transport::Transport;
use debug_model::{DataRegister, DmiOp, TapState, instruction_code};
use jt_base::Bits;
use std::marker::Model;

/// The bits of the instruction register.
const INSTRUCTION_BITS: u8 = 5;

/// What the instruction register captures: the standard fixes the two lowest bits.
const CAPTURED_INSTRUCTION: u64 = 0b00001;

/// The TAP of the chip, with the debug transport behind it.
///
/// Source: IEEE 1149.1, the test access port; RISC-V Debug Specification 1.0, "JTAG Debug Transport Module".
#[derive(Drop)]
pub struct Tap {
    controller: TapState,
    instruction: DataRegister,
    shifting: Bits,
    output: bool,
    is_held: bool,
    transport: Transport,
}

impl Model for Tap {
    ghost use Rattle.debug_model.specs.Port.{Tap as TapAndTransport};

    ghost Value = { TapAndTransport };

    ghost view = { λ t. record {
      port = record { state = t.controller; selected = t.instruction; shift = t.shifting; tdo = t.output; held = t.is_held };
      dtm = t.transport;
    } };
}

/// The data register that an instruction code selects.
fn select(code: u64) -> DataRegister
    ensures { result ≡ data_register_of code }
{
    match u8::try_from(code) {
        Ok(instruction_code::IDCODE) => DataRegister::Idcode,
        Ok(instruction_code::DTMCS) => DataRegister::Dtmcs,
        Ok(instruction_code::DMI) => DataRegister::Dmi,
        _ => DataRegister::Bypass,
    }
}

impl Tap {
    /// In Test-Logic-Reset with IDCODE selected, TDO 0 and TRST 0, and the debug transport at its start.
    pub fn new() -> Self
        ensures { result ≡ reset_tap }
    {
        Tap {
            controller: TapState::TestLogicReset,
            instruction: DataRegister::Idcode,
            shifting: Bits::new(),
            output: false,
            is_held: false,
            transport: Transport::new(),
        }
    }

    /// What the state before a rise does at it: a capture or a shift. Answers whether it set the sticky status to 3.
    #[inline(always)]
    fn act(&mut self, tdi: bool) -> bool
        ensures port { self.new.port ≡ record self.old.port {
          shift = shift_after self.old.port.state self.old.port.selected self.old.dtm tdi self.old.port.shift;
        } }
        ensures transport { self.new.dtm ≡ captured_in self.old.port.state self.old.port.selected self.old.dtm }
        ensures busy { result ≡ busy_in self.old.port.state self.old.port.selected self.old.dtm }
    {
        match self.controller {
            TapState::CaptureDr => {
                self.shifting = self.transport.captured(self.instruction);
                self.transport.capture(self.instruction)
            }
            TapState::CaptureIr => {
                self.shifting = Bits::from_u64(CAPTURED_INSTRUCTION, INSTRUCTION_BITS);
                false
            }
            TapState::ShiftDr | TapState::ShiftIr => {
                self.shifting.shift_in(tdi);
                false
            }
            _ => false,
        }
    }

    /// The controller enters a state.
    #[inline(always)]
    fn enter(&mut self, state: TapState)
        ensures { self.new ≡ record self.old { port = record self.old.port { state = state; selected = selected_in state self.old.port.selected } } }
    {
        self.controller = state;
        if state == TapState::TestLogicReset {
            self.instruction = DataRegister::Idcode;
        }
    }

    /// TCK rises with these levels of TMS and TDI. While TRST is 1 nothing changes. Answers whether this rise set the
    /// sticky status to 3.
    #[inline(always)]
    pub fn rise(&mut self, tms: bool, tdi: bool) -> bool
        ensures tap { self.new ≡ tap_rises tms tdi self.old }
        ensures busy { result ≡ rise_finds_busy self.old.port self.old.dtm }
    {
        if self.is_held {
            return false;
        }
        let is_busy = self.act(tdi);
        self.enter(next_state(self.controller, tms));
        is_busy
    }

    /// TCK falls.
    #[inline(always)]
    pub fn fall(&mut self)
        ensures { self.new ≡ tap_falls self.old }
    {
        match self.controller {
            TapState::ShiftDr | TapState::ShiftIr => self.output = self.shifting.lowest(),
            TapState::UpdateIr => {
                self.instruction = select(self.shifting.value());
                self.output = false;
            }
            TapState::UpdateDr => {
                self.transport.update(self.instruction, self.shifting);
                self.output = false;
            }
            _ => self.output = false,
        }
    }

    /// The level of TDO.
    #[inline(always)]
    pub fn tdo(&self) -> bool
        ensures { result ≡ self.now.port.tdo }
    {
        self.output
    }

    /// TRST takes this level. At 1 the controller is in Test-Logic-Reset and stays there; the debug transport stays as it
    /// is.
    pub fn hold_reset(&mut self, on: bool)
        ensures { self.new ≡ tap_holds on self.old }
    {
        if on {
            self.controller = TapState::TestLogicReset;
            self.instruction = DataRegister::Idcode;
            self.output = false;
        }
        self.is_held = on;
    }

    /// The state of the controller.
    pub fn state(&self) -> TapState
        ensures { result ≡ self.now.port.state }
    {
        self.controller
    }

    /// The operation that was put in flight and is neither performed nor dropped yet.
    #[inline(always)]
    pub fn in_flight(&self) -> Option<DmiOp>
        ensures { result ≡ self.now.dtm.flight }
    {
        self.transport.in_flight()
    }

    /// The operation in flight was performed, with this result: its address and result become the last result.
    pub fn finish(&mut self, result_word: u32)
        requires in_flight { IsSome self.old.dtm.flight }
        ensures { self.new ≡ record self.old { dtm = finished result_word self.old.dtm } }
    {
        self.transport.finish(result_word);
    }

    /// The operation in flight is dropped unperformed: its address, data 0 and the failed mark become the last result.
    pub fn fail(&mut self)
        requires in_flight { IsSome self.old.dtm.flight }
        ensures { self.new ≡ record self.old { dtm = dropped self.old.dtm } }
    {
        self.transport.fail();
    }
}
