//! A device beside the chip in one chain.

ghost use Rattle.std.specs.Prelude.{◌≡◌, ◌≤◌};
ghost use Rattle.chain_scan.specs.SideTap.{reset_side, side_falls, side_holds, side_rises, side_shift_after, captured_by, width_least, width_most};

use debug_model::TapState;
use jt_base::Bits;
use jtag_dtm::next_state;
use std::marker::Model;

/// The least bits of an instruction register.
pub const WIDTH_LEAST: u8 = 2;

/// The most bits of a side TAP's instruction register.
pub const WIDTH_MOST: u8 = 8;

/// What identifies a side TAP: version 1, and 0 for the part number and the manufacturer.
const IDENTIFICATION: u64 = 0x1000_0001;

const IDENTIFICATION_BITS: u8 = 32;

/// What the instruction register captures: the standard fixes the two lowest bits.
const CAPTURED_INSTRUCTION: u64 = 0b01;

/// A TAP beside the chip in one chain, with an instruction register of 2 to 8 bits. Behind a reset it shifts out its identification, and behind every
/// instruction the one bit of BYPASS.
///
/// Source: IEEE 1149.1, the test access port.
#[derive(Drop)]
pub struct SideTap {
    width: u8,
    controller: TapState,
    identifies: bool,
    shifting: Bits,
    output: bool,
    is_held: bool,
    ghost some: { width_least ≤ width },
    ghost few: { width ≤ width_most },
}

impl Model for SideTap {
    ghost use Rattle.chain_scan.specs.SideTap.{SideTap as Side};

    ghost Value = { Side };

    ghost view = { λ t. record {
      width = t.width;
      state = t.controller;
      identifies = t.identifies;
      shift = t.shifting;
      tdo = t.output;
      held = t.is_held;
    } };
}

/// It only fills the places of a fixed list that hold no device.
impl Default for SideTap {
    fn default() -> Self {
        SideTap::new(WIDTH_LEAST)
    }
}

impl SideTap {
    /// In Test-Logic-Reset, with an instruction register of so many bits.
    pub fn new(len: u8) -> Self
        requires some { width_least ≤ len }
        requires few { len ≤ width_most }
        ensures { result ≡ reset_side len }
    {
        SideTap {
            width: len,
            controller: TapState::TestLogicReset,
            identifies: true,
            shifting: Bits::new(),
            output: false,
            is_held: false,
        }
    }

    /// What a capture in Capture-DR takes.
    #[tactic(auto, unfolding(jt_base::specs::BitList::bits_of))]
    fn captured(&self) -> Bits
        ensures { result ≡ captured_by self.now.identifies }
    {
        if self.identifies {
            return Bits::from_u64(IDENTIFICATION, IDENTIFICATION_BITS);
        }
        Bits::from_u64(0, 1)
    }

    /// What the state before a rise does at it: a capture or a shift.
    fn act(&mut self, tdi: bool)
        ensures { self.new ≡ record self.old { shift = side_shift_after self.old.state self.old tdi } }
    {
        match self.controller {
            TapState::CaptureDr => self.shifting = self.captured(),
            TapState::CaptureIr => {
                self.shifting = Bits::from_u64(CAPTURED_INSTRUCTION, self.width);
            }
            TapState::ShiftDr | TapState::ShiftIr => self.shifting.shift_in(tdi),
            _ => {}
        }
    }

    /// TCK rises with these levels of TMS and TDI. While TRST is 1 nothing changes.
    pub fn rise(&mut self, tms: bool, tdi: bool)
        ensures { self.new ≡ side_rises tms tdi self.old }
    {
        if self.is_held {
            return;
        }
        self.act(tdi);
        self.controller = next_state(self.controller, tms);
        if self.controller == TapState::TestLogicReset {
            self.identifies = true;
        }
    }

    /// TCK falls.
    pub fn fall(&mut self)
        ensures { self.new ≡ side_falls self.old }
    {
        self.output = match self.controller {
            TapState::ShiftDr | TapState::ShiftIr => self.shifting.lowest(),
            _ => false,
        };
        if self.controller == TapState::UpdateIr {
            self.identifies = false;
        }
    }

    /// The level of TDO.
    pub fn tdo(&self) -> bool
        ensures { result ≡ self.now.tdo }
    {
        self.output
    }

    /// TRST takes this level. At 1 the controller is in Test-Logic-Reset and stays there.
    pub fn hold_reset(&mut self, on: bool)
        ensures { self.new ≡ side_holds on self.old }
    {
        if on {
            self.controller = TapState::TestLogicReset;
            self.identifies = true;
            self.output = false;
        }
        self.is_held = on;
    }
}
