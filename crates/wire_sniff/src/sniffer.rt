ghost use Rattle.std.specs.Prelude.{◌≡◌, ◌+◌, ◌<◌, ◌≤◌, ◌^◌, ℕ, List, Some};
ghost use Rattle.wire_sniff.specs.Sniffed.{Sniffer as Definition, code_in, first_sniffer, sniffed, sniffer_asks, sniffer_falls, sniffer_held, sniffer_rises};
ghost use Rattle.wire_sniff.specs.State.{IsSniffer, is_fall};

use crate::scan::Scan;
use debug_model::{Sign, TapState, instruction_code};
use jtag_dtm::next_state;

/// The answer of a TDO that is 1.
const ONE: u8 = b'1';

/// What is known of a wire between two of its signs.
#[derive(Drop)]
pub(crate) struct Sniffer {
    pub(crate) tck: bool,
    pub(crate) state: TapState,
    /// TRST is 1.
    pub(crate) is_held: bool,
    pub(crate) code: u8,
    pub(crate) scan: Scan,
    /// The last answer since the last fall of TCK.
    pub(crate) answer: Option<bool>,
    /// How many answers have come.
    pub(crate) heard: usize,
}

/// The instruction where the controller enters this state.
fn instruction_in(state: TapState, code: u8) -> u8
    ensures { result ≡ code_in state code }
{
    match state {
        TapState::TestLogicReset => instruction_code::IDCODE,
        _ => code,
    }
}

impl Sniffer {
    /// All pins 0, the controller in Test-Logic-Reset, and nothing heard.
    pub(crate) fn new() -> Self
        ensures state { (answers : List ℕ) → IsSniffer answers result (first_sniffer answers) }
        ensures count { result.scan.count ≡ 0 }
    {
        Sniffer {
            tck: false,
            state: TapState::TestLogicReset,
            is_held: false,
            code: instruction_code::IDCODE,
            scan: Scan::captured(),
            answer: None,
            heard: 0,
        }
    }

    /// Does TCK fall at this sign?
    pub(crate) fn falls_at(&self, sign: Sign) -> bool
        ensures { result ≡ is_fall self.now.tck sign }
    {
        self.tck && matches!(sign, Sign::Pins(false, _, _))
    }

    fn rise(&mut self, tms: bool, tdi: bool)
        requires { self.old.scan.count + 1 < 2 ^ 64 }
        ensures state { (answers : List ℕ) → (s : Definition) → IsSniffer answers self.old s → IsSniffer answers self.new (sniffer_rises tms tdi s) }
        ensures count { self.new.scan.count ≤ self.old.scan.count + 1 }
    {
        self.tck = true;
        if self.is_held {
            return;
        }
        self.scan.rise(self.state, tdi, self.answer);
        self.state = next_state(self.state, tms);
        self.code = instruction_in(self.state, self.code);
    }

    fn fall(&mut self)
        ensures state { (answers : List ℕ) → (s : Definition) → IsSniffer answers self.old s → IsSniffer answers self.new (sniffer_falls s) }
        ensures count { self.new.scan.count ≡ self.old.scan.count }
    {
        self.tck = false;
        self.answer = None;
        if let TapState::UpdateIr = self.state {
            self.code = self.scan.instruction;
        }
    }

    /// Takes the next answer, where there is one.
    fn hear(&mut self, answers: &[u8])
        ensures state { (s : Definition) → IsSniffer answers.now self.old s → IsSniffer answers.now self.new (sniffer_asks s.coming s) }
        ensures count { self.new.scan.count ≡ self.old.scan.count }
    {
        if self.heard < answers.len() {
            self.answer = Some(answers[self.heard] == ONE);
            self.heard += 1;
        }
    }

    fn hold(&mut self, is_held: bool)
        ensures state { (answers : List ℕ) → (s : Definition) → IsSniffer answers self.old s → IsSniffer answers self.new (sniffer_held is_held s) }
        ensures count { self.new.scan.count ≡ self.old.scan.count }
    {
        self.is_held = is_held;
        if is_held {
            self.state = TapState::TestLogicReset;
            self.code = instruction_code::IDCODE;
        }
    }

    /// Takes one sign, and the next of the answers where it asks for one.
    pub(crate) fn take(&mut self, sign: Sign, answers: &[u8])
        requires { self.old.scan.count + 1 < 2 ^ 64 }
        ensures state { (s : Definition) → IsSniffer answers.now self.old s → IsSniffer answers.now self.new (sniffed (Some sign) s) }
        ensures count { self.new.scan.count ≤ self.old.scan.count + 1 }
    {
        match sign {
            Sign::Pins(tck, tms, tdi) => match (self.tck, tck) {
                (false, true) => self.rise(tms, tdi),
                (true, false) => self.fall(),
                _ => {}
            },
            Sign::Ask => self.hear(answers),
            Sign::Reset(level) => self.hold(level),
            Sign::Light | Sign::Quit => {}
        }
    }
}
