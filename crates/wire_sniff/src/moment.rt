ghost use Rattle.std.specs.Prelude.{◌≡◌, ◌≤◌, ◌+◌, ◌<◌, ◌^◌, ◌++◌, ℕ, List, Some, flat_map};
ghost use Rattle.arrayvec.specs.ArrayVec.{array_vec_len};
ghost use Rattle.wire_sniff.specs.Sniffed.{sign_lines};
ghost use Rattle.wire_sniff.specs.State.{IsMoment, IsSniffer, change_of, line_of};
ghost use Rattle.wire_sniff.specs.Waves.{Moment as Definition, binary, dmi_change, first_moment, level_digit, levels, line_change};
ghost use Rattle.wire_sniff.specs.Waves.{moment_after, scalar, seen_digit, state_number, time_line, vector, wire_levels};

use crate::line::{DmiLine, shown_by};
use crate::sniffer::Sniffer;
use crate::text::{LINE_MOST, LineText, push_decimal, push_word};
use debug_model::{DmiOp, Sign, TapState};

/// The most bytes of all levels: five digits and the state, each with the code of its variable.
const LEVELS_MOST: usize = 23;

/// The bits of a state's number, of what a scan of dmi shows, of an address and of a word.
const STATE_BITS: u8 = 4;

const KIND_BITS: u8 = 3;

const ADDRESS_BITS: u8 = 7;

const WORD_BITS: u8 = 32;

/// The codes of the variables.
const TCK: u8 = b'!';

const TMS: u8 = b'"';

const TDI: u8 = b'#';

const TRST: u8 = b'$';

const TDO: u8 = b'%';

const STATE: u8 = b'&';

const DMI: u8 = b'\'';

const KIND: u8 = b'(';

const ADDRESS: u8 = b')';

const VALUE: u8 = b'*';

/// What a waveform shows of a wire between two of its signs.
#[derive(Drop)]
pub(crate) struct Moment {
    pub(crate) tms: bool,
    pub(crate) tdi: bool,
    pub(crate) sniffer: Sniffer,
}

/// The digit of a level.
fn level_digit(level: bool) -> u8
    ensures { result ≡ level_digit level }
{
    if level { b'1' } else { b'0' }
}

/// The digit of TDO where it was asked, else `x`.
fn seen_digit(level: Option<bool>) -> u8
    ensures { result ≡ seen_digit level }
{
    match level {
        Some(level) => level_digit(level),
        None => b'x',
    }
}

/// The number of a state of the TAP.
fn state_number(state: TapState) -> u64
    ensures { result ≡ state_number state }
{
    match state {
        TapState::TestLogicReset => 0,
        TapState::RunTestIdle => 1,
        TapState::SelectDr => 2,
        TapState::CaptureDr => 3,
        TapState::ShiftDr => 4,
        TapState::Exit1Dr => 5,
        TapState::PauseDr => 6,
        TapState::Exit2Dr => 7,
        TapState::UpdateDr => 8,
        TapState::SelectIr => 9,
        TapState::CaptureIr => 10,
        TapState::ShiftIr => 11,
        TapState::Exit1Ir => 12,
        TapState::PauseIr => 13,
        TapState::Exit2Ir => 14,
        TapState::UpdateIr => 15,
    }
}

/// Appends a digit with the code of its variable.
fn push_scalar(text: &mut LineText, digit: u8, code: u8)
    requires { array_vec_len text.old + 3 ≤ LINE_MOST }
    ensures digits { text.new.items ≡ text.old.items ++ scalar digit code }
    ensures room { array_vec_len text.new ≡ array_vec_len text.old + 3 }
{
    text.push(digit);
    text.push(code);
    text.push(b'\n');
}

/// Appends the lowest so many bits of a number, the highest first.
#[tactic(auto, unfolding(crate::specs::Waves::binary))]
fn push_binary(text: &mut LineText, count: u8, number: u64)
    requires { array_vec_len text.old + count ≤ LINE_MOST }
    ensures digits { text.new.items ≡ text.old.items ++ binary count number }
    ensures room { array_vec_len text.new ≡ array_vec_len text.old + count }
{
    if count == 0 {
        return;
    }
    push_binary(text, count - 1, number / 2);
    text.push(b'0' + (number % 2) as u8);
}

/// Appends several bits with the code of their variable.
fn push_vector(text: &mut LineText, count: u8, number: u64, code: u8)
    requires { array_vec_len text.old + count + 4 ≤ LINE_MOST }
    ensures digits { text.new.items ≡ text.old.items ++ vector count number code }
    ensures room { array_vec_len text.new ≡ array_vec_len text.old + count + 4 }
{
    text.push(b'b');
    push_binary(text, count, number);
    text.push(b' ');
    text.push(code);
    text.push(b'\n');
}

/// The text of what a scan of dmi shows: what it is, an address and a word.
#[tactic(auto, unfolding(crate::specs::Waves::dmi_change))]
fn dmi_change(kind: u64, address: u64, value: u64) -> LineText
    ensures { result.items ≡ dmi_change kind address value }
{
    let mut text = LineText::new();
    push_scalar(&mut text, b'1', DMI);
    push_vector(&mut text, KIND_BITS, kind, KIND);
    push_vector(&mut text, ADDRESS_BITS, address, ADDRESS);
    push_vector(&mut text, WORD_BITS, value, VALUE);
    text
}

/// The text of the change that a line about dmi is.
pub(crate) fn line_change(line: DmiLine) -> LineText
    ensures { result.items ≡ line_change (line_of line) }
{
    match line {
        DmiLine::Asked(DmiOp::Read(address)) => dmi_change(1, u64::from(address), 0),
        DmiLine::Asked(DmiOp::Write(address, value)) => {
            dmi_change(2, u64::from(address), u64::from(value))
        }
        DmiLine::Failed => dmi_change(3, 0, 0),
        DmiLine::Busy => dmi_change(4, 0, 0),
        DmiLine::Odd => dmi_change(5, 0, 0),
        DmiLine::Unseen => dmi_change(6, 0, 0),
    }
}

impl Moment {
    /// All pins 0, and nothing heard.
    pub(crate) fn new() -> Self
        ensures state { (answers : List ℕ) → IsMoment answers result (first_moment answers) }
        ensures count { result.sniffer.scan.count ≡ 0 }
    {
        Moment {
            tms: false,
            tdi: false,
            sniffer: Sniffer::new(),
        }
    }

    /// Appends every level.
    #[tactic(auto, unfolding(crate::specs::Waves::wire_levels))]
    fn push_levels(&self, text: &mut LineText)
        requires { array_vec_len text.old + LEVELS_MOST ≤ LINE_MOST }
        ensures { text.new.items ≡ text.old.items ++ wire_levels self.now.sniffer.tck self.now.tms self.now.tdi
            self.now.sniffer.is_held self.now.sniffer.answer self.now.sniffer.state }
    {
        push_scalar(text, level_digit(self.sniffer.tck), TCK);
        push_scalar(text, level_digit(self.tms), TMS);
        push_scalar(text, level_digit(self.tdi), TDI);
        push_scalar(text, level_digit(self.sniffer.is_held), TRST);
        push_scalar(text, seen_digit(self.sniffer.answer), TDO);
        push_vector(text, STATE_BITS, state_number(self.sniffer.state), STATE);
    }

    /// The text of every level.
    pub(crate) fn levels(&self) -> LineText
        ensures { (answers : List ℕ) → (m : Definition) → IsMoment answers self.now m → result.items ≡ levels m }
    {
        let mut text = LineText::new();
        self.push_levels(&mut text);
        text
    }

    /// The text of every level at this time.
    pub(crate) fn levels_at(&self, time: u64) -> LineText
        ensures { (answers : List ℕ) → (m : Definition) → IsMoment answers self.now m → result.items ≡ time_line time ++ levels m }
    {
        let mut text = LineText::new();
        push_word(&mut text, b"#");
        push_decimal(&mut text, time);
        text.push(b'\n');
        self.push_levels(&mut text);
        text
    }

    /// What a sign shows of a scan of dmi.
    pub(crate) fn shows(&self, sign: Sign) -> Option<DmiLine>
        ensures { (answers : List ℕ) → (m : Definition) → IsMoment answers self.now m
            → flat_map line_change (sign_lines (Some sign) m.sniffer) ≡ change_of result }
    {
        match self.sniffer.state {
            TapState::UpdateDr if self.sniffer.falls_at(sign) => shown_by(&self.sniffer),
            _ => None,
        }
    }

    /// Takes one sign, and the next of the answers where it asks for one.
    pub(crate) fn take(&mut self, sign: Sign, answers: &[u8])
        requires { self.old.sniffer.scan.count + 1 < 2 ^ 64 }
        ensures state { (m : Definition) → IsMoment answers.now self.old m → IsMoment answers.now self.new (moment_after (Some sign) m) }
        ensures count { self.new.sniffer.scan.count ≤ self.old.sniffer.scan.count + 1 }
    {
        if let Sign::Pins(_, tms, tdi) = sign {
            self.tms = tms;
            self.tdi = tdi;
        }
        self.sniffer.take(sign, answers);
    }
}
